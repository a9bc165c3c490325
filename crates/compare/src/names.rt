// Names as a script writes them: = and the bytes, others than A-Za-z0-9_./- as %HH.
ghost use Rattle.std.specs.Prelude.{length};
ghost use Rattle.std.specs.Iterator.{at_most};

use crate::fault::Fault;
use crate::malformed::Malformed;
use crate::numbers::byte_of;
use percent_encoding::{AsciiSet, NON_ALPHANUMERIC, ascii_set, percent_encode};
use std::alloc::Global;
use std::fmt;

fn is_plain(b: u8) -> bool {
    b.is_ascii_alphanumeric() || matches!(b, b'_' | b'.' | b'/' | b'-')
}

// The bytes that a written name stands for, up to one that is not written so.
// By hand: the library's percent decoding refuses nothing, but takes a malformed % and unescaped bytes as they stand.
#[derive(Drop)]
struct Bytes<'a> {
    rest: &'a [u8],
}

impl Iterator for Bytes<'_> {
    type Item = Result<u8, Fault>;

    ghost remaining = { λ s. at_most (length s.rest.now) };

    fn next(&mut self) -> Option<Result<u8, Fault>> {
        let (byte, rest) = match self.rest {
            [] => return None,
            [b'%', high, low, rest @ ..] => (byte_of(*high, *low), rest),
            [plain, rest @ ..] => (is_plain(*plain).then_some(*plain), rest),
        };
        self.rest = rest;
        Some(byte.ok_or(Malformed::NotAName.into()))
    }
}

pub fn decoded(heap: Global, text: &[u8]) -> Result<Vec<u8>, Fault> {
    Bytes { rest: text }.try_collect(heap)
}

// What a name's bytes are not written as they stand.
const ESCAPED: AsciiSet = ascii_set!(
    NON_ALPHANUMERIC
        .remove(b'_')
        .remove(b'.')
        .remove(b'/')
        .remove(b'-')
);

// A name as it is printed.
#[derive(Drop)]
pub struct Shown<'a>(pub &'a [u8]);

impl fmt::Display for Shown<'_> {
    fn fmt<W: fmt::Write>(&self, f: &mut fmt::Formatter<W>) -> fmt::Result {
        write!(f, "={}", percent_encode(self.0, ESCAPED))
    }
}
