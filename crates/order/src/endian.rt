// The two byte orders that are built, by their words. It is no `ByteOrder` itself: that trait means one order for a type, and
// would have to mean one for a value to be fit for this enum alone.
ghost use Rattle.std.specs.Prelude.{◌≡◌, Some, MatchResult, codes};
ghost use Rattle.order.specs.Endian.{order_word, NamesNoOrder};

use std::error::Error;
use std::fmt;

#[derive(Clone, Copy, Debug, PartialEq, Eq)]
pub enum Endian {
    Little,
    Big,
}

impl fmt::Display for Endian {
    ghost output = { λ endian. Some (order_word endian) };

    fn fmt<W: fmt::Write>(&self, f: &mut fmt::Formatter<W>) -> fmt::Result {
        f.write_str(match self {
            Endian::Little => "little",
            Endian::Big => "big",
        })
    }
}

// A word that is no byte order's.
#[derive(Clone, Copy, Debug, PartialEq, Eq)]
pub struct UnknownEndian;

// By hand, since a derive states no text.
impl fmt::Display for UnknownEndian {
    ghost output = { λ _. Some (codes "the byte order is neither little nor big") };

    fn fmt<W: fmt::Write>(&self, f: &mut fmt::Formatter<W>) -> fmt::Result {
        f.write_str("the byte order is neither little nor big")
    }
}

impl Error for UnknownEndian {}

impl TryFrom<&[u8]> for Endian {
    type Error = UnknownEndian;

    ghost try_from_gives = { λ word result. MatchResult result (λ endian. word.now ≡ order_word endian) (λ _. NamesNoOrder word.now) };

    fn try_from(word: &[u8]) -> Result<Endian, UnknownEndian> {
        if word == b"little".as_slice() {
            Ok(Endian::Little)
        } else if word == b"big".as_slice() {
            Ok(Endian::Big)
        } else {
            Err(UnknownEndian)
        }
    }
}
