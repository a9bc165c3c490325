// A swap sheet: how it is read, and cut into lines and fields.
ghost use Rattle.std.specs.Prelude.{◌≡◌, ℕ, ◌<◌, ◌≤◌, length, vec_len, IfOk, MatchOption, MatchResult};
ghost use Rattle.order.specs.Endian.{order_word, NamesNoOrder};
ghost use Rattle.meters.specs.Sheets.{Split, Lacks, AllPrintable, Named, Fields};

use bstr::{ByteSlice, LinesWithTerminator};
use order::{Endian, UnknownEndian};
use std::io;
use std::io::Read;
use thiserror::Error;

// How much of a sheet is read.
const MOST_BYTES: usize = 1 << 20;

const LONGEST_NAME: usize = 64;

// Why a row is not used.
#[derive(Clone, Copy, Debug, PartialEq, Eq, Error)]
pub enum Malformed {
    #[error("the row has {count} fields, not 3")]
    Fields { count: usize },
    #[error("the gateway has no name")]
    EmptyName,
    #[error("the name has {length} bytes, more than {most}", most = LONGEST_NAME)]
    LongName { length: usize },
    #[error("byte {place} of the name is not printable ASCII")]
    UnprintableName { place: usize },
    #[error("the name stood in line {line}")]
    RepeatedName { line: usize },
    #[error(transparent)]
    Order(#[from] UnknownEndian),
}

// What was read of a sheet, and whether there was more.
#[derive(Drop)]
pub struct Sheet {
    pub bytes: Vec<u8>,
    pub is_cut: bool,
}

impl Sheet {
    // Reads a sheet from standard input. Of one that is too long, only whole lines are kept.
    pub fn read(rt: &HostRuntime) -> io::Result<Sheet> {
        let mut bytes = Vec::new(rt.alloc());
        rt.stdin()
            .take(MOST_BYTES as u64 + 1)
            .read_to_end(&mut bytes)?;
        let is_cut = MOST_BYTES < bytes.len();
        if is_cut {
            bytes.truncate(MOST_BYTES);
            let kept = whole_lines(bytes.as_slice());
            bytes.truncate(kept);
        }
        Ok(Sheet { bytes, is_cut })
    }

    // The lines with their ends. The last may lack a line break.
    pub fn lines(&self) -> LinesWithTerminator<'_>
        ensures { length result ≤ vec_len self.now.bytes }
    {
        self.bytes.as_slice().lines_with_terminator()
    }
}

// How many bytes there are up to the last line break, with it.
fn whole_lines(bytes: &[u8]) -> usize
    ensures { result ≤ length bytes.now }
{
    bytes.rfind_byte(b'\n').map_or(0, |i| i + 1)
}

// A line without its end: LF, CR LF, or a CR behind which nothing stands.
pub fn without_end(line: &[u8]) -> &[u8] {
    let line = line.strip_suffix(b"\n").unwrap_or(line);
    line.strip_suffix(b"\r").unwrap_or(line)
}

// Whether a line is blank or a comment.
pub fn is_passed_over(line: &[u8]) -> bool {
    line.starts_with(b"#") || line.iter().all(|b| matches!(b, b' ' | b'\t'))
}

// What stands before and behind the first such byte.
// By hand: bstr's `split_once_str` says it of matches of a needle, which the proof would have to read as bytes again.
fn split_once(bytes: &[u8], byte: u8) -> Option<(&[u8], &[u8])>
    ensures { MatchOption result (Lacks bytes.now byte) (λ p. Split bytes.now byte p.0.now p.1.now) }
{
    let i = bytes.find_byte(byte)?;
    Some((&bytes[..i], &bytes[i + 1..]))
}

// The fields of a row, each with all that stands between the commas. Only the name has been checked.
#[derive(Clone, Copy)]
pub struct Row<'a> {
    pub name: &'a str,
    pub order: &'a [u8],
    pub kernel: &'a [u8],
}

impl<'a> TryFrom<&'a [u8]> for Row<'a> {
    type Error = Malformed;

    ghost try_from_gives = { λ line result. IfOk result (λ row. Fields line.now row.name.now row.order.now row.kernel.now × Named row.name.now) };

    fn try_from(line: &'a [u8]) -> Result<Row<'a>, Malformed> {
        let commas = line.iter().filter(|b| **b == b',').count();
        let fault = Malformed::Fields {
            count: commas.saturating_add(1),
        };
        let (name, rest) = split_once(line, b',').ok_or(fault)?;
        let (order, kernel) = split_once(rest, b',').ok_or(fault)?;
        if kernel.find_byte(b',').is_some() {
            return Err(fault);
        }
        Ok(Row {
            name: checked_name(name)?,
            order,
            kernel,
        })
    }
}

impl Row<'_> {
    // The byte order that the row names.
    pub fn endian(&self) -> Result<Endian, UnknownEndian>
        ensures { MatchResult result (λ e. self.now.order.now ≡ order_word e) (λ _. NamesNoOrder self.now.order.now) }
    {
        Endian::try_from(self.order)
    }
}

// The place of the first byte that is not printable ASCII.
fn unprintable(bytes: &[u8]) -> Option<usize>
    ensures { MatchOption result (AllPrintable bytes.now) (λ i. i < length bytes.now) }
{
    bytes.iter().position(|b| !matches!(b, b' '..=b'~'))
}

// A name as text: of 1 to 64 bytes, all of them printable ASCII.
fn checked_name(bytes: &[u8]) -> Result<&str, Malformed>
    ensures { IfOk result (λ s. (s.now ≡ bytes.now) × Named s.now) }
{
    let length = bytes.len();
    if bytes.is_empty() {
        return Err(Malformed::EmptyName);
    }
    if LONGEST_NAME < length {
        return Err(Malformed::LongName { length });
    }
    if let Some(place) = unprintable(bytes) {
        return Err(Malformed::UnprintableName { place });
    }
    std::str::from_utf8(bytes).map_err(|e| Malformed::UnprintableName {
        place: e.valid_up_to(),
    })
}
