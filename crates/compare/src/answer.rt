// Answers and refusals as they are printed.
use crate::names::Shown;
use elements::BtfElement;
use layout::{BtfError, BtfType};
use std::fmt;

#[derive(Drop)]
pub enum Answer<'s> {
    Done,
    Number(u32),
    Name(&'s [u8]),
    Head(BtfType),
    Element(BtfElement),
    File(Vec<u8>),
    Unsupported,
}

// The words that a kind lacks are not printed.
fn show_head<W: fmt::Write>(head: &BtfType, f: &mut fmt::Formatter<W>) -> fmt::Result {
    let BtfType {
        name_offset,
        info,
        size_or_type,
        extra,
    } = head;
    write!(f, "ok {name_offset} {info} {size_or_type}")?;
    for word in extra.iter().take(head.kind().extra_words()) {
        write!(f, " {word}")?;
    }
    Ok(())
}

fn show_element<W: fmt::Write>(element: &BtfElement, f: &mut fmt::Formatter<W>) -> fmt::Result {
    match element {
        BtfElement::Variant(e) => write!(f, "ok {} {}", e.name_offset, e.value),
        BtfElement::Param(e) => write!(f, "ok {} {}", e.name_offset, e.btf_type),
        BtfElement::Variant64(e) => {
            write!(f, "ok {} {} {}", e.name_offset, e.value_low, e.value_high)
        }
        BtfElement::Member(e) => write!(f, "ok {} {} {}", e.name_offset, e.btf_type, e.offset),
        BtfElement::Entry(e) => write!(f, "ok {} {} {}", e.btf_type, e.offset, e.size),
    }
}

fn show_file<W: fmt::Write>(bytes: &[u8], f: &mut fmt::Formatter<W>) -> fmt::Result {
    write!(f, "ok {} ", bytes.len())?;
    for byte in bytes {
        write!(f, "{byte:02x}")?;
    }
    Ok(())
}

impl fmt::Display for Answer<'_> {
    fn fmt<W: fmt::Write>(&self, f: &mut fmt::Formatter<W>) -> fmt::Result {
        match self {
            Answer::Done => f.write_str("ok"),
            Answer::Number(number) => write!(f, "ok {number}"),
            Answer::Name(name) => write!(f, "ok {}", Shown(name)),
            Answer::Head(head) => show_head(head, f),
            Answer::Element(element) => show_element(element, f),
            Answer::File(bytes) => show_file(bytes, f),
            Answer::Unsupported => f.write_str("unsupported"),
        }
    }
}

// A refusal is printed with its number and the value that aya-obj gives with such an error. Where aya-obj has no such
// error, it is the value of this library.
#[derive(Clone, Copy)]
pub struct Refusal(pub BtfError);

impl Refusal {
    fn value(&self) -> Option<u64> {
        match self.0 {
            BtfError::UnexpectedBtfType { type_id }
            | BtfError::MaximumTypeDepthReached { type_id } => Some(u64::from(type_id)),
            BtfError::InvalidTypeInfo { .. } | BtfError::NoSuchElement { .. } => None,
            e => e.value(),
        }
    }
}

impl fmt::Display for Refusal {
    fn fmt<W: fmt::Write>(&self, f: &mut fmt::Formatter<W>) -> fmt::Result {
        write!(f, "refused {}", self.0.number())?;
        match self.value() {
            Some(value) => write!(f, " {value}"),
            None => Ok(()),
        }
    }
}
