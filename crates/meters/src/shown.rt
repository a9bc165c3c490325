// Bytes, kinds and declarations as they are printed.
use elements::BtfElement;
use layout::{BtfKind, BtfType};
use std::fmt;

// Bytes that may be any: text as it stands, and as `\x1b` what is no text or would not show.
#[derive(Drop)]
pub struct Shown<'a>(pub &'a [u8]);

fn show_text<W: fmt::Write>(text: &str, f: &mut fmt::Formatter<W>) -> fmt::Result {
    for c in text.chars() {
        if c.is_control() {
            write!(f, "\\x{:02x}", u32::from(c))?;
        } else {
            f.write_char(c)?;
        }
    }
    Ok(())
}

fn show_bytes<W: fmt::Write>(bytes: &[u8], f: &mut fmt::Formatter<W>) -> fmt::Result {
    for byte in bytes {
        match *byte {
            b' '..=b'~' => f.write_char(char::from(*byte))?,
            other => write!(f, "\\x{other:02x}")?,
        }
    }
    Ok(())
}

impl fmt::Display for Shown<'_> {
    fn fmt<W: fmt::Write>(&self, f: &mut fmt::Formatter<W>) -> fmt::Result {
        match std::str::from_utf8(self.0) {
            Ok(text) => show_text(text, f),
            Err(_) => show_bytes(self.0, f),
        }
    }
}

// Bytes in hexadecimal.
#[derive(Drop)]
pub struct Hex<'a>(pub &'a [u8]);

impl fmt::Display for Hex<'_> {
    fn fmt<W: fmt::Write>(&self, f: &mut fmt::Formatter<W>) -> fmt::Result {
        for byte in self.0 {
            write!(f, "{byte:02x}")?;
        }
        Ok(())
    }
}

// A declaration with its name: `ENUM verdict 4 bytes, flagged, 3 elements`.
#[derive(Drop)]
pub struct Heading<'a> {
    pub head: BtfType,
    pub name: &'a [u8],
}

// What the third word and an Array's words say.
fn show_words<W: fmt::Write>(head: &BtfType, f: &mut fmt::Formatter<W>) -> fmt::Result {
    match (head.size(), head.btf_type(), head.kind()) {
        (Some(size), _, _) => write!(f, " {size} bytes"),
        (_, Some(id), _) => write!(f, " of id {id}"),
        (_, _, BtfKind::Array) => {
            let [element, _, len] = head.extra;
            write!(f, " {len} times id {element}")
        }
        _ => Ok(()),
    }
}

// What the flag and the count in the info word say.
fn show_info<W: fmt::Write>(head: &BtfType, f: &mut fmt::Formatter<W>) -> fmt::Result {
    if head.kind_flag() {
        f.write_str(", flagged")?;
    }
    let count = head.element_count();
    if 0 < count {
        write!(f, ", {count} elements")?;
    }
    Ok(())
}

impl fmt::Display for Heading<'_> {
    fn fmt<W: fmt::Write>(&self, f: &mut fmt::Formatter<W>) -> fmt::Result {
        write!(f, "{}", self.head.kind())?;
        if !self.name.is_empty() {
            write!(f, " {}", Shown(self.name))?;
        }
        show_words(&self.head, f)?;
        show_info(&self.head, f)
    }
}

// An element, whose name is printed as the offset where it stands.
#[derive(Clone, Copy)]
pub struct ShownElement(pub BtfElement);

impl fmt::Display for ShownElement {
    fn fmt<W: fmt::Write>(&self, f: &mut fmt::Formatter<W>) -> fmt::Result {
        match self.0 {
            BtfElement::Variant(e) => write!(f, "name {} value {}", e.name_offset, e.value),
            BtfElement::Param(e) => write!(f, "name {} of id {}", e.name_offset, e.btf_type),
            BtfElement::Variant64(e) => write!(
                f,
                "name {} value low {} high {}",
                e.name_offset, e.value_low, e.value_high
            ),
            BtfElement::Member(e) => write!(
                f,
                "name {} of id {} at bit {}",
                e.name_offset, e.btf_type, e.offset
            ),
            BtfElement::Entry(e) => write!(
                f,
                "id {} at byte {}, {} bytes",
                e.btf_type, e.offset, e.size
            ),
        }
    }
}
