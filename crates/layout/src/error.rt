// What a table refuses, under the names of aya-obj where it has them.
ghost use Rattle.std.specs.Prelude.{◌≡◌, Some};
ghost use Rattle.layout.specs.Refusals.{said};
ghost use Rattle.layout.specs.Shown.{shown, value_label, part, mark};

use std::error::Error;
use std::fmt;

// The three areas that a table is kept in.
#[derive(Clone, Copy, Debug, PartialEq, Eq)]
pub enum Area {
    Declarations,
    Elements,
    Strings,
}

#[derive(Clone, Copy, Debug, PartialEq, Eq)]
pub enum BtfError {
    // The table was made over an empty area, or the string area is shorter than its strings.
    NoTable,
    InvalidTypeKind {
        kind: u32,
    },
    UnexpectedFlag,
    InvalidLinkage {
        linkage: u32,
    },
    TooManyElements {
        count: usize,
    },
    ZeroByteInName {
        place: usize,
    },
    // A name offset with the declaration and the element that hold it, where one does.
    InvalidStringOffset {
        holder: Option<u32>,
        element: Option<u32>,
        offset: u32,
    },
    // An id that no declaration has, with the declaration and the element that name it, where one does.
    UnknownBtfType {
        holder: Option<u32>,
        element: Option<u32>,
        type_id: u32,
    },
    UnexpectedBtfType {
        type_id: u32,
    },
    InvalidTypeInfo {
        type_id: u32,
        product: u64,
    },
    MaximumTypeDepthReached {
        type_id: u32,
    },
    UnknownBtfTypeName,
    NoRoom {
        area: Area,
    },
    OutputTooShort {
        needed: usize,
    },
    NoSuchElement {
        type_id: u32,
        element: u32,
    },
}

impl BtfError {
    pub fn number(&self) -> u8
        ensures { result ≡ (said self.now).number }
    {
        match self {
            BtfError::NoTable => 1,
            BtfError::InvalidTypeKind { .. } => 2,
            BtfError::UnexpectedFlag => 3,
            BtfError::InvalidLinkage { .. } => 3,
            BtfError::TooManyElements { .. } => 4,
            BtfError::ZeroByteInName { .. } => 5,
            BtfError::InvalidStringOffset { .. } => 6,
            BtfError::UnknownBtfType { .. } => 7,
            BtfError::UnexpectedBtfType { .. } => 8,
            BtfError::InvalidTypeInfo { .. } => 9,
            BtfError::MaximumTypeDepthReached { .. } => 10,
            BtfError::UnknownBtfTypeName => 11,
            BtfError::NoRoom { .. } => 16,
            BtfError::OutputTooShort { .. } => 17,
            BtfError::NoSuchElement { .. } => 18,
        }
    }

    // The id of the declaration that was read.
    pub fn declaration(&self) -> Option<u32>
        ensures { result ≡ (said self.now).declaration }
    {
        match *self {
            BtfError::InvalidStringOffset { holder, .. } => holder,
            BtfError::UnknownBtfType { holder, .. } => holder,
            BtfError::UnexpectedBtfType { type_id } => Some(type_id),
            BtfError::InvalidTypeInfo { type_id, .. } => Some(type_id),
            BtfError::MaximumTypeDepthReached { type_id } => Some(type_id),
            BtfError::NoSuchElement { type_id, .. } => Some(type_id),
            _ => None,
        }
    }

    // The element of that declaration, from 0.
    pub fn element(&self) -> Option<u32>
        ensures { result ≡ (said self.now).element }
    {
        match *self {
            BtfError::InvalidStringOffset { element, .. } => element,
            BtfError::UnknownBtfType { element, .. } => element,
            BtfError::NoSuchElement { element, .. } => Some(element),
            _ => None,
        }
    }

    // The refused value.
    pub fn value(&self) -> Option<u64>
        ensures { result ≡ (said self.now).value }
    {
        match *self {
            BtfError::InvalidTypeKind { kind } => Some(kind as u64),
            BtfError::UnexpectedFlag => Some(1),
            BtfError::InvalidLinkage { linkage } => Some(linkage as u64),
            BtfError::TooManyElements { count } => Some(count as u64),
            BtfError::ZeroByteInName { place } => Some(place as u64),
            BtfError::InvalidStringOffset { offset, .. } => Some(offset as u64),
            BtfError::UnknownBtfType { type_id, .. } => Some(type_id as u64),
            BtfError::InvalidTypeInfo { product, .. } => Some(product),
            BtfError::NoRoom { area } => Some(area as u64),
            BtfError::OutputTooShort { needed } => Some(needed as u64),
            _ => None,
        }
    }
}

impl BtfError {
    // What the refused value is.
    fn value_label(&self) -> &'static str
        ensures { result.now ≡ value_label self.now }
    {
        match self {
            BtfError::InvalidTypeKind { .. } => "kind",
            BtfError::UnexpectedFlag => "flag",
            BtfError::InvalidLinkage { .. } => "linkage",
            BtfError::TooManyElements { .. } => "elements",
            BtfError::ZeroByteInName { .. } => "place",
            BtfError::InvalidStringOffset { .. } => "offset",
            BtfError::UnknownBtfType { .. } => "id",
            BtfError::InvalidTypeInfo { .. } => "product",
            BtfError::NoRoom { .. } => "area",
            BtfError::OutputTooShort { .. } => "bytes",
            _ => "value",
        }
    }
}

// A number behind a mark and what it is, or nothing where there is none.
#[derive(Clone, Copy)]
struct Part<'a> {
    mark: &'a str,
    label: &'a str,
    number: Option<u64>,
}

impl fmt::Display for Part<'_> {
    ghost output = { λ p. Some (part p.mark.now p.label.now p.number) };

    fn fmt<W: fmt::Write>(&self, f: &mut fmt::Formatter<W>) -> fmt::Result {
        match self.number {
            Some(number) => write!(f, "{} {} {number}", self.mark, self.label),
            None => Ok(()),
        }
    }
}

// The first part stands behind a colon, the others behind commas.
fn mark(others: bool) -> &'static str
    ensures { result.now ≡ mark others }
{
    if others { "," } else { ":" }
}

// By hand, since a derive states no text.
impl fmt::Display for BtfError {
    ghost output = { λ e. Some (shown e) };

    fn fmt<W: fmt::Write>(&self, f: &mut fmt::Formatter<W>) -> fmt::Result {
        let value = Part {
            mark: mark(false),
            label: self.value_label(),
            number: self.value(),
        };
        let declaration = Part {
            mark: mark(value.number.is_some()),
            label: "at id",
            number: self.declaration().map(u64::from),
        };
        let element = Part {
            mark: mark(value.number.is_some() || declaration.number.is_some()),
            label: "element",
            number: self.element().map(u64::from),
        };
        write!(f, "refused {}{value}{declaration}{element}", self.number())
    }
}

impl Error for BtfError {}
