// Calls of a table as data, and what they say: the tests are lists of calls and answers, which functions could not be.
use elements::{BtfElement, BtfMember, DataSecEntry};
use layout::{BtfError, BtfKind, BtfType, Declaration, PointerWidth};

#[derive(Clone, Copy)]
pub enum Call {
    AddString(&'static [u8]),
    // a kind, a name offset and a third word
    Add(BtfKind, u32, u32),
    // an element id and a length
    AddArray(u32, u32),
    // a kind's number, a flag and a linkage, with the third word 9 and the extra words 5, 6, 7
    AddRaw(u32, bool, u32),
    AddMany(Many),
    Ask(Question),
    // into a buffer of so many bytes
    Encode(usize),
}

// So many of one thing. What the last adding says is the answer.
#[derive(Clone, Copy)]
pub enum Many {
    // letters of one name
    Letters(usize),
    // Consts, the first of id 2, the next of id 3 and so on
    Consts(u32),
    // Structs, of so many members each
    Structs(u32, usize),
    // section entries of one declaration, of a kind and a flag
    Entries(BtfKind, bool, usize),
}

#[derive(Clone, Copy)]
pub enum Question {
    StringAt(u32),
    TypeById(u32),
    ElementAt(u32, u32),
    TypeName(u32),
    Find(&'static [u8], BtfKind),
    Resolve(u32),
    Size(u32, PointerWidth),
}

// The members and the section entries of which there are many.
pub const MEMBER: BtfMember = BtfMember {
    name_offset: 1,
    btf_type: 2,
    offset: 3,
};

pub const ENTRY: DataSecEntry = DataSecEntry {
    btf_type: 4,
    offset: 5,
    size: 6,
};

pub const NO_MEMBERS: &[BtfMember] = &[];

// A declaration with all words filled, of a kind's number, which may be no kind's.
pub fn raw(kind: u32, flag: bool, linkage: u32) -> Declaration {
    Declaration {
        name_offset: 0,
        kind,
        flag,
        linkage,
        size_or_type: 9,
        extra: [5, 6, 7],
    }
}

#[derive(Clone, Copy, PartialEq, Debug)]
pub enum Said {
    Number(u64),
    Pair(u32, u32),
    // a name, and dots up to eight bytes: an answer that borrowed the name could not be kept while the table changes
    Text([u8; 8]),
    Head(BtfType),
    Element(BtfElement),
    // a refusal's number, declaration, element and value: numbers, since the published ones are what is tested
    No(u8, Option<u32>, Option<u32>, Option<u64>),
}

// A call, and what it is to say.
pub type Step = (Call, Said);

impl From<u32> for Said {
    fn from(n: u32) -> Self {
        Said::Number(u64::from(n))
    }
}

impl From<usize> for Said {
    fn from(n: usize) -> Self {
        Said::Number(n as u64)
    }
}

impl From<(u32, u32)> for Said {
    fn from((n, links): (u32, u32)) -> Self {
        Said::Pair(n, links)
    }
}

impl From<&[u8]> for Said {
    fn from(name: &[u8]) -> Self {
        let mut text = *b"........";
        for (place, byte) in text.iter_mut().zip(name) {
            *place = *byte;
        }
        Said::Text(text)
    }
}

impl From<BtfType> for Said {
    fn from(head: BtfType) -> Self {
        Said::Head(head)
    }
}

impl From<BtfElement> for Said {
    fn from(element: BtfElement) -> Self {
        Said::Element(element)
    }
}

impl From<BtfError> for Said {
    fn from(e: BtfError) -> Self {
        Said::No(e.number(), e.declaration(), e.element(), e.value())
    }
}

impl<T: Into<Said> + Drop> From<Result<T, BtfError>> for Said {
    fn from(answer: Result<T, BtfError>) -> Self {
        match answer {
            Ok(told) => told.into(),
            Err(e) => e.into(),
        }
    }
}
