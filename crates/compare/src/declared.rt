// Declarations as a script gives them.
use crate::fault::Fault;
use crate::malformed::{Malformed, Part};
use crate::words::Words;
use declare::{
    Array, Const, DataSec, DeclTag, Enum, Enum64, Float, Func, FuncProto, Fwd, Int, Ptr, Restrict,
    Struct, TypeTag, Typedef, Union, Var, Volatile,
};
use elements::{BtfEnum, BtfEnum64, BtfMember, BtfParam, DataSecEntry};
use layout::{BtfKind, Declaration, Linkage};

// The elements of a declaration.
#[derive(Drop)]
pub enum Tail {
    Values(Vec<BtfEnum>),
    Values64(Vec<BtfEnum64>),
    Members(Vec<BtfMember>),
    Params(Vec<BtfParam>),
    Entries(Vec<DataSecEntry>),
}

#[derive(Drop)]
pub struct Declared {
    pub declaration: Declaration,
    // none where the kind has no elements
    pub tail: Option<Tail>,
}

// What a list of a script is made of.
trait Item: Drop + Sized {
    fn read(words: &mut Words) -> Result<Self, Malformed>;
}

impl Item for BtfEnum {
    fn read(words: &mut Words) -> Result<BtfEnum, Malformed> {
        Ok(BtfEnum {
            name_offset: words.word(Part::Element)?,
            value: words.word(Part::Element)?,
        })
    }
}

impl Item for BtfEnum64 {
    fn read(words: &mut Words) -> Result<BtfEnum64, Malformed> {
        Ok(BtfEnum64 {
            name_offset: words.word(Part::Element)?,
            value_low: words.word(Part::Element)?,
            value_high: words.word(Part::Element)?,
        })
    }
}

impl Item for BtfMember {
    fn read(words: &mut Words) -> Result<BtfMember, Malformed> {
        Ok(BtfMember {
            name_offset: words.word(Part::Element)?,
            btf_type: words.word(Part::Element)?,
            offset: words.word(Part::Element)?,
        })
    }
}

impl Item for BtfParam {
    fn read(words: &mut Words) -> Result<BtfParam, Malformed> {
        Ok(BtfParam {
            name_offset: words.word(Part::Element)?,
            btf_type: words.word(Part::Element)?,
        })
    }
}

impl Item for DataSecEntry {
    fn read(words: &mut Words) -> Result<DataSecEntry, Malformed> {
        Ok(DataSecEntry {
            btf_type: words.word(Part::Element)?,
            offset: words.word(Part::Element)?,
            size: words.word(Part::Element)?,
        })
    }
}

// A list: how many items there are, and then the items.
fn list<I: Item>(words: &mut Words) -> Result<Vec<I>, Fault> {
    let mut items = Vec::new(words.heap);
    for _ in 0..words.word(Part::Count)? {
        items.push(I::read(words)?)?;
    }
    Ok(items)
}

fn read_kind(words: &mut Words) -> Result<BtfKind, Malformed> {
    Ok(match words.text(Part::Kind)? {
        b"int" => BtfKind::Int,
        b"ptr" => BtfKind::Ptr,
        b"array" => BtfKind::Array,
        b"struct" => BtfKind::Struct,
        b"union" => BtfKind::Union,
        b"enum" => BtfKind::Enum,
        b"fwd" => BtfKind::Fwd,
        b"typedef" => BtfKind::Typedef,
        b"volatile" => BtfKind::Volatile,
        b"const" => BtfKind::Const,
        b"restrict" => BtfKind::Restrict,
        b"func" => BtfKind::Func,
        b"funcproto" => BtfKind::FuncProto,
        b"var" => BtfKind::Var,
        b"datasec" => BtfKind::DataSec,
        b"float" => BtfKind::Float,
        b"decltag" => BtfKind::DeclTag,
        b"typetag" => BtfKind::TypeTag,
        b"enum64" => BtfKind::Enum64,
        _ => return Err(Malformed::UnknownKind),
    })
}

fn int(name: u32, words: &mut Words) -> Result<Declaration, Malformed> {
    let size = words.word(Part::Size)?;
    let encoding = words.word(Part::Encoding)?;
    Ok(Int::new(name, size, encoding, words.word(Part::Offset)?))
}

fn array(name: u32, words: &mut Words) -> Result<Declaration, Malformed> {
    let element_type = words.word(Part::Id)?;
    let index_type = words.word(Part::Id)?;
    let length = words.word(Part::Length)?;
    Ok(Array::new(name, element_type, index_type, length))
}

// The constructors give the sizes 4 and 8; a script may give others.
fn sized(declaration: Declaration, words: &mut Words) -> Result<Declaration, Malformed> {
    Ok(Declaration {
        size_or_type: words.word(Part::Size)?,
        ..declaration
    })
}

// The constructors take a linkage that there is; a script may give another number.
fn linked(declaration: Declaration, words: &mut Words) -> Result<Declaration, Malformed> {
    Ok(Declaration {
        linkage: words.word(Part::Linkage)?,
        ..declaration
    })
}

// What stands between the name and the elements.
fn read_declaration(kind: BtfKind, name: u32, words: &mut Words) -> Result<Declaration, Malformed> {
    Ok(match kind {
        BtfKind::Unknown => return Err(Malformed::UnknownKind),
        BtfKind::Int => int(name, words)?,
        BtfKind::Ptr => Ptr::new(name, words.word(Part::Id)?),
        BtfKind::Array => array(name, words)?,
        BtfKind::Struct => Struct::new(name, words.flag()?, words.word(Part::Size)?),
        BtfKind::Union => Union::new(name, words.flag()?, words.word(Part::Size)?),
        BtfKind::Enum => sized(Enum::new(name, words.flag()?), words)?,
        BtfKind::Fwd => Fwd::new(name, words.flag()?),
        BtfKind::Typedef => Typedef::new(name, words.word(Part::Id)?),
        BtfKind::Volatile => Volatile::new(words.word(Part::Id)?),
        BtfKind::Const => Const::new(words.word(Part::Id)?),
        BtfKind::Restrict => Restrict::new(words.word(Part::Id)?),
        BtfKind::Func => linked(
            Func::new(name, words.word(Part::Id)?, Linkage::Static),
            words,
        )?,
        BtfKind::FuncProto => FuncProto::new(words.word(Part::Id)?),
        BtfKind::Var => linked(
            Var::new(name, words.word(Part::Id)?, Linkage::Static),
            words,
        )?,
        BtfKind::DataSec => DataSec::new(name, words.word(Part::Size)?),
        BtfKind::Float => Float::new(name, words.word(Part::Size)?),
        BtfKind::DeclTag => DeclTag::new(name, words.word(Part::Id)?, words.component()?),
        BtfKind::TypeTag => TypeTag::new(name, words.word(Part::Id)?),
        BtfKind::Enum64 => sized(Enum64::new(name, words.flag()?), words)?,
    })
}

fn read_tail(kind: BtfKind, words: &mut Words) -> Result<Option<Tail>, Fault> {
    Ok(Some(match kind {
        BtfKind::Enum => Tail::Values(list(words)?),
        BtfKind::Enum64 => Tail::Values64(list(words)?),
        BtfKind::Struct | BtfKind::Union => Tail::Members(list(words)?),
        BtfKind::FuncProto => Tail::Params(list(words)?),
        BtfKind::DataSec => Tail::Entries(list(words)?),
        _ => return Ok(None),
    }))
}

impl Declared {
    // A declaration behind the word `type`.
    pub fn read(words: &mut Words) -> Result<Declared, Fault> {
        let kind = read_kind(words)?;
        let name_offset = words.word(Part::NameOffset)?;
        // Some constructors give no name; a script may.
        let declaration = Declaration {
            name_offset,
            ..read_declaration(kind, name_offset, words)?
        };
        let tail = read_tail(kind, words)?;
        Ok(Declared { declaration, tail })
    }
}
