// The kinds of declarations, and what a declaration of each is made of.
ghost use Rattle.std.specs.Prelude.{◌≡◌, Some};
ghost use Rattle.layout.specs.Shown.{kind_word};
ghost use Rattle.layout.specs.Kinds.{kind_number, kind_at, takes_flag, has_linkage, extra_words, element_words};

use std::fmt;

#[derive(Clone, Copy, Debug, PartialEq, Eq)]
pub enum BtfKind {
    Unknown = 0,
    Int = 1,
    Ptr = 2,
    Array = 3,
    Struct = 4,
    Union = 5,
    Enum = 6,
    Fwd = 7,
    Typedef = 8,
    Volatile = 9,
    Const = 10,
    Restrict = 11,
    Func = 12,
    FuncProto = 13,
    Var = 14,
    DataSec = 15,
    Float = 16,
    DeclTag = 17,
    TypeTag = 18,
    Enum64 = 19,
}

// The kind of a number, Unknown where no kind has it: an info word may hold any number, and reading it cannot fail.
impl From<u32> for BtfKind {
    ghost from_gives = { λ n kind. kind ≡ kind_at n };

    fn from(n: u32) -> BtfKind {
        match n {
            1 => BtfKind::Int,
            2 => BtfKind::Ptr,
            3 => BtfKind::Array,
            4 => BtfKind::Struct,
            5 => BtfKind::Union,
            6 => BtfKind::Enum,
            7 => BtfKind::Fwd,
            8 => BtfKind::Typedef,
            9 => BtfKind::Volatile,
            10 => BtfKind::Const,
            11 => BtfKind::Restrict,
            12 => BtfKind::Func,
            13 => BtfKind::FuncProto,
            14 => BtfKind::Var,
            15 => BtfKind::DataSec,
            16 => BtfKind::Float,
            17 => BtfKind::DeclTag,
            18 => BtfKind::TypeTag,
            19 => BtfKind::Enum64,
            _ => BtfKind::Unknown,
        }
    }
}

impl From<BtfKind> for u32 {
    ghost from_gives = { λ kind n. n ≡ kind_number kind };

    fn from(kind: BtfKind) -> u32 {
        kind as u32
    }
}

// The kernel's word for the kind.
impl fmt::Display for BtfKind {
    ghost output = { λ kind. Some (kind_word kind) };

    fn fmt<W: fmt::Write>(&self, f: &mut fmt::Formatter<W>) -> fmt::Result {
        f.write_str(match self {
            BtfKind::Unknown => "VOID",
            BtfKind::Int => "INT",
            BtfKind::Ptr => "PTR",
            BtfKind::Array => "ARRAY",
            BtfKind::Struct => "STRUCT",
            BtfKind::Union => "UNION",
            BtfKind::Enum => "ENUM",
            BtfKind::Fwd => "FWD",
            BtfKind::Typedef => "TYPEDEF",
            BtfKind::Volatile => "VOLATILE",
            BtfKind::Const => "CONST",
            BtfKind::Restrict => "RESTRICT",
            BtfKind::Func => "FUNC",
            BtfKind::FuncProto => "FUNC_PROTO",
            BtfKind::Var => "VAR",
            BtfKind::DataSec => "DATASEC",
            BtfKind::Float => "FLOAT",
            BtfKind::DeclTag => "DECL_TAG",
            BtfKind::TypeTag => "TYPE_TAG",
            BtfKind::Enum64 => "ENUM64",
        })
    }
}

impl BtfKind {
    // Whether a declaration of this kind may have the flag.
    pub fn takes_flag(self) -> bool
        ensures { result ≡ takes_flag self }
    {
        matches!(
            self,
            BtfKind::Struct | BtfKind::Union | BtfKind::Enum | BtfKind::Fwd | BtfKind::Enum64
        )
    }

    pub fn has_linkage(self) -> bool
        ensures { result ≡ has_linkage self }
    {
        matches!(self, BtfKind::Func | BtfKind::Var)
    }

    // How many words stand between the third word and the elements.
    pub fn extra_words(self) -> usize
        ensures { result ≡ extra_words self }
    {
        match self {
            BtfKind::Int | BtfKind::Var | BtfKind::DeclTag => 1,
            BtfKind::Array => 3,
            _ => 0,
        }
    }

    // How many words an element has, 0 where the kind has no elements.
    pub fn element_words(self) -> usize
        ensures { result ≡ element_words self }
    {
        match self {
            BtfKind::Enum | BtfKind::FuncProto => 2,
            BtfKind::Struct | BtfKind::Union | BtfKind::DataSec | BtfKind::Enum64 => 3,
            _ => 0,
        }
    }
}
