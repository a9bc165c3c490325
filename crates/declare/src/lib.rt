// The constructors of declarations, by the names that aya-obj has for them. The elements of a declaration
// are given beside it where it is added.
// One type for each kind, since its name is the kind: a generic constructor would be called no more plainly, and each
// body is one call already.
#![tactic(auto)]

ghost use Rattle.std.specs.Prelude.{◌≡◌, true, false, [], ◌∷◌};
ghost use Rattle.layout.specs.Kinds.{linkage_number};
ghost use Rattle.layout.specs.Heads.{declared, int_data, signed_word};
ghost use Rattle.layout.specs.declared.kind.BtfKind.{BtfKind as of};

use layout::{BtfKind, Declaration, Linkage};

// A declaration without flag, linkage and extra words.
fn plain(kind: BtfKind, name_offset: u32, size_or_type: u32) -> Declaration
    ensures { result ≡ declared name_offset kind false 0 size_or_type (0 ∷ 0 ∷ 0 ∷ []) }
{
    Declaration {
        name_offset,
        kind: kind.into(),
        flag: false,
        linkage: 0,
        size_or_type,
        extra: [0, 0, 0],
    }
}

// A declaration with a flag.
fn flagged(kind: BtfKind, name_offset: u32, flag: bool, size: u32) -> Declaration
    ensures { result ≡ declared name_offset kind flag 0 size (0 ∷ 0 ∷ 0 ∷ []) }
{
    Declaration {
        flag,
        ..plain(kind, name_offset, size)
    }
}

// A declaration with a linkage.
fn linked(kind: BtfKind, name_offset: u32, btf_type: u32, linkage: Linkage) -> Declaration
    ensures { result ≡ declared name_offset kind false (linkage_number linkage) btf_type (0 ∷ 0 ∷ 0 ∷ []) }
{
    Declaration {
        linkage: linkage.into(),
        ..plain(kind, name_offset, btf_type)
    }
}

pub struct Int;

impl Int {
    // The encodings, which btf.h gives as bits.
    pub const SIGNED: u32 = 1;

    pub const CHAR: u32 = 2;

    pub const BOOL: u32 = 4;

    pub fn new(name_offset: u32, size: u32, encoding: u32, offset: u32) -> Declaration
        ensures { result ≡ declared name_offset of.Int false 0 size (int_data encoding offset size ∷ 0 ∷ 0 ∷ []) }
    {
        // the width in bits, size × 8, keeps its low eight bits
        let data = ((encoding & 0x0f) << 24) | ((offset & 0xff) << 16) | ((size & 0x1f) << 3);
        Declaration {
            extra: [data, 0, 0],
            ..plain(BtfKind::Int, name_offset, size)
        }
    }
}

pub struct Ptr;

impl Ptr {
    pub fn new(name_offset: u32, btf_type: u32) -> Declaration
        ensures { result ≡ declared name_offset of.Ptr false 0 btf_type (0 ∷ 0 ∷ 0 ∷ []) }
    {
        plain(BtfKind::Ptr, name_offset, btf_type)
    }
}

pub struct Array;

impl Array {
    pub fn new(name_offset: u32, element_type: u32, index_type: u32, len: u32) -> Declaration
        ensures { result ≡ declared name_offset of.Array false 0 0 (element_type ∷ index_type ∷ len ∷ []) }
    {
        Declaration {
            extra: [element_type, index_type, len],
            ..plain(BtfKind::Array, name_offset, 0)
        }
    }
}

pub struct Struct;

impl Struct {
    pub fn new(name_offset: u32, flag: bool, size: u32) -> Declaration
        ensures { result ≡ declared name_offset of.Struct flag 0 size (0 ∷ 0 ∷ 0 ∷ []) }
    {
        flagged(BtfKind::Struct, name_offset, flag, size)
    }
}

pub struct Union;

impl Union {
    pub fn new(name_offset: u32, flag: bool, size: u32) -> Declaration
        ensures { result ≡ declared name_offset of.Union flag 0 size (0 ∷ 0 ∷ 0 ∷ []) }
    {
        flagged(BtfKind::Union, name_offset, flag, size)
    }
}

pub struct Enum;

impl Enum {
    pub fn new(name_offset: u32, signed: bool) -> Declaration
        ensures { result ≡ declared name_offset of.Enum signed 0 4 (0 ∷ 0 ∷ 0 ∷ []) }
    {
        flagged(BtfKind::Enum, name_offset, signed, 4)
    }
}

pub struct Enum64;

impl Enum64 {
    pub fn new(name_offset: u32, signed: bool) -> Declaration
        ensures { result ≡ declared name_offset of.Enum64 signed 0 8 (0 ∷ 0 ∷ 0 ∷ []) }
    {
        flagged(BtfKind::Enum64, name_offset, signed, 8)
    }
}

pub struct Fwd;

impl Fwd {
    // The flag says a union, else a struct.
    pub fn new(name_offset: u32, union: bool) -> Declaration
        ensures { result ≡ declared name_offset of.Fwd union 0 0 (0 ∷ 0 ∷ 0 ∷ []) }
    {
        flagged(BtfKind::Fwd, name_offset, union, 0)
    }
}

pub struct Typedef;

impl Typedef {
    pub fn new(name_offset: u32, btf_type: u32) -> Declaration
        ensures { result ≡ declared name_offset of.Typedef false 0 btf_type (0 ∷ 0 ∷ 0 ∷ []) }
    {
        plain(BtfKind::Typedef, name_offset, btf_type)
    }
}

pub struct Volatile;

impl Volatile {
    pub fn new(btf_type: u32) -> Declaration
        ensures { result ≡ declared 0 of.Volatile false 0 btf_type (0 ∷ 0 ∷ 0 ∷ []) }
    {
        plain(BtfKind::Volatile, 0, btf_type)
    }
}

pub struct Const;

impl Const {
    pub fn new(btf_type: u32) -> Declaration
        ensures { result ≡ declared 0 of.Const false 0 btf_type (0 ∷ 0 ∷ 0 ∷ []) }
    {
        plain(BtfKind::Const, 0, btf_type)
    }
}

pub struct Restrict;

impl Restrict {
    pub fn new(btf_type: u32) -> Declaration
        ensures { result ≡ declared 0 of.Restrict false 0 btf_type (0 ∷ 0 ∷ 0 ∷ []) }
    {
        plain(BtfKind::Restrict, 0, btf_type)
    }
}

pub struct Func;

impl Func {
    pub fn new(name_offset: u32, proto: u32, linkage: Linkage) -> Declaration
        ensures { result ≡ declared name_offset of.Func false (linkage_number linkage) proto (0 ∷ 0 ∷ 0 ∷ []) }
    {
        linked(BtfKind::Func, name_offset, proto, linkage)
    }
}

pub struct FuncProto;

impl FuncProto {
    pub fn new(return_type: u32) -> Declaration
        ensures { result ≡ declared 0 of.FuncProto false 0 return_type (0 ∷ 0 ∷ 0 ∷ []) }
    {
        plain(BtfKind::FuncProto, 0, return_type)
    }
}

pub struct Var;

impl Var {
    pub fn new(name_offset: u32, btf_type: u32, linkage: Linkage) -> Declaration
        ensures { result ≡ declared name_offset of.Var false (linkage_number linkage) btf_type (0 ∷ 0 ∷ 0 ∷ []) }
    {
        linked(BtfKind::Var, name_offset, btf_type, linkage)
    }
}

pub struct DataSec;

impl DataSec {
    pub fn new(name_offset: u32, size: u32) -> Declaration
        ensures { result ≡ declared name_offset of.DataSec false 0 size (0 ∷ 0 ∷ 0 ∷ []) }
    {
        plain(BtfKind::DataSec, name_offset, size)
    }
}

pub struct Float;

impl Float {
    pub fn new(name_offset: u32, size: u32) -> Declaration
        ensures { result ≡ declared name_offset of.Float false 0 size (0 ∷ 0 ∷ 0 ∷ []) }
    {
        plain(BtfKind::Float, name_offset, size)
    }
}

pub struct DeclTag;

impl DeclTag {
    // A component of -1 tags the whole.
    pub fn new(name_offset: u32, btf_type: u32, component: i32) -> Declaration
        ensures { result ≡ declared name_offset of.DeclTag false 0 btf_type (signed_word component ∷ 0 ∷ 0 ∷ []) }
    {
        Declaration {
            extra: [component.cast_unsigned(), 0, 0],
            ..plain(BtfKind::DeclTag, name_offset, btf_type)
        }
    }
}

pub struct TypeTag;

impl TypeTag {
    pub fn new(name_offset: u32, btf_type: u32) -> Declaration
        ensures { result ≡ declared name_offset of.TypeTag false 0 btf_type (0 ∷ 0 ∷ 0 ∷ []) }
    {
        plain(BtfKind::TypeTag, name_offset, btf_type)
    }
}
