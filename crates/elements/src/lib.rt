// The elements of declarations: enum values, parameters, members and section entries.
#![tactic(auto)]

ghost use Rattle.std.specs.Prelude.{◌≡◌, ℕ, ◌<◌, Bool, true, List, [], length};
ghost use Rattle.layout.specs.Kinds.{element_words};
ghost use Rattle.elements.specs.Packing.{packed};
ghost use Rattle.elements.specs.Typed.{enum_words, param_words, enum64_words, member_words, entry_words};
ghost use Rattle.elements.specs.Typed.{of_enum, of_proto, of_enum64, of_composite, of_section, enum64_of, typed};
ghost use Rattle.layout.specs.declared.kind.BtfKind.{BtfKind as kind_type};
ghost use Rattle.std.proofs.Common.{rules};

use layout::BtfKind;

// An element as the table keeps it, its words in order; places past its last word hold 0. The area is the caller's, so all
// elements are of one size.
#[derive(Clone, Copy, Debug, PartialEq, Eq)]
pub struct Element {
    words: [u32; 3],
}

// One impl for each type: which kinds it serves and how its fields are packed is all that an impl says, and the laws are found.
// A type of elements means its words: unlike elements have unlike words, and all have equally many, at least
// one, as many as the elements of each kind that it serves.
pub trait ElementType {
    ghost meaning: { Self → List ℕ };

    ghost width: { ℕ };

    ghost serving: { kind_type → Bool };

    // Whether declarations of a kind have elements of this type.
    fn serves(kind: BtfKind) -> bool
        ensures { result ≡ serving kind };

    fn pack(&self) -> Element
        ensures { result ≡ packed (meaning self.now) };

    ghost wide: { 0 < width };

    ghost counted: { (e : Self) → length (meaning e) ≡ width };

    ghost unlike: { (e f : Self) → meaning e ≡ meaning f → e ≡ f };

    ghost suits: { (k : kind_type) → serving k ≡ true → element_words k ≡ width };
}

#[derive(Clone, Copy, Debug, PartialEq, Eq)]
pub struct BtfEnum {
    pub name_offset: u32,
    pub value: u32,
}

impl ElementType for BtfEnum {
    ghost meaning = { enum_words };

    ghost width = { 2 };

    ghost serving = { of_enum };

    ghost wide = { Prim.search rules };

    ghost counted = { Prim.search rules };

    ghost unlike = { Prim.search rules };

    ghost suits = { Prim.search rules };

    fn serves(kind: BtfKind) -> bool {
        matches!(kind, BtfKind::Enum)
    }

    fn pack(&self) -> Element {
        Element {
            words: [self.name_offset, self.value, 0],
        }
    }
}

#[derive(Clone, Copy, Debug, PartialEq, Eq)]
pub struct BtfParam {
    pub name_offset: u32,
    pub btf_type: u32,
}

impl ElementType for BtfParam {
    ghost meaning = { param_words };

    ghost width = { 2 };

    ghost serving = { of_proto };

    ghost wide = { Prim.search rules };

    ghost counted = { Prim.search rules };

    ghost unlike = { Prim.search rules };

    ghost suits = { Prim.search rules };

    fn serves(kind: BtfKind) -> bool {
        matches!(kind, BtfKind::FuncProto)
    }

    fn pack(&self) -> Element {
        Element {
            words: [self.name_offset, self.btf_type, 0],
        }
    }
}

#[derive(Clone, Copy, Debug, PartialEq, Eq)]
pub struct BtfEnum64 {
    pub name_offset: u32,
    pub value_low: u32,
    pub value_high: u32,
}

impl BtfEnum64 {
    pub fn new(name_offset: u32, value: u64) -> BtfEnum64
        ensures { result ≡ enum64_of name_offset value }
    {
        BtfEnum64 {
            name_offset,
            value_low: (value % 0x1_0000_0000) as u32,
            value_high: (value >> 32) as u32,
        }
    }
}

impl ElementType for BtfEnum64 {
    ghost meaning = { enum64_words };

    ghost width = { 3 };

    ghost serving = { of_enum64 };

    ghost wide = { Prim.search rules };

    ghost counted = { Prim.search rules };

    ghost unlike = { Prim.search rules };

    ghost suits = { Prim.search rules };

    fn serves(kind: BtfKind) -> bool {
        matches!(kind, BtfKind::Enum64)
    }

    fn pack(&self) -> Element {
        Element {
            words: [self.name_offset, self.value_low, self.value_high],
        }
    }
}

// The offset is in bits; in a flagged Struct or Union its top eight bits are a bitfield's width.
#[derive(Clone, Copy, Debug, PartialEq, Eq)]
pub struct BtfMember {
    pub name_offset: u32,
    pub btf_type: u32,
    pub offset: u32,
}

impl ElementType for BtfMember {
    ghost meaning = { member_words };

    ghost width = { 3 };

    ghost serving = { of_composite };

    ghost wide = { Prim.search rules };

    ghost counted = { Prim.search rules };

    ghost unlike = { Prim.search rules };

    ghost suits = { Prim.search rules };

    fn serves(kind: BtfKind) -> bool {
        matches!(kind, BtfKind::Struct | BtfKind::Union)
    }

    fn pack(&self) -> Element {
        Element {
            words: [self.name_offset, self.btf_type, self.offset],
        }
    }
}

#[derive(Clone, Copy, Debug, PartialEq, Eq)]
pub struct DataSecEntry {
    pub btf_type: u32,
    pub offset: u32,
    pub size: u32,
}

impl ElementType for DataSecEntry {
    ghost meaning = { entry_words };

    ghost width = { 3 };

    ghost serving = { of_section };

    ghost wide = { Prim.search rules };

    ghost counted = { Prim.search rules };

    ghost unlike = { Prim.search rules };

    ghost suits = { Prim.search rules };

    fn serves(kind: BtfKind) -> bool {
        matches!(kind, BtfKind::DataSec)
    }

    fn pack(&self) -> Element {
        Element {
            words: [self.btf_type, self.offset, self.size],
        }
    }
}

// An element of any declaration.
#[derive(Clone, Copy, Debug, PartialEq, Eq)]
pub enum BtfElement {
    Variant(BtfEnum),
    Param(BtfParam),
    Variant64(BtfEnum64),
    Member(BtfMember),
    Entry(DataSecEntry),
}

impl Element {
    // What fills an area before a table is made over it, a name that says more than `Default`.
    pub fn empty() -> Element
        ensures { result ≡ packed [] }
    {
        Element { words: [0, 0, 0] }
    }

    // The words, in order.
    pub fn words(&self) -> &[u32; 3]
        ensures { result.now ≡ self.now.words }
    {
        &self.words
    }

    // The element as a declaration of `kind` has it, or none where the kind has no elements.
    pub fn typed(&self, kind: BtfKind) -> Option<BtfElement>
        ensures { result ≡ typed kind self.now.words }
    {
        let [a, b, c] = self.words;
        match kind {
            BtfKind::Enum => Some(BtfElement::Variant(BtfEnum {
                name_offset: a,
                value: b,
            })),
            BtfKind::FuncProto => Some(BtfElement::Param(BtfParam {
                name_offset: a,
                btf_type: b,
            })),
            BtfKind::Enum64 => Some(BtfElement::Variant64(BtfEnum64 {
                name_offset: a,
                value_low: b,
                value_high: c,
            })),
            BtfKind::Struct | BtfKind::Union => Some(BtfElement::Member(BtfMember {
                name_offset: a,
                btf_type: b,
                offset: c,
            })),
            BtfKind::DataSec => Some(BtfElement::Entry(DataSecEntry {
                btf_type: a,
                offset: b,
                size: c,
            })),
            _ => None,
        }
    }
}
