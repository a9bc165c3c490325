// The head of a declaration: all of it but its elements.
ghost use Rattle.std.specs.Prelude.{◌≡◌, ◌/◌, ◌%◌, ◌^◌, Bool};
ghost use Rattle.layout.specs.Kinds.{third_word};
ghost use Rattle.layout.specs.Info.{info_word, kind_of, low_of, flag_of, elements_of, type_length};
ghost use Rattle.layout.specs.Heads.{size_given, id_given};

use crate::kind::BtfKind;

const VLEN_MASK: u32 = 0xffff;

const KIND_SHIFT: u32 = 24;

const KIND_MASK: u32 = 0x1f;

const FLAG_SHIFT: u32 = 31;

// As btf.h's `struct btf_type`, with the words that follow it for some kinds: Int its data, Array its
// element id, index id and length, Var its linkage, DeclTag its component. Words that a kind lacks are 0.
#[derive(Clone, Copy, Debug, PartialEq, Eq)]
pub struct BtfType {
    pub name_offset: u32,
    pub info: u32,
    pub size_or_type: u32,
    pub extra: [u32; 3],
}

// Builds an info word of a kind, its flag, and its element count or, of a Func, its linkage.
pub fn info_word(kind: BtfKind, flag: bool, low: u16) -> u32
    ensures { result ≡ info_word kind flag low }
{
    ((flag as u32) << FLAG_SHIFT) | (u32::from(kind) << KIND_SHIFT) | low as u32
}

impl BtfType {
    pub fn kind(&self) -> BtfKind
        ensures { result ≡ kind_of self.now.info }
    {
        BtfKind::from(self.kind_number())
    }

    // The number that the info word has for the kind, which may be no kind's.
    pub fn kind_number(&self) -> u32
        ensures { result ≡ self.now.info / 2 ^ 24 % 2 ^ 5 }
    {
        let number = self.info >> KIND_SHIFT;
        number & KIND_MASK
    }

    // The low bits: the element count or, of a Func, the linkage.
    pub fn vlen(&self) -> u32
        ensures { result ≡ low_of self.now.info }
    {
        self.info & VLEN_MASK
    }

    pub fn kind_flag(&self) -> bool
        ensures { result ≡ flag_of self.now.info }
    {
        self.info >> FLAG_SHIFT == 1
    }

    // How many elements follow the head.
    pub fn element_count(&self) -> usize
        ensures { result ≡ elements_of self.now.info }
    {
        if 0 < self.kind().element_words() {
            self.vlen() as usize
        } else {
            0
        }
    }

    // How many bytes the declaration has in a file.
    pub fn type_info_size(&self) -> usize
        ensures { result ≡ type_length self.now.info }
    {
        let kind = self.kind();
        if kind == BtfKind::Unknown {
            return 0;
        }
        12 + 4 * kind.extra_words() + 4 * kind.element_words() * self.vlen() as usize
    }

    // The size, where the kind has one.
    pub fn size(&self) -> Option<u32>
        ensures { result ≡ size_given (third_word (kind_of self.now.info)) self.now.size_or_type }
    {
        match self.kind() {
            BtfKind::Int
            | BtfKind::Struct
            | BtfKind::Union
            | BtfKind::Enum
            | BtfKind::DataSec
            | BtfKind::Float
            | BtfKind::Enum64 => Some(self.size_or_type),
            _ => None,
        }
    }

    // The id in the third word, where the kind has one.
    pub fn btf_type(&self) -> Option<u32>
        ensures { result ≡ id_given (third_word (kind_of self.now.info)) self.now.size_or_type }
    {
        match self.kind() {
            BtfKind::Ptr
            | BtfKind::Typedef
            | BtfKind::Volatile
            | BtfKind::Const
            | BtfKind::Restrict
            | BtfKind::Func
            | BtfKind::FuncProto
            | BtfKind::Var
            | BtfKind::DeclTag
            | BtfKind::TypeTag => Some(self.size_or_type),
            _ => None,
        }
    }
}
