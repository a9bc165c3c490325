// A declaration as a caller gives it, but for its elements. Nothing in it has been checked.
ghost use Rattle.std.specs.Prelude.{◌≡◌};
ghost use Rattle.layout.specs.Kinds.{third_word};
ghost use Rattle.layout.specs.Heads.{head_kept, low_bits, third_kept, extra_kept};

use crate::head::{BtfType, info_word};
use crate::kind::BtfKind;

// `kind` may be any number, and so may `linkage`. What a kind does not have is passed over: the third word
// of Fwd and Array, extra words, a linkage elsewhere than at Func and Var.
#[derive(Clone, Copy, Debug, PartialEq, Eq)]
pub struct Declaration {
    pub name_offset: u32,
    pub kind: u32,
    pub flag: bool,
    pub linkage: u32,
    pub size_or_type: u32,
    pub extra: [u32; 3],
}

impl Declaration {
    // What is kept of it as a declaration of `kind` with `count` elements.
    pub fn head(&self, kind: BtfKind, count: u16) -> BtfType
        ensures { result ≡ head_kept self.now kind count }
    {
        let low = self.low_bits(kind, count);
        let size_or_type = self.third_word(kind);
        let extra = self.extra_words(kind);
        BtfType {
            name_offset: self.name_offset,
            info: info_word(kind, self.flag, low),
            size_or_type,
            extra,
        }
    }

    fn low_bits(&self, kind: BtfKind, count: u16) -> u16
        ensures { result ≡ low_bits kind self.now.linkage count }
    {
        match kind {
            BtfKind::Func => (self.linkage % 0x10000) as u16,
            _ => count,
        }
    }

    fn third_word(&self, kind: BtfKind) -> u32
        ensures { result ≡ third_kept (third_word kind) self.now.size_or_type }
    {
        match kind {
            BtfKind::Unknown | BtfKind::Fwd | BtfKind::Array => 0,
            _ => self.size_or_type,
        }
    }

    fn extra_words(&self, kind: BtfKind) -> [u32; 3]
        ensures { result ≡ extra_kept kind self.now.linkage self.now.extra }
    {
        match kind {
            BtfKind::Int | BtfKind::DeclTag => [self.extra[0], 0, 0],
            BtfKind::Array => self.extra,
            BtfKind::Var => [self.linkage, 0, 0],
            _ => [0, 0, 0],
        }
    }
}
