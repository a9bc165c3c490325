// Linkages of Func and Var.
ghost use Rattle.std.specs.Prelude.{◌≡◌};
ghost use Rattle.layout.specs.Kinds.{linkage_number};

// The last is aya-obj's Unknown, the number 3.
#[derive(Clone, Copy, Debug, PartialEq, Eq)]
pub enum Linkage {
    Static,
    Global,
    Extern,
    Unstated,
}

impl From<Linkage> for u32 {
    ghost from_gives = { λ linkage n. n ≡ linkage_number linkage };

    fn from(linkage: Linkage) -> u32 {
        linkage as u32
    }
}
