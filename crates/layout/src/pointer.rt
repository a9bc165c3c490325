// The width of a pointer on the machine that a table is for.
ghost use Rattle.std.specs.Prelude.{◌≡◌};
ghost use Rattle.layout.specs.Kinds.{pointer_bytes};

#[derive(Clone, Copy, Debug, PartialEq, Eq)]
pub enum PointerWidth {
    Four,
    Eight,
}

impl PointerWidth {
    pub fn bytes(self) -> u32
        ensures { result ≡ pointer_bytes self }
    {
        match self {
            PointerWidth::Four => 4,
            PointerWidth::Eight => 8,
        }
    }
}
