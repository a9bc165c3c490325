// The rows of the declaration area.
ghost use Rattle.std.specs.Prelude.{◌≡◌};
ghost use Rattle.rows.specs.Rows.{void_row};

use layout::BtfType;

// A declaration as the table keeps it: its head, and where its elements begin in the element area. It is a place and no
// slice, since the caller lends both areas and they are filled further while the row stands.
#[derive(Clone, Copy, Debug, PartialEq, Eq)]
pub struct TypeRow {
    pub head: BtfType,
    pub first: u32,
}

impl TypeRow {
    // What fills an area before a table is made over it, and id 0: no Default, since this name says that nothing is there.
    pub fn empty() -> TypeRow
        ensures { result ≡ void_row }
    {
        let head = BtfType {
            name_offset: 0,
            info: 0,
            size_or_type: 0,
            extra: [0, 0, 0],
        };
        TypeRow { head, first: 0 }
    }
}
