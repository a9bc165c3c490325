// A table as it is asked.
ghost use Rattle.std.specs.Prelude.{◌≡◌, ◌≤◌, length, take};
ghost use Rattle.meaning.specs.Table.{most_decls};

use crate::row::TypeRow;
use elements::Element;

// A table has no more declarations than this.
pub const MOST_DECLARATIONS: usize = 1_048_575;

// A table as it is asked: its rows, its elements and its strings. The strings have a lifetime of their own, so that
// a name may outlive the borrow of the table.
#[derive(Clone, Copy, Debug)]
pub struct View<'t, 's> {
    pub rows: &'t [TypeRow],
    pub elements: &'t [Element],
    pub strings: &'s [u8],
}

impl<'t, 's> View<'t, 's> {
    // The view with as many rows as a table may have, of which each place is an id.
    pub fn limited(&self) -> View<'t, 's>
        ensures rows { result.rows.now ≡ take most_decls self.now.rows.now }
        ensures few { length result.rows.now ≤ most_decls }
        ensures elements { result.elements.now ≡ self.now.elements.now }
        ensures strings { result.strings.now ≡ self.now.strings.now }
    {
        View {
            rows: self.rows.get(..MOST_DECLARATIONS).unwrap_or(self.rows),
            ..*self
        }
    }
}
