// The lists that a rewriting is asked with: rows that give a name and a number.
ghost use Rattle.std.specs.Prelude.{◌≡◌, map, find, option_map};
ghost use Rattle.meaning.specs.Questions.{string_from};
ghost use Rattle.rewriting.specs.Requests.{gives, number_of};
ghost use Rattle.rewriting.specs.Rules.{or_empty};
ghost use Rattle.inspect.specs.Listed.{listed};

use rows::{same_bytes, string_from};

// A row of a caller's list: its name is a part of the name bytes, its number a section's size or a symbol's offset.
// By a rule of the library, a row gives its name by start and length.
#[derive(Clone, Copy, Debug, PartialEq, Eq)]
pub struct NamedRow {
    pub start: usize,
    pub len: usize,
    pub number: u64,
}

// The sections with their sizes, the symbols with their offsets, and the bytes of their names.
#[derive(Clone, Copy, Debug)]
pub struct Lists<'r> {
    pub sections: &'r [NamedRow],
    pub symbols: &'r [NamedRow],
    pub names: &'r [u8],
}

impl NamedRow {
    // Whether the row gives this name. One that reaches outside the name bytes gives none.
    fn gives(&self, names: &[u8], name: &[u8]) -> bool
        ensures { result ≡ gives names.now name.now (listed self.now) }
    {
        names
            .get(self.start..)
            .and_then(|rest| rest.get(..self.len))
            .is_some_and(|given| same_bytes(given, name))
    }
}

// The first row of a name.
fn row_of<'r>(rows: &'r [NamedRow], names: &[u8], name: &[u8]) -> Option<&'r NamedRow>
    ensures { option_map (λ row. row.now) result ≡ find (λ row. gives names.now name.now (listed row)) rows.now }
{
    rows.iter().find(|row| row.gives(names, name))
}

// The number of the first row of a name: no method of Lists, since the rows are either list's.
pub fn number_of(rows: &[NamedRow], names: &[u8], name: &[u8]) -> Option<u64>
    ensures { result ≡ number_of names.now (map listed rows.now) name.now }
{
    row_of(rows, names, name).map(|row| row.number)
}

// The name at an offset, or nothing where there is none.
pub fn name_at(strings: &[u8], offset: u32) -> &[u8]
    ensures { result.now ≡ or_empty (string_from strings.now offset) }
{
    string_from(strings, offset).unwrap_or(&[])
}
