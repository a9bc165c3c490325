// The table.
ghost use Rattle.std.specs.Prelude.{◌≡◌, ◌+◌, ◌*◌, ◌≤◌, length, take, sum_by, All};
ghost use Rattle.meaning.specs.Table.{most_decls, most_elements, most_strings};
ghost use Rattle.table.specs.Placed.{Placed, row_length};

use elements::Element;
use rows::TypeRow;

// A table holds two areas of the caller's, one of declarations and one of elements. Its string area comes
// with each call.
#[derive(Drop)]
pub struct Btf<'a> {
    pub(crate) types: &'a mut [TypeRow],
    pub(crate) elements: &'a mut [Element],
    pub(crate) type_count: usize,
    pub(crate) element_count: usize,
    // the length of the type part of a file
    pub(crate) type_bytes: usize,
    pub(crate) string_len: usize,
    ghost within: { type_count ≤ length types.now },
    ghost few: { type_count ≤ most_decls },
    ghost elements_within: { element_count ≤ length elements.now },
    ghost few_elements: { element_count ≤ most_elements },
    ghost few_strings: { string_len ≤ most_strings },
    ghost placed: { All (Placed element_count) (take type_count types.now) },
    ghost counted: { type_bytes ≡ sum_by row_length (take type_count types.now) },
    ghost bounded: { type_bytes ≤ 24 * type_count + 12 * element_count },
}
