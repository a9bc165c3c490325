// Making a table.
ghost use Rattle.std.specs.Prelude.{◌≡◌, length, if◌then◌else◌, slice_set};
ghost use Rattle.meaning.specs.Table.{made};
ghost use Rattle.rows.specs.Rows.{void_row};
ghost use Rattle.table.specs.Placed.{holding};
ghost use Rattle.table.specs.Tables.{table_of};

use crate::btf::Btf;
use elements::Element;
use rows::TypeRow;

impl<'a> Btf<'a> {
    // A table over the areas lent. Over an empty declaration or string area it holds nothing, and
    // every later call says so.
    pub fn new(types: &'a mut [TypeRow], elements: &'a mut [Element], strings: &mut [u8]) -> Btf<'a>
        ensures table { table_of result strings.new ≡ made (length types.old) (length elements.old) strings.old }
        ensures types { result.types.now ≡ (if holding (length types.old) (length strings.old) then slice_set types.old 0 void_row else types.old) }
        ensures elements { result.elements.now ≡ elements.old }
    {
        if types.is_empty() || strings.is_empty() {
            return Btf {
                types,
                elements,
                type_count: 0,
                element_count: 0,
                type_bytes: 0,
                string_len: 0,
            };
        }
        types[0] = TypeRow::empty();
        strings[0] = 0;
        Btf {
            types,
            elements,
            type_count: 1,
            element_count: 0,
            type_bytes: 0,
            string_len: 1,
        }
    }
}
