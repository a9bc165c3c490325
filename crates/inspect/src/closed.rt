// A table is closed where every name in it is a name and every id in it has a declaration.
ghost use Rattle.std.specs.Prelude.{◌≡◌, true, length, take, is_some};
ghost use Rattle.layout.specs.Kinds.{element_words};
ghost use Rattle.layout.specs.Refusals.{said, fault_of};
ghost use Rattle.meaning.specs.Questions.{string_from, decl_kind};
ghost use Rattle.rows.specs.Rows.{decl_of};
ghost use Rattle.rows.specs.Views.{few_decls};
ghost use Rattle.rewriting.specs.Closed.{name_fault, id_fault, ids_fault, own_ids, element_refers, element_fault, elements_fault, open_at, open_fault};
ghost use Rattle.inspect.specs.Ends.{Ends};

use crate::each::{Check, check_each};
use elements::Element;
use layout::{BtfError, BtfKind};
use rows::{TypeRow, View, string_from};

// A table, and whether its strings end in a zero byte, as they do while their caller leaves them alone.
#[derive(Clone, Copy)]
struct Closing<'t> {
    view: View<'t, 't>,
    ended: bool,
    ghost ends: { ended ≡ true → Ends view.strings.now },
}

impl Closing<'_> {
    // Whether a name stands at an offset: a zero byte follows. Where the strings end in one, no byte is looked at.
    fn has_name(&self, offset: u32) -> bool
        ensures { result ≡ is_some (string_from self.now.view.strings.now offset) }
    {
        if self.ended {
            (offset as usize) < self.view.strings.len()
        } else {
            string_from(self.view.strings, offset).is_some()
        }
    }

    // Refusal 6 where no name stands at an offset. Holder and element are two parameters, as they are two parts of a refusal.
    fn check_name(&self, holder: u32, element: Option<u32>, offset: u32) -> Result<(), BtfError>
        ensures { fault_of said result ≡ name_fault self.now.view.strings.now holder element offset }
    {
        if self.has_name(offset) {
            return Ok(());
        }
        Err(BtfError::InvalidStringOffset {
            holder: Some(holder),
            element,
            offset,
        })
    }

    // Refusal 7 where no declaration has an id.
    fn check_id(&self, holder: u32, element: Option<u32>, type_id: u32) -> Result<(), BtfError>
        ensures { fault_of said result ≡ id_fault (length self.now.view.rows.now) holder element type_id }
    {
        if (type_id as usize) < self.view.rows.len() {
            return Ok(());
        }
        Err(BtfError::UnknownBtfType {
            holder: Some(holder),
            element,
            type_id,
        })
    }

    // The ids of a declaration itself.
    fn check_own_ids(&self, row: &TypeRow, id: u32) -> Result<(), BtfError>
        ensures { fault_of said result ≡ ids_fault (length self.now.view.rows.now) id (own_ids (decl_of self.now.view.elements.now row.now)) }
    {
        if row.head.kind() == BtfKind::Array {
            let [element, index, _] = row.head.extra;
            self.check_id(id, None, element)?;
            return self.check_id(id, None, index);
        }
        match row.head.btf_type() {
            Some(named) => self.check_id(id, None, named),
            None => Ok(()),
        }
    }

    fn check_elements(&self, row: &TypeRow, id: u32) -> Result<(), BtfError>
        ensures { fault_of said result ≡ elements_fault self.now.view.strings.now (length self.now.view.rows.now) id (element_refers (decl_kind (decl_of self.now.view.elements.now row.now))) 0 (decl_of self.now.view.elements.now row.now).tail }
    {
        let elements = Elements {
            table: self,
            kind: row.head.kind(),
            id,
        };
        check_each(&elements, self.view.tail(row))
    }
}

// The elements of a declaration.
#[derive(Clone, Copy)]
struct Elements<'t> {
    table: &'t Closing<'t>,
    kind: BtfKind,
    id: u32,
}

impl Check for Elements<'_> {
    type Item = Element;

    type Fault = BtfError;

    ghost fault = { λ c index element. element_fault c.table.now.view.strings.now (length c.table.now.view.rows.now) c.id (element_refers c.kind) index (take (element_words c.kind) element.words) };

    ghost said = { said };

    // What an element refers to by its first two words: a name, an id, or a name and then an id.
    fn check(&self, index: u32, element: &Element) -> Result<(), BtfError> {
        let [first, second, _] = *element.words();
        match self.kind {
            BtfKind::Enum | BtfKind::Enum64 => self.table.check_name(self.id, Some(index), first),
            BtfKind::FuncProto | BtfKind::Struct | BtfKind::Union => {
                self.table.check_name(self.id, Some(index), first)?;
                self.table.check_id(self.id, Some(index), second)
            }
            BtfKind::DataSec => self.table.check_id(self.id, Some(index), first),
            _ => Ok(()),
        }
    }
}

// In a declaration its own name comes first, then its ids, then its elements.
impl Check for Closing<'_> {
    type Item = TypeRow;

    type Fault = BtfError;

    ghost fault = { λ c id row. open_at c.view.strings.now (length c.view.rows.now) id (decl_of c.view.elements.now row) };

    ghost said = { said };

    fn check(&self, id: u32, row: &TypeRow) -> Result<(), BtfError> {
        self.check_name(id, None, row.head.name_offset)?;
        self.check_own_ids(row, id)?;
        self.check_elements(row, id)
    }
}

// The first name that is none, or id that no declaration has, in rising id order.
pub fn open_fault(view: &View) -> Result<(), BtfError>
    ensures { fault_of said result ≡ open_fault view.now.strings.now (few_decls view.now) }
{
    let view = view.limited();
    let closing = Closing {
        view,
        ended: matches!(view.strings.last(), Some(0)),
    };
    check_each(&closing, view.rows)
}
