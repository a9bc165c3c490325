// The questions that are answered by one declaration or by a search.
ghost use Rattle.std.specs.Prelude.{◌≡◌, ℕ, ◌≤◌, List, length, take, drop};
ghost use Rattle.layout.specs.Info.{elements_of};
ghost use Rattle.layout.specs.Refusals.{told, Answer};
ghost use Rattle.meaning.specs.Questions.{string_at, type_by_id, element_at, element_of, type_name, find_here, find_from};
ghost use Rattle.rows.specs.Rows.{decl_of, decls_of, row_at};
ghost use Rattle.elements.specs.declared.Element.{Element as element_type};
ghost use Rattle.rows.specs.Views.{decls};
ghost use Rattle.rows.specs.Walks.{verdict};
ghost use Rattle.meaning.specs.Table.{most_decls};

use crate::row::TypeRow;
use crate::text::{same_bytes, string_from};
use crate::view::View;
use elements::{BtfElement, Element};
use layout::{BtfError, BtfKind, BtfType};

impl<'t, 's> View<'t, 's> {
    // The name at an offset, which `holder` holds where the offset was not asked directly.
    pub fn string_at(&self, holder: Option<u32>, offset: u32) -> Result<&'s [u8], BtfError>
        ensures { told (λ s. s.now) result ≡ string_at self.now.strings.now holder offset }
    {
        string_from(self.strings, offset).ok_or(BtfError::InvalidStringOffset {
            holder,
            element: None,
            offset,
        })
    }

    // The row of an id, which the declaration `holder` names where the id was not asked directly.
    pub fn row_at(&self, holder: Option<u32>, id: u32) -> Result<&'t TypeRow, BtfError>
        ensures { told (λ row. row.now) result ≡ row_at self.now.rows.now holder id }
    {
        self.rows.get(id as usize).ok_or(BtfError::UnknownBtfType {
            holder,
            element: None,
            type_id: id,
        })
    }

    // The elements of a row, which stand together from its first.
    pub fn tail(&self, row: &TypeRow) -> &'t [Element]
        ensures { result.now ≡ take (elements_of row.now.head.info) (drop row.now.first self.now.elements.now) }
    {
        let behind = self.elements.get(row.first as usize..).unwrap_or(&[]);
        behind.get(..row.head.element_count()).unwrap_or(behind)
    }

    // The head of a declaration: all of it but its elements. What reads no elements is stated for every list of them.
    pub fn type_by_id(&self, id: u32) -> Result<BtfType, BtfError>
        ensures { (es : List element_type) → told (λ h. h) result ≡ type_by_id (decls_of es self.now.rows.now) id }
    {
        let row = self.row_at(None, id)?;
        Ok(row.head)
    }

    // An element of a declaration, from 0.
    pub fn element_at(&self, id: u32, index: u32) -> Result<BtfElement, BtfError>
        ensures { told (λ e. e) result ≡ element_at (decls self.now) id index }
    {
        let row = self.row_at(None, id)?;
        self.element_of(row, index as usize)
            .ok_or(BtfError::NoSuchElement {
                type_id: id,
                element: index,
            })
    }

    fn element_of(&self, row: &TypeRow, index: usize) -> Option<BtfElement>
        ensures { result ≡ element_of (decl_of self.now.elements.now row.now) index }
    {
        let element = self.tail(row).get(index)?;
        element.typed(row.head.kind())
    }

    // The name of a declaration.
    pub fn type_name(&self, id: u32) -> Result<&'s [u8], BtfError>
        ensures { (es : List element_type) → told (λ s. s.now) result ≡ type_name (decls_of es self.now.rows.now) self.now.strings.now id }
    {
        let row = self.row_at(None, id)?;
        self.string_at(Some(id), row.head.name_offset)
    }

    // The lowest id of a kind and name.
    pub fn id_by_type_name_kind(&self, name: &[u8], kind: BtfKind) -> Result<u32, BtfError>
        ensures { (es : List element_type) → told (λ n. n) result ≡ find_from (decls_of es (take most_decls self.now.rows.now)) self.now.strings.now name.now kind 0 }
    {
        self.limited().search(name, kind)
    }

    fn search(&self, name: &[u8], kind: BtfKind) -> Result<u32, BtfError>
        requires { length self.now.rows.now ≤ most_decls }
        ensures { (es : List element_type) → told (λ n. n) result ≡ find_from (decls_of es self.now.rows.now) self.now.strings.now name.now kind 0 }
    {
        for (at, row) in self.rows.iter().enumerate() {
            let id = at as u32;
            if self.is_named(row, id, name, kind)? {
                return Ok(id);
            }
        }
        Err(BtfError::UnknownBtfTypeName)
    }

    // Whether a row has the kind and the name.
    fn is_named(&self, row: &TypeRow, id: u32, name: &[u8], kind: BtfKind) -> Result<bool, BtfError>
        ensures { (es : List element_type) (rest : Answer ℕ) → verdict id rest (told (λ b. b) result) ≡ find_here (decl_of es row.now) self.now.strings.now name.now kind id rest }
    {
        if row.head.kind() != kind {
            return Ok(false);
        }
        let found = self.string_at(Some(id), row.head.name_offset)?;
        Ok(same_bytes(found, name))
    }
}
