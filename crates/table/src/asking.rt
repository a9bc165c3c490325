// Questions to a table.
ghost use Rattle.std.specs.Prelude.{◌≡◌, ◌<◌, IfOk, None};
ghost use Rattle.layout.specs.Kinds.{pointer_bytes};
ghost use Rattle.layout.specs.Refusals.{told, accepted};
ghost use Rattle.meaning.specs.Table.{text};
ghost use Rattle.meaning.specs.Questions.{asked_of, string_at, type_by_id, element_at, type_name, find_from, resolve_type, type_size};
ghost use Rattle.table.specs.Tables.{table_of, seen, in_use};

use crate::btf::Btf;
use elements::BtfElement;
use layout::{BtfError, BtfKind, BtfType, PointerWidth};
use rows::View;

impl Btf<'_> {
    // The table as it is asked, where it holds something and the string area has all its strings.
    pub(crate) fn view<'s>(&self, strings: &'s [u8]) -> Result<View<'_, 's>, BtfError>
        ensures { told seen result ≡ asked_of (table_of self.now strings.now) (accepted (in_use self.now strings.now)) }
    {
        if self.type_count == 0 || strings.len() < self.string_len {
            return Err(BtfError::NoTable);
        }
        Ok(View {
            rows: &self.types[0..self.type_count],
            elements: self.elements,
            strings: &strings[0..self.string_len],
        })
    }

    // The name at an offset, as a part of the string area.
    pub fn string_at<'s>(&self, strings: &'s [u8], offset: u32) -> Result<&'s [u8], BtfError>
        ensures { told (λ s. s.now) result ≡ asked_of (table_of self.now strings.now) (string_at (text (table_of self.now strings.now)) None offset) }
    {
        self.view(strings)?.string_at(None, offset)
    }

    // The head of a declaration: all of it but its elements.
    pub fn type_by_id(&self, strings: &[u8], id: u32) -> Result<BtfType, BtfError>
        ensures { told (λ h. h) result ≡ asked_of (table_of self.now strings.now) (type_by_id (table_of self.now strings.now).decls id) }
    {
        self.view(strings)?.type_by_id(id)
    }

    // An element of a declaration, from 0.
    pub fn element_at(&self, strings: &[u8], id: u32, index: u32) -> Result<BtfElement, BtfError>
        ensures { told (λ e. e) result ≡ asked_of (table_of self.now strings.now) (element_at (table_of self.now strings.now).decls id index) }
    {
        self.view(strings)?.element_at(id, index)
    }

    // The name of a declaration, as a part of the string area.
    pub fn type_name<'s>(&self, strings: &'s [u8], id: u32) -> Result<&'s [u8], BtfError>
        ensures { told (λ s. s.now) result ≡ asked_of (table_of self.now strings.now) (type_name (table_of self.now strings.now).decls (text (table_of self.now strings.now)) id) }
    {
        self.view(strings)?.type_name(id)
    }

    // The lowest id of a kind and name.
    pub fn id_by_type_name_kind(
        &self,
        strings: &[u8],
        name: &[u8],
        kind: BtfKind,
    ) -> Result<u32, BtfError>
        ensures { told (λ n. n) result ≡ asked_of (table_of self.now strings.now) (find_from (table_of self.now strings.now).decls (text (table_of self.now strings.now)) name.now kind 0) }
    {
        self.view(strings)?.id_by_type_name_kind(name, kind)
    }

    // The end of an id behind Volatile, Const, Restrict, Typedef and TypeTag, and the links followed to it.
    pub fn resolve_type(&self, strings: &[u8], id: u32) -> Result<(u32, u32), BtfError>
        ensures answer { told (λ p. (p.0, p.1)) result ≡ asked_of (table_of self.now strings.now) (resolve_type (table_of self.now strings.now).decls id) }
        ensures short { IfOk result (λ p. p.1 < 32) }
    {
        self.view(strings)?.resolve_type(id)
    }

    // The size of an id where pointers have a width, and the links followed to what has it.
    pub fn type_size(
        &self,
        strings: &[u8],
        id: u32,
        width: PointerWidth,
    ) -> Result<(u32, u32), BtfError>
        ensures answer { told (λ p. (p.0, p.1)) result ≡ asked_of (table_of self.now strings.now) (type_size (pointer_bytes width) (table_of self.now strings.now).decls id) }
        ensures short { IfOk result (λ p. p.1 < 32) }
    {
        self.view(strings)?.type_size(id, width)
    }
}
