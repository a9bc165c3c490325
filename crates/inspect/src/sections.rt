// What may be missing or too large for the rules on sections.
ghost use Rattle.std.specs.Prelude.{◌≡◌, ◌==◌, Bool, cond, take, None};
ghost use Rattle.features.specs.declared.BtfFeature.{BtfFeature};
ghost use Rattle.features.specs.declared.BtfFeature.TheVariants.{DataSec};
ghost use Rattle.layout.specs.Info.{kind_of};
ghost use Rattle.layout.specs.Kinds.{kind_number};
ghost use Rattle.layout.specs.declared.kind.BtfKind.TheVariants.{DataSec as Section};
ghost use Rattle.rows.specs.Rows.{decl_of};
ghost use Rattle.rewriting.specs.Requests.{section_number, symbol_number};
ghost use Rattle.rewriting.specs.Rules.{name_at};
ghost use Rattle.rewriting.specs.Sections.{too_large, needed, symbol_fault, entry_fault, member_fault, each_fault, granted_fault, section_fault, sections_fault};
ghost use Rattle.layout.specs.Refusals.{fault_of};
ghost use Rattle.inspect.specs.Faults.{fixup_said};
ghost use Rattle.inspect.specs.Listed.{request_of, few_job};
ghost use Rattle.inspect.specs.Sourced.{sources_job};

use crate::each::{Check, check_each};
use crate::error::FixupError;
use crate::names::{Lists, name_at, number_of};
use elements::Element;
use layout::{BtfKind, Linkage};
use rows::{TypeRow, View};

// The declaration, the element and the value are handed in one by one, as the parts of a refusal.
fn check_word(section: u32, entry: Option<u32>, number: u64) -> Result<(), FixupError>
    ensures { fault_of fixup_said result ≡ too_large section entry number }
{
    u32::try_from(number).map_err(|_| FixupError::NumberTooLarge {
        section,
        entry,
        number,
    })?;
    Ok(())
}

// Sections refused: the entries of a section become members.
#[derive(Clone, Copy)]
struct Members {
    section: u32,
}

impl Check for Members {
    type Item = Element;

    type Fault = FixupError;

    ghost fault = { λ c entry element. member_fault c.section entry (take 3 element.words) };

    ghost said = { fixup_said };

    // A member's offset in bits and where it ends are words.
    fn check(&self, entry: u32, element: &Element) -> Result<(), FixupError> {
        let [_, offset, size] = *element.words();
        let bits = u64::from(offset) * 8;
        let end = u64::from(offset) + u64::from(size.max(1));
        check_word(self.section, Some(entry), bits)?;
        check_word(self.section, Some(entry), end)
    }
}

// What is read of the table and of the caller's lists.
#[derive(Clone, Copy)]
struct Sources<'c> {
    view: &'c View<'c, 'c>,
    lists: &'c Lists<'c>,
}

impl Sources<'_> {
    // The size of the section whose name stands at an offset.
    fn section_size(&self, name_offset: u32) -> Option<u64>
        ensures { result ≡ section_number (sources_job self.now) (name_at (sources_job self.now) name_offset) }
    {
        let name = name_at(self.view.strings, name_offset);
        number_of(self.lists.sections, self.lists.names, name)
    }

    // The offset of the symbol whose name stands at an offset.
    fn symbol_offset(&self, name_offset: u32) -> Option<u64>
        ensures { result ≡ symbol_number (sources_job self.now) (name_at (sources_job self.now) name_offset) }
    {
        let name = name_at(self.view.strings, name_offset);
        number_of(self.lists.symbols, self.lists.names, name)
    }
}

// Sections granted: the entries of a section stay.
#[derive(Clone, Copy)]
struct Entries<'c> {
    sources: Sources<'c>,
    section: u32,
}

impl Entries<'_> {
    // A variable that is not static has a symbol.
    fn check_symbol(&self, var: &TypeRow, entry: u32) -> Result<(), FixupError>
        ensures { fault_of fixup_said result ≡ symbol_fault (sources_job self.now.sources) self.now.section entry (decl_of self.now.sources.view.now.elements.now var.now) }
    {
        if var.head.extra[0] == u32::from(Linkage::Static) {
            return Ok(());
        }
        let offset = self
            .sources
            .symbol_offset(var.head.name_offset)
            .ok_or(FixupError::SymbolOffsetNotFound {
                section: self.section,
                entry,
            })?;
        check_word(self.section, Some(entry), offset)
    }
}

impl Check for Entries<'_> {
    type Item = Element;

    type Fault = FixupError;

    ghost fault = { λ c entry element. entry_fault (sources_job c.sources) c.section entry (take 3 element.words) };

    ghost said = { fixup_said };

    // An entry is a variable's.
    fn check(&self, entry: u32, element: &Element) -> Result<(), FixupError> {
        let [type_id, _, _] = *element.words();
        match self.sources.view.rows.get(type_id as usize) {
            Some(var) if var.head.kind() == BtfKind::Var => self.check_symbol(var, entry),
            _ => Err(FixupError::InvalidDatasec {
                section: self.section,
                entry,
                type_id,
            }),
        }
    }
}

// The sections of a table where sections are granted.
#[derive(Clone, Copy)]
struct Granted<'c> {
    sources: Sources<'c>,
}

impl Granted<'_> {
    // The row of a section's name, which gives its size.
    fn check_size(&self, row: &TypeRow, section: u32) -> Result<(), FixupError>
        ensures { fault_of fixup_said result ≡ needed 12 section None (section_number (sources_job self.now.sources) (name_at (sources_job self.now.sources) row.now.head.name_offset)) }
    {
        let size = self
            .sources
            .section_size(row.head.name_offset)
            .ok_or(FixupError::UnknownSectionSize { section })?;
        check_word(section, None, size)
    }

    // A section with a size of its own needs no row, and its entries are not read.
    fn check_section(&self, row: &TypeRow, section: u32) -> Result<(), FixupError>
        requires { kind_of row.now.head.info ≡ Section }
        ensures { fault_of fixup_said result ≡ granted_fault (sources_job self.now.sources) section (decl_of self.now.sources.view.now.elements.now row.now) }
    {
        if 0 < row.head.size_or_type {
            return Ok(());
        }
        self.check_size(row, section)?;
        let entries = Entries {
            sources: self.sources,
            section,
        };
        check_each(&entries, self.sources.view.tail(row))
    }
}

impl Check for Granted<'_> {
    type Item = TypeRow;

    type Fault = FixupError;

    ghost fault = { λ c id row. section_fault (sources_job c.sources) id (decl_of c.sources.view.now.elements.now row) };

    ghost said = { fixup_said };

    fn check(&self, id: u32, row: &TypeRow) -> Result<(), FixupError> {
        if row.head.kind() != BtfKind::DataSec {
            return Ok(());
        }
        self.check_section(row, id)
    }
}

// The sections of a table where sections are refused.
#[derive(Clone, Copy)]
struct Refused<'c> {
    view: &'c View<'c, 'c>,
}

impl Refused<'_> {
    // All entries are read.
    fn check_section(&self, row: &TypeRow, section: u32) -> Result<(), FixupError>
        requires { kind_of row.now.head.info ≡ Section }
        ensures { fault_of fixup_said result ≡ each_fault (member_fault section) 0 (decl_of self.now.view.now.elements.now row.now).tail }
    {
        check_each(&Members { section }, self.view.tail(row))
    }
}

impl Check for Refused<'_> {
    type Item = TypeRow;

    type Fault = FixupError;

    ghost fault = { λ c id row. cond (kind_number (kind_of row.head.info) == 15) (each_fault (member_fault id) 0 (decl_of c.view.now.elements.now row).tail) None };

    ghost said = { fixup_said };

    fn check(&self, id: u32, row: &TypeRow) -> Result<(), FixupError> {
        if row.head.kind() != BtfKind::DataSec {
            return Ok(());
        }
        self.check_section(row, id)
    }
}

// The first fault of a section, in rising id order.
pub fn sections_fault(granted: bool, view: &View, lists: &Lists) -> Result<(), FixupError>
    ensures { (grants : BtfFeature → Bool) → granted ≡ grants DataSec → fault_of fixup_said result ≡ sections_fault (few_job view.now (request_of lists.now grants)) }
{
    let view = view.limited();
    let sources = Sources { view: &view, lists };
    if granted {
        check_each(&Granted { sources }, view.rows)
    } else {
        check_each(&Refused { view: &view }, view.rows)
    }
}
