// Adding to a table.
ghost use Rattle.std.specs.Prelude.{◌≡◌, ℕ, ◌+◌, ◌<◌, ◌≤◌, min, List, map, length, is_ok, IfOk, if◌then◌else◌};
ghost use Rattle.layout.specs.Info.{elements_of};
ghost use Rattle.layout.specs.Kinds.{kind_at};
ghost use Rattle.elements.specs.Packing.{packed};
ghost use Rattle.meaning.specs.Table.{most_decls, most_elements};
ghost use Rattle.layout.specs.Refusals.{said, fault_of};
ghost use Rattle.meaning.specs.Adding.{add_string, add_type, declaration_fault, room_fault};
ghost use Rattle.table.specs.Tables.{table_of, outcome, with_row, with_elements, Put};

use crate::btf::Btf;
use crate::placing::{put_name, put_tail};
use elements::ElementType;
use layout::{Area, BtfError, BtfKind, BtfType, Declaration, Linkage};
use rows::{MOST_DECLARATIONS, TypeRow, name_length};

pub const MOST_ELEMENTS: usize = 2_097_152;

pub const MOST_STRINGS: usize = 16_777_215;

// The elements that one declaration may have.
const MOST_TAIL: usize = 65535;

// The kind of a declaration with so many elements, where nothing is refused of it by itself.
fn declared_kind<E: ElementType>(
    declaration: &Declaration,
    count: usize,
) -> Result<BtfKind, BtfError>
    ensures fault { fault_of said result ≡ declaration_fault declaration.now E.serving count }
    ensures kind { IfOk result (λ kind. kind ≡ kind_at declaration.now.kind) }
{
    let kind = BtfKind::from(declaration.kind);
    if kind == BtfKind::Unknown || (0 < count && !E::serves(kind)) {
        return Err(BtfError::InvalidTypeKind {
            kind: declaration.kind,
        });
    }
    if declaration.flag && !kind.takes_flag() {
        return Err(BtfError::UnexpectedFlag);
    }
    if kind.has_linkage() && u32::from(Linkage::Unstated) < declaration.linkage {
        return Err(BtfError::InvalidLinkage {
            linkage: declaration.linkage,
        });
    }
    if MOST_TAIL < count {
        return Err(BtfError::TooManyElements { count });
    }
    Ok(kind)
}

impl Btf<'_> {
    // Adds a name with its zero byte, and answers the offset where it stands.
    pub fn add_string(&mut self, strings: &mut [u8], name: &[u8]) -> Result<u32, BtfError>
        ensures outcome { outcome result self.new strings.new ≡ add_string (table_of self.old strings.old) name.now }
        ensures types { self.new.types.now ≡ self.old.types.now }
        ensures elements { self.new.elements.now ≡ self.old.elements.now }
    {
        self.view(strings)?;
        let place = name_length(name);
        if place < name.len() {
            return Err(BtfError::ZeroByteInName { place });
        }
        let at = self.string_len;
        if strings.len().min(MOST_STRINGS) - at <= name.len() {
            return Err(BtfError::NoRoom {
                area: Area::Strings,
            });
        }
        put_name(strings, at, name);
        self.string_len = at + name.len() + 1;
        Ok(at as u32)
    }

    // Adds a declaration with its elements, and answers its id. Ids may be named before they exist.
    pub fn add_type<E: ElementType>(
        &mut self,
        strings: &[u8],
        declaration: &Declaration,
        elements: &[E],
    ) -> Result<u32, BtfError>
        ensures outcome { outcome result self.new strings.now ≡ add_type (table_of self.old strings.now) declaration.now E.serving (map E.meaning elements.now) }
        ensures types { self.new.types.now ≡ (if is_ok result then with_row self.old declaration.now (length elements.now) else self.old.types.now) }
        ensures elements { self.new.elements.now ≡ (if is_ok result then with_elements self.old (map E.meaning elements.now) else self.old.elements.now) }
    {
        self.view(strings)?;
        let count = elements.len();
        let kind = declared_kind::<E>(declaration, count)?;
        self.check_room(count)?;
        let head = declaration.head(kind, count as u16);
        Ok(self.put_type(head, elements))
    }

    // Refuses where there is no room for one declaration and `count` elements more.
    fn check_room(&self, count: usize) -> Result<(), BtfError>
        ensures { (strings : List ℕ) → fault_of said result ≡ room_fault (table_of self.now strings) count }
    {
        if self.types.len().min(MOST_DECLARATIONS) <= self.type_count {
            return Err(BtfError::NoRoom {
                area: Area::Declarations,
            });
        }
        if self.elements.len().min(MOST_ELEMENTS) - self.element_count < count {
            return Err(BtfError::NoRoom {
                area: Area::Elements,
            });
        }
        Ok(())
    }

    // Puts a declaration with its elements behind the others, and answers its id.
    fn put_type<E: ElementType>(&mut self, head: BtfType, tail: &[E]) -> u32
        requires row { self.old.type_count < min (length self.old.types.now) most_decls }
        requires room { self.old.element_count + length tail.now ≤ min (length self.old.elements.now) most_elements }
        requires suits { elements_of head.info ≡ length tail.now }
        ensures id { result ≡ self.old.type_count }
        ensures put { Put self.old self.new head (map packed (map E.meaning tail.now)) }
    {
        let id = self.type_count;
        let first = self.element_count;
        self.types[id] = TypeRow {
            head,
            first: first as u32,
        };
        put_tail(self.elements, first, tail);
        self.type_count = id + 1;
        self.element_count = first + tail.len();
        self.type_bytes += head.type_info_size();
        id as u32
    }
}
