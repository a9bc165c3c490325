// Makes calls of a table one after the other, and checks what each says.
use crate::calls::{Call, ENTRY, MEMBER, Many, NO_MEMBERS, Question, Said, Step, raw};
use declare::{Array, Const};
use elements::{Element, ElementType};
use filing::FilingError;
use layout::{BtfKind, Declaration, PointerWidth};
use order::LittleEndian;
use std::alloc::AllocError;
use std::process::Abort;
use std::test::Fail;
use table::{Btf, TypeRow};

// What is asked before and after a refused call.
const ASKED: [Question; 18] = [
    Question::StringAt(0),
    Question::StringAt(1),
    Question::StringAt(3),
    Question::StringAt(5),
    Question::TypeById(0),
    Question::TypeById(1),
    Question::TypeById(2),
    Question::ElementAt(1, 0),
    Question::ElementAt(1, 1),
    Question::ElementAt(2, 0),
    Question::TypeName(1),
    Question::TypeName(2),
    Question::Find(b"int", BtfKind::Int),
    Question::Find(b"", BtfKind::Unknown),
    Question::Resolve(1),
    Question::Resolve(2),
    Question::Size(1, PointerWidth::Four),
    Question::Size(2, PointerWidth::Eight),
];

// What can be seen of a table: its answers, its file and its string area.
#[derive(PartialEq, Debug, Drop)]
struct Seen {
    answers: [Said; 18],
    file: Vec<u8>,
    area: Vec<u8>,
}

// `strings` is only read, but of two fields that are lent together the check wants both as `&mut`.
fn add<E: ElementType>(
    table: &mut Btf,
    strings: &mut [u8],
    declaration: &Declaration,
    elements: &[E],
) -> Said {
    table.add_type(strings, declaration, elements).into()
}

// A table with its string area, and the handle by which a check that fails ends the test.
#[derive(Drop)]
pub struct Player<'p, 'a, R> {
    pub rt: &'p R,
    pub table: &'p mut Btf<'a>,
    pub strings: &'p mut [u8],
}

impl<'p, 'a, R: Abort + AllocGlobal + Drop> Player<'p, 'a, R> {
    pub fn new(rt: &'p R, table: &'p mut Btf<'a>, strings: &'p mut [u8]) -> Player<'p, 'a, R> {
        Player { rt, table, strings }
    }

    pub fn add<E: ElementType>(&mut self, declaration: &Declaration, elements: &[E]) -> Said {
        add(self.table, self.strings, declaration, elements)
    }

    pub fn ask(&self, question: &Question) -> Said {
        let Player { table, strings, .. } = self;
        match *question {
            Question::StringAt(offset) => table.string_at(strings, offset).into(),
            Question::TypeById(id) => table.type_by_id(strings, id).into(),
            Question::ElementAt(id, index) => table.element_at(strings, id, index).into(),
            Question::TypeName(id) => table.type_name(strings, id).into(),
            Question::Find(name, kind) => table.id_by_type_name_kind(strings, name, kind).into(),
            Question::Resolve(id) => table.resolve_type(strings, id).into(),
            Question::Size(id, width) => table.type_size(strings, id, width).into(),
        }
    }

    fn encode(&self, room: usize) -> Result<Said, AllocError> {
        let mut out = vec![in self.rt.alloc(); 0; room]?;
        let written = self.table.to_bytes(self.strings, &LittleEndian, &mut out);
        Ok(written.into())
    }

    fn add_many(&mut self, many: &Many) -> Result<Said, AllocError> {
        let heap = self.rt.alloc();
        let mut said = Said::Number(0);
        match *many {
            Many::Letters(count) => {
                let name = vec![in heap; b'a'; count]?;
                said = self.table.add_string(self.strings, &name).into();
            }
            Many::Consts(times) => {
                for id in 0..times {
                    said = self.add(&Const::new(id.wrapping_add(2)), NO_MEMBERS);
                }
            }
            Many::Structs(times, count) => {
                let members = vec![in heap; MEMBER; count]?;
                for _ in 0..times {
                    said = self.add(&raw(BtfKind::Struct.into(), false, 0), &members);
                }
            }
            Many::Entries(kind, flag, count) => {
                let entries = vec![in heap; ENTRY; count]?;
                said = self.add(&raw(kind.into(), flag, 0), &entries);
            }
        }
        Ok(said)
    }

    fn act(&mut self, call: &Call) -> Result<Said, AllocError> {
        Ok(match *call {
            Call::AddString(name) => self.table.add_string(self.strings, name).into(),
            Call::Add(kind, name_offset, size_or_type) => {
                let declaration = Declaration {
                    name_offset,
                    kind: kind.into(),
                    flag: false,
                    linkage: 0,
                    size_or_type,
                    extra: [0, 0, 0],
                };
                self.add(&declaration, NO_MEMBERS)
            }
            Call::AddArray(element, len) => self.add(&Array::new(0, element, 0, len), NO_MEMBERS),
            Call::AddRaw(kind, flag, linkage) => self.add(&raw(kind, flag, linkage), NO_MEMBERS),
            Call::AddMany(many) => self.add_many(&many)?,
            Call::Ask(question) => self.ask(&question),
            Call::Encode(room) => self.encode(room)?,
        })
    }

    // The file, or nothing where there is none.
    fn file(&self) -> Result<Vec<u8>, AllocError> {
        let heap = self.rt.alloc();
        match filing::to_vec(heap, self.table, self.strings, &LittleEndian) {
            Ok(file) => Ok(file),
            Err(FilingError::Table(_)) => Ok(Vec::new(heap)),
            Err(FilingError::Memory) => Err(AllocError),
        }
    }

    fn look(&self) -> Result<Seen, AllocError> {
        Ok(Seen {
            answers: ASKED.map(|question| self.ask(&question)),
            file: self.file()?,
            area: self.strings.to_vec(self.rt.alloc())?,
        })
    }

    // Makes a call, and checks what it says.
    fn check(&mut self, call: &Call, want: Said, place: usize) -> Result<(), Fail> {
        let rt = self.rt;
        assert_eq!(rt; self.act(call)?, want, "step {place}");
        Ok(())
    }

    // Makes a call that is to be refused, and checks that it leaves everything as it was.
    fn refuse(&mut self, call: &Call, want: Said, place: usize) -> Result<(), Fail> {
        let before = self.look()?;
        self.check(call, want, place)?;
        let rt = self.rt;
        assert_eq!(rt; self.look()?, before, "step {place}");
        Ok(())
    }

    pub fn play(&mut self, steps: &[Step]) -> Result<(), Fail> {
        for (place, (call, want)) in steps.iter().enumerate() {
            match want {
                Said::No(..) => self.refuse(call, *want, place)?,
                _ => self.check(call, *want, place)?,
            }
        }
        Ok(())
    }
}

// How many declarations, elements and string bytes a table has room for.
#[derive(Clone, Copy)]
pub struct Rooms(pub usize, pub usize, pub usize);

pub const ROOMY: Rooms = Rooms(40, 16, 40);

// Makes calls on a new table, whose string area is filled with a byte before.
pub fn play<R: Abort + AllocGlobal + Drop>(
    rt: &R,
    Rooms(types, elements, strings): Rooms,
    fill: u8,
    steps: &[Step],
) -> Result<(), Fail> {
    let heap = rt.alloc();
    let mut types = vec![in heap; TypeRow::empty(); types]?;
    let mut elements = vec![in heap; Element::empty(); elements]?;
    let mut strings = vec![in heap; fill; strings]?;
    let mut table = Btf::new(&mut types, &mut elements, &mut strings);
    Player::new(rt, &mut table, &mut strings).play(steps)
}
