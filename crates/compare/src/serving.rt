// Runs the commands of a script on its table, and prints an answer for each.
use crate::answer::Answer;
use crate::command::{Command, Question};
use crate::declared::{Declared, Tail};
use crate::fault::Fault;
use crate::malformed::Malformed;
use crate::script::{Line, Script};
use elements::{BtfMember, Element};
use filing::FilingError;
use layout::BtfError;
use order::{BigEndian, ByteOrder, Endian, LittleEndian};
use std::alloc::Global;
use std::io::Write;
use table::{Btf, TypeRow};

// A table, with the string area that comes with each of its calls.
#[derive(Drop)]
pub struct Session<'a> {
    heap: Global,
    table: Btf<'a>,
    names: &'a mut [u8],
}

impl<'a> Session<'a> {
    pub fn new(
        heap: Global,
        rows: &'a mut [TypeRow],
        elements: &'a mut [Element],
        names: &'a mut [u8],
    ) -> Session<'a> {
        let table = Btf::new(rows, elements, names);
        Session { heap, table, names }
    }
}

const NO_MEMBERS: &[BtfMember] = &[];

// `names` is only read, but of two fields that are lent together the check wants both as `&mut`.
fn add(table: &mut Btf, names: &mut [u8], declared: &Declared) -> Result<u32, BtfError> {
    let declaration = &declared.declaration;
    match &declared.tail {
        None => table.add_type(names, declaration, NO_MEMBERS),
        Some(Tail::Values(values)) => table.add_type(names, declaration, values),
        Some(Tail::Values64(values)) => table.add_type(names, declaration, values),
        Some(Tail::Members(members)) => table.add_type(names, declaration, members),
        Some(Tail::Params(params)) => table.add_type(names, declaration, params),
        Some(Tail::Entries(entries)) => table.add_type(names, declaration, entries),
    }
}

impl Session<'_> {
    fn ask(&self, question: &Question) -> Result<Answer<'_>, BtfError> {
        let Session { table, names, .. } = self;
        Ok(match question {
            Question::StringAt(offset) => Answer::Name(table.string_at(names, *offset)?),
            Question::TypeName(id) => Answer::Name(table.type_name(names, *id)?),
            Question::TypeById(id) => Answer::Head(table.type_by_id(names, *id)?),
            Question::ElementAt { id, index } => Answer::Element(table.element_at(
                names, *id, *index,
            )?),
            Question::ResolveType(id) => Answer::Number(table.resolve_type(names, *id)?.0),
            Question::TypeSize { id, width } => Answer::Number(
                table.type_size(names, *id, *width)?.0,
            ),
            Question::IdByNameKind { kind, name } => Answer::Number(table.id_by_type_name_kind(
                names, name, *kind,
            )?),
        })
    }

    fn file<O: ByteOrder>(&self, order: &O) -> Result<Vec<u8>, FilingError> {
        filing::to_vec(self.heap, &self.table, self.names, order)
    }

    fn run(&mut self, command: &Command) -> Result<Answer<'_>, Fault> {
        Ok(match command {
            // The table of a script is new when its first line is read.
            Command::New => Answer::Done,
            Command::AddString(name) => Answer::Number(self.table.add_string(self.names, name)?),
            Command::AddType(declared) => Answer::Number(add(
                &mut self.table,
                self.names,
                declared,
            )?),
            Command::Ask(question) => self.ask(question)?,
            Command::Rewrite => Answer::Unsupported,
            Command::Encode(Endian::Little) => Answer::File(self.file(&LittleEndian)?),
            Command::Encode(Endian::Big) => Answer::File(self.file(&BigEndian)?),
        })
    }
}

fn answer<'s>(
    heap: Global,
    session: &'s mut Option<Session>,
    line: &[u8],
) -> Result<Answer<'s>, Fault> {
    let command = Command::read(heap, line)?;
    session.as_mut().ok_or(Malformed::NoTable)?.run(&command)
}

fn print<W: Write>(out: &mut W, line: usize, answer: Result<Answer, Fault>) -> Result<(), Fault> {
    match answer {
        Ok(answer) => writeln!(out, "{answer}")?,
        Err(Fault::Line(e)) => writeln!(out, "line {line}: {e}")?,
        Err(refusal @ Fault::Table(_)) => writeln!(out, "{refusal}")?,
        Err(e) => return Err(e),
    }
    Ok(())
}

// Runs a script on a table that is new, or on none where it begins none.
pub fn serve<W: Write>(
    heap: Global,
    out: &mut W,
    session: &mut Option<Session>,
    script: &Script,
) -> Result<(), Fault> {
    for (i, text) in script.text.split_inclusive(|b| *b == b'\n').enumerate() {
        let number = script.first_line.saturating_add(i);
        let line = Line { number, text };
        if !line.is_passed_over() {
            print(out, line.number, answer(heap, session, line.text))?;
        }
    }
    Ok(())
}
