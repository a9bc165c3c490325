// The commands of a script.
use crate::declared::Declared;
use crate::fault::Fault;
use crate::malformed::{Malformed, Part};
use crate::words::Words;
use layout::{BtfKind, PointerWidth};
use order::Endian;
use std::alloc::Global;

// A question as it is read from a line: the name is its own, and is kept until the table has answered.
#[derive(Drop)]
pub enum Question {
    StringAt(u32),
    TypeName(u32),
    TypeById(u32),
    ElementAt { id: u32, index: u32 },
    ResolveType(u32),
    TypeSize { id: u32, width: PointerWidth },
    IdByNameKind { kind: BtfKind, name: Vec<u8> },
}

#[derive(Drop)]
pub enum Command {
    New,
    AddString(Vec<u8>),
    AddType(Declared),
    Ask(Question),
    Rewrite,
    Encode(Endian),
}

fn read_endian(words: &mut Words) -> Result<Endian, Malformed> {
    Ok(Endian::try_from(words.text(Part::Order)?)?)
}

// Unknown is the kind of the number 0 and of each that no kind has: a kind from a number cannot fail, so the number tells.
fn read_kind(words: &mut Words) -> Result<BtfKind, Malformed> {
    let number = words.word(Part::Kind)?;
    match BtfKind::from(number) {
        BtfKind::Unknown if number != 0 => Err(Malformed::NoKindNumber(number)),
        kind => Ok(kind),
    }
}

fn read_question(first: &[u8], words: &mut Words) -> Result<Question, Fault> {
    Ok(match first {
        b"string" => Question::StringAt(words.word(Part::Offset)?),
        b"name" => Question::TypeName(words.word(Part::Id)?),
        b"get" => Question::TypeById(words.word(Part::Id)?),
        b"element" => Question::ElementAt {
            id: words.word(Part::Id)?,
            index: words.word(Part::Index)?,
        },
        b"resolve" => Question::ResolveType(words.word(Part::Id)?),
        b"size" => Question::TypeSize {
            id: words.word(Part::Id)?,
            width: words.width()?,
        },
        b"find" => Question::IdByNameKind {
            kind: read_kind(words)?,
            name: words.name()?,
        },
        _ => return Err(Malformed::UnknownCommand.into()),
    })
}

fn read_command(words: &mut Words) -> Result<Command, Fault> {
    let first = words.next().ok_or(Malformed::UnknownCommand)?;
    Ok(match first {
        b"new" => Command::New,
        b"str" => Command::AddString(words.name()?),
        b"type" => Command::AddType(Declared::read(words)?),
        b"bytes" => Command::Encode(read_endian(words)?),
        b"fix" => {
            // Not offered yet, so what it says is not read.
            words.pass_over();
            Command::Rewrite
        }
        _ => Command::Ask(read_question(first, words)?),
    })
}

impl Command {
    // The command of a line.
    pub fn read(heap: Global, line: &[u8]) -> Result<Command, Fault> {
        let mut words = Words::new(heap, line);
        let command = read_command(&mut words)?;
        words.end()?;
        Ok(command)
    }
}
