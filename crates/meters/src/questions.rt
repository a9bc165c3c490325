// Questions to a meter's table, with the answers and the refusals that it gives.
use crate::meter::Meter;
use crate::shown::{Shown, ShownElement};
use layout::{BtfError, BtfKind, PointerWidth};
use std::{fmt, io};
use table::Btf;

// An id that no declaration of a meter has.
const NO_ID: u32 = 99;

// An offset past every name of a meter.
const NO_OFFSET: u32 = 5000;

#[derive(Clone, Copy)]
pub struct Questions<'q> {
    pub rt: &'q HostRuntime,
    pub table: &'q Btf<'q>,
    // the string area of the table
    pub names: &'q [u8],
}

impl Questions<'_> {
    // Prints an answer, or the refusal.
    fn answer<T: fmt::Display + Drop>(&self, answer: Result<T, BtfError>) -> io::Result<()> {
        match answer {
            Ok(answer) => println!(self.rt; "{answer}"),
            Err(refusal) => println!(self.rt; "{refusal}"),
        }
    }

    // The size of an id, at both widths of pointers where they differ.
    fn ask_size(&self, id: u32) -> io::Result<()> {
        print!(self.rt; "size of id {id}: ")?;
        self.answer(self.sizes(id))
    }

    fn sizes(&self, id: u32) -> Result<Sizes, BtfError> {
        let (narrow, links) = self.table.type_size(self.names, id, PointerWidth::Four)?;
        let (wide, _) = self.table.type_size(self.names, id, PointerWidth::Eight)?;
        Ok(Sizes {
            narrow,
            wide,
            links,
        })
    }

    // What stands behind an id.
    fn ask_end(&self, id: u32) -> io::Result<()> {
        print!(self.rt; "end of id {id}: ")?;
        self.answer(
            self.table
                .resolve_type(self.names, id)
                .map(|(end, links)| End { end, links }),
        )
    }

    fn ask_name(&self, id: u32) -> io::Result<()> {
        print!(self.rt; "name of id {id}: ")?;
        match self.table.type_name(self.names, id) {
            Ok([]) => println!(self.rt; "none"),
            named => self.answer(named.map(Shown)),
        }
    }

    fn ask_string(&self, offset: u32) -> io::Result<()> {
        print!(self.rt; "string at {offset}: ")?;
        self.answer(self.table.string_at(self.names, offset).map(Shown))
    }

    fn ask_id(&self, kind: BtfKind, name: &str) -> io::Result<()> {
        print!(self.rt; "id of {kind} {name}: ")?;
        self.answer(
            self.table
                .id_by_type_name_kind(self.names, name.as_bytes(), kind),
        )
    }

    fn ask_element(&self, id: u32, index: u32) -> io::Result<()> {
        print!(self.rt; "element {index} of id {id}: ")?;
        self.answer(
            self.table
                .element_at(self.names, id, index)
                .map(ShownElement),
        )
    }

    fn ask_names(&self, meter: &Meter) -> io::Result<()> {
        self.ask_name(meter.func)?;
        self.ask_name(meter.counters.pointer)?;
        self.ask_string(1)?;
        self.ask_id(BtfKind::Struct, "counters")?;
        self.ask_id(BtfKind::Func, "count_packet")
    }

    fn ask_sizes(&self, meter: &Meter) -> io::Result<()> {
        let ids = [
            meter.numbers.word,
            meter.numbers.letter,
            meter.counters.counters,
            meter.counters.pointer,
            meter.counters.lines,
            meter.counters.constant,
            meter.counters.volatile,
            meter.counters.restrict,
            meter.packets.key,
            meter.maps.var,
            meter.maps.section,
        ];
        for id in ids {
            self.ask_size(id)?;
        }
        Ok(())
    }

    fn ask_ends(&self, meter: &Meter) -> io::Result<()> {
        self.ask_end(meter.counters.constant)?;
        self.ask_end(meter.counters.restrict)?;
        self.ask_end(meter.counters.counters)
    }

    fn ask_elements(&self, meter: &Meter) -> io::Result<()> {
        let places = [
            (meter.counters.counters, 0),
            (meter.counters.counters, 1),
            (meter.counters.counters, 2),
            (meter.choices.verdict, 0),
            (meter.choices.marks, 1),
            (meter.maps.section, 0),
        ];
        for (id, index) in places {
            self.ask_element(id, index)?;
        }
        Ok(())
    }

    // Questions that declarations answer.
    fn ask_known(&self, meter: &Meter) -> io::Result<()> {
        self.ask_sizes(meter)?;
        self.ask_ends(meter)?;
        self.ask_names(meter)?;
        self.ask_elements(meter)
    }

    // Questions that no declaration answers.
    fn ask_in_vain(&self, meter: &Meter) -> io::Result<()> {
        for id in [NO_ID, meter.func, meter.packets.buffer] {
            self.ask_size(id)?;
        }
        self.ask_end(NO_ID)?;
        self.ask_string(NO_OFFSET)?;
        self.ask_id(BtfKind::Union, "counters")?;
        self.ask_element(meter.counters.counters, 3)
    }

    pub fn ask_all(&self, meter: &Meter) -> io::Result<()> {
        self.ask_known(meter)?;
        self.ask_in_vain(meter)
    }
}

// What stands behind an id, and the links followed to it.
#[derive(Clone, Copy)]
struct End {
    end: u32,
    links: u32,
}

impl fmt::Display for End {
    fn fmt<W: fmt::Write>(&self, f: &mut fmt::Formatter<W>) -> fmt::Result {
        let End { end, links } = self;
        write!(f, "id {end}, {links} links")
    }
}

// The sizes of an id where pointers have 4 and 8 bytes, and the links followed to what has them.
#[derive(Clone, Copy)]
struct Sizes {
    narrow: u32,
    wide: u32,
    links: u32,
}

impl fmt::Display for Sizes {
    fn fmt<W: fmt::Write>(&self, f: &mut fmt::Formatter<W>) -> fmt::Result {
        let Sizes {
            narrow,
            wide,
            links,
        } = *self;
        if narrow == wide {
            write!(f, "{narrow} bytes, {links} links")
        } else {
            write!(
                f,
                "{narrow} or {wide} bytes, as pointers have 4 or 8, {links} links"
            )
        }
    }
}
