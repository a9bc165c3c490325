// The declarations of a line meter: its numbers, its counters and what is made of them, its verdicts, its map
// section and its function. Between them they are of every kind.
use crate::fault::Fault;
use crate::recorder::Recorder;
use declare::{
    Array, Const, DataSec, DeclTag, Enum, Enum64, Float, Func, FuncProto, Fwd, Int, Ptr, Restrict,
    Struct, TypeTag, Typedef, Union, Var, Volatile,
};
use elements::DataSecEntry;
use layout::Linkage;

// How many lines a meter counts.
const LINES: u32 = 16;

// The number of an array map among the kernel's kinds of maps.
const ARRAY_MAP: u32 = 2;

// Tags the whole of what a DeclTag names.
const WHOLE: i32 = -1;

// The name of what has none.
const UNNAMED: u32 = 0;

#[derive(Clone, Copy)]
pub struct Numbers {
    pub word: u32,
    pub long: u32,
    pub letter: u32,
    pub int: u32,
}

impl Numbers {
    fn declare(recorder: &mut Recorder) -> Result<Numbers, Fault> {
        let word = recorder.declare_named("u32", |name| Int::new(name, 4, 0, 0))?;
        let long = recorder.declare_named("u64", |name| Int::new(name, 8, 0, 0))?;
        let letter = recorder.declare_named("char", |name| Int::new(name, 1, Int::CHAR, 0))?;
        let int = recorder.declare_named("int", |name| Int::new(name, 4, Int::SIGNED, 0))?;
        Ok(Numbers {
            word,
            long,
            letter,
            int,
        })
    }

    // What a line counts.
    fn declare_struct(&self, recorder: &mut Recorder) -> Result<u32, Fault> {
        let name = recorder.name("counters")?;
        let members = [
            recorder.member("packets", self.long, 0)?,
            recorder.member("bytes", self.long, 64)?,
            recorder.member("errors", self.long, 128)?,
        ];
        recorder.declare(&Struct::new(name, false, 24), &members)
    }

    // The key of a line: its number or its port, or both at once.
    fn declare_key(&self, recorder: &mut Recorder) -> Result<u32, Fault> {
        let name = recorder.name("line_key")?;
        let members = [
            recorder.member("whole", self.long, 0)?,
            recorder.member("line", self.word, 0)?,
            recorder.member("port", self.letter, 0)?,
        ];
        recorder.declare(&Union::new(name, false, 8), &members)
    }

    // A number as a map's declaration states it: a pointer to an array of so many ints.
    fn state(&self, recorder: &mut Recorder, number: u32) -> Result<u32, Fault> {
        let array = Array::new(UNNAMED, self.int, self.word, number);
        let array = recorder.declare_alone(&array)?;
        recorder.declare_alone(&Ptr::new(UNNAMED, array))
    }
}

#[derive(Clone, Copy)]
pub struct Counters {
    pub counters: u32,
    pub pointer: u32,
    pub lines: u32,
    pub constant: u32,
    pub volatile: u32,
    pub restrict: u32,
}

impl Counters {
    fn declare(recorder: &mut Recorder, numbers: &Numbers) -> Result<Counters, Fault> {
        let counters = numbers.declare_struct(recorder)?;
        let pointer = recorder.declare_alone(&Ptr::new(UNNAMED, counters))?;
        let array = Array::new(UNNAMED, counters, numbers.word, LINES);
        let lines = recorder.declare_alone(&array)?;
        let alias = recorder.declare_named("counters_t", |name| Typedef::new(name, counters))?;
        let constant = recorder.declare_alone(&Const::new(alias))?;
        let volatile = recorder.declare_alone(&Volatile::new(numbers.long))?;
        let restrict = recorder.declare_alone(&Restrict::new(pointer))?;
        Ok(Counters {
            counters,
            pointer,
            lines,
            constant,
            volatile,
            restrict,
        })
    }
}

// The verdicts on a packet, of which one is negative, and the marks of a line, of which one is past 32 bits.
#[derive(Clone, Copy)]
pub struct Choices {
    pub verdict: u32,
    pub marks: u32,
}

impl Choices {
    fn declare(recorder: &mut Recorder) -> Result<Choices, Fault> {
        let verdict = Choices::declare_verdict(recorder)?;
        let marks = Choices::declare_marks(recorder)?;
        Ok(Choices { verdict, marks })
    }

    fn declare_verdict(recorder: &mut Recorder) -> Result<u32, Fault> {
        let name = recorder.name("verdict")?;
        let verdicts = [
            recorder.variant("VERDICT_DROP", u32::MAX)?,
            recorder.variant("VERDICT_PASS", 0)?,
            recorder.variant("VERDICT_COUNT", 1)?,
        ];
        recorder.declare(&Enum::new(name, true), &verdicts)
    }

    fn declare_marks(recorder: &mut Recorder) -> Result<u32, Fault> {
        let name = recorder.name("line_marks")?;
        let marks = [
            recorder.variant64("LINE_UP", 1)?,
            recorder.variant64("LINE_BILLED", 1 << 40)?,
        ];
        recorder.declare(&Enum64::new(name, false), &marks)
    }
}

// The packet, which the kernel alone knows, and the key of a line.
#[derive(Clone, Copy)]
pub struct Packets {
    pub buffer: u32,
    pub pointer: u32,
    pub key: u32,
}

impl Packets {
    fn declare(recorder: &mut Recorder, numbers: &Numbers) -> Result<Packets, Fault> {
        let buffer = recorder.declare_named("__sk_buff", |name| Fwd::new(name, false))?;
        let pointer = recorder.declare_alone(&Ptr::new(UNNAMED, buffer))?;
        let key = numbers.declare_key(recorder)?;
        Ok(Packets {
            buffer,
            pointer,
            key,
        })
    }
}

#[derive(Clone, Copy)]
pub struct Maps {
    pub var: u32,
    pub section: u32,
}

impl Maps {
    fn declare(
        recorder: &mut Recorder,
        numbers: &Numbers,
        counters: &Counters,
    ) -> Result<Maps, Fault> {
        let map = Maps::declare_map(recorder, numbers, counters)?;
        let var = recorder.declare_named("lines", |name| Var::new(name, map, Linkage::Global))?;
        let name = recorder.name(".maps")?;
        let entry = DataSecEntry {
            btf_type: var,
            offset: 0,
            size: 32,
        };
        let section = recorder.declare(&DataSec::new(name, 32), &[entry])?;
        Ok(Maps { var, section })
    }

    // The map of the lines, which states what it is by the types of its members.
    fn declare_map(
        recorder: &mut Recorder,
        numbers: &Numbers,
        counters: &Counters,
    ) -> Result<u32, Fault> {
        let kind = numbers.state(recorder, ARRAY_MAP)?;
        let most = numbers.state(recorder, LINES)?;
        let word = recorder.declare_alone(&Ptr::new(UNNAMED, numbers.word))?;
        let members = [
            recorder.member("type", kind, 0)?,
            recorder.member("max_entries", most, 64)?,
            recorder.member("key", word, 128)?,
            recorder.member("value", counters.pointer, 192)?,
        ];
        recorder.declare(&Struct::new(UNNAMED, false, 32), &members)
    }
}

// The ids of what a meter declares.
#[derive(Clone, Copy)]
pub struct Meter {
    pub numbers: Numbers,
    pub counters: Counters,
    pub choices: Choices,
    pub packets: Packets,
    pub maps: Maps,
    pub func: u32,
}

// The rate of a line, and a pointer to its counters that is tagged.
fn declare_rate(recorder: &mut Recorder, counters: &Counters) -> Result<(), Fault> {
    recorder.declare_named("double", |name| Float::new(name, 8))?;
    let tagged = recorder.declare_named("percpu", |name| TypeTag::new(name, counters.counters))?;
    recorder.declare_alone(&Ptr::new(UNNAMED, tagged))?;
    Ok(())
}

// The function that counts a packet, tagged as billed.
fn declare_func(
    recorder: &mut Recorder,
    numbers: &Numbers,
    packets: &Packets,
) -> Result<u32, Fault> {
    let params = [
        recorder.param("packet", packets.pointer)?,
        recorder.param("number", numbers.word)?,
    ];
    let proto = recorder.declare(&FuncProto::new(numbers.int), &params)?;
    let counting = |name| Func::new(name, proto, Linkage::Global);
    let func = recorder.declare_named("count_packet", counting)?;
    recorder.declare_named("billed", |name| DeclTag::new(name, func, WHOLE))?;
    Ok(func)
}

impl Meter {
    pub fn declare(recorder: &mut Recorder) -> Result<Meter, Fault> {
        let numbers = Numbers::declare(recorder)?;
        let counters = Counters::declare(recorder, &numbers)?;
        let choices = Choices::declare(recorder)?;
        let packets = Packets::declare(recorder, &numbers)?;
        declare_rate(recorder, &counters)?;
        let maps = Maps::declare(recorder, &numbers, &counters)?;
        let func = declare_func(recorder, &numbers, &packets)?;
        Ok(Meter {
            numbers,
            counters,
            choices,
            packets,
            maps,
            func,
        })
    }
}
