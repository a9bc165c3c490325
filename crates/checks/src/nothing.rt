// Tables that hold nothing, and string areas that lack a part of the strings.
use crate::calls::Call::*;
use crate::calls::Many::*;
use crate::calls::Question::*;
use crate::calls::Said::*;
use crate::calls::*;
use crate::player::*;
use elements::Element;
use layout::BtfKind::*;
use layout::BtfType;
use layout::PointerWidth::*;
use std::process::Abort;
use std::test::Fail;
use table::{Btf, TypeRow};

const NO_TABLE: Said = No(1, None, None, None);

// Refusal 1 comes before every other.
const NOTHING: &[Step] = &[
    (AddString(b"int"), NO_TABLE),
    (AddString(b""), NO_TABLE),
    (AddString(b"\0"), NO_TABLE),
    (Add(Int, 1, 4), NO_TABLE),
    (AddRaw(20, true, 4), NO_TABLE),
    (AddMany(Structs(1, 1)), NO_TABLE),
    (AddMany(Entries(DataSec, true, 65536)), NO_TABLE),
    (Ask(StringAt(0)), NO_TABLE),
    (Ask(StringAt(u32::MAX)), NO_TABLE),
    (Ask(TypeById(0)), NO_TABLE),
    (Ask(TypeById(u32::MAX)), NO_TABLE),
    (Ask(ElementAt(0, 0)), NO_TABLE),
    (Ask(TypeName(0)), NO_TABLE),
    (Ask(Find(b"", Unknown)), NO_TABLE),
    (Ask(Find(b"int", Int)), NO_TABLE),
    (Ask(Resolve(0)), NO_TABLE),
    (Ask(Size(0, Eight)), NO_TABLE),
    (Encode(0), NO_TABLE),
    (Encode(99), NO_TABLE),
];

const VOID: BtfType = BtfType {
    name_offset: 0,
    info: 0,
    size_or_type: 0,
    extra: [0, 0, 0],
};

// Areas for id 0 and one zero byte are enough.
const LEAST: &[Step] = &[
    (Ask(TypeById(0)), Head(VOID)),
    (Ask(StringAt(0)), Text(*b"........")),
    (Add(Int, 0, 4), No(16, None, None, Some(0))),
    (AddString(b""), No(16, None, None, Some(2))),
    (Encode(24), No(17, None, None, Some(25))),
    (Encode(25), Number(25)),
];

#[test]
fn a_table_needs_two_areas(rt: HostRuntime) -> Result<(), Fail> {
    play(&rt, Rooms(0, 8, 8), 0xee, NOTHING)?;
    play(&rt, Rooms(8, 8, 0), 0xee, NOTHING)?;
    play(&rt, Rooms(1, 0, 1), 0xee, LEAST)
}

const BEGUN: &[Step] = &[(AddString(b"int"), Number(1)), (Add(Int, 1, 4), Number(1))];

const JUST_LONG_ENOUGH: &[Step] = &[
    (Ask(TypeName(1)), Text(*b"int.....")),
    (AddString(b""), No(16, None, None, Some(2))),
    (Add(Ptr, 0, 1), Number(2)),
];

const LONGER: &[Step] = &[
    (AddString(b""), Number(5)),
    (Ask(TypeName(1)), Text(*b"int.....")),
];

// With the first bytes of a string area alone.
fn play_within<R: Abort + AllocGlobal + Drop>(
    rt: &R,
    table: &mut Btf,
    strings: &mut [u8],
    room: usize,
    steps: &[Step],
) -> Result<(), Fail> {
    let room = room.min(strings.len());
    Player::new(rt, table, &mut strings[..room]).play(steps)
}

// The strings have five bytes.
#[test]
fn a_table_needs_all_its_strings(rt: HostRuntime) -> Result<(), Fail> {
    let mut types = [TypeRow::empty(); 4];
    let mut elements = [Element::empty(); 4];
    let mut strings = [0xee; 8];
    let mut table = Btf::new(&mut types, &mut elements, &mut strings);
    play_within(&rt, &mut table, &mut strings, 8, BEGUN)?;
    play_within(&rt, &mut table, &mut strings, 4, NOTHING)?;
    play_within(&rt, &mut table, &mut strings, 0, NOTHING)?;
    play_within(&rt, &mut table, &mut strings, 5, JUST_LONG_ENOUGH)?;
    play_within(&rt, &mut table, &mut strings, 8, LONGER)
}
