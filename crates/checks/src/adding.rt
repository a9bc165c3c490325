// Declarations: which are taken, what is kept of them, and their elements.
use crate::calls::Call::*;
use crate::calls::Many::*;
use crate::calls::Question::*;
use crate::calls::Said::*;
use crate::calls::*;
use crate::player::*;
use elements::BtfElement::{Entry, Member};
use elements::{BtfEnum, BtfEnum64, BtfMember, BtfParam, DataSecEntry, Element, ElementType};
use layout::BtfKind::*;
use layout::{BtfKind, BtfType};
use std::process::Abort;
use std::test::Fail;
use table::{Btf, TypeRow};

const FULL_STRUCT: BtfType = BtfType {
    name_offset: 0,
    info: 0x0400ffff,
    size_or_type: 9,
    extra: [0, 0, 0],
};

// Where two faults are present, the kind comes before the flag, that before the linkage, all before the count.
const FAULTS: &[Step] = &[
    (AddRaw(0, false, 0), No(2, None, None, Some(0))),
    (AddRaw(20, false, 0), No(2, None, None, Some(20))),
    (
        AddRaw(u32::MAX, false, 0),
        No(2, None, None, Some(4294967295)),
    ),
    (AddRaw(20, true, 4), No(2, None, None, Some(20))),
    (AddMany(Entries(Int, true, 1)), No(2, None, None, Some(1))),
    (
        AddMany(Entries(Int, false, 65536)),
        No(2, None, None, Some(1)),
    ),
    (AddRaw(1, true, 0), No(3, None, None, Some(1))),
    (AddRaw(12, true, 4), No(3, None, None, Some(1))),
    (AddRaw(12, false, 4), No(3, None, None, Some(4))),
    (
        AddRaw(14, false, u32::MAX),
        No(3, None, None, Some(4294967295)),
    ),
    (
        AddMany(Entries(DataSec, true, 65536)),
        No(3, None, None, Some(1)),
    ),
    (
        AddMany(Entries(DataSec, false, 65536)),
        No(4, None, None, Some(65536)),
    ),
    (AddMany(Structs(1, 65536)), No(4, None, None, Some(65536))),
    (AddMany(Structs(1, 65535)), Number(1)),
    (Ask(TypeById(1)), Head(FULL_STRUCT)),
    (AddRaw(12, false, 3), Number(2)),
];

// Over room for two declarations more and two elements.
const FULL: &[Step] = &[
    (AddMany(Structs(1, 3)), No(16, None, None, Some(1))),
    (AddMany(Structs(1, 2)), Number(1)),
    (AddMany(Structs(1, 1)), No(16, None, None, Some(1))),
    (AddMany(Structs(1, 0)), Number(2)),
    (AddMany(Structs(1, 0)), No(16, None, None, Some(0))),
    (AddMany(Structs(1, 1)), No(16, None, None, Some(0))),
    (AddMany(Structs(1, 65536)), No(4, None, None, Some(65536))),
    (AddRaw(14, false, 4), No(3, None, None, Some(4))),
    (AddRaw(20, false, 0), No(2, None, None, Some(20))),
];

// A Func's low bits are its linkage, and no count of elements.
const ELEMENTS: &[Step] = &[
    (AddMany(Structs(1, 2)), Number(1)),
    (Add(Int, 0, 4), Number(2)),
    (AddRaw(12, false, 1), Number(3)),
    (AddMany(Entries(DataSec, false, 1)), Number(4)),
    (Ask(ElementAt(1, 1)), Element(Member(MEMBER))),
    (Ask(ElementAt(1, 2)), No(18, Some(1), Some(2), None)),
    (
        Ask(ElementAt(1, u32::MAX)),
        No(18, Some(1), Some(u32::MAX), None),
    ),
    (Ask(ElementAt(2, 0)), No(18, Some(2), Some(0), None)),
    (Ask(ElementAt(3, 0)), No(18, Some(3), Some(0), None)),
    (Ask(ElementAt(0, 0)), No(18, Some(0), Some(0), None)),
    (Ask(ElementAt(4, 0)), Element(Entry(ENTRY))),
    (Ask(ElementAt(4, 1)), No(18, Some(4), Some(1), None)),
    (Ask(ElementAt(5, 0)), No(7, None, None, Some(5))),
    (Ask(TypeById(5)), No(7, None, None, Some(5))),
    (Ask(TypeById(u32::MAX)), No(7, None, None, Some(4294967295))),
];

#[test]
fn declarations_are_taken_or_refused(rt: HostRuntime) -> Result<(), Fail> {
    play(&rt, Rooms(8, 65535, 1), 0xee, FAULTS)?;
    play(&rt, Rooms(3, 2, 1), 0xee, FULL)?;
    play(&rt, ROOMY, 0xee, ELEMENTS)
}

// In the order of their numbers, from 1 on.
const KINDS: [BtfKind; 19] = [
    Int, Ptr, Array, Struct, Union, Enum, Fwd, Typedef, Volatile, Const, Restrict, Func, FuncProto,
    Var, DataSec, Float, DeclTag, TypeTag, Enum64,
];

// By kind, from Int on: what is kept where every word is given.
const HEADS: [[u32; 6]; 19] = [
    [0, 0x01000000, 9, 5, 0, 0],
    [0, 0x02000000, 9, 0, 0, 0],
    [0, 0x03000000, 0, 5, 6, 7],
    [0, 0x04000000, 9, 0, 0, 0],
    [0, 0x05000000, 9, 0, 0, 0],
    [0, 0x06000000, 9, 0, 0, 0],
    [0, 0x07000000, 0, 0, 0, 0],
    [0, 0x08000000, 9, 0, 0, 0],
    [0, 0x09000000, 9, 0, 0, 0],
    [0, 0x0a000000, 9, 0, 0, 0],
    [0, 0x0b000000, 9, 0, 0, 0],
    [0, 0x0c000003, 9, 0, 0, 0],
    [0, 0x0d000000, 9, 0, 0, 0],
    [0, 0x0e000000, 9, 3, 0, 0],
    [0, 0x0f000000, 9, 0, 0, 0],
    [0, 0x10000000, 9, 0, 0, 0],
    [0, 0x11000000, 9, 5, 0, 0],
    [0, 0x12000000, 9, 0, 0, 0],
    [0, 0x13000000, 9, 0, 0, 0],
];

#[test]
fn heads_keep_what_their_kind_has(rt: HostRuntime) {
    let mut types = [TypeRow::empty(); 20];
    let mut strings = [0];
    let mut table = Btf::new(&mut types, &mut [], &mut strings);
    let mut player = Player::new(&rt, &mut table, &mut strings);
    for (head, kind) in HEADS.iter().zip(KINDS) {
        let [name_offset, info, size_or_type, a, b, c] = *head;
        let head = BtfType {
            name_offset,
            info,
            size_or_type,
            extra: [a, b, c],
        };
        assert_eq!(rt;
            player.add(&raw(kind.into(), false, 3), NO_MEMBERS),
            Number(u64::from(u32::from(kind)))
        );
        assert_eq!(rt; player.ask(&TypeById(kind.into())), Head(head));
    }
}

// The kinds that take a flag.
const FLAGGED: &[BtfKind] = &[Struct, Union, Enum, Fwd, Enum64];

// The kinds without a linkage, at which one is passed over.
const UNLINKED: &[BtfKind] = &[
    Int, Ptr, Array, Struct, Union, Enum, Fwd, Typedef, Volatile, Const, Restrict, FuncProto,
    DataSec, Float, DeclTag, TypeTag, Enum64,
];

// At the kinds that are not in the list the refusal has a number and a value, where none is given the kind.
fn by_kind<R: Abort + AllocGlobal + Drop, E: ElementType>(
    player: &mut Player<R>,
    (flag, linkage): (bool, u32),
    tail: &[E],
    taken: &[BtfKind],
    (code, value): (u8, Option<u64>),
) {
    let rt = player.rt;
    for kind in KINDS {
        let said = player.add(&raw(kind.into(), flag, linkage), tail);
        if taken.contains(&kind) {
            assert!(rt; matches!(said, Number(_)));
        } else {
            let value = value.unwrap_or(u64::from(u32::from(kind)));
            assert_eq!(rt; said, No(code, None, None, Some(value)));
        }
    }
}

// Elements of each type, a flag and a linkage that is none, tried on every kind.
#[test]
fn kinds_take_what_they_have(rt: HostRuntime) {
    let mut types = [TypeRow::empty(); 40];
    let mut elements = [Element::empty(); 8];
    let mut strings = [0];
    let mut table = Btf::new(&mut types, &mut elements, &mut strings);
    let player = &mut Player::new(&rt, &mut table, &mut strings);
    let value = BtfEnum {
        name_offset: 0,
        value: 1,
    };
    let param = BtfParam {
        name_offset: 0,
        btf_type: 1,
    };
    let value64 = BtfEnum64::new(0, 1);
    let member = BtfMember {
        name_offset: 0,
        btf_type: 1,
        offset: 0,
    };
    let entry = DataSecEntry {
        btf_type: 1,
        offset: 0,
        size: 4,
    };
    by_kind(player, (false, 0), &[value], &[Enum], (2, None));
    by_kind(player, (false, 0), &[param], &[FuncProto], (2, None));
    by_kind(player, (false, 0), &[value64], &[Enum64], (2, None));
    by_kind(player, (false, 0), &[member], &[Struct, Union], (2, None));
    by_kind(player, (false, 0), &[entry], &[DataSec], (2, None));
    by_kind(player, (true, 0), NO_MEMBERS, FLAGGED, (3, Some(1)));
    by_kind(player, (false, 4), NO_MEMBERS, UNLINKED, (3, Some(4)));
}
