// Names: adding them, reading them at offsets, and finding them.
use crate::calls::Call::*;
use crate::calls::Question::*;
use crate::calls::Said::*;
use crate::calls::*;
use crate::player::*;
use layout::BtfKind::*;
use std::test::Fail;
use table::{Btf, TypeRow};

// Over an area of zero bytes, which are no names before they are added.
const OFFSETS: &[Step] = &[
    (Ask(StringAt(0)), Text(*b"........")),
    (Ask(StringAt(1)), No(6, None, None, Some(1))),
    (AddString(b"int"), Number(1)),
    (Ask(StringAt(0)), Text(*b"........")),
    (Ask(StringAt(1)), Text(*b"int.....")),
    (Ask(StringAt(3)), Text(*b"t.......")),
    (Ask(StringAt(4)), Text(*b"........")),
    (Ask(StringAt(5)), No(6, None, None, Some(5))),
    (Ask(StringAt(6)), No(6, None, None, Some(6))),
    (Ask(StringAt(u32::MAX)), No(6, None, None, Some(4294967295))),
    (AddString(b""), Number(5)),
    (Ask(StringAt(5)), Text(*b"........")),
    (Ask(StringAt(6)), No(6, None, None, Some(6))),
    (AddString(b"int"), Number(6)),
    (Ask(StringAt(7)), Text(*b"nt......")),
];

const ZERO_BYTES: &[Step] = &[
    (AddString(b"\0"), No(5, None, None, Some(0))),
    (AddString(b"a\0b"), No(5, None, None, Some(1))),
    (AddString(b"ab\0"), No(5, None, None, Some(2))),
    (AddString(b"a\0\0"), No(5, None, None, Some(1))),
    (AddString(b"\xff\x01"), Number(1)),
    (AddString(b"a\0"), No(5, None, None, Some(1))),
    (Ask(StringAt(1)), Text(*b"\xff\x01......")),
];

// Over six bytes. A zero byte in a name counts before the want of room.
const FULL: &[Step] = &[
    (AddString(b"short"), No(16, None, None, Some(2))),
    (AddString(b"shor\0"), No(5, None, None, Some(4))),
    (AddString(b"int"), Number(1)),
    (AddString(b"x"), No(16, None, None, Some(2))),
    (AddString(b""), Number(5)),
    (AddString(b""), No(16, None, None, Some(2))),
    (AddString(b"\0"), No(5, None, None, Some(0))),
    (Ask(StringAt(5)), Text(*b"........")),
];

// Over five bytes, which the name fills.
const FILLED: &[Step] = &[
    (AddString(b"long"), No(16, None, None, Some(2))),
    (AddString(b"int"), Number(1)),
    (Ask(StringAt(1)), Text(*b"int.....")),
];

#[test]
fn names_are_added(rt: HostRuntime) -> Result<(), Fail> {
    play(&rt, ROOMY, 0, OFFSETS)?;
    play(&rt, ROOMY, 0xee, ZERO_BYTES)?;
    play(&rt, Rooms(2, 0, 6), 0xee, FULL)?;
    play(&rt, Rooms(2, 0, 5), 0, FILLED)
}

#[test]
fn only_the_name_is_written(rt: HostRuntime) {
    let mut types = [TypeRow::empty(); 2];
    let mut strings = [0xee; 8];
    let mut table = Btf::new(&mut types, &mut [], &mut strings);
    assert_eq!(rt; strings, *b"\0\xee\xee\xee\xee\xee\xee\xee");
    assert_eq!(rt;
        Said::from(table.add_string(&mut strings, b"int")),
        Number(1)
    );
    assert_eq!(rt; strings, *b"\0int\0\xee\xee\xee");
}

// Offsets are given before the names that stand there.
const NAMED: &[Step] = &[
    (Add(Ptr, 5, 0), Number(1)),
    (Add(Typedef, 2, 1), Number(2)),
    (Ask(TypeName(0)), Text(*b"........")),
    (Ask(TypeName(1)), No(6, Some(1), None, Some(5))),
    (AddString(b"int"), Number(1)),
    (Ask(TypeName(1)), No(6, Some(1), None, Some(5))),
    (Ask(TypeName(2)), Text(*b"nt......")),
    (AddString(b"p"), Number(5)),
    (Ask(TypeName(1)), Text(*b"p.......")),
    (Ask(TypeName(3)), No(7, None, None, Some(3))),
    (Ask(TypeName(u32::MAX)), No(7, None, None, Some(4294967295))),
];

// Two Ints of one name, a Ptr whose name is none, and such a Typedef between two others.
const FOUND: &[Step] = &[
    (AddString(b"int"), Number(1)),
    (Add(Typedef, 1, 0), Number(1)),
    (Add(Ptr, u32::MAX, 0), Number(2)),
    (Add(Int, 1, 4), Number(3)),
    (Add(Int, 1, 8), Number(4)),
    (Add(Int, 2, 8), Number(5)),
    (Add(Typedef, 5, 0), Number(6)),
    (Add(Typedef, 2, 0), Number(7)),
    (Add(Const, 0, 0), Number(8)),
    (Ask(Find(b"", Unknown)), Number(0)),
    (Ask(Find(b"int", Unknown)), No(11, None, None, None)),
    (Ask(Find(b"int", Int)), Number(3)),
    (Ask(Find(b"nt", Int)), Number(5)),
    (Ask(Find(b"in", Int)), No(11, None, None, None)),
    (Ask(Find(b"inx", Int)), No(11, None, None, None)),
    (Ask(Find(b"int\0", Int)), No(11, None, None, None)),
    (Ask(Find(b"", Int)), No(11, None, None, None)),
    (Ask(Find(b"int", Struct)), No(11, None, None, None)),
    (Ask(Find(b"", Const)), Number(8)),
    (Ask(Find(b"int", Typedef)), Number(1)),
    (Ask(Find(b"nt", Typedef)), No(6, Some(6), None, Some(5))),
    (Ask(Find(b"x", Typedef)), No(6, Some(6), None, Some(5))),
    (Ask(Find(b"", Ptr)), No(6, Some(2), None, Some(4294967295))),
    (AddString(b"x"), Number(5)),
    (Ask(Find(b"nt", Typedef)), Number(7)),
    (Ask(Find(b"x", Typedef)), Number(6)),
];

#[test]
fn declarations_have_names(rt: HostRuntime) -> Result<(), Fail> {
    play(&rt, ROOMY, 0, NAMED)?;
    play(&rt, ROOMY, 0, FOUND)
}
