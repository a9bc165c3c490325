// Areas longer than a table uses: 1,048,575 declarations, 2,097,152 elements and 16,777,215 string bytes.
use crate::calls::Call::*;
use crate::calls::Many::*;
use crate::calls::Question::*;
use crate::calls::Said::*;
use crate::calls::*;
use crate::player::*;
use elements::BtfElement::*;
use layout::BtfKind::*;
use std::test::Fail;

// Id 0 counts. Each Const has 12 bytes.
const DECLARATIONS: &[Step] = &[
    (AddMany(Consts(1048574)), Number(1048574)),
    (Add(Const, 0, 0), No(16, None, None, Some(0))),
    (
        Ask(Resolve(1048574)),
        No(7, Some(1048574), None, Some(1048575)),
    ),
    (Ask(TypeById(1048575)), No(7, None, None, Some(1048575))),
    (Encode(0), No(17, None, None, Some(12582913))),
    (AddString(b"int"), Number(1)),
];

// 32 × 65,535 + 32 elements of 12 bytes, and 34 heads of 12 bytes.
const ELEMENTS: &[Step] = &[
    (AddMany(Structs(32, 65535)), Number(32)),
    (AddMany(Structs(1, 33)), No(16, None, None, Some(1))),
    (AddMany(Structs(1, 32)), Number(33)),
    (AddMany(Structs(1, 1)), No(16, None, None, Some(1))),
    (AddMany(Structs(1, 0)), Number(34)),
    (Ask(ElementAt(32, 65534)), Element(Member(MEMBER))),
    (
        Ask(ElementAt(32, 65535)),
        No(18, Some(32), Some(65535), None),
    ),
    (Ask(ElementAt(33, 31)), Element(Member(MEMBER))),
    (Encode(0), No(17, None, None, Some(25166257))),
];

// A zero byte before the name and one behind it.
const STRINGS: &[Step] = &[
    (AddMany(Letters(16777214)), No(16, None, None, Some(2))),
    (AddMany(Letters(16777213)), Number(1)),
    (AddString(b""), No(16, None, None, Some(2))),
    (Ask(StringAt(16777213)), Text(*b"a.......")),
    (Ask(StringAt(16777214)), Text(*b"........")),
    (Ask(StringAt(16777215)), No(6, None, None, Some(16777215))),
    (Encode(0), No(17, None, None, Some(16777239))),
    (Add(Typedef, 16777212, 0), Number(1)),
    (Ask(TypeName(1)), Text(*b"aa......")),
];

#[test]
fn areas_are_used_up_to_their_limits(rt: HostRuntime) -> Result<(), Fail> {
    play(&rt, Rooms(1048580, 0, 8), 0xee, DECLARATIONS)?;
    play(&rt, Rooms(40, 2097160, 1), 0xee, ELEMENTS)?;
    play(&rt, Rooms(2, 0, 16777220), 0, STRINGS)
}
