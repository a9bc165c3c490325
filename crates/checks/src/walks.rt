// The two walks: to the end of an id, and to its size.
use crate::calls::Call::*;
use crate::calls::Many::*;
use crate::calls::Question::*;
use crate::calls::Said::*;
use crate::calls::*;
use crate::player::*;
use layout::BtfKind::*;
use layout::PointerWidth::*;
use std::test::Fail;

// Ids are named before they exist.
const RESOLVED: &[Step] = &[
    (Add(Const, 0, 2), Number(1)),
    (Ask(Resolve(0)), Pair(0, 0)),
    (Ask(Resolve(1)), No(7, Some(1), None, Some(2))),
    (Add(Volatile, 0, 3), Number(2)),
    (Add(Restrict, 0, 4), Number(3)),
    (Ask(Resolve(1)), No(7, Some(3), None, Some(4))),
    (Add(TypeTag, 0, 5), Number(4)),
    (Add(Typedef, 0, 6), Number(5)),
    (Add(Ptr, 0, 1), Number(6)),
    (Ask(Resolve(1)), Pair(6, 5)),
    (Ask(Resolve(6)), Pair(6, 0)),
    (Add(Var, 0, 1), Number(7)),
    (Ask(Resolve(7)), Pair(7, 0)),
    (Add(DeclTag, 0, 1), Number(8)),
    (Ask(Resolve(8)), Pair(8, 0)),
    (Ask(Resolve(9)), No(7, None, None, Some(9))),
    (Ask(Resolve(u32::MAX)), No(7, None, None, Some(4294967295))),
];

// A walk reads 32 declarations.
const LONG: &[Step] = &[
    (AddMany(Consts(32)), Number(32)),
    (Ask(Resolve(1)), No(10, Some(1), None, None)),
    (Ask(Resolve(2)), No(7, Some(32), None, Some(33))),
    (Ask(Size(1, Four)), No(10, Some(1), None, None)),
    (Ask(Size(2, Four)), No(7, Some(32), None, Some(33))),
    (Add(Float, 0, 8), Number(33)),
    (Ask(Resolve(1)), No(10, Some(1), None, None)),
    (Ask(Size(1, Four)), No(10, Some(1), None, None)),
    (Ask(Resolve(2)), Pair(33, 31)),
    (Ask(Size(2, Four)), Pair(8, 31)),
    (Add(Typedef, 0, 34), Number(34)),
    (Ask(Resolve(34)), No(10, Some(34), None, None)),
    (Ask(Size(34, Eight)), No(10, Some(34), None, None)),
    (Add(Const, 0, 34), Number(35)),
    (Ask(Resolve(35)), No(10, Some(35), None, None)),
];

#[test]
fn links_are_followed(rt: HostRuntime) -> Result<(), Fail> {
    play(&rt, ROOMY, 0xee, RESOLVED)?;
    play(&rt, ROOMY, 0xee, LONG)
}

const SIZES: &[Step] = &[
    (Add(Ptr, 0, 99), Number(1)),
    (Add(Int, 0, 2), Number(2)),
    (Add(Struct, 0, 12), Number(3)),
    (Add(Union, 0, 24), Number(4)),
    (Add(Enum, 0, 4), Number(5)),
    (Add(Enum64, 0, 8), Number(6)),
    (Add(DataSec, 0, 40), Number(7)),
    (Add(Float, 0, 16), Number(8)),
    (Add(Var, 0, 4), Number(9)),
    (Add(DeclTag, 0, 9), Number(10)),
    (AddArray(1, 3), Number(11)),
    (AddArray(11, 5), Number(12)),
    (Ask(Size(1, Four)), Pair(4, 0)),
    (Ask(Size(1, Eight)), Pair(8, 0)),
    (Ask(Size(2, Eight)), Pair(2, 0)),
    (Ask(Size(3, Eight)), Pair(12, 0)),
    (Ask(Size(4, Eight)), Pair(24, 0)),
    (Ask(Size(5, Eight)), Pair(4, 0)),
    (Ask(Size(6, Eight)), Pair(8, 0)),
    (Ask(Size(7, Eight)), Pair(40, 0)),
    (Ask(Size(8, Eight)), Pair(16, 0)),
    (Ask(Size(9, Eight)), Pair(24, 1)),
    (Ask(Size(10, Eight)), Pair(24, 2)),
    (Ask(Size(11, Four)), Pair(12, 1)),
    (Ask(Size(12, Eight)), Pair(120, 2)),
];

const SIZELESS: &[Step] = &[
    (Add(Fwd, 0, 0), Number(1)),
    (Add(FuncProto, 0, 8), Number(2)),
    (Add(Func, 0, 8), Number(3)),
    (Add(Typedef, 0, 1), Number(4)),
    (Add(Const, 0, 0), Number(5)),
    (AddArray(9, 7), Number(6)),
    (AddArray(3, 7), Number(7)),
    (Add(Int, 0, 4), Number(8)),
    (Ask(Size(0, Four)), No(8, Some(0), None, None)),
    (Ask(Size(1, Four)), No(8, Some(1), None, None)),
    (Ask(Size(2, Four)), No(8, Some(2), None, None)),
    (Ask(Size(3, Eight)), No(8, Some(3), None, None)),
    (Ask(Size(4, Eight)), No(8, Some(1), None, None)),
    (Ask(Size(5, Eight)), No(8, Some(0), None, None)),
    (Ask(Size(6, Eight)), No(7, Some(6), None, Some(9))),
    (Ask(Size(7, Eight)), No(8, Some(3), None, None)),
    (Ask(Size(9, Eight)), No(7, None, None, Some(9))),
    (Ask(Resolve(5)), Pair(0, 1)),
];

// Counts and sizes go up to 4,294,967,295, which is 65,537 × 65,535.
const PRODUCTS: &[Step] = &[
    (Add(Int, 0, 1), Number(1)),
    (AddArray(1, 65536), Number(2)),
    (AddArray(2, 65536), Number(3)),
    (Ask(Size(2, Four)), Pair(65536, 1)),
    (Ask(Size(3, Four)), No(9, Some(2), None, Some(4294967296))),
    (AddArray(1, 65535), Number(4)),
    (AddArray(4, 65537), Number(5)),
    (Ask(Size(5, Four)), Pair(4294967295, 2)),
    (Add(Struct, 0, u32::MAX), Number(6)),
    (AddArray(6, 2), Number(7)),
    (Ask(Size(6, Four)), Pair(4294967295, 0)),
    (Ask(Size(7, Four)), No(9, Some(6), None, Some(8589934590))),
    (Add(Ptr, 0, 0), Number(8)),
    (AddArray(8, 536870912), Number(9)),
    (Ask(Size(9, Four)), Pair(2147483648, 1)),
    (Ask(Size(9, Eight)), No(9, Some(8), None, Some(4294967296))),
    (AddArray(7, 0), Number(10)),
    (Ask(Size(10, Eight)), Pair(0, 2)),
];

#[test]
fn sizes_are_found(rt: HostRuntime) -> Result<(), Fail> {
    play(&rt, ROOMY, 0xee, SIZES)?;
    play(&rt, ROOMY, 0xee, SIZELESS)?;
    play(&rt, ROOMY, 0xee, PRODUCTS)
}
