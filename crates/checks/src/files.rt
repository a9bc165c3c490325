// The bytes of tables in both byte orders.
use crate::calls::Call::*;
use crate::calls::Question::*;
use crate::calls::Said::*;
use crate::calls::*;
use crate::player::*;
use declare::*;
use elements::BtfElement::*;
use elements::{BtfEnum, BtfEnum64, BtfMember, BtfParam, DataSecEntry, ElementType};
use layout::{Declaration, Linkage};
use order::{BigEndian, ByteOrder, LittleEndian};
use std::alloc::{AllocError, Global};
use std::process::Abort;
use std::test::Fail;
use table::{Btf, TypeRow};

impl<R: Abort + AllocGlobal + Drop> Player<'_, '_, R> {
    // Into a buffer of `room` bytes 0xaa: all of the file and nothing more, or the buffer stays as it is.
    fn fits<O: ByteOrder>(&self, order: &O, file: &[u8], room: usize) -> Result<(), Fail> {
        let rt = self.rt;
        let mut out = vec![in rt.alloc(); 0xaa; room]?;
        let said = Said::from(self.table.to_bytes(self.strings, order, &mut out));
        let needed = file.len();
        let written = if room < needed {
            assert_eq!(rt; said, No(17, None, None, Some(needed as u64)));
            0
        } else {
            assert_eq!(rt; said, Number(needed as u64));
            assert!(rt; out.starts_with(file));
            needed
        };
        assert!(rt; out.iter().skip(written).all(|byte| *byte == 0xaa));
        Ok(())
    }

    fn written<O: ByteOrder>(&self, order: &O, file: &[u8]) -> Result<(), Fail> {
        let length = file.len();
        for room in [
            0,
            length.saturating_sub(1),
            length,
            length.saturating_add(3),
        ] {
            self.fits(order, file, room)?;
        }
        Ok(())
    }

    // Adds a declaration, whose id is to be the next.
    fn add_next<E: ElementType>(&mut self, declaration: &Declaration, elements: &[E], id: u64) {
        let rt = self.rt;
        assert_eq!(rt; self.add(declaration, elements), Number(id));
    }
}

const NEW_LITTLE: &[u8] = &[
    0x9f, 0xeb, 1, 0, 24, 0, 0, 0, 0, 0, 0, 0, 0, 0, 0, 0, 0, 0, 0, 0, 1, 0, 0, 0, 0,
];

const NEW_BIG: &[u8] = &[
    0xeb, 0x9f, 1, 0, 0, 0, 0, 24, 0, 0, 0, 0, 0, 0, 0, 0, 0, 0, 0, 0, 0, 0, 0, 1, 0,
];

const INT_LITTLE: &[u8] = &[
    0x9f, 0xeb, 1, 0, 24, 0, 0, 0, 0, 0, 0, 0, 16, 0, 0, 0, 16, 0, 0, 0, 5, 0, 0, 0, 1, 0, 0, 0, 0,
    0, 0, 1, 4, 0, 0, 0, 0x20, 0, 0, 1, 0, b'i', b'n', b't', 0,
];

const INT_BIG: &[u8] = &[
    0xeb, 0x9f, 1, 0, 0, 0, 0, 24, 0, 0, 0, 0, 0, 0, 0, 16, 0, 0, 0, 16, 0, 0, 0, 5, 0, 0, 0, 1, 1,
    0, 0, 0, 0, 0, 0, 4, 1, 0, 0, 0x20, 0, b'i', b'n', b't', 0,
];

const INT: &[Step] = &[(AddString(b"int"), Number(1))];

#[test]
fn small_files(rt: HostRuntime) -> Result<(), Fail> {
    let mut types = [TypeRow::empty(); 2];
    let mut strings = [0xee; 6];
    let mut table = Btf::new(&mut types, &mut [], &mut strings);
    let mut player = Player::new(&rt, &mut table, &mut strings);
    player.written(&LittleEndian, NEW_LITTLE)?;
    player.written(&BigEndian, NEW_BIG)?;
    player.play(INT)?;
    player.add_next(&Int::new(1, 4, Int::SIGNED, 0), NO_MEMBERS, 1);
    player.written(&LittleEndian, INT_LITTLE)?;
    player.written(&BigEndian, INT_BIG)
}

// The words behind the first four bytes of the file with all kinds.
const WORDS: &[u32] = &[
    24, 0, 344, 344, 7, // header
    1, 0x01000000, 4, 0x01000020, // 1: Int
    0, 0x02000000, 1, // 2: Ptr
    0, 0x03000000, 0, 2, 1, 5, // 3: Array
    5, 0x87000000, 0, // 4: Fwd
    2, 0x08000000, 1, // 5: Typedef
    0, 0x09000000, 1, // 6: Volatile
    0, 0x0a000000, 6, // 7: Const
    0, 0x0b000000, 2, // 8: Restrict
    5, 0x0c000001, 17, // 9: Func
    3, 0x0e000000, 1, 2, // 10: Var
    1, 0x10000000, 8, // 11: Float
    5, 0x11000000, 10, 0xffffffff, // 12: DeclTag
    5, 0x12000000, 2, // 13: TypeTag
    5, 0x84000002, 8, 1, 1, 0x03000000, 0, 2, 32, // 14: Struct
    0, 0x05000001, 8, 5, 2, 0, // 15: Union
    1, 0x86000002, 4, 5, 0xffffffff, 0, 7, // 16: Enum
    0, 0x0d000002, 1, 1, 2, 0, 0, // 17: FuncProto
    5, 0x0f000001, 16, 10, 4, 12, // 18: DataSec
    5, 0x13000001, 8, 1, 0x55667788, 0x11223344, // 19: Enum64
];

fn add_plain<R: Abort + AllocGlobal + Drop>(player: &mut Player<R>) {
    let made = [
        Int::new(1, 4, Int::SIGNED, 0),
        Ptr::new(0, 1),
        Array::new(0, 2, 1, 5),
        Fwd::new(5, true),
        Typedef::new(2, 1),
        Volatile::new(1),
        Const::new(6),
        Restrict::new(2),
        Func::new(5, 17, Linkage::Global),
        Var::new(3, 1, Linkage::Extern),
        Float::new(1, 8),
        DeclTag::new(5, 10, -1),
        TypeTag::new(5, 2),
    ];
    for (declaration, id) in made.iter().zip(1..14u64) {
        player.add_next(declaration, NO_MEMBERS, id);
    }
}

const FIRST_MEMBER: BtfMember = BtfMember {
    name_offset: 1,
    btf_type: 1,
    offset: 0x03000000,
};

const SECOND_MEMBER: BtfMember = BtfMember {
    name_offset: 0,
    btf_type: 2,
    offset: 32,
};

const IN_UNION: BtfMember = BtfMember {
    name_offset: 5,
    btf_type: 2,
    offset: 0,
};

const FIRST_VARIANT: BtfEnum = BtfEnum {
    name_offset: 5,
    value: u32::MAX,
};

const SECOND_VARIANT: BtfEnum = BtfEnum {
    name_offset: 0,
    value: 7,
};

const FIRST_PARAM: BtfParam = BtfParam {
    name_offset: 1,
    btf_type: 2,
};

const LAST_PARAM: BtfParam = BtfParam {
    name_offset: 0,
    btf_type: 0,
};

const IN_SECTION: DataSecEntry = DataSecEntry {
    btf_type: 10,
    offset: 4,
    size: 12,
};

const WIDE: BtfEnum64 = BtfEnum64 {
    name_offset: 1,
    value_low: 0x55667788,
    value_high: 0x11223344,
};

fn add_with_elements<R: Abort + AllocGlobal + Drop>(player: &mut Player<R>) {
    let members = [FIRST_MEMBER, SECOND_MEMBER];
    let variants = [FIRST_VARIANT, SECOND_VARIANT];
    let params = [FIRST_PARAM, LAST_PARAM];
    let wide = [BtfEnum64::new(1, 0x1122_3344_5566_7788)];
    player.add_next(&Struct::new(5, true, 8), &members, 14);
    player.add_next(&Union::new(0, false, 8), &[IN_UNION], 15);
    player.add_next(&Enum::new(1, true), &variants, 16);
    player.add_next(&FuncProto::new(1), &params, 17);
    player.add_next(&DataSec::new(5, 16), &[IN_SECTION], 18);
    player.add_next(&Enum64::new(5, false), &wide, 19);
}

const NAMES: &[Step] = &[(AddString(b"int"), Number(1)), (AddString(b"x"), Number(5))];

const READ: &[Step] = &[
    (Ask(ElementAt(14, 1)), Element(Member(SECOND_MEMBER))),
    (Ask(ElementAt(15, 0)), Element(Member(IN_UNION))),
    (Ask(ElementAt(16, 0)), Element(Variant(FIRST_VARIANT))),
    (Ask(ElementAt(17, 0)), Element(Param(FIRST_PARAM))),
    (Ask(ElementAt(18, 0)), Element(Entry(IN_SECTION))),
    (Ask(ElementAt(19, 0)), Element(Variant64(WIDE))),
    (Ask(ElementAt(19, 1)), No(18, Some(19), Some(1), None)),
];

// The file with all kinds, in the byte order that a function writes words in.
fn bytes<F: Fn(u32) -> [u8; 4]>(
    heap: Global,
    magic: [u8; 4],
    order: F,
) -> Result<Vec<u8>, AllocError>
    requires { F.IsAlwaysCallable order }
{
    let mut bytes = Vec::new(heap);
    bytes.extend_from_slice(&magic)?;
    for word in WORDS {
        bytes.extend_from_slice(&order(*word))?;
    }
    bytes.extend_from_slice(b"\0int\0x\0")?;
    Ok(bytes)
}

#[test]
fn a_file_with_all_kinds(rt: HostRuntime) -> Result<(), Fail> {
    let heap = rt.alloc();
    let mut types = [TypeRow::empty(); 20];
    let mut elements = [elements::Element::empty(); 9];
    let mut strings = [0xee; 8];
    let mut table = Btf::new(&mut types, &mut elements, &mut strings);
    let mut player = Player::new(&rt, &mut table, &mut strings);
    player.play(NAMES)?;
    add_plain(&mut player);
    add_with_elements(&mut player);
    player.play(READ)?;
    let little = bytes(heap, [0x9f, 0xeb, 1, 0], u32::to_le_bytes)?;
    player.written(&LittleEndian, &little)?;
    let big = bytes(heap, [0xeb, 0x9f, 1, 0], u32::to_be_bytes)?;
    player.written(&BigEndian, &big)
}
