// That memory for a file is found, which no clause can say.
use crate::{FilingError, file_length, to_vec};
use declare::Int;
use elements::BtfMember;
use order::{BigEndian, LittleEndian};
use std::test::Fail;
use table::{Btf, TypeRow};

// The bytes worked out by hand once more: those in `checks` stand in modules of its tests, which no other crate can use.
const NEW_LITTLE: &[u8] = &[
    0x9f, 0xeb, 1, 0, 24, 0, 0, 0, 0, 0, 0, 0, 0, 0, 0, 0, 0, 0, 0, 0, 1, 0, 0, 0, 0,
];

const INT_LITTLE: &[u8] = &[
    0x9f, 0xeb, 1, 0, 24, 0, 0, 0, 0, 0, 0, 0, 16, 0, 0, 0, 16, 0, 0, 0, 5, 0, 0, 0, 1, 0, 0, 0, 0,
    0, 0, 1, 4, 0, 0, 0, 0x20, 0, 0, 1, 0, b'i', b'n', b't', 0,
];

const INT_BIG: &[u8] = &[
    0xeb, 0x9f, 1, 0, 0, 0, 0, 24, 0, 0, 0, 0, 0, 0, 0, 16, 0, 0, 0, 16, 0, 0, 0, 5, 0, 0, 0, 1, 1,
    0, 0, 0, 0, 0, 0, 4, 1, 0, 0, 0x20, 0, b'i', b'n', b't', 0,
];

fn add_int(table: &mut Btf, strings: &mut [u8]) -> Result<(), FilingError> {
    let name = table.add_string(strings, b"int")?;
    let none: [BtfMember; 0] = [];
    table.add_type(strings, &Int::new(name, 4, Int::SIGNED, 0), &none)?;
    Ok(())
}

#[test]
fn files_are_made(rt: HostRuntime) -> Result<(), Fail> {
    let heap = rt.alloc();
    let mut types = [TypeRow::empty(); 2];
    let mut strings = [0xee; 6];
    let mut table = Btf::new(&mut types, &mut [], &mut strings);
    let file = to_vec(heap, &table, &strings, &LittleEndian)?;
    assert!(rt; file.as_slice() == NEW_LITTLE);
    add_int(&mut table, &mut strings)?;
    let length = file_length(&table, &strings).map_err(FilingError::Table)?;
    assert!(rt; length == INT_LITTLE.len());
    let file = to_vec(heap, &table, &strings, &LittleEndian)?;
    assert!(rt; file.as_slice() == INT_LITTLE);
    let file = to_vec(heap, &table, &strings, &BigEndian)?;
    assert!(rt; file.as_slice() == INT_BIG);
    Ok(())
}
