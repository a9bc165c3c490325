// The tables that are timed. Ten declarations repeat: Int, Ptr, Struct with 3 members, Typedef, Const, Enum with 2
// values, Array, FuncProto with 2 params, Func, Var. Each brings a name of 12 bytes. A Typedef is of the Const
// of the ten before, and a Const of the Typedef before it, so that links make chains, 16 tens long.
use crate::size::Size;
use declare::{Array, Const, Enum, Func, FuncProto, Int, Ptr, Struct, Typedef, Var};
use elements::{BtfEnum, BtfMember, BtfParam};
use layout::{BtfError, Declaration, Linkage};
use std::alloc::{AllocError, Global};
use table::Btf;

pub type Label = [u8; 12];

// A label: `n`, and a number in eleven digits. By hand: a `write!` with `{:011}` would need a writer over the array.
fn label(number: u32) -> Label {
    let mut label = *b"n00000000000";
    let mut rest = number;
    for digit in label[1..].iter_mut().rev() {
        *digit = b'0' + (rest % 10) as u8;
        rest /= 10;
    }
    label
}

pub fn labels(heap: Global, size: Size) -> Result<Vec<Label>, AllocError> {
    (0..size.declarations()).map(label).collect(heap)
}

fn members(name_offset: u32, btf_type: u32) -> [BtfMember; 3] {
    [0, 32, 64].map(|offset| BtfMember {
        name_offset,
        btf_type,
        offset,
    })
}

fn values(name_offset: u32) -> [BtfEnum; 2] {
    [0, 1].map(|value| BtfEnum { name_offset, value })
}

fn params(name_offset: u32, types: [u32; 2]) -> [BtfParam; 2] {
    types.map(|btf_type| BtfParam {
        name_offset,
        btf_type,
    })
}

// What a ten names of the one before: its Struct, and its Const where that is of the same chain.
#[derive(Clone, Copy)]
struct Before {
    record: u32,
    constant: Option<u32>,
}

// Adds a declaration that has no elements.
// The string area comes beside a table: a struct of both could not lend one for change and one for reading in one call.
fn add_alone(table: &mut Btf, names: &[u8], declaration: &Declaration) -> Result<u32, BtfError> {
    let none: [BtfMember; 0] = [];
    table.add_type(names, declaration, &none)
}

// Adds the names of ten labels, and then their declarations.
fn add_ten(
    table: &mut Btf,
    names: &mut [u8],
    labels: &[Label],
    before: Before,
) -> Result<Before, BtfError> {
    let mut offsets = [0; 10];
    for (offset, label) in offsets.iter_mut().zip(labels) {
        *offset = table.add_string(names, label)?;
    }
    let [
        int_name,
        ptr_name,
        struct_name,
        typedef_name,
        _,
        enum_name,
        array_name,
        param_name,
        func_name,
        var_name,
    ] = offsets;
    let int = add_alone(table, names, &Int::new(int_name, 4, 0, 0))?;
    add_alone(table, names, &Ptr::new(ptr_name, before.record))?;
    let record = table.add_type(
        names,
        &Struct::new(struct_name, false, 12),
        &members(struct_name, int),
    )?;
    let link = before.constant.unwrap_or(int);
    let alias = add_alone(table, names, &Typedef::new(typedef_name, link))?;
    let constant = add_alone(table, names, &Const::new(alias))?;
    table.add_type(names, &Enum::new(enum_name, false), &values(enum_name))?;
    add_alone(table, names, &Array::new(array_name, record, int, 8))?;
    let proto = table.add_type(
        names,
        &FuncProto::new(int),
        &params(param_name, [int, record]),
    )?;
    add_alone(table, names, &Func::new(func_name, proto, Linkage::Global))?;
    add_alone(table, names, &Var::new(var_name, record, Linkage::Global))?;
    Ok(Before {
        record,
        constant: Some(constant),
    })
}

// Adds a declaration for each label; a chain begins at an Int. The string area comes beside the table, as with each
// of its calls.
pub fn fill(table: &mut Btf, names: &mut [u8], labels: &[Label]) -> Result<(), BtfError> {
    let mut before = Before {
        record: 0,
        constant: None,
    };
    for chain in labels.chunks(Size::CHAIN as usize) {
        before.constant = None;
        for ten in chain.chunks(10) {
            before = add_ten(table, names, ten, before)?;
        }
    }
    Ok(())
}

// The ids where the chains begin, each the Typedef of its last ten: 31 links lead from there to the end. The first
// declaration has id 1.
pub fn chain_heads(heap: Global, size: Size) -> Result<Vec<u32>, AllocError> {
    (154..=size.declarations())
        .step_by(Size::CHAIN as usize)
        .collect(heap)
}
