// All times of one size, and the row that says them.
use crate::fault::Fault;
use crate::filling::{Label, chain_heads, fill, labels};
use crate::size::Size;
use crate::timing::Plan;
use elements::Element;
use layout::BtfKind;
use order::LittleEndian;
use std::fmt;
use std::num::nearest_u64_to_f64;
use table::{Btf, TypeRow};

// Times are in seconds.
#[derive(Clone, Copy)]
pub struct Measured {
    size: Size,
    bytes: usize,
    build: f64,
    encode: f64,
    copy: f64,
    search: f64,
    walk: f64,
    checksum: u64,
}

impl Measured {
    pub const HEADING: &'static str =
        "declarations  file bytes  build us  encode us  encode MB/s  copy us  copy MB/s  encode/copy  search us  walk ns  checksum";

    // Megabytes of the file a second.
    fn speed(&self, seconds: f64) -> f64 {
        nearest_u64_to_f64(self.bytes as u64) / 1e6 / seconds
    }
}

impl fmt::Display for Measured {
    fn fmt<W: fmt::Write>(&self, f: &mut fmt::Formatter<W>) -> fmt::Result {
        write!(f, "{:>12}  {:>10}", self.size.declarations(), self.bytes)?;
        write!(f, "  {:>8.1}", self.build * 1e6)?;
        write!(
            f,
            "  {:>9.1}  {:>11.0}",
            self.encode * 1e6,
            self.speed(self.encode)
        )?;
        write!(
            f,
            "  {:>7.1}  {:>9.0}",
            self.copy * 1e6,
            self.speed(self.copy)
        )?;
        write!(f, "  {:>11.1}", self.encode / self.copy)?;
        write!(f, "  {:>9.1}  {:>7.0}", self.search * 1e6, self.walk * 1e9)?;
        write!(f, "  {:016x}", self.checksum)
    }
}

fn checksum_of(bytes: &[u8]) -> u64 {
    bytes.iter().fold(0u64, |sum, byte| {
        sum.wrapping_mul(31).wrapping_add(u64::from(*byte))
    })
}

// Changes a byte before a work, so that no work can be left out.
fn spoil(byte: Option<&mut u8>) {
    if let Some(byte) = byte {
        *byte = byte.wrapping_add(1);
    }
}

// The string area comes beside a table: a struct of both could not lend one for change and one for reading in one call.
fn encode(table: &Btf, names: &[u8], out: &mut [u8]) -> Result<(), Fault> {
    spoil(out.first_mut());
    table.to_bytes(names, &LittleEndian, out)?;
    Ok(())
}

fn copy(from: &[u8], to: &mut [u8]) -> Result<(), Fault> {
    spoil(to.first_mut());
    if from.len() != to.len() {
        return Err(Fault::Unlike);
    }
    to.copy_from_slice(from);
    if to.first() != from.first() {
        return Err(Fault::Unlike);
    }
    Ok(())
}

// Searches the name that the Var `id` has. The last byte of the string area is no name's.
fn search(table: &Btf, names: &mut [u8], name: &Label, id: u32) -> Result<(), Fault> {
    spoil(names.last_mut());
    if table.id_by_type_name_kind(names, name, BtfKind::Var)? != id {
        return Err(Fault::Unlike);
    }
    Ok(())
}

// Walks along each chain.
fn walk_each(table: &Btf, names: &[u8], heads: &[u32]) -> Result<(), Fault> {
    for head in heads {
        let (_, links) = table.resolve_type(names, *head)?;
        if links != 31 {
            return Err(Fault::Unlike);
        }
    }
    Ok(())
}

pub fn measure(rt: &HostRuntime, size: Size) -> Result<Measured, Fault> {
    let heap = rt.alloc();
    let plan = Plan::for_size(size);
    let all = labels(heap, size)?;
    let last = all.last().ok_or(Fault::Word)?;
    let mut rows = vec![in heap; TypeRow::empty(); size.rows()]?;
    let mut elements = vec![in heap; Element::empty(); size.elements()]?;
    let mut names = vec![in heap; 0u8; size.string_bytes()]?;
    let build = plan.fastest(rt, || {
        let mut table = Btf::new(&mut rows, &mut elements, &mut names);
        fill(&mut table, &mut names, &all)?;
        Ok(())
    })?;
    let mut table = Btf::new(&mut rows, &mut elements, &mut names);
    fill(&mut table, &mut names, &all)?;
    let bytes = filing::file_length(&table, &names)?;
    let mut out = vec![in heap; 0u8; bytes]?;
    let mut copied = vec![in heap; 0u8; bytes]?;
    let encode = plan.fastest(rt, || encode(&table, &names, &mut out))?;
    let copy = plan.fastest(rt, || copy(&out, &mut copied))?;
    let id = table.id_by_type_name_kind(&names, last, BtfKind::Var)?;
    let search = plan.fastest(rt, || search(&table, &mut names, last, id))?;
    let heads = chain_heads(heap, size)?;
    let walks = Plan::for_walks(size).fastest(rt, || walk_each(&table, &names, &heads))?;
    let walk = walks / f64::from(size.chains());
    let checksum = checksum_of(&out);
    if checksum != checksum_of(&copied) {
        return Err(Fault::Unlike);
    }
    Ok(Measured {
        size,
        bytes,
        build,
        encode,
        copy,
        search,
        walk,
        checksum,
    })
}
