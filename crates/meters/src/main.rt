// Takes a meter's BTF table from its first name to the last byte of its file, prints what was done line by
// line, and then reads a swap sheet from standard input: which gateway gets which file, and which share one.
#![tactic(auto)]

mod fault;
mod files;
mod given;
mod meter;
mod questions;
mod recorder;
mod sheet;
mod shown;
mod swaps;

use crate::fault::Fault;
use crate::files::Files;
use crate::meter::Meter;
use crate::questions::Questions;
use crate::recorder::Recorder;
use elements::Element;
use table::{Btf, TypeRow};

const MOST_DECLARATIONS: usize = 64;

const MOST_ELEMENTS: usize = 64;

const MOST_NAME_BYTES: usize = 1024;

// Fills a new table, asks it, encodes it and serves the gateways.
fn tell(mut recorder: Recorder) -> Result<(), Fault> {
    let meter = Meter::declare(&mut recorder)?;
    let Recorder { rt, table, names } = recorder;
    let table = &table;
    let names = names.as_slice();
    Questions { rt, table, names }.ask_all(&meter)?;
    let files = Files::encode(rt.alloc(), table, names)?;
    files.print(rt)?;
    swaps::serve(rt, &files)
}

fn run(rt: &HostRuntime) -> Result<(), Fault> {
    let heap = rt.alloc();
    let mut types = vec![in heap; TypeRow::empty(); MOST_DECLARATIONS]?;
    let mut elements = vec![in heap; Element::empty(); MOST_ELEMENTS]?;
    let mut names = vec![in heap; 0u8; MOST_NAME_BYTES]?;
    let table = Btf::new(
        types.as_mut_slice(),
        elements.as_mut_slice(),
        names.as_mut_slice(),
    );
    tell(Recorder { rt, table, names })
}

fn main(rt: HostRuntime) -> anyhow::Result<()> {
    run(&rt)?;
    Ok(())
}
