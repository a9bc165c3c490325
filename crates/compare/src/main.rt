// Runs scripts of calls: one command a line on standard input, one answer a line on standard output.
// tools/oracle/README.md has the grammar and the printed words. The crate aya-obj answers the same scripts in the same
// words, so that the two can be compared line by line.
#![tactic(auto)]

mod answer;
mod command;
mod declared;
mod fault;
mod malformed;
mod names;
mod numbers;
mod script;
mod serving;
mod words;

use crate::fault::Fault;
use crate::script::Scripts;
use crate::serving::{Session, serve};
use elements::Element;
use std::io::{BufWriter, Read, Write};
use table::{MOST_DECLARATIONS, MOST_ELEMENTS, MOST_STRINGS, TypeRow};

// The areas are as long as a table can use them, so that a script lacks room only where every table would.
fn run(rt: &HostRuntime) -> Result<(), Fault> {
    let heap = rt.alloc();
    let mut input = Vec::new(heap);
    rt.stdin().read_to_end(&mut input)?;
    let mut rows = vec![in heap; TypeRow::empty(); MOST_DECLARATIONS]?;
    let mut elements = vec![in heap; Element::empty(); MOST_ELEMENTS]?;
    let mut names = vec![in heap; 0u8; MOST_STRINGS]?;
    let mut out = BufWriter::new(heap, rt.stdout())?;
    for script in Scripts::new(&input) {
        let begins = script.begins_table();
        let mut session = begins.then(|| Session::new(heap, &mut rows, &mut elements, &mut names));
        serve(heap, &mut out, &mut session, &script)?;
    }
    out.flush()?;
    Ok(())
}

fn main(rt: HostRuntime) -> anyhow::Result<()> {
    run(&rt)?;
    Ok(())
}
