// Which gateway of a sheet gets which file. Gateways whose files have the same bytes are billed alike.
use crate::fault::Fault;
use crate::files::Files;
use crate::given::Given;
use crate::sheet::{Malformed, Row, Sheet, is_passed_over, without_end};
use crate::shown::Shown;
use order::Endian;
use std::collections::BTreeMap;
use std::io;

// A gateway with the number of its file.
#[derive(Drop)]
struct Gateway {
    name: String,
    file: usize,
}

#[derive(Drop)]
struct Swaps<'s> {
    rt: &'s HostRuntime,
    files: &'s Files,
    // the line of each name
    lines: BTreeMap<String, usize>,
    given: Given,
    gateways: Vec<Gateway>,
    malformed: usize,
}

impl<'s> Swaps<'s> {
    fn new(rt: &'s HostRuntime, files: &'s Files) -> Swaps<'s> {
        let heap = rt.alloc();
        Swaps {
            rt,
            files,
            lines: BTreeMap::new(heap),
            given: Given::new(heap),
            gateways: Vec::new(heap),
            malformed: 0,
        }
    }

    fn refuse(&mut self, line: usize, malformed: Malformed) -> Result<(), Fault> {
        self.malformed = self.malformed.saturating_add(1);
        println!(self.rt; "line {line}: malformed, {malformed}")?;
        Ok(())
    }

    // The row of a line, under a name that stood in no earlier row.
    fn read_row<'t>(&self, text: &'t [u8]) -> Result<Row<'t>, Malformed> {
        let row = Row::try_from(text)?;
        match self.lines.get(row.name) {
            Some(line) => Err(Malformed::RepeatedName { line: *line }),
            None => Ok(row),
        }
    }

    fn take_line(&mut self, line: usize, text: &[u8]) -> Result<(), Fault> {
        match self.read_row(text) {
            Ok(row) => self.take_row(line, &row),
            Err(malformed) => self.refuse(line, malformed),
        }
    }

    // Keeps the line of the row's name, also where its byte order is malformed.
    fn take_row(&mut self, line: usize, row: &Row) -> Result<(), Fault> {
        let name = String::from_str(self.rt.alloc(), row.name)?;
        self.lines.insert(name, line)?;
        match row.endian() {
            Ok(endian) => self.give_file(line, row, endian),
            Err(unknown) => self.refuse(line, unknown.into()),
        }
    }

    fn give_file(&mut self, line: usize, row: &Row, endian: Endian) -> Result<(), Fault> {
        let heap = self.rt.alloc();
        let file = self.given.number(heap, self.files.of(endian))?;
        print_row(self.rt, line, row, file)?;
        let name = String::from_str(heap, row.name)?;
        self.gateways.push(Gateway { name, file })?;
        Ok(())
    }

    fn take_lines(&mut self, sheet: &Sheet) -> Result<(), Fault> {
        for (line, text) in (1usize..).zip(sheet.lines()) {
            let text = without_end(text);
            if !is_passed_over(text) {
                self.take_line(line, text)?;
            }
        }
        Ok(())
    }

    fn print_gateways(&self, file: usize) -> io::Result<()> {
        for gateway in self.gateways.iter().filter(|gateway| gateway.file == file) {
            println!(self.rt; "  {}", gateway.name)?;
        }
        Ok(())
    }

    fn print_files(&self) -> io::Result<()> {
        for (number, bytes) in (1usize..).zip(self.given.files()) {
            println!(self.rt; "file {number}, {} bytes, billed alike:", bytes.len())?;
            self.print_gateways(number)?;
        }
        Ok(())
    }

    fn print_summary(&self) -> io::Result<()> {
        let gateways = self.gateways.len();
        let files = self.given.files().len();
        let malformed = self.malformed;
        println!(self.rt; "{gateways} gateways, {files} files, {malformed} malformed rows")
    }
}

fn print_row(rt: &HostRuntime, line: usize, row: &Row, file: usize) -> io::Result<()> {
    let name = row.name;
    if row.kernel.is_empty() {
        println!(rt; "line {line}: {name} gets file {file}, no kernel written")
    } else {
        println!(rt;
            "line {line}: {name} gets file {file}, kernel \"{}\"",
            Shown(row.kernel)
        )
    }
}

// Reads the sheet, says of each row which file its gateway gets, and then who shares each file.
pub fn serve(rt: &HostRuntime, files: &Files) -> Result<(), Fault> {
    let sheet = Sheet::read(rt)?;
    let mut swaps = Swaps::new(rt, files);
    swaps.take_lines(&sheet)?;
    if sheet.is_cut {
        let lines = sheet.lines().count();
        println!(rt; "the sheet is too long: nothing is read past line {lines}")?;
    }
    swaps.print_files()?;
    swaps.print_summary()?;
    Ok(())
}
