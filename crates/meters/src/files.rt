// The two files of a table, and how they are printed.
use crate::shown::Hex;
use filing::FilingError;
use order::{BigEndian, Endian, LittleEndian};
use std::alloc::Global;
use std::io;
use table::Btf;

#[derive(Drop)]
pub struct Files {
    little: Vec<u8>,
    big: Vec<u8>,
}

impl Files {
    pub fn encode(heap: Global, table: &Btf, names: &[u8]) -> Result<Files, FilingError> {
        let little = filing::to_vec(heap, table, names, &LittleEndian)?;
        let big = filing::to_vec(heap, table, names, &BigEndian)?;
        Ok(Files { little, big })
    }

    // The file for machines of a byte order.
    pub fn of(&self, endian: Endian) -> &[u8] {
        match endian {
            Endian::Little => self.little.as_slice(),
            Endian::Big => self.big.as_slice(),
        }
    }

    pub fn print(&self, rt: &HostRuntime) -> io::Result<()> {
        for endian in [Endian::Little, Endian::Big] {
            self.print_file(rt, endian)?;
        }
        Ok(())
    }

    fn print_file(&self, rt: &HostRuntime, endian: Endian) -> io::Result<()> {
        let bytes = self.of(endian);
        let length = bytes.len();
        println!(rt; "{endian} endian, {length} bytes")?;
        for line in bytes.chunks(32) {
            println!(rt; "{}", Hex(line))?;
        }
        Ok(())
    }
}
