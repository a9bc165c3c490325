// Byte orders: how a 16-bit number and a 32-bit word stand in a file.
#![tactic(auto)]

mod endian;

ghost use Rattle.std.specs.Prelude.{◌≡◌};
ghost use Rattle.order.specs.Order.{Order};
ghost use Rattle.order.specs.Built.{little, big};

pub use endian::{Endian, UnknownEndian};

// A byte order means two functions from numbers to bytes under which unlike numbers have unlike bytes.
pub trait ByteOrder {
    ghost order: { Order };

    fn half(&self, n: u16) -> [u8; 2]
        ensures { result ≡ order.half n };

    fn word(&self, n: u32) -> [u8; 4]
        ensures { result ≡ order.word n };
}

#[derive(Clone, Copy, Debug)]
pub struct LittleEndian;

impl ByteOrder for LittleEndian {
    ghost order = { little };

    fn half(&self, half: u16) -> [u8; 2] {
        half.to_le_bytes()
    }

    fn word(&self, word: u32) -> [u8; 4] {
        word.to_le_bytes()
    }
}

#[derive(Clone, Copy, Debug)]
pub struct BigEndian;

impl ByteOrder for BigEndian {
    ghost order = { big };

    fn half(&self, half: u16) -> [u8; 2] {
        half.to_be_bytes()
    }

    fn word(&self, word: u32) -> [u8; 4] {
        word.to_be_bytes()
    }
}
