// How large a table is.
ghost use Rattle.std.specs.Prelude.{◌≤◌};

use crate::fault::Fault;
use std::str::FromStr;

// So many declarations: whole tens, and at least one whole chain.
#[derive(Clone, Copy)]
pub struct Size {
    declarations: u32,
    ghost some: { 160 ≤ declarations },
    ghost few: { declarations ≤ 1048570 },
}

impl Size {
    // The declarations of a chain.
    pub const CHAIN: u32 = 160;

    // A table has places for 1,048,575 declarations, of which id 0 takes one.
    pub const LARGEST: u32 = 1_048_570;

    pub const ALL: [Size; 4] = [
        Size {
            declarations: 1_000,
        },
        Size {
            declarations: 10_000,
        },
        Size {
            declarations: 100_000,
        },
        Size {
            declarations: 1_000_000,
        },
    ];

    pub fn declarations(self) -> u32
        ensures some { 160 ≤ result }
        ensures few { result ≤ 1048570 }
    {
        self.declarations
    }

    // The whole chains.
    pub fn chains(self) -> u32
        ensures { 1 ≤ result }
    {
        self.declarations / Size::CHAIN
    }

    // Their rows, behind that of id 0.
    pub fn rows(self) -> usize {
        1 + self.declarations as usize
    }

    // Room for the elements, of which ten declarations have seven.
    pub fn elements(self) -> usize {
        self.declarations as usize
    }

    // The bytes of the empty name, of the names, and one that is no name's.
    pub fn string_bytes(self) -> usize {
        1 + 13 * self.declarations as usize + 1
    }
}

// A smaller number is raised to one chain, and then to whole tens.
impl FromStr for Size {
    type Err = Fault;

    fn from_str(word: &str) -> Result<Size, Fault> {
        match word.parse::<u32>() {
            Ok(number) if number <= Size::LARGEST => Ok(Size {
                declarations: number.max(Size::CHAIN).next_multiple_of(10),
            }),
            _ => Err(Fault::Word),
        }
    }
}
