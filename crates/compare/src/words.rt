// The words of a line, read one after another.
ghost use Rattle.std.specs.Prelude.{length};
ghost use Rattle.std.specs.Iterator.{at_most};

use crate::fault::Fault;
use crate::malformed::{Malformed, Part};
use crate::names::decoded;
use crate::numbers;
use layout::PointerWidth;
use std::alloc::Global;

#[derive(Drop)]
pub struct Words<'a> {
    // where names and lists are kept
    pub heap: Global,
    rest: &'a [u8],
}

impl<'a> Iterator for Words<'a> {
    type Item = &'a [u8];

    ghost remaining = { λ s. at_most (length s.rest.now) };

    fn next(&mut self) -> Option<&'a [u8]> {
        let text = self.rest.trim_ascii_start();
        let length = text
            .iter()
            .position(u8::is_ascii_whitespace)
            .unwrap_or(text.len());
        let (word, rest) = text.split_at(length);
        self.rest = rest;
        (!word.is_empty()).then_some(word)
    }
}

impl<'a> Words<'a> {
    pub fn new(heap: Global, line: &'a [u8]) -> Words<'a> {
        Words { heap, rest: line }
    }

    pub fn text(&mut self, part: Part) -> Result<&'a [u8], Malformed> {
        self.next().ok_or(Malformed::Missing(part))
    }

    // A number of 32 bits.
    pub fn word(&mut self, part: Part) -> Result<u32, Malformed> {
        let number = numbers::number(self.text(part)?).ok_or(Malformed::NotANumber(part))?;
        u32::try_from(number).map_err(|_| Malformed::TooLarge(part))
    }

    pub fn flag(&mut self) -> Result<bool, Malformed> {
        match self.word(Part::Flag)? {
            0 => Ok(false),
            1 => Ok(true),
            _ => Err(Malformed::NotAFlag),
        }
    }

    pub fn component(&mut self) -> Result<i32, Malformed> {
        let part = Part::Component;
        numbers::component(self.text(part)?).ok_or(Malformed::NotANumber(part))
    }

    pub fn width(&mut self) -> Result<PointerWidth, Malformed> {
        match self.word(Part::Width)? {
            4 => Ok(PointerWidth::Four),
            8 => Ok(PointerWidth::Eight),
            _ => Err(Malformed::NotAWidth),
        }
    }

    pub fn name(&mut self) -> Result<Vec<u8>, Fault> {
        match self.text(Part::Name)? {
            [b'=', name @ ..] => decoded(self.heap, name),
            _ => Err(Malformed::NotAName.into()),
        }
    }

    // Passes over all that is left.
    pub fn pass_over(&mut self) {
        self.rest = &[];
    }

    // Whether all words have been read.
    pub fn end(&mut self) -> Result<(), Malformed> {
        match self.next() {
            None => Ok(()),
            Some(_) => Err(Malformed::TooManyWords),
        }
    }
}
