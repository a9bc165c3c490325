// What a line can meet: a refusal of the table or a malformed word, which are answered, or what ends the program.
use crate::answer::Refusal;
use crate::malformed::Malformed;
use filing::FilingError;
use layout::BtfError;
use std::alloc::AllocError;
use std::io;
use thiserror::Error;

#[derive(Debug, Drop, Error)]
pub enum Fault {
    #[error("{}", Refusal(*.0))]
    Table(#[from] BtfError),
    #[error(transparent)]
    Line(#[from] Malformed),
    #[error("no memory is left")]
    Memory(#[from(alloc)] AllocError),
    #[error(transparent)]
    Io(#[from] io::Error),
}

// By hand, since a refusal of the table is answered: it is one case, however it came.
impl From<FilingError> for Fault {
    fn from(e: FilingError) -> Fault {
        match e {
            FilingError::Table(refusal) => Fault::Table(refusal),
            FilingError::Memory => Fault::Memory(AllocError),
        }
    }
}
