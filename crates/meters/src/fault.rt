// What ends the program early.
use filing::FilingError;
use layout::BtfError;
use std::alloc::AllocError;
use std::io;
use thiserror::Error;

#[derive(Debug, Drop, Error)]
pub enum Fault {
    #[error("the table {0}")]
    Table(#[from] BtfError),
    #[error(transparent)]
    File(#[from] FilingError),
    #[error("no memory is left")]
    Memory(#[from(alloc)] AllocError),
    #[error(transparent)]
    Io(#[from] io::Error),
}
