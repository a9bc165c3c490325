// What ends the benchmark early.
use layout::BtfError;
use std::alloc::AllocError;
use std::io;
use thiserror::Error;

#[derive(Debug, Drop, Error)]
pub enum Fault {
    #[error("the table refused, by number {number}", number = .0.number())]
    Table(#[from] BtfError),
    #[error("no memory is left")]
    Memory(#[from(alloc)] AllocError),
    #[error(transparent)]
    Io(#[from] io::Error),
    #[error("an argument is no size")]
    Word,
    // A copy that differs from what was copied, or a name that was found elsewhere.
    #[error("two answers differ that should not")]
    Unlike,
}
