// The file of a table, in memory of its own. This is for programs that have a heap: the libraries below allocate
// nothing, and write into what the caller lends.
#![tactic(auto)]

mod error;
mod file;
#[cfg(test)]
mod tests;

pub use error::FilingError;
pub use file::{file_length, to_vec};
