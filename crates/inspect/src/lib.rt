// What a rewriting checks before it changes anything.
#![tactic(auto)]

mod closed;
mod each;
mod error;
mod names;
mod sections;

pub use closed::open_fault;
pub use error::FixupError;
pub use names::{Lists, NamedRow, name_at, number_of};
pub use sections::sections_fault;
