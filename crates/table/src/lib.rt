// A BTF table over areas that the caller lends.
#![tactic(auto)]

mod adding;
mod asking;
mod btf;
mod encoding;
mod making;
mod placing;
mod writer;

pub use adding::{MOST_ELEMENTS, MOST_STRINGS};
pub use btf::Btf;
pub use rows::{MOST_DECLARATIONS, TypeRow};
