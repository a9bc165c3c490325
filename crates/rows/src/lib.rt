// Rows of declarations, and the questions to them.
#![tactic(auto)]

mod asking;
mod row;
mod text;
mod view;
mod walking;

pub use row::TypeRow;
pub use text::{name_length, same_bytes, string_from};
pub use view::{MOST_DECLARATIONS, View};
