// How a rewriting spells names anew.
#![tactic(auto)]

mod bytes;
mod error;
mod params;

pub use bytes::{Dotted, Spelling, Underscored, changes, put_respelled};
pub use error::DoesNotFit;
pub use params::{param_len, put_param};
