// The layout of BTF declarations: kinds, info words, heads, and what a refusal says.
#![tactic(auto)]

pub mod declaration;
pub mod error;
pub mod head;
pub mod kind;
pub mod linkage;
pub mod pointer;

pub use declaration::Declaration;
pub use error::{Area, BtfError};
pub use head::BtfType;
pub use kind::BtfKind;
pub use linkage::Linkage;
pub use pointer::PointerWidth;
