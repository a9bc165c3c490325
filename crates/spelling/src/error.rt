// Why a name is not written.
ghost use Rattle.std.specs.Prelude.{Some, codes};

use std::error::Error;
use std::fmt;

// The name does not fit where it is to be written.
#[derive(Clone, Copy, Debug, PartialEq, Eq)]
pub struct DoesNotFit;

// By hand, since thiserror's derive states no text.
impl fmt::Display for DoesNotFit {
    ghost output = { λ _. Some (codes "the name does not fit there") };

    fn fmt<W: fmt::Write>(&self, f: &mut fmt::Formatter<W>) -> fmt::Result {
        f.write_str("the name does not fit there")
    }
}

impl Error for DoesNotFit {}
