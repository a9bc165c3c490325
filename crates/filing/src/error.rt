// Why there is no file.
ghost use Rattle.std.specs.Prelude.{◌≡◌, Some};
ghost use Rattle.filing.specs.Shown.{filing_shown};
ghost use Rattle.filing.specs.declared.error.FilingError.TheVariants.{Table, Memory};

use layout::BtfError;
use std::alloc::AllocError;
use std::error::Error;
use std::fmt;

#[derive(Clone, Copy, Debug, PartialEq, Eq)]
pub enum FilingError {
    Table(BtfError),
    Memory,
}

// By hand, since thiserror's derive states no text.
impl fmt::Display for FilingError {
    ghost output = { λ e. Some (filing_shown e) };

    fn fmt<W: fmt::Write>(&self, f: &mut fmt::Formatter<W>) -> fmt::Result {
        match *self {
            Self::Table(fault) => write!(f, "the table {fault}"),
            Self::Memory => f.write_str("no memory is left"),
        }
    }
}

impl Error for FilingError {}

// By hand, since a derived From has no contract.
impl From<BtfError> for FilingError {
    ghost from_gives = { λ refusal e. e ≡ Table refusal };

    fn from(refusal: BtfError) -> FilingError {
        FilingError::Table(refusal)
    }
}

// By hand, since it drops its argument, which no derive does.
impl From<AllocError> for FilingError {
    ghost from_gives = { λ _ e. e ≡ Memory };

    fn from(_e: AllocError) -> FilingError {
        FilingError::Memory
    }
}
