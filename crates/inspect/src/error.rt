// Why a rewriting is refused.
ghost use Rattle.std.specs.Prelude.{◌≡◌, Some};
ghost use Rattle.inspect.specs.Faults.{fixup_said};
ghost use Rattle.inspect.specs.Shown.{fixup_shown};
ghost use Rattle.inspect.specs.declared.error.FixupError.TheVariants.{Table};

use layout::BtfError;
use std::error::Error;
use std::fmt;

// Its four methods are those of BtfError, to which each case here adds its own.
#[derive(Clone, Copy, Debug, PartialEq, Eq)]
pub enum FixupError {
    // What the table itself refuses.
    Table(BtfError),
    // A section without a size has no row.
    UnknownSectionSize {
        section: u32,
    },
    // An entry is no variable's.
    InvalidDatasec {
        section: u32,
        entry: u32,
        type_id: u32,
    },
    // A variable that is not static has no symbol.
    SymbolOffsetNotFound {
        section: u32,
        entry: u32,
    },
    // A row's number, an offset in bits or an entry's end is no 32-bit word.
    NumberTooLarge {
        section: u32,
        entry: Option<u32>,
        number: u64,
    },
}

impl From<BtfError> for FixupError {
    ghost from_gives = { λ fault e. e ≡ Table fault };

    fn from(refused: BtfError) -> FixupError {
        FixupError::Table(refused)
    }
}

impl FixupError {
    pub fn number(&self) -> u8
        ensures { result ≡ (fixup_said self.now).number }
    {
        match self {
            FixupError::Table(fault) => fault.number(),
            FixupError::UnknownSectionSize { .. } => 12,
            FixupError::InvalidDatasec { .. } => 13,
            FixupError::SymbolOffsetNotFound { .. } => 14,
            FixupError::NumberTooLarge { .. } => 15,
        }
    }

    // The id of the declaration that was read.
    pub fn declaration(&self) -> Option<u32>
        ensures { result ≡ (fixup_said self.now).declaration }
    {
        match *self {
            FixupError::Table(fault) => fault.declaration(),
            FixupError::UnknownSectionSize { section } => Some(section),
            FixupError::InvalidDatasec { section, .. } => Some(section),
            FixupError::SymbolOffsetNotFound { section, .. } => Some(section),
            FixupError::NumberTooLarge { section, .. } => Some(section),
        }
    }

    // The element of that declaration, from 0.
    pub fn element(&self) -> Option<u32>
        ensures { result ≡ (fixup_said self.now).element }
    {
        match *self {
            FixupError::Table(fault) => fault.element(),
            FixupError::UnknownSectionSize { .. } => None,
            FixupError::InvalidDatasec { entry, .. } => Some(entry),
            FixupError::SymbolOffsetNotFound { entry, .. } => Some(entry),
            FixupError::NumberTooLarge { entry, .. } => entry,
        }
    }

    // The refused value.
    pub fn value(&self) -> Option<u64>
        ensures { result ≡ (fixup_said self.now).value }
    {
        match *self {
            FixupError::Table(fault) => fault.value(),
            FixupError::InvalidDatasec { type_id, .. } => Some(type_id as u64),
            FixupError::NumberTooLarge { number, .. } => Some(number),
            FixupError::UnknownSectionSize { .. } => None,
            FixupError::SymbolOffsetNotFound { .. } => None,
        }
    }
}

// By hand, since thiserror's derive states no text.
impl fmt::Display for FixupError {
    ghost output = { λ e. Some (fixup_shown e) };

    fn fmt<W: fmt::Write>(&self, f: &mut fmt::Formatter<W>) -> fmt::Result {
        match *self {
            FixupError::Table(fault) => write!(f, "{fault}"),
            FixupError::UnknownSectionSize { section } => write!(f, "refused 12: at id {section}"),
            FixupError::InvalidDatasec {
                section,
                entry,
                type_id,
            } => write!(
                f,
                "refused 13: id {type_id}, at id {section}, element {entry}"
            ),
            FixupError::SymbolOffsetNotFound { section, entry } => {
                write!(f, "refused 14: at id {section}, element {entry}")
            }
            FixupError::NumberTooLarge {
                section,
                entry: Some(entry),
                number,
            } => write!(
                f,
                "refused 15: number {number}, at id {section}, element {entry}"
            ),
            FixupError::NumberTooLarge {
                section,
                entry: None,
                number,
            } => write!(f, "refused 15: number {number}, at id {section}"),
        }
    }
}

impl Error for FixupError {}
