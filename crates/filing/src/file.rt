// A file in memory of its own, and how long it is.
ghost use Rattle.std.specs.Prelude.{◌≡◌};
ghost use Rattle.layout.specs.Refusals.{accepted, told};
ghost use Rattle.meaning.specs.Questions.{asked_of};
ghost use Rattle.meaning.specs.File.{file_length};
ghost use Rattle.table.specs.Tables.{table_of};
ghost use Rattle.filing.specs.Filed.{Filed};

use crate::error::FilingError;
use layout::BtfError;
use order::{ByteOrder, LittleEndian};
use std::alloc::Global;
use table::Btf;

// How many bytes the file of a table has, in either byte order, as the refusal of an empty buffer says.
pub fn file_length(table: &Btf, strings: &[u8]) -> Result<usize, BtfError>
    ensures { told (λ n. n) result ≡ asked_of (table_of table.now strings.now) (accepted (file_length (table_of table.now strings.now))) }
{
    match table.to_bytes(strings, &LittleEndian, &mut []) {
        Err(BtfError::OutputTooShort { needed }) => Ok(needed),
        answer => answer,
    }
}

// The file of a table in a byte order, or the table's refusal.
pub fn to_vec<O: ByteOrder>(
    heap: Global,
    table: &Btf,
    strings: &[u8],
    order: &O,
) -> Result<Vec<u8>, FilingError>
    ensures { Filed O.ByteOrder.order (table_of table.now strings.now) result }
{
    let length = file_length(table, strings)?;
    let mut file = vec![in heap; 0u8; length]?;
    table.to_bytes(strings, order, &mut file)?;
    Ok(file)
}
