// The names of parameters that have none: "param" and their index.
ghost use Rattle.std.specs.Prelude.{◌≡◌, ◌+◌, [], ◌∷◌, ◌++◌, length, is_ok, if◌then◌else◌, nat_le};
ghost use Rattle.meaning.specs.Adding.{over};
ghost use Rattle.rewriting.specs.Rules.{param_name};

use crate::bytes::has_room;
use crate::error::DoesNotFit;
use itoa::Buffer;

// How many bytes the name of a parameter has.
pub fn param_len(index: u32) -> usize
    ensures { result ≡ length (param_name index) }
{
    5 + Buffer::new().format(index).len()
}

// Writes the name of a parameter to `at`, and a zero byte behind it: not where the area ends too soon. The rest of the
// area is left as it was.
pub fn put_param(area: &mut [u8], at: usize, index: u32) -> Result<(), DoesNotFit>
    ensures answer { is_ok result ≡ nat_le (at + (length (param_name index) + 1)) (length area.old) }
    ensures area { area.new ≡ (if is_ok result then over at (param_name index ++ 0 ∷ []) area.old else area.old) }
{
    let mut buffer = Buffer::new();
    let digits = buffer.format(index).as_bytes();
    let len = 5 + digits.len();
    if !has_room(area, at, len) {
        return Err(DoesNotFit);
    }
    area[at..at + 5].copy_from_slice(b"param");
    area[at + 5..at + len].copy_from_slice(digits);
    area[at + len] = 0;
    Ok(())
}
