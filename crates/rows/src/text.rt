// Names in the string area.
ghost use Rattle.std.specs.Prelude.{◌≡◌, ◌==◌, position, option_map};
ghost use Rattle.std.specs.List.{prefix_len};
ghost use Rattle.std.specs.Str.{bytes_eq};
ghost use Rattle.meaning.specs.Adding.{named};
ghost use Rattle.meaning.specs.Questions.{string_from};

// How many bytes come before the first zero byte, or all of them where there is none.
pub fn name_length(bytes: &[u8]) -> usize
    ensures { result ≡ prefix_len named bytes.now }
{
    zero_byte(bytes).unwrap_or(bytes.len())
}

// The bytes from an offset up to the next zero byte, where one follows.
pub fn string_from(bytes: &[u8], offset: u32) -> Option<&[u8]>
    ensures { option_map (λ s. s.now) result ≡ string_from bytes.now offset }
{
    let rest = bytes.get(offset as usize..)?;
    let length = zero_byte(rest)?;
    Some(&rest[..length])
}

// Where the first zero byte stands.
fn zero_byte(bytes: &[u8]) -> Option<usize>
    ensures { result ≡ position (λ b. b == 0) bytes.now }
{
    bytes.iter().position(|byte| *byte == 0)
}

// Whether two names have the same bytes: a function by itself, since its clause by bytes_eq is what proofs of callers use.
pub fn same_bytes(a: &[u8], b: &[u8]) -> bool
    ensures { result ≡ bytes_eq a.now b.now }
{
    a == b
}
