// Numbers as a script writes them: decimal, or 0x and hexadecimal digits.
ghost use Rattle.std.specs.Prelude.{◌≤◌};

// The value of two hexadecimal digits.
pub fn byte_of(high: u8, low: u8) -> Option<u8> {
    let high = char::from(high).to_digit(16)?;
    let low = char::from(low).to_digit(16)?;
    u8::try_from(high * 16 + low).ok()
}

// A number of 64 bits, or none where a byte is no digit or the number is larger. The library's parsing would take a
// plus sign too.
fn digits(text: &[u8], radix: u32) -> Option<u64>
    requires two { 2 ≤ radix }
    requires letters { radix ≤ 36 }
{
    if text.is_empty() {
        return None;
    }
    text.iter().try_fold(0u64, |value, b| {
        let digit = char::from(*b).to_digit(radix)?;
        value
            .checked_mul(u64::from(radix))?
            .checked_add(u64::from(digit))
    })
}

pub fn number(text: &[u8]) -> Option<u64> {
    match text {
        [b'0', b'x', hexadecimal @ ..] => digits(hexadecimal, 16),
        _ => digits(text, 10),
    }
}

// A signed number of 32 bits: a minus sign and a number, or a word.
pub fn component(text: &[u8]) -> Option<i32> {
    match text {
        [b'-', size @ ..] => 0i32.checked_sub_unsigned(u32::try_from(digits(size, 10)?).ok()?),
        _ => Some(u32::try_from(number(text)?).ok()?.cast_signed()),
    }
}
