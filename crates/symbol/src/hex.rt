// Uppercase hexadecimal digits, two to a byte. `char::to_digit` and the crate hex take lowercase too, and hex writes it.
ghost use Rattle.std.specs.Prelude.{◌≡◌, ℕ, ◌+◌, ◌*◌, ◌<◌, true, false, length, if◌then◌else◌, Some, None};
ghost use Rattle.symbol.specs.Hex.{digit_of, is_digit, worth, is_hex, hex, unhex};
ghost use Rattle.symbol.specs.Kinds.{Unhexed, Wrote};

use crate::wrong_length::WrongLength;

fn digit(v: u8) -> u8
    requires { v < 16 }
    ensures { result ≡ digit_of v }
{
    if v < 10 { b'0' + v } else { b'A' + (v - 10) }
}

fn value(b: u8) -> Option<u8>
    ensures is { result ≡ (if is_digit b then Some (worth b) else None) }
    ensures below { is_digit b ≡ true → worth b < 16 }
{
    match b {
        b'0'..=b'9' => Some(b - b'0'),
        b'A'..=b'F' => Some(b - b'A' + 10),
        _ => None,
    }
}

// The byte of two digits.
fn pair(high: u8, low: u8) -> Option<u8>
    ensures { result ≡ (if is_digit high then (if is_digit low then Some (16 * worth high + worth low) else None) else None) }
{
    Some(16 * value(high)? + value(low)?)
}

// Fills `bytes` from twice as many digits. None exactly if the part is anything else.
pub(crate) fn read_hex(part: &[u8], bytes: &mut [u8]) -> Option<()>
    ensures { Unhexed part.now bytes.old bytes.new result }
{
    if part.len() != 2 * bytes.len() {
        return None;
    }
    // By index: of a zip with `iter_mut` a proof knows no element that was written.
    for (i, byte) in bytes.iter_mut().enumerate() {
        *byte = pair(part[2 * i], part[2 * i + 1])?;
    }
    Some(())
}

// The digits of `bytes` over the whole part. An error, and nothing is changed, exactly if it is not twice as long.
pub(crate) fn write_hex(bytes: &[u8], part: &mut [u8]) -> Result<(), WrongLength>
    ensures { Wrote (hex bytes.now) part.old part.new result }
{
    if part.len() != 2 * bytes.len() {
        return Err(WrongLength);
    }
    // By index, for the same reason.
    for (i, byte) in bytes.iter().enumerate() {
        part[2 * i] = digit(byte / 16);
        part[2 * i + 1] = digit(byte % 16);
    }
    Ok(())
}
