//! Bytes in hexadecimal, as `00FF`, and `-` for none.
ghost use Rattle.std.specs.Prelude.{◌<◌, IfSome};

use std::alloc::{AllocError, Global};

fn nibble(digit: u8) -> Option<u8>
    ensures { IfSome result (λ n. n < 16) }
{
    match digit {
        b'0'..=b'9' => Some(digit - b'0'),
        b'A'..=b'F' => Some(digit - b'A' + 10),
        b'a'..=b'f' => Some(digit - b'a' + 10),
        _ => None,
    }
}

fn byte(digits: [u8; 2]) -> Option<u8> {
    Some(nibble(digits[0])? << 4 | nibble(digits[1])?)
}

/// The bytes that digits write; none where one isn't a digit, or is left over.
pub(crate) fn bytes_of(alloc: Global, digits: &[u8]) -> Result<Option<Vec<u8>>, AllocError> {
    let mut bytes = Vec::new(alloc);
    if matches!(digits, b"-") {
        return Ok(Some(bytes));
    }
    if digits.len() % 2 != 0 {
        return Ok(None);
    }
    for at in 0..digits.len() / 2 {
        let Some(byte) = byte([digits[2 * at], digits[2 * at + 1]]) else {
            return Ok(None);
        };
        bytes.push(byte)?;
    }
    Ok(Some(bytes))
}

/// Bytes in hexadecimal.
pub fn in_hex(alloc: Global, bytes: &[u8]) -> Result<String, AllocError> {
    if bytes.is_empty() {
        return String::from_str(alloc, "-");
    }
    let mut text = String::new(alloc);
    for byte in bytes {
        let digits = format!(in alloc; "{byte:02X}")?;
        text.push_str(digits.as_str())?;
    }
    Ok(text)
}
