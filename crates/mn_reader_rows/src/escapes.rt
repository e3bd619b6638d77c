//! Bytes as a row spells them: `\n`, `\r`, `\t`, `\s` for a blank, `\\`, and `\xFF` for any byte.
ghost use Rattle.std.specs.Prelude.{◌<◌, IfSome};

use mn_rows::Call;
use std::alloc::{AllocError, Global};
use std::fmt::Write;

/// What comes next.
#[derive(Clone, Copy)]
enum Due {
    Byte,
    Escape,
    High,
    Low(u8),
}

#[derive(Drop)]
struct Reading {
    bytes: Vec<u8>,
    due: Due,
    is_good: bool,
}

fn digit(byte: u8) -> Option<u8>
    ensures { IfSome result (λ n. n < 16) }
{
    match byte {
        b'0'..=b'9' => Some(byte - b'0'),
        b'A'..=b'F' => Some(byte - b'A' + 10),
        _ => None,
    }
}

fn escaped_byte(letter: u8) -> Option<u8> {
    match letter {
        b'n' => Some(b'\n'),
        b'r' => Some(b'\r'),
        b't' => Some(b'\t'),
        b's' => Some(b' '),
        b'\\' => Some(b'\\'),
        _ => None,
    }
}

impl Reading {
    fn put(&mut self, byte: Option<u8>) -> Result<(), AllocError> {
        self.due = Due::Byte;
        match byte {
            Some(byte) => self.bytes.push(byte)?,
            None => self.is_good = false,
        }
        Ok(())
    }

    fn take_high(&mut self, byte: u8) {
        match digit(byte) {
            Some(high) => self.due = Due::Low(high << 4),
            None => self.is_good = false,
        }
    }

    fn take(&mut self, byte: u8) -> Result<(), AllocError> {
        match self.due {
            Due::Byte if byte == b'\\' => self.due = Due::Escape,
            Due::Byte => self.bytes.push(byte)?,
            Due::Escape if byte == b'x' => self.due = Due::High,
            Due::Escape => self.put(escaped_byte(byte))?,
            Due::High => self.take_high(byte),
            Due::Low(high) => self.put(digit(byte).map(|low| high | low))?,
        }
        Ok(())
    }
}

/// The bytes that a text spells; none where an escape isn't one.
pub(crate) fn unescaped(alloc: Global, text: &[u8]) -> Result<Option<Vec<u8>>, AllocError> {
    let mut reading = Reading {
        bytes: Vec::new(alloc),
        due: Due::Byte,
        is_good: true,
    };
    for byte in text {
        reading.take(*byte)?;
    }
    let is_whole = matches!(reading.due, Due::Byte);
    if !is_whole || !reading.is_good {
        return Ok(None);
    }
    Ok(Some(reading.bytes))
}

/// The bytes that a word spells, which may stand in quotes, as `""`.
pub(crate) fn word_at(
    alloc: Global,
    call: Call<'_>,
    k: usize,
) -> Result<Option<Vec<u8>>, AllocError> {
    match call.word(k) {
        Some([b'"', inside @ .., b'"']) => unescaped(alloc, inside),
        Some(word) => unescaped(alloc, word),
        None => Ok(None),
    }
}

/// Bytes as a row spells them, with blanks as they are.
pub(crate) fn escaped(alloc: Global, bytes: &[u8]) -> Result<String, AllocError> {
    let mut text = String::new(alloc);
    for byte in bytes {
        match *byte {
            b'\n' => text.push_str("\\n")?,
            b'\r' => text.push_str("\\r")?,
            b'\t' => text.push_str("\\t")?,
            b'\\' => text.push_str("\\\\")?,
            b' '..=b'~' => text.push(char::from(*byte))?,
            other => write!(text, "\\x{other:02X}")?,
        }
    }
    Ok(text)
}
