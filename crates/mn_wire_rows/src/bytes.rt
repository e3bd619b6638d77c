//! Bytes as the words of a row, and what all fronts of some bytes are answered.
use mn_rows::{Answer, Call};
use mn_text::number_up_to;
use std::alloc::{AllocError, Global};
use std::fmt::Write;

/// No row has as many words.
pub(crate) const WORDS: usize = 64;

/// The most times that a byte stands by one word.
const TIMES: u64 = 300_000;

/// Puts the last byte again, so that it stands so many times.
fn repeat_last(bytes: &mut Vec<u8>, times: u64) -> Result<(), AllocError> {
    let Some(&last) = bytes.last() else {
        return Ok(());
    };
    for _ in 1..times {
        bytes.push(last)?;
    }
    Ok(())
}

/// Appends what a word says, and answers whether it says anything: bytes in hexadecimal, or, as `*16`, how many times the byte
/// before it stands.
fn put_word(
    alloc: Global,
    bytes: &mut Vec<u8>,
    call: Call<'_>,
    k: usize,
) -> Result<bool, AllocError> {
    if let Some([b'*', times @ ..]) = call.word(k) {
        let Some(times) = number_up_to(times, TIMES) else {
            return Ok(false);
        };
        repeat_last(bytes, times)?;
        return Ok(true);
    }
    let Some(more) = call.bytes(alloc, k)? else {
        return Ok(false);
    };
    bytes.extend_from_slice(&more)?;
    Ok(true)
}

/// The bytes that the words from `k` on say, one behind the other; none where there is no word, or one that says none.
pub(crate) fn bytes_from(
    alloc: Global,
    call: Call<'_>,
    k: usize,
) -> Result<Option<Vec<u8>>, AllocError> {
    let mut bytes = Vec::new(alloc);
    if call.word(k).is_none() {
        return Ok(None);
    }
    for at in k..WORDS {
        if call.word(at).is_none() {
            break;
        }
        if !put_word(alloc, &mut bytes, call, at)? {
            return Ok(None);
        }
    }
    Ok(Some(bytes))
}

/// The answers of one front after another, each with how many times it came in turn: `10 Short, 28 BadLength`.
#[derive(Drop)]
pub(crate) struct Fronts {
    text: String,
    last: String,
    times: u64,
}

impl Fronts {
    fn new(alloc: Global) -> Fronts {
        Fronts {
            text: String::new(alloc),
            last: String::new(alloc),
            times: 0,
        }
    }

    /// Writes the last answer down.
    fn close(&mut self) -> Result<(), AllocError> {
        if self.times == 0 {
            return Ok(());
        }
        if !self.text.is_empty() {
            self.text.push_str(", ")?;
        }
        let times = self.times;
        write!(self.text, "{times} ")?;
        self.text.push_str(self.last.as_str())
    }

    /// Takes the answer of the next front.
    pub(crate) fn add(&mut self, answer: String) -> Result<(), AllocError> {
        if answer.as_str() != self.last.as_str() {
            self.close()?;
            self.last = answer;
            self.times = 0;
        }
        self.times = self.times.saturating_add(1);
        Ok(())
    }

    /// What is read of each front of the bytes, from none of them to all but the last.
    pub(crate) fn of<F: Fn(Global, &[u8]) -> Result<String, AllocError>>(
        alloc: Global,
        bytes: &[u8],
        reading: F,
    ) -> Result<Fronts, AllocError>
        requires { F.IsAlwaysCallable reading }
    {
        let mut fronts = Fronts::new(alloc);
        for end in 0..bytes.len() {
            fronts.add(reading(alloc, &bytes[..end])?)?;
        }
        Ok(fronts)
    }

    pub(crate) fn text(mut self) -> Result<String, AllocError> {
        self.close()?;
        Ok(self.text)
    }
}

/// A row that reads bytes, where it has some: `read` is answered by what is read of them, `fronts` by what is of each front.
pub(crate) fn read_row<F: Fn(Global, &[u8]) -> Result<String, AllocError>>(
    alloc: Global,
    call: Call<'_>,
    bytes: Option<Vec<u8>>,
    reading: F,
) -> Answer
    requires { F.IsAlwaysCallable reading }
{
    let Some(bytes) = bytes else {
        return Ok(None);
    };
    match call.verb() {
        b"read" => Ok(Some(reading(alloc, &bytes)?)),
        b"fronts" => Ok(Some(Fronts::of(alloc, &bytes, reading)?.text()?)),
        _ => Ok(None),
    }
}
