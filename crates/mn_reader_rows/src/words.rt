//! Lines, words, numbers, addresses, prefixes, distinguishers and targets as text.
use crate::escapes::{escaped, word_at};
use mn_rows::{Answer, Call, done, shown};
use mn_text::{
    address, first_line, first_word, number, prefix, put_address, put_number, put_prefix, put_rd,
    put_rt, rd, rt, word,
};
use std::alloc::{AllocError, Global};

/// A part of some bytes, in quotes.
fn quoted(alloc: Global, bytes: &[u8]) -> Result<String, AllocError> {
    let text = escaped(alloc, bytes)?;
    format!(in alloc; "\"{text}\"")
}

/// What stands first, and what follows it.
fn parted(alloc: Global, parts: Option<(&[u8], &[u8])>) -> Answer {
    let Some((first, rest)) = parts else {
        return Ok(Some(String::from_str(alloc, "none")?));
    };
    let first = quoted(alloc, first)?;
    let rest = quoted(alloc, rest)?;
    Ok(Some(format!(in alloc; "{first} {rest}")?))
}

/// The word of this number, from 0.
fn nth_word(alloc: Global, line: &[u8], call: Call<'_>) -> Answer {
    let Some(k) = call.number(3, 100) else {
        return Ok(None);
    };
    match word(line, k as usize) {
        Some(word) => Ok(Some(quoted(alloc, word)?)),
        None => Ok(Some(String::from_str(alloc, "none")?)),
    }
}

/// The text read, and written behind a bar; none where it isn't read.
fn again(alloc: Global, text: &[u8], verb: &[u8]) -> Result<Option<Vec<u8>>, AllocError> {
    let mut out = Vec::from_slice(alloc, b"|")?;
    match verb {
        b"write_number" => match number(text, u64::MAX) {
            Ok(found) => put_number(&mut out, found)?,
            Err(_) => return Ok(None),
        },
        b"write_address" => match address(text) {
            Ok(found) => put_address(&mut out, found)?,
            Err(_) => return Ok(None),
        },
        b"write_prefix" => match prefix(text) {
            Ok(found) => put_prefix(&mut out, found)?,
            Err(_) => return Ok(None),
        },
        b"write_rd" => match rd(text) {
            Ok(found) => put_rd(&mut out, found)?,
            Err(_) => return Ok(None),
        },
        b"write_rt" => match rt(text) {
            Ok(found) => put_rt(&mut out, found)?,
            Err(_) => return Ok(None),
        },
        _ => return Ok(None),
    }
    Ok(Some(out))
}

fn written(alloc: Global, text: &[u8], call: Call<'_>) -> Answer {
    match again(alloc, text, call.verb())? {
        Some(out) => Ok(Some(escaped(alloc, &out)?)),
        None => Ok(None),
    }
}

/// The text as a number of at most the fourth word.
fn number_of(alloc: Global, text: &[u8], call: Call<'_>) -> Answer {
    match call.number(3, u64::MAX) {
        Some(most) => shown(alloc, &number(text, most)),
        None => Ok(None),
    }
}

/// What is asked of a text.
fn asked(alloc: Global, text: &[u8], call: Call<'_>) -> Answer {
    match call.verb() {
        b"number" => number_of(alloc, text, call),
        b"address" => shown(alloc, &address(text)),
        b"prefix" => shown(alloc, &prefix(text)),
        b"rd" => shown(alloc, &rd(text)),
        b"rt" => shown(alloc, &rt(text)),
        b"line" => parted(alloc, first_line(text)),
        b"first_word" => parted(alloc, first_word(text)),
        b"word" => nth_word(alloc, text, call),
        _ => written(alloc, text, call),
    }
}

fn laws(alloc: Global) -> Answer {
    mn_text::number_again();
    mn_text::address_again();
    mn_text::prefix_again();
    mn_text::rd_again();
    mn_text::rt_again();
    done(alloc)
}

pub(crate) fn text_row(alloc: Global, call: Call<'_>) -> Answer {
    match (call.verb(), word_at(alloc, call, 2)?) {
        (b"laws", None) => laws(alloc),
        (_, Some(text)) => asked(alloc, &text, call),
        _ => Ok(None),
    }
}
