//! Prefixes as whole bytes, and which addresses they contain.
use crate::bytes::WORDS;
use mn_prefix::Prefix;
use mn_rows::{Answer, Call, Slashed, done, shown};
use std::alloc::{AllocError, Global};
use std::fmt::Write;

/// The prefixes from a word on, in their order.
fn sorted(alloc: Global, call: Call<'_>, k: usize) -> Result<String, AllocError> {
    let mut prefixes = Vec::new(alloc);
    for at in k..WORDS {
        match call.prefix(at) {
            Some(prefix) => prefixes.push(prefix)?,
            None => break,
        }
    }
    prefixes.sort()?;
    let mut text = String::new(alloc);
    for prefix in &prefixes {
        if !text.is_empty() {
            text.push(' ')?;
        }
        write!(text, "{}", Slashed(*prefix))?;
    }
    Ok(text)
}

/// The address, and whether so many bits of it are a prefix.
fn is_prefix(call: Call<'_>) -> Option<bool> {
    Some(Prefix::new(call.address(2)?, call.number_u8(3)?).is_some())
}

fn contains(call: Call<'_>) -> Option<bool> {
    Some(call.prefix(2)?.contains(call.address(3)?))
}

fn laws(alloc: Global) -> Answer {
    mn_prefix::longest_of_a_table::<u8>();
    mn_prefix::contains_its_block();
    mn_prefix::orders_by_address_then_length();
    mn_prefix::octets_tell_a_prefix();
    done(alloc)
}

pub(crate) fn prefix_row(alloc: Global, call: Call<'_>) -> Answer {
    match (call.verb(), call.prefix(2)) {
        (b"is", _) => shown(alloc, &is_prefix(call)),
        (b"contains", _) => shown(alloc, &contains(call)),
        (b"address", Some(prefix)) => shown(alloc, &prefix.address()),
        (b"length", Some(prefix)) => shown(alloc, &prefix.length()),
        (b"sorted", _) => Ok(Some(sorted(alloc, call, 2)?)),
        (b"laws", _) => laws(alloc),
        _ => Ok(None),
    }
}
