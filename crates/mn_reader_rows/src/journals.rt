//! Journals over the last topology, read and written.
use crate::escapes::{escaped, unescaped};
use crate::topologies::Topologies;
use mn_journal::{JournalBad, put_entry, read_journal};
use mn_rows::{Answer, Call};
use mn_script::entry_fits;
use mn_topo::{Damaged, JournalEntry, Topology};
use std::alloc::{AllocError, Global};
use std::fmt::Write;

fn show_entry(text: &mut String, entry: &JournalEntry) -> Result<(), AllocError> {
    let tick = entry.tick;
    let step = entry.step;
    let damaged = entry.damaged;
    write!(text, "{tick} {step:?}")?;
    match damaged {
        Damaged::Undamaged => Ok(()),
        _ => write!(text, " {damaged:?}"),
    }
}

/// Each entry, or `nothing`.
fn listed(alloc: Global, entries: &[JournalEntry]) -> Result<String, AllocError> {
    let mut text = String::new(alloc);
    for entry in entries {
        if !text.is_empty() {
            text.push_str(", ")?;
        }
        show_entry(&mut text, entry)?;
    }
    if entries.is_empty() {
        text.push_str("nothing")?;
    }
    Ok(text)
}

fn refused(alloc: Global, bad: JournalBad) -> Answer {
    match bad {
        JournalBad::NoMemory => Err(AllocError),
        JournalBad::BadLine { line } => Ok(Some(format!(in alloc; "BadLine at {line}")?)),
    }
}

fn reading(alloc: Global, topology: &Topology, bytes: &[u8]) -> Answer {
    match read_journal(alloc, topology, bytes) {
        Ok(entries) => Ok(Some(listed(alloc, &entries)?)),
        Err(bad) => refused(alloc, bad),
    }
}

/// The entries of a journal, written behind a bar.
fn written(alloc: Global, topology: &Topology, bytes: &[u8]) -> Answer {
    let entries = match read_journal(alloc, topology, bytes) {
        Ok(entries) => entries,
        Err(bad) => return refused(alloc, bad),
    };
    let mut out = Vec::from_slice(alloc, b"|")?;
    for entry in &entries {
        if !entry_fits(topology, entry) {
            return Ok(None);
        }
        put_entry(&mut out, topology, entry)?;
    }
    Ok(Some(escaped(alloc, &out)?))
}

pub(crate) fn journal_row(alloc: Global, topologies: &Topologies, call: Call<'_>) -> Answer {
    let (Some(topology), Some(bytes)) = (topologies.last(), unescaped(alloc, call.rest(2))?) else {
        return Ok(None);
    };
    match call.verb() {
        b"read" => reading(alloc, topology, &bytes),
        b"write" => written(alloc, topology, &bytes),
        _ => Ok(None),
    }
}
