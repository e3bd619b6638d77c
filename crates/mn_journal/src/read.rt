//! From the bytes of a journal to its entries.
ghost use Rattle.std.specs.Prelude.{◌≡◌, [], true, List, All, IfOk, IfSome};
ghost use Rattle.std.specs.List.{flat_map};
ghost use Rattle.mn_journal.specs.Prelude.{words, line_says, line_words, entry_fits, JournalEntry};
ghost use Rattle.mn_script.specs.Words.{texts};
ghost use Rattle.mn_journal.specs.Lines.{line_of, IsEntry};
ghost use Rattle.mn_journal.specs.Reading.{asked_by, entry_at, Again, Says, Reads, Takes};

use crate::JournalBad;
use crate::write::put_text;
use mn_entry::{ending, mark};
use mn_script::{Command, line_says, line_words};
use mn_text::{first_line, first_word, number_up_to};
use mn_topo::{Damaged, JournalEntry, Topology};
use std::alloc::{AllocError, Global};

/// The entry at a tick of the step or the damage that words say, if they say one.
#[tactic(auto, using(mn_entry::proofs::Told::damages_fit))]
fn entry_at(topology: &Topology, tick: u64, words: &[&[u8]]) -> Option<JournalEntry>
    ensures value { result ≡ entry_at tick (line_says topology.now (texts words.now)) }
    ensures fits { IfSome result (λ entry. entry_fits topology.now entry ≡ true) }
{
    match line_says(topology, words) {
        Ok(Some(Command::Do(step))) => {
            let damaged = Damaged::Undamaged;
            Some(JournalEntry {
                tick,
                step,
                damaged,
            })
        }
        Ok(Some(Command::Damage(damage))) => Some(JournalEntry {
            tick,
            step: ending(&damage),
            damaged: mark(&damage),
        }),
        _ => None,
    }
}

/// The entry at a tick of what a script's line says, if it says one.
fn entry_in(
    alloc: Global,
    topology: &Topology,
    tick: u64,
    line: &[u8],
) -> Result<Option<JournalEntry>, AllocError>
    ensures value { IfOk result (λ found. found ≡ entry_at tick (line_says topology.now (line_words line.now))) }
    ensures fits { IfOk result (λ found. IfSome found (λ entry. entry_fits topology.now entry ≡ true)) }
{
    let words = line_words(alloc, line)?;
    Ok(entry_at(topology, tick, &words))
}

/// The entry for which a line's words ask.
fn asked(
    alloc: Global,
    topology: &Topology,
    line: &[u8],
) -> Result<Option<JournalEntry>, AllocError>
    ensures value { IfOk result (λ found. found ≡ asked_by topology.now (words line.now)) }
    ensures fits { IfOk result (λ found. IfSome found (λ entry. entry_fits topology.now entry ≡ true)) }
{
    let Some((word, rest)) = first_word(line) else {
        return Ok(None);
    };
    let Some(tick) = number_up_to(word, u64::MAX) else {
        return Ok(None);
    };
    entry_in(alloc, topology, tick, rest)
}

/// The entry whose text the line is. The text is written into `scratch`.
fn read_line(
    topology: &Topology,
    line: &[u8],
    scratch: &mut Vec<u8>,
) -> Result<Option<JournalEntry>, AllocError>
    ensures { IfOk result (λ found. Says topology.now line.now found) }
{
    topology.laws();
    let Some(entry) = asked(*scratch.allocator(), topology, line)? else {
        return Ok(None);
    };
    scratch.clear();
    put_text(scratch, topology, &entry)?;
    if scratch.as_slice() == line {
        Ok(Some(entry))
    } else {
        Ok(None)
    }
}

/// The entries so far, and room for the text of one.
#[derive(Drop)]
struct Reading {
    entries: Vec<JournalEntry>,
    scratch: Vec<u8>,
}

impl Reading {
    fn new(alloc: Global) -> Reading
        ensures { result.entries.items ≡ [] }
    {
        Reading {
            entries: Vec::new(alloc),
            scratch: Vec::new(alloc),
        }
    }

    /// Takes the entry whose text the line is, and tells whether there is one.
    fn take(&mut self, topology: &Topology, line: &[u8]) -> Result<bool, AllocError>
        ensures { IfOk result (Takes topology.now line.now self.old.entries.items self.new.entries.items) }
    {
        match read_line(topology, line, &mut self.scratch)? {
            Some(
                JournalEntry {
                    tick,
                    step,
                    damaged,
                },
            ) => {
                self.entries.push(JournalEntry {
                    tick,
                    step,
                    damaged,
                })?;
                Ok(true)
            }
            None => Ok(false),
        }
    }
}

/// The entries of a journal, in order.
///
/// Each line is to be the text of a tick and of a step or a damage that fits, just as `put_entry` writes it; a CR right before
/// the LF is passed over, and the last line may lack its LF. `BadLine` names the first line that isn't.
pub fn read_journal(
    alloc: Global,
    topology: &Topology,
    bytes: &[u8],
) -> Result<Vec<JournalEntry>, JournalBad>
    ensures reads { Reads result topology.now bytes.now }
    ensures again { (entries : List JournalEntry) → All (IsEntry topology.now) entries →
        bytes.now ≡ flat_map (line_of topology.now) entries → Again result entries }
{
    topology.laws();
    let mut reading = Reading::new(alloc);
    let mut rest = bytes;
    'lines: while let Some((line, next)) = first_line(rest) {
        if !reading.take(topology, line)? {
            let line = reading.entries.len() as u64 + 1;
            return Err(JournalBad::BadLine { line });
        }
        rest = next;
    }
    Ok(reading.entries)
}
