//! The loop over rows.
use crate::printed::Answer;
use crate::words::Call;
use std::alloc::{AllocError, Global};
use std::process::ExitCode;
use std::{env, fs, io};

/// What the rows of one file speak of.
pub trait World: Drop + Sized {
    fn new(alloc: Global) -> Result<Self, AllocError>;

    /// What a call answers.
    fn answer(&mut self, alloc: Global, call: Call<'_>) -> Answer;
}

/// How many rows there were, and how many of them were answered otherwise.
#[derive(Clone, Copy)]
struct Tally {
    rows: u64,
    differ: u64,
}

/// A line of a file.
#[derive(Clone, Copy)]
struct Place<'a> {
    file: &'a str,
    line: u64,
}

/// Whether a row is answered as it says: `_` is any answer but an error.
fn is_met(found: &str, wanted: &str) -> bool {
    match wanted {
        "_" => !found.starts_with("Err("),
        _ => found == wanted,
    }
}

/// What is wrong with a row, if anything is.
fn fault_of<W: World>(
    alloc: Global,
    world: &mut W,
    row: &str,
    text: &str,
) -> Result<Option<String>, AllocError> {
    let Some((call, wanted)) = row.split_once(" -> ") else {
        return Ok(Some(format!(in alloc; "{row}: no ` -> `")?));
    };
    let Some(found) = world.answer(alloc, Call::new(call, text))? else {
        return Ok(Some(format!(in alloc; "{call}: no such call")?));
    };
    if is_met(found.as_str(), wanted) {
        return Ok(None);
    }
    let fault = format!(in alloc; "{call}: gave {found}, expected {wanted}")?;
    Ok(Some(fault))
}

/// Counts a line that differs, and tells why.
fn tell(rt: &HostRuntime, place: Place<'_>, fault: &str, tally: &mut Tally) -> io::Result<()> {
    tally.differ = tally.differ.saturating_add(1);
    println!(rt; "{}:{}: {fault}", place.file, place.line)
}

/// Counts a row, and tells where and how it differs.
fn try_row<W: World>(
    rt: &HostRuntime,
    world: &mut W,
    place: Place<'_>,
    row: &str,
    text: &str,
    tally: &mut Tally,
) -> io::Result<()> {
    tally.rows = tally.rows.saturating_add(1);
    match fault_of(rt.alloc(), world, row, text)? {
        Some(fault) => tell(rt, place, fault.as_str(), tally),
        None => Ok(()),
    }
}

/// Keeps a line of text for the next row.
fn add_line(text: &mut String, line: &str) -> Result<(), AllocError> {
    text.push_str(line.strip_prefix("| ").unwrap_or(""))?;
    text.push('\n')
}

/// What a file holds. One that can't be read is named on standard error.
fn content_of(rt: &HostRuntime, file: &str) -> io::Result<String> {
    match fs::read_to_string(rt, file) {
        Ok(content) => Ok(content),
        Err(error) => {
            eprintln!(rt; "{file}: {error}")?;
            Err(error)
        }
    }
}

/// Goes through the rows of a file, over a world of its own.
fn try_file<W: World>(rt: &HostRuntime, file: &str, tally: &mut Tally) -> io::Result<()> {
    let content = content_of(rt, file)?;
    let mut world = W::new(rt.alloc())?;
    let mut text = String::new(rt.alloc());
    let mut place = Place { file, line: 0 };
    for line in content.lines() {
        place.line = place.line.saturating_add(1);
        if line.starts_with('|') {
            add_line(&mut text, line)?;
        } else if !line.is_empty() && !line.starts_with('#') {
            try_row(rt, &mut world, place, line, text.as_str(), tally)?;
            text = String::new(rt.alloc());
        }
    }
    match text.is_empty() {
        true => Ok(()),
        false => tell(rt, place, "text that no row takes", tally),
    }
}

/// Goes through the files that the program's words name, prints each row that differs, and at the end how many rows there
/// were and how many differ. The status is 1 where one does. A file that can't be read ends the run, and is named on standard
/// error.
pub fn run<W: World>(rt: &HostRuntime) -> io::Result<ExitCode> {
    let mut tally = Tally { rows: 0, differ: 0 };
    for file in env::args(rt)?.skip(1) {
        try_file::<W>(rt, file.as_str(), &mut tally)?;
    }
    println!(rt; "{} rows, {} differ", tally.rows, tally.differ)?;
    Ok(match tally.differ {
        0 => ExitCode::SUCCESS,
        _ => ExitCode::FAILURE,
    })
}
