//! Runs over such a shelf, and what they leave.

use crate::failing::{Failing, FailingShelf, NEVER};
use mn_edge::MemSink;
use mn_rows::{Answer, Call, World, done};
use mn_run::{Outcome, command};
use std::alloc::{AllocError, Global};

/// The words of a run over the inputs t, s and c into the folder out.
const RUN: [&str; 5] = ["run", "t", "s", "c", "out"];

/// The inputs, the files that are told, and what they hold where nothing fails.
#[derive(Drop)]
pub(crate) struct Devices {
    topology: String,
    script: String,
    capture: Vec<u8>,
    names: Vec<String>,
    whole: Vec<Vec<u8>>,
}

/// What a run came to, and the devices after it.
#[derive(Drop)]
struct Ran {
    outcome: Outcome,
    shelf: FailingShelf,
    out: MemSink,
}

fn words(alloc: Global) -> Result<Vec<String>, AllocError> {
    let mut words = Vec::new(alloc);
    for word in RUN {
        words.push(String::from_str(alloc, word)?)?;
    }
    Ok(words)
}

/// What is there of a file whose bytes these would be.
fn told(alloc: Global, found: Option<&[u8]>, whole: &[u8]) -> Result<String, AllocError> {
    match found {
        None => String::from_str(alloc, "none"),
        Some(bytes) if bytes == whole => String::from_str(alloc, "whole"),
        Some(bytes) if whole.starts_with(bytes) => format!(in alloc; "{}", bytes.len()),
        Some(_) => String::from_str(alloc, "other"),
    }
}

/// How the run ended, and how many bytes were put.
fn ended(alloc: Global, ran: &Ran) -> Result<String, AllocError> {
    let status = ran.outcome.status();
    let put = ran.out.bytes().len();
    format!(in alloc; "{:?} {status}, put {put}:", ran.outcome)
}

impl Devices {
    /// The run over these bytes of the capture, where one call of the shelf fails, and one put, by its number from 1.
    fn runs(
        &self,
        alloc: Global,
        capture: &[u8],
        failing: Failing,
        put: Vec<u64>,
    ) -> Result<Ran, AllocError> {
        let (topology, script) = (self.topology.as_str(), self.script.as_str());
        let mut shelf = FailingShelf::new(alloc, topology, script, capture, failing)?;
        let mut out = MemSink::new(alloc, put);
        let outcome = command(alloc, &words(alloc)?, &mut shelf, &mut out);
        Ok(Ran {
            outcome,
            shelf,
            out,
        })
    }

    /// What the run left, each file beside its whole bytes.
    fn left(&self, alloc: Global, ran: &Ran) -> Answer {
        let mut text = ended(alloc, ran)?;
        for (name, whole) in self.names.iter().zip(self.whole.iter()) {
            let found = told(alloc, ran.shelf.file(name.as_str()), whole)?;
            text.push_str(" ")?;
            text.push_str(found.as_str())?;
        }
        Ok(Some(text))
    }

    /// The run where a call fails.
    fn fails(&self, alloc: Global, failing: Failing, put: Vec<u64>) -> Answer {
        let ran = self.runs(alloc, &self.capture, failing, put)?;
        self.left(alloc, &ran)
    }

    /// The run where nothing fails, and the lengths of its files, which are kept.
    fn whole_run(&mut self, alloc: Global) -> Answer {
        let ran = self.runs(alloc, &self.capture, NEVER, Vec::new(alloc))?;
        let mut text = ended(alloc, &ran)?;
        let mut whole = Vec::new(alloc);
        for name in &self.names {
            let found = ran.shelf.file(name.as_str()).unwrap_or(&[]);
            text.push_str(format!(in alloc; " {}", found.len())?.as_str())?;
            whole.push(Vec::from_slice(alloc, found)?)?;
        }
        self.whole = whole;
        Ok(Some(text))
    }

    /// The run over the first bytes of the capture, and what it put.
    fn cut(&self, alloc: Global, length: u64) -> Answer {
        let end = (length as usize).min(self.capture.len());
        let ran = self.runs(alloc, &self.capture[..end], NEVER, Vec::new(alloc))?;
        let Some(mut text) = self.left(alloc, &ran)? else {
            return Ok(None);
        };
        if let Ok(put) = str::from_utf8(ran.out.bytes()) {
            text.push_str(format!(in alloc; " {put:?}")?.as_str())?;
        }
        Ok(Some(text))
    }
}

impl Devices {
    /// The capture: bytes, and zeros behind them.
    fn set_capture(&mut self, alloc: Global, call: Call<'_>) -> Answer {
        let (Some(mut bytes), Some(zeros)) = (call.bytes(alloc, 1)?, call.number_u32(2)) else {
            return Ok(None);
        };
        for _ in 0..zeros {
            bytes.push(0)?;
        }
        self.capture = bytes;
        done(alloc)
    }

    /// More lines of the script, all alike.
    fn say_again(&mut self, alloc: Global, call: Call<'_>) -> Answer {
        let (Some(times), Ok(line)) = (call.number_u32(1), str::from_utf8(call.rest(2))) else {
            return Ok(None);
        };
        for _ in 0..times {
            self.script.push_str(line)?;
            self.script.push_str("\n")?;
        }
        done(alloc)
    }

    /// The files that are told.
    fn set_files(&mut self, alloc: Global, call: Call<'_>) -> Answer {
        let Ok(rest) = str::from_utf8(call.rest(1)) else {
            return Ok(None);
        };
        let mut names = Vec::new(alloc);
        for name in rest.split_whitespace() {
            names.push(format!(in alloc; "out/{name}")?)?;
        }
        self.names = names;
        done(alloc)
    }

    /// An input, the files that are told, or the run where nothing fails.
    fn set(&mut self, alloc: Global, call: Call<'_>) -> Answer {
        match call.part() {
            b"topology" => {
                self.topology = String::from_str(alloc, call.text())?;
                done(alloc)
            }
            b"script" => {
                self.script = String::from_str(alloc, call.text())?;
                done(alloc)
            }
            b"again" => self.say_again(alloc, call),
            b"capture" => self.set_capture(alloc, call),
            b"files" => self.set_files(alloc, call),
            b"run" => self.whole_run(alloc),
            _ => Ok(None),
        }
    }

    /// The run where the shelf's call of this number fails, of the kind that the row names.
    fn shelf_fails(&self, alloc: Global, kind: &[u8], number: u64) -> Answer {
        let mut failing = NEVER;
        match kind {
            b"fetch" => failing.fetch = number,
            b"begin" => failing.begin = number,
            b"append" => failing.append = number,
            _ => return Ok(None),
        }
        self.fails(alloc, failing, Vec::new(alloc))
    }

    /// The run where the call of this number fails, or over so many bytes of the capture.
    fn try_one(&self, alloc: Global, kind: &[u8], number: u64) -> Answer {
        match kind {
            b"put" => self.fails(alloc, NEVER, vec![in alloc; number]?),
            b"cut" => self.cut(alloc, number),
            _ => self.shelf_fails(alloc, kind, number),
        }
    }
}

impl World for Devices {
    fn new(alloc: Global) -> Result<Devices, AllocError> {
        Ok(Devices {
            topology: String::new(alloc),
            script: String::new(alloc),
            capture: Vec::new(alloc),
            names: Vec::new(alloc),
            whole: Vec::new(alloc),
        })
    }

    fn answer(&mut self, alloc: Global, call: Call<'_>) -> Answer {
        match call.part() {
            kind @ (b"fetch" | b"begin" | b"append" | b"put" | b"cut") => {
                match call.number(1, 1_000_000) {
                    Some(number) => self.try_one(alloc, kind, number),
                    None => Ok(None),
                }
            }
            _ => self.set(alloc, call),
        }
    }
}
