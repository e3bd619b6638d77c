//! `mn_reader_rows`: rows of calls on the readers of inputs and on the devices from which they read, each with the answer that it
//! must give.
//!
//! | File | Parts of its rows |
//! |---|---|
//! | `words` | `text` |
//! | `topologies`, `network`, `steps` | `topo` |
//! | `scripts`, `journals` | `script`, `script_lines`, `journal` |
//! | `failures` | `failures`, `failures_exchange` |
//! | `generated` | `gen` |
//! | `devices`, `memory`, `short`, `gathers` | `shelf`, `sink`, `short`, `gather` |
//!
//! `escapes` has bytes of a row that aren't printed, as `\n` and `\xFF`.
#![tactic(auto)]

mod devices;
mod escapes;
mod failures;
mod gathers;
mod generated;
mod journals;
mod memory;
mod network;
mod scripts;
mod short;
mod steps;
mod topologies;
mod words;

use failures::{exchange_row, failures_row};
use gathers::{Gathering, gather_row};
use generated::generated_row;
use journals::journal_row;
use memory::{Memory, shelf_row, sink_row};
use mn_rows::{Answer, Call, World, run};
use scripts::{lines_row, script_row};
use short::{Short, short_row};
use std::alloc::{AllocError, Global};
use std::io;
use std::process::ExitCode;
use topologies::{Topologies, topology_row};
use words::text_row;

/// What the rows speak of.
#[derive(Drop)]
struct Readers {
    topologies: Topologies,
    memory: Memory,
    short: Short,
    gathering: Option<Gathering>,
}

impl World for Readers {
    fn new(alloc: Global) -> Result<Readers, AllocError> {
        Ok(Readers {
            topologies: Topologies::new(alloc),
            memory: Memory::new(alloc)?,
            short: Short::new(alloc),
            gathering: None,
        })
    }

    fn answer(&mut self, alloc: Global, call: Call<'_>) -> Answer {
        match call.part() {
            b"text" => text_row(alloc, call),
            b"topo" => topology_row(alloc, &mut self.topologies, call),
            b"script" => script_row(alloc, &self.topologies, call),
            b"script_lines" => lines_row(alloc, call),
            b"failures" => failures_row(alloc, &self.topologies, call),
            b"failures_exchange" => exchange_row(alloc, &self.topologies, call),
            b"journal" => journal_row(alloc, &self.topologies, call),
            b"gen" => generated_row(alloc, &mut self.topologies, call),
            b"shelf" => shelf_row(alloc, &mut self.memory, call),
            b"sink" => sink_row(alloc, &mut self.memory, call),
            b"short" => short_row(alloc, &mut self.short, call),
            b"gather" => gather_row(alloc, &mut self.gathering, call),
            _ => Ok(None),
        }
    }
}

fn main(rt: HostRuntime) -> io::Result<ExitCode> {
    run::<Readers>(&rt)
}
