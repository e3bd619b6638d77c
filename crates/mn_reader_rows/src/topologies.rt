//! Topologies, read and refused.
use crate::escapes::unescaped;
use crate::network::network_row;
use mn_rows::{Answer, Call, done};
use mn_topo::Topology;
use mn_topo_toml::{TopoBad, read_topology};
use std::alloc::{AllocError, Global};
use std::fmt::Write;

/// The most times that a text is repeated.
const TIMES: u64 = 100_000;

/// What stands before the next text, and the last topology that was read.
#[derive(Drop)]
pub(crate) struct Topologies {
    front: String,
    last: Option<Topology>,
}

impl Topologies {
    pub(crate) fn new(alloc: Global) -> Topologies {
        Topologies {
            front: String::new(alloc),
            last: None,
        }
    }

    pub(crate) fn last(&self) -> Option<&Topology> {
        self.last.as_ref()
    }

    /// Reads a topology, which is the last one then, and answers how many nodes, links, VRFs and sites it has, or the rule and
    /// the place of its refusal.
    pub(crate) fn read(&mut self, alloc: Global, bytes: &[u8]) -> Answer {
        match read_topology(alloc, bytes) {
            Err(TopoBad::NoMemory) => Err(AllocError),
            Err(TopoBad::Refused { rule, place }) => {
                Ok(Some(format!(in alloc; "{rule:?} at {place:?}")?))
            }
            Ok(topology) => {
                let nodes = topology.nodes().len();
                let links = topology.links().len();
                let vrfs = topology.vrfs().len();
                let sites = topology.sites().len();
                self.last = Some(topology);
                Ok(Some(format!(in alloc;
                    "{nodes} nodes, {links} links, {vrfs} vrfs, {sites} sites"
                )?))
            }
        }
    }

    /// The text behind the front, read.
    fn read_behind(&mut self, alloc: Global, text: &str) -> Answer {
        let mut whole = String::from_str(alloc, self.front.as_str())?;
        whole.push_str(text)?;
        self.read(alloc, whole.as_bytes())
    }

    /// Appends the text to the front as many times as the third word says.
    fn repeat(&mut self, alloc: Global, call: Call<'_>) -> Answer {
        let Some(times) = call.number(2, TIMES) else {
            return Ok(None);
        };
        for i in 0..times {
            put_copy(&mut self.front, call.text(), i)?;
        }
        done(alloc)
    }
}

/// Appends a text, in which `%i` stands for a number, `%h` and `%l` for its high and its low byte, and `%n` for the node of 256 to
/// which the link of this number leads from node `%l`.
fn put_copy(front: &mut String, text: &str, i: u64) -> Result<(), AllocError> {
    let mut is_mark = false;
    for c in text.chars() {
        match (is_mark, c) {
            (false, '%') => {}
            (false, other) => front.push(other)?,
            (true, 'i') => write!(front, "{i}")?,
            (true, 'h') => {
                let high = i / 256;
                write!(front, "{high}")?;
            }
            (true, 'l') => {
                let low = i % 256;
                write!(front, "{low}")?;
            }
            (true, 'n') => {
                let next = (i % 256 + 1 + i / 256) % 256;
                write!(front, "{next}")?;
            }
            (true, other) => front.push(other)?,
        }
        is_mark = !is_mark && c == '%';
    }
    Ok(())
}

/// What the rest of the row spells, read without the front.
fn read_line(alloc: Global, topologies: &mut Topologies, call: Call<'_>) -> Answer {
    match unescaped(alloc, call.rest(2))? {
        Some(bytes) => topologies.read(alloc, &bytes),
        None => Ok(None),
    }
}

pub(crate) fn topology_row(alloc: Global, topologies: &mut Topologies, call: Call<'_>) -> Answer {
    match call.verb() {
        b"front" => {
            topologies.front = String::from_str(alloc, call.text())?;
            done(alloc)
        }
        b"more" => {
            topologies.front.push_str(call.text())?;
            done(alloc)
        }
        b"repeat" => topologies.repeat(alloc, call),
        b"read" => topologies.read_behind(alloc, call.text()),
        b"line" => read_line(alloc, topologies, call),
        _ => match topologies.last() {
            Some(topology) => network_row(alloc, topology, call),
            None => Ok(None),
        },
    }
}
