//! `mn_net_rows`: rows of calls on a network, and of lines of scripts that are played on it.
//!
//! - `start`: the network of the topology in the text, or where there is no text that of the last topology once more
//! - `record BYTES`: the packet of record 1, the only one of the capture; it is injected whatever record a step names
//! - `net ..`: steps on the network alone, and what it tells (`net`, `driven`, `told`)
//! - `script ..`: lines played over a watch in memory, which fails at a call of one's choice (`script`, `recorder`)
//!
//! Nodes, links and sites are named by number, from 0.
#![tactic(auto)]

mod driven;
mod net;
mod recorder;
mod script;
mod told;

use crate::net::net_row;
use crate::script::{Playing, script_row};
use mn_net::Net;
use mn_rows::{Answer, Call, World, done, run, shown};
use mn_topo_toml::{TopoBad, read_topology};
use std::alloc::{AllocError, Global};
use std::io;
use std::process::ExitCode;

/// A network, and how a script was played on it.
#[derive(Drop)]
struct Network {
    /// The topology from which a network is made.
    topology: String,
    record: Vec<u8>,
    net: Option<Net>,
    playing: Playing,
}

fn made(alloc: Global, topology: &str) -> Result<Result<Net, TopoBad>, AllocError> {
    match read_topology(alloc, topology.as_bytes()) {
        Ok(topology) => Ok(Ok(Net::new(alloc, topology)?)),
        Err(bad) => Ok(Err(bad)),
    }
}

impl Network {
    fn start(&mut self, alloc: Global, topology: &str) -> Answer {
        if !topology.is_empty() {
            self.topology = String::from_str(alloc, topology)?;
        }
        match made(alloc, self.topology.as_str())? {
            Ok(net) => {
                self.net = Some(net);
                done(alloc)
            }
            Err(bad) => shown(alloc, &Err::<(), TopoBad>(bad)),
        }
    }

    fn set_record(&mut self, alloc: Global, call: Call<'_>) -> Answer {
        match call.bytes(alloc, 1)? {
            Some(bytes) => {
                self.record = bytes;
                done(alloc)
            }
            None => Ok(None),
        }
    }

    /// What is asked of the network, once there is one.
    fn ask(&mut self, alloc: Global, call: Call<'_>) -> Answer {
        let Some(net) = &mut self.net else {
            return Ok(None);
        };
        match call.part() {
            b"net" => net_row(alloc, net, &self.record, call),
            b"script" => script_row(alloc, net, &mut self.playing, &self.record, call),
            _ => Ok(None),
        }
    }
}

impl World for Network {
    fn new(alloc: Global) -> Result<Network, AllocError> {
        Ok(Network {
            topology: String::new(alloc),
            record: Vec::new(alloc),
            net: None,
            playing: Playing::new(alloc),
        })
    }

    fn answer(&mut self, alloc: Global, call: Call<'_>) -> Answer {
        match call.part() {
            b"start" => self.start(alloc, call.text()),
            b"record" => self.set_record(alloc, call),
            _ => self.ask(alloc, call),
        }
    }
}

fn main(rt: HostRuntime) -> io::Result<ExitCode> {
    run::<Network>(&rt)
}
