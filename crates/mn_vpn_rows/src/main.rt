//! `mn_vpn_rows`: rows of calls on what an edge knows of its customers' routes.
//!
//! Each file of `data/` is of one part, and the part's module has the calls. `new` alone makes all parts anew.
//!
//! - `targets`: sets of route targets
//! - `tables`: the longest match, in two kinds of tables
//! - `rib`: what was received from a peer
//! - `vrf`: a VRF; `routes`: its routes as words
//! - `pe`: an edge: imports, exports, packets that enter
#![tactic(auto)]

mod pe;
mod rib;
mod routes;
mod tables;
mod targets;
mod vrf;

use mn_lpm::{LengthTable, PlainTable};
use mn_rib_in::RibIn;
use mn_rows::{Answer, Call, World, done, run};
use mn_targets::Targets;
use pe::{Edge, edge_row};
use rib::rib_row;
use std::alloc::{AllocError, Global};
use std::io;
use std::process::ExitCode;
use tables::{level_row, table_row};
use targets::target_row;
use vrf::{Held, vrf_row};

/// What the rows speak of.
#[derive(Drop)]
struct Vpn {
    targets: Targets,
    plain: PlainTable<u16>,
    levels: LengthTable<u16>,
    rib: RibIn,
    held: Held,
    edge: Edge,
}

impl World for Vpn {
    fn new(alloc: Global) -> Result<Vpn, AllocError> {
        Ok(Vpn {
            targets: Targets::new(alloc),
            plain: PlainTable::new(alloc),
            levels: LengthTable::new(alloc),
            rib: RibIn::new(alloc),
            held: Held::new(alloc),
            edge: Edge::new(),
        })
    }

    fn answer(&mut self, alloc: Global, call: Call<'_>) -> Answer {
        match call.part() {
            b"new" => {
                *self = Vpn::new(alloc)?;
                done(alloc)
            }
            b"targets" => target_row(alloc, &mut self.targets, call),
            b"plain" => table_row(alloc, &mut self.plain, call),
            b"levels" => match call.verb() {
                b"level" => level_row(alloc, &self.levels, call),
                _ => table_row(alloc, &mut self.levels, call),
            },
            b"rib" => rib_row(alloc, &mut self.rib, call),
            b"vrf" => vrf_row(alloc, &mut self.held, call),
            b"pe" => edge_row(alloc, &mut self.edge, call),
            _ => Ok(None),
        }
    }
}

fn main(rt: HostRuntime) -> io::Result<ExitCode> {
    run::<Vpn>(&rt)
}
