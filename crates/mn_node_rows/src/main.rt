//! `mn_node_rows`: rows of calls on what one node knows of the network and does with labels.
//!
//! Each file of `data/` is of one part, and the part's module has the calls. `new` alone makes all parts anew.
//!
//! - `numbers`: identifiers of eight bytes, and lists
//! - `links`: the changes of links, what a node has learned of them, and tables of paths
//! - `trees`: least walks, and those that are mended
//! - `labels`, `frames`: labels given, and packets forwarded by label
//! - `routers`: three routers in a row, driven by hand
#![tactic(auto)]

mod frames;
mod labels;
mod links;
mod mended; // trees that are mended
mod numbers;
mod routers;
mod trees;

use frames::frame_row;
use labels::{OfFour, label_row};
use links::{Links, link_row};
use mended::{Mended, mended_row};
use mn_rows::{Answer, Call, World, done, run};
use numbers::{Numbers, number_row};
use routers::{Routers, router_row};
use std::alloc::{AllocError, Global};
use std::io;
use std::process::ExitCode;
use trees::{Trees, tree_row};

/// What the rows speak of.
#[derive(Drop)]
struct Node {
    numbers: Numbers,
    links: Links,
    trees: Trees,
    mended: Mended,
    labels: OfFour,
    routers: Routers,
}

impl World for Node {
    fn new(alloc: Global) -> Result<Node, AllocError> {
        Ok(Node {
            numbers: Numbers::new(alloc),
            links: Links::new(alloc)?,
            trees: Trees::new(),
            mended: Mended::new(),
            labels: OfFour::new(alloc)?,
            routers: Routers::new(alloc)?,
        })
    }

    fn answer(&mut self, alloc: Global, call: Call<'_>) -> Answer {
        match call.part() {
            b"new" => {
                *self = Node::new(alloc)?;
                done(alloc)
            }
            b"list" | b"rd" | b"rt" => number_row(alloc, &mut self.numbers, call),
            b"links" => link_row(alloc, &mut self.links, call),
            b"spf" => tree_row(alloc, &mut self.trees, call),
            b"mended" => mended_row(alloc, &mut self.mended, call),
            b"labels" => label_row(alloc, &mut self.labels, call),
            b"frame" => frame_row(alloc, call),
            b"lsr" => router_row(alloc, &mut self.routers, call),
            _ => Ok(None),
        }
    }
}

fn main(rt: HostRuntime) -> io::Result<ExitCode> {
    run::<Node>(&rt)
}
