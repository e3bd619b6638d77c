//! The paths as callers see them.
ghost use Rattle.std.specs.Prelude.{◌≡◌, ◌<◌, [], ◌∷◌, ◌++◌, length, slice_set, OnOk, OnErr};
ghost use Rattle.mn_paths.specs.Visits.{path_of, further};

use crate::table::Table;
use mn_base::NodeNo;
use std::alloc::{AllocError, Global};
use std::marker::Model;

/// The paths of packets, by packet. Contracts see of each the nodes at which the packet was, and how many more there is room for.
#[derive(Drop)]
pub struct Paths {
    table: Table,
}

impl Model for Paths {
    ghost use Rattle.std.specs.Prelude.{List};
    ghost use Rattle.mn_paths.specs.Visits.{Visits};
    ghost use Rattle.mn_paths.specs.Whole.{visits_in, IsWhole};

    ghost Value = { List Visits };

    ghost view = { λ p. visits_in p.table };

    ghost invariant = { λ p. IsWhole p.table };
}

impl Paths {
    /// No path.
    pub fn new(alloc: Global) -> Paths
        ensures { result ≡ [] }
    {
        Paths {
            table: Table::new(alloc),
        }
    }

    /// One more path: the node where the packet enters, with room for so many more. This alone takes memory.
    pub fn start(&mut self, node: NodeNo, room: u8) -> Result<(), AllocError>
        ensures ok { OnOk result (self.new ≡ self.old ++ record { nodes = node ∷ []; room = room } ∷ []) }
        ensures err { OnErr result (self.new ≡ self.old) }
    {
        self.table.start(node, room)
    }

    /// The packet is at one node more.
    pub fn visit(&mut self, packet: u32, node: NodeNo)
        requires packet { packet < length self.old }
        requires room { 0 < (path_of self.old packet).room }
        ensures { self.new ≡ slice_set self.old packet (further (path_of self.old packet) node) }
    {
        self.table.visit(packet, node);
    }

    /// The nodes at which a packet was, from the entry on.
    pub fn nodes(&self, packet: u32) -> &[NodeNo]
        requires { packet < length self.now }
        ensures { result.now ≡ (path_of self.now packet).nodes }
    {
        self.table.nodes(packet)
    }
}
