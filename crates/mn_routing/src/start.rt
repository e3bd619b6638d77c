//! The routes of a network at its start.
ghost use Rattle.std.specs.Prelude.{◌≡◌, [], IfOk};
ghost use Rattle.mn_routing.specs.Prelude.{IsRoutes};

use crate::flying::Messages;
use crate::routes::Routes;
use mn_edges::{first_edges, no_sessions};
use mn_flight::Flight;
use mn_topo::Topology;
use std::alloc::{AllocError, Global};

impl Routes {
    /// The start: each site is attached, no session lives, and nothing is in flight.
    pub fn new(alloc: Global, topology: &Topology) -> Result<Routes, AllocError>
        ensures stands { IfOk result (λ routes. IsRoutes topology.now [] routes) }
        ensures messages { IfOk result (λ routes. routes.messages ≡ []) }
    {
        topology.laws();
        let nodes = topology.nodes().len();
        let edges = first_edges(alloc, topology)?;
        let sessions = no_sessions(alloc, nodes)?;
        let messages = Messages::new(alloc, nodes as u32 * nodes as u32)?;
        Ok(Routes {
            alloc,
            edges,
            sessions,
            messages,
        })
    }
}
