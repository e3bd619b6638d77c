//! The parts of a network.
use mn_net_tally::Tally;
use mn_routing::Routes;
use mn_topo::Topology;
use mn_transit::Transit;
use mn_transport::Transport;

/// What a network consists of, as its questions see it.
#[derive(Clone, Copy)]
pub struct Parts<'a> {
    pub topology: &'a Topology,
    /// Links, nodes and LDP.
    pub transport: &'a Transport,
    /// Edges, VRFs and BGP.
    pub routes: &'a Routes,
    /// Packets and frames.
    pub transit: &'a Transit,
    /// What is counted beside these.
    pub tally: &'a Tally,
}
