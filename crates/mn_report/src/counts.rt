//! How many nodes and links there are.
ghost use Rattle.std.specs.Prelude.{◌≡◌, length};

use mn_net::Net;

/// How many links there are: at most 1,024.
pub(crate) fn link_count(net: &Net) -> u16
    ensures { result ≡ length net.now.topology.links }
{
    let topology = net.topology();
    topology.laws();
    topology.links().len() as u16
}

/// How many nodes there are: at most 256.
pub(crate) fn node_count(net: &Net) -> u16
    ensures { result ≡ length net.now.topology.loopbacks }
{
    let topology = net.topology();
    topology.laws();
    topology.nodes().len() as u16
}
