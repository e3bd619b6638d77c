//! What the words of a line name.
ghost use Rattle.std.specs.Prelude.{◌≡◌, ◌≤◌, ◌<◌, ◌&&◌, true, length, IfOk};
ghost use Rattle.mn_base.specs.Numbers.{has_rt_form};
ghost use Rattle.mn_topo.specs.Steps.{are_edges};
ghost use Rattle.mn_script.specs.Words.{texts};
ghost use Rattle.mn_script.specs.Operands.{number_in, prefix_in, target_in, node_in, vrf_in, site_in, link_in, edges_in};

use crate::ScriptRule;
use mn_base::{LinkNo, NodeNo, Rt, SiteNo, VrfNo};
use mn_prefix::Prefix;
use mn_text::{number_up_to, prefix, rt};
use mn_topo::Topology;
use mn_wiring::Dir;

/// A number from `least` to `most`: S3 otherwise.
pub fn number_in(word: &[u8], least: u32, most: u32) -> Result<u32, ScriptRule>
    ensures value { result ≡ number_in word.now least most }
    ensures within { IfOk result (λ n. (least ≤ n) × (n ≤ most)) }
{
    match number_up_to(word, u64::from(most)) {
        Some(number) if number >= u64::from(least) => Ok(number as u32),
        _ => Err(ScriptRule::BadNumber),
    }
}

/// A prefix: S3 otherwise.
pub fn prefix_in(word: &[u8]) -> Result<Prefix, ScriptRule>
    ensures { result ≡ prefix_in word.now }
{
    match prefix(word) {
        Ok(found) => Ok(found),
        Err(_) => Err(ScriptRule::BadNumber),
    }
}

/// A route target: S3 otherwise.
pub fn target_in(word: &[u8]) -> Result<Rt, ScriptRule>
    ensures value { result ≡ target_in word.now }
    ensures form { IfOk result (λ target. has_rt_form target.0 ≡ true) }
{
    match rt(word) {
        Ok(found) => Ok(found),
        Err(_) => Err(ScriptRule::BadNumber),
    }
}

/// The node of the name: S4 where there is none.
pub fn node_in(topology: &Topology, word: &[u8]) -> Result<NodeNo, ScriptRule>
    ensures value { result ≡ node_in topology.now word.now }
    ensures within { IfOk result (λ node. node.0 < length topology.now.loopbacks) }
{
    topology.node_named(word).ok_or(ScriptRule::NoSuchName)
}

/// The VRF of the name: S4 where there is none.
pub fn vrf_in(topology: &Topology, word: &[u8]) -> Result<VrfNo, ScriptRule>
    ensures value { result ≡ vrf_in topology.now word.now }
    ensures within { IfOk result (λ vrf. vrf.0 < length topology.now.vrfs) }
{
    topology.vrf_named(word).ok_or(ScriptRule::NoSuchName)
}

/// The site of the name: S4 where there is none.
pub fn site_in(topology: &Topology, word: &[u8]) -> Result<SiteNo, ScriptRule>
    ensures value { result ≡ site_in topology.now word.now }
    ensures within { IfOk result (λ site. site.0 < length topology.now.sites) }
{
    topology.site_named(word).ok_or(ScriptRule::NoSuchName)
}

/// The link between two nodes, and its direction from the first to the second: S4 where one names no node, S5 where
/// they have no link.
#[tactic(auto, unfolding(crate::specs::Operands::link_in))]
pub fn link_in(topology: &Topology, a: &[u8], b: &[u8]) -> Result<(LinkNo, Dir), ScriptRule>
    ensures value { result ≡ link_in topology.now a.now b.now }
    ensures within { IfOk result (λ found. found.0.0 < length topology.now.links) }
{
    let from = node_in(topology, a)?;
    let to = node_in(topology, b)?;
    topology.link_of(from, to).ok_or(ScriptRule::NotLinked)
}

/// Two different edges.
#[tactic(auto, unfolding(crate::specs::Operands::edges_in))]
pub(crate) fn edges_in(
    topology: &Topology,
    a: &[u8],
    b: &[u8],
) -> Result<(NodeNo, NodeNo), ScriptRule>
    ensures value { result ≡ edges_in topology.now a.now b.now }
    ensures edges { IfOk result (λ pair. are_edges topology.now pair.0 pair.1 ≡ true) }
{
    let one = node_in(topology, a)?;
    let other = node_in(topology, b)?;
    if topology.is_edge(one) && topology.is_edge(other) && one != other {
        Ok((one, other))
    } else {
        Err(ScriptRule::NotEdge)
    }
}
