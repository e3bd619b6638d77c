//! The ends of a link and VRFs by their names, and numbers by their digits.
ghost use Rattle.std.specs.Prelude.{◌≡◌, ◌<◌, length};
ghost use Rattle.mn_tables.specs.Prelude.{receiver, sender, wiring_of, node_name, vrf_name};

use itoa::{Buffer, Integer};
use mn_base::{LinkNo, NodeNo, VrfNo};
use mn_lines::node_name;
use mn_topo::Topology;
use mn_wiring::Dir;

/// The node that sends in a direction of a link, and the one that receives.
fn ends(topology: &Topology, link: LinkNo, dir: Dir) -> (NodeNo, NodeNo)
    requires { link.0 < length topology.now.links }
    ensures from { result.0.0 ≡ sender (wiring_of topology.now) link.0 dir }
    ensures to { result.1.0 ≡ receiver (wiring_of topology.now) link.0 dir }
    ensures from_there { result.0.0 < length topology.now.loopbacks }
    ensures to_there { result.1.0 < length topology.now.loopbacks }
{
    topology.laws();
    let ends = &topology.links()[usize::from(link.0)];
    match dir {
        Dir::Forth => (ends.a, ends.b),
        Dir::Back => (ends.b, ends.a),
    }
}

/// The names of the node that sends in a direction of a link, and of the one that receives.
pub(crate) fn end_names(topology: &Topology, link: LinkNo, dir: Dir) -> (&[u8], &[u8])
    requires { link.0 < length topology.now.links }
    ensures from { result.0.now ≡ node_name topology.now (sender (wiring_of topology.now) link.0 dir) }
    ensures to { result.1.now ≡ node_name topology.now (receiver (wiring_of topology.now) link.0 dir) }
{
    let (from, to) = ends(topology, link, dir);
    (node_name(topology, from), node_name(topology, to))
}

/// The digits of a number, on the stack.
pub(crate) fn digits<N: Integer>(buffer: &mut Buffer, number: N) -> &[u8]
    ensures { result.now ≡ N.text number }
{
    buffer.format(number).as_bytes()
}

/// The name of a VRF, and the empty text where there is no such VRF.
pub(crate) fn vrf_name(topology: &Topology, vrf: VrfNo) -> &[u8]
    ensures { result.now ≡ vrf_name topology.now vrf.0 }
{
    topology.laws();
    if usize::from(vrf.0) < topology.vrfs().len() {
        topology.vrf_name(vrf)
    } else {
        b""
    }
}
