//! The BGP sessions of pairs of edges (RFC 4271, section 8.2.2).
ghost use Rattle.std.specs.Prelude.{◌≡◌};
ghost use Rattle.mn_tables.specs.Prelude.{World, bgp_state_of, bgp_line, bgp_name};
ghost use Rattle.mn_tables.specs.Telling.{standing, Tells};

use crate::pieces::put_pieces;
use mn_base::NodeNo;
use mn_edge::{DeviceBad, Sink};
use mn_lines::{Page, node_name};
use mn_states::BgpState;
use mn_topo::Topology;

/// The state of a session's end by its name.
fn bgp_name(state: BgpState) -> &'static str
    ensures { result.now ≡ bgp_name state }
{
    match state {
        BgpState::Idle => "idle",
        BgpState::OpenSent => "opensent",
        BgpState::OpenConfirm => "openconfirm",
        BgpState::Established => "established",
    }
}

/// An end of a BGP session: the edge, and its state.
#[derive(Clone, Copy)]
pub struct BgpEnd {
    pub edge: NodeNo,
    pub state: BgpState,
}

/// An end of a BGP session, with the text of its state.
#[derive(Clone, Copy)]
struct EndText<'t> {
    edge: NodeNo,
    state: &'t [u8],
}

/// Puts the line of the session between two edges, of which the states come as their texts.
fn put_states<O: Sink>(
    out: &mut O,
    page: &mut Page,
    topology: &Topology,
    one: EndText<'_>,
    other: EndText<'_>,
) -> Result<(), DeviceBad>
    ensures { (world : World) → one.entry.state.now ≡ bgp_name (bgp_state_of world.config world.peerings one.entry.edge.0 other.entry.edge.0) →
        other.entry.state.now ≡ bgp_name (bgp_state_of world.config world.peerings other.entry.edge.0 one.entry.edge.0) →
        Tells (bgp_line topology.now world one.entry.edge.0 other.entry.edge.0)
        (standing page.old (O.written out.old) (O.faults out.old)) (standing page.new (O.written out.new) (O.faults out.new)) result }
{
    let from = node_name(topology, one.edge);
    let to = node_name(topology, other.edge);
    put_pieces(
        out,
        page,
        &[
            b"bgp ",
            from,
            b" ",
            one.state,
            b" ",
            to,
            b" ",
            other.state,
            b"\n",
        ],
    )
}

/// Puts the line of the session between two edges: each with its state.
pub fn put_bgp<O: Sink>(
    out: &mut O,
    page: &mut Page,
    topology: &Topology,
    one: BgpEnd,
    other: BgpEnd,
) -> Result<(), DeviceBad>
    ensures { (world : World) → one.state ≡ bgp_state_of world.config world.peerings one.edge.0 other.edge.0 →
        other.state ≡ bgp_state_of world.config world.peerings other.edge.0 one.edge.0 →
        Tells (bgp_line topology.now world one.edge.0 other.edge.0)
        (standing page.old (O.written out.old) (O.faults out.old)) (standing page.new (O.written out.new) (O.faults out.new)) result }
{
    let first = EndText {
        edge: one.edge,
        state: bgp_name(one.state).as_bytes(),
    };
    let second = EndText {
        edge: other.edge,
        state: bgp_name(other.state).as_bytes(),
    };
    put_states(out, page, topology, first, second)
}
