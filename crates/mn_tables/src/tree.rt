//! The least walks from a node to the others.
ghost use Rattle.std.specs.Prelude.{◌≡◌, ◌⊎◌};
ghost use Rattle.mn_ledger.specs.Prelude.{dist_in, dists_to, next, View, wiring_of};
ghost use Rattle.mn_linkdb.specs.Trees.{hop_alone};
ghost use Rattle.mn_output_laws.specs.Tables.{tree_line};
ghost use Rattle.mn_tables.specs.Telling.{standing, Tells};

use crate::names::digits;
use crate::pieces::put_pieces;
use itoa::Buffer;
use mn_base::NodeNo;
use mn_edge::{DeviceBad, Sink};
use mn_lines::{Page, node_name};
use mn_topo::Topology;

/// The least walk from a node to another: what it costs, and to which node it goes first; neither where there is none.
#[derive(Clone, Copy)]
pub struct Walk {
    pub from: NodeNo,
    pub to: NodeNo,
    pub dist: Option<u32>,
    pub hop: Option<NodeNo>,
}

/// Puts the line of a node to which there is no walk.
fn put_unreached<O: Sink>(
    out: &mut O,
    page: &mut Page,
    topology: &Topology,
    walk: Walk,
) -> Result<(), DeviceBad>
    ensures { (view : View) → (dist_in (dists_to (wiring_of topology.now) view walk.to.0) walk.from.0 ≡ None) ⊎ (hop_alone (next (wiring_of topology.now) view walk.from.0 walk.to.0) ≡ None) →
        Tells (tree_line topology.now view walk.from.0 walk.to.0)
        (standing page.old (O.written out.old) (O.faults out.old)) (standing page.new (O.written out.new) (O.faults out.new)) result }
{
    let from = node_name(topology, walk.from);
    let there = node_name(topology, walk.to);
    put_pieces(
        out,
        page,
        &[b"tree ", from, b" to ", there, b" unreachable\n"],
    )
}

/// Puts the line of the least walk from a node to another: what it costs and to which node it goes first, or that there is
/// none.
pub fn put_walk<O: Sink>(
    out: &mut O,
    page: &mut Page,
    topology: &Topology,
    walk: Walk,
) -> Result<(), DeviceBad>
    ensures { (view : View) → walk.dist ≡ dist_in (dists_to (wiring_of topology.now) view walk.to.0) walk.from.0 →
        walk.hop ≡ hop_alone (next (wiring_of topology.now) view walk.from.0 walk.to.0) →
        Tells (tree_line topology.now view walk.from.0 walk.to.0)
        (standing page.old (O.written out.old) (O.faults out.old)) (standing page.new (O.written out.new) (O.faults out.new)) result }
{
    match walk.dist {
        None => put_unreached(out, page, topology, walk),
        Some(dist) => match walk.hop {
            None => put_unreached(out, page, topology, walk),
            Some(hop) => {
                let from = node_name(topology, walk.from);
                let there = node_name(topology, walk.to);
                let near = node_name(topology, hop);
                let mut buffer = Buffer::new();
                let cost = digits(&mut buffer, dist);
                put_pieces(
                    out,
                    page,
                    &[
                        b"tree ", from, b" to ", there, b" cost ", cost, b" next ", near, b"\n",
                    ],
                )
            }
        },
    }
}
