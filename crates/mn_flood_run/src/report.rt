//! The lines of the report, put on a page.
ghost use Rattle.std.specs.Prelude.{◌≡◌, ◌<◌, length};
ghost use Rattle.mn_flood_run.specs.Prelude.{View, IsTree, wiring_of, refused_line, flooded, standing, Tells};
ghost use Rattle.mn_flood_run.specs.Report.{tree_text, trees_text, total_line};
ghost use Rattle.mn_flood_run.specs.Playing.{bad_name, walk_row};

use itoa::Buffer;
use mn_base::NodeNo;
use mn_edge::{DeviceBad, Sink};
use mn_flood::{Flood, FloodBad};
use mn_lines::Page;
use mn_linkdb::{Tree, tree_is_computed};
use mn_tables::{Walk, put_pieces, put_walk};
use mn_topo::Topology;

/// A refusal by its name.
fn bad_name(bad: FloodBad) -> &'static str
    ensures { result.now ≡ bad_name bad }
{
    match bad {
        FloodBad::Unchanged => "Unchanged",
        FloodBad::FloodFull => "FloodFull",
        FloodBad::Empty => "Empty",
        FloodBad::NoMemory => "NoMemory",
    }
}

/// Puts the line of a script's line that was refused.
#[tactic(auto, unfolding(mn_lines::specs::Lines::refused_line))]
pub(crate) fn put_refused<O: Sink>(
    out: &mut O,
    page: &mut Page,
    number: u32,
    bad: FloodBad,
) -> Result<(), DeviceBad>
    ensures { Tells (refused_line number (bad_name bad))
        (standing page.old (O.written out.old) (O.faults out.old)) (standing page.new (O.written out.new) (O.faults out.new)) result }
{
    let cause = bad_name(bad).as_bytes();
    let mut buffer = Buffer::new();
    let line = buffer.format(number).as_bytes();
    put_pieces(out, page, &[b"line ", line, b" refused ", cause, b"\n"])
}

/// How many nodes there are: at most 256.
fn node_count(topology: &Topology) -> u16
    ensures { result ≡ length topology.now.loopbacks }
{
    topology.laws();
    topology.nodes().len() as u16
}

/// Puts the line of the least walk from a node to another, and nothing of the node itself.
fn put_walk_to<O: Sink>(
    out: &mut O,
    page: &mut Page,
    topology: &Topology,
    tree: &Tree,
    node: NodeNo,
    to: NodeNo,
) -> Result<(), DeviceBad>
    requires node { node.0 < length topology.now.loopbacks }
    requires to { to.0 < length topology.now.loopbacks }
    requires sized { length tree.now.dists ≡ length topology.now.loopbacks }
    ensures { (view : View) → IsTree (wiring_of topology.now) view node.0 tree.now → Tells (walk_row topology.now view node.0 to.0)
        (standing page.old (O.written out.old) (O.faults out.old)) (standing page.new (O.written out.new) (O.faults out.new)) result }
{
    if to.0 == node.0 {
        return Ok(());
    }
    tree_is_computed();
    topology.laws();
    let dist = tree.dist(to);
    let hop = tree.next(to);
    let walk = Walk {
        from: node,
        to,
        dist,
        hop,
    };
    put_walk(out, page, topology, walk)
}

/// Puts the lines of the least walks from a node to each other node, in order.
fn put_tree<O: Sink>(
    out: &mut O,
    page: &mut Page,
    topology: &Topology,
    tree: &Tree,
    node: NodeNo,
) -> Result<(), DeviceBad>
    requires node { node.0 < length topology.now.loopbacks }
    requires sized { length tree.now.dists ≡ length topology.now.loopbacks }
    ensures { (view : View) → IsTree (wiring_of topology.now) view node.0 tree.now → Tells (tree_text topology.now view node.0)
        (standing page.old (O.written out.old) (O.faults out.old)) (standing page.new (O.written out.new) (O.faults out.new)) result }
{
    for to in 0..node_count(topology) {
        put_walk_to(out, page, topology, tree, node, NodeNo(to))?;
    }
    Ok(())
}

/// Puts the tree of a node over the links that it takes for up.
fn put_tree_of<O: Sink>(
    out: &mut O,
    page: &mut Page,
    topology: &Topology,
    flood: &Flood,
    node: NodeNo,
) -> Result<(), DeviceBad>
    requires over { flood.now.wiring ≡ wiring_of topology.now }
    requires node { node.0 < length topology.now.loopbacks }
    ensures { Tells (tree_text topology.now (flooded (wiring_of topology.now) flood.now.world node.0) node.0)
        (standing page.old (O.written out.old) (O.faults out.old)) (standing page.new (O.written out.new) (O.faults out.new)) result }
{
    let tree = flood.tree(node)?;
    put_tree(out, page, topology, &tree, node)
}

/// Puts the tree of each node, in order, over the links that it takes for up.
pub(crate) fn put_trees<O: Sink>(
    out: &mut O,
    page: &mut Page,
    topology: &Topology,
    flood: &Flood,
) -> Result<(), DeviceBad>
    requires { flood.now.wiring ≡ wiring_of topology.now }
    ensures { Tells (trees_text topology.now flood.now.world)
        (standing page.old (O.written out.old) (O.faults out.old)) (standing page.new (O.written out.new) (O.faults out.new)) result }
{
    for node in 0..node_count(topology) {
        put_tree_of(out, page, topology, flood, NodeNo(node))?;
    }
    Ok(())
}

/// Puts the last line.
#[tactic(auto, unfolding(crate::specs::Report::total_line))]
pub(crate) fn put_total<O: Sink>(
    out: &mut O,
    page: &mut Page,
    flood: &Flood,
    refused: u32,
) -> Result<(), DeviceBad>
    ensures { Tells (total_line flood.now.done refused (length flood.now.world.flying))
        (standing page.old (O.written out.old) (O.faults out.old)) (standing page.new (O.written out.new) (O.faults out.new)) result }
{
    let (mut first, mut second, mut third) = (Buffer::new(), Buffer::new(), Buffer::new());
    let steps = first.format(flood.done()).as_bytes();
    let refused = second.format(refused).as_bytes();
    let flying = third.format(flood.pending()).as_bytes();
    put_pieces(
        out,
        page,
        &[
            b"total steps ",
            steps,
            b" refused ",
            refused,
            b" flying ",
            flying,
            b"\n",
        ],
    )
}
