//! The table of the least walks from a node.
ghost use Rattle.std.specs.Prelude.{◌≡◌, ◌<◌, false, length};
ghost use Rattle.mn_report.specs.Prelude.{world_of, tree_lines, standing, Tells};
ghost use Rattle.mn_report.specs.Rows.{walk_row};

use crate::counts::node_count;
use mn_base::NodeNo;
use mn_edge::{DeviceBad, Sink};
use mn_lines::Page;
use mn_linkdb::tree_is_computed;
use mn_net::Net;
use mn_tables::{Walk, put_walk};

/// Puts the line of the least walk to a node, but for the node itself.
fn put_walk_to<O: Sink>(
    out: &mut O,
    page: &mut Page,
    net: &Net,
    node: NodeNo,
    to: NodeNo,
) -> Result<(), DeviceBad>
    requires works { net.now.failed ≡ false }
    requires node { node.0 < length net.now.topology.loopbacks }
    requires to { to.0 < length net.now.topology.loopbacks }
    ensures { Tells (walk_row net.now.topology (world_of net.now.topology net.now.journal) node.0 to.0)
        (standing page.old (O.written out.old) (O.faults out.old)) (standing page.new (O.written out.new) (O.faults out.new)) result }
{
    if to.0 == node.0 {
        return Ok(());
    }
    tree_is_computed();
    net.topology().laws();
    let tree = net.tree(node);
    let walk = Walk {
        from: node,
        to,
        dist: tree.dist(to),
        hop: tree.next(to),
    };
    put_walk(out, page, net.topology(), walk)
}

/// Puts the lines of the least walks from a node to each other node, in order.
pub(crate) fn put_tree<O: Sink>(
    out: &mut O,
    page: &mut Page,
    net: &Net,
    node: NodeNo,
) -> Result<(), DeviceBad>
    requires works { net.now.failed ≡ false }
    requires node { node.0 < length net.now.topology.loopbacks }
    ensures { Tells (tree_lines net.now.topology (world_of net.now.topology net.now.journal) node.0)
        (standing page.old (O.written out.old) (O.faults out.old)) (standing page.new (O.written out.new) (O.faults out.new)) result }
{
    for to in 0..node_count(net) {
        put_walk_to(out, page, net, node, NodeNo(to))?;
    }
    Ok(())
}
