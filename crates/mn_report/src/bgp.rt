//! The table of BGP sessions.
ghost use Rattle.std.specs.Prelude.{◌≡◌, ◌<◌, ◌&&◌, nat_lt, false, length};
ghost use Rattle.std.specs.List.{flat_map};
ghost use Rattle.mn_ledger.specs.Prelude.{is_edge, world_of, edges};
ghost use Rattle.mn_output_laws.specs.Tables.{bgp_lines};
ghost use Rattle.mn_tables.specs.Telling.{standing, Tells};
ghost use Rattle.mn_report.specs.Rows.{pair_row, edge_rows};

use crate::counts::node_count;
use mn_base::NodeNo;
use mn_edge::{DeviceBad, Sink};
use mn_lines::Page;
use mn_net::Net;
use mn_tables::{BgpEnd, put_bgp};

/// Whether a node is an edge.
fn is_edge(net: &Net, node: NodeNo) -> bool
    ensures { result ≡ is_edge net.now.topology.vrfs node.0 }
{
    net.topology().is_edge(node)
}

/// Whether the second of two nodes is an edge of greater number.
fn is_pair(net: &Net, a: NodeNo, b: NodeNo) -> bool
    ensures { result ≡ (is_edge net.now.topology.vrfs b.0 && nat_lt a.0 b.0) }
{
    is_edge(net, b) && a.0 < b.0
}

/// Puts the line of the session between two nodes, where the second is an edge of greater number.
fn put_pair<O: Sink>(
    out: &mut O,
    page: &mut Page,
    net: &Net,
    a: NodeNo,
    b: NodeNo,
) -> Result<(), DeviceBad>
    requires works { net.now.failed ≡ false }
    requires a { a.0 < length net.now.topology.loopbacks }
    requires b { b.0 < length net.now.topology.loopbacks }
    ensures { Tells (pair_row net.now.topology (world_of net.now.topology net.now.journal) a.0 b.0)
        (standing page.old (O.written out.old) (O.faults out.old)) (standing page.new (O.written out.new) (O.faults out.new)) result }
{
    if !is_pair(net, a, b) {
        return Ok(());
    }
    let one = BgpEnd {
        edge: a,
        state: net.bgp_state(a, b),
    };
    let other = BgpEnd {
        edge: b,
        state: net.bgp_state(b, a),
    };
    put_bgp(out, page, net.topology(), one, other)
}

/// Puts the lines of the sessions of a node with each edge of greater number, in order, where it is an edge.
fn put_pairs_of<O: Sink>(
    out: &mut O,
    page: &mut Page,
    net: &Net,
    a: NodeNo,
) -> Result<(), DeviceBad>
    requires works { net.now.failed ≡ false }
    requires a { a.0 < length net.now.topology.loopbacks }
    ensures { Tells (edge_rows net.now.topology (world_of net.now.topology net.now.journal) a.0)
        (standing page.old (O.written out.old) (O.faults out.old)) (standing page.new (O.written out.new) (O.faults out.new)) result }
{
    if !is_edge(net, a) {
        return Ok(());
    }
    for b in 0..node_count(net) {
        put_pair(out, page, net, a, NodeNo(b))?;
    }
    Ok(())
}

/// Puts the lines of the sessions of each pair of edges, in the order of the lesser number and then of the greater.
pub(crate) fn put_bgp_sessions<O: Sink>(
    out: &mut O,
    page: &mut Page,
    net: &Net,
) -> Result<(), DeviceBad>
    requires { net.now.failed ≡ false }
    ensures { Tells (flat_map (bgp_lines net.now.topology (world_of net.now.topology net.now.journal)) (edges net.now.topology))
        (standing page.old (O.written out.old) (O.faults out.old)) (standing page.new (O.written out.new) (O.faults out.new)) result }
{
    for a in 0..node_count(net) {
        put_pairs_of(out, page, net, NodeNo(a))?;
    }
    Ok(())
}
