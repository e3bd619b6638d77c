//! The table of the routes that a VRF holds.
ghost use Rattle.std.specs.Prelude.{◌≡◌, ◌<◌, false, length, ℕ, Some};
ghost use Rattle.mn_report.specs.Prelude.{prefix_text, Labelling, given, source_of, AreWays, marked_line, shown_lines, held_in, standing, Tells};
ghost use Rattle.mn_ledger.specs.Prelude.{HeldRoute, world_of, edge_of, best_for};
ghost use Rattle.mn_report.specs.Routes.{IsShown};

use mn_base::VrfNo;
use mn_edge::{DeviceBad, Sink};
use mn_lines::Page;
use mn_net::Net;
use mn_prefix::Prefix;
use mn_tables::{FarRoute, HeldPrefix, NearSite, put_far_route, put_near_route, put_own_route};
use mn_text::put_prefix;
use mn_topo::Topology;
use mn_vrf::Source;

/// The route that is shown of a prefix: where it comes from, and whether it isn't resolved though next hops are to be.
#[derive(Clone, Copy)]
struct Shown {
    source: Source,
    unresolved: bool,
}

/// A row of the table: the prefix that the VRF holds, and the route that is shown of it.
#[derive(Clone, Copy)]
struct Row {
    vrf: VrfNo,
    prefix: Prefix,
    shown: Shown,
}

/// Puts the line of a route from a source.
fn put_from<O: Sink>(
    out: &mut O,
    page: &mut Page,
    topology: &Topology,
    held: HeldPrefix<'_>,
    shown: Shown,
) -> Result<(), DeviceBad>
    ensures { (given : Labelling) (route : HeldRoute) → held.entry.prefix.now ≡ prefix_text route.prefix → shown.source ≡ source_of given route route.source →
        Tells (marked_line topology.now given held.entry.vrf.0 shown.unresolved route)
        (standing page.old (O.written out.old) (O.faults out.old)) (standing page.new (O.written out.new) (O.faults out.new)) result }
{
    match shown.source {
        Source::Own(site) => put_own_route(out, page, topology, held, site),
        Source::Near(vrf, site) => {
            put_near_route(out, page, topology, held, NearSite { vrf, site })
        }
        Source::Far { edge, label, .. } => {
            let far = FarRoute {
                edge,
                label,
                unresolved: shown.unresolved,
            };
            put_far_route(out, page, topology, held, far)
        }
    }
}

/// Puts the line of the route that is shown of a prefix. `line` is written anew.
fn put_route<O: Sink>(
    out: &mut O,
    page: &mut Page,
    line: &mut Vec<u8>,
    topology: &Topology,
    row: Row,
) -> Result<(), DeviceBad>
    ensures { (given : Labelling) (route : HeldRoute) → row.prefix ≡ route.prefix → row.shown.source ≡ source_of given route route.source →
        Tells (marked_line topology.now given row.vrf.0 row.shown.unresolved route)
        (standing page.old (O.written out.old) (O.faults out.old)) (standing page.new (O.written out.new) (O.faults out.new)) result }
{
    line.clear();
    put_prefix(line, row.prefix)?;
    let held = HeldPrefix {
        vrf: row.vrf,
        prefix: line.as_slice(),
    };
    put_from(out, page, topology, held, row.shown)
}

/// What is shown of a prefix that a VRF holds, whose best route comes from this source: where next hops are to be resolved, the best of its
/// resolved routes; where there is none, the best of all, as unresolved. `ways` are those of the VRF's edge.
fn shown_of(net: &Net, vrf: VrfNo, prefix: Prefix, source: Source, ways: &[bool]) -> Shown
    requires works { net.now.failed ≡ false }
    requires vrf { vrf.0 < length net.now.topology.vrfs }
    ensures { AreWays net.now.topology (world_of net.now.topology net.now.journal) (edge_of net.now.topology vrf.0) ways.now →
        (route : HeldRoute) → best_for (held_in net.now.topology (world_of net.now.topology net.now.journal) vrf.0) prefix ≡ Some route → prefix ≡ route.prefix →
        source ≡ source_of (given net.now.topology net.now.journal) route route.source →
        IsShown net.now.topology (world_of net.now.topology net.now.journal) (given net.now.topology net.now.journal) vrf.0
        (held_in net.now.topology (world_of net.now.topology net.now.journal) vrf.0) prefix result.source result.unresolved }
{
    if !net.topology().resolve() {
        return Shown {
            source,
            unresolved: false,
        };
    }
    match net.resolved_at(vrf, prefix, ways) {
        Some(source) => Shown {
            source,
            unresolved: false,
        },
        None => Shown {
            source,
            unresolved: true,
        },
    }
}

/// Puts the lines of the routes that are shown of all prefixes that a VRF holds, in order.
pub(crate) fn put_routes<O: Sink>(
    out: &mut O,
    page: &mut Page,
    line: &mut Vec<u8>,
    net: &Net,
    vrf: VrfNo,
) -> Result<(), DeviceBad>
    requires works { net.now.failed ≡ false }
    requires vrf { vrf.0 < length net.now.topology.vrfs }
    ensures { Tells (shown_lines net.now.topology (world_of net.now.topology net.now.journal) (given net.now.topology net.now.journal) vrf.0 (held_in net.now.topology (world_of net.now.topology net.now.journal) vrf.0))
        (standing page.old (O.written out.old) (O.faults out.old)) (standing page.new (O.written out.new) (O.faults out.new)) result }
{
    let ways = net.ways_of(vrf);
    let mut route = net.held(vrf, 0);
    for _ in 0..u32::MAX {
        match route {
            None => return Ok(()),
            Some(found) => {
                let shown = shown_of(net, vrf, found.0, found.1, &ways);
                let row = Row {
                    vrf,
                    prefix: found.0,
                    shown,
                };
                put_route(out, page, line, net.topology(), row)?;
                route = net.held_after(vrf, found.0);
            }
        }
    }
    // There are never so many prefixes: long before that memory is wanted.
    Err(DeviceBad::NoMemory)
}
