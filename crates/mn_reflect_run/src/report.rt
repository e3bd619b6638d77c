//! The lines of the report, put on a page.
ghost use Rattle.std.specs.Prelude.{◌≡◌, ◌<◌, ℕ, List, [], Some, length, IfOk};
ghost use Rattle.mn_reflect_run.specs.Prelude.{prefix_text, refused_line, cause_text, standing, Tells, Labels, source_from, world_of, IsRun};
ghost use Rattle.mn_ledger.specs.Prelude.{Network, HeldRoute, Far};
ghost use Rattle.mn_topo.specs.declared.steps.Step.{Step as StepOf};
ghost use Rattle.mn_reflect_run.specs.Report.{route_line, table_text, total_line};

use itoa::Buffer;
use mn_base::{NodeNo, VrfNo};
use mn_edge::{DeviceBad, Sink};
use mn_ledger::Refused;
use mn_lines::{Page, node_name, write_refusal};
use mn_prefix::Prefix;
use mn_reflect::Reflect;
use mn_tables::{HeldPrefix, NearSite, put_near_route, put_own_route, put_pieces};
use mn_text::put_prefix;
use mn_topo::Topology;
use mn_vrf::Source;
use std::alloc::{AllocError, Global};

/// What waits to be put.
#[derive(Drop)]
pub(crate) struct Desk {
    pub page: Page,
    /// A line, or a part of it, as it is written.
    pub text: Vec<u8>,
}

impl Desk {
    pub fn new(alloc: Global) -> Result<Desk, AllocError>
        ensures { IfOk result (λ desk. desk.page ≡ []) }
    {
        Ok(Desk {
            page: Page::new(alloc)?,
            text: Vec::new(alloc),
        })
    }
}

/// Puts the line of a script's line that was refused.
pub(crate) fn put_refusal<O: Sink>(
    out: &mut O,
    desk: &mut Desk,
    topology: &Topology,
    number: u32,
    cause: Refused,
) -> Result<(), DeviceBad>
    ensures { Tells (refused_line number (cause_text topology.now.site_names cause))
        (standing desk.old.page (O.written out.old) (O.faults out.old)) (standing desk.new.page (O.written out.new) (O.faults out.new)) result }
{
    desk.text.clear();
    write_refusal(&mut desk.text, topology, number, cause)?;
    put_pieces(out, &mut desk.page, &[desk.text.as_slice()])
}

/// Puts the line of a route that another edge advertised, by the label that it gave. The prefix comes as its text.
fn put_far_route<O: Sink>(
    out: &mut O,
    page: &mut Page,
    topology: &Topology,
    vrf: VrfNo,
    prefix: &[u8],
    edge: NodeNo,
    label: u32,
) -> Result<(), DeviceBad>
    requires { vrf.0 < length topology.now.vrfs }
    ensures { (labels : Labels) (route : HeldRoute) (address rd : ℕ) → prefix.now ≡ prefix_text route.prefix → route.source ≡ Far address rd → edge.0 ≡ route.edge →
        label ≡ labels route.site route.attachment →
        Tells (route_line topology.now labels vrf.0 (Some route))
        (standing page.old (O.written out.old) (O.faults out.old)) (standing page.new (O.written out.new) (O.faults out.new)) result }
{
    topology.laws();
    let table = topology.vrf_name(vrf);
    let teller = node_name(topology, edge);
    let mut buffer = Buffer::new();
    let number = buffer.format(label).as_bytes();
    put_pieces(
        out,
        page,
        &[
            b"route ", table, b" ", prefix, b" edge ", teller, b" label ", number, b"\n",
        ],
    )
}

/// Puts the line of a route from a source. The prefix comes as its text.
fn put_from<O: Sink>(
    out: &mut O,
    page: &mut Page,
    topology: &Topology,
    vrf: VrfNo,
    prefix: &[u8],
    source: Source,
) -> Result<(), DeviceBad>
    requires { vrf.0 < length topology.now.vrfs }
    ensures { (labels : Labels) (route : HeldRoute) → prefix.now ≡ prefix_text route.prefix → source ≡ source_from labels route.edge route.site route.attachment route.source →
        Tells (route_line topology.now labels vrf.0 (Some route))
        (standing page.old (O.written out.old) (O.faults out.old)) (standing page.new (O.written out.new) (O.faults out.new)) result }
{
    let held = HeldPrefix { vrf, prefix };
    match source {
        Source::Own(site) => put_own_route(out, page, topology, held, site),
        Source::Near(other, site) => {
            let near = NearSite { vrf: other, site };
            put_near_route(out, page, topology, held, near)
        }
        Source::Far { edge, label, .. } => {
            put_far_route(out, page, topology, vrf, prefix, edge, label)
        }
    }
}

/// Puts the line of the best route of a prefix: the prefix, and where the route comes from.
fn put_route<O: Sink>(
    out: &mut O,
    desk: &mut Desk,
    topology: &Topology,
    vrf: VrfNo,
    found: (Prefix, Source),
) -> Result<(), DeviceBad>
    requires { vrf.0 < length topology.now.vrfs }
    ensures { (labels : Labels) (route : HeldRoute) → found.0 ≡ route.prefix → found.1 ≡ source_from labels route.edge route.site route.attachment route.source →
        Tells (route_line topology.now labels vrf.0 (Some route))
        (standing desk.old.page (O.written out.old) (O.faults out.old)) (standing desk.new.page (O.written out.new) (O.faults out.new)) result }
{
    desk.text.clear();
    put_prefix(&mut desk.text, found.0)?;
    put_from(
        out,
        &mut desk.page,
        topology,
        vrf,
        desk.text.as_slice(),
        found.1,
    )
}

/// Puts the lines of the best routes of all prefixes that a VRF holds, in order.
pub(crate) fn put_table<O: Sink>(
    out: &mut O,
    desk: &mut Desk,
    topology: &Topology,
    reflect: &Reflect,
    vrf: VrfNo,
) -> Result<(), DeviceBad>
    requires over { reflect.now.topology ≡ topology.now }
    requires vrf { vrf.0 < length topology.now.vrfs }
    ensures { (reflectors : List ℕ) (steps : List StepOf) → IsRun topology.now reflectors steps reflect.now →
        Tells (table_text topology.now reflectors steps vrf.0)
        (standing desk.old.page (O.written out.old) (O.faults out.old)) (standing desk.new.page (O.written out.new) (O.faults out.new)) result }
{
    let mut route = reflect.held(vrf, 0);
    for _ in 0..u32::MAX {
        match route {
            None => return Ok(()),
            Some(found) => {
                put_route(out, desk, topology, vrf, (found.0, found.1))?;
                route = reflect.held_after(vrf, found.0);
            }
        }
    }
    // There are never so many prefixes: long before that memory is wanted.
    Err(DeviceBad::NoMemory)
}

/// Puts the last line, where so many lines were refused.
#[tactic(auto, unfolding(crate::specs::Report::total_line))]
pub(crate) fn put_total<O: Sink>(
    out: &mut O,
    page: &mut Page,
    reflect: &Reflect,
    refused: u32,
) -> Result<(), DeviceBad>
    ensures { (topology : Network) (reflectors : List ℕ) (steps : List StepOf) → IsRun topology reflectors steps reflect.now →
        Tells (total_line (length steps) refused (length (world_of topology reflectors steps).flying))
        (standing page.old (O.written out.old) (O.faults out.old)) (standing page.new (O.written out.new) (O.faults out.new)) result }
{
    let (mut first, mut second, mut third) = (Buffer::new(), Buffer::new(), Buffer::new());
    let steps = first.format(reflect.done()).as_bytes();
    let refused = second.format(refused).as_bytes();
    let flying = third.format(reflect.pending()).as_bytes();
    put_pieces(
        out,
        page,
        &[
            b"total steps ",
            steps,
            b" refused ",
            refused,
            b" flying ",
            flying,
            b"\n",
        ],
    )
}
