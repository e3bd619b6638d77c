//! The routes of a VRF (RFC 4364, section 3).
ghost use Rattle.std.specs.Prelude.{◌≡◌, ℕ, Bool};
ghost use Rattle.mn_tables.specs.Prelude.{prefix_text, HeldRoute, Own, Near, Far, Labelling, label_at, mark_text, marked_line, route_line};
ghost use Rattle.mn_tables.specs.Telling.{standing, Tells};

use crate::names::{digits, vrf_name};
use crate::pieces::put_pieces;
use itoa::Buffer;
use mn_base::{NodeNo, SiteNo, VrfNo};
use mn_edge::{DeviceBad, Sink};
use mn_lines::{Page, node_name, site_name};
use mn_topo::Topology;

/// A prefix that a VRF holds: the prefix as its text.
#[derive(Clone, Copy)]
pub struct HeldPrefix<'p> {
    pub vrf: VrfNo,
    pub prefix: &'p [u8],
}

/// A site of another VRF of the same edge.
#[derive(Clone, Copy)]
pub struct NearSite {
    pub vrf: VrfNo,
    pub site: SiteNo,
}

/// What another edge advertised of a route: the label that it gave; and whether the next hop isn't resolved though it is to be.
#[derive(Clone, Copy)]
pub struct FarRoute {
    pub edge: NodeNo,
    pub label: u32,
    pub unresolved: bool,
}

/// Puts the line of a route over a site of the VRF itself.
pub fn put_own_route<O: Sink>(
    out: &mut O,
    page: &mut Page,
    topology: &Topology,
    held: HeldPrefix<'_>,
    site: SiteNo,
) -> Result<(), DeviceBad>
    ensures { (given : Labelling) (route : HeldRoute) → held.entry.prefix.now ≡ prefix_text route.prefix → route.source ≡ Own → site.0 ≡ route.site →
        Tells (route_line topology.now given held.entry.vrf.0 (Some route))
        (standing page.old (O.written out.old) (O.faults out.old)) (standing page.new (O.written out.new) (O.faults out.new)) result }
{
    let table = vrf_name(topology, held.vrf);
    let place = site_name(topology, site);
    put_pieces(
        out,
        page,
        &[b"route ", table, b" ", held.prefix, b" site ", place, b"\n"],
    )
}

/// Puts the line of a route over a site of another VRF of the edge.
pub fn put_near_route<O: Sink>(
    out: &mut O,
    page: &mut Page,
    topology: &Topology,
    held: HeldPrefix<'_>,
    near: NearSite,
) -> Result<(), DeviceBad>
    ensures { (given : Labelling) (route : HeldRoute) → held.entry.prefix.now ≡ prefix_text route.prefix → route.source ≡ Near near.vrf.0 → near.site.0 ≡ route.site →
        Tells (route_line topology.now given held.entry.vrf.0 (Some route))
        (standing page.old (O.written out.old) (O.faults out.old)) (standing page.new (O.written out.new) (O.faults out.new)) result }
{
    let table = vrf_name(topology, held.vrf);
    let other = vrf_name(topology, near.vrf);
    let place = site_name(topology, near.site);
    put_pieces(
        out,
        page,
        &[
            b"route ",
            table,
            b" ",
            held.prefix,
            b" vrf ",
            other,
            b" site ",
            place,
            b"\n",
        ],
    )
}

/// The mark of a route of another edge, to which no label path leads where next hops are to be resolved.
fn mark(unresolved: bool) -> &'static str
    ensures { (address rd : ℕ) → result.now ≡ mark_text (Far address rd) unresolved }
{
    if unresolved { " unresolved" } else { "" }
}

/// What another edge advertised of a route, with the text of its mark.
#[derive(Clone, Copy)]
struct MarkedRoute<'m> {
    edge: NodeNo,
    label: u32,
    mark: &'m [u8],
}

/// Puts the line of a route that another edge advertised, by the label that it gave, with the text of its mark.
fn put_with_mark<'a, O: Sink>(
    out: &mut O,
    page: &mut Page,
    topology: &Topology,
    held: HeldPrefix<'a>,
    far: MarkedRoute<'a>,
) -> Result<(), DeviceBad>
    ensures { (given : Labelling) (route : HeldRoute) (address rd : ℕ) (unresolved : Bool) → held.entry.prefix.now ≡ prefix_text route.prefix →
        route.source ≡ Far address rd → far.entry.edge.0 ≡ route.edge → far.entry.label ≡ label_at given route.edge route.site route.attachment →
        far.entry.mark.now ≡ mark_text (Far address rd) unresolved →
        Tells (marked_line topology.now given held.entry.vrf.0 unresolved route)
        (standing page.old (O.written out.old) (O.faults out.old)) (standing page.new (O.written out.new) (O.faults out.new)) result }
{
    let table = vrf_name(topology, held.vrf);
    let teller = node_name(topology, far.edge);
    let mut buffer = Buffer::new();
    let number = digits(&mut buffer, far.label);
    put_pieces(
        out,
        page,
        &[
            b"route ",
            table,
            b" ",
            held.prefix,
            b" edge ",
            teller,
            b" label ",
            number,
            far.mark,
            b"\n",
        ],
    )
}

/// Puts the line of a route that another edge advertised, by the label that it gave, with the mark of one that isn't resolved.
pub fn put_far_route<O: Sink>(
    out: &mut O,
    page: &mut Page,
    topology: &Topology,
    held: HeldPrefix<'_>,
    far: FarRoute,
) -> Result<(), DeviceBad>
    ensures { (given : Labelling) (route : HeldRoute) (address rd : ℕ) → held.entry.prefix.now ≡ prefix_text route.prefix → route.source ≡ Far address rd →
        far.edge.0 ≡ route.edge → far.label ≡ label_at given route.edge route.site route.attachment →
        Tells (marked_line topology.now given held.entry.vrf.0 far.unresolved route)
        (standing page.old (O.written out.old) (O.faults out.old)) (standing page.new (O.written out.new) (O.faults out.new)) result }
{
    let marked = MarkedRoute {
        edge: far.edge,
        label: far.label,
        mark: mark(far.unresolved).as_bytes(),
    };
    put_with_mark(out, page, topology, held, marked)
}
