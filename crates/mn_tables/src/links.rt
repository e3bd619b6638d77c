//! The links, up or down.
ghost use Rattle.std.specs.Prelude.{◌≡◌, ◌<◌, length};
ghost use Rattle.mn_wiring.specs.Wiring.{link as link_at};
ghost use Rattle.mn_ledger.specs.Prelude.{wiring_of, World};
ghost use Rattle.mn_output_laws.specs.Tables.{link_line, up_or_down};
ghost use Rattle.mn_tables.specs.Telling.{standing, Tells};

use crate::names::{digits, end_names};
use crate::pieces::put_pieces;
use itoa::Buffer;
use mn_base::LinkNo;
use mn_edge::{DeviceBad, Sink};
use mn_lines::Page;
use mn_topo::Topology;
use mn_wiring::Dir;

fn up_or_down(up: bool) -> &'static str
    ensures { result.now ≡ up_or_down up }
{
    if up { " up" } else { " down" }
}

/// What a walk over a link costs.
fn cost_of(topology: &Topology, link: LinkNo) -> u32
    requires { link.0 < length topology.now.links }
    ensures { result ≡ (link_at (wiring_of topology.now) link.0).cost }
{
    topology.links()[usize::from(link.0)].cost
}

/// Whether a link is up, and how often it came up or went down.
#[derive(Clone, Copy)]
pub struct LinkState {
    pub up: bool,
    pub changes: u32,
}

/// The text of a link's state, and how often it came up or went down.
#[derive(Clone, Copy)]
struct StateText<'t> {
    up: &'t [u8],
    changes: u32,
}

/// Puts the line of a link, of which the state comes as its text.
fn put_state<O: Sink>(
    out: &mut O,
    page: &mut Page,
    topology: &Topology,
    link: LinkNo,
    state: StateText<'_>,
) -> Result<(), DeviceBad>
    requires { link.0 < length topology.now.links }
    ensures { (world : World) → state.entry.up.now ≡ up_or_down (world.config.is_up link.0) → state.entry.changes ≡ world.views.changes link.0 →
        Tells (link_line topology.now world link.0)
        (standing page.old (O.written out.old) (O.faults out.old)) (standing page.new (O.written out.new) (O.faults out.new)) result }
{
    let (from, to) = end_names(topology, link, Dir::Forth);
    let (mut first, mut second) = (Buffer::new(), Buffer::new());
    let cost = digits(&mut first, cost_of(topology, link));
    let times = digits(&mut second, state.changes);
    put_pieces(
        out,
        page,
        &[
            b"link ",
            from,
            b" ",
            to,
            state.up,
            b" cost ",
            cost,
            b" changes ",
            times,
            b"\n",
        ],
    )
}

/// Puts the line of a link: whether it is up, what it costs, and how often it came up or went down.
pub fn put_link<O: Sink>(
    out: &mut O,
    page: &mut Page,
    topology: &Topology,
    link: LinkNo,
    state: LinkState,
) -> Result<(), DeviceBad>
    requires { link.0 < length topology.now.links }
    ensures { (world : World) → state.up ≡ world.config.is_up link.0 → state.changes ≡ world.views.changes link.0 →
        Tells (link_line topology.now world link.0)
        (standing page.old (O.written out.old) (O.faults out.old)) (standing page.new (O.written out.new) (O.faults out.new)) result }
{
    let text = StateText {
        up: up_or_down(state.up).as_bytes(),
        changes: state.changes,
    };
    put_state(out, page, topology, link, text)
}
