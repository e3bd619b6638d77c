//! The LDP sessions of links (RFC 5036, section 2.5.4).
ghost use Rattle.std.specs.Prelude.{◌≡◌, ◌<◌, length};
ghost use Rattle.mn_ledger.specs.Prelude.{sender, Forth, Back, wiring_of, World};
ghost use Rattle.mn_output_laws.specs.Tables.{ldp_line};
ghost use Rattle.mn_tables.specs.Telling.{standing, Tells};
ghost use Rattle.mn_tables.specs.States.{state_at, state_name};

use crate::names::end_names;
use crate::pieces::put_pieces;
use mn_base::LinkNo;
use mn_edge::{DeviceBad, Sink};
use mn_lines::Page;
use mn_states::LdpState;
use mn_topo::Topology;
use mn_wiring::Dir;

/// The state of a session's end by its name, and `none` where no session lives.
fn state_name(state: Option<LdpState>) -> &'static str
    ensures { result.now ≡ state_name state }
{
    match state {
        None => "none",
        Some(LdpState::Initialized) => "initialized",
        Some(LdpState::OpenSent) => "opensent",
        Some(LdpState::OpenRec) => "openrec",
        Some(LdpState::Operational) => "operational",
    }
}

/// The states of an LDP session at the two ends of its link, none where no session lives.
#[derive(Clone, Copy)]
pub struct LdpEnds {
    /// At the end that the topology names first.
    pub a: Option<LdpState>,
    pub b: Option<LdpState>,
}

/// The texts of the states at the two ends of a link.
#[derive(Clone, Copy)]
struct EndTexts<'t> {
    a: &'t [u8],
    b: &'t [u8],
}

/// Puts the line of a link's session, of which the states come as their texts.
fn put_states<O: Sink>(
    out: &mut O,
    page: &mut Page,
    topology: &Topology,
    link: LinkNo,
    texts: EndTexts<'_>,
) -> Result<(), DeviceBad>
    requires { link.0 < length topology.now.links }
    ensures { (world : World) →
        texts.entry.a.now ≡ state_name (state_at topology.now world link.0 (sender (wiring_of topology.now) link.0 Forth)) →
        texts.entry.b.now ≡ state_name (state_at topology.now world link.0 (sender (wiring_of topology.now) link.0 Back)) →
        Tells (ldp_line topology.now world link.0)
        (standing page.old (O.written out.old) (O.faults out.old)) (standing page.new (O.written out.new) (O.faults out.new)) result }
{
    let (from, to) = end_names(topology, link, Dir::Forth);
    put_pieces(
        out,
        page,
        &[b"ldp ", from, b" ", texts.a, b" ", to, b" ", texts.b, b"\n"],
    )
}

/// Puts the line of a link's LDP session: its two ends, each with its state.
pub fn put_ldp<O: Sink>(
    out: &mut O,
    page: &mut Page,
    topology: &Topology,
    link: LinkNo,
    ends: LdpEnds,
) -> Result<(), DeviceBad>
    requires { link.0 < length topology.now.links }
    ensures { (world : World) →
        ends.a ≡ state_at topology.now world link.0 (sender (wiring_of topology.now) link.0 Forth) →
        ends.b ≡ state_at topology.now world link.0 (sender (wiring_of topology.now) link.0 Back) →
        Tells (ldp_line topology.now world link.0)
        (standing page.old (O.written out.old) (O.faults out.old)) (standing page.new (O.written out.new) (O.faults out.new)) result }
{
    let texts = EndTexts {
        a: state_name(ends.a).as_bytes(),
        b: state_name(ends.b).as_bytes(),
    };
    put_states(out, page, topology, link, texts)
}
