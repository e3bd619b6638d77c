//! The table of what is in flight.
ghost use Rattle.std.specs.Prelude.{◌≡◌, ◌<◌, false, length, List, ℕ};
ghost use Rattle.std.specs.List.{flat_map};
ghost use Rattle.mn_ledger.specs.Prelude.{links_of, wiring_of, flight_of};
ghost use Rattle.mn_report.specs.Prelude.{Counted, StandsFor, frames_lines, flight_lines, standing, Tells};

use crate::counts::link_count;
use mn_base::LinkNo;
use mn_course_laws::Kind;
use mn_edge::{DeviceBad, Sink};
use mn_lines::Page;
use mn_net::Net;
use mn_tables::{Direction, put_counts, put_frames};
use mn_wiring::Dir;

/// Puts the lines that count the frames of a link, Forth first.
fn put_frames_of<O: Sink>(
    out: &mut O,
    page: &mut Page,
    net: &Net,
    link: LinkNo,
) -> Result<(), DeviceBad>
    requires { link.0 < length net.now.topology.links }
    ensures told { (inputs : List (List ℕ)) → StandsFor net.now inputs →
        Tells (frames_lines net.now.topology (flight_of net.now.topology net.now.journal inputs).items link.0)
        (standing page.old (O.written out.old) (O.faults out.old)) (standing page.new (O.written out.new) (O.faults out.new)) result }
    ensures cause { Counted (O.faults out.old) (O.faults out.new) result }
{
    let forth = net.flying(link, Dir::Forth);
    let back = net.flying(link, Dir::Back);
    put_frames(
        out,
        page,
        net.topology(),
        Direction(link, Dir::Forth),
        forth,
    )?;
    put_frames(out, page, net.topology(), Direction(link, Dir::Back), back)
}

/// Puts the lines that count the frames of all links, in order.
fn put_all_frames<O: Sink>(out: &mut O, page: &mut Page, net: &Net) -> Result<(), DeviceBad>
    ensures told { (inputs : List (List ℕ)) → StandsFor net.now inputs →
        Tells (flat_map (frames_lines net.now.topology (flight_of net.now.topology net.now.journal inputs).items) (links_of (wiring_of net.now.topology)))
        (standing page.old (O.written out.old) (O.faults out.old)) (standing page.new (O.written out.new) (O.faults out.new)) result }
    ensures cause { Counted (O.faults out.old) (O.faults out.new) result }
{
    for link in 0..link_count(net) {
        put_frames_of(out, page, net, LinkNo(link))?;
    }
    Ok(())
}

/// Puts the lines that count what is in flight: notices, messages of sessions, and the frames of each direction in which
/// one flies.
pub(crate) fn put_flight<O: Sink>(out: &mut O, page: &mut Page, net: &Net) -> Result<(), DeviceBad>
    requires { net.now.failed ≡ false }
    ensures told { (inputs : List (List ℕ)) → StandsFor net.now inputs →
        Tells (flight_lines net.now.topology (flight_of net.now.topology net.now.journal inputs).items)
        (standing page.old (O.written out.old) (O.faults out.old)) (standing page.new (O.written out.new) (O.faults out.new)) result }
    ensures cause { Counted (O.faults out.old) (O.faults out.new) result }
{
    let notices = net.pending(Kind::Notice);
    let messages = net.pending(Kind::Message);
    put_counts(out, page, notices, messages)?;
    put_all_frames(out, page, net)
}
