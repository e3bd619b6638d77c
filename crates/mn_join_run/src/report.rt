//! The lines of the report, put on a page.
ghost use Rattle.std.specs.Prelude.{◌≡◌, ◌<◌, ◌+◌, ◌^◌, ℕ, ◌∷◌, [], codes, length, map, slice_index_or};
ghost use Rattle.std.specs.List.{flat_map};
ghost use Rattle.mn_join_run.specs.Prelude.{Pairing, Both, travel, network, text, names_of, name_at, ends_at, pairs_of, sender_of, hearer_of, PairStands, net_of, sending_of, standing, Tells};
ghost use Rattle.mn_join_run.specs.Course.{JoinRun};
ghost use Rattle.mn_join_run.specs.Reading.{IsJoined, AreOf};
ghost use Rattle.mn_join_run.specs.Report.{number_text, leg_text, verdict_text, end_text, end_of, sent_text, no_line, packet_line, packets_text, total_line, ended_text};

use crate::ends::{End, Totals, end_of, totals_of};
use crate::sites::Sites;
use itoa::Buffer;
use mn_base::{LinkNo, NodeNo, SiteNo};
use mn_drops::Rule;
use mn_edge::{DeviceBad, Sink};
use mn_join::Pair;
use mn_join_laws::{Leg, Which};
use mn_ledger::Verdict;
use mn_lines::{Page, Sent, cause_name, node_name, rule_name, site_name};
use mn_tables::put_pieces;
use mn_topo::Topology;
use mn_wiring::{Dir, LinkEnds};
use std::alloc::Global;

/// The number of a network, as the script has it.
fn number_text(which: Which) -> &'static str
    ensures { result.now ≡ number_text which }
{
    match which {
        Which::First => "1",
        Which::Second => "2",
    }
}

/// Puts the number of a network, and the name of a site there.
fn put_place<O: Sink>(
    out: &mut O,
    page: &mut Page,
    number: &[u8],
    site: &[u8],
) -> Result<(), DeviceBad>
    ensures { Tells (text (codes " net " ∷ number.now ∷ codes " site " ∷ site.now ∷ []))
        (standing page.old (O.written out.old) (O.faults out.old)) (standing page.new (O.written out.new) (O.faults out.new)) result }
{
    put_pieces(out, page, &[b" net ", number, b" site ", site])
}

/// Puts a leg: its network, and the site at which it was sent there.
#[tactic(auto, unfolding(crate::specs::Report::leg_text))]
fn put_leg<O: Sink>(
    out: &mut O,
    page: &mut Page,
    pair: &Pair,
    sites: &Sites,
    leg: Leg,
) -> Result<(), DeviceBad>
    ensures { (pairing : Pairing) (both : Both) → PairStands pairing pair.now both → AreOf sites.now both → Tells (leg_text pairing both leg)
        (standing page.old (O.written out.old) (O.faults out.old)) (standing page.new (O.written out.new) (O.faults out.new)) result }
{
    let number = number_text(leg.which);
    let site = sites.at(leg.which, leg.packet);
    let name = site_name(pair.net(leg.which).topology(), site);
    put_place(out, page, number.as_bytes(), name)
}

/// Puts the legs of a packet, in order.
fn put_legs<O: Sink>(
    out: &mut O,
    page: &mut Page,
    pair: &Pair,
    sites: &Sites,
    legs: &[Leg],
) -> Result<(), DeviceBad>
    ensures { (pairing : Pairing) (both : Both) → PairStands pairing pair.now both → AreOf sites.now both → Tells (flat_map (leg_text pairing both) legs.now)
        (standing page.old (O.written out.old) (O.faults out.old)) (standing page.new (O.written out.new) (O.faults out.new)) result }
{
    for leg in legs {
        put_leg(out, page, pair, sites, *leg)?;
    }
    Ok(())
}

/// Puts that a packet reached a site.
#[tactic(auto, unfolding(crate::specs::Report::verdict_text))]
fn put_delivered<O: Sink>(
    out: &mut O,
    page: &mut Page,
    topology: &Topology,
    site: SiteNo,
    ttl: u8,
) -> Result<(), DeviceBad>
    ensures { (copy : ℕ) → Tells (verdict_text (names_of topology.now) (Verdict.Delivered ttl site copy))
        (standing page.old (O.written out.old) (O.faults out.old)) (standing page.new (O.written out.new) (O.faults out.new)) result }
{
    let mut buffer = Buffer::new();
    let left = buffer.format(ttl).as_bytes();
    let name = site_name(topology, site);
    put_pieces(out, page, &[b"delivered ", name, b" ttl ", left, b"\n"])
}

/// Puts the name of a rule, and that of the node where it held.
fn put_rule<O: Sink>(
    out: &mut O,
    page: &mut Page,
    rule: &[u8],
    node: &[u8],
) -> Result<(), DeviceBad>
    ensures { Tells (text (codes "dropped " ∷ rule.now ∷ codes " at " ∷ node.now ∷ codes "\n" ∷ []))
        (standing page.old (O.written out.old) (O.faults out.old)) (standing page.new (O.written out.new) (O.faults out.new)) result }
{
    put_pieces(out, page, &[b"dropped ", rule, b" at ", node, b"\n"])
}

/// Puts that a packet fell to a rule at a node.
#[tactic(auto, unfolding(crate::specs::Report::verdict_text))]
fn put_dropped<O: Sink>(
    out: &mut O,
    page: &mut Page,
    topology: &Topology,
    rule: Rule,
    node: NodeNo,
) -> Result<(), DeviceBad>
    ensures { Tells (verdict_text (names_of topology.now) (Verdict.Dropped rule node))
        (standing page.old (O.written out.old) (O.faults out.old)) (standing page.new (O.written out.new) (O.faults out.new)) result }
{
    let rule = rule_name(rule);
    let name = node_name(topology, node);
    put_rule(out, page, rule.as_bytes(), name)
}

/// The two ends of the link of this number, `a` first, and twice node 0 where there is none.
fn ends_at(links: &[LinkEnds], number: u16) -> (NodeNo, NodeNo)
    ensures { (result.0.0, result.1.0) ≡ ends_at (pairs_of links.now) number }
{
    match links.get(usize::from(number)) {
        Some(link) => (link.a, link.b),
        None => (NodeNo(0), NodeNo(0)),
    }
}

/// Of a link's two ends the one that sends in a direction, and the one that receives.
fn in_direction(ends: (NodeNo, NodeNo), dir: Dir) -> (NodeNo, NodeNo)
    ensures sender { result.0.0 ≡ sender_of (ends.0.0, ends.1.0) dir }
    ensures hearer { result.1.0 ≡ hearer_of (ends.0.0, ends.1.0) dir }
{
    match dir {
        Dir::Forth => ends,
        Dir::Back => (ends.1, ends.0),
    }
}

/// Puts that a packet is on its way over a link.
#[tactic(auto, unfolding(crate::specs::Report::verdict_text))]
fn put_flying<O: Sink>(
    out: &mut O,
    page: &mut Page,
    topology: &Topology,
    link: LinkNo,
    dir: Dir,
) -> Result<(), DeviceBad>
    ensures { Tells (verdict_text (names_of topology.now) (Verdict.Flying link dir))
        (standing page.old (O.written out.old) (O.faults out.old)) (standing page.new (O.written out.new) (O.faults out.new)) result }
{
    let ends = ends_at(topology.links(), link.0);
    let (from, to) = in_direction(ends, dir);
    let sender = node_name(topology, from);
    let hearer = node_name(topology, to);
    put_pieces(out, page, &[b"flying ", sender, b" ", hearer, b"\n"])
}

/// Puts what became of a packet in a network.
fn put_verdict<O: Sink>(
    out: &mut O,
    page: &mut Page,
    topology: &Topology,
    verdict: Verdict,
) -> Result<(), DeviceBad>
    ensures { Tells (verdict_text (names_of topology.now) verdict)
        (standing page.old (O.written out.old) (O.faults out.old)) (standing page.new (O.written out.new) (O.faults out.new)) result }
{
    match verdict {
        Verdict::Delivered { site, ttl, .. } => put_delivered(out, page, topology, site, ttl),
        Verdict::Dropped { rule, node } => put_dropped(out, page, topology, rule, node),
        Verdict::Flying { link, dir } => put_flying(out, page, topology, link, dir),
    }
}

/// Puts the end of a packet, and ends its line.
fn put_end<O: Sink>(out: &mut O, page: &mut Page, pair: &Pair, end: End) -> Result<(), DeviceBad>
    ensures { (pairing : Pairing) (both : Both) → PairStands pairing pair.now both → Tells (end_text pairing end)
        (standing page.old (O.written out.old) (O.faults out.old)) (standing page.new (O.written out.new) (O.faults out.new)) result }
{
    match end {
        End::Judged(which, verdict) => put_verdict(out, page, pair.net(which).topology(), verdict),
        End::Refused(cause) => {
            let cause = cause_name(cause).as_bytes();
            put_pieces(out, page, &[b"refused ", cause, b"\n"])
        }
    }
}

/// Puts which packet it is, and what sent it.
#[tactic(auto, unfolding(crate::specs::Report::sent_text))]
fn put_sent<O: Sink>(out: &mut O, page: &mut Page, number: u32, sent: Sent) -> Result<(), DeviceBad>
    ensures { Tells (sent_text number (sending_of sent))
        (standing page.old (O.written out.old) (O.faults out.old)) (standing page.new (O.written out.new) (O.faults out.new)) result }
{
    let (mut first, mut second, mut third) = (Buffer::new(), Buffer::new(), Buffer::new());
    let number = first.format(number).as_bytes();
    let line = second.format(sent.line).as_bytes();
    let nth = third.format(sent.record).as_bytes();
    put_pieces(
        out,
        page,
        &[b"packet ", number, b" line ", line, b" record ", nth],
    )
}

/// The packet of a number, from 0, and what sent it.
#[derive(Clone, Copy)]
struct SentPacket {
    number: u32,
    sent: Sent,
}

/// Puts the line of a packet.
fn put_packet<O: Sink>(
    out: &mut O,
    page: &mut Page,
    pair: &Pair,
    sites: &Sites,
    packet: SentPacket,
) -> Result<(), DeviceBad>
    requires joined { IsJoined pair.now }
    requires there { packet.number < length pair.now.travels }
    requires few { packet.number + 1 < 2 ^ 32 }
    ensures { (pairing : Pairing) (both : Both) → PairStands pairing pair.now both → AreOf sites.now both →
        Tells (packet_line pairing both (packet.number + 1) (sending_of packet.sent) (travel both packet.number))
        (standing page.old (O.written out.old) (O.faults out.old)) (standing page.new (O.written out.new) (O.faults out.new)) result }
{
    let SentPacket { number, sent } = packet;
    put_sent(out, page, number + 1, sent)?;
    put_legs(out, page, pair, sites, pair.legs(number))?;
    page.put(out, b" ")?;
    put_end(out, page, pair, end_of(pair, number))
}

/// What sent the packet of a number, from 0; past the last there is none, and line 0 stands for it.
fn sent_at(sent: &[Sent], packet: u32) -> Sent
    ensures { sending_of result ≡ slice_index_or (map sending_of sent.now) packet no_line }
{
    match sent.get(packet as usize) {
        Some(sent) => *sent,
        None => Sent {
            line: 0,
            site: SiteNo(0),
            record: 0,
        },
    }
}

/// Puts the line of each packet, in order.
fn put_packets<O: Sink>(
    out: &mut O,
    page: &mut Page,
    pair: &Pair,
    sites: &Sites,
    sent: &[Sent],
) -> Result<(), DeviceBad>
    requires { IsJoined pair.now }
    ensures { (pairing : Pairing) (run : JoinRun) → PairStands pairing pair.now run.both → AreOf sites.now run.both → map sending_of sent.now ≡ run.sendings →
        Tells (packets_text pairing run)
        (standing page.old (O.written out.old) (O.faults out.old)) (standing page.new (O.written out.new) (O.faults out.new)) result }
{
    for packet in 0..pair.packets() {
        put_packet(
            out,
            page,
            pair,
            sites,
            SentPacket {
                number: packet,
                sent: sent_at(sent, packet),
            },
        )?;
    }
    Ok(())
}

/// Puts the last line.
#[tactic(auto, unfolding(crate::specs::Report::total_line))]
fn put_total<O: Sink>(out: &mut O, page: &mut Page, totals: Totals) -> Result<(), DeviceBad>
    ensures { Tells (total_line totals)
        (standing page.old (O.written out.old) (O.faults out.old)) (standing page.new (O.written out.new) (O.faults out.new)) result }
{
    let (mut first, mut second, mut third) = (Buffer::new(), Buffer::new(), Buffer::new());
    let (mut fourth, mut fifth) = (Buffer::new(), Buffer::new());
    let packets = first.format(totals.packets).as_bytes();
    let delivered = second.format(totals.delivered).as_bytes();
    let dropped = third.format(totals.dropped).as_bytes();
    let flying = fourth.format(totals.flying).as_bytes();
    let refused = fifth.format(totals.refused).as_bytes();
    put_pieces(
        out,
        page,
        &[
            b"total packets ",
            packets,
            b" delivered ",
            delivered,
            b" dropped ",
            dropped,
            b" flying ",
            flying,
            b" refused ",
            refused,
            b"\n",
        ],
    )
}

/// Puts what became of each packet, with the lines that sent them in order, and what all came to.
pub fn put_ended<O: Sink>(
    alloc: Global,
    out: &mut O,
    page: &mut Page,
    pair: &Pair,
    sent: &[Sent],
) -> Result<(), DeviceBad>
    requires { IsJoined pair.now }
    ensures { (pairing : Pairing) (run : JoinRun) → PairStands pairing pair.now run.both → map sending_of sent.now ≡ run.sendings → Tells (ended_text pairing run)
        (standing page.old (O.written out.old) (O.faults out.old)) (standing page.new (O.written out.new) (O.faults out.new)) result }
{
    let sites = Sites::of(alloc, pair)?;
    put_packets(out, page, pair, &sites, sent)?;
    put_total(out, page, totals_of(pair))
}
