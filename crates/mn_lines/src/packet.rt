//! The line of a packet, composed over bytes that are there.
ghost use Rattle.std.specs.Prelude.{◌≡◌, ◌+◌, ◌*◌, ◌≤◌, ◌++◌, ◌∷◌, [], codes, length, take};
ghost use Rattle.mn_lines.specs.Names.{name_at, names_of};
ghost use Rattle.mn_lines.specs.Lines.{packet_line, path_text, sent_text, text, verdict_text};

use crate::lines::{Packet, Sent, rule_name};
use crate::names::{direction, node_name, site_name};
use mn_base::{LinkNo, NodeNo, SiteNo};
use mn_drops::Rule;
use mn_laying::{lay, lay_name, lay_number};
use mn_ledger::Verdict;
use mn_topo::Topology;
use mn_wiring::Dir;

/// The name of a node: at most 32 bytes.
#[inline(always)]
fn lay_node(bytes: &mut [u8], at: usize, topology: &Topology, node: NodeNo) -> usize
    requires { at + 32 ≤ length bytes.old }
    ensures most { result ≤ at + 32 }
    ensures laid { take result bytes.new ≡ take at bytes.old ++ name_at topology.now.node_names node.0 }
{
    topology.laws();
    lay_name(bytes, at, node_name(topology, node))
}

/// The name of a site: at most 32 bytes.
#[inline(always)]
fn lay_site(bytes: &mut [u8], at: usize, topology: &Topology, site: SiteNo) -> usize
    requires { at + 32 ≤ length bytes.old }
    ensures most { result ≤ at + 32 }
    ensures laid { take result bytes.new ≡ take at bytes.old ++ name_at topology.now.site_names site.0 }
{
    topology.laws();
    lay_name(bytes, at, site_name(topology, site))
}

/// Which packet it is, and a space.
#[inline(always)]
fn lay_sent(bytes: &mut [u8], at: usize, topology: &Topology, number: u32, sent: Sent) -> usize
    requires { at + 120 ≤ length bytes.old }
    ensures most { result ≤ at + 120 }
    ensures laid { take result bytes.new ≡ take at bytes.old ++ text (sent_text (names_of topology.now) number sent ∷ codes " " ∷ []) }
{
    let after_packet = lay(bytes, at, b"packet ");
    let after_number = lay_number(bytes, after_packet, number as u64);
    let after_line = lay(bytes, after_number, b" line ");
    let after_script = lay_number(bytes, after_line, sent.line as u64);
    let after_site = lay(bytes, after_script, b" site ");
    let after_name = lay_site(bytes, after_site, topology, sent.site);
    let after_record = lay(bytes, after_name, b" record ");
    let end = lay_number(bytes, after_record, sent.record as u64);
    lay(bytes, end, b" ")
}

/// That a packet reached a site with this TTL, and how many deliveries there were up to this one.
#[derive(Clone, Copy)]
struct Delivery {
    site: SiteNo,
    ttl: u8,
    copy: u32,
}

/// A packet that reached a site, and the word before its path.
#[inline(always)]
fn lay_delivered(bytes: &mut [u8], at: usize, topology: &Topology, delivery: Delivery) -> usize
    requires { at + 100 ≤ length bytes.old }
    ensures most { result ≤ at + 100 }
    ensures laid { take result bytes.new ≡
        take at bytes.old ++ text (verdict_text (names_of topology.now) (Verdict.Delivered delivery.ttl delivery.site delivery.copy) ∷ codes " path" ∷ []) }
{
    let after_delivered = lay(bytes, at, b"delivered ");
    let after_site = lay_site(bytes, after_delivered, topology, delivery.site);
    let after_ttl = lay(bytes, after_site, b" ttl ");
    let after_left = lay_number(bytes, after_ttl, delivery.ttl as u64);
    let after_copy = lay(bytes, after_left, b" copy ");
    let end = lay_number(bytes, after_copy, delivery.copy as u64);
    lay(bytes, end, b" path")
}

/// A packet that fell to a rule at a node, and the word before its path.
fn lay_dropped(bytes: &mut [u8], at: usize, topology: &Topology, rule: Rule, node: NodeNo) -> usize
    requires { at + 100 ≤ length bytes.old }
    ensures most { result ≤ at + 100 }
    ensures laid { take result bytes.new ≡
        take at bytes.old ++ text (verdict_text (names_of topology.now) (Verdict.Dropped rule node) ∷ codes " path" ∷ []) }
{
    let after_dropped = lay(bytes, at, b"dropped ");
    let after_rule = lay(bytes, after_dropped, rule_name(rule).as_bytes());
    let after_at = lay(bytes, after_rule, b" at ");
    let end = lay_node(bytes, after_at, topology, node);
    lay(bytes, end, b" path")
}

/// A packet that is on a link between two nodes, and the word before its path.
fn lay_flying(bytes: &mut [u8], at: usize, topology: &Topology, link: LinkNo, dir: Dir) -> usize
    requires { at + 100 ≤ length bytes.old }
    ensures most { result ≤ at + 100 }
    ensures laid { take result bytes.new ≡
        take at bytes.old ++ text (verdict_text (names_of topology.now) (Verdict.Flying link dir) ∷ codes " path" ∷ []) }
{
    topology.laws();
    let (sender, hearer) = direction(topology, link.0, dir);
    let after_flying = lay(bytes, at, b"flying ");
    let after_sender = lay_name(bytes, after_flying, sender);
    let after_space = lay(bytes, after_sender, b" ");
    let end = lay_name(bytes, after_space, hearer);
    lay(bytes, end, b" path")
}

/// What became of a packet, and the word before its path.
#[inline(always)]
fn lay_verdict(bytes: &mut [u8], at: usize, topology: &Topology, verdict: Verdict) -> usize
    requires { at + 100 ≤ length bytes.old }
    ensures most { result ≤ at + 100 }
    ensures laid { take result bytes.new ≡ take at bytes.old ++ text (verdict_text (names_of topology.now) verdict ∷ codes " path" ∷ []) }
{
    match verdict {
        Verdict::Delivered { site, ttl, copy } => {
            lay_delivered(bytes, at, topology, Delivery { site, ttl, copy })
        }
        Verdict::Dropped { rule, node } => lay_dropped(bytes, at, topology, rule, node),
        Verdict::Flying { link, dir } => lay_flying(bytes, at, topology, link, dir),
    }
}

/// The names of some nodes, each after a space.
#[inline(always)]
#[tactic(auto, unfolding(crate::specs::Lines::path_text))]
fn lay_path(bytes: &mut [u8], at: usize, topology: &Topology, path: &[NodeNo]) -> usize
    requires { at + 33 * length path.now ≤ length bytes.old }
    ensures most { result ≤ at + 33 * length path.now }
    ensures laid { take result bytes.new ≡ take at bytes.old ++ path_text (names_of topology.now) path.now }
{
    let mut end = at;
    for node in path {
        let after_space = lay(bytes, end, b" ");
        end = lay_node(bytes, after_space, topology, *node);
    }
    end
}

/// Composes the line of a packet from a place on, and answers where it ends: 64 bytes for each node of the path and four
/// times 64 for the rest are enough.
#[inline(always)]
pub(crate) fn lay_packet(
    bytes: &mut [u8],
    at: usize,
    topology: &Topology,
    packet: Packet<'_>,
) -> usize
    requires { at + 64 * (length packet.path.now + 4) ≤ length bytes.old }
    ensures most { result ≤ length bytes.old }
    ensures laid { take result bytes.new ≡ take at bytes.old
        ++ packet_line (names_of topology.now) packet.entry.number packet.entry.sent packet.entry.verdict packet.entry.path.now }
{
    let after_sent = lay_sent(bytes, at, topology, packet.number, packet.sent);
    let after_verdict = lay_verdict(bytes, after_sent, topology, packet.verdict);
    let end = lay_path(bytes, after_verdict, topology, packet.path);
    lay(bytes, end, b"\n")
}
