// What the edge says of a packet that a site sends.
ghost use Rattle.std.specs.Prelude.{◌≡◌, ◌≤◌, ◌<◌, ◌^◌, ◌-◌, ℕ, [], None, IsTrue, IfOk, IfSome, length, take};
ghost use Rattle.mn_ledger.specs.Prelude.{good, total_length, ttl_of, aged, head_of, is_unicast, header_rule};
ghost use Rattle.mn_stack.specs.Grammar.{is_packet};
ghost use Rattle.mn_pe.specs.Entries.{Passes, IsFit, alone, behind, entered_over, entered_by, HasLabel};

use mn_base::{NodeNo, SiteNo};
use mn_drops::Rule;
use mn_ipv4::{Bad, Head, check};
use mn_prefix::Prefix;
use mn_stack::Frame;
use mn_vrf::Source;
use std::alloc::{AllocError, Global};

/// What an edge says of a packet that a site sends (RFC 4364, section 5).
#[derive(Drop)]
pub enum Entered {
    /// It is dropped, by one of the first eight rules.
    Drop(Rule),
    /// A site of the same edge gets it: one hop older, without an entry.
    Local(SiteNo, Frame),
    /// It is bound to another edge: one hop older, behind the entry of the route's label there.
    Tunnel { edge: NodeNo, frame: Frame },
}

/// Whether a packet to the address is one that a router sends on (RFC 1122, section 3.2.1.3; RFC 1112, section 4).
fn is_unicast(address: u32) -> bool
    ensures { result ≡ is_unicast address }
{
    let first_byte = address >> 24;
    first_byte != 0 && first_byte != 127 && first_byte < 224
}

/// The rule by which a packet with a bad header is dropped.
fn header_rule(bad: Bad) -> Rule
    ensures { result ≡ header_rule bad }
{
    match bad {
        Bad::NotIpv4 => Rule::NotIpv4,
        Bad::Malformed => Rule::Malformed,
        Bad::Truncated => Rule::Truncated,
        Bad::BadChecksum => Rule::BadChecksum,
    }
}

/// The header of a packet that passes the first seven rules, or the first that drops it.
pub(crate) fn head_at_entry(label: Option<u32>, packet: &[u8]) -> Result<Head, Rule>
    ensures { Passes label packet.now result }
{
    if label.is_none() {
        return Err(Rule::SiteDown);
    }
    let head = match check(packet) {
        Ok(head) => head,
        Err(bad) => return Err(header_rule(bad)),
    };
    if head.ttl < 2 {
        return Err(Rule::TtlExpired);
    }
    if !is_unicast(head.destination) {
        return Err(Rule::NotUnicast);
    }
    Ok(head)
}

/// The packet one hop older, cut to its total length.
fn aged_frame(alloc: Global, packet: &[u8], head: &Head) -> Result<Frame, AllocError>
    requires { IsFit packet.now head.now }
    ensures { IfOk result (λ frame. frame ≡ alone packet.now) }
{
    let mut frame = Frame::over(alloc, &packet[..usize::from(head.total)])?;
    frame.set_ip_ttl(head.ttl - 1);
    Ok(frame)
}

/// What becomes of a packet with this best route.
fn entered_over(
    alloc: Global,
    packet: &[u8],
    head: &Head,
    source: Source,
) -> Result<Entered, AllocError>
    requires fit { IsFit packet.now head.now }
    requires label { HasLabel source }
    ensures { IfOk result (λ entered. entered ≡ entered_over packet.now source) }
{
    let mut frame = aged_frame(alloc, packet, head)?;
    match source {
        Source::Own(site) | Source::Near(_, site) => Ok(Entered::Local(site, frame)),
        Source::Far { edge, label, .. } => {
            frame.push(label, head.ttl - 1);
            Ok(Entered::Tunnel { edge, frame })
        }
    }
}

/// What becomes of a packet that passes the rules on its bytes, with the best route if there is one.
pub(crate) fn entered_by(
    alloc: Global,
    packet: &[u8],
    head: &Head,
    found: Option<(Prefix, Source)>,
) -> Result<Entered, AllocError>
    requires fit { IsFit packet.now head.now }
    requires label { IfSome found (λ route. HasLabel route.1) }
    ensures { IfOk result (λ entered. entered ≡ entered_by packet.now None found) }
{
    match found {
        Some((_, source)) => entered_over(alloc, packet, head, source),
        None => Ok(Entered::Drop(Rule::NoRoute)),
    }
}
