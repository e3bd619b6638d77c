//! What the contracts refuse: each function fixes an input at which a wrong body that a programmer might write answers otherwise,
//! and its own contract tells the right answer, worked by hand.
//!
//! A caller never sees a body. So each is proved by the contracts of the calls that it makes, and fails as soon as one of these is so
//! weak that the wrong body would pass. Nothing stands on this crate.
#![tactic(auto)]

ghost use Rattle.std.specs.Prelude.{◌≡◌, false, [], ◌∷◌, map, option_map, Some, IfOk, length};
ghost use Rattle.mn_topo.specs.declared.steps.Step.TheVariants.{BgpDown};

use mn_base::{LinkNo, NodeNo, VrfNo};
use mn_damage::still_reads;
use mn_entry::ending;
use mn_ipv4::set_ttl;
use mn_mail::{Letter, Mail};
use mn_offers::{Offered, Offers};
use mn_prefix::Prefix;
use mn_stack::Frame;
use mn_topo::{Damage, Step};
use mn_wiring::Dir;
use std::alloc::{AllocError, Global};

/// The session of edges 2 and 1 ends as that of 1 and 2: no body ends the pair as it is written.
pub fn a_pair_ends_in_order() -> Step
    ensures { result ≡ BgpDown (record { 0 = 1 }) (record { 0 = 2 }) }
{
    ending(&Damage::Bgp(NodeNo(2), NodeNo(1), 1))
}

/// Of a packet of 20 bytes and TTL 64 that gets TTL 63, the checksum is that of TTL 63 (RFC 1624): no body keeps the old one.
pub fn the_checksum_is_of_the_new_ttl() -> u8
    ensures { result ≡ 103 }
{
    let mut packet: [u8; 20] = [
        0x45, 0, 0, 20, 0, 0, 0, 0, 64, 6, 0x66, 0xE2, 10, 0, 0, 1, 10, 0, 0, 2,
    ];
    set_ttl(&mut packet, 63);
    packet[10]
}

/// Of two entries that are pushed the upper isn't the bottom (RFC 3032, section 2.1): no body sets each S bit.
pub fn the_upper_of_two_entries_is_no_bottom(mut frame: Frame) -> bool
    requires empty { frame.entries ≡ [] }
    requires room { frame.room ≡ 2 }
    ensures { result ≡ false }
{
    frame.push(16, 64);
    frame.push(17, 64);
    frame.top().bottom
}

/// What was sent first comes first: no body takes the second letter.
pub fn letters_come_in_order(alloc: Global) -> Result<Option<Letter>, AllocError>
    ensures { IfOk result (λ first. option_map (λ letter. letter.bytes) first ≡ Some (1 ∷ [])) }
{
    let mut mail = Mail::new(alloc, 2)?;
    mail.send(letter(alloc, 1)?)?;
    mail.send(letter(alloc, 2)?)?;
    Ok(mail.take(NodeNo(0), NodeNo(1)))
}

/// A letter of one byte from node 0 to node 1.
fn letter(alloc: Global, byte: u8) -> Result<Letter, AllocError>
    ensures { IfOk result (λ letter. letter ≡ record { from = 0; to = 1; bytes = byte ∷ [] }) }
{
    let bytes = vec![in alloc; byte; 1]?;
    Ok(Letter::new(NodeNo(0), NodeNo(1), bytes))
}

/// A withdrawal takes the route of its own VRF and no other's of the same prefix (RFC 4364, section 4.1).
pub fn a_route_of_another_vrf_stays(alloc: Global, prefix: Prefix) -> Result<Offers, AllocError>
    requires { prefix ≡ record { address = 0; length = 0 } }
    ensures { IfOk result (λ offers. map (λ route. route.vrf) offers ≡ 1 ∷ []) }
{
    let mut offers = Offers::new(alloc);
    offers.set(Offered::new(VrfNo(1), prefix, 16, Vec::new(alloc), Vec::new(alloc)))?;
    offers.set(Offered::new(VrfNo(2), prefix, 17, Vec::new(alloc), Vec::new(alloc)))?;
    offers.remove(VrfNo(2), prefix);
    Ok(offers)
}

/// A KEEPALIVE of BGP (RFC 4271, section 4.4) is damage to a session of LDP: no body reads it as BGP there.
pub fn a_keepalive_is_no_pdu(alloc: Global) -> Result<bool, AllocError>
    ensures { IfOk result (λ reads. reads ≡ false) }
{
    let message: [u8; 19] = [
        255, 255, 255, 255, 255, 255, 255, 255, 255, 255, 255, 255, 255, 255, 255, 255, 0, 19, 4,
    ];
    still_reads(alloc, &Damage::Ldp(LinkNo(0), Dir::Forth, 1), &message)
}
