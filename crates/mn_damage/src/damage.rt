//! Whether a damaged message's reader reads a packet.
ghost use Rattle.std.specs.Prelude.{◌≡◌, Ok, IfOk, IsErr, IsTrue};
ghost use Rattle.std.specs.Result.{is_ok};
ghost use Rattle.mn_ldp_wire.specs.Reading.{has_header, pdu_of};
ghost use Rattle.mn_bgp_wire.specs.Grammar.{update_kind};
ghost use Rattle.mn_bgp_wire.specs.Reading.{header_of, message_of};
ghost use Rattle.mn_damage.specs.Refusals.{IsHeaderRead, still_reads};

use mn_bgp_wire::{BgpWireBad, read_bgp};
use mn_ldp_wire::{WireBad, read_pdu};
use mn_topo::Damage;
use std::alloc::{AllocError, Global};

/// A PDU is read, unless memory runs out.
fn reads_pdu(alloc: Global, packet: &[u8]) -> Result<bool, AllocError>
    ensures reads { IfOk result (λ reads. reads ≡ is_ok (pdu_of packet.now)) }
    ensures memory { IsErr result → IsTrue (has_header packet.now) }
{
    match read_pdu(alloc, packet) {
        Ok(_) => Ok(true),
        Err(WireBad::NoMemory) => Err(AllocError),
        Err(_) => Ok(false),
    }
}

/// A message of BGP is read, unless memory runs out.
fn reads_bgp(alloc: Global, packet: &[u8]) -> Result<bool, AllocError>
    ensures reads { IfOk result (λ reads. reads ≡ is_ok (message_of packet.now)) }
    ensures memory { IsErr result → header_of packet.now ≡ Ok update_kind }
{
    match read_bgp(alloc, packet) {
        Ok(_) => Ok(true),
        Err(BgpWireBad::NoMemory) => Err(AllocError),
        Err(_) => Ok(false),
    }
}

/// Whether the message's reader reads the packet: then it isn't damaged. `AllocError` says that memory ran out, and nothing else.
pub fn still_reads(alloc: Global, damage: &Damage, packet: &[u8]) -> Result<bool, AllocError>
    ensures reads { IfOk result (λ reads. reads ≡ still_reads damage.now packet.now) }
    ensures memory { IsErr result → IsHeaderRead damage.now packet.now }
{
    match *damage {
        Damage::Ldp(_, _, _) => reads_pdu(alloc, packet),
        Damage::Bgp(_, _, _) => reads_bgp(alloc, packet),
    }
}
