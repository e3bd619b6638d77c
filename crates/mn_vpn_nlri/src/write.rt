// A route and targets, written.
ghost use Rattle.std.specs.Prelude.{◌≡◌, ◌<◌, ◌≤◌, ◌^◌, ◌+◌, ◌++◌, ◌∷◌, true, length, vec_len, vec_capacity, IsOk, OnOk, OnErr};
ghost use Rattle.byteorder.specs.Endian.{big_bytes};
ghost use Rattle.mn_base.specs.Numbers.{has_rd_form};
ghost use Rattle.mn_vpn_nlri.specs.Grammar.{written, written_field, written_targets, as_read, bits_before_prefix, IsNlri, AreTargets, IsAscending, AllTargets};

use crate::message::{
    BITS_BEFORE_PREFIX, BITS_BELOW_LABEL, BOTTOM, COMMUNITY, LABEL_AT, PREFIX_AT, RD_AT, VpnRoute,
    WITHDRAWN,
};
use byteorder::{BigEndian, ByteOrder};
use mn_base::Rt;
use mn_prefix::octets;
use std::alloc::AllocError;

/// Appends the bytes of a route, or of its withdrawal.
///
/// An `Err` changes nothing, and comes only where there wasn't the room.
pub fn write_route(out: &mut Vec<u8>, route: &VpnRoute, withdrawn: bool) -> Result<(), AllocError>
    requires distinguisher { has_rd_form route.now.rd.0 ≡ true }
    requires label { route.now.label < 2 ^ 20 }
    ensures written { OnOk result (out.new.items ≡ out.old.items ++ written route.now withdrawn) }
    ensures succeeds { vec_len out.old + length (written route.now withdrawn) ≤ vec_capacity out.old → IsOk result }
    ensures is_route { IsNlri (written route.now withdrawn) (as_read route.now withdrawn) }
    ensures unchanged { OnErr result (out.new.items ≡ out.old.items) }
{
    let size = PREFIX_AT + octets(route.prefix.length());
    out.extend_from_slice(&fields(route, withdrawn)[..size])
}

fn label_field(route: &VpnRoute, withdrawn: bool) -> u32
    requires { route.now.label < 2 ^ 20 }
    ensures { result ≡ written_field route.now withdrawn }
{
    if withdrawn {
        WITHDRAWN
    } else {
        route.label << BITS_BELOW_LABEL | BOTTOM
    }
}

/// The bytes of a route, with the whole address of its prefix.
fn fields(route: &VpnRoute, withdrawn: bool) -> [u8; 16]
    requires { route.now.label < 2 ^ 20 }
    ensures { result ≡ (bits_before_prefix + route.now.prefix.length) ∷ big_bytes 3 (written_field route.now withdrawn) ++ big_bytes 8 route.now.rd.0 ++ big_bytes 4 route.now.prefix.address }
{
    let mut fields = [0; 16];
    fields[0] = BITS_BEFORE_PREFIX + route.prefix.length();
    BigEndian::write_u24(&mut fields[LABEL_AT..], label_field(route, withdrawn));
    BigEndian::write_u64(&mut fields[RD_AT..], route.rd.0);
    BigEndian::write_u32(&mut fields[PREFIX_AT..], route.prefix.address());
    fields
}

/// Appends targets as extended communities.
///
/// An `Err` changes nothing, and comes only where there wasn't the room.
pub fn write_targets(out: &mut Vec<u8>, targets: &[Rt]) -> Result<(), AllocError>
    requires ascending { IsAscending targets.now }
    requires targets { AllTargets targets.now }
    ensures written { OnOk result (out.new.items ≡ out.old.items ++ written_targets targets.now) }
    ensures succeeds { vec_len out.old + length (written_targets targets.now) ≤ vec_capacity out.old → IsOk result }
    ensures are_targets { AreTargets (written_targets targets.now) targets.now }
    ensures unchanged { OnErr result (out.new.items ≡ out.old.items) }
{
    out.reserve(COMMUNITY * targets.len())?;
    'targets: for target in targets {
        out.extend_from_slice(&target.0.to_be_bytes())?;
    }
    Ok(())
}
