// A reflected announcement.
ghost use Rattle.std.specs.Prelude.{◌≡◌, ◌≤◌, ◌<◌, ◌+◌, ◌*◌, ◌^◌, ◌∷◌, ◌++◌, true, length, IfOk, OnOk};
ghost use Rattle.std.specs.List.{flat_map};
ghost use Rattle.byteorder.specs.Endian.{big_bytes};
ghost use Rattle.mn_bgp_reflected.specs.Prelude.{has_rd_form, IsAscending, AllTargets, marker, update_kind, attribute_bytes, update_bytes};
ghost use Rattle.mn_bgp_reflected.specs.Grammar.{IsReflected, address_bytes};
ghost use Rattle.mn_bgp_reflected.specs.Written.{written_originator, written_clusters, reflected, says_reflected};

use crate::message::{
    ADDRESS, ATTRIBUTES_AT, CLUSTER_LIST, KIND_AT, LENGTH_AT, LENGTH_OF_ATTRIBUTES_AT,
    LENGTH_OF_WITHDRAWN_AT, OPTIONAL, ORIGINATOR_ID, REFLECTED_AT, UPDATE,
};
use byteorder::{BigEndian, ByteOrder};
use mn_base::Rt;
use mn_bgp_wire::write_reach;
use mn_vpn_nlri::VpnRoute;
use std::alloc::{AllocError, Global};

/// The bytes of an attribute before its value, whose length has one byte (RFC 4271, section 4.3).
const ATTRIBUTE_HEAD: usize = 3;

/// An UPDATE that announces a route as its edge does, with that edge's loopback as its originator, and the clusters through
/// which it came, the last of them first.
pub fn write_reflected(
    alloc: Global,
    next_hop: u32,
    route: &VpnRoute,
    targets: &[Rt],
    originator: u32,
    clusters: &[u32],
) -> Result<Vec<u8>, AllocError>
    requires distinguisher { has_rd_form route.now.rd.0 ≡ true }
    requires label { route.now.label < 2 ^ 20 }
    requires ascending { IsAscending targets.now }
    requires targets { AllTargets targets.now }
    requires few { length targets.now ≤ 16 }
    requires some { 1 ≤ length clusters.now }
    requires near { length clusters.now ≤ 8 }
    ensures written { IfOk result (λ message. message.items
        ≡ update_bytes (reflected next_hop route.now targets.now originator clusters.now)) }
    ensures read_again { IfOk result (λ message. IsReflected message.items
        (says_reflected next_hop route.now targets.now originator clusters.now)) }
{
    let announced = write_reach(alloc, next_hop, route, targets)?;
    let added = 2 * ATTRIBUTE_HEAD + ADDRESS + ADDRESS * clusters.len();
    let length = announced.len() - ATTRIBUTES_AT + added;
    let mut message = Vec::from_slice(alloc, &update_head(length as u16))?;
    message.extend_from_slice(&announced[ATTRIBUTES_AT..REFLECTED_AT])?;
    put_originator(&mut message, originator)?;
    put_clusters(&mut message, clusters)?;
    message.extend_from_slice(&announced[REFLECTED_AT..])?;
    Ok(message)
}

/// The bytes of an UPDATE before its attributes.
fn update_head(length: u16) -> [u8; ATTRIBUTES_AT]
    requires { length ≤ 4073 }
    ensures { result
        ≡ marker ++ big_bytes 2 (23 + length) ++ update_kind ∷ big_bytes 2 0 ++ big_bytes 2 length }
{
    let mut head = [0xFF; ATTRIBUTES_AT];
    BigEndian::write_u16(&mut head[LENGTH_AT..], ATTRIBUTES_AT as u16 + length);
    head[KIND_AT] = UPDATE;
    BigEndian::write_u16(&mut head[LENGTH_OF_WITHDRAWN_AT..], 0);
    BigEndian::write_u16(&mut head[LENGTH_OF_ATTRIBUTES_AT..], length);
    head
}

/// Appends an ORIGINATOR_ID (RFC 4456, section 8).
fn put_originator(out: &mut Vec<u8>, originator: u32) -> Result<(), AllocError>
    ensures { OnOk result (out.new.items
        ≡ out.old.items ++ attribute_bytes (written_originator originator)) }
{
    out.extend_from_slice(&[OPTIONAL, ORIGINATOR_ID, ADDRESS as u8])?;
    out.extend_from_slice(&originator.to_be_bytes())
}

/// Appends a CLUSTER_LIST (RFC 4456, section 8).
#[tactic(auto, using(crate::proofs::Values::addresses_length))]
fn put_clusters(out: &mut Vec<u8>, clusters: &[u32]) -> Result<(), AllocError>
    requires { length clusters.now ≤ 8 }
    ensures { OnOk result (out.new.items
        ≡ out.old.items ++ attribute_bytes (written_clusters clusters.now)) }
{
    let length = ADDRESS * clusters.len();
    out.extend_from_slice(&[OPTIONAL, CLUSTER_LIST, length as u8])?;
    'clusters: for cluster in clusters {
        out.extend_from_slice(&cluster.to_be_bytes())?;
    }
    Ok(())
}
