// What a reflected UPDATE says, and the numbers of its format.
ghost use Rattle.std.specs.Prelude.{◌≡◌};

use mn_bgp_wire::Update;
use std::marker::Model;

/// Behind the marker; the length has two bytes (RFC 4271, section 4.1).
pub(crate) const LENGTH_AT: usize = 16;

pub(crate) const KIND_AT: usize = 18;

/// The type of an UPDATE (RFC 4271, section 4.1).
pub(crate) const UPDATE: u8 = 2;

/// Behind the header: the length of the withdrawn IPv4 routes, and that of the attributes (RFC 4271, section 4.3).
pub(crate) const LENGTH_OF_WITHDRAWN_AT: usize = 19;

pub(crate) const LENGTH_OF_ATTRIBUTES_AT: usize = 21;

/// The first attribute of an UPDATE without withdrawn IPv4 routes (RFC 4271, section 4.3).
pub(crate) const ATTRIBUTES_AT: usize = 23;

/// Behind an ORIGIN of 4 bytes, an AS_PATH of 3 and a LOCAL_PREF of 7.
pub(crate) const REFLECTED_AT: usize = ATTRIBUTES_AT + 14;

/// The place of flag 10, from the low end: the length has two bytes (RFC 4271, section 4.3).
pub(crate) const EXTENDED_BIT: u8 = 4;

/// Flag 80: who doesn't know the attribute passes it over (RFC 4271, section 4.3).
pub(crate) const OPTIONAL: u8 = 0x80;

/// Types of attributes (RFC 4456, section 8).
pub(crate) const ORIGINATOR_ID: u8 = 9;

pub(crate) const CLUSTER_LIST: u8 = 10;

/// The bytes of an IPv4 address.
pub(crate) const ADDRESS: usize = 4;

/// An UPDATE, with what a reflector says of its route.
///
/// Contracts see the UPDATE, the originator and the clusters.
#[derive(Debug, Drop)]
pub struct Reflected {
    pub(crate) update: Update,
    pub(crate) originator: Option<u32>,
    pub(crate) clusters: Vec<u32>,
}

impl Model for Reflected {
    ghost use Rattle.mn_bgp_reflected.specs.Says.{SaysReflected};

    ghost Value = { SaysReflected };

    ghost view = { λ r. record {
      update = r.update;
      originator = r.originator;
      clusters = r.clusters.items;
    } };
}

impl Reflected {
    /// What the UPDATE says beside (RFC 4271, section 4.3).
    pub fn update(&self) -> &Update
        ensures { result.now ≡ self.now.update }
    {
        &self.update
    }

    /// The address of the node that announced the route (RFC 4456, section 8), where it is given.
    pub fn originator(&self) -> Option<u32>
        ensures { result ≡ self.now.originator }
    {
        self.originator
    }

    /// The clusters through which the route came, the last of them first (RFC 4456, section 8); none where it isn't given.
    pub fn clusters(&self) -> &[u32]
        ensures { result.now ≡ self.now.clusters }
    {
        &self.clusters
    }
}
