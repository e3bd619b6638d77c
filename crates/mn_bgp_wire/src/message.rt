// The values of a message, and the numbers of its format.
ghost use Rattle.std.specs.Prelude.{◌≡◌, IfOk};
ghost use Rattle.mn_bgp_wire.specs.Written.{says_announced, says_withdrawn};

use mn_base::{Rd, Rt};
use mn_prefix::Prefix;
use mn_vpn_nlri::VpnRoute;
use std::alloc::{AllocError, Global};
use std::marker::Model;

/// The marker's bytes (RFC 4271, section 4.1).
pub(crate) const MARKER: usize = 16;

/// Behind the marker; the length has two bytes (RFC 4271, section 4.1).
pub(crate) const LENGTH_AT: usize = 16;

pub(crate) const KIND_AT: usize = 18;

/// The bytes of a header (RFC 4271, section 4.1).
pub(crate) const HEADER: usize = 19;

/// The greatest length of a message, in bytes (RFC 4271, section 4.1).
pub(crate) const GREATEST_LENGTH: usize = 4096;

/// Types of messages (RFC 4271, section 4.1).
pub(crate) const OPEN: u8 = 1;

pub(crate) const UPDATE: u8 = 2;

pub(crate) const NOTIFICATION: u8 = 3;

pub(crate) const KEEPALIVE: u8 = 4;

/// Of BGP-4 (RFC 4271, section 4.2).
pub(crate) const VERSION: u8 = 4;

/// In the body of an OPEN: the AS (2 bytes), the hold time (2), the identifier (4), the length of the parameters (1) and the
/// parameters (RFC 4271, section 4.2).
pub(crate) const ASN_AT: usize = 1;

pub(crate) const HOLD_AT: usize = 3;

pub(crate) const ID_AT: usize = 5;

pub(crate) const PARAMETERS_LENGTH_AT: usize = 9;

pub(crate) const PARAMETERS_AT: usize = 10;

/// The type of a parameter that lists capabilities (RFC 5492, section 4).
pub(crate) const CAPABILITIES: u8 = 2;

/// The code of multiprotocol extensions (RFC 4760, section 8).
pub(crate) const MULTIPROTOCOL: u8 = 1;

/// In the body of an UPDATE, behind the length of the withdrawn IPv4 routes, which has two bytes (RFC 4271, section 4.3).
pub(crate) const LENGTH_OF_ATTRIBUTES_AT: usize = 2;

/// In the body of an UPDATE without withdrawn IPv4 routes (RFC 4271, section 4.3).
pub(crate) const ATTRIBUTES_AT: usize = 4;

/// The place of flag 80, from the low end: who doesn't know the attribute passes it over (RFC 4271, section 4.3).
pub(crate) const OPTIONAL_BIT: u8 = 7;

/// The place of flag 10: the length has two bytes (RFC 4271, section 4.3).
pub(crate) const EXTENDED_BIT: u8 = 4;

/// Flags of the attributes that are written: who doesn't know one passes it over, and it goes on to further peers (RFC 4271,
/// section 4.3).
pub(crate) const OPTIONAL: u8 = 0x80;

pub(crate) const TRANSITIVE: u8 = 0x40;

/// Types of attributes (RFC 4271, section 5.1).
pub(crate) const ORIGIN: u8 = 1;

pub(crate) const AS_PATH: u8 = 2;

pub(crate) const NEXT_HOP: u8 = 3;

pub(crate) const LOCAL_PREF: u8 = 5;

pub(crate) const ATOMIC_AGGREGATE: u8 = 6;

/// RFC 4760, section 3.
pub(crate) const MP_REACH: u8 = 14;

/// RFC 4760, section 4.
pub(crate) const MP_UNREACH: u8 = 15;

/// RFC 4360, section 2.
pub(crate) const EXTENDED_COMMUNITIES: u8 = 16;

/// The types that are known. The third and the fifth are passed over, whatever their flags and value.
pub(crate) const KNOWN: [u8; 8] = [
    ORIGIN,
    AS_PATH,
    NEXT_HOP,
    LOCAL_PREF,
    ATOMIC_AGGREGATE,
    MP_REACH,
    MP_UNREACH,
    EXTENDED_COMMUNITIES,
];

/// Address family IPv4, labelled VPN addresses (RFC 4760, section 3; RFC 4364, section 4.3.4).
pub(crate) const FAMILY: [u8; 3] = [0, 1, 0x80];

/// In an attribute 14, behind the family: the length of the next hop (1 byte), a distinguisher (8), the address (4), a
/// reserved byte, and the routes (RFC 4760, section 3; RFC 4364, section 4.3.2).
pub(crate) const HOP_LENGTH_AT: usize = 3;

pub(crate) const HOP_AT: usize = 12;

pub(crate) const REACH_HEAD: usize = 17;

/// A next hop is a VPN-IPv4 address, of a distinguisher and an address (RFC 4364, section 4.3.2).
pub(crate) const HOP_LENGTH: u8 = 12;

/// The label of a withdrawal, as it is read: the first 20 bits of 80 00 00 (RFC 8277, section 2.4).
pub(crate) const WITHDRAWN_LABEL: u32 = 0x8_0000;

/// What an UPDATE says.
///
/// Contracts see the next hop, the routes that are announced, those that are withdrawn, and the targets.
#[derive(Debug, Drop)]
pub struct Update {
    pub(crate) next_hop: u32,
    pub(crate) reached: Vec<VpnRoute>,
    pub(crate) withdrawn: Vec<VpnRoute>,
    pub(crate) targets: Vec<Rt>,
}

impl Model for Update {
    ghost use Rattle.mn_bgp_wire.specs.Says.{Says};

    ghost Value = { Says };

    ghost view = { λ u. record {
      next_hop = u.next_hop;
      reached = u.reached.items;
      withdrawn = u.withdrawn.items;
      targets = u.targets.items;
    } };
}

impl Update {
    /// What an announcement of a route says, as bytes that spell it are read.
    pub fn announcing(
        alloc: Global,
        next_hop: u32,
        route: VpnRoute,
        targets: &[Rt],
    ) -> Result<Update, AllocError>
        ensures { IfOk result (λ update. update ≡ says_announced next_hop route targets.now) }
    {
        Ok(Update {
            next_hop,
            reached: Vec::from_slice(alloc, &[route])?,
            withdrawn: Vec::new(alloc),
            targets: Vec::from_slice(alloc, targets)?,
        })
    }

    /// What a withdrawal of a route says, as bytes that spell it are read.
    pub fn withdrawing(alloc: Global, rd: Rd, prefix: Prefix) -> Result<Update, AllocError>
        ensures { IfOk result (λ update. update ≡ says_withdrawn rd prefix) }
    {
        let route = VpnRoute {
            rd,
            prefix,
            label: WITHDRAWN_LABEL,
        };
        Ok(Update {
            next_hop: 0,
            reached: Vec::new(alloc),
            withdrawn: Vec::from_slice(alloc, &[route])?,
            targets: Vec::new(alloc),
        })
    }

    /// The address of the edge that announces the routes (RFC 4760, section 3), or 0 where none are announced.
    pub fn next_hop(&self) -> u32
        ensures { result ≡ self.now.next_hop }
    {
        self.next_hop
    }

    /// The routes that are announced (RFC 4760, section 3), in order.
    pub fn reached(&self) -> &[VpnRoute]
        ensures { result.now ≡ self.now.reached }
    {
        &self.reached
    }

    /// The routes that are withdrawn (RFC 4760, section 4), in order. Their labels say nothing.
    pub fn withdrawn(&self) -> &[VpnRoute]
        ensures { result.now ≡ self.now.withdrawn }
    {
        &self.withdrawn
    }

    /// The targets of the routes that are announced (RFC 4360, section 4), in order.
    pub fn targets(&self) -> &[Rt]
        ensures { result.now ≡ self.now.targets }
    {
        &self.targets
    }
}

/// A message (RFC 4271, sections 4.2 to 4.5).
#[derive(Debug, Drop)]
pub enum BgpMessage {
    /// An OPEN, which begins a session.
    Opening {
        /// Always 4.
        version: u8,
        asn: u16,
        /// In seconds; 0 for no limit.
        hold: u16,
        /// The speaker's identifier, an address of its own.
        id: u32,
        /// Whether the speaker takes VPN-IPv4 routes (RFC 4760, section 8).
        vpn: bool,
    },
    /// Routes that come or go.
    Update(Update),
    /// The session ends, for a reason.
    Notification {
        code: u8,
        subcode: u8,
    },
    /// The session goes on.
    KeepAlive,
}
