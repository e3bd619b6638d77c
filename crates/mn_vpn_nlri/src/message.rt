// The values, and the numbers of the format.

use mn_base::Rd;
use mn_prefix::Prefix;

/// The bits of the label field and of the route distinguisher, which stand before the prefix (RFC 8277, section 2.2;
/// RFC 4364, section 4.2).
pub(crate) const BITS_BEFORE_PREFIX: u8 = 24 + 64;

/// The bits of an IPv4 address.
pub(crate) const ADDRESS_BITS: u8 = 32;

/// Behind the length, which has one byte.
pub(crate) const LABEL_AT: usize = 1;

/// Behind the label field, which has three bytes.
pub(crate) const RD_AT: usize = 4;

/// Behind the route distinguisher, which has eight bytes.
pub(crate) const PREFIX_AT: usize = 12;

/// Rsrv (3 bits) and S (1 bit) stand below the label in its field (RFC 8277, section 2.2).
pub(crate) const BITS_BELOW_LABEL: u32 = 4;

/// Rsrv zero and S one, as they are written (RFC 8277, section 2.2).
pub(crate) const BOTTOM: u32 = 1;

/// The label field of a withdrawal (RFC 8277, section 2.4).
pub(crate) const WITHDRAWN: u32 = 0x80_0000;

/// The bytes of an extended community (RFC 4360, section 2).
pub(crate) const COMMUNITY: usize = 8;

/// A VPN-IPv4 route and its label.
#[derive(Clone, Copy, Debug, PartialEq, Eq)]
pub struct VpnRoute {
    pub rd: Rd,
    pub prefix: Prefix,
    /// Below 1,048,576. Of a withdrawal the label says nothing.
    pub label: u32,
}
