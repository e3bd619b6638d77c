ghost use Rattle.std.specs.Prelude.{◌≡◌};
ghost use Rattle.mn_base.specs.Numbers.{type_field, has_rd_form, has_rt_form};

/// A node's number, from 0 in the topology's order.
#[derive(Clone, Copy, Debug, PartialEq, Eq)]
pub struct NodeNo(pub u16);

/// A link's number, from 0 in the topology's order.
#[derive(Clone, Copy, Debug, PartialEq, Eq)]
pub struct LinkNo(pub u16);

/// A VRF's number, from 0 in the topology's order.
#[derive(Clone, Copy, Debug, PartialEq, Eq)]
pub struct VrfNo(pub u16);

/// A site's number, from 0 in the topology's order.
#[derive(Clone, Copy, Debug, PartialEq, Eq)]
pub struct SiteNo(pub u16);

/// A route distinguisher: its eight bytes as a big-endian number (RFC 4364, section 4.2).
#[derive(Clone, Copy, Debug, PartialEq, Eq, PartialOrd, Ord)]
pub struct Rd(pub u64);

/// A route target: its eight bytes as a big-endian number (RFC 4360, sections 3.1, 3.2 and 4).
#[derive(Clone, Copy, Debug, PartialEq, Eq, PartialOrd, Ord)]
pub struct Rt(pub u64);

/// The first two of eight bytes.
fn type_field(eight_bytes: u64) -> u64
    ensures { result ≡ type_field eight_bytes }
{
    eight_bytes >> 48
}

impl Rd {
    /// The type of a distinguisher `AS:N` (RFC 4364, section 4.2).
    pub const BY_AS: u64 = 0;

    /// The type of a distinguisher `ADDRESS:N` (RFC 4364, section 4.2).
    pub const BY_ADDRESS: u64 = 1;

    /// Whether it is of one of these two types.
    pub fn has_form(self) -> bool
        ensures { result ≡ has_rd_form self.0 }
    {
        let found = type_field(self.0);
        found == Rd::BY_AS || found == Rd::BY_ADDRESS
    }
}

impl Rt {
    /// The type and subtype of a target `AS:N` (RFC 4360, sections 3.1 and 4).
    pub const BY_AS: u64 = 0x0002;

    /// The type and subtype of a target `ADDRESS:N` (RFC 4360, sections 3.2 and 4).
    pub const BY_ADDRESS: u64 = 0x0102;

    /// Whether it is of one of these two types.
    pub fn has_form(self) -> bool
        ensures { result ≡ has_rt_form self.0 }
    {
        let found = type_field(self.0);
        found == Rt::BY_AS || found == Rt::BY_ADDRESS
    }
}
