// The values of a capture file, and the numbers of its format.

/// Times are in microseconds.
pub(crate) const MAGIC: u32 = 0xA1B2_C3D4;

/// Times are in nanoseconds.
pub(crate) const MAGIC_OF_NANOSECONDS: u32 = 0xA1B2_3C4D;

/// The type of a pcapng file's first block, the same in both byte orders.
pub(crate) const PCAPNG: u32 = 0x0A0D_0D0A;

pub(crate) const MAJOR: u16 = 2;

pub(crate) const MINOR: u16 = 4;

/// The greatest captured length, in bytes.
pub(crate) const SNAPLEN: u32 = 262_144;

pub(crate) const FILE_HEADER: usize = 24;

pub(crate) const RECORD_HEADER: usize = 16;

/// The link types that are read, of those that tcpdump.org lists.
pub(crate) const LINKTYPE_ETHERNET: u32 = 1;

pub(crate) const LINKTYPE_RAW: u32 = 101;

pub(crate) const LINKTYPE_IPV4: u32 = 228;

/// What a record's bytes begin with, by the link type of the file.
#[derive(Clone, Copy, Debug, PartialEq, Eq)]
pub enum LinkKind {
    /// Link type 1: an Ethernet header of 14 bytes.
    Ethernet,
    /// Link type 101: an IP header, of any version.
    RawIp,
    /// Link type 228: an IPv4 header.
    RawIpv4,
}

/// What the header of a file says.
#[derive(Clone, Copy, Debug, PartialEq, Eq)]
pub struct Form {
    /// Whether numbers have their high byte first.
    pub big: bool,
    pub link: LinkKind,
}

/// Where a record's bytes lie in the file.
#[derive(Clone, Copy, Debug, PartialEq, Eq)]
pub struct Place {
    /// The first byte after the record's header, counted from 0 at the beginning of the file.
    pub at: u64,
    /// How many bytes were captured.
    pub length: u32,
}
