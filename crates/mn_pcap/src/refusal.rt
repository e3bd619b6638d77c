// Why a capture isn't read.
ghost use Rattle.std.specs.Prelude.{◌≡◌};
ghost use Rattle.mn_pcap.specs.Lasting.{lasts};

use thiserror::Error;

/// Why a capture isn't read, in the order in which the rules are tried.
#[derive(Clone, Copy, Debug, PartialEq, Eq, Error)]
pub enum PcapRule {
    /// The file ends within its header, within a record's header or within a record's bytes.
    #[error("cut short")]
    CutShort,
    /// It is a file of the next format, pcapng.
    #[error("a pcapng file")]
    IsPcapng,
    /// The first number says neither microseconds nor nanoseconds, in either byte order.
    #[error("not a capture file")]
    BadMagic,
    /// The version isn't 2.4.
    #[error("a version other than 2.4")]
    BadVersion,
    /// The link type is none of 1, 101 and 228.
    #[error("an unknown link type")]
    BadLinkType,
    /// A record claims more captured bytes than any packet has.
    #[error("a record of too many bytes")]
    BadRecord,
}

/// Why there is no answer from a capture.
#[derive(Clone, Copy, Debug, PartialEq, Eq, Error)]
pub enum PcapBad {
    /// The first rule that is broken, and where, in bytes from 0: at a field of the file's header, or
    /// at the beginning of a record's header.
    #[error("{rule} at byte {place}")]
    Refused { rule: PcapRule, place: u64 },
    /// There was no memory for the answer.
    #[error("no memory")]
    NoMemory,
}

/// Whether more bytes don't mend it.
pub(crate) fn lasts(bad: PcapBad) -> bool
    ensures { result ≡ lasts bad }
{
    match bad {
        PcapBad::Refused { rule, .. } => rule != PcapRule::CutShort,
        PcapBad::NoMemory => false,
    }
}
