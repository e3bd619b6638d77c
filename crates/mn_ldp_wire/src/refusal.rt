use thiserror::Error;

/// Why a PDU isn't read. The first three are tried for the PDU, the next two for each message in order, and the three
/// after them for the TLVs of that message in order.
#[derive(Clone, Copy, Debug, PartialEq, Eq, Error)]
pub enum WireBad {
    /// Fewer than 10 bytes are there.
    #[error("fewer bytes than a PDU's header has")]
    Short,
    /// The version isn't 1.
    #[error("a version other than 1")]
    BadVersion,
    /// The PDU length isn't the number of bytes after it, or no message is there.
    #[error("a wrong PDU length")]
    BadPduLength,
    /// Fewer than 8 bytes are left for a message, or its length is below 4 or passes the PDU.
    #[error("a wrong message length")]
    BadMessageLength,
    /// A message's type is unknown and its U bit is zero.
    #[error("an unknown message")]
    UnknownMessage,
    /// The message ends, and a mandatory TLV hasn't come.
    #[error("a mandatory TLV is missing")]
    MissingTlv,
    /// A TLV passes its message, or isn't the one that is due, or comes behind the mandatory ones and has no U bit, or its
    /// value has a wrong length or form, or its label is neither 3 nor from 16 to 1,048,575.
    #[error("a wrong TLV")]
    BadTlv,
    /// The value of a FEC TLV isn't exactly one IPv4 prefix with its host bits zero.
    #[error("a FEC that isn't one IPv4 prefix")]
    BadFec,
    /// There was no memory for the messages.
    #[error("no memory")]
    NoMemory,
}
