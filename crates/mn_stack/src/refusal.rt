use thiserror::Error;

/// Why bytes aren't a frame. The first three are tried in this order.
#[derive(Clone, Copy, Debug, PartialEq, Eq, Error)]
pub enum FrameBad {
    /// The bytes are whole entries, and none has the S bit.
    #[error("no entry is the bottom of the stack")]
    NoBottom,
    /// No whole entry has the S bit, and one to three bytes are left over.
    #[error("the label stack is cut short")]
    Short,
    /// What follows the stack isn't a good IPv4 packet of exactly its total length.
    #[error("the stack holds no IPv4 packet")]
    BadPayload,
    /// There was no memory for the frame, or its stack has more entries than can be counted, about four billion.
    #[error("no memory")]
    NoMemory,
}
