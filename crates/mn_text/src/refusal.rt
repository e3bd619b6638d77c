use thiserror::Error;

/// Why a text isn't of its form.
#[derive(Clone, Copy, Debug, PartialEq, Eq, Error)]
pub enum TextBad {
    /// It isn't decimal digits without a leading zero.
    #[error("not a number")]
    NotANumber,
    /// It is a number, and above the greatest that is asked for.
    #[error("too great a number")]
    TooGreat,
    /// It isn't four numbers of 0 to 255 joined by dots.
    #[error("not an address")]
    BadAddress,
    /// It isn't an address, a slash and a number of 0 to 32.
    #[error("not a prefix")]
    BadPrefix,
    /// It is a prefix of which a bit after its length is set.
    #[error("a prefix with host bits")]
    HostBits,
    /// It is neither `AS:N` nor `ADDRESS:N`.
    #[error("neither AS:N nor ADDRESS:N")]
    BadPair,
}
