//! The clock of a step.

/// When a step is done, and the number of the first item that it makes.
#[derive(Clone, Copy, Debug, PartialEq, Eq)]
pub struct Clock {
    /// At most 2 ^ 63.
    pub tick: u64,
    /// Greater than that of each item in flight.
    pub number: u64,
}
