//! How a line of a script went, and all of its lines.

/// How a line went. It may be refused for a cause.
#[derive(Clone, Copy, Debug, PartialEq, Eq)]
pub enum Played<C> {
    /// All that it asked for was done.
    All,
    /// It was refused.
    Refused(C),
    /// It met as many steps as there may be, and no line after it is played.
    TooManySteps,
}

/// How the lines went.
#[derive(Clone, Copy, Debug, PartialEq, Eq)]
pub enum Ended {
    /// All were played, of which so many were refused.
    All { refused: u32 },
    /// One met as many steps as there may be, and no line after it was played.
    TooManySteps,
}
