use thiserror::Error;

/// There was no memory: every later change of the edge answers so.
#[derive(Clone, Copy, Debug, PartialEq, Eq, Error)]
#[error("no memory")]
pub struct NoMemory;
