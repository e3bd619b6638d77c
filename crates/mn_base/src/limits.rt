//! The limits of a network and of a run, as `specs/Limits` has them.

/// Targets that a VRF imports, and that it exports.
pub const MOST_TARGETS: usize = 16;

/// Static routes of all sites.
pub const MOST_STATIC_ROUTES: u32 = 65_536;

/// Labels that a node can give, 16 to 1,048,575 (RFC 3032, section 2.1).
pub const MOST_LABELS: usize = 1_048_560;

/// Notices and messages in flight.
pub const MOST_IN_FLIGHT: u64 = 2_000_000;

/// Total lengths of the packets that fly, in bytes.
pub const MOST_FLYING_BYTES: u64 = 268_435_456;

/// Steps that are done in a run.
pub const MOST_STEPS: u32 = 4_000_000;

/// Lines of a script.
pub const MOST_SCRIPT_LINES: u64 = 3_000_000;
