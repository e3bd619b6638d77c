//! Sets of route targets: what a VRF imports, and what it exports.
//!
//! A VRF's routes are advertised to the other edges with its export targets. An edge takes a route into each of its VRFs
//! whose import set has at least one of the route's targets (RFC 4364, section 4.3.1). A target is an extended
//! community of eight bytes (RFC 4360, sections 2 and 4), and a set has each of them once, in the order of its
//! big-endian number:
//!
//! ```text
//!   0   1   2   3   4   5   6   7
//! +---+---+---+---+---+---+---+---+
//! | 00  02|  AS   |    number     |    65000:100 is 00 02 FD E8 00 00 00 64
//! +---+---+---+---+---+---+---+---+
//! | 01  02|    address    |number |    stands after all of the first kind
//! +---+---+---+---+---+---+---+---+
//! ```
//!
//! How many targets a set may have is for its owner to say.
//!
//! - `set`: `Targets`, a set that is changed by one target at a time
//! - `laws`: an ascending list has each target once, and there is one for each set
#![tactic(auto)]

mod laws;
mod set;

pub use laws::{ascending_is_distinct, one_list_of_a_set};
pub use set::Targets;
