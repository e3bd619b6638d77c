//! The words in which every other crate of mplsnet speaks.
//!
//! - `numbers`: the numbers of nodes, links, VRFs and sites, route distinguishers and targets
//! - `laws`: what holds of rules tried in order (`specs/Rules.antt`) and of lists kept in an order (`specs/Ordered.antt`)
//! - `limits` and `specs/Limits`: how much a network and a run may hold
//! - `list`: a `Vec` that contracts see as a list
//! - `counter`: a counter of steps, for contracts that bound them
#![tactic(auto)]

mod counter;
mod laws;
mod limits;
mod list;
mod numbers;

pub use counter::Steps;
pub use laws::{changes_keep_the_order, first_rule_that_is_broken, numbers_in_order};
pub use limits::{
    MOST_FLYING_BYTES, MOST_IN_FLIGHT, MOST_LABELS, MOST_SCRIPT_LINES, MOST_STATIC_ROUTES,
    MOST_STEPS, MOST_TARGETS,
};
pub use list::ListOf;
pub use numbers::{LinkNo, NodeNo, Rd, Rt, SiteNo, VrfNo};
