//! What becomes of packets under one failure after another.
//!
//! The routes for each pair of a site and an address are found and sorted once. Links, LDP and sessions are then switched one by one, and
//! a pair's verdict is read off: the first candidate that is told, with `resolve` the first that is reached, and the label switched path
//! to its edge. Where nothing failed of what a pair's packets may need, its verdict is the one without a failure, and needn't be asked for.
//! By link and by node those pairs are listed that what fails there may touch: they alone are marked, and looked at again.
//!
//! ```text
//!   topology, pairs  -- once -->  candidates, the links on the ways to their edges, and by link its pairs
//!                                       |
//!   set_up, set_ldp, end_session  ->  mark_touched  ->  is_spared?  -- no -->  fate: where it arrives or falls, and its path
//! ```
//!
//! - `reach`: `Reach`: made, and switched
//! - `fates`: which candidate is chosen, and what becomes of packets; `verdict`: verdicts
//! - `spared`: pairs whose packets need nothing that failed; `touched`: marks for the others
//! - `plan`: what is found of a pair; `prospects`: it is found; `edges`: the edges, and their places; `listed`: by link and by node its pairs
//! - `specs/Plans`, `specs/Reaching`: what contracts see of `Reach`; `specs/Verdicts`: verdicts as fates; `specs/Spared`: spared pairs; `specs/Touched`: marks
#![tactic(auto)]

mod edges;
mod fates;
mod listed;
mod plan;
mod prospects;
mod reach;
mod spared;
mod touched;
mod verdict;

pub use reach::Reach;
pub use verdict::{End, Terms, Verdict};
