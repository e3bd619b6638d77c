//! What a network counts beside its parts, so that a step costs no search.
//!
//! Static routes are counted against their limit. Of the frames that are sent in each direction of a link, its loss takes each so
//! many, whatever became of the others: so frames are counted as they are sent, and the numbers of those that are to be lost are
//! kept, ascending. A frame may be carried past another, so that no counter tells it when the frame arrives.
//!
//! - `tally`: the counts, and what changes them; `count`: what a step changes of them; `laws`: what follows from the definitions
//! - `specs/Tallies`: the counts, and when they are what the ledger has after a journal
//! - `specs/Laws`: how they go on with each step; `specs/Rising`: the search for a number
//! - `proofs/Sent`: the frames among what a step made; `proofs/Statics`, `Counting`: each step
#![tactic(auto)]

mod count;
mod laws;
mod tally;

pub use count::{count_frame, count_static};
pub use laws::{a_tally_goes_on, a_tally_tells_losses};
pub use tally::Tally;
