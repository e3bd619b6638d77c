//! The course of a script: the journal that its lines make, with the clock.
//!
//! ```text
//!   a step         that step, unless it is refused; the clock stands still
//!   a damage       the session whose message is damaged ends, unless that is refused; the clock stands still
//!   run T          what is due in the next T ticks arrives, the earliest first; then T ticks have passed
//!   drain N        notices are learned, and then messages are received, at most N in all; the clock stands still
//!   drain          the same, until none is in flight
//!   flush          frames arrive, the earliest first, until none flies
//!   show ..        a table of what has come about
//! ```
//!
//! Of items that are due at one tick the one that was made first arrives first. What arrives is a step like any other: it
//! enters the journal, with the tick at which it is done. A frame whose number in its direction is a multiple of the link's
//! loss is lost instead.
//!
//! - `coming`: what is in flight, and how a line ends
//! - `specs/Coming`: which item in flight comes next, and the step that delivers it; `specs/Next`: the same in words
//! - `specs/Course`: what one line does; `specs/Expansion`: what a script does, and what is reported of its lines
//! - `specs/Lawful`: what has happened lawfully; `specs/Paced`: how far the clock goes on, and what has arrived
//! - `specs/Drains`: what a line `drain` comes to; `specs/Endings`: how a line ends; `laws`: the laws of all these
//! - `proofs/Runs`: lines and scripts over a network of two links, computed from the definitions
#![tactic(auto)]

mod coming;
mod laws;

pub use coming::{Arrivals, Coming, Ending, Kind};
pub use laws::{
    a_drain_line_drains, a_line_ends_well, a_line_goes_on_lawfully, a_line_is_paced,
    a_script_is_paced, a_script_makes_a_lawful_journal, a_whole_drain_settles, nothing_is_left,
    what_comes_next_can_be_delivered, what_is_injected_is_looked_at,
    what_was_to_arrive_has_arrived,
};
