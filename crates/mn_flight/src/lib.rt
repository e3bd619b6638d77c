//! What is in flight between the actors of a network: items on channels, each due at a tick and with a number.
//!
//! Items are numbered in the order in which they are made. A channel hands out what is on it by its place; across all
//! channels the item that is delivered next is the one of least due tick and, among these, of least number.
//!
//! ```text
//! number        4       7       9      12
//! channel       0       2       0       2
//! due          11      10      11      10      earliest(10) is number 7, take(2, 1) is number 12
//! ```
//!
//! A network is written against `Flight` and names the form that it holds in one place, so that a faster form takes the
//! plain one's place by one line.
//!
//! - this file: `Item` and `Back`
//! - `calls`: `Flight`, the calls that each flight has
//! - `clock`: `Clock`, when a step is done and which numbers its items get
//! - `list`: `ListFlight`, the plainest one, its items in a `Vec`
//! - `laws`: what follows from the definitions of `specs/`
#![tactic(auto)]

mod calls;
mod clock;
mod laws;
mod list;

pub use calls::Flight;
pub use clock::Clock;
pub use laws::{calls_keep_a_flight, earliest_goes_first, four_items_fly, taking_leaves_one_less};
pub use list::ListFlight;

/// What flies, with its channel, the tick at which it is due, and its number.
#[derive(Debug, PartialEq, Eq, Drop)]
pub struct Item<T> {
    /// Which channel, from 0.
    pub channel: u32,
    /// The tick at which it may be delivered, or later.
    pub due: u64,
    /// Its place in the order in which items are made. No other item in flight has it.
    pub number: u64,
    pub item: T,
}

/// An item for which there was no memory.
#[derive(Debug, Drop)]
pub struct Back<T>(pub T);
