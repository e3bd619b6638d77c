//! The label bindings that a node has received from its neighbours, and what it must advertise to them.
//!
//! LDP in downstream unsolicited mode (RFC 5036, section 2.6.3) with liberal retention (section 2.6.2.2) and ordered
//! control (section 2.6.1.2): what any open neighbour says of a FEC is kept, the binding of the next hop is used, and a
//! node maps a FEC to its neighbours once it can use it. `Lib` takes what happened as a list of events, all as one
//! change, and answers what must be sent, in order:
//!
//! ```text
//!  Opened, Closed      +-----------------------------+
//!  Map, Withdraw  ---> | heard: by neighbour and FEC | ---> a Release for each Withdraw,
//!  Next                | hops:  by FEC               |      then Map and Withdraw by FEC and neighbour
//!                      +-----------------------------+
//!                                     |
//!                                     +---> usable: the next hop and its label
//! ```
//!
//! Beside these it counts the Releases that neighbours owe (section 3.5.11), and so knows which FECs are free: no neighbour owes a
//! Release of them, and no frame that was sent while they were offered flies any more. Their labels may be given to others.
//!
//! Where memory runs out, the events that were taken are put back.
//!
//! - `event`: what happens, and what must be sent
//! - `known`: the bindings, and since when FECs are at rest
//! - `bindings`: what is kept of labels, and how a list of events is taken
//! - `news`: which FECs are looked at
//! - `row`: what one neighbour advertised for each FEC
//! - `undo`: what puts an event back
//! - `laws`: what is kept is what was sent last; two lists of events are one
#![tactic(auto)]

mod bindings;
mod event;
mod known;
mod laws;
mod news;
mod row;
mod undo;

pub use event::{LibEvent, Tell, TellKind};
pub use known::{Changed, Lib};
pub use laws::{lists_of_events_join, what_is_kept_was_said_last};
pub use news::are_of_fecs;
