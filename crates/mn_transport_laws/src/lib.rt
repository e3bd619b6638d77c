//! What the transport of a network is to be: definitions and laws, over which `mn_transport` is built.
//!
//! The transport stands for a journal (`IsTransport`) where its links are up and its nodes have learned as the ledger's world says, each node is
//! that of mn_node's machine, each label is given as the ledger gives it, and the notices and PDUs in flight are the ledger's, in order, with their
//! numbers, due ticks and bytes. A step has its turn (`IsTurn`) where it fits, changes something and takes what is there, as each does that
//! isn't refused after a lawful journal; what it then does is `Did`: which item leaves its flight, and which are made.
//!
//! ```text
//!  what the code does (Acts, TurnsLink, Switches, LearnsNext, HearsNext) --lemmas--> Did --> IsTransport of the journal with one entry more
//! ```
//!
//! - `specs/Carried`: what contracts see of it
//! - `specs/Stands`: when it stands for a journal
//! - `specs/Steps`: when a step has its turn, and what it does
//! - `specs/Sending`: what nodes put into flight
//! - `specs/Starting`: a transport as it starts, and the first labels
//! - `specs/Acting`, `specs/Doing`: what the code does in a step, before that is known to be the ledger's
//! - `laws`: what leaves the transport as it is; `notice`: what flies on a notice's channel
//! - `proofs/`: from what the code does to the ledger's words
//!
//! RFC 5036, sections 2.5.4, 2.6.1 to 2.6.3 and 3.5; RFC 3031, sections 3.10, 3.11 and 3.14.
#![tactic(auto)]

mod laws;
mod notice;

pub use laws::a_transport_goes_on_as_it_was;
pub use notice::Notice;
