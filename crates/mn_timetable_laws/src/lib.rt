//! When each item in flight is due, and its number: which of the ledger's items each of a network's four flights holds.
//!
//! The ledger has one flight, whose channels are named by links, nodes and edges. A network has four, whose channels are
//! numbered from 0: notices, LDP's messages, BGP's messages, and frames. An item is compared by its channel, due tick and number
//! alone; what it carries is another fact.
//!
//! - `specs/Keys`: the numbers of channels, the items of a flight by key, and what leaves each flight in a step and as time goes on
//! - `specs/Steps`: a journal with one entry more, and what its last step makes of each kind
//! - `proofs/Keys`: what leaves a flight as it is taken or dropped; `proofs/OtherKeys`, `proofs/FrameKeys`, `proofs/Timed`,
//!   `proofs/Made`: what leaves the ledger's flight and is made in it, by the flights' keys
#![tactic(auto)]
