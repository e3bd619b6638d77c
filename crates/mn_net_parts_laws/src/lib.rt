//! What a network stands for, and how it goes on: the packets, and the numbers and due ticks of what flies.
//!
//! Which packets were injected isn't kept, so a network stands for the ledger's packets by a relation. Whether an injection makes
//! an item is decided by the packet's bytes, and the number of each later item by that: so the numbers of all four flights are in it.
//!
//! - `specs/Stands`: when the packets' part and the four flights stand for the ledger after a journal
//! - `specs/Stepped`: a step, by what each part says of it
//! - `specs/Counted`: what counts against a full network
//! - `proofs/Steps`: each kind of step, by exactly what the parts' calls promise
//! - `proofs/Due`, `proofs/InTime`: when frames in flight are due, and what time leaves as it is
#![tactic(auto)]

ghost use Rattle.mn_net_parts_laws.specs.Counted.{IsCounted};
ghost use Rattle.mn_net_parts_laws.specs.Stepped.{GoesOn};

/// Once each part has done a step, the network stands for the ledger after the journal with that step.
pub fn a_network_goes_on()
    ensures { GoesOn }
{}

/// The notices and messages that count against a full network are as many as fly in the three flights.
pub fn news_is_counted()
    ensures { IsCounted }
{}
