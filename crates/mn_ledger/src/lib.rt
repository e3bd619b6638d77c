//! The ledger: what becomes of every packet, by definitions over routes, packets and steps alone.
//!
//! The program's answers are compared with it. From a topology, a journal of steps and the packets' bytes alone it says
//! what every session has sent and received, which routes each VRF holds, and where every packet is. It knows no label, no
//! byte of a message, no tree and no table of prefixes. What one node says that has received so much is `mn_node`'s.
//!
//! ```text
//!             Config    what is switched on, the targets, statics and attachments   (a step sets them)
//!  step --->  Views     how many changes of each link each node has learned
//!             Sessions  LDP: what each end has sent and received       (RFC 5036)
//!             Peerings  BGP: what each edge has sent and received      (RFC 4271, RFC 4364)
//!             Packets   verdicts, paths and what flies                 (RFC 3031, RFC 4364, section 5)
//! ```
//!
//! - `specs/World`: the records; `specs/Places`: what a topology says by number; `specs/Tables`: tables by number
//! - `specs/Transport`: views, LDP sessions and where a node can send; `specs/Exports`, `specs/Bgp`, `specs/Held`: what edges
//!   export, what they tell each other, and which routes a VRF holds; `specs/Heads`: the prefixes of these, each with its best route
//! - `specs/Entry`, `specs/Packets`: entry, hops and ends; `specs/Ledger`: the start, one step, a journal
//! - `specs/Refusal`: which steps are refused; `specs/Lawful`: journals of which none is
//! - `specs/Items`: what is in flight, with numbers and due ticks; `specs/Settled`: settled worlds
//! - `specs/Verdicts`, `specs/Parts`, `specs/OneMore`, `specs/Turns`, `specs/Tidy`, `specs/Bounds`, `specs/Quiet`,
//!   `specs/Nearer`, `specs/InFlight`, `specs/Best`, `specs/OneKind`: what the laws say
//! - `verdict`, `refused`: verdicts and causes as values
//! - `laws`: the laws of all these; `proofs/TwoLinks`, `proofs/MoreRuns`, `proofs/Flights`: runs that are computed
//!   step by step
#![tactic(auto)]

mod laws;
mod refused;
mod verdict;

pub use laws::{
    a_step_keeps_other_parts, a_step_withdraws_or_announces, best_names_one_held_route,
    every_message_has_a_row, journals_are_bounded, last_steps_decide, lists_are_tidy,
    memory_refuses_nothing, one_entry_more, packets_are_in_one_place, sessions_are_in_turn,
    the_choice_is_fair, the_next_hop_is_nearer, what_flies_has_not_arrived,
    who_learns_nothing_says_nothing,
};
pub use refused::Refused;
pub use verdict::Verdict;
