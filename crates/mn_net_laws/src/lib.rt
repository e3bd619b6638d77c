//! When a network stands for the ledger, why it refuses a step, what comes next, and what each step comes to: definitions and laws, over which
//! `mn_net` is built.
//!
//! A network is a topology, a journal, a clock and three parts: the transport and the routes, which follow from the journal
//! alone, and the packets. It keeps no ledger, and not which packets were injected; it stands for the ledger of its journal with any
//! packets that led to what it holds.
//!
//! ```text
//!  StandsFor net inputs   the transport, the routes, the packets, the counts: each is what the ledger has
//!                         after net's journal, where the packets that were injected are the inputs
//! ```
//!
//! So a contract of a step says: for whatever packets the network stood, it stands for them now, or for them and the one that entered.
//! After running out of memory it stands for nothing any more, but its journal, verdicts and paths are as they were (`Leaves`, `HasFailed`).
//!
//! - `specs/Now`: what contracts see of a network, when it stands for the ledger, and what always holds of it
//! - `specs/Labels`: what labels mean between any two steps
//! - `specs/Done`: what a step answers, does and leaves
//! - `specs/Bound`: whether a packet that leaves its edge has a way out
//!
//! A network refuses a step by what its own parts show: its links' changes and switches, its edges and sessions, four flights and a few counts.
//!
//! - `specs/Seen`: what they show, and when it is what the ledger says; `specs/Refusal`: the causes, in the ledger's order
//! - `specs/Coming`: what comes next of each kind, by the first of each flight
//! - `specs/Alike`: the laws, in one line each
//! - `proofs/Already`, `Nothing`, `Statics`, `Rows`: the causes, one after another; `proofs/Firsts`, `Comes`: what comes next
//!
//! For each kind of step there is one lemma of what it comes to. It takes the clauses of the calls that `mn_net` makes for the step, as
//! `Transport::learn` and `Transit::begin`, and gives the three facts that the next step needs: the journal is longer by the entry, the network
//! stands for the same packets (or for one more), and what always holds of a network holds again. Nothing of the parts' insides is in it: that is
//! the sign that their contracts are exact.
//!
//! - `proofs/Moves`: the steps that move packets
//! - `proofs/Turns`: the steps of links, LDP, BGP, routes and targets; `proofs/Sites`: a site is attached or detached
//! - `proofs/Starts`: the start; `proofs/Refused`: a refusal
//! - `proofs/Told`, `proofs/Means`: what is told of nodes, and what labels mean
//!
//! RFC 3031, sections 3.1, 3.10 and 3.14; RFC 5036, sections 2.5 and 2.6; RFC 4271, section 8.2.2; RFC 4364, sections 4.3 and 5.
#![tactic(auto)]

ghost use Rattle.std.specs.Prelude.{ℕ, List};
ghost use Rattle.mn_net_laws.specs.Alike.{RefusesAlike, ComesAlike};
ghost use Rattle.mn_net_laws.specs.Labels.{LabelsMean};
ghost use Rattle.mn_net_laws.specs.Now.{NetNow, StandsFor};

/// What a network refuses by what its parts show is what the ledger refuses, for the same cause.
pub fn what_is_seen_refuses_alike()
    ensures { RefusesAlike }
{}

/// What comes next by a network's four flights is what comes next in the ledger.
pub fn what_is_seen_comes_alike()
    ensures { ComesAlike }
{}

/// In a network that stands for the ledger labels mean what the ledger's world says: those that a node's FECs have now, those that it
/// keeps from its neighbours, those in flight, those of VPN routes, the entries of its table, and those of flying frames.
pub fn labels_mean_one_thing()
    ensures { (net : NetNow) (inputs : List (List ℕ)) → StandsFor net inputs → LabelsMean net inputs }
{}
