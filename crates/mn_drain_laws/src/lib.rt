//! Drains: how a network settles, and in how many steps at most.
//!
//! A drain learns each notice in flight, and then receives each message, until none is left. What is sent meanwhile is received too,
//! so that it ends isn't plain: it ends since each hearing lowers a number, what lies ahead. A change of what a node offers is
//! passed on to those alone whose next hop it is, and next hops stay as they are and lead in no circle once all changes of links
//! are learned. The bound is in numbers that are seen as the drain begins: notices and messages in flight, links, nodes,
//! directions of BGP sessions and exports.
//!
//! - `specs/Drain`: the steps of a drain, its end and its bound
//! - `specs/Sums`, `specs/Weights`, `specs/Ahead`: what lies ahead of the hearings of LDP messages
//! - `specs/Draining`: a network of two links, its drain and its bound
//!
//! What a settled network then does is stated in `mn_settled_laws`.
#![tactic(auto)]

ghost use Rattle.std.specs.Prelude.{ℕ, List, Some, None, true, false, nat_le, ◌≡◌, ◌≤◌, [], length};
ghost use Rattle.mn_ledger.specs.Prelude.{most_steps, Network, IsLawful, JournalEntry, world_of, no_packets, is_empty, refusal_at, Channel, loads_on, flight_of, is_in_order, fits, World, Packets, IsLawfulJournal, IsSettled, Step};
ghost use Rattle.mn_drain_laws.specs.Drain.{taken_from, is_nil, IsDrain, after_steps, IsDrained, IsSwitchedOn, IsDrainStep, drain_bound};
ghost use Rattle.mn_drain_laws.specs.Draining.{TwoLinksDrain};

// 1. Steps of a drain

/// After a lawful journal a notice can be learned, and a message received, exactly where an item is in flight on its channel.
pub fn what_flies_can_be_taken()
    ensures { (topology : Network) (entries : List JournalEntry) (inputs : List (List ℕ)) (step : Step) (on : Channel) →
        IsLawful topology → IsLawfulJournal topology entries inputs → fits topology step ≡ true → taken_from topology step ≡ Some on →
        is_empty topology (world_of topology entries) no_packets step ≡ is_nil (loads_on on (flight_of topology entries inputs).items) }
{}

/// A step of a drain is refused only where the journal is full.
pub fn a_drain_step_is_not_refused()
    ensures { (topology : Network) (world : World) (packets : Packets) (count : ℕ) (step : Step) (bytes : List ℕ) →
        nat_le most_steps count ≡ false → IsDrainStep topology world step → refusal_at topology world packets count step bytes ≡ None }
{}

/// After a lawful journal nothing is left to a drain where no notice and no message is in flight.
pub fn a_drain_ends_where_nothing_flies()
    ensures { (topology : Network) (entries : List JournalEntry) (inputs : List (List ℕ)) →
        IsLawful topology → IsLawfulJournal topology entries inputs →
        ((on : Channel) → is_in_order on ≡ true → loads_on on (flight_of topology entries inputs).items ≡ []) → IsDrained topology (world_of topology entries) }
{}

// 2. Its bound, and what it leads to

/// A drain takes no more steps than its bound, in whatever order notices are learned and messages received.
pub fn a_drain_is_bounded()
    ensures { (topology : Network) (entries : List JournalEntry) (inputs : List (List ℕ)) (steps : List Step) →
        IsLawful topology → IsLawfulJournal topology entries inputs → IsDrain topology (world_of topology entries) steps →
        length steps ≤ drain_bound topology (world_of topology entries) }
{}

/// Where nothing is left to a drain, and LDP is switched on for each link that is up and BGP between all edges, the world is
/// settled.
pub fn a_drained_world_is_settled()
    ensures { (topology : Network) (entries : List JournalEntry) (inputs : List (List ℕ)) (steps : List Step) →
        IsLawful topology → IsLawfulJournal topology entries inputs → IsDrain topology (world_of topology entries) steps →
        IsDrained topology (after_steps topology (world_of topology entries) steps) → IsSwitchedOn topology (world_of topology entries).config →
        IsSettled topology (after_steps topology (world_of topology entries) steps) }
{}

/// The premises of these laws are met in the network of two links, where a drain takes 36 steps, and its bound is 1678.
pub fn two_links_drain()
    ensures { TwoLinksDrain }
{}
