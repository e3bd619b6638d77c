//! Paths while one link changes: laws of the ledger on each stretch of a lawful journal in which one link alone comes up or goes down.
//!
//! ```text
//!    all changes are learned     the link goes down     a packet is sent         it ends
//!  --|---------------------------|----------------------|------------------------|---- one link changes, and whatever else is done
//! ```
//!
//! Some nodes have learned of the change and others haven't, and others yet learn of it while the packet flies. Each sends by the links that it
//! takes for up: by its old next hop or by its new one. A loop of such hops takes each node once, so it is one that some set of nodes makes by
//! itself. Where no set does, no packet comes to a node twice.
//!
//! - `specs/BothNext`: next hops, paths, and what it is that there is no loop
//! - `specs/Changing`: the stretch, the links, and for which edge a packet is bound
//! - `specs/MicroLoop`, `specs/MicroLoopRun`: two networks, one with a loop, and a run of each
#![tactic(auto)]

ghost use Rattle.std.specs.Prelude.{ℕ, List, ◌≡◌, ◌<◌, [], ◌∷◌, ◌++◌, length, slice_index_or, Some, true, false};
ghost use Rattle.std.specs.List.{Contains};
ghost use Rattle.mn_wiring.specs.Wiring.{Wiring, View};
ghost use Rattle.mn_ledger.specs.Prelude.{Damaged, IsLawful, Network, JournalEntry, World, edges, world_of, packets_of, next_of, SiteNo, Inject, injections, ttl_of, wiring_of};
ghost use Rattle.mn_settled_laws.specs.Ways.{way};
ghost use Rattle.mn_settled_laws.specs.Arrival.{left_after};
ghost use Rattle.mn_changing_laws.specs.Changing.{OneLinkChanges, old_and_new_next, links_with, bound_for, MeetsNoNodeTwice};
ghost use Rattle.mn_changing_laws.specs.MicroLoop.{OneHasALoop};
ghost use Rattle.mn_changing_laws.specs.MicroLoopRun.{TheLawIsMet};
ghost use Rattle.mn_changing_laws.specs.BothNext.{both_next, GoesBy, HasNoneTwice, HasNoLoop, HasNoCycle};

/// Where no set of nodes that take the link for up makes a loop, a path by old and new next hops meets no node twice.
pub fn no_loop_no_node_twice()
    ensures { (wiring : Wiring) (down up : View) (edge : ℕ) → HasNoLoop wiring down up edge →
        (path : List ℕ) → GoesBy (both_next wiring down up edge) path → HasNoneTwice path }
{}

/// No set of nodes makes a loop exactly where no walk by old and new next hops leads from a node back to it that meets no other one twice.
pub fn a_loop_is_a_cycle_of_both_hops()
    ensures { (wiring : Wiring) (down up : View) (edge : ℕ) →
        (HasNoCycle wiring down up edge → HasNoLoop wiring down up edge) × (HasNoLoop wiring down up edge → HasNoCycle wiring down up edge) }
{}

/// In a stretch in which one link changes each node sends by its next hop with that link down, or by that with it up.
pub fn each_next_hop_is_the_old_or_the_new_one()
    ensures { (topology : Network) (l : ℕ) (before earlier later : List JournalEntry) (inputs : List (List ℕ)) →
        IsLawful topology → OneLinkChanges topology l before (earlier ++ later) inputs →
        (node edge : ℕ) (hop : ℕ × ℕ) → node < length topology.loopbacks → way topology (world_of topology (before ++ earlier)) node edge ≡ Some hop →
        Contains (old_and_new_next topology (world_of topology before) l edge node) hop.0 }
{}

/// A packet that is sent in such a stretch goes from node to node by next hops towards the edge for which it is bound: each with the link down,
/// or with the link up.
pub fn a_path_goes_by_old_or_new_hops()
    ensures { (topology : Network) (l : ℕ) (before earlier later : List JournalEntry) (tick number : ℕ) (mark : Damaged) (site : SiteNo) (inputs : List (List ℕ)) →
        IsLawful topology → OneLinkChanges topology l before (earlier ++ record { tick = tick; step = Inject site number; damaged = mark } ∷ later) inputs →
        GoesBy (old_and_new_next topology (world_of topology before) l
        (bound_for topology (world_of topology (before ++ earlier)) site.0 (next_of (left_after (before ++ earlier) inputs))))
        (slice_index_or (packets_of topology (before ++ (earlier ++ record { tick = tick; step = Inject site number; damaged = mark } ∷ later)) inputs).paths
        (injections (before ++ earlier)) []) }
{}

/// That edge is one of the network's edges.
pub fn a_packet_is_bound_for_an_edge()
    ensures { (topology : Network) (world : World) (s : ℕ) (bytes : List ℕ) → IsLawful topology → s < length topology.sites →
        Contains (edges topology) (bound_for topology world s bytes) }
{}

/// Where no set of nodes that take the link for up makes a loop towards that edge, the packet meets no node twice, and isn't dropped for
/// its TTL if that was more than there are nodes: whatever is learned and received, and in whatever order, before and while it flies.
pub fn without_a_loop_no_packet_meets_a_node_twice()
    ensures { (topology : Network) (l : ℕ) (before earlier later : List JournalEntry) (tick number : ℕ) (mark : Damaged) (site : SiteNo) (inputs : List (List ℕ)) →
        IsLawful topology → OneLinkChanges topology l before (earlier ++ record { tick = tick; step = Inject site number; damaged = mark } ∷ later) inputs →
        HasNoLoop (wiring_of topology) (links_with topology (world_of topology before) l false) (links_with topology (world_of topology before) l true)
        (bound_for topology (world_of topology (before ++ earlier)) site.0 (next_of (left_after (before ++ earlier) inputs))) →
        MeetsNoNodeTwice (packets_of topology (before ++ (earlier ++ record { tick = tick; step = Inject site number; damaged = mark } ∷ later)) inputs)
        (injections (before ++ earlier)) (length topology.loopbacks) (ttl_of (next_of (left_after (before ++ earlier) inputs))) }
{}

/// The definition says of two networks what one expects: at one cost two nodes send to each other while one has learned, at another none do.
pub fn of_two_networks_one_has_a_loop()
    ensures { OneHasALoop }
{}

/// What the law asks is met in a run of the one network; in a run of the other, with a loop, a packet meets nodes twice and is dropped for its TTL.
pub fn the_law_is_met_in_two_runs()
    ensures { TheLawIsMet }
{}
