//! Settled worlds: laws of the ledger on what was sent, on what each node and edge then knows, and on packets that are sent.
//!
//! What a node says to a neighbour, and an edge to its peers, is at every moment what it offers at that moment: the past leaves
//! no trace but messages in flight. A world is settled where every change of a link is learned, LDP is switched on for each link
//! that is up, each pair of edges has a BGP session, and all that was sent is received. So nodes and edges act there as the present
//! configuration alone would have them act, and a packet that is sent arrives.
//!
//! ```text
//!   what was sent is what is offered   (RFC 5036, 2.6.1; RFC 4271, 9.2)     every lawful journal
//!          |                                        |
//!   each node sends along least walks        each VRF holds its routes      settled worlds
//!          |________________________________________|
//!                           |
//!                    a packet arrives                                       steady stretches
//! ```
//!
//! - `specs/Offers`, `specs/Routes`: what was sent by LDP and by BGP, and the routes that the configuration alone gives
//! - `specs/Ways`: next hops over the links that are up; `specs/Arrival`: routes by nodes, and arrival
//! - `specs/TwoLinks`: a network of two links that meets what the laws ask
//!
//! The crate `mn_drain_laws` says how a network settles, and how soon.
#![tactic(auto)]

ghost use Rattle.std.specs.Prelude.{Option};
ghost use Rattle.mn_ledger.specs.Prelude.{Damaged, Network, IsLawful, JournalEntry, world_of, packets_of, next_of, IsLawfulJournal, IsSettled, IsSteady, route, SiteNo, Inject, ttl_of, home_of, edges, HeldRoute, held, best, eligible, injections};
ghost use Rattle.std.specs.Prelude.{ℕ, List, ◌≡◌, ◌<◌, ◌≤◌, ◌+◌, [], ◌∷◌, ◌++◌, length};
ghost use Rattle.mn_settled_laws.specs.Offers.{SaysItsOffers};
ghost use Rattle.std.specs.List.{Contains};
ghost use Rattle.mn_settled_laws.specs.Routes.{TellTheirExports, HoldsItsRoutes, routes_of, eligible_of};
ghost use Rattle.mn_settled_laws.specs.Ways.{AreUpWhereOdd, KnowTheWays, Reaches};
ghost use Rattle.mn_settled_laws.specs.TwoLinks.{TwoLinksCarryAPacket};
ghost use Rattle.mn_settled_laws.specs.Arrival.{IsLeastWay, left_after, IsAddressed, route_to, HasArrived};

// 1. What was sent is what is offered, after every lawful journal

/// After a lawful journal, of each FEC that an end of a session has mentioned, the last mention is a Mapping exactly where
/// the end is OPERATIONAL and offers the FEC now.
pub fn each_end_says_what_it_offers()
    ensures { (topology : Network) (entries : List JournalEntry) (inputs : List (List ℕ)) →
        IsLawful topology → IsLawfulJournal topology entries inputs → SaysItsOffers topology (world_of topology entries) }
{}

/// After a lawful journal an edge that is Established with a peer has announced its present exports and no other.
pub fn edges_tell_their_exports()
    ensures { (topology : Network) (entries : List JournalEntry) (inputs : List (List ℕ)) →
        IsLawful topology → IsLawfulJournal topology entries inputs → TellTheirExports topology (world_of topology entries) }
{}

// 2. Settled worlds

/// After a lawful journal a link is up exactly where it has come up or gone down an odd number of times.
pub fn a_link_is_up_where_its_changes_are_odd()
    ensures { (topology : Network) (entries : List JournalEntry) (inputs : List (List ℕ)) →
        IsLawfulJournal topology entries inputs → AreUpWhereOdd (world_of topology entries) }
{}

/// In a settled world each node can send towards exactly the other nodes that it reaches over links that are up, by the next
/// hop of a least walk over these, from which the least cost is less.
pub fn settled_nodes_know_the_ways()
    ensures { (topology : Network) (entries : List JournalEntry) (inputs : List (List ℕ)) →
        IsLawful topology → IsLawfulJournal topology entries inputs → IsSettled topology (world_of topology entries) →
        KnowTheWays topology (world_of topology entries) }
{}

/// In a settled world the route from a node to another that it reaches is a least walk over the links that are up.
pub fn the_route_is_a_least_walk()
    ensures { (topology : Network) (entries : List JournalEntry) (inputs : List (List ℕ)) →
        IsLawful topology → IsLawfulJournal topology entries inputs → IsSettled topology (world_of topology entries) →
        (from to : ℕ) → from < length topology.loopbacks → to < length topology.loopbacks →
        Reaches topology (world_of topology entries) from to →
        IsLeastWay topology (world_of topology entries) from to (route topology (world_of topology entries) from to) }
{}

/// In a settled world each VRF holds exactly its attached statics and, of the present exports of all other VRFs of all edges,
/// those whose targets meet its import set.
pub fn settled_edges_hold_their_routes()
    ensures { (topology : Network) (entries : List JournalEntry) (inputs : List (List ℕ)) →
        IsLawful topology → IsLawfulJournal topology entries inputs → IsSettled topology (world_of topology entries) →
        (edge v : ℕ) (route : HeldRoute) → Contains (edges topology) edge → HoldsItsRoutes topology (world_of topology entries) edge v route }
{}

/// In a settled world the best of a VRF's held routes for an address is the best that the present configuration gives it.
pub fn settled_edges_look_up_their_routes()
    ensures { (topology : Network) (entries : List JournalEntry) (inputs : List (List ℕ)) →
        IsLawful topology → IsLawfulJournal topology entries inputs → IsSettled topology (world_of topology entries) →
        (edge v address : ℕ) → Contains (edges topology) edge →
        best (held topology (world_of topology entries).config (world_of topology entries).peerings edge v) address
        ≡ best (routes_of topology (world_of topology entries).config edge v) address }
{}

/// And the chosen one of those that take part is the best of those that take part of what the present configuration gives it.
pub fn settled_edges_choose_among_their_routes()
    ensures { (topology : Network) (entries : List JournalEntry) (inputs : List (List ℕ)) →
        IsLawful topology → IsLawfulJournal topology entries inputs → IsSettled topology (world_of topology entries) →
        (edge v address : ℕ) → Contains (edges topology) edge →
        best (eligible topology (world_of topology entries) edge v address) address
        ≡ best (eligible_of topology (world_of topology entries) edge v address) address }
{}

// 3. Arrival

/// A packet that is sent in a settled network, in a stretch that only moves packets and after which none flies, arrives: it
/// was at each node of its route, and its TTL is less by the number of these nodes. Frames may overtake each other.
pub fn what_is_sent_arrives()
    ensures { (topology : Network) (before earlier later : List JournalEntry) (tick number : ℕ) (mark : Damaged) (site : SiteNo)
        (inputs : List (List ℕ)) (to : HeldRoute) →
        IsLawful topology → IsLawfulJournal topology before inputs →
        IsSteady topology before (earlier ++ record { tick = tick; step = Inject site number; damaged = mark } ∷ later) →
        site.0 < length topology.sites →
        IsAddressed topology (world_of topology before) site.0 (next_of (left_after (before ++ earlier) inputs)) to →
        Reaches topology (world_of topology before) (home_of topology site.0) to.edge →
        length (route_to topology (world_of topology before) site.0 to) + 1 ≤ ttl_of (next_of (left_after (before ++ earlier) inputs)) →
        ((at : ℕ) → (packets_of topology ((before ++ earlier) ++ record { tick = tick; step = Inject site number; damaged = mark } ∷ later) inputs).flying at ≡ []) →
        HasArrived topology (world_of topology before)
        (packets_of topology ((before ++ earlier) ++ record { tick = tick; step = Inject site number; damaged = mark } ∷ later) inputs)
        (injections (before ++ earlier)) site.0 (next_of (left_after (before ++ earlier) inputs)) to }
{}

/// The premises of these laws are met in the network of two links: it settles, and a packet is sent over both.
pub fn two_links_carry_a_packet()
    ensures { TwoLinksCarryAPacket }
{}
