//! It arrives: a law of whole journals on packets that are sent while the network is settled.
//!
//! ```text
//!   settled at `from`       the packet is sent        no frame flies at `to`
//!          |-- only packets move --|-- only packets move --|
//! ```
//!
//! Where such a stretch of a lawful journal stands around an injection, and the packet has a route whose edge is reached over
//! links that are up, and TTL enough for it, then it was delivered at the route's site, by a walk of least cost, and its TTL is
//! less by the number of nodes that it passed. What follows the stretch changes nothing of this.
//!
//! - `specs/Arrival`: what is asked, and what follows
//! - `specs/TwoLinks`: a network of two links that meets what is asked
//!
//! The law of one stretch that ends a journal is in `mn_settled_laws`; how a network settles is stated in `mn_drain_laws`.
#![tactic(auto)]

ghost use Rattle.std.specs.Prelude.{ℕ, List};
ghost use Rattle.mn_ledger.specs.Prelude.{Network, IsLawful, JournalEntry, IsLawfulJournal};
ghost use Rattle.mn_arrival_laws.specs.Arrival.{ItArrives, ArrivesWhereItCan};
ghost use Rattle.mn_arrival_laws.specs.TwoLinks.{TwoLinksHaveAnArrival};

/// Each packet that is sent in a steady stretch of a lawful journal, after which no frame flies, has arrived by a least walk, if
/// it has a route, the route's edge is reached over links that are up, and its TTL is at least the links of the way and 2.
pub fn every_packet_of_a_steady_stretch_arrives()
    ensures { (topology : Network) (entries : List JournalEntry) (inputs : List (List ℕ)) →
        IsLawful topology → IsLawfulJournal topology entries inputs → ItArrives topology entries inputs }
{}

/// Where the topology resolves next hops, each packet that is sent so, and for which some held route is in reach, arrives at the site of
/// one of these, than which none in reach is better.
pub fn every_packet_arrives_where_it_can()
    ensures { (topology : Network) (entries : List JournalEntry) (inputs : List (List ℕ)) →
        IsLawful topology → IsLawfulJournal topology entries inputs → ArrivesWhereItCan topology entries inputs }
{}

/// What the law asks is met in the network of two links, where a packet is sent over both.
pub fn two_links_have_an_arrival()
    ensures { TwoLinksHaveAnArrival }
{}
