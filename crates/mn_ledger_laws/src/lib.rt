//! Laws of the ledger: what a customer is owed for each packet, and what the network's crates stand on.
//!
//! The ledger (`mn_ledger`) says by definitions what every session has sent and received, which routes each VRF holds, and where
//! every packet is. Here stands what follows from them, in words that need none of those definitions: `specs/Accounts` is the
//! promise to a customer, and is read from top to bottom.
//!
//! ```text
//!   a packet is sent at a site --> it may enter, bound for the best route that its VRF holds (RFC 4364, section 5)
//!        |                              |
//!        | the first rule that applies  | over links, its TTL less by one at each node (RFC 3443, section 3.1)
//!        v                              v
//!     Dropped                        Flying --> Delivered at that route's site, or Dropped by the first rule that applies
//! ```
//!
//! - `specs/Accounts`: each packet that is sent is accounted for; `specs/Deliveries`: the list of all that were delivered
//! - `specs/Named`: what messages, held routes and packets on their way name exists
//! - `specs/Flight`: numbers, ticks and channels of what is in flight, the steps that deliver it, and how much of it counts
//! - `specs/Believed`, `specs/Mentions`: which routes an edge believes, and who says a Mapping of which FEC, in words
//! - `specs/Ids`: the ids of LDP messages, and the frames sent in a direction; `specs/OneMore`: what one entry more adds
//! - `specs/Few`: how many items a journal makes, so few that their numbers, of 64 bits, never run out
//! - `specs/Ages`: how long frames may be on their links
//!
//! A step makes less than 35,000,000,000 items, and a journal has at most 4,000,000 steps:
//!
//! ```text
//!   notices      256                            one for each node
//!   LDP          2 + 258 * 256 * 256 * 1024     each node says one message of each FEC on each of its links
//!   BGP          1 + 65536 * 512 * 513          each route of an edge comes and goes, and is advertised to each peer
//!   a frame      1
//! ```
//!
//! A link has a life, and no frame flies on it for longer: between two steps time goes on only as far as the next arrival is due,
//! and a link's delay is at most its life. A Tick lets time go on without a delivery, and ends each frame that has then outlived
//! its link, by the rule Overdue.
//!
//! ```text
//!   sent            due: sent + delay            sent + life
//!    |-------------------|-----------------------------|------------------>  ticks
//!    |  flies; a step may deliver it at any tick here  |  flies no longer
//! ```
//!
//! So once a node has sent nothing towards an edge for longer than a link's life, no frame for that edge is on the link: by this
//! alone a label that was withdrawn can mean something else (RFC 3031, section 3.14).
//!
//! Each law is the contract of a function that does nothing; `proofs/Witness` shows that what the laws ask is met, and `proofs/AgeWitness`
//! that the bound of a frame's age is reached.
#![tactic(auto)]

ghost use Rattle.std.specs.Prelude.{ℕ, List, ◌≡◌, ◌<◌, true, length};
ghost use Rattle.mn_ledger.specs.Prelude.{Wiring, is_end, IsLawful, Network, wiring_of, JournalEntry, Knowledge, Config, Export, Peerings, world_of, packets_of, IsLawfulJournal, injections, tick_from};
ghost use Rattle.mn_ledger_laws.specs.Accounts.{Accounts};
ghost use Rattle.mn_ledger_laws.specs.Ages.{NoneIsOverdue};
ghost use Rattle.mn_ledger_laws.specs.Believed.{BelievesLastMentions};
ghost use Rattle.mn_ledger_laws.specs.Few.{MakesFew};
ghost use Rattle.mn_ledger_laws.specs.Flight.{FliesAsCounted};
ghost use Rattle.mn_ledger_laws.specs.Ids.{SaysWithIds};
ghost use Rattle.mn_ledger_laws.specs.Mentions.{SaysItsNews};
ghost use Rattle.mn_ledger_laws.specs.Named.{NamesWhatExists, AreBytes, FramesAreGood};
ghost use Rattle.mn_ledger_laws.specs.OneMore.{AddsToItsLists};

/// Each packet that is sent is accounted for: it reaches only the site of the best route that its VRF held as it was sent,
/// unchanged but for TTL and checksum; or it falls to the first rule that applies in the step that ends it; or it is still on
/// its way. What has ended stays so in every longer journal.
pub fn the_network_accounts_for_every_packet()
    ensures { (topology : Network) (entries : List JournalEntry) (inputs : List (List ℕ)) →
        IsLawful topology → IsLawfulJournal topology entries inputs → length inputs ≡ injections entries → Accounts topology entries inputs }
{}

/// After a lawful journal what was sent by LDP and by BGP, and what a VRF holds, names nodes, VRFs, sites, prefixes and attachments that
/// exist.
pub fn what_is_named_exists()
    ensures { (topology : Network) (entries : List JournalEntry) (inputs : List (List ℕ)) →
        IsLawful topology → IsLawfulJournal topology entries inputs → NamesWhatExists topology (world_of topology entries) }
{}

/// After a lawful journal each packet on its way is a good one, bound for a site that exists, with TTL left.
pub fn what_flies_is_a_good_packet()
    ensures { (topology : Network) (entries : List JournalEntry) (inputs : List (List ℕ)) →
        IsLawful topology → IsLawfulJournal topology entries inputs → length inputs ≡ injections entries → AreBytes inputs →
        FramesAreGood topology (world_of topology entries) (packets_of topology entries inputs) }
{}

/// After a lawful journal items fly in the order of their numbers and of their making, each on a channel of the network. The
/// step that delivers one is refused by nothing but a full journal. What is in flight is as much as counts against a full network.
pub fn what_flies_counts()
    ensures { (topology : Network) (entries : List JournalEntry) (inputs : List (List ℕ)) →
        IsLawful topology → IsLawfulJournal topology entries inputs → FliesAsCounted topology entries inputs }
{}

/// An edge believes an export of a peer exactly where their session lives and the last mention of its VRF and prefix, of what
/// the edge has received in this life, is its announcement (RFC 4271, section 3.1). It holds of any two edges, whatever was sent.
pub fn an_edge_believes_what_was_announced_last()
    ensures { (config : Config) (peerings : Peerings) (edge peer : ℕ) (export : Export) → BelievesLastMentions config peerings edge peer export }
{}

/// As a node's knowledge changes it says a Mapping of each FEC that it offers now and hadn't offered, and a Withdraw of each
/// that it had offered and doesn't any more, on its links on which it is OPERATIONAL, and nothing else (RFC 5036, sections 3.5.7
/// and 3.5.10).
pub fn a_node_says_what_has_become_of_its_offers()
    ensures { (wiring : Wiring) (before after : Knowledge) (node : ℕ) → SaysItsNews wiring before after node }
{}

/// After a lawful journal what an end of a link sent in the session's present life is the last of all that it sent on the link,
/// and the ids of these messages are their places, from 1 (RFC 5036, section 3.5).
pub fn ids_are_places_in_a_life()
    ensures { (topology : Network) (entries : List JournalEntry) (inputs : List (List ℕ)) (l end : ℕ) →
        IsLawful topology → IsLawfulJournal topology entries inputs → l < length topology.links → is_end (wiring_of topology) l end ≡ true →
        SaysWithIds topology entries inputs l end }
{}

/// A journal with one entry more delivered what it had, and then what the step delivers, at its tick; and sent in each direction
/// the frames that it had, and then those of the step. It holds of every journal, lawful or not.
pub fn one_entry_more_adds_to_its_lists()
    ensures { (topology : Network) (entries : List JournalEntry) (inputs : List (List ℕ)) (entry : JournalEntry) (bytes : List ℕ) →
        length inputs ≡ injections entries → AddsToItsLists topology entries inputs entry bytes }
{}

/// A lawful journal makes at most 35,000,000,000 items for each entry, and fewer than 2 ^ 62 in all.
pub fn a_journal_makes_few_items()
    ensures { (topology : Network) (entries : List JournalEntry) (inputs : List (List ℕ)) →
        IsLawful topology → IsLawfulJournal topology entries inputs → MakesFew topology entries inputs }
{}

/// After a lawful journal no frame on a link is older than the link's life.
pub fn no_frame_is_overdue()
    ensures { (topology : Network) (entries : List JournalEntry) (inputs : List (List ℕ)) →
        IsLawful topology → IsLawfulJournal topology entries inputs → NoneIsOverdue topology entries inputs }
{}

/// The packets' clock, by which frames grow old, is the one that the journal's last entry leaves: its tick, and after a Tick the
/// one to which time went on. It holds of every journal, lawful or not.
pub fn the_clock_is_that_of_the_journal()
    ensures { (topology : Network) (entries : List JournalEntry) (inputs : List (List ℕ)) →
        (packets_of topology entries inputs).clock ≡ tick_from 0 entries }
{}
