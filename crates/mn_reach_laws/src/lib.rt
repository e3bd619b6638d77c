//! Networks at rest: what becomes of a packet there is a function of what is configured.
//!
//! A network is at rest where every change of a link is learned, and all that was sent by LDP and by BGP in a session that lives is received. LDP
//! may be off on a link that is up, and edges may have no BGP session. Then each packet's verdict, path and TTL are those of
//! `verdict_at_rest`, which looks at links, switches, sessions, targets, statics and attachments alone: whatever happened before, in
//! whatever order, and however packets are carried.
//!
//! ```text
//!   NoRoute at its edge      where its VRF has no route for it
//!   NoLsp at its edge        where no label switched path leads to the best route's edge: a link on the way of next hops is without LDP
//!   TtlExpired on the way    where it comes to a node of the way with TTL 1
//!   delivered                else, by the nodes of the way
//! ```
//!
//! - `specs/Rest`: networks at rest
//! - `specs/Fates`: label switched paths, the routes that a VRF has, and what becomes of a packet
//! - `specs/Candidates`: the routes of a VRF for an address, sorted once, and the one that is chosen under a failure
//! - `specs/TwoLinks`: verdicts over two links, worked from the definition, and a network in which all that the law asks is met
//! - `specs/TwoHomes`: verdicts for a customer's network with two edges, with next hops that resolve and without
#![tactic(auto)]

ghost use Rattle.std.specs.Prelude.{ℕ, List, ◌≡◌, ◌<◌, [], ◌∷◌, ◌++◌, true, length};
ghost use Rattle.std.specs.List.{Contains, list_all};
ghost use Rattle.mn_ledger.specs.Prelude.{Damaged, IsLawful, IsLawfulJournal, Network, JournalEntry, HeldRoute, best, edges, world_of, packets_of, next_of, SiteNo, Inject, injections};
ghost use Rattle.mn_ledger.specs.Settled.{moves_packets};
ghost use Rattle.mn_fate_laws.specs.Fate.{HasFate, left_after};
ghost use Rattle.mn_reach_laws.specs.Candidates.{AreCandidates, chosen};
ghost use Rattle.mn_reach_laws.specs.Fates.{taking_part, verdict_at_rest};
ghost use Rattle.mn_reach_laws.specs.Rest.{IsAtRest};
ghost use Rattle.mn_reach_laws.specs.TwoHomes.{TwoHomesHaveTheirVerdicts};
ghost use Rattle.mn_reach_laws.specs.TwoLinks.{TwoLinksHaveTheirVerdicts, TwoLinksRest};

/// A packet that is sent in a stretch of a lawful journal that begins with a network at rest and only moves packets, and after which none
/// flies, has become what the configuration says.
pub fn what_becomes_of_a_packet_at_rest()
    ensures { (topology : Network) (before earlier later : List JournalEntry) (tick number : ℕ) (mark : Damaged) (site : SiteNo) (inputs : List (List ℕ)) →
        IsLawful topology → IsLawfulJournal topology before inputs → IsAtRest topology (world_of topology before) → site.0 < length topology.sites →
        list_all (λ entry. moves_packets entry.step) (earlier ++ record { tick = tick; step = Inject site number; damaged = mark } ∷ later) ≡ true →
        ((at : ℕ) → (packets_of topology ((before ++ earlier) ++ record { tick = tick; step = Inject site number; damaged = mark } ∷ later) inputs).flying at ≡ []) →
        HasFate (packets_of topology ((before ++ earlier) ++ record { tick = tick; step = Inject site number; damaged = mark } ∷ later) inputs)
        (injections (before ++ earlier)) (verdict_at_rest topology (world_of topology before).config site.0 (next_of (left_after (before ++ earlier) inputs))) }
{}

/// In a network at rest the best of the routes that take part is the candidate that is chosen.
pub fn the_first_candidate_is_the_best()
    ensures { (topology : Network) (entries : List JournalEntry) (inputs : List (List ℕ)) →
        IsLawful topology → IsLawfulJournal topology entries inputs → IsAtRest topology (world_of topology entries) →
        (edge v address : ℕ) (candidates : List HeldRoute) → Contains (edges topology) edge →
        AreCandidates topology (world_of topology entries).config edge v address candidates →
        best (taking_part topology (world_of topology entries).config edge v address) address ≡ chosen topology (world_of topology entries).config edge candidates }
{}

/// The definition says of two links what one expects: delivered, no label path, a link cut, no session, no attachment.
pub fn two_links_have_their_verdicts()
    ensures { TwoLinksHaveTheirVerdicts }
{}

/// What the law of packets at rest asks is met over two links.
pub fn two_links_rest()
    ensures { TwoLinksRest }
{}

/// And of a customer's network with two edges: of the better route, of the other one where next hops resolve, and of none.
pub fn two_homes_have_their_verdicts()
    ensures { TwoHomesHaveTheirVerdicts }
{}
