//! Two networks of two providers, joined VRF to VRF (RFC 4364, section 10, option a): definitions and laws.
//!
//! Each edge at a joint takes the other for a site of its own: it attaches it to a VRF, and plain IPv4 packets, without labels, go over.
//! So each network has a journal and a ledger of its own, and a packet that crosses both is a packet of each.
//!
//! ```text
//!   line of a script --> Inject at a site of one network --> Delivered at a site ---- not joined: its end
//!                            ^                                      |
//!                            |      at once, with what was          | joined to a site of the other network
//!                            +------ delivered: its next leg -------+
//! ```
//!
//! - `leg`: which of the two networks, and a leg there
//! - `specs/Pairing`: networks, joints and legs; what has happened in both, and what the last step of a network delivered
//! - `specs/Course`: what each line of a script does, as in `mn_course_laws` but over both networks
//! - `specs/Crossing`: a packet that crosses any number of networks, in the words that a customer is promised (`mn_ledger_laws`)
//! - `specs/Legs`: what the legs of a packet are, after every script
//! - `specs/TwoProviders`: two such networks, worked by hand
#![tactic(auto)]

ghost use Rattle.std.specs.Prelude.{◌≡◌, ◌≤◌, ◌+◌, ℕ, List, ◌∷◌, length};
ghost use Rattle.mn_ledger.specs.Prelude.{IsLawful, HeldRoute, IsLawfulJournal, injections, ttl_of};
ghost use Rattle.mn_ledger_laws.specs.Accounts.{IsPassedOn};
ghost use Rattle.mn_join_laws.specs.Pairing.{Pairing, at_first};
ghost use Rattle.mn_join_laws.specs.Legs.{Line, after_lines, AllHaveLegs, ArriveByTheirLegs};
ghost use Rattle.mn_join_laws.specs.TwoProviders.{TheyAreJoined};
ghost use Rattle.mn_join_laws.specs.Crossing.{Passage, CrossesAll, all_nodes, ItCrosses};

mod leg;

pub use leg::{Leg, Which};

/// A packet that crosses networks one after another arrives as it was sent but for TTL and checksum, and each node of each
/// network has lowered its TTL by one. With a TTL for all nodes it has enough left for each leg to come.
pub fn what_crosses_is_passed_on()
    ensures passed { (bytes last : List ℕ) (passage : Passage) (passages : List Passage) (ttl : ℕ) →
        CrossesAll bytes (passage ∷ passages) ttl last → IsPassedOn bytes ttl last }
    ensures lowered { (bytes last : List ℕ) (passages : List Passage) (ttl : ℕ) →
        CrossesAll bytes passages ttl last → ttl + all_nodes passages ≡ ttl_of bytes }
    ensures lives { (bytes last : List ℕ) (passages : List Passage) (ttl rest : ℕ) →
        CrossesAll bytes passages ttl last → 1 + all_nodes passages + rest ≤ ttl_of bytes → 1 + rest ≤ ttl_of last }
{}

/// A leg crosses its network by a walk of least cost where it is sent in a steady stretch there, its VRF holds a route whose edge
/// is reached, and its TTL is enough. It follows from that network's ledger alone.
pub fn a_leg_with_a_way_crosses()
    ensures { (passage : Passage) (from to : ℕ) (route : HeldRoute) →
        IsLawful passage.topology → IsLawfulJournal passage.topology passage.entries passage.inputs →
        length passage.inputs ≡ injections passage.entries → ItCrosses passage from to route }
{}

/// After any lines each packet that a line sent has its legs: each after the first was sent in the other network, at the site that
/// is joined to the one where the leg before was delivered, with the bytes that were delivered there. What was refused, and where
/// a full journal stopped a line, changes nothing of that.
pub fn each_packet_has_its_legs()
    ensures { (pairing : Pairing) (lines : List Line) → AllHaveLegs pairing (after_lines pairing lines at_first) }
{}

/// So a packet whose last leg was delivered has crossed the networks of all its legs, in the words of `what_crosses_is_passed_on`:
/// it holds of every script that leaves both networks with lawful journals.
pub fn what_the_last_leg_delivers_has_crossed()
    ensures { (pairing : Pairing) (lines : List Line) → ArriveByTheirLegs pairing lines }
{}

/// A packet that is sent at a site of one provider reaches a site of the other, step by step and by lines; and with too small a TTL
/// it expires in the second network.
pub fn two_providers_are_joined()
    ensures { TheyAreJoined }
{}
