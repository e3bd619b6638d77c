//! Drains where routes are reflected: in how many hearings they end at most.
//!
//! A drain receives what flies until nothing does, and a word that is received may make its hearer speak. It ends since a word is passed on at
//! most twice: what an edge says goes on to other reflectors and to edges, and what a reflector says to edges alone. So each hearing lowers a
//! number, what lies ahead. The bound is in numbers that are seen as the drain begins: messages in flight, reflectors, edges, directions of
//! living sessions and routes.
//!
//! ```text
//!   edge --R(1 + E)--> reflector --1 + E--> reflector
//!                          |                    |
//!                          '--1--> edge         '--1--> edge
//! ```
//!
//! - `specs/Drain`: the steps of a drain, and its bound
//! - `specs/Ahead`: what lies ahead of its hearings
//! - `specs/Draining`: two edges and two reflectors, their drain and its bound
//!
//! RFC 4456, section 6; RFC 4271, sections 3 and 8.2.2.
#![tactic(auto)]

ghost use Rattle.std.specs.Prelude.{ℕ, List, ◌≤◌, length};
ghost use Rattle.mn_ledger.specs.Prelude.{Network, Step};
ghost use Rattle.mn_reflect_ledger_laws.specs.World.{world_of};
ghost use Rattle.mn_reflect_ledger_laws.specs.Quiet.{AreReflected, AreReflectors};
ghost use Rattle.mn_reflect_drain_laws.specs.Drain.{ArePeers, IsDrain, drain_bound};
ghost use Rattle.mn_reflect_drain_laws.specs.Draining.{TwoReflectorsDrain};

/// A drain receives no more words than its bound, in whatever order they are received.
pub fn a_drain_with_reflectors_is_bounded()
    ensures { (topology : Network) (reflectors : List ℕ) (before hearings : List Step) → AreReflected topology before → AreReflectors topology reflectors →
        ArePeers topology reflectors (world_of topology reflectors before).config →
        IsDrain topology reflectors (world_of topology reflectors before) hearings →
        length hearings ≤ drain_bound topology reflectors (world_of topology reflectors before) }
{}

/// The premises of this law are met by two edges and two reflectors, where a drain receives 25 words, and its bound is 192.
pub fn two_reflectors_drain()
    ensures { TwoReflectorsDrain }
{}
