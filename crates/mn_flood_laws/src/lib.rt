//! Adverts of links, flooded from node to node (RFC 2328, section 13), and what holds of every flood: laws of the definitions.
//!
//! ```text
//!   a link changes: both ends renew their own adverts      an advert is received: is it newer than what is kept?
//!     over the link, if it is up: all that the end has        yes: kept, and sent on over the other links that are up
//!     over each other link that is up: its own advert         no:  passed over
//! ```
//!
//! - `specs/Flood`: what each node has, what flies, and what a change and a hearing make of it; the links that a node takes for up
//! - `specs/Drain`: a drain, and the bound of its steps
//! - `specs/Course`: what a script's lines do, what is refused, and where a full count of steps stops
//! - `specs/Laws`: what holds after any events
//! - `specs/ThreeInARow`: three nodes in a row, on which the flood is tried
#![tactic(auto)]

ghost use Rattle.std.specs.Prelude.{◌≡◌, [], List};
ghost use Rattle.mn_wiring.specs.Wiring.{Wiring, JoinsNodes, EndsDiffer};
ghost use Rattle.mn_flood_laws.specs.Flood.{FloodEvent, flood_of};
ghost use Rattle.mn_flood_laws.specs.Drain.{drained, drain_bound};
ghost use Rattle.mn_flood_laws.specs.Laws.{AreEvents, ReachesTheFarEnd, KnowsTheTrees};
ghost use Rattle.mn_flood_laws.specs.ThreeInARow.{IsFlooded, AreRun};

/// Over each link that is up, for each origin, the far end has as great a number as the near end, or one is in flight to it.
pub fn the_far_end_has_it_or_it_flies()
    ensures { (wiring : Wiring) (events : List FloodEvent) → JoinsNodes wiring → EndsDiffer wiring → AreEvents wiring events →
        ReachesTheFarEnd wiring (flood_of wiring events) }
{}

/// Where none flies, the tree of each node over the links that it takes for up is its tree over the links that are up. So any
/// two nodes of one component agree.
pub fn where_none_flies_the_trees_are_those_of_the_links()
    ensures { (wiring : Wiring) (events : List FloodEvent) → JoinsNodes wiring → EndsDiffer wiring → AreEvents wiring events →
        (flood_of wiring events).flying ≡ [] → KnowsTheTrees wiring (flood_of wiring events) }
{}

/// A drain that begins with f adverts ends within f(1 + 2L) hearings, L links.
pub fn a_drain_is_bounded()
    ensures { (wiring : Wiring) (events : List FloodEvent) → JoinsNodes wiring → EndsDiffer wiring → AreEvents wiring events →
        (drained (drain_bound wiring (flood_of wiring events)) wiring (flood_of wiring events)).flying ≡ [] }
{}

/// Three nodes in a row: both links come up, five adverts fly, and the seventh that is received is the last.
pub fn three_in_a_row_are_flooded()
    ensures { IsFlooded }
{}

/// The same by lines of a script: with a drain nine steps, and a link that is up already is refused at its line.
pub fn three_in_a_row_are_run()
    ensures { AreRun }
{}
