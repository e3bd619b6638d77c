//! Ways of a configuration, and ways that a failure spares.
//!
//! The label switched path that `Ways` finds by next hops over links with LDP is the one by which a packet goes in a network at rest.
//!
//! Where no link came up and each link of a way stayed up, the way stays, and so does its least cost: other links that went down make
//! other walks dearer, and none cheaper. So after a failure only those pairs of nodes are looked at again on whose ways a link of it is.
//! Where no links lead from one node to another, none lead there after links went down.
//!
//! ```text
//!   before     0 ---- 1 ---- 3      the way from 0 to 3 is by 1
//!               \____ 2 ____/
//!   after      0 ---- 1 ---- 3      the link from 2 to 3 is down: 2 goes by 0 now, and 0 as before
//!               \____ 2
//! ```
//!
//! - `specs/Paths`: what a value of `Ways` has of a topology and a configuration
//! - `specs/Spared`: what goes down beside a way, and what stays
//! - `specs/TwoLinks`: ways over two links, of which one is spared
#![tactic(auto)]

ghost use Rattle.std.specs.Prelude.{ℕ, ◌≡◌, ◌<◌, All, length};
ghost use Rattle.mn_wiring.specs.Wiring.{Wiring, View, JoinsNodes, JoinsOnce};
ghost use Rattle.mn_ledger.specs.Prelude.{Config, IsLawful, Network, wiring_of};
ghost use Rattle.mn_reach_laws.specs.Fates.{lsp};
ghost use Rattle.mn_toward_laws.specs.Spared.{AllCost};
ghost use Rattle.mn_way.specs.Switched.{Switched, IsOver};
ghost use Rattle.mn_way.specs.Way.{label_path};
ghost use Rattle.mn_way_laws.specs.Paths.{AreSwitched, IsOf};
ghost use Rattle.mn_way_laws.specs.Spared.{IsSparedPath, IsSparedWay, KeepsPath, KeepsWay, way_links};
ghost use Rattle.mn_way_laws.specs.TwoLinks.{TwoLinksHaveWays};

/// A label switched path by next hops, over links with LDP, is that of the configuration.
pub fn a_label_path_is_the_configurations()
    ensures { (topology : Network) (config : Config) (switched : Switched) (node to : ℕ) → IsLawful topology → IsOf topology config switched →
        node < length topology.loopbacks → label_path (wiring_of topology) switched.up switched.ldp node to ≡ lsp topology config node to }
{}

/// A way beside which links go down stays as it was.
pub fn a_way_that_is_spared_stays()
    ensures { (wiring : Wiring) (before after : View) (node to : ℕ) → JoinsNodes wiring → JoinsOnce wiring → AllCost wiring → node < length wiring.loopbacks →
        IsSparedWay wiring before after node to → KeepsWay wiring before after node to }
{}

/// And in a topology its label switched path stays, where LDP is on on those of its links on which it was.
pub fn a_path_that_is_spared_stays()
    ensures { (topology : Network) (before after : Config) (node to : ℕ) → IsLawful topology → node < length topology.loopbacks →
        IsSparedPath topology before after node to → KeepsPath topology before after node to }
{}

/// The links of a way are links of the network.
pub fn the_links_of_a_way_are_there()
    ensures { (wiring : Wiring) (view : View) (node to : ℕ) → JoinsNodes wiring → node < length wiring.loopbacks →
        All (λ l. l < length wiring.ends) (way_links wiring view node to) }
{}

/// What is switched as the configuration has it, link by link, is of the configuration.
pub fn what_is_switched_link_by_link()
    ensures { (topology : Network) (config : Config) (switched : Switched) → IsOver (wiring_of topology) switched →
        AreSwitched topology config switched → IsOf topology config switched }
{}

/// What these laws ask is met over two links, and of two ways one is spared.
pub fn two_links_have_ways()
    ensures { TwoLinksHaveWays }
{}
