//! Networks as routers' profiles see them: what becomes of a packet at rest where routers choose otherwise than a run does.
//!
//! A profile says which of several next hops of equal cost packets go to, which routes of other edges take part, whether a link without LDP
//! costs the most (LDP-IGP synchronization), and for what a VPN label stands. Where several next hops are taken, or nobody knows which one
//! is, a packet has several ways: it is delivered where each arrives, partly where some do, and dropped where none does.
//!
//! ```text
//!   topology, profile, failure  ->  ways_under: all ways of a packet  ->  verdict_under: delivered | partly | dropped; sites, falls, TTLs, hops
//!                    by the choices of a run: one way, which is fate_under
//! ```
//!
//! Each path that is told is the path of some choice of next hops, and the path of each choice is told. Where LDP is on on all links that
//! are up every choice arrives, by a walk of least cost.
//!
//! - `specs/Profiles`: the choices of a run, and the network as a profile has it: costs and resolution
//! - `specs/Paths`: next hops, label switched paths, and whether labels lead there by some choice or by all
//! - `specs/Lookups`: the routes that are chosen in a VRF, and what a lookup comes to
//! - `specs/Ways`: all ways of a packet; `specs/Verdicts`: its verdict
//! - `specs/Choices`: next hops that nodes have chosen, and what is told of all choices; `specs/ByChoices`: what becomes of a packet by them
//! - `specs/Journals`: what is told by the choices of a run
//! - `specs/FourAnswers`, `specs/LookedUpAgain`: verdicts of one network by several profiles, worked from the definitions
//! - `specs/TwoLinks`: a network in which all that the laws of choices ask is met
#![tactic(auto)]

ghost use Rattle.std.specs.Prelude.{ℕ, ◌≡◌, ◌<◌, Bool, true, false, List, [], ◌∷◌, length, Some};
ghost use Rattle.std.specs.List.{Contains};
ghost use Rattle.mn_wiring.specs.Paths.{IsLeast, next};
ghost use Rattle.mn_topo.specs.Network.{Network, wiring_of};
ghost use Rattle.mn_topo.specs.Lawful.{IsLawful};
ghost use Rattle.mn_ledger.specs.World.{Config};
ghost use Rattle.mn_reach_laws.specs.Fates.{up_links};
ghost use Rattle.mn_failure_laws.specs.Failures.{Failure, config_under};
ghost use Rattle.mn_failure_laws.specs.Fates.{fate_to, fate_under};
ghost use Rattle.mn_profile.specs.declared.switches.Resolve.{Resolve};
ghost use Rattle.mn_profile.specs.declared.switches.Profile.{Profile};
ghost use Rattle.mn_profile_laws.specs.Profiles.{of_run, of_one_hop, of_any_hop, asks_links, network_under};
ghost use Rattle.mn_profile_laws.specs.Paths.{some_lead, all_lead};
ghost use Rattle.mn_profile_laws.specs.Ways.{Ends, ways_under};
ghost use Rattle.mn_profile_laws.specs.Choices.{Choice, Chooses, ChoosesLabelled, chosen_lsp, CoversEachChoice, TellsOfChoices, HasLdpWhereUp, ArrivesAtCost};
ghost use Rattle.mn_profile_laws.specs.ByChoices.{Choices, AllChoose, fate_by};
ghost use Rattle.mn_profile_laws.specs.Journals.{AllGoTheirOneWay};
ghost use Rattle.mn_profile_laws.specs.FourAnswers.{FourAnswers};
ghost use Rattle.mn_profile_laws.specs.LookedUpAgain.{LookedUpAgain};
ghost use Rattle.mn_profile_laws.specs.TwoLinks.{TwoLinksChoose};

// 1. The choices of a run

/// Where each node has one next hop, and routes are resolved by labels or not at all, a packet has one way: its fate in the network as the
/// profile has it.
pub fn one_next_hop_makes_one_way()
    ensures { (topology : Network) (resolve : Resolve) (sync : Bool) (failure : Failure) (s ttl address : ℕ) → asks_links resolve ≡ false →
        ways_under topology (of_one_hop resolve sync) failure s ttl address
        ≡ Ends (fate_to (network_under topology (of_one_hop resolve sync) (config_under topology failure)) (config_under topology failure) s ttl address) ∷ [] }
{}

/// By the choices of a run that is its fate under the failure.
pub fn by_the_choices_of_a_run_there_is_one_way()
    ensures { (topology : Network) (failure : Failure) (s ttl address : ℕ) →
        ways_under topology of_run failure s ttl address ≡ Ends (fate_under topology failure s ttl address) ∷ [] }
{}

/// So in every lawful journal each packet that is sent while the network is at rest under the failure goes its one way.
pub fn each_packet_goes_its_one_way()
    ensures { (topology : Network) (failure : Failure) → IsLawful topology → AllGoTheirOneWay topology failure }
{}

// 2. Choices among next hops of equal cost

/// Whatever next hops nodes have chosen, what is told covers it.
pub fn each_choice_is_covered()
    ensures { (topology : Network) (profile : Profile) (config : Config) (to : ℕ) (choice : Choice) → Chooses topology profile config to choice →
        (node : ℕ) → CoversEachChoice topology profile config node to choice }
{}

/// And nothing is told that isn't so by some choice.
pub fn what_is_told_is_so_by_some_choice()
    ensures { (topology : Network) (profile : Profile) (config : Config) (node to : ℕ) → IsLawful topology → node < length topology.loopbacks →
        TellsOfChoices (network_under topology profile config) profile config node to }
{}

/// One of the choices is the neighbour of least number.
pub fn the_least_neighbour_is_a_choice()
    ensures { (topology : Network) (profile : Profile) (config : Config) (to : ℕ) →
        Chooses topology profile config to (λ node. next (wiring_of topology) (up_links topology config) node to) }
{}

/// Where each node sends to a next hop that gave it a label, no packet that has one is without one on its way.
pub fn labelled_next_hops_lead_there()
    ensures { (topology : Network) (profile : Profile) (config : Config) (to : ℕ) (choice : Choice) → IsLawful topology →
        ChoosesLabelled (network_under topology profile config) profile config to choice → (node : ℕ) → node < length topology.loopbacks →
        some_lead (network_under topology profile config) profile config node to ≡ true →
        (nodes : List ℕ) × (chosen_lsp (network_under topology profile config) config choice node to ≡ Some nodes) }
{}

/// Where all nodes have chosen, what becomes of a packet is one of its ways.
pub fn each_choice_has_its_way()
    ensures { (topology : Network) (resolve : Resolve) (sync : Bool) (failure : Failure) (choices : Choices) (s ttl address : ℕ) →
        asks_links resolve ≡ false →
        AllChoose (network_under topology (of_any_hop resolve sync) (config_under topology failure)) (of_any_hop resolve sync) (config_under topology failure) choices →
        Contains (ways_under topology (of_any_hop resolve sync) failure s ttl address)
        (Ends (fate_by (network_under topology (of_any_hop resolve sync) (config_under topology failure)) (config_under topology failure) choices s ttl address)) }
{}

// 3. Arrival

/// Where LDP is on on all links that are up every choice arrives, by a walk of least cost.
pub fn every_choice_arrives()
    ensures { (topology : Network) (profile : Profile) (config : Config) (to : ℕ) (choice : Choice) → IsLawful topology →
        HasLdpWhereUp topology config → Chooses (network_under topology profile config) profile config to choice → (node cost : ℕ) →
        node < length topology.loopbacks →
        IsLeast (wiring_of (network_under topology profile config)) (up_links (network_under topology profile config) config) node to cost →
        ArrivesAtCost (network_under topology profile config) config choice node to cost }
{}

/// So labels lead there by all of them.
pub fn all_lead_where_ldp_is_on()
    ensures { (topology : Network) (profile : Profile) (config : Config) (to : ℕ) → IsLawful topology → HasLdpWhereUp topology config →
        (node cost : ℕ) → node < length topology.loopbacks →
        IsLeast (wiring_of (network_under topology profile config)) (up_links (network_under topology profile config) config) node to cost →
        all_lead (network_under topology profile config) profile config node to ≡ true }
{}

// 4. Examples

/// One network, and what becomes of a packet by several profiles.
pub fn one_network_has_four_answers()
    ensures { FourAnswers }
{}

/// A packet that is looked up again where its VPN label stands for a VRF.
pub fn a_packet_is_looked_up_again()
    ensures { LookedUpAgain }
{}

/// What the laws of choices ask is met over two links.
pub fn two_links_choose()
    ensures { TwoLinksChoose }
{}
