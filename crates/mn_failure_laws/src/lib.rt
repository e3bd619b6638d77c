//! Networks under a failure: what becomes of a packet once all is at rest, by what failed alone.
//!
//! A failure is any number of links that are down, of links without LDP and of sessions that ended, at once. Its configuration is the
//! topology's without these. Whatever happened before, in whatever order: where a lawful journal has come to rest with that configuration,
//! each packet that is sent then has the fate that is computed from topology and failure.
//!
//! ```text
//!   topology, failure  ->  config_under  ->  fate_under: site, TTL, address
//!                               |                  |
//!   a lawful journal at rest:  IsUnder          HasFate
//! ```
//!
//! The routes of a VRF for an address are sorted once, for all failures: of these the first that is told, and with `resolve` the first of
//! these that is reached, is the one by which packets go.
//!
//! - `specs/Failures`: failures, the configuration under one, and what it leaves
//! - `specs/Fates`: what becomes of packets under a failure
//! - `specs/TwoLinks`: fates over two links under several failures, and a journal that meets what the laws ask
//! - `specs/TwoHomes`: the candidates for a customer's network with two edges, and which is chosen under several failures
#![tactic(auto)]

ghost use Rattle.std.specs.Prelude.{ℕ, List, ◌≡◌, ◌<◌, None, length};
ghost use Rattle.mn_ledger.specs.Prelude.{IsLawful, Network, HeldRoute, best, first_config, ttl_of, destination_of, home_of};
ghost use Rattle.mn_ledger.specs.Places.{vrf_of};
ghost use Rattle.mn_ledger.specs.Entry.{first_rule};
ghost use Rattle.mn_ledger.specs.Packets.{entry_rules};
ghost use Rattle.mn_ledger.specs.World.{Config};
ghost use Rattle.mn_reach_laws.specs.Candidates.{AreCandidates, chosen};
ghost use Rattle.mn_reach_laws.specs.Fates.{taking_part, ends_towards, verdict_at_rest};
ghost use Rattle.mn_failure_laws.specs.Failures.{Failure, config_under, IsUnder, AreAlike, SaysWhatIsLeft};
ghost use Rattle.mn_failure_laws.specs.Fates.{fate_to, fate_under, AllComeToTheirFates};
ghost use Rattle.mn_failure_laws.specs.TwoLinks.{TwoLinksHaveTheirFates, TwoLinksFail};
ghost use Rattle.mn_failure_laws.specs.TwoHomes.{TwoHomesChoose};

// 1. Fates go by what there is

/// A configuration that is the failure's of all that there is has its fates.
pub fn fates_go_by_what_is_there()
    ensures { (topology : Network) (config : Config) (failure : Failure) (s ttl address : ℕ) →
        IsLawful topology → IsUnder topology config failure → s < length topology.sites →
        fate_to topology config s ttl address ≡ fate_under topology failure s ttl address }
{}

/// So have two failures that say the same of all that there is.
pub fn alike_failures_have_the_same_fates()
    ensures { (topology : Network) (failure other : Failure) (s ttl address : ℕ) →
        IsLawful topology → AreAlike topology failure other → s < length topology.sites →
        fate_under topology failure s ttl address ≡ fate_under topology other s ttl address }
{}

/// A packet that no rule on its bytes drops has the verdict of the failure, if its configuration is that.
pub fn verdicts_go_by_what_is_there()
    ensures { (topology : Network) (config : Config) (failure : Failure) (s : ℕ) (bytes : List ℕ) →
        IsLawful topology → IsUnder topology config failure → s < length topology.sites →
        first_rule (entry_rules (config.attached s) bytes) ≡ None →
        verdict_at_rest topology config s bytes ≡ fate_under topology failure s (ttl_of bytes) (destination_of bytes) }
{}

/// In every lawful journal each packet that is sent while the network is at rest under the failure comes to the fate that is computed.
pub fn each_packet_comes_to_its_fate()
    ensures { (topology : Network) (failure : Failure) → IsLawful topology → AllComeToTheirFates topology failure }
{}

// 2. Routes are sorted once

/// The candidates of a VRF for an address are those of the topology, whatever fails.
pub fn candidates_are_of_the_topology()
    ensures { (topology : Network) (failure : Failure) (edge v address : ℕ) (candidates : List HeldRoute) →
        AreCandidates topology (first_config topology) edge v address candidates →
        AreCandidates topology (config_under topology failure) edge v address candidates }
{}

/// So those under one failure are those under another.
pub fn candidates_stay()
    ensures { (topology : Network) (failure other : Failure) (edge v address : ℕ) (candidates : List HeldRoute) →
        AreCandidates topology (config_under topology failure) edge v address candidates →
        AreCandidates topology (config_under topology other) edge v address candidates }
{}

/// Under a failure the best of the routes that take part is the candidate that is chosen.
pub fn the_first_that_is_told_is_the_best()
    ensures { (topology : Network) (failure : Failure) (edge v address : ℕ) (candidates : List HeldRoute) →
        IsLawful topology → AreCandidates topology (config_under topology failure) edge v address candidates →
        best (taking_part topology (config_under topology failure) edge v address) address
        ≡ chosen topology (config_under topology failure) edge candidates }
{}

/// So a packet's fate is that towards the candidate that is chosen at its edge.
pub fn fates_go_by_the_chosen_candidate()
    ensures { (topology : Network) (failure other : Failure) (s ttl address : ℕ) (candidates : List HeldRoute) →
        IsLawful topology → AreCandidates topology (config_under topology other) (home_of topology s) (vrf_of topology s) address candidates →
        fate_under topology failure s ttl address
        ≡ ends_towards topology (config_under topology failure) (home_of topology s) ttl
        (chosen topology (config_under topology failure) (home_of topology s) candidates) }
{}

// 3. What is left

/// Links, sessions and routes that are told, in the failure's own words.
pub fn a_failure_says_what_is_left()
    ensures { (topology : Network) (failure : Failure) → IsLawful topology → SaysWhatIsLeft topology failure }
{}

// 4. Examples

/// The definition says of two links what one expects: delivered, TTL too low, no label path, a link cut, and no session.
pub fn two_links_have_their_fates()
    ensures { TwoLinksHaveTheirFates }
{}

/// What the laws ask is met over two links, with nothing failed and with LDP off on the way.
pub fn two_links_fail()
    ensures { TwoLinksFail }
{}

/// And of a customer's network with two edges which of its two routes is chosen.
pub fn two_homes_choose()
    ensures { TwoHomesChoose }
{}
