//! What nodes tell each other of routes, with reflectors among them or none: one ledger of BGP for both, and what holds of it.
//!
//! ```text
//!   no reflector:  edge --its exports--> edge                                    as the ledger of a full mesh, word for word
//!   reflectors:    edge --its exports--> reflector --what it picked--> edge      and each VRF then holds what a full mesh gives it
//! ```
//!
//! - `specs/Talk`: what is sent and how much of it was received, what a step makes nodes send, and what a VRF holds
//! - `specs/Keys`: the same told route by route
//! - `specs/Alike`: a change of exports, told both ways
//! - `specs/Laws`: what is stated of them
//! - `specs/Joining`: two edges and two reflectors
//!
//! RFC 4271, sections 3 and 8.2.2; RFC 4456, sections 6 and 8.
#![tactic(auto)]

ghost use Rattle.std.specs.Prelude.{◌≡◌, ℕ, List, [], ◌∷◌};
ghost use Rattle.std.specs.List.{Contains};
ghost use Rattle.mn_ledger.specs.Prelude.{Network, Step, JournalEntry, IsLawful, HeldRoute, edges};
ghost use Rattle.mn_ledger.specs.World.{Config};
ghost use Rattle.mn_ledger.specs.Exports.{exports_of};
ghost use Rattle.mn_ledger.specs.Ledger.{first_config, config_after};
ghost use Rattle.mn_reflect_ledger_laws.specs.World.{world_of};
ghost use Rattle.mn_reflect_ledger_laws.specs.Quiet.{AreReflectors, IsJoined};
ghost use Rattle.mn_reflect_ledger_laws.specs.Holding.{AreApart};
ghost use Rattle.mn_reflect_world_laws.specs.Steps.{IsLawfulRun};
ghost use Rattle.mn_talk_laws.specs.Alike.{AreTidy, by_exports, by_routes};
ghost use Rattle.mn_talk_laws.specs.Talk.{Talks, seen, no_talks, talks_from, config_from};
ghost use Rattle.mn_talk_laws.specs.Keys.{AreThere, from_by_keys};
ghost use Rattle.mn_talk_laws.specs.Laws.{IsTheFullMesh, IsTalk, IsHeard, HoldsItsRoutes, AreOnce};
ghost use Rattle.mn_talk_laws.specs.Joining.{AreJoinedByTwo};

/// With no reflector the ledger is that of a full mesh, after every journal: word for word what is sent, and each VRF holds the same routes.
pub fn with_no_reflector_it_is_the_full_mesh()
    ensures { (topology : Network) (entries : List JournalEntry) → IsTheFullMesh topology entries }
{}

/// With reflectors, where all is received, each edge has a living session with a reflector and each two reflectors have one, each VRF holds
/// what a full mesh gives it.
pub fn settled_vrfs_hold_what_a_full_mesh_gives()
    ensures { (topology : Network) (reflector : ℕ) (others : List ℕ) (config : Config) (talks : Talks) →
        IsLawful topology → AreReflectors topology (reflector ∷ others) → AreApart topology config →
        IsTalk topology (reflector ∷ others) config talks → IsHeard topology config talks →
        IsJoined topology (reflector ∷ others) (seen config talks) →
        (edge v : ℕ) (route : HeldRoute) → Contains (edges topology) edge →
        HoldsItsRoutes topology (reflector ∷ others) config talks edge v route }
{}

/// Told route by route, every run of steps each of which is there keeps what the law before asks: an end that is Established has sent what
/// it offers, another nothing, and sessions are in turn.
pub fn every_run_is_talk()
    ensures { (topology : Network) (reflectors : List ℕ) (steps : List Step) → AreThere topology reflectors (first_config topology) no_talks steps →
        IsTalk topology reflectors (config_from (first_config topology) steps)
        (from_by_keys topology reflectors (first_config topology) no_talks steps) }
{}

/// What an edge advertises as a step changes its exports is word for word the same, told export by export or route by route.
pub fn an_edge_tells_alike()
    ensures { (topology : Network) (config : Config) (done : Step) (edge : ℕ) →
        AreTidy (exports_of topology config edge) (exports_of topology (config_after config done) edge) →
        by_routes topology config (config_after config done) edge ≡ by_exports topology config (config_after config done) edge }
{}

/// So both ways of telling are one, over every lawful run.
pub fn every_run_is_told_alike()
    ensures { (topology : Network) (reflectors : List ℕ) (steps : List Step) → IsLawfulRun topology reflectors steps → AreOnce reflectors →
        AreThere topology reflectors (first_config topology) no_talks steps →
        talks_from topology reflectors (first_config topology) no_talks steps ≡ from_by_keys topology reflectors (first_config topology) no_talks steps }
{}

/// After every lawful run with reflectors, where all is received in a joined network, each VRF holds exactly what a full mesh gives it.
pub fn every_settled_vrf_holds_what_a_full_mesh_gives()
    ensures { (topology : Network) (reflector : ℕ) (others : List ℕ) (steps : List Step) → IsLawfulRun topology (reflector ∷ others) steps →
        AreOnce (reflector ∷ others) → AreThere topology (reflector ∷ others) (first_config topology) no_talks steps →
        IsHeard topology (config_from (first_config topology) steps) (talks_from topology (reflector ∷ others) (first_config topology) no_talks steps) →
        IsJoined topology (reflector ∷ others)
        (seen (config_from (first_config topology) steps) (talks_from topology (reflector ∷ others) (first_config topology) no_talks steps)) →
        (edge v : ℕ) (route : HeldRoute) → Contains (edges topology) edge →
        HoldsItsRoutes topology (reflector ∷ others) (config_from (first_config topology) steps)
        (talks_from topology (reflector ∷ others) (first_config topology) no_talks steps) edge v route }
{}

/// Where by the definitions of `reflect` no word flies, all is received here: so the runs worked by hand there meet the premise here.
pub fn where_no_word_flies_all_is_heard()
    ensures { (topology : Network) (reflectors : List ℕ) (steps : List Step) → IsLawfulRun topology reflectors steps → AreOnce reflectors →
        AreThere topology reflectors (first_config topology) no_talks steps → (world_of topology reflectors steps).flying ≡ [] →
        IsHeard topology (config_from (first_config topology) steps) (talks_from topology reflectors (first_config topology) no_talks steps) }
{}

/// The premises of these laws are met by two edges and two reflectors, once 25 words are received.
pub fn two_edges_are_joined_by_two_reflectors()
    ensures { AreJoinedByTwo }
{}
