//! Routes that are reflected (RFC 4456), and what holds of every run: laws of the definitions.
//!
//! ```text
//!   edge --exports--> reflector --picks from edges--> reflector
//!                        |
//!                        '--picks for VRFs of other edges--> edge
//! ```
//!
//! - `specs/Words`: what is sent, and the last mention of a route
//! - `specs/Picks`: what was received, what a reflector picks, and what each node offers a peer
//! - `specs/World`: the world, what a step makes of it, and a drain
//! - `specs/Refusal`: why a step is refused
//! - `specs/Quiet`: what an edge holds; what was sent; and where no word flies
//! - `specs/Holding`: what a VRF holds, beside a full mesh
//! - `specs/Through`: through which reflectors a route came
//! - `specs/TwoEdges`, `specs/TwoReflectors`: runs worked by hand
//!
//! RFC 4456, sections 6 to 8.
#![tactic(auto)]

ghost use Rattle.std.specs.Prelude.{◌≡◌, ◌≢◌, ◌<◌, ℕ, [], List, length};
ghost use Rattle.mn_ledger.specs.Prelude.{Network, Step, edges, IsLawful, HeldRoute};
ghost use Rattle.mn_reflect_ledger_laws.specs.Words.{Offer, Announce};
ghost use Rattle.mn_reflect_ledger_laws.specs.World.{world_of};
ghost use Rattle.mn_reflect_ledger_laws.specs.Through.{ComesThrough};
ghost use Rattle.mn_reflect_ledger_laws.specs.TwoEdges.{AreReflectedTo};
ghost use Rattle.mn_reflect_ledger_laws.specs.TwoReflectors.{AreThroughTwo};
ghost use Rattle.std.specs.List.{Contains};
ghost use Rattle.mn_reflect_ledger_laws.specs.Holding.{AreDone, HoldsItsRoutes};
ghost use Rattle.mn_reflect_ledger_laws.specs.Quiet.{told, AreReflected, SaysItsOffers, AreReflectors, IsJoined, HasWhatIsExported};

/// Each end that is Established has sent to its peer what it offers now: an edge its exports, a reflector its picks.
pub fn each_end_says_what_it_offers()
    ensures { (topology : Network) (reflectors : List ℕ) (steps : List Step) → AreReflected topology steps →
        (node peer : ℕ) → node ≢ peer → node < length topology.loopbacks → peer < length topology.loopbacks →
        SaysItsOffers topology reflectors (world_of topology reflectors steps) node peer }
{}

/// Edges announce their own routes; a reflector tells another what came from an edge, with its own address as the one cluster, and an edge
/// what came from another edge, with at most one cluster behind its own, that of another reflector. So no route comes back to its edge, nor
/// goes through a reflector twice.
pub fn a_route_comes_through_one_reflector_or_two()
    ensures { (topology : Network) (reflectors : List ℕ) (steps : List Step) → AreReflectors topology reflectors →
        (node peer : ℕ) (offer : Offer) → Contains (told (world_of topology reflectors steps) node peer) (Announce offer) →
        ComesThrough topology reflectors node peer offer }
{}

/// Where no word flies, each edge has a living session with a reflector and each two reflectors have one, an edge has of each
/// other edge's routes what that edge exports now, and nothing else: as in a full mesh.
pub fn where_none_flies_an_edge_has_what_is_exported()
    ensures { (topology : Network) (reflectors : List ℕ) (steps : List Step) → AreReflected topology steps → AreReflectors topology reflectors →
        (world_of topology reflectors steps).flying ≡ [] → IsJoined topology reflectors (world_of topology reflectors steps) →
        HasWhatIsExported topology reflectors (world_of topology reflectors steps) }
{}

/// There, over a lawful topology and where no step was refused, each VRF holds exactly what a full mesh gives it once it is settled: its
/// attached statics and, of the present exports of all other VRFs of all edges, those whose targets meet its import set.
pub fn where_none_flies_a_vrf_holds_its_routes()
    ensures { (topology : Network) (reflectors : List ℕ) (steps : List Step) → AreReflected topology steps → AreReflectors topology reflectors →
        (world_of topology reflectors steps).flying ≡ [] → IsJoined topology reflectors (world_of topology reflectors steps) →
        IsLawful topology → AreDone topology reflectors steps →
        (edge v : ℕ) (route : HeldRoute) → Contains (edges topology) edge →
        HoldsItsRoutes topology reflectors (world_of topology reflectors steps) edge v route }
{}

/// Two edges and a reflector: after fourteen steps each edge has the other's route, and once a session ends the route is withdrawn.
pub fn two_edges_are_reflected()
    ensures { AreReflectedTo }
{}

/// Two edges and two reflectors: after 29 steps each edge has the other's route, as the reflector of least address says it, with the
/// clusters through which it came, the last one first; and once the reflectors' session has ended, as the other one does.
pub fn two_reflectors_stand_between()
    ensures { AreThroughTwo }
{}
