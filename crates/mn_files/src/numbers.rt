//! The number of a file: its place, from 0, in the order in which the files are begun.
ghost use Rattle.std.specs.Prelude.{◌≡◌, ◌≢◌, ◌<◌, ◌≤◌, ◌-◌, ℕ, nat_lt, if◌then◌else◌, length, IsTrue};
ghost use Rattle.mn_files.specs.Prelude.{Network, is_edge, Journal, Labels, Deliveries, Frames, Said, Told};
ghost use Rattle.mn_files.specs.Numbers.{IsNumber, edge_places, edges_before};

use crate::edges::EdgePlaces;
use mn_base::{LinkNo, NodeNo};
use mn_topo::Topology;
use mn_wiring::Dir;

/// The first of the files of links.
pub(crate) const FIRST: u32 = 3;

/// The journal.
#[tactic(auto, using(crate::proofs::Places::journal_is))]
pub fn journal_file() -> u32
    ensures { (topology : Network) → IsNumber topology result Journal }
{
    0
}

/// The labels that were given.
#[tactic(auto, using(crate::proofs::Places::labels_are))]
pub fn labels_file() -> u32
    ensures { (topology : Network) → IsNumber topology result Labels }
{
    1
}

/// The packets that were delivered.
#[tactic(auto, using(crate::proofs::Places::deliveries_are))]
pub fn deliveries_file() -> u32
    ensures { (topology : Network) → IsNumber topology result Deliveries }
{
    2
}

/// The frames that the link was given, in either direction.
pub fn frames_file(link: LinkNo) -> u32
    ensures { (topology : Network) → link.0 < length topology.links → IsNumber topology result (Frames link.0) }
{
    FIRST + u32::from(link.0)
}

/// What LDP sent over the link in the direction.
pub fn said_file(topology: &Topology, link: LinkNo, dir: Dir) -> u32
    requires { link.0 < length topology.now.links }
    ensures { IsNumber topology.now result (Said link.0 dir) }
{
    topology.laws();
    let first = FIRST + topology.links().len() as u32 + 2 * u32::from(link.0);
    match dir {
        Dir::Forth => first,
        Dir::Back => first + 1,
    }
}

/// What the edge sent the other edge by BGP.
pub fn told_file(topology: &Topology, places: &EdgePlaces, edge: NodeNo, peer: NodeNo) -> u32
    requires places { places.now ≡ edge_places topology.now }
    requires edge { IsTrue (is_edge topology.now.vrfs edge.0) }
    requires peer { IsTrue (is_edge topology.now.vrfs peer.0) }
    requires apart { edge.0 ≢ peer.0 }
    ensures { IsNumber topology.now result (Told edge.0 peer.0) }
{
    topology.laws();
    let first = FIRST + 3 * topology.links().len() as u32;
    let others = places.before(topology.nodes().len()) - 1;
    let place = places.before(edge.0 as usize);
    let peer_place = places.before(peer.0 as usize);
    first + others * place + place_without(peer_place, place)
}

/// A place among others, once the one at the other place is left out.
pub(crate) fn place_without(place: u32, other: u32) -> u32
    requires { place ≢ other }
    ensures value { result ≡ (if nat_lt place other then place else place - 1) }
    ensures least { result ≤ place }
{
    if place < other { place } else { place - 1 }
}
