//! The number of a file, if there is one.
ghost use Rattle.std.specs.Prelude.{◌≡◌, ◌==◌, ◌&&◌, not};
ghost use Rattle.mn_topo.specs.VrfTable.{is_edge};
ghost use Rattle.mn_output_laws.specs.Files.{Frames, Said, Told};
ghost use Rattle.mn_files.specs.Numbers.{IsPlace, edge_places};

use crate::edges::EdgePlaces;
use crate::numbers::{FIRST, frames_file, place_without, said_file};
use mn_base::{LinkNo, NodeNo};
use mn_topo::Topology;
use mn_wiring::Dir;

/// The frames that a link was given, in either direction.
pub fn find_frames(topology: &Topology, link: LinkNo) -> Option<u32>
    ensures { IsPlace topology.now (Frames link.0) result }
{
    if (link.0 as usize) < topology.links().len() {
        Some(frames_file(link))
    } else {
        None
    }
}

/// What LDP sent over a link in a direction.
pub fn find_said(topology: &Topology, link: LinkNo, dir: Dir) -> Option<u32>
    ensures { IsPlace topology.now (Said link.0 dir) result }
{
    if (link.0 as usize) < topology.links().len() {
        Some(said_file(topology, link, dir))
    } else {
        None
    }
}

/// Whether these are two edges.
fn are_two(topology: &Topology, edge: NodeNo, peer: NodeNo) -> bool
    ensures { result ≡ ((is_edge topology.now.vrfs edge.0 && is_edge topology.now.vrfs peer.0) && not (edge.0 == peer.0)) }
{
    topology.is_edge(edge) && topology.is_edge(peer) && edge.0 != peer.0
}

/// What one edge sent another by BGP. It is answered where the places are the topology's.
pub fn find_told(
    topology: &Topology,
    places: &EdgePlaces,
    edge: NodeNo,
    peer: NodeNo,
) -> Option<u32>
    ensures { places.now ≡ edge_places topology.now → IsPlace topology.now (Told edge.0 peer.0) result }
{
    topology.laws();
    if !are_two(topology, edge, peer) {
        return None;
    }
    let edges = places.count(topology.nodes().len());
    let place = places.count(edge.0 as usize);
    let peer_place = places.count(peer.0 as usize);
    if edges == 0 {
        return None;
    }
    if place == peer_place {
        return None;
    }
    let first = FIRST + 3 * topology.links().len() as u32;
    Some(first + (edges - 1) * place + place_without(peer_place, place))
}
