//! The names of the files.
ghost use Rattle.std.specs.Prelude.{◌≡◌, ◌==◌, ◌&&◌, not, ◌++◌, ◌<◌, ◌∷◌, [], length, map, codes, string_bytes, IfOk, OnOk, IsTrue};
ghost use Rattle.std.specs.List.{flat_map};
ghost use Rattle.mn_ledger.specs.Prelude.{links_of, Forth, Back, Network, wiring_of, is_edge, edges};
ghost use Rattle.mn_files.specs.Prelude.{all_differ, texts, Journal, Labels, Deliveries, Frames, Said, Told, file_name, files_of, link_name, node_name, pair_name, told_files};

use mn_base::{LinkNo, NodeNo};
use mn_topo::Topology;
use mn_wiring::Dir;
use std::alloc::{AllocError, Global};
use std::str::from_utf8;

/// The names of all files of a run, each in the folder, in the order in which the files are begun.
pub fn file_names(
    alloc: Global,
    topology: &Topology,
    folder: &str,
) -> Result<Vec<String>, AllocError>
    ensures names { IfOk result (λ names. texts names.items ≡ map (file_name folder.now topology.now) (files_of topology.now)) }
    ensures differ { IfOk result (λ names. IsTrue (all_differ (texts names.items))) }
{
    topology.laws();
    let mut names = Vec::new(alloc);
    push_lone(alloc, folder, &mut names)?;
    push_frames(alloc, topology, folder, &mut names)?;
    push_said(alloc, topology, folder, &mut names)?;
    push_told(alloc, topology, folder, &mut names)?;
    Ok(names)
}

/// A file that each run has once.
fn lone_name(alloc: Global, folder: &str, base: &str) -> Result<String, AllocError>
    ensures { IfOk result (λ name. string_bytes name ≡ folder.now ++ (codes "/" ++ base.now)) }
{
    format!(in alloc; "{folder}/{base}")
}

/// Adds the files that each run has once.
fn push_lone(alloc: Global, folder: &str, names: &mut Vec<String>) -> Result<(), AllocError>
    ensures { OnOk result ((topology : Network) →
        texts names.new.items ≡ texts names.old.items
        ++ map (file_name folder.now topology) (Journal ∷ Labels ∷ Deliveries ∷ [])) }
{
    names.push(lone_name(alloc, folder, "journal.txt")?)?;
    names.push(lone_name(alloc, folder, "labels.txt")?)?;
    names.push(lone_name(alloc, folder, "delivered.pcap")?)?;
    Ok(())
}

/// A name as a text: it is of ASCII letters, digits, `-`, `.` and `_`.
fn node_name(topology: &Topology, node: NodeNo) -> &str
    requires { node.0 < length topology.now.loopbacks }
    ensures { result.now ≡ node_name topology.now node.0 }
{
    topology.laws();
    match from_utf8(topology.node_name(node)) {
        Ok(name) => name,
        Err(_) => unreachable!(),
    }
}

/// A file of two nodes.
fn pair_name(
    alloc: Global,
    topology: &Topology,
    folder: &str,
    pair: (NodeNo, NodeNo),
    ending: &str,
) -> Result<String, AllocError>
    requires a { pair.0.0 < length topology.now.loopbacks }
    requires b { pair.1.0 < length topology.now.loopbacks }
    ensures { IfOk result (λ name. string_bytes name ≡ folder.now ++ (codes "/" ++ pair_name topology.now pair.0.0 pair.1.0 ending.now)) }
{
    let a = node_name(topology, pair.0);
    let b = node_name(topology, pair.1);
    format!(in alloc; "{folder}/{a}+{b}{ending}")
}

/// A file of a link in a direction.
fn link_name(
    alloc: Global,
    topology: &Topology,
    folder: &str,
    direction: (LinkNo, Dir),
    ending: &str,
) -> Result<String, AllocError>
    requires { direction.0.0 < length topology.now.links }
    ensures { IfOk result (λ name.
        string_bytes name ≡ folder.now ++ (codes "/" ++ link_name topology.now direction.0.0 direction.1 ending.now)) }
{
    topology.laws();
    let (link, dir) = direction;
    let ends = &topology.links()[link.0 as usize];
    match dir {
        Dir::Forth => pair_name(alloc, topology, folder, (ends.a, ends.b), ending),
        Dir::Back => pair_name(alloc, topology, folder, (ends.b, ends.a), ending),
    }
}

/// Adds the files of frames, one for each link.
fn push_frames(
    alloc: Global,
    topology: &Topology,
    folder: &str,
    names: &mut Vec<String>,
) -> Result<(), AllocError>
    ensures { OnOk result (
        texts names.new.items ≡ texts names.old.items
        ++ map (file_name folder.now topology.now) (map (λ l. Frames l) (links_of (wiring_of topology.now)))) }
{
    topology.laws();
    for number in 0..topology.links().len() {
        let link = LinkNo(number as u16);
        names.push(link_name(alloc, topology, folder, (link, Dir::Forth), ".pcap")?)?;
    }
    Ok(())
}

/// Adds the files of LDP, two for each link.
fn push_said(
    alloc: Global,
    topology: &Topology,
    folder: &str,
    names: &mut Vec<String>,
) -> Result<(), AllocError>
    ensures { OnOk result (
        texts names.new.items ≡ texts names.old.items
        ++ map (file_name folder.now topology.now) (flat_map (λ l. Said l Forth ∷ Said l Back ∷ []) (links_of (wiring_of topology.now)))) }
{
    topology.laws();
    for number in 0..topology.links().len() {
        let link = LinkNo(number as u16);
        names.push(link_name(alloc, topology, folder, (link, Dir::Forth), ".ldp")?)?;
        names.push(link_name(alloc, topology, folder, (link, Dir::Back), ".ldp")?)?;
    }
    Ok(())
}

/// Adds the files of BGP, one for each edge and each other edge.
fn push_told(
    alloc: Global,
    topology: &Topology,
    folder: &str,
    names: &mut Vec<String>,
) -> Result<(), AllocError>
    ensures { OnOk result (
        texts names.new.items ≡ texts names.old.items
        ++ map (file_name folder.now topology.now) (flat_map (told_files topology.now) (edges topology.now))) }
{
    topology.laws();
    for number in 0..topology.nodes().len() {
        let edge = NodeNo(number as u16);
        if topology.is_edge(edge) {
            push_told_by(alloc, topology, folder, edge, names)?;
        }
    }
    Ok(())
}

/// Whether the edge tells the node something: it is another edge.
fn is_told(topology: &Topology, edge: NodeNo, peer: NodeNo) -> bool
    ensures { result ≡ (is_edge topology.now.vrfs peer.0 && not (edge.0 == peer.0)) }
{
    topology.is_edge(peer) && edge.0 != peer.0
}

/// Adds the files of what the edge sent, one for each other edge.
fn push_told_by(
    alloc: Global,
    topology: &Topology,
    folder: &str,
    edge: NodeNo,
    names: &mut Vec<String>,
) -> Result<(), AllocError>
    requires { edge.0 < length topology.now.loopbacks }
    ensures { OnOk result (
        texts names.new.items ≡ texts names.old.items
        ++ map (file_name folder.now topology.now) (told_files topology.now edge.0)) }
{
    topology.laws();
    for number in 0..topology.nodes().len() {
        let peer = NodeNo(number as u16);
        if is_told(topology, edge, peer) {
            names.push(pair_name(alloc, topology, folder, (edge, peer), ".bgp")?)?;
        }
    }
    Ok(())
}
