// The files of small networks, with ample memory.
use mn_base::{LinkNo, NodeNo};
use mn_files::{
    EdgePlaces, deliveries_file, file_names, frames_file, journal_file, labels_file, names_differ,
    one_number, said_file, told_file,
};
use mn_test_nets::{row, star};
use mn_topo::Topology;
use mn_wiring::Dir;
use std::alloc::{AllocError, Global};
use std::test::Fail;

fn are(names: &[String], expected: &[&str]) -> bool {
    if names.len() != expected.len() {
        return false;
    }
    for (name, text) in names.iter().zip(expected) {
        if name.as_str() != *text {
            return false;
        }
    }
    true
}

/// Whether the name of this number is the text.
fn is_named(names: &[String], number: u32, text: &str) -> bool {
    match names.get(number as usize) {
        Some(name) => name.as_str() == text,
        None => false,
    }
}

/// The number of what the edge sent, where both are edges.
fn told(alloc: Global, topology: &Topology, edge: u16, peer: u16) -> Result<u32, AllocError> {
    let Ok(places) = EdgePlaces::new(alloc, topology) else {
        return Err(AllocError);
    };
    let edge = NodeNo(edge);
    let peer = NodeNo(peer);
    if topology.is_edge(edge) && topology.is_edge(peer) && edge.0 != peer.0 {
        Ok(told_file(topology, &places, edge, peer))
    } else {
        Ok(0)
    }
}

#[test]
fn three_routers_in_a_row_have_eleven_files(rt: HostRuntime) -> Result<(), Fail> {
    names_differ();
    let topology = row(rt.alloc())?;
    let names = file_names(rt.alloc(), &topology, "out/run")?;
    let expected = [
        "out/run/journal.txt",
        "out/run/labels.txt",
        "out/run/delivered.pcap",
        "out/run/pe1+p.pcap",
        "out/run/p+pe2.pcap",
        "out/run/pe1+p.ldp",
        "out/run/p+pe1.ldp",
        "out/run/p+pe2.ldp",
        "out/run/pe2+p.ldp",
        "out/run/pe1+pe2.bgp",
        "out/run/pe2+pe1.bgp",
    ];
    assert!(rt; are(&names, &expected));
    Ok(())
}

#[test]
fn each_file_has_the_name_of_its_number(rt: HostRuntime) -> Result<(), Fail> {
    one_number();
    let alloc = rt.alloc();
    let topology = star(alloc)?;
    let names = file_names(alloc, &topology, "f")?;
    assert!(rt; names.len() == 18);
    assert!(rt; is_named(&names, journal_file(), "f/journal.txt"));
    assert!(rt; is_named(&names, labels_file(), "f/labels.txt"));
    assert!(rt; is_named(&names, deliveries_file(), "f/delivered.pcap"));
    assert!(rt; is_named(&names, frames_file(LinkNo(2)), "f/c+p.pcap.pcap"));
    assert!(rt; topology.links().len() == 3);
    let back = said_file(&topology, LinkNo(0), Dir::Back);
    assert!(rt; is_named(&names, back, "f/a.bgp+p.pcap.ldp"));
    let forth = said_file(&topology, LinkNo(2), Dir::Forth);
    assert!(rt; is_named(&names, forth, "f/c+p.pcap.ldp"));
    for (edge, peer, name) in [
        (0, 2, "f/a.bgp+b.bgp"),
        (2, 0, "f/b+a.bgp.bgp"),
        (2, 3, "f/b+c.bgp"),
    ] {
        assert!(rt; is_named(&names, told(alloc, &topology, edge, peer)?, name));
    }
    assert!(rt; told(alloc, &topology, 3, 2)? == 17);
    assert!(rt; is_named(&names, 17, "f/c+b.bgp"));
    Ok(())
}
