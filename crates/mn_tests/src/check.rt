// Topologies that are checked, or refused.
use crate::one_node::{does, is_answer, is_fault, shelf_of};
use mn_edge::MemShelf;
use mn_run::Outcome;
use mn_test_nets::{SiteText, row_text};
use std::alloc::{AllocError, Global};
use std::test::Fail;

/// Three nodes in a row, with a VRF and a site at either end.
fn row(alloc: Global) -> Result<String, AllocError> {
    let sites: [SiteText<'static>; 2] = [
        ("a", "red1", &["10.1.0.0/16", "10.3.0.0/16"]),
        ("b", "red2", &["10.2.0.0/16"]),
    ];
    row_text(alloc, &sites)
}

/// Two nodes with one loopback.
const TWICE: &str = r#"[[node]]
name = "a"
loopback = "192.0.2.1"
[[node]]
name = "b"
loopback = "192.0.2.1"
"#;

/// A shelf with the topology t and an empty script and capture, on which the calls of these numbers fail.
fn topology_alone(
    alloc: Global,
    topology: Vec<u8>,
    failing: Vec<u64>,
) -> Result<MemShelf, AllocError> {
    shelf_of(alloc, topology, Vec::new(alloc), Vec::new(alloc), failing)
}

/// Whether the topology, named t, is answered by this status and line.
fn answers(
    alloc: Global,
    command_line: &[&str],
    topology: Vec<u8>,
    status: u8,
    line: &str,
) -> Result<bool, AllocError> {
    let shelf = topology_alone(alloc, topology, Vec::new(alloc))?;
    let ran = does(alloc, command_line, shelf, Vec::new(alloc))?;
    Ok(is_answer(&ran, status, line))
}

/// Whether a check of the text is answered by this status and line.
fn check_answers(alloc: Global, text: &str, status: u8, line: &str) -> Result<bool, AllocError> {
    let topology = Vec::from_slice(alloc, text.as_bytes())?;
    answers(alloc, &["check", "t"], topology, status, line)
}

#[test]
fn a_lawful_topology_is_counted(rt: HostRuntime) -> Result<(), Fail> {
    let alloc = rt.alloc();
    let three = "topology ok nodes 3 links 2 vrfs 2 sites 2 prefixes 3\n";
    assert!(rt; check_answers(alloc, row(alloc)?.as_str(), 0, three)?);
    let none = "topology ok nodes 0 links 0 vrfs 0 sites 0 prefixes 0\n";
    assert!(rt; check_answers(alloc, "", 0, none)?);
    Ok(())
}

/// Topologies, each with the line that refuses it.
const FAULTY: [(&str, &str); 5] = [
    (TWICE, "topology refused T10 TwiceLoopback at node 1\n"),
    ("node = [", "topology refused T1 NotToml at top\n"),
    (
        "[[link]]\na = \"x\"\n",
        "topology refused T3 MissingKey at link 0\n",
    ),
    (
        "[[vrf]]\nname = \"v\"\nnode = \"n\"\nrd = \"1:1\"\n",
        "topology refused T7 NoSuchName at vrf 0\n",
    ),
    (
        "[[site]]\nmetric = 1\n",
        "topology refused T2 UnknownKey at site 0\n",
    ),
];

#[test]
fn a_faulty_topology_is_refused_by_rule_and_place(rt: HostRuntime) -> Result<(), Fail> {
    for (text, line) in FAULTY {
        assert!(rt; check_answers(rt.alloc(), text, 3, line)?, "{line}");
    }
    Ok(())
}

#[test]
fn a_run_refuses_a_topology_before_it_reads_on(rt: HostRuntime) -> Result<(), Fail> {
    let alloc = rt.alloc();
    let run = ["run", "t", "nowhere", "nowhere", "out"];
    // Of a lawful one the script is asked for, and isn't there.
    let row = row(alloc)?;
    for (text, status, line) in [
        (TWICE, 3, "topology refused T10 TwiceLoopback at node 1\n"),
        (row.as_str(), 6, ""),
    ] {
        let topology = Vec::from_slice(alloc, text.as_bytes())?;
        assert!(rt; answers(alloc, &run, topology, status, line)?, "{line}");
    }
    Ok(())
}

#[test]
fn a_topology_has_at_most_one_mebibyte(rt: HostRuntime) -> Result<(), Fail> {
    let alloc = rt.alloc();
    let none = "topology ok nodes 0 links 0 vrfs 0 sites 0 prefixes 0\n";
    for (length, status, line) in [
        (1 << 20, 0, none),
        ((1 << 20) + 1, 9, "too large topology bytes\n"),
    ] {
        // A comment.
        let topology = vec![in alloc; b'#'; length]?;
        assert!(rt;
            answers(alloc, &["check", "t"], topology, status, line)?,
            "{line}"
        );
    }
    Ok(())
}

#[test]
fn a_topology_that_is_not_there_is_a_read_fault(rt: HostRuntime) -> Result<(), Fail> {
    let alloc = rt.alloc();
    assert!(rt; answers(alloc, &["check", "elsewhere"], Vec::new(alloc), 6, "")?);
    let shelf = topology_alone(alloc, Vec::new(alloc), vec![in alloc; 1u64]?)?;
    let ran = does(alloc, &["check", "t"], shelf, Vec::new(alloc))?;
    is_fault(&rt, &ran, Outcome::ReadFault, 6);
    Ok(())
}
