// Scripts that are refused, before the capture is read.
use crate::one_node::{ONE_SITE, does, is_answer, shelf_of};
use std::alloc::{AllocError, Global};
use std::test::Fail;

/// Whether the script is answered by this status and line, with no capture there.
fn answers(alloc: Global, script: Vec<u8>, status: u8, line: &str) -> Result<bool, AllocError> {
    let topology = Vec::from_slice(alloc, ONE_SITE.as_bytes())?;
    let shelf = shelf_of(alloc, topology, script, Vec::new(alloc), Vec::new(alloc))?;
    let run = ["run", "t", "s", "nowhere", "out"];
    let ran = does(alloc, &run, shelf, Vec::new(alloc))?;
    Ok(is_answer(&ran, status, line))
}

/// Whether the text is refused in this line.
fn refused(alloc: Global, script: &str, line: &str) -> Result<bool, AllocError> {
    let script = Vec::from_slice(alloc, script.as_bytes())?;
    answers(alloc, script, 4, line)
}

/// Scripts, each with the line that refuses it.
const REFUSED: [(&str, &str); 6] = [
    (
        "link sideways pe1 p\n",
        "script refused S1 UnknownWord at line 1\n",
    ),
    (
        "inject a 1\n\ninject a # 1\ninject z 1\n",
        "script refused S2 WrongCount at line 3\n",
    ),
    ("inject z 01\n", "script refused S3 BadNumber at line 1\n"),
    (
        "flush\ninject z 1\n",
        "script refused S4 NoSuchName at line 2\n",
    ),
    (
        "link up pe1 pe1\n",
        "script refused S5 NotLinked at line 1\n",
    ),
    ("bgp up pe1 pe1\n", "script refused S6 NotEdge at line 1\n"),
];

#[test]
fn a_script_is_refused_by_rule_and_line(rt: HostRuntime) -> Result<(), Fail> {
    for (script, line) in REFUSED {
        assert!(rt; refused(rt.alloc(), script, line)?, "{line}");
    }
    Ok(())
}

#[test]
fn a_script_has_at_most_so_many_lines_and_bytes(rt: HostRuntime) -> Result<(), Fail> {
    let alloc = rt.alloc();
    // As many lines as are allowed: the capture is asked for, and isn't there.
    for (count, status, line) in [
        (3_000_001, 9, "too large script lines\n"),
        (67_108_865, 9, "too large script bytes\n"),
        (3_000_000, 6, ""),
    ] {
        let feeds = vec![in alloc; b'\n'; count]?;
        assert!(rt; answers(alloc, feeds, status, line)?, "{count}");
    }
    Ok(())
}
