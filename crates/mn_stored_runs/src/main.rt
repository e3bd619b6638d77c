//! `mn_stored_runs`: does each stored run over real files, and compares all that it leaves with what is expected.
//!
//! Each line of the input has a command and a folder with `topology.toml`, `script.txt` or for `reach` `failures.txt`, for
//! `run` the capture (`capture.pcap`, or `capture.hex`: the bytes in hexadecimal, with comments) and `expected/`.
//! `mn_run::command` does the run, as the program itself would, into a folder of its own, and its report goes there too as
//! `report.txt`. Then the two folders must have the same files, byte for byte. A line says with which status a run ended
//! and how many files are as expected, and before it which aren't.
#![tactic(auto)]

mod compare; // a folder with another
mod play; // one run

use std::io::{Error, ErrorKind};
use std::{fs, io};

/// What is made, beside the folders of the runs.
const LEFT: &str = "left";

/// Does the run of a line.
fn try_run(rt: &HostRuntime, number: u64, line: &str) -> io::Result<()> {
    let Some((command, run)) = line.split_once(" ") else {
        return Err(Error::from(ErrorKind::InvalidData));
    };
    let left = format!(in rt.alloc(); "{LEFT}/{number}")?;
    fs::create_dir(rt, left.as_str())?;
    let status = play::play(rt, command, run, left.as_str())?;
    let expected = format!(in rt.alloc(); "{run}/expected")?;
    let same = compare::compare(rt, expected.as_str(), left.as_str())?;
    println!(rt; "{run}: status {status}, {same} files as expected")
}

fn main(rt: HostRuntime) -> io::Result<()> {
    fs::create_dir(&rt, LEFT)?;
    let mut number = 0u64;
    for line in rt.lines(rt.alloc()) {
        try_run(&rt, number, line?.as_str())?;
        number = number.saturating_add(1);
    }
    Ok(())
}
