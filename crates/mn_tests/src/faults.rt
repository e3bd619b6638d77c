// Devices that fail while a run goes over two links: what `mn_device_rows` can't say, since it compares whole bytes.
use crate::captures::{LONG, SHORT};
use crate::one_node::{RUN, Ran, does, is_fault, reports, runs, shelf};
use crate::two_links::{File, REPORT, SCRIPT, are_whole, files, topology};
use mn_edge::MemShelf;
use mn_run::Outcome;
use std::alloc::{AllocError, Global};
use std::process::Abort;
use std::test::Fail;

/// The run over the long packet, where the shelf's calls of these numbers fail.
fn sent_long(alloc: Global, script: &str, failing: Vec<u64>) -> Result<Ran, AllocError> {
    let capture = LONG.taken(alloc)?;
    runs(alloc, topology(alloc)?.as_str(), script, capture, failing)
}

/// Whether each of these files was begun, and is a first part of its bytes.
fn are_first_parts(shelf: &MemShelf, files: &[File]) -> bool {
    let mut parts = true;
    for file in files {
        parts = match shelf.file(file.0.as_str()) {
            Some(found) => parts && file.1.as_slice().starts_with(found),
            None => false,
        };
    }
    parts
}

/// The run over the capture, where the first put fails.
fn put_fails(alloc: Global) -> Result<Ran, AllocError> {
    let capture = SHORT.taken(alloc)?;
    let topology = topology(alloc)?;
    let shelf = shelf(alloc, topology.as_str(), SCRIPT, capture, Vec::new(alloc))?;
    does(alloc, &RUN, shelf, vec![in alloc; 1u64]?)
}

/// The report is put by one call: of its 481 bytes the first 240 stay.
fn half_is_put(rt: &impl Abort, ran: &Ran) {
    assert_eq!(rt; ran.out.bytes().len(), 240);
    assert!(rt; REPORT.as_bytes().starts_with(ran.out.bytes()));
}

#[test]
fn a_failing_put_comes_once_the_files_are_whole(rt: HostRuntime) -> Result<(), Fail> {
    let ran = put_fails(rt.alloc())?;
    assert!(rt; ran.outcome == Outcome::WriteFault);
    assert_eq!(rt; ran.outcome.status(), 7);
    assert!(rt; are_whole(&ran.shelf, &files(rt.alloc(), &SHORT)?));
    half_is_put(&rt, &ran);
    Ok(())
}

#[test]
fn a_long_packet_is_written_in_two_parts(rt: HostRuntime) -> Result<(), Fail> {
    let alloc = rt.alloc();
    let ran = sent_long(alloc, SCRIPT, Vec::new(alloc))?;
    reports(&rt, &ran, REPORT);
    assert!(rt; are_whole(&ran.shelf, &files(alloc, &LONG)?));
    // At most 64 KiB wait. So calls 19 to 28 append what waits, to all files but the labels, as the packet goes over
    // the second link; and calls 29 to 32 the rest, at the end, to the journal, the labels, the deliveries and that
    // link's capture.
    assert_eq!(rt; ran.shelf.calls(), 32);
    Ok(())
}

/// The run that sends the long packet twice.
fn sent_twice(alloc: Global, failing: Vec<u64>) -> Result<Ran, AllocError> {
    let mut script = String::from_str(alloc, SCRIPT)?;
    script.push_str("inject a 1\n")?;
    sent_long(alloc, script.as_str(), failing)
}

/// The labels wait for the end, and the first link's capture is whole.
fn first_link_is_whole(rt: &impl Abort, alloc: Global, shelf: &MemShelf) -> Result<(), Fail> {
    assert!(rt; shelf.file("out/labels.txt") == Some(b"".as_slice()));
    let first_link = LONG.on_first_link(alloc)?;
    assert!(rt; shelf.file("out/pe1+p.pcap") == Some(first_link.as_slice()));
    Ok(())
}

/// The second link's capture isn't whole: a part of the long packet is there.
fn second_link_is_cut_off(rt: &impl Abort, shelf: &MemShelf) -> Result<(), Fail> {
    let second_link = shelf.file("out/p+pe2.pcap").ok_or("no capture")?;
    assert!(rt; second_link.len() > 74 && second_link.len() < 40_046);
    Ok(())
}

#[test]
fn a_later_packet_that_cannot_be_fetched_again_leaves_first_parts(
    rt: HostRuntime,
) -> Result<(), Fail> {
    // Call 29 fetches the packet for a second injection, behind the appends as it first went over the second link.
    let alloc = rt.alloc();
    let ran = sent_twice(alloc, vec![in alloc; 29u64]?)?;
    is_fault(&rt, &ran, Outcome::ReadFault, 6);
    assert!(rt; are_first_parts(&ran.shelf, &files(alloc, &LONG)?));
    first_link_is_whole(&rt, alloc, &ran.shelf)?;
    second_link_is_cut_off(&rt, &ran.shelf)
}
