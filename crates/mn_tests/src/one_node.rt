// Runs over one node with one VRF, which devices cut off or words refuse.
use crate::captures::{IPV4, SHORT};
use mn_edge::{MemShelf, MemSink};
use mn_run::{Outcome, command};
use std::alloc::{AllocError, Global};
use std::process::Abort;
use std::test::Fail;

/// A node with one site, a, of all addresses.
pub(crate) const ONE_SITE: &str = r#"[[node]]
name = "pe1"
loopback = "192.0.2.1"
[[vrf]]
name = "red"
node = "pe1"
rd = "65000:1"
[[site]]
name = "a"
vrf = "red"
prefixes = ["0.0.0.0/0"]
"#;

/// The words of a run over the inputs t, s and c into the folder out.
pub(crate) const RUN: [&str; 5] = ["run", "t", "s", "c", "out"];

fn words(alloc: Global, texts: &[&str]) -> Result<Vec<String>, AllocError> {
    let mut words = Vec::new(alloc);
    for text in texts {
        words.push(String::from_str(alloc, text)?)?;
    }
    Ok(words)
}

/// A shelf with the three inputs, on which the calls of these numbers fail.
pub(crate) fn shelf_of(
    alloc: Global,
    topology: Vec<u8>,
    script: Vec<u8>,
    capture: Vec<u8>,
    failing: Vec<u64>,
) -> Result<MemShelf, AllocError> {
    let mut files = Vec::new(alloc);
    files.push((String::from_str(alloc, "t")?, topology))?;
    files.push((String::from_str(alloc, "s")?, script))?;
    files.push((String::from_str(alloc, "c")?, capture))?;
    Ok(MemShelf::new(alloc, files, failing))
}

/// The same, where the topology and the script are texts.
pub(crate) fn shelf(
    alloc: Global,
    topology: &str,
    script: &str,
    capture: Vec<u8>,
    failing: Vec<u64>,
) -> Result<MemShelf, AllocError> {
    let topology = Vec::from_slice(alloc, topology.as_bytes())?;
    let script = Vec::from_slice(alloc, script.as_bytes())?;
    shelf_of(alloc, topology, script, capture, failing)
}

/// What a command came to, and the devices after it.
#[derive(Drop)]
pub(crate) struct Ran {
    pub outcome: Outcome,
    pub shelf: MemShelf,
    pub out: MemSink,
}

/// Does what the words say over the shelf, with a sink on which the calls of these numbers fail.
pub(crate) fn does(
    alloc: Global,
    texts: &[&str],
    mut shelf: MemShelf,
    failing: Vec<u64>,
) -> Result<Ran, AllocError> {
    let words = words(alloc, texts)?;
    let mut out = MemSink::new(alloc, failing);
    let outcome = command(alloc, &words, &mut shelf, &mut out);
    Ok(Ran {
        outcome,
        shelf,
        out,
    })
}

/// A run over the three inputs, where the shelf's calls of these numbers fail.
pub(crate) fn runs(
    alloc: Global,
    topology: &str,
    script: &str,
    capture: Vec<u8>,
    failing: Vec<u64>,
) -> Result<Ran, AllocError> {
    let shelf = shelf(alloc, topology, script, capture, failing)?;
    does(alloc, &RUN, shelf, Vec::new(alloc))
}

/// Whether it ended with this status, and this alone was put.
pub(crate) fn is_answer(ran: &Ran, status: u8, text: &str) -> bool {
    ran.outcome.status() == status && ran.out.bytes() == text.as_bytes()
}

/// All was done, and reported so.
pub(crate) fn reports(rt: &impl Abort, ran: &Ran, report: &str) {
    assert!(rt; ran.outcome == Outcome::Done);
    assert_eq!(rt; ran.outcome.status(), 0);
    assert!(rt; ran.out.bytes() == report.as_bytes());
}

/// It ended by this fault, and nothing was put.
pub(crate) fn is_fault(rt: &impl Abort, ran: &Ran, fault: Outcome, status: u8) {
    assert!(rt; ran.outcome == fault);
    assert_eq!(rt; ran.outcome.status(), status);
    assert!(rt; ran.out.bytes().is_empty());
}

/// Whether no deliveries are there.
fn delivers_nowhere(ran: &Ran) -> bool {
    ran.shelf.file("out/delivered.pcap").is_none()
}

/// A run that sends the packet at site a, where the shelf's calls of these numbers fail.
fn sent(alloc: Global, topology: &str, failing: Vec<u64>) -> Result<Ran, AllocError> {
    let packet = SHORT.taken(alloc)?;
    runs(alloc, topology, "inject a 1\n", packet, failing)
}

/// Does what the words say over the inputs of such a run.
fn told(alloc: Global, texts: &[&str]) -> Result<Ran, AllocError> {
    let packet = SHORT.taken(alloc)?;
    let shelf = shelf(alloc, ONE_SITE, "inject a 1\n", packet, Vec::new(alloc))?;
    does(alloc, texts, shelf, Vec::new(alloc))
}

const USAGE: &str =
    "usage: mplsnet run TOPOLOGY SCRIPT CAPTURE FOLDER | check TOPOLOGY | generate NUMBER | flood TOPOLOGY SCRIPT | reflect TOPOLOGY SCRIPT | join TOPOLOGY1 TOPOLOGY2 JOINTS SCRIPT CAPTURE FOLDER | reach TOPOLOGY [FAILURES]\n";

/// Words that are no command line.
const OTHER_WORDS: [&[&str]; 10] = [
    &[],
    &["--help"],
    &["run", "t", "s", "c"],
    &["run", "out/t", "s", "c", "out"],
    &["check"],
    &["check", "t", "t"],
    &["generate"],
    &["generate", "00"],
    &["generate", "100"],
    &["generate", "0", "0"],
];

/// Whether the words are answered by the line on usage, and nothing is written.
fn is_usage(alloc: Global, texts: &[&str]) -> Result<bool, AllocError> {
    let ran = told(alloc, texts)?;
    Ok(ran.outcome == Outcome::Usage && is_answer(&ran, 2, USAGE) && delivers_nowhere(&ran))
}

#[test]
fn other_words_are_usage(rt: HostRuntime) -> Result<(), Fail> {
    for texts in OTHER_WORDS {
        assert!(rt; is_usage(rt.alloc(), texts)?, "{texts:?}");
    }
    Ok(())
}

/// Whether the capture is refused with this status and line, with nothing written.
fn is_refused_capture(
    alloc: Global,
    capture: Vec<u8>,
    status: u8,
    line: &str,
) -> Result<bool, AllocError> {
    let ran = runs(alloc, ONE_SITE, "inject a 1\n", capture, Vec::new(alloc))?;
    Ok(is_answer(&ran, status, line) && delivers_nowhere(&ran))
}

#[test]
fn a_capture_has_at_most_so_many_records(rt: HostRuntime) -> Result<(), Fail> {
    let alloc = rt.alloc();
    let mut many = Vec::from_slice(alloc, &IPV4)?;
    for _ in 0..100_001 {
        many.extend_from_slice(&[0; 16])?;
    }
    assert!(rt; is_refused_capture(alloc, many, 9, "too large capture records\n")?);
    Ok(())
}

/// The run ended by a read fault, before a file was begun.
fn cannot_read(rt: &impl Abort, ran: &Ran) {
    is_fault(rt, ran, Outcome::ReadFault, 6);
    assert!(rt; delivers_nowhere(ran));
}

#[test]
fn a_failing_read_ends_the_run_before_a_file_is_begun(rt: HostRuntime) -> Result<(), Fail> {
    // Each input takes two fetches: its bytes, and its end.
    for call in 1..7u64 {
        let alloc = rt.alloc();
        let ran = sent(alloc, ONE_SITE, vec![in alloc; call]?)?;
        cannot_read(&rt, &ran);
    }
    Ok(())
}

#[test]
fn a_missing_input_is_a_read_fault(rt: HostRuntime) -> Result<(), Fail> {
    let ran = told(rt.alloc(), &["run", "t", "s", "nowhere", "out"])?;
    cannot_read(&rt, &ran);
    Ok(())
}

/// These files stand, and no deliveries.
fn stand(rt: &impl Abort, ran: &Ran, journal: Option<&[u8]>, labels: Option<&[u8]>) {
    assert!(rt; ran.shelf.file("out/journal.txt") == journal);
    assert!(rt; ran.shelf.file("out/labels.txt") == labels);
    assert!(rt; delivers_nowhere(ran));
}

/// A run ends by a write fault where the call of this number fails, as it begins its files: these stand.
fn begins(
    rt: &impl Abort,
    alloc: Global,
    call: u64,
    journal: Option<&[u8]>,
    labels: Option<&[u8]>,
) -> Result<(), Fail> {
    let ran = sent(alloc, ONE_SITE, vec![in alloc; call]?)?;
    is_fault(rt, &ran, Outcome::WriteFault, 7);
    stand(rt, &ran, journal, labels);
    Ok(())
}

#[test]
fn a_failing_begin_leaves_the_files_before_it(rt: HostRuntime) -> Result<(), Fail> {
    // Calls 7 to 9 begin the journal, the labels and the deliveries.
    let alloc = rt.alloc();
    let empty = b"".as_slice();
    begins(&rt, alloc, 7, None, None)?;
    begins(&rt, alloc, 8, Some(empty), None)?;
    begins(&rt, alloc, 9, Some(empty), Some(empty))
}
