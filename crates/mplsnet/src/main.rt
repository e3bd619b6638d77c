//! `mplsnet`: runs a provider's MPLS network from a topology, a script and a capture.
//!
//! All that it does is `mn_run::command` over real files and standard output, which is flushed at the end. It
//! ends with the outcome's number, or with that of a failed write where the output couldn't be flushed. Where an
//! input can't be read, something can't be written, memory runs out or a limit is passed, a line on standard error
//! says what it was. `--help` and `--version`, alone, are answered here.
#![tactic(auto)]

ghost use Rattle.std.specs.Prelude.{◌≡◌, Ok, Err};
ghost use Rattle.mn_edge.specs.declared.device.DeviceBad.TheVariants as bad;
ghost use Rattle.mn_answer.specs.declared.outcome.Outcome.TheVariants as ends;
ghost use Rattle.mn_answer.specs.Status.{status_of};

use mn_edge::{DeviceBad, Sink};
use mn_edge_real::{HostShelf, HostSink};
use mn_run::{Limit, Outcome, command};
use std::alloc::AllocError;
use std::io::{BufWriter, ErrorKind, Write};
use std::process::ExitCode;
use std::{env, io};

/// The one place of the program's version.
const VERSION: &str = "mplsnet 0.2.0\n";

const HELP: &str =
    r#"mplsnet: runs a provider's MPLS network, step by step, and says what becomes of every packet

usage: mplsnet run TOPOLOGY SCRIPT CAPTURE FOLDER
       mplsnet check TOPOLOGY
       mplsnet generate NUMBER
       mplsnet flood TOPOLOGY SCRIPT
       mplsnet reflect TOPOLOGY SCRIPT
       mplsnet join TOPOLOGY1 TOPOLOGY2 JOINTS SCRIPT CAPTURE FOLDER
       mplsnet reach TOPOLOGY [FAILURES]
       mplsnet --help | --version

run       reads a topology (TOML), a script of events and a capture (pcap) of customer packets, writes what nodes said
          and sent as files into FOLDER, which must exist, and puts a report with a line for each packet
check     reads a topology and tells how much it has, or the first rule that it breaks and where
generate  makes a network of a number, 0 to 99, runs it without files and puts its total
flood     floods adverts of links through a topology by a script of its own, and puts each node's tree and a total
reflect   passes VPN routes on by route reflectors, by a script of its own, and puts the tables that it shows and a total
join      runs two networks that are joined site to site by one script, writes what comes out of them into FOLDER, and
          puts a report with a line for each packet and the legs that it went
reach     tells what becomes of packets from each site to each prefix of another once the network is at rest, and what
          each failure of a file changes: lost pairs with the rule and the node, moved ones with their path

status: 0 all was done; 2 wrong words; 3, 4, 5 the topology, the script or the capture is refused; 6 an input can't be
read; 7 a file or the report can't be written; 8 memory ran out; 9 a limit is passed; 11 the joints are refused; 12 the
second topology is. With 6 to 9 a line on standard error says which file, call or limit.

'mplsnet-lint TOPOLOGY SCRIPT' tells all that is wrong with both, and where; 'man mplsnet' every line and file.
"#;

/// The status of a run whose output was flushed with this answer.
fn status(outcome: Outcome, flushed: Result<(), DeviceBad>) -> u8
    ensures ok { flushed ≡ Ok tt → result ≡ status_of outcome }
    ensures failed { flushed ≡ Err bad.Failed → result ≡ status_of ends.WriteFault }
    ensures memory { flushed ≡ Err bad.NoMemory → result ≡ status_of ends.NoMemory }
{
    match flushed {
        Ok(()) => outcome.status(),
        Err(DeviceBad::Failed) => Outcome::WriteFault.status(),
        Err(DeviceBad::NoMemory) => Outcome::NoMemory.status(),
    }
}

/// The words behind the program's name; none where one of them isn't UTF-8, which is no command line either.
fn words_of(rt: &HostRuntime) -> Result<Vec<String>, AllocError> {
    let mut words = Vec::new(rt.alloc());
    match env::args(rt) {
        Ok(args) => {
            for word in args.skip(1) {
                words.push(word)?;
            }
        }
        Err(error) if error.kind() == ErrorKind::OutOfMemory => return Err(AllocError),
        Err(_) => {}
    }
    Ok(words)
}

/// What is put where the words ask for help or for the version, alone.
fn told(words: &[String]) -> Option<&'static str> {
    match words {
        [word] if word.as_str() == "--help" => Some(HELP),
        [word] if word.as_str() == "--version" => Some(VERSION),
        _ => None,
    }
}

/// The outcome of a put.
fn outcome_of_put(put: Result<(), DeviceBad>) -> Outcome
    ensures ok { put ≡ Ok tt → result ≡ ends.Done }
    ensures failed { put ≡ Err bad.Failed → result ≡ ends.WriteFault }
    ensures memory { put ≡ Err bad.NoMemory → result ≡ ends.NoMemory }
{
    match put {
        Ok(()) => Outcome::Done,
        Err(DeviceBad::Failed) => Outcome::WriteFault,
        Err(DeviceBad::NoMemory) => Outcome::NoMemory,
    }
}

/// What passed a limit: the place of the word that names it, and what there may be of it.
fn limited(is_joined: bool, which: Limit) -> (usize, &'static str) {
    let (script, capture) = if is_joined { (4, 5) } else { (2, 3) };
    match which {
        Limit::TopologyBytes => (1, "bytes"),
        Limit::SecondBytes => (2, "bytes"),
        Limit::JointsBytes => (3, "bytes"),
        Limit::ScriptBytes => (script, "bytes"),
        Limit::ScriptLines => (script, "lines"),
        Limit::CaptureBytes => (capture, "bytes"),
        Limit::CaptureRecords => (capture, "records"),
        Limit::Steps => (script, "steps of a run"),
        Limit::Pairs => (1, "pairs"),
    }
}

/// The word at the place, if there is one.
fn word_at(words: &[String], place: usize) -> Option<&str> {
    match words.get(place) {
        Some(word) => Some(word.as_str()),
        None => None,
    }
}

fn tell_limit(rt: &HostRuntime, words: &[String], which: Limit, limit: u64) -> io::Result<()> {
    let is_joined = word_at(words, 0) == Some("join");
    let (place, what) = limited(is_joined, which);
    match word_at(words, place) {
        Some(name) => eprintln!(rt; "mplsnet: {name}: more than {limit} {what}"),
        None => eprintln!(rt; "mplsnet: more than {limit} {what}"),
    }
}

fn tell_of_shelf(rt: &HostRuntime, shelf: &HostShelf) -> io::Result<()> {
    match shelf.failure() {
        Some(failure) => eprintln!(rt; "mplsnet: {failure}"),
        None => eprintln!(rt; "mplsnet: a file gave more bytes than were asked for"),
    }
}

/// A put that failed, or else a file that couldn't be made or written.
fn tell_of_write<W: Write + Drop>(
    rt: &HostRuntime,
    shelf: &HostShelf,
    out: &HostSink<W>,
) -> io::Result<()> {
    match out.failure() {
        Some(error) => eprintln!(rt; "mplsnet: standard output: can't be written: {error}"),
        None => tell_of_shelf(rt, shelf),
    }
}

fn tell_of_memory(rt: &HostRuntime) -> io::Result<()> {
    eprintln!(rt; "mplsnet: memory ran out")
}

/// Puts a line on standard error that says what failed, or which limit was passed.
fn tell<W: Write + Drop>(
    rt: &HostRuntime,
    words: &[String],
    shelf: &HostShelf,
    out: &HostSink<W>,
    (outcome, flushed): (Outcome, Result<(), DeviceBad>),
) -> io::Result<()> {
    match (flushed, outcome) {
        (Err(DeviceBad::Failed), _) => tell_of_write(rt, shelf, out),
        (Err(DeviceBad::NoMemory), _) => tell_of_memory(rt),
        (Ok(()), Outcome::ReadFault) => tell_of_shelf(rt, shelf),
        (Ok(()), Outcome::WriteFault) => tell_of_write(rt, shelf, out),
        (Ok(()), Outcome::NoMemory) => tell_of_memory(rt),
        (Ok(()), Outcome::TooLarge { which, limit }) => tell_limit(rt, words, which, limit),
        (Ok(()), _) => Ok(()),
    }
}

fn without_memory(rt: &HostRuntime) -> ExitCode {
    let _ = tell_of_memory(rt);
    ExitCode::from(Outcome::NoMemory.status())
}

fn main(rt: HostRuntime) -> ExitCode {
    let Ok(words) = words_of(&rt) else {
        return without_memory(&rt);
    };
    let Ok(buffer) = BufWriter::new(rt.alloc(), io::writer(&rt)) else {
        return without_memory(&rt);
    };
    let mut shelf = HostShelf::new(&rt);
    let mut out = HostSink::new(buffer);
    let outcome = match told(&words) {
        Some(text) => outcome_of_put(out.put(text.as_bytes())),
        None => command(rt.alloc(), &words, &mut shelf, &mut out),
    };
    let flushed = out.flush();
    let _ = tell(&rt, &words, &shelf, &out, (outcome, flushed));
    ExitCode::from(status(outcome, flushed))
}
