// One run, from its folder into another.
use mn_edge_real::{HostShelf, HostSink};
use std::alloc::{AllocError, Global};
use std::io::{BufWriter, Error, ErrorKind};
use std::{fs, io};

/// The bytes that a text has in hexadecimal. Behind a `#` a line has a comment.
fn bytes_of(alloc: Global, text: &str) -> io::Result<Vec<u8>> {
    let mut digits = String::new(alloc);
    for line in text.lines() {
        let told = line.split('#').next().unwrap_or(line);
        for word in told.split_whitespace() {
            digits.push_str(word)?;
        }
    }
    match hex::decode(alloc, digits.as_str()) {
        Ok(bytes) => Ok(bytes),
        Err(_) => Err(Error::from(ErrorKind::InvalidData)),
    }
}

/// The name of the run's capture. One in hexadecimal is written as bytes first.
fn capture_of(rt: &HostRuntime, run: &str, left: &str) -> io::Result<String> {
    let written = format!(in rt.alloc(); "{run}/capture.hex")?;
    match fs::read_to_string(rt, written.as_str()) {
        Ok(text) => {
            let name = format!(in rt.alloc(); "{left}.pcap")?;
            fs::write(
                rt,
                name.as_str(),
                bytes_of(rt.alloc(), text.as_str())?.as_slice(),
            )?;
            Ok(name)
        }
        Err(error) if error.kind() == ErrorKind::NotFound => {
            Ok(format!(in rt.alloc(); "{run}/capture.pcap")?)
        }
        Err(error) => Err(error),
    }
}

/// The texts that a command reads, in their order.
fn texts_of(command: &str) -> &'static [&'static str] {
    match command {
        "join" => &[
            "topology1.toml",
            "topology2.toml",
            "joints.txt",
            "script.txt",
        ],
        "reach" => &["topology.toml", "failures.txt"],
        _ => &["topology.toml", "script.txt"],
    }
}

/// The first words of the run's command line: the command, and the texts that it reads.
fn first_words(alloc: Global, command: &str, run: &str) -> Result<Vec<String>, AllocError> {
    let mut words = Vec::new(alloc);
    words.push(String::from_str(alloc, command)?)?;
    for text in texts_of(command) {
        words.push(format!(in alloc; "{run}/{text}")?)?;
    }
    Ok(words)
}

/// Whether the command reads a capture, and writes files into a folder.
fn has_packets(command: &str) -> bool {
    command != "flood" && command != "reflect" && command != "reach"
}

/// The words of the run's command line.
fn words_of(rt: &HostRuntime, command: &str, run: &str, left: &str) -> io::Result<Vec<String>> {
    let mut words = first_words(rt.alloc(), command, run)?;
    if has_packets(command) {
        words.push(capture_of(rt, run, left)?)?;
        words.push(String::from_str(rt.alloc(), left)?)?;
    }
    Ok(words)
}

/// Does the run, and answers its status.
pub(crate) fn play(rt: &HostRuntime, command: &str, run: &str, left: &str) -> io::Result<u8> {
    let words = words_of(rt, command, run, left)?;
    let report = format!(in rt.alloc(); "{left}/report.txt")?;
    let mut shelf = HostShelf::new(rt);
    let mut out = HostSink::new(BufWriter::new(rt.alloc(), fs::create(rt, report.as_str())?)?);
    let outcome = mn_run::command(rt.alloc(), &words, &mut shelf, &mut out);
    match out.flush() {
        Ok(()) => Ok(outcome.status()),
        Err(_) => Err(Error::from(ErrorKind::Other)),
    }
}
