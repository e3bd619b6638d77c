//! `mn_shelf_run`: writes 70 real files, more than are open at a time, and prints the bytes that it reads back.
//!
//! Each file is begun, and grows by a piece in each of three rounds over all files, so that each append of a later round
//! opens its file anew. Then all are fetched, one of them a second time and from within, and one is begun anew. A file
//! that isn't there, a folder, and a file that another shelf cuts after it was read are faults.
#![tactic(auto)]

use mn_edge::{Content, DeviceBad, Shelf, Sink, read_all};
use mn_edge_real::{HostShelf, HostSink};
use std::alloc::{AllocError, Global};
use std::io;
use std::io::BufWriter;

const FILES: u32 = 70;

const ROUNDS: u32 = 3;

/// More bytes than any of the files has.
const MOST: u64 = 65_536;

fn name_of(alloc: Global, file: u32) -> Result<String, AllocError> {
    format!(in alloc; "file-{file}")
}

/// What a round puts into a file.
fn piece_of(alloc: Global, file: u32, round: u32) -> Result<String, AllocError> {
    format!(in alloc; " {file}.{round}")
}

fn put(out: &mut impl Sink, line: &str) -> Result<(), DeviceBad> {
    out.put(line.as_bytes())
}

fn begin_each(alloc: Global, shelf: &mut HostShelf<'_>) -> Result<(), DeviceBad> {
    for file in 0..FILES {
        shelf.begin(name_of(alloc, file)?.as_str())?;
    }
    Ok(())
}

fn append_each(alloc: Global, shelf: &mut HostShelf<'_>, round: u32) -> Result<(), DeviceBad> {
    for file in 0..FILES {
        let piece = piece_of(alloc, file, round)?;
        shelf.append(name_of(alloc, file)?.as_str(), piece.as_str().as_bytes())?;
    }
    Ok(())
}

/// The bytes of a file, read whole.
fn contents(alloc: Global, shelf: &mut HostShelf<'_>, name: &str) -> Result<Vec<u8>, DeviceBad> {
    Ok(match read_all(alloc, shelf, name, MOST)? {
        Content::Whole(bytes) => bytes,
        Content::TooLarge => Vec::new(alloc),
    })
}

/// Puts a line with the file's name and its bytes.
fn show(
    alloc: Global,
    shelf: &mut HostShelf<'_>,
    out: &mut impl Sink,
    name: &str,
) -> Result<(), DeviceBad> {
    let bytes = contents(alloc, shelf, name)?;
    put(out, name)?;
    put(out, ":")?;
    out.put(&bytes)?;
    put(out, "\n")
}

/// Writes the files, and shows each.
fn write_and_show(
    alloc: Global,
    shelf: &mut HostShelf<'_>,
    out: &mut impl Sink,
) -> Result<(), DeviceBad> {
    begin_each(alloc, shelf)?;
    for round in 0..ROUNDS {
        append_each(alloc, shelf, round)?;
    }
    for file in 0..FILES {
        show(alloc, shelf, out, name_of(alloc, file)?.as_str())?;
    }
    let open = shelf.open_files();
    put(out, format!(in alloc; "{open} are open\n")?.as_str())
}

/// Puts eight bytes of a file, from the sixth on, that are fetched from within.
fn show_from_within(
    alloc: Global,
    shelf: &mut HostShelf<'_>,
    out: &mut impl Sink,
    name: &str,
) -> Result<(), DeviceBad> {
    let mut buf = [0u8; 8];
    let count = shelf.fetch(name, 5, &mut buf)?;
    put(
        out,
        format!(in alloc; "{name} from byte 5, {count} bytes:")?.as_str(),
    )?;
    out.put(buf.get(..count).unwrap_or(&[]))?;
    put(out, "\n")
}

/// Puts what reading, beginning and appending come to where there is no such file.
fn show_faults(
    alloc: Global,
    shelf: &mut HostShelf<'_>,
    out: &mut impl Sink,
    name: &str,
) -> Result<(), DeviceBad> {
    let read = contents(alloc, shelf, name).err();
    let appended = shelf.append(name, b"!").err();
    put(
        out,
        format!(in alloc; "{name} read: {read:?}, appended: {appended:?}\n")?.as_str(),
    )
}

/// A file that is read again and then begun anew, one that isn't there, a folder, and a file in no folder.
fn show_further(
    alloc: Global,
    shelf: &mut HostShelf<'_>,
    out: &mut impl Sink,
) -> Result<(), DeviceBad> {
    show(alloc, shelf, out, "file-7")?;
    show_from_within(alloc, shelf, out, "file-7")?;
    shelf.append("file-7", b" and more")?;
    show(alloc, shelf, out, "file-7")?;
    shelf.begin("file-7")?;
    show(alloc, shelf, out, "file-7")?;
    show_faults(alloc, shelf, out, "no-such-file")?;
    show_faults(alloc, shelf, out, ".")?;
    let begun = shelf.begin("no-such-folder/file").err();
    put(
        out,
        format!(in alloc; "begun in no folder: {begun:?}\n")?.as_str(),
    )
}

/// Another shelf empties the file.
fn cut(rt: &HostRuntime, name: &str) -> Result<(), DeviceBad> {
    let mut other = HostShelf::new(rt);
    other.begin(name)
}

/// Puts the call that failed last, and why.
fn show_failure(
    alloc: Global,
    shelf: &HostShelf<'_>,
    out: &mut impl Sink,
) -> Result<(), DeviceBad> {
    match shelf.failure() {
        Some(failure) => put(out, format!(in alloc; "{failure}\n")?.as_str()),
        None => Ok(()),
    }
}

/// A file that was cut can't be read, until it is begun anew.
fn show_cut(
    alloc: Global,
    shelf: &mut HostShelf<'_>,
    out: &mut impl Sink,
    name: &str,
) -> Result<(), DeviceBad> {
    let read = contents(alloc, shelf, name).err();
    put(
        out,
        format!(in alloc; "{name} cut, read: {read:?}\n")?.as_str(),
    )?;
    show_failure(alloc, shelf, out)?;
    shelf.begin(name)?;
    show(alloc, shelf, out, name)
}

fn main(rt: HostRuntime) -> io::Result<()> {
    let mut shelf = HostShelf::new(&rt);
    let mut out = HostSink::new(BufWriter::new(rt.alloc(), io::writer(&rt))?);
    let first = write_and_show(rt.alloc(), &mut shelf, &mut out);
    let then = show_further(rt.alloc(), &mut shelf, &mut out);
    let cut = cut(&rt, "file-8");
    let last = show_cut(rt.alloc(), &mut shelf, &mut out, "file-8");
    let flushed = out.flush();
    println!(rt; "{first:?} {then:?} {cut:?} {last:?} {flushed:?}")
}
