// What a run left, and what is expected.
use std::io::ErrorKind;
use std::{fs, io};

/// The bytes of a file of the folder, where it is there.
fn file(rt: &HostRuntime, folder: &str, name: &str) -> io::Result<Option<Vec<u8>>> {
    let path = format!(in rt.alloc(); "{folder}/{name}")?;
    match fs::read(rt, path.as_str()) {
        Ok(bytes) => Ok(Some(bytes)),
        Err(error) if error.kind() == ErrorKind::NotFound => Ok(None),
        Err(error) => Err(error),
    }
}

/// Whether a file is the same in both folders. It is in one of them.
fn is_same(rt: &HostRuntime, expected: &str, left: &str, name: &str) -> io::Result<bool> {
    Ok(match (file(rt, expected, name)?, file(rt, left, name)?) {
        (Some(wanted), Some(found)) => wanted.as_slice() == found.as_slice(),
        _ => false,
    })
}

/// Tells of each file that was left and isn't expected.
fn tell_further(rt: &HostRuntime, expected: &str, left: &str) -> io::Result<()> {
    for entry in fs::read_dir(rt, left)? {
        let entry = entry?;
        if file(rt, expected, entry.file_name())?.is_none() {
            println!(rt;
                "{expected}/{} isn't there, and was left",
                entry.file_name()
            )?;
        }
    }
    Ok(())
}

/// How many files were left as they are expected. Each other is reported.
pub(crate) fn compare(rt: &HostRuntime, expected: &str, left: &str) -> io::Result<u64> {
    let mut same = 0u64;
    for entry in fs::read_dir(rt, expected)? {
        let entry = entry?;
        if is_same(rt, expected, left, entry.file_name())? {
            same = same.saturating_add(1);
        } else {
            println!(rt; "{expected}/{} differs", entry.file_name())?;
        }
    }
    tell_further(rt, expected, left)?;
    Ok(same)
}
