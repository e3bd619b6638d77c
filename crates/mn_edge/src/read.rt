// A whole file, read in pieces.
ghost use Rattle.std.specs.Prelude.{◌≡◌, ◌<◌, IfOk, length, vec_len};
ghost use Rattle.std.specs.Option.{ForSome};
ghost use Rattle.mn_edge.specs.Faults.{CountedUnless};
ghost use Rattle.mn_edge.specs.Files.{Absent};
ghost use Rattle.mn_edge.specs.Reading.{IsRead, IsWithin};

use crate::{DeviceBad, Shelf};
use std::alloc::{AllocError, Global};

/// The most bytes of one fetch: 64 KiB.
const PIECE: usize = 65_536;

/// What reading a file found.
#[derive(Debug, Drop)]
pub enum Content {
    /// All bytes of the file.
    Whole(Vec<u8>),
    /// The file has more bytes than the limit.
    TooLarge,
}

/// Reads the file of this name, if it has at most `limit` bytes.
pub fn read_all<S: Shelf>(
    alloc: Global,
    shelf: &mut S,
    name: &str,
    limit: u64,
) -> Result<Content, DeviceBad>
    ensures content { IfOk result (λ c.
        ForSome (S.files shelf.old) (λ m. IsRead m name.now limit c)) }
    ensures within { IfOk result (IsWithin limit) }
    ensures same { S.files shelf.new ≡ S.files shelf.old }
    ensures reads { CountedUnless (Absent (S.files shelf.old) name.now)
        (S.read_faults shelf.old) (S.read_faults shelf.new) result }
    ensures writes { S.write_faults shelf.new ≡ S.write_faults shelf.old }
{
    let mut piece = zeros(alloc, PIECE)?;
    read_by(alloc, shelf, name, limit, &mut piece)
}

/// Reads by fetches into this buffer.
fn read_by<S: Shelf>(
    alloc: Global,
    shelf: &mut S,
    name: &str,
    limit: u64,
    piece: &mut [u8],
) -> Result<Content, DeviceBad>
    requires { 0 < length piece.old }
    ensures content { IfOk result (λ c.
        ForSome (S.files shelf.old) (λ m. IsRead m name.now limit c)) }
    ensures within { IfOk result (IsWithin limit) }
    ensures same { S.files shelf.new ≡ S.files shelf.old }
    ensures reads { CountedUnless (Absent (S.files shelf.old) name.now)
        (S.read_faults shelf.old) (S.read_faults shelf.new) result }
    ensures writes { S.write_faults shelf.new ≡ S.write_faults shelf.old }
{
    let mut bytes = Vec::new(alloc);
    loop {
        let at = bytes.len() as u64;
        let count = shelf.fetch(name, at, piece)?;
        if count == 0 {
            return Ok(Content::Whole(bytes));
        }
        if count as u64 > limit - at {
            return Ok(Content::TooLarge);
        }
        bytes.extend_from_slice(&piece[..count])?;
    }
}

fn zeros(alloc: Global, count: usize) -> Result<Vec<u8>, AllocError>
    ensures { IfOk result (λ v. vec_len v ≡ count) }
{
    vec![in alloc; 0; count]
}
