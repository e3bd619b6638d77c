// Bytes that wait for files, a buffer for each.
ghost use Rattle.std.specs.Prelude.{◌≡◌, ◌+◌, ◌<◌, ◌≤◌, ◌++◌, None, [], IfOk, IfSome, OnErr, OnOk, length, take, drop, map, replicate};
ghost use Rattle.mn_edge.specs.Kept.{held_bytes, held_for, most_held, none_held, with_piece};

use crate::Line;
use std::alloc::{AllocError, Global};
use std::marker::Model;

/// The most bytes that are held over so many files. A shelf of real files keeps at most 64 open: over more files what is held is
/// appended to files that are opened anew, and so there should be more of it.
pub(crate) fn room_for(files: usize) -> usize
    ensures { result ≡ most_held files }
{
    if files <= 64 { 65_536 } else { 1_048_576 }
}

/// What is held for each of some files.
#[derive(Drop)]
pub(crate) struct Held {
    files: Vec<Vec<u8>>,
    /// How many bytes these are in all.
    count: usize,
}

impl Model for Held {
    ghost use Rattle.std.specs.Prelude.{◌≡◌, ◌≤◌, List, ℕ, length, map};

    ghost Value = { List (List ℕ) };

    ghost use Rattle.mn_edge.specs.Kept.{held_bytes, most_held};

    ghost view = { λ h. map (λ v. v.items) h.files.items };

    ghost invariant = { λ h. (h.count ≡ held_bytes (map (λ v. v.items) h.files.items)) × (h.count ≤ most_held (length h.files.items)) };
}

impl Held {
    /// Nothing is held for any of so many files.
    pub(crate) fn new(alloc: Global, files: usize) -> Result<Held, AllocError>
        ensures { IfOk result (λ held. held ≡ replicate files []) }
    {
        let mut buffers = Vec::with_capacity(alloc, files)?;
        for _ in 0..files {
            buffers.push(Vec::new(alloc))?;
        }
        Ok(Held {
            files: buffers,
            count: 0,
        })
    }

    /// How many bytes can be held besides.
    pub(crate) fn room(&self) -> usize
        ensures { result + held_bytes self.now ≡ most_held (length self.now) }
    {
        room_for(self.files.len()) - self.count
    }

    /// Holds a line for a file, behind what is held for it. A line for which there is no room is handed back, and all stays. After
    /// running out of memory nothing is held.
    #[inline(always)]
    pub(crate) fn push<L: Line>(
        &mut self,
        file: usize,
        line: &L,
    ) -> Result<Option<Vec<u8>>, AllocError>
        requires { file < length self.old }
        ensures held { IfOk result (λ back. back ≡ None →
            (held_bytes self.old + length (L.text line.now) ≤ most_held (length self.old)) × (self.new ≡ with_piece self.old file (L.text line.now))) }
        ensures back { IfOk result (λ back. IfSome back (λ text.
            (most_held (length self.old) < held_bytes self.old + length (L.text line.now)) × (text.items ≡ L.text line.now) × (self.new ≡ self.old))) }
        ensures err { OnErr result (self.new ≡ none_held self.old) }
    {
        let room = self.room();
        let bytes = &mut self.files[file];
        let from = bytes.len();
        let done = write(bytes, room, line);
        let end = bytes.len();
        if done.is_err() {
            empty(&mut self.files);
            self.count = 0;
            return done;
        }
        self.count += end - from;
        done
    }

    /// What is held for a file.
    pub(crate) fn bytes(&self, file: usize) -> &[u8]
        requires { file < length self.now }
        ensures { result.now ≡ held_for self.now file }
    {
        &self.files[file]
    }

    /// Holds nothing any more.
    pub(crate) fn clear(&mut self)
        ensures { self.new ≡ none_held self.old }
    {
        empty(&mut self.files);
        self.count = 0;
    }
}

/// Holds nothing for any file. Of many files each keeps no more memory than its share of the most that is held: else each would
/// come to keep as much as it ever needed.
fn empty(files: &mut Vec<Vec<u8>>)
    ensures { map (λ v. v.items) files.new.items ≡ none_held (map (λ v. v.items) files.old.items) }
{
    let share = if files.len() <= 64 {
        usize::MAX
    } else {
        room_for(files.len()) / files.len()
    };
    for file in 0..files.len() {
        shed(&mut files[file], share);
    }
}

/// Takes all bytes away, and their memory too where it is more than so much.
fn shed(bytes: &mut Vec<u8>, most: usize)
    ensures { bytes.new.items ≡ [] }
{
    bytes.clear();
    if bytes.capacity() > most {
        *bytes = Vec::new(*bytes.allocator());
    }
}

/// Writes a line behind bytes, or hands it back where it is longer than the room.
#[inline(always)]
fn write<L: Line>(bytes: &mut Vec<u8>, room: usize, line: &L) -> Result<Option<Vec<u8>>, AllocError>
    ensures held { IfOk result (λ back. back ≡ None →
        (length (L.text line.now) ≤ room) × (bytes.new.items ≡ bytes.old.items ++ L.text line.now)) }
    ensures back { IfOk result (λ back. IfSome back (λ text.
        (room < length (L.text line.now)) × (text.items ≡ L.text line.now) × (bytes.new.items ≡ bytes.old.items))) }
{
    let from = bytes.len();
    line.put(bytes)?;
    if bytes.len() - from > room {
        return Ok(Some(take_back(bytes, from)?));
    }
    Ok(None)
}

/// Takes back the bytes from a place on.
fn take_back(bytes: &mut Vec<u8>, from: usize) -> Result<Vec<u8>, AllocError>
    requires { from ≤ length bytes.old.items }
    ensures back { IfOk result (λ back. back.items ≡ drop from bytes.old.items) }
    ensures rest { OnOk result (bytes.new.items ≡ take from bytes.old.items) }
{
    let mut back = Vec::new(*bytes.allocator());
    back.extend_from_slice(&bytes[from..])?;
    bytes.truncate(from);
    Ok(back)
}
