ghost use Rattle.std.specs.Prelude.{◌≡◌, ℕ, ◌+◌, ◌-◌, ◌*◌, ◌<◌, ◌≤◌, ◌^◌, ◌==◌, [], ◌∷◌, ◌++◌, length, take, drop, replicate, Some, slice_get, slice_index, IsTrue, IfOk};
ghost use Rattle.mn_ipv4.specs.Header.{good, ttl_of, with_ttl, aged, ChangesTtlOnly};
ghost use Rattle.mn_stack.specs.Entry.{Fits};
ghost use Rattle.mn_stack.specs.Grammar.{IsStack, IsFrame, is_packet};
ghost use Rattle.mn_stack.specs.Reading.{frame_of};

use crate::read::{ENTRY, depth_of, first_entry};
use crate::refusal::FrameBad;
use crate::write::put_entry;
use mn_ipv4::{check, set_ttl};
use std::alloc::{AllocError, Global};
use std::marker::Model;

/// An entry of the label stack (RFC 3032, section 2.1).
#[derive(Clone, Copy, Debug, PartialEq, Eq)]
pub struct Entry {
    /// The label, below 1,048,576.
    pub label: u32,
    /// For experimental use, below 8.
    pub exp: u8,
    /// Whether it is the last entry of its stack: the S bit.
    pub bottom: bool,
    /// Time to live, in hops.
    pub ttl: u8,
}

/// How many entries can be pushed on a frame when it is made.
const ROOM: u32 = 2;

/// The most entries of a frame that is read.
const MOST: usize = (u32::MAX - ROOM) as usize;

/// A label stack, also an empty one, and an IPv4 packet (RFC 3032, section 2.1).
///
/// Contracts see the entries, the top one first, the packet, and how many entries can be pushed. The last entry alone is
/// the bottom, and the packet is good and ends at its total length.
#[derive(Drop)]
pub struct Frame {
    /// The room, then the entries, then the packet.
    bytes: Vec<u8>,
    room: u32,
    depth: u32,
}

impl Model for Frame {
    ghost use Rattle.mn_stack.specs.Kept.{kept, IsKept};
    ghost use Rattle.mn_stack.specs.Labelled.{Labelled};

    ghost Value = { Labelled };

    ghost view = { λ f. kept f.room f.depth f.bytes.items };

    ghost invariant = { λ f. IsKept f.room f.depth f.bytes.items };
}

impl Frame {
    ghost use Rattle.mn_stack.specs.Labelled.{frame_bytes, swapped, with_top_ttl, popped, pushed, Answers};

    /// A good packet of exactly its total length, with no entry, and with room for two.
    pub fn over(alloc: Global, packet: &[u8]) -> Result<Frame, AllocError>
        requires { IsTrue (is_packet packet.now) }
        ensures { IfOk result (λ frame. frame ≡ record { entries = []; packet = packet.now; room = 2 }) }
    {
        Ok(Frame {
            bytes: behind_room(alloc, packet)?,
            room: ROOM,
            depth: 0,
        })
    }

    /// Reads a frame, which has at least one entry, and leaves room for two more.
    ///
    /// Refuses in this order: `NoBottom` where no whole entry has the S bit and no byte is left over, `Short` where
    /// one to three are, and `BadPayload` where what follows the bottom entry isn't a good packet of exactly its total
    /// length.
    pub fn read(alloc: Global, bytes: &[u8]) -> Result<Frame, FrameBad>
        ensures reading { Answers result (frame_of bytes.now) }
        ensures is_frame { IfOk result (λ frame. IsFrame bytes.now frame.entries frame.packet) }
        ensures entry { IfOk result (λ frame. 0 < length frame.entries) }
        ensures room { IfOk result (λ frame. frame.room ≡ 2) }
    {
        let Some(depth) = depth_of(bytes) else {
            return Err(if bytes.len() % ENTRY == 0 {
                FrameBad::NoBottom
            } else {
                FrameBad::Short
            });
        };
        if !is_packet(from_place(bytes, ENTRY * depth)) {
            return Err(FrameBad::BadPayload);
        }
        if depth > MOST {
            return Err(FrameBad::NoMemory);
        }
        let Ok(bytes) = behind_room(alloc, bytes) else {
            return Err(FrameBad::NoMemory);
        };
        Ok(Frame {
            bytes,
            room: ROOM,
            depth: depth as u32,
        })
    }

    /// How many entries can be pushed.
    pub fn room(&self) -> u32
        ensures { result ≡ self.now.room }
    {
        self.room
    }

    /// How many entries the stack has.
    pub fn depth(&self) -> u32
        ensures depth { result ≡ length self.now.entries }
        ensures stack { IsStack self.now.entries }
    {
        self.depth
    }

    /// The top entry.
    pub fn top(&self) -> Entry
        requires { 0 < length self.now.entries }
        ensures top { slice_get self.now.entries 0 ≡ Some result }
        ensures fits { Fits result }
        ensures bottom { result.bottom ≡ (length self.now.entries == 1) }
    {
        first_entry(from_place(&self.bytes, ENTRY * self.room as usize))
    }

    /// Puts an entry in the place of the top one, which is the bottom or isn't, as it is.
    fn put_top(&mut self, entry: Entry)
        requires some { 0 < length self.old.entries }
        requires fits { Fits entry }
        requires bottom { entry.bottom ≡ (length self.old.entries == 1) }
        ensures { self.new ≡ record self.old { entries = entry ∷ drop 1 self.old.entries } }
    {
        put_entry(&mut self.bytes, ENTRY * self.room as usize, entry);
    }

    /// Gives the top entry a label below 1,048,576 and a TTL. Its Exp stays, and so does its S bit.
    pub fn swap(&mut self, label: u32, ttl: u8)
        requires some { 0 < length self.old.entries }
        requires label { label < 2 ^ 20 }
        ensures { self.new ≡ record self.old { entries = swapped self.old.entries label ttl } }
    {
        let top = self.top();
        self.put_top(Entry { label, ttl, ..top });
    }

    /// Gives the top entry a TTL.
    pub fn set_top_ttl(&mut self, ttl: u8)
        requires { 0 < length self.old.entries }
        ensures { self.new ≡ record self.old { entries = with_top_ttl self.old.entries ttl } }
    {
        let top = self.top();
        self.put_top(Entry { ttl, ..top });
    }

    /// Takes the top entry off, which leaves room for one more.
    pub fn pop(&mut self)
        requires { 0 < length self.old.entries }
        ensures { self.new ≡ record self.old { entries = popped self.old.entries; room = self.old.room + 1 } }
    {
        self.room += 1;
        self.depth -= 1;
    }

    /// Puts an entry on top, with a label below 1,048,576 and Exp 0. On an empty stack it is the bottom.
    pub fn push(&mut self, label: u32, ttl: u8)
        requires room { 0 < self.old.room }
        requires label { label < 2 ^ 20 }
        ensures { self.new ≡ record self.old { entries = pushed self.old.entries label ttl; room = self.old.room - 1 } }
    {
        let bottom = self.depth == 0;
        self.room -= 1;
        self.depth += 1;
        let entry = Entry {
            label,
            exp: 0,
            bottom,
            ttl,
        };
        put_entry(&mut self.bytes, ENTRY * self.room as usize, entry);
    }

    /// Gives the packet a TTL, and its checksum anew.
    pub fn set_ip_ttl(&mut self, ttl: u8)
        ensures packet { self.new ≡ record self.old { packet = with_ttl self.old.packet ttl } }
        ensures ttl_is { ttl_of self.new.packet ≡ ttl }
        ensures still_packet { IsTrue (is_packet self.new.packet) }
        ensures others { ChangesTtlOnly self.old.packet self.new.packet }
        // Not above the old TTL, it ages the packet by the difference.
        ensures as_aged { ttl ≤ ttl_of self.old.packet →
            self.new.packet ≡ aged self.old.packet (ttl_of self.old.packet - ttl) }
    {
        let packet = ENTRY * (self.room as usize + self.depth as usize);
        set_ttl_behind(&mut self.bytes, packet, ttl);
    }

    /// The packet alone, without the entries: what a site is delivered.
    pub fn packet(&self) -> &[u8]
        ensures packet { result.now ≡ self.now.packet }
        ensures is_packet { IsTrue (is_packet result.now) }
    {
        from_place(
            &self.bytes,
            ENTRY * (self.room as usize + self.depth as usize),
        )
    }

    /// The bytes: those of the entries, the top one first, and then those of the packet.
    pub fn bytes(&self) -> &[u8]
        ensures bytes { result.now ≡ frame_bytes self.now }
        ensures is_frame { IsFrame result.now self.now.entries self.now.packet }
    {
        from_place(&self.bytes, ENTRY * self.room as usize)
    }
}

/// The bytes from a place on.
fn from_place(bytes: &[u8], place: usize) -> &[u8]
    requires { place ≤ length bytes.now }
    ensures rest { result.now ≡ drop place bytes.now }
    ensures bytes { (i : ℕ) → slice_index bytes.now i < 256 }
{
    &bytes[place..]
}

/// Whether it is a good packet, and nothing behind its total length.
fn is_packet(bytes: &[u8]) -> bool
    ensures { result ≡ is_packet bytes.now }
{
    match check(bytes) {
        Ok(head) => bytes.len() == usize::from(head.total),
        Err(_) => false,
    }
}

/// Gives the packet behind a place a TTL, and its checksum anew.
fn set_ttl_behind(bytes: &mut [u8], place: usize, ttl: u8)
    requires there { place ≤ length bytes.old }
    requires packet { IsTrue (good (drop place bytes.old)) }
    ensures ttl { bytes.new ≡ take place bytes.old ++ with_ttl (drop place bytes.old) ttl }
    ensures still_good { IsTrue (good (drop place bytes.new)) }
{
    set_ttl(&mut bytes[place..], ttl);
}

/// The bytes behind room for two entries.
fn behind_room(alloc: Global, bytes: &[u8]) -> Result<Vec<u8>, AllocError>
    ensures { IfOk result (λ room. room.items ≡ replicate 8 0 ++ bytes.now) }
{
    let room = [0; ENTRY * ROOM as usize];
    let mut buffer = Vec::with_capacity(alloc, bytes.len().saturating_add(room.len()))?;
    buffer.extend_from_slice(&room)?;
    buffer.extend_from_slice(bytes)?;
    Ok(buffer)
}
