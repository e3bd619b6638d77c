// Text that goes to a sink by few puts.
ghost use Rattle.std.specs.Prelude.{◌≡◌, ◌+◌, ◌*◌, ◌<◌, ◌≤◌, ◌++◌, [], Some, length, nat_le, false, IsTrue, IfErr, IfOk, OnOk, OnErr};
ghost use Rattle.mn_edge.specs.Faults.{Counted};
ghost use Rattle.mn_lines.specs.Names.{names_of};
ghost use Rattle.mn_lines.specs.Lines.{packet_line};
ghost use Rattle.mn_lines.specs.Putting.{Puts, PutsPart};

use crate::lines::Packet;
use crate::packet::lay_packet;
use mn_edge::{DeviceBad, Sink};
use mn_topo::Topology;
use std::alloc::{AllocError, Global};
use std::marker::Model;

/// The most bytes that wait: 64 KiB.
const ROOM: usize = 65_536;

/// Text that waits to be put, at most 65,536 bytes. Contracts see it as those bytes.
///
/// A piece waits where there is room for it. Where there isn't, all that waits is put first, by one put. After a
/// refusal of the sink nothing waits any more.
#[derive(Drop)]
pub struct Page {
    bytes: Vec<u8>,
    held: usize,
}

impl Model for Page {
    ghost use Rattle.std.specs.Prelude.{◌≡◌, ◌≤◌, List, ℕ, length, take};

    ghost Value = { List ℕ };

    ghost view = { λ p. take p.held p.bytes.items };

    ghost invariant = { λ p. (p.held ≤ 65536) × (length p.bytes.items ≡ 65536) };
}

impl Page {
    /// Nothing waits. All the memory that is ever wanted is taken here.
    pub fn new(alloc: Global) -> Result<Page, AllocError>
        ensures { IfOk result (λ page. page ≡ []) }
    {
        Ok(Page {
            bytes: vec![in alloc; 0; ROOM]?,
            held: 0,
        })
    }

    /// Puts a piece of text: it waits, or all is put up to it.
    pub fn put<O: Sink>(&mut self, out: &mut O, piece: &[u8]) -> Result<(), DeviceBad>
        ensures put { OnOk result (Puts piece.now self.old self.new (O.written out.old) (O.written out.new)) }
        ensures part { OnErr result (PutsPart piece.now self.old (O.written out.old) (O.written out.new)) }

        // Where there is room for the piece, the sink isn't called, and the piece waits.
        ensures untouched { length self.old + length piece.now ≤ 65536 → out.new ≡ out.old }
        ensures waits { length self.old + length piece.now ≤ 65536 → self.new ≡ self.old ++ piece.now }

        // Where there isn't, the piece waits behind a put of all that waited, unless it alone is too long.
        ensures alone { OnOk result (65536 < length self.old + length piece.now →
            length piece.now ≤ 65536 → self.new ≡ piece.now) }
        ensures room { length self.new ≤ 65536 }
        ensures dropped { OnErr result (self.new ≡ []) }
        ensures cause { Counted (O.faults out.old) (O.faults out.new) result }
        ensures ends { IfErr result (λ e. O.refusal out.new ≡ Some e) }
    {
        if piece.len() <= ROOM - self.held {
            self.hold(piece);
            return Ok(());
        }
        self.end(out)?;
        if piece.len() > ROOM {
            return out.put(piece);
        }
        self.hold(piece);
        Ok(())
    }

    /// Composes the line of a packet where it will wait, and answers whether there is surely room: 64 bytes for each
    /// node of its path and four times 64 for the rest. Where there isn't, nothing changes.
    pub fn hold_packet(&mut self, topology: &Topology, packet: Packet<'_>) -> bool
        ensures room { result ≡ nat_le (length self.old + 64 * (length packet.entry.path.now + 4)) 65536 }
        ensures held { IsTrue result → self.new ≡ self.old
            ++ packet_line (names_of topology.now) packet.entry.number packet.entry.sent packet.entry.verdict packet.entry.path.now }
        ensures kept { result ≡ false → self.new ≡ self.old }
    {
        let rows = (ROOM - self.held) / 64;
        if rows < 4 || packet.path.len() > rows - 4 {
            return false;
        }
        self.held = lay_packet(&mut self.bytes, self.held, topology, packet);
        true
    }

    /// Puts all that waits, by one put, and nothing if nothing waits. Nothing waits any more, also after a refusal.
    pub fn end<O: Sink>(&mut self, out: &mut O) -> Result<(), DeviceBad>
        ensures put { OnOk result (Puts [] self.old self.new (O.written out.old) (O.written out.new)) }
        ensures part { OnErr result (PutsPart [] self.old (O.written out.old) (O.written out.new)) }
        ensures ended { self.new ≡ [] }
        ensures untouched { self.old ≡ [] → out.new ≡ out.old }
        ensures cause { Counted (O.faults out.old) (O.faults out.new) result }
        ensures ends { IfErr result (λ e. O.refusal out.new ≡ Some e) }
    {
        if self.held == 0 {
            return Ok(());
        }
        let put = out.put(&self.bytes[..self.held]);
        self.held = 0;
        put
    }

    /// A piece for which there is room waits.
    fn hold(&mut self, piece: &[u8])
        requires { length self.old + length piece.now ≤ 65536 }
        ensures { self.new ≡ self.old ++ piece.now }
    {
        let end = self.held + piece.len();
        self.bytes[self.held..end].copy_from_slice(piece);
        self.held = end;
    }
}
