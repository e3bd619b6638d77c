//! A record of a capture, and its header.
ghost use Rattle.std.specs.Prelude.{◌≡◌, ◌++◌};
ghost use Rattle.byteorder.specs.Endian.{little_bytes};
ghost use Rattle.mn_pcap.specs.Format.{record_header, record_of};

use byteorder::{ByteOrder, LittleEndian};
use mn_edge::Line;
use std::alloc::AllocError;

const RECORD_HEADER: usize = 16;

/// The lowest 32 bits: seconds and lengths have no more.
#[tactic(auto, using(crate::proofs::Low::low_four))]
fn low(number: u64) -> u32
    ensures { little_bytes 4 result ≡ little_bytes 4 number }
{
    (number % (1 << 32)) as u32
}

/// The header of the record of a packet of so many bytes that was seen at this tick, in milliseconds from the start.
pub fn record_header(tick: u64, length: usize) -> [u8; RECORD_HEADER]
    ensures { result ≡ record_header tick length }
{
    let seconds = low(tick / 1000);
    let captured = low(length as u64);
    let mut fields = [0; RECORD_HEADER];
    LittleEndian::write_u32(&mut fields, seconds);
    LittleEndian::write_u32(&mut fields[4..], (tick % 1000) as u32 * 1000);
    LittleEndian::write_u32(&mut fields[8..], captured);
    LittleEndian::write_u32(&mut fields[12..], captured);
    fields
}

/// The record of a packet of two parts that was seen at a tick, in milliseconds from the start.
#[derive(Drop)]
pub(crate) struct CaptureRecord<'p> {
    pub(crate) tick: u64,
    pub(crate) front: &'p [u8],
    pub(crate) packet: &'p [u8],
}

impl Line for CaptureRecord<'_> {
    ghost text = { λ it. record_of it.tick (it.front.now ++ it.packet.now) };

    #[inline(always)]
    fn put(&self, out: &mut Vec<u8>) -> Result<(), AllocError> {
        let length = self.front.len() + self.packet.len();
        out.extend_from_slice(&record_header(self.tick, length))?;
        out.extend_from_slice(self.front)?;
        out.extend_from_slice(self.packet)
    }
}
