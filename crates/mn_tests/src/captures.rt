// Captures of one packet, which a run over two links takes and leaves. The packet is UDP from 10.1.0.1 to 10.2.0.1.
use std::alloc::{AllocError, Global};

/// A capture of IPv4 packets: link type 228.
pub(crate) const IPV4: [u8; 24] = [
    0xD4, 0xC3, 0xB2, 0xA1, 0x02, 0x00, 0x04, 0x00, 0x00, 0x00, 0x00, 0x00, 0x00, 0x00, 0x00, 0x00,
    0x00, 0x00, 0x04, 0x00, 0xE4, 0x00, 0x00, 0x00,
];

/// A capture of frames of PPP: link type 9.
const PPP: [u8; 24] = [
    0xD4, 0xC3, 0xB2, 0xA1, 0x02, 0x00, 0x04, 0x00, 0x00, 0x00, 0x00, 0x00, 0x00, 0x00, 0x00, 0x00,
    0x00, 0x00, 0x04, 0x00, 0x09, 0x00, 0x00, 0x00,
];

/// Microseconds, the low byte first, at ticks 0, 2 and 4.
const TICK_0: [u8; 2] = [0x00, 0x00];

const TICK_2: [u8; 2] = [0xD0, 0x07];

const TICK_4: [u8; 2] = [0xA0, 0x0F];

/// A packet, by the bytes that its length changes.
#[derive(Clone, Copy)]
pub(crate) struct Packet {
    /// Its length, and that of the UDP datagram in it.
    pub total: [u8; 2],
    pub datagram: [u8; 2],
    /// Its checksum with TTL 64, 63 and 61.
    pub checksum_64: [u8; 2],
    pub checksum_63: [u8; 2],
    pub checksum_61: [u8; 2],
    /// The length of a record, the low byte first: of the packet alone, of its frame on the first link, and on the second.
    pub alone: [u8; 2],
    pub first_link: [u8; 2],
    pub second_link: [u8; 2],
    /// How many zeros stand behind its first 28 bytes.
    pub zeros: usize,
}

/// 28 bytes.
pub(crate) const SHORT: Packet = Packet {
    total: [0x00, 0x1C],
    datagram: [0x00, 0x08],
    checksum_64: [0x66, 0xCD],
    checksum_63: [0x67, 0xCD],
    checksum_61: [0x69, 0xCD],
    alone: [0x1C, 0x00],
    first_link: [0x26, 0x00],
    second_link: [0x22, 0x00],
    zeros: 0,
};

/// 40,000 bytes. A checksum is that of the packet of 28 bytes, less 9C24 in one's complement.
pub(crate) const LONG: Packet = Packet {
    total: [0x9C, 0x40],
    datagram: [0x9C, 0x2C],
    checksum_64: [0xCA, 0xA8],
    checksum_63: [0xCB, 0xA8],
    checksum_61: [0xCD, 0xA8],
    alone: [0x40, 0x9C],
    first_link: [0x4A, 0x9C],
    second_link: [0x46, 0x9C],
    zeros: 39_972,
};

impl Packet {
    /// Appends the packet with this TTL and checksum.
    fn put(
        &self,
        alloc: Global,
        out: &mut Vec<u8>,
        ttl: u8,
        checksum: [u8; 2],
    ) -> Result<(), AllocError> {
        out.extend_from_slice(&[0x45, 0x00])?;
        out.extend_from_slice(&self.total)?;
        out.extend_from_slice(&[0x00, 0x00, 0x00, 0x00, ttl, 0x11])?;
        out.extend_from_slice(&checksum)?;
        out.extend_from_slice(&[0x0A, 0x01, 0x00, 0x01, 0x0A, 0x02, 0x00, 0x01])?;
        out.extend_from_slice(&[0x00, 0x35, 0x00, 0x35])?;
        out.extend_from_slice(&self.datagram)?;
        out.extend_from_slice(&[0x00, 0x00])?;
        out.extend_from_slice(&vec![in alloc; 0u8; self.zeros]?)
    }

    /// The capture that the run takes: at tick 0, with TTL 64.
    pub(crate) fn taken(&self, alloc: Global) -> Result<Vec<u8>, AllocError> {
        let mut bytes = begun(alloc, &IPV4, TICK_0, self.alone)?;
        self.put(alloc, &mut bytes, 64, self.checksum_64)?;
        Ok(bytes)
    }

    /// The capture of the deliveries: at tick 4, with TTL 61.
    pub(crate) fn delivered(&self, alloc: Global) -> Result<Vec<u8>, AllocError> {
        let mut bytes = begun(alloc, &IPV4, TICK_4, self.alone)?;
        self.put(alloc, &mut bytes, 61, self.checksum_61)?;
        Ok(bytes)
    }

    /// At tick 0 a frame of PPP: 02 81, p's label 16 for pe2, pe2's label 16 at the bottom for site b, and the packet, each
    /// with TTL 63.
    pub(crate) fn on_first_link(&self, alloc: Global) -> Result<Vec<u8>, AllocError> {
        let mut bytes = begun(alloc, &PPP, TICK_0, self.first_link)?;
        bytes.extend_from_slice(&[0x02, 0x81, 0x00, 0x01, 0x00, 0x3F, 0x00, 0x01, 0x01, 0x3F])?;
        self.put(alloc, &mut bytes, 63, self.checksum_63)?;
        Ok(bytes)
    }

    /// At tick 2 a frame of PPP: label 16 alone at the bottom, with TTL 62, since p is the last but one and pops; the packet as
    /// it was pushed.
    pub(crate) fn on_second_link(&self, alloc: Global) -> Result<Vec<u8>, AllocError> {
        let mut bytes = begun(alloc, &PPP, TICK_2, self.second_link)?;
        bytes.extend_from_slice(&[0x02, 0x81, 0x00, 0x01, 0x01, 0x3E])?;
        self.put(alloc, &mut bytes, 63, self.checksum_63)?;
        Ok(bytes)
    }
}

/// The header of a capture, and that of its one record: at so many microseconds, of this length.
fn begun(
    alloc: Global,
    header: &[u8],
    micros: [u8; 2],
    length: [u8; 2],
) -> Result<Vec<u8>, AllocError> {
    let mut bytes = Vec::from_slice(alloc, header)?;
    let rest = [0x00, 0x00];
    for part in [rest, rest, micros, rest, length, rest, length, rest] {
        bytes.extend_from_slice(&part)?;
    }
    Ok(bytes)
}
