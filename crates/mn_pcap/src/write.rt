// A capture file, written: its header first, and then its records.
ghost use Rattle.std.specs.Prelude.{◌≡◌, ◌<◌, ◌^◌, ◌++◌, length, OnOk, OnErr};
ghost use Rattle.mn_pcap.specs.Format.{header, record_header, record_of, seconds};

use crate::message::{FILE_HEADER, MAGIC, MAJOR, MINOR, RECORD_HEADER, SNAPLEN};
use byteorder::{ByteOrder, LittleEndian};
use std::alloc::AllocError;

/// Appends the header of a file whose records are of this link type, as 228 for IPv4 packets.
pub fn put_header(out: &mut Vec<u8>, link: u32) -> Result<(), AllocError>
    ensures written { OnOk result (out.new.items ≡ out.old.items ++ header link) }
    ensures unchanged { OnErr result (out.new.items ≡ out.old.items) }
{
    out.extend_from_slice(&file_header(link))
}

/// Appends the record of a packet that was seen at this tick, in milliseconds from the start.
pub fn put_record(out: &mut Vec<u8>, tick: u64, bytes: &[u8]) -> Result<(), AllocError>
    requires time { seconds tick < 2 ^ 32 }
    requires size { length bytes.now < 2 ^ 32 }
    ensures written { OnOk result (out.new.items ≡ out.old.items ++ record_of tick bytes.now) }
    ensures unchanged { OnErr result (out.new.items ≡ out.old.items) }
{
    // With the room at hand, no header is left behind without its bytes.
    out.reserve(RECORD_HEADER + bytes.len())?;
    out.extend_from_slice(&header_of_record(tick, bytes.len() as u32))?;
    out.extend_from_slice(bytes)
}

fn file_header(link: u32) -> [u8; FILE_HEADER]
    ensures { result ≡ header link }
{
    let mut fields = [0; FILE_HEADER];
    LittleEndian::write_u32(&mut fields, MAGIC);
    LittleEndian::write_u16(&mut fields[4..], MAJOR);
    LittleEndian::write_u16(&mut fields[6..], MINOR);
    LittleEndian::write_u32(&mut fields[16..], SNAPLEN);
    LittleEndian::write_u32(&mut fields[20..], link);
    fields
}

fn header_of_record(tick: u64, length: u32) -> [u8; RECORD_HEADER]
    requires { seconds tick < 2 ^ 32 }
    ensures { result ≡ record_header tick length }
{
    let mut fields = [0; RECORD_HEADER];
    LittleEndian::write_u32(&mut fields, (tick / 1000) as u32);
    LittleEndian::write_u32(&mut fields[4..], (tick % 1000) as u32 * 1000);
    LittleEndian::write_u32(&mut fields[8..], length);
    LittleEndian::write_u32(&mut fields[12..], length);
    fields
}
