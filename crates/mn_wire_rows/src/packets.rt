//! IPv4 headers: their checks, and their time to live.
use crate::bytes::bytes_from;
use crate::named::says;
use mn_ipv4::{Bad, age, check, set_ttl};
use mn_rows::{Answer, Call, in_hex, shown};
use std::alloc::Global;

const REFUSALS: [Bad; 4] = [
    Bad::NotIpv4,
    Bad::Malformed,
    Bad::Truncated,
    Bad::BadChecksum,
];

/// The packet after so many hops, or why it isn't aged.
fn aged(alloc: Global, packet: &mut [u8], by: u8) -> Answer {
    match check(packet) {
        Err(bad) => shown(alloc, &bad),
        Ok(head) if by > head.ttl => Ok(Some(String::from_str(alloc, "too many hops")?)),
        Ok(_) => {
            age(packet, by);
            Ok(Some(in_hex(alloc, packet)?))
        }
    }
}

fn with_ttl(alloc: Global, packet: &mut [u8], ttl: u8) -> Answer {
    match check(packet) {
        Err(bad) => shown(alloc, &bad),
        Ok(_) => {
            set_ttl(packet, ttl);
            Ok(Some(in_hex(alloc, packet)?))
        }
    }
}

/// A change of a packet by the number that stands before it.
fn changed(alloc: Global, call: Call<'_>) -> Answer {
    let (Some(number), Some(mut packet)) = (call.number_u8(2), bytes_from(alloc, call, 3)?) else {
        return Ok(None);
    };
    match call.verb() {
        b"age" => aged(alloc, &mut packet, number),
        b"ttl" => with_ttl(alloc, &mut packet, number),
        _ => Ok(None),
    }
}

fn checked(alloc: Global, call: Call<'_>) -> Answer {
    match bytes_from(alloc, call, 2)? {
        Some(packet) => shown(alloc, &check(&packet)),
        None => Ok(None),
    }
}

pub(crate) fn ipv4_row(alloc: Global, call: Call<'_>) -> Answer {
    match call.verb() {
        b"check" => checked(alloc, call),
        b"says" => says(alloc, call, &REFUSALS),
        _ => changed(alloc, call),
    }
}
