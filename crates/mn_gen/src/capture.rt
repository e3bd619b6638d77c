// The capture of a number.
ghost use Rattle.std.specs.Prelude.{◌≡◌, ◌≤◌, ◌<◌, ◌++◌, IfOk, OnOk};
ghost use Rattle.std.specs.List.{All, flat_map};
ghost use Rattle.mn_gen.specs.Capture.{packet_to, record_to, capture_bytes};

use crate::shape::edges;
use mn_pcap::{put_header, put_record};
use std::alloc::{AllocError, Global};

/// The link type of raw IPv4 packets.
const RAW_IPV4: u32 = 228;

/// The checksum of the packet to edge 0; each edge further takes one away.
const CHECKSUM: u32 = 0x66D0;

/// An empty UDP datagram from 10.0.0.1 to 10.edge.0.1 with TTL 64.
fn packet_to(edge: u32) -> [u8; 28]
    requires { edge < 256 }
    ensures { result ≡ packet_to edge }
{
    let checksum = CHECKSUM - edge;
    [
        0x45,
        0,
        0,
        28,
        0,
        0,
        0,
        0,
        64,
        17,
        (checksum / 256) as u8,
        (checksum % 256) as u8,
        10,
        0,
        0,
        1,
        10,
        edge as u8,
        0,
        1,
        0,
        53,
        0,
        53,
        0,
        8,
        0,
        0,
    ]
}

fn put_packet(out: &mut Vec<u8>, edge: u32) -> Result<(), AllocError>
    requires { edge < 256 }
    ensures { OnOk result (out.new.items ≡ out.old.items ++ record_to edge) }
{
    let packet = packet_to(edge);
    put_record(out, 0, &packet)
}

fn put_packets(out: &mut Vec<u8>, edges: &[u32]) -> Result<(), AllocError>
    requires { All (λ edge. edge < 256) edges.now }
    ensures { OnOk result (out.new.items ≡ out.old.items ++ flat_map record_to edges.now) }
{
    for edge in edges {
        put_packet(out, *edge)?;
    }
    Ok(())
}

/// The capture of a number, 0 to 99: at tick 0 one packet to the prefix of each edge, which any site may send.
#[tactic(auto, unfolding(crate::specs::Capture::capture_bytes))]
pub fn capture_bytes(alloc: Global, number: u32) -> Result<Vec<u8>, AllocError>
    requires { number ≤ 99 }
    ensures { IfOk result (λ bytes. bytes.items ≡ capture_bytes number) }
{
    let edges = edges(alloc, number)?;
    let mut out = Vec::new(alloc);
    put_header(&mut out, RAW_IPV4)?;
    put_packets(&mut out, &edges)?;
    Ok(out)
}
