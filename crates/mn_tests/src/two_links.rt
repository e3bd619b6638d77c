// Three nodes in a row: what a run leaves in which two labels carry a packet from the site at one end to the site at the other.
ghost use Rattle.std.specs.Prelude.{◌<◌};

use crate::captures::Packet;
use mn_edge::MemShelf;
use mn_test_nets::{SiteText, row_text};
use std::alloc::{AllocError, Global};

/// Sites a (10.1.0.0/16) at pe1 and b (10.2.0.0/16) at pe2, whose VRFs share a route target.
pub(crate) fn topology(alloc: Global) -> Result<String, AllocError> {
    let sites: [SiteText<'static>; 2] = [
        ("a", "red1", &["10.1.0.0/16"]),
        ("b", "red2", &["10.2.0.0/16"]),
    ];
    row_text(alloc, &sites)
}

pub(crate) const SCRIPT: &str = "\
link up pe1 p       # both links come up, and with them LDP's sessions
link up p pe2
bgp up pe1 pe2      # the edges begin to talk
drain 1000          # all is learned and heard: the network is settled
inject a 1          # the packet enters at site a
show links
show tree pe1
show ldp
show bgp
show vrf red1
show flight
flush               # the packet arrives
";

pub(crate) const REPORT: &str = "\
link pe1 p up cost 10 changes 1
link p pe2 up cost 10 changes 1
tree pe1 to p cost 10 next p
tree pe1 to pe2 cost 20 next p
ldp pe1 operational p operational
ldp p operational pe2 operational
bgp pe1 established pe2 established
route red1 10.1.0.0/16 site a
route red1 10.2.0.0/16 edge pe2 label 16
notices 0
messages 0
frames pe1 p 1
packet 1 line 5 site a record 1 delivered b ttl 61 copy 1 path pe1 p pe2
total packets 1 delivered 1 dropped 0 flying 0 steps 42 refused 0 tick 4
";

/// Each step, behind its tick.
const JOURNAL: &str = "\
0 link up pe1 p
0 link up p pe2
0 bgp up pe1 pe2
0 learn pe1 pe1 p
0 learn p pe1 p
0 learn pe2 pe1 p
0 learn pe1 p pe2
0 learn p p pe2
0 learn pe2 p pe2
0 hear bgp pe1 pe2
0 hear bgp pe2 pe1
0 hear bgp pe2 pe1
0 hear bgp pe1 pe2
0 hear bgp pe1 pe2
0 hear bgp pe2 pe1
0 hear ldp p pe1
0 hear ldp pe2 p
0 hear ldp pe1 p
0 hear ldp pe1 p
0 hear ldp p pe2
0 hear ldp p pe2
0 hear ldp p pe1
0 hear ldp p pe1
0 hear ldp p pe1
0 hear ldp pe2 p
0 hear ldp pe2 p
0 hear ldp pe2 p
0 hear ldp pe1 p
0 hear ldp pe1 p
0 hear ldp pe1 p
0 hear ldp p pe2
0 hear ldp p pe2
0 hear ldp p pe1
0 hear ldp p pe2
0 hear ldp p pe1
0 hear ldp p pe2
0 hear ldp pe2 p
0 hear ldp pe1 p
0 hear ldp pe2 p
0 inject a 1
2 carry pe1 p 0
4 carry p pe2 0
";

/// The labels that each node gives: for its site, and then for the other nodes as it comes to offer them.
const LABELS: &str = "\
pe1 16 site a 1
pe1 17 fec 192.0.2.2/32
pe1 18 fec 192.0.2.3/32
p 16 fec 192.0.2.3/32
p 17 fec 192.0.2.1/32
pe2 16 site b 1
pe2 17 fec 192.0.2.2/32
pe2 18 fec 192.0.2.1/32
";

/// The PDUs that pe1 says to p.
const PE1_TO_P: [&str; 6] = [
    // Message 1, Initialization: version 1, KeepAlive time 180, PDUs of at most 4,096 bytes, to 192.0.2.2:0.
    "00010020C0000201000002000016000000010500000E000100B400001000C00002020000",
    // 2, KeepAlive.
    "0001000EC000020100000201000400000002",
    // 3, Address 192.0.2.1.
    "00010018C000020100000300000E00000003010100060001C0000201",
    // 4, Mapping: 192.0.2.1/32 by label 3.
    "00010022C0000201000004000018000000040100000802000120C00002010200000400000003",
    // 5, Mapping: 192.0.2.2/32 by label 17.
    "00010022C0000201000004000018000000050100000802000120C00002020200000400000011",
    // 6, Mapping: 192.0.2.3/32 by label 18.
    "00010022C0000201000004000018000000060100000802000120C00002030200000400000012",
];

/// The PDUs that p says to pe1.
const P_TO_PE1: [&str; 6] = [
    // Message 1, Initialization: version 1, KeepAlive time 180, PDUs of at most 4,096 bytes, to 192.0.2.1:0.
    "00010020C0000202000002000016000000010500000E000100B400001000C00002010000",
    // 2, KeepAlive.
    "0001000EC000020200000201000400000002",
    // 3, Address 192.0.2.2.
    "00010018C000020200000300000E00000003010100060001C0000202",
    // 4, Mapping: 192.0.2.2/32 by label 3.
    "00010022C0000202000004000018000000040100000802000120C00002020200000400000003",
    // 5, Mapping: 192.0.2.3/32 by label 16.
    "00010022C0000202000004000018000000050100000802000120C00002030200000400000010",
    // 6, Mapping: 192.0.2.1/32 by label 17.
    "00010022C0000202000004000018000000060100000802000120C00002010200000400000011",
];

/// The PDUs that p says to pe2.
const P_TO_PE2: [&str; 6] = [
    // Message 1, Initialization: version 1, KeepAlive time 180, PDUs of at most 4,096 bytes, to 192.0.2.3:0.
    "00010020C0000202000002000016000000010500000E000100B400001000C00002030000",
    // 2, KeepAlive.
    "0001000EC000020200000201000400000002",
    // 3, Address 192.0.2.2.
    "00010018C000020200000300000E00000003010100060001C0000202",
    // 4, Mapping: 192.0.2.2/32 by label 3.
    "00010022C0000202000004000018000000040100000802000120C00002020200000400000003",
    // 5, Mapping: 192.0.2.3/32 by label 16.
    "00010022C0000202000004000018000000050100000802000120C00002030200000400000010",
    // 6, Mapping: 192.0.2.1/32 by label 17.
    "00010022C0000202000004000018000000060100000802000120C00002010200000400000011",
];

/// The PDUs that pe2 says to p.
const PE2_TO_P: [&str; 6] = [
    // Message 1, Initialization: version 1, KeepAlive time 180, PDUs of at most 4,096 bytes, to 192.0.2.2:0.
    "00010020C0000203000002000016000000010500000E000100B400001000C00002020000",
    // 2, KeepAlive.
    "0001000EC000020300000201000400000002",
    // 3, Address 192.0.2.3.
    "00010018C000020300000300000E00000003010100060001C0000203",
    // 4, Mapping: 192.0.2.3/32 by label 3.
    "00010022C0000203000004000018000000040100000802000120C00002030200000400000003",
    // 5, Mapping: 192.0.2.2/32 by label 17.
    "00010022C0000203000004000018000000050100000802000120C00002020200000400000011",
    // 6, Mapping: 192.0.2.1/32 by label 18.
    "00010022C0000203000004000018000000060100000802000120C00002010200000400000012",
];

/// The messages that pe1 tells pe2.
const PE1_TO_PE2: [&str; 3] = [
    // OPEN: version 4, AS 65000, hold time 0, identifier 192.0.2.1, the capability of VPN-IPv4.
    "FFFFFFFFFFFFFFFFFFFFFFFFFFFFFFFF00250104FDE80000C0000201080206010400010080",
    // KEEPALIVE.
    "FFFFFFFFFFFFFFFFFFFFFFFFFFFFFFFF001304",
    // UPDATE: by next hop 192.0.2.1 label 16, 65000:1 and 10.1.0.0/16, with the target 65000:100.
    "FFFFFFFFFFFFFFFFFFFFFFFFFFFFFFFF0052020000003B4001010040020040050400000064800E1F0001800C00000000\
    00000000C000020100680001010000FDE8000000010A01C010080002FDE800000064",
];

/// The messages that pe2 tells pe1.
const PE2_TO_PE1: [&str; 3] = [
    // OPEN: version 4, AS 65000, hold time 0, identifier 192.0.2.3, the capability of VPN-IPv4.
    "FFFFFFFFFFFFFFFFFFFFFFFFFFFFFFFF00250104FDE80000C0000203080206010400010080",
    // KEEPALIVE.
    "FFFFFFFFFFFFFFFFFFFFFFFFFFFFFFFF001304",
    // UPDATE: by next hop 192.0.2.3 label 16, 65000:2 and 10.2.0.0/16, with the target 65000:100.
    "FFFFFFFFFFFFFFFFFFFFFFFFFFFFFFFF0052020000003B4001010040020040050400000064800E1F0001800C00000000\
    00000000C000020300680001010000FDE8000000020A02C010080002FDE800000064",
];

fn nibble(digit: u8) -> u8
    ensures { result < 16 }
{
    match digit {
        b'0'..=b'9' => digit - b'0',
        b'A'..=b'F' => digit - b'A' + 10,
        _ => 0,
    }
}

/// The bytes that pairs of hexadecimal digits spell.
fn bytes_of(alloc: Global, digits: &str) -> Result<Vec<u8>, AllocError> {
    let digits = digits.as_bytes();
    let mut bytes = Vec::new(alloc);
    for at in 0..digits.len() / 2 {
        bytes.push(nibble(digits[2 * at]) << 4 | nibble(digits[2 * at + 1]))?;
    }
    Ok(bytes)
}

/// A file, by its name and its bytes.
pub(crate) type File = (String, Vec<u8>);

fn push_file(
    alloc: Global,
    files: &mut Vec<File>,
    name: &str,
    bytes: &[u8],
) -> Result<(), AllocError> {
    files.push((
        String::from_str(alloc, name)?,
        Vec::from_slice(alloc, bytes)?,
    ))?;
    Ok(())
}

/// Appends the file of what is sent one way, in digits.
fn push_said(
    alloc: Global,
    files: &mut Vec<File>,
    name: &str,
    said: &[&str],
) -> Result<(), AllocError> {
    let mut bytes = Vec::new(alloc);
    for digits in said {
        bytes.extend_from_slice(&bytes_of(alloc, digits)?)?;
    }
    files.push((String::from_str(alloc, name)?, bytes))?;
    Ok(())
}

/// Appends the captures of the deliveries and of the two links.
fn push_captures(alloc: Global, files: &mut Vec<File>, packet: &Packet) -> Result<(), AllocError> {
    for (name, bytes) in [
        ("out/delivered.pcap", packet.delivered(alloc)?),
        ("out/pe1+p.pcap", packet.on_first_link(alloc)?),
        ("out/p+pe2.pcap", packet.on_second_link(alloc)?),
    ] {
        files.push((String::from_str(alloc, name)?, bytes))?;
    }
    Ok(())
}

fn push_ldp(alloc: Global, files: &mut Vec<File>) -> Result<(), AllocError> {
    push_said(alloc, files, "out/pe1+p.ldp", &PE1_TO_P)?;
    push_said(alloc, files, "out/p+pe1.ldp", &P_TO_PE1)?;
    push_said(alloc, files, "out/p+pe2.ldp", &P_TO_PE2)?;
    push_said(alloc, files, "out/pe2+p.ldp", &PE2_TO_P)
}

fn push_bgp(alloc: Global, files: &mut Vec<File>) -> Result<(), AllocError> {
    push_said(alloc, files, "out/pe1+pe2.bgp", &PE1_TO_PE2)?;
    push_said(alloc, files, "out/pe2+pe1.bgp", &PE2_TO_PE1)
}

/// All files of a run that sends one packet, in the order in which they are begun.
pub(crate) fn files(alloc: Global, packet: &Packet) -> Result<Vec<File>, AllocError> {
    let mut files = Vec::new(alloc);
    push_file(alloc, &mut files, "out/journal.txt", JOURNAL.as_bytes())?;
    push_file(alloc, &mut files, "out/labels.txt", LABELS.as_bytes())?;
    push_captures(alloc, &mut files, packet)?;
    push_ldp(alloc, &mut files)?;
    push_bgp(alloc, &mut files)?;
    Ok(files)
}

/// Whether all of these files stand on the shelf.
pub(crate) fn are_whole(shelf: &MemShelf, files: &[File]) -> bool {
    let mut whole = true;
    for file in files {
        whole = whole && shelf.file(file.0.as_str()) == Some(file.1.as_slice());
    }
    whole
}
