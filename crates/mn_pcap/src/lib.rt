//! Capture files of libpcap, as `tcpdump` and Wireshark read and write them.
//!
//! A file is a header and then records, each a header and the bytes of one packet. The magic number says
//! in which byte order all numbers are, and whether times are in microseconds or nanoseconds. The low
//! half of the link type says what the bytes of a record begin with.
//!
//! ```text
//!  0       4       6       8       12      16      20      24
//! +-------+-------+-------+-------+-------+-------+-------+
//! | magic | major | minor | zone  |sigfigs|snaplen| link  |
//! +-------+-------+-------+-------+-------+-------+-------+
//!
//!  0        4          8          12         16
//! +--------+----------+----------+----------+---------------------
//! | seconds| fraction | captured | original | captured bytes ...
//! +--------+----------+----------+----------+---------------------
//! ```
//!
//! - `message`: the values of a file, and the numbers of the format
//! - `refusal`: why a file isn't read
//! - `read`: any such file of version 2.4 and link type 1, 101 or 228; of its fields the magic, the
//!   version, the link type and the captured lengths count, and no other
//! - `scan`: a file that comes in pieces, of which only the places of its records are kept: `cursor` follows
//!   it from header to header, by its `stage`, and holds in `head` what has come of a header
//! - `write`: little-endian, times in microseconds
//! - `laws`: what is read is a capture, and the other way round
#![tactic(auto)]

mod cursor;
mod head;
mod laws;
mod message;
mod read;
mod refusal;
mod scan;
mod stage;
mod write;

pub use laws::{capture_is_read, read_is_capture, refused_behind_capture, written_again};
pub use message::{Form, LinkKind, Place};
pub use read::{count_records, packet_of, read_header, records};
pub use refusal::{PcapBad, PcapRule};
pub use scan::Scan;
pub use write::{put_header, put_record};
