//! PDUs of the Label Distribution Protocol, as bytes.
//!
//! LDP's sessions carry PDUs. Each names its sender and has one or more messages, and each message has TLVs: first the
//! mandatory ones of its type, in their order, and then any others. This is the profile of a session that distributes
//! the labels of IPv4 prefixes downstream, unsolicited. Numbers have their high byte first.
//!
//! ```text
//!  0       2        4               8       10
//! +-------+--------+---------------+-------+----------------------+
//! |version| length | LSR           | space | messages ...         |    a PDU
//! +-------+--------+---------------+-------+----------------------+
//!
//!  0       2        4               8
//! +-------+--------+---------------+------------------------------+
//! |U type | length | id            | TLVs ...                     |    a message
//! +-------+--------+---------------+------------------------------+
//!
//!  0       2        4
//! +-------+--------+----------------------------------------------+
//! |UF type| length | value ...                                    |    a TLV
//! +-------+--------+----------------------------------------------+
//! ```
//!
//! Each length counts what follows it. The U bit on top of a type says that a receiver which doesn't know the type is
//! to pass over what has it.
//!
//! - `message`: the messages, and the numbers of the format
//! - `refusal`: why bytes aren't read
//! - `read`: a PDU of any number of messages
//! - `write`: a PDU of one message
//! - `laws`: what is read is a PDU, and the other way round; what is refused has its cause
//!
//! RFC 5036: sections 3.1 (PDUs), 3.3 and 3.4 (TLVs), 3.5 (messages).
#![tactic(auto)]

mod laws;
mod message;
mod read;
mod refusal;
mod write;

pub use laws::{each_refusal_has_its_cause, no_front_is_read, reading_is_the_grammar};
pub use message::{Addresses, LdpBody, LdpId, LdpMessage, Pdu};
pub use read::read_pdu;
pub use refusal::WireBad;
pub use write::write_pdu;
