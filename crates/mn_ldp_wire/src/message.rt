// The messages, and the numbers of the format: RFC 5036, section 4 of which lists the types.
ghost use Rattle.std.specs.Prelude.{◌≡◌, IfOk};

use mn_base::ListOf;
use mn_prefix::Prefix;
use std::alloc::{AllocError, Global};
use std::marker::Model;

/// The version of the protocol: RFC 5036, section 3.1.
pub(crate) const VERSION: u16 = 1;

/// On top of a type, it says: pass over what you don't know. RFC 5036, sections 3.3 and 3.5.
pub(crate) const U_BIT: u16 = 0x8000;

/// IPv4, of the address family numbers that IANA keeps.
pub(crate) const IPV4: u16 = 1;

/// The element of a FEC that is one prefix: RFC 5036, section 3.4.1.
pub(crate) const PREFIX_ELEMENT: u8 = 2;

/// The label that says: pop the stack, and use no label (RFC 3032, section 2.1).
pub(crate) const IMPLICIT_NULL: u32 = 3;

/// The labels of packets begin here: those below are reserved (RFC 3032, section 2.1).
pub(crate) const FIRST_LABEL: u32 = 16;

/// A label has 20 bits: RFC 3032, section 2.1.
pub(crate) const LAST_LABEL: u32 = 1_048_575;

/// Type and length, in front of a message and of a TLV: RFC 5036, sections 3.3 and 3.5. Sizes are in bytes.
pub(crate) const FRAME_HEADER: usize = 4;

/// The identifier of a sender: RFC 5036, section 2.2.2.
pub(crate) const LDP_ID: usize = 6;

/// Version, length and the sender's identifier: RFC 5036, section 3.1.
pub(crate) const PDU_HEADER: usize = 10;

/// The id of a message: RFC 5036, section 3.5.
pub(crate) const MESSAGE_ID: usize = 4;

/// The sizes of values: RFC 5036, sections 3.4.6, 3.5.3 and 3.4.2.1.
pub(crate) const STATUS_SIZE: usize = 10;

pub(crate) const SESSION_PARAMETERS_SIZE: usize = 14;

pub(crate) const LABEL_SIZE: usize = 4;

/// What stands in front of an address list, the address family: RFC 5036, section 3.4.3.
pub(crate) const FAMILY_SIZE: usize = 2;

pub(crate) const ADDRESS_SIZE: usize = 4;

/// What stands in a prefix element before the address: element type, address family and length in bits.
pub(crate) const ELEMENT_HEADER: usize = 4;

/// The types of messages.
pub(crate) mod types {
    pub(crate) const NOTIFICATION: u16 = 0x0001; // RFC 5036, section 3.5.1

    pub(crate) const INITIALIZATION: u16 = 0x0200; // section 3.5.3

    pub(crate) const KEEP_ALIVE: u16 = 0x0201; // section 3.5.4

    pub(crate) const ADDRESS: u16 = 0x0300; // section 3.5.5

    pub(crate) const MAPPING: u16 = 0x0400; // section 3.5.7

    pub(crate) const WITHDRAW: u16 = 0x0402; // section 3.5.10

    pub(crate) const RELEASE: u16 = 0x0403; // section 3.5.11
}

/// The types of TLVs, with U bit and F bit zero.
pub(crate) mod tlvs {
    pub(crate) const FEC: u16 = 0x0100; // RFC 5036, section 3.4.1

    pub(crate) const ADDRESS_LIST: u16 = 0x0101; // section 3.4.3

    pub(crate) const GENERIC_LABEL: u16 = 0x0200; // section 3.4.2.1

    pub(crate) const STATUS: u16 = 0x0300; // section 3.4.6

    pub(crate) const SESSION_PARAMETERS: u16 = 0x0500; // section 3.5.3
}

/// Who speaks: a router and one of its label spaces (RFC 5036, section 2.2.2).
#[derive(Clone, Copy, Debug, PartialEq, Eq)]
pub struct LdpId {
    /// The router's own IPv4 address.
    pub lsr: u32,
    /// 0 for the labels of the whole router.
    pub space: u16,
}

/// A message (RFC 5036, section 3.5).
#[derive(Debug, Drop)]
pub struct LdpMessage {
    /// A number of the sender's own, to which a Notification may refer.
    pub id: u32,
    pub body: LdpBody,
}

/// What a message says.
#[derive(Debug, Drop)]
pub enum LdpBody {
    /// An event or an error: the status code, and the id and type of the message that it is about, or zeros
    /// (RFC 5036, sections 3.5.1 and 3.4.6).
    Notification {
        status: u32,
        about: u32,
        kind: u16,
    },
    /// What a session is asked to be (RFC 5036, section 3.5.3).
    Initialization {
        version: u16,
        /// In seconds.
        keepalive: u16,
        /// The bits A and D on top, the rest reserved.
        flags: u8,
        /// The path vector limit.
        limit: u8,
        /// The greatest PDU that is taken, in bytes.
        greatest: u16,
        receiver: LdpId,
    },
    /// That the session lives (RFC 5036, section 3.5.4).
    KeepAlive,
    /// The sender's interface addresses (RFC 5036, section 3.5.5). At least one.
    Address(Addresses),
    /// The sender binds this label to the prefix (RFC 5036, section 3.5.7). A label is 3 or from 16 to 1,048,575.
    Mapping(Prefix, u32),
    /// The sender takes the binding back (RFC 5036, section 3.5.10).
    Withdraw(Prefix, u32),
    /// The sender no longer needs the receiver's binding (RFC 5036, section 3.5.11).
    Release(Prefix, u32),
}

/// IPv4 addresses in their order. Contracts see the list of them.
#[derive(Debug, Drop)]
pub struct Addresses {
    addresses: Vec<u32>,
}

impl Model for Addresses {
    ghost use Rattle.std.specs.Prelude.{ℕ, List};

    ghost Value = { List ℕ };

    ghost view = { λ a. a.addresses.items };
}

impl Addresses {
    /// A copy of the list.
    pub fn of(alloc: Global, list: &[u32]) -> Result<Addresses, AllocError>
        ensures { IfOk result (λ addresses. addresses ≡ list.now) }
    {
        Ok(Addresses {
            addresses: Vec::from_slice(alloc, list)?,
        })
    }

    /// The addresses of a vector. It takes no memory.
    pub(crate) fn from_vec(addresses: Vec<u32>) -> Addresses
        ensures { result ≡ addresses.items }
    {
        Addresses { addresses }
    }

    /// The addresses in order.
    pub fn as_slice(&self) -> &[u32]
        ensures { result.now ≡ self.now }
    {
        &self.addresses
    }
}

/// A PDU that was read: its sender, and its messages in order.
#[derive(Drop)]
pub struct Pdu {
    from: LdpId,
    messages: ListOf<LdpMessage>,
}

impl Model for Pdu {
    ghost use Rattle.mn_ldp_wire.specs.Message.{PduContents};

    ghost Value = { PduContents };

    ghost view = { λ p. record { from = p.from; messages = p.messages } };
}

impl Pdu {
    pub(crate) fn new(from: LdpId, messages: ListOf<LdpMessage>) -> Pdu
        ensures { result ≡ record { from = from; messages = messages } }
    {
        Pdu { from, messages }
    }

    /// Who sent it.
    pub fn from(&self) -> LdpId
        ensures { result ≡ self.now.from }
    {
        self.from
    }

    /// Its messages in order, but for those of unknown types.
    pub fn messages(&self) -> &[LdpMessage]
        ensures { result.now ≡ self.now.messages }
    {
        self.messages.as_slice()
    }
}
