//! Prefixes of IPv4 addresses, and what a table of them answers.
//!
//! A prefix is an address of 32 bits and a length of 0 to 32: its first bits, as many as the
//! length says, are the network's, and the others are zero (RFC 4632, section 3.1).
//!
//! ```text
//! 10.2.0.0/16    0000 1010 0000 0010 | 0000 0000 0000 0000
//!                the network's bits  | zero in the prefix, free in an address that it contains
//! ```
//!
//! - this file: `Prefix`, its order, and which addresses it contains
//! - `carried`: the bytes of a prefix that protocols carry
//! - `table`: `PrefixTable`, the calls that each table of prefixes has; `mn_lpm` has two
//! - `laws`: what follows from the definitions of `specs/`
#![tactic(auto)]

ghost use Rattle.std.specs.Prelude.{◌≡◌, ◌≤◌, ◌-◌, ◌^◌, MatchOption, IfSome};
ghost use Rattle.mn_prefix.specs.Prefix.{contains, IsPrefix};

use std::marker::Model;

mod carried;
mod laws;
mod table;

pub use carried::{address_of, octets};
pub use laws::{
    contains_its_block, longest_of_a_table, octets_tell_a_prefix, orders_by_address_then_length,
};
pub use table::PrefixTable;

/// The bits of an address.
const WIDTH: u8 = 32;

/// An address and how many of its first bits are the network's. The other bits are zero.
///
/// Prefixes are ordered by address, and those of one address by length.
#[derive(Clone, Copy, Debug, PartialEq, Eq, PartialOrd, Ord, Hash)]
pub struct Prefix {
    address: u32,
    length: u8,
}

impl Model for Prefix {
    ghost use Rattle.mn_prefix.specs.Prefix.{AddressBlock, IsPrefix};

    ghost Value = { AddressBlock };

    ghost view = { λ p. record { address = p.address; length = p.length } };

    ghost inverse = { λ b. record { address = b.address; length = b.length } };

    ghost invariant = { λ p. IsPrefix p.address p.length };
}

/// How many addresses begin with the same `length` bits: 1 to 2^32.
fn block_size(length: u8) -> u64
    requires { length ≤ 32 }
    ensures { result ≡ 2 ^ (32 - length) }
{
    1 << (WIDTH - length)
}

impl Prefix {
    /// The prefix, or `None` where `length` is above 32 or a bit after the first `length` is set.
    pub fn new(address: u32, length: u8) -> Option<Prefix>
        ensures value { MatchOption result (¬ IsPrefix address length) (λ p. p ≡ record { address = address; length = length }) }
        ensures form { IfSome result (λ p. IsPrefix p.address p.length) }
    {
        if length > WIDTH || u64::from(address) % block_size(length) != 0 {
            return None;
        }
        Some(Prefix { address, length })
    }

    /// The address, with zeros after the network's bits.
    pub fn address(&self) -> u32
        ensures value { result ≡ self.now.address }
        ensures form { IsPrefix self.now.address self.now.length }
    {
        self.address
    }

    /// How many bits are the network's: 0 to 32.
    pub fn length(&self) -> u8
        ensures value { result ≡ self.now.length }
        ensures form { IsPrefix self.now.address self.now.length }
    {
        self.length
    }

    /// Whether the first bits of the address are those of the prefix.
    pub fn contains(&self, address: u32) -> bool
        ensures { result ≡ contains self.now address }
    {
        let size = block_size(self.length);
        u64::from(address) / size == u64::from(self.address) / size
    }
}
