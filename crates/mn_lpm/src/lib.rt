//! Tables of prefixes: the value of a prefix, and of an address the longest prefix that contains it.
//!
//! A router has a route for each of many prefixes, and sends a packet by the longest that contains its destination (RFC
//! 1812, section 5.2.4.3). `LengthTable` keeps the prefixes of each length apart, by address:
//!
//! ```text
//! /0    0.0.0.0
//! /16   10.1.0.0   10.2.0.0
//! /24   10.2.3.0
//! /32
//! ```
//!
//! An address has one prefix of each length that contains it: its first bits, so many, and then zeros. So a look-up asks
//! from the longest length to the shortest, and takes the first that is there.
//!
//! - `plain`: `PlainTable`, pairs in a `Vec`, each of which a look-up looks at
//! - `levels`: `LengthTable`, an ordered map of addresses for each length
#![tactic(auto)]

mod levels;
mod plain;

pub use levels::LengthTable;
pub use plain::PlainTable;
