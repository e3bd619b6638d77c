//! Tests of the whole program, over devices in memory.
//!
//! Expected reports and bytes were worked by hand from RFC 791, RFC 3032 and the file formats of docs/FORMATS.md.
#![tactic(auto)]

#[cfg(test)]
mod captures; // captures of one packet
#[cfg(test)]
mod check; // topologies that are checked, or refused
#[cfg(test)]
mod faults; // devices that fail
#[cfg(test)]
mod generated; // runs that the generator makes
#[cfg(test)]
mod one_node; // runs over one node
#[cfg(test)]
mod scripts; // scripts that are refused
#[cfg(test)]
mod two_links; // a whole run over two links
