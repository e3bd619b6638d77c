//! Tests of one node that no row of `mn_node_rows` or `mn_vpn_rows` can say, over the public calls of their crates.
//!
//! - `base`: steps that are counted over a ledger, and numbers and kinds that are told apart
//! - `bindings`: what is offered to neighbours; no public call tells which of them are open, which `Lib::apply` asks for
//! - `laws`: laws, which answer nothing
//!
//! Expected values were worked by hand from RFC 5036.
#![tactic(auto)]

#[cfg(test)]
mod base;
#[cfg(test)]
mod bindings;
#[cfg(test)]
mod laws;
