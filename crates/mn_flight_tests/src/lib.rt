//! Tests of what flies: frames and messages, packets on their way, losses, and the transport of all nodes, over the public calls of their crates.
//!
//! Expected values were worked by hand from RFC 3032, RFC 5036 and docs/FORMATS.md.
#![tactic(auto)]

#[cfg(test)]
mod calls; // calls on any flight, and forty of them with answers by hand
#[cfg(test)]
mod flight; // these forty on the plain list
#[cfg(test)]
mod flight_pool; // these forty on the pool, and three thousand on both
#[cfg(test)]
mod net_tally; // the counts of a topology at its start
#[cfg(test)]
mod transit; // packets over two links
#[cfg(test)]
mod transport; // a site that is detached and attached anew
