//! The rules by which a packet is dropped: the words of the ledger, of label tables, of edges and of reports.
//!
//! At entry the first that applies, from SiteDown to NoLsp; on its way TtlExpired, NoEntry (RFC 3031, section 3.18, an invalid incoming label) or
//! SiteGone at the node to which it was carried, Lost, LinkCut or Overdue at the one that sent it. docs/FORMATS.md has the cause of each.
#![tactic(auto)]

mod drops; // the rules

pub use drops::Rule;
