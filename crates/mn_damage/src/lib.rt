//! Damaged messages: what a damage is to the ledger, why it is refused, and that a journal with damages keeps every law of journals.
//!
//! The packet of a record of the capture comes in place of the first message of a session in a direction, and the message's reader
//! refuses it. Then the session ends at both ends. After a damaged LDP message (RFC 5036, section 3.5.1.2) LDP is off on the link;
//! after a damaged BGP message (RFC 4271, section 6) the session of the two edges is down. So to the ledger a damage is a step that
//! it knows, and beside the step the journal's entry has a mark, at which the ledger doesn't look.
//!
//! What a damage is in words that need no ledger, `mn_entry` tells: the step by which its message would have been received, the step that
//! it also is, and its mark.
//!
//! - `specs/Refusals`: why a damage is refused
//! - `specs/Allowed`: journals of which nothing refuses an entry, with a packet for each injection and each damage
//! - `specs/Same`: journals that are one to the ledger
//! - `damage`: whether a message's reader reads a packet
//! - `laws`: a damage ends what lives; such journals are lawful; marks change nothing
#![tactic(auto)]

mod damage;
mod laws;

pub use damage::still_reads;
pub use laws::{
    a_damage_ends_what_lives, a_damaged_journal_is_lawful, a_refusal_comes_in_order,
    marks_change_nothing,
};
pub use mn_entry::{an_entry_is_one_damage, ending, hearing, mark};
