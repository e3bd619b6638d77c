//! What an entry of the journal tells: a step, or a damaged message and the step by which its session ended.
//!
//! A packet of the capture comes in place of the first message of a session in a direction, and the message's reader refuses it. Then
//! the session ends at both ends: LDP is off on the link (RFC 5036, section 3.5.1.2), or the session of the two edges is down (RFC 4271,
//! section 6). So a damage is also a step, and beside that step the journal's entry has a mark.
//!
//! ```text
//!   damage                  would have been received by  is also            and its mark
//!   Ldp(link, dir, number)  HearLdp(link, dir)           LdpAdmin off       dir, number
//!   Bgp(a, b, number)       HearBgp(a, b)                BgpDown, in order  whether a is the lesser, number
//! ```
//!
//! - `specs/Damages`: these as values, and the damage that an entry tells
//! - `specs/Entries`: which entries fit a topology
//! - `damage`: the steps and the mark of a damage, and the damage of an entry
//! - `laws`: an entry is of one damage; an entry that fits is a step's or a damage's
#![tactic(auto)]

mod damage;
mod laws;

pub use damage::{damage_of, ending, hearing, mark, number_of};
pub use laws::{a_damage_has_a_fitting_entry, a_fitting_entry_has_a_maker, an_entry_is_one_damage};
