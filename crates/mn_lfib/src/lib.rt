//! Label forwarding: what one node does with a labelled packet.
//!
//! The table says what each label of the node is used for, and `forward` does it. It is RFC 3031's incoming label map
//! together with its next hop label forwarding entries (sections 3.10 and 3.11). The TTL of the top entry goes down by
//! one at each node and is handed on to what comes below (RFC 3032, section 2.4).
//!
//! ```text
//!  top entry                                      what is done                        answer
//! +----------------------------------------------+-----------------------------------+----------+
//! | TTL 0 or 1                                   | dropped: TtlExpired               | Drop     |
//! | of a site whose attachment has ended         | dropped: SiteGone                 | Drop     |
//! | of no use; of a site, above another entry;   |                                   |          |
//! |   of a FEC that would be popped off a bottom | dropped: NoEntry                  | Drop     |
//! | of a FEC, next label other than 3            | swapped for the next label        | Next hop |
//! | of a FEC, next label 3 (implicit null)       | popped, the new top takes the TTL | Next hop |
//! | of a site, at the bottom                     | popped, the packet takes the TTL  | Site     |
//! +----------------------------------------------+-----------------------------------+----------+
//! ```
//!
//! - `answer`: what becomes of a frame
//! - `table`: the uses of labels, and `forward`
//!
//! RFC 3031, sections 3.10, 3.11 and 3.16 (popping at the penultimate hop); RFC 3032, sections 2.1 (label 3) and 2.4.
#![tactic(auto)]

mod answer;
mod table;

pub use answer::{Forwarded, Use};
pub use table::Lfib;
