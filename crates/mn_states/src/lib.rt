//! The states of one end of an LDP session and of a BGP session, in the standards' words.
//!
//! ```text
//!  LDP (RFC 5036, section 2.5.4)      active   OPENSENT    --Initialization--> OPENREC --KeepAlive--> OPERATIONAL
//!                                     passive  INITIALIZED --Initialization--> OPENREC --KeepAlive--> OPERATIONAL
//!  BGP (RFC 4271, section 8.2.2)      Idle --start--> OpenSent --OPEN--> OpenConfirm --KEEPALIVE--> Established
//! ```
//!
//! NON EXISTENT of LDP is no state here but that no session lives; Connect and Active of BGP are none, since there is no TCP below. The
//! tables by which states go on are in mn_ldp_session and mn_bgp_session.
#![tactic(auto)]

mod states; // the states of both protocols

pub use states::{BgpState, LdpState};
