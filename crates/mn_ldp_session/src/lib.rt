//! One end of an LDP session, as a state machine.
//!
//! ```text
//!  state        received        sent                          then
//!  INITIALIZED  Initialization  Initialization, KeepAlive     OPENREC
//!  OPENSENT     Initialization  KeepAlive                     OPENREC
//!  OPENREC      KeepAlive       Address, and what it offers   OPERATIONAL
//!  OPERATIONAL  KeepAlive, Address, Mapping, Withdraw or Release: what labels ask for, and the state stays
//! ```
//!
//! The end of greater address is the active one: it begins in OPENSENT, and says its Initialization first.
//!
//! - `kind`: the kinds of messages
//! - `refusal`: why a message is refused
//! - `session`: the state machine
//! - `laws`: what one end says is received as it was sent
//!
//! `specs/Table` has the table as it stands above, and `specs/Spelling` what each message of a node looks like as a PDU.
//!
//! RFC 5036: sections 2.2.2, 2.5.2 to 2.5.4 and 3.5.3.
#![tactic(auto)]

mod kind;
mod laws;
mod refusal;
mod session;

pub use kind::{LdpKind, kind_of};
pub use laws::{
    routers_in_a_row_are_spelled, the_middle_router_maps_itself, what_is_said_is_heard,
};
pub use refusal::SessionBad;
pub use session::{Reply, Session};
