//! The routes of a network: its edges, and the sessions between them, in the ledger's words.
//!
//! An edge is what it was told (`mn_pe`), and one end of a session is a state of BGP's table (`mn_bgp_session`). What the
//! ledger's world says of both is `routes_in`, and each step changes a few of them:
//!
//! ```text
//! BgpUp a b            both ends have sent OPEN
//! BgpDown a b          both ends are gone, and each edge forgets what it received from the other
//! HearBgp a b          b's end goes on by the table, and b takes the routes that the message says
//! AddRoute .. Detach   one edge is told one thing
//! ```
//!
//! Nothing is here but laws: an edge finds the ledger's best route and exports what the ledger says, and each step changes
//! the routes as its parts say. So who keeps an edge and the ends of its sessions by these changes stands for the ledger.
//! `mn_routing` does, and this crate says what it owes.
//!
//! - `laws`: what follows from the definitions; `specs/Laws`, `specs/Sources`: what they say
//! - `specs/Standing`: one edge, as the ledger has it
//! - `specs/Whole`: all edges and sessions, and what is changed of them
//! - `specs/Changes`: each step's change; `specs/Touched`: of which exports it tells
//! - `specs/Routed`: what contracts see of a network's routes, and when they stand for a journal
//! - `specs/Steps`: when a step has its turn, and what it does
//! - `specs/Sending`, `specs/Doing`: what the code does in a step, before that is known to be the ledger's
//!
//! RFC 4271, sections 4 and 8.2.2; RFC 4364, sections 3 and 4.3.
#![tactic(auto)]

mod laws;

pub use laws::{
    a_step_changes_its_parts, a_step_tells_what_it_touches, an_edge_stands_for_the_ledger,
    routes_stay_as_they_were,
};
