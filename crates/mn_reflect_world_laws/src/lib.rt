//! What reflectors and edges keep, in the words of `mn_reflect_ledger_laws`: RFC 4456.
//!
//! - `specs/Labels`: the labels of attachments; `specs/Spelling`: what is sent, as bytes
//! - `specs/Kept`: of each route, what each peer last announced
//! - `specs/Edges`: an edge, as it is told what was decided of others' routes
//! - `specs/Now`: what contracts see, and when it stands for the steps that were done
//! - `specs/Steps`: which steps move reflected routes
//! - `specs/Choice`, `specs/Letters`, `specs/Goes`: what a step makes of what is kept
//! - `specs/Known`, `specs/Starts`: what is known of it, and how it starts
//! - `specs/Laws`, `specs/Onward`, `specs/AtRest`: what the laws below say
//!
//! RFC 4456, sections 6 to 8; RFC 4271, sections 3, 4 and 8.2.2; RFC 4364, sections 4.3 and 5.
#![tactic(auto)]

mod laws; // the laws, each with its clause

pub use laws::{
    a_node_keeps_what_is_announced, a_node_takes_in_what_it_hears,
    at_the_start_it_stands_for_no_steps, each_vrf_finds_what_is_reflected,
    letters_are_what_is_said, two_edges_come_to_rest, two_nodes_forget_as_their_session_turns,
    what_a_step_makes_stands_for_the_steps, where_none_flies_each_vrf_finds_as_in_a_full_mesh,
};
