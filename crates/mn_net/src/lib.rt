//! A provider's network: all nodes and edges, their LDP and BGP sessions, what is in flight, and what became of each packet.
//!
//! It goes on by steps, each one act of one actor (a link comes up, a node learns of it, a message is received, a packet enters, a frame
//! arrives), in whatever order the caller names them. After each step it stands for the ledger of its journal (`StandsFor` of
//! mn_net_laws): what its readers answer, what it refuses and what is in flight are functions of the topology, the journal and the packets.
//!
//! ```text
//!  step --refusal--> the transport: link up/down, learn, ldp, hear      \
//!                    the routes: bgp, hear, routes, targets, attach      } --> one entry more in the journal
//!                    the packets: inject, carry, lose, a link's frames  /
//! ```
//!
//! A step is refused by the first of the ledger's causes, and then nothing changes: what the network asks its parts before a step is read off
//! them in a few counts (`first`), and no question costs a search that grows with the journal or with what is in flight. Otherwise the part that it concerns does
//! it, by a call whose contract says the ledger's step in that part's words: `mn_transport` (links, nodes, LDP), `mn_routing` (edges, VRFs,
//! BGP) or `mn_transit` (packets and frames); the other two stay as they are, but that an attachment is a label of its node and a site of its
//! edge, and a link that goes down cuts its frames. The items that a step makes are numbered in one row over the parts' four flights, so that
//! whoever writes files asks for them by number.
//!
//! A step first does all that may want memory, and last what can't fail. While it is under way the network counts as failed,
//! so that nothing has to be undone: after running out of memory it stays so.
//!
//! - `net`: what is kept; `step` and the clock
//! - `links`: the steps of links and of LDP
//! - `sessions`: the steps of BGP, routes and targets
//! - `sites`: the steps that attach and detach sites
//! - `damage`: sessions that end by a damaged message
//! - `doing`: how a step is done
//! - `entry`: what becomes of a packet that a site sends, and the way out for it
//! - `moving`: the steps that move packets, and the one that lets time go by
//! - `next`: what comes next
//! - `nodes`: what is told of links and of the transport of nodes
//! - `edges`: what is told of sessions and routes
//! - `flight`: what is told of items in flight
//! - `made`: a law: the items of a step are told by their numbers; `marks`: laws: marks on a journal's entries change nothing of a network
//! - `first`, `causes`: why a step is refused: the causes, one after another, in the ledger's order
//! - `coming`: what comes next: the first of each flight, by due tick, then by number
//! - `vrfs`: the edge and the VRF of a site or VRF
//! - `parts`, `specs/Parts`: the parts, and when they stand for the ledger
//! - `room`: room for the journal's entries
//! - `tell`: what became of packets
//!
//! RFC 3031, section 3; RFC 3032, section 2; RFC 4271, section 8.2.2; RFC 4364, sections 4 and 5; RFC 5036, section 2.
#![tactic(auto)]

mod causes;
mod coming;
mod damage;
mod doing;
mod edges;
mod entry;
mod first;
mod flight;
mod links;
mod made;
mod marks;
mod moving;
mod net;
mod next;
mod nodes;
mod parts;
mod room;
mod sessions;
mod sites;
mod tell;
mod turns; // the steps of the transport alone, and those of the routes alone
mod vrfs;

pub use flight::{Channel, Flying};
pub use made::what_a_step_made_is_told;
pub use marks::{a_mark_is_of_the_last_entry, marks_change_no_network};
pub use net::{Done, Net};
