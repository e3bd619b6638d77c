//! One node's transport: what it has learned of the links, its least walks, its LDP sessions, what its neighbours advertised for
//! labels, the labels that it gave itself, and what each of them is used for.
//!
//! ```text
//!  a change of a link --> view --> tree --> next hops --+
//!                                                       +--> bindings --> what is offered --> PDUs to the neighbours
//!  a PDU from a neighbour --> session --> mappings -----+        |
//!                                                                +--> labels of what is offered newly
//!                                                                +--> next hop and its label --> uses of the labels
//! ```
//!
//! What happens is one change each time: a link's next change, a session that opens or closes, a message that is received.
//! What the node keeps and says after it is what `mn_node`'s machine says, and it says it byte for byte, each message in a
//! PDU of its own. A node offers its own FEC, and another one while its next hop has mapped it (RFC 5036, section 2.6.1.2);
//! it keeps what any neighbour advertised (section 2.6.2.2), so that a new next hop is used at once.
//!
//! A FEC that is offered newly takes up the label that it has, or else the least that nothing has; before that, those FECs give up
//! their labels that aren't offered, of which no neighbour owes a Release and towards which no frame flies any more.
//!
//! Where memory is wanted in the midst of a change, the parts may not fit together any more: the node then answers
//! `NoMemory` to each change from then on.
//!
//! - `lsr`: the node, in the words of its contract; `refusal`: why it refuses
//! - `parts`, `hearing`, `making`, `sites`: its parts, and what each change does to them
//! - `own_ends`: the node's ends of its sessions
//! - `message`, `speaking`, `said`: what is sent, as PDUs on links; `links`: the link to each neighbour
//! - `ways`: the labels of FECs and their uses
//! - `laws`: what is sent and received where both ends of a session are nodes
#![tactic(auto)]

mod hearing;
mod laws;
mod links;
mod lsr;
mod making;
mod message;
mod own_ends;
mod parts;
mod refusal;
mod said;
mod sites;
mod speaking;
mod ways;

pub use laws::{a_node_speaks_of_nodes, routers_in_a_row_are_wired, what_is_said_is_one_change};
pub use lsr::Lsr;
pub use mn_spf_inc::SharedLinks;
pub use refusal::LsrBad;
pub use said::Said;
