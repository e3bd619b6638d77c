//! A flooded link database (RFC 2328, section 13): nodes tell each other of links by adverts, each of which is kept and sent on
//! where it is news.
//!
//! ```text
//!            link up pe1 p                      link up p pe2                 hear pe2 of p
//!  pe1 --- p     pe2                 pe1 --- p --- pe2               pe1 --- p --- pe2
//!      ->                                <- p 2  -> pe1 1, p 2, ..           p 2: kept, for it is newer than none
//!   each end sends all that it has    over the new link all, over the others its own advert, renewed
//! ```
//!
//! An advert has its origin, a number that grows, and the origin's links that were up. A node takes a link for up where the
//! adverts that it has of both ends list it. Where no advert flies, all nodes of one component know the same links.
//!
//! - `advert`: adverts, and an advert on its way
//! - `queue`: the adverts that fly, in the order of sending
//! - `database`: what one node has of each origin
//! - `links`: the links of the network, by number and by node
//! - `sending`: an advert sent over links of a node, and a database over one
//! - `world`: all nodes' databases and what flies, and what an event does to them
//! - `view`: the links that a node takes for up, as a view that trees are made of
//! - `flood`: `Flood`, with its refusals and readers
#![tactic(auto)]

mod advert;
mod database;
mod flood;
mod links;
mod queue;
mod refusal; // why an event is refused
mod sending;
mod view;
mod world;

pub use flood::Flood;
pub use refusal::FloodBad;
