//! What is found of a pair.
use mn_base::{LinkNo, ListOf};
use mn_candidates::Route;

/// A route for a pair's address, and the place of its edge among the edges.
#[derive(Clone, Copy)]
pub struct Candidate {
    pub route: Route,
    pub place: usize,
}

/// The routes for a pair's address, and the links on the ways to their edges while all links are up.
#[derive(Drop)]
pub struct Prospect {
    pub candidates: ListOf<Candidate>,
    pub links: ListOf<LinkNo>,
}
