ghost use Rattle.std.specs.Prelude.{◌≡◌, ◌<◌, ◌==◌, ℕ, None, length, replicate, slice_index_or, slice_set, if◌then◌else◌, OnOk, IsTrue, true};
ghost use Rattle.std.specs.List.{list_all};
ghost use Rattle.std.specs.List.Sorted.{IsBinarySearchResult, IsSearchInRange};
ghost use Rattle.std.specs.Ordering.{nat_cmp};
ghost use Rattle.mn_lsr.specs.Parts.{has_numbers};
ghost use Rattle.mn_lsr.specs.OwnEnds.{IsAscending, end_of};

use crate::parts::{Open, has_numbers};
use mn_base::LinkNo;
use std::alloc::{AllocError, Global};
use std::marker::Model;

/// The node's end of the session of a link, where one is open.
#[derive(Clone, Copy)]
pub struct End {
    pub link: LinkNo,
    pub noted: Option<Open>,
}

/// The node's ends of its sessions by link. The network has many links and the node is at few of them: only those that ever had
/// a session here take memory, and are found by binary search.
#[derive(Drop)]
pub struct Sessions {
    links: usize,
    /// Ascending by link.
    ends: Vec<End>,
}

impl Model for Sessions {
    ghost use Rattle.mn_lsr.specs.OwnEnds.{Listed, IsAscending, ends_of};

    ghost Value = { Listed };

    ghost view = { λ s. record { items = ends_of s.links s.ends.items } };

    ghost invariant = { λ s. IsAscending s.ends.items };
}

/// The place of a link, or where it would be.
fn place_of(ends: &[End], link: LinkNo) -> Result<usize, usize>
    ensures bound { IsSearchInRange result (length ends.now) }
    ensures place { IsBinarySearchResult (λ end. nat_cmp end.link.0 link.0) ends.now result }
{
    ends.binary_search_by_key(&link.0, |end| end.link.0)
}

/// The end that is noted of a link.
fn end_of(ends: &[End], link: LinkNo) -> Option<Open>
    requires { IsAscending ends.now }
    ensures { result ≡ end_of ends.now link.0 }
{
    match place_of(ends, link) {
        Ok(place) => ends[place].noted,
        Err(_) => None,
    }
}

/// Notes the end of a link. Memory is taken only where it never had a session.
fn note(ends: &mut Vec<End>, link: LinkNo, noted: Option<Open>) -> Result<(), AllocError>
    requires { IsAscending ends.old.items }
    ensures noted { OnOk result ((l : ℕ) → end_of ends.new.items l ≡ (if link.0 == l then noted else end_of ends.old.items l)) }
    ensures ascending { IsAscending ends.new.items }
{
    match place_of(ends, link) {
        Ok(place) => {
            ends[place] = End { link, noted };
            Ok(())
        }
        Err(place) => {
            ends.insert(place, End { link, noted })?;
            Ok(())
        }
    }
}

/// Whether little was sent at an end.
fn end_has_numbers(end: &End) -> bool
    ensures { result ≡ has_numbers end.now.noted }
{
    has_numbers(&end.noted)
}

/// Whether little was sent at each of these ends.
fn all_have_numbers(ends: &[End]) -> bool
    ensures { result ≡ list_all (λ end. has_numbers end.noted) ends.now }
{
    ends.iter().all(end_has_numbers)
}

impl Sessions {
    /// No session on so many links.
    pub fn new(alloc: Global, links: usize) -> Sessions
        ensures { result.items ≡ replicate links None }
    {
        Sessions {
            links,
            ends: Vec::new(alloc),
        }
    }

    /// The end of a link.
    pub fn get(&self, link: LinkNo) -> Option<Open>
        ensures { result ≡ slice_index_or self.now.items link.0 None }
    {
        if usize::from(link.0) < self.links {
            end_of(&self.ends, link)
        } else {
            None
        }
    }

    /// Sets the end of a link. An `Err` means out of memory.
    pub fn set(&mut self, link: LinkNo, session: Option<Open>) -> Result<(), AllocError>
        requires { link.0 < length self.old.items }
        ensures { OnOk result (self.new.items ≡ slice_set self.old.items link.0 session) }
    {
        note(&mut self.ends, link, session)
    }

    /// Whether little was sent at each end.
    pub fn have_numbers(&self) -> bool
        ensures { IsTrue result → (l : ℕ) → has_numbers (slice_index_or self.now.items l None) ≡ true }
    {
        all_have_numbers(&self.ends)
    }
}
