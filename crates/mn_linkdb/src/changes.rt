ghost use Rattle.std.specs.Prelude.{◌≡◌, ◌<◌, ◌+◌, ◌↔◌, length, replicate, slice_index, slice_set, IsErr, IfOk, OnOk, OnErr};
ghost use Rattle.mn_linkdb.specs.Changes.{is_odd, is_link_up};

use mn_base::LinkNo;
use std::alloc::{AllocError, Global};
use std::marker::Model;

/// The link is as the change would make it.
#[derive(Clone, Copy, Debug, PartialEq, Eq)]
pub struct Unchanged;

/// How often each link was changed. Contracts see the list of these numbers.
#[derive(Drop)]
pub struct LinkDb {
    changes: Vec<u32>,
}

impl Model for LinkDb {
    ghost use Rattle.std.specs.Prelude.{List, ℕ};

    ghost Value = { List ℕ };

    ghost view = { λ db. db.changes.items };
}

/// Whether a link of so many changes is up.
pub(crate) fn is_odd(count: u32) -> bool
    ensures { result ≡ is_odd count }
{
    count % 2 == 1
}

impl LinkDb {
    /// So many links, each of them down and not changed yet.
    pub fn new(alloc: Global, links: u32) -> Result<LinkDb, AllocError>
        ensures { IfOk result (λ db. db ≡ replicate links 0) }
    {
        let changes = vec![in alloc; 0; links as usize]?;
        Ok(LinkDb { changes })
    }

    /// How often the link was changed so far.
    pub fn changes(&self, link: LinkNo) -> u32
        requires { link.0 < length self.now }
        ensures { result ≡ slice_index self.now link.0 }
    {
        self.changes[usize::from(link.0)]
    }

    /// Makes a link up or down, and answers how often it was changed, this time included.
    ///
    /// An `Err` changes nothing: the link is so already.
    pub fn change(&mut self, link: LinkNo, up: bool) -> Result<u32, Unchanged>
        requires there { link.0 < length self.old }
        requires room { slice_index self.old link.0 < 4294967295 }
        ensures count { IfOk result (λ count. count ≡ slice_index self.old link.0 + 1) }
        ensures changed { OnOk result (self.new ≡ slice_set self.old link.0 (slice_index self.old link.0 + 1)) }
        ensures turned { OnOk result (is_link_up self.new link.0 ≡ up) }
        ensures unchanged { IsErr result ↔ (is_link_up self.old link.0 ≡ up) }
        ensures err { OnErr result (self.new ≡ self.old) }
    {
        let count = self.changes(link);
        if is_odd(count) == up {
            return Err(Unchanged);
        }
        self.changes[usize::from(link.0)] = count + 1;
        Ok(count + 1)
    }
}
