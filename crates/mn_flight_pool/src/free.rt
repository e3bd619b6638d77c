//! The nodes that hold no item, one behind another.
ghost use Rattle.std.specs.Prelude.{◌≡◌, ◌<◌, ◌+◌, ◌^◌, true};
ghost use Rattle.mn_flight_pool.specs.Rings.{next_of, room_at, set_next as with_next};
ghost use Rattle.mn_flight_pool.specs.declared.node.Pair.TheVariants.{Due};

use crate::node::{Pair, Place};
use crate::store::Store;

/// The first of them, and how many there are. Each names the one behind it as its next by due tick, since it stands in no ring.
#[derive(Clone, Copy)]
pub struct Free {
    pub(crate) first: Place,
    pub(crate) count: usize,
}

impl Free {
    /// None.
    pub fn none() -> Free
        ensures { result.count ≡ 0 }
    {
        Free {
            first: Place { index: 0 },
            count: 0,
        }
    }

    /// A node comes to be the first.
    pub fn push<T: Drop>(&mut self, store: &mut Store<T>, node: Place)
        requires room { room_at store.old node.index ≡ true }
        requires few { self.old.count < 2 ^ 32 }
        ensures store { store.new ≡ with_next Due node.index self.old.first.index store.old }
        ensures first { self.new.first ≡ node }
        ensures count { self.new.count ≡ self.old.count + 1 }
    {
        store.set_next(Pair::Due, node, self.first);
        self.first = node;
        self.count += 1;
    }

    /// Takes the first.
    pub fn pop<T: Drop>(&mut self, store: &Store<T>) -> Place
        requires some { 0 < self.old.count }
        requires room { room_at store.now self.old.first.index ≡ true }
        ensures node { result ≡ self.old.first }
        ensures first { self.new.first.index ≡ next_of Due store.now self.old.first.index }
        ensures count { self.new.count + 1 ≡ self.old.count }
    {
        let node = self.first;
        self.first = store.next(Pair::Due, node);
        self.count -= 1;
        node
    }
}
