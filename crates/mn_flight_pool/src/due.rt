//! A node comes to stand in the ring by due tick, or leaves it.
ghost use Rattle.std.specs.Prelude.{◌≡◌, ◌<◌, ◌≤◌, true, vec_len};
ghost use Rattle.std.specs.Vec.{vec_capacity};
ghost use Rattle.mn_flight_pool.specs.Rings.{item_at, room_at, next_of, prev_of, link_behind as linked_behind, unlink as unlinked};
ghost use Rattle.mn_flight_pool.specs.Ticks.{AreAscending, last_by, put_tick};
ghost use Rattle.mn_flight_pool.specs.ByDue.{is_due, ticks_left};
ghost use Rattle.mn_flight_pool.specs.declared.node.Pair.TheVariants.{Due};

use crate::node::{Pair, Place};
use crate::store::Store;
use crate::tick::{self, Tick};

/// Whether a node has an item that is due at a tick.
fn is_due_at<T: Drop>(store: &Store<T>, node: Place, due: u64) -> bool
    requires { room_at store.now node.index ≡ true }
    ensures { result ≡ is_due due (item_at store.now node.index) }
{
    match store.item(node) {
        Some(item) => item.due == due,
        None => false,
    }
}

/// Links a node in behind all that are due no later.
pub fn link_due<T: Drop>(
    store: &mut Store<T>,
    ticks: &mut Vec<Tick>,
    head: Place,
    node: Place,
    due: u64,
)
    requires ascending { AreAscending ticks.old.items }
    requires room { vec_len ticks.old < vec_capacity ticks.old }
    requires node { room_at store.old node.index ≡ true }
    requires at { room_at store.old (last_by due head.index ticks.old.items) ≡ true }
    requires next { room_at store.old (next_of Due store.old (last_by due head.index ticks.old.items)) ≡ true }
    ensures store { store.new ≡ linked_behind Due node.index (last_by due head.index ticks.old.items) store.old }
    ensures ticks { ticks.new.items ≡ put_tick due node.index ticks.old.items }
    ensures capacity { vec_capacity ticks.old ≤ vec_capacity ticks.new }
{
    let at = tick::last_due_by(ticks, head, due);
    store.link_behind(Pair::Due, node, at);
    tick::put(ticks, due, node);
}

/// Takes a node out that is due at a tick.
pub fn unlink_due<T: Drop>(store: &mut Store<T>, ticks: &mut Vec<Tick>, node: Place, due: u64)
    requires ascending { AreAscending ticks.old.items }
    requires node { room_at store.old node.index ≡ true }
    requires next { room_at store.old (next_of Due store.old node.index) ≡ true }
    requires prev { room_at store.old (prev_of Due store.old node.index) ≡ true }
    ensures store { store.new ≡ unlinked Due node.index store.old }
    ensures ticks { ticks.new.items ≡ ticks_left due (prev_of Due store.old node.index) (item_at store.old (prev_of Due store.old node.index)) (item_at store.old (next_of Due store.old node.index)) ticks.old.items }
    ensures capacity { vec_capacity ticks.new ≡ vec_capacity ticks.old }
{
    let before = store.prev(Pair::Due, node);
    let after = store.next(Pair::Due, node);
    if !is_due_at(store, after, due) {
        // It is the last that is due then.
        if is_due_at(store, before, due) {
            tick::renew(ticks, due, before);
        } else {
            tick::end(ticks, due);
        }
    }
    store.unlink(Pair::Due, node);
}
