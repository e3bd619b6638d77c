//! The plainest flight, its items in a `Vec` in the order of their numbers.
ghost use Rattle.std.specs.Prelude.{◌≡◌, ◌+◌, ◌<◌, ◌==◌, ◌-◌, [], length, position, MatchOption};
ghost use Rattle.mn_flight.specs.Flying.{on_channel};
ghost use Rattle.mn_flight.specs.Places.{IsPlace, IsBestOf};

use crate::{Back, Flight, Item};
use std::alloc::{AllocError, Global};
use std::marker::Model;

/// Items in flight, in the order of their numbers. Contracts see them, for how many more there is memory, and how many
/// channels there are.
#[derive(Drop)]
pub struct ListFlight<T> {
    items: Vec<Item<T>>,
    channels: u32,
}

impl<T> Model for ListFlight<T> {
    ghost use Rattle.std.specs.Prelude.{◌-◌, vec_len};
    ghost use Rattle.std.specs.Vec.{vec_capacity};
    ghost use Rattle.mn_flight.specs.Contents.{Contents};
    ghost use Rattle.mn_flight.specs.Flying.{IsFlight};

    ghost Value = { Contents T };

    ghost view = { λ f. record { items = f.items.items; spare = vec_capacity f.items - vec_len f.items; channels = f.channels } };

    ghost invariant = { λ f. IsFlight f.channels f.items.items };
}

impl<T> ListFlight<T> {
    /// No item, on so many channels.
    pub fn new(alloc: Global, channels: u32) -> ListFlight<T>
        ensures items { result.items ≡ [] }
        ensures channels { result.channels ≡ channels }
    {
        ListFlight {
            items: Vec::new(alloc),
            channels,
        }
    }
}

/// Where the item stands that is at a place, from 0, among those of a channel.
fn nth_place<T>(items: &[Item<T>], channel: u32, place: u32) -> Option<usize>
    ensures { IsPlace channel place items.now result }
{
    let mut left = place;
    for (i, item) in items.iter().enumerate() {
        if item.channel == channel {
            if left == 0 {
                return Some(i);
            }
            left -= 1;
        }
    }
    None
}

/// Of the first `i + 1` items, where the earliest stands that is due by the limit, `best` being that of the first `i`.
fn earlier_place<T>(items: &[Item<T>], limit: u64, i: usize, best: Option<usize>) -> Option<usize>
    requires there { i < length items.now }
    requires best { IsBestOf limit items.now i best }
    ensures { IsBestOf limit items.now (i + 1) result }
{
    let due = items[i].due;
    if due > limit {
        return best;
    }
    match best {
        Some(b) if items[b].due <= due => Some(b),
        _ => Some(i),
    }
}

/// Where the item stands that is the earliest of those due by the limit.
fn earliest_place<T>(items: &[Item<T>], limit: u64) -> Option<usize>
    ensures { IsBestOf limit items.now (length items.now) result }
{
    let mut best = None;
    for i in 0..items.len() {
        best = earlier_place(items, limit, i, best);
    }
    best
}

impl<T: Drop> Flight<T> for ListFlight<T> {
    ghost items = { λ f. f.items };

    ghost spare = { λ f. f.spare };

    ghost channels = { λ f. f.channels };

    ghost exact = { λ f. ⊥ };

    fn reserve(&mut self, more: u32) -> Result<(), AllocError> {
        self.items.reserve(more as usize)
    }

    fn push(&mut self, channel: u32, due: u64, number: u64, item: T) -> Result<(), Back<T>> {
        let flying = Item {
            channel,
            due,
            number,
            item,
        };
        match self.items.push(flying) {
            Ok(()) => Ok(()),
            Err(failed) => Err(Back(failed.value.item)),
        }
    }

    fn take(&mut self, channel: u32, place: u32) -> Option<Item<T>> {
        let i = nth_place(&self.items, channel, place)?;
        Some(self.items.remove(i))
    }

    fn first(&self, channel: u32) -> Option<&Item<T>> {
        let i = nth_place(&self.items, channel, 0)?;
        Some(&self.items[i])
    }

    fn earliest(&self, limit: u64) -> Option<&Item<T>> {
        let i = earliest_place(&self.items, limit)?;
        Some(&self.items[i])
    }

    fn take_earliest(&mut self, limit: u64) -> Option<Item<T>> {
        let i = earliest_place(&self.items, limit)?;
        Some(self.items.remove(i))
    }

    fn drop_channel(&mut self, channel: u32) {
        self.items.retain(|item| item.channel != channel);
    }

    fn count(&self, channel: u32) -> u64 {
        self.items
            .iter()
            .filter(|item| item.channel == channel)
            .count() as u64
    }

    fn len(&self) -> u64 {
        self.items.len() as u64
    }

    fn get(&self, number: u64) -> Option<&Item<T>> {
        self.items.iter().find(|item| item.number == number)
    }
}
