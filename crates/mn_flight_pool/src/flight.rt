//! The flight in a pool.
ghost use Rattle.std.specs.Prelude.{⊤, ◌≡◌, ◌<◌, ◌≤◌, [], IfOk, OnOk, OnErr};

use crate::pool::Pool;
use mn_flight::{Back, Flight, Item};
use std::alloc::{AllocError, Global};
use std::marker::Model;

/// Items in flight, in nodes that `reserve` or `push` takes and that are used again. Contracts see them, how many more there
/// are nodes for, and how many channels there are.
#[derive(Drop)]
pub struct PoolFlight<T: Drop> {
    pool: Pool<T>,
}

impl<T: Drop> Model for PoolFlight<T> {
    ghost use Rattle.mn_flight.specs.Contents.{Contents};

    ghost Value = { Contents T };

    ghost use Rattle.mn_flight_pool.specs.Whole.{items_of, IsWhole};

    ghost view = { λ f. record { items = items_of f.pool; spare = f.pool.free.count; channels = f.pool.channels } };

    ghost invariant = { λ f. IsWhole f.pool };
}

impl<T: Drop> PoolFlight<T> {
    /// No item, on so many channels.
    pub fn new(alloc: Global, channels: u32) -> Result<PoolFlight<T>, AllocError>
        ensures items { IfOk result (λ flight. flight.items ≡ []) }
        ensures channels { IfOk result (λ flight. flight.channels ≡ channels) }
    {
        let pool = Pool::new(alloc, channels)?;
        Ok(PoolFlight { pool })
    }
}

#[tactic(auto, using(crate::proofs::Whole::flight))]
impl<T: Drop> Flight<T> for PoolFlight<T> {
    ghost items = { λ f. f.items };

    ghost spare = { λ f. f.spare };

    ghost channels = { λ f. f.channels };

    ghost exact = { λ f. ⊤ };

    fn reserve(&mut self, more: u32) -> Result<(), AllocError> {
        while self.pool.free.count < more as usize {
            self.pool.grow()?;
        }
        Ok(())
    }

    fn push(&mut self, channel: u32, due: u64, number: u64, item: T) -> Result<(), Back<T>> {
        if self.pool.free.count == 0 {
            if self.pool.grow().is_err() {
                return Err(Back(item));
            }
        }
        self.pool.put(Item {
            channel,
            due,
            number,
            item,
        });
        Ok(())
    }

    fn take(&mut self, channel: u32, place: u32) -> Option<Item<T>> {
        self.pool.take_at(channel, place)
    }

    fn first(&self, channel: u32) -> Option<&Item<T>> {
        let node = self.pool.node_on(channel, 0)?;
        self.pool.item(node)
    }

    fn earliest(&self, limit: u64) -> Option<&Item<T>> {
        let node = self.pool.first_due(limit)?;
        self.pool.item(node)
    }

    fn take_earliest(&mut self, limit: u64) -> Option<Item<T>> {
        let node = self.pool.first_due(limit)?;
        self.pool.take(node)
    }

    fn drop_channel(&mut self, channel: u32) {
        while let Some(node) = self.pool.node_on(channel, 0) {
            let _ = self.pool.take(node);
        }
    }

    fn count(&self, channel: u32) -> u64 {
        self.pool.count_on(channel)
    }

    fn len(&self) -> u64 {
        self.pool.count as u64
    }

    fn get(&self, number: u64) -> Option<&Item<T>> {
        let node = self.pool.node_of(number)?;
        self.pool.item(node)
    }
}
