ghost use Rattle.std.specs.Prelude.{◌≡◌, ◌<◌, ◌≤◌, ◌+◌, ◌^◌, ℕ, List, [], ◌∷◌, ◌++◌, length, slice_get, find, ◌==◌, IsOk, OnOk, OnErr, IfErr, option_map};
ghost use Rattle.std.specs.List.{All};
ghost use Rattle.std.specs.Option.{option_copied};
ghost use Rattle.mn_flight.specs.declared.Item.{Item as ItemOf};
ghost use Rattle.mn_flight.specs.Flying.{IsFlight, on_channel, off_channel, without};
ghost use Rattle.mn_flight.specs.Earliest.{earliest};

use crate::{Back, Item};
use std::alloc::AllocError;

/// Items in flight on a number of channels, which are numbered from 0.
///
/// Only `reserve` and `push` take memory, and `push` takes none while `spare` is positive. Each call tells (`flight`) that
/// numbers ascend and channels are in range.
pub trait Flight<T> {
    /// The items in flight, in the order of their numbers.
    ghost items: { Self → List (ItemOf T) };

    /// How many more can be pushed without taking memory.
    ghost spare: { Self → ℕ };

    /// How many channels there are. No call changes it.
    ghost channels: { Self → ℕ };

    /// Memory is taken only where there is none to spare.
    ghost exact: { Self → Type 0 };

    /// Makes room for so many more items, so that the next so many pushes need no memory.
    fn reserve(&mut self, more: u32) -> Result<(), AllocError>
        ensures room { OnOk result (more ≤ spare self.new) }
        ensures spare { spare self.old ≤ spare self.new }
        ensures enough { exact self.old → more ≤ spare self.old → spare self.new ≡ spare self.old }
        ensures items { items self.new ≡ items self.old }
        ensures channels { channels self.new ≡ channels self.old }
        ensures flight { IsFlight (channels self.new) (items self.new) };

    /// Puts an item on a channel, behind all others. Its number is greater than each in flight. A `Back` means out of memory,
    /// hands the item back and leaves the items as they were.
    fn push(&mut self, channel: u32, due: u64, number: u64, item: T) -> Result<(), Back<T>>
        requires channel { channel < channels self.old }
        requires number { All (λ earlier. earlier.number < number) (items self.old) }
        ensures pushed { OnOk result (items self.new ≡ items self.old ++ record { channel = channel; due = due; number = number; item = item } ∷ []) }
        ensures few { OnOk result (length (items self.new) < 2 ^ 63) }
        ensures back { IfErr result (λ back. back.0 ≡ item) }
        ensures back_unchanged { OnErr result (items self.new ≡ items self.old) }
        ensures room { 0 < spare self.old → IsOk result }
        ensures spare { spare self.old ≤ spare self.new + 1 }
        ensures used { exact self.old → 0 < spare self.old → spare self.new + 1 ≡ spare self.old }
        ensures channels { channels self.new ≡ channels self.old }
        ensures flight { IsFlight (channels self.new) (items self.new) };

    /// Takes the item that stands at a place, from 0, among those of a channel; `None` where the channel has no such place.
    fn take(&mut self, channel: u32, place: u32) -> Option<Item<T>>
        ensures value { result ≡ slice_get (on_channel channel (items self.old)) place }
        ensures items { items self.new ≡ without result (items self.old) }
        ensures spare { spare self.new + length (items self.new) ≡ spare self.old + length (items self.old) }
        ensures channels { channels self.new ≡ channels self.old }
        ensures flight { IsFlight (channels self.new) (items self.new) };

    /// The first item of a channel; `None` where it has none.
    fn first(&self, channel: u32) -> Option<&Item<T>>
        ensures value { option_copied result ≡ slice_get (on_channel channel (items self.now)) 0 }
        ensures flight { IsFlight (channels self.now) (items self.now) };

    /// Of the items that are due at a tick `limit` or before it, the one of least due tick and, among these, of least
    /// number; `None` where none is due by then.
    fn earliest(&self, limit: u64) -> Option<&Item<T>>
        ensures value { option_copied result ≡ earliest limit (items self.now) }
        ensures flight { IsFlight (channels self.now) (items self.now) };

    /// Takes the item that `earliest` tells.
    fn take_earliest(&mut self, limit: u64) -> Option<Item<T>>
        ensures value { result ≡ earliest limit (items self.old) }
        ensures items { items self.new ≡ without result (items self.old) }
        ensures spare { spare self.new + length (items self.new) ≡ spare self.old + length (items self.old) }
        ensures channels { channels self.new ≡ channels self.old }
        ensures flight { IsFlight (channels self.new) (items self.new) };

    /// Drops all items of a channel.
    fn drop_channel(&mut self, channel: u32)
        ensures items { items self.new ≡ off_channel channel (items self.old) }
        ensures spare { spare self.new + length (items self.new) ≡ spare self.old + length (items self.old) }
        ensures channels { channels self.new ≡ channels self.old }
        ensures flight { IsFlight (channels self.new) (items self.new) };

    /// How many items are on a channel: none on one that isn't there.
    fn count(&self, channel: u32) -> u64
        ensures value { result ≡ length (on_channel channel (items self.now)) }
        ensures flight { IsFlight (channels self.now) (items self.now) };

    /// How many items are in flight.
    fn len(&self) -> u64
        ensures value { result ≡ length (items self.now) }
        ensures flight { IsFlight (channels self.now) (items self.now) };

    /// The item of a number; `None` where it isn't in flight.
    fn get(&self, number: u64) -> Option<&Item<T>>
        ensures value { option_copied result ≡ find (λ item. item.number == number) (items self.now) }
        ensures flight { IsFlight (channels self.now) (items self.now) };
}
