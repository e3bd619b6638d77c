//! Calls on any flight of three channels, and a table of forty of them with answers by hand.
ghost use Rattle.std.specs.Prelude.{◌≡◌, ◌<◌, ◌+◌};
ghost use Rattle.std.specs.List.{All};

use mn_flight::{Flight, Item};
use std::process::Abort;

/// One call. What is pushed has the row's number, from 0, and carries 100 more.
#[derive(Clone, Copy, Debug)]
pub(crate) enum Call {
    Reserve(u32),
    Push(u32, u64),
    Take(u32, u32),
    Earliest(u64),
    TakeEarliest(u64),
    DropChannel(u32),
    Count(u32),
    Len,
    Get(u64),
}

/// What a call answered: an item is told by its channel, due tick, number and what it carries.
#[derive(Clone, Copy, Debug, PartialEq, Eq)]
pub(crate) enum Answer {
    Done,
    NoMemory,
    Many(u64),
    Nothing,
    Flying(u32, u64, u64, u32),
}

use Answer::{Done, Flying, Many, Nothing};
use Call::{Count, DropChannel, Earliest, Get, Len, Push, Reserve, Take, TakeEarliest};

const TABLE: [(Call, Answer); 40] = [
    (Len, Many(0)),
    (Earliest(9), Nothing),
    (Take(0, 0), Nothing),
    (Reserve(4), Done),
    (Push(0, 11), Done),
    (Push(2, 10), Done),
    (Push(0, 11), Done),
    (Push(2, 10), Done),
    (Push(2, 12), Done),
    (Len, Many(5)),
    // The limit below the least due tick, at it, and past all.
    (Earliest(9), Nothing),
    (Earliest(10), Flying(2, 10, 5, 105)),
    (Earliest(99), Flying(2, 10, 5, 105)),
    (Count(2), Many(3)),
    (Count(1), Many(0)),
    (Count(3), Many(0)),
    (Get(7), Flying(2, 10, 7, 107)),
    (Get(9), Nothing),
    // From the middle of a channel.
    (Take(2, 1), Flying(2, 10, 7, 107)),
    (Take(2, 2), Nothing),
    (Get(7), Nothing),
    (Count(2), Many(2)),
    // The channel that holds the earliest.
    (DropChannel(2), Done),
    (Len, Many(2)),
    (Earliest(10), Nothing),
    // Of equal due ticks the least number.
    (Push(1, 11), Done),
    (TakeEarliest(10), Nothing),
    (TakeEarliest(11), Flying(0, 11, 4, 104)),
    (TakeEarliest(11), Flying(0, 11, 6, 106)),
    (TakeEarliest(11), Flying(1, 11, 25, 125)),
    (TakeEarliest(11), Nothing),
    // A later one that is due before, and numbers that come to stand last on their channels.
    (Push(1, 30), Done),
    (Push(0, 20), Done),
    (Push(1, 10), Done),
    (TakeEarliest(25), Flying(1, 10, 33, 133)),
    (TakeEarliest(25), Flying(0, 20, 32, 132)),
    (Take(1, 0), Flying(1, 30, 31, 131)),
    (DropChannel(1), Done),
    (Len, Many(0)),
    (TakeEarliest(99), Nothing),
];

fn told(item: Option<&Item<u32>>) -> Answer {
    match item {
        Some(item) => Flying(item.channel, item.due, item.number, item.item),
        None => Nothing,
    }
}

/// Makes a row's call.
pub(crate) fn made<F: Flight<u32>>(flight: &mut F, call: Call, number: u64) -> Answer
    requires channels { F.channels flight.old ≡ 3 }
    requires number { All (λ earlier. earlier.number < number) (F.items flight.old) }
    ensures channels { F.channels flight.new ≡ 3 }
    ensures number { All (λ earlier. earlier.number < number + 1) (F.items flight.new) }
{
    match call {
        Reserve(more) => match flight.reserve(more) {
            Ok(()) => Done,
            Err(_) => Answer::NoMemory,
        },
        Push(channel, due) if channel < 3 => {
            match flight.push(channel, due, number, (number % 1000) as u32 + 100) {
                Ok(()) => Done,
                Err(_) => Answer::NoMemory,
            }
        }
        Push(_, _) => Nothing,
        Take(channel, place) => told(flight.take(channel, place).as_ref()),
        Earliest(limit) => told(flight.earliest(limit)),
        TakeEarliest(limit) => told(flight.take_earliest(limit).as_ref()),
        DropChannel(channel) => {
            flight.drop_channel(channel);
            Done
        }
        Count(channel) => Many(flight.count(channel)),
        Len => Many(flight.len()),
        Get(number) => told(flight.get(number)),
    }
}

/// Makes the table's calls on a flight that holds nothing.
pub(crate) fn makes_the_forty_calls<F: Flight<u32>>(rt: &impl Abort, flight: &mut F)
    requires channels { F.channels flight.old ≡ 3 }
    requires number { All (λ earlier. earlier.number < 0) (F.items flight.old) }
{
    let mut number = 0;
    for (call, answer) in TABLE {
        assert_eq!(rt;
            made(flight, call, number),
            answer,
            "at row {number}, {call:?}"
        );
        number += 1;
    }
}
