//! The table of forty calls, on the pool and on the plain list; and three thousand calls on both.
use crate::calls::Call::{Count, DropChannel, Earliest, Get, Len, Push, Take, TakeEarliest};
use crate::calls::{Call, made, makes_the_forty_calls};
use mn_flight::ListFlight;
use mn_flight_pool::PoolFlight;
use std::test::Fail;

#[test]
fn forty_calls_on_the_pool_and_on_the_list(rt: HostRuntime) -> Result<(), Fail> {
    let mut pool = PoolFlight::new(rt.alloc(), 3)?;
    makes_the_forty_calls(&rt, &mut pool);
    let mut list = ListFlight::new(rt.alloc(), 3);
    makes_the_forty_calls(&rt, &mut list);
    Ok(())
}

/// A call by a number: of sixteen, seven are pushes at seven due ticks, three take from a channel, three ask for the
/// earliest or take it, two count or look up, and one in a hundred and twenty-eight drops a channel.
fn drawn(number: u64) -> Call {
    let channel = (number / 16 % 3) as u32;
    let limit = 100 + number / 64 % 7;
    match number % 16 {
        0..=6 => Push(channel, limit),
        7..=9 => Take(channel, (number / 64 % 5) as u32),
        10 | 11 => TakeEarliest(limit),
        12 => Earliest(limit),
        13 => Count(channel),
        14 => Get(number / 64 % 3000),
        _ if number / 64 % 8 == 0 => DropChannel(channel),
        _ => Len,
    }
}

/// The next of a fixed list of numbers: Marsaglia's xorshift.
fn following(number: u64) -> u64 {
    let number = number ^ (number << 13);
    let number = number ^ (number >> 7);
    number ^ (number << 17)
}

#[test]
fn three_thousand_calls_answer_alike_on_both(rt: HostRuntime) -> Result<(), Fail> {
    let mut pool = PoolFlight::new(rt.alloc(), 3)?;
    let mut list = ListFlight::new(rt.alloc(), 3);
    let mut seed = 88_172_645_463_325_252;
    for number in 0..3000 {
        seed = following(seed);
        let call = drawn(seed >> 20);
        assert_eq!(rt;
            made(&mut pool, call, number),
            made(&mut list, call, number),
            "at {number}, {call:?}"
        );
    }
    Ok(())
}
