//! The due ticks in flight, ascending, each with the last node that is due then.
ghost use Rattle.std.specs.Prelude.{◌≡◌, ◌<◌, ◌≤◌, length, vec_len, MatchResult};
ghost use Rattle.std.specs.Vec.{vec_capacity};
ghost use Rattle.mn_flight_pool.specs.Ticks.{AreAscending, earlier, last_by, put_tick, drop_tick, set_tick, IsFound, IsMissing};

use crate::node::Place;

/// A due tick, and the last node of the ring by due tick that is due then.
#[derive(Clone, Copy)]
pub struct Tick {
    pub due: u64,
    pub last: Place,
}

/// How many ticks are before one.
pub fn before(ticks: &[Tick], due: u64) -> usize
    requires { AreAscending ticks.now }
    ensures value { result ≡ earlier due ticks.now }
    ensures within { result ≤ length ticks.now }
{
    let mut low = 0;
    let mut high = ticks.len();
    while low < high {
        let middle = low + (high - low) / 2;
        if ticks[middle].due < due {
            low = middle + 1;
        } else {
            high = middle;
        }
    }
    low
}

/// Where a tick stands, or where it would.
fn find(ticks: &[Tick], due: u64) -> Result<usize, usize>
    requires { AreAscending ticks.now }
    ensures { MatchResult result (IsFound due ticks.now) (IsMissing due ticks.now) }
{
    let i = before(ticks, due);
    if i < ticks.len() {
        if ticks[i].due == due {
            return Ok(i);
        }
    }
    Err(i)
}

/// The last node that is due by a tick, or the first of the ring where none is.
pub fn last_due_by(ticks: &[Tick], head: Place, due: u64) -> Place
    requires { AreAscending ticks.now }
    ensures { result.index ≡ last_by due head.index ticks.now }
{
    match find(ticks, due) {
        Ok(i) => ticks[i].last,
        Err(0) => head,
        Err(i) => ticks[i - 1].last,
    }
}

/// A node comes to be the last that is due at a tick.
pub fn put(ticks: &mut Vec<Tick>, due: u64, node: Place)
    requires ascending { AreAscending ticks.old.items }
    requires room { vec_len ticks.old < vec_capacity ticks.old }
    ensures ticks { ticks.new.items ≡ put_tick due node.index ticks.old.items }
    ensures capacity { vec_capacity ticks.old ≤ vec_capacity ticks.new }
{
    match find(ticks, due) {
        Ok(i) => ticks[i] = Tick { due, last: node },
        Err(i) => {
            let _ = ticks.insert(i, Tick { due, last: node });
        }
    }
}

/// The last node that is due at a tick is another now.
pub fn renew(ticks: &mut Vec<Tick>, due: u64, node: Place)
    requires { AreAscending ticks.old.items }
    ensures ticks { ticks.new.items ≡ set_tick due node.index ticks.old.items }
    ensures capacity { vec_capacity ticks.new ≡ vec_capacity ticks.old }
{
    if let Ok(i) = find(ticks, due) {
        ticks[i] = Tick { due, last: node };
    }
}

/// No node is due at a tick any more.
pub fn end(ticks: &mut Vec<Tick>, due: u64)
    requires { AreAscending ticks.old.items }
    ensures ticks { ticks.new.items ≡ drop_tick due ticks.old.items }
    ensures capacity { vec_capacity ticks.new ≡ vec_capacity ticks.old }
{
    if let Ok(i) = find(ticks, due) {
        ticks.remove(i);
    }
}
