ghost use Rattle.std.specs.Prelude.{◌≡◌, ◌<◌, ◌≤◌, ◌+◌, ◌-◌, ℕ, false, nat_lt, replicate, length, slice_index_or, slice_set, IfOk, OnOk, OnErr};
ghost use Rattle.std.specs.List.{list_all};
ghost use Rattle.mn_releases.specs.Rests.{at_first, row_of, count_in, with_count, opened, closed, withdrawn, released, stopped, owes_none};

use crate::row::Row;
use mn_base::NodeNo;
use std::alloc::{AllocError, Global};
use std::marker::Model;

/// Since when the FECs of a node are at rest.
#[derive(Drop)]
pub struct Rests {
    alloc: Global,
    owed: Vec<Option<Row>>,
    rested: Vec<u64>,
    life: u32,
}

impl Model for Rests {
    ghost use Rattle.mn_releases.specs.Rests.{Resting};

    ghost Value = { Resting };

    ghost view = { λ rests. record { owed = rests.owed.items; rested = rests.rested.items; life = rests.life } };
}

impl Rests {
    /// No neighbour is open, and all FECs are at rest since tick 0.
    pub fn new(alloc: Global, nodes: u32, life: u32) -> Result<Rests, AllocError>
        ensures { IfOk result (λ rests. rests ≡ at_first nodes life) }
    {
        let mut owed = Vec::new(alloc);
        for _ in 0..nodes {
            owed.push(None)?;
        }
        let mut rested = Vec::new(alloc);
        rested.resize(nodes as usize, 0)?;
        Ok(Rests {
            alloc,
            owed,
            rested,
            life,
        })
    }

    /// A row for a neighbour that will open.
    pub fn row(&self) -> Result<Row, AllocError>
        ensures { IfOk result (λ row. row ≡ replicate (length self.now.rested) 0) }
    {
        Row::new(self.alloc, self.rested.len())
    }

    /// A neighbour opens. It takes no memory.
    pub fn open(&mut self, from: NodeNo, row: Row)
        requires node { from.0 < length self.old.owed }
        requires none { row ≡ replicate (length self.old.rested) 0 }
        ensures { self.new ≡ opened self.old from.0 }
    {
        self.owed[from.0 as usize] = Some(row);
    }

    /// A neighbour closes at this tick.
    pub fn close(&mut self, from: NodeNo, tick: u64)
        requires { from.0 < length self.old.owed }
        ensures { self.new ≡ closed self.old from.0 tick }
    {
        self.owed[from.0 as usize] = None;
        self.rested.fill(tick);
    }

    /// How many Releases of a FEC a neighbour owes.
    fn count(&self, from: NodeNo, fec: NodeNo) -> u64
        ensures { result ≡ count_in (row_of self.now from.0) fec.0 }
    {
        let at = from.0 as usize;
        if at < self.owed.len() {
            match &self.owed[at] {
                None => 0,
                Some(row) => row.count(fec),
            }
        } else {
            0
        }
    }

    /// Notes how many Releases of a FEC a neighbour owes.
    fn note(&mut self, from: NodeNo, fec: NodeNo, count: u64)
        ensures owed { self.new.owed ≡ slice_set self.old.owed from.0 (with_count (row_of self.old from.0) fec.0 count) }
        ensures rested { self.new.rested ≡ self.old.rested }
        ensures life { self.new.life ≡ self.old.life }
    {
        let at = from.0 as usize;
        if at < self.owed.len() {
            if let Some(row) = &mut self.owed[at] {
                row.set(fec, count);
            }
        }
    }

    /// A neighbour is sent a Withdraw of a FEC.
    pub fn withdraw(&mut self, from: NodeNo, fec: NodeNo)
        requires { count_in (row_of self.old from.0) fec.0 < 18446744073709551615 }
        ensures { self.new ≡ withdrawn self.old from.0 fec.0 }
    {
        let count = self.count(from, fec) + 1;
        self.note(from, fec, count);
    }

    /// A neighbour's Release of a FEC is received at this tick.
    pub fn release(&mut self, from: NodeNo, fec: NodeNo, tick: u64)
        requires { fec.0 < length self.old.rested }
        ensures { self.new ≡ released self.old from.0 fec.0 tick }
    {
        let count = self.count(from, fec).saturating_sub(1);
        self.note(from, fec, count);
        self.rested[fec.0 as usize] = tick;
    }

    /// The node ceases to offer a FEC at this tick.
    pub fn stop(&mut self, fec: NodeNo, tick: u64)
        requires { fec.0 < length self.old.rested }
        ensures { self.new ≡ stopped self.old fec.0 tick }
    {
        self.rested[fec.0 as usize] = tick;
    }

    /// Whether all frames that were sent before the FEC's rest have ended by this tick. It looks at the FEC alone.
    pub fn has_rested(&self, fec: NodeNo, tick: u64) -> bool
        requires { fec.0 < length self.now.rested }
        ensures { result ≡ nat_lt (slice_index_or self.now.rested fec.0 0 + self.now.life) tick }
    {
        is_past(self.since(fec), u64::from(self.life), tick)
    }

    /// Whether the tick is late enough that frames which were sent before a FEC's rest may have ended.
    pub fn may_have_rested(&self, tick: u64) -> bool
        ensures exact { result ≡ nat_lt self.now.life tick }
        ensures none { result ≡ false → (fec : ℕ) → nat_lt (slice_index_or self.now.rested fec 0 + self.now.life) tick ≡ false }
    {
        u64::from(self.life) < tick
    }

    /// Whether no neighbour owes a Release of the FEC.
    pub fn is_owed_none(&self, fec: NodeNo) -> bool
        ensures { result ≡ list_all (owes_none fec.0) self.now.owed }
    {
        self.owed.iter().all(|row| owes_none(row, fec))
    }

    /// The tick of the last step that laid the FEC to rest.
    fn since(&self, fec: NodeNo) -> u64
        requires { fec.0 < length self.now.rested }
        ensures { result ≡ slice_index_or self.now.rested fec.0 0 }
    {
        self.rested[fec.0 as usize]
    }
}

/// Whether the tick is later than so long after another one.
fn is_past(since: u64, life: u64, tick: u64) -> bool
    ensures { result ≡ nat_lt (since + life) tick }
{
    life < tick && since < tick - life
}

/// Whether no Release of the FEC is owed in this row.
fn owes_none(row: &Option<Row>, fec: NodeNo) -> bool
    ensures { result ≡ owes_none fec.0 row.now }
{
    match row {
        None => true,
        Some(row) => row.count(fec) == 0,
    }
}
