//! The counts, and what changes them.
ghost use Rattle.std.specs.Prelude.{◌≡◌, ◌<◌, ◌≤◌, ◌+◌, ◌-◌, ◌*◌, ◌^◌, [], length, slice_index, true, IfOk, OnOk, OnErr};
ghost use Rattle.mn_base.specs.Limits.{most_static_routes, most_steps};
ghost use Rattle.mn_net_tally.specs.Rising.{AreRising, IsSplit};
ghost use Rattle.mn_net_tally.specs.Tallies.{Tallies, is_one, with_frame};
ghost use Rattle.mn_course_laws.specs.Coming.{is_each};
ghost use Rattle.mn_ledger.specs.Ledger.{statics_from};

use mn_topo::Topology;
use std::alloc::{AllocError, Global};
use std::marker::Model;

/// What a network counts beside its parts.
#[derive(Drop)]
pub struct Tally {
    statics: u32,
    /// By link and direction.
    sent: Vec<u32>,
    /// The numbers of the frames that their links lose, ascending.
    lossy: Vec<u64>,
}

impl Model for Tally {
    ghost use Rattle.std.specs.Prelude.{◌-◌, vec_len};
    ghost use Rattle.std.specs.Vec.{vec_capacity};
    ghost use Rattle.mn_net_tally.specs.Tallies.{Tally as Counts};

    ghost Value = { Counts };

    ghost view = { λ t. record {
      statics = t.statics;
      sent = t.sent.items;
      lossy = t.lossy.items;
      spare = vec_capacity t.lossy - vec_len t.lossy;
    } };
}

/// How many statics the topology has.
fn statics_of(topology: &Topology) -> u32
    ensures { result ≡ length (statics_from 0 topology.now.sites) }
{
    topology.laws();
    let mut statics = 0;
    for site in topology.sites() {
        statics += site.prefixes.as_slice().len() as u32;
    }
    statics
}

/// A link that loses each so many frames of a direction loses this one.
fn is_each(loss: u32, number: u32) -> bool
    ensures { result ≡ is_each loss number }
{
    if loss == 0 {
        return false;
    }
    number % loss == 0
}

impl Tally {
    /// The counts at the start: the topology's statics, and no frame.
    pub fn new(alloc: Global, topology: &Topology) -> Result<Tally, AllocError>
        ensures { IfOk result (λ tally. Tallies topology.now [] [] tally) }
    {
        topology.laws();
        let statics = statics_of(topology);
        let sent = vec![in alloc; 0u32; 2 * topology.links().len()]?;
        let lossy = Vec::new(alloc);
        Ok(Tally {
            statics,
            sent,
            lossy,
        })
    }

    /// How many static routes VRFs have, those over detached sites too.
    pub fn statics(&self) -> u32
        ensures { result ≡ self.now.statics }
    {
        self.statics
    }

    /// A static route came.
    pub fn add_static(&mut self)
        requires { self.old.statics < most_static_routes }
        ensures { self.new ≡ record self.old { statics = self.old.statics + 1 } }
    {
        self.statics += 1;
    }

    /// A static route went.
    pub fn del_static(&mut self)
        requires { 0 < self.old.statics }
        ensures { self.new ≡ record self.old { statics = self.old.statics - 1 } }
    {
        self.statics -= 1;
    }

    /// Makes room for so many more frames, so that `send` needs no memory for them.
    pub fn reserve(&mut self, more: u32) -> Result<(), AllocError>
        ensures room { OnOk result (more ≤ self.new.spare) }
        ensures kept { self.new ≡ record self.old { spare = self.new.spare } }
        ensures no_less { self.old.spare ≤ self.new.spare }
        ensures full { OnErr result (self.old.spare < more) }
    {
        self.lossy.reserve(more as usize)
    }

    /// A frame of this number was sent in a direction of a link, by the direction's number and the link's loss.
    pub fn send(&mut self, loss: u32, channel: u32, number: u64)
        requires room { 0 < self.old.spare }
        requires there { channel < length self.old.sent }
        requires few { slice_index self.old.sent channel < most_steps }
        ensures counted { self.new ≡ record (with_frame loss channel number self.old) { spare = self.new.spare } }
        ensures spare { self.old.spare ≤ self.new.spare + 1 }
    {
        let count = self.sent[channel as usize] + 1;
        self.sent[channel as usize] = count;
        if is_each(loss, count) {
            self.lossy.push_reserved(number);
        }
    }

    /// The frame of this number is one that its link loses.
    pub fn loses(&self, number: u64) -> bool
        requires { AreRising self.now.lossy }
        ensures { result ≡ is_one self.now.lossy number }
    {
        let place = place_of(&self.lossy, number);
        if place < self.lossy.len() {
            return self.lossy[place] == number;
        }
        false
    }
}

/// How many numbers are below one.
fn place_of(numbers: &[u64], number: u64) -> usize
    requires { AreRising numbers.now }
    ensures { IsSplit numbers.now number result }
{
    let mut low = 0;
    let mut high = numbers.len();
    while low < high {
        let middle = low + (high - low) / 2;
        if numbers[middle] < number {
            low = middle + 1;
        } else {
            high = middle;
        }
    }
    low
}
