//! Two networks that are joined.
ghost use Rattle.std.specs.Prelude.{◌≡◌, ◌≢◌, ◌<◌, ◌+◌, ◌^◌, ℕ, List, [], true, Some, None, Err, length, slice_get, slice_index_or, option_map, IfOk, IfSome};
ghost use Rattle.mn_join.specs.Prelude.{command_fits, Pairing, Both, at_first, travel, no_travel, played};
ghost use Rattle.mn_join.specs.Pairs.{pairing_of, AreSites, AreApart, PairStands, net_of};
ghost use Rattle.mn_join.specs.Plays.{is_played, Plays, IsOwnCause, bad_of};
ghost use Rattle.mn_join.specs.Moves.{PairGoesOn};
ghost use Rattle.mn_join.specs.declared.played.Played.TheVariants as outcome;

use crate::crossing::{Crossing, Kept};
use crate::joints::partners_of;
use crate::played::{PairBad, Played};
use crate::side::Side;
use mn_base::SiteNo;
use mn_join_laws::{Leg, Which};
use mn_ledger::Refused;
use mn_sched::Net;
use mn_script::Command;
use mn_topo::Topology;
use std::alloc::{AllocError, Global};
use std::marker::Model;

/// A packet that a network delivered at a site that isn't joined.
#[derive(Clone, Copy, Debug, PartialEq, Eq)]
pub struct Delivery<'a> {
    pub which: Which,
    pub site: SiteNo,
    /// The network's tick at which it was delivered.
    pub tick: u64,
    /// The packet, as it leaves the network.
    pub bytes: &'a [u8],
}

/// Two networks that are joined site to site, and the packets that cross them.
///
/// What stopped a line stops every later one. The readers then tell of the steps that were done.
#[derive(Drop)]
pub struct Pair {
    pub(crate) alloc: Global,
    pub(crate) first: Side,
    pub(crate) second: Side,
    pub(crate) travels: Vec<Crossing>,
    pub(crate) exits: Vec<Kept>,
    pub(crate) stopped: Option<PairBad>,
}

impl Model for Pair {
    ghost use Rattle.mn_join.specs.Pairs.{PairNow, IsPair};

    ghost Value = { PairNow };

    ghost view = { λ p. record {
      first = p.first;
      second = p.second;
      travels = p.travels.items;
      exits = p.exits.items;
      stopped = p.stopped;
    } };

    ghost invariant = { λ p. IsPair (record {
      first = p.first;
      second = p.second;
      travels = p.travels.items;
      exits = p.exits.items;
      stopped = p.stopped;
    }) };
}

impl Pair {
    /// Two networks at their start: every link and session is down, and no packet was sent. A joint is a site of the first network and one of
    /// the second.
    pub fn new(
        alloc: Global,
        first: Topology,
        second: Topology,
        joints: &[(SiteNo, SiteNo)],
    ) -> Result<Pair, AllocError>
        requires sites { AreSites first second joints.now }
        requires apart { AreApart joints.now }
        ensures stands { IfOk result (λ pair. PairStands (pairing_of first second joints.now) pair at_first) }
        ensures goes { IfOk result (λ pair. pair.stopped ≡ None) }
        ensures exits { IfOk result (λ pair. pair.exits ≡ []) }
    {
        let here = partners_of(alloc, Which::First, first.sites().len(), joints)?;
        let there = partners_of(alloc, Which::Second, second.sites().len(), joints)?;
        Ok(Pair {
            alloc,
            first: Side {
                net: Net::new(alloc, first)?,
                partners: here,
                owners: Vec::new(alloc),
            },
            second: Side {
                net: Net::new(alloc, second)?,
                partners: there,
                owners: Vec::new(alloc),
            },
            travels: Vec::new(alloc),
            exits: Vec::new(alloc),
            stopped: None,
        })
    }

    /// Does what a line asks of one of the networks. What a step delivers at a joint enters the other network at once, with the number of its
    /// record, before anything else is done; this may happen again.
    ///
    /// `TooManySteps` where a step that nothing else refuses meets a full journal, of either network. `NoMemory` leaves some first steps done.
    pub fn play(
        &mut self,
        which: Which,
        command: &Command,
        packet: &[u8],
    ) -> Result<Played, PairBad>
        requires fits { command_fits (net_of self.old which).topology command.now ≡ true }
        requires plays { is_played command.now ≡ true }
        // Both networks do the steps of the line's course, each at its tick, with the course's ending; or some first steps of it.
        ensures course { self.old.stopped ≡ None → (pairing : Pairing) (both : Both) → PairStands pairing self.old both →
            Plays pairing (played pairing which both command.now packet.now) self.new result }
        ensures refused { IfOk result IsOwnCause }
        ensures kept { IfOk result (λ ended. ended ≢ outcome.All → self.new ≡ record self.old { exits = [] }) }
        // What stopped a line stops each later one.
        ensures stopped { self.new.stopped ≡ bad_of result }
        ensures for_good { IfSome self.old.stopped (λ bad. (result ≡ Err bad) × (self.new ≡ record self.old { exits = [] })) }
        // The topologies stay, and the journals before begin those after, also where playing stops.
        ensures goes { PairGoesOn self.old self.new }
    {
        self.exits.clear();
        if let Some(bad) = self.stopped {
            return Err(bad);
        }
        match self.line(which, command, packet) {
            Ok(played) => Ok(played),
            Err(bad) => {
                self.stopped = Some(bad);
                Err(bad)
            }
        }
    }

    /// One of the networks.
    pub fn net(&self, which: Which) -> &Net
        ensures { result.now ≡ net_of self.now which }
    {
        match which {
            Which::First => &self.first.net,
            Which::Second => &self.second.net,
        }
    }

    /// How many packets the lines have sent.
    pub fn packets(&self) -> u32
        ensures counted { result ≡ length self.now.travels }
        ensures told { (pairing : Pairing) (both : Both) → PairStands pairing self.now both → result ≡ length both.travels }
    {
        self.travels.len() as u32
    }

    /// The legs of a packet, in the order in which it was sent into the networks.
    pub fn legs(&self, packet: u32) -> &[Leg]
        requires { packet < length self.now.travels }
        ensures kept { result.now ≡ (slice_index_or self.now.travels packet no_travel).legs }
        ensures told { (pairing : Pairing) (both : Both) → PairStands pairing self.now both → result.now ≡ (travel both packet).legs }
    {
        &self.travels[packet as usize].legs
    }

    /// Why a network refused to take the packet in at a joint; `None` where its end is the verdict of its last leg.
    pub fn refused(&self, packet: u32) -> Option<Refused>
        requires { packet < length self.now.travels }
        ensures kept { result ≡ (slice_index_or self.now.travels packet no_travel).refused }
        ensures told { (pairing : Pairing) (both : Both) → PairStands pairing self.now both → result ≡ (travel both packet).refused }
    {
        self.travels[packet as usize].refused
    }

    /// A delivery of the last line at a site that isn't joined, by its number from 0, in the order of the steps; `None` where there were no
    /// more.
    pub fn delivery(&self, k: u32) -> Option<Delivery<'_>>
        ensures told { option_map (λ delivery. record { which = delivery.which; site = delivery.site.0; tick = delivery.tick; bytes = delivery.bytes.now }) result
            ≡ slice_get self.now.exits k }
        ensures few { IfSome result (λ delivery. k + 1 < 2 ^ 32) }
    {
        let kept = self.exits.get(k as usize)?;
        Some(Delivery {
            which: kept.which,
            site: kept.site,
            tick: kept.tick,
            bytes: &kept.bytes,
        })
    }
}
