//! A flood.
ghost use Rattle.std.specs.Prelude.{◌≡◌, ◌<◌, ◌≤◌, length, slice_get, option_map, IfOk, IfErr, IfSome, IsSome, OnOk, IsErrOf, true, false, [], None, Ok, Err};
ghost use Rattle.mn_base.specs.Limits.{most_steps};
ghost use Rattle.mn_topo.specs.Network.{wiring_of};
ghost use Rattle.mn_linkdb.specs.Trees.{IsTree};
ghost use Rattle.mn_flood_laws.specs.Flood.{FloodEvent, Change, Hear, flooded, is_flooded};
ghost use Rattle.mn_flood_laws.specs.Laws.{IsFlood};
ghost use Rattle.mn_flood.specs.Queue.{way_of};
ghost use Rattle.mn_flood.specs.Floods.{FloodNow, first_flood, happened, refusal_of};

use crate::FloodBad;
use crate::view::view_of;
use crate::world::World;
use mn_base::{LinkNo, NodeNo};
use mn_linkdb::Tree;
use mn_topo::Topology;
use mn_wiring::Dir;
use std::alloc::{AllocError, Global};
use std::marker::Model;

/// A link may change while fewer adverts than this fly.
const MOST_ADVERTS: u64 = 100_000;

/// What each node of a network has learned of its links by adverts, and the adverts that fly.
///
/// A call that memory was refused to leaves the flood failed: each later `change` and `hear` answers `NoMemory`, and the readers
/// tell of a world in which an event was done in part.
#[derive(Drop)]
pub struct Flood {
    alloc: Global,
    world: World,
    done: u32,
    failed: bool,
}

impl Model for Flood {
    ghost use Rattle.mn_flood.specs.Floods.{FloodNow, IsStanding};

    ghost Value = { FloodNow };

    ghost view = { λ f. record { wiring = f.world.wiring; world = f.world.world; done = f.done; failed = f.failed } };

    ghost invariant = { λ f. IsStanding f.world.wiring f.world.world f.world.made f.done f.failed };
}

impl Flood {
    /// The start, over the nodes and links of a topology: every link is down, each node has its own advert alone, of number 0 and
    /// no links, and none flies.
    pub fn new(alloc: Global, topology: &Topology) -> Result<Flood, AllocError>
        ensures { IfOk result (λ flood. flood ≡ first_flood (wiring_of topology.now)) }
    {
        let world = World::new(alloc, topology)?;
        world.laws();
        Ok(Flood {
            alloc,
            world,
            done: 0,
            failed: false,
        })
    }

    /// A link comes up or goes down. Both its ends renew their own adverts and send them over their links that are up; over a link
    /// that came up each end sends all that it has. What flew on a link that goes down is gone.
    ///
    /// `NoMemory` where memory was refused before; else `Unchanged` where the link is so already, then `FloodFull` where 100,000
    /// adverts fly or more.
    pub fn change(&mut self, link: LinkNo, up: bool) -> Result<(), FloodBad>
        requires link { link.0 < length self.old.wiring.ends }
        requires few { self.old.done ≤ most_steps }
        ensures refused { IfSome (refusal_of self.old (Change link.0 up)) (λ bad. result ≡ Err bad) }
        ensures unchanged { IsSome (refusal_of self.old (Change link.0 up)) → self.new ≡ self.old }
        ensures done { OnOk result (self.new ≡ happened self.old (Change link.0 up)) }
        ensures else_memory { refusal_of self.old (Change link.0 up) ≡ None → IfErr result (λ bad. bad ≡ FloodBad.NoMemory) }
        ensures failed { IsErrOf result FloodBad.NoMemory → self.new.failed ≡ true }
    {
        if self.failed {
            return Err(FloodBad::NoMemory);
        }
        if self.world.is_up(link) == up {
            return Err(FloodBad::Unchanged);
        }
        if self.world.pending() >= MOST_ADVERTS {
            return Err(FloodBad::FloodFull);
        }
        self.world.laws();
        self.failed = true;
        if self.world.change(self.alloc, link, up).is_err() {
            return Err(FloodBad::NoMemory);
        }
        self.done += 1;
        self.failed = false;
        Ok(())
    }

    /// The advert that was sent first of those that fly in a direction is received by the receiver: it is kept and sent on over the
    /// receiver's other links that are up if it is newer than what the receiver has of its origin, and else passed over.
    ///
    /// `NoMemory` where memory was refused before; else `Empty` where none flies in the direction.
    pub fn hear(&mut self, link: LinkNo, dir: Dir) -> Result<(), FloodBad>
        requires link { link.0 < length self.old.wiring.ends }
        requires few { self.old.done ≤ most_steps }
        ensures refused { IfSome (refusal_of self.old (Hear link.0 dir)) (λ bad. result ≡ Err bad) }
        ensures unchanged { IsSome (refusal_of self.old (Hear link.0 dir)) → self.new ≡ self.old }
        ensures done { OnOk result (self.new ≡ happened self.old (Hear link.0 dir)) }
        ensures else_memory { refusal_of self.old (Hear link.0 dir) ≡ None → IfErr result (λ bad. bad ≡ FloodBad.NoMemory) }
        ensures failed { IsErrOf result FloodBad.NoMemory → self.new.failed ≡ true }
    {
        if self.failed {
            return Err(FloodBad::NoMemory);
        }
        self.world.laws();
        let Some(sent) = self.world.take(link, dir) else {
            return Err(FloodBad::Empty);
        };
        self.failed = true;
        if self.world.take_in(link, dir, sent.into_advert()).is_err() {
            return Err(FloodBad::NoMemory);
        }
        self.done += 1;
        self.failed = false;
        Ok(())
    }

    /// What holds of every flood, if memory was never refused to this one.
    pub fn laws(&self)
        ensures { self.now.failed ≡ false → IsFlood self.now.wiring self.now.world }
    {
        let _ = &self.world;
    }

    /// How many changes and hearings were done.
    pub fn done(&self) -> u32
        ensures { result ≡ self.now.done }
    {
        self.done
    }

    /// How many adverts fly.
    pub fn pending(&self) -> u64
        ensures { result ≡ length self.now.world.flying }
    {
        self.world.pending()
    }

    /// The direction of the advert that was sent first of all that fly; `None` where none flies.
    pub fn first(&self) -> Option<(LinkNo, Dir)>
        ensures { result ≡ option_map way_of (slice_get self.now.world.flying 0) }
    {
        self.world.first()
    }

    /// Whether a node takes a link for up: it has adverts of both ends, and both list it.
    pub fn up(&self, node: NodeNo, link: LinkNo) -> bool
        requires node { node.0 < length self.now.wiring.loopbacks }
        requires link { link.0 < length self.now.wiring.ends }
        ensures { result ≡ is_flooded self.now.wiring self.now.world node.0 link.0 }
    {
        self.world.knows(node, link)
    }

    /// The least walks from a node over the links that it takes for up. Where none flies, and memory was never refused, these are
    /// the least walks over the links that are up.
    pub fn tree(&self, node: NodeNo) -> Result<Tree, AllocError>
        requires { node.0 < length self.now.wiring.loopbacks }
        ensures flooded { IfOk result (IsTree self.now.wiring (flooded self.now.wiring self.now.world node.0) node.0) }
        ensures settled { self.now.failed ≡ false → self.now.world.flying ≡ [] → IfOk result (IsTree self.now.wiring self.now.world.up node.0) }
    {
        self.world.laws();
        let view = view_of(self.alloc, &self.world, node)?;
        mn_spf::tree(self.alloc, &view, node)
    }
}
