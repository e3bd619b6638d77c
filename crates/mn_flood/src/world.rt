//! All nodes' databases and what flies, and what an event does to them.
ghost use Rattle.std.specs.Prelude.{◌≡◌, ◌<◌, ◌≤◌, ◌+◌, ◌^◌, ◌++◌, ℕ, map, length, slice_get, option_map, IfOk, OnOk, OnErr};
ghost use Rattle.std.specs.List.{range_with_len};
ghost use Rattle.mn_topo.specs.Network.{wiring_of};
ghost use Rattle.mn_wiring.specs.Wiring.{is_up, receiver};
ghost use Rattle.mn_flood_laws.specs.Flood.{has, age, keep, first_of, up_at, turned, renewal, sends, changed, first_on, without_first, taken_in, start, is_flooded};
ghost use Rattle.mn_flood.specs.Links.{numbers_of, IsWired};
ghost use Rattle.mn_flood.specs.Queue.{way_of};
ghost use Rattle.mn_flood.specs.World.{IsShaped};

use crate::advert::{Advert, Sent};
use crate::database::Database;
use crate::links::Links;
use crate::queue::Queue;
use crate::sending::{send_all, send_on};
use mn_base::{LinkNo, NodeNo};
use mn_topo::Topology;
use mn_wiring::Dir;
use std::alloc::{AllocError, Global};
use std::marker::Model;

/// All nodes' databases, which links are up, and what flies.
#[derive(Drop)]
pub(crate) struct World {
    links: Links,
    up: Vec<bool>,
    kept: Vec<Database>,
    queue: Queue,
}

impl Model for World {
    ghost use Rattle.mn_flood.specs.World.{WorldNow, joined, IsWhole};

    ghost Value = { WorldNow };

    ghost view = { λ w. joined w.links w.up.items w.kept.items w.queue };

    ghost invariant = { λ w. IsWhole w.links (joined w.links w.up.items w.kept.items w.queue).world w.queue };
}

/// The first database of each node.
fn first_databases(alloc: Global, nodes: u32) -> Result<Vec<Database>, AllocError>
    requires { nodes ≤ 256 }
    ensures { IfOk result (λ kept. kept.items ≡ map (λ node. map (first_of node) (range_with_len 0 nodes)) (range_with_len 0 nodes)) }
{
    let mut kept = Vec::with_capacity(alloc, nodes as usize)?;
    for node in 0..nodes {
        kept.push(Database::first(alloc, nodes, NodeNo(node as u16))?)?;
    }
    Ok(kept)
}

/// The links at a node that are up.
fn up_at(alloc: Global, links: &Links, up: &[bool], node: NodeNo) -> Result<Vec<LinkNo>, AllocError>
    requires node { node.0 < length links.now.loopbacks }
    requires one_each { length up.now ≡ length links.now.ends }
    ensures { IfOk result (λ found. numbers_of found.items ≡ up_at links.now up.now node.0) }
{
    let mut found = Vec::new(alloc);
    for link in links.at(node) {
        if up[usize::from(link.0)] {
            found.push(*link)?;
        }
    }
    Ok(found)
}

impl World {
    /// The start: every link is down, each node has its own advert alone, and none flies.
    pub(crate) fn new(alloc: Global, topology: &Topology) -> Result<World, AllocError>
        ensures { IfOk result (λ world. world ≡ record { wiring = wiring_of topology.now; world = start (wiring_of topology.now); made = 0 }) }
    {
        let links = Links::new(alloc, topology)?;
        links.laws();
        let count = links.ends().len();
        let up = vec![in alloc; false; count]?;
        let kept = first_databases(alloc, links.nodes())?;
        let queue = Queue::new(alloc, count as u32)?;
        Ok(World {
            links,
            up,
            kept,
            queue,
        })
    }

    /// What holds of each world.
    pub(crate) fn laws(&self)
        ensures wired { IsWired self.now.wiring }
        ensures shaped { IsShaped self.now.wiring self.now.world }
    {
        self.links.laws();
    }

    /// The links by number.
    pub(crate) fn links(&self) -> &Links
        ensures { result.now ≡ self.now.wiring }
    {
        &self.links
    }

    /// Whether the link is up.
    pub(crate) fn is_up(&self, link: LinkNo) -> bool
        requires { link.0 < length self.now.wiring.ends }
        ensures { result ≡ is_up self.now.world.up link.0 }
    {
        self.up[usize::from(link.0)]
    }

    /// How many adverts fly.
    pub(crate) fn pending(&self) -> u64
        ensures { result ≡ length self.now.world.flying }
    {
        self.queue.len()
    }

    /// The direction of the advert that was sent first of all that fly.
    pub(crate) fn first(&self) -> Option<(LinkNo, Dir)>
        ensures { result ≡ option_map way_of (slice_get self.now.world.flying 0) }
    {
        self.queue.first()
    }

    /// Whether a node takes the link for up: its adverts of both ends list it.
    pub(crate) fn knows(&self, node: NodeNo, link: LinkNo) -> bool
        requires node { node.0 < length self.now.wiring.loopbacks }
        requires link { link.0 < length self.now.wiring.ends }
        ensures { result ≡ is_flooded self.now.wiring self.now.world node.0 link.0 }
    {
        self.laws();
        let ends = self.links.ends()[usize::from(link.0)];
        let database = &self.kept[usize::from(node.0)];
        database.lists(ends.a, link) && database.lists(ends.b, link)
    }

    /// Takes what was sent first of what flies in a direction.
    pub(crate) fn take(&mut self, link: LinkNo, dir: Dir) -> Option<Sent>
        ensures value { result ≡ first_on link.0 dir self.old.world.flying }
        ensures left { self.new ≡ record self.old { world = record self.old.world { flying = without_first link.0 dir self.old.world.flying } } }
    {
        self.queue.take(link, dir)
    }

    /// The receiver of a direction takes an advert in that came over it: it keeps it and sends it on if it is news, else passes
    /// it over. An `Err` means out of memory, after some sends.
    pub(crate) fn take_in(
        &mut self,
        link: LinkNo,
        dir: Dir,
        advert: Advert,
    ) -> Result<(), AllocError>
        requires link { link.0 < length self.old.wiring.ends }
        requires origin { advert.origin < length self.old.wiring.loopbacks }
        requires room { self.old.made < 2 ^ 62 }
        ensures world { OnOk result (self.new.world ≡ taken_in self.old.wiring self.old.world link.0 (receiver self.old.wiring link.0 dir) advert) }
        ensures made { OnOk result (self.new.made ≤ self.old.made + 1024) }
        ensures wiring { self.new.wiring ≡ self.old.wiring }
    {
        self.laws();
        let node = self.links.receiver(link, dir);
        let at = usize::from(node.0);
        if self.kept[at].is_news(&advert) {
            send_on(&mut self.queue, &self.links, &self.up, node, link, &advert)?;
            self.kept[at].keep(advert);
        }
        Ok(())
    }

    /// The link is so from now on, and what flew on one that goes down is gone.
    fn turn(&mut self, link: LinkNo, up: bool)
        requires { link.0 < length self.old.wiring.ends }
        ensures { self.new ≡ record self.old { world = turned self.old.world link.0 up } }
    {
        self.up[usize::from(link.0)] = up;
        if !up {
            self.queue.drop_link(link);
        }
    }

    /// A node's own advert of its present links.
    fn renewal(&self, alloc: Global, node: NodeNo) -> Result<Advert, AllocError>
        requires node { node.0 < length self.now.wiring.loopbacks }
        requires fits { age (has self.now.world node.0 node.0) < 2 ^ 32 }
        ensures { IfOk result (λ advert. advert ≡ renewal self.now.wiring self.now.world node.0) }
    {
        self.laws();
        let number = self.kept[usize::from(node.0)].age(node);
        let links = up_at(alloc, &self.links, &self.up, node)?;
        Advert::new(alloc, node, number, links)
    }

    /// A node keeps an advert. An `Err` changes nothing.
    fn keep(&mut self, node: NodeNo, advert: &Advert) -> Result<(), AllocError>
        requires node { node.0 < length self.old.wiring.loopbacks }
        requires origin { advert.now.origin < length self.old.wiring.loopbacks }
        ensures ok { OnOk result (self.new ≡ record self.old { world = keep self.old.world node.0 advert.now }) }
        ensures err { OnErr result (self.new ≡ self.old) }
    {
        self.laws();
        let copy = advert.copy()?;
        self.kept[usize::from(node.0)].keep(copy);
        Ok(())
    }

    /// An end of a link that changed sends what it has to: all over the link if it came up, and its own new advert over its
    /// other links that are up. An `Err` means out of memory, after some sends.
    fn send(&mut self, link: LinkNo, up: bool, node: NodeNo, own: &Advert) -> Result<(), AllocError>
        requires link { link.0 < length self.old.wiring.ends }
        requires node { node.0 < length self.old.wiring.loopbacks }
        requires room { self.old.made < 2 ^ 62 }
        ensures sent { OnOk result (self.new.world ≡ record self.old.world { flying = self.old.world.flying ++ sends self.old.wiring self.old.world link.0 up node.0 own.now }) }
        ensures made { OnOk result (self.new.made ≤ self.old.made + 1280) }
        ensures wiring { self.new.wiring ≡ self.old.wiring }
    {
        self.laws();
        if up {
            let database = &self.kept[usize::from(node.0)];
            send_all(&mut self.queue, &self.links, node, link, database)?;
        }
        send_on(&mut self.queue, &self.links, &self.up, node, link, own)
    }

    /// The link comes up or goes down: both ends renew their own adverts, and send what they have to. An `Err` means out of
    /// memory, after some of it.
    pub(crate) fn change(&mut self, alloc: Global, link: LinkNo, up: bool) -> Result<(), AllocError>
        requires link { link.0 < length self.old.wiring.ends }
        requires fits { (node : ℕ) → node < length self.old.wiring.loopbacks → age (has self.old.world node node) < 2 ^ 32 }
        requires room { self.old.made < 2 ^ 61 }
        ensures world { OnOk result (self.new.world ≡ changed self.old.wiring self.old.world link.0 up) }
        ensures made { OnOk result (self.new.made ≤ self.old.made + 2560) }
        ensures wiring { self.new.wiring ≡ self.old.wiring }
    {
        self.turn(link, up);
        let a = self.links.receiver(link, Dir::Back);
        let b = self.links.receiver(link, Dir::Forth);
        let own_a = self.renewal(alloc, a)?;
        let own_b = self.renewal(alloc, b)?;
        self.keep(a, &own_a)?;
        self.keep(b, &own_b)?;
        self.send(link, up, a, &own_a)?;
        self.send(link, up, b, &own_b)
    }
}
