//! What is kept of the packets, and one call for each thing that may become of one.
ghost use Rattle.std.specs.Prelude.{◌≡◌, ◌≢◌, ◌<◌, ◌≤◌, ◌+◌, ◌*◌, ◌^◌, ◌∷◌, ◌++◌, [], ℕ, List, true, false, Some, None, length, slice_get, slice_set, IfOk, IfSome, IsSome, OnOk, OnErr};
ghost use Rattle.std.specs.List.{All};
ghost use Rattle.mn_ledger.specs.Prelude.{most_steps, Network, wiring_of, Step, no_packets, Packets, channel, packets_after, is_moving, World};
ghost use Rattle.mn_wiring.specs.Wiring.{link as link_of};
ghost use Rattle.mn_drops.specs.declared.drops.Rule.TheVariants as Rule;
ghost use Rattle.mn_transit.specs.Prelude.{IsFlight, on_channel, off_channel, without, Labelling, path_of, further};
ghost use Rattle.mn_ledger.specs.declared.verdict.Verdict.TheVariants as verdict;
ghost use Rattle.mn_transit.specs.Moving.{HoldsHops, MayFly};
ghost use Rattle.mn_transit.specs.Stands.{StandsFor};

use crate::flown::Flown;
use mn_base::{LinkNo, NodeNo, SiteNo};
use mn_drops::Rule;
use mn_flight::{Clock, Flight, Item};
use mn_flight_pool::PoolFlight;
use mn_ledger::Verdict;
use mn_paths::Paths;
use mn_stack::Frame;
use mn_topo::Topology;
use mn_wiring::{Dir, channel_of};
use std::alloc::{AllocError, Global};
use std::marker::Model;

/// The flight of the frames. Any `Flight` takes its place here.
type Frames = PoolFlight<Flown>;

/// What became of each packet, and the frames that fly.
///
/// Only `new` and `inject` take memory. Contracts see the verdicts, paths and deliveries, and the frames in flight with their
/// numbers and due ticks.
#[derive(Drop)]
pub struct Transit {
    pub(crate) frames: Frames,
    pub(crate) verdicts: Vec<Verdict>,
    pub(crate) paths: Paths,
    pub(crate) copies: u32,
    // What the last step delivered.
    pub(crate) delivered: Option<Flown>,
    // The bytes of the packets that fly.
    pub(crate) bytes: u64,
    // By node the link over which a packet went on from it last: the first one to be looked at for the next packet.
    pub(crate) ways: Vec<LinkNo>,
}

impl Model for Transit {
    ghost use Rattle.std.specs.Prelude.{option_map};
    ghost use Rattle.mn_transit.specs.Moving.{Moving, IsMoving};

    ghost Value = { Moving };

    ghost view = { λ t. record {
      verdicts = t.verdicts.items;
      paths = t.paths;
      copies = t.copies;
      delivered = option_map (λ flown. flown.frame.packet) t.delivered;
      flying = t.frames.items;
      spare = t.frames.spare;
      channels = t.frames.channels;
    } };

    ghost invariant = { λ t. IsMoving (record {
      verdicts = t.verdicts.items;
      paths = t.paths;
      copies = t.copies;
      delivered = option_map (λ flown. flown.frame.packet) t.delivered;
      flying = t.frames.items;
      spare = t.frames.spare;
      channels = t.frames.channels;
    }) t.bytes };
}

impl Transit {
    /// No packet, on the links of a topology.
    pub fn new(alloc: Global, topology: &Topology) -> Result<Transit, AllocError>
        ensures new { IfOk result (λ transit. transit ≡ record {
          verdicts = [];
          paths = [];
          copies = 0;
          delivered = None;
          flying = [];
          spare = transit.spare;
          channels = 2 * length topology.now.links;
        }) }
        ensures stands { IfOk result (λ transit. (given : Labelling) → StandsFor topology.now given transit no_packets) }
    {
        topology.laws();
        let links = topology.links().len() as u32;
        let frames = Frames::new(alloc, 2 * links)?;
        let ways = vec![in alloc; LinkNo(0); topology.nodes().len()]?;
        Ok(Transit {
            frames,
            verdicts: Vec::new(alloc),
            paths: Paths::new(alloc),
            copies: 0,
            delivered: None,
            bytes: 0,
            ways,
        })
    }

    /// A step begins, which has delivered nothing yet. One that moves no packet is done with this.
    pub fn begin(&mut self)
        ensures begun { self.new ≡ record self.old { delivered = None } }
        ensures still { (topology : Network) (given : Labelling) (world : World) (packets : Packets) (step : Step) (bytes : List ℕ) →
            is_moving step ≡ false → StandsFor topology given self.old packets →
            StandsFor topology given self.new (packets_after topology world packets step bytes) }
    {
        self.delivered = None;
    }

    /// Takes the frame at a place of a channel out of flight.
    pub(crate) fn take(&mut self, at: u32, place: u32) -> Option<Item<Flown>>
        ensures taken { result ≡ slice_get (on_channel at self.old.flying) place }
        ensures left { self.new ≡ record self.old { flying = without result self.old.flying; spare = self.new.spare } }
        ensures room { IsSome result → 0 < self.new.spare }
        ensures flight { IsFlight self.old.channels self.old.flying }
        ensures injected { IfSome result (λ item. item.item.packet < length self.new.verdicts) }
        ensures entry { IfSome result (λ item. 0 < length item.item.frame.entries) }
        ensures apart { IfSome result (λ item. All (λ other. other.item.packet ≢ item.item.packet) self.new.flying) }
        ensures hops { IfSome result (λ item. HoldsHops (path_of self.new.paths item.item.packet).room item.item.frame) }
        ensures paths { length self.new.paths ≡ length self.new.verdicts }
    {
        let Some(taken) = self.frames.take(at, place) else {
            return None;
        };
        self.bytes -= taken.item.frame.packet().len() as u64;
        Some(taken)
    }

    /// A packet that doesn't fly is at one node more.
    pub(crate) fn visit(&mut self, packet: u32, node: NodeNo)
        requires packet { packet < length self.old.paths }
        requires room { 0 < (path_of self.old.paths packet).room }
        requires apart { All (λ other. other.item.packet ≢ packet) self.old.flying }
        ensures { self.new ≡ record self.old { paths = slice_set self.old.paths packet (further (path_of self.old.paths packet) node) } }
    {
        self.paths.visit(packet, node);
    }

    /// What becomes of a packet.
    pub(crate) fn judge(&mut self, packet: u32, verdict: Verdict)
        requires { packet < length self.old.verdicts }
        ensures { self.new ≡ record self.old { verdicts = slice_set self.old.verdicts packet verdict } }
    {
        self.verdicts[packet as usize] = verdict;
    }

    /// The packet of a frame reaches a site with this TTL.
    pub(crate) fn deliver(&mut self, packet: u32, site: SiteNo, ttl: u8, frame: Frame)
        requires packet { packet < length self.old.verdicts }
        requires copies { self.old.copies + 1 < 2 ^ 32 }
        ensures { self.new ≡ record self.old {
          verdicts = slice_set self.old.verdicts packet (verdict.Delivered ttl site (self.old.copies + 1));
          copies = self.old.copies + 1;
          delivered = Some frame.packet;
        } }
    {
        self.copies += 1;
        let copy = self.copies;
        self.judge(packet, Verdict::Delivered { site, ttl, copy });
        self.delivered = Some(Flown { packet, frame });
    }

    /// A packet of which no frame flies comes to fly on a direction of a link, behind those that fly there.
    pub(crate) fn send(
        &mut self,
        topology: &Topology,
        link: LinkNo,
        dir: Dir,
        flown: Flown,
        clock: Clock,
    )
        requires link { link.0 < length topology.now.links }
        requires may { MayFly topology.now clock.tick clock.number flown self.old }
        ensures { self.new ≡ record self.old {
          flying = self.old.flying ++ record { channel = channel link.0 dir; due = clock.tick + (link_of (wiring_of topology.now) link.0).delay; number = clock.number; item = flown } ∷ [];
          spare = self.new.spare;
          verdicts = slice_set self.old.verdicts flown.packet (verdict.Flying link dir);
        } }
    {
        let due = clock.tick + u64::from(topology.links()[link.0 as usize].delay);
        let packet = flown.packet;
        let size = flown.frame.packet().len() as u64;
        let at = channel_of(link, dir);
        // There is room, so it can't fail.
        let _ = self.frames.push(at, due, clock.number, flown);
        self.bytes += size;
        self.judge(packet, Verdict::Flying { link, dir });
    }

    /// One more packet, at the node where it enters, with room for a frame that flies and for so many more nodes. Its verdict
    /// is replaced in the same step. It answers the packet's number.
    pub(crate) fn one_more(&mut self, node: NodeNo, room: u8) -> Result<u32, AllocError>
        requires { length self.old.verdicts < most_steps }
        ensures number { IfOk result (λ packet. packet ≡ length self.old.verdicts) }
        ensures more { OnOk result (self.new ≡ record self.old {
          verdicts = self.old.verdicts ++ verdict.Dropped Rule.Lost node ∷ [];
          paths = self.old.paths ++ record { nodes = node ∷ []; room = room } ∷ [];
          spare = self.new.spare;
        }) }
        ensures spare { OnOk result (0 < self.new.spare) }
        ensures apart { IfOk result (λ packet. All (λ other. other.item.packet ≢ packet) self.new.flying) }
        ensures room { IfOk result (λ packet. path_of self.new.paths packet ≡ record { nodes = node ∷ []; room = room }) }
        ensures unchanged { OnErr result (self.new ≡ record self.old { spare = self.new.spare }) }
    {
        self.frames.reserve(1)?;
        self.verdicts.reserve(1)?;
        self.paths.start(node, room)?;
        let packet = self.verdicts.len() as u32;
        let rule = Rule::Lost;
        self.verdicts.push_reserved(Verdict::Dropped { rule, node });
        Ok(packet)
    }
}
