//! What is kept, and what is read of it.
ghost use Rattle.std.specs.Prelude.{◌≡◌, ◌<◌, ◌+◌, ℕ, List, [], length, slice_get, slice_index_or, option_map, None};
ghost use Rattle.mn_ledger.specs.Prelude.{Network, held_at, edge_of, best};
ghost use Rattle.mn_topo.specs.declared.steps.Step.{Step as StepOf};
ghost use Rattle.mn_reflect.specs.Prelude.{Spoken, world_of, labels_of, word_bytes, IsReflect, first_hearing, routes_of, held, IsJoined, as_held, IsHeldAt};
ghost use Rattle.mn_reflect.specs.Course.{IsRun};
ghost use Rattle.mn_reflect.specs.Shape.{IsShaped};

use mn_base::{NodeNo, VrfNo};
use mn_bgp_session::BgpSession;
use mn_mail::{Letter, Mail};
use mn_offers::Offers;
use mn_pe::Pe;
use mn_prefix::Prefix;
use mn_reflect_telling::Distinguishers;
use mn_topo::{Step, Topology};
use mn_vrf::Source;
use std::alloc::Global;
use std::marker::Model;

/// The edges and reflectors of a network, their sessions, and the messages between them.
#[derive(Drop)]
pub struct Reflect<'t> {
    pub(crate) alloc: Global,
    pub(crate) topology: &'t Topology,
    /// By address, the least first.
    pub(crate) reflectors: Vec<NodeNo>,
    pub(crate) vrfs: Distinguishers,
    /// By node, none of a node that is no edge.
    pub(crate) edges: Vec<Option<Pe>>,
    /// By node and peer, none where no session lives.
    pub(crate) sessions: Vec<Vec<Option<BgpSession>>>,
    /// By node and peer, what was received.
    pub(crate) heard: Vec<Vec<Offers>>,
    /// By node, how many attachments its sites have had.
    pub(crate) attachments: Vec<u32>,
    /// How many routes there are over sites.
    pub(crate) statics: u32,
    pub(crate) mail: Mail,
    /// How many steps were done.
    pub(crate) done: u64,
    /// It has run out of memory, and its parts may not fit together any more.
    pub(crate) failed: bool,
}

impl<'t> Model for Reflect<'t> {
    ghost use Rattle.std.specs.Prelude.{map};
    ghost use Rattle.mn_base.specs.declared.numbers.NodeNo.{NodeNo as NodeNumber};
    ghost use Rattle.mn_reflect_world_laws.specs.Now.{ReflectNow};
    ghost use Rattle.mn_reflect.specs.Shape.{IsWhole};

    ghost Value = { ReflectNow };

    ghost view = { λ r. record {
      topology = r.topology.now;
      reflectors = map (λ (node : NodeNumber). node.0) r.reflectors.items;
      edges = r.edges.items;
      sessions = map (λ row. row.items) r.sessions.items;
      heard = map (λ row. row.items) r.heard.items;
      attachments = r.attachments.items;
      statics = r.statics;
      mail = r.mail;
      done = r.done;
      failed = r.failed;
    } };

    ghost invariant = { λ r. IsWhole r.vrfs (record {
      topology = r.topology.now;
      reflectors = map (λ (node : NodeNumber). node.0) r.reflectors.items;
      edges = r.edges.items;
      sessions = map (λ row. row.items) r.sessions.items;
      heard = map (λ row. row.items) r.heard.items;
      attachments = r.attachments.items;
      statics = r.statics;
      mail = r.mail;
      done = r.done;
      failed = r.failed;
    }) };
}

/// The hearing of a letter.
fn hearing_of(letter: &Letter) -> Step
    ensures { result ≡ StepOf.HearBgp (record { 0 = letter.now.from }) (record { 0 = letter.now.to }) }
{
    Step::HearBgp(letter.from(), letter.to())
}

impl<'t> Reflect<'t> {
    /// The hearing of the message that was sent first of all in flight. None where none flies.
    pub fn first(&self) -> Option<Step>
        ensures { (topology : Network) (reflectors : List ℕ) (steps : List StepOf) → IsReflect topology reflectors steps self.now →
            result ≡ first_hearing (world_of topology reflectors steps).flying }
    {
        match self.mail.first() {
            Some(letter) => Some(hearing_of(letter)),
            None => None,
        }
    }

    /// The bytes of that message (RFC 4271, section 4). None where none flies.
    pub fn message(&self) -> Option<&[u8]>
        ensures { (topology : Network) (reflectors : List ℕ) (steps : List StepOf) → IsReflect topology reflectors steps self.now →
            option_map (λ bytes. bytes.now) result
            ≡ option_map (λ (spoken : Spoken). word_bytes topology reflectors (labels_of topology steps) spoken.from spoken.word)
            (slice_get (world_of topology reflectors steps).flying 0) }
    {
        match self.mail.first() {
            Some(letter) => Some(letter.bytes()),
            None => None,
        }
    }

    /// How many messages are in flight.
    pub fn pending(&self) -> u64
        ensures { (topology : Network) (reflectors : List ℕ) (steps : List StepOf) → IsReflect topology reflectors steps self.now →
            result ≡ length (world_of topology reflectors steps).flying }
    {
        self.mail.len()
    }

    /// How many steps were done.
    pub fn done(&self) -> u64
        ensures { result ≡ self.now.done }
    {
        self.done
    }

    /// The best route that a VRF holds for an address, with its prefix (RFC 1812, section 5.2.4.3). None where no held prefix
    /// contains it. Once no message flies, each edge has a session with a reflector and each two reflectors have one, it is the best
    /// of those that a full mesh of sessions gives the VRF.
    pub fn lookup(&self, vrf: VrfNo, address: u32) -> Option<(Prefix, Source)>
        requires { vrf.0 < length self.now.topology.vrfs }
        ensures told { (topology : Network) (reflectors : List ℕ) (steps : List StepOf) → IsRun topology reflectors steps self.now →
            result ≡ option_map (as_held (labels_of topology steps))
            (best (held topology reflectors (world_of topology reflectors steps) (edge_of topology vrf.0) vrf.0) address) }
        ensures settled { (topology : Network) (reflectors : List ℕ) (steps : List StepOf) → IsRun topology reflectors steps self.now →
            (world_of topology reflectors steps).flying ≡ [] → IsJoined topology reflectors (world_of topology reflectors steps) →
            result ≡ option_map (as_held (labels_of topology steps))
            (best (routes_of topology (world_of topology reflectors steps).config (edge_of topology vrf.0) vrf.0) address) }
    {
        match self.edge_of(vrf) {
            Some(pe) => pe.lookup(vrf, address),
            None => None,
        }
    }

    /// The prefix at a place, from 0, among those that a VRF holds, with the best of its routes; prefixes go by address and then by
    /// length. None where no more are held.
    pub fn held(&self, vrf: VrfNo, place: u32) -> Option<(Prefix, Source)>
        requires { vrf.0 < length self.now.topology.vrfs }
        ensures told { (topology : Network) (reflectors : List ℕ) (steps : List StepOf) → IsRun topology reflectors steps self.now →
            result ≡ option_map (as_held (labels_of topology steps))
            (held_at (held topology reflectors (world_of topology reflectors steps) (edge_of topology vrf.0) vrf.0) place) }
        ensures settled { (topology : Network) (reflectors : List ℕ) (steps : List StepOf) → IsRun topology reflectors steps self.now →
            (world_of topology reflectors steps).flying ≡ [] → IsJoined topology reflectors (world_of topology reflectors steps) →
            result ≡ option_map (as_held (labels_of topology steps))
            (held_at (routes_of topology (world_of topology reflectors steps).config (edge_of topology vrf.0) vrf.0) place) }
    {
        match self.edge_of(vrf) {
            Some(pe) => pe.held(vrf, place),
            None => None,
        }
    }

    /// The held prefix after a held one of the VRF, with the best of its routes. It takes less time than a place far behind.
    pub fn held_after(&self, vrf: VrfNo, last: Prefix) -> Option<(Prefix, Source)>
        requires { vrf.0 < length self.now.topology.vrfs }
        ensures told { (topology : Network) (reflectors : List ℕ) (steps : List StepOf) (place : ℕ) → IsRun topology reflectors steps self.now →
            IsHeldAt last (option_map (as_held (labels_of topology steps))
            (held_at (held topology reflectors (world_of topology reflectors steps) (edge_of topology vrf.0) vrf.0) place)) →
            result ≡ option_map (as_held (labels_of topology steps))
            (held_at (held topology reflectors (world_of topology reflectors steps) (edge_of topology vrf.0) vrf.0) (place + 1)) }
    {
        match self.edge_of(vrf) {
            Some(pe) => pe.held_after(vrf, last),
            None => None,
        }
    }

    /// There is a part for each node.
    pub(crate) fn shape(&self)
        ensures { IsShaped self.now }
    {
        let _ = &self.mail;
    }

    /// The edge at a node, none where the node is no edge.
    pub(crate) fn edge_at(&self, node: NodeNo) -> Option<&Pe>
        requires { node.0 < length self.now.topology.loopbacks }
        ensures { option_map (λ pe. pe.now) result ≡ slice_index_or self.now.edges node.0 None }
    {
        match &self.edges[usize::from(node.0)] {
            None => None,
            Some(pe) => Some(pe),
        }
    }

    /// The edge of a VRF.
    pub(crate) fn edge_of(&self, vrf: VrfNo) -> Option<&Pe>
        requires { vrf.0 < length self.now.topology.vrfs }
        ensures { option_map (λ pe. pe.now) result ≡ slice_index_or self.now.edges (edge_of self.now.topology vrf.0) None }
    {
        self.edge_at(self.topology.edge_of(vrf))
    }
}
