//! What is kept, and the clock.
ghost use Rattle.std.specs.Prelude.{◌≡◌, ◌≤◌, ◌<◌, ◌^◌, ℕ, List, [], true, false, Err, IfOk, IfSome, OnOk, OnErr, IsErr, IsErrOf};
ghost use Rattle.std.specs.List.{All};
ghost use Rattle.mn_ledger.specs.Prelude.{fits, refusal, with_packet};
ghost use Rattle.mn_topo.specs.declared.steps.Step.TheVariants as step;
ghost use Rattle.mn_ledger.specs.declared.refused.Refused.TheVariants as why;
ghost use Rattle.mn_net.specs.Prelude.{StandsFor, but_spare, HasRoom, LabelsMean, Answers, Refuses, IsLonger, HasFailed, Leaves, MayBeDone, IsDone, is_of_frames, TakesOne, TakesRoom};

use crate::first::refusal;
use crate::parts::Parts;
use crate::turns::{LinkTurn, RouteTurn};
use mn_ledger::Refused;
use mn_net_tally::Tally;
use mn_routing::Routes;
use mn_topo::{JournalEntry, Step, Topology};
use mn_transit::Transit;
use mn_transport::Transport;
use std::alloc::{AllocError, Global};
use std::marker::Model;

/// The numbers of the items that a step made: from the first on, up to the end.
#[derive(Clone, Copy, Debug, PartialEq, Eq)]
pub struct Done {
    pub first: u64,
    pub end: u64,
}

/// All nodes, sessions, items in flight and packets.
pub struct Net {
    pub(crate) alloc: Global,
    pub(crate) topology: Topology,
    pub(crate) journal: Vec<JournalEntry>,
    pub(crate) tick: u64,
    pub(crate) made: u64,
    /// It has run out of memory, and its parts may not fit together any more.
    pub(crate) failed: bool,
    pub(crate) transport: Transport,
    pub(crate) routes: Routes,
    pub(crate) transit: Transit,
    pub(crate) tally: Tally,
}

impl Model for Net {
    ghost use Rattle.mn_net_laws.specs.Now.{NetNow, WorksAsNet};

    ghost Value = { NetNow };

    ghost use Rattle.mn_net.specs.Inside.{net_in};

    ghost view = { net_in };

    ghost invariant = { λ a. WorksAsNet (net_in a) };
}

impl Drop for Net {
    fn drop(self) {
        let Net {
            alloc: _,
            topology: _,
            journal: _,
            tick: _,
            made: _,
            failed: _,
            transport: _,
            routes: _,
            transit: _,
            tally: _,
        } = self;
    }
}

impl Net {
    /// The start: every link and session is down, and nothing flies.
    pub fn new(alloc: Global, topology: Topology) -> Result<Net, AllocError>
        ensures stands { IfOk result (λ net. StandsFor net []) }
        ensures labels { IfOk result (λ net. LabelsMean net []) }
        ensures topology { IfOk result (λ net. net.topology ≡ topology) }
        ensures journal { IfOk result (λ net. net.journal ≡ []) }
        ensures tick { IfOk result (λ net. net.tick ≡ 0) }
        ensures made { IfOk result (λ net. net.made ≡ 0) }
    {
        let transport = Transport::new(alloc, &topology)?;
        let routes = Routes::new(alloc, &topology)?;
        let transit = Transit::new(alloc, &topology)?;
        let tally = Tally::new(alloc, &topology)?;
        Ok(Net {
            alloc,
            topology,
            journal: Vec::new(alloc),
            tick: 0,
            made: 0,
            failed: false,
            transport,
            routes,
            transit,
            tally,
        })
    }

    /// Its topology.
    pub fn topology(&self) -> &Topology
        ensures { result.now ≡ self.now.topology }
    {
        &self.topology
    }

    /// The steps that were done.
    pub fn journal(&self) -> &[JournalEntry]
        ensures { result.now ≡ self.now.journal }
    {
        &self.journal
    }

    /// The clock.
    pub fn tick(&self) -> u64
        ensures { result ≡ self.now.tick }
    {
        self.tick
    }

    /// The clock goes on to a tick. Where that is later, no frame in flight is due before it.
    pub fn advance(&mut self, tick: u64)
        requires later { self.old.tick ≤ tick }
        requires due { self.old.failed ≡ false → self.old.tick < tick → All (λ item. tick ≤ item.due) self.old.moving.flying }
        requires within { tick ≤ 2 ^ 62 }
        ensures stands { (inputs : List (List ℕ)) → StandsFor self.old inputs → StandsFor self.new inputs }
        ensures set { self.new ≡ record self.old { tick = tick } }
    {
        self.tick = tick;
    }

    /// Makes room for so many more steps that carry or lose a frame: as long as there is room, none of them wants memory. Nothing
    /// else changes. After running out of memory in a step there is none.
    pub fn reserve(&mut self, more: u32) -> Result<(), AllocError>
        ensures room { OnOk result (HasRoom self.new more) }
        ensures kept { self.new ≡ but_spare self.old self.new.spare self.new.tally.spare }
        ensures no_less { (less : ℕ) → HasRoom self.old less → HasRoom self.new less }
        ensures stands { (inputs : List (List ℕ)) → StandsFor self.old inputs → StandsFor self.new inputs }
        ensures for_good { self.old.failed ≡ true → (IsErr result) × (self.new ≡ self.old) }
    {
        self.topology.laws();
        if self.failed {
            return Err(AllocError);
        }
        self.journal.reserve(more as usize)?;
        self.tally.reserve(more)
    }

    /// Does a step, or refuses it by the first cause that holds. Only an injection looks at the packet.
    ///
    /// After running out of memory the journal, verdicts and paths are as before, and each later step answers it too.
    pub fn step(&mut self, step: Step, packet: &[u8]) -> Result<Done, Refused>
        requires fits { fits self.old.topology step ≡ true }
        ensures answer { (inputs : List (List ℕ)) → StandsFor self.old inputs → Answers (refusal self.old.topology self.old.journal inputs step packet.now) result }
        // What refuses the step is answered without memory.
        ensures refused { self.old.failed ≡ false → (inputs : List (List ℕ)) → StandsFor self.old inputs →
            IfSome (refusal self.old.topology self.old.journal inputs step packet.now) (λ cause. result ≡ Err cause) }
        ensures longer { OnOk result (IsLonger self.old self.new step) }
        ensures stands { OnOk result ((inputs : List (List ℕ)) → StandsFor self.old inputs → StandsFor self.new (with_packet step packet.now inputs)) }
        ensures labels { OnOk result ((inputs : List (List ℕ)) → StandsFor self.new inputs → LabelsMean self.new inputs) }
        ensures first { IfOk result (λ done. done.first ≡ self.old.made) }
        ensures end { IfOk result (λ done. done.end ≡ self.new.made) }
        ensures left { self.old.failed ≡ false → Leaves self.old self.new result }
        ensures for_good { self.old.failed ≡ true → (IsErrOf result why.NoMemory) × (self.new ≡ self.old) }
        // A step that carries or loses a frame wants no memory where there is room.
        ensures room { is_of_frames step ≡ true → TakesOne self.old self.new result }
    {
        if self.failed {
            return Err(Refused::NoMemory);
        }
        self.refusal(&step, packet)?;
        let first = self.made;
        let Ok(()) = self.perform(step, packet) else {
            return Err(Refused::NoMemory);
        };
        let end = self.made;
        Ok(Done { first, end })
    }

    /// A step that nothing refuses.
    pub(crate) fn perform(&mut self, step: Step, packet: &[u8]) -> Result<(), AllocError>
        requires may { MayBeDone self.old step packet.now }
        ensures done { OnOk result (IsDone self.old self.new step packet.now) }
        ensures failed { OnErr result (HasFailed self.old self.new) }
        ensures room { is_of_frames step ≡ true → TakesRoom self.old self.new result }
    {
        match step {
            Step::LinkUp(link) => self.turn_link(LinkTurn::Up(link)),
            Step::LinkDown(link) => self.link_down(link),
            Step::Learn(node, link) => self.turn_link(LinkTurn::Learn(node, link)),
            Step::LdpAdmin(link, on) => self.turn_link(LinkTurn::LdpAdmin(link, on)),
            Step::HearLdp(link, dir) => self.turn_link(LinkTurn::HearLdp(link, dir)),
            Step::BgpUp(a, b) => self.turn_route(RouteTurn::BgpUp(a, b)),
            Step::BgpDown(a, b) => self.turn_route(RouteTurn::BgpDown(a, b)),
            Step::HearBgp(a, b) => self.turn_route(RouteTurn::HearBgp(a, b)),
            Step::AddRoute(site, prefix) => self.turn_route(RouteTurn::AddRoute(site, prefix)),
            Step::DelRoute(site, prefix) => self.turn_route(RouteTurn::DelRoute(site, prefix)),
            Step::Import(vrf, on, target) => self.turn_route(RouteTurn::Import(vrf, on, target)),
            Step::Export(vrf, on, target) => self.turn_route(RouteTurn::Export(vrf, on, target)),
            Step::Attach(site) => self.attach(site),
            Step::Detach(site) => self.detach(site),
            Step::Inject(site, number) => self.inject(site, number, packet),
            Step::Carry(link, dir, place) => self.carry(link, dir, place),
            Step::Lose(link, dir, place) => self.lose(link, dir, place),
            Step::Tick(ticks) => self.elapse(ticks),
        }
    }

    /// Why a step is refused, by the first cause that holds.
    pub(crate) fn refusal(&self, step: &Step, packet: &[u8]) -> Result<(), Refused>
        requires works { self.now.failed ≡ false }
        requires fits { fits self.now.topology step.now ≡ true }
        ensures exact { (inputs : List (List ℕ)) → StandsFor self.now inputs → Refuses (refusal self.now.topology self.now.journal inputs step.now packet.now) result }
    {
        let parts = Parts {
            topology: &self.topology,
            transport: &self.transport,
            routes: &self.routes,
            transit: &self.transit,
            tally: &self.tally,
        };
        let cause = refusal(parts, self.journal.len(), step, packet);
        match cause {
            Some(why) => Err(why),
            None => Ok(()),
        }
    }
}
