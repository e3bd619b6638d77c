//! The steps that move packets, and the one that lets time go by.
ghost use Rattle.std.specs.Prelude.{[], OnOk, OnErr};
ghost use Rattle.mn_topo.specs.declared.steps.Step.TheVariants as step;
ghost use Rattle.mn_net.specs.Prelude.{MayBeDone, IsDone, HasFailed, TakesRoom};

use crate::doing::do_step;
use crate::entry::enter;
use crate::net::Net;
use mn_base::{LinkNo, SiteNo};
use mn_net_tally::count_frame;
use mn_topo::Step;
use mn_wiring::Dir;
use std::alloc::AllocError;

impl Net {
    /// A frame arrives.
    pub(crate) fn carry(&mut self, link: LinkNo, dir: Dir, place: u32) -> Result<(), AllocError>
        requires may { MayBeDone self.old (step.Carry link dir place) [] }
        ensures done { OnOk result (IsDone self.old self.new (step.Carry link dir place) []) }
        ensures failed { OnErr result (HasFailed self.old self.new) }
        ensures room { TakesRoom self.old self.new result }
    {
        do_step!(self, clock, Step::Carry(link, dir, place) => {
            self.tally.reserve(1)?;
            let node = self.topology.receiver(link, dir);
            let table = self.transport.node(node).table();
            let flies = self
                .transit
                .carry(&self.topology, table, link, dir, place, clock);
            self.transit.laws();
            count_frame(&mut self.tally, &self.topology, &self.transit, self.made);
            u64::from(flies)
        });
        Ok(())
    }

    /// A frame is lost.
    pub(crate) fn lose(&mut self, link: LinkNo, dir: Dir, place: u32) -> Result<(), AllocError>
        requires may { MayBeDone self.old (step.Lose link dir place) [] }
        ensures done { OnOk result (IsDone self.old self.new (step.Lose link dir place) []) }
        ensures failed { OnErr result (HasFailed self.old self.new) }
        ensures room { TakesRoom self.old self.new result }
    {
        do_step!(self, Step::Lose(link, dir, place) => {
            self.transit.lose(&self.topology, link, dir, place);
        });
        Ok(())
    }

    /// So many ticks go by: each frame that was sent on its link longer ago than the link's life ends.
    pub(crate) fn elapse(&mut self, ticks: u32) -> Result<(), AllocError>
        requires may { MayBeDone self.old (step.Tick ticks) [] }
        ensures done { OnOk result (IsDone self.old self.new (step.Tick ticks) []) }
        ensures failed { OnErr result (HasFailed self.old self.new) }
    {
        let later = self.tick + u64::from(ticks);
        do_step!(self, Step::Tick(ticks) => {
            self.transit.begin();
            self.transit.expire(&self.topology, later);
        });
        self.tick = later;
        Ok(())
    }

    /// A packet enters.
    pub(crate) fn inject(
        &mut self,
        site: SiteNo,
        number: u32,
        packet: &[u8],
    ) -> Result<(), AllocError>
        requires may { MayBeDone self.old (step.Inject site number) packet.now }
        ensures done { OnOk result (IsDone self.old self.new (step.Inject site number) packet.now) }
        ensures failed { OnErr result (HasFailed self.old self.new) }
    {
        let _flying = self.transit.flying_bytes();
        do_step!(self, clock, Step::Inject(site, number) => {
            self.tally.reserve(1)?;
            let entry = enter(&self.routes, &self.transport, &self.topology, site, packet)?;
            let node = self.topology.home_of(site);
            let flies = self
                .transit
                .inject(&self.topology, node, entry.entered, entry.outer, clock)?;
            self.transit.laws();
            count_frame(&mut self.tally, &self.topology, &self.transit, self.made);
            u64::from(flies)
        });
        Ok(())
    }
}
