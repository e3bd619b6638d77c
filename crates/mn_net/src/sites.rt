//! The steps that attach and detach sites.
ghost use Rattle.std.specs.Prelude.{[], OnOk, OnErr};
ghost use Rattle.mn_topo.specs.declared.steps.Step.TheVariants as step;
ghost use Rattle.mn_net.specs.Prelude.{MayBeDone, IsDone, HasFailed};

use crate::doing::do_step;
use crate::net::Net;
use mn_base::SiteNo;
use mn_topo::Step;
use std::alloc::AllocError;

impl Net {
    /// A site is attached anew: its edge's node gives a label, and the edge announces the routes over the site with it.
    pub(crate) fn attach(&mut self, site: SiteNo) -> Result<(), AllocError>
        requires may { MayBeDone self.old (step.Attach site) [] }
        ensures done { OnOk result (IsDone self.old self.new (step.Attach site) []) }
        ensures failed { OnErr result (HasFailed self.old self.new) }
    {
        do_step!(self, clock, Step::Attach(site) => {
            let Ok(label) = self.transport.attach(&self.topology, site) else {
                return Err(AllocError);
            };
            let more = self.routes.attach(&self.topology, site, label, clock)?;
            self.transit.begin();
            more
        });
        Ok(())
    }

    /// A site is detached: its label leads nowhere any more, and its edge withdraws the routes over it.
    pub(crate) fn detach(&mut self, site: SiteNo) -> Result<(), AllocError>
        requires may { MayBeDone self.old (step.Detach site) [] }
        ensures done { OnOk result (IsDone self.old self.new (step.Detach site) []) }
        ensures failed { OnErr result (HasFailed self.old self.new) }
    {
        do_step!(self, clock, Step::Detach(site) => {
            let more = self.routes.detach(&self.topology, site, clock)?;
            self.transport.detach(&self.topology, site);
            self.transit.begin();
            more
        });
        Ok(())
    }
}
