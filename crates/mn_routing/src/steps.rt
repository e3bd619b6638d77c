//! One call for each step of the routes.
ghost use Rattle.std.specs.Prelude.{◌≡◌, ◌<◌, ◌≤◌, ◌^◌, true, false, IfOk, OnErr, IsErr};
ghost use Rattle.std.specs.List.{All};
ghost use Rattle.mn_topo.specs.declared.steps.Step.TheVariants as step;
ghost use Rattle.mn_routing_laws.specs.Steps.{MayDo, Did, MayGive, DidAttach};

use crate::routes::Routes;
use mn_base::{NodeNo, Rt, SiteNo, VrfNo};
use mn_flight::Clock;
use mn_prefix::Prefix;
use mn_topo::Topology;
use std::alloc::AllocError;

impl Routes {
    /// The session of two edges opens, and each sends OPEN to the other.
    ///
    /// It answers how many messages that made, of which the first has the clock's number. After running out of memory nothing
    /// is promised of the routes.
    pub fn bgp_up(
        &mut self,
        topology: &Topology,
        a: NodeNo,
        b: NodeNo,
        clock: Clock,
    ) -> Result<u64, AllocError>
        requires tick { clock.tick ≤ 2 ^ 63 }
        requires numbers { clock.number ≤ 2 ^ 62 }
        requires messages { All (λ item. item.number < clock.number) self.old.messages }
        requires may { MayDo topology.now (step.BgpUp a b) self.old }
        ensures did { IfOk result (λ made. Did topology.now clock.tick clock.number (step.BgpUp a b) self.old self.new made) }
    {
        topology.laws();
        let next = self.open(topology, a, b, clock)?;
        Ok(next - clock.number)
    }

    /// It ends: nothing flies between them any more, and each forgets what it received from the other.
    ///
    /// It answers how many messages that made, of which the first has the clock's number. After running out of memory nothing
    /// is promised of the routes.
    pub fn bgp_down(
        &mut self,
        topology: &Topology,
        a: NodeNo,
        b: NodeNo,
        clock: Clock,
    ) -> Result<u64, AllocError>
        requires tick { clock.tick ≤ 2 ^ 63 }
        requires messages { All (λ item. item.number < clock.number) self.old.messages }
        requires may { MayDo topology.now (step.BgpDown a b) self.old }
        ensures did { IfOk result (λ made. Did topology.now clock.tick clock.number (step.BgpDown a b) self.old self.new made) }
    {
        topology.laws();
        self.end(topology, a, b)?;
        Ok(0)
    }

    /// The second edge receives the next message of the first. It is never refused.
    ///
    /// It answers how many messages that made, of which the first has the clock's number. After running out of memory nothing
    /// is promised of the routes.
    pub fn hear_bgp(
        &mut self,
        topology: &Topology,
        a: NodeNo,
        b: NodeNo,
        clock: Clock,
    ) -> Result<u64, AllocError>
        requires tick { clock.tick ≤ 2 ^ 63 }
        requires numbers { clock.number ≤ 2 ^ 62 }
        requires messages { All (λ item. item.number < clock.number) self.old.messages }
        requires may { MayDo topology.now (step.HearBgp a b) self.old }
        ensures did { IfOk result (λ made. Did topology.now clock.tick clock.number (step.HearBgp a b) self.old self.new made) }
    {
        topology.laws();
        let next = self.hear_next(topology, a, b, clock)?;
        Ok(next - clock.number)
    }

    /// A site's VRF has a prefix over the site, which its edge announces.
    ///
    /// It answers how many messages that made, of which the first has the clock's number. After running out of memory nothing
    /// is promised of the routes.
    #[tactic(auto, using(mn_routing_laws::proofs::Can::site_added, mn_routing_laws::proofs::Dids::did_add))]
    pub fn add_route(
        &mut self,
        topology: &Topology,
        site: SiteNo,
        prefix: Prefix,
        clock: Clock,
    ) -> Result<u64, AllocError>
        requires tick { clock.tick ≤ 2 ^ 63 }
        requires numbers { clock.number ≤ 2 ^ 62 }
        requires messages { All (λ item. item.number < clock.number) self.old.messages }
        requires may { MayDo topology.now (step.AddRoute site prefix) self.old }
        ensures did { IfOk result (λ made. Did topology.now clock.tick clock.number (step.AddRoute site prefix) self.old self.new made) }
    {
        topology.laws();
        let next = self.add_at(topology, site, prefix, clock)?;
        Ok(next - clock.number)
    }

    /// It has it no longer, and its edge withdraws it.
    ///
    /// It answers how many messages that made, of which the first has the clock's number. After running out of memory nothing
    /// is promised of the routes.
    #[tactic(auto, using(mn_routing_laws::proofs::Can::site_deleted, mn_routing_laws::proofs::Dids::did_del))]
    pub fn del_route(
        &mut self,
        topology: &Topology,
        site: SiteNo,
        prefix: Prefix,
        clock: Clock,
    ) -> Result<u64, AllocError>
        requires tick { clock.tick ≤ 2 ^ 63 }
        requires numbers { clock.number ≤ 2 ^ 62 }
        requires messages { All (λ item. item.number < clock.number) self.old.messages }
        requires may { MayDo topology.now (step.DelRoute site prefix) self.old }
        ensures did { IfOk result (λ made. Did topology.now clock.tick clock.number (step.DelRoute site prefix) self.old self.new made) }
    {
        topology.laws();
        let next = self.del_at(topology, site, prefix, clock)?;
        Ok(next - clock.number)
    }

    /// A VRF imports routes that have a target, or no longer does.
    ///
    /// It answers how many messages that made, of which the first has the clock's number. After running out of memory nothing
    /// is promised of the routes.
    pub fn import(
        &mut self,
        topology: &Topology,
        vrf: VrfNo,
        target: Rt,
        on: bool,
        clock: Clock,
    ) -> Result<u64, AllocError>
        requires tick { clock.tick ≤ 2 ^ 63 }
        requires numbers { clock.number ≤ 2 ^ 62 }
        requires messages { All (λ item. item.number < clock.number) self.old.messages }
        requires may { MayDo topology.now (step.Import vrf on target) self.old }
        ensures did { IfOk result (λ made. Did topology.now clock.tick clock.number (step.Import vrf on target) self.old self.new made) }
    {
        topology.laws();
        self.set_import(topology, vrf, target, on)?;
        Ok(0)
    }

    /// A VRF exports its routes with a target, or no longer does. Its edge announces what changes by that, or withdraws it where no target is left.
    ///
    /// It answers how many messages that made, of which the first has the clock's number. After running out of memory nothing
    /// is promised of the routes.
    #[tactic(auto, using(mn_routing_laws::proofs::Can::vrf_of_export, mn_routing_laws::proofs::Exporting::did_export))]
    pub fn export(
        &mut self,
        topology: &Topology,
        vrf: VrfNo,
        target: Rt,
        on: bool,
        clock: Clock,
    ) -> Result<u64, AllocError>
        requires tick { clock.tick ≤ 2 ^ 63 }
        requires numbers { clock.number ≤ 2 ^ 62 }
        requires messages { All (λ item. item.number < clock.number) self.old.messages }
        requires may { MayDo topology.now (step.Export vrf on target) self.old }
        ensures did { IfOk result (λ made. Did topology.now clock.tick clock.number (step.Export vrf on target) self.old self.new made) }
    {
        topology.laws();
        let next = self.set_export(topology, vrf, target, on, clock)?;
        Ok(next - clock.number)
    }

    /// A site is detached, and its edge withdraws the routes over it.
    ///
    /// It answers how many messages that made, of which the first has the clock's number. After running out of memory nothing
    /// is promised of the routes.
    pub fn detach(
        &mut self,
        topology: &Topology,
        site: SiteNo,
        clock: Clock,
    ) -> Result<u64, AllocError>
        requires tick { clock.tick ≤ 2 ^ 63 }
        requires numbers { clock.number ≤ 2 ^ 62 }
        requires messages { All (λ item. item.number < clock.number) self.old.messages }
        requires may { MayDo topology.now (step.Detach site) self.old }
        ensures did { IfOk result (λ made. Did topology.now clock.tick clock.number (step.Detach site) self.old self.new made) }
    {
        topology.laws();
        let next = self.detach_at(topology, site, clock)?;
        Ok(next - clock.number)
    }

    /// A site is attached anew with a label, which is the next one of its edge, and the edge announces the routes over it.
    ///
    /// It answers how many messages that made, of which the first has the clock's number. After running out of memory nothing
    /// is promised of the routes.
    #[tactic(auto, using(mn_routing_laws::proofs::Can::site_attached, mn_routing_laws::proofs::Dids::did_attach))]
    pub fn attach(
        &mut self,
        topology: &Topology,
        site: SiteNo,
        label: u32,
        clock: Clock,
    ) -> Result<u64, AllocError>
        requires tick { clock.tick ≤ 2 ^ 63 }
        requires numbers { clock.number ≤ 2 ^ 62 }
        requires messages { All (λ item. item.number < clock.number) self.old.messages }
        requires may { MayGive topology.now site label self.old }
        ensures did { IfOk result (λ made. DidAttach topology.now clock.tick clock.number site label self.old self.new made) }
    {
        topology.laws();
        let next = self.attach_at(topology, site, label, clock)?;
        Ok(next - clock.number)
    }
}
