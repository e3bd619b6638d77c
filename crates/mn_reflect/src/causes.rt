//! The causes for which a step is refused, one by one.
ghost use Rattle.std.specs.Prelude.{◌≡◌, ◌<◌, length, option_map, is_some, nat_le, unwrap_or, Some};
ghost use Rattle.mn_reflect.specs.Prelude.{most_targets, VrfState, agree, session_at, of_vrf, imports_it, exports_it, site_label, site_with};
ghost use Rattle.mn_topo.specs.declared.steps.Step.TheVariants as StepOf;
ghost use Rattle.mn_reflect.specs.Course.{bad_of};
ghost use Rattle.mn_reflect.specs.Causes.{IsOfPlaces, shown, is_so, has_nothing, of_static, has_all_targets, has_given_all, has_too_much, limit_seen, refusal_seen};

use crate::reflect::Reflect;
use crate::refusal::ReflectBad;
use mn_base::{
    MOST_IN_FLIGHT, MOST_LABELS, MOST_STATIC_ROUTES, MOST_TARGETS, NodeNo, Rt, SiteNo, VrfNo,
};
use mn_prefix::Prefix;
use mn_topo::Step;
use mn_vrf::Vrf;

/// It is as it is to be.
fn agree(on: bool, is: bool) -> bool
    ensures { result ≡ agree on is }
{
    if on { is } else { !is }
}

impl<'t> Reflect<'t> {
    /// A VRF, at its edge.
    fn vrf_at(&self, vrf: VrfNo) -> Option<&Vrf>
        requires { vrf.0 < length self.now.topology.vrfs }
        ensures { option_map (λ held. held.now.vrf) result ≡ of_vrf self.now.topology (shown self.now) vrf.0 Some }
    {
        let pe = self.edge_of(vrf)?;
        pe.vrf(vrf)
    }

    /// A VRF imports a target.
    fn imports(&self, vrf: VrfNo, target: Rt) -> bool
        requires { vrf.0 < length self.now.topology.vrfs }
        ensures { result ≡ imports_it self.now.topology (shown self.now) vrf.0 target }
    {
        match self.vrf_at(vrf) {
            Some(held) => held.imports().has(target),
            None => false,
        }
    }

    /// A VRF exports a target.
    fn exports(&self, vrf: VrfNo, target: Rt) -> bool
        requires { vrf.0 < length self.now.topology.vrfs }
        ensures { result ≡ exports_it self.now.topology (shown self.now) vrf.0 target }
    {
        match self.vrf_at(vrf) {
            Some(held) => held.exports().has(target),
            None => false,
        }
    }

    /// The site over which a VRF has a prefix.
    fn site_with(&self, vrf: VrfNo, prefix: Prefix) -> Option<SiteNo>
        requires { vrf.0 < length self.now.topology.vrfs }
        ensures { option_map (λ site. site.0) result ≡ site_with self.now.topology (shown self.now) vrf.0 prefix }
    {
        let held = self.vrf_at(vrf)?;
        match held.static_of(prefix) {
            Some(route) => Some(route.site()),
            None => None,
        }
    }

    /// A site is attached.
    fn is_attached(&self, site: SiteNo) -> bool
        requires { site.0 < length self.now.topology.sites }
        ensures { result ≡ is_some (site_label self.now.topology (shown self.now) site.0) }
    {
        match self.edge_at(self.topology.home_of(site)) {
            Some(pe) => pe.attached(site).is_some(),
            None => false,
        }
    }

    /// A session of two nodes lives.
    fn lives(&self, a: NodeNo, b: NodeNo) -> bool
        requires a { a.0 < length self.now.topology.loopbacks }
        requires b { b.0 < length self.now.topology.loopbacks }
        ensures { result ≡ is_some (session_at (shown self.now) a.0 b.0) }
    {
        self.sessions[usize::from(a.0)][usize::from(b.0)].is_some()
    }

    /// The session, target or attachment is already so.
    fn is_so(&self, step: &Step) -> bool
        requires { IsOfPlaces self.now.topology step.now }
        ensures { result ≡ is_so self.now step.now }
    {
        match *step {
            Step::BgpUp(a, b) => self.lives(a, b),
            Step::BgpDown(a, b) => !self.lives(a, b),
            Step::Import(vrf, on, target) => agree(on, self.imports(vrf, target)),
            Step::Export(vrf, on, target) => agree(on, self.exports(vrf, target)),
            Step::Attach(site) => self.is_attached(site),
            Step::Detach(site) => !self.is_attached(site),
            _ => false,
        }
    }

    /// No message flies from the one to the other.
    fn has_nothing(&self, step: &Step) -> bool
        requires { IsOfPlaces self.now.topology step.now }
        ensures { result ≡ has_nothing self.now step.now }
    {
        match *step {
            Step::HearBgp(a, b) => !self.mail.has(a, b),
            _ => false,
        }
    }

    /// A prefix that the VRF has, or one too many.
    fn of_added(&self, site: SiteNo, prefix: Prefix) -> Option<ReflectBad>
        requires { site.0 < length self.now.topology.sites }
        ensures { result ≡ option_map bad_of (of_static self.now (StepOf.AddRoute site prefix)) }
    {
        if let Some(site) = self.site_with(self.topology.vrf_of(site), prefix) {
            return Some(ReflectBad::PrefixTaken { site });
        }
        if self.statics >= MOST_STATIC_ROUTES {
            return Some(ReflectBad::RoutesFull);
        }
        None
    }

    /// A prefix that the VRF hasn't over the site.
    fn of_deleted(&self, site: SiteNo, prefix: Prefix) -> Option<ReflectBad>
        requires { site.0 < length self.now.topology.sites }
        ensures { result ≡ option_map bad_of (of_static self.now (StepOf.DelRoute site prefix)) }
    {
        if let Some(there) = self.site_with(self.topology.vrf_of(site), prefix) {
            if there.0 == site.0 {
                return None;
            }
        }
        Some(ReflectBad::NoRouteThere)
    }

    /// A prefix that the VRF has, or one too many; or one that it hasn't over the site.
    fn of_static(&self, step: &Step) -> Option<ReflectBad>
        requires { IsOfPlaces self.now.topology step.now }
        ensures { result ≡ option_map bad_of (of_static self.now step.now) }
    {
        match *step {
            Step::AddRoute(site, prefix) => self.of_added(site, prefix),
            Step::DelRoute(site, prefix) => self.of_deleted(site, prefix),
            _ => None,
        }
    }

    /// A VRF imports 16 targets.
    fn imports_all(&self, vrf: VrfNo) -> bool
        requires { vrf.0 < length self.now.topology.vrfs }
        ensures { result ≡ nat_le most_targets (unwrap_or (of_vrf self.now.topology (shown self.now) vrf.0 (λ (state : VrfState). Some (length state.imports))) 0) }
    {
        match self.vrf_at(vrf) {
            Some(held) => held.imports().as_slice().len() >= MOST_TARGETS,
            None => false,
        }
    }

    /// A VRF exports 16 targets.
    fn exports_all(&self, vrf: VrfNo) -> bool
        requires { vrf.0 < length self.now.topology.vrfs }
        ensures { result ≡ nat_le most_targets (unwrap_or (of_vrf self.now.topology (shown self.now) vrf.0 (λ (state : VrfState). Some (length state.exports))) 0) }
    {
        match self.vrf_at(vrf) {
            Some(held) => held.exports().as_slice().len() >= MOST_TARGETS,
            None => false,
        }
    }

    /// The set has 16 targets.
    fn has_all_targets(&self, step: &Step) -> bool
        requires { IsOfPlaces self.now.topology step.now }
        ensures { result ≡ has_all_targets self.now step.now }
    {
        match *step {
            Step::Import(vrf, on, _) => {
                if on {
                    return self.imports_all(vrf);
                }
                false
            }
            Step::Export(vrf, on, _) => {
                if on {
                    return self.exports_all(vrf);
                }
                false
            }
            _ => false,
        }
    }

    /// The site's edge has given all labels, with one for each other node.
    fn has_given_all(&self, step: &Step) -> bool
        requires { IsOfPlaces self.now.topology step.now }
        ensures { result ≡ has_given_all self.now step.now }
    {
        match *step {
            Step::Attach(site) => {
                let edge = self.topology.home_of(site);
                let others = self.topology.nodes().len() - 1;
                others.saturating_add(self.attachments[usize::from(edge.0)] as usize) >= MOST_LABELS
            }
            _ => false,
        }
    }

    /// As many messages fly as may, and the step takes none out of flight.
    fn has_too_much(&self, step: &Step) -> bool
        ensures { result ≡ has_too_much self.now step.now }
    {
        match *step {
            Step::HearBgp(_, _) => false,
            _ => self.mail.len() >= MOST_IN_FLIGHT,
        }
    }

    /// A cause behind the first three.
    fn limit(&self, step: &Step) -> Option<ReflectBad>
        requires { IsOfPlaces self.now.topology step.now }
        ensures { result ≡ option_map bad_of (limit_seen self.now step.now) }
    {
        if self.has_all_targets(step) {
            return Some(ReflectBad::TargetsFull);
        }
        if self.has_given_all(step) {
            return Some(ReflectBad::LabelsSpent);
        }
        if self.has_too_much(step) {
            return Some(ReflectBad::NetFull);
        }
        None
    }

    /// Why the step isn't done: the first cause that holds.
    pub(crate) fn refusal(&self, step: &Step) -> Option<ReflectBad>
        requires { IsOfPlaces self.now.topology step.now }
        ensures { result ≡ option_map bad_of (refusal_seen self.now step.now) }
    {
        if self.is_so(step) {
            return Some(ReflectBad::Unchanged);
        }
        if self.has_nothing(step) {
            return Some(ReflectBad::Empty);
        }
        match self.of_static(step) {
            Some(cause) => Some(cause),
            None => self.limit(step),
        }
    }
}
