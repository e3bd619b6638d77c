//! Pairs whose packets need nothing that failed.
ghost use Rattle.std.specs.Prelude.{ℕ, Bool, ◌≡◌, ◌<◌, ◌&&◌, length, not, true};
ghost use Rattle.std.specs.List.{list_all};
ghost use Rattle.mn_topo.specs.Homes.{home_of};
ghost use Rattle.mn_failure_laws.specs.Failures.{is_session_off};
ghost use Rattle.mn_failure_laws.specs.Fates.{fate_under};
ghost use Rattle.mn_reach.specs.Plans.{IsOf, pair_at};
ghost use Rattle.mn_reach.specs.Reaching.{failure_of, nothing_gone};
ghost use Rattle.mn_reach.specs.Spared.{is_whole, is_spared};
ghost use Rattle.mn_reach.specs.Verdicts.{resolving};

use crate::plan::Candidate;
use crate::reach::Reach;
use mn_base::{LinkNo, NodeNo, SiteNo};
use mn_topo::Topology;
use mn_way_laws::a_path_that_is_spared_stays;

/// Whether the switch of the link of this number is on.
fn is_on(switches: &[bool], link: usize) -> bool
    ensures { result ≡ is_up switches.now link }
{
    match switches.get(link) {
        Some(on) => *on,
        None => false,
    }
}

/// Whether the link of this number is up, with LDP.
pub(crate) fn is_whole(up: &[bool], ldp: &[bool], link: usize) -> bool
    ensures { result ≡ (is_up up.now link && is_up ldp.now link) }
{
    is_on(up, link) && is_on(ldp, link)
}

impl Reach {
    /// Whether the links are up, with LDP.
    fn are_whole(&self, links: &[LinkNo]) -> bool
        ensures { result ≡ list_all (λ l. is_whole self.now l.0) links.now }
    {
        links
            .iter()
            .all(|link| is_whole(&self.up, &self.ldp, usize::from(link.0)))
    }

    /// Whether no session of an edge with those of the candidates was ended: each is looked at.
    fn keeps_each(&self, home: NodeNo, candidates: &[Candidate]) -> bool
        ensures { result ≡ list_all (λ candidate. not (is_session_off (failure_of self.now) home.0 candidate.route.edge.0)) candidates.now }
    {
        candidates
            .iter()
            .all(|candidate| !self.is_ended(home, candidate.route.edge))
    }

    /// Whether no session of a site's edge with those of the candidates was ended. Mostly none was at all.
    fn keeps_sessions(&self, topology: &Topology, site: SiteNo, candidates: &[Candidate]) -> bool
        requires { site.0 < length topology.now.sites }
        ensures { result ≡ list_all (λ candidate. not (is_session_off (failure_of self.now) (home_of topology.now site.0) candidate.route.edge.0)) candidates.now }
    {
        self.ended.is_empty() || self.keeps_each(topology.home_of(site), candidates)
    }

    /// Whether nothing failed of what a pair's packets may need: on any terms they then fare as if nothing had failed at all.
    pub fn is_spared(&self, topology: &Topology, pair: usize) -> bool
        requires of { IsOf topology.now self.now.plan }
        requires pair { pair < length self.now.plan.pairs }
        ensures exact { result ≡ is_spared topology.now self.now pair }
        ensures stays { result ≡ true → (resolve : Bool) (ttl : ℕ) →
            fate_under (resolving topology.now resolve) (failure_of self.now) (pair_at self.now.plan pair).site.0 ttl (pair_at self.now.plan pair).address
            ≡ fate_under (resolving topology.now resolve) (nothing_gone self.now.ends) (pair_at self.now.plan pair).site.0 ttl
            (pair_at self.now.plan pair).address }
    {
        a_path_that_is_spared_stays();
        let prospect = &self.prospects[pair];
        self.are_whole(prospect.links.as_slice())
            && self.keeps_sessions(
                topology,
                self.pairs[pair].site,
                prospect.candidates.as_slice(),
            )
    }
}

ghost use Rattle.mn_wiring.specs.Wiring.{is_up};
