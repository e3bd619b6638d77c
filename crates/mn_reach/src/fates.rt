//! Which candidate is chosen, and what becomes of packets: where next hops resolve, they go by the first that is reached, if one is; else
//! by the first of which the edge knows.
ghost use Rattle.std.specs.Prelude.{◌≡◌, ◌<◌, ◌≤◌, ◌&&◌, [], All, length, map, filter, true, false, Some, None, IfOk, IfSome, OnOk, option_map};
ghost use Rattle.std.specs.List.{list_any};
ghost use Rattle.mn_topo.specs.Network.{Network};
ghost use Rattle.mn_ledger.specs.Held.{HeldRoute, first_of};
ghost use Rattle.mn_reach_laws.specs.Candidates.{is_told};
ghost use Rattle.mn_reach_laws.specs.Fates.{is_reached, ends_towards};
ghost use Rattle.mn_failure_laws.specs.Failures.{config_under, is_session_off};
ghost use Rattle.mn_failure_laws.specs.Fates.{fate_under};
ghost use Rattle.mn_reach.specs.Plans.{IsOf, IsPlaced, held_in, pair_at};
ghost use Rattle.mn_reach.specs.Reaching.{failure_of, is_between};
ghost use Rattle.mn_reach.specs.Verdicts.{fate_as, resolving};

use crate::plan::Candidate;
use crate::reach::Reach;
use crate::verdict::{Terms, Verdict};
use mn_base::NodeNo;
use mn_drops::Rule;
use mn_topo::Topology;
use mn_way_laws::a_label_path_is_the_configurations;
use std::alloc::AllocError;

impl Reach {
    /// Whether the session of two edges was ended, the lesser number first.
    fn has_ended(&self, least: NodeNo, most: NodeNo) -> bool
        ensures { result ≡ list_any (is_between least.0 most.0) self.now.ended }
    {
        self.ended
            .iter()
            .any(|session| session.0.0 == least.0 && session.1.0 == most.0)
    }

    /// Whether the session of two edges was ended.
    pub(crate) fn is_ended(&self, one: NodeNo, other: NodeNo) -> bool
        ensures { result ≡ is_session_off (failure_of self.now) one.0 other.0 }
    {
        if one.0 < other.0 {
            self.has_ended(one, other)
        } else {
            self.has_ended(other, one)
        }
    }

    /// Whether an edge knows of a candidate: it is its own, or one of an edge with which it has a session.
    fn is_told(&self, home: NodeNo, candidate: Candidate) -> bool
        requires sound { self.now.failed ≡ false }
        requires here { home.0 < self.now.plan.nodes }
        requires placed { IsPlaced self.now.plan.edges candidate }
        ensures { (topology : Network) → IsOf topology self.now.plan → result ≡ is_told (config_under topology (failure_of self.now)) home.0 (held_in candidate) }
    {
        let edge = candidate.route.edge;
        edge.0 == home.0
            || !self.is_ended(home, edge)
                && (!self.ends || self.ways.is_joined(home, candidate.place))
    }

    /// The first of the candidates of which the edge knows.
    fn first_told(&self, home: NodeNo, candidates: &[Candidate]) -> Option<Candidate>
        requires sound { self.now.failed ≡ false }
        requires here { home.0 < self.now.plan.nodes }
        requires placed { All (IsPlaced self.now.plan.edges) candidates.now }
        ensures first { (topology : Network) → IsOf topology self.now.plan → option_map held_in result
            ≡ first_of (filter (is_told (config_under topology (failure_of self.now)) home.0) (map held_in candidates.now)) }
        ensures placed { IfSome result (IsPlaced self.now.plan.edges) }
    {
        for candidate in candidates {
            if self.is_told(home, *candidate) {
                return Some(*candidate);
            }
        }
        None
    }

    /// Puts what becomes of packets that go by a candidate, if a label switched path leads to its edge, and answers whether one does.
    fn put_if_reached(
        &self,
        home: NodeNo,
        candidate: Candidate,
        ttl: u32,
        into: &mut Verdict,
    ) -> Result<bool, AllocError>
        requires sound { self.now.failed ≡ false }
        requires here { home.0 < self.now.plan.nodes }
        requires placed { IsPlaced self.now.plan.edges candidate }
        requires least { 2 ≤ ttl }
        requires most { ttl ≤ 255 }
        requires empty { into.old.path.items ≡ [] }
        ensures reached { (topology : Network) → IsOf topology self.now.plan →
            IfOk result (λ reached. reached ≡ is_reached topology (config_under topology (failure_of self.now)) home.0 (held_in candidate)) }
        ensures fate { (topology : Network) → IsOf topology self.now.plan → IfOk result (λ reached. reached ≡ true → fate_as into.new
            ≡ ends_towards topology (config_under topology (failure_of self.now)) home.0 ttl (Some (held_in candidate))) }
        ensures empty { IfOk result (λ reached. reached ≡ false → into.new.path.items ≡ []) }
    {
        a_label_path_is_the_configurations();
        self.ways.put_path(home, candidate.place, &mut into.path)?;
        if into.path.is_empty() {
            return Ok(false);
        }
        into.end_along(candidate.route.site, ttl);
        Ok(true)
    }

    /// Puts what becomes of packets that go by the first of these that is reached, and answers whether one is.
    fn put_first_reached(
        &self,
        home: NodeNo,
        candidates: &[Candidate],
        ttl: u32,
        into: &mut Verdict,
    ) -> Result<bool, AllocError>
        requires sound { self.now.failed ≡ false }
        requires here { home.0 < self.now.plan.nodes }
        requires placed { All (IsPlaced self.now.plan.edges) candidates.now }
        requires least { 2 ≤ ttl }
        requires most { ttl ≤ 255 }
        requires empty { into.old.path.items ≡ [] }
        ensures some { (topology : Network) → IsOf topology self.now.plan → IfOk result (λ found. found ≡ true → (route : HeldRoute) ×
            (first_of (filter (is_reached topology (config_under topology (failure_of self.now)) home.0)
            (filter (is_told (config_under topology (failure_of self.now)) home.0) (map held_in candidates.now))) ≡ Some route) ×
            (fate_as into.new ≡ ends_towards topology (config_under topology (failure_of self.now)) home.0 ttl (Some route))) }
        ensures none { (topology : Network) → IsOf topology self.now.plan → IfOk result (λ found. found ≡ false →
            first_of (filter (is_reached topology (config_under topology (failure_of self.now)) home.0)
            (filter (is_told (config_under topology (failure_of self.now)) home.0) (map held_in candidates.now))) ≡ None) }
        ensures empty { IfOk result (λ found. found ≡ false → into.new.path.items ≡ []) }
    {
        for candidate in candidates {
            if self.is_told(home, *candidate) {
                if self.put_if_reached(home, *candidate, ttl, into)? {
                    return Ok(true);
                }
            }
        }
        Ok(false)
    }

    /// What becomes of packets that go by a candidate.
    fn fate_by(
        &self,
        home: NodeNo,
        candidate: Candidate,
        ttl: u32,
        into: &mut Verdict,
    ) -> Result<(), AllocError>
        requires sound { self.now.failed ≡ false }
        requires here { home.0 < self.now.plan.nodes }
        requires placed { IsPlaced self.now.plan.edges candidate }
        requires least { 2 ≤ ttl }
        requires most { ttl ≤ 255 }
        requires empty { into.old.path.items ≡ [] }
        ensures { (topology : Network) → IsOf topology self.now.plan → OnOk result (fate_as into.new
            ≡ ends_towards topology (config_under topology (failure_of self.now)) home.0 ttl (Some (held_in candidate))) }
    {
        if self.put_if_reached(home, candidate, ttl, into)? {
            return Ok(());
        }
        into.fall(Rule::NoLsp, home)
    }

    /// Puts what becomes of packets that go by the first candidate of which the edge knows.
    fn put_told(
        &self,
        home: NodeNo,
        candidates: &[Candidate],
        ttl: u32,
        into: &mut Verdict,
    ) -> Result<(), AllocError>
        requires sound { self.now.failed ≡ false }
        requires here { home.0 < self.now.plan.nodes }
        requires placed { All (IsPlaced self.now.plan.edges) candidates.now }
        requires least { 2 ≤ ttl }
        requires most { ttl ≤ 255 }
        requires empty { into.old.path.items ≡ [] }
        ensures { (topology : Network) → IsOf topology self.now.plan → OnOk result (fate_as into.new
            ≡ ends_towards topology (config_under topology (failure_of self.now)) home.0 ttl
            (first_of (filter (is_told (config_under topology (failure_of self.now)) home.0) (map held_in candidates.now)))) }
    {
        match self.first_told(home, candidates) {
            Some(candidate) => self.fate_by(home, candidate, ttl, into),
            None => into.fall(Rule::NoRoute, home),
        }
    }

    /// What becomes of a pair's packets that are sent on these terms.
    pub fn fate(
        &self,
        topology: &Topology,
        pair: usize,
        terms: Terms,
        into: &mut Verdict,
    ) -> Result<(), AllocError>
        requires sound { self.now.failed ≡ false }
        requires of { IsOf topology.now self.now.plan }
        requires pair { pair < length self.now.plan.pairs }
        requires least { 2 ≤ terms.ttl }
        requires most { terms.ttl ≤ 255 }
        ensures { OnOk result (fate_as into.new ≡ fate_under (resolving topology.now terms.resolve) (failure_of self.now)
            (pair_at self.now.plan pair).site.0 terms.ttl (pair_at self.now.plan pair).address) }
    {
        let home = topology.home_of(self.pairs[pair].site);
        let candidates = self.prospects[pair].candidates.as_slice();
        into.path.clear();
        if !terms.resolve {
            return self.put_told(home, candidates, terms.ttl, into);
        }
        if self.put_first_reached(home, candidates, terms.ttl, into)? {
            return Ok(());
        }
        self.put_told(home, candidates, terms.ttl, into)
    }
}
