//! The steps of one edge, which has news then.
ghost use Rattle.std.specs.Prelude.{◌≡◌, ◌<◌, ◌≤◌, ◌^◌, None, Some, length, slice_get, IfOk, OnOk};
ghost use Rattle.std.specs.List.{All};
ghost use Rattle.mn_routing.specs.Prelude.{home_of, edge_of, VrfState, add_refused, del_refused, set_refused, vrf_of_site, after_attach, after_detach, found_in, exports_at, exports_over, export_of, working, news_in, HasEdge, AreSayable, Puts, AreNews, edge_at, with_edge, those_of, export_set, static_added, static_deleted, MaySetImport, SetsImport, MaySetExport, SetsExport, MayAdd, Adds, MayDel, Dels, MayAttach, Attaches, MayDetach, Detaches};

use crate::flying::tell;
use crate::routes::Routes;
use mn_base::{NodeNo, Rt, SiteNo, VrfNo};
use mn_edges::{News, steady_peers};
use mn_flight::Clock;
use mn_pe::Export;
use mn_prefix::Prefix;
use mn_topo::Topology;
use std::alloc::AllocError;

impl Routes {
    /// Tells an edge's peers of exports that come or go.
    fn tell_peers(
        &mut self,
        topology: &Topology,
        edge: NodeNo,
        exports: &[Export],
        comes: bool,
        clock: Clock,
    ) -> Result<u64, AllocError>
        requires has { HasEdge topology.now self.old edge.0 }
        requires edge { edge.0 < length topology.now.loopbacks }
        requires exports { AreSayable exports.now }
        requires tick { clock.tick ≤ 2 ^ 63 }
        requires numbers { clock.number ≤ 2 ^ 63 }
        requires number { All (λ item. item.number < clock.number) self.old.messages }
        ensures { IfOk result (λ next. Puts topology.now clock.tick clock.number (news_in topology.now self.old edge.0 comes exports.now) self.old self.new next) }
    {
        topology.laws();
        let peers = steady_peers(self.alloc, &self.sessions[usize::from(edge.0)])?;
        tell(
            &mut self.messages,
            self.alloc,
            topology,
            edge,
            &peers,
            exports,
            comes,
            clock,
        )
    }

    /// A VRF imports routes with a target, or doesn't. Its edge has no news.
    pub(crate) fn set_import(
        &mut self,
        topology: &Topology,
        vrf: VrfNo,
        target: Rt,
        on: bool,
    ) -> Result<(), AllocError>
        requires vrf { vrf.0 < length topology.now.vrfs }
        requires may { MaySetImport topology.now self.old vrf target on }
        ensures { OnOk result (SetsImport topology.now vrf target on self.old self.new) }
    {
        let edge = topology.edge_of(vrf);
        mn_edges::import(&mut self.edges, edge, vrf, target, on)
    }

    /// A VRF exports routes with a target, or doesn't. It answers what the edge is to advertise then: what the VRF exports now, or
    /// where that is nothing what it did.
    fn export_on_edge(
        &mut self,
        edge: NodeNo,
        vrf: VrfNo,
        target: Rt,
        on: bool,
    ) -> Result<News, AllocError>
        requires edge { edge.0 < length self.old.edges }
        requires there { slice_get self.old.edges edge.0 ≡ Some (Some (working (edge_at self.old edge.0))) }
        requires free { found_in vrf.0 (λ (state : VrfState). set_refused target on state.exports) (edge_at self.old edge.0).vrfs ≡ None }
        ensures now { OnOk result (self.new ≡ with_edge edge.0 (export_set (edge_at self.old edge.0) vrf target on) self.old) }
        ensures news { IfOk result (λ news. AreNews news.comes news.exports.items (exports_at (export_set (edge_at self.old edge.0) vrf target on) vrf.0) (exports_at (edge_at self.old edge.0) vrf.0)) }
    {
        mn_edges::export(&mut self.edges, edge, vrf, target, on)
    }

    /// A VRF exports routes with a target, or doesn't, and its edge advertises what changes.
    pub(crate) fn set_export(
        &mut self,
        topology: &Topology,
        vrf: VrfNo,
        target: Rt,
        on: bool,
        clock: Clock,
    ) -> Result<u64, AllocError>
        requires vrf { vrf.0 < length topology.now.vrfs }
        requires tick { clock.tick ≤ 2 ^ 63 }
        requires numbers { clock.number ≤ 2 ^ 63 }
        requires number { All (λ item. item.number < clock.number) self.old.messages }
        requires may { MaySetExport topology.now self.old vrf target on }
        ensures { IfOk result (λ next. SetsExport topology.now clock.tick clock.number vrf target on self.old self.new next) }
    {
        let edge = topology.edge_of(vrf);
        let news = self.export_on_edge(edge, vrf, target, on)?;
        self.tell_peers(topology, edge, &news.exports, news.comes, clock)
    }

    /// A site's VRF has a prefix over the site. It answers what the edge is to announce.
    fn add_on_edge(
        &mut self,
        edge: NodeNo,
        site: SiteNo,
        prefix: Prefix,
    ) -> Result<Vec<Export>, AllocError>
        requires edge { edge.0 < length self.old.edges }
        requires there { slice_get self.old.edges edge.0 ≡ Some (Some (working (edge_at self.old edge.0))) }
        requires free { found_in (vrf_of_site (edge_at self.old edge.0) site.0) (λ (state : VrfState). add_refused prefix state) (edge_at self.old edge.0).vrfs ≡ None }
        ensures now { OnOk result (self.new ≡ with_edge edge.0 (static_added (edge_at self.old edge.0) site prefix) self.old) }
        ensures come { IfOk result (λ come. come.items ≡ those_of (export_of (static_added (edge_at self.old edge.0) site prefix) site.0 prefix)) }
    {
        mn_edges::add(self.alloc, &mut self.edges, edge, site, prefix)
    }

    /// A site's VRF has a prefix over the site, which its edge announces.
    pub(crate) fn add_at(
        &mut self,
        topology: &Topology,
        site: SiteNo,
        prefix: Prefix,
        clock: Clock,
    ) -> Result<u64, AllocError>
        requires site { site.0 < length topology.now.sites }
        requires tick { clock.tick ≤ 2 ^ 63 }
        requires numbers { clock.number ≤ 2 ^ 63 }
        requires number { All (λ item. item.number < clock.number) self.old.messages }
        requires may { MayAdd topology.now self.old site prefix }
        ensures { IfOk result (λ next. Adds topology.now clock.tick clock.number site prefix self.old self.new next) }
    {
        let edge = topology.home_of(site);
        let come = self.add_on_edge(edge, site, prefix)?;
        self.tell_peers(topology, edge, &come, true, clock)
    }

    /// A site's VRF has a prefix over the site no longer. It answers what the edge is to withdraw.
    fn del_on_edge(
        &mut self,
        edge: NodeNo,
        site: SiteNo,
        prefix: Prefix,
    ) -> Result<Vec<Export>, AllocError>
        requires edge { edge.0 < length self.old.edges }
        requires there { slice_get self.old.edges edge.0 ≡ Some (Some (working (edge_at self.old edge.0))) }
        requires free { found_in (vrf_of_site (edge_at self.old edge.0) site.0) (λ (state : VrfState). del_refused prefix site.0 state) (edge_at self.old edge.0).vrfs ≡ None }
        ensures now { OnOk result (self.new ≡ with_edge edge.0 (static_deleted (edge_at self.old edge.0) site prefix) self.old) }
        ensures gone { IfOk result (λ gone. gone.items ≡ those_of (export_of (edge_at self.old edge.0) site.0 prefix)) }
    {
        mn_edges::del(self.alloc, &mut self.edges, edge, site, prefix)
    }

    /// A site's VRF has a prefix over the site no longer, and its edge withdraws it.
    pub(crate) fn del_at(
        &mut self,
        topology: &Topology,
        site: SiteNo,
        prefix: Prefix,
        clock: Clock,
    ) -> Result<u64, AllocError>
        requires site { site.0 < length topology.now.sites }
        requires tick { clock.tick ≤ 2 ^ 63 }
        requires numbers { clock.number ≤ 2 ^ 63 }
        requires number { All (λ item. item.number < clock.number) self.old.messages }
        requires may { MayDel topology.now self.old site prefix }
        ensures { IfOk result (λ next. Dels topology.now clock.tick clock.number site prefix self.old self.new next) }
    {
        let edge = topology.home_of(site);
        let gone = self.del_on_edge(edge, site, prefix)?;
        self.tell_peers(topology, edge, &gone, false, clock)
    }

    /// A site is attached with a label. It answers what the edge is to announce.
    fn attach_on_edge(
        &mut self,
        edge: NodeNo,
        site: SiteNo,
        label: u32,
    ) -> Result<Vec<Export>, AllocError>
        requires edge { edge.0 < length self.old.edges }
        requires there { slice_get self.old.edges edge.0 ≡ Some (Some (working (edge_at self.old edge.0))) }
        ensures now { OnOk result (self.new ≡ with_edge edge.0 (after_attach (edge_at self.old edge.0) site.0 label) self.old) }
        ensures come { IfOk result (λ come. come.items ≡ exports_over (after_attach (edge_at self.old edge.0) site.0 label) site.0) }
    {
        mn_edges::attach(&mut self.edges, edge, site, label)
    }

    /// A site is attached with a label, and its edge announces what its VRF exports over it.
    pub(crate) fn attach_at(
        &mut self,
        topology: &Topology,
        site: SiteNo,
        label: u32,
        clock: Clock,
    ) -> Result<u64, AllocError>
        requires site { site.0 < length topology.now.sites }
        requires tick { clock.tick ≤ 2 ^ 63 }
        requires numbers { clock.number ≤ 2 ^ 63 }
        requires number { All (λ item. item.number < clock.number) self.old.messages }
        requires may { MayAttach topology.now self.old site label }
        ensures { IfOk result (λ next. Attaches topology.now clock.tick clock.number site label self.old self.new next) }
    {
        let edge = topology.home_of(site);
        let come = self.attach_on_edge(edge, site, label)?;
        self.tell_peers(topology, edge, &come, true, clock)
    }

    /// A site is detached. It answers what the edge is to withdraw.
    fn detach_on_edge(&mut self, edge: NodeNo, site: SiteNo) -> Result<Vec<Export>, AllocError>
        requires edge { edge.0 < length self.old.edges }
        requires there { slice_get self.old.edges edge.0 ≡ Some (Some (working (edge_at self.old edge.0))) }
        ensures now { OnOk result (self.new ≡ with_edge edge.0 (after_detach (edge_at self.old edge.0) site.0) self.old) }
        ensures gone { IfOk result (λ gone. gone.items ≡ exports_over (edge_at self.old edge.0) site.0) }
    {
        mn_edges::detach(&mut self.edges, edge, site)
    }

    /// A site is detached, and its edge withdraws what its VRF exported over it.
    pub(crate) fn detach_at(
        &mut self,
        topology: &Topology,
        site: SiteNo,
        clock: Clock,
    ) -> Result<u64, AllocError>
        requires site { site.0 < length topology.now.sites }
        requires tick { clock.tick ≤ 2 ^ 63 }
        requires numbers { clock.number ≤ 2 ^ 63 }
        requires number { All (λ item. item.number < clock.number) self.old.messages }
        requires may { MayDetach topology.now self.old site }
        ensures { IfOk result (λ next. Detaches topology.now clock.tick clock.number site self.old self.new next) }
    {
        let edge = topology.home_of(site);
        let gone = self.detach_on_edge(edge, site)?;
        self.tell_peers(topology, edge, &gone, false, clock)
    }
}
