//! The steps of one edge, which advertises its exports to its peers, or withdraws them.
ghost use Rattle.std.specs.Prelude.{◌≡◌, ◌<◌, length, OnOk};
ghost use Rattle.mn_reflect.specs.Prelude.{AreSayable};
ghost use Rattle.mn_reflect.specs.Changing.{told_peers, MayImport, MayExport, import_set, export_set, MayAdd, MayDel, route_added, route_deleted, MayAttach, MayDetach, site_attached, site_detached};

use crate::reflect::Reflect;
use mn_base::{NodeNo, Rt, SiteNo, VrfNo};
use mn_pe::Export;
use mn_prefix::Prefix;
use mn_reflect_telling::tell_exports;
use std::alloc::AllocError;

/// The first label that may be given (RFC 3032, section 2.1).
const FIRST_LABEL: u32 = 16;

impl<'t> Reflect<'t> {
    /// An edge advertises exports that come and withdraws those that go.
    fn tell_peers(
        &mut self,
        edge: NodeNo,
        exports: &[Export],
        comes: bool,
    ) -> Result<(), AllocError>
        requires edge { edge.0 < length self.old.topology.loopbacks }
        requires exports { AreSayable exports.now }
        ensures { OnOk result (self.new ≡ told_peers edge.0 comes exports.now self.old) }
    {
        let peers = self.steady(edge)?;
        tell_exports(
            &mut self.mail,
            self.alloc,
            self.topology,
            edge,
            &peers,
            exports,
            comes,
        )
    }

    /// A VRF imports routes with a target, or doesn't. Its edge has no news.
    pub(crate) fn set_import(&mut self, vrf: VrfNo, target: Rt, on: bool) -> Result<(), AllocError>
        requires { MayImport self.old vrf target on }
        ensures { OnOk result (self.new ≡ import_set vrf target on self.old) }
    {
        let edge = self.topology.edge_of(vrf);
        mn_edges::import(&mut self.edges, edge, vrf, target, on)
    }

    /// A VRF exports routes with a target, or doesn't, and its edge advertises what changes.
    pub(crate) fn set_export(&mut self, vrf: VrfNo, target: Rt, on: bool) -> Result<(), AllocError>
        requires { MayExport self.old vrf target on }
        ensures { OnOk result (self.new ≡ export_set vrf target on self.old) }
    {
        let edge = self.topology.edge_of(vrf);
        let news = mn_edges::export(&mut self.edges, edge, vrf, target, on)?;
        self.tell_peers(edge, &news.exports, news.comes)
    }

    /// A site's VRF has a prefix over the site, which its edge announces.
    pub(crate) fn add(&mut self, site: SiteNo, prefix: Prefix) -> Result<(), AllocError>
        requires { MayAdd self.old site prefix }
        ensures { OnOk result (self.new ≡ route_added site prefix self.old) }
    {
        let edge = self.topology.home_of(site);
        let come = mn_edges::add(self.alloc, &mut self.edges, edge, site, prefix)?;
        self.statics += 1;
        self.tell_peers(edge, &come, true)
    }

    /// A site's VRF has a prefix over the site no longer, and its edge withdraws it.
    pub(crate) fn del(&mut self, site: SiteNo, prefix: Prefix) -> Result<(), AllocError>
        requires { MayDel self.old site prefix }
        ensures { OnOk result (self.new ≡ route_deleted site prefix self.old) }
    {
        let edge = self.topology.home_of(site);
        let gone = mn_edges::del(self.alloc, &mut self.edges, edge, site, prefix)?;
        self.statics -= 1;
        self.tell_peers(edge, &gone, false)
    }

    /// A site is attached with the next label of its edge, which announces what its VRF exports over it.
    pub(crate) fn attach(&mut self, site: SiteNo) -> Result<(), AllocError>
        requires { MayAttach self.old site }
        ensures { OnOk result (self.new ≡ site_attached site self.old) }
    {
        let edge = self.topology.home_of(site);
        let count = self.attachments[usize::from(edge.0)];
        let come = mn_edges::attach(&mut self.edges, edge, site, FIRST_LABEL + count)?;
        self.attachments[usize::from(edge.0)] = count + 1;
        self.tell_peers(edge, &come, true)
    }

    /// A site is detached, and its edge withdraws what its VRF exported over it.
    pub(crate) fn detach(&mut self, site: SiteNo) -> Result<(), AllocError>
        requires { MayDetach self.old site }
        ensures { OnOk result (self.new ≡ site_detached site self.old) }
    {
        let edge = self.topology.home_of(site);
        let gone = mn_edges::detach(&mut self.edges, edge, site)?;
        self.tell_peers(edge, &gone, false)
    }
}
