// One edge, whole.
ghost use Rattle.std.specs.Prelude.{◌≡◌, ◌+◌, ◌↔◌, ◌<◌, ℕ, true, false, None, Some, option_map, Err, length, OnOk, OnErr, IfOk, IfErr, IsErr, filter, slice_index, slice_index_or, slice_get};
ghost use Rattle.mn_pe.specs.Prelude.{found_among, is_open, sources_of, target_set, VrfState, heads, IsHeldAt, with_static, without_static, with_imports, with_exports, add_refused, del_refused, set_refused, refusal_of, Labelling};
ghost use Rattle.mn_ledger.specs.Prelude.{longest_match, first_of, destination_of, Network, World};
ghost use Rattle.mn_pe.specs.Edge.{Edge, after_update, after_forget, after_attach, after_detach, after_vrf, vrf_of_site};
ghost use Rattle.mn_pe.specs.Held.{held_by, exports_of};
ghost use Rattle.mn_pe.specs.Exports.{exports_at, exports_over, export_of};
ghost use Rattle.mn_pe.specs.Start.{edge_at_start};
ghost use Rattle.mn_pe.specs.Entries.{route_for, route_among, entered_at, entered_among, StandsAtEntry, IsItsFate};
ghost use Rattle.mn_pe.specs.Pe.{PeNow, AreLabelled, found_in, is_want};

use crate::changes::{add_in, del_in, export_in, import_in, is_want, set_label};
use crate::entering::{entered_by, head_at_entry};
use crate::export::{export_of_in, exports_at_in, exports_in, exports_over_in};
use crate::hearing::{forget_in_all, hear_reached, hear_withdrawn};
use crate::look::{label_at, loopback_at, vrf_in};
use crate::spreading::spread_present;
use crate::start::{loopbacks_of, no_labels, nothing_heard, sites_of, vrfs_of};
use crate::switching::{switch_export, switch_import, switch_site};
use crate::{Entered, Export, NoMemory};
use mn_base::{NodeNo, Rt, SiteNo, VrfNo};
use mn_bgp_wire::Update;
use mn_prefix::Prefix;
use mn_rib_in::RibIn;
use mn_topo::Topology;
use mn_vrf::{Source, StaticRoute, Vrf, VrfBad};
use std::alloc::{AllocError, Global};
use std::marker::Model;

/// An edge. Contracts see what it was told, and whether it ran out of memory.
#[derive(Drop)]
pub struct Pe {
    alloc: Global,
    vrfs: Vec<Vrf>,
    sites: Vec<VrfNo>,
    labels: Vec<Option<u32>>,
    loopbacks: Vec<u32>,
    heard: Vec<RibIn>,
    failed: bool,
}

impl Model for Pe {
    ghost use Rattle.std.specs.Prelude.{◌≡◌, false};
    ghost use Rattle.mn_pe.specs.Start.{edge_at_start};
    ghost use Rattle.mn_pe.specs.Pe.{PeNow, edge_of, IsSound};

    ghost Value = { PeNow };

    ghost view = { λ p. record { edge = edge_of p.vrfs.items p.sites.items p.labels.items p.loopbacks.items p.heard.items; failed = p.failed } };

    ghost invariant = { λ p. p.failed ≡ false → IsSound (edge_of p.vrfs.items p.sites.items p.labels.items p.loopbacks.items p.heard.items) p.vrfs.items };
}

impl Pe {
    /// The edge of a node as the topology has it: no site attached, nothing received.
    pub fn new(alloc: Global, topology: &Topology, node: NodeNo) -> Result<Pe, NoMemory>
        ensures { IfOk result (λ pe. pe ≡ record { edge = edge_at_start topology.now node.0; failed = false }) }
    {
        let Ok(pe) = Pe::laid(alloc, topology, node) else {
            return Err(NoMemory);
        };
        Ok(pe)
    }

    /// Where nothing is attached or received, VRFs hold nothing.
    fn laid(alloc: Global, topology: &Topology, node: NodeNo) -> Result<Pe, AllocError>
        ensures { IfOk result (λ pe. pe ≡ record { edge = edge_at_start topology.now node.0; failed = false }) }
    {
        topology.laws();
        let vrfs = vrfs_of(alloc, topology.vrfs(), topology.sites(), node)?;
        let sites = sites_of(alloc, topology.sites())?;
        let labels = no_labels(alloc, topology.sites())?;
        let loopbacks = loopbacks_of(alloc, topology.nodes())?;
        let heard = nothing_heard(alloc, loopbacks.as_slice())?;
        Ok(Pe {
            alloc,
            vrfs,
            sites,
            labels,
            loopbacks,
            heard,
            failed: false,
        })
    }

    /// Receives the routes of a peer's UPDATE, whose labels have 20 bits: those that are withdrawn go first.
    pub fn hear(&mut self, peer: NodeNo, loopback: u32, update: &Update) -> Result<(), NoMemory>
        requires address { loopback ≡ slice_index_or self.old.edge.loopbacks peer.0 0 }
        requires labels { AreLabelled update.now.reached }
        ensures ok { OnOk result (self.new ≡ record { edge = after_update self.old.edge peer.0 update.now; failed = false }) }
        ensures err { OnErr result (self.new.failed ≡ true) }
        ensures failed { self.old.failed ≡ true → IsErr result }
    {
        if self.failed {
            return Err(NoMemory);
        }
        let at = peer.0 as usize;
        if at >= self.heard.len() {
            return Ok(());
        }
        self.failed = true;
        hear_withdrawn(
            &mut self.vrfs,
            &mut self.heard[at],
            peer,
            loopback,
            update.withdrawn(),
        );
        let Ok(()) = hear_reached(
            &mut self.vrfs,
            &mut self.heard[at],
            peer,
            loopback,
            update.reached(),
            update.targets(),
        ) else {
            return Err(NoMemory);
        };
        self.failed = false;
        Ok(())
    }

    /// Forgets all that was received from a peer.
    pub fn forget(&mut self, peer: NodeNo) -> Result<(), NoMemory>
        ensures ok { OnOk result (self.new ≡ record { edge = after_forget self.old.edge peer.0; failed = false }) }
        ensures err { OnErr result (self.new.failed ≡ true) }
        ensures failed { self.old.failed ≡ true ↔ IsErr result }
    {
        if self.failed {
            return Err(NoMemory);
        }
        let at = peer.0 as usize;
        if at >= self.heard.len() {
            return Ok(());
        }
        let loopback = self.loopback(peer);
        forget_in_all(&mut self.vrfs, &self.heard[at], peer, loopback);
        self.heard[at].clear();
        Ok(())
    }

    /// A site gets its label.
    pub fn attach(&mut self, site: SiteNo, label: u32) -> Result<(), NoMemory>
        ensures ok { OnOk result (self.new ≡ record { edge = after_attach self.old.edge site.0 label; failed = false }) }
        ensures err { OnErr result (self.new.failed ≡ true) }
        ensures failed { self.old.failed ≡ true → IsErr result }
    {
        if self.failed {
            return Err(NoMemory);
        }
        if site.0 as usize >= self.labels.len() {
            return Ok(());
        }
        let vrf = self.vrf_of(site);
        self.failed = true;
        set_label(&mut self.labels, site, Some(label));
        let Ok(()) = switch_site(&mut self.vrfs, vrf, site, true) else {
            return Err(NoMemory);
        };
        self.failed = false;
        Ok(())
    }

    /// A site loses its label.
    pub fn detach(&mut self, site: SiteNo) -> Result<(), NoMemory>
        ensures ok { OnOk result (self.new ≡ record { edge = after_detach self.old.edge site.0; failed = false }) }
        ensures err { OnErr result (self.new.failed ≡ true) }
        ensures failed { self.old.failed ≡ true → IsErr result }
    {
        if self.failed {
            return Err(NoMemory);
        }
        if self.attached(site).is_none() {
            return Ok(());
        }
        let vrf = self.vrf_of(site);
        self.failed = true;
        set_label(&mut self.labels, site, None);
        let Ok(()) = switch_site(&mut self.vrfs, vrf, site, false) else {
            return Err(NoMemory);
        };
        self.failed = false;
        Ok(())
    }

    /// The label of a site, none where it isn't attached. It takes no memory.
    pub fn attached(&self, site: SiteNo) -> Option<u32>
        ensures { result ≡ slice_index_or self.now.edge.labels site.0 None }
    {
        label_at(&self.labels, site)
    }

    /// A VRF imports routes with a target, or doesn't. A refusal changes nothing.
    pub fn import(&mut self, vrf: VrfNo, target: Rt, on: bool) -> Result<(), VrfBad>
        ensures ok { OnOk result (self.new ≡ record { edge = after_vrf self.old.edge vrf.0 (with_imports (target_set target on)); failed = false }) }
        ensures refusal { self.old.failed ≡ false → refusal_of result ≡ found_in vrf.0 (λ (state : VrfState). set_refused target on state.imports) self.old.edge.vrfs }
        ensures refused { IfErr result (λ bad. is_want bad ≡ false → self.new ≡ self.old) }
        ensures err { IfErr result (λ bad. is_want bad ≡ true → self.new.failed ≡ true) }
        ensures failed { self.old.failed ≡ true → result ≡ Err VrfBad.NoMemory }
    {
        if self.failed {
            return Err(VrfBad::NoMemory);
        }
        self.failed = true;
        if let Err(bad) = import_in(&mut self.vrfs, vrf, target, on) {
            self.failed = is_want(bad);
            return Err(bad);
        }
        let Ok(()) = switch_import(
            &mut self.vrfs,
            &self.labels,
            &self.loopbacks,
            &self.heard,
            vrf,
            target,
            on,
        ) else {
            return Err(VrfBad::NoMemory);
        };
        self.failed = false;
        Ok(())
    }

    /// A VRF exports routes with a target, or doesn't. A refusal changes nothing.
    pub fn export(&mut self, vrf: VrfNo, target: Rt, on: bool) -> Result<(), VrfBad>
        ensures ok { OnOk result (self.new ≡ record { edge = after_vrf self.old.edge vrf.0 (with_exports (target_set target on)); failed = false }) }
        ensures refusal { self.old.failed ≡ false → refusal_of result ≡ found_in vrf.0 (λ (state : VrfState). set_refused target on state.exports) self.old.edge.vrfs }
        ensures refused { IfErr result (λ bad. is_want bad ≡ false → self.new ≡ self.old) }
        ensures err { IfErr result (λ bad. is_want bad ≡ true → self.new.failed ≡ true) }
        ensures failed { self.old.failed ≡ true → result ≡ Err VrfBad.NoMemory }
    {
        if self.failed {
            return Err(VrfBad::NoMemory);
        }
        self.failed = true;
        if let Err(bad) = export_in(&mut self.vrfs, vrf, target, on) {
            self.failed = is_want(bad);
            return Err(bad);
        }
        let Ok(()) = switch_export(&mut self.vrfs, &self.labels, vrf, target, on) else {
            return Err(VrfBad::NoMemory);
        };
        self.failed = false;
        Ok(())
    }

    /// A VRF has a prefix over a site. A refusal changes nothing.
    pub fn add_route(&mut self, site: SiteNo, prefix: Prefix) -> Result<(), VrfBad>
        ensures ok { OnOk result (self.new ≡ record { edge = after_vrf self.old.edge (vrf_of_site self.old.edge site.0) (with_static (record { prefix = prefix; site = site.0 })); failed = false }) }
        ensures refusal { self.old.failed ≡ false → refusal_of result ≡ found_in (vrf_of_site self.old.edge site.0) (λ (state : VrfState). add_refused prefix state) self.old.edge.vrfs }
        ensures refused { IfErr result (λ bad. is_want bad ≡ false → self.new ≡ self.old) }
        ensures err { IfErr result (λ bad. is_want bad ≡ true → self.new.failed ≡ true) }
        ensures failed { self.old.failed ≡ true → result ≡ Err VrfBad.NoMemory }
    {
        if self.failed {
            return Err(VrfBad::NoMemory);
        }
        let vrf = self.vrf_of(site);
        self.failed = true;
        if let Err(bad) = add_in(&mut self.vrfs, vrf, prefix, site) {
            self.failed = is_want(bad);
            return Err(bad);
        }
        let route = StaticRoute::new(prefix, site);
        let Ok(()) = spread_present(&mut self.vrfs, &self.labels, vrf, route, true) else {
            return Err(VrfBad::NoMemory);
        };
        self.failed = false;
        Ok(())
    }

    /// A VRF has a prefix over a site no longer. A refusal changes nothing.
    pub fn del_route(&mut self, site: SiteNo, prefix: Prefix) -> Result<(), VrfBad>
        ensures ok { OnOk result (self.new ≡ record { edge = after_vrf self.old.edge (vrf_of_site self.old.edge site.0) (without_static (record { prefix = prefix; site = site.0 })); failed = false }) }
        ensures refusal { self.old.failed ≡ false → refusal_of result ≡ found_in (vrf_of_site self.old.edge site.0) (λ (state : VrfState). del_refused prefix site.0 state) self.old.edge.vrfs }
        ensures refused { IfErr result (λ bad. is_want bad ≡ false → self.new ≡ self.old) }
        ensures err { IfErr result (λ bad. is_want bad ≡ true → self.new.failed ≡ true) }
        ensures failed { self.old.failed ≡ true → result ≡ Err VrfBad.NoMemory }
    {
        if self.failed {
            return Err(VrfBad::NoMemory);
        }
        let vrf = self.vrf_of(site);
        self.failed = true;
        if let Err(bad) = del_in(&mut self.vrfs, vrf, prefix, site) {
            self.failed = is_want(bad);
            return Err(bad);
        }
        let route = StaticRoute::new(prefix, site);
        let Ok(()) = spread_present(&mut self.vrfs, &self.labels, vrf, route, false) else {
            return Err(VrfBad::NoMemory);
        };
        self.failed = false;
        Ok(())
    }

    /// What it exports (RFC 4364, section 4.3.2): for each VRF with an export target each static of an attached site, in
    /// the order of VRFs and then of prefixes.
    pub fn exports(&self) -> Result<Vec<Export>, NoMemory>
        ensures { IfOk result (λ exports. exports.items ≡ exports_of self.now.edge) }
    {
        let Ok(exports) = exports_in(self.alloc, &self.vrfs, &self.labels) else {
            return Err(NoMemory);
        };
        Ok(exports)
    }

    /// What a VRF exports.
    pub fn exports_at(&self, vrf: VrfNo) -> Result<Vec<Export>, NoMemory>
        ensures { IfOk result (λ exports. exports.items ≡ exports_at self.now.edge vrf.0) }
    {
        let Ok(exports) = exports_at_in(self.alloc, &self.vrfs, &self.labels, vrf) else {
            return Err(NoMemory);
        };
        Ok(exports)
    }

    /// What the VRF of a site exports over it.
    pub fn exports_over(&self, site: SiteNo) -> Result<Vec<Export>, NoMemory>
        ensures { IfOk result (λ exports. exports.items ≡ exports_over self.now.edge site.0) }
    {
        let vrf = self.vrf_of(site);
        let Ok(exports) = exports_over_in(self.alloc, &self.vrfs, &self.labels, vrf, site) else {
            return Err(NoMemory);
        };
        Ok(exports)
    }

    /// What the VRF of a site exports of a prefix.
    pub fn export_of(&self, site: SiteNo, prefix: Prefix) -> Result<Option<Export>, NoMemory>
        ensures { IfOk result (λ export. export ≡ export_of self.now.edge site.0 prefix) }
    {
        let vrf = self.vrf_of(site);
        let Ok(export) = export_of_in(self.alloc, &self.vrfs, &self.labels, vrf, prefix) else {
            return Err(NoMemory);
        };
        Ok(export)
    }

    /// The best route that a VRF holds for an address, while the edge hasn't failed. It takes no memory.
    pub fn lookup(&self, vrf: VrfNo, address: u32) -> Option<(Prefix, Source)>
        ensures { self.now.failed ≡ false → result ≡ found_in vrf.0 (λ (state : VrfState). longest_match address (held_by self.now.edge state)) self.now.edge.vrfs }
    {
        match vrf_in(&self.vrfs, vrf) {
            None => None,
            Some(found) => found.lookup(address),
        }
    }

    /// The best of the open routes that a VRF holds for an address, while the edge hasn't failed: own routes, those of its other VRFs,
    /// and those of edges that are among these, by number; where there is none, the best of all. It takes no memory.
    pub fn lookup_among(&self, vrf: VrfNo, address: u32, ways: &[bool]) -> Option<(Prefix, Source)>
        ensures { self.now.failed ≡ false → result ≡ found_in vrf.0 (λ (state : VrfState). found_among ways.now address (held_by self.now.edge state)) self.now.edge.vrfs }
    {
        match vrf_in(&self.vrfs, vrf) {
            None => None,
            Some(found) => found.lookup_among(address, ways),
        }
    }

    /// Where the best of the open routes of a prefix comes from that a VRF holds, while the edge hasn't failed. It takes no memory.
    pub fn open_at(&self, vrf: VrfNo, prefix: Prefix, ways: &[bool]) -> Option<Source>
        ensures { self.now.failed ≡ false → result ≡ found_in vrf.0 (λ (state : VrfState). first_of (filter (is_open ways.now) (sources_of prefix (held_by self.now.edge state)))) self.now.edge.vrfs }
    {
        match vrf_in(&self.vrfs, vrf) {
            None => None,
            Some(found) => found.open_at(prefix, ways),
        }
    }

    /// The held prefix of this place in a VRF, with the best of its routes, while the edge hasn't failed. It takes no memory.
    pub fn held(&self, vrf: VrfNo, k: u32) -> Option<(Prefix, Source)>
        ensures { self.now.failed ≡ false → result ≡ found_in vrf.0 (λ (state : VrfState). slice_get (heads (held_by self.now.edge state)) k) self.now.edge.vrfs }
    {
        match vrf_in(&self.vrfs, vrf) {
            None => None,
            Some(found) => found.held(k),
        }
    }

    /// The held prefix after a held one in a VRF, with the best of its routes, while the edge hasn't failed. It takes no memory.
    pub fn held_after(&self, vrf: VrfNo, last: Prefix) -> Option<(Prefix, Source)>
        ensures { self.now.failed ≡ false → (k : ℕ) → IsHeldAt last (found_in vrf.0 (λ (state : VrfState). slice_get (heads (held_by self.now.edge state)) k) self.now.edge.vrfs) →
            result ≡ found_in vrf.0 (λ (state : VrfState). slice_get (heads (held_by self.now.edge state)) (k + 1)) self.now.edge.vrfs }
    {
        match vrf_in(&self.vrfs, vrf) {
            None => None,
            Some(found) => found.after(last),
        }
    }

    /// A VRF of the edge, with what it was told. It takes no memory.
    pub fn vrf(&self, number: VrfNo) -> Option<&Vrf>
        ensures { option_map (λ vrf. vrf.now.vrf) result ≡ found_in number.0 Some self.now.edge.vrfs }
    {
        vrf_in(&self.vrfs, number)
    }

    /// What becomes of a packet that a site sends. The packet is copied once, cut to its total length.
    pub fn enter(&self, site: SiteNo, packet: &[u8]) -> Result<Entered, NoMemory>
        ensures answer { IfOk result (λ entered. entered ≡ entered_at self.now.edge site.0 packet.now) }
        // Where the edge stands for the ledger's world, it is the ledger's fate of the packet.
        ensures fate { IfOk result (λ entered. (topology : Network) (given : Labelling) (world : World) →
            StandsAtEntry self.now.edge (route_for self.now.edge site.0 (destination_of packet.now)) topology given world site.0 packet.now → IsItsFate topology given world site.0 packet.now entered) }
        ensures failed { self.now.failed ≡ true → IsErr result }
    {
        if self.failed {
            return Err(NoMemory);
        }
        self.entered(site, packet)
    }

    /// The same where the open routes come first: own ones, those of the edge's other VRFs, and those of edges that are among these,
    /// by number.
    pub fn enter_among(
        &self,
        site: SiteNo,
        packet: &[u8],
        ways: &[bool],
    ) -> Result<Entered, NoMemory>
        ensures answer { IfOk result (λ entered. entered ≡ entered_among self.now.edge ways.now site.0 packet.now) }
        ensures fate { IfOk result (λ entered. (topology : Network) (given : Labelling) (world : World) →
            StandsAtEntry self.now.edge (route_among self.now.edge ways.now site.0 (destination_of packet.now)) topology given world site.0 packet.now → IsItsFate topology given world site.0 packet.now entered) }
        ensures failed { self.now.failed ≡ true → IsErr result }
    {
        if self.failed {
            return Err(NoMemory);
        }
        self.entered_among(site, packet, ways)
    }

    /// By the first rule that applies, and then by the best route.
    fn entered(&self, site: SiteNo, packet: &[u8]) -> Result<Entered, NoMemory>
        requires works { self.now.failed ≡ false }
        ensures answer { IfOk result (λ entered. entered ≡ entered_at self.now.edge site.0 packet.now) }
        ensures bytes { (i : ℕ) → slice_index packet.now i < 256 }
    {
        let head = match head_at_entry(self.attached(site), packet) {
            Ok(head) => head,
            Err(rule) => return Ok(Entered::Drop(rule)),
        };
        let found = self.lookup(self.vrf_of(site), head.destination);
        let Ok(entered) = entered_by(self.alloc, packet, &head, found) else {
            return Err(NoMemory);
        };
        Ok(entered)
    }

    /// By the first rule that applies, and then by the best of the open routes.
    fn entered_among(&self, site: SiteNo, packet: &[u8], ways: &[bool]) -> Result<Entered, NoMemory>
        requires works { self.now.failed ≡ false }
        ensures answer { IfOk result (λ entered. entered ≡ entered_among self.now.edge ways.now site.0 packet.now) }
        ensures bytes { (i : ℕ) → slice_index packet.now i < 256 }
    {
        let head = match head_at_entry(self.attached(site), packet) {
            Ok(head) => head,
            Err(rule) => return Ok(Entered::Drop(rule)),
        };
        let found = self.lookup_among(self.vrf_of(site), head.destination, ways);
        let Ok(entered) = entered_by(self.alloc, packet, &head, found) else {
            return Err(NoMemory);
        };
        Ok(entered)
    }

    /// The VRF of a site.
    fn vrf_of(&self, site: SiteNo) -> VrfNo
        ensures { result.0 ≡ vrf_of_site self.now.edge site.0 }
    {
        match self.sites.get(site.0 as usize) {
            Some(vrf) => *vrf,
            None => VrfNo(0),
        }
    }

    /// A node's loopback, or 0 where there is no such node. It takes no memory.
    pub fn loopback(&self, node: NodeNo) -> u32
        ensures { result ≡ slice_index_or self.now.edge.loopbacks node.0 0 }
    {
        loopback_at(&self.loopbacks, node)
    }
}
