//! The topology, and what it answers.
ghost use Rattle.std.specs.Prelude.{◌≡◌, ◌<◌, Some, IfSome, is_some, length, map, slice_get};
ghost use Rattle.mn_wiring.specs.Wiring.{sender, receiver};

use crate::links::Links;
use crate::nodes::{Node, Nodes};
use crate::sites::{SiteDef, Sites};
use crate::steps::Step;
use crate::vrfs::{VrfDef, Vrfs};
use mn_prefix::Prefix;
use mn_wiring::{Dir, LinkEnds, LinkNo, NodeNo, SiteNo, VrfNo};
use std::marker::Model;

/// Ticks for which a step lets time go by.
const MOST_TICKS: u32 = 1_000_000;

/// What a topology is made of.
#[derive(Drop)]
pub struct Parts {
    pub asn: u16,
    pub notice_delay: u32,
    pub bgp_delay: u32,
    pub nodes: Nodes,
    pub links: Links,
    pub vrfs: Vrfs,
    pub sites: Sites,
    pub resolve: bool,
}

/// The nodes, links, VRFs and sites of a network, numbered from 0 in the order of the file.
pub struct Topology {
    parts: Parts,
}

impl Model for Topology {
    ghost use Rattle.mn_topo.specs.Network.{Network};
    ghost use Rattle.mn_topo.specs.Parts.{network_of};
    ghost use Rattle.mn_topo.specs.Lawful.{IsLawful};

    ghost Value = { Network };

    ghost view = { λ a. network_of a.parts };

    ghost invariant = { λ a. IsLawful (network_of a.parts) };
}

/// By hand, so that whoever owns a topology drops it by one call, and not part by part.
impl Drop for Topology {
    fn drop(self) {
        let Topology { parts: _ } = self;
    }
}

ghost use Rattle.mn_topo.specs.Network.{wiring_of, nodes_with, node_named, vrf_named, site_named, link_of, Leads};
ghost use Rattle.mn_topo.specs.Homes.{vrf_of, edge_of, home_of};
ghost use Rattle.mn_topo.specs.Parts.{network_of};
ghost use Rattle.mn_topo.specs.Links.{are_joined};
ghost use Rattle.mn_topo.specs.Lawful.{IsLawful};
ghost use Rattle.mn_topo.specs.VrfTable.{is_edge};
ghost use Rattle.mn_topo.specs.SiteTable.{is_lawful_prefix};
ghost use Rattle.mn_topo.specs.Steps.{has_node, has_link, has_vrf, has_site, are_edges, are_edges_in_order, fits};

/// Whether no bit is set past the prefix's length, which is at most 32: each prefix is such by its type.
#[tactic(auto, using(crate::proofs::Prefixes::is_lawful))]
fn is_lawful(prefix: &Prefix) -> bool
    ensures { result ≡ is_lawful_prefix prefix.now }
{
    prefix.length() <= 32
}

impl Topology {
    /// The topology of lawful parts.
    pub fn of(parts: Parts) -> Topology
        requires { IsLawful (network_of parts) }
        ensures { result ≡ network_of parts }
    {
        Topology { parts }
    }

    /// What holds of every topology.
    pub fn laws(&self)
        ensures { IsLawful self.now }
    {
        let _ = &self.parts;
    }

    /// The autonomous system's number: 1 to 65535.
    pub fn asn(&self) -> u16
        ensures { result ≡ self.now.asn }
    {
        self.parts.asn
    }

    /// Ticks from a link's change until its ends learn of it: 1 to 1000.
    pub fn notice_delay(&self) -> u32
        ensures { result ≡ self.now.notice_delay }
    {
        self.parts.notice_delay
    }

    /// Ticks from the sending of a BGP message until its arrival: 1 to 1000.
    pub fn bgp_delay(&self) -> u32
        ensures { result ≡ self.now.bgp_delay }
    {
        self.parts.bgp_delay
    }

    /// Whether a route is left out whose next hop has no label path (RFC 4271, section 9.1.2).
    pub fn resolve(&self) -> bool
        ensures { result ≡ self.now.resolve }
    {
        self.parts.resolve
    }

    /// The nodes by number.
    pub fn nodes(&self) -> &[Node]
        ensures { result.now ≡ nodes_with self.now.loopbacks }
    {
        self.parts.nodes.as_slice()
    }

    /// The links by number.
    pub fn links(&self) -> &[LinkEnds]
        ensures { result.now ≡ self.now.links }
    {
        self.parts.links.as_slice()
    }

    /// The VRFs by number.
    pub fn vrfs(&self) -> &[VrfDef]
        ensures { result.now ≡ self.now.vrfs }
    {
        self.parts.vrfs.as_slice()
    }

    /// The sites by number.
    pub fn sites(&self) -> &[SiteDef]
        ensures { result.now ≡ self.now.sites }
    {
        self.parts.sites.as_slice()
    }

    /// The node with the name.
    pub fn node_named(&self, name: &[u8]) -> Option<NodeNo>
        ensures value { result ≡ node_named self.now name.now }
        ensures within { IfSome result (λ no. no.0 < length self.now.loopbacks) }
    {
        match self.parts.nodes.names().number_of(name) {
            Some(number) => Some(NodeNo(number)),
            None => None,
        }
    }

    /// The VRF with the name.
    pub fn vrf_named(&self, name: &[u8]) -> Option<VrfNo>
        ensures value { result ≡ vrf_named self.now name.now }
        ensures within { IfSome result (λ no. no.0 < length self.now.vrfs) }
    {
        match self.parts.vrfs.names().number_of(name) {
            Some(number) => Some(VrfNo(number)),
            None => None,
        }
    }

    /// The site with the name.
    pub fn site_named(&self, name: &[u8]) -> Option<SiteNo>
        ensures value { result ≡ site_named self.now name.now }
        ensures within { IfSome result (λ no. no.0 < length self.now.sites) }
    {
        match self.parts.sites.names().number_of(name) {
            Some(number) => Some(SiteNo(number)),
            None => None,
        }
    }

    /// The name of the node.
    pub fn node_name(&self, no: NodeNo) -> &[u8]
        requires { no.0 < length self.now.loopbacks }
        ensures { slice_get self.now.node_names no.0 ≡ Some result.now }
    {
        self.parts.nodes.names().name_of(no.0)
    }

    /// The name of the VRF.
    pub fn vrf_name(&self, no: VrfNo) -> &[u8]
        requires { no.0 < length self.now.vrfs }
        ensures { slice_get self.now.vrf_names no.0 ≡ Some result.now }
    {
        self.parts.vrfs.names().name_of(no.0)
    }

    /// The name of the site.
    pub fn site_name(&self, no: SiteNo) -> &[u8]
        requires { no.0 < length self.now.sites }
        ensures { slice_get self.now.site_names no.0 ≡ Some result.now }
    {
        self.parts.sites.names().name_of(no.0)
    }

    /// The link that joins two nodes, and the direction from `a` to `b`.
    pub fn link_of(&self, a: NodeNo, b: NodeNo) -> Option<(LinkNo, Dir)>
        ensures value { result ≡ link_of self.now a.0 b.0 }
        ensures leads { IfSome result (λ found. Leads self.now a.0 b.0 found.0.0 found.1) }
        ensures found { is_some result ≡ are_joined self.now.links a.0 b.0 }
    {
        let number = self.parts.links.joining(a.0, b.0)?;
        let link = &self.parts.links.as_slice()[number as usize];
        let direction = if link.a.0 == a.0 {
            Dir::Forth
        } else {
            Dir::Back
        };
        Some((LinkNo(number), direction))
    }

    /// The end that sends in a direction of a link.
    pub fn sender(&self, link: LinkNo, dir: Dir) -> NodeNo
        requires { link.0 < length self.now.links }
        ensures end { result.0 ≡ sender (wiring_of self.now) link.0 dir }
        ensures there { result.0 < length self.now.loopbacks }
    {
        self.laws();
        let ends = &self.links()[usize::from(link.0)];
        match dir {
            Dir::Forth => ends.a,
            Dir::Back => ends.b,
        }
    }

    /// The end that receives in a direction of a link.
    pub fn receiver(&self, link: LinkNo, dir: Dir) -> NodeNo
        requires { link.0 < length self.now.links }
        ensures end { result.0 ≡ receiver (wiring_of self.now) link.0 dir }
        ensures there { result.0 < length self.now.loopbacks }
    {
        self.laws();
        let ends = &self.links()[usize::from(link.0)];
        match dir {
            Dir::Forth => ends.b,
            Dir::Back => ends.a,
        }
    }

    /// The VRF of a site.
    pub fn vrf_of(&self, site: SiteNo) -> VrfNo
        requires { site.0 < length self.now.sites }
        ensures vrf { result.0 ≡ vrf_of self.now site.0 }
        ensures there { result.0 < length self.now.vrfs }
    {
        self.laws();
        self.sites()[usize::from(site.0)].vrf
    }

    /// The edge of a VRF.
    pub fn edge_of(&self, vrf: VrfNo) -> NodeNo
        requires { vrf.0 < length self.now.vrfs }
        ensures edge { result.0 ≡ edge_of self.now vrf.0 }
        ensures there { result.0 < length self.now.loopbacks }
    {
        self.laws();
        self.vrfs()[usize::from(vrf.0)].node
    }

    /// The edge of a site.
    pub fn home_of(&self, site: SiteNo) -> NodeNo
        requires { site.0 < length self.now.sites }
        ensures home { result.0 ≡ home_of self.now site.0 }
        ensures there { result.0 < length self.now.loopbacks }
    {
        self.edge_of(self.vrf_of(site))
    }

    /// Whether the node has a VRF.
    pub fn is_edge(&self, no: NodeNo) -> bool
        ensures { result ≡ is_edge self.now.vrfs no.0 }
    {
        self.parts.vrfs.is_edge(no.0)
    }

    fn has_node(&self, no: NodeNo) -> bool
        ensures { result ≡ has_node self.now no }
    {
        (no.0 as usize) < self.nodes().len()
    }

    fn has_link(&self, no: LinkNo) -> bool
        ensures { result ≡ has_link self.now no }
    {
        (no.0 as usize) < self.links().len()
    }

    fn has_vrf(&self, no: VrfNo) -> bool
        ensures { result ≡ has_vrf self.now no }
    {
        (no.0 as usize) < self.vrfs().len()
    }

    fn has_site(&self, no: SiteNo) -> bool
        ensures { result ≡ has_site self.now no }
    {
        (no.0 as usize) < self.sites().len()
    }

    fn are_edges(&self, a: NodeNo, b: NodeNo) -> bool
        ensures { result ≡ are_edges self.now a b }
    {
        self.is_edge(a) && self.is_edge(b) && a.0 != b.0
    }

    fn are_edges_in_order(&self, a: NodeNo, b: NodeNo) -> bool
        ensures { result ≡ are_edges_in_order self.now a b }
    {
        self.is_edge(a) && self.is_edge(b) && a.0 < b.0
    }

    /// Whether the step's numbers are those of the topology, a record is from 1, a target is of one of its
    /// two forms, a BGP step names two different edges, which BgpUp and BgpDown do in their order, and time
    /// goes by for 1 to 1,000,000 ticks. A prefix has no bit past its length, as its type says.
    pub fn fits(&self, step: &Step) -> bool
        ensures { result ≡ fits self.now step.now }
    {
        match step {
            Step::LinkUp(link) | Step::LinkDown(link) => self.has_link(*link),
            Step::Learn(node, link) => self.has_node(*node) && self.has_link(*link),
            Step::LdpAdmin(link, _) | Step::HearLdp(link, _) => self.has_link(*link),
            Step::BgpUp(a, b) | Step::BgpDown(a, b) => self.are_edges_in_order(*a, *b),
            Step::HearBgp(a, b) => self.are_edges(*a, *b),
            Step::AddRoute(site, prefix) | Step::DelRoute(site, prefix) => {
                self.has_site(*site) && is_lawful(prefix)
            }
            Step::Import(vrf, _, target) | Step::Export(vrf, _, target) => {
                self.has_vrf(*vrf) && target.has_form()
            }
            Step::Attach(site) | Step::Detach(site) => self.has_site(*site),
            Step::Inject(site, record) => self.has_site(*site) && *record >= 1,
            Step::Carry(link, _, _) | Step::Lose(link, _, _) => self.has_link(*link),
            Step::Tick(ticks) => *ticks >= 1 && *ticks <= MOST_TICKS,
        }
    }
}
