//! Pairs, and what has failed.
ghost use Rattle.std.specs.Prelude.{◌≡◌, ◌<◌, ◌++◌, ◌∷◌, [], All, length, slice_set, false, true, IfOk, OnOk, OnErr};
ghost use Rattle.mn_reach.specs.Plans.{IsOf};
ghost use Rattle.mn_reach.specs.Reaching.{at_first};

use crate::edges::edges_of;
use crate::listed::{pairs_by_home, pairs_by_link};
use crate::plan::Prospect;
use crate::prospects::prospects_of;
use mn_base::{LinkNo, ListOf, NodeNo};
use mn_candidates::Pair;
use mn_topo::Topology;
use mn_way::Ways;
use mn_way_laws::the_links_of_a_way_are_there;
use std::alloc::{AllocError, Global};
use std::marker::Model;

/// Pairs of a site and an address, and which links, LDP and sessions have failed.
#[derive(Drop)]
pub struct Reach {
    pub(crate) ways: Ways,
    pub(crate) pairs: Vec<Pair>,
    pub(crate) prospects: Vec<Prospect>,
    /// By link the pairs on whose ways it is, and by node those of its sites: no other pair is touched where it fails.
    pub(crate) by_link: Vec<ListOf<usize>>,
    pub(crate) by_home: Vec<ListOf<usize>>,
    /// As the ways have them.
    pub(crate) up: Vec<bool>,
    pub(crate) ldp: Vec<bool>,
    /// The sessions that were ended, the lesser edge first.
    pub(crate) ended: Vec<(NodeNo, NodeNo)>,
    /// Whether sessions between edges that no links join have ended too.
    pub(crate) ends: bool,
}

impl Model for Reach {
    ghost use Rattle.mn_reach.specs.Reaching.{Reaching, IsKept};

    ghost Value = { Reaching };

    ghost view = { λ r. record { plan = record { nodes = r.ways.nodes; links = r.ways.ends; edges = r.ways.edges; pairs = r.pairs.items; prospects = r.prospects.items; by_link = r.by_link.items; by_home = r.by_home.items }; up = r.up.items; ldp = r.ldp.items; ended = r.ended.items; ends = r.ends; failed = r.ways.failed } };

    ghost invariant = { λ r. IsKept r.ways r.up.items r.ldp.items };
}

impl Reach {
    /// These pairs of a topology, with nothing failed.
    pub fn new(alloc: Global, topology: &Topology, pairs: Vec<Pair>) -> Result<Reach, AllocError>
        requires { All (λ pair. pair.site.0 < length topology.now.sites) pairs.items }
        ensures of { IfOk result (λ reach. IsOf topology.now reach.plan) }
        ensures pairs { IfOk result (λ reach. reach.plan.pairs ≡ pairs.items) }
        ensures fresh { IfOk result (λ reach. reach ≡ at_first reach.plan) }
    {
        topology.laws();
        the_links_of_a_way_are_there();
        let links = topology.links();
        let up = vec![in alloc; true; links.len()]?;
        let ldp = vec![in alloc; true; links.len()]?;
        let edges = edges_of(alloc, topology)?;
        let nodes = topology.nodes().len() as u32;
        let ways = Ways::new(alloc, nodes, links, edges.as_slice())?;
        let prospects = prospects_of(alloc, topology, &ways, edges.as_slice(), pairs.as_slice())?;
        let by_link = pairs_by_link(alloc, links.len(), prospects.as_slice())?;
        let by_home = pairs_by_home(alloc, topology, pairs.as_slice())?;
        Ok(Reach {
            ways,
            pairs,
            prospects,
            by_link,
            by_home,
            up,
            ldp,
            ended: Vec::new(alloc),
            ends: false,
        })
    }

    /// The pairs.
    pub fn pairs(&self) -> &[Pair]
        ensures { result.now ≡ self.now.plan.pairs }
    {
        self.pairs.as_slice()
    }

    /// Whether memory was wanting at a change: it is then of no use.
    pub fn failed(&self) -> bool
        ensures { result ≡ self.now.failed }
    {
        self.ways.failed()
    }

    /// Makes a link up or down.
    ///
    /// An `Err` means out of memory: it is then of no use.
    pub fn set_up(&mut self, link: LinkNo, up: bool) -> Result<(), AllocError>
        requires sound { self.old.failed ≡ false }
        requires there { link.0 < length self.old.plan.links }
        ensures ok { OnOk result (self.new ≡ record self.old { up = slice_set self.old.up link.0 up }) }
        ensures err { OnErr result (self.new ≡ record self.old { failed = true }) }
    {
        self.ways.set_up(link, up)?;
        self.up[usize::from(link.0)] = up;
        Ok(())
    }

    /// Switches LDP on a link.
    pub fn set_ldp(&mut self, link: LinkNo, on: bool)
        requires { link.0 < length self.old.plan.links }
        ensures { self.new ≡ record self.old { ldp = slice_set self.old.ldp link.0 on } }
    {
        self.ways.set_ldp(link, on);
        self.ldp[usize::from(link.0)] = on;
    }

    /// Ends the session of two edges, the lesser number first. An `Err` changes nothing.
    pub fn end_session(&mut self, one: NodeNo, other: NodeNo) -> Result<(), AllocError>
        ensures ok { OnOk result (self.new ≡ record self.old { ended = self.old.ended ++ (one, other) ∷ [] }) }
        ensures err { OnErr result (self.new ≡ self.old) }
    {
        self.ended.push((one, other))?;
        Ok(())
    }

    /// Begins all sessions again that were ended.
    pub fn begin_sessions(&mut self)
        ensures { self.new ≡ record self.old { ended = [] } }
    {
        self.ended.clear();
    }

    /// Says whether sessions end between edges that no links join.
    pub fn set_ends(&mut self, ends: bool)
        ensures { self.new ≡ record self.old { ends = ends } }
    {
        self.ends = ends;
    }
}
