ghost use Rattle.std.specs.Prelude.{◌≡◌, ◌+◌, ◌^◌, ◌<◌, nat_lt};

use mn_base::NodeNo;
use mn_wiring::LinkEnds;

/// A way from the root to a node. Ways are ordered by cost, and those of one cost by hop.
#[derive(Clone, Copy, PartialEq, Eq, PartialOrd, Ord)]
pub(crate) struct Way {
    /// The sum of its links' costs.
    pub(crate) cost: u32,
    /// The number of the neighbour of the root to which it goes first; 0 for the root itself.
    pub(crate) hop: u16,
    /// The number of the node to which it leads.
    pub(crate) to: u16,
}

/// The end of a link other than this node.
pub(crate) fn other_end(link: LinkEnds, node: NodeNo) -> NodeNo
    ensures { result.0 ≡ other_end link node.0 }
{
    if link.a == node { link.b } else { link.a }
}

ghost use Rattle.mn_spf.specs.Ways.{other_end};

impl Way {
    ghost use Rattle.mn_spf_inc.specs.Ways.{rank_of, way_over};

    /// The way that goes on over a link at its end.
    pub(crate) fn over(self, root: NodeNo, link: LinkEnds) -> Way
        requires { self.cost + link.cost < 2 ^ 32 }
        ensures { result ≡ way_over root.0 self link }
    {
        let to = other_end(link, NodeNo(self.to)).0;
        let hop = if self.to == root.0 { to } else { self.hop };
        Way {
            cost: self.cost + link.cost,
            hop,
            to,
        }
    }

    /// Whether it costs less, or as much by a lesser hop.
    pub(crate) fn beats(self, other: Way) -> bool
        ensures { result ≡ nat_lt (rank_of self) (rank_of other) }
    {
        self.cost < other.cost || self.cost == other.cost && self.hop < other.hop
    }
}
