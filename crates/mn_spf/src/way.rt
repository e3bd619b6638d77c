ghost use Rattle.std.specs.Prelude.{◌≡◌, ◌+◌, ◌^◌, ◌<◌};

use mn_base::NodeNo;
use mn_wiring::LinkEnds;

/// A way from the root to a node. Ways are ordered by cost, and those of one cost by hop.
#[derive(Clone, Copy, PartialEq, Eq, PartialOrd, Ord)]
pub(crate) struct Way {
    /// The sum of its links' costs.
    pub(crate) cost: u32,
    /// The number of the neighbour of the root to which it goes first.
    pub(crate) hop: u16,
    /// The number of the node to which it leads.
    pub(crate) to: u16,
}

impl Way {
    ghost use Rattle.mn_spf.specs.Ways.{way_over};

    /// The way to the root, of no link and with no hop.
    pub(crate) fn start(root: NodeNo) -> Way
        ensures { result ≡ record { cost = 0; hop = 0; to = root.0 } }
    {
        Way {
            cost: 0,
            hop: 0,
            to: root.0,
        }
    }

    /// The way that goes on over a link at its end.
    pub(crate) fn over(self, root: NodeNo, link: LinkEnds) -> Way
        requires { self.cost + link.cost < 2 ^ 32 }
        ensures { result ≡ way_over root.0 self link }
    {
        let to = if link.a.0 == self.to {
            link.b.0
        } else {
            link.a.0
        };
        let hop = if self.to == root.0 { to } else { self.hop };
        Way {
            cost: self.cost + link.cost,
            hop,
            to,
        }
    }
}
