//! A frame is lost, and all on a link are cut off.
ghost use Rattle.std.specs.Prelude.{◌≡◌, ◌<◌, ℕ, List, length, slice_get};
ghost use Rattle.mn_flight.specs.Flying.{on_channel, off_channel, without};
ghost use Rattle.mn_ledger.specs.Prelude.{Forth, Back, channel, Packets, cut, packets_after, World};
ghost use Rattle.mn_topo.specs.declared.steps.Step.TheVariants as Step;
ghost use Rattle.mn_frame_laws.specs.Given.{Labelling};
ghost use Rattle.mn_transit.specs.Moving.{CountsOn};
ghost use Rattle.mn_transit.specs.Stands.{StandsFor};

use crate::transit::Transit;
use mn_base::LinkNo;
use mn_drops::Rule;
use mn_ledger::Verdict;
use mn_topo::Topology;
use mn_wiring::{Dir, channel_of};

impl Transit {
    /// Loses the packet at a place of a direction of a link, at the node that sent it.
    pub fn lose(&mut self, topology: &Topology, link: LinkNo, dir: Dir, place: u32)
        requires link { link.0 < length topology.now.links }
        requires there { place < length (on_channel (channel link.0 dir) self.old.flying) }
        ensures moved { (given : Labelling) (world : World) (packets : Packets) (bytes : List ℕ) → StandsFor topology.now given self.old packets →
            StandsFor topology.now given self.new (packets_after topology.now world packets (Step.Lose link dir place) bytes) }
        ensures left { self.new.flying ≡ without (slice_get (on_channel (channel link.0 dir) self.old.flying) place) self.old.flying }
        ensures counts { CountsOn self.old self.new 0 0 0 }
    {
        let node = topology.sender(link, dir);
        let at = channel_of(link, dir);
        self.begin();
        if let Some(taken) = self.take(at, place) {
            let rule = Rule::Lost;
            self.judge(taken.item.packet, Verdict::Dropped { rule, node });
        }
    }

    /// Ends all that flies on a direction of a link, at the node that sent it.
    fn cut(&mut self, topology: &Topology, link: LinkNo, dir: Dir)
        requires { link.0 < length topology.now.links }
        ensures cut { (given : Labelling) (packets : Packets) → StandsFor topology.now given self.old packets → StandsFor topology.now given self.new (cut topology.now packets link.0 dir) }
        ensures left { self.new.flying ≡ off_channel (channel link.0 dir) self.old.flying }
        ensures counts { CountsOn self.old self.new 0 0 0 }
    {
        let from = topology.sender(link, dir);
        let at = channel_of(link, dir);
        'frames: while let Some(taken) = self.take(at, 0) {
            let rule = Rule::LinkCut;
            self.judge(taken.item.packet, Verdict::Dropped { rule, node: from });
        }
    }

    /// Ends all that flies on a link, at the nodes that sent it.
    pub fn link_down(&mut self, topology: &Topology, link: LinkNo)
        requires { link.0 < length topology.now.links }
        ensures moved { (given : Labelling) (world : World) (packets : Packets) (bytes : List ℕ) → StandsFor topology.now given self.old packets →
            StandsFor topology.now given self.new (packets_after topology.now world packets (Step.LinkDown link) bytes) }
        ensures left { self.new.flying ≡ off_channel (channel link.0 Back) (off_channel (channel link.0 Forth) self.old.flying) }
        ensures counts { CountsOn self.old self.new 0 0 0 }
    {
        self.begin();
        self.cut(topology, link, Dir::Forth);
        self.cut(topology, link, Dir::Back);
    }
}
