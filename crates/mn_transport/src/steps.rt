//! One call for each step of the transport.
ghost use Rattle.std.specs.Prelude.{◌≡◌, ◌≢◌, ◌<◌, ◌≤◌, ◌+◌, ◌*◌, ◌-◌, ◌^◌, ℕ, Bool, true, false, length, slice_get, slice_index, slice_set, IfOk, OnOk, OnErr, IsErr};
ghost use Rattle.std.specs.List.{All};
ghost use Rattle.mn_ledger.specs.Prelude.{sender, receiver, is_end, Forth, Back, Event, Learns, Opens, Closes, wiring_of, channel};
ghost use Rattle.mn_wiring.specs.Wiring.{link as link_of};
ghost use Rattle.mn_transport.specs.Prelude.{IsFlight, is_odd, is_link_up, turned_by, MayAct, MayHear, Acts, TurnsEnds, MayBoth, MayTurn, TurnsLink, MaySwitch, Switches, LearnsNext, CanHear, HearsNext, MayDo, Did};
ghost use Rattle.mn_topo.specs.declared.steps.Step.TheVariants as step;

use crate::flying::{channel_at, cut, send, tell_all};
use crate::transport::{Transport, labels_fit};
use mn_base::{LinkNo, NodeNo};
use mn_flight::{Clock, Flight};
use mn_lsr::LsrBad;
use mn_topo::Topology;
use mn_wiring::{Dir, channel_of};
use std::alloc::AllocError;

/// The channel of a node's notices of a link.
fn channel_to(topology: &Topology, link: LinkNo, node: NodeNo) -> u32
    requires link { link.0 < length topology.now.links }
    requires node { node.0 < length topology.now.loopbacks }
    ensures { result ≡ link.0 * length topology.now.loopbacks + node.0 }
{
    channel_at(topology, link, u32::from(node.0))
}

impl Transport {
    /// The session of a link opens at one of its ends. It answers the number after the last item's.
    fn open(
        &mut self,
        topology: &Topology,
        link: LinkNo,
        end: NodeNo,
        clock: Clock,
    ) -> Result<u64, AllocError>
        requires tick { clock.tick ≤ 2 ^ 63 }
        requires numbers { clock.number ≤ 2 ^ 63 }
        requires number { All (λ item. item.number < clock.number) self.old.messages }
        requires may { MayAct topology.now self.old end.0 (Opens link.0) }
        ensures acts { IfOk result (λ next. Acts topology.now clock.tick clock.number end.0 (Opens link.0) self.old self.new next) }
        ensures number { IfOk result (λ next. All (λ item. item.number < next) self.new.messages) }
    {
        topology.laws();
        let out = self.nodes[usize::from(end.0)].open(link)?;
        send(&mut self.messages, topology, end, out, clock)
    }

    /// And it closes there.
    fn close(
        &mut self,
        topology: &Topology,
        link: LinkNo,
        end: NodeNo,
        clock: Clock,
    ) -> Result<u64, AllocError>
        requires tick { clock.tick ≤ 2 ^ 63 }
        requires numbers { clock.number ≤ 2 ^ 63 }
        requires number { All (λ item. item.number < clock.number) self.old.messages }
        requires may { MayAct topology.now self.old end.0 (Closes link.0) }
        ensures acts { IfOk result (λ next. Acts topology.now clock.tick clock.number end.0 (Closes link.0) self.old self.new next) }
        ensures number { IfOk result (λ next. All (λ item. item.number < next) self.new.messages) }
    {
        topology.laws();
        let node = &mut self.nodes[usize::from(end.0)];
        let out = node.close(link, clock.tick)?;
        labels_fit(node);
        send(&mut self.messages, topology, end, out, clock)
    }

    /// It opens or closes there.
    fn turn_end(
        &mut self,
        topology: &Topology,
        link: LinkNo,
        end: NodeNo,
        opens: bool,
        clock: Clock,
    ) -> Result<u64, AllocError>
        requires tick { clock.tick ≤ 2 ^ 63 }
        requires numbers { clock.number ≤ 2 ^ 63 }
        requires number { All (λ item. item.number < clock.number) self.old.messages }
        requires may { MayAct topology.now self.old end.0 (turned_by opens link.0) }
        ensures acts { IfOk result (λ next. Acts topology.now clock.tick clock.number end.0 (turned_by opens link.0) self.old self.new next) }
        ensures number { IfOk result (λ next. All (λ item. item.number < next) self.new.messages) }
    {
        if opens {
            self.open(topology, link, end, clock)
        } else {
            self.close(topology, link, end, clock)
        }
    }

    /// The session of a link opens or closes, at its end `a` and then at its end `b`.
    fn turn_session(
        &mut self,
        topology: &Topology,
        link: LinkNo,
        opens: bool,
        clock: Clock,
    ) -> Result<u64, AllocError>
        requires link { link.0 < length topology.now.links }
        requires tick { clock.tick ≤ 2 ^ 63 }
        requires numbers { clock.number ≤ 2 ^ 62 + 256 }
        requires number { All (λ item. item.number < clock.number) self.old.messages }
        requires both { MayBoth topology.now self.old link.0 (turned_by opens link.0) }
        ensures number { IfOk result (λ next. All (λ item. item.number < next) self.new.messages) }
        ensures turns { IfOk result (λ next. TurnsEnds topology.now clock.tick clock.number link.0 (turned_by opens link.0) self.old self.new next) }
    {
        topology.laws();
        let ends = &topology.links()[usize::from(link.0)];
        let number = self.turn_end(topology, link, ends.a, opens, clock)?;
        let clock = Clock {
            tick: clock.tick,
            number,
        };
        self.turn_end(topology, link, ends.b, opens, clock)
    }

    /// A link's changes are one more.
    fn change(&mut self, link: LinkNo, up: bool)
        requires link { link.0 < length self.old.changes }
        requires few { slice_index self.old.changes link.0 < 2 ^ 32 - 1 }
        requires turns { is_link_up self.old.changes link.0 ≢ up }
        ensures { self.new ≡ record self.old { changes = slice_set self.old.changes link.0 (slice_index self.old.changes link.0 + 1) } }
    {
        match self.changes.change(link, up) {
            Ok(_) => {}
            Err(_) => unreachable!(),
        }
    }

    /// A link comes up or goes down. All are told, and where LDP is switched on for it its session opens or closes.
    fn turn_link(
        &mut self,
        topology: &Topology,
        link: LinkNo,
        up: bool,
        clock: Clock,
    ) -> Result<u64, AllocError>
        requires tick { clock.tick ≤ 2 ^ 63 }
        requires numbers { clock.number ≤ 2 ^ 62 }
        requires changes { slice_index self.old.changes link.0 < 2 ^ 32 - 1 }
        requires notices { All (λ item. item.number < clock.number) self.old.notices }
        requires messages { All (λ item. item.number < clock.number) self.old.messages }
        requires may { MayTurn topology.now self.old link.0 up }
        ensures notices_below { IfOk result (λ next. All (λ item. item.number < next) self.new.notices) }
        ensures messages_below { IfOk result (λ next. All (λ item. item.number < next) self.new.messages) }
        ensures turns { IfOk result (λ next. TurnsLink topology.now clock.tick clock.number link.0 up self.old self.new next) }
    {
        topology.laws();
        self.change(link, up);
        let number = tell_all(&mut self.notices, topology, link, clock)?;
        cut(&mut self.messages, link);
        if !self.ldp_on(link) {
            return Ok(number);
        }
        let clock = Clock {
            tick: clock.tick,
            number,
        };
        self.turn_session(topology, link, up, clock)
    }

    /// LDP is switched on or off for a link. Where the link is up its session opens or closes.
    fn switch(
        &mut self,
        topology: &Topology,
        link: LinkNo,
        on: bool,
        clock: Clock,
    ) -> Result<u64, AllocError>
        requires tick { clock.tick ≤ 2 ^ 63 }
        requires numbers { clock.number ≤ 2 ^ 62 }
        requires messages { All (λ item. item.number < clock.number) self.old.messages }
        requires may { MaySwitch topology.now self.old link.0 on }
        ensures number { IfOk result (λ next. (clock.number ≤ next) × All (λ item. item.number < next) self.new.messages) }
        ensures switches { IfOk result (λ next. Switches topology.now clock.tick clock.number link.0 on self.old self.new next) }
    {
        self.switches[usize::from(link.0)] = on;
        cut(&mut self.messages, link);
        if !self.is_link_up(link) {
            return Ok(clock.number);
        }
        self.turn_session(topology, link, on, clock)
    }

    /// A node learns the next change of a link.
    fn learn_next(
        &mut self,
        topology: &Topology,
        node: NodeNo,
        link: LinkNo,
        clock: Clock,
    ) -> Result<u64, AllocError>
        requires node { node.0 < length topology.now.loopbacks }
        requires tick { clock.tick ≤ 2 ^ 63 }
        requires numbers { clock.number ≤ 2 ^ 62 }
        requires messages { All (λ item. item.number < clock.number) self.old.messages }
        requires may { MayAct topology.now self.old node.0 (Learns link.0) }
        ensures number { IfOk result (λ next. (clock.number ≤ next) × All (λ item. item.number < next) self.new.messages) }
        ensures learns { IfOk result (λ next. LearnsNext topology.now clock.tick clock.number node.0 link.0 self.old self.new next) }
        ensures flight { OnOk result ((channels : ℕ) × IsFlight channels self.old.notices) }
    {
        topology.laws();
        let _ = self.notices.take(channel_to(topology, link, node), 0);
        let learner = &mut self.nodes[usize::from(node.0)];
        let out = match learner.learn(&self.changes, link, clock.tick) {
            Ok(out) => out,
            // There is a change to learn.
            Err(LsrBad::Empty) => unreachable!(),
            Err(_) => return Err(AllocError),
        };
        labels_fit(learner);
        send(&mut self.messages, topology, node, out, clock)
    }

    /// The node at the end of a direction receives the next PDU.
    fn hear_next(
        &mut self,
        topology: &Topology,
        link: LinkNo,
        dir: Dir,
        clock: Clock,
    ) -> Result<u64, AllocError>
        requires link { link.0 < length topology.now.links }
        requires tick { clock.tick ≤ 2 ^ 63 }
        requires numbers { clock.number ≤ 2 ^ 62 }
        requires messages { All (λ item. item.number < clock.number) self.old.messages }
        requires may { CanHear topology.now self.old link.0 dir }
        ensures flight { OnOk result ((channels : ℕ) × IsFlight channels self.old.messages) }
        ensures number { IfOk result (λ next. (clock.number ≤ next) × All (λ item. item.number < next) self.new.messages) }
        ensures hears { (event : Event) → MayHear topology.now self.old link.0 dir event →
            IfOk result (λ next. HearsNext topology.now clock.tick clock.number link.0 dir event self.old self.new next) }
    {
        topology.laws();
        let node = topology.receiver(link, dir);
        let Some(pdu) = self.messages.take(channel_of(link, dir), 0) else {
            unreachable!();
        };
        let hearer = &mut self.nodes[usize::from(node.0)];
        let out = match hearer.hear_ldp(link, pdu.item.as_slice(), clock.tick) {
            Ok(out) => out,
            Err(LsrBad::NoMemory) => return Err(AllocError),
            // What flies is what was sent, and comes in turn.
            Err(_) => unreachable!(),
        };
        labels_fit(hearer);
        send(&mut self.messages, topology, node, out, clock)
    }

    /// A link comes up: each node is to be told, and where LDP is switched on for it its session opens (RFC 5036, section 2.5.2).
    ///
    /// It answers how many items that made, of which the first has the clock's number. After running out of memory nothing is
    /// promised of the transport.
    pub fn link_up(
        &mut self,
        topology: &Topology,
        link: LinkNo,
        clock: Clock,
    ) -> Result<u64, AllocError>
        requires tick { clock.tick ≤ 2 ^ 63 }
        requires numbers { clock.number ≤ 2 ^ 62 }
        requires changes { slice_index self.old.changes link.0 < 2 ^ 32 - 1 }
        requires notices { All (λ item. item.number < clock.number) self.old.notices }
        requires messages { All (λ item. item.number < clock.number) self.old.messages }
        requires may { MayDo topology.now (step.LinkUp link) self.old }
        ensures did { IfOk result (λ made. Did topology.now clock.tick clock.number (step.LinkUp link) self.old self.new made) }
        ensures fits { IfOk result (λ made. clock.number + made < 2 ^ 64) }
        ensures notices_below { IfOk result (λ made. All (λ item. item.number < clock.number + made) self.new.notices) }
        ensures messages_below { IfOk result (λ made. All (λ item. item.number < clock.number + made) self.new.messages) }
    {
        topology.laws();
        let next = self.turn_link(topology, link, true, clock)?;
        Ok(next - clock.number)
    }

    /// A link goes down: each node is to be told, nothing flies on it any more, and its session closes, with all labels that were
    /// received in it.
    ///
    /// It answers how many items that made, of which the first has the clock's number. After running out of memory nothing is
    /// promised of the transport.
    pub fn link_down(
        &mut self,
        topology: &Topology,
        link: LinkNo,
        clock: Clock,
    ) -> Result<u64, AllocError>
        requires tick { clock.tick ≤ 2 ^ 63 }
        requires numbers { clock.number ≤ 2 ^ 62 }
        requires changes { slice_index self.old.changes link.0 < 2 ^ 32 - 1 }
        requires notices { All (λ item. item.number < clock.number) self.old.notices }
        requires messages { All (λ item. item.number < clock.number) self.old.messages }
        requires may { MayDo topology.now (step.LinkDown link) self.old }
        ensures did { IfOk result (λ made. Did topology.now clock.tick clock.number (step.LinkDown link) self.old self.new made) }
        ensures fits { IfOk result (λ made. clock.number + made < 2 ^ 64) }
        ensures notices_below { IfOk result (λ made. All (λ item. item.number < clock.number + made) self.new.notices) }
        ensures messages_below { IfOk result (λ made. All (λ item. item.number < clock.number + made) self.new.messages) }
    {
        topology.laws();
        let next = self.turn_link(topology, link, false, clock)?;
        Ok(next - clock.number)
    }

    /// LDP is switched on or off for a link, whose session opens or closes where the link is up.
    ///
    /// It answers how many items that made, of which the first has the clock's number. After running out of memory nothing is
    /// promised of the transport.
    pub fn ldp_admin(
        &mut self,
        topology: &Topology,
        link: LinkNo,
        on: bool,
        clock: Clock,
    ) -> Result<u64, AllocError>
        requires tick { clock.tick ≤ 2 ^ 63 }
        requires numbers { clock.number ≤ 2 ^ 62 }
        requires notices { All (λ item. item.number < clock.number) self.old.notices }
        requires messages { All (λ item. item.number < clock.number) self.old.messages }
        requires may { MayDo topology.now (step.LdpAdmin link on) self.old }
        ensures did { IfOk result (λ made. Did topology.now clock.tick clock.number (step.LdpAdmin link on) self.old self.new made) }
        ensures fits { IfOk result (λ made. clock.number + made < 2 ^ 64) }
        ensures notices_below { IfOk result (λ made. All (λ item. item.number < clock.number + made) self.new.notices) }
        ensures messages_below { IfOk result (λ made. All (λ item. item.number < clock.number + made) self.new.messages) }
    {
        topology.laws();
        let next = self.switch(topology, link, on, clock)?;
        Ok(next - clock.number)
    }

    /// A node learns the next change of a link, and says what its offers have become (RFC 5036, section 2.6.1).
    ///
    /// It answers how many items that made, of which the first has the clock's number. After running out of memory nothing is
    /// promised of the transport.
    pub fn learn(
        &mut self,
        topology: &Topology,
        node: NodeNo,
        link: LinkNo,
        clock: Clock,
    ) -> Result<u64, AllocError>
        requires tick { clock.tick ≤ 2 ^ 63 }
        requires numbers { clock.number ≤ 2 ^ 62 }
        requires notices { All (λ item. item.number < clock.number) self.old.notices }
        requires messages { All (λ item. item.number < clock.number) self.old.messages }
        requires may { MayDo topology.now (step.Learn node link) self.old }
        ensures did { IfOk result (λ made. Did topology.now clock.tick clock.number (step.Learn node link) self.old self.new made) }
        ensures fits { IfOk result (λ made. clock.number + made < 2 ^ 64) }
        ensures notices_below { IfOk result (λ made. All (λ item. item.number < clock.number + made) self.new.notices) }
        ensures messages_below { IfOk result (λ made. All (λ item. item.number < clock.number + made) self.new.messages) }
    {
        topology.laws();
        let next = self.learn_next(topology, node, link, clock)?;
        Ok(next - clock.number)
    }

    /// The end of a link to which a direction leads receives the next PDU there (RFC 5036, section 3.5). It is never refused.
    ///
    /// It answers how many items that made, of which the first has the clock's number. After running out of memory nothing is
    /// promised of the transport.
    pub fn hear_ldp(
        &mut self,
        topology: &Topology,
        link: LinkNo,
        dir: Dir,
        clock: Clock,
    ) -> Result<u64, AllocError>
        requires tick { clock.tick ≤ 2 ^ 63 }
        requires numbers { clock.number ≤ 2 ^ 62 }
        requires notices { All (λ item. item.number < clock.number) self.old.notices }
        requires messages { All (λ item. item.number < clock.number) self.old.messages }
        requires may { MayDo topology.now (step.HearLdp link dir) self.old }
        ensures did { IfOk result (λ made. Did topology.now clock.tick clock.number (step.HearLdp link dir) self.old self.new made) }
        ensures fits { IfOk result (λ made. clock.number + made < 2 ^ 64) }
        ensures notices_below { IfOk result (λ made. All (λ item. item.number < clock.number + made) self.new.notices) }
        ensures messages_below { IfOk result (λ made. All (λ item. item.number < clock.number + made) self.new.messages) }
    {
        topology.laws();
        let next = self.hear_next(topology, link, dir, clock)?;
        Ok(next - clock.number)
    }
}
