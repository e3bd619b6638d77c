//! The steps of links and of LDP.
ghost use Rattle.std.specs.Prelude.{◌≡◌, ◌<◌, ◌≤◌, ◌-◌, ◌^◌, ℕ, [], true, slice_index, IfOk, OnOk, OnErr};
ghost use Rattle.std.specs.List.{All};
ghost use Rattle.mn_topo.specs.declared.steps.Step.TheVariants as step;
ghost use Rattle.mn_transport_laws.specs.Steps.{MayDo, Did};
ghost use Rattle.mn_net.specs.Prelude.{MayBeDone, IsDone, HasFailed};
ghost use Rattle.mn_net.specs.Turns.{link_step};

use crate::doing::do_step;
use crate::net::Net;
use crate::turns::LinkTurn;
use mn_base::LinkNo;
use mn_flight::Clock;
use mn_topo::{Step, Topology};
use mn_transport::Transport;
use std::alloc::AllocError;

/// The transport does its part of a step of links or LDP. It answers how many items that made.
fn act(
    transport: &mut Transport,
    topology: &Topology,
    turn: &LinkTurn,
    clock: Clock,
) -> Result<u64, AllocError>
    requires tick { clock.tick ≤ 2 ^ 63 }
    requires numbers { clock.number ≤ 2 ^ 62 }
    requires changes { (l : ℕ) → slice_index transport.old.changes l < 2 ^ 32 - 1 }
    requires notices { All (λ item. item.number < clock.number) transport.old.notices }
    requires messages { All (λ item. item.number < clock.number) transport.old.messages }
    requires may { MayDo topology.now (link_step turn.now) transport.old }
    ensures did { IfOk result (λ made. Did topology.now clock.tick clock.number (link_step turn.now) transport.old transport.new made) }
{
    match *turn {
        LinkTurn::Up(link) => transport.link_up(topology, link, clock),
        LinkTurn::Learn(node, link) => transport.learn(topology, node, link, clock),
        LinkTurn::LdpAdmin(link, on) => transport.ldp_admin(topology, link, on, clock),
        LinkTurn::HearLdp(link, dir) => transport.hear_ldp(topology, link, dir, clock),
    }
}

impl Net {
    /// A step of links or LDP that cuts no link off.
    pub(crate) fn turn_link(&mut self, turn: LinkTurn) -> Result<(), AllocError>
        requires may { MayBeDone self.old (link_step turn) [] }
        ensures done { OnOk result (IsDone self.old self.new (link_step turn) []) }
        ensures failed { OnErr result (HasFailed self.old self.new) }
    {
        do_step!(self, clock, turn.step() => {
            let more = act(&mut self.transport, &self.topology, &turn, clock)?;
            self.transit.begin();
            more
        });
        Ok(())
    }

    /// A link goes down, and all on it is cut off.
    pub(crate) fn link_down(&mut self, link: LinkNo) -> Result<(), AllocError>
        requires may { MayBeDone self.old (step.LinkDown link) [] }
        ensures done { OnOk result (IsDone self.old self.new (step.LinkDown link) []) }
        ensures failed { OnErr result (HasFailed self.old self.new) }
    {
        do_step!(self, clock, Step::LinkDown(link) => {
            let more = self.transport.link_down(&self.topology, link, clock)?;
            self.transit.link_down(&self.topology, link);
            more
        });
        Ok(())
    }
}
