//! How failures are reported.
ghost use Rattle.std.specs.Prelude.{◌≡◌};
ghost use Rattle.mn_reach_run.specs.Fates.{resolves};
ghost use Rattle.mn_reach_run.specs.Report.{first_settings, is_setting, settings_after};

use mn_failures::{FailureCommand, Resolve};
use mn_topo::Topology;

/// How failures are reported from a line on.
#[derive(Clone, Copy)]
pub struct Settings {
    /// The TTL with which packets are sent, 2 to 255.
    pub ttl: u32,
    /// Whether of each failure only the numbers of losses are told.
    pub counts: bool,
    /// Whether the sessions of edges end where no links lead from the one to the other.
    pub ends: bool,
    /// Whether routes to whose edge no label path leads stand aside for the others.
    pub resolve: Resolve,
}

impl Settings {
    /// Before any line: TTL 64, each loss is told, sessions stay, and next hops are resolved as the topology says.
    pub(crate) fn first() -> Settings
        ensures { result ≡ first_settings }
    {
        Settings {
            ttl: 64,
            counts: false,
            ends: false,
            resolve: Resolve::AsTopology,
        }
    }

    /// After a command.
    pub(crate) fn after(self, command: &FailureCommand) -> Settings
        ensures { result ≡ settings_after self command.now }
    {
        let mut next = self;
        match command {
            FailureCommand::Sessions { end } => next.ends = *end,
            FailureCommand::Resolve(resolve) => next.resolve = *resolve,
            FailureCommand::Losses => next.counts = false,
            FailureCommand::Counts => next.counts = true,
            FailureCommand::Ttl(ttl) => next.ttl = u32::from(*ttl),
            FailureCommand::Fail(_) | FailureCommand::Each(_) => {}
        }
        next
    }

    /// Whether routes to whose edge no label path leads stand aside for the others in a topology.
    pub(crate) fn resolves(self, topology: &Topology) -> bool
        ensures { result ≡ resolves self.resolve topology.now.resolve }
    {
        match self.resolve {
            Resolve::AsTopology => topology.resolve(),
            Resolve::Never => false,
            Resolve::ByLabel => true,
        }
    }
}

/// Whether a command says how failures are reported from there on; else it stands for failures.
pub(crate) fn is_setting(command: &FailureCommand) -> bool
    ensures { result ≡ is_setting command.now }
{
    !matches!(command, FailureCommand::Fail(_) | FailureCommand::Each(_))
}
