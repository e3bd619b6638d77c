//! What a line of a file of failures asks for.
ghost use Rattle.std.specs.Prelude.{◌≡◌, ◌++◌, ◌∷◌, [], OnOk};

use mn_base::{LinkNo, NodeNo};
use mn_wiring::Dir;
use std::alloc::{AllocError, Global};
use std::marker::Model;

/// A thing that fails. Ends are told back in the order in which they were named.
#[derive(Clone, Copy, Debug, PartialEq, Eq)]
pub enum Part {
    /// A link is down; the direction is from the end that was named first.
    LinkDown(LinkNo, Dir),
    /// LDP is off on a link; the direction is from the end that was named first.
    LdpOff(LinkNo, Dir),
    /// The BGP session of two edges is down.
    BgpDown(NodeNo, NodeNo),
    /// All links of a node are down.
    NodeDown(NodeNo),
}

/// What fails at once: from 1 to 1,024 parts.
#[derive(Debug, Drop)]
pub struct Parts {
    parts: Vec<Part>,
}

impl Model for Parts {
    ghost use Rattle.std.specs.Prelude.{List};
    ghost use Rattle.mn_failures.specs.declared.command.Part.{Part};

    ghost Value = { List Part };

    ghost view = { λ a. a.parts.items };
}

impl Parts {
    /// No parts.
    pub(crate) fn new(alloc: Global) -> Parts
        ensures { result ≡ [] }
    {
        Parts {
            parts: Vec::new(alloc),
        }
    }

    /// One more part.
    pub(crate) fn push(&mut self, part: Part) -> Result<(), AllocError>
        ensures { OnOk result (self.new ≡ self.old ++ part ∷ []) }
    {
        self.parts.push(part)?;
        Ok(())
    }

    /// The parts in order.
    pub fn as_slice(&self) -> &[Part]
        ensures { result.now ≡ self.now }
    {
        &self.parts
    }
}

/// Failures that one line stands for, one after another.
#[derive(Clone, Copy, Debug, PartialEq, Eq)]
pub enum Each {
    /// Each link down.
    Link,
    /// LDP off on each link.
    Ldp,
    /// Each node down.
    Node,
    /// The session of each two edges down that exchange routes.
    Bgp,
    /// So many links down at once, 2 or 3, of which the first has a number from `from` to `to`.
    Links { many: u8, from: u16, to: u16 },
}

/// Whether routes to whose edge no label path leads stand aside for the others.
#[derive(Clone, Copy, Debug, PartialEq, Eq)]
pub enum Resolve {
    /// As the topology says.
    AsTopology,
    /// They don't.
    Never,
    /// They do.
    ByLabel,
}

/// What a line asks for.
#[derive(Debug, Drop)]
pub enum FailureCommand {
    /// That these parts fail at once.
    Fail(Parts),
    /// That each of these fails.
    Each(Each),
    /// That from here on sessions end between edges that no links join, or that they stay.
    Sessions { end: bool },
    /// That from here on next hops are resolved so.
    Resolve(Resolve),
    /// That from here on each loss is reported.
    Losses,
    /// That from here on only the number of losses is reported.
    Counts,
    /// That from here on packets are sent with this TTL.
    Ttl(u8),
}

/// A command, and the number of its line.
#[derive(Debug, Drop)]
pub struct FailureLine {
    /// From 1. Each line counts; lines past 4,294,967,295 have this number too.
    pub number: u32,
    pub command: FailureCommand,
}
