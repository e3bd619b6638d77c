//! How a call of the program may end.
ghost use Rattle.std.specs.Prelude.{◌≡◌};

use mn_join_script::JointsRule;
use mn_pcap::PcapRule;
use mn_script::ScriptRule;
use mn_topo_toml::{Place, TopoRule};

/// What an input, or a run, may not pass.
#[derive(Clone, Copy, Debug, PartialEq, Eq)]
pub enum Limit {
    /// 1 MiB.
    TopologyBytes,
    /// 64 MiB.
    ScriptBytes,
    /// 3,000,000 lines.
    ScriptLines,
    /// 64 MiB.
    CaptureBytes,
    /// 100,000 whole records.
    CaptureRecords,
    /// 4,000,000 steps: a line asked for one more.
    Steps,
    /// 1 MiB of a list of joints.
    JointsBytes,
    /// 100,000 pairs of a site and another site's prefix.
    Pairs,
    /// 1 MiB of the second topology of two.
    SecondBytes,
}

/// How `command` ends, with the status of the program at each.
#[derive(Clone, Copy, Debug, PartialEq, Eq)]
pub enum Outcome {
    /// 0: all was done, and no call on the shelf or the sink failed.
    Done,
    /// 2: the words are no command line of the program.
    Usage,
    /// 3: the topology is refused by this rule, at this table of the file.
    BadTopology { rule: TopoRule, place: Place },
    /// 4: the script is refused by this rule, at this line, from 1.
    BadScript { rule: ScriptRule, line: u32 },
    /// 5: the capture is refused by this rule, at this byte of the file.
    BadCapture { rule: PcapRule, place: u64 },
    /// 6: the shelf failed to read.
    ReadFault,
    /// 7: the shelf or the sink failed to write.
    WriteFault,
    /// 8: memory ran out.
    NoMemory,
    /// 9: an input, or the steps of the script, pass a limit, which is this number.
    TooLarge { which: Limit, limit: u64 },
    /// 11: the list of joints is refused by this rule, at this line, from 1.
    BadJoints { rule: JointsRule, line: u32 },
    /// 12: the second topology is refused by this rule, at this table of the file.
    BadSecond { rule: TopoRule, place: Place },
}

ghost use Rattle.mn_answer.specs.Status.{status_of};

impl Outcome {
    /// The status with which the program ends.
    pub fn status(self) -> u8
        ensures { result ≡ status_of self }
    {
        match self {
            Outcome::Done => 0,
            Outcome::Usage => 2,
            Outcome::BadTopology { .. } => 3,
            Outcome::BadScript { .. } => 4,
            Outcome::BadCapture { .. } => 5,
            Outcome::ReadFault => 6,
            Outcome::WriteFault => 7,
            Outcome::NoMemory => 8,
            Outcome::TooLarge { .. } => 9,
            Outcome::BadJoints { .. } => 11,
            Outcome::BadSecond { .. } => 12,
        }
    }
}
