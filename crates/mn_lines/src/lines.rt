ghost use Rattle.std.specs.Prelude.{◌≡◌};
ghost use Rattle.mn_lines.specs.Lines.{cause_name, rule_name};

use mn_base::{NodeNo, SiteNo};
use mn_drops::Rule;
use mn_ledger::{Refused, Verdict};

/// A packet that a line of the script sent.
#[derive(Clone, Copy, Debug, PartialEq, Eq)]
pub struct Sent {
    /// The script's line, from 1.
    pub line: u32,
    /// Where the packet entered.
    pub site: SiteNo,
    /// The record of the capture, from 1.
    pub record: u32,
}

/// A packet of a run: its number, from 1, what sent it, what became of it, and at which nodes it was.
#[derive(Clone, Copy)]
pub struct Packet<'p> {
    pub number: u32,
    pub sent: Sent,
    pub verdict: Verdict,
    pub path: &'p [NodeNo],
}

/// What the last line counts.
#[derive(Clone, Copy, Debug, PartialEq, Eq)]
pub struct Totals {
    pub packets: u32,
    pub delivered: u32,
    pub dropped: u32,
    pub flying: u32,
    pub steps: u32,
    pub refused: u32,
    pub tick: u64,
}

/// A rule by its name.
pub fn rule_name(rule: Rule) -> &'static str
    ensures { result.now ≡ rule_name rule }
{
    match rule {
        Rule::SiteDown => "SiteDown",
        Rule::NotIpv4 => "NotIpv4",
        Rule::Malformed => "Malformed",
        Rule::Truncated => "Truncated",
        Rule::BadChecksum => "BadChecksum",
        Rule::TtlExpired => "TtlExpired",
        Rule::NotUnicast => "NotUnicast",
        Rule::NoRoute => "NoRoute",
        Rule::NoLsp => "NoLsp",
        Rule::NoEntry => "NoEntry",
        Rule::SiteGone => "SiteGone",
        Rule::Lost => "Lost",
        Rule::LinkCut => "LinkCut",
        Rule::Overdue => "Overdue",
    }
}

/// A cause by its name.
pub fn cause_name(cause: Refused) -> &'static str
    ensures { result.now ≡ cause_name cause }
{
    match cause {
        Refused::Unchanged => "Unchanged",
        Refused::Empty => "Empty",
        Refused::StillReads => "StillReads",
        Refused::PrefixTaken { .. } => "PrefixTaken",
        Refused::NoRouteThere => "NoRouteThere",
        Refused::RoutesFull => "RoutesFull",
        Refused::TargetsFull => "TargetsFull",
        Refused::LabelsSpent => "LabelsSpent",
        Refused::NetFull => "NetFull",
        Refused::TooManySteps => "TooManySteps",
        Refused::NoMemory => "NoMemory",
    }
}
