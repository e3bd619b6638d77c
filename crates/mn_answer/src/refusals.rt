//! The line of an outcome that refuses.
ghost use Rattle.std.specs.Prelude.{◌≡◌, ◌≢◌, ◌++◌, IfErr, IfOk, OnErr, OnOk, Some, string_bytes};
ghost use Rattle.std.specs.Option.{ForSome};
ghost use Rattle.mn_edge.specs.Faults.{Counted};
ghost use Rattle.mn_lines.specs.Putting.{PartPut};
ghost use Rattle.mn_answer.specs.Refusals.{topo_rule_name, place_text, script_rule_name, pcap_rule_name, joints_rule_name, limit_line, refusal_line};
ghost use Rattle.mn_answer.specs.Answer.{refusal_of};
ghost use Rattle.mn_answer.specs.Inputs.{HasPlainLine, IsRefusal};
ghost use Rattle.mn_answer.specs.Endings.{OutcomeIs, TextIs, SinkCausedBy};

use crate::outcome::{Limit, Outcome};
use mn_edge::{DeviceBad, Sink};
use mn_join_script::JointsRule;
use mn_pcap::PcapRule;
use mn_script::ScriptRule;
use mn_topo_toml::{Place, TopoRule};
use std::alloc::{AllocError, Global};

/// A rule of topologies by its number and name.
fn topo_rule_name(rule: TopoRule) -> &'static str
    ensures { result.now ≡ topo_rule_name rule }
{
    match rule {
        TopoRule::NotToml => "T1 NotToml",
        TopoRule::UnknownKey => "T2 UnknownKey",
        TopoRule::MissingKey => "T3 MissingKey",
        TopoRule::WrongKind => "T4 WrongKind",
        TopoRule::BadName => "T5 BadName",
        TopoRule::TwiceNamed => "T6 TwiceNamed",
        TopoRule::NoSuchName => "T7 NoSuchName",
        TopoRule::SelfLink => "T8 SelfLink",
        TopoRule::TwiceLinked => "T9 TwiceLinked",
        TopoRule::TwiceLoopback => "T10 TwiceLoopback",
        TopoRule::BadCost => "T11 BadCost",
        TopoRule::BadDelay => "T12 BadDelay",
        TopoRule::TwiceRd => "T13 TwiceRd",
        TopoRule::BadTarget => "T14 BadTarget",
        TopoRule::PrefixTaken => "T15 PrefixTaken",
        TopoRule::TooMany => "T16 TooMany",
    }
}

/// The table of a topology that breaks a rule.
fn place_text(alloc: Global, place: Place) -> Result<String, AllocError>
    ensures { IfOk result (λ words. string_bytes words ≡ place_text place) }
{
    match place {
        Place::Top => String::from_str(alloc, "top"),
        Place::Node(index) => format!(in alloc; "node {index}"),
        Place::Link(index) => format!(in alloc; "link {index}"),
        Place::Vrf(index) => format!(in alloc; "vrf {index}"),
        Place::Site(index) => format!(in alloc; "site {index}"),
    }
}

/// A rule of scripts by its number and name.
fn script_rule_name(rule: ScriptRule) -> &'static str
    ensures { result.now ≡ script_rule_name rule }
{
    match rule {
        ScriptRule::UnknownWord => "S1 UnknownWord",
        ScriptRule::WrongCount => "S2 WrongCount",
        ScriptRule::BadNumber => "S3 BadNumber",
        ScriptRule::NoSuchName => "S4 NoSuchName",
        ScriptRule::NotLinked => "S5 NotLinked",
        ScriptRule::NotEdge => "S6 NotEdge",
    }
}

/// A rule of captures by its name.
fn pcap_rule_name(rule: PcapRule) -> &'static str
    ensures { result.now ≡ pcap_rule_name rule }
{
    match rule {
        PcapRule::CutShort => "CutShort",
        PcapRule::IsPcapng => "IsPcapng",
        PcapRule::BadMagic => "BadMagic",
        PcapRule::BadVersion => "BadVersion",
        PcapRule::BadLinkType => "BadLinkType",
        PcapRule::BadRecord => "BadRecord",
    }
}

/// A rule of lists of joints by its number and name.
fn joints_rule_name(rule: JointsRule) -> &'static str
    ensures { result.now ≡ joints_rule_name rule }
{
    match rule {
        JointsRule::WrongCount => "J1 WrongCount",
        JointsRule::NoSuchName => "J2 NoSuchName",
        JointsRule::TwiceJoined => "J3 TwiceJoined",
    }
}

/// The line of an outcome that refuses, and the empty text for another.
pub fn refusal_line(alloc: Global, outcome: Outcome) -> Result<String, AllocError>
    ensures { IfOk result (λ line. string_bytes line ≡ refusal_line outcome) }
{
    match outcome {
        Outcome::BadTopology { rule, place } => {
            let rule = topo_rule_name(rule);
            let place = place_text(alloc, place)?;
            format!(in alloc; "topology refused {rule} at {place}\n")
        }
        Outcome::BadScript { rule, line } => {
            let rule = script_rule_name(rule);
            format!(in alloc; "script refused {rule} at line {line}\n")
        }
        Outcome::BadCapture { rule, place } => {
            let rule = pcap_rule_name(rule);
            format!(in alloc; "capture refused {rule} at byte {place}\n")
        }
        Outcome::BadJoints { rule, line } => {
            let rule = joints_rule_name(rule);
            format!(in alloc; "joints refused {rule} at line {line}\n")
        }
        Outcome::BadSecond { rule, place } => {
            let rule = topo_rule_name(rule);
            let place = place_text(alloc, place)?;
            format!(in alloc; "second topology refused {rule} at {place}\n")
        }
        other => String::from_str(alloc, plain_line(other)),
    }
}

/// The line of an outcome that refuses, where it is the same for all of its kind.
fn plain_line(outcome: Outcome) -> &'static str
    requires { HasPlainLine outcome }
    ensures { result.now ≡ refusal_line outcome }
{
    match outcome {
        Outcome::Usage => {
            "usage: mplsnet run TOPOLOGY SCRIPT CAPTURE FOLDER | check TOPOLOGY | generate NUMBER | flood TOPOLOGY SCRIPT | reflect TOPOLOGY SCRIPT | join TOPOLOGY1 TOPOLOGY2 JOINTS SCRIPT CAPTURE FOLDER | reach TOPOLOGY [FAILURES]\n"
        }
        Outcome::TooLarge { which, .. } => limit_line(which),
        Outcome::BadTopology { .. }
        | Outcome::BadScript { .. }
        | Outcome::BadCapture { .. }
        | Outcome::BadJoints { .. }
        | Outcome::BadSecond { .. }
        | Outcome::Done
        | Outcome::ReadFault
        | Outcome::WriteFault
        | Outcome::NoMemory => "",
    }
}

/// The line of an input that passes a limit.
fn limit_line(which: Limit) -> &'static str
    ensures { result.now ≡ limit_line which }
{
    match which {
        Limit::TopologyBytes => "too large topology bytes\n",
        Limit::ScriptBytes => "too large script bytes\n",
        Limit::ScriptLines => "too large script lines\n",
        Limit::CaptureBytes => "too large capture bytes\n",
        Limit::CaptureRecords => "too large capture records\n",
        Limit::Steps => "too large steps\n",
        Limit::JointsBytes => "too large joints bytes\n",
        Limit::Pairs => "too large pairs\n",
        Limit::SecondBytes => "too large topology bytes\n",
    }
}

/// Puts the line of a refusal.
pub fn refuse<O: Sink>(alloc: Global, out: &mut O, outcome: Outcome) -> Outcome
    requires { IsRefusal outcome }
    ensures outcome { OutcomeIs (Some (refusal_of outcome)) result }
    ensures text { ForSome (O.written out.old) (λ before. TextIs (Some (refusal_of outcome)) before (O.written out.new) result) }
    ensures cause { SinkCausedBy (O.faults out.old) (O.faults out.new) result }
    ensures usage { outcome ≢ Outcome.Usage → result ≢ Outcome.Usage }
    ensures undone { result ≢ Outcome.Done }
{
    let Ok(line) = refusal_line(alloc, outcome) else {
        return Outcome::NoMemory;
    };
    match put_line(out, line.as_bytes()) {
        Ok(()) => outcome,
        Err(DeviceBad::Failed) => Outcome::WriteFault,
        Err(DeviceBad::NoMemory) => Outcome::NoMemory,
    }
}

/// Puts a line; of one whose write failed a first part may stand.
pub fn put_line<O: Sink>(out: &mut O, line: &[u8]) -> Result<(), DeviceBad>
    ensures put { OnOk result (ForSome (O.written out.old) (λ before. O.written out.new ≡ Some (before ++ line.now))) }
    ensures part { OnErr result (ForSome (O.written out.old) (λ before. PartPut line.now before (O.written out.new))) }
    ensures cause { Counted (O.faults out.old) (O.faults out.new) result }
    ensures ends { IfErr result (λ e. O.refusal out.new ≡ Some e) }
{
    out.put(line)
}
