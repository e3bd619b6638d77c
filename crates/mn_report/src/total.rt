//! What all packets come to.
ghost use Rattle.std.specs.Prelude.{◌≡◌, ◌≤◌, ◌<◌, ◌++◌, true, false, length, take, List, ℕ, IfOk, OnOk, OnErr, Err};
ghost use Rattle.mn_report.specs.Prelude.{most_steps, NoMemory, Counted, packets_of, total_line, Puts, PutsPart, StandsFor};
ghost use Rattle.mn_report.specs.Packets.{counts_of, with_verdict};
ghost use Rattle.mn_report.specs.Shown.{totals_by};

use crate::written::put_line;
use mn_edge::{DeviceBad, Sink};
use mn_ledger::Verdict;
use mn_lines::{Page, Totals, write_total};
use mn_net::Net;

/// How many verdicts there are of each kind.
#[derive(Clone, Copy, Debug, PartialEq, Eq)]
struct Counts {
    delivered: u32,
    dropped: u32,
    flying: u32,
}

/// One verdict more.
fn with_verdict(counts: Counts, verdict: Verdict) -> Counts
    requires delivered { counts.delivered ≤ most_steps }
    requires dropped { counts.dropped ≤ most_steps }
    requires flying { counts.flying ≤ most_steps }
    ensures { result ≡ with_verdict counts verdict }
{
    let Counts {
        delivered,
        dropped,
        flying,
    } = counts;
    match verdict {
        Verdict::Delivered { .. } => Counts {
            delivered: delivered + 1,
            dropped,
            flying,
        },
        Verdict::Dropped { .. } => Counts {
            delivered,
            dropped: dropped + 1,
            flying,
        },
        Verdict::Flying { .. } => Counts {
            delivered,
            dropped,
            flying: flying + 1,
        },
    }
}

/// How many packets were delivered, were dropped, and fly.
fn count_verdicts(net: &Net) -> Counts
    requires { net.now.failed ≡ false }
    ensures { (inputs : List (List ℕ)) → StandsFor net.now inputs →
        result ≡ counts_of (packets_of net.now.topology net.now.journal inputs).verdicts }
{
    net.laws();
    let mut counts = Counts {
        delivered: 0,
        dropped: 0,
        flying: 0,
    };
    for packet in 0..net.packets() {
        counts = with_verdict(counts, net.verdict(packet));
    }
    counts
}

/// What all comes to, where so many lines were refused.
fn sum_up(net: &Net, refused: u32) -> Totals
    requires { net.now.failed ≡ false }
    ensures { (inputs : List (List ℕ)) → StandsFor net.now inputs →
        result ≡ totals_by net.now refused (packets_of net.now.topology net.now.journal inputs).verdicts }
{
    net.laws();
    let Counts {
        delivered,
        dropped,
        flying,
    } = count_verdicts(net);
    Totals {
        packets: net.packets(),
        delivered,
        dropped,
        flying,
        steps: net.journal().len() as u32,
        refused,
        tick: net.tick(),
    }
}

/// Puts the last line of a report, where so many lines were refused. `line` is written anew. A network that has failed is
/// out of memory.
pub fn put_total<O: Sink>(
    out: &mut O,
    page: &mut Page,
    line: &mut Vec<u8>,
    net: &Net,
    refused: u32,
) -> Result<(), DeviceBad>
    ensures put { OnOk result ((inputs : List (List ℕ)) → StandsFor net.now inputs →
        Puts (total_line (totals_by net.now refused (packets_of net.now.topology net.now.journal inputs).verdicts))
        page.old page.new (O.written out.old) (O.written out.new)) }
    ensures part { OnErr result ((inputs : List (List ℕ)) → StandsFor net.now inputs →
        PutsPart (total_line (totals_by net.now refused (packets_of net.now.topology net.now.journal inputs).verdicts))
        page.old (O.written out.old) (O.written out.new)) }
    ensures cause { Counted (O.faults out.old) (O.faults out.new) result }
    ensures wants { net.now.failed ≡ true →
        (result ≡ Err NoMemory) × (page.new ≡ page.old) × (out.new ≡ out.old) }
{
    if !net.works() {
        return Err(DeviceBad::NoMemory);
    }
    line.clear();
    write_total(line, sum_up(net, refused))?;
    put_line(out, page, line.as_slice())
}
