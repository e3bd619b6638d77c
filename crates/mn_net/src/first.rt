//! Why a step is refused.
ghost use Rattle.std.specs.Prelude.{◌≡◌, ℕ, true, List, length};
ghost use Rattle.mn_ledger.specs.Prelude.{fits, JournalEntry};
ghost use Rattle.mn_ledger.specs.Refusal.{refusal as ledgers};
ghost use Rattle.mn_net.specs.Parts.{PartsStand, HaveSizes, seen_in, limit_seen};
ghost use Rattle.mn_net_laws.specs.Refusal.{refusal_seen};

use crate::causes::{has_all_targets, has_given_all, has_nothing, has_too_much, is_so, of_static};
use crate::parts::Parts;
use mn_base::MOST_STEPS;
use mn_ledger::Refused;
use mn_topo::Step;

/// The most steps of a journal.
const STEPS: usize = MOST_STEPS as usize;

/// The first of the last four causes that holds.
fn first_limit(parts: Parts<'_>, steps: usize, step: &Step, packet: &[u8]) -> Option<Refused>
    requires sizes { HaveSizes parts.topology.now parts.transport.now parts.routes.now }
    requires fits { fits parts.topology.now step.now ≡ true }
    ensures { (made : ℕ) → result ≡ limit_seen parts.entry.topology.now (seen_in parts.entry.transport.now parts.entry.routes.now parts.entry.transit.now parts.entry.tally.now made steps) step.now packet.now }
{
    if has_all_targets(parts.topology, parts.routes, step) {
        return Some(Refused::TargetsFull);
    }
    if has_given_all(parts.topology, parts.transport, step) {
        return Some(Refused::LabelsSpent);
    }
    if has_too_much(parts.transport, parts.routes, parts.transit, step, packet) {
        return Some(Refused::NetFull);
    }
    if steps >= STEPS {
        return Some(Refused::TooManySteps);
    }
    None
}

/// The first cause that holds.
fn first_cause(parts: Parts<'_>, steps: usize, step: &Step, packet: &[u8]) -> Option<Refused>
    requires sizes { HaveSizes parts.topology.now parts.transport.now parts.routes.now }
    requires fits { fits parts.topology.now step.now ≡ true }
    ensures { (made : ℕ) → result ≡ refusal_seen parts.entry.topology.now (seen_in parts.entry.transport.now parts.entry.routes.now parts.entry.transit.now parts.entry.tally.now made steps) step.now packet.now }
{
    if is_so(parts.topology, parts.transport, parts.routes, step) {
        return Some(Refused::Unchanged);
    }
    if has_nothing(
        parts.topology,
        parts.transport,
        parts.routes,
        parts.transit,
        step,
    ) {
        return Some(Refused::Empty);
    }
    match of_static(parts.topology, parts.routes, parts.tally, step) {
        Some(cause) => Some(cause),
        None => first_limit(parts, steps, step, packet),
    }
}

/// Why a step is refused after so many steps: the ledger's first cause, and none where it is done.
pub fn refusal(parts: Parts<'_>, steps: usize, step: &Step, packet: &[u8]) -> Option<Refused>
    requires fits { fits parts.topology.now step.now ≡ true }
    requires stands { (journal : List JournalEntry) × (inputs : List (List ℕ)) × PartsStand parts.topology.now journal inputs parts.transport.now parts.routes.now parts.transit.now parts.tally.now }
    ensures answer { (journal : List JournalEntry) (inputs : List (List ℕ)) → PartsStand parts.entry.topology.now journal inputs parts.entry.transport.now parts.entry.routes.now parts.entry.transit.now parts.entry.tally.now → steps ≡ length journal →
        result ≡ ledgers parts.entry.topology.now journal inputs step.now packet.now }
{
    parts.topology.laws();
    first_cause(parts, steps, step, packet)
}
