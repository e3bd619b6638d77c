//! Whether a topology has room for a damage, and for an entry of the journal.
ghost use Rattle.std.specs.Prelude.{◌≡◌};
ghost use Rattle.mn_entry.specs.Damages.{damage_fits};
ghost use Rattle.mn_entry.specs.Entries.{mark_fits, entry_fits};

use mn_entry::{damage_of, hearing, number_of};
use mn_topo::{Damage, Damaged, JournalEntry, Topology};

/// Whether the topology has room for the damage: for the step by which its message would have been received, and the record is from 1.
pub fn damage_fits(topology: &Topology, damage: &Damage) -> bool
    ensures { result ≡ damage_fits topology.now damage.now }
{
    topology.fits(&hearing(damage)) && number_of(damage) >= 1
}

/// The step has no mark, or it ends the session of the message that was damaged, and the record is from 1.
#[tactic(auto, using(mn_entry::proofs::Told::no_mark, mn_entry::proofs::Told::plain_tells_none))]
fn mark_fits(entry: &JournalEntry) -> bool
    ensures { result ≡ mark_fits entry.now.step entry.now.damaged }
{
    match damage_of(entry) {
        Some(damage) => number_of(&damage) >= 1,
        None => entry.damaged == Damaged::Undamaged,
    }
}

/// Whether the topology has room for the entry: for its step, which has no mark but that of a damage that ends so.
pub fn entry_fits(topology: &Topology, entry: &JournalEntry) -> bool
    ensures { result ≡ entry_fits topology.now entry.now }
{
    topology.fits(&entry.step) && mark_fits(entry)
}
