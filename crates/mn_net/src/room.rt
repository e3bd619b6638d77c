//! Room for the journal's entries.
ghost use Rattle.std.specs.Prelude.{◌≡◌, ◌≤◌, ◌<◌, ◌+◌, OnOk, OnErr, IsOk, vec_len, vec_capacity};

use mn_base::MOST_STEPS;
use mn_topo::JournalEntry;
use std::alloc::AllocError;

/// From so many entries on a journal gets room for all that it may have.
const LONG: usize = 65_536;

/// Makes room for one entry more. A list that grows is copied with the room that it left unwritten, and the old one stays a hole in
/// the heap: so a long journal gets room for `MOST_STEPS` at once, where there is as much. What isn't written takes no memory.
pub(crate) fn reserve_entry(journal: &mut Vec<JournalEntry>) -> Result<(), AllocError>
    ensures items { journal.new.items ≡ journal.old.items }
    ensures len { vec_len journal.new ≡ vec_len journal.old }
    ensures ok { OnOk result (vec_len journal.new + 1 ≤ vec_capacity journal.new) }
    ensures capacity { vec_capacity journal.old ≤ vec_capacity journal.new }
    ensures succeeds { vec_len journal.old + 1 ≤ vec_capacity journal.old → IsOk result }
    ensures full { OnErr result (vec_capacity journal.old < vec_len journal.old + 1) }
    ensures err { OnErr result (vec_capacity journal.new ≡ vec_capacity journal.old) }
{
    let len = journal.len();
    let most = MOST_STEPS as usize;
    if LONG <= len
        && len < most
        && len == journal.capacity()
        && journal.reserve(most - len).is_ok()
    {
        return Ok(());
    }
    journal.reserve(1)
}
