//! A watch in memory.
ghost use Rattle.std.specs.Prelude.{◌≡◌, None, Some, ⊤, is_some};
ghost use Rattle.std.proofs.lemmas.Option.{none-some};
ghost use Rattle.mn_sched.specs.Watching.{is_record};

use mn_journal::put_entry;
use mn_net::{Done, Net};
use mn_sched::{Watch, WatchBad};
use mn_script::entry_fits;
use std::alloc::{AllocError, Global};

/// A capture of one packet, and the lines of the steps. Its calls are numbered from 1, and the one of a number fails.
#[derive(Drop)]
pub(crate) struct Recorder {
    packet: Vec<u8>,
    pub journal: Vec<u8>,
    failing: u64,
    calls: u64,
    pub reads: u64,
    pub writes: u64,
}

impl Recorder {
    pub(crate) fn new(alloc: Global, packet: Vec<u8>, failing: u64) -> Recorder {
        Recorder {
            packet,
            journal: Vec::new(alloc),
            failing,
            calls: 0,
            reads: 0,
            writes: 0,
        }
    }

    /// Whether the next call fails.
    fn fails(&self) -> bool {
        self.calls.saturating_add(1) == self.failing
    }
}

/// The packet of a record, numbered from 1, of a capture of one.
fn record(packet: &[u8], nth: u32) -> Option<&[u8]>
    ensures { is_some result ≡ is_record 1 nth }
{
    if nth == 1 { Some(packet) } else { None }
}

/// Appends the line of the net's last step.
fn note(journal: &mut Vec<u8>, net: &Net) -> Result<(), AllocError> {
    let Some(entry) = net.journal().last() else {
        return Err(AllocError);
    };
    if !entry_fits(net.topology(), entry) {
        return Err(AllocError);
    }
    put_entry(journal, net.topology(), entry)
}

/// It tells neither its packet nor what it keeps.
impl Watch for Recorder {
    ghost records = { λ w. 1 };

    ghost packets = { λ w. None };

    ghost reads = { λ w. Some w.reads };

    ghost writes = { λ w. Some w.writes };

    ghost stands = { λ w topology journal inputs. ⊤ };

    ghost begins = { λ w topology journal inputs. ⊤ };

    ghost goes_on = { λ a b. ⊤ };

    fn packet(&mut self, nth: u32) -> Result<Option<&[u8]>, WatchBad> {
        if self.fails() {
            self.reads = self.reads.saturating_add(1);
            return Err(WatchBad::Read);
        }
        self.calls = self.calls.saturating_add(1);
        Ok(record(&self.packet, nth))
    }

    fn done(&mut self, net: &Net, made: Done) -> Result<(), WatchBad> {
        let _ = made;
        if self.fails() {
            self.writes = self.writes.saturating_add(1);
            return Err(WatchBad::Write);
        }
        self.calls = self.calls.saturating_add(1);
        match note(&mut self.journal, net) {
            Ok(()) => Ok(()),
            Err(_) => Err(WatchBad::NoMemory),
        }
    }

    ghost each_has_one = { λ w all is. absurd (none-some all is) };

    ghost stays = { λ w. tt };

    ghost onward = { λ a b c ab bc. tt };

    ghost begun = { λ w topology journal inputs stands. tt };
}
