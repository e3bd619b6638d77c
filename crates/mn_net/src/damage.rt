//! Sessions that end by a damaged message.
ghost use Rattle.std.specs.Prelude.{◌≡◌, ◌≢◌, ◌<◌, ℕ, List, [], true, false, length, Some, Err, IfOk, OnOk, IsErrOf};
ghost use Rattle.mn_ledger.specs.Prelude.{refusal};
ghost use Rattle.mn_ledger.specs.declared.refused.Refused.TheVariants as why;
ghost use Rattle.mn_damage.specs.Damages.{damage_fits, hearing};
ghost use Rattle.mn_damage.specs.Refusals.{damage_refusal};
ghost use Rattle.mn_net.specs.Marks.{marked_last};
ghost use Rattle.mn_net.specs.Prelude.{StandsFor, LabelsMean, Answers, Leaves};
ghost use Rattle.mn_net.specs.Damaged.{IsDamaged};

use crate::net::{Done, Net};
use mn_damage::{ending, hearing, mark, still_reads};
use mn_ledger::Refused;
use mn_topo::{Damage, Damaged, JournalEntry};

impl Net {
    /// Ends a session by a damaged message: the packet came in place of the session's first message in the direction, and can't be
    /// read (RFC 5036, section 3.5.1.2; RFC 4271, section 6). It refuses by the first cause that holds: Empty, StillReads, NetFull
    /// or TooManySteps.
    ///
    /// After running out of memory the network is as after that of a step.
    pub fn damage(&mut self, damage: Damage, packet: &[u8]) -> Result<Done, Refused>
        requires fits { damage_fits self.old.topology damage ≡ true }
        ensures answer { (inputs : List (List ℕ)) → StandsFor self.old inputs → Answers (damage_refusal self.old.topology self.old.journal inputs damage packet.now) result }
        // That no message is there is answered without memory.
        ensures refused { self.old.failed ≡ false → (inputs : List (List ℕ)) → StandsFor self.old inputs →
            refusal self.old.topology self.old.journal inputs (hearing damage) [] ≡ Some why.Empty → result ≡ Err why.Empty }
        ensures longer { OnOk result (IsDamaged self.old self.new damage) }
        ensures stands { OnOk result ((inputs : List (List ℕ)) → StandsFor self.old inputs → StandsFor self.new inputs) }
        ensures labels { OnOk result ((inputs : List (List ℕ)) → StandsFor self.new inputs → LabelsMean self.new inputs) }
        ensures first { IfOk result (λ done. done.first ≡ self.old.made) }
        ensures end { IfOk result (λ done. done.end ≡ self.new.made) }
        ensures left { self.old.failed ≡ false → Leaves self.old self.new result }
        ensures for_good { self.old.failed ≡ true → (IsErrOf result why.NoMemory) × (self.new ≡ self.old) }
    {
        if self.failed {
            return Err(Refused::NoMemory);
        }
        if self.has_no_message(&damage) {
            return Err(Refused::Empty);
        }
        let Ok(reads) = still_reads(self.alloc, &damage, packet) else {
            self.failed = true;
            return Err(Refused::NoMemory);
        };
        if reads {
            return Err(Refused::StillReads);
        }
        let step = ending(&damage);
        self.refusal(&step, &[])?;
        let first = self.made;
        let Ok(()) = self.perform(step, &[]) else {
            return Err(Refused::NoMemory);
        };
        self.mark_last(mark(&damage));
        let end = self.made;
        Ok(Done { first, end })
    }

    /// No message is there to be damaged.
    fn has_no_message(&self, damage: &Damage) -> bool
        requires works { self.now.failed ≡ false }
        requires fits { damage_fits self.now.topology damage.now ≡ true }
        ensures none { result ≡ true → (inputs : List (List ℕ)) → StandsFor self.now inputs →
            refusal self.now.topology self.now.journal inputs (hearing damage.now) [] ≡ Some why.Empty }
        ensures one { result ≡ false → (inputs : List (List ℕ)) → StandsFor self.now inputs →
            refusal self.now.topology self.now.journal inputs (hearing damage.now) [] ≢ Some why.Empty }
    {
        match self.refusal(&hearing(damage), &[]) {
            Err(Refused::Empty) => true,
            _ => false,
        }
    }

    /// The last step was made by a damaged message.
    fn mark_last(&mut self, mark: Damaged)
        requires some { 0 < length self.old.journal }
        ensures marked { self.new ≡ record self.old { journal = marked_last self.old.journal mark; spare = self.new.spare } }
    {
        if let Some(last) = self.journal.pop() {
            self.journal.push_reserved(JournalEntry {
                tick: last.tick,
                step: last.step,
                damaged: mark,
            });
        }
    }
}
