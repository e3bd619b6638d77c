//! Laws of the definitions, each the contract of a function that does nothing.
ghost use Rattle.std.specs.Prelude.{◌≡◌, ◌≤◌, ◌^◌, ◌*◌, List, [], ℕ, Some, None, true, length};
ghost use Rattle.mn_ledger.specs.Prelude.{most_steps, IsLawful, Network, JournalEntry, flight_of, IsLawfulJournal};
ghost use Rattle.mn_script.specs.declared.command.Command.{Command};
ghost use Rattle.mn_script.specs.declared.command.Command.TheVariants.{Drain};
ghost use Rattle.mn_script.specs.declared.command.Line.{Line};
ghost use Rattle.mn_script.specs.Lines.{command_fits};
ghost use Rattle.mn_script.specs.Script.{AllFit};
ghost use Rattle.mn_course_laws.specs.declared.coming.Arrivals.{Arrivals};
ghost use Rattle.mn_course_laws.specs.declared.coming.Ending.TheVariants as ending;
ghost use Rattle.mn_course_laws.specs.declared.coming.Kind.{Kind};
ghost use Rattle.mn_course_laws.specs.Coming.{coming};
ghost use Rattle.mn_damage.specs.Allowed.{injected};
ghost use Rattle.mn_course_laws.specs.Course.{Past, Course, inputs_of, packets_for, next_now, deliver, all, played};
ghost use Rattle.mn_course_laws.specs.Drains.{DrainsOn, DrainsAll};
ghost use Rattle.mn_course_laws.specs.Endings.{EndsWell};
ghost use Rattle.mn_course_laws.specs.Expansion.{expanded};
ghost use Rattle.mn_course_laws.specs.Lawful.{IsLawfulPast, IsLawfulRun};
ghost use Rattle.mn_course_laws.specs.Next.{IsNext};
ghost use Rattle.mn_course_laws.specs.Paced.{ticks_of, IsPaced, HaveArrived};

/// After a lawful journal what comes next of a kind is the item in flight that no other comes before. It is the first on its
/// channel, it is due within 1,000 ticks of the last step, and nothing but a full journal refuses its delivery. None comes
/// exactly where no item of the kind is due by the limit.
pub fn what_comes_next_can_be_delivered()
    ensures { (topology : Network) (entries : List JournalEntry) (inputs : List (List ℕ)) (kind : Kind) (limit : ℕ) →
        IsLawful topology → IsLawfulJournal topology entries inputs →
        IsNext topology entries inputs kind limit (coming topology entries inputs kind limit) }
{}

/// A line that fits the topology makes of a lawful journal a lawful one, whatever arrives and whatever is refused.
pub fn a_line_goes_on_lawfully()
    ensures { (topology : Network) (capture : List (List ℕ)) (past : Past) (command : Command) →
        IsLawful topology → IsLawfulPast topology capture past → command_fits topology command ≡ true →
        IsLawfulPast topology capture (played topology capture past command).past }
{}

/// A line is stopped by a full journal alone, and where it is refused or its record is missing all is as before.
pub fn a_line_ends_well()
    ensures { (topology : Network) (capture : List (List ℕ)) (past : Past) (command : Command) →
        IsLawful topology → IsLawfulPast topology capture past → EndsWell past (played topology capture past command) }
{}

/// The journal of every script whose lines fit the topology is lawful, and so is the journal at each of its tables; and nothing
/// refused any of its entries, with the packets of the capture at which they look.
pub fn a_script_makes_a_lawful_journal()
    ensures { (topology : Network) (capture : List (List ℕ)) (lines : List Line) →
        IsLawful topology → AllFit topology lines → IsLawfulRun topology capture (expanded topology capture lines) }
{}

/// Of the packets at which a journal's entries look, those that are injected are what the ledger is given.
pub fn what_is_injected_is_looked_at()
    ensures { (capture : List (List ℕ)) (entries : List JournalEntry) → injected entries (packets_for capture entries) ≡ inputs_of capture entries }
{}

/// Where all that a line lets arrive has arrived, nothing of it is left to come: a line ends for want of arrivals, and never
/// since it had too many.
pub fn nothing_is_left()
    ensures { (topology : Network) (capture : List (List ℕ)) (arrivals : Arrivals) (past : Past) →
        length past.entries ≤ most_steps → (deliver topology capture arrivals all past).ending ≡ ending.All →
        next_now topology capture arrivals (deliver topology capture arrivals all past).past ≡ None }
{}

/// Where all that a line lets arrive has arrived, none of it is in flight: nothing that is due by the end of `run`, no notice
/// and no message after `drain`, no frame after `flush`.
pub fn what_was_to_arrive_has_arrived()
    ensures { (topology : Network) (capture : List (List ℕ)) (arrivals : Arrivals) (past : Past) →
        IsLawful topology → IsLawfulPast topology capture past → past.clock ≤ 2 ^ 61 → (deliver topology capture arrivals all past).ending ≡ ending.All →
        HaveArrived arrivals (flight_of topology (deliver topology capture arrivals all past).past.entries
        (inputs_of capture (deliver topology capture arrivals all past).past.entries)).items }
{}

/// The clock goes on in a line by no more than the ticks that it asks for, and 1,000 for each step that it does.
pub fn a_line_is_paced()
    ensures { (topology : Network) (capture : List (List ℕ)) (past : Past) (command : Command) →
        IsLawful topology → IsLawfulPast topology capture past → IsPaced (ticks_of command) past (played topology capture past command).past }
{}

/// So over a script it comes to at most 1,000,000 ticks for each line, and 1,000 for each step.
pub fn a_script_is_paced()
    ensures { (topology : Network) (capture : List (List ℕ)) (lines : List Line) → IsLawful topology → AllFit topology lines →
        IsPaced (1000000 * length lines) (record { clock = 0; entries = [] }) (expanded topology capture lines).past }
{}

/// `drain N` does the steps of a drain, at the present tick and no more than its bound.
pub fn a_drain_line_drains()
    ensures { (topology : Network) (capture : List (List ℕ)) (past : Past) (most : ℕ) →
        IsLawful topology → IsLawfulPast topology capture past → past.clock ≤ 2 ^ 61 →
        DrainsOn topology past (played topology capture past (Drain (Some most))) }
{}

/// `drain` without a number does so until nothing is left to it, if the journal has room for as many steps as the bound; and there
/// the network is settled, if LDP is switched on for each link that is up and BGP between all edges.
pub fn a_whole_drain_settles()
    ensures { (topology : Network) (capture : List (List ℕ)) (past : Past) →
        IsLawful topology → IsLawfulPast topology capture past → past.clock ≤ 2 ^ 61 →
        DrainsAll topology past (played topology capture past (Drain None)) }
{}
