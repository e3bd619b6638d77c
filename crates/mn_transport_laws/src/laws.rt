//! Laws of the definitions, each the contract of a function that does nothing.
ghost use Rattle.std.specs.Prelude.{◌≡◌, ℕ, List, false};
ghost use Rattle.mn_ledger.specs.Prelude.{IsLawful, Network, Step, JournalEntry};
ghost use Rattle.mn_timetable_laws.specs.Steps.{pushed};
ghost use Rattle.mn_transport_laws.specs.Carried.{Carried};
ghost use Rattle.mn_transport_laws.specs.Stands.{IsTransport};
ghost use Rattle.mn_transport_laws.specs.Steps.{touches};

/// A step of another part leaves the transport as it is.
pub fn a_transport_goes_on_as_it_was()
    ensures { (topology : Network) (journal : List JournalEntry) (tick : ℕ) (step : Step) (carried : Carried) → IsLawful topology → touches step ≡ false →
        IsTransport topology journal carried → IsTransport topology (pushed journal tick step) carried }
{}
