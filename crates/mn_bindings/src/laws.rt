//! Laws of the definitions, each the contract of a function that does nothing.
ghost use Rattle.std.specs.Prelude.{ℕ, List};
ghost use Rattle.mn_base.specs.declared.numbers.NodeNo.{NodeNo};
ghost use Rattle.mn_bindings.specs.declared.event.LibEvent.{LibEvent};
ghost use Rattle.mn_bindings.specs.Bindings.{Bindings, nothing_heard, EventsFit};
ghost use Rattle.mn_bindings.specs.History.{IsLast, AreJoined};

/// After any events from the start on, what is kept of a neighbour and a FEC is what the neighbour sent last since it
/// was opened, and a FEC's next hop is the one that was named last.
pub fn what_is_kept_was_said_last()
    ensures { (me : NodeNo) (count : ℕ) (events : List LibEvent) → EventsFit (nothing_heard me count) events → IsLast me count events }
{}

/// Events that come in two lists leave what those of one list leave, and may happen where those may.
pub fn lists_of_events_join()
    ensures { (bindings : Bindings) (first second : List LibEvent) → AreJoined bindings first second }
{}
