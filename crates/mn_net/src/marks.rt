//! Marks on a journal's entries change nothing of a network: so a step that is done can be marked afterwards as made by a damaged
//! message, and the network stands for the ledger as before.
//!
//! A damaged message ends its session (RFC 5036, section 3.5.1.2; RFC 4271, section 6). In the journal that is the step by which the session
//! ends, with a mark beside it that tells the record and the direction (mn_damage). A network reads its journal through what the ledger says
//! of it, and through the labels that were given in it; neither looks at marks. `specs/Marks` says it: a network with another journal, and a
//! journal with a mark on its last entry.
ghost use Rattle.mn_net.specs.Marks.{ChangesNoNetwork, MarksLast};

/// A network that stands for the ledger stands for it with any journal that differs from its own in marks alone, with the same
/// packets; and what always holds of a network goes on to hold.
pub fn marks_change_no_network()
    ensures { ChangesNoNetwork }
{}

/// A mark on the last entry changes that entry alone, and nothing of the journal without marks.
pub fn a_mark_is_of_the_last_entry()
    ensures { MarksLast }
{}
