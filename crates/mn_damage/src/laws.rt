//! Laws of the definitions, each the contract of a function that does nothing.
ghost use Rattle.mn_damage.specs.Allowed.{IsLawfulToo};
ghost use Rattle.mn_damage.specs.Refusals.{ComesInOrder, EndsWhatLives};
ghost use Rattle.mn_damage.specs.Same.{ChangesNothing};

/// Where a damage fits and nothing refuses it, its session lives: so the step that ends the session fits, and nothing refuses it.
pub fn a_damage_ends_what_lives()
    ensures { EndsWhatLives }
{}

/// Why a damage is refused is found by what refuses the hearing and the step that it also is.
pub fn a_refusal_comes_in_order()
    ensures { ComesInOrder }
{}

/// A journal of which nothing refuses an entry is lawful to the ledger, with the packets that are injected: so every law of
/// lawful journals holds of it.
pub fn a_damaged_journal_is_lawful()
    ensures { IsLawfulToo }
{}

/// Two journals that differ in marks alone are one to the ledger.
pub fn marks_change_nothing()
    ensures { ChangesNothing }
{}
