//! Laws of the definitions, each the contract of a function that does nothing.
ghost use Rattle.mn_entry.specs.Damages.{IsOneDamage};
ghost use Rattle.mn_entry.specs.Entries.{IsOneOrTheOther, DamagesFit};

/// The entry for a damage tells that damage: which message it was, and which record came in its place.
#[tactic(auto, using(crate::proofs::Told::one_damage))]
pub fn an_entry_is_one_damage()
    ensures { IsOneDamage }
{}

/// An entry that fits has a step that fits and no mark, or it is the entry for a damage that fits.
pub fn a_fitting_entry_has_a_maker()
    ensures { IsOneOrTheOther }
{}

/// The entry for a damage that fits, fits.
#[tactic(auto, using(crate::proofs::Told::damages_fit))]
pub fn a_damage_has_a_fitting_entry()
    ensures { DamagesFit }
{}
