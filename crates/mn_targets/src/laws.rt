ghost use Rattle.std.specs.Prelude.{◌≡◌, ◌≢◌, List};
ghost use Rattle.std.specs.List.{AllPairs};
ghost use Rattle.mn_base.specs.declared.numbers.Rt.{Rt as Target};
ghost use Rattle.mn_targets.specs.Targets.{IsAscending, HaveSame};

/// No target stands twice in an ascending list.
pub fn ascending_is_distinct()
    ensures { (targets : List Target) → IsAscending targets → AllPairs (λ earlier later. earlier ≢ later) targets }
{}

/// Two ascending lists with the same targets are one list.
#[tactic(auto, using(crate::proofs::OneList::one_list))]
pub fn one_list_of_a_set()
    ensures { (a b : List Target) → IsAscending a → IsAscending b → HaveSame a b → a ≡ b }
{}
