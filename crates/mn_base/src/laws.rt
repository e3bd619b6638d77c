ghost use Rattle.std.specs.Prelude.{◌≡◌, ◌⊎◌, ◌↔◌, ◌||◌, ◌∷◌, [], ℕ, Bool, List, Some, None, map, nat_lt, true, false};
ghost use Rattle.std.specs.List.{AllByRecursion, Contains};
ghost use Rattle.mn_base.specs.Rules.{when, first_broken, first_refusal, IsFirstBroken};
ghost use Rattle.mn_base.specs.Ordered.{IsOrder, Ascends, with_one, without_one, one_at};

/// What a list of rules refuses is its first rule that is broken; where none is broken, it refuses
/// nothing. A list of the rules that apply says the same.
#[tactic(auto, using(crate::proofs::Rules::broken_first, crate::proofs::Rules::first_is, crate::proofs::Rules::all_kept, crate::proofs::Rules::none_broken, crate::proofs::Rules::rules_same))]
pub fn first_rule_that_is_broken<R>()
    ensures some { (rows : List (Bool × R)) (rule : R) → (first_refusal rows ≡ Some rule) ↔ IsFirstBroken rows rule }
    ensures none { (rows : List (Bool × R)) → (first_refusal rows ≡ None) ↔ AllByRecursion (λ row. row.0 ≡ false) rows }
    ensures alike { (rows : List (Bool × R)) → first_broken (map (λ row. when row.0 row.1) rows) ≡ first_refusal rows }
{}

/// A list that is kept in an order stays in it when one is put in its place or taken out. Put in,
/// it is there, beside all that don't stand in its place; taken out, these alone are there.
#[tactic(auto, using(crate::proofs::Places::ascends_with, crate::proofs::Places::ascends_without, crate::proofs::Kept::with_has, crate::proofs::Kept::without_has))]
pub fn changes_keep_the_order<T>()
    ensures put_in { (before : T → T → Bool) (x : T) (xs : List T) → IsOrder before → Ascends before xs → Ascends before (with_one before x xs) }
    ensures taken_out { (before : T → T → Bool) (x : T) (xs : List T) → Ascends before xs → Ascends before (without_one before x xs) }
    ensures put_in_has { (before : T → T → Bool) (x : T) (xs : List T) (y : T) → Contains (with_one before x xs) y ↔ ((x ≡ y) ⊎ (Contains xs y × ((before y x || before x y) ≡ true))) }
    ensures taken_out_has { (before : T → T → Bool) (x : T) (xs : List T) (y : T) → Contains (without_one before x xs) y ↔ (Contains xs y × ((before y x || before x y) ≡ true)) }
{}

/// What the laws of ordered lists ask is met, as by numbers in their order.
#[tactic(auto, using(crate::proofs::Orders::numbers_are_ordered))]
pub fn numbers_in_order()
    ensures order { IsOrder nat_lt }
    ensures ascends { Ascends nat_lt (3 ∷ 5 ∷ 9 ∷ []) }
    ensures put_in { with_one nat_lt 6 (3 ∷ 5 ∷ 9 ∷ []) ≡ 3 ∷ 5 ∷ 6 ∷ 9 ∷ [] }
    ensures replaced { with_one nat_lt 5 (3 ∷ 5 ∷ 9 ∷ []) ≡ 3 ∷ 5 ∷ 9 ∷ [] }
    ensures taken_out { without_one nat_lt 5 (3 ∷ 5 ∷ 9 ∷ []) ≡ 3 ∷ 9 ∷ [] }
    ensures there { one_at nat_lt 9 (3 ∷ 5 ∷ 9 ∷ []) ≡ Some 9 }
    ensures nowhere { one_at nat_lt 4 (3 ∷ 5 ∷ 9 ∷ []) ≡ None }
{}
