ghost use Rattle.std.specs.Prelude.{◌≡◌, ◌<◌, ◌≤◌, ◌^◌, ℕ, List, Ok, Some, true};
ghost use Rattle.mn_base.specs.Numbers.{has_rd_form, has_rt_form};
ghost use Rattle.mn_base.specs.declared.numbers.Rd.{Rd};
ghost use Rattle.mn_base.specs.declared.numbers.Rt.{Rt};
ghost use Rattle.mn_prefix.specs.Prefix.{AddressBlock, IsPrefix};
ghost use Rattle.mn_text.specs.Numbers.{number_of, number_text};
ghost use Rattle.mn_text.specs.Addresses.{address_of, address_text, prefix_of, prefix_text};
ghost use Rattle.mn_text.specs.Pairs.{rd_of, rd_text, rt_of, rt_text};

/// A number's text is read as the number.
#[tactic(auto, using(crate::proofs::Again::number_again))]
pub fn number_again()
    ensures { (n most : ℕ) → n < 2 ^ 64 → n ≤ most → number_of (number_text n) most ≡ Ok n }
{}

/// An address's text is read as the address.
#[tactic(auto, using(crate::proofs::Again::address_again))]
pub fn address_again()
    ensures { (a : ℕ) → a < 2 ^ 32 → address_of (address_text a) ≡ Some a }
{}

/// A prefix's text is read as the prefix.
#[tactic(auto, using(crate::proofs::Again::prefix_again))]
pub fn prefix_again()
    ensures { (p : AddressBlock) → IsPrefix p.address p.length → prefix_of (prefix_text p) ≡ Ok p }
{}

/// A distinguisher's text is read as the distinguisher.
#[tactic(auto, using(crate::proofs::Again::rd_again))]
pub fn rd_again()
    ensures { (rd : Rd) → has_rd_form rd.0 ≡ true → rd_of (rd_text rd) ≡ Some rd }
{}

/// A target's text is read as the target.
#[tactic(auto, using(crate::proofs::Again::rt_again))]
pub fn rt_again()
    ensures { (target : Rt) → has_rt_form target.0 ≡ true → rt_of (rt_text target) ≡ Some target }
{}
