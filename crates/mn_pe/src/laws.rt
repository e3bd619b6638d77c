// What the calls of an edge ask is what its callers have.
ghost use Rattle.std.specs.Prelude.{ℕ, List};
ghost use Rattle.mn_pe.specs.Prelude.{Says, IsBgp, Update};
ghost use Rattle.mn_pe.specs.Pe.{AreLabelled};

/// The routes that an UPDATE announces have labels of 20 bits.
pub fn what_is_read_has_labels()
    ensures { (bytes : List ℕ) (says : Says) → IsBgp bytes (Update says) → AreLabelled says.reached }
{}
