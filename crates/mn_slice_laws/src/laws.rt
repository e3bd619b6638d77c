//! Laws of the definitions, each the contract of a function that does nothing.
ghost use Rattle.std.specs.Prelude.{◌≡◌, ℕ, true, false};
ghost use Rattle.mn_ledger.specs.Prelude.{Network, wiring_of, IsLawful, fits, Step, fresh_node, World, Packets, start, is_unchanged, is_empty, IsInTurn};
ghost use Rattle.mn_slice_laws.specs.Slice.{node_at};
ghost use Rattle.mn_slice_laws.specs.Steps.{IsByNodes};

/// A step that isn't refused is, for each node, what happens to it, and what is sent in it is what the acting nodes say.
pub fn a_step_is_its_nodes()
    ensures { (topology : Network) (world : World) (packets : Packets) (step : Step) → IsLawful topology → IsInTurn topology world →
        fits topology step ≡ true → is_unchanged world.config step ≡ false → is_empty topology world packets step ≡ false → IsByNodes topology world step }
{}

/// At the start each node has learned nothing, and has no session.
pub fn a_node_begins_fresh()
    ensures { (topology : Network) (node : ℕ) → node_at topology (start topology) node ≡ fresh_node (wiring_of topology) node }
{}
