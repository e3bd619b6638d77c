//! Laws of the definitions, each the contract of a function that does nothing.
ghost use Rattle.std.specs.Prelude.{ℕ, ◌≡◌, ◌<◌, ◌^◌, length};
ghost use Rattle.mn_wiring.specs.Wiring.{Wiring};
ghost use Rattle.mn_node.specs.Ldp.{Message, Mapping};
ghost use Rattle.mn_ldp_session.specs.Spelling.{AreSpelled, SpeaksOfNode, HasItsLabel, IsHeardAsSaid, pdu_in_network};
ghost use Rattle.mn_ldp_session.specs.Routers.{routers_in_a_row, implicit_null, own_mapping};

/// What one end of a link says, in its written spelling, is read by the other end as what was sent, and accepted where the
/// table has a row, whatever labels the FECs have at both ends.
pub fn what_is_said_is_heard()
    ensures { (wiring : Wiring) (own theirs : ℕ → ℕ) → AreSpelled wiring → (me far id : ℕ) (message : Message) → me < length wiring.loopbacks →
        far < length wiring.loopbacks → id < 2 ^ 32 → SpeaksOfNode wiring message → HasItsLabel own theirs message →
        IsHeardAsSaid wiring me far own theirs id message }
{}

/// Three routers in a row can be told apart on the wire, as the law above asks.
pub fn routers_in_a_row_are_spelled()
    ensures { AreSpelled routers_in_a_row }
{}

/// The middle one's fourth message to the first one, byte for byte.
pub fn the_middle_router_maps_itself()
    ensures { pdu_in_network routers_in_a_row 0 1 implicit_null implicit_null 4 (Mapping 1) ≡ own_mapping }
{}
