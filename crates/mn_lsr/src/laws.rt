//! Laws of the definitions, each the contract of a function that does nothing.
ghost use Rattle.std.specs.Prelude.{ℕ};
ghost use Rattle.mn_lsr.specs.Prelude.{Wiring, Message, Node, Session, Event, routers_in_a_row, AreSpelled};
ghost use Rattle.mn_lsr.specs.Standing.{IsWired};
ghost use Rattle.mn_lsr.specs.Turns.{Kept};
ghost use Rattle.mn_lsr.specs.InNetwork.{Labelling, IsHeardInside, SpeaksInside, MayBeHeard, IsHeardAsOne};

/// Where a node receives what nodes say, it speaks of nodes, and what it says looks as it does inside the network.
pub fn a_node_speaks_of_nodes()
    ensures { (wiring : Wiring) (given : Labelling) (node : Node) (event : Event) → IsHeardInside wiring given node event → SpeaksInside wiring given node event }
{}

/// What one end of a link says in its session is received by the other end as one change.
pub fn what_is_said_is_one_change()
    ensures { (wiring : Wiring) (given : Labelling) (tick l far id : ℕ) (message : Message) (kept : Kept) (session : Session) → AreSpelled wiring →
        MayBeHeard wiring given l far message kept.node session → IsHeardAsOne wiring given tick l far id message kept session }
{}

/// Three routers in a row are wired as a node asks for.
pub fn routers_in_a_row_are_wired()
    ensures { IsWired routers_in_a_row }
{}
