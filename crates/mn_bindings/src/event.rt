ghost use Rattle.std.specs.Prelude.{true, ◌≡◌, ◌∷◌, [], ℕ, false, IfSome, Some};
ghost use Rattle.mn_bindings.specs.declared.event.LibEvent.TheVariants.{Opened};
ghost use Rattle.mn_bindings.specs.Tells.{closes, opens};

use mn_base::NodeNo;

/// What happens to a node's bindings. A neighbour is open where the node is OPERATIONAL with it (RFC 5036, section
/// 2.5.4). The neighbour stands before the FEC's node.
#[derive(Clone, Copy, Debug, PartialEq, Eq)]
pub enum LibEvent {
    /// A neighbour that isn't open is open from now on.
    Opened(NodeNo),
    /// An open neighbour isn't open any more, and what it advertised is forgotten.
    Closed(NodeNo),
    /// An open neighbour says its label for a FEC (section 3.5.7).
    Map(NodeNo, NodeNo, u32),
    /// An open neighbour takes back its label for a FEC (section 3.5.10).
    Withdraw(NodeNo, NodeNo),
    /// An open neighbour says that it forgot the node's label for a FEC (section 3.5.11).
    Released(NodeNo, NodeNo),
    /// A FEC has this next hop from now on, or none.
    Next(NodeNo, Option<NodeNo>),
}

/// What is sent for a FEC: a Mapping, a Withdraw or a Release (RFC 5036, sections 3.5.7, 3.5.10 and 3.5.11).
#[derive(Clone, Copy, Debug, PartialEq, Eq)]
pub enum TellKind {
    Map,
    Withdraw,
    Release,
}

/// What a neighbour must be sent for a FEC.
#[derive(Clone, Copy, Debug, PartialEq, Eq)]
pub struct Tell {
    pub to: NodeNo,
    pub kind: TellKind,
    pub fec: NodeNo,
}

/// Whether this neighbour is closed in these events.
pub(crate) fn closes(events: &[LibEvent], from: NodeNo) -> bool
    ensures { result ≡ closes events.now from.0 }
{
    for event in events {
        if let LibEvent::Closed(other) = event {
            if *other == from {
                return true;
            }
        }
    }
    false
}

/// Whether this neighbour is opened in these events.
pub(crate) fn opens(events: &[LibEvent], from: NodeNo) -> bool
    ensures { result ≡ opens events.now from.0 }
{
    for event in events {
        if let LibEvent::Opened(other) = event {
            if *other == from {
                return true;
            }
        }
    }
    false
}

/// Whether any neighbour is opened in these events.
pub(crate) fn opens_any(events: &[LibEvent]) -> bool
    ensures none { result ≡ false → (neighbour : ℕ) → opens events.now neighbour ≡ false }
    ensures some { result ≡ true → (neighbour : ℕ) × (opens events.now neighbour ≡ true) }
{
    for event in events {
        if let LibEvent::Opened(_) = event {
            return true;
        }
    }
    false
}

/// The neighbour that is opened, where nothing else happens.
pub(crate) fn opened_alone(events: &[LibEvent]) -> Option<NodeNo>
    ensures alone { IfSome result (λ to. events.now ≡ Opened to ∷ []) }
    ensures found { (to : _) → events.now ≡ Opened to ∷ [] → result ≡ Some to }
{
    match events {
        [LibEvent::Opened(to)] => Some(*to),
        _ => None,
    }
}
