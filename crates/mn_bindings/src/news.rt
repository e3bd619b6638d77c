ghost use Rattle.std.specs.Prelude.{◌≡◌, ℕ, true, option_map};
ghost use Rattle.mn_bindings.specs.News.{fec_of, InOrder};

use crate::event::LibEvent;
use mn_base::NodeNo;

/// A FEC, and whether it is offered as long as nothing happens.
#[derive(Clone, Copy)]
pub struct SoFar {
    pub fec: NodeNo,
    pub offered: bool,
}

impl LibEvent {
    /// The FEC that the event is of; none where a neighbour opens or closes.
    pub fn fec(&self) -> Option<NodeNo>
        ensures { option_map (λ fec. fec.0) result ≡ fec_of self.now }
    {
        match self {
            LibEvent::Opened(_) | LibEvent::Closed(_) => None,
            LibEvent::Map(_, fec, _)
            | LibEvent::Withdraw(_, fec)
            | LibEvent::Released(_, fec)
            | LibEvent::Next(fec, _) => Some(*fec),
        }
    }
}

/// Whether each event is of a FEC, in node order and none twice.
pub fn are_of_fecs(events: &[LibEvent]) -> bool
    ensures some { result ≡ true → InOrder 0 events.now }
    ensures all { InOrder 0 events.now → result ≡ true }
{
    let mut least = 0;
    for event in events {
        match event.fec() {
            Some(fec) if least <= u32::from(fec.0) => least = u32::from(fec.0) + 1,
            _ => return false,
        }
    }
    true
}
