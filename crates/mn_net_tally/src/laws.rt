//! Laws of the definitions, each the contract of a function that does nothing.
ghost use Rattle.mn_net_tally.specs.Laws.{CountsAsItDid, CountsStatics, CountsFrames, TellsWhatIsLost, KeepsInOrder};

/// After a step a network has counted what the ledger has if it counts the static route that comes or goes, or the frame that
/// is sent, and nothing else.
pub fn a_tally_goes_on()
    ensures as_it_was { CountsAsItDid }
    ensures statics { CountsStatics }
    ensures frames { CountsFrames }
{}

/// Of the frames in flight it tells those that their links lose, by numbers that ascend; and it counts no more frames than steps.
pub fn a_tally_tells_losses()
    ensures tells { TellsWhatIsLost }
    ensures order { KeepsInOrder }
{}
