//! What a step made.
ghost use Rattle.mn_net.specs.Told.{MadeIsTold};

/// The items that the last step made are told by their numbers, in the order of making, and none behind them: each with its channel,
/// when it is due, and its bytes.
pub fn what_a_step_made_is_told()
    ensures { MadeIsTold }
{}
