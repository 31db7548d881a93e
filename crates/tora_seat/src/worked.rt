//! Examples of served items, computed.
ghost use Rattle.tora_seat.specs.WorkedDowns.{Downs};

/// The end of a session ends the current session if that is the same session, withdraws the pending cut of the session
/// if there is one, and otherwise changes nothing.
pub fn worked_downs_hold()
    ensures { Downs }
{}
