//! The earlier states of a disk, which only contracts see. They take no memory.
ghost use Rattle.std.specs.Prelude.{◌≡◌, List, [], ◌∷◌, ◌++◌};
ghost use Rattle.std.specs.Borrow.{ftrue};
ghost use Rattle.tora_life.specs.declared.state.State.{State};

use crate::state::State;
use std::marker::Model;

/// The states of a disk before each of its calls and crashes, oldest first. It takes no memory.
#[derive(Debug, Drop)]
pub(crate) struct CallRecord {
    pub ghost states: { List State },
}

impl Model for CallRecord {
    ghost also_owns = { λ _. ftrue };
}

impl CallRecord {
    /// A record of no states.
    pub fn new() -> CallRecord
        ensures { result.states ≡ [] }
    {
        CallRecord {}
    }

    /// The record with one more state.
    pub fn with(_before: &CallRecord, _state: &State) -> CallRecord
        ensures { result.states ≡ _before.now.states ++ _state.now ∷ [] }
    {
        CallRecord {}
    }
}
