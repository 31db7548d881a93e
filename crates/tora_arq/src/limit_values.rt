//! The values of the limits of a link end: other contracts cite the limits by name.
ghost use Rattle.std.specs.Prelude.{◌≡◌};
ghost use Rattle.tora_arq.specs.declared.TheConstants.{WINDOW, QUEUE_PLACES, EVENT_PLACES, PLACES_OF_A_FRAME};
ghost use Rattle.tora_arq.specs.declared.times.TheConstants.Times.{STANDARD};

/// `WINDOW` is 32, `QUEUE_PLACES` 256, `EVENT_PLACES` 64 and `PLACES_OF_A_FRAME` 34. `Times::STANDARD` is 10 ticks
/// between HELLOs, 50 of silence, 5 between tries, and 8 tries.
pub fn limits_have_their_values()
    ensures window { WINDOW ≡ 32 }
    ensures queue_places { QUEUE_PLACES ≡ 256 }
    ensures event_places { EVENT_PLACES ≡ 64 }
    ensures places_of_a_frame { PLACES_OF_A_FRAME ≡ 34 }
    ensures standard { STANDARD ≡ record { hello = 10; silent = 50; retry = 5; tries = 8 } }
{}
