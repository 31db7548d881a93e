//! The values of the limits of a neighbour's thread: other contracts cite the limits by name.
ghost use Rattle.std.specs.Prelude.{◌≡◌};
ghost use Rattle.tora_neighbour.specs.declared.clock.TheConstants.{TICK};
ghost use Rattle.tora_neighbour.specs.declared.turn_stages.TheConstants.{BEAT_TICKS};
ghost use Rattle.tora_neighbour.specs.declared.turn_parts.TheConstants.{MOST_BYTES, MOST_FAILURES};

/// The values of the limits. The function does nothing: its contract is a law.
pub fn limits_have_their_values()
    ensures tick { TICK ≡ 100 }
    ensures beat_ticks { BEAT_TICKS ≡ 10 }
    ensures most_bytes { MOST_BYTES ≡ 2048 }
    ensures most_failures { MOST_FAILURES ≡ 100 }
{}
