//! The values of the limits of a simulation's lines: other contracts cite the limits by name.
ghost use Rattle.std.specs.Prelude.{◌≡◌};
ghost use Rattle.tora_script.specs.declared.parse.TheConstants.{MOST_ROUNDS};
ghost use Rattle.tora_script.specs.declared.rounds.TheConstants.{MOST_PASSES};
ghost use Rattle.tora_script.specs.declared.turns.TheConstants.{MOST_TIMES};
ghost use Rattle.tora_script.specs.declared.channel.channel.TheConstants.{PARTS};
ghost use Rattle.tora_script.specs.declared.channel.parts.TheConstants.{MOST_DELAY};

/// The limits have these values.
pub fn limits_have_their_values()
    ensures most_rounds { MOST_ROUNDS ≡ 10000 }
    ensures most_passes { MOST_PASSES ≡ 1000 }
    ensures most_times { MOST_TIMES ≡ 1024 }
    ensures parts { PARTS ≡ 1000000 }
    ensures most_delay { MOST_DELAY ≡ 10000 }
{}
