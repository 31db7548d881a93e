//! The values of the limits of a core: other contracts cite the limits by name.
ghost use Rattle.std.specs.Prelude.{◌≡◌};
ghost use Rattle.tora_core.specs.declared.TheConstants.{MOST_NEIGHBOURS, GREATEST_NEIGHBOURS, MOST_DESTINATIONS};

/// `MOST_NEIGHBOURS` is 32, `GREATEST_NEIGHBOURS` is 255, and `MOST_DESTINATIONS` is 64.
pub fn limits_have_their_values()
    ensures most_neighbours { MOST_NEIGHBOURS ≡ 32 }
    ensures greatest_neighbours { GREATEST_NEIGHBOURS ≡ 255 }
    ensures most_destinations { MOST_DESTINATIONS ≡ 64 }
{}
