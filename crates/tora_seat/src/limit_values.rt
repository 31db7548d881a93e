//! The values of the limits of the queues of a node: other contracts cite the limits by name.
ghost use Rattle.std.specs.Prelude.{◌≡◌};
ghost use Rattle.tora_seat.specs.declared.TheConstants.{MOST_ITEMS, MOST_CARGOES};

/// A law: `MOST_ITEMS` is 1,024, and `MOST_CARGOES` is 256.
pub fn limits_have_their_values()
    ensures most_items { MOST_ITEMS ≡ 1024 }
    ensures most_cargoes { MOST_CARGOES ≡ 256 }
{}
