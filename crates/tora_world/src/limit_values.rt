//! The values of the limits of a world: other contracts cite the limits by name.
ghost use Rattle.std.specs.Prelude.{◌≡◌};
ghost use Rattle.tora_world.specs.declared.limits.TheConstants.{MOST_NODES, GREATEST_NODES};

/// A law: `MOST_NODES` is 64, and `GREATEST_NODES` is 1,024.
pub fn limits_have_their_values()
    ensures most_nodes { MOST_NODES ≡ 64 }
    ensures greatest_nodes { GREATEST_NODES ≡ 1024 }
{}
