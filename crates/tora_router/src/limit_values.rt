//! The values of the limits of a router: other contracts cite the limits by name.
ghost use Rattle.std.specs.Prelude.{◌≡◌, ◌^◌};
ghost use Rattle.tora_router.specs.declared.TheConstants.{GREATEST_LIFE};

/// A law: `GREATEST_LIFE` is 2^62.
pub fn limits_have_their_values()
    ensures greatest_life { GREATEST_LIFE ≡ 2 ^ 62 }
{}
