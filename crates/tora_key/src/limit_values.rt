//! The values of the limits of keys and tags: other contracts cite the limits by name.
ghost use Rattle.std.specs.Prelude.{◌≡◌};
ghost use Rattle.tora_key.specs.declared.key.TheConstants.{BLOCK, TAG};

/// A block of SHA-256 has 64 bytes, and a tag 16.
pub fn limits_have_their_values()
    ensures block { BLOCK ≡ 64 }
    ensures tag { TAG ≡ 16 }
{}
