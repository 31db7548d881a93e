//! The values of the limits of key files: other contracts cite the limits by name.
ghost use Rattle.std.specs.Prelude.{◌≡◌};
ghost use Rattle.tora_keyed.specs.declared.key_file.TheConstants.{KEY, LONGEST_KEY_FILE};

/// The values of the limits. The function does nothing: its contract is a law.
pub fn limits_have_their_values()
    ensures key { KEY ≡ 32 }
    ensures longest_key_file { LONGEST_KEY_FILE ≡ 65 }
{}
