//! The values of the limits of a packet's bytes: other contracts cite the limits by name.
ghost use Rattle.std.specs.Prelude.{◌≡◌};
ghost use Rattle.tora_packet.specs.declared.lengths.TheConstants.{QUERY_LENGTH, UPDATE_LENGTH, CLEAR_LENGTH};

/// A query has 8 bytes, an update 32 and a clear 20.
pub fn limits_have_their_values()
    ensures query_length { QUERY_LENGTH ≡ 8 }
    ensures update_length { UPDATE_LENGTH ≡ 32 }
    ensures clear_length { CLEAR_LENGTH ≡ 20 }
{}
