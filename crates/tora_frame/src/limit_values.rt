//! The values of the limits of frames: other contracts cite the limits by name.
ghost use Rattle.std.specs.Prelude.{◌≡◌, ◌^◌};
ghost use Rattle.tora_frame.specs.declared.parts.TheConstants.{GREATEST_NUMBER, MOST_PACKETS};
ghost use Rattle.tora_frame.specs.declared.layout.TheConstants.{HEADER_LENGTH, PACKET_HEAD, BATCH_HEAD};
ghost use Rattle.tora_frame.specs.declared.encoding.TheConstants.{LONGEST_FRAME};

/// `GREATEST_NUMBER` is 2^62, `MOST_PACKETS` 16 and `LONGEST_FRAME` 560 bytes. A header has 28 bytes, and the part of a
/// DATA frame between its header and its packets 16 in version 1 and 20 in version 2.
pub fn limits_have_their_values()
    ensures greatest_number { GREATEST_NUMBER ≡ 2 ^ 62 }
    ensures most_packets { MOST_PACKETS ≡ 16 }
    ensures header_length { HEADER_LENGTH ≡ 28 }
    ensures packet_head { PACKET_HEAD ≡ 16 }
    ensures batch_head { BATCH_HEAD ≡ 20 }
    ensures longest_frame { LONGEST_FRAME ≡ 560 }
{}
