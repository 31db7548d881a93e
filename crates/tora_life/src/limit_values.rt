//! The values of the limits of life files: other contracts cite the limits by name.
ghost use Rattle.std.specs.Prelude.{◌≡◌, ◌^◌};
ghost use Rattle.tora_life.specs.declared.lengths.TheConstants.{SLOT_LENGTH, SLOTS_LENGTH, FILE_LENGTH, FIRST_READ};
ghost use Rattle.tora_life.specs.declared.lengths.TheConstants.{DISK_LENGTH};
ghost use Rattle.tora_life.specs.declared.numbers.TheConstants.{LAST_NUMBER, RESERVED};

/// In bytes: a slot has 16, both slots 32, a life file 64, the first read 65, and a `MemDisk` at most 80. Numbers go up
/// to 2^62, and a write reserves 16 of them.
pub fn limits_have_their_values()
    ensures slot_length { SLOT_LENGTH ≡ 16 }
    ensures slots_length { SLOTS_LENGTH ≡ 32 }
    ensures file_length { FILE_LENGTH ≡ 64 }
    ensures first_read { FIRST_READ ≡ 65 }
    ensures disk_length { DISK_LENGTH ≡ 80 }
    ensures last_number { LAST_NUMBER ≡ 2 ^ 62 }
    ensures reserved { RESERVED ≡ 16 }
{}
