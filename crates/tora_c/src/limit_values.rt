//! The values of the codes, which `include/tora.h` has, too: contracts cite the codes by name.
ghost use Rattle.std.specs.Prelude.{◌≡◌};
ghost use Rattle.tora_c.specs.declared.codes.TheConstants.{OK, MEMORY, TOO_MANY, REPEATED, OWN_ID, NULL, ZERO};
ghost use Rattle.tora_c.specs.declared.codes.TheConstants.{CHOICE, ABSENT};
ghost use Rattle.tora_c.specs.declared.codes.TheConstants.{ROOM, UNKNOWN, UNKNOWN_NEIGHBOUR, LIFE, REFUSED};
ghost use Rattle.tora_c.specs.declared.codes.TheConstants.{NO_PACKET, NO_FRAME, NO_NEIGHBOUR};
ghost use Rattle.tora_c.specs.declared.TheConstants.{ABI_VERSION};

/// The values of the codes and of `ABI_VERSION`. The function does nothing: its contract is a law.
pub fn codes_have_their_values()
    ensures ok { OK ≡ 0 }
    ensures memory { MEMORY ≡ 1 }
    ensures too_many { TOO_MANY ≡ 2 }
    ensures repeated { REPEATED ≡ 3 }
    ensures own_id { OWN_ID ≡ 4 }
    ensures null { NULL ≡ 5 }
    ensures zero { ZERO ≡ 6 }
    ensures choice { CHOICE ≡ 7 }
    ensures absent { ABSENT ≡ 8 }
    ensures room { ROOM ≡ 9 }
    ensures unknown { UNKNOWN ≡ 10 }
    ensures unknown_neighbour { UNKNOWN_NEIGHBOUR ≡ 11 }
    ensures life { LIFE ≡ 16 }
    ensures refused { REFUSED ≡ 10 }
    ensures no_packet { NO_PACKET ≡ 20 }
    ensures no_frame { NO_FRAME ≡ 10 }
    ensures no_neighbour { NO_NEIGHBOUR ≡ 30 }
    ensures abi_version { ABI_VERSION ≡ 1 }
{}
