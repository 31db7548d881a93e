//! The values of the limits of the queues between threads: other contracts cite the limits by name.
ghost use Rattle.std.specs.Prelude.{◌≡◌, ◌^◌};
ghost use Rattle.tora_lane.specs.declared.limits.TheConstants.{MOST_LINKS, CORE_LANE_ROOM, OUT_LANE_ROOM, MOST_IN_ALL};

/// The values of the limits. The function does nothing: its contract is a law.
pub fn limits_have_their_values()
    ensures most_links { MOST_LINKS ≡ 32 }
    ensures core_lane_room { CORE_LANE_ROOM ≡ 1024 }
    ensures out_lane_room { OUT_LANE_ROOM ≡ 256 }
    ensures most_in_all { MOST_IN_ALL ≡ 2 ^ 61 }
{}
