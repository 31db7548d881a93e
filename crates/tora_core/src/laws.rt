//! The invariants of TORA's rules.
ghost use Rattle.std.specs.Prelude.{◌≡◌, List, None, ℕ};
ghost use Rattle.std.specs.List.{AllByRecursion};
ghost use Rattle.tora_packet.specs.PacketParts.{IsId};
ghost use Rattle.tora_core.specs.declared.erasure.Erasure.{Erasure};
ghost use Rattle.tora_core.specs.declared.Input.{Input};
ghost use Rattle.tora_core.specs.View.{View, first_view_of};
ghost use Rattle.tora_core.specs.Rules.{outcome_of};
ghost use Rattle.tora_core.specs.CoreRun.{core_after_all, core_refusal_within, first_core_of};
ghost use Rattle.tora_core.specs.Limits.{most_destinations, most_neighbours};
ghost use Rattle.tora_core.specs.declared.limits.CoreLimits.{CoreLimits};
ghost use Rattle.tora_core.specs.Kept.{AreInputs, IsCore, IsKept, IsKeptOutcome, MayCome};

/// Every input keeps the invariants of a view: a route is required only if the height and every entry are NULL, and a
/// node other than the destination that has a height has a lower neighbour. Broadcast packets are about the
/// destination.
pub fn rules_are_kept()
    ensures first { (erasure : Erasure) (me destination : ℕ) → IsId me → IsId destination
        → IsKept (first_view_of erasure me destination) }
    ensures next { (v : View) (input : Input) (now : ℕ) → IsKept v → MayCome v input
        → IsKeptOutcome (outcome_of v input now) }
{}

/// Every view of a core keeps the invariants over every run of inputs of a new core: of any length, with any ticks,
/// with refused inputs among them, for any limits and either choice of `Erasure`.
pub fn runs_are_kept()
    ensures { (erasure : Erasure) (limits : CoreLimits) (me : ℕ) (neighbours destinations : List ℕ)
        (inputs : List (Input × ℕ)) → IsId me → AllByRecursion IsId neighbours → AllByRecursion IsId destinations
        → core_refusal_within (most_neighbours limits) (most_destinations limits) me neighbours destinations ≡ None
        → AreInputs inputs → IsCore (core_after_all (first_core_of erasure me neighbours destinations) inputs) }
{}
