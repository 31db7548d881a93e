//! TORA's rules as a relation, and the proof that the relation agrees with the computed rules.
ghost use Rattle.std.specs.Prelude.{◌≡◌, ◌↔◌, ℕ, ℤ, true, Option, None, Some, option_map, Contains};
ghost use Rattle.tora_height.specs.Height.{Quintuple};
ghost use Rattle.tora_height.specs.declared.level.Level.{Level};
ghost use Rattle.tora_core.specs.declared.Input.{Input};
ghost use Rattle.tora_core.specs.declared.destination.Broadcast.{Broadcast};
ghost use Rattle.tora_core.specs.View.{View, greatest_level, has_downstream, known_heights, least_delta, least_height};
ghost use Rattle.tora_core.specs.View.{next_hop_of};
ghost use Rattle.tora_core.specs.Heights.{fresh_time};
ghost use Rattle.tora_core.specs.Rules.{outcome_of, packet_of};
ghost use Rattle.tora_core.specs.CoreRun.{CoreView, concerns, next_packet, next_view, refusal_of};
ghost use Rattle.tora_core.specs.Kept.{IsCore, IsInput, IsKept, MayCome};
ghost use Rattle.tora_core.specs.Reacts.{HasDownstream, IsFreshTime, IsFromUp, IsGreatestLevel, IsLeastDelta};
ghost use Rattle.tora_core.specs.Reacts.{IsLeastKnown, IsNextHop, KnowsNone, Reacts};
ghost use Rattle.tora_core.specs.Worked.{WorkedRows};

/// The relation of TORA's rules has one case for each line of them (Park and Corson 1997, section 3). It holds for the
/// result of the computed rules, and for no other result.
pub fn rules_are_the_relation()
    ensures total { (v : View) (input : Input) (now : ℕ)
        → IsKept v → MayCome v input → IsFromUp v input
        → Reacts v input now (outcome_of v input now).view (outcome_of v input now).broadcast }
    ensures unique { (v : View) (input : Input) (now : ℕ) (after : View) (broadcast : Option Broadcast)
        → IsKept v → MayCome v input → Reacts v input now after broadcast
        → (after ≡ (outcome_of v input now).view) × (broadcast ≡ (outcome_of v input now).broadcast) }
{}

/// The searches of the computed rules find the least, greatest and lowest entries that the relation describes.
pub fn words_are_computed()
    ensures least { (v : View) (low : Quintuple)
        → (least_height (known_heights v) ≡ Some low) ↔ IsLeastKnown v low }
    ensures nothing { (v : View) → (least_height (known_heights v) ≡ None) ↔ KnowsNone v }
    ensures level { (v : View) (level : Level)
        → (greatest_level (known_heights v) ≡ Some level) ↔ IsGreatestLevel v level }
    ensures delta { (v : View) (level : Level) (delta : ℤ)
        → (least_delta level (known_heights v) ≡ Some delta) ↔ IsLeastDelta v level delta }
    ensures time { (v : View) (now t : ℕ) → (fresh_time v now ≡ t) ↔ IsFreshTime v now t }
    ensures downstream { (v : View) → (has_downstream v ≡ true) ↔ HasDownstream v }
    ensures next_hop { (v : View) (k : ℕ)
        → IsKept v → (next_hop_of v ≡ Some k) ↔ IsNextHop v k }
{}

/// If an accepted input concerns a view, the view reacts to it by the relation, and the packet sent for its destination
/// is the view's broadcast.
pub fn accepted_inputs_react()
    ensures { (c : CoreView) (input : Input) (now : ℕ) (v : View)
        → IsCore c → IsInput input → refusal_of c input ≡ None → Contains c.views v
        → concerns input v.destination ≡ true
        → (broadcast : Option Broadcast) × Reacts v input now (next_view input now v) broadcast
        × (next_packet input now v ≡ option_map (packet_of v.destination) broadcast) }
{}

/// Worked examples: a route is found and lost, and a level is propagated, reflected and erased, at one node and on a
/// line of four.
pub fn worked_rows_hold()
    ensures { WorkedRows }
{}
