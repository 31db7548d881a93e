//! The effect of the inputs that a core accepts while it serves an item.
ghost use Rattle.std.specs.Prelude.{◌≡◌, ℕ, List};
ghost use Rattle.std.specs.List.{AllByRecursion};
ghost use Rattle.tora_core.specs.declared.Input.{Input};
ghost use Rattle.tora_core.specs.CoreRun.{core_after_all};
ghost use Rattle.tora_seat.specs.Serving.{Answers, SeatState, serving_of};
ghost use Rattle.tora_seat.specs.declared.item.Item.{Item};

/// A run of the inputs that the core accepted for an item, each at the item's tick, leads from the core before the item
/// to the core after it.
pub fn accepted_inputs_make_the_core()
    ensures runs { (answers : Answers) (neighbours : List ℕ) (seat : SeatState) (item : Item)
        → (serving_of answers neighbours seat item).seat.core ≡ core_after_all seat.core
        (serving_of answers neighbours seat item).inputs }
    ensures ticks { (answers : Answers) (neighbours : List ℕ) (seat : SeatState) (item : Item)
        → AllByRecursion (λ (input : Input × ℕ). input.1 ≡ item.now) (serving_of answers neighbours seat item).inputs }
{}
