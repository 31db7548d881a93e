//! Serving as a relation, and the proof that the relation agrees with the computed definition.
ghost use Rattle.std.specs.Prelude.{◌≡◌, ℕ, true, List, Some};
ghost use Rattle.tora_core.specs.declared.Input.{Input};
ghost use Rattle.tora_core.specs.Numbers.{has_number, IsAscending};
ghost use Rattle.tora_seat.specs.declared.item.Item.{Item};
ghost use Rattle.tora_seat.specs.Offers.{answers_in};
ghost use Rattle.tora_seat.specs.Serving.{Answers, SeatState, Serving, after_input, first_cut, serving_of};
ghost use Rattle.tora_seat.specs.Serves.{IsCut, Serves};

/// The relation of serving has one case for each kind of item and each situation. It holds for the result of the
/// computed definition, and for no other result: two servings of an item whose offers had the same results are equal.
pub fn serving_is_the_relation()
    // For any results of the offers, the relation holds for the computed result.
    ensures found { (answers : Answers) (ks : List ℕ) (s : SeatState) (item : Item)
        → ks ≡ s.core.neighbours → IsAscending ks → Serves ks s item (serving_of answers ks s item) }
    // If the relation holds for a result, the definition computes it from the results of its offers.
    ensures only { (ks : List ℕ) (s : SeatState) (item : Item) (v : Serving)
        → ks ≡ s.core.neighbours → IsAscending ks → Serves ks s item v
        → v ≡ serving_of (answers_in v.offers) ks s item }
{}

/// A link that is up at the core without a current session goes down while the same item is served.
pub fn cut_links_go_down()
    // The next link to go down is that of a neighbour whose session was cut.
    ensures next { (ks : List ℕ) (s : SeatState) (k : ℕ) → first_cut s ks ≡ Some k → IsCut ks s k }
    // After an input and all its consequences no such neighbour is left.
    ensures none_left { (answers : Answers) (ks : List ℕ) (input : Input) (now : ℕ) (v : Serving)
        → ((j : ℕ) → has_number j ks ≡ true → has_number j v.seat.core.neighbours ≡ true)
        → (k : ℕ) → ¬ IsCut ks (after_input answers ks input now v).seat k }
{}
