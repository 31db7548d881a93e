//! Laws about serving items, for any results of the offers.
ghost use Rattle.std.specs.Prelude.{[], ◌≡◌, ◌≤◌, ◌+◌, ℕ, List, length, true, false};
ghost use Rattle.tora_core.specs.Numbers.{has_number, has_repeat};
ghost use Rattle.tora_seat.specs.declared.item.Item.{Item};
ghost use Rattle.tora_seat.specs.Offers.{Follows, answers_in};
ghost use Rattle.tora_seat.specs.Serving.{Answers, Offer, SeatState, serving_of};
ghost use Rattle.tora_seat.specs.SeatLaws.{IsInStep, HasNoGap, EndsAtBack};

/// Serving keeps this invariant: a neighbour has a current session exactly if its link is up at the core.
pub fn lives_are_current_where_links_are_up()
    ensures { (answers : Answers) (ks : List ℕ) (s : SeatState) (item : Item) → ks ≡ s.core.neighbours
        → has_repeat ks ≡ false
        → IsInStep ks s → IsInStep ks (serving_of answers ks s item).seat }
{}

/// While an item is served, the packets put into the queue to a neighbour are a prefix of the packets that the core
/// broadcasts while the neighbour's link is up, all in one session. They are all of these packets if the queue returns
/// none.
pub fn lives_have_no_gap()
    ensures { (answers : Answers) (ks : List ℕ) (s : SeatState) (item : Item) (k : ℕ)
        → ks ≡ s.core.neighbours → has_repeat ks ≡ false
        → IsInStep ks s → has_number k ks ≡ true → HasNoGap ks s item k (serving_of answers ks s item) }
{}

/// If the queue to a neighbour returns a packet, nothing more is offered to the neighbour, its session is over and its
/// cut is pending, and the core takes the link down while the same item is served.
pub fn handed_back_packets_end_their_lives()
    ensures { (answers : Answers) (ks : List ℕ) (s : SeatState) (item : Item) (k : ℕ)
        → ks ≡ s.core.neighbours → has_repeat ks ≡ false
        → IsInStep ks s → has_number k ks ≡ true → EndsAtBack ks s item k (serving_of answers ks s item) }
{}

/// For one item the core accepts at most two inputs more than it has neighbours: each link goes down at most once,
/// except a link whose session is replaced and then cut.
pub fn items_step_few_inputs()
    ensures { (answers : Answers) (ks : List ℕ) (s : SeatState) (item : Item) → ks ≡ s.core.neighbours
        → has_repeat ks ≡ false
        → length (serving_of answers ks s item).inputs ≤ length ks + 2 }
{}

/// The results of the offers that were made, used as the function of results, give the same offers and results. So the
/// contract of [`CoreSeat::serve`](crate::CoreSeat::serve) determines the serving of an item by the results of its
/// offers only.
pub fn offers_are_their_own_answers()
    ensures { (offers : List Offer) → Follows (answers_in offers) [] offers }
{}
