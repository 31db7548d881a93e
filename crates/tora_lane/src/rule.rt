//! The rule of the queue into the core. The types here are for proofs only.
use crossbeam_channel::protocol::{Join, Lesson, Outcome, Protocol, Split};
use std::collections::LinkedList;
use tora_seat::Item;

/// For proofs only: what the holder of a pass knows. A pass is the right to use one end of the queue. No value of this
/// type exists at run time.
pub enum LaneView {
    /// A seat, and what it has put.
    Seat(usize, LinkedList<Item>),
    /// The core: the count of seats, what it has taken, and what each closed seat has put.
    Core(usize, LinkedList<Item>, LinkedList<(usize, LinkedList<Item>)>),
    /// A pass that is no longer used.
    Spent,
}

/// The rule of the queue into the core, for proofs only: for each seat, the items taken, followed by those in the
/// queue, are the items put.
pub struct LaneRule;

impl Protocol<Item, LaneView> for LaneRule {
    ghost use Rattle.std.specs.Prelude.{[]};
    ghost use Rattle.tora_lane.specs.declared.rule.LaneView.TheVariants.{Core};
    ghost use Rattle.tora_lane.specs.LaneRule.{KeepsLanes};

    ghost holds = { KeepsLanes };

    ghost first = { Core 0 [] [] };
}

/// For proofs only: the step in which a seat puts an item.
pub struct Puts;

impl Outcome<Item, LaneView> for Puts {
    ghost use Rattle.std.specs.Prelude.{◌≡◌};
    ghost use Rattle.tora_lane.specs.LaneRule.{after_put};

    ghost then = { λ v x w. w ≡ after_put v x };
}

impl Lesson<Item, LaneView> for Puts {
    ghost fact = { λ v items. Unit {0} };
}

/// For proofs only: the step in which the core takes an item.
pub struct Takes;

impl Outcome<Item, LaneView> for Takes {
    ghost use Rattle.std.specs.Prelude.{◌≡◌};
    ghost use Rattle.tora_lane.specs.LaneRule.{after_take, IsNext};

    ghost then = { λ v x w. (w ≡ after_take v x) × IsNext v x };
}

impl Lesson<Item, LaneView> for Takes {
    ghost fact = { λ v items. Unit {0} };
}

/// For proofs only: the step in which the core makes the next seat.
pub struct NewSeat;

impl Split<LaneView> for NewSeat {
    ghost use Rattle.tora_lane.specs.LaneRule.{with_new_seat, new_seat};

    ghost left = { with_new_seat };

    ghost right = { new_seat };
}

/// For proofs only: the step in which the core closes the port of a seat, and learns which items of this seat were
/// taken and which are left.
pub struct Settles;

impl Join<LaneView> for Settles {
    ghost use Rattle.tora_lane.specs.declared.rule.LaneView.TheVariants.{Spent};
    ghost use Rattle.tora_lane.specs.LaneRule.{with_settled};

    ghost both = { with_settled };

    ghost spent = { Spent };
}

impl Lesson<Item, LaneView> for Settles {
    ghost use Rattle.tora_lane.specs.LaneRule.{LastSettled};

    ghost fact = { LastSettled };
}
