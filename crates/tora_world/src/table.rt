//! The table of events as a relation, and the proof that the computed definition and the table agree.
ghost use Rattle.std.specs.Prelude.{◌≡◌, ◌↔◌, ◌+◌, ◌≤◌, ℕ, List, length, Some};
ghost use Rattle.tora_arq.specs.Settings.{IsTimes};
ghost use Rattle.tora_arq.specs.declared.times.Times.{Times};
ghost use Rattle.tora_seat.specs.declared.TheConstants.{MOST_CARGOES, MOST_ITEMS};
ghost use Rattle.tora_world.specs.FreeWorld.{after_schedule, happening};
ghost use Rattle.tora_world.specs.Repeats.{HappensAtMost};
ghost use Rattle.tora_world.specs.Table.{IsRefused, IsRefusedBy, IsStep, IsStepBy};
ghost use Rattle.tora_world.specs.Topology.{Topology};
ghost use Rattle.tora_world.specs.WorkedTable.{Crashes, Meetings, Pulls, Pumps, Rooms, Ticks, Tries};
ghost use Rattle.tora_world.specs.World.{Choice, World, first_world, refusal_by, refusal_of, world_after};
ghost use Rattle.tora_world.specs.World.{world_after_all, world_by};
ghost use Rattle.tora_world.specs.declared.event.Event.TheVariants.{CoreTurn, Pull, Pump, Transmit};
ghost use Rattle.tora_world.specs.declared.event.Event.{Event};
ghost use Rattle.tora_world.specs.declared.sim_error.SimError.{SimError};

use tora_arq::{WINDOW, polls_of_a_tick_end};

/// The table of events is equivalent to the world's definition. For each event and each of its outcomes the table says
/// what changes, and that nothing else does.
pub fn steps_are_the_table()
    // The simulator's own choice of ticks and results: the table allows exactly the world that the definition computes.
    ensures steps { (w : World) (event : Event) (after : World) → IsStep w event after ↔ (after ≡ world_after w event) }
    // The simulator refuses an event for the cause that the table gives, and for no other.
    ensures refusals { (w : World) (event : Event) (error : SimError) → IsRefused w event error
        ↔ (refusal_of w event ≡ Some error) }
    // The same with any ticks and any results of the queues.
    ensures free { (c : Choice) (w : World) (event : Event) (after : World) → IsStepBy c w event after
        ↔ (after ≡ world_by c w event) }
    ensures free_refusals { (c : Choice) (w : World) (event : Event) (error : SimError) → IsRefusedBy c w event error
        ↔ (refusal_by c w event ≡ Some error) }
{}

/// Examples of rows of the table of events, computed.
pub fn worked_rows_of_the_table_hold()
    // A pulled cut ends its own session and no other. A pulled packet is submitted in its own session.
    ensures pulls { Pulls }
    // A restart leaves the torn bytes of a slot that was written and not synced, or the old bytes; armed calls stay
    // armed.
    ensures crashes { Crashes }
    // An event of a link end is put into a queue that has room, with the tick of the clock.
    ensures pumps { Pumps }
    // A lost send counts as a try.
    ensures tries { Tries }
    // Earlier offers of the same turn count as outbound messages in the queue to a neighbour.
    ensures rooms { Rooms }
    // A tick reaches every link end, and advances the clock.
    ensures ticks { Ticks }
    // An accepted packet is acknowledged, entries are exact, and there is a walk.
    ensures meetings { Meetings }
{}

/// No event can be repeated without end: a turn takes an item from a queue, a pull takes an outbound message from a
/// queue, a pump fills a queue, and an end has a bounded number of frames at one tick. A round repeats an event up to
/// 1,024 times; after that the event is not possible any more.
pub fn events_run_out()
    // A queue into a core has at most 1,024 items after any events of the simulator, with any ticks and results of
    // queues.
    ensures lanes_in { (t : Topology) (times : Times) (es : List (Event × Choice)) (n : ℕ)
        → length ((after_schedule (happening es) (first_world t times)).items n) ≤ MOST_ITEMS }
    // A queue out of a core has at most 256 outbound messages in the simulator.
    ensures lanes_out { (t : Topology) (times : Times) (events : List Event) (n k : ℕ)
        → length ((world_after_all (first_world t times) events).cargoes n k) ≤ MOST_CARGOES }
    ensures turns { (w : World) (n : ℕ) → length (w.items n) ≤ MOST_ITEMS → HappensAtMost MOST_ITEMS (CoreTurn n) w }
    ensures pulls { (w : World) (n k : ℕ) → length (w.cargoes n k) ≤ MOST_CARGOES
        → HappensAtMost MOST_CARGOES (Pull n k) w }
    ensures transmits { (w : World) (n k : ℕ) → IsTimes w.times → HappensAtMost (WINDOW + 4) (Transmit n k) w }
    ensures pumps { (w : World) (n k : ℕ) → HappensAtMost MOST_ITEMS (Pump n k) w }
{
    polls_of_a_tick_end();
}
