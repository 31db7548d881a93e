//! One turn of a neighbour's thread.
ghost use Rattle.std.specs.Prelude.{◌≡◌, [], ◌∷◌, ℕ, ◌<◌, IfErr, OnOk, OnErr};
ghost use Rattle.tora_neighbour.specs.Datagrams.{RoseBy};
ghost use Rattle.tora_neighbour.specs.Tally.{counted_in};
ghost use Rattle.tora_neighbour.specs.Turns.{Turn, IsTurn, IsLastTurn, is_beat_due, beat_after, failed_calls, IsRow};
ghost use Rattle.tora_neighbour.specs.Turns.{EndsInRow};
ghost use Rattle.tora_neighbour.specs.Traffic.{Traffic, outside};
ghost use Rattle.tora_neighbour.specs.Calls.{TurnCalls, LastCalls};
ghost use Rattle.tora_neighbour.specs.Causes.{IsReady, IsCause};

use crate::ending::Ending;
use crate::hub::Hub;
use crate::link::Link;
use crate::tally::Tally;
use crate::turn_parts::MOST_FAILURES;
use crate::turn_stages::{begin, exchange, give_up, tell};
use crate::wire::Wire;
use std::sync::Wait;
use tora_life::Disk;

/// What a thread carries from one turn to the next.
#[derive(Clone, Copy, Debug, PartialEq, Eq, Hash)]
pub struct Course {
    /// How many calls of the wire have failed since the last one that succeeded, or since the start: below 100 before a
    /// turn.
    pub row: u64,
    /// The tick of the last beat that was put; `None` if there was none.
    pub last_beat: Option<u64>,
    /// The counts of the received datagrams.
    pub tally: Tally,
}

/// Makes one turn of `run_neighbour` at the tick `now` of 100 ms. An error says that the thread ends with this turn,
/// and why.
pub fn turn<R: Wait, D: Disk, W: Wire, H: Hub>(
    rt: &R,
    now: u64,
    link: &mut Link<D, W>,
    hub: &mut H,
    course: &mut Course,
) -> Result<(), Ending>
    requires ready { IsReady link.old.end.state link.old.file.numbers }
    requires row { course.old.row < MOST_FAILURES }
    ensures settings { link.new.end.settings ≡ link.old.end.settings }
    ensures ready { OnOk result (IsReady link.new.end.state link.new.file.numbers) }
    ensures row { OnOk result (course.new.row < MOST_FAILURES) }
    ensures failures { (base : ℕ) → RoseBy course.old.row base (W.failures link.old.wire)
        → RoseBy course.new.row base (W.failures link.new.wire) }
    ensures failed { OnOk result (link.new.file.numbers.failed ≡ link.old.file.numbers.failed) }
    ensures disk { OnOk result (D.failures link.new.file.disk ≡ D.failures link.old.file.disk) }
    ensures turn { OnOk result ((t : Turn) × IsTurn link.old.end.settings link.old.end.state t link.new.end.state
        × (t.beat ≡ is_beat_due course.old.last_beat t.now) × (course.new.last_beat ≡ beat_after course.old.last_beat t)
        × (course.new.tally ≡ counted_in t.intake course.old.tally)
        × Traffic (outside H.puts H.takes W.tells W.coming W.tries link.old hub.old) (t ∷ [])
        (outside H.puts H.takes W.tells W.coming W.tries link.new hub.new)
        × TurnCalls H.did_take H.did_put W.did_send W.did_receive hub.old link.old.wire t hub.new link.new.wire
        × (t.now ≡ now) × IsRow course.old.row (failed_calls t.answers t.answer) course.new.row) }
    ensures last { IfErr result (λ ending. (t : Turn)
        × IsLastTurn link.old.end.settings course.old.last_beat link.old.end.state t ending link.new.end.state
        × (course.new.tally ≡ counted_in t.intake course.old.tally)
        × Traffic (outside H.puts H.takes W.tells W.coming W.tries link.old hub.old) (t ∷ [])
        (outside H.puts H.takes W.tells W.coming W.tries link.new hub.new)
        × LastCalls H.did_take H.did_put W.did_send W.did_receive hub.old link.old.wire t ending hub.new link.new.wire
        × (t.now ≡ now) × IsRow course.old.row (failed_calls t.answers t.answer) course.new.row
        × EndsInRow ending course.new.row) }
    ensures cause { IfErr result (λ ending. IsCause ending link.old.file.numbers link.new.file.numbers
        (D.failures link.old.file.disk) (D.failures link.new.file.disk) course.new.row (H.gone hub.new)) }
{
    if let Err(error) = begin(rt, &mut link.end, &mut link.file, hub, now) {
        return Err(Ending::NoNumber(error));
    }
    if let Err(at) = exchange(
        rt,
        &mut link.end,
        &mut link.wire,
        &mut course.row,
        &mut course.tally,
        now,
    ) {
        give_up(rt, &mut link.end, hub, now);
        return Err(Ending::Broken(at));
    }
    if let Err(_) = tell(rt, &mut link.end, hub, &mut course.last_beat, now) {
        return Err(Ending::Refused);
    }
    Ok(())
}
