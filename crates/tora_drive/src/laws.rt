//! The laws of drives.
ghost use Rattle.std.specs.Prelude.{◌≡◌, ℕ, Some};
ghost use Rattle.tora_height.specs.Height.{Quintuple};
ghost use Rattle.tora_world.specs.Law.{TakenBeginsSent};
ghost use Rattle.tora_world.specs.Walks.{height_at, IsExact, Arrives};
ghost use Rattle.tora_drive.specs.Runs.{DrivesAreRuns, AreSchedules, EveryDrive, HasNoGaps};
ghost use Rattle.tora_drive.specs.Scripts.{ScriptsStandForLines, RecordsAreSimulated, EventsAreRead, OrdersAreRead};
ghost use Rattle.tora_drive.specs.Scripts.{StepsHaveNumbers};
ghost use Rattle.tora_drive.specs.DriveText.{drive_reply};
ghost use Rattle.tora_drive.specs.Recording.{recorded_reply};
ghost use Rattle.tora_drive.specs.RecordedRuns.{IsOfHappened, LongLinesAreFaults, RecordedAreDrives};
ghost use Rattle.tora_drive.specs.RecordedRuns.{RecordedSaysNoNotice, EveryRecordedDrive};

use tora_world::{exact_entries_give_walks, no_gap_law, prefix_law};

/// After any lines of a drive, its world, if it has one, is the result of some events and cuts of sessions, from the
/// first world of some links, destinations and lines about nodes, with its options. Events and cuts are a schedule of
/// the free world, so the laws of worlds hold for every drive.
pub fn drives_are_runs_of_events()
    // If no line is `notice N K`, no session is cut, and the world is the result of events of the simulator.
    ensures events { DrivesAreRuns }
    // Events and cuts are a schedule of the free world.
    ensures schedules { AreSchedules }
    // The prefix law: what a core took from a neighbour in a session is a prefix of what the neighbour's core sent in
    // it.
    ensures prefix { EveryDrive (λ setup lines w. TakenBeginsSent w) }
    // The no-gap law: while a session is current at a core, all that the core broadcasts is sent in it.
    ensures gapless { EveryDrive (λ setup lines w. HasNoGaps setup.times w) }
    // Exact entries give walks: if each entry that is not NULL is the neighbour's height, next hops lead to the
    // destination.
    ensures walks { EveryDrive (λ setup lines w. (d n : ℕ) (height : Quintuple) → IsExact w d
        → height_at w n d ≡ Some (Some height) → Arrives w n d) }
{
    prefix_law();
    no_gap_law();
    exact_entries_give_walks();
}

/// A recorded drive is a drive without lines `notice N K`: such a line has the effect of an empty one there, which is a
/// fault. So all laws of drives hold for it, and its world is the result of events without cuts.
pub fn recorded_drives_are_drives()
    ensures drives { RecordedAreDrives }
    ensures silent { RecordedSaysNoNotice }
    ensures events { EveryRecordedDrive (λ setup w. IsOfHappened setup w) }
{}

/// The lines that a record has for a line of a drive change the simulation as that line does. Each of them is read as
/// the event or the order for which it was written, if its numbers are in range, as those of a step are.
pub fn recorded_lines_stand_for_lines()
    ensures stands { ScriptsStandForLines }
    // For all lines together: the lines of the record lead to the same simulation as the lines of the drive.
    ensures simulated { RecordsAreSimulated }
    ensures read { EventsAreRead }
    ensures numbers { StepsHaveNumbers }
    ensures orders { OrdersAreRead }
{}

/// A line of more than 4,096 bytes, which a drive treats as an empty one, is always a fault and changes nothing.
pub fn long_lines_change_no_drive()
    ensures drives { LongLinesAreFaults drive_reply }
    ensures recorded { LongLinesAreFaults recorded_reply }
{}
