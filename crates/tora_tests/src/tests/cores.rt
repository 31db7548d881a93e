//! Worked runs of the rules, cores that are made or refused, and texts.
use super::made::Numbers::{Counted, These};
use super::made::{Numbers, core_of, list_of};
use super::sees::{prints, prints_each, same, same_at, same_text, sees};
use std::alloc::Global;
use std::process::Abort;
use std::test::Fail;
use steps::Given::{Down, From, Need, Up};
use steps::Sent::Qry;
use steps::{Given, input_of, runs};
use tora_core::CoreError::{OwnId, Repeated, TooMany};
use tora_core::{Core, CoreError, Input, StepError};
use tora_height::Id;

mod limits;
mod random;
mod steps;
mod tables;

#[test]
fn line_of_four_joins(rt: HostRuntime) {
    let steps = [tables::LINE_UP, tables::JOINING, tables::JOINED];
    runs(&rt, rt.alloc(), tables::LINE, &steps);
}

#[test]
fn line_of_four_detects_a_partition(rt: HostRuntime) {
    let steps = [
        tables::LINE_UP,
        tables::JOINING,
        tables::PARTING,
        tables::ERASING,
        tables::ERASED,
    ];
    runs(&rt, rt.alloc(), tables::LINE, &steps);
}

#[test]
fn reflection_of_another_node_gives_a_new_level(rt: HostRuntime) {
    let steps = [tables::FOREIGN_REFLECTION, tables::NEW_LEVEL];
    runs(&rt, rt.alloc(), tables::MIDDLE, &steps);
}

#[test]
fn clear_of_a_foreign_level_counts_as_link_failure(rt: HostRuntime) {
    let steps = [tables::FOREIGN_REFLECTION, tables::CLEARED_BESIDE_ANOTHER];
    runs(&rt, rt.alloc(), tables::MIDDLE, &steps);
    let steps = [tables::FOREIGN_REFLECTION, tables::CLEARED_ALONE];
    runs(&rt, rt.alloc(), tables::MIDDLE, &steps);
}

#[test]
fn fresh_time_passes_a_clock_that_is_behind(rt: HostRuntime) {
    let steps = [tables::ANSWERING, tables::CLOCK_BEHIND];
    runs(&rt, rt.alloc(), tables::NEXT, &steps);
}

#[test]
fn delta_out_of_range_gives_no_height(rt: HostRuntime) {
    runs(&rt, rt.alloc(), tables::LEAF, &[tables::GREATEST_DELTA]);
}

#[test]
fn told_neighbour_gets_no_second_answer(rt: HostRuntime) {
    let steps = [tables::ANSWERING, tables::TOLD];
    runs(&rt, rt.alloc(), tables::NEXT, &steps);
}

#[test]
fn refusals_change_nothing(rt: HostRuntime) {
    runs(&rt, rt.alloc(), tables::NEXT, &[tables::REFUSALS]);
}

#[test]
fn sends_are_listed_by_destination(rt: HostRuntime) {
    runs(
        &rt,
        rt.alloc(),
        tables::TWO_DESTINATIONS,
        &[tables::TWO_PACKETS],
    );
}

#[test]
fn propagation_takes_the_least_delta(rt: HostRuntime) {
    runs(&rt, rt.alloc(), tables::FORK, &[tables::LEAST_DELTA]);
}

#[test]
fn text_of_each_direction(rt: HostRuntime) {
    let steps = [tables::ANSWERING, tables::DIRECTIONS];
    runs(&rt, rt.alloc(), tables::NEXT, &steps);
    runs(&rt, rt.alloc(), tables::DESTINATION, &[tables::OWN_TEXT]);
}

#[test]
fn example_of_the_documentation(rt: HostRuntime) {
    let steps = [tables::ANSWERING, tables::HOP];
    runs(&rt, rt.alloc(), tables::NEXT, &steps);
}

/// The core of node `me` with these neighbours and destinations, or the error of `Core::new`; the error is `Memory`
/// also if memory runs out for the lists. The test fails if a number is 0.
fn made(
    rt: &impl Abort,
    alloc: Global,
    me: Id,
    neighbours: Numbers,
    destinations: Numbers,
) -> Result<Core, CoreError> {
    let Ok(neighbours) = list_of(alloc, neighbours) else {
        return Err(CoreError::Memory);
    };
    let Ok(destinations) = list_of(alloc, destinations) else {
        return Err(CoreError::Memory);
    };
    core_of(rt, alloc, me, &neighbours, &destinations)
}

/// The neighbours and the destinations of node 1, the error for them, if any, and what the row tests.
type Made = (Numbers, Numbers, Option<CoreError>, &'static str);

/// Makes the core of node 1 for each row, and checks that it is refused with the error of the row, or made if that is
/// `None`.
fn makes(rt: &impl Abort, alloc: Global, rows: &[Made]) {
    for (neighbours, destinations, error, what) in rows {
        let found = made(rt, alloc, 1, *neighbours, *destinations).err();
        same(rt, &found, error, what);
    }
}

/// Lists that are refused, and two empty ones.
const FAULTS: &[Made] = &[
    (These(&[2; 33]), These(&[4]), Some(TooMany), "33 neighbours"),
    (
        These(&[2]),
        These(&[4; 65]),
        Some(TooMany),
        "65 destinations",
    ),
    (
        These(&[1, 2, 2]),
        These(&[4]),
        Some(Repeated),
        "a neighbour twice",
    ),
    (
        These(&[2, 1]),
        These(&[4, 4]),
        Some(Repeated),
        "a destination twice",
    ),
    (These(&[2, 1]), These(&[1]), Some(OwnId), "the node itself"),
    (These(&[]), These(&[]), None, "an empty core"),
];

#[test]
fn numbers_of_the_errors(rt: HostRuntime) {
    makes(&rt, rt.alloc(), FAULTS);
}

/// The greatest numbers of neighbours (32) and of destinations (64), one more of either, and one more of both.
const LIMITS: &[Made] = &[
    (Counted(2, 33), These(&[4]), Some(TooMany), "33 neighbours"),
    (
        These(&[2]),
        Counted(1, 65),
        Some(TooMany),
        "65 destinations",
    ),
    (
        Counted(2, 33),
        Counted(1, 65),
        Some(TooMany),
        "one more of both",
    ),
    (Counted(2, 32), These(&[4]), None, "32 neighbours"),
    (These(&[2]), Counted(1, 64), None, "64 destinations"),
];

/// Checks that a list has this many consecutive numbers from the first on.
fn counts(rt: &impl Abort, list: &[Id], first: Id, count: usize) {
    same(rt, &list.len(), &count, "how many numbers");
    let mut wanted = first;
    for number in list {
        same(rt, number, &wanted, "the number");
        wanted = wanted.saturating_add(1);
    }
}

// The greatest numbers of neighbours and destinations are accepted, and one more of either is not.
#[test]
fn tables_are_taken_up_to_their_limits(rt: HostRuntime) -> Result<(), Fail> {
    makes(&rt, rt.alloc(), LIMITS);
    let core = made(&rt, rt.alloc(), 1, Counted(2, 32), Counted(1, 64))?;
    counts(&rt, core.neighbours(), 2, 32);
    counts(&rt, core.destinations(), 1, 64);
    Ok(())
}

/// The text of the core of node `me` with these neighbours and destinations; `None` after an error, which must be
/// `Memory`.
fn text_of(
    rt: &impl Abort,
    alloc: Global,
    me: Id,
    neighbours: Numbers,
    destinations: Numbers,
) -> Option<String> {
    let shown = match made(rt, alloc, me, neighbours, destinations) {
        Ok(core) => core.show(alloc),
        Err(error) => Err(error),
    };
    match shown {
        Ok(text) => Some(text),
        Err(error) => {
            same(rt, &error, &CoreError::Memory, "the error");
            None
        }
    }
}

// `bench/refused-memory.sh` runs this with each request for memory refused in turn: the only error is `Memory`.
#[test]
fn want_of_memory_is_answered(rt: HostRuntime) {
    if let Some(text) = text_of(&rt, rt.alloc(), 3, These(&[2, 4]), These(&[4])) {
        let wanted = "to 4 height - flag 0 hop -\n";
        same_text(&rt, text.as_str(), wanted, "the text");
    }
    if let Some(text) = text_of(&rt, rt.alloc(), 1, Counted(2, 32), Counted(1, 64)) {
        same(&rt, &text.lines().count(), &64, "how many lines");
    }
}

/// Steps an input at tick 1, and checks that it is accepted.
fn is_taken(rt: &impl Abort, core: &mut Core, input: Input) {
    same_at(rt, &core.step(input, 1).err(), &None, "the refusal", &input);
}

// If a link comes up while a route to each of 64 destinations is required, a packet is sent for each of them.
#[test]
fn a_list_of_packets_holds_one_for_each_destination(rt: HostRuntime) -> Result<(), Fail> {
    let mut core = made(&rt, rt.alloc(), 1, These(&[70, 71]), Counted(2, 64))?;
    for d in 2..66 {
        is_taken(&rt, &mut core, Input::Need(d));
    }
    let sends = core.step(Input::LinkUp(70), 2)?;
    same(&rt, &sends.len(), &64, "how many packets");
    for (packet, d) in sends.iter().zip(2..66) {
        same(&rt, &packet.destination(), &d, "the destination");
    }
    Ok(())
}

// 32 neighbours with links that are up and 64 destinations, one of them the node itself: each destination has a line
// for itself and one for each neighbour.
#[test]
fn largest_table_is_shown(rt: HostRuntime) -> Result<(), Fail> {
    let mut core = made(&rt, rt.alloc(), 1, Counted(2, 32), Counted(1, 64))?;
    for k in 2..34 {
        is_taken(&rt, &mut core, Input::LinkUp(k));
    }
    let text = core.show(rt.alloc())?;
    let text = text.as_str();
    same(&rt, &text.lines().count(), &(64 * 33), "how many lines");
    let first = text.starts_with("to 1 height (0,0,0,0,1) flag 0 hop -\n");
    sees(&rt, first, "the first line");
    sees(&rt, text.ends_with("\nvia 33 - none\n"), "the last line");
    Ok(())
}

/// The text of inputs.
const PRINTED: &[(Given, &str)] = &[
    (Up(2), "up 2"),
    (Down(2), "down 2"),
    (Need(4), "need 4"),
    (From(2, Qry(4)), "from 2 QRY 4"),
];

#[test]
fn inputs_are_printed_in_words(rt: HostRuntime) {
    for (given, wanted) in PRINTED {
        prints(&rt, rt.alloc(), &input_of(&rt, *given), wanted);
    }
}

/// The text of a core's errors.
const ERRORS: &[(CoreError, &str)] = &[
    (CoreError::Memory, "there is not enough memory"),
    (
        TooMany,
        "there are too many neighbours or too many destinations",
    ),
    (Repeated, "a neighbour or a destination is named twice"),
    (OwnId, "the node itself is among its neighbours"),
];

#[test]
fn errors_of_a_core_are_printed_with_their_cause(rt: HostRuntime) {
    prints_each(&rt, rt.alloc(), ERRORS);
}

/// The text of refusals.
const REFUSALS: &[(StepError, &str)] = &[
    (
        StepError::UnknownNeighbour,
        "the neighbour is not configured",
    ),
    (StepError::AlreadyUp, "the link is up already"),
    (StepError::NotUp, "the link is not up"),
    (
        StepError::WrongSender,
        "the update is not of the neighbour that sent it",
    ),
    (
        StepError::UnknownDestination,
        "the destination is not in the table",
    ),
];

#[test]
fn refusals_are_printed_with_their_cause(rt: HostRuntime) {
    prints_each(&rt, rt.alloc(), REFUSALS);
}
