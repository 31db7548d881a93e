//! Why lines of simulation files are faults.
use super::route_rows::NO_RESTS;
use super::runs::{Way, expect_rows};
use super::sees::sees_at;
use std::alloc::Global;
use std::process::Abort;
use tora_arq::Times;
use tora_lines::{FileKind, LONGEST_LINE};
use tora_script::{Setup, Simulation, SimulationCause, simulation_cause};
use tora_sim::Sim;

/// Passes a line to the simulation `state`. Returns false if it is a fault, or if memory runs out.
fn is_taken(alloc: Global, state: &mut Simulation<Sim>, line: &str) -> bool {
    let mut text = String::new(alloc);
    line.len() <= LONGEST_LINE && state.take(alloc, line.as_bytes(), &mut text).is_ok()
}

/// The state after these lines; `None` if one is a fault or memory runs out.
fn state_behind(alloc: Global, lines: &[&str]) -> Option<Simulation<Sim>> {
    let mut state: Simulation<Sim> = Simulation::new(Setup::plain(Times::STANDARD));
    for line in lines {
        if !is_taken(alloc, &mut state, *line) {
            return None;
        }
    }
    Some(state)
}

/// Why `line` after `lines` is a fault; `None` if one of `lines` is a fault or memory runs out.
fn cause_behind(alloc: Global, lines: &[&str], line: &str) -> Option<SimulationCause> {
    let state = state_behind(alloc, lines)?;
    Some(simulation_cause(&state.stage, line.as_bytes()))
}

/// Lines; and further lines, each of which is a fault after them, with the cause.
type Causes = (
    &'static [&'static str],
    &'static [(&'static str, SimulationCause)],
);

/// Checks the cause of each further line after its lines. If another cause is found, it checks once more, since memory
/// may have run out.
fn expect_causes(rt: &impl Abort, alloc: Global, groups: &[Causes]) {
    for (lines, rows) in groups {
        for (line, cause) in *rows {
            let mut found = cause_behind(alloc, *lines, *line);
            if found != Some(*cause) {
                found = cause_behind(alloc, *lines, *line);
            }
            sees_at(rt, found == Some(*cause), &(lines, line, found));
        }
    }
}

/// First lines, and why each is a fault.
const FIRST_CAUSES: &[(&str, SimulationCause)] = &[
    ("", SimulationCause::Empty),
    ("dests 4\r", SimulationCause::CarriageReturn),
    ("dests 4 ", SimulationCause::TrailingBlank),
    ("link 1 2", SimulationCause::Dests),
    ("dests", SimulationCause::Dests),
    ("dests 0", SimulationCause::List),
    ("dests 4,", SimulationCause::List),
];

/// Second lines after an accepted first line, and why each is a fault.
const LINK_CAUSES: &[(&str, SimulationCause)] = &[
    ("tick", SimulationCause::NoLink),
    ("link 1 2 ", SimulationCause::TrailingBlank),
    ("link 1", SimulationCause::Pair),
    ("link 1 0", SimulationCause::Pair),
];

/// Lines directly after two links, and why each is a fault.
const SECOND_LINK_CAUSES: &[(&str, SimulationCause)] = &[
    ("link 3", SimulationCause::Pair),
    ("link 3 4 ", SimulationCause::TrailingBlank),
    ("turns", SimulationCause::Word),
];

/// Lines before a simulation runs, and further lines each of which is a fault after them, with the cause.
const EARLY_CAUSES: &[Causes] = &[
    (&[], FIRST_CAUSES),
    (&["dests 4"], LINK_CAUSES),
    (
        &["dests 4", "link 1 2", "link 3 2", "link 2 1", "link 2 3"],
        &[("tick", SimulationCause::RepeatedLink(2, 4))],
    ),
    (
        &["dests 4,5,6,5,4", "link 1 2"],
        &[("tick", SimulationCause::RepeatedDestination(4))],
    ),
    (
        &["dests 4", "link 1 1"],
        &[("tick", SimulationCause::OwnLink)],
    ),
    (
        &[
            "dests 1,2,3,4,5,6,7,8,9,10,11,12,13,14,15,16,\
            17,18,19,20,21,22,23,24,25,26,27,28,29,30,31,32,\
            33,34,35,36,37,38,39,40,41,42,43,44,45,46,47,48,\
            49,50,51,52,53,54,55,56,57,58,59,60,61,62,63,64,\
            65",
            "link 1 2",
        ],
        &[("tick", SimulationCause::TooMany)],
    ),
    (
        &[
            "dests 4",
            "link 1 2",
            "link 3 4",
            "link 5 6",
            "link 7 8",
            "link 9 10",
            "link 11 12",
            "link 13 14",
            "link 15 16",
            "link 17 18",
            "link 19 20",
            "link 21 22",
            "link 23 24",
            "link 25 26",
            "link 27 28",
            "link 29 30",
            "link 31 32",
            "link 33 34",
            "link 35 36",
            "link 37 38",
            "link 39 40",
            "link 41 42",
            "link 43 44",
            "link 45 46",
            "link 47 48",
            "link 49 50",
            "link 51 52",
            "link 53 54",
            "link 55 56",
            "link 57 58",
            "link 59 60",
            "link 61 62",
            "link 63 64",
            "link 65 66",
        ],
        &[("tick", SimulationCause::TooManyStandard)],
    ),
    (&["dests 4", "link 1 2", "link 2 3"], SECOND_LINK_CAUSES),
];

/// Why a first line, a link or the line after the links is a fault, as `-v` reports it.
#[test]
fn causes_of_faults_before_a_simulation_runs(rt: HostRuntime) {
    expect_causes(&rt, rt.alloc(), EARLY_CAUSES);
}

/// Lines directly after two links, most of them `old` or `erasure`, and why each is a fault.
const OLD_CAUSES: &[(&str, SimulationCause)] = &[
    ("old 4", SimulationCause::NoSuchNode),
    ("old 0", SimulationCause::Old),
    ("old 1 2", SimulationCause::Old),
    ("old", SimulationCause::Old),
    ("old 1\r", SimulationCause::CarriageReturn),
    ("older 1", SimulationCause::Word),
    ("erasure 4 plain", SimulationCause::NoSuchNode),
    ("erasure 1 Plain", SimulationCause::Erasure),
    ("erasure 0 plain", SimulationCause::Erasure),
    ("erasure 1", SimulationCause::Erasure),
    ("erasure", SimulationCause::Erasure),
    ("erasure 1 remembered 2", SimulationCause::Erasure),
    ("erasures 1 plain", SimulationCause::Word),
];

/// Lines directly after a line `old N` or `erasure N WORD`, and why each is a fault.
const LATE_CAUSES: &[(&str, SimulationCause)] = &[
    ("old 3", SimulationCause::NoSuchNode),
    ("erasure 3 plain", SimulationCause::NoSuchNode),
    ("erasure 2", SimulationCause::Erasure),
    ("link 2 3", SimulationCause::LateLink),
    ("dests 4", SimulationCause::LateDests),
];

/// Faulty lines after the links and after a line `old N` or `erasure N WORD`, and such lines at a wrong place, with the
/// causes.
const CAUSES_OF_OLD_NODES: &[Causes] = &[
    (&["dests 4", "link 1 2", "link 2 3"], OLD_CAUSES),
    (&["dests 4", "link 1 2", "old 2"], LATE_CAUSES),
    (
        &["dests 4", "link 1 2", "erasure 2 remembered"],
        LATE_CAUSES,
    ),
    (
        &["dests 4", "link 1 1"],
        &[("old 1", SimulationCause::OwnLink)],
    ),
    (&["dests 4"], &[("old 1", SimulationCause::NoLink)]),
    (
        &["dests 4", "link 1 2", "old 2", "tick"],
        &[
            ("old 1", SimulationCause::LateOld),
            ("erasure 1 plain", SimulationCause::LateErasure),
        ],
    ),
];

/// Why a line `old N` or `erasure N WORD`, or a line after one, is a fault, as `-v` reports it.
#[test]
fn causes_of_faults_of_old_nodes(rt: HostRuntime) {
    expect_causes(&rt, rt.alloc(), CAUSES_OF_OLD_NODES);
}

/// Lines of a running simulation, and why each is a fault.
const RUNNING_CAUSES: &[(&str, SimulationCause)] = &[
    ("", SimulationCause::Empty),
    ("tick\r", SimulationCause::CarriageReturn),
    ("tick ", SimulationCause::TrailingBlank),
    (" ", SimulationCause::TrailingBlank),
    ("1 show", SimulationCause::Word),
    ("need 1", SimulationCause::Pair),
    ("open 1 0", SimulationCause::Pair),
    ("part 1 2 3", SimulationCause::Pair),
    ("turn 01", SimulationCause::Id),
    ("heights 3,7", SimulationCause::Id),
    ("tick 1", SimulationCause::Tick),
    ("deliver -1", SimulationCause::Deliver),
    ("arm 1 send", SimulationCause::Arm),
    ("restart 1 0123", SimulationCause::Restart),
    ("rounds 10001", SimulationCause::Rounds),
    ("sent 1 2 0 1", SimulationCause::Life),
    ("taken 1 2 1", SimulationCause::Life),
    ("dests 4", SimulationCause::LateDests),
    ("link 4 5", SimulationCause::LateLink),
    ("part 1 3", SimulationCause::NoSuchLink),
    ("mend 9 1", SimulationCause::NoSuchLink),
    ("sent 1 3 1 1", SimulationCause::NoSuchLink),
    ("taken 3 1 1 1", SimulationCause::NoSuchLink),
    ("heights 4", SimulationCause::NoSuchDestination),
];

const LATER_CAUSES: &[Causes] = &[(
    &["dests 3,7", "link 1 2", "link 2 3", "tick"],
    RUNNING_CAUSES,
)];

/// Why a line of a running simulation is a fault.
#[test]
fn causes_of_faults_of_a_simulation(rt: HostRuntime) {
    expect_causes(&rt, rt.alloc(), LATER_CAUSES);
}

const CAUSES_OF_RESTS: &[Causes] = &[(
    &["dests 4", "link 1 2", "link 2 3", "link 3 4", "rest"],
    &[
        ("rest 4", SimulationCause::Rest),
        ("rests", SimulationCause::Word),
    ],
)];

/// Nothing may follow `rest`.
#[test]
fn words_behind_rest_are_faults(rt: HostRuntime) {
    expect_rows(&rt, Way::Simulation, NO_RESTS);
    expect_causes(&rt, rt.alloc(), CAUSES_OF_RESTS);
}
