//! Runs of a neighbour's thread over a life file and a wire in memory, which end in each possible way.
use super::super::sees::same_text;
use super::*;

const LIFE: Life = Life { own: 1, peer: 9 };

/// A run of the link of node 1 to node 2 over a new life file, with one datagram: a HELLO that binds the first session.
struct Run {
    /// The ticks by which the clock advances each time it is read.
    step: u64,
    /// How many calls of the wire pass, and whether then one call fails or all following ones do. `None`: no call is
    /// made to fail.
    fuse: Option<(u64, FuseMode)>,
    /// How many outbound messages the hub has for the link, each of which cuts the session if it is bound.
    cuts: u16,
    /// How many items the hub takes before it ends the run.
    room: usize,
    /// The fault with which the run ends; `None` if the hub ends it.
    fault: Option<LinkFault>,
    /// The numbers of accepted datagrams and of all received ones; `None` if they are not checked.
    tally: Option<(u64, u64)>,
    /// The number of items that were put.
    count: usize,
    /// The first items that were put, in order.
    puts: &'static [Told],
}

/// What the link reports at a tick.
enum Told {
    /// The session was bound.
    Up(u64),
    /// The thread is alive.
    Beat(u64),
    /// The session was cut.
    Cut(u64),
    /// The peer was silent.
    Silent(u64),
}

/// The item for this report.
fn put_of(told: &Told) -> Put {
    let (now, what) = match told {
        Told::Up(now) => (*now, What::Up(LIFE)),
        Told::Beat(now) => (*now, What::Beat),
        Told::Cut(now) => (*now, What::Down(LIFE, Reason::Cut)),
        Told::Silent(now) => (*now, What::Down(LIFE, Reason::Silent)),
    };
    Put { now, what }
}

/// One datagram: a HELLO of node 2 with the session number 9, which binds the first session of node 1, number 1.
fn one_hello(alloc: Global) -> Result<Vec<Vec<u8>>, AllocError> {
    let mut datagrams = Vec::new(alloc);
    datagrams.push(hello(alloc, 9, 1)?)?;
    Ok(datagrams)
}

/// Runs the link of node 1 to node 2, with a clock that starts at 0 and advances by `step` ticks each time it is read.
pub fn run_over<R: Wait + Abort, W: Wire>(
    rt: &R,
    alloc: Global,
    step: u64,
    file: LifeFile<MemDisk>,
    wire: W,
    hub: ListHub,
) -> Finished<MemDisk, W, ListHub> {
    let link = Link {
        end: end_of(rt, alloc, 1, 2),
        file,
        wire,
    };
    let mut clock = clock_of(step);
    run_neighbour(rt, link, &mut clock, hub)
}

/// The result of a run: its fault, what was counted, and what was put.
#[derive(Drop)]
struct Seen {
    fault: Option<LinkFault>,
    tally: Tally,
    hub: ListHub,
}

/// Runs the link over a new file and this wire, and returns the result.
fn see_over<R: Wait + Abort, W: Wire + Drop>(
    rt: &R,
    alloc: Global,
    step: u64,
    wire: W,
    hub: ListHub,
) -> Seen {
    let file = file_of(rt, MemDisk::new());
    let finished = run_over(rt, alloc, step, file, wire, hub);
    Seen {
        fault: finished.fault,
        tally: finished.tally,
        hub: finished.hub,
    }
}

/// Makes a run, and returns its result.
fn see_run<R: Wait + Abort>(rt: &R, alloc: Global, run: &Run) -> Result<Seen, AllocError> {
    let mut cargoes = Vec::new(alloc);
    for _ in 0..run.cuts {
        cargoes.push(Cargo::Cut(LIFE))?;
    }
    let hub = ListHub::new(alloc, run.room, cargoes)?;
    let wire = MemWire::<16>::new(one_hello(alloc)?);
    let seen = match run.fuse {
        None => see_over(rt, alloc, run.step, wire, hub),
        Some((k, mode)) => {
            let fused = FuseWire::new(wire, k, mode);
            see_over(rt, alloc, run.step, fused, hub)
        }
    };
    Ok(seen)
}

/// Checks that the fault with which a run ended is `wanted`; `None` for no fault.
fn fault_is(rt: &impl Abort, fault: Option<LinkFault>, wanted: Option<LinkFault>) {
    same(rt, &fault, &wanted, "the fault");
}

/// Checks that `count` items were put, and that the first of them are `wanted`, which may be fewer.
fn puts_are(rt: &impl Abort, hub: &ListHub, count: usize, wanted: &[Told]) {
    let kept = hub.kept();
    same(rt, &kept.len(), &count, "how much was put");
    for (at, (put, told)) in kept.iter().zip(wanted).enumerate() {
        same_at(rt, put, &put_of(told), "what was put", &at);
    }
}

/// Checks that `wanted` is the number of accepted datagrams and the number of all received ones.
fn tally_is(rt: &impl Abort, tally: &Tally, wanted: (u64, u64)) {
    let counted = (tally.of_verdict(Verdict::Accepted), total(tally));
    same(rt, &counted, &wanted, "those accepted, and all");
}

/// Makes a run, and checks its result.
fn runs<R: Wait + Abort>(rt: &R, alloc: Global, run: &Run) {
    let seen = there(rt, see_run(rt, alloc, run).ok(), "memory");
    fault_is(rt, seen.fault, run.fault);
    puts_are(rt, &seen.hub, run.count, run.puts);
    if let Some(wanted) = run.tally {
        tally_is(rt, &seen.tally, wanted);
    }
}

const BOUND: Run = Run {
    step: 10,
    fuse: None,
    cuts: 0,
    room: 2,
    fault: None,
    tally: Some((1, 1)),
    count: 2,
    puts: &[Told::Up(0), Told::Beat(0)],
};

#[test]
fn a_link_comes_up_and_the_hub_ends_it(rt: HostRuntime) {
    runs(&rt, rt.alloc(), &BOUND);
}

/// Each turn reads the clock, so the link is silent 50 ticks after its one datagram, and a beat is put every ten ticks.
/// If several turns used one reading, the wire would fail first: after 200 calls, each call fails.
const SILENT: Run = Run {
    step: 1,
    fuse: Some((200, FuseMode::Always)),
    cuts: 0,
    room: 8,
    fault: None,
    tally: Some((1, 1)),
    count: 8,
    puts: &[
        Told::Up(0),
        Told::Beat(0),
        Told::Beat(10),
        Told::Beat(20),
        Told::Beat(30),
        Told::Beat(40),
        Told::Silent(50),
        Told::Beat(50),
    ],
};

#[test]
fn each_turn_reads_the_clock(rt: HostRuntime) {
    runs(&rt, rt.alloc(), &SILENT);
}

/// The first turn takes 256 cuts, before the session is bound; the cut of the second turn ends the session.
const CUT: Run = Run {
    step: 1,
    fuse: None,
    cuts: 257,
    room: 3,
    fault: None,
    tally: None,
    count: 3,
    puts: &[Told::Up(0), Told::Beat(0), Told::Cut(1)],
};

#[test]
fn a_life_that_is_cut_goes_down(rt: HostRuntime) {
    runs(&rt, rt.alloc(), &CUT);
}

/// Each turn sends a HELLO of each version and receives once, and all three calls fail: the 34th turn has the hundredth
/// failure, and puts no beat.
const FAILING: Run = Run {
    step: 10,
    fuse: Some((0, FuseMode::Always)),
    cuts: 0,
    room: 1000,
    fault: Some(LinkFault::Wire),
    tally: Some((0, 0)),
    count: 33,
    puts: &[],
};

#[test]
fn a_wire_that_always_fails_ends_the_link(rt: HostRuntime) {
    runs(&rt, rt.alloc(), &FAILING);
}

/// Three calls of the first turn succeed, which binds a session. In each later turn at least one call fails, until the
/// session is cut.
const BREAKING: Run = Run {
    step: 0,
    fuse: Some((3, FuseMode::Always)),
    cuts: 0,
    room: 1000,
    fault: Some(LinkFault::Wire),
    tally: None,
    count: 3,
    puts: &[Told::Up(0), Told::Beat(0), Told::Cut(0)],
};

#[test]
fn a_bound_life_goes_down_before_a_broken_wire_ends_the_link(rt: HostRuntime) {
    runs(&rt, rt.alloc(), &BREAKING);
}

const FAILING_ONCE: Run = Run {
    step: 10,
    fuse: Some((2, FuseMode::Once)),
    cuts: 0,
    room: 2,
    fault: None,
    tally: None,
    count: 2,
    puts: &[Told::Beat(0), Told::Up(10)],
};

#[test]
fn a_wire_that_fails_once_binds_a_life(rt: HostRuntime) {
    runs(&rt, rt.alloc(), &FAILING_ONCE);
}

/// Sends a datagram of one byte, and checks the result.
fn sends<W: Wire>(rt: &impl Abort, wire: &mut W, byte: u8, wanted: Result<(), WireError>) {
    same_at(rt, &wire.send(&[byte]), &wanted, "the send", &byte);
}

/// Receives once into 64 bytes, and checks the result: the length of a datagram, or `None` if there is none.
fn receives<W: Wire>(
    rt: &impl Abort,
    wire: &mut W,
    wanted: Result<Option<usize>, WireError>,
    what: &str,
) {
    let mut buffer = [0u8; 64];
    same(rt, &wire.receive(&mut buffer), &wanted, what);
}

#[test]
fn a_fuse_lets_calls_pass_and_gives_its_wire_back(rt: HostRuntime) {
    let datagrams = there(&rt, one_hello(rt.alloc()).ok(), "memory");
    let mut fuse = FuseWire::new(MemWire::<2>::new(datagrams), 1, FuseMode::Once);
    sends(&rt, &mut fuse, 1, Ok(()));
    receives(&rt, &mut fuse, Err(WireError), "the call that fails");
    receives(&rt, &mut fuse, Ok(Some(28)), "the HELLO");
    let mut wire = fuse.into_inner();
    receives(&rt, &mut wire, Ok(None), "nothing behind it");
    sends(&rt, &mut wire, 2, Ok(()));
    sends(&rt, &mut wire, 3, Err(WireError));
}

const FAULTS: &[(LinkFault, &str)] = &[
    (
        LinkFault::Life(LifeError::Spent),
        "the life file of the link: no number is left",
    ),
    (
        LinkFault::Wire,
        "a hundred calls in a row of the wire failed",
    ),
];

/// Checks the text of each fault.
fn each_says(rt: &impl Abort, alloc: Global, rows: &[(LinkFault, &str)]) {
    for (fault, text) in rows {
        let printed = there(rt, format!(in alloc; "{fault}").ok(), "memory");
        same_text(rt, printed.as_str(), text, "the text of a fault");
    }
}

#[test]
fn faults_say_what_they_are(rt: HostRuntime) {
    each_says(&rt, rt.alloc(), FAULTS);
}

// Memory is allocated only for the parts of a run, before it starts, and it is reported if that fails. The run itself
// ends as it does with ample memory.
#[test]
fn want_of_memory_is_answered(rt: HostRuntime) {
    let alloc = rt.alloc();
    let Ok(end) = LinkEnd::new(alloc, 1, 2, Times::STANDARD) else {
        return;
    };
    let Ok(datagrams) = one_hello(alloc) else {
        return;
    };
    let Ok(hub) = ListHub::new(alloc, 2, Vec::new(alloc)) else {
        return;
    };
    let link = Link {
        end,
        file: file_of(&rt, MemDisk::new()),
        wire: MemWire::<16>::new(datagrams),
    };
    let mut clock = clock_of(10);
    let finished = run_neighbour(&rt, link, &mut clock, hub);
    fault_is(&rt, finished.fault, None);
    tally_is(&rt, &finished.tally, (1, 1));
    puts_are(&rt, &finished.hub, 2, &[Told::Up(0), Told::Beat(0)]);
}
