//! A simulator whose events are traced.
ghost use Rattle.std.specs.Prelude.{◌≡◌, [], drop, IfOk, OnOk};
ghost use Rattle.tora_world.specs.World.{refusal_of, world_after};
ghost use Rattle.tora_sim.specs.Steps.{repeats, Happened};
ghost use Rattle.tora_script.specs.Trace.{first_trace};
ghost use Rattle.tora_sim.specs.Readers.{ends_in};
ghost use Rattle.tora_script.specs.Marks.{choices_in};
ghost use Rattle.tora_script.specs.Simulator.{nodes_of};
ghost use Rattle.tora_script.specs.Tracing.{life_of_what, life_told, before_of, HasRecords, Records, with_sent};
ghost use Rattle.tora_script.specs.Tracing.{after_sent};

use crate::traced::watched::Watched;
use crate::{Mark, Parted, Simulator, Trace, WorldOptions, choices};
use std::alloc::{AllocError, Global};
use tora_arq::{Life, Times};
use tora_core::{CoreError, Erasure, Input};
use tora_frame::Frame;
use tora_height::{Entry, Id};
use tora_seat::{Item, What};
use tora_world::{Event, SimError};

/// A simulator, and the trace of its events.
#[derive(Drop)]
pub struct Traced<S> {
    pub sim: S,
    pub trace: Trace,
    /// The pairs of nodes whose link is parted.
    pub parted: Parted,
}

/// What the records of an event need of the world before it.
#[derive(Clone, Copy)]
struct Before {
    clock: u64,
    /// How many datagrams were ever sent.
    datagrams: u64,
    /// For a `CoreTurn`: how many inputs the core had accepted; otherwise 0.
    inputs: usize,
    /// For a `CoreTurn`: the session that the core's next item reports as up, if it does.
    life: Option<Life>,
}

/// The session that the content of an item reports as up; `None` for any other content.
fn life_of_what(what: &What) -> Option<Life>
    ensures { result ≡ life_of_what what.now }
{
    match what {
        What::Up(life) => Some(*life),
        What::Packet(_, _) => None,
        What::Down(_, _) => None,
        What::Beat => None,
        What::Need(_) => None,
        What::Cut(_) => None,
        What::Show => None,
        What::Status(_) => None,
        What::Quit => None,
    }
}

/// The session that an item reports as up, if it does.
fn life_told(item: Option<Item>) -> Option<Life>
    ensures { result ≡ life_told item }
{
    match item {
        None => None,
        Some(item) => life_of_what(&item.what),
    }
}

/// The inputs after the first `count`.
fn behind(inputs: &[(Input, u64)], count: usize) -> &[(Input, u64)]
    ensures { result.now ≡ drop count inputs.now }
{
    if count > inputs.len() {
        return &[];
    }
    &inputs[count..]
}

impl<S: Watched> Traced<S> {
    /// A simulator in its first world, with an empty trace and its nodes' choices of erasure.
    fn begun(
        alloc: Global,
        sim: S,
        erasure: Erasure,
        marks: &[Mark],
        dests: &[Id],
    ) -> Result<Traced<S>, AllocError>
        ensures sim { IfOk result (λ t. t.sim ≡ sim) }
        ensures trace { IfOk result (λ t. t.trace ≡ first_trace erasure (choices_in marks.now) (nodes_of (S.world sim))
            (ends_in (S.world sim).topology) dests.now) }
        ensures parted { IfOk result (λ t. t.parted ≡ []) }
    {
        let nodes = sim.nodes(alloc)?;
        let ends = sim.ends(alloc)?;
        let choices = choices(alloc, marks)?;
        // A topology that is accepted gives cores that are accepted.
        let Ok(trace) = Trace::new(alloc, erasure, &choices, &nodes, &ends, dests) else {
            return Err(AllocError);
        };
        Ok(Traced {
            sim,
            trace,
            parted: Parted::new(alloc),
        })
    }

    /// Reads what the records of an event need of the world before it.
    fn before(&self, event: &Event) -> Before
        ensures { result ≡ before_of (S.world self.now.sim) event.now }
    {
        let (clock, datagrams) = (self.sim.clock(), self.sim.datagrams());
        match event {
            Event::CoreTurn(n) => Before {
                clock,
                datagrams,
                inputs: self.sim.inputs(*n).len(),
                life: life_told(self.sim.first_item(*n)),
            },
            _ => Before {
                clock,
                datagrams,
                inputs: 0,
                life: None,
            },
        }
    }

    /// Counts the last datagram for the next record of datagrams, unless there are still only `count` datagrams.
    fn write_sent_records(&mut self, count: u64) -> Result<(), AllocError>
        ensures kept { self.new ≡ record self.old { trace = self.new.trace } }
        ensures told { OnOk result (self.new.trace ≡ after_sent self.old.parted count (S.world self.old.sim)
            self.old.trace) }
    {
        let last = self.sim.datagrams();
        if last == count {
            return Ok(());
        }
        match self.sim.frame(last) {
            None => Ok(()),
            Some(frame) => {
                let header = frame.header();
                let is_parted = self.parted.is_parted(header.sender, header.receiver);
                self.trace.sent(&frame, is_parted)
            }
        }
    }

    /// Records what an accepted event did.
    fn write_records_of(&mut self, event: &Event, before: Before) -> Result<(), AllocError>
        ensures kept { self.new ≡ record self.old { trace = self.new.trace } }
        ensures told { OnOk result (HasRecords self.old.parted before event.now (S.world self.old.sim) self.old.trace
            self.new.trace) }
    {
        match event {
            Event::Need(n, d) => self.trace.need(before.clock, *n, *d),
            Event::Tick => self.trace.frames(before.clock),
            Event::Transmit(_, _) => self.write_sent_records(before.datagrams),
            Event::CoreTurn(n) => {
                let inputs = behind(self.sim.inputs(*n), before.inputs);
                self.trace.turn(*n, inputs, before.life)
            }
            Event::Restart(n, _) => self.trace.restart(before.clock, *n),
            Event::Open(_, _) => Ok(()),
            Event::Pull(_, _) => Ok(()),
            Event::Deliver(_) => Ok(()),
            Event::Pump(_, _) => Ok(()),
            Event::Arm(_, _) => Ok(()),
        }
    }

    /// Makes an event happen and records what it did, or returns why it is refused. `place` is the index of its node or
    /// link end. Fails if memory runs out; the event may have happened then, with a part of its records.
    fn step(&mut self, place: usize, event: &Event) -> Result<Option<SimError>, AllocError>
        ensures refused { IfOk result (λ refused. refused ≡ refusal_of (S.world self.old.sim) event.now) }
        ensures after { IfOk result (λ _. S.world self.new.sim ≡ world_after (S.world self.old.sim) event.now) }
        ensures told { IfOk result (λ refused. Records self.old.parted (S.world self.old.sim) event.now
            (S.world self.new.sim) self.old.trace self.new.trace refused) }
        ensures kept { self.new.parted ≡ self.old.parted }
    {
        let before = self.before(event);
        let refused = self.sim.happen_at(place, event)?;
        match refused {
            None => {
                self.write_records_of(event, before)?;
                Ok(None)
            }
            Some(error) => Ok(Some(error)),
        }
    }

    /// Repeats an event until it is refused, at most `most` times, and records each time what it did. Returns whether
    /// it happened at all. `place` is the index of its node or link end.
    fn step_on(&mut self, place: usize, event: &Event, most: u64) -> Result<bool, AllocError>
        ensures { IfOk result (λ some. Happened (S.world self.old.sim) (repeats most event.now (S.world self.old.sim))
            (S.world self.new.sim) some) }
    {
        let mut some = false;
        for _ in 0..most {
            if !self.sim.may_happen(place, event) {
                return Ok(some);
            }
            let refused = self.step(place, event)?;
            match refused {
                None => some = true,
                Some(_) => return Ok(some),
            }
        }
        Ok(some)
    }
}

impl<S: Watched> Simulator for Traced<S> {
    ghost world = { λ t. S.world t.sim };

    fn start(
        alloc: Global,
        options: WorldOptions,
        links: &[(Id, Id)],
        dests: &[Id],
        marks: &[Mark],
        times: Times,
    ) -> Result<Traced<S>, CoreError> {
        let sim: S = S::start(alloc, options, links, dests, marks, times)?;
        match Traced::begun(alloc, sim, options.erasure, marks, dests) {
            Ok(traced) => Ok(traced),
            Err(_) => Err(CoreError::Memory),
        }
    }

    #[inline(always)]
    fn may_happen(&self, place: usize, event: &Event) -> bool {
        self.sim.may_happen(place, event)
    }

    #[inline(always)]
    fn is_quiet(&self) -> bool {
        self.sim.is_quiet()
    }

    #[inline(always)]
    fn may_turn(&self) -> bool {
        self.sim.may_turn()
    }

    #[inline(always)]
    fn next_core(&self, nodes: &[Id], place: usize) -> usize {
        self.sim.next_core(nodes, place)
    }

    fn has_ends(&self, ends: &[(Id, Id)]) -> bool {
        self.sim.has_ends(ends)
    }

    #[inline(always)]
    fn next_due(&self, place: usize) -> usize {
        self.sim.next_due(place)
    }

    fn settle(&mut self) {
        self.sim.settle();
    }

    fn happen(&mut self, event: &Event) -> Result<Option<SimError>, AllocError> {
        self.step(0, event)
    }

    fn happen_at(&mut self, place: usize, event: &Event) -> Result<Option<SimError>, AllocError> {
        self.step(place, event)
    }

    fn transmit(&mut self, place: usize, end: (Id, Id), most: u64) -> Result<bool, AllocError> {
        let (n, k) = end;
        self.step_on(place, &Event::Transmit(n, k), most)
    }

    fn deliver(&mut self, i: u64, most: u64) -> Result<bool, AllocError> {
        self.step_on(0, &Event::Deliver(i), most)
    }

    fn cut(&mut self, n: Id, k: Id) {
        self.sim.cut(n, k);
    }

    fn nodes(&self, alloc: Global) -> Result<Vec<Id>, AllocError> {
        self.sim.nodes(alloc)
    }

    fn ends(&self, alloc: Global) -> Result<Vec<(Id, Id)>, AllocError> {
        self.sim.ends(alloc)
    }

    fn datagrams(&self) -> u64 {
        self.sim.datagrams()
    }

    fn datagram(&self, i: u64) -> Option<(Id, Id)> {
        self.sim.datagram(i)
    }

    fn height(&self, n: Id, d: Id) -> Option<Entry> {
        self.sim.height(n, d)
    }

    fn next_hop(&self, n: Id, d: Id) -> Option<Id> {
        self.sim.next_hop(n, d)
    }

    fn sent(&self, a: Id, b: Id, life: Life) -> usize {
        self.sim.sent(a, b, life)
    }

    fn taken(&self, b: Id, a: Id, life: Life) -> usize {
        self.sim.taken(b, a, life)
    }

    fn exact(&self, d: Id) -> bool {
        self.sim.exact(d)
    }

    fn walk(&self, alloc: Global, n: Id, d: Id) -> Result<Option<Vec<Id>>, AllocError> {
        self.sim.walk(alloc, n, d)
    }

    fn is_at_rest(&self) -> bool {
        self.sim.is_at_rest()
    }
}
