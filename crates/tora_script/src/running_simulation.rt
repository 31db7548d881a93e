//! A simulation after its links.
ghost use Rattle.std.specs.Prelude.{◌≡◌, ◌==◌, ◌&&◌, ◌++◌, [], OnOk, Some, None, if◌then◌else◌, true, length};
ghost use Rattle.std.specs.Prelude.{string_bytes, option_map};
ghost use Rattle.tora_core.specs.Numbers.{has_number};
ghost use Rattle.tora_arq.specs.Settings.{IsTimes};
ghost use Rattle.tora_lines.specs.Gives.{Gives};
ghost use Rattle.tora_lines.specs.LineText.{numbered, TakesReply};
ghost use Rattle.tora_world.specs.World.{sent_packets, taken_packets};
ghost use Rattle.tora_script.specs.Simulator.{ArePairs, AreIds, started};
ghost use Rattle.tora_script.specs.RunningView.{running_view};
ghost use Rattle.tora_script.specs.SimulationText.{begun_in, has_end, without_parted, node_line, heights_text};
ghost use Rattle.tora_script.specs.SimulationText.{heights_reply, count_text, exact_reply, rest_text, nodes_text};
ghost use Rattle.tora_script.specs.SimulationText.{walk_text, walk_reply, at_rest_text, at_rest_reply, running_reply};
ghost use Rattle.tora_script.specs.SimulationText.{event_reply, after_rounds, part_of, where_linked, known_height};

use crate::channel::{Channel, ChannelTable};
use crate::in_flight::InFlight;
use crate::node_marks::Mark;
use crate::parted::Parted;
use crate::script_line::SimulationLine;
use crate::setup::{Setup, WorldOptions};
use crate::simulator::Simulator;
use crate::trace::{HeightText, HopText};
use std::alloc::{AllocError, Global};
use tora_arq::{Life, Times};
use tora_core::CoreError;
use tora_height::{Entry, Id};
use tora_lines::numbered;
use tora_lines::words::LineError;
use tora_world::{Event, SimError};

/// A simulation after its links: its destinations, nodes and link ends, the parted pairs of nodes, the channel with the
/// delayed datagrams, and the world.
#[derive(Drop)]
pub struct Running<S> {
    pub dests: Vec<Id>,
    pub nodes: Vec<Id>,
    pub ends: Vec<(Id, Id)>,
    pub parted: Parted,
    pub channel: Channel,
    pub in_flight: InFlight,
    /// Whether both ends of a link cut its session at once when the link is parted.
    pub has_notice: bool,
    /// Why the event that `answer` carried out last was refused; `None` if it happened, or if there was none. `take`
    /// sets it to `None` before each line.
    pub refused: Option<SimError>,
    pub sim: S,
}

/// Whether a number is among others.
pub fn has_number(n: Id, numbers: &[Id]) -> bool
    ensures { result ≡ has_number n numbers.now }
{
    numbers.iter().any(|m| *m == n)
}

/// Whether `ends` has the end of node `a` towards `b`. A binary search finds it if the ends are in ascending order. If
/// it finds nothing, every end is compared.
pub fn has_end(a: Id, b: Id, ends: &[(Id, Id)]) -> bool
    ensures { result ≡ has_end a b ends.now }
{
    is_found(a, b, ends) || is_among(a, b, ends)
}

fn is_among(a: Id, b: Id, ends: &[(Id, Id)]) -> bool
    ensures { result ≡ has_end a b ends.now }
{
    ends.iter().any(|e| e.0 == a && e.1 == b)
}

/// Whether a binary search finds the link end.
fn is_found(a: Id, b: Id, ends: &[(Id, Id)]) -> bool
    ensures { result ≡ true → has_end a b ends.now ≡ true }
{
    match ends.binary_search(&(a, b)) {
        Ok(at) => is_end(a, b, ends[at]),
        Err(_) => false,
    }
}

/// Whether `end` is the end of node `a` towards `b`.
fn is_end(a: Id, b: Id, end: (Id, Id)) -> bool
    ensures { result ≡ ((end.0 == a) && (end.1 == b)) }
{
    end.0 == a && end.1 == b
}

fn known_height(height: Option<Entry>) -> Entry
    ensures { result ≡ known_height height }
{
    match height {
        None => None,
        Some(entry) => entry,
    }
}

/// Appends `node N H hop K` to a text.
#[tactic(auto, unfolding(crate::specs::SimulationText::node_line))]
fn write_node<S: Simulator>(out: &mut String, sim: &S, d: Id, n: Id) -> Result<(), AllocError>
    ensures { OnOk result (string_bytes out.new ≡ string_bytes out.old ++ node_line (S.world sim.now) d n) }
{
    let height = HeightText(known_height(sim.height(n, d)));
    let hop = HopText(sim.next_hop(n, d));
    writeln!(out, "node {n} {height} hop {hop}")
}

fn write_heights<S: Simulator>(
    out: &mut String,
    sim: &S,
    d: Id,
    nodes: &[Id],
) -> Result<(), AllocError>
    ensures { OnOk result (string_bytes out.new ≡ string_bytes out.old ++ heights_text (S.world sim.now) d nodes.now) }
{
    for n in nodes {
        write_node(out, sim, d, *n)?;
    }
    Ok(())
}

/// Appends the nodes of a walk after the first, each after a comma, to a text.
fn write_rest(out: &mut String, nodes: &[Id]) -> Result<(), AllocError>
    ensures { OnOk result (string_bytes out.new ≡ string_bytes out.old ++ rest_text nodes.now) }
{
    for n in nodes {
        write!(out, ",{n}")?;
    }
    Ok(())
}

/// Appends `walk LIST` to a text, or `walk -` if there are no nodes.
fn write_nodes(out: &mut String, nodes: &[Id]) -> Result<(), AllocError>
    ensures { OnOk result (string_bytes out.new ≡ string_bytes out.old ++ nodes_text nodes.now) }
{
    match nodes.split_first() {
        None => writeln!(out, "walk -"),
        Some((first, rest)) => {
            write!(out, "walk {first}")?;
            write_rest(out, rest)?;
            writeln!(out, "")
        }
    }
}

/// Appends a walk to a text: `walk LIST`, or `walk -` for `None`.
#[tactic(auto, unfolding(crate::specs::SimulationText::walk_text))]
fn write_walk(out: &mut String, walk: Option<Vec<Id>>) -> Result<(), AllocError>
    ensures { OnOk result (string_bytes out.new ≡ string_bytes out.old ++ walk_text (option_map (λ v. v.items) walk)) }
{
    match walk {
        None => write_nodes(out, &[]),
        Some(nodes) => write_nodes(out, &nodes),
    }
}

/// Appends `rest yes` or `rest no` to a text.
fn write_at_rest(out: &mut String, is_at_rest: bool) -> Result<(), AllocError>
    ensures { OnOk result (string_bytes out.new ≡ string_bytes out.old ++ at_rest_text is_at_rest) }
{
    if is_at_rest {
        writeln!(out, "rest yes")
    } else {
        writeln!(out, "rest no")
    }
}

/// The first world; a fault if there is no such topology within the limits.
#[tactic(auto, unfolding(crate::specs::Simulator::started))]
fn start<S: Simulator>(
    alloc: Global,
    options: WorldOptions,
    links: &[(Id, Id)],
    dests: &[Id],
    marks: &[Mark],
    times: Times,
) -> Result<S, LineError>
    requires links { ArePairs links.now }
    requires dests { AreIds dests.now }
    requires times { IsTimes times }
    ensures { Gives (λ sim. S.world sim) result (started options links.now dests.now marks.now times) }
{
    match S::start(alloc, options, links, dests, marks, times) {
        Ok(sim) => Ok(sim),
        Err(CoreError::Memory) => Err(LineError::Memory),
        Err(_) => Err(LineError::Fault),
    }
}

impl<S: Simulator> Running<S> {
    /// The simulation in its first world. The error is `Fault` if the links or destinations are refused within the
    /// limits, and `Memory` if memory ran out.
    pub fn new(
        alloc: Global,
        dests: &[Id],
        links: &[(Id, Id)],
        marks: &[Mark],
        setup: Setup,
    ) -> Result<Running<S>, LineError>
        requires links { ArePairs links.now }
        requires dests { AreIds dests.now }
        requires times { IsTimes setup.times }
        ensures { Gives (running_view S.world) result (option_map (begun_in dests.now setup)
            (started setup.options links.now dests.now marks.now setup.times)) }
    {
        let sim: S = start(alloc, setup.options, links, dests, marks, setup.times)?;
        let nodes = sim.nodes(alloc)?;
        let ends = sim.ends(alloc)?;
        let mut own = Vec::new(alloc);
        own.extend_from_slice(dests)?;
        Ok(Running {
            dests: own,
            nodes,
            ends,
            parted: Parted::new(alloc),
            channel: setup.channel,
            in_flight: InFlight::new(alloc),
            has_notice: setup.has_notice,
            refused: None,
            sim,
        })
    }

    /// Makes an event happen, and appends its refusal, if any, to a text.
    fn happen(&mut self, event: &Event, out: &mut String) -> Result<(), AllocError>
        ensures { OnOk result (TakesReply (event_reply (running_view S.world self.old) event.now)
            (running_view S.world self.new) (string_bytes out.old) (string_bytes out.new)) }
    {
        let refused = self.sim.happen(event)?;
        self.refused = refused;
        match refused {
            None => Ok(()),
            Some(error) => numbered(out, "refused ", u64::from(error.number())),
        }
    }

    fn rounds(&mut self, count: u64) -> Result<(), AllocError>
        ensures { OnOk result (running_view S.world self.new ≡ after_rounds count (running_view S.world self.old)) }
    {
        let table = ChannelTable::none();
        self.rounds_over(&table, count)
    }

    fn part(&mut self, a: Id, b: Id) -> Result<(), LineError>
        ensures gives { Gives (λ _. ((running_view S.world self.new), [])) result
            (where_linked (running_view S.world self.old) a b (part_of (running_view S.world self.old) a b, [])) }
        ensures kept { result ≡ Err LineError.Fault → running_view S.world self.new ≡ running_view S.world self.old }
    {
        if !has_end(a, b, &self.ends) {
            return Err(LineError::Fault);
        }
        self.parted.part(a, b)?;
        if self.has_notice {
            self.sim.cut(a, b);
            self.sim.cut(b, a);
        }
        Ok(())
    }

    fn mend(&mut self, a: Id, b: Id) -> Result<(), LineError>
        ensures gives { Gives (λ _. ((running_view S.world self.new), [])) result
            (where_linked (running_view S.world self.old) a b (
              record (running_view S.world self.old) {
                parted =
                    without_parted a b (running_view S.world self.old).parted;
              },
              [],
            )) }
        ensures kept { result ≡ Err LineError.Fault → running_view S.world self.new ≡ running_view S.world self.old }
    {
        if !has_end(a, b, &self.ends) {
            return Err(LineError::Fault);
        }
        self.parted.mend(a, b);
        Ok(())
    }

    fn heights(&self, d: Id, out: &mut String) -> Result<(), LineError>
        requires { string_bytes out.old ≡ [] }
        ensures { Gives (λ _. ((running_view S.world self.now), string_bytes out.new)) result
            (heights_reply (running_view S.world self.now) d) }
    {
        if !has_number(d, &self.dests) {
            return Err(LineError::Fault);
        }
        write_heights(out, &self.sim, d, &self.nodes)?;
        Ok(())
    }

    fn sent(&self, a: Id, b: Id, life: Life, out: &mut String) -> Result<(), LineError>
        requires { string_bytes out.old ≡ [] }
        ensures { Gives (λ _. ((running_view S.world self.now), string_bytes out.new)) result
            (where_linked (running_view S.world self.now) a b (
              (running_view S.world self.now),
              count_text
                  (length (sent_packets (running_view S.world self.now).world a b life)),
            )) }
    {
        if !has_end(a, b, &self.ends) {
            return Err(LineError::Fault);
        }
        numbered(out, "count ", self.sim.sent(a, b, life) as u64)?;
        Ok(())
    }

    fn taken(&self, b: Id, a: Id, life: Life, out: &mut String) -> Result<(), LineError>
        requires { string_bytes out.old ≡ [] }
        ensures { Gives (λ _. ((running_view S.world self.now), string_bytes out.new)) result
            (where_linked (running_view S.world self.now) b a (
              (running_view S.world self.now),
              count_text
                  (length (taken_packets (running_view S.world self.now).world b a life)),
            )) }
    {
        if !has_end(b, a, &self.ends) {
            return Err(LineError::Fault);
        }
        numbered(out, "count ", self.sim.taken(b, a, life) as u64)?;
        Ok(())
    }

    fn exact(&self, d: Id, out: &mut String) -> Result<(), LineError>
        requires { string_bytes out.old ≡ [] }
        ensures { Gives (λ _. ((running_view S.world self.now), string_bytes out.new)) result
            (exact_reply (running_view S.world self.now) d) }
    {
        if !has_number(d, &self.dests) {
            return Err(LineError::Fault);
        }
        let count = if self.sim.exact(d) { 1 } else { 0 };
        numbered(out, "exact ", count)?;
        Ok(())
    }

    fn walk(&self, n: Id, d: Id, out: &mut String) -> Result<(), LineError>
        requires { string_bytes out.old ≡ [] }
        ensures { Gives (λ _. ((running_view S.world self.now), string_bytes out.new)) result
            (walk_reply (running_view S.world self.now) n d) }
    {
        if !has_number(n, &self.nodes) || !has_number(d, &self.dests) {
            return Err(LineError::Fault);
        }
        let walk = self.sim.walk(*self.nodes.allocator(), n, d)?;
        write_walk(out, walk)?;
        Ok(())
    }

    fn at_rest(&self, out: &mut String) -> Result<(), AllocError>
        requires { string_bytes out.old ≡ [] }
        ensures { OnOk result (((running_view S.world self.now), string_bytes out.new)
            ≡ at_rest_reply (running_view S.world self.now)) }
    {
        write_at_rest(out, self.sim.is_at_rest())
    }

    /// Carries out a line, and writes its output to an empty text. Rounds run over `channel` alone, without a last
    /// round.
    ///
    /// # Errors
    /// `Fault` if the line is no event and names a node, link or destination that does not exist; then nothing changes.
    /// `Memory` if memory ran out.
    #[tactic(auto, unfolding(crate::specs::SimulationText::running_reply))]
    pub fn answer(&mut self, line: SimulationLine, out: &mut String) -> Result<(), LineError>
        requires { string_bytes out.old ≡ [] }
        ensures gives { Gives (λ _. ((running_view S.world self.new), string_bytes out.new)) result
            (running_reply (running_view S.world self.old) line) }
        ensures kept { result ≡ Err LineError.Fault → running_view S.world self.new ≡ running_view S.world self.old }
    {
        match line {
            SimulationLine::Happens(event) => {
                self.happen(&event, out)?;
                Ok(())
            }
            SimulationLine::Rounds(count) => {
                self.rounds(count)?;
                Ok(())
            }
            SimulationLine::Part(a, b) => self.part(a, b),
            SimulationLine::Mend(a, b) => self.mend(a, b),
            SimulationLine::Heights(d) => self.heights(d, out),
            SimulationLine::Sent(a, b, life) => self.sent(a, b, life, out),
            SimulationLine::Taken(b, a, life) => self.taken(b, a, life, out),
            SimulationLine::Exact(d) => self.exact(d, out),
            SimulationLine::Walk(n, d) => self.walk(n, d, out),
            SimulationLine::Rest => {
                self.at_rest(out)?;
                Ok(())
            }
        }
    }
}
