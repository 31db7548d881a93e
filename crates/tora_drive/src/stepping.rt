//! A step: a round in which nothing is delivered, and silent ends send nothing. The line of each event that happens is
//! appended to a text, if there is one.
ghost use Rattle.std.specs.Prelude.{◌≡◌, Some, OnOk, IfOk, string_bytes};
ghost use Rattle.tora_world.specs.World.{world_after};
ghost use Rattle.tora_world.specs.declared.event.Event.TheVariants.{Tick, CoreTurn};
ghost use Rattle.tora_script.specs.declared.turns.EndTurn.TheVariants.{Open};
ghost use Rattle.tora_script.specs.Rounds.{repeats, while_possible, plan_then, each, each_core, each_end_once};
ghost use Rattle.tora_script.specs.Rounds.{AreKnown};
ghost use Rattle.tora_drive.specs.Steps.{is_silent, most_of, is_silenced, turn_of, step_pass, step_passes};
ghost use Rattle.tora_drive.specs.Recording.{text_record, with_record, event_line, HappenedTold, Told};

use crate::event_lines::write_event_line;
use std::alloc::AllocError;
use tora_height::Id;
use tora_script::{
    EndTurn, MOST_PASSES, MOST_TIMES, Simulator, are_known, either, next_place, turn_end,
};
use tora_world::Event;

/// What a step visits: nodes and link ends, some of which are silent. If `are_known`, the ends are those of the
/// simulator, and those that have nothing to do are skipped.
#[derive(Clone, Copy)]
struct Visited<'a> {
    nodes: &'a [Id],
    ends: &'a [(Id, Id)],
    silent: &'a [(Id, Id)],
    are_known: bool,
}

/// Whether an end is silent.
pub fn is_silent(silent: &[(Id, Id)], end: (Id, Id)) -> bool
    ensures { result ≡ is_silent silent.now end }
{
    silent.iter().any(|e| end.0 == e.0 && end.1 == e.1)
}

/// How often the event of a turn happens at most: `Open` once, the others `MOST_TIMES` times.
#[inline(always)]
fn most_of(kind: EndTurn) -> u64
    ensures { result ≡ most_of kind }
{
    match kind {
        EndTurn::Open => 1,
        _ => MOST_TIMES,
    }
}

/// Whether a step leaves this turn of an end out, because the end is silent.
#[inline(always)]
fn is_silenced(silent: &[(Id, Id)], kind: EndTurn, end: (Id, Id)) -> bool
    ensures { result ≡ is_silenced silent.now kind end }
{
    match kind {
        EndTurn::Transmit => is_silent(silent, end),
        _ => false,
    }
}

/// Makes an event happen until it is refused, at most `most` times, and appends its line to a text each time. Returns
/// whether it happened at all. `place` is the index of its node or link end.
#[inline(never)]
fn repeat_told<S: Simulator>(
    sim: &mut S,
    place: usize,
    event: &Event,
    most: u64,
    text: &mut String,
) -> Result<bool, AllocError>
    ensures { IfOk result (λ some. HappenedTold (S.world sim.old) (repeats most event.now (S.world sim.old))
        (S.world sim.new) some (Some (string_bytes text.old)) (Some (string_bytes text.new))) }
{
    let mut some = false;
    for _ in 0..most {
        if !sim.may_happen(place, event) {
            return Ok(some);
        }
        let refused = sim.happen_at(place, event)?;
        match refused {
            None => {
                write_event_line(text, event)?;
                some = true;
            }
            Some(_) => return Ok(some),
        }
    }
    Ok(some)
}

/// Lets a core take items until it has none, at most `MOST_TIMES`, and returns whether it took any. `place` is the
/// index of its node.
#[inline(always)]
fn turn_core<S: Simulator>(
    sim: &mut S,
    place: usize,
    n: Id,
    text: &mut Option<String>,
) -> Result<bool, AllocError>
    ensures { IfOk result (λ some. HappenedTold (S.world sim.old) (while_possible (CoreTurn n) (S.world sim.old))
        (S.world sim.new) some (text_record text.old) (text_record text.new)) }
{
    if !sim.may_happen(place, &Event::CoreTurn(n)) {
        return Ok(false);
    }
    match text {
        None => sim.turn(place, n, MOST_TIMES),
        Some(text) => repeat_told(sim, place, &Event::CoreTurn(n), MOST_TIMES, text),
    }
}

/// Lets each core take its items, and returns whether any core did. Cores of which the simulator knows that they have
/// no item are skipped.
#[inline(always)]
fn turn_cores<S: Simulator>(
    sim: &mut S,
    nodes: &[Id],
    text: &mut Option<String>,
) -> Result<bool, AllocError>
    ensures { IfOk result (λ some. HappenedTold (S.world sim.old) (each_core nodes.now (S.world sim.old))
        (S.world sim.new) some (text_record text.old) (text_record text.new)) }
{
    if !sim.may_turn() {
        return Ok(false);
    }
    let mut some = false;
    let mut place = sim.next_core(nodes, 0);
    while place < nodes.len() {
        let any = turn_core(sim, place, nodes[place], text)?;
        some = either(some, any);
        place = sim.next_core(nodes, place + 1);
    }
    Ok(some)
}

/// Gives a link end its turn, unless the end is silent and would send, and returns whether an event happened. `place`
/// is the index of the end.
#[inline(always)]
fn turn_of<S: Simulator>(
    sim: &mut S,
    kind: EndTurn,
    place: usize,
    end: (Id, Id),
    silent: &[(Id, Id)],
    text: &mut Option<String>,
) -> Result<bool, AllocError>
    ensures { IfOk result (λ some. HappenedTold (S.world sim.old) (turn_of silent.now kind end (S.world sim.old))
        (S.world sim.new) some (text_record text.old) (text_record text.new)) }
{
    if is_silenced(silent, kind, end) {
        return Ok(false);
    }
    match text {
        None => turn_end(sim, kind, place, end, most_of(kind)),
        Some(text) => repeat_told(sim, place, &kind.event(end), most_of(kind), text),
    }
}

/// Gives each link end its turn of this kind, except that silent ends send nothing, and returns whether an event
/// happened. If the ends are known, those with nothing to do are skipped.
#[inline(always)]
fn turn_ends<S: Simulator>(
    sim: &mut S,
    kind: EndTurn,
    visited: &Visited<'_>,
    text: &mut Option<String>,
) -> Result<bool, AllocError>
    requires { AreKnown visited.now.are_known visited.now.ends.now (S.world sim.old) }
    ensures { IfOk result (λ some. HappenedTold (S.world sim.old)
        (each (turn_of visited.now.silent.now kind) visited.now.ends.now (S.world sim.old)) (S.world sim.new) some
        (text_record text.old) (text_record text.new)) }
{
    if sim.is_quiet() {
        return Ok(false);
    }
    let (known, ends) = (visited.are_known, visited.ends);
    let mut some = false;
    let mut place = next_place(sim, known, ends, 0);
    while place < ends.len() {
        let any = turn_of(sim, kind, place, ends[place], visited.silent, text)?;
        some = either(some, any);
        place = next_place(sim, known, ends, place + 1);
    }
    Ok(some)
}

/// Makes one pass, and returns whether an event happened in it.
#[tactic(auto, unfolding(crate::specs::Steps::step_pass))]
fn pass<S: Simulator>(
    sim: &mut S,
    visited: &Visited<'_>,
    text: &mut Option<String>,
) -> Result<bool, AllocError>
    requires { AreKnown visited.now.are_known visited.now.ends.now (S.world sim.old) }
    ensures { IfOk result (λ some. HappenedTold (S.world sim.old)
        (step_pass visited.now.nodes.now visited.now.ends.now visited.now.silent.now (S.world sim.old)) (S.world
        sim.new)
        some (text_record text.old) (text_record text.new)) }
{
    let turned = turn_cores(sim, visited.nodes, text)?;
    let pulled = turn_ends(sim, EndTurn::Pull, visited, text)?;
    let sent = turn_ends(sim, EndTurn::Transmit, visited, text)?;
    let pumped = turn_ends(sim, EndTurn::Pump, visited, text)?;
    Ok(either(turned, either(pulled, either(sent, pumped))))
}

/// Makes passes until one has no event, at most `MOST_PASSES`, and lets the simulator settle after each, also after the
/// last: deliveries since the last step may have left it unknown whether anything is to be done, and then each later
/// step would visit every end.
fn make_passes<S: Simulator>(
    sim: &mut S,
    visited: &Visited<'_>,
    text: &mut Option<String>,
) -> Result<(), AllocError>
    requires { AreKnown visited.now.are_known visited.now.ends.now (S.world sim.old) }
    ensures { IfOk result (λ _. Told (S.world sim.old) (step_passes MOST_PASSES visited.now.nodes.now
        visited.now.ends.now visited.now.silent.now (S.world sim.old)) (S.world sim.new) (text_record text.old)
        (text_record text.new)) }
{
    for _ in 0..MOST_PASSES {
        let some = pass(sim, visited, text)?;
        sim.settle();
        if !some {
            return Ok(());
        }
    }
    Ok(())
}

/// Makes the tick of a step happen, and appends the line `tick` to a text, if there is one.
pub fn tick<S: Simulator>(sim: &mut S, text: &mut Option<String>) -> Result<(), AllocError>
    ensures after { IfOk result (λ _. S.world sim.new ≡ world_after (S.world sim.old) Tick) }
    ensures told { OnOk result (text_record text.new ≡ with_record (text_record text.old) (event_line Tick)) }
{
    sim.happen(&Event::Tick)?;
    match text {
        None => Ok(()),
        Some(text) => write_event_line(text, &Event::Tick),
    }
}

/// Does what a step does after its tick: opens each closed end once, then makes passes. Appends the line of each event
/// to a text, if there is one.
#[inline(never)]
pub fn finish_step<S: Simulator>(
    sim: &mut S,
    nodes: &[Id],
    ends: &[(Id, Id)],
    silent: &[(Id, Id)],
    text: &mut Option<String>,
) -> Result<(), AllocError>
    ensures { IfOk result (λ _. Told (S.world sim.old)
        (plan_then (each_end_once Open ends.now) (step_passes MOST_PASSES nodes.now ends.now silent.now)
        (S.world sim.old)) (S.world sim.new) (text_record text.old) (text_record text.new)) }
{
    let visited = Visited {
        nodes,
        ends,
        silent,
        are_known: are_known(sim, ends),
    };
    turn_ends(sim, EndTurn::Open, &visited, text)?;
    make_passes(sim, &visited, text)?;
    Ok(())
}
