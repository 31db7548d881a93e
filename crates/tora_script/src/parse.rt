//! Parses the lines of a simulation file.
ghost use Rattle.std.specs.Prelude.{◌≡◌, ℕ, ◌<◌, List, Some, IfSome, IfOk, All};
ghost use Rattle.tora_script.specs.declared.node_marks.Mark.{Mark as AnyMark};
ghost use Rattle.tora_script.specs.declared.script_line.SimulationLine.{SimulationLine as AnySimulationLine};
ghost use Rattle.tora_script.specs.SimulationGrammar.{SpellsSimulationLine, SpellsDests, SpellsLink, SpellsMark};
ghost use Rattle.tora_lines.specs.Gives.{Gives};
ghost use Rattle.tora_script.specs.SimulationLines.{is_word, pair_of, life_number_of, life_of, lane_of, call_of};
ghost use Rattle.tora_script.specs.SimulationLines.{torn_of, rounds_of, arm_of, restart_of, end_event_of};
ghost use Rattle.tora_script.specs.SimulationLines.{node_event_of, walk_line_of, order_line_of, simulation_line_of};
ghost use Rattle.tora_script.specs.SimulationLines.{dests_of, link_of, erasure_of, erases_of, mark_of};

use crate::node_marks::Mark;
use crate::script_line::SimulationLine;
use std::alloc::Global;
use tora_arq::Life;
use tora_core::Erasure;
use tora_frame::GREATEST_NUMBER;
use tora_height::Id;
use tora_lines::words::LineError;
use tora_lines::{after, behind, words};
use tora_world::{Call, Event};

/// The most rounds of one line.
pub(crate) const MOST_ROUNDS: u64 = 10_000;

/// Whether the text is this word.
#[tactic(auto, unfolding(crate::specs::SimulationLines::is_word))]
pub fn is_word(word: &[u8], text: &[u8]) -> bool
    ensures { result ≡ is_word word.now text.now }
{
    text.len() == word.len() && after(word, text).is_some()
}

/// Reads `N K`, two ids with one blank between them; `None` for any other text.
#[tactic(auto, unfolding(crate::specs::SimulationLines::pair_of))]
pub fn pair(text: &[u8]) -> Option<(Id, Id)>
    ensures value { result ≡ pair_of text.now }
    ensures positive { IfSome result (λ p. (0 < p.0) × (0 < p.1)) }
{
    let (n, k) = words::cut(b' ', text)?;
    let n = words::id(n)?;
    let k = words::id(k)?;
    Some((n, k))
}

/// Reads a number of a session, from 1 to 2^62; `None` for any other text.
#[tactic(auto, unfolding(crate::specs::SimulationLines::life_number_of))]
fn life_number(text: &[u8]) -> Option<u64>
    ensures { result ≡ life_number_of text.now }
{
    let n = words::number(text)?;
    if 0 < n && n <= GREATEST_NUMBER {
        Some(n)
    } else {
        None
    }
}

/// Reads `X Y`, the two numbers of a session, each from 1 to 2^62; `None` for any other text.
#[tactic(auto, unfolding(crate::specs::SimulationLines::life_of))]
fn life(text: &[u8]) -> Option<Life>
    ensures { result ≡ life_of text.now }
{
    let (own, peer) = words::cut(b' ', text)?;
    let own = life_number(own)?;
    let peer = life_number(peer)?;
    Some(Life { own, peer })
}

/// Reads `N K X Y`, two ids and the two numbers of a session; `None` for any other text.
#[tactic(auto, unfolding(crate::specs::SimulationLines::lane_of))]
fn lane(text: &[u8]) -> Option<(Id, Id, Life)>
    ensures { result ≡ lane_of text.now }
{
    let (n, rest) = words::cut(b' ', text)?;
    let n = words::id(n)?;
    let (k, rest) = words::cut(b' ', rest)?;
    let k = words::id(k)?;
    let life = life(rest)?;
    Some((n, k, life))
}

/// Reads the word CALL of `arm N CALL`: `send-lost`, `send-gone`, `receive`, `read`, `write` or `sync`; `None` for any
/// other text.
#[tactic(auto, unfolding(crate::specs::SimulationLines::call_of))]
fn call(text: &[u8]) -> Option<Call>
    ensures { result ≡ call_of text.now }
{
    if is_word(b"send-lost", text) {
        return Some(Call::SendLost);
    }
    if is_word(b"send-gone", text) {
        return Some(Call::SendGone);
    }
    if is_word(b"receive", text) {
        return Some(Call::Receive);
    }
    if is_word(b"read", text) {
        return Some(Call::Read);
    }
    if is_word(b"write", text) {
        return Some(Call::Write);
    }
    if is_word(b"sync", text) {
        Some(Call::Sync)
    } else {
        None
    }
}

/// Reads the word T of `restart N T`: `Some(None)` for `-`, and 16 bytes for 32 hexadecimal digits of either case.
/// `None` for any other word.
#[tactic(auto, unfolding(crate::specs::SimulationLines::torn_of))]
fn torn(text: &[u8]) -> Option<Option<[u8; 16]>>
    ensures { result ≡ torn_of text.now }
{
    if words::is_dash(text) {
        return Some(None);
    }
    if text.len() != 32 {
        return None;
    }
    let mut bytes = [0; 16];
    match hex::decode_to_slice(text, &mut bytes) {
        Ok(()) => Some(Some(bytes)),
        Err(_) => None,
    }
}

/// Reads `N CALL`, the rest of a line after `arm `; `None` for any other text.
#[tactic(auto, unfolding(crate::specs::SimulationLines::arm_of))]
fn arm(text: &[u8]) -> Option<Event>
    ensures { result ≡ arm_of text.now }
{
    let (n, rest) = words::cut(b' ', text)?;
    let n = words::id(n)?;
    let call = call(rest)?;
    Some(Event::Arm(n, call))
}

/// Reads `N T`, the rest of a line after `restart `; `None` for any other text.
#[tactic(auto, unfolding(crate::specs::SimulationLines::restart_of))]
fn restart(text: &[u8]) -> Option<Event>
    ensures { result ≡ restart_of text.now }
{
    let (n, rest) = words::cut(b' ', text)?;
    let n = words::id(n)?;
    let torn = torn(rest)?;
    Some(Event::Restart(n, torn))
}

/// Reads `open N K`, `pull N K`, `transmit N K` or `pump N K`; `None` for any other text.
#[tactic(auto, unfolding(crate::specs::SimulationLines::end_event_of, crate::specs::SimulationLines::for_pair))]
fn end_event(text: &[u8]) -> Option<Event>
    ensures { result ≡ end_event_of text.now }
{
    if let Some(rest) = after(b"open ", text) {
        let (n, k) = pair(rest)?;
        return Some(Event::Open(n, k));
    }
    if let Some(rest) = after(b"pull ", text) {
        let (n, k) = pair(rest)?;
        return Some(Event::Pull(n, k));
    }
    if let Some(rest) = after(b"transmit ", text) {
        let (n, k) = pair(rest)?;
        return Some(Event::Transmit(n, k));
    }
    let (n, k) = pair(after(b"pump ", text)?)?;
    Some(Event::Pump(n, k))
}

/// Reads `need N D`, `deliver I`, `turn N`, `arm N CALL`, `restart N T` or `tick`; `None` for any other text.
#[tactic(auto, unfolding(crate::specs::SimulationLines::node_event_of, crate::specs::SimulationLines::for_pair, crate::specs::SimulationLines::for_id, crate::specs::SimulationLines::deliver_of))]
fn node_event(text: &[u8]) -> Option<Event>
    ensures { result ≡ node_event_of text.now }
{
    if let Some(rest) = after(b"need ", text) {
        let (n, d) = pair(rest)?;
        return Some(Event::Need(n, d));
    }
    if let Some(rest) = after(b"deliver ", text) {
        return Some(Event::Deliver(words::number(rest)?));
    }
    if let Some(rest) = after(b"turn ", text) {
        return Some(Event::CoreTurn(words::id(rest)?));
    }
    if let Some(rest) = after(b"arm ", text) {
        return arm(rest);
    }
    if let Some(rest) = after(b"restart ", text) {
        return restart(rest);
    }
    if is_word(b"tick", text) {
        Some(Event::Tick)
    } else {
        None
    }
}

/// Reads R, the rest of a line after `rounds `, a number from 0 to `MOST_ROUNDS`; `None` for any other text.
#[tactic(auto, unfolding(crate::specs::SimulationLines::rounds_of))]
fn rounds(text: &[u8]) -> Option<SimulationLine>
    ensures { result ≡ rounds_of text.now }
{
    let r = words::number(text)?;
    if r <= MOST_ROUNDS {
        Some(SimulationLine::Rounds(r))
    } else {
        None
    }
}

/// Reads `exact D`, `walk N D` or `rest`; `None` for any other text.
#[tactic(auto, unfolding(crate::specs::SimulationLines::walk_line_of, crate::specs::SimulationLines::for_pair, crate::specs::SimulationLines::for_id))]
fn walk_line(text: &[u8]) -> Option<SimulationLine>
    ensures { result ≡ walk_line_of text.now }
{
    if let Some(rest) = after(b"exact ", text) {
        return Some(SimulationLine::Exact(words::id(rest)?));
    }
    if let Some(rest) = after(b"walk ", text) {
        let (n, d) = pair(rest)?;
        return Some(SimulationLine::Walk(n, d));
    }
    if is_word(b"rest", text) {
        Some(SimulationLine::Rest)
    } else {
        None
    }
}

/// Reads `rounds R`, `part A B`, `mend A B`, `heights D`, `sent A B X Y`, `taken B A Y X`, or what `walk_line` reads;
/// `None` for any other text.
#[tactic(auto, unfolding(crate::specs::SimulationLines::order_line_of, crate::specs::SimulationLines::for_pair, crate::specs::SimulationLines::for_id, crate::specs::SimulationLines::for_lane))]
fn order_line(text: &[u8]) -> Option<SimulationLine>
    ensures { result ≡ order_line_of text.now }
{
    if let Some(rest) = after(b"rounds ", text) {
        return rounds(rest);
    }
    if let Some(rest) = after(b"part ", text) {
        let (a, b) = pair(rest)?;
        return Some(SimulationLine::Part(a, b));
    }
    if let Some(rest) = after(b"mend ", text) {
        let (a, b) = pair(rest)?;
        return Some(SimulationLine::Mend(a, b));
    }
    if let Some(rest) = after(b"heights ", text) {
        return Some(SimulationLine::Heights(words::id(rest)?));
    }
    if let Some(rest) = after(b"sent ", text) {
        let (a, b, life) = lane(rest)?;
        return Some(SimulationLine::Sent(a, b, life));
    }
    if let Some(rest) = after(b"taken ", text) {
        let (b, a, life) = lane(rest)?;
        return Some(SimulationLine::Taken(b, a, life));
    }
    walk_line(text)
}

/// Reads a line after the links and the lines about nodes: an event, an order or a question. `None` for any other text;
/// whether the named nodes and links exist is not checked.
#[tactic(auto, unfolding(crate::specs::SimulationLines::simulation_line_of))]
pub fn simulation_line(text: &[u8]) -> Option<SimulationLine>
    ensures { result ≡ simulation_line_of text.now }
{
    if let Some(event) = end_event(text) {
        return Some(SimulationLine::Happens(event));
    }
    if let Some(event) = node_event(text) {
        return Some(SimulationLine::Happens(event));
    }
    order_line(text)
}

/// Reads the first line, `dests LIST`, and returns the destinations. The error is `Fault` for any other text, and
/// `Memory` if memory ran out.
#[tactic(auto, unfolding(crate::specs::SimulationLines::dests_of))]
pub fn dests(alloc: Global, text: &[u8]) -> Result<Vec<Id>, LineError>
    ensures value { Gives (λ v. v.items) result (dests_of text.now) }
    ensures positive { IfOk result (λ v. All (λ d. 0 < d) v.items) }
{
    words::list(alloc, behind(b"dests ", text)?)
}

/// Reads `link A B`; `None` for any other text.
#[tactic(auto, unfolding(crate::specs::SimulationLines::link_of))]
pub fn link(text: &[u8]) -> Option<(Id, Id)>
    ensures value { result ≡ link_of text.now }
    ensures positive { IfSome result (λ p. (0 < p.0) × (0 < p.1)) }
{
    pair(after(b"link ", text)?)
}

/// Reads the word `plain` or `remembered`; `None` for any other text.
#[tactic(auto, unfolding(crate::specs::SimulationLines::erasure_of))]
pub fn erasure_word(text: &[u8]) -> Option<Erasure>
    ensures { result ≡ erasure_of text.now }
{
    if is_word(b"plain", text) {
        return Some(Erasure::Plain);
    }
    if is_word(b"remembered", text) {
        Some(Erasure::Remembered)
    } else {
        None
    }
}

/// Reads `N WORD`, the rest of a line after `erasure `; `None` for any other text.
#[tactic(auto, unfolding(crate::specs::SimulationLines::erases_of))]
fn erases(text: &[u8]) -> Option<Mark>
    ensures { result ≡ erases_of text.now }
{
    let (n, rest) = words::cut(b' ', text)?;
    let n = words::id(n)?;
    let erasure = erasure_word(rest)?;
    Some(Mark::Erases(n, erasure))
}

/// Reads `old N` or `erasure N WORD`, where WORD is `plain` or `remembered`; `None` for any other text.
#[tactic(auto, unfolding(crate::specs::SimulationLines::mark_of, crate::specs::SimulationLines::for_id))]
pub fn mark(text: &[u8]) -> Option<Mark>
    ensures { result ≡ mark_of text.now }
{
    if let Some(rest) = after(b"old ", text) {
        return Some(Mark::Old(words::id(rest)?));
    }
    erases(after(b"erasure ", text)?)
}

/// The parser accepts a line exactly if the grammar has it, and returns what the grammar says.
pub fn simulation_lines_are_read_as_written()
    ensures found { (text : List ℕ) (line : AnySimulationLine) → simulation_line_of text ≡ Some line
        → SpellsSimulationLine text line }
    ensures only { (text : List ℕ) (line : AnySimulationLine) → SpellsSimulationLine text line
        → simulation_line_of text ≡ Some line }
    ensures dests_found { (text dests : List ℕ) → dests_of text ≡ Some dests → SpellsDests text dests }
    ensures dests_only { (text dests : List ℕ) → SpellsDests text dests → dests_of text ≡ Some dests }
    ensures link_found { (text : List ℕ) (p : ℕ × ℕ) → link_of text ≡ Some p → SpellsLink text p }
    ensures link_only { (text : List ℕ) (p : ℕ × ℕ) → SpellsLink text p → link_of text ≡ Some p }
    ensures mark_found { (text : List ℕ) (mark : AnyMark) → mark_of text ≡ Some mark → SpellsMark text mark }
    ensures mark_only { (text : List ℕ) (mark : AnyMark) → SpellsMark text mark → mark_of text ≡ Some mark }
{}
