//! The core's thread.
ghost use Rattle.std.specs.Prelude.{◌≡◌, ◌≢◌, ◌≤◌, ◌++◌, ◌∷◌, ◌⊎◌, [], List, length, true, false, Err, Option, None};
ghost use Rattle.std.specs.Prelude.{Some, is_some, IfErr, IfOk, OnOk, string_bytes};
ghost use Rattle.std.specs.Io.KnownBytes.{Appends};
ghost use Rattle.tora_core.specs.CoreRun.{core_after_all};
ghost use Rattle.tora_core.specs.ShowText.{show_text};
ghost use Rattle.tora_node.specs.declared.fault.NodeError.{NodeError};
ghost use Rattle.tora_seat.specs.Offers.{AreOffered};
ghost use Rattle.tora_seat.specs.Rows.{state_of};
ghost use Rattle.tora_node.specs.CoreRuns.{ServedItem, AreServed, items_served, offers_made, inputs_stepped};
ghost use Rattle.tora_node.specs.CoreRuns.{refused_text, news_text, reply_text, told_anew, told_after, text_served};
ghost use Rattle.tora_node.specs.CoreRuns.{IsTextFault, MayFail, EndsSo};
ghost use Rattle.tora_node.specs.StatusJson.{json_text};
ghost use Rattle.tora_node.specs.StatusLines.{all_told, changes_text, state_text, told_in};

use crate::fault::NodeError;
use crate::status::json;
use crate::watch::{Told, all_told, changes, state};
use std::alloc::Global;
use std::io::Write;
use std::sync::Wait;
use tora_lane::CorePort;
use tora_seat::{Answer, CoreSeat, Item, OutLanes, Status, What, accepted_inputs_make_the_core};

/// The state in which the core's thread ended.
#[derive(Drop)]
pub struct CoreEnd<O> {
    /// The seat.
    pub seat: CoreSeat,
    /// The port from which it took items.
    pub port: CorePort,
    /// The queues to the neighbours.
    pub outs: O,
    /// Why it ended: `None` after `Quit` or if the port returned `Gone`, otherwise `Memory` or `Output`.
    pub fault: Option<NodeError>,
}

/// Writes a text and flushes the writer. The error is `Output` if one of the two fails.
fn write<W: Write>(writer: &mut W, text: &[u8]) -> Result<(), NodeError>
    ensures ok { OnOk result (Appends (W.contents writer.old) (W.contents writer.new) text.now) }
    ensures err { IfErr result (λ e. e ≡ NodeError.Output) }
{
    match writer.write_all(text) {
        Err(_) => Err(NodeError::Output),
        Ok(()) => match writer.flush() {
            Err(_) => Err(NodeError::Output),
            Ok(()) => Ok(()),
        },
    }
}

/// Writes a text, unless it is empty.
fn write_some<W: Write>(writer: &mut W, text: &[u8]) -> Result<(), NodeError>
    ensures ok { OnOk result (Appends (W.contents writer.old) (W.contents writer.new) text.now) }
    ensures err { IfErr result (λ e. e ≡ NodeError.Output) }
{
    if text.is_empty() {
        return Ok(());
    }
    write(writer, text)
}

/// Prints the table of the core. `Memory`; `Output` if writing or flushing fails.
fn print_core<W: Write>(alloc: Global, seat: &CoreSeat, writer: &mut W) -> Result<(), NodeError>
    ensures ok { OnOk result (Appends (W.contents writer.old) (W.contents writer.new) (show_text seat.now.core)) }
    ensures err { IfErr result IsTextFault }
{
    let Ok(text) = seat.core().show(alloc) else {
        return Err(NodeError::Memory);
    };
    write(writer, text.as_bytes())
}

/// Prints the state of the node at the tick `now` of 100 ms as a line of JSON. `Memory`; `Output`.
fn print_json<W: Write>(
    alloc: Global,
    seat: &CoreSeat,
    now: u64,
    writer: &mut W,
) -> Result<(), NodeError>
    ensures ok { OnOk result (Appends (W.contents writer.old) (W.contents writer.new)
        (json_text now (state_of seat.now))) }
    ensures err { IfErr result IsTextFault }
{
    let Ok(text) = json(alloc, seat, now) else {
        return Err(NodeError::Memory);
    };
    write(writer, text.as_bytes())
}

/// Prints `refused N`, with the number of the cause, if the answer is the refusal of a need; otherwise nothing.
fn print_refusal<W: Write>(answer: &Answer, writer: &mut W) -> Result<(), NodeError>
    ensures ok { OnOk result (Appends (W.contents writer.old) (W.contents writer.new) (refused_text answer.now)) }
    ensures err { IfErr result (λ e. e ≡ NodeError.Output) }
{
    let Answer::Refused(error) = answer else {
        return Ok(());
    };
    let mut text = *b"refused 0\n";
    text[8] = b'0' + error.number();
    write(writer, text.as_slice())
}

/// Prints all heights and next hops, and stores them in `watch`, so that changes are printed from then on. `Memory`;
/// `Output`.
fn begin_watch<W: Write>(
    alloc: Global,
    seat: &CoreSeat,
    watch: &mut Option<Vec<Told>>,
    writer: &mut W,
) -> Result<(), NodeError>
    ensures ok { OnOk result (Appends (W.contents writer.old) (W.contents writer.new) (state_text seat.now.core)) }
    ensures told { OnOk result (told_in watch.new ≡ Some (all_told seat.now.core)) }
    ensures err { IfErr result IsTextFault }
{
    let Ok(told) = all_told(alloc, seat.core()) else {
        return Err(NodeError::Memory);
    };
    let Ok(text) = state(alloc, told.as_slice()) else {
        return Err(NodeError::Memory);
    };
    *watch = Some(told);
    write(writer, text.as_bytes())
}

/// Prints the heights and next hops that differ from those printed last, `told`, and stores the new ones there.
/// `Memory`; `Output`.
fn print_changes<W: Write>(
    alloc: Global,
    seat: &CoreSeat,
    told: &mut Vec<Told>,
    writer: &mut W,
) -> Result<(), NodeError>
    ensures ok { OnOk result (Appends (W.contents writer.old) (W.contents writer.new)
        (changes_text told.old.items seat.now.core)) }
    ensures told { OnOk result (told.new.items ≡ all_told seat.now.core) }
    ensures err { IfErr result IsTextFault }
{
    let Ok(text) = changes(alloc, told.as_slice(), seat.core()) else {
        return Err(NodeError::Memory);
    };
    let Ok(now) = all_told(alloc, seat.core()) else {
        return Err(NodeError::Memory);
    };
    *told = now;
    write_some(writer, text.as_bytes())
}

/// Prints the heights and next hops that have changed, if the core is watched; otherwise nothing. `Memory`; `Output`.
fn print_news<W: Write>(
    alloc: Global,
    seat: &CoreSeat,
    watch: &mut Option<Vec<Told>>,
    writer: &mut W,
) -> Result<(), NodeError>
    ensures ok { OnOk result (Appends (W.contents writer.old) (W.contents writer.new)
        (news_text (told_in watch.old) seat.now.core)) }
    ensures told { OnOk result (told_in watch.new ≡ told_anew (told_in watch.old) seat.now.core) }
    ensures err { IfErr result (λ e. IsTextFault e × (is_some watch.old ≡ true)) }
{
    match watch {
        None => Ok(()),
        Some(told) => print_changes(alloc, seat, told, writer),
    }
}

/// Prints `refused N` if a need was refused, and then what has changed if the core is watched.
fn answer_need<W: Write>(
    alloc: Global,
    seat: &CoreSeat,
    answer: &Answer,
    watch: &mut Option<Vec<Told>>,
    writer: &mut W,
) -> Result<(), NodeError>
    ensures ok { OnOk result (Appends (W.contents writer.old) (W.contents writer.new)
        (refused_text answer.now ++ news_text (told_in watch.old) seat.now.core)) }
    ensures told { OnOk result (told_in watch.new ≡ told_anew (told_in watch.old) seat.now.core) }
    ensures err { IfErr result (λ e. (e ≡ NodeError.Output) ⊎ (IsTextFault e × (is_some watch.old ≡ true))) }
{
    print_refusal(answer, writer)?;
    print_news(alloc, seat, watch, writer)
}

/// Prints the output for an item, and what it changed if the core is watched.
fn reply<W: Write>(
    alloc: Global,
    seat: &CoreSeat,
    item: &Item,
    answer: &Answer,
    watch: &mut Option<Vec<Told>>,
    writer: &mut W,
) -> Result<(), NodeError>
    ensures ok { OnOk result (Appends (W.contents writer.old) (W.contents writer.new)
        (reply_text (told_in watch.old) item.entry.now.now item.entry.now.what answer.now (state_of seat.now))) }
    ensures told { OnOk result (told_in watch.new ≡ told_after (told_in watch.old) item.entry.now.what seat.now.core) }
    ensures err { IfErr result (λ e. MayFail e (is_some watch.old ≡ true) item.entry.now.what) }
{
    match &item.what {
        What::Show => print_core(alloc, seat, writer),
        What::Status(Status::Json) => print_json(alloc, seat, item.now, writer),
        What::Status(Status::Watch) => begin_watch(alloc, seat, watch, writer),
        What::Need(_) => answer_need(alloc, seat, answer, watch, writer),
        What::Cut(_) => print_news(alloc, seat, watch, writer),
        What::Up(_) => print_news(alloc, seat, watch, writer),
        What::Packet(_, _) => print_news(alloc, seat, watch, writer),
        What::Down(_, _) => print_news(alloc, seat, watch, writer),
        What::Beat => Ok(()),
        What::Quit => Ok(()),
    }
}

/// Whether the content of an item is `Quit`.
fn is_quit(what: &What) -> bool
    ensures quit { result ≡ true → what.now ≡ What.Quit }
    ensures other { result ≡ false → what.now ≢ What.Quit }
{
    match what {
        What::Quit => true,
        _ => false,
    }
}

/// Takes items and serves them one after another, until `Quit`, `Gone` or a fault, and prints their output: the table
/// of the core for `Show`, a line of JSON for `Status(Json)`, all heights and next hops for `Status(Watch)` and each
/// change of them from then on, and `refused N` for a `Need` that the core refuses with the number N.
///
/// The writer is flushed after each output. Memory is allocated only to print the table, a line of JSON, or heights and
/// next hops, and, while these are watched, after each item that may have changed them.
pub fn run_core<R: Wait, O: OutLanes, W: Write>(
    rt: &R,
    alloc: Global,
    seat: CoreSeat,
    port: CorePort,
    outs: O,
    writer: &mut W,
) -> CoreEnd<O>
    requires { length seat.core.neighbours ≤ O.count outs }
    // The items taken were served; without a fault, their text was written.
    ensures runs { (xs : List ServedItem) × (result.port.taken ≡ port.taken ++ items_served xs)
        × AreServed seat.core.neighbours (state_of seat) xs (state_of result.seat)
        × AreOffered O.did_offer seat.core.neighbours outs (offers_made xs) result.outs
        × (result.seat.core ≡ core_after_all seat.core (inputs_stepped seat.core.neighbours (state_of seat) xs))
        × (result.fault ≡ None
        → Appends (W.contents writer.old) (W.contents writer.new)
        (text_served seat.core.neighbours None (state_of seat) xs))
        × EndsSo result.fault xs result.port.gone }
    ensures neighbours { result.seat.core.neighbours ≡ seat.core.neighbours }
    ensures lane { result.port.lane ≡ port.lane }
{
    let mut end = CoreEnd {
        seat,
        port,
        outs,
        fault: None,
    };
    let mut watch = None;
    accepted_inputs_make_the_core();
    for _ in rt.forever() {
        let item = match end.port.take(rt) {
            Ok(item) => item,
            Err(_) => return end,
        };
        let answer = end.seat.serve(&item, &mut end.outs);
        if is_quit(&item.what) {
            return end;
        }
        match reply(alloc, &end.seat, &item, &answer, &mut watch, writer) {
            Ok(()) => {}
            Err(fault) => {
                end.fault = Some(fault);
                return end;
            }
        }
    }
    unreachable!()
}
