//! A node's state as a line of JSON.
ghost use Rattle.std.specs.Prelude.{◌≡◌, ◌++◌, Some, IfOk, OnOk, slice_get, string_bytes};
ghost use Rattle.tora_height.specs.HeightOrder.{link_status};
ghost use Rattle.tora_core.specs.Kept.{destinations_of};
ghost use Rattle.tora_core.specs.ShowText.{direction_text};
ghost use Rattle.tora_seat.specs.Rows.{state_of};
ghost use Rattle.tora_node.specs.StatusJson.{array_json, erasure_json, number_json, truth_json, height_json, life_json};
ghost use Rattle.tora_node.specs.StatusJson.{or_null, own_height, entry_height, via_json, destination_json, link_json};
ghost use Rattle.tora_node.specs.StatusJson.{json_text, own_json, route_json};

use std::alloc::{AllocError, Global};
use tora_arq::Life;
use tora_core::{Core, Erasure};
use tora_height::{Direction, Entry, Id, status};
use tora_seat::CoreSeat;

/// The entry, or NULL if there is none.
fn or_null(entry: Option<Entry>) -> Entry
    ensures { result ≡ or_null entry }
{
    match entry {
        None => None,
        Some(height) => height,
    }
}

/// The node's height for a destination; NULL, too, if the table does not have it.
pub fn own_height(core: &Core, d: Id) -> Entry
    ensures { result ≡ own_height core.now d }
{
    or_null(core.height(d))
}

/// The height that a neighbour last sent for a destination; NULL, too, if its link is not up or the table does not have
/// the destination.
fn entry_height(core: &Core, d: Id, k: Id) -> Entry
    ensures { result ≡ entry_height core.now d k }
{
    or_null(core.entry(d, k))
}

/// The word of JSON for a flag: `true` or `false`.
fn truth(flag: bool) -> &'static str
    ensures { result.now ≡ truth_json flag }
{
    if flag { "true" } else { "false" }
}

/// The direction of the link to neighbour `k` for destination `d`: `up`, `down` or `none`.
fn direction(core: &Core, d: Id, k: Id) -> &'static str
    ensures { result.now ≡ direction_text (link_status (own_height core.now d) (entry_height core.now d k)) }
{
    match status(own_height(core, d), entry_height(core, d, k)) {
        Direction::Up => "up",
        Direction::Down => "down",
        Direction::Undirected => "none",
    }
}

/// Appends a height to a text, as a list of its five parts; `null` for NULL.
fn write_height(out: &mut String, height: Entry) -> Result<(), AllocError>
    ensures { OnOk result (string_bytes out.new ≡ string_bytes out.old ++ height_json height) }
{
    match height {
        None => write!(out, "null"),
        Some(height) => {
            let (tau, oid, r) = (height.tau(), height.oid(), height.r());
            let (delta, id) = (height.delta(), height.id());
            write!(out, "[{tau},{oid},{r},")?;
            write!(out, "{delta},{id}]")
        }
    }
}

/// Appends a number to a text, or `null`.
fn write_number(out: &mut String, number: Option<Id>) -> Result<(), AllocError>
    ensures { OnOk result (string_bytes out.new ≡ string_bytes out.old ++ number_json number) }
{
    match number {
        None => write!(out, "null"),
        Some(n) => write!(out, "{n}"),
    }
}

/// Appends the numbers of a session to a text, or `null`.
fn write_life(out: &mut String, life: Option<Life>) -> Result<(), AllocError>
    ensures { OnOk result (string_bytes out.new ≡ string_bytes out.old ++ life_json life) }
{
    match life {
        None => write!(out, "null"),
        Some(life) => {
            let (own, peer) = (life.own, life.peer);
            write!(out, "[{own},{peer}]")
        }
    }
}

/// Appends a neighbour's height of a destination to a text.
#[tactic(auto, unfolding(crate::specs::StatusJson::via_json))]
fn write_via(out: &mut String, core: &Core, d: Id, k: Id) -> Result<(), AllocError>
    ensures { OnOk result (string_bytes out.new ≡ string_bytes out.old ++ via_json core.now d k) }
{
    let direction = direction(core, d, k);
    out.push_str("{\"node\":")?;
    write!(out, "{k},\"height\":")?;
    write_height(out, entry_height(core, d, k))?;
    write!(out, ",\"direction\":\"{direction}\"")?;
    out.push_str("}")
}

/// Appends the heights of a destination that the neighbours with links that are up have sent.
fn write_vias(out: &mut String, core: &Core, d: Id) -> Result<(), AllocError>
    ensures { OnOk result (string_bytes out.new
        ≡ string_bytes out.old ++ array_json (via_json core.now d) core.now.up) }
{
    match core.up().split_first() {
        None => out.push_str("[]"),
        Some((first, rest)) => {
            out.push_str("[")?;
            write_via(out, core, d, *first)?;
            for k in rest {
                out.push_str(",")?;
                write_via(out, core, d, *k)?;
            }
            out.push_str("]")
        }
    }
}

/// Appends a destination and the node's height to a text.
#[tactic(auto, unfolding(crate::specs::StatusJson::own_json))]
fn write_own(out: &mut String, core: &Core, d: Id) -> Result<(), AllocError>
    ensures { OnOk result (string_bytes out.new ≡ string_bytes out.old ++ own_json core.now d) }
{
    out.push_str("{\"to\":")?;
    write!(out, "{d},\"height\":")?;
    write_height(out, own_height(core, d))
}

/// Appends whether a route is required, the next hop, and the neighbours' heights to a text.
#[tactic(auto, unfolding(crate::specs::StatusJson::route_json))]
fn write_route(out: &mut String, core: &Core, d: Id) -> Result<(), AllocError>
    ensures { OnOk result (string_bytes out.new ≡ string_bytes out.old ++ route_json core.now d) }
{
    let required = truth(core.flag(d));
    write!(out, ",\"required\":{required},\"hop\":")?;
    write_number(out, core.next_hop(d))?;
    out.push_str(",\"via\":")?;
    write_vias(out, core, d)?;
    out.push_str("}")
}

/// Appends a destination to a text.
#[tactic(auto, unfolding(crate::specs::StatusJson::destination_json))]
fn write_destination(out: &mut String, core: &Core, d: Id) -> Result<(), AllocError>
    ensures { OnOk result (string_bytes out.new ≡ string_bytes out.old ++ destination_json core.now d) }
{
    write_own(out, core, d)?;
    write_route(out, core, d)
}

/// Appends the destinations of the table to a text.
fn write_destinations(out: &mut String, core: &Core) -> Result<(), AllocError>
    ensures { OnOk result (string_bytes out.new
        ≡ string_bytes out.old ++ array_json (destination_json core.now) (destinations_of core.now.views)) }
{
    match core.destinations().split_first() {
        None => out.push_str("[]"),
        Some((first, rest)) => {
            out.push_str("[")?;
            write_destination(out, core, *first)?;
            for d in rest {
                out.push_str(",")?;
                write_destination(out, core, *d)?;
            }
            out.push_str("]")
        }
    }
}

/// Appends the link of the neighbour at an index to a text.
#[tactic(auto, unfolding(crate::specs::StatusJson::link_json))]
fn write_link(out: &mut String, seat: &CoreSeat, place: usize, k: Id) -> Result<(), AllocError>
    requires { slice_get seat.now.core.neighbours place ≡ Some k }
    ensures { OnOk result (string_bytes out.new ≡ string_bytes out.old ++ link_json (state_of seat.now) k) }
{
    out.push_str("{\"peer\":")?;
    write!(out, "{k},\"life\":")?;
    write_life(out, seat.current(place))?;
    out.push_str(",\"cut\":")?;
    write_life(out, seat.pending(place))?;
    out.push_str("}")
}

/// Appends the links to a text.
fn write_links(out: &mut String, seat: &CoreSeat) -> Result<(), AllocError>
    ensures { OnOk result (string_bytes out.new
        ≡ string_bytes out.old ++ array_json (link_json (state_of seat.now)) seat.now.core.neighbours) }
{
    match seat.core().neighbours().split_first() {
        None => out.push_str("[]"),
        Some((first, rest)) => {
            out.push_str("[")?;
            write_link(out, seat, 0, *first)?;
            for (before, k) in rest.iter().enumerate() {
                out.push_str(",")?;
                write_link(out, seat, before + 1, *k)?;
            }
            out.push_str("]")
        }
    }
}

/// Appends the node's treatment of erased levels to a text, unless it is plain.
fn write_erasure(out: &mut String, erasure: Erasure) -> Result<(), AllocError>
    ensures { OnOk result (string_bytes out.new ≡ string_bytes out.old ++ erasure_json erasure) }
{
    match erasure {
        Erasure::Plain => Ok(()),
        Erasure::Remembered => out.push_str(",\"erasure\":\"remembered\""),
    }
}

/// The state of a node at the tick `now` of 100 ms, as a line of JSON with its LF.
#[tactic(auto, unfolding(crate::specs::StatusJson::json_text))]
pub fn json(alloc: Global, seat: &CoreSeat, now: u64) -> Result<String, AllocError>
    ensures { IfOk result (λ text. string_bytes text ≡ json_text now (state_of seat.now)) }
{
    let me = seat.core().me();
    let mut out = String::new(alloc);
    out.push_str("{\"node\":")?;
    write!(&mut out, "{me},\"tick\":{now}")?;
    write_erasure(&mut out, seat.core().erasure())?;
    out.push_str(",\"destinations\":")?;
    write_destinations(&mut out, seat.core())?;
    out.push_str(",\"links\":")?;
    write_links(&mut out, seat)?;
    out.push_str("}\n")?;
    Ok(out)
}
