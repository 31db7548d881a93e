//! The output of `watch`.
ghost use Rattle.std.specs.Prelude.{◌≡◌, ◌++◌, IfOk, OnOk, string_bytes};
ghost use Rattle.std.specs.List.{flat_map};
ghost use Rattle.tora_node.specs.StatusLines.{told_of, all_told, height_line, hop_line, told_lines, is_same_height};
ghost use Rattle.tora_node.specs.StatusLines.{is_same_hop, change_text, news_of, changes_text};

use crate::status::own_height;
use std::alloc::{AllocError, Global};
use tora_core::Core;
use tora_height::{Entry, Id};

/// The height and next hop of the node for a destination, as they were last printed.
#[derive(Clone, Copy, Debug)]
pub(crate) struct Told {
    pub(crate) to: Id,
    /// The node's height; `None` is NULL.
    pub(crate) height: Entry,
    /// The next hop; `None` if there is none.
    pub(crate) hop: Option<Id>,
}

/// The node's height and next hop for destination `d` now.
fn told_of(core: &Core, d: Id) -> Told
    ensures { result ≡ told_of core.now d }
{
    Told {
        to: d,
        height: own_height(core, d),
        hop: core.next_hop(d),
    }
}

/// The node's height and next hop for each destination now, in the order of the table.
pub(crate) fn all_told(alloc: Global, core: &Core) -> Result<Vec<Told>, AllocError>
    ensures { IfOk result (λ told. told.items ≡ all_told core.now) }
{
    core.destinations()
        .iter()
        .map(|d| told_of(core, *d))
        .collect(alloc)
}

/// Appends a line `height D H` to a text; H is `-` for NULL.
#[tactic(auto, unfolding(crate::specs::StatusLines::height_line))]
fn write_height(out: &mut String, told: &Told) -> Result<(), AllocError>
    ensures { OnOk result (string_bytes out.new ≡ string_bytes out.old ++ height_line told.now) }
{
    let d = told.to;
    match told.height {
        None => writeln!(out, "height {d} -"),
        Some(height) => writeln!(out, "height {d} {height}"),
    }
}

/// Appends a line `hop D K` to a text; K is `-` if there is no next hop.
#[tactic(auto, unfolding(crate::specs::StatusLines::hop_line))]
fn write_hop(out: &mut String, told: &Told) -> Result<(), AllocError>
    ensures { OnOk result (string_bytes out.new ≡ string_bytes out.old ++ hop_line told.now) }
{
    let d = told.to;
    match told.hop {
        None => writeln!(out, "hop {d} -"),
        Some(hop) => writeln!(out, "hop {d} {hop}"),
    }
}

/// Whether two heights are equal, or both are NULL.
fn is_same_height(a: Entry, b: Entry) -> bool
    ensures { result ≡ is_same_height a b }
{
    match (a, b) {
        (None, None) => true,
        (None, Some(_)) => false,
        (Some(_), None) => false,
        (Some(a), Some(b)) => a.height_cmp(&b).is_eq(),
    }
}

/// Whether two next hops are the same node, or both are none.
fn is_same_hop(a: Option<Id>, b: Option<Id>) -> bool
    ensures { result ≡ is_same_hop a b }
{
    match (a, b) {
        (None, None) => true,
        (None, Some(_)) => false,
        (Some(_), None) => false,
        (Some(a), Some(b)) => a == b,
    }
}

/// Appends the lines for what has changed for a destination to a text.
fn write_change(out: &mut String, old: &Told, new: &Told) -> Result<(), AllocError>
    ensures { OnOk result (string_bytes out.new ≡ string_bytes out.old ++ change_text old.now new.now) }
{
    if !is_same_height(old.height, new.height) {
        write_height(out, new)?;
    }
    if !is_same_hop(old.hop, new.hop) {
        write_hop(out, new)?;
    }
    Ok(())
}

/// Appends the lines for what has changed for a destination since it was last printed.
fn write_news(out: &mut String, old: &Told, core: &Core) -> Result<(), AllocError>
    ensures { OnOk result (string_bytes out.new ≡ string_bytes out.old ++ news_of core.now old.now) }
{
    let new = told_of(core, old.to);
    write_change(out, old, &new)
}

/// Appends both lines of a destination to a text.
fn write_told(out: &mut String, told: &Told) -> Result<(), AllocError>
    ensures { OnOk result (string_bytes out.new ≡ string_bytes out.old ++ told_lines told.now) }
{
    write_height(out, told)?;
    write_hop(out, told)
}

/// The lines for all destinations.
pub(crate) fn state(alloc: Global, told: &[Told]) -> Result<String, AllocError>
    ensures { IfOk result (λ text. string_bytes text ≡ flat_map told_lines told.now) }
{
    let mut out = String::new(alloc);
    for one in told {
        write_told(&mut out, one)?;
    }
    Ok(out)
}

/// The lines for what has changed since the last printed state.
pub(crate) fn changes(alloc: Global, told: &[Told], core: &Core) -> Result<String, AllocError>
    ensures { IfOk result (λ text. string_bytes text ≡ changes_text told.now core.now) }
{
    let mut out = String::new(alloc);
    for old in told {
        write_news(&mut out, old, core)?;
    }
    Ok(out)
}
