//! The text that shows a core.
ghost use Rattle.std.specs.Prelude.{◌≡◌, ◌++◌, IfOk, OnOk, string_bytes};
ghost use Rattle.std.specs.List.{flat_map};
ghost use Rattle.tora_core.specs.ShowText.{direction_text, flag_text, to_line, via_line, view_text};

use crate::destination::Destination;
use crate::rows::Row;
use std::alloc::{AllocError, Global};
use std::fmt;
use tora_height::{Direction, Entry, Id, status};

/// A height as `(tau,oid,r,delta,id)`, and NULL as `-`.
#[derive(Clone, Copy)]
struct HeightText(Entry);

impl fmt::Display for HeightText {
    ghost use Rattle.std.specs.Prelude.{Some};
    ghost use Rattle.tora_core.specs.ShowText.{height_text};

    ghost output = { λ t. Some (height_text t.0) };

    fn fmt<W: fmt::Write>(&self, f: &mut fmt::Formatter<W>) -> fmt::Result {
        match self.0 {
            None => write!(f, "-"),
            Some(height) => write!(f, "{height}"),
        }
    }
}

/// A next hop by its number, and `-` for none.
#[derive(Clone, Copy)]
struct HopText(Option<Id>);

impl fmt::Display for HopText {
    ghost use Rattle.std.specs.Prelude.{Some};
    ghost use Rattle.tora_core.specs.ShowText.{hop_text};

    ghost output = { λ t. Some (hop_text t.0) };

    fn fmt<W: fmt::Write>(&self, f: &mut fmt::Formatter<W>) -> fmt::Result {
        match self.0 {
            None => write!(f, "-"),
            Some(hop) => write!(f, "{hop}"),
        }
    }
}

/// The text of a flag: `1` for true, `0` for false.
fn flag_text(flag: bool) -> &'static str
    ensures { result.now ≡ flag_text flag }
{
    if flag { "1" } else { "0" }
}

/// The word of a direction: `up`, `down`, or `none` for `Undirected`.
fn direction_text(direction: Direction) -> &'static str
    ensures { result.now ≡ direction_text direction }
{
    match direction {
        Direction::Up => "up",
        Direction::Down => "down",
        Direction::Undirected => "none",
    }
}

/// Appends the line `to D height H flag F hop K` of a view to a text; `-` stands for the height NULL and for no next
/// hop. The error says that memory ran out.
#[tactic(auto, unfolding(crate::specs::ShowText::to_line))]
fn write_to_line(out: &mut String, view: &Destination) -> Result<(), AllocError>
    ensures { OnOk result (string_bytes out.new ≡ string_bytes out.old ++ to_line view.now.view) }
{
    let destination = view.destination();
    let height = HeightText(view.height());
    let flag = flag_text(view.flag());
    let hop = HopText(view.next_hop());
    writeln!(
        out,
        "to {destination} height {height} flag {flag} hop {hop}"
    )
}

/// Appends the line `via K H DIRECTION` of a row to a text, where H is the entry, `-` for NULL. The error says that
/// memory ran out.
#[tactic(auto, unfolding(crate::specs::ShowText::via_line))]
fn write_via_line(out: &mut String, view: &Destination, row: &Row) -> Result<(), AllocError>
    ensures { OnOk result (string_bytes out.new ≡ string_bytes out.old ++ via_line view.now.view.height row.now) }
{
    let neighbour = row.neighbour;
    let entry = HeightText(row.entry);
    let direction = direction_text(status(view.height(), row.entry));
    writeln!(out, "via {neighbour} {entry} {direction}")
}

/// Appends the `to` line of a view and the `via` line of each of its rows to a text. The error says that memory ran
/// out.
fn write_view(alloc: Global, out: &mut String, view: &Destination) -> Result<(), AllocError>
    ensures { OnOk result (string_bytes out.new ≡ string_bytes out.old ++ view_text view.now.view) }
{
    write_to_line(out, view)?;
    let rows = view.rows(alloc)?;
    for row in rows.as_slice() {
        write_via_line(out, view, row)?;
    }
    Ok(())
}

/// The text of `Core::show` for these views. Fails only if memory runs out.
pub fn text_of(alloc: Global, views: &[Destination]) -> Result<String, AllocError>
    ensures { IfOk result (λ text. string_bytes text ≡ flat_map (λ t. view_text t.view) views.now) }
{
    let mut text = String::new(alloc);
    for view in views {
        write_view(alloc, &mut text, view)?;
    }
    Ok(text)
}
