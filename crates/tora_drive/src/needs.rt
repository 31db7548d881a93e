//! The answer to `needs`.
ghost use Rattle.std.specs.Prelude.{◌≡◌, ◌++◌, OnOk, string_bytes};
ghost use Rattle.std.specs.List.{flat_map};
ghost use Rattle.tora_drive.specs.DriveText.{need_line, needs_text};

use crate::driven::Driven;
use std::alloc::AllocError;
use tora_height::Id;

/// Appends `need N D` if a route is required.
#[tactic(auto, unfolding(crate::specs::DriveText::need_line))]
fn write_need<S: Driven>(out: &mut String, sim: &S, n: Id, d: Id) -> Result<(), AllocError>
    ensures { OnOk result (string_bytes out.new ≡ string_bytes out.old ++ need_line (S.world sim.now) n d) }
{
    if sim.flag(n, d) {
        writeln!(out, "need {n} {d}")
    } else {
        Ok(())
    }
}

/// Appends a line `need N D` for each of the destinations to which node `n` requires a route. The error says that
/// memory ran out.
fn write_needs_of<S: Driven>(
    out: &mut String,
    sim: &S,
    n: Id,
    dests: &[Id],
) -> Result<(), AllocError>
    ensures { OnOk result (string_bytes out.new ≡ string_bytes out.old
        ++ flat_map (need_line (S.world sim.now) n) dests.now) }
{
    for d in dests {
        write_need(out, sim, n, *d)?;
    }
    Ok(())
}

/// Appends a line `need N D` for each route that is required.
pub fn write_needs<S: Driven>(
    out: &mut String,
    sim: &S,
    nodes: &[Id],
    dests: &[Id],
) -> Result<(), AllocError>
    ensures { OnOk result (string_bytes out.new ≡ string_bytes out.old
        ++ needs_text (S.world sim.now) nodes.now dests.now) }
{
    for n in nodes {
        write_needs_of(out, sim, *n, dests)?;
    }
    Ok(())
}
