//! The last session in which each link of a node came up.
ghost use Rattle.std.specs.Prelude.{◌≡◌, ◌++◌, OnOk, string_bytes, filter};
ghost use Rattle.tora_script.specs.CoreCopies.{is_at, is_elsewhere, life_at, with_life, lives_after, up_of, down_of};
ghost use Rattle.tora_script.specs.CoreCopies.{link_record};

use std::alloc::AllocError;
use tora_arq::Life;
use tora_core::Input;
use tora_height::Id;

/// The last session in which the link to a neighbour came up; `None` if the list has none.
fn life_at(lives: &[(Id, Life)], k: Id) -> Option<Life>
    ensures { result ≡ life_at lives.now k }
{
    lives.iter().find(|row| row.0 == k).map(|row| row.1)
}

/// Removes the session of a link.
fn forget(lives: &mut Vec<(Id, Life)>, k: Id)
    ensures { lives.new.items ≡ filter (is_elsewhere k) lives.old.items }
{
    lives.retain(|row| row.0 != k);
}

/// Stores the session in which a link comes up, in place of an earlier one. With `None` nothing changes.
fn note_life(lives: &mut Vec<(Id, Life)>, k: Id, life: Option<Life>) -> Result<(), AllocError>
    ensures { OnOk result (lives.new.items ≡ with_life lives.old.items k life) }
{
    match life {
        None => Ok(()),
        Some(life) => {
            forget(lives, k);
            lives.push((k, life))?;
            Ok(())
        }
    }
}

/// Stores the session in which an input brings a link up, if its item reported it as `life`. For another input nothing
/// changes.
pub fn note_lives(
    lives: &mut Vec<(Id, Life)>,
    input: &Input,
    life: Option<Life>,
) -> Result<(), AllocError>
    ensures { OnOk result (lives.new.items ≡ lives_after life lives.old.items input.now) }
{
    match input {
        Input::LinkUp(k) => note_life(lives, *k, life),
        Input::LinkDown(_) => Ok(()),
        Input::Packet(_, _) => Ok(()),
        Input::Need(_) => Ok(()),
    }
}

/// Appends the record `T up N K X Y` to a text, where X and Y are the numbers of the session; nothing for `None`. The
/// error says that memory ran out.
#[tactic(auto, unfolding(crate::specs::TraceRecords::up_record))]
fn write_up(out: &mut String, now: u64, n: Id, k: Id, life: Option<Life>) -> Result<(), AllocError>
    ensures { OnOk result (string_bytes out.new ≡ string_bytes out.old ++ up_of now n k life) }
{
    match life {
        None => Ok(()),
        Some(life) => {
            let (own, peer) = (life.own, life.peer);
            writeln!(out, "{now} up {n} {k} {own} {peer}")
        }
    }
}

/// Appends the record `T down N K X Y` to a text, where X and Y are the numbers of the session; nothing for `None`. The
/// error says that memory ran out.
#[tactic(auto, unfolding(crate::specs::TraceRecords::down_record))]
fn write_down(
    out: &mut String,
    now: u64,
    n: Id,
    k: Id,
    life: Option<Life>,
) -> Result<(), AllocError>
    ensures { OnOk result (string_bytes out.new ≡ string_bytes out.old ++ down_of now n k life) }
{
    match life {
        None => Ok(()),
        Some(life) => {
            let (own, peer) = (life.own, life.peer);
            writeln!(out, "{now} down {n} {k} {own} {peer}")
        }
    }
}

/// Appends the record `T up N K X Y` or `T down N K X Y` of an input that brings a link up or down to a text. Nothing
/// for another input, or if `lives` has no session of the link.
pub fn write_link(
    out: &mut String,
    now: u64,
    n: Id,
    lives: &[(Id, Life)],
    input: &Input,
) -> Result<(), AllocError>
    ensures { OnOk result (string_bytes out.new ≡ string_bytes out.old ++ link_record now n lives.now input.now) }
{
    match input {
        Input::LinkUp(k) => write_up(out, now, n, *k, life_at(lives, *k)),
        Input::LinkDown(k) => write_down(out, now, n, *k, life_at(lives, *k)),
        Input::Packet(_, _) => Ok(()),
        Input::Need(_) => Ok(()),
    }
}
