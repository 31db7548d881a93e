//! The lines about single nodes, directly after the links.
ghost use Rattle.std.specs.Prelude.{◌≡◌, filter_map, None, Some, IfOk};
ghost use Rattle.tora_script.specs.Marks.{marked, choice_in, choices_in};

use std::alloc::{AllocError, Global};
use tora_core::Erasure;
use tora_height::Id;

/// A line about a node, directly after the links.
#[derive(Clone, Copy, Debug)]
pub enum Mark {
    /// The link ends of the node speak only version 1 of frames.
    Old(Id),
    /// The node's choice of erasure.
    Erases(Id, Erasure),
}

impl Mark {
    /// The node that the line names.
    pub fn node(self) -> Id
        ensures { result ≡ marked self }
    {
        match self {
            Mark::Old(n) => n,
            Mark::Erases(n, _) => n,
        }
    }
}

/// The node and its choice of erasure, if the line is an `erasure` line.
fn choice_in(mark: Mark) -> Option<(Id, Erasure)>
    ensures { result ≡ choice_in mark }
{
    match mark {
        Mark::Old(_) => None,
        Mark::Erases(n, erasure) => Some((n, erasure)),
    }
}

/// The choices of erasure of single nodes, in the order of the lines.
pub fn choices(alloc: Global, marks: &[Mark]) -> Result<Vec<(Id, Erasure)>, AllocError>
    ensures { IfOk result (λ v. v.items ≡ choices_in marks.now) }
{
    marks
        .iter()
        .filter_map(|mark| choice_in(*mark))
        .collect::<Vec<(Id, Erasure)>>(alloc)
}
