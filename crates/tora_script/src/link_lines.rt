//! The lines of a simulation file up to its last link, and the lines about single nodes directly after the links.
ghost use Rattle.std.specs.Prelude.{◌≡◌, ◌<◌, ◌++◌, ◌∷◌, [], ⊤, true, MatchBool, OnOk};
ghost use Rattle.tora_script.specs.Simulator.{ArePairs, AreIds, has_topology};
ghost use Rattle.tora_script.specs.KnownLimits.{is_same_limits, are_limits, has_known_topology};

use crate::node_marks::Mark;
use std::alloc::AllocError;
use tora_height::Id;
use tora_world::Limits;

/// The lines before a simulation runs: the destinations, the links so far, and the lines about nodes so far. No node of
/// a link and no destination is 0.
#[derive(Drop)]
pub struct LinkLines {
    pub dests: Vec<Id>,
    pub links: Vec<(Id, Id)>,
    pub marks: Vec<Mark>,
    /// Limits within which a topology of these links and destinations exists; `None` if none are known.
    pub(crate) known: Option<Limits>,
    ghost dests_are_ids: { ∥ AreIds dests.items ∥₁ },
    ghost links_are_pairs: { ∥ ArePairs links.items ∥₁ },
    ghost topology_is_known: { has_known_topology known links.items dests.items ≡ true },
}

/// Whether two limits are equal.
fn is_same_limits(a: Limits, b: Limits) -> bool
    ensures { result ≡ is_same_limits a b }
{
    a.neighbours == b.neighbours && a.destinations == b.destinations && a.nodes == b.nodes
}

/// Whether `known` has these limits.
fn are_limits(known: Option<Limits>, limits: Limits) -> bool
    ensures { result ≡ are_limits known limits }
{
    match known {
        None => false,
        Some(same) => is_same_limits(same, limits),
    }
}

impl LinkLines {
    /// Appends a link.
    pub fn push(&mut self, link: (Id, Id)) -> Result<(), AllocError>
        requires { (0 < link.0) × (0 < link.1) }
        ensures dests { self.new.dests.items ≡ self.old.dests.items }
        ensures marks { self.new.marks.items ≡ self.old.marks.items }
        ensures links { OnOk result (self.new.links.items ≡ self.old.links.items ++ link ∷ []) }
    {
        self.known = None;
        self.links.push(link)?;
        Ok(())
    }

    /// Appends a line about a node.
    pub fn push_mark(&mut self, mark: Mark) -> Result<(), AllocError>
        ensures dests { self.new.dests.items ≡ self.old.dests.items }
        ensures links { self.new.links.items ≡ self.old.links.items }
        ensures marks { OnOk result (self.new.marks.items ≡ self.old.marks.items ++ mark ∷ []) }
    {
        self.marks.push(mark)?;
        Ok(())
    }

    /// Whether a topology of the links and destinations is known to exist within these limits.
    pub(crate) fn is_known(&self, limits: Limits) -> bool
        ensures { MatchBool result (has_topology limits self.now.links.items self.now.dests.items ≡ true) ⊤ }
    {
        are_limits(self.known, limits)
    }

    /// Stores limits within which a topology of the links and destinations exists. A new link clears them.
    pub(crate) fn note(&mut self, limits: Limits)
        requires { has_topology limits self.old.links.items self.old.dests.items ≡ true }
        ensures dests { self.new.dests.items ≡ self.old.dests.items }
        ensures links { self.new.links.items ≡ self.old.links.items }
        ensures marks { self.new.marks.items ≡ self.old.marks.items }
    {
        self.known = Some(limits);
    }
}
