//! The links of a world, and the destinations of its nodes' tables.
ghost use Rattle.std.specs.Prelude.{◌≡◌, ◌⊎◌, ◌++◌, ◌∷◌, [], None, Some, IfErr, IfOk, OnOk, true, false, MatchBool};
ghost use Rattle.std.specs.Prelude.{length, map, nat_lt};
ghost use Rattle.std.specs.List.{list_any};
ghost use Rattle.tora_core.specs.Numbers.{has_number};
ghost use Rattle.tora_world.specs.Topology.{chosen_by, erasure_at, is_node, version_at, topology_fault};
ghost use Rattle.tora_world.specs.Topology.{topology_fault_within, most_neighbours, nodes_in, neighbours_of};
ghost use Rattle.tora_world.specs.Topology.{different_neighbours, has_too_many_within, has_own_link};
ghost use Rattle.tora_sim.specs.Topologies.{topology_of, with_olds, with_old, link_in, links_in, AreNumbers};
ghost use Rattle.tora_sim.specs.Topologies.{IsTopology};

use crate::SimError;
use crate::duplicates::has_repeated_link;
use crate::link_nodes::{has_many_neighbours, names_node, neighbours_of, nodes_of};
use arrayvec::ArrayVec;
use std::alloc::{AllocError, Global};
use std::marker::Model;
use tora_core::numbers::{has_number, has_repeat};
use tora_core::{CoreError, Erasure, GREATEST_NEIGHBOURS};
use tora_frame::Version;
use tora_height::Id;
use tora_world::{GREATEST_NODES, Limits};

/// The links of a world, and the destinations of every node's table.
///
/// Within the standard limits there are at most 64 nodes, each with at most 32 neighbours, and at most 64 destinations.
/// No link, either way round, and no destination is named twice, and no link leads from a node to itself. No number is
/// 0. The link ends of some nodes may speak only version 1 of frames.
#[derive(Debug, Drop)]
pub struct Topology {
    links: Vec<(Id, Id)>,
    destinations: Vec<Id>,
    /// The nodes whose link ends speak only version 1 of frames.
    olds: ArrayVec<Id, GREATEST_NODES>,
    /// How a node without a choice of its own treats erased levels.
    erasure: Erasure,
    /// The choices of single nodes; the last choice for a node counts.
    choices: Vec<(Id, Erasure)>,
}

impl Model for Topology {
    ghost use Rattle.tora_world.specs.Topology.{Topology};
    ghost use Rattle.tora_sim.specs.Topologies.{topology_of, with_choices, with_olds, IsTopology};

    ghost Value = { Topology };

    ghost view = { λ t. with_choices (with_olds (topology_of t.links.items t.destinations.items) t.olds.items) t.erasure
        t.choices.items };

    ghost invariant = { λ t. IsTopology (with_choices (with_olds (topology_of t.links.items t.destinations.items)
        t.olds.items) t.erasure t.choices.items) };
}

impl Topology {
    /// The topology of these links, each between two nodes, and these destinations.
    ///
    /// The nodes are those that the links name. The lists are in any order, and no number in them is 0. They are
    /// copied.
    ///
    /// # Errors
    /// In this order: `TooMany` if there are more than 64 nodes, more than 32 neighbours of a node, or more than 64
    /// destinations; `Repeated` if a link, either way round, or a destination is named twice; `OwnId` if a link leads
    /// from a node to itself; `Memory`.
    pub fn new(
        alloc: Global,
        links: &[(Id, Id)],
        destinations: &[Id],
    ) -> Result<Topology, CoreError>
        requires { AreNumbers (topology_of links.now destinations.now) }
        ensures made { IfOk result (λ t. t ≡ topology_of links.now destinations.now) }
        ensures sound { IfOk result (λ _. topology_fault (topology_of links.now destinations.now) ≡ None) }
        ensures fault { IfErr result (λ e. ((e ≡ CoreError.Memory)
            × (topology_fault (topology_of links.now destinations.now) ≡ None))
            ⊎ (topology_fault (topology_of links.now destinations.now) ≡ Some e)) }
    {
        Topology::with_limits(alloc, Limits::STANDARD, links, destinations)
    }

    /// The topology of these links and destinations, as `new` makes it, but within these limits.
    ///
    /// # Errors
    /// In this order: `TooMany` if there are more nodes, neighbours of a node or destinations than the limits allow;
    /// `Repeated` if a link, either way round, or a destination is named twice; `OwnId` if a link leads from a node to
    /// itself; `Memory`.
    pub fn with_limits(
        alloc: Global,
        limits: Limits,
        links: &[(Id, Id)],
        destinations: &[Id],
    ) -> Result<Topology, CoreError>
        requires { AreNumbers (topology_of links.now destinations.now) }
        ensures made { IfOk result (λ t. t ≡ topology_of links.now destinations.now) }
        ensures sound { IfOk result (λ _.
            topology_fault_within limits (topology_of links.now destinations.now) ≡ None) }
        ensures fault { IfErr result (λ e. ((e ≡ CoreError.Memory)
            × (topology_fault_within limits (topology_of links.now destinations.now) ≡ None))
            ⊎ (topology_fault_within limits (topology_of links.now destinations.now) ≡ Some e)) }
    {
        if let Some(error) = topology_fault_within(limits, links, destinations) {
            return Err(error);
        }
        let Ok(links) = Vec::from_slice(alloc, links) else {
            return Err(CoreError::Memory);
        };
        let Ok(destinations) = Vec::from_slice(alloc, destinations) else {
            return Err(CoreError::Memory);
        };
        Ok(Topology {
            links,
            destinations,
            olds: ArrayVec::new(),
            erasure: Erasure::Plain,
            choices: Vec::new(alloc),
        })
    }

    /// Makes the link ends of a node speak only version 1 of frames.
    ///
    /// # Errors
    /// `NoNode` if there is no such node. Nothing changes then.
    pub fn set_old(&mut self, n: Id) -> Result<(), SimError>
        ensures ok { OnOk result ((is_node self.old n ≡ true) × (self.new
            ≡ with_olds self.old (with_old n self.old.olds))) }
        ensures err { IfErr result (λ e. (e ≡ SimError.NoNode) × (is_node self.old n ≡ false) × (self.new ≡ self.old)) }
    {
        if !self.has_node(n) {
            return Err(SimError::NoNode);
        }
        if !has_number(n, self.olds.as_slice()) {
            self.olds.push(n);
        }
        Ok(())
    }

    /// Sets how all nodes treat erased levels, except those with a choice by `choose`. Without this call it is `Plain`.
    pub fn set_erasure(&mut self, erasure: Erasure)
        ensures { self.new ≡ record self.old { erasure = erasure } }
    {
        self.erasure = erasure;
    }

    /// Sets how one node treats erased levels, in place of any earlier choice.
    ///
    /// # Errors
    /// `NoNode` if there is no such node, and `Memory`. Nothing changes then.
    pub fn choose(&mut self, n: Id, erasure: Erasure) -> Result<(), SimError>
        ensures ok { OnOk result ((is_node self.old n ≡ true) × (self.new
            ≡ record self.old { choices = self.old.choices ++ (n, erasure) ∷ [] })) }
        ensures err { IfErr result (λ e. (self.new ≡ self.old) × MatchBool (is_node self.old n) (e ≡ SimError.Memory) (e
            ≡ SimError.NoNode)) }
    {
        if !self.has_node(n) {
            return Err(SimError::NoNode);
        }
        match self.choices.push((n, erasure)) {
            Ok(()) => Ok(()),
            Err(_) => Err(SimError::Memory),
        }
    }

    /// How a node treats erased levels: by the last `choose` for it, otherwise as `set_erasure` says.
    pub fn erasure_of(&self, n: Id) -> Erasure
        ensures { result ≡ erasure_at self.now n }
    {
        self.choices.iter().fold(
            self.erasure,
            |erasure, choice| chosen_by(n, erasure, *choice),
        )
    }

    /// The nodes whose link ends speak only version 1 of frames.
    pub fn olds(&self) -> &[Id]
        ensures { result.now ≡ self.now.olds }
    {
        self.olds.as_slice()
    }

    /// The links, in the order given.
    pub fn links(&self) -> &[(Id, Id)]
        ensures { map link_in result.now ≡ self.now.links }
    {
        self.links.as_slice()
    }

    /// The destinations, in the order given.
    pub fn destinations(&self) -> &[Id]
        ensures { result.now ≡ self.now.destinations }
    {
        self.destinations.as_slice()
    }

    /// Whether a node has this number.
    pub fn has_node(&self, n: Id) -> bool
        ensures { result ≡ is_node self.now n }
    {
        names_node(n, &self.links)
    }

    /// Whether this is one of the destinations.
    pub fn has_destination(&self, d: Id) -> bool
        ensures { result ≡ has_number d self.now.destinations }
    {
        has_number(d, self.destinations())
    }

    /// The nodes, in ascending order.
    pub(crate) fn nodes(&self) -> ArrayVec<Id, GREATEST_NODES>
        ensures items { result.items ≡ nodes_in self.now.links }
        ensures kept { IsTopology self.now }
    {
        match nodes_of(&self.links) {
            Some(nodes) => nodes,
            None => unreachable!(),
        }
    }

    /// The neighbours of a node, in ascending order.
    pub(crate) fn neighbours(&self, n: Id) -> ArrayVec<Id, GREATEST_NEIGHBOURS>
        ensures items { result.items ≡ neighbours_of self.now n }
        ensures kept { IsTopology self.now }
    {
        neighbours_of(&self.links, n)
    }

    /// The newest version of frames that the link ends of a node speak.
    pub(crate) fn version_of(&self, n: Id) -> Version
        ensures { result ≡ version_at self.now n }
    {
        if has_number(n, self.olds.as_slice()) {
            Version::One
        } else {
            Version::Two
        }
    }

    /// A copy of the topology.
    ///
    /// # Errors
    /// Memory ran out.
    pub(crate) fn copied(&self, alloc: Global) -> Result<Topology, AllocError>
        ensures { IfOk result (λ t. t ≡ self.now) }
    {
        let links = Vec::from_slice(alloc, &self.links)?;
        let destinations = Vec::from_slice(alloc, &self.destinations)?;
        let mut olds = ArrayVec::new();
        let Ok(()) = olds.try_extend_from_slice(self.olds.as_slice()) else {
            unreachable!()
        };
        let choices = Vec::from_slice(alloc, &self.choices)?;
        Ok(Topology {
            links,
            destinations,
            olds,
            erasure: self.erasure,
            choices,
        })
    }
}

/// The node's treatment of erased levels after one more choice.
fn chosen_by(n: Id, erasure: Erasure, choice: (Id, Erasure)) -> Erasure
    ensures { result ≡ chosen_by n erasure choice }
{
    if choice.0 == n { choice.1 } else { erasure }
}

// ---- why a topology is refused

/// The error of `Topology::new` for these links and destinations, apart from `Memory`; `None` if there is none.
pub fn topology_fault(links: &[(Id, Id)], destinations: &[Id]) -> Option<CoreError>
    ensures { result ≡ topology_fault (topology_of links.now destinations.now) }
{
    topology_fault_within(Limits::STANDARD, links, destinations)
}

/// The error of `Topology::with_limits` for these limits, links and destinations, apart from `Memory`; `None` if there
/// is none.
pub fn topology_fault_within(
    limits: Limits,
    links: &[(Id, Id)],
    destinations: &[Id],
) -> Option<CoreError>
    ensures { result ≡ topology_fault_within limits (topology_of links.now destinations.now) }
{
    if has_too_many(limits, links, destinations) {
        return Some(CoreError::TooMany);
    }
    if has_repeated_link(links) || has_repeat(destinations) {
        return Some(CoreError::Repeated);
    }
    if has_own_link(links) {
        return Some(CoreError::OwnId);
    }
    None
}

/// Whether there are more nodes, neighbours of a node, or destinations than the limits allow.
fn has_too_many(limits: Limits, links: &[(Id, Id)], destinations: &[Id]) -> bool
    ensures { result ≡ has_too_many_within limits (topology_of links.now destinations.now) }
{
    if destinations.len() > limits.most_destinations() {
        return true;
    }
    let most = limits.most_nodes();
    match nodes_of(links) {
        None => true,
        Some(nodes) => nodes.len() > most
            || some_has_many_neighbours(limits, nodes.as_slice(), links),
    }
}

/// Whether one of the nodes has more neighbours than the limits allow.
fn some_has_many_neighbours(limits: Limits, nodes: &[Id], links: &[(Id, Id)]) -> bool
    ensures { result ≡ list_any (λ n. nat_lt (most_neighbours limits)
        (length (different_neighbours n (links_in links.now)))) nodes.now }
{
    nodes.iter().any(|n| has_many_neighbours(limits.most_neighbours(), *n, links))
}

/// Whether some link joins a node to itself.
fn has_own_link(links: &[(Id, Id)]) -> bool
    ensures { result ≡ has_own_link (links_in links.now) }
{
    links.iter().any(|link| link.0 == link.1)
}
