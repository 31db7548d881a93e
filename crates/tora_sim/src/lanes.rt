//! The queues from a node's core to its neighbours (its outbound queues).
ghost use Rattle.std.specs.Prelude.{◌≡◌, ◌+◌, ◌<◌, ◌≤◌, ◌++◌, ◌∷◌, [], ⊤, Some, length, slice_get, slice_set, OnOk};
ghost use Rattle.std.specs.Prelude.{IfErr, MatchOption};
ghost use Rattle.tora_sim.specs.Lane.{AreWhole};
ghost use Rattle.tora_sim.specs.Lanes.{lanes_of, bare_between, AreAlike, AreOthersKept, HasRoomAt, HaveRoom};
ghost use Rattle.tora_sim.specs.Links.{LinkView};
ghost use Rattle.tora_sim.specs.Turns.{IsNoted};

use crate::SimError;
use crate::link_slot::LinkSlot;
use crate::store::Pool;
use std::marker::Model;
use tora_seat::{Cargo, OutLanes, Stepped};

/// The outbound queues of one node. It holds all link ends; those of the node are adjacent, in the order of its
/// neighbours. The queues and the pool have memory for all that one item of the node can put.
#[derive(Drop)]
pub struct NodeLanes {
    links: Vec<LinkSlot>,
    first: usize,
    count: usize,
    pool: Pool,
}

impl Model for NodeLanes {
    ghost use Rattle.std.specs.Prelude.{◌+◌, ◌≤◌, length};
    ghost use Rattle.tora_sim.specs.Lanes.{LanesView, lanes_of, bare_between, HaveRoom, AreFitting};

    ghost Value = { LanesView };

    ghost view = { λ l. lanes_of (bare_between l.first l.count l.links.items) l.first l.count };

    ghost invariant = { λ l. (l.first + l.count ≤ length l.links.items) × HaveRoom l.links.items l.first l.count
        × AreFitting l.links.items l.first l.count l.pool };
}

impl OutLanes for NodeLanes {
    ghost use Rattle.tora_sim.specs.Lanes.{DidOffer};

    ghost count = { λ l. l.count };

    ghost did_offer = { DidOffer };

    fn offer(&mut self, place: usize, cargo: Cargo) -> bool {
        let at = self.first + place;
        self.links[at].offer(cargo, &mut self.pool, place)
    }
}

impl NodeLanes {
    /// The outbound queues of the node whose `count` ends begin at the index `first`.
    #[inline(always)]
    pub fn new(links: Vec<LinkSlot>, first: usize, count: usize, pool: Pool) -> NodeLanes
        requires within { first + count ≤ length links.items }
        requires room { HaveRoom links.items first count }
        requires whole { AreWhole pool count }
        ensures { result ≡ lanes_of (bare_between first count links.items) first count }
    {
        NodeLanes {
            links,
            first,
            count,
            pool,
        }
    }

    /// Returns all link ends. If the core took a packet (`stepped`), it is recorded at the node's end with the index
    /// `place`. The pool of lists goes into `pool`.
    #[inline(always)]
    pub fn into_links(
        self,
        place: usize,
        stepped: Option<Stepped>,
        pool: &mut Pool,
    ) -> Vec<LinkSlot>
        requires { MatchOption stepped ⊤ (λ _. place < self.count) }
        ensures { IsNoted self place stepped (bare_between self.first self.count result.items) }
    {
        let NodeLanes {
            mut links,
            first,
            count: _,
            pool: lists,
        } = self;
        *pool = lists;
        let Some(step) = stepped else {
            return links;
        };
        let at = first + place;
        note(&mut links, at, &step);
        links
    }
}

/// Records, at the end with the index `at`, a packet that the node's core took.
fn note(links: &mut Vec<LinkSlot>, at: usize, step: &Stepped)
    requires within { at < length links.old.items }
    requires room { HasRoomAt links.old.items at }
    ensures { (link : LinkView) × (slice_get links.old.items at ≡ Some link)
        × (links.new.items ≡ slice_set links.old.items at (record link {
          steps =
              link.steps ++ record { life = step.now.life; packet = step.now.packet } ∷ [];
        })) }
{
    links[at].note_step(step.life, step.packet);
}

/// Allocates memory for all that one item can put at the `count` ends from the index `first` on, and in as many lists
/// of the pool.
///
/// # Errors
/// `Memory`. The ends do not change.
pub fn make_room(
    links: &mut Vec<LinkSlot>,
    pool: &mut Pool,
    first: usize,
    count: usize,
) -> Result<(), SimError>
    requires { first + count ≤ length links.old.items }
    ensures same { AreAlike links.old.items links.new.items }
    ensures room { OnOk result (HaveRoom links.new.items first count) }
    ensures others { AreOthersKept links.old.items links.new.items first count }
    ensures whole { OnOk result (AreWhole pool.new count) }
    ensures memory { IfErr result (λ e. e ≡ SimError.Memory) }
{
    if pool.make_whole(count).is_err() {
        return Err(SimError::Memory);
    }
    for place in 0..count {
        let at = first + place;
        links[at].make_room()?;
    }
    Ok(())
}
