//! A router: a node without threads, sockets and clocks.
ghost use Rattle.std.specs.Prelude.{◌≡◌, ◌<◌, ◌≤◌, ◌++◌, ◌*◌, ℕ, Bool, true, false, Err, IfErr, IfOk, IfNone, IfSome};
ghost use Rattle.std.specs.Prelude.{MatchOption, None, OnOk, Some, drop, is_some, length, map, option_map};
ghost use Rattle.std.specs.Prelude.{string_bytes, slice_get};
ghost use Rattle.tora_arq.specs.Settings.{IsTimes};
ghost use Rattle.tora_core.specs.CoreRun.{CoreView, entry_of, flag_of, height_of, hop_of};
ghost use Rattle.tora_core.specs.ShowText.{show_text};
ghost use Rattle.tora_frame.specs.FrameGrammar.{frame_reading, frame_spelling};
ghost use Rattle.tora_frame.specs.FrameParts.{FrameParts};
ghost use Rattle.tora_seat.specs.Rows.{SeatView};
ghost use Rattle.tora_router.specs.Links.{at_place, event_of, first_in, to_peer, tally_of};
ghost use Rattle.tora_router.specs.Refusals.{router_refusal};
ghost use Rattle.tora_router.specs.Router.{RouterView, router_of, first_router, router_with, after_item};
ghost use Rattle.tora_router.specs.Router.{after_first_event, after_events, settled, ticked_at, ticked_before};
ghost use Rattle.tora_router.specs.Router.{after_tick, intake_from, after_datagram, need_result, after_need, after_cut};
ghost use Rattle.tora_router.specs.Router.{frame_in, after_poll_datagram, change_in, after_poll_change, IsNextDue};
ghost use Rattle.tora_router.specs.Router.{serving, datagram_of, result_of};

use crate::hop::{Hop, poll_hops};
use crate::links::Links;
use crate::making::{early_refusal, new_hops, new_links};
use crate::{Change, Config, Intake, RouterError, Tally};
use std::alloc::Global;
use std::marker::Model;
use tora_arq::Times;
use tora_core::{Core, CoreError, StepError};
use tora_frame::LONGEST_FRAME;
use tora_height::{Entry, Id};
use tora_seat::{Answer, CoreSeat, Item, What, what_of};

/// A node without threads, sockets and clocks.
///
/// Its host passes in what happens, and polls what to do. With the tick `now` of 100 ms a host does this, in this
/// order:
/// 1. `on_datagram` with each received datagram and the neighbour that sent it;
/// 2. `on_tick`, at the tick `next_due` at the latest;
/// 3. `need` if a route is wanted, `cut` if a link was lost;
/// 4. `poll_datagram` until it gives `None`, and sends each datagram;
/// 5. `poll_change` until it gives `None`, if it wants to see changes.
///
/// Any other order is safe. A call handles its input completely before it returns, so nothing waits inside between two
/// calls. Only `new` and `show` take memory. A router never uses a session number twice. The host stores `next_life`,
/// and gives the node's next router a `first_life` above every number that was used.
///
/// ```rust
/// let config = Config { me: 1, times: Times::STANDARD, erasure: Erasure::Plain, limits: CoreLimits::STANDARD };
/// let mut router = Router::new(alloc, &config, &[2], &[9], 1)?;
/// let mut room = [0u8; LONGEST_FRAME];
/// let mut now = 0;
/// router.on_tick(now);
/// while let Some((peer, length)) = router.poll_datagram(now, &mut room) {
///     send(peer, &room[..length]);
/// }
/// now = router.next_due();
/// ```
#[derive(Drop)]
pub struct Router {
    seat: CoreSeat,
    links: Links,
    hops: Vec<Hop>,
    next_life: u64,
}

impl Model for Router {
    ghost use Rattle.tora_router.specs.Router.{RouterView, IsRouter};

    ghost Value = { RouterView };

    ghost view = { λ r. record { seat = r.seat; links = r.links; hops = r.hops.items; next_life = r.next_life } };

    ghost invariant = { λ r. IsRouter r.seat r.links };
}

impl Router {
    /// The router of node `config.me` with these neighbours and destinations, in any order. Its link ends are closed
    /// until the first tick. Their session numbers are `first_life` (1 to `GREATEST_LIFE`) and those above it: the host
    /// must ensure that no end of this node ever had one of them.
    ///
    /// # Errors
    /// In this order: `Id` if the number of a node is 0, `Times` if a time is 0, `Life` if `first_life` is out of
    /// range, `TooMany` if there are more neighbours or destinations than `config.limits` allow, `Repeated` if one is
    /// named twice, `OwnId` if the node is among its neighbours, `Memory`.
    pub fn new(
        alloc: Global,
        config: &Config,
        neighbours: &[Id],
        destinations: &[Id],
        first_life: u64,
    ) -> Result<Router, RouterError>
        ensures value { IfOk result (λ router. router_of router ≡ first_router config.now neighbours.now
            destinations.now first_life) }
        ensures accepted { OnOk result (router_refusal config.now neighbours.now destinations.now first_life ≡ None) }
        ensures refused { MatchOption (router_refusal config.now neighbours.now destinations.now first_life)
            (IfErr result (λ e. e ≡ RouterError.Memory)) (λ e. result ≡ Err e) }
    {
        let _config = *config;
        if let Some(error) = early_refusal(config, neighbours, destinations, first_life) {
            return Err(error);
        }
        let (me, erasure, limits) = (config.me, config.erasure, config.limits);
        match Core::with_erasure(alloc, erasure, limits, me, neighbours, destinations) {
            Ok(core) => match Router::with_core(alloc, core, config.times, first_life) {
                Some(router) => Ok(router),
                None => Err(RouterError::Memory),
            },
            Err(error) => Err(RouterError::of_core(error)),
        }
    }

    /// The router of a core with no link up; `None` if memory runs out.
    fn with_core(alloc: Global, core: Core, times: Times, first_life: u64) -> Option<Router>
        requires { IsTimes times }
        ensures { IfSome result (λ router. router_of router ≡ router_with core times first_life) }
    {
        let Some(links) = new_links(alloc, &core, times) else {
            return None;
        };
        let Ok(hops) = new_hops(alloc, core.destinations()) else {
            return None;
        };
        let Ok(seat) = CoreSeat::new(alloc, core) else {
            return None;
        };
        Some(Router {
            seat,
            links,
            hops,
            next_life: first_life,
        })
    }

    /// Serves an item. The link ends take the outbound messages at once.
    fn serve(&mut self, item: &Item) -> Answer
        ensures served { router_of self.new ≡ after_item (router_of self.old) item.entry.now }
        ensures answer { result ≡ (serving (router_of self.old) item.entry.now).answer }
    {
        self.seat.serve(item, &mut self.links)
    }

    /// Serves the first event of the first link that has one, and returns whether there was one.
    #[inline(never)]
    fn serve_first_event(&mut self, now: u64) -> bool
        ensures served { router_of self.new ≡ after_first_event now (router_of self.old) }
        ensures answer { result ≡ is_some (first_in event_of self.old.links) }
    {
        let Some((seat, event)) = self.links.poll() else {
            return false;
        };
        let what = what_of(event);
        let item = Item {
            seat,
            number: 0,
            now,
            what,
        };
        let _ = self.serve(&item);
        true
    }

    /// As `serve_first_event`, but tests first whether there is an event; after most calls there is none.
    #[inline(always)]
    fn serve_event(&mut self, now: u64) -> bool
        ensures served { router_of self.new ≡ after_first_event now (router_of self.old) }
        ensures answer { result ≡ is_some (first_in event_of self.old.links) }
    {
        if !self.links.has_event() {
            return false;
        }
        self.serve_first_event(now)
    }

    /// Serves events until none waits.
    #[inline(always)]
    fn settle(&mut self, now: u64)
        ensures settled { router_of self.new ≡ settled now (router_of self.old) }
        ensures none { first_in event_of self.new.links ≡ None }
    {
        'events: while self.serve_event(now) {}
    }

    /// Opens the end of the link at a place with the next session number, if it is closed and the number is at most
    /// `GREATEST_LIFE`. Then passes the tick to the end.
    fn tick_at(&mut self, place: usize, now: u64)
        requires { place < length self.old.links }
        ensures ticked { router_of self.new ≡ ticked_at place now (router_of self.old) }
        ensures count { length self.new.links ≡ length self.old.links }
    {
        if self.links.tick(place, self.next_life, now) {
            self.next_life += 1;
        }
    }

    /// Applies the tick `now` of 100 ms: opens each closed link end with the next session number, unless the numbers up
    /// to `GREATEST_LIFE` are used up, and then ends the sessions that have timed out.
    pub fn on_tick(&mut self, now: u64)
        ensures router { router_of self.new ≡ after_tick now (router_of self.old) }
        ensures settled { first_in event_of self.new.links ≡ None }
    {
        for place in 0..self.links.count() {
            self.tick_at(place, now);
        }
        self.settle(now);
    }

    /// Receives a datagram of any bytes from a neighbour at the tick `now`. A datagram of a node that is not a
    /// neighbour changes nothing (`NoNeighbour`).
    pub fn on_datagram(&mut self, peer: Id, datagram: &[u8], now: u64) -> Intake
        ensures intake { result ≡ intake_from peer now (frame_reading datagram.now) (router_of self.old) }
        ensures router { router_of self.new
            ≡ after_datagram peer now (frame_reading datagram.now) (router_of self.old) }
        ensures settled { first_in event_of self.old.links ≡ None → first_in event_of self.new.links ≡ None }
    {
        let Some(place) = self.links.place(peer) else {
            return Intake::NoNeighbour;
        };
        let intake = self.links.hear(place, datagram, now);
        self.settle(now);
        intake
    }

    /// Asks for a route to a destination.
    ///
    /// # Errors
    /// `UnknownDestination` if the table does not have it.
    pub fn need(&mut self, destination: Id, now: u64) -> Result<(), StepError>
        ensures answer { result ≡ need_result (router_of self.old) destination now }
        ensures router { router_of self.new ≡ after_need destination now (router_of self.old) }
        ensures settled { first_in event_of self.new.links ≡ None }
    {
        let item = Item {
            seat: self.links.count(),
            number: 0,
            now,
            what: What::Need(destination),
        };
        let answer = self.serve(&item);
        self.settle(now);
        result_of(answer)
    }

    /// Ends the session of the link to a neighbour, if it has one, for instance because the radio lost the neighbour.
    /// Returns whether there is such a neighbour.
    pub fn cut(&mut self, peer: Id, now: u64) -> bool
        ensures answer { result ≡ is_some (first_in (to_peer peer) self.old.links) }
        ensures router { router_of self.new ≡ after_cut peer now (router_of self.old) }
        ensures settled { first_in event_of self.old.links ≡ None → first_in event_of self.new.links ≡ None }
    {
        let Some(place) = self.links.place(peer) else {
            return false;
        };
        self.links.cut(place);
        self.settle(now);
        true
    }

    /// Writes the next datagram to send at the tick `now` to the front of `out`, which has at least `LONGEST_FRAME`
    /// bytes. Returns the neighbour that it is for, and its length in bytes. `None` only if none is due; nothing
    /// changes then.
    ///
    /// The datagram counts as sent.
    pub fn poll_datagram(&mut self, now: u64, out: &mut [u8]) -> Option<(Id, usize)>
        requires { LONGEST_FRAME ≤ length out.old }
        ensures datagram { result ≡ option_map (datagram_of (router_of self.old)) (frame_in now (router_of self.old)) }
        ensures bytes { IfSome (frame_in now (router_of self.old)) (λ (found : ℕ × FrameParts).
            out.new ≡ frame_spelling found.1 ++ drop (length (frame_spelling found.1)) out.old) }
        ensures within { IfSome result (λ (sent : ℕ × ℕ). sent.1 ≤ length out.new) }
        ensures router { router_of self.new ≡ after_poll_datagram now (router_of self.old) }
        ensures none { IfNone result ((self.new ≡ self.old) × (out.new ≡ out.old)) }
    {
        let Some((place, count)) = self.links.send(now, out) else {
            return None;
        };
        Some((self.links.peer(place), count))
    }

    /// Returns the next change that was not polled yet: first those of links, then those of next hops. `None` if there
    /// is none.
    ///
    /// For a link it is the latest change only. For a destination it is the next hop, if it differs from the one polled
    /// last.
    pub fn poll_change(&mut self) -> Option<Change>
        ensures change { result ≡ change_in (router_of self.old) }
        ensures router { router_of self.new ≡ after_poll_change (router_of self.old) }
    {
        if let Some((_, change)) = self.links.poll_news() {
            return Some(change);
        }
        let (_, change) = poll_hops(&mut self.hops, self.seat.core())?;
        Some(change)
    }

    /// The tick from which on a datagram is due or `on_tick` changes something, if there is no other call. It may be
    /// past. It is 0 if that is so at every tick, and 2^64 - 1 if it is so at no earlier tick.
    pub fn next_due(&self) -> u64
        ensures { IsNextDue (router_of self.now) result }
    {
        self.links.next_due(self.next_life)
    }

    /// The session number for the end that is opened next. No link end of this router has had it or a greater one. It
    /// is `GREATEST_LIFE` + 1 if the numbers are used up.
    pub fn next_life(&self) -> u64
        ensures { result ≡ self.now.next_life }
    {
        self.next_life
    }

    /// The core, for reading its state.
    pub fn core(&self) -> &Core
        ensures { result.now ≡ self.now.seat.core }
    {
        self.seat.core()
    }

    /// The neighbours, in ascending order.
    pub fn neighbours(&self) -> &[Id]
        ensures { result.now ≡ self.now.seat.core.neighbours }
    {
        self.seat.core().neighbours()
    }

    /// The node's own height for a destination, `Some(None)` if it is NULL; `None` if the table does not have the
    /// destination.
    pub fn height(&self, destination: Id) -> Option<Entry>
        ensures { result ≡ height_of self.now.seat.core destination }
    {
        self.seat.core().height(destination)
    }

    /// The node's entry for a destination and a neighbour: the height that the neighbour sent, `Some(None)` if it is
    /// NULL. `None` if the table does not have the destination, or the link to the neighbour is not up.
    pub fn entry(&self, destination: Id, neighbour: Id) -> Option<Entry>
        ensures { result ≡ entry_of self.now.seat.core destination neighbour }
    {
        self.seat.core().entry(destination, neighbour)
    }

    /// The next hop to a destination; `None` if there is none, or the table does not have the destination.
    pub fn next_hop(&self, destination: Id) -> Option<Id>
        ensures { result ≡ hop_of self.now.seat.core destination }
    {
        self.seat.core().next_hop(destination)
    }

    /// Whether a route to a destination is required; `false` if the table does not have the destination.
    pub fn flag(&self, destination: Id) -> bool
        ensures { result ≡ flag_of self.now.seat.core destination }
    {
        self.seat.core().flag(destination)
    }

    /// The counts of datagrams from a neighbour, by outcome; `None` if `peer` is no neighbour.
    pub fn tally(&self, peer: Id) -> Option<Tally>
        ensures { result ≡ tally_of peer self.now.links }
    {
        let place = self.links.place(peer)?;
        Some(self.links.tally(place))
    }

    /// The core as text, as `Core::show` returns it.
    ///
    /// # Errors
    /// `Memory`.
    pub fn show(&self, alloc: Global) -> Result<String, CoreError>
        ensures text { IfOk result (λ text. string_bytes text ≡ show_text self.now.seat.core) }
        ensures memory { IfErr result (λ e. e ≡ CoreError.Memory) }
    {
        self.seat.core().show(alloc)
    }
}

/// The result of `Router::need` by the answer to its item: the cause of a refusal, otherwise `Ok`.
fn result_of(answer: Answer) -> Result<(), StepError>
    ensures { result ≡ result_of answer }
{
    match answer {
        Answer::Nothing => Ok(()),
        Answer::Refused(error) => Err(error),
        Answer::Show => Ok(()),
        Answer::Quit => Ok(()),
    }
}
