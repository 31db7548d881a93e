//! The core of a node.
ghost use Rattle.std.specs.Prelude.{◌≡◌, ◌==◌, ◌<◌, ◌≤◌, length, ℕ, All, find, IfErr, IfNone, IfOk, MatchOption, None};
ghost use Rattle.std.specs.Prelude.{OnErr, [], OnOk, option_copied, option_map, IsOk, string_bytes};
ghost use Rattle.tora_core.specs.CoreRun.{downstream_of, link_fault, core_after, core_refusal, core_refusal_within};
ghost use Rattle.tora_core.specs.CoreRun.{entry_of, first_core, first_core_of, flag_of, has_destination, height_of};
ghost use Rattle.tora_core.specs.CoreRun.{hop_of, refusal_of, sends_of, view_of};
ghost use Rattle.tora_core.specs.Limits.{most_destinations, most_neighbours};
ghost use Rattle.tora_core.specs.Numbers.{has_number};
ghost use Rattle.tora_core.specs.Kept.{IsCore, IsInput, destinations_of};
ghost use Rattle.tora_core.specs.ShowText.{show_text};

use crate::destination::Destination;
use crate::erasure::Erasure;
use crate::errors::{CoreError, StepError};
use crate::numbers::{ascending, has_number, has_number_near};
use crate::place_hints::PlaceHints;
use crate::refusals::{core_refusal, is_from};
use crate::show::text_of;
use crate::sorted_lists::{note, sorted};
use crate::table::{TableHints, TableNames, first_views, step};
use crate::{CoreLimits, Input, MOST_DESTINATIONS, Sends};
use arrayvec::ArrayVec;
use std::alloc::Global;
use std::marker::Model;
use tora_height::{Entry, Id};

/// The core of a node: its links, and its view of each destination of its table.
///
/// A core takes one input after another by `step`, each with the tick at which it came. Every input keeps two
/// invariants: a route is required only if the height and every entry are NULL, and a node other than the destination
/// that has a height has a lower neighbour.
#[derive(Debug, Drop)]
pub struct Core {
    pub(crate) me: Id,
    pub(crate) erasure: Erasure,
    pub(crate) neighbours: Vec<Id>,
    pub(crate) up: Vec<Id>,
    pub(crate) destinations: ArrayVec<Id, MOST_DESTINATIONS>,
    pub(crate) views: Vec<Destination>,
    /// Guesses at the places of neighbours and destinations.
    pub(crate) hints: TableHints,
}

impl Model for Core {
    ghost use Rattle.std.specs.Prelude.{◌≡◌, ◌≤◌, length, vec_capacity};
    ghost use Rattle.tora_core.specs.CoreRun.{CoreView};
    ghost use Rattle.tora_core.specs.Kept.{IsCore, destinations_of};
    ghost use Rattle.tora_core.specs.Table.{HavePlaces, views_in};

    ghost Value = { CoreView };

    ghost view = { λ c. record {
      me = c.me;
      erasure = c.erasure;
      neighbours = c.neighbours.items;
      up = c.up.items;
      views = views_in c.views.items;
    } };

    ghost invariant = { λ c. IsCore (record {
      me = c.me;
      erasure = c.erasure;
      neighbours = c.neighbours.items;
      up = c.up.items;
      views = views_in c.views.items;
    })
        × ((c.destinations.items ≡ destinations_of (views_in c.views.items))
        × (length c.neighbours.items ≤ vec_capacity c.up)) × HavePlaces c.neighbours.items c.views.items };
}

impl Core {
    /// The core of node `me`, with its configured neighbours and the destinations of its table. No link is up, and
    /// every height is NULL, except that for the destination `me`, which is (0,0,0,0,`me`).
    ///
    /// There are at most `MOST_NEIGHBOURS` neighbours and `MOST_DESTINATIONS` destinations, in any order; `me` may be a
    /// destination. No number is 0.
    ///
    /// # Errors
    /// In this order: `TooMany` for either list, `Repeated` within one list, `OwnId` if `me` is among the neighbours,
    /// `Memory`.
    pub fn new(
        alloc: Global,
        me: Id,
        neighbours: &[Id],
        destinations: &[Id],
    ) -> Result<Core, CoreError>
        requires me { 0 < me }
        requires neighbours { All (λ k. 0 < k) neighbours.now }
        requires destinations { All (λ d. 0 < d) destinations.now }
        ensures value { IfOk result (λ core. core ≡ first_core me neighbours.now destinations.now) }
        ensures accepted { OnOk result (core_refusal me neighbours.now destinations.now ≡ None) }
        ensures refused { MatchOption (core_refusal me neighbours.now destinations.now)
            (IfErr result (λ e. e ≡ CoreError.Memory)) (λ e. result ≡ Err e) }
        ensures memory { result ≡ Err CoreError.Memory → core_refusal me neighbours.now destinations.now ≡ None }
    {
        Core::with_limits(alloc, CoreLimits::STANDARD, me, neighbours, destinations)
    }

    /// As `new`, but within the given limits.
    ///
    /// # Errors
    /// In this order: `TooMany` if there are more neighbours or destinations than the limits allow, `Repeated` within
    /// one list, `OwnId` if `me` is among the neighbours, `Memory`.
    pub fn with_limits(
        alloc: Global,
        limits: CoreLimits,
        me: Id,
        neighbours: &[Id],
        destinations: &[Id],
    ) -> Result<Core, CoreError>
        requires me { 0 < me }
        requires neighbours { All (λ k. 0 < k) neighbours.now }
        requires destinations { All (λ d. 0 < d) destinations.now }
        ensures value { IfOk result (λ core. core ≡ first_core me neighbours.now destinations.now) }
        ensures accepted { OnOk result (core_refusal_within (most_neighbours limits) (most_destinations limits) me
            neighbours.now destinations.now ≡ None) }
        ensures refused { MatchOption (core_refusal_within (most_neighbours limits) (most_destinations limits) me
            neighbours.now destinations.now)
            (IfErr result (λ e. e ≡ CoreError.Memory)) (λ e. result ≡ Err e) }
        ensures memory { result ≡ Err CoreError.Memory
            → core_refusal_within (most_neighbours limits) (most_destinations limits) me neighbours.now destinations.now
            ≡ None }
    {
        Core::with_erasure(alloc, Erasure::Plain, limits, me, neighbours, destinations)
    }

    /// As `with_limits`, with this choice of how to treat erased levels.
    ///
    /// # Errors
    /// Those of `with_limits`, in the same order.
    pub fn with_erasure(
        alloc: Global,
        erasure: Erasure,
        limits: CoreLimits,
        me: Id,
        neighbours: &[Id],
        destinations: &[Id],
    ) -> Result<Core, CoreError>
        requires me { 0 < me }
        requires neighbours { All (λ k. 0 < k) neighbours.now }
        requires destinations { All (λ d. 0 < d) destinations.now }
        ensures value { IfOk result (λ core. core ≡ first_core_of erasure me neighbours.now destinations.now) }
        ensures accepted { OnOk result (core_refusal_within (most_neighbours limits) (most_destinations limits) me
            neighbours.now destinations.now ≡ None) }
        ensures refused { MatchOption (core_refusal_within (most_neighbours limits) (most_destinations limits) me
            neighbours.now destinations.now)
            (IfErr result (λ e. e ≡ CoreError.Memory)) (λ e. result ≡ Err e) }
        ensures memory { result ≡ Err CoreError.Memory
            → core_refusal_within (most_neighbours limits) (most_destinations limits) me neighbours.now destinations.now
            ≡ None }
    {
        if let Some(error) = core_refusal(limits, me, neighbours, destinations) {
            return Err(error);
        }
        let table = ascending::<MOST_DESTINATIONS>(destinations);
        let Ok(peers) = sorted(alloc, neighbours) else {
            return Err(CoreError::Memory);
        };
        let Ok(views) = first_views(alloc, erasure, me, table.as_slice(), peers.as_slice()) else {
            return Err(CoreError::Memory);
        };
        let Ok(up) = Vec::with_capacity(alloc, neighbours.len()) else {
            return Err(CoreError::Memory);
        };
        let hints = TableHints {
            neighbours: PlaceHints::new(peers.as_slice()),
            destinations: PlaceHints::new(table.as_slice()),
        };
        Ok(Core {
            me,
            erasure,
            neighbours: peers,
            up,
            destinations: table,
            views,
            hints,
        })
    }

    /// The node.
    pub fn me(&self) -> Id
        ensures value { result ≡ self.now.me }
        ensures kept { IsCore self.now }
    {
        self.me
    }

    /// The node's choice of how to treat erased levels.
    pub fn erasure(&self) -> Erasure
        ensures { result ≡ self.now.erasure }
    {
        self.erasure
    }

    /// The configured neighbours, in ascending order.
    pub fn neighbours(&self) -> &[Id]
        ensures { result.now ≡ self.now.neighbours }
    {
        self.neighbours.as_slice()
    }

    /// The destinations of the table, in ascending order.
    pub fn destinations(&self) -> &[Id]
        ensures { result.now ≡ destinations_of self.now.views }
    {
        self.destinations.as_slice()
    }

    /// The neighbours whose link is up, in ascending order.
    pub fn up(&self) -> &[Id]
        ensures { result.now ≡ self.now.up }
    {
        self.up.as_slice()
    }

    /// Whether the link to a neighbour is up; `false` if `k` is no neighbour.
    pub fn is_up(&self, k: Id) -> bool
        ensures { result ≡ has_number k self.now.up }
    {
        has_number(k, self.up.as_slice())
    }

    /// Applies an input at a tick, and returns the packets to broadcast to every neighbour whose link is up.
    ///
    /// `now` is the tick of 100 ms at which the input came. A refused input changes nothing. The call takes no memory.
    ///
    /// # Errors
    /// In this order: `UnknownNeighbour`, `AlreadyUp` (for `LinkUp`), `NotUp` (for `LinkDown` and `Packet`),
    /// `WrongSender` (for an update), `UnknownDestination` (for `Need` only; a packet about such a destination changes
    /// nothing).
    pub fn step(&mut self, input: Input, now: u64) -> Result<Sends, StepError>
        ensures refused { MatchOption (refusal_of self.old input) (IsOk result) (λ e. result ≡ Err e) }
        ensures unchanged { OnErr result (self.new ≡ self.old) }
        ensures core { self.new ≡ core_after self.old input now }
        ensures sends { IfOk result (λ sends. sends.items ≡ sends_of self.old input now) }
    {
        let mut sends = ArrayVec::new();
        self.step_into(&input, now, &mut sends)?;
        Ok(sends)
    }

    /// As `step`, for callers that reuse the list: `sends` is overwritten with the packets to broadcast, and is empty
    /// if the input is refused.
    ///
    /// # Errors
    /// Those of `step`.
    pub fn step_into(&mut self, input: &Input, now: u64, sends: &mut Sends) -> Result<(), StepError>
        ensures refused { MatchOption (refusal_of self.old input.now) (IsOk result) (λ e. result ≡ Err e) }
        ensures unchanged { OnErr result (self.new ≡ self.old) }
        ensures none_sent { OnErr result (sends.new.items ≡ []) }
        ensures core { self.new ≡ core_after self.old input.now now }
        ensures sends { sends.new.items ≡ sends_of self.old input.now now }
    {
        sends.clear();
        if let Some(error) = self.refusal(input) {
            return Err(error);
        }
        let names = TableNames {
            destinations: self.destinations.as_slice(),
            neighbours: self.neighbours.as_slice(),
            hints: &self.hints,
        };
        step(&mut self.views, names, input, now, sends);
        note(input, &mut self.up);
        Ok(())
    }

    /// The cause for which an input is refused, if it is.
    fn refusal(&self, input: &Input) -> Option<StepError>
        ensures value { result ≡ refusal_of self.now input.now }
        ensures valid { IfNone result (IsInput input.now) }
    {
        match input {
            Input::Need(d) => {
                if self.has_destination(*d) {
                    None
                } else {
                    Some(StepError::UnknownDestination)
                }
            }
            Input::LinkUp(k) => self.fault_of_link(*k, false),
            Input::LinkDown(k) => self.fault_of_link(*k, true),
            Input::Packet(k, packet) => {
                let fault = self.fault_of_link(*k, true);
                if fault.is_none() && !is_from(*k, packet) {
                    Some(StepError::WrongSender)
                } else {
                    fault
                }
            }
        }
    }

    /// The cause for which an input about the link to `k` is refused, if it is. With `is_up` the input requires that
    /// the link is up, and otherwise that it is not.
    fn fault_of_link(&self, k: Id, is_up: bool) -> Option<StepError>
        ensures { result ≡ link_fault self.now k is_up }
    {
        // Each link in `up` is to a neighbour. If all links before a link are up, its place in `up` is the neighbour's
        // place.
        let at = self.hints.neighbours.place(k);
        if has_number_near(at, k, self.up.as_slice()) {
            if is_up {
                None
            } else {
                Some(StepError::AlreadyUp)
            }
        } else if !self.has_neighbour(k) {
            Some(StepError::UnknownNeighbour)
        } else if is_up {
            Some(StepError::NotUp)
        } else {
            None
        }
    }

    fn has_neighbour(&self, k: Id) -> bool
        ensures { result ≡ has_number k self.now.neighbours }
    {
        has_number(k, self.neighbours.as_slice())
    }

    fn has_destination(&self, d: Id) -> bool
        ensures { result ≡ has_destination d self.now.views }
    {
        has_number(d, self.destinations.as_slice())
    }

    /// The view of a destination.
    fn view(&self, d: Id) -> Option<&Destination>
        ensures { option_map (λ t. t.view) (option_copied result) ≡ view_of self.now d }
    {
        view_of(d, self.views.as_slice())
    }

    /// The own height for a destination: `Some(None)` if it is NULL; `None` if the table does not have the destination.
    pub fn height(&self, d: Id) -> Option<Entry>
        ensures { result ≡ height_of self.now d }
    {
        self.view(d).map(|view| view.height())
    }

    /// The entry of neighbour `k` for a destination, in general the height that `k` sent last: `Some(None)` if it is
    /// NULL; `None` if the link to `k` is not up, or the table does not have the destination.
    pub fn entry(&self, d: Id, k: Id) -> Option<Entry>
        ensures { result ≡ entry_of self.now d k }
    {
        self.view(d).and_then(|view| view.entry(k))
    }

    /// Whether a route to the destination is required; `false` if the table does not have it.
    pub fn flag(&self, d: Id) -> bool
        ensures { result ≡ flag_of self.now d }
    {
        self.view(d).map_or(false, |view| view.flag())
    }

    /// The next hop to a destination: the downstream neighbour with the lowest entry. `None` if no neighbour is
    /// downstream or the table does not have the destination.
    pub fn next_hop(&self, d: Id) -> Option<Id>
        ensures { result ≡ hop_of self.now d }
    {
        self.view(d).and_then(|view| view.next_hop())
    }

    /// How many neighbours are downstream for a destination: those with an entry that is not NULL and, if the own
    /// height is not NULL, is lower than it. `None` if the table does not have the destination.
    pub fn downstream(&self, d: Id) -> Option<u32>
        ensures { result ≡ downstream_of self.now d }
    {
        self.view(d).map(|view| view.downstream())
    }

    /// The core as text: for each destination in ascending order the line `to D height H flag F hop K`, and then for
    /// each neighbour whose link is up, in ascending order, the line `via K H S`.
    ///
    /// A height is written `(tau,oid,r,delta,id)`, NULL and an absent next hop `-`; F is 1 if a route is required and
    /// otherwise 0; S is `up`, `down` or `none` for the direction of the link. Each line ends with a line feed.
    ///
    /// # Errors
    /// `Memory`.
    #[tactic(auto, using(crate::proofs::TableViews::texts_in))]
    pub fn show(&self, alloc: Global) -> Result<String, CoreError>
        ensures text { IfOk result (λ text. string_bytes text ≡ show_text self.now) }
        ensures memory { IfErr result (λ e. e ≡ CoreError.Memory) }
    {
        match text_of(alloc, &self.views) {
            Ok(text) => Ok(text),
            Err(_) => Err(CoreError::Memory),
        }
    }
}

/// The view of a destination, among these.
fn view_of(d: Id, views: &[Destination]) -> Option<&Destination>
    ensures { option_copied result ≡ find (λ t. t.view.destination == d) views.now }
{
    views.iter().find(|view| view.destination() == d)
}
