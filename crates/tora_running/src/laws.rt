//! The laws of running nodes. Each is the contract of a function that has no parameters and does nothing.
ghost use Rattle.tora_running.specs.Laws.{BindsOnce, CoresFollow, EveryNetwork, HoldsOfSound, IsOfWorld, IsWithoutGap};
ghost use Rattle.tora_running.specs.Laws.{RefusesOnlyNeeds, RestingEntriesAreHeights, RestingRoutesArrive};
ghost use Rattle.tora_running.specs.Laws.{TakenBeginsSent, WalksArrive};
ghost use Rattle.std.specs.Prelude.{◌≡◌, ℕ, true, List, [], ◌∷◌, ◌++◌, map, Option};
ghost use Rattle.tora_arq.specs.LinkEnd.{EndState};
ghost use Rattle.tora_arq.specs.Settings.{Settings};
ghost use Rattle.tora_neighbour.specs.Turns.{Turn, AreTurns, IsLastTurn, IsTurnRun};
ghost use Rattle.tora_neighbour.specs.declared.ending.Ending.{Ending};
ghost use Rattle.tora_core.specs.CoreRun.{CoreView};
ghost use Rattle.tora_node.specs.declared.fault.NodeError.{NodeError};
ghost use Rattle.tora_neighbour.specs.declared.tally.Tally.{Tally};
ghost use Rattle.tora_node.specs.declared.link_task.Outcome.{Outcome};
ghost use Rattle.tora_node.specs.WholeRuns.{LinkExchanged};
ghost use Rattle.tora_node.specs.LinkRuns.{AreFaultless, IsLinkRun, IsThreadsFault, links_of};
ghost use Rattle.tora_neighbour.specs.declared.fault.LinkFault.{LinkFault};
ghost use Rattle.tora_node.specs.CoreRuns.{ServedItem, AreServed, items_served};
ghost use Rattle.tora_seat.specs.Serving.{SeatState};
ghost use Rattle.tora_seat.specs.declared.item.Item.{Item};
ghost use Rattle.tora_world.specs.Topology.{is_node};
ghost use Rattle.tora_running.specs.Exchanges.{ExchangeTheSame};
ghost use Rattle.tora_running.specs.Histories.{IsAfterRefused, IsNotStarted, parts_of_last, parts_of_link};
ghost use Rattle.tora_running.specs.Histories.{parts_of_turns, parts_served, served_in};
ghost use Rattle.tora_running.specs.Network.{IsRun, Network, Part, after_parts, neighbours_at, settings_at};
ghost use Rattle.tora_running.specs.Orders.{AreHistories, IsOrder};
ghost use Rattle.tora_running.specs.Nodes.{HasExchanged, HaveHistories, HearsItsWire};
ghost use Rattle.tora_running.specs.Parts.{AreLinkParts};
ghost use Rattle.tora_running.specs.Worked.{start, first_parts, parted, second_parts, met, last_parts, left, HandsBack};
ghost use Rattle.tora_running.specs.Worked.{HasMet, HasLeft, drawn_again, TakesTwice};

use tora_arq::{data_frames_are_what_was_submitted, refused_frames_change_nothing};
use tora_life::drawn_life_numbers_rise;
use tora_world::{
    entries_at_rest_are_heights, exact_entries_give_walks, life_files_become_what_crashes_leave,
    no_gap_law, only_needs_are_refused, prefix_law, routes_at_rest_arrive,
};

/// Running nodes are a world: for any parts that their threads make, some schedule of the free world leads to a world
/// with the same cores, link ends, queues, and records of what was sent, taken and accepted.
///
/// A run of parts must satisfy only this: the thread's definition allows each part, queues keep their order, no wire
/// delivers a forged datagram that its end accepts, and the session numbers of a link end rise. Ticks, results of
/// queues, losses, repeated datagrams and the moments of starts are arbitrary.
pub fn running_nodes_are_a_world()
    ensures { EveryNetwork (λ t times w. IsOfWorld t times w) }
{
    data_frames_are_what_was_submitted();
    refused_frames_change_nothing();
    drawn_life_numbers_rise();
    life_files_become_what_crashes_leave();
}

/// The prefix law of running nodes: the packets that the core of a node has taken from a neighbour in a session are a
/// prefix of those that the neighbour's core has sent in that session, over all starts of both nodes.
pub fn running_nodes_keep_the_prefix_law()
    ensures prefix { EveryNetwork (λ t times w. TakenBeginsSent w) }
    // Each end binds each pair of session numbers at most once.
    ensures once { BindsOnce }
    // The condition on received datagrams is a condition on the wires only, not on the threads: the parts of a link's
    // thread receive only the datagrams that its calls of the wire returned, as the contract of `run_node` says
    // (`LinkRan`).
    ensures heard { (me peer : ℕ) (fault : Option LinkFault) (tally : Tally) (run : IsLinkRun me peer fault tally)
        → HearsItsWire me peer tally (run.turns ++ run.last ∷ []) }
{
    running_nodes_are_a_world();
    data_frames_are_what_was_submitted();
    refused_frames_change_nothing();
    drawn_life_numbers_rise();
    life_files_become_what_crashes_leave();
    prefix_law();
}

/// Each core of a running node has the state that TORA's rules give for the inputs that it accepted since its node's
/// last start.
pub fn running_cores_follow()
    ensures { EveryNetwork (λ t times w. CoresFollow t w) }
{
    running_nodes_are_a_world();
    prefix_law();
}

/// The no-gap law of running nodes: while a session is current at a core, all that the core has broadcast since its
/// link came up was sent in that session, and nothing else.
pub fn running_nodes_keep_the_no_gap_law()
    ensures { EveryNetwork (λ t times w. IsWithoutGap t w) }
{
    running_nodes_are_a_world();
    no_gap_law();
}

/// Exact entries give walks of running nodes: if each entry for a destination is NULL or the current height of its
/// neighbour, the next hops lead from every node with a height to the destination.
pub fn running_walks_arrive()
    ensures { EveryNetwork (λ t times w. HoldsOfSound WalksArrive t w) }
{
    running_nodes_are_a_world();
    exact_entries_give_walks();
}

/// If running nodes are at rest, each entry of a node for a neighbour whose link is up is NULL or the neighbour's
/// height, or the neighbour has no height.
pub fn running_entries_at_rest_are_heights()
    ensures { EveryNetwork (λ t times w. HoldsOfSound RestingEntriesAreHeights t w) }
{
    running_nodes_are_a_world();
    entries_at_rest_are_heights();
}

/// If running nodes are at rest, the next hops lead from a node that has a height to the destination, if every node
/// that is reachable from it over links has a height.
pub fn running_routes_at_rest_arrive()
    ensures { EveryNetwork (λ t times w. HoldsOfSound RestingRoutesArrive t w) }
{
    running_nodes_are_a_world();
    routes_at_rest_arrive();
}

/// A core of a running node refuses only the need of a destination that is not in its table, for any next item and any
/// results of its offers.
pub fn running_cores_refuse_only_needs()
    ensures { EveryNetwork (λ t times w. RefusesOnlyNeeds w) }
{
    running_nodes_are_a_world();
    only_needs_are_refused();
}

/// The parts are those of the threads: the proved behaviour of a link's thread and of a core's thread is a sequence of
/// parts that the definitions allow, turn after turn and item after item.
pub fn histories_are_of_the_threads()
    // Whole turns of a link's thread are parts of its end, one after another.
    ensures turns { (s : Settings) (e : EndState) (turns : List Turn) (after : EndState) → AreTurns s e turns after
        → AreLinkParts s e (parts_of_turns turns) after }
    // The same holds for the last turn, which may end early; an event that the thread could not put into the queue into
    // the core is not a part.
    ensures last { (s : Settings) (last_beat : Option ℕ) (e : EndState) (t : Turn) (ending : Ending) (after : EndState)
        → IsLastTurn s last_beat e t ending after
        → (between : EndState) × AreLinkParts s e (parts_of_last ending t) between
        × IsAfterRefused between t.refused after }
    // The same holds for the whole run of a link's thread, as the contract of `run_neighbour` describes it.
    ensures run { (s : Settings) (e : EndState) (turns : List Turn) (last : Turn) (ending : Ending) (after : EndState)
        → IsTurnRun s e turns last ending after
        → (between : EndState) × AreLinkParts s e (parts_of_turns turns ++ parts_of_last ending last) between
        × IsAfterRefused between last.refused after }
    // These parts exchange with the thread's file, queues and wire what `Traffic` says of its turns: the session
    // numbers taken from the file, the outbound messages taken, the frames sent, the datagrams received, and the items
    // put.
    ensures exchanges { (s : Settings) (e : EndState) (turns : List Turn) (last : Turn) (ending : Ending)
        (after : EndState) → IsTurnRun s e turns last ending after
        → ExchangeTheSame (parts_of_turns turns ++ parts_of_last ending last) (turns ++ last ∷ []) }
    // The items that a core's thread has served one after another, as the contract of `run_core` describes them, are a
    // run of parts if they wait in its queue, and the run leads to the same state of the seat.
    ensures served { (w : Network) (n : ℕ) (xs : List ServedItem) (rest : List Item) (after : SeatState)
        → is_node w.topology n ≡ true
        → w.items n ≡ items_served xs ++ rest → AreServed (neighbours_at w n) (w.seats n) xs after
        → IsRun w (parts_served n xs) × ((after_parts (parts_served n xs) w).seats n ≡ after)
        × ((after_parts (parts_served n xs) w).items n ≡ rest) }
    // Conversely, in a run of all threads in which a node is not started again, the parts of each of its links are
    // parts of that end, and its core has served its items one after another.
    ensures links { (w : Network) (parts : List Part) (n k : ℕ) → IsRun w parts → IsNotStarted n parts
        → AreLinkParts (settings_at w n k) (w.ends n k) (parts_of_link n k parts) ((after_parts parts w).ends n k) }
    ensures cores { (w : Network) (parts : List Part) (n : ℕ) → IsRun w parts → IsNotStarted n parts
        → AreServed (neighbours_at w n) (w.seats n) (served_in n parts) ((after_parts parts w).seats n) }
{}

/// A run of parts is exactly an order of the threads' actions: the histories of the threads, for all starts of each
/// node, and an order of all their parts that keeps queues, datagrams and numbers (`IsOrder`). So the laws of running
/// nodes assume only that order, besides the contracts of the threads.
pub fn runs_are_orders_of_histories()
    // If the parts of each thread follow its definition, any such order of them is a run, for which all laws hold.
    ensures runs { (w : Network) (parts : List Part) → AreHistories w parts → IsOrder w parts → IsRun w parts }
    // Conversely, each run is such an order.
    ensures orders { (w : Network) (parts : List Part) → IsRun w parts → AreHistories w parts × IsOrder w parts }
{}

/// The contract of `run_node` gives histories: for each link there are parts of a new end of version 2 with the
/// standard times, one after another. They exchange what the link's turns exchange, put the items that the core served,
/// and take the outbound messages that serving put.
pub fn nodes_have_histories()
    // A node that ended without a fault, as the clause `links` of `run_node` describes it.
    ensures links { (first : CoreView) (tallies : List Tally) → AreFaultless (links_of first) tallies
        → HaveHistories first.me first.neighbours tallies }
    // A node whose threads were started and which ended with the first of their faults, as the clause `cause` describes
    // it.
    ensures threads { (first : CoreView) (e : NodeError) (h : IsThreadsFault first e)
        → HaveHistories first.me first.neighbours (map (λ o. o.tally) h.outcomes) }
    // The parts of a link exchange with the core what the clauses `ran` and `failed` of the contract say.
    ensures exchanged { (me : ℕ) (xs : List ServedItem) (place peer : ℕ) (outcome : Outcome)
        → LinkExchanged me xs place peer outcome
        → HasExchanged me xs place peer outcome.tally }
{}

/// An example with two running nodes, computed, so that the laws are not vacuous.
pub fn worked_networks_hold()
    // Both nodes are started, a HELLO is lost, three more bind the link, and the queue returns the update of node 1.
    ensures first { IsRun start first_parts }
    ensures handed_back { HandsBack parted }
    // Both are killed and started again. An old datagram arrives and the link is bound in a second session. In it the
    // update is sent and taken once, although its datagram arrives twice: node 1 has a route.
    ensures second { IsRun parted second_parts }
    ensures met { HasMet met }
    // A beat arrives, a user requests something, a send fails although its datagram is sent, and a frame of another
    // node is refused. Then the wire of node 1 fails, node 2 receives no frame for 60 ticks, and the route is lost.
    ensures last { IsRun met last_parts }
    ensures left { HasLeft left }
    // Rising session numbers are necessary: if the file gave the same numbers again after a start, an old datagram
    // would be taken a second time.
    ensures numbers { TakesTwice drawn_again }
{}
