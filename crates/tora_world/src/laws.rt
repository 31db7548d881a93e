//! The laws of all schedules. Each is the contract of a function that has no parameters and does nothing.
ghost use Rattle.std.specs.Prelude.{◌≡◌, ◌↔◌, ℕ, suc, ◌≤◌, true, List, [], ◌∷◌, length, Some, None};
ghost use Rattle.tora_height.specs.Height.{Quintuple};
ghost use Rattle.tora_packet.specs.declared.Packet.TheVariants.{Qry};
ghost use Rattle.tora_arq.specs.declared.times.Times.{Times};
ghost use Rattle.tora_world.specs.declared.event.Event.{Event};
ghost use Rattle.tora_world.specs.Layers.{LinkLaws, LifeLaws, CoreLaws, SeatLaws, RuleLaws};
ghost use Rattle.tora_world.specs.Topology.{Topology, nodes_in};
ghost use Rattle.tora_world.specs.Walks.{EveryWorld, height_at, IsExact, exact_in, IsWalk, walk_of, Arrives};
ghost use Rattle.tora_world.specs.World.{World, first_world, world_after_all, sent_packets, taken_packets};
ghost use Rattle.tora_life.specs.LifeRun.{LifeDisk, LifeEvent, IsFloor, MayHappen, after_event};
ghost use Rattle.tora_world.specs.FreeWorld.{MayBecome, after_schedule, own_schedule};
ghost use Rattle.tora_world.specs.MachineRun.{machine_steps};
ghost use Rattle.tora_world.specs.Law.{EveryRun, TakenBeginsSent, IsOfMachine, CoresFollow, BindsOnce};
ghost use Rattle.tora_world.specs.Law.{AcknowledgedIsAccepted};
ghost use Rattle.tora_world.specs.Refusals.{OnlyNeedsAreRefused, SteppedAreAccepted};
ghost use Rattle.tora_world.specs.Gaps.{EveryEnd, IsWithoutGap, SendsInLatest, broadcast_packets};
ghost use Rattle.tora_world.specs.LinkMachine.MachineStep.{Draw, Bind, Send, Take, Close};
ghost use Rattle.tora_arq.specs.Lives.{reversed};
ghost use Rattle.tora_world.specs.WorkedEvents.{ArmedCalls, Lanes, AreRefused, StartsAnew};
ghost use Rattle.tora_world.specs.FreeWorld.FreeEvent.{TicksEnd};
ghost use Rattle.tora_world.specs.WorkedFreeEvents.{left, TicksOne, PumpsOverOne, PutsBeats, CutsOne, AsksForCut};
ghost use Rattle.tora_world.specs.WorkedFreeEvents.{ChangesOne, StartsOne};
ghost use Rattle.tora_world.specs.Worked.{pair, start, life, update, binding, meeting, met, bound_steps, restart};
ghost use Rattle.tora_world.specs.Worked.{ending, ended_steps, second_life, meeting_again, met_again, asking};
ghost use Rattle.tora_world.specs.Worked.{start_elsewhere, refusal, handed_back};

use tora_arq::{
    acknowledged_counts_come_from_the_peer, calls_keep_an_end, data_frames_are_what_was_submitted,
    deliveries_are_in_order, events_of_a_life_are_in_order, lives_are_bound_once,
    packets_are_submitted_in_the_bound_life,
};
use tora_core::{
    inputs_are_accepted, links_follow_inputs, nothing_is_found, numbers_are_put_in_order,
    numbers_come_and_go, runs_are_kept, tables_stay, up_links_are_of_neighbours,
    words_are_computed,
};
use tora_height::heights_are_totally_ordered;
use tora_life::drawn_life_numbers_rise;
use tora_seat::{accepted_inputs_make_the_core, cut_links_go_down};

/// The laws of heights, link ends, life files, cores and seats. Each is the contract of a function that does nothing. A
/// law that uses one of them calls that function, and so has its clauses.
pub(crate) fn layers_keep_their_laws()
    ensures links { LinkLaws }
    ensures files { LifeLaws }
    ensures cores { CoreLaws }
    ensures seats { SeatLaws }
    ensures rules { RuleLaws }
{
    calls_keep_an_end();
    lives_are_bound_once();
    data_frames_are_what_was_submitted();
    packets_are_submitted_in_the_bound_life();
    deliveries_are_in_order();
    events_of_a_life_are_in_order();
    acknowledged_counts_come_from_the_peer();
    drawn_life_numbers_rise();
    tables_stay();
    links_follow_inputs();
    inputs_are_accepted();
    numbers_come_and_go();
    numbers_are_put_in_order();
    accepted_inputs_make_the_core();
    cut_links_go_down();
    heights_are_totally_ordered();
    nothing_is_found();
    runs_are_kept();
    up_links_are_of_neighbours();
    words_are_computed();
}

/// The prefix law: the packets that a node's core has taken from a neighbour in one session of their link are a prefix
/// of those that the neighbour's core sent in that session, in order, each once. Each core has the state that TORA's
/// rules give for the inputs that it accepted.
///
/// It holds for every topology, every list of events (datagrams lost, repeated and in any order, failing calls, turns,
/// restarts, and events that only threads make), any ticks of link ends and items, and any results of the queues.
pub fn prefix_law()
    // The packets taken in a session are a prefix of those sent in it.
    ensures prefix { EveryRun (λ first es w. TakenBeginsSent w) }
    // Each event of the run makes steps that the link machine allows, or none, and the lists of the machine are those
    // of the world. So no packet is sent or taken in a session that was closed.
    ensures machine { EveryRun (λ first es w. IsOfMachine (machine_steps es first []) w) }
    // Each core has the state that the rules give for the inputs that it accepted since its node's last restart.
    ensures cores { EveryRun (λ first es w. CoresFollow first.topology w) }
    // Each end binds each pair of session numbers at most once.
    ensures once { EveryRun (λ first es w. BindsOnce first es) }
    // No end counts a packet as acknowledged that the other end has not accepted.
    ensures acknowledged { EveryRun (λ first es w. AcknowledgedIsAccepted first es w) }
{
    layers_keep_their_laws();
}

/// The no-gap law: while a session is current at a core, every packet that the core broadcasts is sent in that session,
/// in order, or the session is cut in the same turn. So a full queue never drops a packet of a session that continues.
///
/// It holds for every run over a topology that is not refused, at every end of a link.
pub fn no_gap_law()
    // The packets sent in the session that came up last are a prefix of what the core broadcast while its link was up.
    // They are all of it while the session is current, and afterwards unless the session was cut.
    ensures gapless { EveryEnd (λ t first es w n k. IsWithoutGap t first es w n k) }
    // Nothing is sent in any other session.
    ensures latest { EveryEnd (λ t first es w n k. SendsInLatest first es w n k) }
{
    layers_keep_their_laws();
}

/// A core of the world refuses only needs: it accepts every `LinkUp`, every `LinkDown` and every packet that is passed
/// to it. So the packets taken are the packets accepted.
pub fn only_needs_are_refused()
    // A core refuses its next item only if that is the need of a destination that is not in the core's table, and for
    // that cause.
    ensures refused { EveryRun (λ first es w. OnlyNeedsAreRefused w) }
    // The packets ever taken from a neighbour are those taken before the node's last restart, followed by those that
    // the core has accepted from it since.
    ensures accepted { EveryRun (λ first es w. SteppedAreAccepted first es w) }
{
    layers_keep_their_laws();
}

/// Exact entries give walks: if each entry for a destination is NULL or the current height of its neighbour, the next
/// hops lead from every node with a height to the destination.
///
/// It holds for every world that events reach over a topology that is not refused. Its proof uses only the lower
/// neighbour law (a node other than the destination that has a height has a lower entry) and the order of heights:
/// heights fall along the hops, so no node occurs twice. No law says that entries ever become exact.
pub fn exact_entries_give_walks()
    // The hops from a node with a height reach the destination, each to a lower height, in at most as many hops as
    // there are nodes. These nodes are the walk that `walk_of` computes.
    ensures walks { EveryWorld (λ w. (d n : ℕ) (height : Quintuple) → IsExact w d → height_at w n d ≡ Some (Some height)
        → Arrives w n d) }
    // The comparison of all entries is true exactly if they are exact.
    ensures exact { EveryWorld (λ w. (d : ℕ) → (exact_in w d ≡ true) ↔ IsExact w d) }
    // The search finds a walk exactly if there is one of at most as many hops as there are nodes, and it finds that
    // walk.
    ensures found { (w : World) (n d : ℕ) (nodes : List ℕ) → (walk_of w n d ≡ Some nodes)
        ↔ (IsWalk w n d nodes × (length nodes ≤ suc (length (nodes_in w.topology.links)))) }
{
    layers_keep_their_laws();
}

/// A run of the simulator, with its clock and with queues of 256 outbound messages, is one of the runs about which the
/// laws speak.
pub fn simulator_runs_are_free_runs()
    ensures { (t : Topology) (times : Times) (events : List Event)
        → world_after_all (first_world t times) events ≡ after_schedule (own_schedule events (first_world t times))
        (first_world t times) }
{}

/// A life file of the free world may change to any file that gives no session number which the old file could not give.
/// So it may change in any way in which its calls, failing calls and crashes can change it.
pub fn life_files_become_what_crashes_leave()
    // Such a change never allows again a session number that was given, and `ChangesFile` requires this.
    ensures any { (before after : LifeDisk) → ((n : ℕ) → IsFloor n before → IsFloor n after) → MayBecome before after }
    // A crash may leave any image of what was written and not synced.
    ensures events { (event : LifeEvent) (disk : LifeDisk) → MayHappen event disk
        → MayBecome disk (after_event event disk) }
{
    layers_keep_their_laws();
}

/// An example, computed: two nodes and some forty events, in which packets are sent and taken. So neither law is
/// vacuous.
pub fn worked_schedules_hold()
    // The core of node 1 broadcasts one update and sends it in the session of its link. The core of node 2 takes it.
    ensures broadcast { broadcast_packets pair met 1 2 ≡ update ∷ [] }
    ensures sent { sent_packets met 1 2 life ≡ update ∷ [] }
    ensures taken { taken_packets met 2 1 life ≡ update ∷ [] }
    // The run makes these steps of the link machine, last one first. The second delivery of the datagram is no step.
    ensures steps { machine_steps (own_schedule meeting start) start []
        ≡ Take 2 1 life update ∷ Send 1 2 life update ∷ bound_steps }
    // A restart of node 1 closes the session there.
    ensures restart { machine_steps restart start [] ≡ Close 1 2 life ∷ Take 2 1 life update ∷ Send 1 2 life update
        ∷ bound_steps }
    // Then the HELLO of its new end ends the session at node 2, whose core closes it. The core of node 1 sends nothing
    // before that, because it has no current session.
    ensures ended { machine_steps (own_schedule ending start) start [] ≡ ended_steps }
    // A second session is bound with new numbers. Its packets are separate from those of the first session.
    ensures again { machine_steps (own_schedule meeting_again start) start []
        ≡ Take 2 1 (reversed second_life) update ∷ Send 1 2 second_life update ∷ Bind 2 1 2 17 ∷ Bind 1 2 17 2
        ∷ Draw 2 1 2 ∷ ended_steps }
    ensures sent_again { sent_packets met_again 1 2 second_life ≡ update ∷ [] }
    ensures taken_again { taken_packets met_again 2 1 (reversed second_life) ≡ update ∷ [] }
    ensures taken_before { taken_packets met_again 2 1 life ≡ update ∷ [] }
    // In one turn the core takes a packet before it sends packets for it.
    ensures asked { machine_steps (own_schedule asking start_elsewhere) start_elsewhere []
        ≡ Send 2 1 life (Qry 3) ∷ Take 2 1 life (Qry 3) ∷ Send 1 2 life (Qry 3) ∷ bound_steps }
    // If the queue returns the update, it was broadcast and not sent: the session is no longer current, its cut is
    // pending, its link is down at the core, and the machine has closed it.
    ensures broadcast_all_the_same { broadcast_packets pair handed_back 1 2 ≡ update ∷ [] }
    ensures none_sent { sent_packets handed_back 1 2 life ≡ [] }
    ensures not_current { (handed_back.seats 1).current 2 ≡ None }
    ensures cut { (handed_back.seats 1).pending 2 ≡ Some life }
    ensures down { (handed_back.seats 1).core.up ≡ [] }
    ensures closed { machine_steps refusal start [] ≡ Close 1 2 life ∷ bound_steps }
{}

/// Examples of single events, computed. They show what the laws leave open, because the laws also hold for other
/// queues, other clocks and calls that do not fail.
pub fn worked_events_hold()
    // Sends, receives, and writes and syncs of a life file that are armed to fail.
    ensures armed { ArmedCalls }
    // A queue out of a core holds 256 outbound messages and the queue into it 1,024 items; items have numbers and
    // ticks.
    ensures lanes { Lanes }
    // The causes for which events are refused.
    ensures refused { AreRefused }
    // A restart makes the core, the link ends and the queues of a node new, and keeps the record of what was sent and
    // taken.
    ensures anew { StartsAnew }
{}

/// Examples of the events that only threads make, computed. Each has a visible effect.
pub fn worked_free_events_hold()
    // A tick of one end does not reach any other end.
    ensures ticks { TicksOne (left binding 50 (TicksEnd 1 2 ∷ [])) }
    // An event goes into a queue in which 1,024 items wait; the simulator would refuse this.
    ensures pumps { PumpsOverOne }
    // A beat of a link waits in the queue, and the core takes it.
    ensures puts { PutsBeats }
    // The bound session is cut: its end goes down, and then its link at the core.
    ensures cuts { CutsOne }
    // A cut is requested: the session is over at the core, and the link end goes down when it takes the cut.
    ensures asks { AsksForCut }
    // After a change of its life file an end is opened with another number than without the change.
    ensures changes { ChangesOne }
    // A node starts anew: its core, ends and queues are those of a restart, and its life files are unchanged.
    ensures starts { StartsOne }
{}
