//! What holds for every link end, whatever its inputs: facts for the crates above.
//!
//! Each fact is about one call in any state, or about a whole run of calls of a new end. The facts hold for a window of
//! any size.
ghost use Rattle.std.specs.Prelude.{◌≡◌, ◌≢◌, ◌↔◌, ℕ, ◌+◌, ◌<◌, ◌≤◌, ◌⊎◌, true, false, List, [], ◌∷◌, ◌++◌, map};
ghost use Rattle.std.specs.Prelude.{length, Contains, Option, Result, Some};
ghost use Rattle.std.specs.List.{AllByRecursion};
ghost use Rattle.tora_packet.specs.declared.Packet.{Packet};
ghost use Rattle.tora_frame.specs.declared.parts.TheConstants.{GREATEST_NUMBER, MOST_PACKETS};
ghost use Rattle.tora_frame.specs.declared.parts.Body.TheVariants.{Hello};
ghost use Rattle.tora_frame.specs.declared.parts.Version.TheVariants.{One, Two};
ghost use Rattle.tora_frame.specs.FrameParts.{FrameParts};
ghost use Rattle.tora_arq.specs.declared.life.Life.{Life};
ghost use Rattle.tora_arq.specs.declared.reason.Reason.TheVariants as Because;
ghost use Rattle.tora_arq.specs.declared.link_event.LinkEvent.{LinkEvent};
ghost use Rattle.tora_arq.specs.declared.link_event.LinkEvent.TheVariants.{Deliver};
ghost use Rattle.tora_arq.specs.declared.verdict.Verdict.{Verdict};
ghost use Rattle.tora_arq.specs.declared.verdict.Verdict.TheVariants as Is;
ghost use Rattle.tora_arq.specs.declared.times.TheConstants.Times.{STANDARD};
ghost use Rattle.tora_arq.specs.declared.submit_error.SubmitError.{SubmitError};
ghost use Rattle.tora_arq.specs.declared.submit_error.SubmitError.TheVariants as Refusal;
ghost use Rattle.tora_arq.specs.declared.phase.Phase.TheVariants.{Closed, Unbound, Bound};
ghost use Rattle.tora_arq.specs.Settings.{Settings, IsTimes};
ghost use Rattle.tora_arq.specs.SendQueue.{untried};
ghost use Rattle.tora_arq.specs.LinkEnd.{EndState, first_end, bound_life, after_open, after_end, after_tick};
ghost use Rattle.tora_arq.specs.LinkEnd.{submit_answer, after_submit, after_cut, first_event, after_poll_event};
ghost use Rattle.tora_arq.specs.LinkEnd.{frame_due, frame_sent, after_transmit, is_update_of_another, verdict_of};
ghost use Rattle.tora_arq.specs.LinkEnd.{after_frame};
ghost use Rattle.tora_arq.specs.LinkFacts.{LinkCall, EveryCall, frame_sent_by, event_given_by, events_left};
ghost use Rattle.tora_arq.specs.LinkFacts.{events_queued, packet_submitted, IsEnd, OpensWith, StaysOrCloses};
ghost use Rattle.tora_arq.specs.LinkFacts.{WasBoundOrBinds, WasUnboundOrOpens, IsFrameSent, IsQueueOf, IsBodyOf};
ghost use Rattle.tora_arq.specs.LinkFacts.{IsPacketAt, AreHeld, CallTells, packets_delivered, DeliversNext, list_of};
ghost use Rattle.tora_arq.specs.LinkFacts.{AreEventsBetween, Leads, AreOverByDown, AreRising, Acknowledges};
ghost use Rattle.tora_arq.specs.LinkRuns.{EveryRun, EveryBoundRun, CameAt, CountCame, AreAllTold, times_bound};
ghost use Rattle.tora_arq.specs.LinkRuns.{AreFromFirst, IsFrameOfRun, IsSameAtEachTry};
ghost use Rattle.tora_arq.specs.PeerUpdates.{AreEventsOfPeer, IsOfPeer};
ghost use Rattle.tora_arq.specs.Polls.{after_polls, frames_polled};
ghost use Rattle.tora_arq.specs.Floods.{after_submits, IsIdle, flood_frame};
ghost use Rattle.tora_arq.specs.WorkedHellos.{worked_settings, given_hello, behind_hello};
ghost use Rattle.tora_arq.specs.LinkTable.{Cuts, Gives, Hears, Opens, Submits, Tells, Ticks};

/// Every call keeps these invariants: transmitted packets were submitted, at most a window of packets is held, and at a
/// closed end no packet waits to be acknowledged and none is held.
pub fn calls_keep_an_end()
    ensures first { (s : Settings) → IsEnd s first_end }
    ensures next { EveryCall (λ s e call after. IsEnd s e → IsEnd s after) }
    ensures run { EveryRun (λ s run. IsEnd s run.state) }
    // The tick 0 ends no session.
    ensures tick_zero { (s : Settings) (e : EndState) → IsTimes s.times → after_tick s e 0 ≡ e }
    // If no frame is due, nothing changes.
    ensures none_due { (s : Settings) (e : EndState) (now : ℕ) → frame_due s e now ≡ None → after_transmit s e now ≡ e }
{}

/// A bound pair of session numbers does not change until the session ends. After each `open` an end binds at most one
/// session, and only on a frame of the peer that carries the end's own number.
pub fn lives_are_bound_once()
    ensures fixed { EveryCall (λ s e call after. (life : Life) → e.phase ≡ Bound life
        → StaysOrCloses life after.phase) }
    ensures binds { EveryCall (λ s e call after. (life : Life) → after.phase ≡ Bound life
        → WasBoundOrBinds s life call e.phase) }
    ensures opens { EveryCall (λ s e call after. (own : ℕ) → after.phase ≡ Unbound own
        → WasUnboundOrOpens own call e.phase) }
    // The own number rises when the end is opened, and no other call changes it.
    ensures number { EveryCall (λ s e call after.
        (after.last_life ≡ e.last_life) ⊎ (OpensWith after.last_life call × (e.last_life < after.last_life))) }
    ensures rising { EveryRun (λ s run. AreRising 0 run.events) }
    ensures once { EveryRun (λ s run. (own : ℕ) → times_bound own run.events ≤ 1) }
    // For each bound session, the end received a frame with both its numbers while the end had the session's own
    // number.
    ensures told { EveryRun (λ s run. AreAllTold s run.frames run.events) }
{}

/// Only a bound end sends DATA frames, which carry both numbers of the session. A DATA frame carries submitted packets
/// with their numbers, and each try of a number carries the same packet. The count in a frame is the count of accepted
/// packets.
pub fn data_frames_are_what_was_submitted()
    ensures frame { (s : Settings) (e : EndState) (call : LinkCall) (f : FrameParts)
        → frame_sent_by s e call ≡ Some f → IsFrameSent s e f }
    ensures content { (s : Settings) (e : EndState) (f : FrameParts) (life : Life) (submitted : List Packet)
        → e.phase ≡ Bound life → IsFrameSent s e f → IsQueueOf submitted e → IsBodyOf submitted e.accepted f.body }
    // When a session is bound, nothing has been submitted in it.
    ensures first { EveryCall (λ s e call after. (own : ℕ) (life : Life) → e.phase ≡ Unbound own
        → after.phase ≡ Bound life
        → IsQueueOf [] after × (packet_submitted e call ≡ [])) }
    ensures queue { EveryCall (λ s e call after. (life : Life) (submitted : List Packet) → IsEnd s e
        → e.phase ≡ Bound life → after.phase ≡ Bound life
        → IsQueueOf submitted e → IsQueueOf (submitted ++ packet_submitted e call) after) }
    ensures run { EveryRun (λ s run. AllByRecursion (IsFrameOfRun run) run.sent) }
    ensures tries { EveryRun (λ s run. IsSameAtEachTry run.sent) }
{}

/// A packet can be submitted only in the bound session; a submit for another session changes nothing.
pub fn packets_are_submitted_in_the_bound_life()
    ensures appends { (e : EndState) (life : Life) (packet : Packet) → submit_answer e life packet ≡ Ok tt
        → (e.phase ≡ Bound life) × (after_submit e life packet ≡ record e { queue = e.queue ++ untried packet ∷ [] }) }
    // If the end is still bound to the session, it took the packet.
    ensures own { (e : EndState) (life : Life) (packet : Packet)
        → (after_submit e life packet).phase ≡ Bound life → submit_answer e life packet ≡ Ok tt }
    ensures other { (e : EndState) (life : Life) (packet : Packet) → e.phase ≢ Bound life
        → (submit_answer e life packet ≡ Err (Refusal.WrongLife packet)) × (after_submit e life packet ≡ e) }
    ensures cut_own { (e : EndState) (life : Life) → e.phase ≡ Bound life
        → after_cut e life ≡ after_end e life Because.Cut }
    ensures cut_other { (e : EndState) (life : Life) → e.phase ≢ Bound life → after_cut e life ≡ e }
{}

/// The packets delivered in a session are those numbered 1, 2, .. in its DATA frames, in order and each once. A held
/// packet is at the place of its number.
pub fn deliveries_are_in_order()
    // If the held packets and the packets of a frame all agree with one numbering of the peer's packets, then so do the
    // packets that are delivered and held after the call.
    ensures next { EveryCall (λ s e call after. (life : Life) (packets : List Packet) → IsEnd s e
        → after.phase ≡ Bound life
        → (e.phase ≡ Bound life → AreHeld (IsPacketAt packets) e.accepted e.held)
        → CallTells (IsPacketAt packets) s life call
        → DeliversNext (IsPacketAt packets) e after (packets_delivered life (events_queued s e call))) }
    ensures came { EveryRun (λ s run. (life : Life) → AreFromFirst (CameAt s run.frames life)
        (packets_delivered life run.events)) }
    ensures accepted { EveryBoundRun (λ s run life. length (packets_delivered life run.events) ≡ run.state.accepted) }
    ensures held { EveryBoundRun (λ s run life. AreHeld (CameAt s run.frames life) run.state.accepted run.state.held) }
    // The packets of a session among events that deliver packets of it.
    ensures packets { (life : Life) (packets : List Packet) → packets_delivered life (map (Deliver life) packets)
        ≡ packets }
{}

/// The events of a session are `Up`, its packets, and last `Down`; after that the end is closed and reports no event of
/// the session. Events are polled in the order in which they were queued.
pub fn events_of_a_life_are_in_order()
    ensures behind { EveryCall (λ s e call after. after.events ≡ events_left e call ++ events_queued s e call) }
    ensures given { (e : EndState) (call : LinkCall) → list_of (event_given_by e call) ++ events_left e call
        ≡ e.events }
    ensures between { EveryCall (λ s e call after. AreEventsBetween (bound_life e) (bound_life after)
        (events_queued s e call)) }
    ensures polled { EveryRun (λ s run. run.given ++ run.state.events ≡ run.events) }
    ensures leads { EveryRun (λ s run. Leads None run.events (bound_life run.state)) }
    ensures over { EveryRun (λ s run. AreOverByDown run.events) }
{}

/// In each session the count of acknowledged packets begins at 0, and changes only to the count in a frame with both
/// numbers of the session. It never exceeds the count of transmitted packets.
pub fn acknowledged_counts_come_from_the_peer()
    ensures first { EveryCall (λ s e call after. (own : ℕ) (life : Life) → e.phase ≡ Unbound own
        → after.phase ≡ Bound life
        → after.acknowledged ≡ 0) }
    ensures next { EveryCall (λ s e call after. (life : Life) → IsEnd s e → e.phase ≡ Bound life
        → after.phase ≡ Bound life
        → Acknowledges s life call e after) }
    ensures came { EveryBoundRun (λ s run life.
        (run.state.acknowledged ≡ 0) ⊎ CountCame s run.frames life run.state.acknowledged) }
{}

/// No packet that is held, delivered or polled is an update of a node other than the peer.
pub fn updates_are_of_the_peer()
    ensures first { (s : Settings) → IsOfPeer s first_end }
    ensures next { EveryCall (λ s e call after. IsOfPeer s e → IsOfPeer s after) }
    ensures queued { EveryCall (λ s e call after. (life : Life) (packet : Packet) → IsOfPeer s e
        → Contains (events_queued s e call) (Deliver life packet) → is_update_of_another s.peer packet ≡ false) }
    ensures given { EveryCall (λ s e call after. (life : Life) (packet : Packet) → IsOfPeer s e
        → event_given_by e call ≡ Some (Deliver life packet) → is_update_of_another s.peer packet ≡ false) }
    ensures run { EveryRun (λ s run. IsOfPeer s run.state) }
    ensures events { EveryRun (λ s run. AreEventsOfPeer s.peer run.events) }
{}

/// A frame with the verdict `Foreign`, `Stale` or `Busy` changes nothing.
pub fn refused_frames_change_nothing()
    ensures foreign { (s : Settings) (e : EndState) (frame : FrameParts) (now : ℕ)
        → verdict_of s e frame now ≡ Is.Foreign → after_frame s e frame now ≡ e }
    ensures busy { (s : Settings) (e : EndState) (frame : FrameParts) (now : ℕ)
        → verdict_of s e frame now ≡ Is.Busy → after_frame s e frame now ≡ e }
    ensures stale { (s : Settings) (e : EndState) (frame : FrameParts) (now : ℕ)
        → verdict_of s e frame now ≡ Is.Stale → after_frame s e frame now ≡ e }
{}

/// At one tick an end sends at most four frames more than its window has packets: a HELLO of version 1 that was still
/// due, a HELLO of each version, a DATA frame for each packet within the window, and an ACK.
pub fn polls_of_a_tick_end()
    // This holds however often the end is polled.
    ensures most { (s : Settings) (e : EndState) (now polls : ℕ) → IsTimes s.times
        → length (frames_polled s e now polls) ≤ s.window + 4 }
    ensures none { (s : Settings) (e : EndState) (now polls : ℕ) → IsTimes s.times → s.window + 4 ≤ polls
        → frame_due s (after_polls s e now polls) now ≡ None }
    // Once no frame is due, none becomes due at that tick.
    ensures settled { (s : Settings) (e : EndState) (now polls : ℕ) → frame_due s e now ≡ None
        → after_polls s e now polls ≡ e }
{}

/// While the peer is not known to speak version 2, the next frame after a HELLO of version 2 is a HELLO of version 1,
/// even if another HELLO of version 2 is owed by then.
pub fn old_hello_comes_right_after()
    ensures unbound { (s : Settings) (e : EndState) (own now : ℕ) → e.phase ≡ Unbound own → e.owes_old_hello ≡ true
        → e.speaks_two ≡ false
        → frame_due s e now ≡ Some (frame_sent s One own e.heard Hello) }
    ensures bound { (s : Settings) (e : EndState) (life : Life) (now : ℕ) → e.phase ≡ Bound life
        → e.owes_old_hello ≡ true → e.speaks_two ≡ false
        → frame_due s e now ≡ Some (frame_sent s One life.own life.peer Hello) }
    // A new end sends a HELLO of version 2. Then a HELLO of version 1 arrives, so that another HELLO is owed. The end
    // sends its HELLO of version 1 first, and then one of each version.
    ensures worked { map (λ f. f.header.version) (frames_polled worked_settings behind_hello 0 6)
        ≡ One ∷ Two ∷ One ∷ [] }
    // The same frames are sent if the end last sent a HELLO of version 2 ten ticks ago and none of version 1 since.
    ensures worked_later { map (λ f. f.header.version) (frames_polled worked_settings given_hello 10 6)
        ≡ One ∷ Two ∷ One ∷ [] }
{}

/// One to sixteen packets that are submitted at one tick go in one frame, if the peer is known to speak version 2, no
/// packet waited before and no HELLO is due. No other frame is due at that tick. So queries for sixteen destinations
/// are one datagram for each neighbour.
pub fn flood_is_one_frame()
    ensures one { (s : Settings) (e : EndState) (life : Life) (packets : List Packet) (now : ℕ) → IsIdle s e life now
        → 0 < length packets → length packets ≤ MOST_PACKETS → length packets ≤ s.window
        → e.acknowledged + length packets ≤ GREATEST_NUMBER
        → frame_due s (after_submits e life packets) now ≡ Some (flood_frame s e life packets) }
    ensures only { (s : Settings) (e : EndState) (life : Life) (packets : List Packet) (now : ℕ) → IsTimes s.times
        → IsIdle s e life now
        → 0 < length packets → length packets ≤ MOST_PACKETS → length packets ≤ s.window
        → e.acknowledged + length packets ≤ GREATEST_NUMBER
        → frame_due s (after_transmit s (after_submits e life packets) now) now ≡ None }
{}

/// `Times::STANDARD` is 10 ticks between HELLOs, 50 of silence, 5 between tries, and 8 tries, and is accepted by each
/// `new`.
pub fn standard_times()
    ensures are { STANDARD ≡ record { hello = 10; silent = 50; retry = 5; tries = 8 } }
    ensures valid { IsTimes STANDARD }
{}

/// The table of a link end is complete and exact: each input in each state has a row, and the result and the new state
/// are those of the row.
pub fn link_ends_follow_the_table()
    ensures frame { (s : Settings) (e : EndState) (f : FrameParts) (now : ℕ) (verdict : Verdict) (after : EndState)
        → Hears s e f.header f.body now verdict after ↔ ((verdict ≡ verdict_of s e f now)
        × (after ≡ after_frame s e f now)) }
    ensures open { (e : EndState) (life now : ℕ) (after : EndState) → e.phase ≡ Closed → e.last_life < life
        → Opens e life now after ↔ (after ≡ after_open e life now) }
    ensures tick { (s : Settings) (e : EndState) (now : ℕ) (after : EndState) → Ticks s e now after
        ↔ (after ≡ after_tick s e now) }
    ensures submit { (e : EndState) (life : Life) (packet : Packet) (answer : Result (Unit {0}) SubmitError)
        (after : EndState)
        → Submits e life packet answer after ↔ ((answer ≡ submit_answer e life packet)
        × (after ≡ after_submit e life packet)) }
    ensures cut { (e : EndState) (life : Life) (after : EndState) → Cuts e life after ↔ (after ≡ after_cut e life) }
    ensures transmit { (s : Settings) (e : EndState) (now : ℕ) (frame : Option FrameParts) (after : EndState)
        → Tells s e now frame after ↔ ((frame ≡ frame_due s e now) × (after ≡ after_transmit s e now)) }
    ensures event { (e : EndState) (event : Option LinkEvent) (after : EndState)
        → Gives e event after ↔ ((event ≡ first_event e) × (after ≡ after_poll_event e)) }
{}
