//! What an input changes in a core and what it leaves unchanged: facts for the crates above.
ghost use Rattle.std.specs.Prelude.{◌≡◌, ◌≢◌, ◌↔◌, ◌==◌, ◌&&◌, ◌||◌, not, ℕ, true, false, None, List, length, map};
ghost use Rattle.std.specs.List.{AllByRecursion};
ghost use Rattle.tora_packet.specs.declared.Packet.{Packet};
ghost use Rattle.tora_packet.specs.AnyPacket.{destination_of};
ghost use Rattle.tora_core.specs.declared.Input.{Input};
ghost use Rattle.tora_core.specs.declared.Input.TheVariants.{LinkDown, LinkUp, Need, Packet as From};
ghost use Rattle.tora_core.specs.Numbers.{IsAscending, ascending, has_number, has_repeat, with_number, without_number};
ghost use Rattle.tora_core.specs.CoreRun.{CoreView, concerns, core_after, has_destination, is_from, refusal_of};
ghost use Rattle.tora_core.specs.CoreRun.{sends_of, view_of};
ghost use Rattle.tora_core.specs.Kept.{IsCore, destinations_of};

/// No input changes the node, its configured neighbours or the destinations of its table.
pub fn tables_stay()
    ensures node { (c : CoreView) (input : Input) (now : ℕ) → (core_after c input now).me ≡ c.me }
    ensures erasure { (c : CoreView) (input : Input) (now : ℕ) → (core_after c input now).erasure ≡ c.erasure }
    ensures neighbours { (c : CoreView) (input : Input) (now : ℕ) → (core_after c input now).neighbours ≡ c.neighbours }
    ensures destinations { (c : CoreView) (input : Input) (now : ℕ)
        → destinations_of (core_after c input now).views ≡ destinations_of c.views }
{}

/// A link is up after an accepted `LinkUp`, and not up after an accepted `LinkDown`. These inputs change no other link,
/// and a packet or a need changes no link.
pub fn links_follow_inputs()
    ensures comes { (c : CoreView) (k now : ℕ) → refusal_of c (LinkUp k) ≡ None
        → has_number k (core_after c (LinkUp k) now).up ≡ true }
    ensures goes { (c : CoreView) (k now : ℕ) → refusal_of c (LinkDown k) ≡ None
        → has_number k (core_after c (LinkDown k) now).up ≡ false }
    ensures others_at_up { (c : CoreView) (j k now : ℕ) → j ≢ k
        → has_number j (core_after c (LinkUp k) now).up ≡ has_number j c.up }
    ensures others_at_down { (c : CoreView) (j k now : ℕ) → j ≢ k
        → has_number j (core_after c (LinkDown k) now).up ≡ has_number j c.up }
    ensures at_packet { (c : CoreView) (k : ℕ) (packet : Packet) (now : ℕ)
        → (core_after c (From k packet) now).up ≡ c.up }
    ensures at_need { (c : CoreView) (d now : ℕ) → (core_after c (Need d) now).up ≡ c.up }
{}

/// When an input is accepted: `LinkUp` if the neighbour is configured and its link is not up; `LinkDown` and `Packet`
/// if its link is up, an update only with its sender's height; `Need` if the table has the destination.
pub fn inputs_are_accepted()
    ensures link_up { (c : CoreView) (k : ℕ) → (refusal_of c (LinkUp k) ≡ None)
        ↔ ((has_number k c.neighbours ≡ true) × (has_number k c.up ≡ false)) }
    ensures link_down { (c : CoreView) (k : ℕ) → (refusal_of c (LinkDown k) ≡ None)
        ↔ ((has_number k c.neighbours ≡ true) × (has_number k c.up ≡ true)) }
    ensures packet { (c : CoreView) (k : ℕ) (packet : Packet) → (refusal_of c (From k packet) ≡ None)
        ↔ ((has_number k c.neighbours ≡ true) × (has_number k c.up ≡ true) × (is_from k packet ≡ true)) }
    ensures need { (c : CoreView) (d : ℕ) → (refusal_of c (Need d) ≡ None) ↔ (has_destination d c.views ≡ true) }
{}

/// An input leaves the view of every destination that it does not concern unchanged.
pub fn other_views_stay()
    ensures { (c : CoreView) (input : Input) (now d : ℕ) → concerns input d ≡ false
        → view_of (core_after c input now) d ≡ view_of c d }
{}

/// Each neighbour whose link is up is a configured one, and the list of these neighbours ascends.
pub fn up_links_are_of_neighbours()
    ensures neighbours { (c : CoreView) (k : ℕ) → IsCore c → has_number k c.up ≡ true
        → has_number k c.neighbours ≡ true }
    ensures ascending { (c : CoreView) → IsCore c → IsAscending c.up }
{}

/// An input sends packets about destinations of the table only, at most one for each, in ascending order.
pub fn sends_ascend()
    ensures ascending { (c : CoreView) (input : Input) (now : ℕ) → IsCore c
        → IsAscending (map destination_of (sends_of c input now)) }
    ensures known { (c : CoreView) (input : Input) (now : ℕ)
        → AllByRecursion (λ packet. has_destination (destination_of packet) c.views ≡ true) (sends_of c input now) }
{}

/// Sorting keeps the numbers and their count. If no number occurs twice, each is less than the next.
pub fn numbers_are_put_in_order()
    ensures members { (n : ℕ) (numbers : List ℕ) → has_number n (ascending numbers) ≡ has_number n numbers }
    ensures count { (numbers : List ℕ) → length (ascending numbers) ≡ length numbers }
    ensures order { (numbers : List ℕ) → has_repeat numbers ≡ false → IsAscending (ascending numbers) }
{}

/// After an insertion the list has the number, after a removal it does not, and no other number is added or removed.
pub fn numbers_come_and_go()
    ensures put { (n m : ℕ) (numbers : List ℕ) → has_number n (with_number m numbers)
        ≡ ((m == n) || has_number n numbers) }
    ensures taken { (n m : ℕ) (numbers : List ℕ)
        → has_number n (without_number m numbers) ≡ (not (m == n) && has_number n numbers) }
    ensures in_order { (n : ℕ) (numbers : List ℕ) → has_number n numbers ≡ false → IsAscending numbers
        → IsAscending (with_number n numbers) }
    ensures still_in_order { (n : ℕ) (numbers : List ℕ) → IsAscending numbers → IsAscending (without_number n numbers) }
{}
