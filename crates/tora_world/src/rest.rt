//! The laws of worlds at rest. Each is the contract of a function that has no parameters and does nothing.
ghost use Rattle.std.specs.Prelude.{◌≡◌, ◌≢◌, ◌↔◌, ℕ, true, List, [], Some};
ghost use Rattle.tora_height.specs.Height.{Quintuple};
ghost use Rattle.tora_world.specs.Rest.{IsAtRest, rests, LacksHeight, EntriesAreHeights, FollowsHops, HopsDown};
ghost use Rattle.tora_world.specs.Rest.{ComesDown, HaveHeights, last_of, IsReached};
ghost use Rattle.tora_world.specs.Losses.{RememberedAreLostInSilence, StaleAreLost};
ghost use Rattle.tora_world.specs.World.{World};
ghost use Rattle.tora_world.specs.Walks.{EveryWorld, height_at, Arrives};

use crate::laws::layers_keep_their_laws;

/// A world is at rest exactly if every node and each of its links pass the test `rests`, which
/// `tora_sim::Sim::is_at_rest` computes.
pub fn rest_is_computed()
    ensures { (w : World) → (rests w ≡ true) ↔ IsAtRest w }
{
    layers_keep_their_laws();
}

/// In a world at rest each entry of a node for a neighbour whose link is up is NULL or the neighbour's height, or the
/// neighbour has no height.
///
/// It holds for every world that events reach over a topology that is not refused, with any ticks and results of
/// queues. By the prefix and no-gap laws, a core has taken in a current session all that the neighbour's core broadcast
/// since its link came up. By TORA's rules a node broadcasts each height that it takes, so its last update has its
/// height, unless it has none now.
pub fn entries_at_rest_are_heights()
    ensures entries { EveryWorld (λ w. IsAtRest w → EntriesAreHeights w) }
    // If an entry is not NULL and its neighbour has no height, the neighbour had that height and lost it in one of
    // three ways: with a clear of another level, with its last entry, or because no height in range was left.
    ensures stale { EveryWorld (λ w. IsAtRest w → StaleAreLost w) }
    // At nodes that remember erased levels only the last two ways are possible: the neighbour broadcast nothing when it
    // lost the height.
    ensures remembered { EveryWorld (λ w. IsAtRest w → RememberedAreLostInSilence w) }
{
    layers_keep_their_laws();
}

/// In a world at rest walks go down: the next hop of a node that has a height is the destination, a node with a lower
/// height, or a node without a height. So there is no loop among nodes that all have heights.
///
/// Its proof uses `entries_at_rest_are_heights` and, like `exact_entries_give_walks`, the lower neighbour law and the
/// order of heights.
pub fn walks_at_rest_go_down()
    // The next hop of a node other than the destination is lower, or has no height. The destination is lower than any
    // other node.
    ensures hops { EveryWorld (λ w. IsAtRest w → (d n : ℕ) (height : Quintuple) → n ≢ d
        → height_at w n d ≡ Some (Some height) → HopsDown w d n) }
    // The hops reach the destination or a node without a height in at most as many hops as there are nodes.
    ensures walks { EveryWorld (λ w. IsAtRest w → (d n : ℕ) (height : Quintuple) → height_at w n d ≡ Some (Some height)
        → ComesDown w n d) }
    // Hops over nodes that have heights never return to a node.
    ensures loops { EveryWorld (λ w. IsAtRest w → (d n : ℕ) (height : Quintuple) (nodes : List ℕ)
        → height_at w n d ≡ Some (Some height)
        → FollowsHops w d n nodes → HaveHeights w d nodes → last_of n nodes ≡ n → nodes ≡ []) }
{
    layers_keep_their_laws();
}

/// In a world at rest routes arrive if no node lacks a height: the next hops lead from a node that has a height to the
/// destination, if every node that is reachable from it over links has a height.
pub fn routes_at_rest_arrive()
    ensures { EveryWorld (λ w. IsAtRest w → (d n : ℕ) (height : Quintuple) → height_at w n d ≡ Some (Some height)
        → ((k : ℕ) → IsReached w d n k → ¬ LacksHeight w k d) → Arrives w n d) }
{
    layers_keep_their_laws();
}
