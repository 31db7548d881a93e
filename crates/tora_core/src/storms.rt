//! Nodes with `Erasure::Plain` may never come to rest.
ghost use Rattle.std.specs.Prelude.{◌≡◌, ℕ, ◌^◌, ℤ, pos, neg_ℤ, ◌+ℤ◌, ◌≤ℤ◌};
ghost use Rattle.tora_core.specs.Storms.{GoesOn};

/// With `Erasure::Plain`, three nodes with links to each other whose destination is cut off may send packets until
/// delta reaches 2^30, although no link changes, no packet is lost and no route is needed. Each receives a clear, a
/// query and an update from both others, and broadcasts the same three packets with delta one higher.
pub fn plain_nodes_may_never_rest()
    ensures { (now : ℕ) (delta : ℤ) → neg_ℤ (pos (2 ^ 30)) ≤ℤ delta → (delta +ℤ pos 2) ≤ℤ pos (2 ^ 30)
        → GoesOn now delta 1 2 3 × GoesOn now delta 2 1 3 × GoesOn now delta 3 1 2 }
{}
