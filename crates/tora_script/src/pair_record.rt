//! The parted pairs of nodes, for contracts only: a ghost list, which takes no memory.
ghost use Rattle.std.specs.Prelude.{◌≡◌, ℕ, not, List, [], ◌∷◌, ◌++◌, filter};
ghost use Rattle.std.specs.Borrow.{ftrue};
ghost use Rattle.tora_script.specs.Parted.{is_same_pair};

use std::marker::Model;
use tora_height::Id;

/// Two nodes.
#[derive(Clone, Copy)]
pub struct NodePair {
    pub first: Id,
    pub second: Id,
}

/// The parted pairs, in the order in which they were parted. They take no memory at run time.
#[derive(Drop)]
pub struct PairRecord {
    pub ghost pairs: { List (ℕ × ℕ) },
}

impl Model for PairRecord {
    ghost also_owns = { λ _. ftrue };
}

impl PairRecord {
    /// No pairs.
    pub fn new() -> PairRecord
        ensures { result.pairs ≡ [] }
    {
        PairRecord {}
    }

    /// The pairs with one more.
    pub fn with(_before: &PairRecord, _pair: &NodePair) -> PairRecord
        ensures { result.pairs ≡ _before.now.pairs ++ (_pair.now.first, _pair.now.second) ∷ [] }
    {
        PairRecord {}
    }

    /// The pairs without those of the two nodes.
    pub fn without(_before: &PairRecord, _pair: &NodePair) -> PairRecord
        ensures { result.pairs ≡ filter (λ r. not (is_same_pair (_pair.now.first, _pair.now.second) r))
            _before.now.pairs }
    {
        PairRecord {}
    }
}
