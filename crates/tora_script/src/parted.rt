//! Pairs of nodes between which nothing is delivered.
ghost use Rattle.std.specs.Prelude.{◌≡◌, ◌++◌, ◌∷◌, [], OnOk, IfOk};
ghost use Rattle.tora_script.specs.Parted.{is_same_pair, is_parted};
ghost use Rattle.tora_script.specs.PartedKeys.{key_of};
ghost use Rattle.tora_script.specs.SimulationText.{with_parted, without_parted};

use crate::pair_bits::{SMALL, clear_bit, has_bit, make_bits, set_bit};
use crate::pair_record::{NodePair, PairRecord};
use crate::turns::either;
use std::alloc::{AllocError, Global};
use std::collections::HashSet;
use std::marker::Model;
use tora_height::Id;

/// Whether two pairs name the same two nodes, in either order.
pub fn is_same_pair(p: (Id, Id), q: (Id, Id)) -> bool
    ensures { result ≡ is_same_pair p q }
{
    (p.0 == q.0 && p.1 == q.1) || (p.0 == q.1 && p.1 == q.0)
}

/// Whether the nodes are parted. It compares every pair, several at once, which is faster than a search for the first
/// that is equal.
pub fn is_parted(parted: &[(Id, Id)], a: Id, b: Id) -> bool
    ensures { result ≡ is_parted parted.now a b }
{
    let mut found = false;
    for pair in parted {
        found = either(found, is_same_pair((a, b), *pair));
    }
    found
}

/// The parted pairs of nodes. A test reads one bit if both nodes are below 1,024, otherwise one key. Mending changes
/// both.
///
/// Contracts see the pairs in the order in which they were parted. Only their keys and bits are in memory.
#[derive(Drop)]
pub struct Parted {
    pairs: PairRecord,
    /// The lower and the higher node of each pair.
    keys: HashSet<(Id, Id)>,
    /// A bit for each pair of nodes below 1,024: 128 kB, allocated when two such nodes are first parted.
    bits: Vec<u64>,
}

impl Model for Parted {
    ghost use Rattle.std.specs.Prelude.{ℕ, List};
    ghost use Rattle.tora_script.specs.PairBits.{AreBits};
    ghost use Rattle.tora_script.specs.PartedKeys.{AreKeys};

    ghost Value = { List (ℕ × ℕ) };

    ghost view = { λ p. p.pairs.pairs };

    ghost invariant = { λ p. AreKeys p.keys p.pairs.pairs × AreBits p.bits.items p.pairs.pairs };
}

impl Parted {
    /// No pairs.
    pub fn new(alloc: Global) -> Parted
        ensures { result ≡ [] }
    {
        let pairs = PairRecord::new();
        let keys = HashSet::new(alloc);
        let bits = Vec::new(alloc);
        Parted { pairs, keys, bits }
    }

    /// The parted pairs that a list names.
    ///
    /// # Errors
    /// Memory ran out.
    pub fn of(alloc: Global, pairs: &[(Id, Id)]) -> Result<Parted, AllocError>
        ensures { IfOk result (λ parted. parted ≡ pairs.now) }
    {
        let mut parted = Parted::new(alloc);
        for pair in pairs {
            parted.push(*pair)?;
        }
        Ok(parted)
    }

    /// Whether the nodes are parted. For nodes below 1,024 only their bit is read.
    #[inline(always)]
    pub fn is_parted(&self, a: Id, b: Id) -> bool
        ensures { result ≡ is_parted self.now a b }
    {
        let key = key_of(a, b);
        if key.1 < SMALL {
            has_bit(&self.bits, key)
        } else {
            self.keys.contains(&key)
        }
    }

    /// Parts two nodes.
    ///
    /// # Errors
    /// Memory ran out.
    pub fn part(&mut self, a: Id, b: Id) -> Result<(), AllocError>
        ensures { OnOk result (self.new ≡ with_parted a b self.old) }
    {
        if self.is_parted(a, b) {
            return Ok(());
        }
        self.push((a, b))?;
        Ok(())
    }

    /// Ends the parting of two nodes. If they are not parted, nothing changes.
    pub fn mend(&mut self, a: Id, b: Id)
        ensures { self.new ≡ without_parted a b self.old }
    {
        let key = key_of(a, b);
        self.keys.remove(&key);
        clear_bit(&mut self.bits, key);
        let nodes = NodePair {
            first: a,
            second: b,
        };
        self.pairs = PairRecord::without(&self.pairs, &nodes);
    }

    /// Appends a pair.
    fn push(&mut self, pair: (Id, Id)) -> Result<(), AllocError>
        ensures { OnOk result (self.new ≡ self.old ++ pair ∷ []) }
    {
        let key = key_of(pair.0, pair.1);
        make_bits(&mut self.bits, key)?;
        self.keys.insert(key)?;
        set_bit(&mut self.bits, key);
        let nodes = NodePair {
            first: pair.0,
            second: pair.1,
        };
        self.pairs = PairRecord::with(&self.pairs, &nodes);
        Ok(())
    }
}

/// The lower and the higher node.
#[inline(always)]
fn key_of(a: Id, b: Id) -> (Id, Id)
    ensures { result ≡ key_of (a, b) }
{
    (a.min(b), a.max(b))
}
