//! The node, neighbours and destinations of a core.
ghost use Rattle.std.specs.Prelude.{◌≡◌, ◌<◌, All, Err, IfErr, IfOk, MatchOption, None, OnOk};
ghost use Rattle.tora_core.specs.CoreRun.{core_refusal, first_core, first_core_of};
ghost use Rattle.tora_core.specs.Numbers.{IsAscending};

use std::alloc::Global;
use std::marker::Model;
use tora_core::{Core, CoreError, CoreLimits, Erasure, numbers_are_put_in_order};
use tora_height::Id;

/// A node with its neighbours and the destinations of its table.
#[derive(Drop)]
pub struct Config {
    core: Core,
}

impl Model for Config {
    ghost use Rattle.tora_core.specs.CoreRun.{CoreView};
    ghost use Rattle.tora_core.specs.Numbers.{IsAscending};

    ghost Value = { CoreView };

    ghost view = { λ c. c.core };

    ghost invariant = { λ c. IsAscending c.core.neighbours };
}

impl Config {
    /// Node `me` with these neighbours and destinations, in any order, none of them 0.
    ///
    /// # Errors
    /// In this order: `TooMany` for more than 32 neighbours or 64 destinations, `Repeated` within one list, `OwnId` if
    /// `me` is among the neighbours, `Memory`.
    pub fn new(alloc: Global, me: Id, peers: &[Id], dests: &[Id]) -> Result<Config, CoreError>
        requires me { 0 < me }
        requires peers { All (λ n. 0 < n) peers.now }
        requires dests { All (λ n. 0 < n) dests.now }
        ensures value { IfOk result (λ config. config ≡ first_core me peers.now dests.now) }
        ensures accepted { OnOk result (core_refusal me peers.now dests.now ≡ None) }
        ensures refused { MatchOption (core_refusal me peers.now dests.now)
            (IfErr result (λ e. e ≡ CoreError.Memory)) (λ e. result ≡ Err e) }
    {
        Config::with_erasure(alloc, Erasure::Plain, me, peers, dests)
    }

    /// As `new`, with this treatment of erased levels.
    ///
    /// # Errors
    /// Those of `new`, in the same order.
    pub fn with_erasure(
        alloc: Global,
        erasure: Erasure,
        me: Id,
        peers: &[Id],
        dests: &[Id],
    ) -> Result<Config, CoreError>
        requires me { 0 < me }
        requires peers { All (λ n. 0 < n) peers.now }
        requires dests { All (λ n. 0 < n) dests.now }
        ensures value { IfOk result (λ config. config ≡ first_core_of erasure me peers.now dests.now) }
        ensures accepted { OnOk result (core_refusal me peers.now dests.now ≡ None) }
        ensures refused { MatchOption (core_refusal me peers.now dests.now)
            (IfErr result (λ e. e ≡ CoreError.Memory)) (λ e. result ≡ Err e) }
    {
        numbers_are_put_in_order();
        let limits = CoreLimits::STANDARD;
        let core = Core::with_erasure(alloc, erasure, limits, me, peers, dests)?;
        Ok(Config { core })
    }

    /// The neighbours, in ascending order.
    pub fn peers(&self) -> &[Id]
        ensures { result.now ≡ self.now.neighbours }
    {
        self.core.neighbours()
    }

    /// The core that the node begins with.
    pub fn into_core(self) -> Core
        ensures same { result ≡ self }
        ensures ascending { IsAscending result.neighbours }
    {
        self.core
    }
}
