//! A core with the packets that its last accepted step broadcast, which a handle of a core holds.
ghost use Rattle.std.specs.Prelude.{◌≡◌, ◌<◌, All, IfErr, IfOk, MatchOption, None, OnOk, true};
ghost use Rattle.tora_core.specs.CoreRun.{core_refusal_within};
ghost use Rattle.tora_c.specs.CoreNode.{erasure_of, first_node, has_zero, new_refusal, node_after, step_code};

use crate::codes::{CHOICE, MEMORY, OK, ZERO, core_code, refused_code};
use arrayvec::ArrayVec;
use std::alloc::Global;
use std::marker::Model;
use tora_core::numbers::has_number;
use tora_core::{Core, CoreLimits, Erasure, Input, Sends};

/// A core, and the packets that its last accepted step broadcast. Two lists take turns, so that a refused step leaves
/// these packets, and none is moved.
#[derive(Drop)]
pub struct CoreNode {
    pub core: Core,
    first: Sends,
    second: Sends,
    /// Whether the second list has the packets of the last step.
    is_second: bool,
}

impl Model for CoreNode {
    ghost use Rattle.std.specs.Prelude.{if◌then◌else◌};
    ghost use Rattle.tora_c.specs.CoreNode.{NodeView};

    ghost Value = { NodeView };

    ghost view = { λ n. record { core = n.core; sent = if n.is_second then n.second.items else n.first.items } };
}

/// The choice of erasure for a number: 0 is `Plain`, 1 is `Remembered`; `None` for any other number.
pub fn erasure_of(choice: u32) -> Option<Erasure>
    ensures { result ≡ erasure_of choice }
{
    if choice == 0 {
        Some(Erasure::Plain)
    } else if choice == 1 {
        Some(Erasure::Remembered)
    } else {
        None
    }
}

impl CoreNode {
    /// A new core within the greatest limits, which has sent nothing. The error is a code, in this order: `CHOICE`,
    /// `ZERO`, `TOO_MANY`, `REPEATED`, `OWN_ID`, `MEMORY`.
    pub fn new(
        alloc: Global,
        me: u32,
        neighbours: &[u32],
        destinations: &[u32],
        choice: u32,
    ) -> Result<CoreNode, u32>
        ensures made { IfOk result (λ n. MatchOption (erasure_of choice) ⊥ (λ erasure.
            n ≡ first_node erasure me neighbours.now destinations.now)) }
        ensures accepted { OnOk result (new_refusal me neighbours.now destinations.now choice ≡ None) }
        ensures refused { MatchOption (new_refusal me neighbours.now destinations.now choice)
            (IfErr result (λ code. code ≡ MEMORY)) (λ code. result ≡ Err code) }
    {
        let Some(erasure) = erasure_of(choice) else {
            return Err(CHOICE);
        };
        if me == 0 || has_number(0, neighbours) || has_number(0, destinations) {
            return Err(ZERO);
        }
        match Core::with_erasure(
            alloc,
            erasure,
            CoreLimits::GREATEST,
            me,
            neighbours,
            destinations,
        ) {
            Ok(core) => Ok(CoreNode {
                core,
                first: ArrayVec::new(),
                second: ArrayVec::new(),
                is_second: false,
            }),
            Err(error) => Err(core_code(error)),
        }
    }

    /// A second core with the same state. The error is `MEMORY`.
    pub fn try_clone(&self, alloc: Global) -> Result<CoreNode, u32>
        ensures value { IfOk result (λ n. n ≡ self.now) }
        ensures memory { IfErr result (λ code. code ≡ MEMORY) }
    {
        let Ok(core) = self.core.try_clone(alloc) else {
            return Err(MEMORY);
        };
        let Ok(first) = self.sent().clone() else {
            return Err(MEMORY);
        };
        Ok(CoreNode {
            core,
            first,
            second: ArrayVec::new(),
            is_second: false,
        })
    }

    /// The packets that the last accepted step broadcast.
    pub fn sent(&self) -> &Sends
        ensures { result.now.items ≡ self.now.sent }
    {
        if self.is_second {
            &self.second
        } else {
            &self.first
        }
    }

    /// Steps the core with an input at the tick `now`, and returns `OK` or the code of the refusal (`refused_code`). A
    /// refused input changes nothing.
    pub fn step(&mut self, input: Input, now: u64) -> u32
        ensures code { result ≡ step_code self.old input }
        ensures node { self.new ≡ node_after self.old input now }
    {
        if self.is_second {
            match self.core.step_into(&input, now, &mut self.first) {
                Ok(()) => {
                    self.is_second = false;
                    OK
                }
                Err(error) => refused_code(error),
            }
        } else {
            match self.core.step_into(&input, now, &mut self.second) {
                Ok(()) => {
                    self.is_second = true;
                    OK
                }
                Err(error) => refused_code(error),
            }
        }
    }
}
