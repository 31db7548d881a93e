//! A copy of a node's core, which records each input that the core accepted.
ghost use Rattle.std.specs.Prelude.{◌≡◌, ◌<◌, All, true, nat_lt, IfOk, IfErr, OnOk, MatchOption, Err, None};
ghost use Rattle.std.specs.Prelude.{string_bytes};
ghost use Rattle.std.specs.List.{list_all};
ghost use Rattle.tora_script.specs.CoreCopies.{TakesInput, TakesInputs, Restarts, are_ids, copy_refusal, first_copy};
ghost use Rattle.tora_script.specs.CoreCopies.{copy_after, input_records, after_input, after_inputs, copy_restarted};
ghost use Rattle.tora_script.specs.CoreCopies.{restart_records};

use crate::trace::lives::{note_lives, write_link};
use crate::trace::packets::write_packets;
use crate::trace::route::{Route, note_routes, routes_to, write_routes};
use std::alloc::{AllocError, Global};
use std::marker::Model;
use tora_arq::Life;
use tora_core::{Core, CoreError, CoreLimits, Erasure, Input, Sends};
use tora_height::Id;

/// A copy of a node's core, the last session in which each of its links came up since the last restart, and the last
/// recorded route to each destination.
#[derive(Drop)]
pub struct CoreCopy {
    core: Core,
    lives: Vec<(Id, Life)>,
    routes: Vec<Route>,
}

impl Model for CoreCopy {
    ghost use Rattle.tora_script.specs.CoreCopies.{CopyState};

    ghost Value = { CopyState };

    ghost view = { λ c. record { core = c.core; lives = c.lives.items; routes = c.routes.items } };
}

/// Whether no number is 0.
fn has_no_zero(numbers: &[Id]) -> bool
    ensures { result ≡ list_all (λ n. nat_lt 0 n) numbers.now }
{
    numbers.iter().all(|n| *n > 0)
}

/// Whether no number is 0.
fn are_ids(numbers: &[Id]) -> bool
    ensures exact { result ≡ are_ids numbers.now }
    ensures all { result ≡ true → All (λ n. 0 < n) numbers.now }
{
    has_no_zero(numbers)
}

impl CoreCopy {
    /// The copy of a new core with this treatment of erased levels. The first route to each destination counts as
    /// recorded.
    ///
    /// # Errors
    /// In this order: `OwnId` if a number is 0; those of a new core within the greatest limits, `Memory` last.
    pub fn new(
        alloc: Global,
        erasure: Erasure,
        me: Id,
        neighbours: &[Id],
        destinations: &[Id],
    ) -> Result<CoreCopy, CoreError>
        ensures made { IfOk result (λ copy. copy ≡ first_copy erasure me neighbours.now destinations.now) }
        ensures accepted { OnOk result (copy_refusal me neighbours.now destinations.now ≡ None) }
        ensures refused { MatchOption (copy_refusal me neighbours.now destinations.now)
            (IfErr result (λ e. e ≡ CoreError.Memory)) (λ e. result ≡ Err e) }
    {
        if me == 0 || !are_ids(neighbours) || !are_ids(destinations) {
            return Err(CoreError::OwnId);
        }
        let core = Core::with_erasure(
            alloc,
            erasure,
            CoreLimits::GREATEST,
            me,
            neighbours,
            destinations,
        )?;
        let Ok(routes) = routes_to(alloc, &core, core.destinations()) else {
            return Err(CoreError::Memory);
        };
        Ok(CoreCopy {
            core,
            lives: Vec::new(alloc),
            routes,
        })
    }

    /// Steps an input that the core accepted, and appends its records to a text. `life` is the session that the item of
    /// the input reported as up; `None` if it reported none.
    #[tactic(auto, unfolding(crate::specs::CoreCopies::copy_after, crate::specs::CoreCopies::input_records), using(crate::proofs::CopyOwners::me_stays))]
    fn step(
        &mut self,
        input: &Input,
        now: u64,
        life: Option<Life>,
        sends: &mut Sends,
        out: &mut String,
    ) -> Result<(), AllocError>
        ensures told { OnOk result (TakesInput life self.old input.now now self.new (string_bytes out.old)
            (string_bytes out.new)) }
        ensures me { self.new.core.me ≡ self.old.core.me }
    {
        note_lives(&mut self.lives, input, life)?;
        // The copy accepts what its core accepted.
        let _ = self.core.step_into(input, now, sends);
        let (n, count) = (self.core.me(), self.core.up().len());
        write_link(out, now, n, self.lives.as_slice(), input)?;
        write_packets(out, now, n, count, sends.as_slice())?;
        write_routes(out, now, &self.core, self.routes.as_slice())?;
        note_routes(&self.core, self.routes.as_mut_slice());
        Ok(())
    }

    /// Steps the inputs that the core accepted in an item, each at its tick, and appends their records to a text.
    /// `life` is the session that the item reported as up, if it did.
    pub fn step_all(
        &mut self,
        inputs: &[(Input, u64)],
        life: Option<Life>,
        sends: &mut Sends,
        out: &mut String,
    ) -> Result<(), AllocError>
        ensures told { OnOk result (TakesInputs life self.old inputs.now self.new (string_bytes out.old)
            (string_bytes out.new)) }
        ensures me { self.new.core.me ≡ self.old.core.me }
    {
        for (input, now) in inputs {
            self.step(input, *now, life, sends, out)?;
        }
        Ok(())
    }

    /// Replaces the core by a new one with the same treatment of erased levels, and appends the records of the routes
    /// that changed to a text.
    #[tactic(auto, unfolding(crate::specs::CoreCopies::copy_restarted, crate::specs::CoreCopies::restart_records))]
    pub fn restart(&mut self, alloc: Global, now: u64, out: &mut String) -> Result<(), AllocError>
        ensures told { OnOk result (Restarts now self.old self.new (string_bytes out.old) (string_bytes out.new)) }
        ensures me { self.new.core.me ≡ self.old.core.me }
    {
        let core = &self.core;
        let Ok(core) = Core::with_erasure(
            alloc,
            core.erasure(),
            CoreLimits::GREATEST,
            core.me(),
            core.neighbours(),
            core.destinations(),
        ) else {
            return Err(AllocError);
        };
        self.core = core;
        self.lives.clear();
        write_routes(out, now, &self.core, self.routes.as_slice())?;
        note_routes(&self.core, self.routes.as_mut_slice());
        Ok(())
    }
}
