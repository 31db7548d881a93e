//! Whether a simulation file has reached its last round.
ghost use Rattle.std.specs.Prelude.{◌≡◌};
ghost use Rattle.tora_script.specs.Done.{is_done_at};
ghost use Rattle.tora_script.specs.SimulationText.{is_done};

use crate::simulation::{Simulation, Stage};
use crate::simulator::Simulator;

/// Whether as many rounds are done as `--until` says; `false` without it.
pub fn is_done(until: Option<u64>, rounds: u64) -> bool
    ensures { result ≡ is_done until rounds }
{
    match until {
        None => false,
        Some(until) => until <= rounds,
    }
}

impl<S: Simulator> Simulation<S> {
    /// Whether as many rounds are done as `--until` says; `false` without it. Before the simulation runs, 0 rounds are
    /// done.
    pub fn is_done(&self) -> bool
        ensures { result ≡ is_done_at self.now.setup.until self.now.stage }
    {
        match &self.stage {
            Stage::First => is_done(self.setup.until, 0),
            Stage::Links(_) => is_done(self.setup.until, 0),
            Stage::Runs(running) => is_done(self.setup.until, running.in_flight.round),
        }
    }
}
