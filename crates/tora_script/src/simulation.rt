//! The state of a simulation file between two lines.
ghost use Rattle.std.specs.Prelude.{◌≡◌, []};
ghost use Rattle.tora_script.specs.Table.{lines_of};
ghost use Rattle.tora_arq.specs.Settings.{IsTimes};

use crate::channel::ChannelTable;
use crate::link_lines::LinkLines;
use crate::running_simulation::Running;
use crate::setup::Setup;

/// The state between two lines of a simulation file.
#[derive(Drop)]
pub enum Stage<S> {
    /// No first line `dests LIST` was accepted yet.
    First,
    /// The first line was accepted, and since then only links and lines about single nodes.
    Links(LinkLines),
    /// The first line after these was accepted, so the world is made.
    Runs(Running<S>),
}

/// A simulation file in progress: its setup (no time of a link end is 0), the table of its channel file, and the state
/// between two lines.
#[derive(Drop)]
pub struct Simulation<S> {
    pub setup: Setup,
    pub table: ChannelTable,
    pub stage: Stage<S>,
    ghost are_times: { ∥ IsTimes setup.times ∥₁ },
}

impl<S> Simulation<S> {
    /// The state before the first line, with one channel for all rounds.
    pub fn new(setup: Setup) -> Simulation<S>
        requires { IsTimes setup.times }
        ensures setup { result.setup ≡ setup }
        ensures table { lines_of result.table ≡ [] }
        ensures stage { result.stage ≡ Stage.First }
    {
        Simulation::with_table(setup, ChannelTable::none())
    }

    /// The state before the first line, with a channel that a table changes by round.
    pub fn with_table(setup: Setup, table: ChannelTable) -> Simulation<S>
        requires { IsTimes setup.times }
        ensures setup { result.setup ≡ setup }
        ensures table { result.table ≡ table }
        ensures stage { result.stage ≡ Stage.First }
    {
        Simulation {
            setup,
            table,
            stage: Stage::First,
        }
    }
}
