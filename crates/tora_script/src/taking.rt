//! How a simulation takes a line after its links.
ghost use Rattle.std.specs.Prelude.{◌≡◌, [], OnOk, string_bytes};
ghost use Rattle.tora_lines.specs.Gives.{Gives};
ghost use Rattle.tora_script.specs.Table.{lines_of, over};
ghost use Rattle.tora_script.specs.RunningView.{running_view};
ghost use Rattle.tora_script.specs.SimulationText.{script_reply, script_line_reply, rounds_left, after_rounds_on};

use crate::channel::ChannelTable;
use crate::done::is_done;
use crate::network::Network;
use crate::parse::simulation_line;
use crate::rounds::make_rounds;
use crate::running_simulation::Running;
use crate::script_line::SimulationLine;
use crate::simulator::Simulator;
use std::alloc::AllocError;
use tora_lines::words::LineError;

impl<S: Simulator> Running<S> {
    /// How many of `count` rounds `--until` still allows.
    fn rounds_left(&self, until: Option<u64>, count: u64) -> u64
        ensures { result ≡ rounds_left until self.now.in_flight.round count }
    {
        match until {
            None => count,
            Some(until) => count.min(until.saturating_sub(self.in_flight.round)),
        }
    }

    /// Makes rounds over a channel that a table changes by round.
    pub fn rounds_over(&mut self, table: &ChannelTable, count: u64) -> Result<(), AllocError>
        ensures { OnOk result (running_view S.world self.new ≡ after_rounds_on (over table.now self.old.channel) count
            (running_view S.world self.old)) }
    {
        let network = Network {
            nodes: &self.nodes,
            ends: &self.ends,
            parted: &self.parted,
            channel: self.channel,
            table,
        };
        make_rounds(&mut self.sim, count, &network, &mut self.in_flight)
    }

    /// Carries out a line as `answer` does, except that rounds end at the last round of `--until`, and that a table may
    /// change the channel by round.
    #[tactic(auto, unfolding(crate::specs::SimulationText::script_reply))]
    fn script(
        &mut self,
        until: Option<u64>,
        table: &ChannelTable,
        line: SimulationLine,
        out: &mut String,
    ) -> Result<(), LineError>
        requires { string_bytes out.old ≡ [] }
        ensures { Gives (λ _. ((running_view S.world self.new), string_bytes out.new)) result
            (script_reply until (lines_of table.now) (running_view S.world self.old) line) }
    {
        match line {
            SimulationLine::Rounds(count) => {
                let left = self.rounds_left(until, count);
                self.rounds_over(table, left)?;
                Ok(())
            }
            _ => self.answer(line, out),
        }
    }

    /// Takes a line of a simulation, and writes its output to an empty text. A table may change the channel by round.
    /// After the last round of `--until` any line is accepted and does nothing.
    ///
    /// # Errors
    /// `Fault` if the line has no form of a line after the links, or is no event and names a node, link or destination
    /// that does not exist; `Memory` if memory ran out.
    pub fn take(
        &mut self,
        until: Option<u64>,
        table: &ChannelTable,
        line: &[u8],
        out: &mut String,
    ) -> Result<(), LineError>
        requires { string_bytes out.old ≡ [] }
        ensures { Gives (λ _. ((running_view S.world self.new), string_bytes out.new)) result
            (script_line_reply until (lines_of table.now) (running_view S.world self.old) line.now) }
    {
        self.refused = None;
        if is_done(until, self.in_flight.round) {
            return Ok(());
        }
        let Some(line) = simulation_line(line) else {
            return Err(LineError::Fault);
        };
        self.script(until, table, line, out)
    }
}
