//! The state of a trace between two events, and the calls that extend it.
ghost use Rattle.std.specs.Prelude.{◌≡◌, ◌⊎◌, ◌++◌, if◌then◌else◌, ◌==◌, ⊤, IfOk, IfErr, MatchBool, OnOk, None, Some};
ghost use Rattle.std.specs.Prelude.{[], map, filter_map};
ghost use Rattle.std.specs.List.{position};
ghost use Rattle.tora_script.specs.TraceRecords.{need_record, part_record, mend_record};
ghost use Rattle.tora_script.specs.CoreCopies.{after_inputs, first_copy};
ghost use Rattle.tora_script.specs.NodeEnds.{AreByNode};
ghost use Rattle.tora_script.specs.Trace.{Tells, chosen, chosen_by, first_trace, refusal_of, trace_refusal};
ghost use Rattle.tora_script.specs.Trace.{first_copy_of, peer_of, neighbours_in, is_copy_of, owners_of, with_text};
ghost use Rattle.tora_script.specs.Trace.{with_frame, after_frames, frames_told, after_restart};

use crate::trace::core_copy::CoreCopy;
use crate::trace::counts::{FrameCounts, write_frames};
use crate::trace::ends::{are_by_node, ends_of};
use crate::trace::names::Names;
use std::alloc::{AllocError, Global};
use std::marker::Model;
use tora_arq::Life;
use tora_core::{CoreError, Erasure, Input, Sends};
use tora_frame::Frame;
use tora_height::Id;

/// The trace of a simulation: a copy of each node's core, the counts of datagrams since their last record, and the text
/// of the records that the caller has not taken yet.
///
/// The caller reports what happened after each event, in order. A method that returns `AllocError` may have appended a
/// part of its records; then only the text of the trace is still useful.
#[derive(Drop)]
pub struct Trace {
    /// The nodes; the copies are in the same order.
    names: Names,
    copies: Vec<CoreCopy>,
    counts: FrameCounts,
    /// A list for the packets of a step.
    sends: Sends,
    text: String,
}

impl Model for Trace {
    ghost use Rattle.std.specs.Prelude.{◌≡◌, string_bytes};
    ghost use Rattle.tora_script.specs.Trace.{TraceState, owners_of};

    ghost Value = { TraceState };

    ghost view = { λ t. record { copies = t.copies.items; counts = t.counts; text = string_bytes t.text } };

    ghost invariant = { λ t. owners_of t.copies.items ≡ t.names };
}

/// The neighbour of a link end, if it is an end of this node.
fn peer_of(n: Id, end: (Id, Id)) -> Option<Id>
    ensures { result ≡ peer_of n end }
{
    if end.0 == n { Some(end.1) } else { None }
}

/// The neighbours of a node.
fn neighbours_in(alloc: Global, ends: &[(Id, Id)], n: Id) -> Result<Vec<Id>, AllocError>
    ensures { IfOk result (λ v. v.items ≡ neighbours_in ends.now n) }
{
    ends.iter()
        .filter_map(|end| peer_of(n, *end))
        .collect::<Vec<Id>>(alloc)
}

/// The neighbours of a node. `is_by_node` says that the ends are in ascending order of nodes.
fn neighbours_among(
    alloc: Global,
    ends: &[(Id, Id)],
    is_by_node: bool,
    n: Id,
) -> Result<Vec<Id>, AllocError>
    requires { MatchBool is_by_node (AreByNode ends.now) ⊤ }
    ensures { IfOk result (λ v. v.items ≡ neighbours_in ends.now n) }
{
    neighbours_in(alloc, ends_of(ends, is_by_node, n), n)
}

/// The node's choice of erasure after one more line `erasure`.
fn chosen_by(n: Id, erasure: Erasure, choice: (Id, Erasure)) -> Erasure
    ensures { result ≡ chosen_by n erasure choice }
{
    if choice.0 == n { choice.1 } else { erasure }
}

/// The node's choice of erasure: the last choice of `choices` for this node, or `erasure` if there is none.
fn chosen(erasure: Erasure, choices: &[(Id, Erasure)], n: Id) -> Erasure
    ensures { result ≡ chosen erasure choices.now n }
{
    choices
        .iter()
        .fold(erasure, |erasure, choice| chosen_by(n, erasure, *choice))
}

/// The copy of a node's first core. `is_by_node` says that the ends are in ascending order of nodes.
fn first_copy(
    alloc: Global,
    erasure: Erasure,
    ends: &[(Id, Id)],
    is_by_node: bool,
    destinations: &[Id],
    n: Id,
) -> Result<CoreCopy, CoreError>
    requires { MatchBool is_by_node (AreByNode ends.now) ⊤ }
    ensures made { IfOk result (λ copy. copy ≡ first_copy erasure n (neighbours_in ends.now n) destinations.now) }
    ensures accepted { OnOk result (refusal_of ends.now destinations.now n ≡ None) }
    ensures refused { IfErr result (λ e. (e ≡ CoreError.Memory) ⊎ (refusal_of ends.now destinations.now n ≡ Some e)) }
{
    let Ok(neighbours) = neighbours_among(alloc, ends, is_by_node, n) else {
        return Err(CoreError::Memory);
    };
    CoreCopy::new(alloc, erasure, n, neighbours.as_slice(), destinations)
}

/// The index of the copy of a node's core; `None` if there is none. The copies are in the order of `names`, so no copy
/// is read.
fn place(names: &Names, copies: &[CoreCopy], n: Id) -> Option<usize>
    requires { owners_of copies.now ≡ names.now }
    ensures { result ≡ position (is_copy_of n) copies.now }
{
    let _ = copies;
    names.place(n)
}

impl Trace {
    /// The trace of new nodes, without a record. `ends` are the link ends, each as its node and its neighbour, and
    /// `destinations` those of every node's table. All nodes have `erasure`, except those in `choices`, where the last
    /// choice for a node holds.
    ///
    /// # Errors
    /// `OwnId` if a number is 0, those of a new core within the greatest limits, and `Memory`.
    #[tactic(auto, using(crate::proofs::TraceRefusals::first_on, crate::proofs::TraceRefusals::first_none, crate::proofs::TraceRefusals::first_here))]
    pub fn new(
        alloc: Global,
        erasure: Erasure,
        choices: &[(Id, Erasure)],
        nodes: &[Id],
        ends: &[(Id, Id)],
        destinations: &[Id],
    ) -> Result<Trace, CoreError>
        ensures made { IfOk result (λ trace. trace ≡ first_trace erasure choices.now nodes.now ends.now
            destinations.now) }
        ensures accepted { OnOk result (trace_refusal nodes.now ends.now destinations.now ≡ None) }
        ensures refused { IfErr result (λ e. (e ≡ CoreError.Memory)
            ⊎ (trace_refusal nodes.now ends.now destinations.now ≡ Some e)) }
    {
        let Ok(names) = Names::new(alloc, nodes) else {
            return Err(CoreError::Memory);
        };
        let Ok(mut copies) = Vec::with_capacity(alloc, nodes.len()) else {
            return Err(CoreError::Memory);
        };
        let is_by_node = are_by_node(ends);
        for n in nodes {
            let choice = chosen(erasure, choices, *n);
            let copy = first_copy(alloc, choice, ends, is_by_node, destinations, *n)?;
            if copies.push(copy).is_err() {
                return Err(CoreError::Memory);
            }
        }
        Ok(Trace {
            names,
            copies,
            counts: FrameCounts::none(),
            sends: Sends::new(),
            text: String::new(alloc),
        })
    }

    /// The records that the caller has not taken yet, each a line with its line feed.
    pub fn text(&self) -> &str
        ensures { result.now ≡ self.now.text }
    {
        self.text.as_str()
    }

    /// Clears the text, once the caller has taken the records.
    pub fn clear(&mut self)
        ensures { self.new ≡ record self.old { text = [] } }
    {
        self.text.clear();
    }

    /// Reports that a need of a destination was put into the queue of a node's core at a tick.
    ///
    /// # Errors
    /// Out of memory.
    #[tactic(auto, unfolding(crate::specs::TraceRecords::need_record))]
    pub fn need(&mut self, now: u64, n: Id, d: Id) -> Result<(), AllocError>
        ensures { OnOk result (self.new ≡ with_text self.old (need_record now n d)) }
    {
        writeln!(&mut self.text, "{now} need {n} {d}")
    }

    /// Reports that a link was parted at a tick.
    ///
    /// # Errors
    /// Out of memory.
    #[tactic(auto, unfolding(crate::specs::TraceRecords::part_record))]
    pub fn part(&mut self, now: u64, a: Id, b: Id) -> Result<(), AllocError>
        ensures { OnOk result (self.new ≡ with_text self.old (part_record now a b)) }
    {
        writeln!(&mut self.text, "{now} part {a} {b}")
    }

    /// Reports that a link was mended at a tick.
    ///
    /// # Errors
    /// Out of memory.
    #[tactic(auto, unfolding(crate::specs::TraceRecords::mend_record))]
    pub fn mend(&mut self, now: u64, a: Id, b: Id) -> Result<(), AllocError>
        ensures { OnOk result (self.new ≡ with_text self.old (mend_record now a b)) }
    {
        writeln!(&mut self.text, "{now} mend {a} {b}")
    }

    /// Reports that the core of a node accepted these inputs in an item, each at its tick. `life` is the session that
    /// the item reported as up; `None` if it reported none. Nothing changes if the trace does not have the node.
    ///
    /// # Errors
    /// Out of memory.
    pub fn turn(
        &mut self,
        n: Id,
        inputs: &[(Input, u64)],
        life: Option<Life>,
    ) -> Result<(), AllocError>
        ensures { OnOk result (Tells n self.old (after_inputs life inputs.now) self.new) }
    {
        match place(&self.names, self.copies.as_slice(), n) {
            None => Ok(()),
            Some(at) => { self.copies[at].step_all(inputs, life, &mut self.sends, &mut self.text) }
        }
    }

    /// Reports that a node restarted at a tick. Nothing changes if the trace does not have the node.
    ///
    /// # Errors
    /// Out of memory.
    pub fn restart(&mut self, now: u64, n: Id) -> Result<(), AllocError>
        ensures { OnOk result (Tells n self.old (after_restart now) self.new) }
    {
        let alloc = *self.text.allocator();
        match place(&self.names, self.copies.as_slice(), n) {
            None => Ok(()),
            Some(at) => self.copies[at].restart(alloc, now, &mut self.text),
        }
    }

    /// Reports that a datagram was sent, over a link that is parted or not. It is counted; `frames` appends the record.
    ///
    /// # Errors
    /// A count of datagrams since the last record would be 2^64.
    pub fn sent(&mut self, frame: &Frame, is_parted: bool) -> Result<(), AllocError>
        ensures { OnOk result (self.new ≡ record self.old {
          counts =
              with_frame is_parted frame.now.body self.old.counts;
        }) }
    {
        self.counts = self.counts.and(frame.body(), is_parted)?;
        Ok(())
    }

    /// Appends a record of the datagrams since the last such record, with this tick, and sets their counts to 0.
    /// Nothing changes if there are none.
    ///
    /// # Errors
    /// Out of memory.
    pub fn frames(&mut self, now: u64) -> Result<(), AllocError>
        ensures { OnOk result (self.new ≡ after_frames self.old now) }
    {
        if self.counts.is_none() {
            return Ok(());
        }
        self.write_frames(now)
    }

    /// Appends a record of the datagrams since the last such record.
    fn write_frames(&mut self, now: u64) -> Result<(), AllocError>
        ensures { OnOk result (self.new ≡ frames_told self.old now) }
    {
        write_frames(&mut self.text, now, &self.counts)?;
        self.counts = FrameCounts::none();
        Ok(())
    }
}
