//! The state that a drive has besides the simulation.
ghost use Rattle.std.specs.Prelude.{◌≡◌, [], OnOk, Some, None, if◌then◌else◌};
ghost use Rattle.tora_drive.specs.DriveText.{first_state, with_silent, without_silent};
ghost use Rattle.tora_drive.specs.DriveView.{state_view, record_view};
ghost use Rattle.tora_drive.specs.Recording.{event_line, text_record, with_record, with_text, with_line, cleared};

use crate::event_lines::write_event_line;
use crate::stepping::is_silent;
use std::alloc::{AllocError, Global};
use tora_height::Id;
use tora_world::Event;

/// The state that only a drive has: the silent ends, each as its node and its neighbour, of which a `step` sends no
/// frame; and the number up to which datagrams can no longer be named, 0 if all can.
#[derive(Drop)]
pub struct DriveState {
    pub silent: Vec<(Id, Id)>,
    pub forgotten: u64,
    /// The lines that were recorded for the line that was taken last; `None` if the drive has no record.
    pub recorded: Option<Vec<u8>>,
}

/// Removes an end from the silent ends.
fn take_away(silent: &mut Vec<(Id, Id)>, end: (Id, Id))
    ensures { silent.new.items ≡ without_silent end silent.old.items }
{
    silent.retain(|e| !(end.0 == e.0 && end.1 == e.1));
}

impl DriveState {
    /// The state before the first line: no end is silent, nothing is forgotten, and nothing is recorded.
    pub fn new(alloc: Global) -> DriveState
        ensures view { state_view result ≡ first_state }
        ensures record { record_view result ≡ None }
    {
        DriveState {
            silent: Vec::new(alloc),
            forgotten: 0,
            recorded: None,
        }
    }

    /// The state before the first line, with an empty record.
    pub fn recorded(alloc: Global) -> DriveState
        ensures view { state_view result ≡ first_state }
        ensures record { record_view result ≡ Some [] }
    {
        DriveState {
            silent: Vec::new(alloc),
            forgotten: 0,
            recorded: Some(Vec::new(alloc)),
        }
    }

    /// Empties the record, if there is one.
    pub fn clear_record(&mut self)
        ensures view { state_view self.new ≡ state_view self.old }
        ensures record { record_view self.new ≡ cleared (record_view self.old) }
    {
        if let Some(bytes) = &mut self.recorded {
            bytes.clear();
        }
    }

    /// Starts an empty record if `is_recorded`. Otherwise there is no record.
    pub fn renew_record(&mut self, alloc: Global, is_recorded: bool)
        ensures view { state_view self.new ≡ state_view self.old }
        ensures record { record_view self.new ≡ (if is_recorded then Some [] else None) }
    {
        self.recorded = if is_recorded {
            Some(Vec::new(alloc))
        } else {
            None
        };
    }

    /// Appends bytes to the record, if there is one.
    pub fn put(&mut self, bytes: &[u8]) -> Result<(), AllocError>
        ensures view { state_view self.new ≡ state_view self.old }
        ensures record { OnOk result (record_view self.new ≡ with_record (record_view self.old) bytes.now) }
    {
        if let Some(recorded) = &mut self.recorded {
            recorded.extend_from_slice(bytes)?;
        }
        Ok(())
    }

    /// An empty text for the lines of a step's events, if there is a record.
    pub fn new_text(&self, alloc: Global) -> Option<String>
        ensures { text_record result ≡ cleared (record_view self.now) }
    {
        match &self.recorded {
            None => None,
            Some(_) => Some(String::new(alloc)),
        }
    }

    /// Appends a text, if there is one, to the record, if there is one.
    pub fn put_text(&mut self, text: &Option<String>) -> Result<(), AllocError>
        ensures view { state_view self.new ≡ state_view self.old }
        ensures record { OnOk result (record_view self.new ≡ with_text (record_view self.old) (text_record text.now)) }
    {
        match text {
            None => Ok(()),
            Some(text) => self.put(text.as_bytes()),
        }
    }

    /// Appends a line and its LF to the record, if there is one.
    pub fn put_line(&mut self, line: &[u8]) -> Result<(), AllocError>
        ensures view { state_view self.new ≡ state_view self.old }
        ensures record { OnOk result (record_view self.new ≡ with_line (record_view self.old) line.now) }
    {
        self.put(line)?;
        self.put(b"\n")
    }

    /// Appends the line of an event to the record, if there is one.
    pub fn put_event(&mut self, alloc: Global, event: &Event) -> Result<(), AllocError>
        ensures view { state_view self.new ≡ state_view self.old }
        ensures record { OnOk result (record_view self.new ≡ with_record (record_view self.old) (event_line
            event.now)) }
    {
        if let Some(recorded) = &mut self.recorded {
            let mut line = String::new(alloc);
            write_event_line(&mut line, event)?;
            recorded.extend_from_slice(line.as_bytes())?;
        }
        Ok(())
    }

    /// Makes an end silent: a `step` no longer sends its frames.
    pub fn silence(&mut self, end: (Id, Id)) -> Result<(), AllocError>
        ensures view { OnOk result (state_view self.new ≡ record (state_view self.old) {
          silent =
              with_silent end (state_view self.old).silent;
        }) }
        ensures record { record_view self.new ≡ record_view self.old }
    {
        if is_silent(&self.silent, end) {
            return Ok(());
        }
        self.silent.push(end)?;
        Ok(())
    }

    /// Makes a silent end send again; an end that is not silent stays as it is.
    pub fn wake(&mut self, end: (Id, Id))
        ensures view { state_view self.new ≡ record (state_view self.old) {
          silent = without_silent end (state_view
              self.old).silent;
        } }
        ensures record { record_view self.new ≡ record_view self.old }
    {
        take_away(&mut self.silent, end);
    }
}
