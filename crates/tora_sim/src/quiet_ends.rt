//! The deadline of a link end.
ghost use Rattle.std.specs.Prelude.{◌≡◌, false, IfNone, IfSome};
ghost use Rattle.tora_arq.specs.LinkEnd.{after_frame};
ghost use Rattle.tora_frame.specs.FrameParts.{IsHeader, frame_of};
ghost use Rattle.tora_frame.specs.declared.parts.Body.{Body};
ghost use Rattle.tora_sim.specs.Links.{with_state};
ghost use Rattle.tora_sim.specs.Quiet.{IsDeadline, MayOnlySend};

use crate::links::LinkParts;
use tora_frame::{BorrowedFrame, Header};

impl LinkParts {
    /// Whether the end may have something to do besides sending: it is closed, an outbound message waits for it, or it
    /// has an event to give.
    #[inline(always)]
    fn is_busy(&self) -> bool
        ensures { result ≡ false → MayOnlySend self.now }
    {
        if self.is_closed() {
            return true;
        }
        if self.has_cargo() {
            return true;
        }
        self.has_event()
    }

    /// The tick before which the end has nothing to do; 0 if it has something to do at once.
    #[inline(always)]
    pub fn deadline(&self) -> u64
        ensures { IsDeadline result self.now }
    {
        if self.is_busy() {
            return 0;
        }
        self.quiet_end_until()
    }

    /// Handles a frame, and returns `deadline` of the new state. `None` if memory runs out; nothing changes then.
    #[inline(always)]
    pub fn receive_and_look(&mut self, frame: &BorrowedFrame<'_>, now: u64) -> Option<u64>
        ensures state { IfSome result (λ _. self.new ≡ with_state self.old
            (after_frame self.old.settings self.old.state frame.now now)) }
        ensures idle { IfSome result (λ until. IsDeadline until self.new) }
        ensures none { IfNone result (self.new ≡ self.old) }
    {
        if !self.receive(frame, now) {
            return None;
        }
        Some(self.deadline())
    }

    /// Handles a HELLO, given by its header, as `receive_and_look` does.
    #[inline(always)]
    pub fn receive_hello_and_look(&mut self, header: &Header, now: u64) -> Option<u64>
        requires { IsHeader header.now }
        ensures state { IfSome result (λ _. self.new ≡ with_state self.old
            (after_frame self.old.settings self.old.state (frame_of header.now Body.Hello) now)) }
        ensures idle { IfSome result (λ until. IsDeadline until self.new) }
        ensures none { IfNone result (self.new ≡ self.old) }
    {
        if !self.receive_hello(header, now) {
            return None;
        }
        Some(self.deadline())
    }
}
