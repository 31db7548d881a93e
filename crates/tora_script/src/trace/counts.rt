//! How many datagrams were sent, by kind.
ghost use Rattle.std.specs.Prelude.{◌≡◌, ◌++◌, OnOk, IfOk, string_bytes};
ghost use Rattle.tora_script.specs.TraceRecords.{counts_text, frames_record};
ghost use Rattle.tora_script.specs.Trace.{no_frames, one_more, with_body, with_frame, has_none};

use std::alloc::AllocError;
use tora_frame::Body;

/// Counts of datagrams since the last record of them.
#[derive(Clone, Copy, Debug, PartialEq, Eq)]
pub struct FrameCounts {
    /// How many HELLO frames.
    pub hellos: u64,
    /// How many DATA frames.
    pub datas: u64,
    /// How many ACK frames.
    pub acks: u64,
    /// How many datagrams of these kinds were sent over a parted link, where rounds do not deliver.
    pub losts: u64,
}

/// The count, plus one if `is_more`. Fails if that is 2^64.
fn one_more(is_more: bool, count: u64) -> Result<u64, AllocError>
    ensures { IfOk result (λ n. n ≡ one_more is_more count) }
{
    if !is_more {
        return Ok(count);
    }
    match count.checked_add(1) {
        Some(n) => Ok(n),
        None => Err(AllocError),
    }
}

impl FrameCounts {
    /// Counts of 0.
    pub fn none() -> FrameCounts
        ensures { result ≡ no_frames }
    {
        FrameCounts {
            hellos: 0,
            datas: 0,
            acks: 0,
            losts: 0,
        }
    }

    /// Whether no datagram was counted.
    pub fn is_none(self) -> bool
        ensures { result ≡ has_none self }
    {
        self.hellos == 0 && self.datas == 0 && self.acks == 0
    }

    /// The counts with one more datagram of the kind of this body. Fails if a count would be 2^64.
    fn and_body(self, body: &Body) -> Result<FrameCounts, AllocError>
        ensures { IfOk result (λ counts. counts ≡ with_body body.now self) }
    {
        match body {
            Body::Hello => Ok(FrameCounts {
                hellos: one_more(true, self.hellos)?,
                ..self
            }),
            Body::Data(_, _, _) => Ok(FrameCounts {
                datas: one_more(true, self.datas)?,
                ..self
            }),
            Body::Ack(_) => Ok(FrameCounts {
                acks: one_more(true, self.acks)?,
                ..self
            }),
        }
    }

    /// The counts with one more datagram of the kind of this body; `is_parted` says whether its link is parted. Fails
    /// if a count would be 2^64.
    pub fn and(self, body: &Body, is_parted: bool) -> Result<FrameCounts, AllocError>
        ensures { IfOk result (λ counts. counts ≡ with_frame is_parted body.now self) }
    {
        let counts = self.and_body(body)?;
        Ok(FrameCounts {
            losts: one_more(is_parted, counts.losts)?,
            ..counts
        })
    }
}

/// Appends two counts to a text.
fn write_counts(out: &mut String, a: u64, b: u64) -> Result<(), AllocError>
    ensures { OnOk result (string_bytes out.new ≡ string_bytes out.old ++ counts_text a b) }
{
    write!(out, " {a} {b}")
}

/// Appends the record `T frames H D A L` with these counts to a text, where T is `now`, in ticks.
#[tactic(auto, unfolding(crate::specs::TraceRecords::frames_record))]
pub fn write_frames(out: &mut String, now: u64, counts: &FrameCounts) -> Result<(), AllocError>
    ensures { OnOk result (string_bytes out.new ≡ string_bytes out.old ++ frames_record now counts.now) }
{
    write!(out, "{now} frames")?;
    write_counts(out, counts.hellos, counts.datas)?;
    write_counts(out, counts.acks, counts.losts)?;
    writeln!(out, "")
}
