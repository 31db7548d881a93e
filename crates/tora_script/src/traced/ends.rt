//! The first and the last record of a trace.
ghost use Rattle.std.specs.Prelude.{◌≡◌, ◌++◌, false, is_some, option_map, IfOk, OnOk, string_bytes};
ghost use Rattle.std.specs.Io.KnownBytes.{Appends};
ghost use Rattle.tora_script.specs.Ends.{field, flag, more_fields, until_field, file_field, remembered_fields};
ghost use Rattle.tora_script.specs.Ends.{erasure_fields, first_record, last_record};

use crate::Setup;
use crate::traced::trace_out::TraceOut;
use std::alloc::{AllocError, Global};
use tora_core::Erasure;
use tora_lines::Output;

/// Appends a blank and a number to a text.
fn field(out: &mut String, n: u64) -> Result<(), AllocError>
    ensures { OnOk result (string_bytes out.new ≡ string_bytes out.old ++ field n) }
{
    write!(out, " {n}")
}

/// 1 for true, 0 for false.
fn flag(is: bool) -> u64
    ensures { result ≡ flag is }
{
    if is { 1 } else { 0 }
}

/// Appends ` UNTIL FILE` to a text if there is a last round or a channel file, with `-` for the one that is missing.
fn more_fields(out: &mut String, until: Option<u64>, file: Option<&str>) -> Result<(), AllocError>
    ensures { OnOk result (string_bytes out.new ≡ string_bytes out.old
        ++ more_fields until (option_map (λ w. w.now) file.entry)) }
{
    match (until, file) {
        (None, None) => Ok(()),
        (Some(until), None) => write!(out, " {until} -"),
        (Some(until), Some(file)) => write!(out, " {until} {file}"),
        (None, Some(file)) => write!(out, " - {file}"),
    }
}

/// Appends ` N` for the last round N to a text, or ` -` if there is none.
#[tactic(auto, unfolding(crate::specs::Ends::until_field))]
fn until_field(out: &mut String, until: Option<u64>) -> Result<(), AllocError>
    ensures { OnOk result (string_bytes out.new ≡ string_bytes out.old ++ until_field until) }
{
    match until {
        None => out.push_str(" -"),
        Some(until) => field(out, until),
    }
}

/// Appends a blank and the digest of the channel file to a text, or ` -` if there is no such file.
#[tactic(auto, unfolding(crate::specs::Ends::file_field))]
fn file_field(out: &mut String, file: Option<&str>) -> Result<(), AllocError>
    ensures { OnOk result (string_bytes out.new ≡ string_bytes out.old
        ++ file_field (option_map (λ w. w.now) file.entry)) }
{
    match file {
        None => out.push_str(" -"),
        Some(file) => write!(out, " {file}"),
    }
}

/// Appends ` UNTIL FILE remembered` to a text, with `-` for a missing last round or channel file.
fn remembered_fields(
    out: &mut String,
    until: Option<u64>,
    file: Option<&str>,
) -> Result<(), AllocError>
    ensures { OnOk result (string_bytes out.new ≡ string_bytes out.old
        ++ remembered_fields until (option_map (λ w. w.now) file.entry)) }
{
    until_field(out, until)?;
    file_field(out, file)?;
    out.push_str(" remembered")
}

/// Appends the last fields of the first record to a text: those of `more_fields` for `Plain`, and of
/// `remembered_fields` for `Remembered`.
fn erasure_fields(
    out: &mut String,
    erasure: Erasure,
    until: Option<u64>,
    file: Option<&str>,
) -> Result<(), AllocError>
    ensures { OnOk result (string_bytes out.new ≡ string_bytes out.old
        ++ erasure_fields erasure until (option_map (λ w. w.now) file.entry)) }
{
    match erasure {
        Erasure::Plain => more_fields(out, until, file),
        Erasure::Remembered => remembered_fields(out, until, file),
    }
}

/// The line `0 trace 1 HELLO SILENCE RETRY TRIES LOSS LEAST MOST REPEAT SEED NOTICE`, with ` UNTIL FILE` if there is a
/// last round or a channel file, or with ` UNTIL FILE remembered` if nodes remember erased levels.
#[tactic(auto, unfolding(crate::specs::Ends::first_record))]
fn first_line(alloc: Global, setup: Setup, file: Option<&str>) -> Result<String, AllocError>
    ensures { IfOk result (λ text. string_bytes text ≡ first_record setup (option_map (λ w. w.now) file.entry)) }
{
    let (t, c) = (setup.times, setup.channel);
    let mut text = String::new(alloc);
    write!(&mut text, "0 trace 1")?;
    field(&mut text, t.hello)?;
    field(&mut text, t.silent)?;
    field(&mut text, t.retry)?;
    field(&mut text, t.tries)?;
    field(&mut text, u64::from(c.loss))?;
    field(&mut text, u64::from(c.least))?;
    field(&mut text, u64::from(c.most))?;
    field(&mut text, u64::from(c.repeat))?;
    field(&mut text, c.seed)?;
    field(&mut text, flag(setup.has_notice))?;
    erasure_fields(&mut text, setup.options.erasure, setup.until, file)?;
    writeln!(&mut text, "")?;
    Ok(text)
}

/// The line `T end DIGEST`.
#[tactic(auto, unfolding(crate::specs::Ends::last_record))]
fn last_line(alloc: Global, now: u64, digest: &str) -> Result<String, AllocError>
    ensures { IfOk result (λ text. string_bytes text ≡ last_record now digest.now) }
{
    let mut text = String::new(alloc);
    writeln!(&mut text, "{now} end {digest}")?;
    Ok(text)
}

impl<W: Output> TraceOut<W> {
    /// Writes the first record: the version of the format, the settings of the simulation, and the digest of the
    /// channel file, if there is one. If memory runs out, the writer counts as failed.
    pub fn begin(&mut self, alloc: Global, setup: Setup, file: Option<&str>)
        ensures { is_some self.new.failure ≡ false → Appends (W.contents self.old.writer) (W.contents self.new.writer)
            (first_record setup (option_map (λ w. w.now) file.entry)) }
    {
        match first_line(alloc, setup, file) {
            Ok(text) => self.put(0, text.as_bytes()),
            Err(_) => self.fail(),
        }
    }

    /// Writes the last record `T end DIGEST`, where T is the clock of the last write and DIGEST is that of the input.
    /// Nothing is written if the writer has failed. If memory runs out, it counts as failed.
    pub fn finish(&mut self, alloc: Global, digest: &str)
        ensures { is_some self.new.failure ≡ false → Appends (W.contents self.old.writer) (W.contents self.new.writer)
            (last_record self.old.clock digest.now) }
    {
        match last_line(alloc, self.clock, digest) {
            Ok(text) => self.put(self.clock, text.as_bytes()),
            Err(_) => self.fail(),
        }
    }
}
