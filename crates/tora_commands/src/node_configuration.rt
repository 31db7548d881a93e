//! The configuration of a node, read from the file at a path, and what standard error says of it.
ghost use Rattle.std.specs.Prelude.{◌≡◌, ◌⊎◌, length, IfOk, IfErr, string_bytes};
ghost use Rattle.tora_commands.specs.Statuses.{status_of_fault, IsConfigOf, IsNoConfig, IsConfigured, IsUnconfigured};
ghost use Rattle.tora_simulate.specs.Paths.{IsRead, IsUnread, IsFailed};

use crate::configuration::{ConfigError, NodeConfig, read_config};
use crate::link_wires::{KeyedEndpoint, endpoints_in};
use crate::node_command::{Fault, say};
use std::fs::File;
use std::io::{ErrorKind, Read};
use std::rt::Files;
use tora_simulate::{Paths, report_at, text_at};

/// The text at a path. If it cannot be read, reports why on standard error; the error is `Memory` if memory ran out,
/// otherwise `Config`.
fn text_of<R: Paths + AllocGlobal + Eprint>(rt: &R, path: &str) -> Result<String, Fault>
    ensures read { IfOk result (λ text. IsRead (R.did_open rt.now path.now) R.did_read R.File.remaining
        (string_bytes text)) }
    ensures failed { IfErr result (λ fault. IsFailed (IsUnread (R.did_open rt.now path.now) R.did_read)
        (status_of_fault fault)) }
{
    match text_at(rt, rt.alloc(), path) {
        Ok(text) => Ok(text),
        Err(error) => {
            if error.kind() == ErrorKind::OutOfMemory {
                return Err(say(rt, Fault::Memory));
            }
            let fault = say(rt, Fault::Config);
            report_at(rt, "input: ", path, &error);
            Err(fault)
        }
    }
}

/// The configuration in a text that was read at a path. Reports on standard error what is wrong; the error is `Memory`
/// if memory ran out, otherwise `Config`.
fn config_of<R: AllocGlobal + Eprint>(rt: &R, path: &str, text: &str) -> Result<NodeConfig, Fault>
    ensures says { IfOk result (IsConfigOf text.now) }
    ensures refused { IfErr result (λ fault. IsNoConfig text.now (status_of_fault fault)
        ⊎ (status_of_fault fault ≡ 5)) }
{
    match read_config(rt.alloc(), text) {
        Ok(config) => Ok(config),
        Err(ConfigError::Memory) => Err(say(rt, Fault::Memory)),
        Err(error) => {
            let fault = say(rt, Fault::Config);
            report_at(rt, "input: ", path, &error);
            Err(fault)
        }
    }
}

/// Reads the configuration at a path, and then the keys of its links. Reports on standard error what is wrong; the
/// error is `Memory` if memory ran out, otherwise `Config`.
pub(crate) fn read<R: Paths + Files<File = File> + AllocGlobal + Eprint>(
    rt: &R,
    path: &str,
) -> Result<(NodeConfig, Vec<KeyedEndpoint>), Fault>
    ensures says { IfOk result (λ read. IsConfigured (R.did_open rt.now) R.did_read ⟦<File as Read>⟧.remaining path.now
        read.0) }
    ensures count { IfOk result (λ read. length read.1.items ≡ length read.0.links.items) }
    ensures refused { IfErr result (λ fault. IsUnconfigured (R.did_open rt.now) R.did_read ⟦<File as Read>⟧.remaining
        path.now (status_of_fault fault)) }
{
    let text = match text_of(rt, path) {
        Ok(text) => text,
        Err(fault) => return Err(fault),
    };
    let said = text.as_str();
    let config = match config_of(rt, path, said) {
        Ok(config) => config,
        Err(fault) => return Err(fault),
    };
    let endpoints = match endpoints_in(rt, path, said) {
        Ok(endpoints) => endpoints,
        Err(fault) => return Err(fault),
    };
    if endpoints.len() != config.links.len() {
        return Err(say(rt, Fault::Config));
    }
    Ok((config, endpoints))
}

/// The ending of a noun after this count: `s`, or nothing for 1.
fn plural(count: usize) -> &'static str {
    if count == 1 { "" } else { "s" }
}

/// Reports on standard error that the configuration is valid, with two counts.
fn praise_counts(
    rt: &impl Eprint,
    path: &str,
    (m, first): (usize, &str),
    (n, second): (usize, &str),
) {
    let (p, q) = (plural(m), plural(n));
    let _ = rt.eprintln(format_args!("tora: {path}: ok, {m} {first}{p}, {n} {second}{q}"));
}

/// Reports on standard error that the configuration is valid, and how many links and destinations it has.
pub(crate) fn praise(rt: &impl Eprint, path: &str, config: &NodeConfig) {
    let links = (config.links.len(), "link");
    let dests = (config.dests.len(), "destination");
    praise_counts(rt, path, links, dests);
}
