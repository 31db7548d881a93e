//! The wires of a node's links.
ghost use Rattle.std.specs.Prelude.{◌≡◌, ◌⊎◌, IfOk, IfErr, IfSome, is_some, length, map};
ghost use Rattle.tora_commands.specs.Statuses.{status_of_fault, HasEndpoints, HasNoEndpoints, HasNoKey, IsUnstarted};
ghost use Rattle.tora_keyed.specs.Links.{over, cleared};
ghost use Rattle.tora_neighbour.specs.WakingWire.{WireView};

use crate::configuration::{ConfigError, LinkEndpoint, read_endpoints};
use crate::key_file::key_at;
use crate::node_command::{Fault, say};
use log::Log;
use std::alloc::Global;
use std::fmt::Display;
use std::fs::File;
use std::io::ErrorKind;
use std::net::Net;
use std::rt::Files;
use std::time::Clock;
use tora_keyed::{Key, LinkWire};
use tora_neighbour::{NodeClock, SocketWaker, UnixClock, WakingWire};
use tora_simulate::{Paths, report_at};

/// The addresses of a link, and its key: it has one exactly if it has a key file.
#[derive(Drop)]
pub(crate) struct KeyedEndpoint {
    endpoint: LinkEndpoint,
    key: Option<Key>,
    ghost keyed: { is_some key ≡ is_some endpoint.key_file },
}

/// The wire of a link of the program.
pub(crate) type ProgramWire<'a, R, L> = LinkWire<'a, WakingWire<'a, &'a R>, UnixClock<&'a R>, L>;

/// The waker of a link of the program, which ends its waits.
pub(crate) type ProgramWaker<'a, R> = SocketWaker<'a, &'a R>;

/// The key of a link; `None` if it has no key file. `Config` if the file cannot be read or has no key.
fn key_of<R: Paths + Files<File = File> + Eprint>(
    rt: &R,
    endpoint: &LinkEndpoint,
) -> Result<Option<Key>, Fault>
    ensures key { IfOk result (λ key. is_some key ≡ is_some endpoint.now.key_file) }
    ensures none { IfErr result (λ fault. HasNoKey (R.did_open rt.now) (status_of_fault fault)) }
{
    match &endpoint.key_file {
        Some(path) => {
            let key = key_at(rt, path.as_str())?;
            Ok(Some(key))
        }
        None => Ok(None),
    }
}

/// The addresses of each link, by ascending neighbour, from the configuration text at a path, and the keys from their
/// files. Reports on standard error what is wrong; the error is `Memory` if memory ran out, otherwise `Config`.
pub(crate) fn endpoints_in<R: Paths + Files<File = File> + AllocGlobal + Eprint>(
    rt: &R,
    path: &str,
    text: &str,
) -> Result<Vec<KeyedEndpoint>, Fault>
    ensures endpoints { IfOk result (λ keyed. HasEndpoints text.now (length keyed.items)) }
    ensures fault { IfErr result (λ fault. HasNoEndpoints text.now (status_of_fault fault)
        ⊎ (HasNoKey (R.did_open rt.now) (status_of_fault fault) ⊎ (status_of_fault fault ≡ 5))) }
{
    let endpoints = match read_endpoints(rt.alloc(), text) {
        Ok(endpoints) => endpoints,
        Err(ConfigError::Memory) => return Err(say(rt, Fault::Memory)),
        Err(error) => {
            let fault = say(rt, Fault::Config);
            report_at(rt, "input: ", path, &error);
            return Err(fault);
        }
    };
    with_keys(rt, endpoints)
}

/// The addresses by ascending neighbour, with the keys from their files. Reports on standard error what is wrong:
/// `Config` if a key file cannot be read or has no key, `Memory`.
fn with_keys<R: Paths + Files<File = File> + AllocGlobal + Eprint>(
    rt: &R,
    endpoints: Vec<LinkEndpoint>,
) -> Result<Vec<KeyedEndpoint>, Fault>
    ensures count { IfOk result (λ keyed. length keyed.items ≡ length endpoints.items) }
    ensures fault { IfErr result (λ fault. HasNoKey (R.did_open rt.now) (status_of_fault fault)
        ⊎ (status_of_fault fault ≡ 5)) }
{
    let mut keyed = Vec::new(rt.alloc());
    for endpoint in endpoints {
        let key = match key_of(rt, &endpoint) {
            Ok(key) => key,
            Err(fault) => return Err(fault),
        };
        let Ok(()) = keyed.push(KeyedEndpoint { endpoint, key }) else {
            return Err(say(rt, Fault::Memory));
        };
    }
    keyed.sort_unstable_by_key(|keyed| keyed.endpoint.peer);
    Ok(keyed)
}

/// Reports on standard error why the socket of a link cannot be bound.
fn report_socket(rt: &impl Eprint, endpoint: &LinkEndpoint, error: &impl Display) {
    let (peer, port) = (endpoint.peer, endpoint.local.port());
    let _ = rt.eprintln(format_args!("tora: socket: port {port} of the link to {peer}: {error}"));
}

/// The wire of a link, and its waker.
type Woken<'a, R, L> = (ProgramWire<'a, R, L>, ProgramWaker<'a, R>);

/// Binds the socket of a link and wraps it as a wire, with the link's key if it has one. The wire logs to `log`.
/// `Memory` if memory ran out, otherwise `Socket`; the cause is reported on standard error.
fn wire_of<'a, R: Net + Eprint + Clock, L: Log>(
    rt: &'a R,
    log: &'a L,
    alloc: Global,
    clock: &'a NodeClock<&'a R>,
    keyed: KeyedEndpoint,
) -> Result<Woken<'a, R, L>, Fault>
    ensures wire { IfOk result (λ woken. (wire : WireView _) × (woken.0 ≡ over wire keyed.key)
        × (wire.remote ≡ keyed.endpoint.remote) × (wire.failures ≡ 0)) }
    ensures fault { IfErr result (λ fault. IsUnstarted (status_of_fault fault)) }
{
    let KeyedEndpoint { endpoint, key } = keyed;
    match WakingWire::bind(rt, alloc, clock, endpoint.local, endpoint.remote) {
        Ok((wire, waker)) => {
            let wire = LinkWire::new(wire, key, endpoint.peer, UnixClock::new(rt), log);
            Ok((wire, waker))
        }
        Err(error) if error.kind() == ErrorKind::OutOfMemory => Err(say(rt, Fault::Memory)),
        Err(error) => {
            let fault = say(rt, Fault::Socket);
            report_socket(rt, &endpoint, &error);
            Err(fault)
        }
    }
}

/// Binds the socket of each link, in the order of `endpoints`. Returns the wires and their wakers. The errors are those
/// of `wire_of`, at the first link that has one.
pub(crate) fn bind<'a, R: Net + Eprint + Clock, L: Log>(
    rt: &'a R,
    log: &'a L,
    alloc: Global,
    clock: &'a NodeClock<&'a R>,
    endpoints: Vec<KeyedEndpoint>,
) -> Result<(Vec<ProgramWire<'a, R, L>>, Vec<ProgramWaker<'a, R>>), Fault>
    ensures count { IfOk result (λ bound. length bound.0.items ≡ length endpoints.items) }
    ensures fault { IfErr result (λ fault. IsUnstarted (status_of_fault fault)) }
{
    let mut wires = Vec::new(alloc);
    let mut wakers = Vec::new(alloc);
    for endpoint in endpoints {
        let (wire, waker) = wire_of(rt, log, alloc, clock, endpoint)?;
        let (Ok(()), Ok(())) = (wires.push(wire), wakers.push(waker)) else {
            return Err(say(rt, Fault::Memory));
        };
    }
    Ok((wires, wakers))
}

/// Borrows each wire, in this order. `None` if memory ran out.
pub(crate) fn lend<W>(alloc: Global, wires: &mut [W]) -> Option<Vec<&mut W>>
    ensures { IfSome result (λ lent. map (λ l. l.now) lent.items ≡ wires.old) }
{
    let mut lent = Vec::new(alloc);
    let each = wires.iter_mut();
    for wire in each {
        let Ok(()) = lent.push(wire) else {
            return None;
        };
    }
    Some(lent)
}

/// Closes each wire after the node has ended: logs the last counts of the links with keys, and overwrites their keys.
pub(crate) fn close<R: Net + Clock, L: Log>(wires: &mut [ProgramWire<'_, R, L>])
    ensures { wires.new ≡ map cleared wires.old }
{
    for wire in wires.iter_mut() {
        wire.close();
    }
}
