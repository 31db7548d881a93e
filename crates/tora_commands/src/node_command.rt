//! `tora node CONFIG`: a node over UDP and real life files.
ghost use Rattle.std.specs.Prelude.{◌≡◌, ◌⊎◌, List, map, length, replicate, IfSome, Err, Some};
ghost use Rattle.std.specs.Process.{exit_status};
ghost use Rattle.tora_commands.specs.Statuses.{core_of, status_of_node, status_of_fault};
ghost use Rattle.tora_commands.specs.Statuses.{RanNode, EndsNode};
ghost use Rattle.tora_commands.specs.NodeConfig.{IsNodeConfig};
ghost use Rattle.tora_node.specs.NewLinks.{IsOpened};
ghost use Rattle.tora_node.specs.WholeRuns.{NodeAnswers};

use crate::configuration::NodeConfig;
use crate::life_files::{open, report_life_file};
use crate::link_wires::{ProgramWire, bind, close, lend};
use crate::node_configuration::{praise, read};
use crate::{INPUT, LIFE, MEMORY, SOCKET, stop};
use log::Log;
use std::alloc::Global;
use std::fs::File;
use std::io::{Read, Write};
use std::net::Net;
use std::process::ExitCode;
use std::rt::Files;
use std::sync::Wait;
use std::thread::Threads;
use std::time::Clock;
use tora_core::numbers_are_put_in_order;
use tora_height::Id;
use tora_life::{Disk, FileDisk};
use tora_neighbour::{NodeClock, Wake, Wire};
use tora_node::{Config, Ended, NodeError, NodeParts, run_node};
use tora_simulate::{Paths, report};

/// Why a node is not started.
#[derive(Clone, Copy, Debug, PartialEq, Eq)]
pub enum Fault {
    /// Memory ran out.
    Memory,
    /// The configuration or a key file cannot be read, or is at fault.
    Config,
    /// A socket cannot be bound.
    Socket,
    /// A life file cannot be opened.
    Life,
}

/// Reports on standard error, in one word, why a node does not start. Details follow that line.
pub(crate) fn say(rt: &impl Eprint, fault: Fault) -> Fault
    ensures { result ≡ fault }
{
    let word = match fault {
        Fault::Memory => "memory",
        Fault::Config => "input",
        Fault::Socket => "socket",
        Fault::Life => "life",
    };
    report(rt, &word);
    fault
}

/// The exit status of a node that is not started.
fn code_of(fault: Fault) -> ExitCode
    ensures { exit_status result ≡ status_of_fault fault }
{
    match fault {
        Fault::Memory => ExitCode::from(MEMORY),
        Fault::Config => ExitCode::from(INPUT),
        Fault::Socket => ExitCode::from(SOCKET),
        Fault::Life => ExitCode::from(LIFE),
    }
}

/// The exit status of a node that has ended, after its line on standard error.
fn status(rt: &impl Eprint, ended: Result<Ended, NodeError>) -> ExitCode
    ensures { exit_status result ≡ status_of_node ended }
{
    let Err(error) = ended else {
        return ExitCode::SUCCESS;
    };
    match error {
        NodeError::Memory => stop(rt, MEMORY, "memory"),
        NodeError::Lane => stop(rt, INPUT, "input"),
        NodeError::Life(_, _) => stop(rt, LIFE, "life"),
        NodeError::Wire(_) => stop(rt, SOCKET, "socket"),
        NodeError::Output => stop(rt, INPUT, "input"),
    }
}

/// Reports on standard error that the socket of the link to `peer` failed.
fn report_failing_wire(rt: &impl Eprint, peer: Id) {
    let _ = rt.eprintln(format_args!("tora: socket: the calls of the link to {peer} keep failing"));
}

/// Reports on standard error why a node that ran has ended.
fn report_cause_of_end<R: Files<File = File> + AllocGlobal + Eprint>(
    rt: &R,
    folder: &str,
    error: NodeError,
    is_verbose: bool,
) {
    match error {
        NodeError::Life(peer, error) => report_life_file(rt, folder, peer, error, is_verbose),
        NodeError::Wire(peer) => report_failing_wire(rt, peer),
        NodeError::Output => report(rt, &"input: standard output cannot be written"),
        NodeError::Memory | NodeError::Lane => {}
    }
}

/// The exit status of a node that has ended, after its line on standard error and the lines about the cause. Its life
/// files are in `folder`.
fn finish<R: Files<File = File> + AllocGlobal + Eprint>(
    rt: &R,
    folder: &str,
    ended: Result<Ended, NodeError>,
    is_verbose: bool,
) -> ExitCode
    ensures { exit_status result ≡ status_of_node ended }
{
    let cause = match &ended {
        Ok(_) => None,
        Err(error) => Some(*error),
    };
    let code = status(rt, ended);
    if let Some(error) = cause {
        report_cause_of_end(rt, folder, error, is_verbose);
    }
    code
}

/// The options of a running node.
#[derive(Clone, Copy)]
pub struct NodeOptions {
    /// Whether its configuration and keys are only read.
    pub is_check: bool,
    /// Whether standard error has the owner of a life file of another node.
    pub is_verbose: bool,
}

/// Reads the configuration at a path, binds the sockets, opens the life files, and runs the node, which logs to `log`,
/// until its commands end it.
///
/// The first fault ends it before a thread is started: the configuration or a key file (status 1), then a socket, by
/// ascending neighbour (3), then a life file, by ascending neighbour (4); memory at any point (5). With `is_check` it
/// reads the configuration and the keys, reports that they are valid, and ends. Standard error has the cause of a fault
/// and, if `is_verbose`, the owner of a life file of another node.
///
/// At the end it logs how many datagrams of each link with a key were not authentic, and overwrites the keys. It
/// returns the writer, unchanged if no node ran, or `None`, only if memory ran out.
pub fn run<
    'a,
    R: Paths + Files<File = File> + AllocGlobal + Eprint + Net + Clock + Sync,
    L: Threads + Wait + Log + Sync,
    Rd: Read,
    W: Write + Send + Drop,
>(
    rt: &'a R,
    log: &'a L,
    path: &str,
    options: NodeOptions,
    reader: &mut Rd,
    writer: W,
) -> (ExitCode, Option<W>)
    ensures { EndsNode options.is_check (R.did_open rt.now) R.did_read ⟦<File as Read>⟧.remaining path.now
        (λ config. RanNode ⟦<&'a mut ProgramWire<'a, R, L> as Wire>⟧ ⟦<&'a NodeClock<&'a R> as tora_neighbour::Clock>⟧
        ⟦<FileDisk as Disk>⟧ W.contents (core_of config) (Rd.remaining reader.old) writer result.1)
        (Some writer) result.1 (exit_status result.0) }
{
    let alloc = rt.alloc();
    let (config, endpoints) = match read(rt, path) {
        Ok(read) => read,
        Err(fault) => return (code_of(fault), Some(writer)),
    };
    if options.is_check {
        praise(rt, path, &config);
        return (ExitCode::SUCCESS, Some(writer));
    }
    let clock = NodeClock::new(rt);
    let (mut wires, wakers) = match bind(rt, log, alloc, &clock, endpoints) {
        Ok(bound) => bound,
        Err(fault) => return (code_of(fault), Some(writer)),
    };
    let folder = config.life_dir.as_str();
    let disks = match open(rt, alloc, folder, config.links.as_slice()) {
        Ok(disks) => disks,
        Err(fault) => {
            close(&mut wires);
            return (code_of(fault), Some(writer));
        }
    };
    let devices = LinkDevices {
        wires: &mut wires,
        disks,
        wakers,
        clock: &clock,
    };
    let (ended, writer) = run_over(log, alloc, &config, devices, reader, writer);
    let code = finish(rt, folder, ended, options.is_verbose);
    close(&mut wires);
    (code, writer)
}

/// What the links of a node need: their wires, which are borrowed, and their disks and wakers, one each, in ascending
/// order of the neighbours; and the clock that all threads of the node share.
struct LinkDevices<'a, Wi, D, K, C> {
    wires: &'a mut [Wi],
    disks: Vec<D>,
    wakers: Vec<K>,
    clock: C,
}

/// Runs the node of a configuration over borrowed wires and its disks, and wakes its links. `Memory` if memory ran out
/// before; then nothing is written.
fn run_over<
    'a,
    L: Threads + Wait + Log + Sync,
    Wi: Wire + Send,
    D: Disk + Send + Drop,
    K: Wake + Send + Drop,
    C: tora_neighbour::Clock + Copy + Send + Drop,
    Rd: Read,
    W: Write + Send + Drop,
>(
    log: &L,
    alloc: Global,
    config: &NodeConfig,
    devices: LinkDevices<'a, Wi, D, K, C>,
    reader: &mut Rd,
    writer: W,
) -> (Result<Ended, NodeError>, Option<W>)
    requires config { IsNodeConfig config.now }
    requires wires { length devices.wires.now ≡ length config.now.links.items }
    requires disks { length devices.disks.items ≡ length config.now.links.items }
    ensures { ((result.0 ≡ Err NodeError.Memory) × (result.1 ≡ Some writer))
        ⊎ ((lent : List _) × (map (λ l. l.now) lent ≡ devices.entry.wires.now)
        × NodeAnswers ⟦<&'a mut Wi as Wire>⟧.did_send ⟦<&'a mut Wi as Wire>⟧.did_receive C.did_tell
        (IsOpened D.syncs D.reads D.writes) W.contents
        (core_of config.now) lent devices.entry.disks.items
        (replicate (length devices.entry.disks.items) devices.entry.clock) devices.entry.clock
        (Rd.remaining reader.old) writer result.1 result.0) }
{
    let LinkDevices {
        wires,
        disks,
        wakers,
        clock,
    } = devices;
    let Some(node) = node_of(alloc, config) else {
        return (Err(NodeError::Memory), Some(writer));
    };
    let Some(clocks) = shared(alloc, clock, disks.len()) else {
        return (Err(NodeError::Memory), Some(writer));
    };
    let Some(lent) = lend(alloc, wires) else {
        return (Err(NodeError::Memory), Some(writer));
    };
    let parts = NodeParts {
        config: node,
        wires: lent,
        disks,
        wakers,
        clocks,
        command_clock: clock,
    };
    run_node(log, alloc, parts, reader, writer)
}

/// `count` copies of a clock, one for each link. `None` if memory ran out.
#[tactic(auto, using(crate::proofs::NodeEnds::one_more_of))]
fn shared<C: Copy + Drop>(alloc: Global, clock: C, count: usize) -> Option<Vec<C>>
    ensures { IfSome result (λ all. all.items ≡ replicate count clock) }
{
    let mut all = Vec::new(alloc);
    for place in 0..count {
        let Ok(()) = all.push(clock) else {
            return None;
        };
    }
    Some(all)
}

/// The node of a configuration. `None` if memory ran out.
fn node_of(alloc: Global, config: &NodeConfig) -> Option<Config>
    requires { IsNodeConfig config.now }
    ensures node { IfSome result (λ node. node ≡ core_of config.now) }
    ensures count { IfSome result (λ node. length node.neighbours ≡ length config.now.links.items) }
{
    numbers_are_put_in_order();
    let Ok(peers) = config
        .links
        .iter()
        .map(|link| link.peer)
        .collect::<Vec<u32>>(alloc)
    else {
        return None;
    };
    Config::with_erasure(
        alloc,
        config.erasure,
        config.node,
        peers.as_slice(),
        config.dests.as_slice(),
    )
    .ok()
}
