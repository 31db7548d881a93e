//! The threads of a node.
ghost use Rattle.std.specs.Prelude.{◌≡◌, [], IfSome, map};
ghost use Rattle.std.specs.Thread.{IsSync, IsSend};
ghost use Rattle.tora_node.specs.CommandRuns.{CommandsFrom};
ghost use Rattle.tora_node.specs.Threads.{Each, begun_by};

use crate::commands::{CommandsEnd, run_commands};
use crate::task::{Does, Task};
use log::{Log, warn};
use std::alloc::Global;
use std::io::Read;
use std::snapshot::Snapshot;
use std::sync::Wait;
use std::thread;
use std::thread::{PromisedHandle, Scope, Threads};
use tora_lane::{InPort, What};
use tora_neighbour::Clock;

/// The results of a node's threads: the core's, the neighbours' in order, and the port of the commands.
#[derive(Drop)]
pub(crate) struct Rests<O, L> {
    pub(crate) core: O,
    pub(crate) links: Vec<L>,
    pub(crate) command: InPort,
    pub(crate) end: CommandsEnd,
}

/// What a node's threads begin with: the core's task, the neighbours' in order, and the port of the commands.
#[derive(Drop)]
pub(crate) struct Tasks<K, T> {
    pub(crate) core: K,
    pub(crate) links: Vec<T>,
    pub(crate) command: InPort,
}

/// Starts the threads of the core and the neighbours, reads the commands meanwhile, and waits until all threads have
/// ended.
///
/// `None` if a thread could not be started, or memory ran out; then those that were started have ended.
pub(crate) fn run_threads<
    R: Threads + Wait + Log + Sync,
    O: Send + Drop,
    K: Task<O> + Send + Drop,
    L: Send + Drop,
    T: Task<L> + Send + Drop,
    C: Clock + Drop,
    Rd: Read,
>(rt: &R, alloc: Global, tasks: Tasks<K, T>, clock: C, reader: &mut Rd) -> Option<Rests<O, L>>
    ensures core { IfSome result (λ rests. K.leaves tasks.core rests.core) }
    ensures links { IfSome result (λ rests. Each T.leaves tasks.links.items rests.links.items) }
    ensures commands { IfSome result
        (λ rests. CommandsFrom C.did_tell clock (Rd.remaining reader.old) tasks.command rests.command rests.end) }
{
    thread::scope(
        thread::scope_env(),
        rt,
        |scope| -> Option<Rests<O, L>>
            requires { IsSync R.row × IsSend K.row × IsSend T.row × IsSend O.row × IsSend L.row }
            ensures { IfSome result (λ rests. K.leaves tasks.core rests.core
                × Each T.leaves tasks.links.items rests.links.items
                × CommandsFrom C.did_tell clock (Rd.remaining reader.entry.now) tasks.command rests.command
                rests.end) }
        {
            let Tasks {
                core,
                links,
                mut command,
            } = tasks;
            let mut clock = clock;
            let handles = room_for(alloc, links.len())?;
            let rests = room_for(alloc, links.len())?;
            let promise = Does(Snapshot::of(&core));
            let Ok(core_thread) = scope.spawn_with(promise, move || core.run(rt)) else {
                return None;
            };
            let Some(handles) = start_all(scope, rt, links, handles) else {
                let _ = command.put(rt, clock.now(), What::Quit);
                return None;
            };
            let end = run_commands(rt, reader, &mut clock, &mut command);
            if end == CommandsEnd::Read {
                warn!(rt; "the commands can't be read any further");
            }
            let core = core_thread.join(rt);
            let links = join_all(rt, handles, rests)?;
            Some(Rests {
                core,
                links,
                command,
                end,
            })
        },
    )
}

/// Starts a thread for each task, in order; the list of threads is empty before. `None` if a thread could not be
/// started, or memory ran out; the scope waits for those that were started.
fn start_all<
    's,
    E,
    R: Threads + Wait + Log + Sync,
    L: Send + Drop + 's,
    T: Task<L> + Send + Drop + 's,
>(
    scope: &Scope<'s, E>,
    rt: &'s R,
    tasks: Vec<T>,
    handles: Vec<PromisedHandle<L, Does<T>>>,
) -> Option<Vec<PromisedHandle<L, Does<T>>>>
    requires { handles.items ≡ [] }
    ensures { IfSome result (λ all. map begun_by all.items ≡ tasks.items) }
{
    let mut handles = handles;
    for task in tasks {
        let promise = Does(Snapshot::of(&task));
        let Ok(handle) = scope.spawn_with(promise, move || task.run(rt)) else {
            return None;
        };
        let Ok(()) = handles.push(handle) else {
            return None;
        };
    }
    Some(handles)
}

/// An empty list with room for `count` items. `None` if memory runs out.
fn room_for<X: Drop>(alloc: Global, count: usize) -> Option<Vec<X>>
    ensures { IfSome result (λ room. room.items ≡ []) }
{
    let mut room = Vec::new(alloc);
    match room.reserve(count) {
        Err(_) => None,
        Ok(()) => Some(room),
    }
}

/// Joins threads, in order; the list of results is empty before. `None` if memory runs out; the scope of the threads
/// waits for the others.
fn join_all<R: Threads, L: Drop, T: Task<L>>(
    rt: &R,
    handles: Vec<PromisedHandle<L, Does<T>>>,
    rests: Vec<L>,
) -> Option<Vec<L>>
    requires { rests.items ≡ [] }
    ensures { IfSome result (λ all. Each T.leaves (map begun_by handles.items) all.items) }
{
    let mut rests = rests;
    for handle in handles {
        let rest = handle.join(rt);
        let Ok(()) = rests.push(rest) else {
            return None;
        };
    }
    Some(rests)
}
