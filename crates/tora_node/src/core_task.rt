//! The work of the core's thread.
ghost use Rattle.std.specs.Prelude.{◌≡◌, ◌≤◌, IfErr, IfOk, length};
ghost use Rattle.tora_seat.specs.Rows.{first_seat};

use crate::core_thread::run_core;
use crate::fault::NodeError;
use crate::task::Task;
use crate::wake::{WakingLanes, end_all};
use log::Log;
use std::alloc::Global;
use std::io::Write;
use std::sync::Wait;
use tora_core::Core;
use tora_lane::{CorePort, OutPut, OutPuts, Settling};
use tora_neighbour::Wake;
use tora_seat::CoreSeat;

/// What the core's thread returns at its end: its seat, its port with the items taken, its ends of the queues to the
/// neighbours, and its writer.
#[derive(Drop)]
pub(crate) struct CoreRest<Wr> {
    pub(crate) seat: CoreSeat,
    pub(crate) port: Settling,
    pub(crate) outs: OutPuts,
    pub(crate) fault: Option<NodeError>,
    pub(crate) writer: Wr,
}

/// The work of the core's thread: the seat, its queues, the wakers of the neighbours' threads, and the writer.
#[derive(Drop)]
pub(crate) struct CoreStart<K, Wr> {
    alloc: Global,
    pub(crate) seat: CoreSeat,
    pub(crate) port: CorePort,
    pub(crate) outs: OutPuts,
    wakers: Vec<K>,
    pub(crate) writer: Wr,
    ghost lanes: { length seat.core.neighbours ≤ length outs.ends.items },
}

impl<K: Wake + Drop, Wr: Write + Drop> Task<CoreRest<Wr>> for CoreStart<K, Wr> {
    ghost use Rattle.tora_node.specs.Threads.{CoreLeaves};

    ghost leaves = { λ t rest. CoreLeaves Wr.contents t.seat t.port t.outs.ends.items t.writer rest };

    fn run<R: Wait + Log>(self, rt: &R) -> CoreRest<Wr> {
        let CoreStart {
            alloc,
            seat,
            port,
            outs,
            wakers,
            writer,
        } = self;
        let outs = WakingLanes {
            lanes: outs,
            wakers,
        };
        let mut writer = writer;
        let end = run_core(rt, alloc, seat, port, outs, &mut writer);
        let outs = end.outs;
        let WakingLanes { lanes, wakers } = outs;
        let port = end.port.end();
        end_all(wakers.as_slice());
        CoreRest {
            seat: end.seat,
            port,
            outs: lanes,
            fault: end.fault,
            writer,
        }
    }
}

/// Puts the parts of the core's work together. The error is the writer, if memory runs out.
pub(crate) fn new_core_start<K: Drop, Wr: Drop>(
    alloc: Global,
    core: Core,
    port: CorePort,
    outs: Vec<OutPut>,
    wakers: Vec<K>,
    writer: Wr,
) -> Result<CoreStart<K, Wr>, Wr>
    requires { length core.neighbours ≤ length outs.items }
    ensures made { IfOk result (λ start. (start.seat ≡ first_seat core) × (start.port ≡ port)
        × (start.outs.ends.items ≡ outs.items) × (start.writer ≡ writer)) }
    ensures same { IfErr result (λ back. back ≡ writer) }
{
    let Ok(seat) = CoreSeat::new(alloc, core) else {
        return Err(writer);
    };
    Ok(CoreStart {
        alloc,
        seat,
        port,
        outs: OutPuts { ends: outs },
        wakers,
        writer,
    })
}
