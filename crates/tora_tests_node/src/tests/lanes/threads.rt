//! The work of a node's threads: those of the links and the commands put items, the core's takes them and sends
//! outbound messages, and a link's takes these.
ghost use Rattle.std.specs.Prelude.{◌≡◌};

use super::cargo;
use std::sync::Wait;
use std::thread;
use tora_arq::Life;
use tora_lane::{Cargo, CorePort, InPort, OutPut, OutTake, What};

/// The content of a seat's item with this number.
fn told(seat: usize, number: u64) -> What {
    What::Up(Life {
        own: number,
        peer: seat as u64,
    })
}

/// Puts `count` items at tick 7, with the contents `told` of the numbers from 1 on. Returns how many were put.
pub fn put_all<R: Wait>(rt: &R, port: &mut InPort, seat: usize, count: u64) -> u64
    ensures { port.new.lane ≡ port.old.lane }
{
    let mut put = 0u64;
    for number in 0..count {
        if port.put(rt, 7, told(seat, number + 1)).is_ok() {
            put = put.saturating_add(1);
        }
    }
    put
}

/// Does the same as `put_all` with a port that is passed by value. Returns the port, and how many items were put.
pub fn put_from<R: Wait>(rt: &R, port: InPort, seat: usize, count: u64) -> (InPort, u64)
    ensures { result.0.lane ≡ port.lane }
{
    let mut port = port;
    let put = put_all(rt, &mut port, seat, count);
    (port, put)
}

/// Takes the messages `cargo` of the numbers from 1 to `count`, in order, and waits for each. Stops at a message that
/// is not the next one. Returns how many came in order.
pub fn take_all<R: Wait>(rt: &R, take: &mut OutTake, count: u64) -> u64
    ensures { take.new.ring ≡ take.old.ring }
{
    let mut taken = 0;
    for _ in rt.forever() {
        if taken >= count {
            break;
        }
        match take.take() {
            Some(next) => {
                if next != cargo(taken + 1) {
                    break;
                }
                taken += 1;
            }
            None => thread::yield_now(),
        }
    }
    taken
}

/// Sends a message until the queue accepts it.
pub fn send_again<R: Wait>(rt: &R, put: &mut OutPut, cargo: Cargo)
    ensures { put.new.ring ≡ put.old.ring }
{
    let mut cargo = cargo;
    for _ in rt.forever() {
        match put.send(cargo) {
            Ok(()) => return,
            Err(back) => cargo = back,
        }
        thread::yield_now();
    }
    unreachable!()
}

/// Takes `count` items, and returns how many have tick 7 and the content that their seat put with that number.
pub fn take_items<R: Wait>(rt: &R, core: &mut CorePort, count: u64) -> u64
    ensures { core.new.lane ≡ core.old.lane }
{
    let mut good = 0u64;
    for _ in 0..count {
        if let Ok(item) = core.take(rt) {
            if item.what == told(item.seat, item.number) && item.now == 7 {
                good = good.saturating_add(1);
            }
        }
    }
    good
}
