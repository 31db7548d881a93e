//! The thread of a neighbour.
ghost use Rattle.std.specs.Prelude.{◌≡◌, [], ◌∷◌, ◌++◌, ℕ, List};
ghost use Rattle.tora_arq.specs.LinkEnd.{first_end};
ghost use Rattle.tora_neighbour.specs.Tally.{first_tally};
ghost use Rattle.tora_neighbour.specs.Turns.{Turn, IsTurnRun, AreRead, ticks_of, tally_after};
ghost use Rattle.tora_neighbour.specs.Traffic.{Traffic, outside};
ghost use Rattle.tora_neighbour.specs.Calls.{AreCalls, LastCalls};
ghost use Rattle.tora_neighbour.specs.Causes.{fault_of, IsEndOf};
ghost use Rattle.tora_neighbour.specs.declared.ending.Ending.{Ending};

use crate::clock::Clock;
use crate::ending::Ending;
use crate::fault::LinkFault;
use crate::hub::Hub;
use crate::link::{Finished, Link};
use crate::tally::Tally;
use crate::turn::{Course, turn};
use crate::wire::Wire;
use std::sync::Wait;
use tora_life::Disk;

/// The fault that the thread returns for its ending; `None` if the hub refused an item.
fn fault_of(ending: Ending) -> Option<LinkFault>
    ensures { result ≡ fault_of ending }
{
    match ending {
        Ending::NoNumber(error) => Some(LinkFault::Life(error)),
        Ending::Broken(_) => Some(LinkFault::Wire),
        Ending::Refused => None,
    }
}

/// Runs the link to a neighbour, whose end was never opened. Each turn reads its own tick from the clock. It may wait,
/// and no clause says that it returns.
///
/// In each turn, with one tick of 100 ms, it
/// 1. draws a session number from the life file for a closed end, and opens the end;
/// 2. passes the tick to the end;
/// 3. takes the waiting outbound messages, at most as many as a queue holds, and submits or cuts each in its own
///    session (a packet of a session that is not bound is dropped);
/// 4. sends due frames until none is due;
/// 5. receives once, and passes a received datagram to the end;
/// 6. puts each event of the end;
/// 7. puts a beat in the first turn, and if ten ticks have passed since the last beat.
///
/// It ends if the life file draws no number (`Life`), if a hundred calls of the wire in a row failed (`Wire`), or if
/// the hub returns `Gone` (no fault). At `Wire` it makes no further call of the wire, cuts the bound session if there
/// is one, and puts the events that are left. A failed send counts as a try of its frame; a failed receive returns no
/// datagram.
pub fn run_neighbour<R: Wait, D: Disk, W: Wire, C: Clock, H: Hub>(
    rt: &R,
    link: Link<D, W>,
    clock: &mut C,
    hub: H,
) -> Finished<D, W, H>
    requires new { link.end.state ≡ first_end }
    ensures turns { (turns : List Turn) × (last : Turn) × (ending : Ending) × (result.fault ≡ fault_of ending)
        × IsTurnRun link.end.settings link.end.state turns last ending result.link.end.state
        × Traffic (outside H.puts H.takes W.tells W.coming W.tries link hub) (turns ++ last ∷ [])
        (outside H.puts H.takes W.tells W.coming W.tries result.link result.hub)
        × (result.tally ≡ tally_after first_tally (turns ++ last ∷ []))
        × AreRead C.did_tell clock.old (ticks_of (turns ++ last ∷ [])) clock.new
        × ((before : H) × (wire : W)
        × AreCalls H.did_take H.did_put W.did_send W.did_receive hub link.wire turns before wire
        × LastCalls H.did_take H.did_put W.did_send W.did_receive before wire last ending result.hub result.link.wire) }
    ensures cause { IsEndOf result.fault link.file.numbers result.link.file.numbers (D.failures link.file.disk)
        (D.failures result.link.file.disk) (W.failures link.wire) (W.failures result.link.wire) (H.gone result.hub) }
{
    let mut link = link;
    let mut hub = hub;
    let mut course = Course {
        row: 0,
        last_beat: None,
        tally: Tally::new(),
    };
    for _ in rt.forever() {
        let now = clock.now();
        match turn(rt, now, &mut link, &mut hub, &mut course) {
            Ok(()) => {}
            Err(ending) => {
                let fault = fault_of(ending);
                return Finished {
                    link,
                    hub,
                    fault,
                    tally: course.tally,
                };
            }
        }
    }
    unreachable!()
}
