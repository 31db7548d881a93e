//! Joining the ends of a node's queues after its threads have ended.
ghost use Rattle.std.specs.Prelude.{◌≡◌, [], IfSome, length, map};
ghost use Rattle.tora_lane.specs.Ports.{IsPortOf};
ghost use Rattle.tora_node.specs.Threads.{Each, HasEnds, IsSettled, outcome_of};

use crate::link_task::{LinkRest, Outcome};
use tora_lane::{OutPut, Settling, settle_out};
use tora_neighbour::LaneHub;

/// Joins the ends of each link's queues, by which contracts know that what was put was taken or is left. Returns the
/// results of the links; `outcomes` is empty before. `None` if memory runs out.
pub(crate) fn settle_links(
    port: &mut Settling,
    outs: Vec<OutPut>,
    links: Vec<LinkRest>,
    outcomes: Vec<Outcome>,
) -> Option<Vec<Outcome>>
    requires ends { Each (HasEnds port.old.lane) links.items outs.items }
    requires new { outcomes.items ≡ [] }
    ensures same { port.new ≡ port.old }
    ensures settled { IfSome result (λ all. Each (IsSettled port.old.taken) links.items outs.items) }
    ensures outcomes { IfSome result (λ all. all.items ≡ map outcome_of links.items) }
{
    let mut outcomes = outcomes;
    let mut outs = outs.into_iter();
    for rest in links {
        let Some(out) = outs.next() else {
            unreachable!()
        };
        let LinkRest { outcome, hub } = rest;
        let LaneHub {
            port: seat,
            outs: take,
        } = hub;
        port.settle(seat);
        settle_out(out, take);
        let Ok(()) = outcomes.push(outcome) else {
            return None;
        };
    }
    Some(outcomes)
}
