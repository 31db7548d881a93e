//! The steps of a test at the ends of a link, as rows of a table.
use super::carried::Carried;
use tora_arq::{Life, Reason, Verdict};
use tora_frame::Version;
use tora_height::Id;

/// The session in which most tests bind the first end.
pub const LIFE: Life = Life { own: 5, peer: 9 };

/// The session `LIFE`, as the second end writes it.
pub const REVERSED: Life = Life { own: 9, peer: 5 };

/// An end of a link between the nodes 1 and 2.
#[derive(Clone, Copy)]
pub enum End {
    /// The end of node 1, opened with the session number 5.
    First,
    /// The end of node 2, opened with the session number 9.
    Second,
    /// An end of node 2 that speaks version 1, opened with the session number 9.
    Old,
}

/// A step at an end of a link: an action, or an observation.
#[derive(Clone, Copy)]
pub enum Step {
    /// Opens the closed end with a session number.
    Opens(u64),
    /// Sets the tick of the following steps; it is 0 at first.
    At(u64),
    /// Sets the tick of the following steps, and passes it to the end (`on_tick`).
    Ticks(u64),
    /// Passes to the end a frame of version 1 from node 2 to node 1, with the session number of node 2, the one of node
    /// 1 that it heard (0 if none) and this content. The verdict is the last field.
    Hears(u64, u64, Carried, Verdict),
    /// Passes to the end of node 1, in the session `LIFE`, a DATA frame for each packet number from the first to the
    /// second: the query for the destination of the same number. Each verdict is the last field.
    HearsEach(u64, u64, Verdict),
    /// Passes to the end a HELLO from the first node to the second; the verdict is `Foreign`.
    IsForeign(Id, Id),
    /// Passes to the end the frame that was sent in this table with this index, counted from 0; the verdict is the last
    /// field.
    Gets(usize, Verdict),
    /// As `Gets`, but the frame is encoded, which gives this many bytes, and decoded before it is passed to the end.
    GetsBytes(usize, usize, Verdict),
    /// Sends the first frame due. It has this version, the session number of the sender, the one that it heard (0 if
    /// none), and this content.
    Sends(Version, u64, u64, Carried),
    /// No frame is due.
    SendsNone,
    /// From here on, frames are sent with `poll_transmit_into`, which puts their packets into a buffer of the table.
    Lends,
    /// No frame is due, now and at each tick up to this one; each of these ticks is passed to the end.
    Rests(u64),
    /// Submits in the session `LIFE` the queries for the destinations from the first to the second; all are accepted.
    Submits(u64, u64),
    /// Submits in the session `LIFE`, as many times as the first field says, the query for the destination in the
    /// second; all are accepted.
    SubmitsTimes(u64, u64),
    /// Submits the query for a destination in a session, which is refused for this reason.
    IsRefused(Life, u64, Refusal),
    /// The next event is this one, and there is no further one.
    Tells(Told),
    /// The next events deliver in a session the queries for the destinations from the first to the second, in this
    /// order.
    Delivers(Life, u64, u64),
    /// There is no event.
    TellsNone,
    /// Ends a session; nothing changes if the end is not bound to it.
    Cuts(Life),
    /// The end is bound to this session, or to none.
    LivesIn(Option<Life>),
    /// This many packets are in the send queue, sent or not, and not acknowledged.
    Waits(usize),
}

/// An event of a link end other than `Deliver`.
#[derive(Clone, Copy)]
pub enum Told {
    /// A session was bound.
    Up(Life),
    /// A session ended.
    Down(Life, Reason),
}

/// Why a packet is refused.
#[derive(Clone, Copy)]
pub enum Refusal {
    /// The session is not the bound one, and the packet is returned.
    WrongLife,
    /// The send queue is full.
    Full,
    /// The numbers of packets are used up.
    Spent,
}
