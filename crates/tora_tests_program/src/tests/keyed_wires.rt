//! The wires of links with keys: their log lines, the count that they return, and their keys, which are overwritten.
ghost use Rattle.std.specs.Prelude.{◌≡◌, false, [], ◌≤◌, length};

use super::log_lines::Desk;
use super::sees::{same_at, sees};
use log::{LevelFilter, Log, Logged};
use std::cell::Cell;
use std::process::Abort;
use std::str;
use tora_commands::LogLines;
use tora_keyed::{Key, LinkWire};
use tora_neighbour::{Clock, Wire, WireError};

const MESSAGE: &[u8] = b"a datagram";

/// A clock whose tick is set by the test.
#[derive(Drop)]
struct SetClock<'a> {
    tick: &'a Cell<u64>,
}

impl Clock for SetClock<'_> {
    ghost did_tell = { λ c tick after. Unit {0} };

    fn now(&mut self) -> u64 {
        self.tick.get()
    }
}

/// A wire that returns a datagram at each receive, tagged under a key or, if requested, with a wrong tag.
#[derive(Drop)]
struct GivingWire<'a> {
    key: Key,
    is_forged: &'a Cell<bool>,
}

impl Wire for GivingWire<'_> {
    ghost tells = { λ w. false };

    ghost coming = { λ w. [] };

    ghost tries = { λ w. [] };

    ghost failures = { λ w. 0 };

    ghost did_send = { λ w bytes answer after. Unit {0} };

    ghost did_receive = { λ w answer buffer after. Unit {0} };

    fn send(&mut self, _bytes: &[u8]) -> Result<(), WireError> {
        Ok(())
    }

    fn receive(&mut self, buf: &mut [u8]) -> Result<Option<usize>, WireError> {
        let mut room = [0; 26];
        self.key.seal(MESSAGE, &mut room);
        if self.is_forged.get() {
            room[25] ^= 1;
        }
        let count = buf.len().min(26);
        buf[..count].copy_from_slice(&room[..count]);
        Ok(Some(count))
    }
}

/// The tick at which a datagram arrives, and whether it is forged.
type Turn = (u64, bool);

/// The count is logged at tick 10, then at most once a minute (600 ticks), if it has changed, and also after the clock
/// has gone back.
const TURNS: &[Turn] = &[
    (9, false),
    (10, true),
    (11, true),
    (609, true),
    (610, false),
    (611, true),
    (1_209, false),
    (1_210, false),
    (1_810, false),
    (1_100, true),
    (1_101, true),
];

const LINES: &str = "[WARN  tora_keyed::noticed_wire] link 2 unauthenticated datagrams 1\n\
[WARN  tora_keyed::noticed_wire] link 2 unauthenticated datagrams 3\n\
[WARN  tora_keyed::noticed_wire] link 2 unauthenticated datagrams 4\n\
[WARN  tora_keyed::noticed_wire] link 2 unauthenticated datagrams 5\n\
[INFO  tora_keyed::noticed_wire] link 2 unauthenticated datagrams 6\n";

/// Receives once at the tick of each row of `TURNS`, and checks that a forged datagram is not delivered, and that any
/// other is.
fn turn_each<L: Log>(
    rt: &impl Abort,
    wire: &mut LinkWire<'_, GivingWire<'_>, SetClock<'_>, L>,
    tick: &Cell<u64>,
    is_forged: &Cell<bool>,
) {
    for turn in TURNS {
        tick.set(turn.0);
        is_forged.set(turn.1);
        let given = wire.receive(&mut [0; 30]);
        let wanted = if turn.1 { None } else { Some(MESSAGE.len()) };
        same_at(rt, &given, &Ok(wanted), turn);
    }
}

/// Receives over `TURNS` on a wire with a key, and checks that it counts 6 datagrams. Then closes it, which clears the
/// key, and checks that no datagram is delivered any more. The caller checks the log lines in `desk`.
fn minutes_pass(rt: &impl Abort, desk: &Desk) {
    let (tick, is_forged) = (Cell::new(0), Cell::new(false));
    let log = Logged::new(desk, LevelFilter::Info, LogLines::new(desk, false));
    let giving = GivingWire {
        key: Key::new(&[7; 32]),
        is_forged: &is_forged,
    };
    let key = Key::new(&[7; 32]);
    let mut wire = LinkWire::new(giving, Some(key), 2, SetClock { tick: &tick }, &log);
    turn_each(rt, &mut wire, &tick, &is_forged);
    same_at(rt, &wire.unauthenticated(), &6, &"the count");
    wire.close();
    is_forged.set(false);
    let given = wire.receive(&mut [0; 30]);
    same_at(rt, &given, &Ok(None), &"a cleared key");
}

/// Receives a forged datagram on a wire without a key, and closes the wire. Checks that all 26 bytes are delivered and
/// that nothing is counted. The caller checks that nothing is logged in `desk`.
fn plain_link_ends(rt: &impl Abort, desk: &Desk) {
    let (tick, is_forged) = (Cell::new(0), Cell::new(true));
    let log = Logged::new(desk, LevelFilter::Info, LogLines::new(desk, false));
    let giving = GivingWire {
        key: Key::new(&[7; 32]),
        is_forged: &is_forged,
    };
    let mut wire = LinkWire::new(giving, None, 2, SetClock { tick: &tick }, &log);
    let given = wire.receive(&mut [0; 30]);
    same_at(rt, &given, &Ok(Some(26)), &"no key");
    wire.close();
    same_at(rt, &wire.unauthenticated(), &0, &"no key");
}

#[test]
fn unauthenticated_datagrams_are_told_once_a_minute(rt: HostRuntime) {
    let desk = Desk::new(None);
    minutes_pass(&rt, &desk);
    let told = desk.into_told();
    sees(
        &rt,
        told.text() == LINES.as_bytes(),
        str::from_utf8(told.text()).unwrap_or(""),
    );
}

#[test]
fn link_without_a_key_tells_nothing(rt: HostRuntime) {
    let desk = Desk::new(None);
    plain_link_ends(&rt, &desk);
    let told = desk.into_told();
    sees(
        &rt,
        told.text().is_empty(),
        str::from_utf8(told.text()).unwrap_or(""),
    );
}
