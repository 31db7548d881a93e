//! What a node is given: the lines of its commands, and its configuration.
use super::{config_of, peers_are};
use crate::tests::sees::{same, same_at};
use std::process::Abort;
use tora_core::CoreError;
use tora_node::{Command, Config, command_of};
use tora_seat::Status;

/// Lines, and the command of each.
const LINES: &[(&[u8], Command)] = &[
    (b"show", Command::Show),
    (b"json", Command::Status(Status::Json)),
    (b"watch", Command::Status(Status::Watch)),
    (b"quit", Command::Quit),
    (b"need 4", Command::Need(4)),
    (b"need 4294967295", Command::Need(4_294_967_295)),
    (b"cut 4", Command::Cut(4)),
    (b"cut 4294967295", Command::Cut(4_294_967_295)),
    (b"cut", Command::Unknown),
    (b"cut ", Command::Unknown),
    (b"cut 0", Command::Unknown),
    (b"cut 04", Command::Unknown),
    (b"cut +4", Command::Unknown),
    (b"cut 4 ", Command::Unknown),
    (b"cut  4", Command::Unknown),
    (b"cut 4294967296", Command::Unknown),
    (b"Cut 4", Command::Unknown),
    (b"", Command::Unknown),
    (b"need", Command::Unknown),
    (b"need ", Command::Unknown),
    (b"need 0", Command::Unknown),
    (b"need 04", Command::Unknown),
    (b"need +4", Command::Unknown),
    (b"need 4 ", Command::Unknown),
    (b"need  4", Command::Unknown),
    (b"need 4294967296", Command::Unknown),
    (b"need 99999999999", Command::Unknown),
    (b"Show", Command::Unknown),
    (b"json ", Command::Unknown),
    (b"watch 4", Command::Unknown),
    (b"show ", Command::Unknown),
    (b"quit\r", Command::Unknown),
];

/// Checks the command of each line.
fn each_is_command(rt: &impl Abort, rows: &[(&[u8], Command)]) {
    for (line, wanted) in rows {
        same_at(rt, &command_of(line), wanted, "the command", line);
    }
}

#[test]
fn lines_that_are_commands(rt: HostRuntime) {
    each_is_command(&rt, LINES);
}

#[test]
fn documented_configuration(rt: HostRuntime) {
    let config = config_of(&rt, rt.alloc(), 1, &[3, 2]);
    peers_are(&rt, config.peers());
    each_is_command(&rt, &[(b"need 4", Command::Need(4))]);
}

#[test]
fn want_of_memory_refuses_a_configuration(rt: HostRuntime) {
    match Config::new(rt.alloc(), 1, &[3, 2], &[4]) {
        Err(error) => same(&rt, &error, &CoreError::Memory, "no memory"),
        Ok(config) => {
            peers_are(&rt, config.peers());
            same(&rt, &config.into_core().me(), &1, "the node");
        }
    }
}
