//! The addresses and the key of a link, and each way in which they are refused.
use super::sees::same_at;
use std::alloc::Global;
use std::net::SocketAddr;
use std::process::Abort;
use tora_commands::configuration::{ConfigError, LinkEndpoint, read_endpoints};

/// The values of `local` and `remote` of a link to peer 2, the lines of its other keys, and the wanted text for the
/// result of reading it: peer, addresses and key file (`-` for none), or the fault.
type Row = (&'static str, &'static str, &'static str, &'static str);

const NO_NUMBER: &str = "`local` of link 1 is no whole number";

const OPEN: &str = "`key_file` of link 1 is missing, and the link leaves the loopback";

const WAYS: &[Row] = &[
    ("4012", "4021", "", "2 127.0.0.1:4012 127.0.0.1:4021 -"),
    (
        "4012",
        "4021",
        "key_file = \"k\"",
        "2 127.0.0.1:4012 127.0.0.1:4021 k",
    ),
    (
        "\"10.0.0.1:7001\"",
        "\"10.0.0.2:7002\"",
        "key_file = \"keys/1-2\"",
        "2 10.0.0.1:7001 10.0.0.2:7002 keys/1-2",
    ),
    (
        "\"[::1]:7001\"",
        "\"127.1.2.3:7002\"",
        "",
        "2 [::1]:7001 127.1.2.3:7002 -",
    ),
    ("\"10.0.0.1:7001\"", "7002", "", OPEN),
    ("7001", "\"[fd00::1]:7002\"", "", OPEN),
    ("\"0.0.0.0:7001\"", "7002", "", OPEN),
    (
        "7001",
        "7002",
        "key_file = 5",
        "`key_file` of link 1 is no text",
    ),
    ("\"localhost:7001\"", "7002", "", NO_NUMBER),
    ("\"7001\"", "7002", "", NO_NUMBER),
    ("\"127.0.0.1:0\"", "7002", "", NO_NUMBER),
    ("\"127.0.0.1:65536\"", "7002", "", NO_NUMBER),
    ("0", "7002", "", "`local` of link 1 is not from 1 to 65535"),
];

/// The text for the peer, the two addresses and the key file of a link; `-` for no key file.
fn said(rt: &impl Abort, alloc: Global, endpoint: &LinkEndpoint) -> String {
    let (peer, local, remote) = (endpoint.peer, endpoint.local, endpoint.remote);
    let key = match &endpoint.key_file {
        Some(path) => path.as_str(),
        None => "-",
    };
    words(rt, alloc, peer, local, remote, key)
}

/// The text `PEER LOCAL REMOTE KEY` with these values. The test fails if memory runs out.
fn words(
    rt: &impl Abort,
    alloc: Global,
    peer: u32,
    local: SocketAddr,
    remote: SocketAddr,
    key: &str,
) -> String {
    format!(in alloc; "{peer} {local} {remote} {key}").expect(rt, "memory")
}

/// The text for the result of reading a configuration: its one link, or the fault; empty if it does not have exactly
/// one link.
fn read(rt: &impl Abort, alloc: Global, text: &str) -> String {
    match read_endpoints(alloc, text) {
        Ok(endpoints) => match endpoints.as_slice() {
            [endpoint] => said(rt, alloc, endpoint),
            _ => String::new(alloc),
        },
        Err(error) => fault(rt, alloc, &error),
    }
}

/// The text of an error. The test fails if memory runs out.
fn fault(rt: &impl Abort, alloc: Global, error: &ConfigError) -> String {
    format!(in alloc; "{error}").expect(rt, "memory")
}

/// The text of a configuration with one link, to peer 2, with the values of a row. The test fails if memory runs out.
fn text_of(rt: &impl Abort, alloc: Global, row: &Row) -> String {
    let (local, remote, more, _) = *row;
    format!(in alloc; "[[link]]\npeer = 2\nlocal = {local}\nremote = {remote}\n{more}\n").expect(
        rt, "memory",
    )
}

#[test]
fn endpoints_of_a_link(rt: HostRuntime) {
    let alloc = rt.alloc();
    for row in WAYS {
        let text = text_of(&rt, alloc, row);
        let read = read(&rt, alloc, text.as_str());
        same_at(&rt, &read.as_str(), &row.3, &text.as_str());
    }
}
