//! The wanted result of reading each text of a table, and the functions that check a table.
use super::super::sees::{same_at, sees_at};
use std::alloc::Global;
use std::process::Abort;
use tora_commands::configuration::*;
use tora_core::{CoreError, Erasure};

/// The wanted result of reading a text.
pub enum Wanted {
    /// A configuration, whatever its values are.
    Accepted,
    /// The worked configuration: node 1, destination 4, the directory `n1`, plain erasure, and one link, to peer 2 from
    /// port 4012 to port 4021.
    Worked,
    /// A configuration with links to these peers, in this order.
    Peers(&'static [u32]),
    /// A configuration with this treatment of erased levels.
    Erases(Erasure),
    /// An error: not TOML.
    NoToml,
    /// An error: more links or destinations than a core can have.
    TooMany,
    /// An error: this unknown key.
    UnknownKey(&'static str),
    /// An error: the value of this key is refused for this reason.
    Refused(Place, Reason),
    /// An error with this text.
    Says(&'static str),
}

/// Reads the text of each row, whose parts are joined, and checks that the result is the wanted one.
pub fn each_is_read(rt: &impl Abort, alloc: Global, rows: &[(&[&str], Wanted)]) {
    for (parts, wanted) in rows {
        let text = joined(rt, alloc, parts);
        match read(alloc, text.as_str()) {
            Ok(config) => is_accepted(rt, &config, wanted, text.as_str()),
            Err(error) => is_refused(rt, alloc, &error, wanted, text.as_str()),
        }
    }
}

/// Reads the text of each row, and checks that the result is the wanted one or the error `Memory`.
pub fn each_is_read_or_wants_memory(rt: &impl Abort, alloc: Global, rows: &[(&str, Wanted)]) {
    for (text, wanted) in rows {
        match read(alloc, text) {
            Ok(config) => is_accepted(rt, &config, wanted, text),
            Err(ConfigError::Memory) => {}
            Err(error) => is_refused(rt, alloc, &error, wanted, text),
        }
    }
}

/// Checks that the error `fault` prints the text `wanted`; `what` names the case.
pub fn says(rt: &impl Abort, alloc: Global, fault: &ConfigError, wanted: &str, what: &str) {
    let text = format!(in alloc; "{fault}").expect(rt, "memory");
    same_at(rt, &text.as_str(), &wanted, &what);
}

/// The parts, joined to one text; the test fails if memory runs out.
fn joined(rt: &impl Abort, alloc: Global, parts: &[&str]) -> String {
    let mut text = String::new(alloc);
    for part in parts {
        text.push_str(part).expect(rt, "memory");
    }
    text
}

/// Reads a configuration from a text. This function has no contract, so the proofs of its callers leave that of
/// `read_config` out.
fn read(alloc: Global, text: &str) -> Result<NodeConfig, ConfigError> {
    read_config(alloc, text)
}

/// Checks that `wanted` allows this configuration. Fails with `text` if an error is wanted.
fn is_accepted(rt: &impl Abort, config: &NodeConfig, wanted: &Wanted, text: &str) {
    match wanted {
        Wanted::Accepted => {}
        Wanted::Worked => is_worked(rt, config),
        Wanted::Peers(peers) => peers_are(rt, config, peers),
        Wanted::Erases(erasure) => same_at(rt, &config.erasure, erasure, &"the erasure"),
        _ => panic!(rt; "it is accepted: {text}"),
    }
}

/// Checks that `wanted` is this error. Fails with `text` if it is another error or a configuration.
fn is_refused(rt: &impl Abort, alloc: Global, fault: &ConfigError, wanted: &Wanted, text: &str) {
    let is_so = match wanted {
        Wanted::NoToml => matches!(fault, ConfigError::Syntax(_)),
        Wanted::TooMany => matches!(fault, ConfigError::Core(CoreError::TooMany)),
        Wanted::UnknownKey(key) => has_unknown_key(fault, key),
        Wanted::Refused(place, reason) => {
            let wanted = Some((*place, *reason));
            same_at(rt, &value_in(fault), &wanted, &("the value", text));
            true
        }
        Wanted::Says(words) => {
            says(rt, alloc, fault, words, text);
            true
        }
        _ => false,
    };
    sees_at(rt, is_so, &("the fault", fault, text));
}

/// Whether the error is an unknown key with this name.
fn has_unknown_key(fault: &ConfigError, wanted: &str) -> bool {
    match fault {
        ConfigError::UnknownKey(key) => key.as_str() == wanted,
        _ => false,
    }
}

/// The key whose value is refused, and the reason; `None` for an error of another kind.
fn value_in(fault: &ConfigError) -> Option<(Place, Reason)> {
    match fault {
        ConfigError::Value(place, reason) => Some((*place, *reason)),
        _ => None,
    }
}

/// Checks that this is the worked configuration.
fn is_worked(rt: &impl Abort, config: &NodeConfig) {
    same_at(rt, &config.node, &1, &"the node");
    let dests = config.dests.as_slice();
    same_at(rt, &dests, &[4].as_slice(), &"the destinations");
    same_at(rt, &config.life_dir.as_str(), &"n1", &"the folder");
    same_at(rt, &config.erasure, &Erasure::Plain, &"the erasure");
    let link = LinkConfig {
        peer: 2,
        local: 4012,
        remote: 4021,
    };
    let links = config.links.as_slice();
    same_at(rt, &links, &[link].as_slice(), &"the links");
}

/// Checks that the peers of the links are `wanted`, in this order.
fn peers_are(rt: &impl Abort, config: &NodeConfig, wanted: &[u32]) {
    same_at(rt, &config.links.len(), &wanted.len(), &"how many links");
    for (at, (link, peer)) in config.links.iter().zip(wanted).enumerate() {
        same_at(rt, &link.peer, peer, &("the peer of a link", at));
    }
}
