//! Addresses and key files of links.
ghost use Rattle.std.specs.Prelude.{codes, string_bytes, ◌≡◌, ◌+◌, length, map, Some, None, IfOk, Option, option_map};
ghost use Rattle.toml.specs.Data.{Members, get_member};
ghost use Rattle.toml.specs.Parse.{parse_document};
ghost use Rattle.toml.specs.View.{view, table_view};
ghost use Rattle.tora_commands.specs.ConfigReading.{Gives, IsNoToml};
ghost use Rattle.tora_commands.specs.ConfigRefusal.{at_place};
ghost use Rattle.tora_commands.specs.ConfigEndpoints.{said_endpoint, key_file_at, endpoint_in, endpoint_beside};
ghost use Rattle.tora_commands.specs.ConfigEndpoints.{endpoints_in, is_open};

use crate::configuration::addresses::is_loopback;
use crate::configuration::fault::{ConfigError, Place};
use crate::configuration::reason::Reason;
use crate::configuration::values::{end_at, id_at, list_at, value_at};
use std::alloc::Global;
use std::net::SocketAddr;
use toml::{Table, Value};
use tora_height::Id;

/// The addresses and the key file of a link.
#[derive(Debug, Drop)]
pub struct LinkEndpoint {
    /// The neighbour, not 0.
    pub peer: Id,
    /// The node's own address; its port is not 0.
    pub local: SocketAddr,
    /// The neighbour's address; its port is not 0.
    pub remote: SocketAddr,
    /// The path of the file with the link's key, if it has one. Each link that leaves the loopback has one.
    pub key_file: Option<String>,
}

/// The path of the key file of link `n`, from 1 on; `None` if the key is absent. The error is `NoText` at this key if
/// its value is no text, or `Memory`.
fn key_file_at(alloc: Global, table: &Table, n: usize) -> Result<Option<String>, ConfigError>
    ensures { Gives (option_map string_bytes) result (at_place (Place.KeyFile n)
        (key_file_at (get_member (codes "key_file") (table_view table.now)))) }
{
    let place = Place::KeyFile(n);
    let Ok(value) = value_at(table, "key_file", place) else {
        return Ok(None);
    };
    match value.as_str() {
        Some(path) => Ok(Some(String::from_str(alloc, path)?)),
        None => Err(ConfigError::Value(place, Reason::NoText)),
    }
}

// Whether the link has no key file, and one of its addresses is not on the loopback.
fn is_open(local: &SocketAddr, remote: &SocketAddr, key_file: &Option<String>) -> bool
    ensures { result ≡ is_open local.now remote.now (option_map string_bytes key_file.now) }
{
    key_file.is_none() && !(is_loopback(local) && is_loopback(remote))
}

// Reads the addresses and the key file of the link with the number n, from 1 on.
#[tactic(auto, unfolding(crate::specs::ConfigEndpoints::endpoint_in))]
fn endpoint_of(alloc: Global, n: usize, value: &Value) -> Result<LinkEndpoint, ConfigError>
    ensures { Gives said_endpoint result (endpoint_in n (view value.now)) }
{
    let Some(table) = value.as_table() else {
        return Err(ConfigError::Value(Place::Link(n), Reason::NoTable));
    };
    let peer = id_at(table, "peer", Place::Peer(n))?;
    let local = end_at(table, "local", Place::Local(n))?;
    let remote = end_at(table, "remote", Place::Remote(n))?;
    let key_file = key_file_at(alloc, table, n)?;
    if is_open(&local, &remote, &key_file) {
        return Err(ConfigError::Value(Place::KeyFile(n), Reason::Unkeyed));
    }
    Ok(LinkEndpoint {
        peer,
        local,
        remote,
        key_file,
    })
}

// Reads the addresses and the key file of the link that follows those in `before`.
fn endpoint_beside(
    alloc: Global,
    before: &[LinkEndpoint],
    value: &Value,
) -> Result<LinkEndpoint, ConfigError>
    ensures { Gives said_endpoint result (endpoint_beside (map said_endpoint before.now) (view value.now)) }
{
    endpoint_of(alloc, before.len() + 1, value)
}

/// Reads the addresses and the key file of each link, in order. The error is `Missing` or `NoList` at the list of
/// links, the first error of a link, or `Memory`.
#[tactic(auto, unfolding(crate::specs::ConfigEndpoints::endpoints_in))]
fn endpoints_of(alloc: Global, table: &Table) -> Result<Vec<LinkEndpoint>, ConfigError>
    ensures { Gives (λ endpoints. map said_endpoint endpoints.items) result (endpoints_in (table_view table.now)) }
{
    let mut endpoints = Vec::new(alloc);
    let values = list_at(table, "link", Place::Links)?;
    for value in values {
        let endpoint = endpoint_beside(alloc, endpoints.as_slice(), value)?;
        endpoints.push(endpoint)?;
    }
    Ok(endpoints)
}

/// Reads the addresses and the key file of each link, in the order of the text, from the text of a configuration.
///
/// `local` and `remote` are ports of the loopback of IPv4, 127.0.0.1, or texts of addresses: `10.0.0.1:7001`,
/// `[::1]:7001`. `key_file` is the path of the file with the link's key. `read_config` checks the other keys.
///
/// # Errors
/// The first of these: `Syntax` if the text is not TOML; a fault at `link` if it is missing or not a list; and then for
/// each link in turn: that it is not a table, faults at `peer`, `local`, `remote` and `key_file`, and then `Unkeyed` if
/// it has no `key_file` and one of its addresses is not on the loopback. `Memory` may come at any point.
pub fn read_endpoints(alloc: Global, text: &str) -> Result<Vec<LinkEndpoint>, ConfigError>
    ensures exact { (table : Members) → parse_document text.now ≡ Some table
        → Gives (λ endpoints. map said_endpoint endpoints.items) result (endpoints_in table) }
    ensures syntax { parse_document text.now ≡ None → IsNoToml result }
{
    let table = match toml::table_from_str(alloc, text) {
        Ok(table) => table,
        Err(error) => {
            if error.is_memory() {
                return Err(ConfigError::Memory);
            }
            return Err(ConfigError::Syntax(error));
        }
    };
    endpoints_of(alloc, &table)
}
