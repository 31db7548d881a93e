//! Reads configurations from texts.
ghost use Rattle.std.specs.Prelude.{codes, bytes_eq, ◌≡◌, ◌+◌, ◌<◌, ℕ, pos, List, map, length, All, Some, None, IfOk};
ghost use Rattle.std.specs.Prelude.{OnOk, IfErr, IsPermutation, IsTrue, Option};
ghost use Rattle.std.specs.List.{list_any};
ghost use Rattle.std.specs.List.Sorted.{IsNonDecreasingBy};
ghost use Rattle.toml.specs.Data.{Data, Members, as_integer};
ghost use Rattle.toml.specs.Parse.{parse_document};
ghost use Rattle.toml.specs.View.{view, table_view};
ghost use Rattle.tora_core.specs.CoreRun.{core_refusal};
ghost use Rattle.tora_commands.specs.NodeConfig.{IsLinkConfig, IsNodeConfig, IsAscending, peers_of, IsListAt};
ghost use Rattle.tora_commands.specs.NodeConfig.{AreLinksOf};
ghost use Rattle.tora_commands.specs.NodeConfig.{says_of_link, said_link, IsWritten};
ghost use Rattle.tora_commands.specs.ConfigRefusal.{unknown_key, unknown_link_key};
ghost use Rattle.tora_commands.specs.ConfigReading.{Gives, has_core, Reads, IsNoToml, has_peer, has_local, dest_in};
ghost use Rattle.tora_commands.specs.ConfigReading.{dests_in};
ghost use Rattle.tora_commands.specs.ConfigReading.{link_in, link_beside, listed_links, links_in, configuration_in};
ghost use Rattle.tora_commands.specs.ConfigReading.{keys_in};
ghost use Rattle.tora_commands.specs.ConfigReading.{only_known, keys_of_configuration, keys_of_link};

use crate::configuration::fault::{ConfigError, Place};
use crate::configuration::numbers::id_of;
use crate::configuration::reason::Reason;
use crate::configuration::values::{erasure_at, id_at, list_at, port_at, text_at};
use crate::configuration::{LinkConfig, NodeConfig};
use std::alloc::{AllocError, Global};
use toml::{Table, Value};
use tora_core::{Core, CoreError};
use tora_height::Id;

// Whether this is a key of a configuration.
fn is_key(key: &str) -> bool
    ensures { result ≡ list_any (bytes_eq key.now) keys_of_configuration }
{
    matches!(key, "node" | "dests" | "life_dir" | "erasure" | "link")
}

/// Checks that each key of the table is a key of a configuration. The error is `UnknownKey` with the first other key,
/// or `Memory`.
#[tactic(auto, using(crate::proofs::ConfigKeys::keys_in_view))]
fn check_keys(alloc: Global, table: &Table) -> Result<(), ConfigError>
    ensures { Gives (λ u. u) result (only_known keys_of_configuration unknown_key (keys_in (table_view table.now))) }
{
    for key in table.keys() {
        let key = key.as_str();
        if !is_key(key) {
            return Err(ConfigError::UnknownKey(String::from_str(alloc, key)?));
        }
    }
    Ok(())
}

// Whether this is a key of a link.
fn is_link_key(key: &str) -> bool
    ensures { result ≡ list_any (bytes_eq key.now) keys_of_link }
{
    matches!(key, "peer" | "local" | "remote" | "key_file")
}

/// Checks that each key of the table is a key of a link. The error is `UnknownLinkKey` with the number `n` of the link
/// and the first other key, or `Memory`.
#[tactic(auto, using(crate::proofs::ConfigKeys::keys_in_view))]
fn check_link_keys(alloc: Global, n: usize, table: &Table) -> Result<(), ConfigError>
    ensures { Gives (λ u. u) result (only_known keys_of_link (unknown_link_key n) (keys_in (table_view table.now))) }
{
    for key in table.keys() {
        let key = key.as_str();
        if !is_link_key(key) {
            return Err(ConfigError::UnknownLinkKey(n, String::from_str(alloc, key)?));
        }
    }
    Ok(())
}

// Reads a destination, which must differ from those before it.
#[tactic(auto, unfolding(crate::specs::ConfigReading::dest_in))]
fn dest_of(before: &[Id], value: &Value) -> Result<Id, ConfigError>
    ensures above { IfOk result (λ d. 0 < d) }
    ensures exact { IfOk result (λ d. as_integer (view value.now) ≡ Some (pos d)) }
    ensures gives { Gives (λ d. d) result (dest_in before.now (view value.now)) }
{
    let place = Place::Dest(before.len() + 1);
    match id_of(value) {
        Ok(dest) => {
            if before.contains(&dest) {
                return Err(ConfigError::Value(place, Reason::Repeated));
            }
            Ok(dest)
        }
        Err(reason) => Err(ConfigError::Value(place, reason)),
    }
}

/// Reads the destinations, in order; there may be none. The error is `Missing` or `NoList` at the list, the first error
/// of a destination, or `Memory`.
#[tactic(auto, unfolding(crate::specs::ConfigReading::dests_in))]
fn dests_in(alloc: Global, table: &Table) -> Result<Vec<Id>, ConfigError>
    ensures above { IfOk result (λ dests. All (λ d. 0 < d) dests.items) }
    ensures exact { IfOk result (λ dests. (values : List Data) × IsListAt (codes "dests") (table_view table.now) values
        × (map as_integer values ≡ map (λ d. Some (pos d)) dests.items)) }
    ensures gives { Gives (λ dests. dests.items) result (dests_in (table_view table.now)) }
{
    let mut dests = Vec::new(alloc);
    let values = list_at(table, "dests", Place::Dests)?;
    for value in values {
        let dest = dest_of(dests.as_slice(), value)?;
        dests.push(dest)?;
    }
    Ok(dests)
}

// Reads the link with the number n, from 1 on.
#[tactic(auto, unfolding(crate::specs::ConfigReading::link_in))]
fn link_of(alloc: Global, n: usize, value: &Value) -> Result<LinkConfig, ConfigError>
    ensures range { IfOk result IsLinkConfig }
    ensures exact { IfOk result (λ link. says_of_link (view value.now) ≡ said_link link) }
    ensures gives { Gives (λ link. link) result (link_in n (view value.now)) }
{
    let Some(table) = value.as_table() else {
        return Err(ConfigError::Value(Place::Link(n), Reason::NoTable));
    };
    check_link_keys(alloc, n, table)?;
    let peer = id_at(table, "peer", Place::Peer(n))?;
    let local = port_at(table, "local", Place::Local(n))?;
    let remote = port_at(table, "remote", Place::Remote(n))?;
    Ok(LinkConfig {
        peer,
        local,
        remote,
    })
}

/// Whether one of the links has this peer.
fn has_peer(links: &[LinkConfig], peer: Id) -> bool
    ensures { result ≡ has_peer peer links.now }
{
    links.iter().any(|link| link.peer == peer)
}

/// Whether one of the links has this local port.
fn has_local(links: &[LinkConfig], local: u16) -> bool
    ensures { result ≡ has_local local links.now }
{
    links.iter().any(|link| link.local == local)
}

// Reads a link. Its peer must be neither this node nor a peer of the links before it, and its local port must differ
// from theirs.
#[tactic(auto, unfolding(crate::specs::ConfigReading::link_beside))]
fn link_beside(
    alloc: Global,
    node: Id,
    before: &[LinkConfig],
    value: &Value,
) -> Result<LinkConfig, ConfigError>
    ensures range { IfOk result IsLinkConfig }
    ensures exact { IfOk result (λ link. says_of_link (view value.now) ≡ said_link link) }
    ensures gives { Gives (λ link. link) result (link_beside node before.now (view value.now)) }
{
    let n = before.len() + 1;
    let link = link_of(alloc, n, value)?;
    if link.peer == node {
        return Err(ConfigError::Value(Place::Peer(n), Reason::OwnId));
    }
    if has_peer(before, link.peer) {
        return Err(ConfigError::Value(Place::Peer(n), Reason::Repeated));
    }
    if has_local(before, link.local) {
        return Err(ConfigError::Value(Place::Local(n), Reason::Repeated));
    }
    Ok(link)
}

// The links by ascending peer.
fn in_order(links: Vec<LinkConfig>) -> Vec<LinkConfig>
    ensures same { IsPermutation links.items result.items }
    ensures rising { IsNonDecreasingBy (λ link. link.peer) result.items }
{
    let mut links = links;
    links.sort_unstable_by_key(|link| link.peer);
    links
}

// Reads the links of the list, in the order of the text.
#[tactic(auto, unfolding(crate::specs::ConfigReading::listed_links))]
fn listed_links(alloc: Global, table: &Table, node: Id) -> Result<Vec<LinkConfig>, ConfigError>
    ensures links { IfOk result (λ links. All IsLinkConfig links.items) }
    ensures exact { IfOk result (λ links. (values : List Data) × IsListAt (codes "link") (table_view table.now) values
        × (map says_of_link values ≡ map said_link links.items)) }
    ensures gives { Gives (λ links. links.items) result (listed_links node (table_view table.now)) }
{
    let mut links = Vec::new(alloc);
    let values = list_at(table, "link", Place::Links)?;
    for value in values {
        let link = link_beside(alloc, node, links.as_slice(), value)?;
        links.push(link)?;
    }
    Ok(links)
}

// Reads the links, of which there must be at least one.
#[tactic(auto, unfolding(crate::specs::ConfigReading::links_in))]
fn links_in(alloc: Global, table: &Table, node: Id) -> Result<Vec<LinkConfig>, ConfigError>
    ensures links { IfOk result (λ links. All IsLinkConfig links.items) }
    ensures some_link { IfOk result (λ links. 0 < length links.items) }
    ensures exact { IfOk result (λ links. (values : List Data) × IsListAt (codes "link") (table_view table.now) values
        × (map says_of_link values ≡ map said_link links.items)) }
    ensures gives { Gives (λ links. links.items) result (links_in node (table_view table.now)) }
{
    let links = listed_links(alloc, table, node)?;
    if links.is_empty() {
        return Err(ConfigError::Value(Place::Links, Reason::Missing));
    }
    Ok(links)
}

/// The peers of the links, in order. The error says that memory ran out.
fn peers_of(alloc: Global, links: &[LinkConfig]) -> Result<Vec<Id>, AllocError>
    ensures { IfOk result (λ peers. peers.items ≡ peers_of links.now) }
{
    links.iter().map(|link| link.peer).collect(alloc)
}

// Checks that `Core::new` accepts this node, these links and these destinations.
fn check_core(
    alloc: Global,
    node: Id,
    dests: &[Id],
    links: &[LinkConfig],
) -> Result<(), ConfigError>
    requires node { 0 < node }
    requires dests { All (λ d. 0 < d) dests.now }
    requires links { All IsLinkConfig links.now }
    ensures accepted { OnOk result (core_refusal node (peers_of links.now) dests.now ≡ None) }
    ensures gives { Gives (λ u. u) result (has_core (core_refusal node (peers_of links.now) dests.now)) }
{
    let peers = peers_of(alloc, links)?;
    match Core::new(alloc, node, peers.as_slice(), dests) {
        Ok(_) => Ok(()),
        Err(CoreError::Memory) => Err(ConfigError::Memory),
        Err(error) => Err(ConfigError::Core(error)),
    }
}

// The configuration that a table gives.
#[tactic(auto, unfolding(crate::specs::ConfigReading::configuration_in))]
fn config_of(alloc: Global, table: &Table) -> Result<NodeConfig, ConfigError>
    ensures range { IfOk result IsNodeConfig }
    ensures written { IfOk result (λ c. IsWritten (table_view table.now) c) }
    ensures exact { Reads result (configuration_in (table_view table.now)) }
{
    check_keys(alloc, table)?;
    let node = id_at(table, "node", Place::Node)?;
    let dests = dests_in(alloc, table)?;
    let life_dir = text_at(alloc, table, "life_dir", Place::LifeDir)?;
    let erasure = erasure_at(table)?;
    let links = links_in(alloc, table, node)?;
    check_core(alloc, node, dests.as_slice(), links.as_slice())?;
    Ok(NodeConfig {
        node,
        dests,
        life_dir,
        erasure,
        links: in_order(links),
    })
}

/// Reads a configuration.
///
/// # Errors
/// The first of these: `Syntax` if the text is not TOML, `UnknownKey`, then faults at `node`, `dests`, `life_dir`,
/// `erasure` and `link`, in this order, and then `Core`. For each destination in turn: its number, and then that it is
/// repeated. For each link in turn: that it is not a table, `UnknownLinkKey`, faults at `peer`, `local` and `remote`,
/// that the peer is the node itself, that the peer is repeated, and that `local` is repeated. Of several unknown keys
/// the one that is first by its bytes is reported. `Memory` may come at any point.
pub fn read_config(alloc: Global, text: &str) -> Result<NodeConfig, ConfigError>
    ensures range { IfOk result IsNodeConfig }
    ensures written { IfOk result (λ c. (table : Members) × (parse_document text.now ≡ Some table)
        × IsWritten table c) }
    ensures exact { (table : Members) → parse_document text.now ≡ Some table → Reads result (configuration_in table) }
    ensures syntax { parse_document text.now ≡ None → IsNoToml result }
{
    let table = match toml::table_from_str(alloc, text) {
        Ok(table) => table,
        Err(error) => {
            if error.is_memory() {
                return Err(ConfigError::Memory);
            }
            return Err(ConfigError::Syntax(error));
        }
    };
    config_of(alloc, &table)
}
