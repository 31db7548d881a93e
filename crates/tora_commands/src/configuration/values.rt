//! The values of keys.
ghost use Rattle.std.specs.Prelude.{codes, string_bytes, ◌≡◌, ◌<◌, pos, map, Some, None, IfOk, IfErr};
ghost use Rattle.toml.specs.Data.{as_str, get_member};
ghost use Rattle.tora_commands.specs.ConfigReading.{Gives};
ghost use Rattle.toml.specs.View.{view, items_view, table_view};
ghost use Rattle.tora_commands.specs.ConfigRefusal.{id_at, port_at, end_at, text_at as text_said, list_at, erasure_of};
ghost use Rattle.tora_commands.specs.ConfigRefusal.{erasure_said, erasure_at, at_place};
ghost use Rattle.tora_commands.specs.NodeConfig.{number_at, port_at as port_said_at, text_at, IsListAt};

use crate::configuration::addresses::end_of;
use crate::configuration::fault::{ConfigError, Place};
use crate::configuration::numbers::{id_of, port_of};
use crate::configuration::reason::Reason;
use std::alloc::Global;
use std::net::SocketAddr;
use toml::{Table, Value};
use tora_core::Erasure;
use tora_height::Id;

/// The value at a key of a table. `Missing`, at `place`, if the table does not have the key.
pub fn value_at<'a>(table: &'a Table, key: &str, place: Place) -> Result<&'a Value, ConfigError>
    ensures found { IfOk result (λ v. get_member key.now (table_view table.now) ≡ Some (view v.now)) }
    ensures missing { IfErr result (λ e. (get_member key.now (table_view table.now) ≡ None)
        × (e ≡ ConfigError.Value place Reason.Missing)) }
{
    match table.get(key) {
        Some(value) => Ok(value),
        None => Err(ConfigError::Value(place, Reason::Missing)),
    }
}

/// The number of a node at a key. An error is at `place`: `Missing`, `NoNumber`, `NoId`.
pub fn id_at(table: &Table, key: &str, place: Place) -> Result<Id, ConfigError>
    ensures above { IfOk result (λ n. 0 < n) }
    ensures exact { IfOk result (λ n. number_at key.now (table_view table.now) ≡ Some (pos n)) }
    ensures gives { Gives (λ n. n) result (at_place place (id_at (get_member key.now (table_view table.now)))) }
    ensures no_memory { IfErr result (λ e. ¬ (e ≡ ConfigError.Memory)) }
{
    let value = value_at(table, key, place)?;
    match id_of(value) {
        Ok(id) => Ok(id),
        Err(reason) => Err(ConfigError::Value(place, reason)),
    }
}

/// A port at a key, from a number or an address. An error is at `place`: `Missing`, `NoNumber`, `NoPort`.
pub fn port_at(table: &Table, key: &str, place: Place) -> Result<u16, ConfigError>
    ensures above { IfOk result (λ n. 0 < n) }
    ensures exact { IfOk result (λ n. port_said_at key.now (table_view table.now) ≡ Some n) }
    ensures gives { Gives (λ n. n) result (at_place place (port_at (get_member key.now (table_view table.now)))) }
    ensures no_memory { IfErr result (λ e. ¬ (e ≡ ConfigError.Memory)) }
{
    let value = value_at(table, key, place)?;
    match port_of(value) {
        Ok(port) => Ok(port),
        Err(reason) => Err(ConfigError::Value(place, reason)),
    }
}

/// The address of a link end at a key. An error is at `place`: `Missing`, `NoNumber`, `NoPort`.
pub fn end_at(table: &Table, key: &str, place: Place) -> Result<SocketAddr, ConfigError>
    ensures { Gives (λ address. address) result (at_place place (end_at (get_member key.now (table_view table.now)))) }
{
    let value = value_at(table, key, place)?;
    match end_of(value) {
        Ok(address) => Ok(address),
        Err(reason) => Err(ConfigError::Value(place, reason)),
    }
}

/// A text at a key. An error is at `place`: `Missing`, `NoText`; or it is `Memory`.
pub fn text_at(alloc: Global, table: &Table, key: &str, place: Place) -> Result<String, ConfigError>
    ensures exact { IfOk result (λ text. text_at key.now (table_view table.now) ≡ Some (string_bytes text)) }
    ensures gives { Gives string_bytes result (at_place place (text_said (get_member key.now (table_view table.now)))) }
{
    let value = value_at(table, key, place)?;
    match value.as_str() {
        Some(text) => Ok(String::from_str(alloc, text)?),
        None => Err(ConfigError::Value(place, Reason::NoText)),
    }
}

/// The values of a list at a key, which may be empty. An error is at `place`: `Missing`, `NoList`.
pub fn list_at<'a>(table: &'a Table, key: &str, place: Place) -> Result<&'a [Value], ConfigError>
    ensures exact { IfOk result (λ values. IsListAt key.now (table_view table.now) (map view values.now)) }
    ensures gives { Gives (λ values. items_view values.now) result
        (at_place place (list_at (get_member key.now (table_view table.now)))) }
    ensures no_memory { IfErr result (λ e. ¬ (e ≡ ConfigError.Memory)) }
{
    let value = value_at(table, key, place)?;
    match value.as_array() {
        Some(list) => Ok(list.as_slice()),
        None => Err(ConfigError::Value(place, Reason::NoList)),
    }
}

/// The choice of erasure that `plain` or `remembered` names; `None` for any other word.
fn erasure_of(word: &str) -> Option<Erasure>
    ensures { result ≡ erasure_of word.now }
{
    match word {
        "plain" => Some(Erasure::Plain),
        "remembered" => Some(Erasure::Remembered),
        _ => None,
    }
}

/// The choice of erasure that a value gives. `NoText`, `NoErasure`.
fn erasure_in(value: &Value) -> Result<Erasure, ConfigError>
    ensures { Gives (λ e. e) result (at_place Place.Erasure (erasure_said (as_str (view value.now)))) }
{
    let Some(word) = value.as_str() else {
        return Err(ConfigError::Value(Place::Erasure, Reason::NoText));
    };
    match erasure_of(word) {
        Some(erasure) => Ok(erasure),
        None => Err(ConfigError::Value(Place::Erasure, Reason::NoErasure)),
    }
}

/// The choice of erasure at the key `erasure`; `Plain` if the key is missing. `NoText`, `NoErasure`.
pub fn erasure_at(table: &Table) -> Result<Erasure, ConfigError>
    ensures { Gives (λ e. e) result (at_place Place.Erasure
        (erasure_at (get_member (codes "erasure") (table_view table.now)))) }
{
    match value_at(table, "erasure", Place::Erasure) {
        Ok(value) => erasure_in(value),
        Err(_) => Ok(Erasure::Plain),
    }
}
