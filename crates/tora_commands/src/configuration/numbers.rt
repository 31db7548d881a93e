//! Numbers as values of keys.
ghost use Rattle.std.specs.Prelude.{◌≡◌, ◌<◌, pos, Some, IfOk};
ghost use Rattle.toml.specs.Data.{as_integer};
ghost use Rattle.toml.specs.View.{view};
ghost use Rattle.tora_commands.specs.ConfigAddresses.{end_in, port_of_end};
ghost use Rattle.tora_commands.specs.ConfigNumbers.{id_in, port_in};

use crate::configuration::addresses::end_of;
use crate::configuration::reason::Reason;
use toml::Value;
use tora_height::Id;

/// The value of a key as the number of a node. `NoNumber` if it is not a whole number, `NoId` if it is not from 1 to
/// 2^32 - 1.
pub fn id_of(value: &Value) -> Result<Id, Reason>
    ensures above { IfOk result (λ n. 0 < n) }
    ensures exact { IfOk result (λ n. as_integer (view value.now) ≡ Some (pos n)) }
    ensures all { result ≡ id_in (as_integer (view value.now)) }
{
    let Some(number) = value.as_integer() else {
        return Err(Reason::NoNumber);
    };
    match u32::try_from(number) {
        Ok(id) => {
            if id == 0 {
                return Err(Reason::NoId);
            }
            Ok(id)
        }
        Err(_) => Err(Reason::NoId),
    }
}

/// The value of a key as a port, given as a number. `NoNumber` if it is not a whole number, `NoPort` if it is not from
/// 1 to 65535.
pub(crate) fn number_of_port(value: &Value) -> Result<u16, Reason>
    ensures above { IfOk result (λ n. 0 < n) }
    ensures all { result ≡ port_in (as_integer (view value.now)) }
{
    let Some(number) = value.as_integer() else {
        return Err(Reason::NoNumber);
    };
    match u16::try_from(number) {
        Ok(port) => {
            if port == 0 {
                return Err(Reason::NoPort);
            }
            Ok(port)
        }
        Err(_) => Err(Reason::NoPort),
    }
}

/// The value of a key as a port, given as a number or in the text of an address. The errors are those of `end_of`.
pub fn port_of(value: &Value) -> Result<u16, Reason>
    ensures above { IfOk result (λ n. 0 < n) }
    ensures all { result ≡ port_of_end (end_in (view value.now)) }
{
    match end_of(value) {
        Ok(address) => Ok(address.port()),
        Err(reason) => Err(reason),
    }
}
