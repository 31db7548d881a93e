//! Addresses and ports of links, as values of keys.
ghost use Rattle.std.specs.Prelude.{◌≡◌, ◌<◌, IfOk};
ghost use Rattle.toml.specs.View.{view};
ghost use Rattle.tora_commands.specs.ConfigAddresses.{address_in, end_in, on_loopback, is_loopback};
ghost use Rattle.std.specs.Net.Socket.{socket_port};

use crate::configuration::numbers::number_of_port;
use crate::configuration::reason::Reason;
use std::net::{Ipv4Addr, SocketAddr, SocketAddrV4};
use toml::Value;

/// The address in a text, as the standard library reads it: `10.0.0.1:7001`, `[::1]:7001`, `[fe80::1%2]:7001`. `None`
/// for any other text.
fn address_of(text: &str) -> Option<SocketAddr>
    ensures { result ≡ address_in text.now }
{
    text.parse::<SocketAddr>().ok()
}

/// A port of the loopback of IPv4, 127.0.0.1.
fn on_loopback(port: u16) -> SocketAddr
    ensures { result ≡ on_loopback port }
{
    SocketAddr::V4(SocketAddrV4::new(Ipv4Addr::LOCALHOST, port))
}

/// The value of a key as the address of a link end: a text is an address, and a number is a port of the loopback,
/// 127.0.0.1.
///
/// # Errors
/// `NoNumber` for a text that is not an address or has the port 0, and for a value that is neither a text nor a whole
/// number. `NoPort` for a whole number that is not from 1 to 65535.
#[tactic(auto, unfolding(crate::specs::ConfigAddresses::end_in))]
pub fn end_of(value: &Value) -> Result<SocketAddr, Reason>
    ensures above { IfOk result (λ address. 0 < socket_port address) }
    ensures all { result ≡ end_in (view value.now) }
{
    let Some(text) = value.as_str() else {
        return match number_of_port(value) {
            Ok(port) => Ok(on_loopback(port)),
            Err(reason) => Err(reason),
        };
    };
    match address_of(text) {
        Some(address) if address.port() > 0 => Ok(address),
        _ => Err(Reason::NoNumber),
    }
}

/// Whether an address is one of the loopback: of 127.0.0.0/8, or ::1.
pub fn is_loopback(address: &SocketAddr) -> bool
    ensures { result ≡ is_loopback address.now }
{
    match address {
        SocketAddr::V4(four) => four.ip().octets()[0] == 127,
        SocketAddr::V6(six) => six.ip().segments() == [0, 0, 0, 0, 0, 0, 0, 1],
    }
}
