//! What names a peer: an address, or a host and a port. The modules `link` and `list`, and `bt_cli` call it.
ghost use Rattle.std.specs.Prelude.{◌≡◌, ◌↔◌, ◌++◌, ◌∷◌, [], IsTrue, OnOk, map, string_bytes};
ghost use Rattle.std.specs.Char.{is_ascii_alphabetic, is_ascii_digit};
ghost use Rattle.std.specs.List.{list_all, list_any};
ghost use Rattle.bt_magnet.specs.Peers.{IsPeer, is_host as is_host_by_rule, is_host_byte as is_host_byte_by_rule, is_named as is_named_by_rule};
ghost use Rattle.bt_magnet.specs.Peers.{is_port as is_port_by_rule};

use std::alloc::{AllocError, Global};
use std::net::SocketAddr;

/// Returns whether a byte may stand in a host's name.
fn is_host_byte(byte: u8) -> bool
    ensures { result ≡ is_host_byte_by_rule byte }
{
    byte.is_ascii_alphanumeric() || byte == b'-' || byte == b'.' || byte == b'_'
}

/// Returns whether each byte may stand in a host's name.
fn are_host_bytes(text: &[u8]) -> bool
    ensures { result ≡ list_all is_host_byte_by_rule text.now }
{
    text.iter().all(|byte| is_host_byte(*byte))
}

/// Returns whether a byte is a letter.
fn has_letter(text: &[u8]) -> bool
    ensures { result ≡ list_any is_ascii_alphabetic text.now }
{
    text.iter().any(|byte| byte.is_ascii_alphabetic())
}

/// Returns whether the text is a host's name.
fn is_host(text: &[u8]) -> bool
    ensures { result ≡ is_host_by_rule text.now }
{
    are_host_bytes(text) && has_letter(text)
}

/// Returns whether the text is decimal digits alone.
fn are_digits(text: &[u8]) -> bool
    ensures { result ≡ list_all is_ascii_digit text.now }
{
    text.iter().all(|byte| byte.is_ascii_digit())
}

/// Returns whether the text is a port's number.
#[tactic(auto, using(crate::proofs::Ports::parsed_port))]
fn is_port(text: &str) -> bool
    ensures { result ≡ is_port_by_rule text.now }
{
    if !are_digits(text.as_bytes()) {
        return false;
    }
    text.parse::<u16>().is_ok()
}

/// Returns whether the text is HOST:PORT.
fn is_named(text: &str) -> bool
    ensures { result ≡ is_named_by_rule text.now }
{
    match text.split_once(':') {
        Some((host, port)) => is_host(host.as_bytes()) && is_port(port),
        None => false,
    }
}

/// Returns whether the text names a peer: IP:PORT, [IPv6]:PORT or HOST:PORT.
pub fn is_peer(text: &str) -> bool
    ensures { IsTrue result ↔ IsPeer text.now }
{
    text.parse::<SocketAddr>().is_ok() || is_named(text)
}

/// Adds a copy of the text to the peers.
///
/// # Errors
/// `AllocError` when out of memory.
pub fn add_peer(alloc: Global, text: &str, peers: &mut Vec<String>) -> Result<(), AllocError>
    ensures { OnOk result (map string_bytes peers.new.items ≡ map string_bytes peers.old.items ++ text.now ∷ []) }
{
    peers.push(String::from_str(alloc, text)?)?;
    Ok(())
}
