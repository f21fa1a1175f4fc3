//! What `--only` and `--peer` of `capture` choose.
ghost use Rattle.std.specs.Prelude.{◌≡◌, ◌||◌, None, IfOk, IfSome, is_some, option_map};
ghost use Rattle.clap.specs.Matches.{found_of};
ghost use Rattle.bt_capture.specs.declared.choice.Peer.{Peer as Wanted};
ghost use Rattle.bt_cli.specs.Chosen.{IsChoiceAsked, IsPeerAsked, IsPeerText, host_of, is_choosing, only_in};

use bt_capture::{Choice, Peer};
use bt_packet::Host;
use clap::ArgMatches;
use std::net::{IpAddr, SocketAddr};

/// Returns an IP address as a host.
fn host_of(address: IpAddr) -> Host
    ensures { result ≡ host_of address }
{
    match address {
        IpAddr::V4(four) => Host::V4(four.octets()),
        IpAddr::V6(six) => Host::V6(six.octets()),
    }
}

/// Returns the end of connections that a text names: an IP address, or one with a port.
fn peer_of(text: &str) -> Option<Peer>
    ensures named { IfSome result (IsPeerText text.now) }
    ensures none { result ≡ None → (peer : Wanted) → IsPeerText text.now peer → ⊥ }
{
    if let Ok(address) = text.parse::<SocketAddr>() {
        return Some(Peer {
            host: host_of(address.ip()),
            port: Some(address.port()),
        });
    }
    match text.parse::<IpAddr>() {
        Ok(address) => Some(Peer {
            host: host_of(address),
            port: None,
        }),
        Err(_) => None,
    }
}

/// Returns whether `--only` asks for connections of which a direction is refused.
fn only_in(text: Option<&str>) -> Option<bool>
    ensures { result ≡ only_in (option_map (λ s. s.now) text.entry) }
{
    match text {
        None => Some(false),
        Some("refused") => Some(true),
        Some(_) => None,
    }
}

/// Returns the end that `--peer` names, if it is given.
fn peer_in(text: Option<&str>) -> Option<Option<Peer>>
    ensures { IfSome result (IsPeerAsked (option_map (λ s. s.now) text.entry)) }
{
    match text {
        None => Some(None),
        Some(name) => match peer_of(name) {
            Some(peer) => Some(Some(peer)),
            None => None,
        },
    }
}

/// Tells whether not all connections are told.
pub(crate) fn is_choosing(choice: Choice) -> bool
    ensures { result ≡ is_choosing choice }
{
    choice.refused || choice.peer.is_some()
}

/// Returns which connections the options choose.
///
/// # Errors
/// The option that has no meaning.
pub(crate) fn choice_in(options: &ArgMatches<'_>) -> Result<Choice, &'static str>
    ensures { IfOk result (IsChoiceAsked (found_of options.now)) }
{
    let Some(refused) = only_in(options.get_str("only")) else {
        return Err("'--only' takes 'refused'");
    };
    let Some(peer) = peer_in(options.get_str("peer")) else {
        return Err("'--peer' takes an IP address, IP:PORT or [IPv6]:PORT");
    };
    Ok(Choice { refused, peer })
}
