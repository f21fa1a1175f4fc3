//! The URL of a tracker.
ghost use Rattle.std.specs.Prelude.{◌≡◌, ◌≤◌, ◌==◌, ◌<◌, ◌^◌, IfErr, MatchResult, SomeIff, true, None, Some, length, map, option_map};
ghost use Rattle.std.specs.Char.{is_ascii_digit, to_ascii_lowercase};
ghost use Rattle.std.specs.List.{before_first, list_all, position};
ghost use Rattle.std.specs.Str.{IsAscii};
ghost use Rattle.std.specs.Str.Parse.{digits_value};
ghost use Rattle.bt_tracker.specs.Urls.{IsTracker, after_word as after_word_by, authority_of, fault_of, has_host as has_host_by};
ghost use Rattle.bt_tracker.specs.Urls.{IsHttp, IsPlace, IsUdp, host_end as host_end_by, host_in, http_fault, is_address_byte as is_address_byte_by};
ghost use Rattle.bt_tracker.specs.Urls.{is_bracketed as is_bracketed_by, is_name_byte as is_name_byte_by, is_unasked as is_unasked_by};
ghost use Rattle.bt_tracker.specs.Urls.{is_visible as is_visible_by, more_in, place_fault, port_in, port_of, target_of, whole_of};

use thiserror::Error;

/// Where a tracker is, and how it is asked.
#[derive(Clone, Copy, PartialEq, Eq, Debug)]
pub enum Tracker<'a> {
    /// Over UDP (BEP 15): `udp://HOST:PORT`, and what follows the port is not sent.
    Udp {
        /// A name or an address, that of IPv6 without its brackets.
        host: &'a str,
        /// The port.
        port: u16,
    },
    /// Over HTTP (BEP 3): `http://HOST[:PORT][TARGET]`.
    Http {
        /// A name or an address, that of IPv6 without its brackets.
        host: &'a str,
        /// The port, 80 if the URL has none.
        port: u16,
        /// The path and the query, up to `#`. It may be empty.
        target: &'a [u8],
    },
    /// By `https`, `ws` or `wss`, which isn't asked.
    Unasked,
}

/// A text is no URL of a tracker.
#[derive(Clone, Copy, PartialEq, Eq, Debug, Error)]
#[error("no tracker's URL has what stands at offset {at}")]
pub struct UrlError {
    /// The offset of what is wrong: of the scheme, of the host, of what follows the host, or of the target.
    pub at: usize,
}

/// Returns what follows a word in lower case at the front of bytes, whose letters may be of either case.
fn after_word<'a>(bytes: &'a [u8], word: &[u8]) -> Option<&'a [u8]>
    requires { map to_ascii_lowercase word.now ≡ word.now }
    ensures { option_map (λ b. b.now) result ≡ after_word_by word.now bytes.now }
{
    let (front, rest) = bytes.split_at_checked(word.len())?;
    if front.eq_ignore_ascii_case(word) {
        Some(rest)
    } else {
        None
    }
}

/// Returns whether a text has a scheme by which trackers are not asked.
fn is_unasked(url: &[u8]) -> bool
    ensures { result ≡ is_unasked_by url.now }
{
    after_word(url, b"https://").is_some()
        || after_word(url, b"ws://").is_some()
        || after_word(url, b"wss://").is_some()
}

/// Returns the place of the first byte that is `stop`.
fn place_of(bytes: &[u8], stop: u8) -> Option<usize>
    ensures { result ≡ position (λ b. b == stop) bytes.now }
{
    bytes.iter().position(|byte| *byte == stop)
}

/// Returns the bytes before the first that is `stop`, or all.
#[tactic(auto, using(crate::proofs::Texts::front_found, crate::proofs::Texts::front_all))]
fn before(bytes: &[u8], stop: u8) -> &[u8]
    ensures value { result.now ≡ before_first (λ b. b == stop) bytes.now }
    ensures within { length result.now ≤ length bytes.now }
{
    match place_of(bytes, stop) {
        Some(place) => bytes.get(..place).unwrap_or(bytes),
        None => bytes,
    }
}

/// Returns whether a byte may stand in a host's name, or in an address of IPv4.
fn is_name_byte(byte: u8) -> bool
    ensures { result ≡ is_name_byte_by byte }
{
    byte.is_ascii_alphanumeric() || byte == b'-' || byte == b'.' || byte == b'_'
}

/// Returns whether a byte may stand in an address of IPv6.
fn is_address_byte(byte: u8) -> bool
    ensures { result ≡ is_address_byte_by byte }
{
    byte.is_ascii_hexdigit() || byte == b':' || byte == b'.'
}

/// Returns whether a byte may stand in a target.
fn is_visible(byte: u8) -> bool
    ensures { result ≡ is_visible_by byte }
{
    33 <= byte && byte <= 126
}

fn are_name_bytes(bytes: &[u8]) -> bool
    ensures { result ≡ list_all is_name_byte_by bytes.now }
{
    bytes.iter().all(|byte| is_name_byte(*byte))
}

fn are_address_bytes(bytes: &[u8]) -> bool
    ensures { result ≡ list_all is_address_byte_by bytes.now }
{
    bytes.iter().all(|byte| is_address_byte(*byte))
}

fn are_visible(bytes: &[u8]) -> bool
    ensures { result ≡ list_all is_visible_by bytes.now }
{
    bytes.iter().all(|byte| is_visible(*byte))
}

fn are_digits(bytes: &[u8]) -> bool
    ensures { result ≡ list_all is_ascii_digit bytes.now }
{
    bytes.iter().all(|byte| byte.is_ascii_digit())
}

/// Returns whether an authority begins with a bracket.
fn is_bracketed(authority: &[u8]) -> bool
    ensures { result ≡ is_bracketed_by authority.now }
{
    authority.len() > 0 && authority[0] == b'['
}

/// Returns the host of an authority, without brackets.
fn host(authority: &[u8]) -> &[u8]
    ensures value { result.now ≡ host_in authority.now }
    ensures within { length result.now ≤ length authority.now }
{
    if is_bracketed(authority) {
        before(&authority[1..], b']')
    } else {
        before(authority, b':')
    }
}

/// Returns the offset after the host and its brackets.
fn host_end(authority: &[u8]) -> usize
    ensures { result ≡ host_end_by authority.now }
{
    let len = host(authority).len();
    if is_bracketed(authority) {
        len + 2
    } else {
        len
    }
}

/// Returns what follows the host.
fn more(authority: &[u8]) -> &[u8]
    ensures { result.now ≡ more_in authority.now }
{
    match authority.get(host_end(authority)..) {
        Some(more) => more,
        None => &[],
    }
}

/// Returns whether an authority has a host.
fn has_host(authority: &[u8]) -> bool
    ensures { result ≡ has_host_by authority.now }
{
    let host = host(authority);
    if host.is_empty() || authority.len() < host_end(authority) {
        return false;
    }
    if is_bracketed(authority) {
        are_address_bytes(host)
    } else {
        are_name_bytes(host)
    }
}

/// Returns bytes of ASCII as a text.
fn text(bytes: &[u8]) -> &str
    requires { IsAscii bytes.now }
    ensures { result.now ≡ bytes.now }
{
    match str::from_utf8(bytes) {
        Ok(text) => text,
        Err(_) => "",
    }
}

/// Returns the number that digits write, if it has 16 bits.
#[tactic(auto, using(crate::proofs::Texts::digits_are_ascii))]
fn number(digits: &[u8]) -> Option<u16>
    requires { list_all is_ascii_digit digits.now ≡ true }
    ensures { SomeIff result ((0 < length digits.now) × (digits_value 10 digits.now < 2 ^ 16)) (digits_value 10 digits.now) }
{
    text(digits).parse::<u16>().ok()
}

/// Returns the port that digits write.
fn port_of_digits(digits: &[u8]) -> Option<u16>
    ensures { result ≡ port_of digits.now }
{
    if digits.is_empty() || !are_digits(digits) {
        return None;
    }
    let port = number(digits)?;
    if port == 0 { None } else { Some(port) }
}

/// Returns the port that follows a host, or the default one.
fn port(default: Option<u16>, more: &[u8]) -> Option<u16>
    ensures { result ≡ port_in default more.now }
{
    if more.len() == 0 {
        return default;
    }
    if more[0] == b':' {
        port_of_digits(&more[1..])
    } else {
        None
    }
}

/// Returns the authority of what follows the scheme.
fn authority(rest: &[u8]) -> &[u8]
    ensures value { result.now ≡ authority_of rest.now }
    ensures within { length result.now ≤ length (whole_of rest.now) }
    ensures short { length result.now ≤ length rest.now }
{
    before(before(before(rest, b'#'), b'/'), b'?')
}

/// Returns the path and the query of what follows the scheme.
fn target(rest: &[u8]) -> &[u8]
    ensures { result.now ≡ target_of rest.now }
{
    let whole = before(rest, b'#');
    &whole[authority(rest).len()..]
}

/// Returns the host and the port of an authority.
///
/// # Errors
/// The offset of what is wrong.
fn place(default: Option<u16>, authority: &[u8]) -> Result<(&str, u16), usize>
    ensures place { MatchResult result (λ x. IsPlace default authority.now x.0.now x.1) (λ at. place_fault default authority.now ≡ Some at) }
    ensures within { IfErr result (λ at. at ≤ length authority.now) }
{
    if !has_host(authority) {
        return Err(0);
    }
    let Some(port) = port(default, more(authority)) else {
        return Err(host_end(authority));
    };
    Ok((text(host(authority)), port))
}

/// Returns the tracker after `udp://`.
///
/// # Errors
/// The offset of what is wrong.
fn udp(rest: &[u8]) -> Result<Tracker<'_>, usize>
    ensures tracker { MatchResult result (IsUdp rest.now) (λ at. place_fault None (authority_of rest.now) ≡ Some at) }
    ensures within { IfErr result (λ at. at ≤ length rest.now) }
{
    let (host, port) = place(None, authority(rest))?;
    Ok(Tracker::Udp { host, port })
}

/// Returns the tracker after `http://`.
///
/// # Errors
/// The offset of what is wrong.
fn http(rest: &[u8]) -> Result<Tracker<'_>, usize>
    ensures tracker { MatchResult result (IsHttp rest.now) (λ at. http_fault rest.now ≡ Some at) }
    ensures within { IfErr result (λ at. at ≤ length rest.now) }
{
    let (host, port) = place(Some(80), authority(rest))?;
    let target = target(rest);
    if !are_visible(target) {
        return Err(authority(rest).len());
    }
    Ok(Tracker::Http { host, port, target })
}

/// Returns where the tracker of a URL is, and how it is asked.
///
/// The scheme's letters may be of either case. A host's name has letters, digits, `-`, `.` and `_`, an IPv6 address hex digits, `:`
/// and `.` in brackets. A port is 1 to 65,535. What follows `#` is passed over.
///
/// # Errors
/// The offset of what is wrong: 0 for another scheme; that of a host which isn't one; that after the host if no port follows it; that
/// of the target if one of its bytes isn't a visible character of ASCII.
pub fn read_tracker(url: &str) -> Result<Tracker<'_>, UrlError>
    ensures { MatchResult result (IsTracker url.now) (λ e. fault_of url.now ≡ Some e.at) }
{
    let bytes = url.as_bytes();
    if let Some(rest) = after_word(bytes, b"udp://") {
        return match udp(rest) {
            Ok(tracker) => Ok(tracker),
            Err(at) => Err(UrlError { at: at + 6 }),
        };
    }
    if let Some(rest) = after_word(bytes, b"http://") {
        return match http(rest) {
            Ok(tracker) => Ok(tracker),
            Err(at) => Err(UrlError { at: at + 7 }),
        };
    }
    if is_unasked(bytes) {
        return Ok(Tracker::Unasked);
    }
    Err(UrlError { at: 0 })
}
