//! Kinds of files that are given in place of a stream by mistake.
ghost use Rattle.std.specs.Prelude.{◌≡◌};
ghost use Rattle.bt_run.specs.Hints.{begins, is_capture, is_http, is_hex, is_tls, is_torrent, is_lines, kind_in};

/// The bytes that each handshake begins with (BEP 3).
pub const PROTOCOL: &[u8; 20] = b"\x13BitTorrent protocol";

/// A kind of file.
#[derive(Clone, Copy, PartialEq, Eq, Debug)]
pub enum Kind {
    /// A capture of packets.
    Pcap,
    /// A capture of packets, in the newer format.
    Pcapng,
    /// Data that gzip has compressed.
    Gzip,
    /// A TLS connection.
    Tls,
    /// An HTTP request or response.
    Http,
    /// A dictionary, as a .torrent file is one.
    Torrent,
    /// Digits of hex.
    Hex,
    /// A script, as `unpack` writes it.
    Script,
    /// Lines of `show`.
    Lines,
}

/// Returns whether the bytes begin with the mark.
pub fn begins(bytes: &[u8], mark: &[u8]) -> bool
    ensures { result ≡ begins mark.now bytes.now }
{
    bytes.starts_with(mark)
}

/// Returns whether the bytes begin as a pcap file, in either order of bytes and with either unit of time.
fn is_capture(bytes: &[u8]) -> bool
    ensures { result ≡ is_capture bytes.now }
{
    begins(bytes, b"\xd4\xc3\xb2\xa1")
        || begins(bytes, b"\xa1\xb2\xc3\xd4")
        || begins(bytes, b"\x4d\x3c\xb2\xa1")
        || begins(bytes, b"\xa1\xb2\x3c\x4d")
}

/// Returns whether the bytes begin as an HTTP request or response.
fn is_http(bytes: &[u8]) -> bool
    ensures { result ≡ is_http bytes.now }
{
    begins(bytes, b"GET ")
        || begins(bytes, b"POST ")
        || begins(bytes, b"HEAD ")
        || begins(bytes, b"HTTP/1.")
}

/// Returns whether the bytes begin as a TLS record of a handshake.
fn is_tls(bytes: &[u8]) -> bool
    ensures { result ≡ is_tls bytes.now }
{
    begins(bytes, b"\x16\x03\x01") || begins(bytes, b"\x16\x03\x03")
}

/// Returns whether the bytes begin as a dictionary with a key of a .torrent file.
fn is_torrent(bytes: &[u8]) -> bool
    ensures { result ≡ is_torrent bytes.now }
{
    begins(bytes, b"d8:announce")
        || begins(bytes, b"d13:announce-list")
        || begins(bytes, b"d7:comment")
        || begins(bytes, b"d10:created by")
        || begins(bytes, b"d13:creation date")
        || begins(bytes, b"d4:info")
}

/// Returns whether the bytes begin as a handshake in hex, with or without spaces, or as what `xxd` prints.
fn is_hex(bytes: &[u8]) -> bool
    ensures { result ≡ is_hex bytes.now }
{
    begins(bytes, b"13426974546f7272656e74")
        || begins(bytes, b"13426974546F7272656E74")
        || begins(bytes, b"13 42 69 74")
        || begins(bytes, b"00000000: ")
        || begins(bytes, b"00000000  ")
}

/// Returns whether the bytes begin as lines of `show`.
fn is_lines(bytes: &[u8]) -> bool
    ensures { result ≡ is_lines bytes.now }
{
    begins(bytes, b"0 handshake ") || begins(bytes, b"{\"offset\":0,")
}

/// Returns the kind of file that begins with these bytes.
///
/// `None` for a stream and for what isn't known.
pub fn kind_of(bytes: &[u8]) -> Option<Kind>
    ensures { result ≡ kind_in bytes.now }
{
    if is_capture(bytes) {
        return Some(Kind::Pcap);
    }
    if begins(bytes, b"\x0a\x0d\x0d\x0a") {
        return Some(Kind::Pcapng);
    }
    if begins(bytes, b"\x1f\x8b\x08") {
        return Some(Kind::Gzip);
    }
    if is_tls(bytes) {
        return Some(Kind::Tls);
    }
    if is_http(bytes) {
        return Some(Kind::Http);
    }
    if is_torrent(bytes) {
        return Some(Kind::Torrent);
    }
    if is_hex(bytes) {
        return Some(Kind::Hex);
    }
    if begins(bytes, b"handshake ") {
        return Some(Kind::Script);
    }
    if is_lines(bytes) {
        return Some(Kind::Lines);
    }
    None
}
