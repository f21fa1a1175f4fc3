//! Why a client closes, as libtorrent numbers the reasons.
ghost use Rattle.std.specs.Prelude.{◌≡◌, ◌<◌, option_map};
ghost use Rattle.bt_report.specs.CloseReasons.{causes, faults, name_in, name_of};

use std::fmt;

/// Returns the name of a reason that isn't what the other end sent; none for an unknown number.
fn cause(reason: u16) -> Option<&'static str>
    ensures { option_map (λ name. name.now) result ≡ name_in reason causes }
{
    match reason {
        1 => Some("duplicate peer id"),
        2 => Some("torrent removed"),
        3 => Some("no memory"),
        4 => Some("port blocked"),
        5 => Some("blocked"),
        6 => Some("upload to upload"),
        7 => Some("not interested upload only"),
        8 => Some("timeout"),
        9 => Some("timed out interest"),
        10 => Some("timed out activity"),
        11 => Some("timed out handshake"),
        12 => Some("timed out request"),
        13 => Some("protocol blocked"),
        14 => Some("peer churn"),
        15 => Some("too many connections"),
        16 => Some("too many files"),
        _ => None,
    }
}

/// Returns the name of what the other end sent; none for an unknown number.
fn fault(reason: u16) -> Option<&'static str>
    ensures { option_map (λ name. name.now) result ≡ name_in reason faults }
{
    match reason {
        256 => Some("encryption error"),
        257 => Some("invalid info hash"),
        258 => Some("self connection"),
        259 => Some("invalid metadata"),
        260 => Some("metadata too big"),
        261 => Some("message too big"),
        262 => Some("invalid message id"),
        263 => Some("invalid message"),
        264 => Some("invalid piece message"),
        265 => Some("invalid have message"),
        266 => Some("invalid bitfield message"),
        267 => Some("invalid choke message"),
        268 => Some("invalid unchoke message"),
        269 => Some("invalid interested message"),
        270 => Some("invalid not interested message"),
        271 => Some("invalid request message"),
        272 => Some("invalid reject message"),
        273 => Some("invalid allow fast message"),
        274 => Some("invalid extended message"),
        275 => Some("invalid cancel message"),
        276 => Some("invalid dht port message"),
        277 => Some("invalid suggest message"),
        278 => Some("invalid have all message"),
        279 => Some("invalid dont have message"),
        280 => Some("invalid have none message"),
        281 => Some("invalid pex message"),
        282 => Some("invalid metadata request message"),
        283 => Some("invalid metadata message"),
        284 => Some("invalid metadata offset"),
        285 => Some("request when choked"),
        286 => Some("corrupt pieces"),
        287 => Some("pex message too big"),
        288 => Some("pex too frequent"),
        _ => None,
    }
}

/// Returns the name of a reason; none for an unknown number.
#[tactic(auto, unfolding(crate::specs::CloseReasons::name_of))]
fn name(reason: u16) -> Option<&'static str>
    ensures { option_map (λ name. name.now) result ≡ name_of reason }
{
    if reason < 256 {
        cause(reason)
    } else {
        fault(reason)
    }
}

/// A reason: its number, and its name if it has one.
#[derive(Clone, Copy)]
pub(crate) struct CloseReason(pub(crate) u16);

impl fmt::Display for CloseReason {
    ghost use Rattle.std.specs.Prelude.{Some};
    ghost use Rattle.bt_report.specs.CloseReasons.{reason_text};

    ghost output = { λ r. Some (reason_text r.0) };

    fn fmt<W: fmt::Write>(&self, f: &mut fmt::Formatter<W>) -> fmt::Result {
        let number = self.0;
        match name(number) {
            Some(name) => write!(f, "{number} ({name})"),
            None => write!(f, "{number}"),
        }
    }
}

/// A reason as members of a JSON object (RFC 8259).
#[derive(Clone, Copy)]
pub(crate) struct ReasonMembers(pub(crate) u16);

impl fmt::Display for ReasonMembers {
    ghost use Rattle.std.specs.Prelude.{Some};
    ghost use Rattle.bt_report.specs.CloseReasons.{reason_members};

    ghost output = { λ r. Some (reason_members r.0) };

    fn fmt<W: fmt::Write>(&self, f: &mut fmt::Formatter<W>) -> fmt::Result {
        let number = self.0;
        match name(number) {
            Some(name) => write!(f, "\"reason\":{number},\"name\":\"{name}\""),
            None => write!(f, "\"reason\":{number}"),
        }
    }
}
