//! The line on packets of uTP.
ghost use Rattle.std.specs.Prelude.{◌≡◌, Some};
ghost use Rattle.bt_report.specs.Utp.{closed_member, closed_object, closed_text, utp_object, utp_text};

use crate::ends::Ends;
use crate::reasons::{CloseReason, ReasonMembers};
use bt_packet::Address;
use std::fmt;

/// Packets of uTP between two ends (BEP 29).
///
/// Its text is a line. `UtpObject` writes it as a JSON object.
#[derive(Clone, Copy)]
pub struct UtpPackets {
    /// The source of the first one.
    pub source: Address,
    /// The target of the first one.
    pub target: Address,
    pub count: u64,
    /// Whether there may be more, which weren't counted.
    pub is_least: bool,
    /// Why the source closed, as libtorrent numbers the reasons; none if it didn't say.
    pub source_reason: Option<u16>,
    /// Why the target closed.
    pub target_reason: Option<u16>,
}

/// That an end closed, if it said why.
#[derive(Clone, Copy)]
struct ClosedText<'a>(&'a Address, Option<u16>);

impl fmt::Display for ClosedText<'_> {
    ghost output = { λ c. Some (closed_text c.0.now c.1) };

    fn fmt<W: fmt::Write>(&self, f: &mut fmt::Formatter<W>) -> fmt::Result {
        let ClosedText(by, reason) = *self;
        let Some(number) = reason else {
            return Ok(());
        };
        let reason = CloseReason(number);
        write!(f, "; {by} closed: {reason}")
    }
}

impl fmt::Display for UtpPackets {
    ghost output = { λ p. Some (utp_text p) };

    fn fmt<W: fmt::Write>(&self, f: &mut fmt::Formatter<W>) -> fmt::Result {
        let ends = Ends {
            first: &self.source,
            between: " > ",
            second: &self.target,
        };
        let before = if self.is_least { "  at least " } else { "  " };
        let count = self.count;
        let first = ClosedText(&self.source, self.source_reason);
        let second = ClosedText(&self.target, self.target_reason);
        write!(
            f,
            "uTP  {ends}{before}{count} packets of BitTorrent over UDP (BEP 29), read from a SYN on{first}{second}\n"
        )
    }
}

/// An end that closed, and why.
#[derive(Clone, Copy)]
struct ClosedObject<'a>(&'a Address, u16);

impl fmt::Display for ClosedObject<'_> {
    ghost output = { λ c. Some (closed_object c.0.now c.1) };

    fn fmt<W: fmt::Write>(&self, f: &mut fmt::Formatter<W>) -> fmt::Result {
        let ClosedObject(by, number) = *self;
        let reason = ReasonMembers(number);
        write!(f, "{{\"by\":\"{by}\",{reason}}}")
    }
}

/// The ends that said why they closed, if one did.
#[derive(Clone, Copy)]
struct ClosedMember<'a>(&'a UtpPackets);

impl fmt::Display for ClosedMember<'_> {
    ghost output = { λ c. Some (closed_member c.0.now.source c.0.now.source_reason c.0.now.target c.0.now.target_reason) };

    fn fmt<W: fmt::Write>(&self, f: &mut fmt::Formatter<W>) -> fmt::Result {
        let UtpPackets { source, target, .. } = self.0;
        match (self.0.source_reason, self.0.target_reason) {
            (None, None) => Ok(()),
            (Some(reason), None) => {
                let one = ClosedObject(source, reason);
                write!(f, ",\"closed\":[{one}]")
            }
            (None, Some(reason)) => {
                let one = ClosedObject(target, reason);
                write!(f, ",\"closed\":[{one}]")
            }
            (Some(first), Some(second)) => {
                let one = ClosedObject(source, first);
                let other = ClosedObject(target, second);
                write!(f, ",\"closed\":[{one},{other}]")
            }
        }
    }
}

/// Packets of uTP as a JSON object (RFC 8259) on a line.
#[derive(Clone, Copy)]
pub struct UtpObject<'a>(pub &'a UtpPackets);

impl fmt::Display for UtpObject<'_> {
    ghost output = { λ o. Some (utp_object o.0.now) };

    fn fmt<W: fmt::Write>(&self, f: &mut fmt::Formatter<W>) -> fmt::Result {
        let UtpPackets {
            source,
            target,
            count,
            is_least,
            ..
        } = self.0;
        let ends = Ends {
            first: source,
            between: "\",\"target\":\"",
            second: target,
        };
        let after = if *is_least { ",\"at_least\":true" } else { "" };
        let closed = ClosedMember(self.0);
        write!(
            f,
            "{{\"utp\":{{\"source\":\"{ends}\",\"packets\":{count}{after}{closed}}}}}\n"
        )
    }
}
