//! A report as text.
ghost use Rattle.std.specs.Prelude.{◌≡◌, Some};
ghost use Rattle.bt_report.specs.Reports.{body_text, closer, end_by, report_text, told_text};

use crate::closing::Closing;
use crate::ends::Ends;
use crate::remarked::RemarkedLines;
use crate::report::{Body, Closed, End, Left, Report, Told};
use crate::sides::DirectionLines;
use bt_remarks::Side;
use std::fmt;

/// Returns the side that closed first.
pub(crate) fn closer_of(closed: &Option<Closed>) -> Option<Side>
    ensures { result ≡ closer closed.now }
{
    match closed {
        Some(closed) => Some(closed.first),
        None => None,
    }
}

/// Returns how a connection ended.
pub(crate) fn end_of(told: &Told) -> End
    ensures { result ≡ end_by told.now.closed told.now.left }
{
    match &told.closed {
        Some(closed) => match told.left {
            Left::Unread => End::Half(closed.first),
            _ => End::By(closed.first),
        },
        None => End::Not(told.left),
    }
}

impl fmt::Display for Told {
    ghost output = { λ t. Some (told_text t) };

    fn fmt<W: fmt::Write>(&self, f: &mut fmt::Formatter<W>) -> fmt::Result {
        let close = end_of(self);
        let a = DirectionLines {
            side: Side::A,
            close,
            direction: &self.a,
        };
        let b = DirectionLines {
            side: Side::B,
            close,
            direction: &self.b,
        };
        let closing = Closing {
            closed: &self.closed,
            left: self.left,
            a: &self.a.gaps.first,
            b: &self.b.gaps.first,
        };
        let remarked_a = RemarkedLines(Side::A, &self.remarked_a);
        let remarked_b = RemarkedLines(Side::B, &self.remarked_b);
        write!(f, "{a}{b}{closing}{remarked_a}{remarked_b}")
    }
}

impl fmt::Display for Body {
    ghost output = { λ b. Some (body_text b) };

    fn fmt<W: fmt::Write>(&self, f: &mut fmt::Formatter<W>) -> fmt::Result {
        match self {
            Body::NotBitTorrent => f.write_str(
                "  no BitTorrent handshake: encrypted, another protocol, or its start isn't in the capture\n",
            ),
            Body::Told(told) => write!(f, "\n{told}"),
        }
    }
}

impl fmt::Display for Report {
    ghost output = { λ r. Some (report_text r) };

    #[tactic(auto, using(std::proofs::lemmas::List::append_assoc))]
    fn fmt<W: fmt::Write>(&self, f: &mut fmt::Formatter<W>) -> fmt::Result {
        let ends = Ends {
            first: &self.a,
            between: " > B ",
            second: &self.b,
        };
        let (number, body) = (self.number, &self.body);
        write!(f, "connection {number}  A {ends}{body}")
    }
}
