//! What reports write of an item, a verdict and a time, by `Display`.
ghost use Rattle.std.specs.Prelude.{◌≡◌, IsUtf8};
ghost use Rattle.bt_rows.specs.Parts.{side_text};

use crate::members::put_said_object;
use crate::numbers::put_time;
use crate::parts::Means;
use crate::said::{Said, put_said};
use bt_remarks::Side;
use bt_text::ended::Ended;
use bt_text::putting::put_hex;
use bt_wire::Refusal;
use std::fmt;
use std::str::from_utf8;

/// Returns bytes of UTF-8 as a text.
fn as_text(bytes: &[u8]) -> &str
    requires { IsUtf8 bytes.now }
    ensures { result.now ≡ bytes.now }
{
    match from_utf8(bytes) {
        Ok(text) => text,
        Err(_) => "",
    }
}

/// Returns a side's letter as a text.
pub fn letter_text(side: Side) -> &'static str
    ensures { result.now ≡ side_text side }
{
    match side {
        Side::A => "A",
        Side::B => "B",
    }
}

impl fmt::Display for Means {
    ghost use Rattle.std.specs.Prelude.{Some};
    ghost use Rattle.bt_rows.specs.Parts.{means_text};

    ghost output = { λ m. Some (means_text m) };

    fn fmt<W: fmt::Write>(&self, f: &mut fmt::Formatter<W>) -> fmt::Result {
        match self {
            Means::Fin => f.write_str("FIN"),
            Means::Rst => f.write_str("RST"),
        }
    }
}

impl fmt::Display for Said {
    ghost use Rattle.std.specs.Prelude.{Some};
    ghost use Rattle.bt_rows.specs.Said.{said_text};

    ghost output = { λ s. Some (said_text s) };

    fn fmt<W: fmt::Write>(&self, f: &mut fmt::Formatter<W>) -> fmt::Result {
        let mut text = [0; 141];
        let end = put_said(self, &mut text, 0);
        f.write_str(as_text(&text[..end]))
    }
}

/// An item and its offset as a JSON object.
#[derive(Clone, Copy)]
pub struct SaidObject(pub Said);

impl fmt::Display for SaidObject {
    ghost use Rattle.std.specs.Prelude.{Some};
    ghost use Rattle.bt_rows.specs.Members.{said_object};

    ghost output = { λ s. Some (said_object s.0) };

    fn fmt<W: fmt::Write>(&self, f: &mut fmt::Formatter<W>) -> fmt::Result {
        let mut text = [0; 331];
        let end = put_said_object(&self.0, &mut text, 0);
        f.write_str(as_text(&text[..end]))
    }
}

/// A time of nanoseconds as seconds with six digits after the point.
#[derive(Clone, Copy)]
pub struct Time(pub u64);

impl fmt::Display for Time {
    ghost use Rattle.std.specs.Prelude.{Some};
    ghost use Rattle.bt_rows.specs.Numbers.{time_text};

    ghost output = { λ t. Some (time_text t.0) };

    fn fmt<W: fmt::Write>(&self, f: &mut fmt::Formatter<W>) -> fmt::Result {
        let mut text = [0; 27];
        let end = put_time(self.0, &mut text, 0);
        f.write_str(as_text(&text[..end]))
    }
}

/// Where and why a stream is refused.
#[derive(Clone, Copy)]
pub struct RefusalText(pub Refusal);

impl fmt::Display for RefusalText {
    ghost use Rattle.std.specs.Prelude.{Some};
    ghost use Rattle.bt_rows.specs.Parts.{refusal_text};

    ghost output = { λ r. Some (refusal_text r.0) };

    fn fmt<W: fmt::Write>(&self, f: &mut fmt::Formatter<W>) -> fmt::Result {
        let Refusal {
            message,
            at,
            reason,
        } = self.0;
        let name = reason.name();
        write!(f, "refused message={message} at={at} {name}")
    }
}

/// A verdict as members of a JSON object, without the first comma.
#[derive(Clone, Copy)]
pub struct VerdictMembers(pub Ended);

impl fmt::Display for VerdictMembers {
    ghost use Rattle.std.specs.Prelude.{Some};
    ghost use Rattle.bt_rows.specs.Members.{verdict_members};

    ghost output = { λ v. Some (verdict_members v.0) };

    fn fmt<W: fmt::Write>(&self, f: &mut fmt::Formatter<W>) -> fmt::Result {
        match self.0 {
            Ended::Accepted { messages, bytes } => {
                write!(
                    f,
                    "\"verdict\":\"ok\",\"messages\":{messages},\"bytes\":{bytes}"
                )
            }
            Ended::Refused(
                Refusal {
                    message,
                    at,
                    reason,
                },
            ) => {
                let name = reason.name();
                write!(
                    f,
                    "\"verdict\":\"refused\",\"message\":{message},\"offset\":{at},\"reason\":\"{name}\""
                )
            }
        }
    }
}

/// Words and a number, if there is a number.
#[derive(Clone, Copy)]
pub struct IfNumber(pub &'static str, pub Option<u64>);

impl fmt::Display for IfNumber {
    ghost use Rattle.std.specs.Prelude.{Some};
    ghost use Rattle.bt_rows.specs.Numbers.{option_text};

    ghost output = { λ o. Some (option_text o.0.now o.1) };

    fn fmt<W: fmt::Write>(&self, f: &mut fmt::Formatter<W>) -> fmt::Result {
        let IfNumber(words, number) = *self;
        match number {
            Some(n) => write!(f, "{words}{n}"),
            None => Ok(()),
        }
    }
}

/// A byte as two digits of hex.
#[derive(Clone, Copy)]
pub struct HexByte(pub u8);

impl fmt::Display for HexByte {
    ghost use Rattle.std.specs.Prelude.{Some, [], ◌∷◌};
    ghost use Rattle.hex.specs.Hex.{encode_lower};

    ghost output = { λ b. Some (encode_lower (b.0 ∷ [])) };

    fn fmt<W: fmt::Write>(&self, f: &mut fmt::Formatter<W>) -> fmt::Result {
        let mut text = [0; 2];
        let end = put_hex(&[self.0], &mut text, 0);
        f.write_str(as_text(&text[..end]))
    }
}

/// A number as sixteen digits of hex.
#[derive(Clone, Copy)]
pub struct HexNumber(pub u64);

impl fmt::Display for HexNumber {
    ghost use Rattle.std.specs.Prelude.{Some};
    ghost use Rattle.hex.specs.Hex.{encode_lower};
    ghost use Rattle.bt_wire.specs.Numbers.{be64};

    ghost output = { λ n. Some (encode_lower (be64 n.0)) };

    fn fmt<W: fmt::Write>(&self, f: &mut fmt::Formatter<W>) -> fmt::Result {
        let mut text = [0; 16];
        let end = put_hex(&self.0.to_be_bytes(), &mut text, 0);
        f.write_str(as_text(&text[..end]))
    }
}
