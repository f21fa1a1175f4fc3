//! The lines of a run's report: outcomes, connections and metadata.
ghost use Rattle.std.specs.Prelude.{◌≡◌, ◌++◌, decimal, codes, OnOk};
ghost use Rattle.std.specs.List.{flat_map};
ghost use Rattle.bt_end.specs.Ends.{metadata_of};
ghost use Rattle.bt_link.specs.Shown.{
  fault_words,
  say_error_words,
  refusal_words,
  outcome_words,
  outcome_line,
  side_lines,
  sides_lines,
  connection_lines,
  connections_lines,
  metadata_words,
  metadata_line,
  ends_lines,
  report_lines,
};

use crate::items::push_items;
use crate::text::{push_hex, push_number, push_one};
use bt_session::{Connection, End, LinkReport, Outcome, SayError};
use bt_wire::{Fault, Item, Refusal};
use sha1::Sha1;
use std::alloc::AllocError;

/// The name of why a message may not be sent.
fn fault_name(fault: Fault) -> &'static [u8]
    ensures { result.now ≡ fault_words fault }
{
    match fault {
        Fault::Shape => b"Shape",
        Fault::Reason(reason) => reason.name().as_bytes(),
    }
}

/// Appends why an end doesn't say a message.
fn push_say_error(error: SayError, text: &mut Vec<u8>) -> Result<(), AllocError>
    ensures { OnOk result (text.new.items ≡ text.old.items ++ say_error_words error) }
{
    match error {
        SayError::NotOpen => text.extend_from_slice(b"NotOpen"),
        SayError::Busy => text.extend_from_slice(b"Busy"),
        SayError::Extended => text.extend_from_slice(b"Extended"),
        SayError::PiecesUnknown => text.extend_from_slice(b"PiecesUnknown"),
        SayError::Illegal(fault) => push_illegal(fault, text),
        SayError::Memory => text.extend_from_slice(b"Memory"),
    }
}

/// Appends why the peer would refuse a message.
#[tactic(auto, using(std::proofs::lemmas::List::append_assoc))]
fn push_illegal(fault: Fault, text: &mut Vec<u8>) -> Result<(), AllocError>
    ensures { OnOk result (text.new.items ≡ text.old.items ++ (codes "Illegal " ++ fault_words fault)) }
{
    text.extend_from_slice(b"Illegal ")?;
    text.extend_from_slice(fault_name(fault))
}

/// Appends a refusal.
fn push_refusal(refusal: Refusal, text: &mut Vec<u8>) -> Result<(), AllocError>
    ensures { OnOk result (text.new.items ≡ text.old.items ++ refusal_words refusal) }
{
    text.extend_from_slice(b"refused message=")?;
    push_number(refusal.message, text)?;
    text.extend_from_slice(b" at=")?;
    push_number(refusal.at, text)?;
    text.extend_from_slice(b" ")?;
    text.extend_from_slice(refusal.reason.name().as_bytes())?;
    Ok(())
}

/// Appends that a message isn't queued, and why.
#[tactic(auto, using(std::proofs::lemmas::List::append_assoc))]
fn push_not_said(error: SayError, text: &mut Vec<u8>) -> Result<(), AllocError>
    ensures { OnOk result (text.new.items ≡ text.old.items ++ (codes "not-said " ++ say_error_words error)) }
{
    text.extend_from_slice(b"not-said ")?;
    push_say_error(error, text)
}

/// Appends what came of a step.
fn push_outcome(outcome: Outcome, text: &mut Vec<u8>) -> Result<(), AllocError>
    ensures { OnOk result (text.new.items ≡ text.old.items ++ outcome_words outcome) }
{
    match outcome {
        Outcome::Handled => text.extend_from_slice(b"handled"),
        Outcome::Idle => text.extend_from_slice(b"idle"),
        Outcome::Busy => text.extend_from_slice(b"busy"),
        Outcome::Refused(refusal) => push_refusal(refusal, text),
        Outcome::Said => text.extend_from_slice(b"said"),
        Outcome::NotSaid(error) => push_not_said(error, text),
        Outcome::Delivered(count) => push_one(b"delivered", count, text),
        Outcome::Reset => text.extend_from_slice(b"reset"),
    }
}

/// Appends the line of what came of a step.
#[tactic(auto, using(std::proofs::lemmas::List::append_assoc))]
fn push_outcome_line(outcome: Outcome, text: &mut Vec<u8>) -> Result<(), AllocError>
    ensures { OnOk result (text.new.items ≡ text.old.items ++ outcome_line outcome) }
{
    push_outcome(outcome, text)?;
    text.extend_from_slice(b"\n")
}

/// Appends a line for each outcome.
fn push_outcomes(outcomes: &[Outcome], text: &mut Vec<u8>) -> Result<(), AllocError>
    ensures { OnOk result (text.new.items ≡ text.old.items ++ flat_map outcome_line outcomes.now) }
{
    'outcomes: for outcome in outcomes {
        push_outcome_line(*outcome, text)?;
    }
    Ok(())
}

/// Appends how many items an end sent and handled on a connection, and a line for each that it sent.
fn push_side(name: &[u8], sent: &[Item], handled: u64, text: &mut Vec<u8>) -> Result<(), AllocError>
    ensures { OnOk result (text.new.items ≡ text.old.items ++ side_lines name.now sent.now handled) }
{
    text.extend_from_slice(name)?;
    text.extend_from_slice(b" sent=")?;
    push_number(sent.len() as u64, text)?;
    text.extend_from_slice(b" handled=")?;
    push_number(handled, text)?;
    text.extend_from_slice(b"\n")?;
    push_items(sent, text)
}

/// Appends the lines of what the left end and then the right one sent and handled.
#[tactic(auto, using(std::proofs::lemmas::List::append_assoc))]
fn push_sides(
    sent: &[Vec<Item>; 2],
    handled: [u64; 2],
    text: &mut Vec<u8>,
) -> Result<(), AllocError>
    ensures { OnOk result (text.new.items ≡ text.old.items ++ sides_lines sent.now handled) }
{
    let [left, right] = sent;
    let [left_handled, right_handled] = handled;
    push_side(b"left", left.as_slice(), left_handled, text)?;
    push_side(b"right", right.as_slice(), right_handled, text)
}

/// Appends the lines of the connection with this number.
#[tactic(auto, using(std::proofs::lemmas::List::append_assoc))]
fn push_connection(
    number: u64,
    connection: &Connection,
    text: &mut Vec<u8>,
) -> Result<(), AllocError>
    ensures { OnOk result (text.new.items ≡ text.old.items ++ connection_lines number connection.now) }
{
    push_one(b"connection", number, text)?;
    text.extend_from_slice(b"\n")?;
    push_sides(&connection.sent, connection.handled, text)
}

/// Appends the lines of the connections, which are counted from 1.
fn push_connections(connections: &[Connection], text: &mut Vec<u8>) -> Result<(), AllocError>
    ensures { OnOk result (text.new.items ≡ text.old.items ++ connections_lines 1 connections.now) }
{
    'connections: for (i, connection) in connections.iter().enumerate() {
        push_connection(i as u64 + 1, connection, text)?;
    }
    Ok(())
}

/// Appends the digest and the size of metadata.
fn push_digest(metadata: &[u8], text: &mut Vec<u8>) -> Result<(), AllocError>
    ensures { OnOk result (text.new.items ≡ text.old.items ++ metadata_words (Some metadata.now)) }
{
    text.extend_from_slice(b"sha1=")?;
    push_hex(&Sha1::digest(metadata), text)?;
    text.extend_from_slice(b" bytes=")?;
    push_number(metadata.len() as u64, text)
}

/// Appends what an end has fetched, or `-`.
fn push_fetched(end: &End, text: &mut Vec<u8>) -> Result<(), AllocError>
    ensures { OnOk result (text.new.items ≡ text.old.items ++ metadata_words (metadata_of end.now.end.part)) }
{
    match end.metadata() {
        Some(metadata) => push_digest(metadata, text),
        None => text.extend_from_slice(b"-"),
    }
}

/// Appends the line of what an end has fetched.
fn push_metadata(name: &[u8], end: &End, text: &mut Vec<u8>) -> Result<(), AllocError>
    ensures { OnOk result (text.new.items ≡ text.old.items ++ metadata_line name.now end.now) }
{
    text.extend_from_slice(name)?;
    text.extend_from_slice(b" metadata ")?;
    push_fetched(end, text)?;
    text.extend_from_slice(b"\n")
}

/// Appends the lines of what the left end and then the right one have fetched.
#[tactic(auto, using(std::proofs::lemmas::List::append_assoc))]
fn push_ends(ends: &[End; 2], text: &mut Vec<u8>) -> Result<(), AllocError>
    ensures { OnOk result (text.new.items ≡ text.old.items ++ ends_lines ends.now) }
{
    let [left, right] = ends;
    push_metadata(b"left", left, text)?;
    push_metadata(b"right", right, text)
}

/// Appends the lines of a run's report.
///
/// # Errors
/// `AllocError` when out of memory.
#[tactic(auto, using(std::proofs::lemmas::List::append_assoc))]
pub fn push_report(report: &LinkReport, text: &mut Vec<u8>) -> Result<(), AllocError>
    ensures { OnOk result (text.new.items ≡ text.old.items ++ report_lines report.now) }
{
    push_outcomes(report.outcomes.as_slice(), text)?;
    push_connections(report.connections.as_slice(), text)?;
    push_ends(&report.ends, text)
}
