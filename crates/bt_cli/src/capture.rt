//! The command `capture`: what its words ask for, what it says at its end, and the exit status.
ghost use Rattle.std.specs.Prelude.{◌≡◌, ◌++◌, ◌+◌, ◌<◌, ◌&&◌, IfOk, OnErr, is_some, option_map, Some, [], string_bytes, if◌then◌else◌};
ghost use Rattle.clap.specs.Matches.{first_value, found_of};
ghost use Rattle.bt_run.specs.Runs.{IsSaid};
ghost use Rattle.bt_text.specs.Lines.{fault_line};
ghost use Rattle.bt_text.specs.declared.ended.ToolFault.TheVariants as fault;
ghost use Rattle.bt_cli.specs.Captures.{IsCaptureSaid, IsEndSaid, IsLastLine, absent_words, capture_status, ending_line_words, file_words};
ghost use Rattle.bt_cli.specs.Captures.{crowd_words, is_stopped, nothing_words, outcome_in, outcome_status, so_many_words, words_or_fault};
ghost use Rattle.bt_cli.specs.Wanted.{IsCaptureAsked, capture_pieces_in, capture_stream_in};

use crate::chosen::{choice_in, is_choosing};
use crate::fetch::{DEFAULT_LIMIT, number_or};
use crate::stream::direction_of;
use crate::unread::{count_unread, unread_lines};
use bt_capture::{CaptureEnd, CaptureJob, Ending};
use bt_feed::Target;
use bt_jobs::output::write_out;
use bt_pcap::FileFault;
use bt_peers::is_given;
use bt_remarks::Side;
use bt_run::ending::{end_by_fault, say_both};
use bt_run::values::number_within;
use bt_talk::Terms;
use bt_text::ended::ToolFault;
use bt_text::lines::fault_line;
use clap::ArgMatches;
use std::alloc::{AllocError, Global};

/// A report on a capture that is asked for.
#[derive(Debug, Drop)]
pub struct CaptureRequest {
    /// What is asked for, still without a torrent.
    pub job: CaptureJob,
    /// The name of a .torrent: connections with its info hash have its piece count.
    pub torrent: Option<String>,
    /// The names of captures, at most one.
    pub files: Vec<String>,
    /// Whether the exit status says that a connection was read in part only.
    pub is_strict: bool,
}

/// What was found in a capture.
#[derive(Clone, Copy, PartialEq, Eq, Debug)]
pub enum Outcome {
    /// Connections aren't reported, since memory ran out.
    Lost,
    /// No connection has the number of the stream that is asked for.
    Absent,
    /// A file that can't be read to its end.
    Stopped,
    /// No BitTorrent connection.
    Nothing,
    /// A direction that is refused.
    Refused,
    /// No direction that is refused.
    Accepted,
}

/// Returns the count of `--pieces`.
fn pieces_in(text: Option<&str>) -> Option<Option<u32>>
    ensures { result ≡ capture_pieces_in (option_map (λ s. s.now) text.entry) }
{
    match text {
        None => Some(None),
        Some(digits) => Some(Some(number_within(digits, 0, 4_294_967_295)?)),
    }
}

/// Returns the direction of `--stream`.
fn stream_in(text: Option<&str>) -> Option<Option<(u64, Side)>>
    ensures { result ≡ capture_stream_in (option_map (λ s. s.now) text.entry) }
{
    match text {
        None => Some(None),
        Some(direction) => Some(Some(direction_of(direction)?)),
    }
}

/// Returns whether both options are given.
fn are_given(options: &ArgMatches<'_>, one: &str, other: &str) -> bool
    ensures { result ≡ (is_some (first_value (found_of options.now) one.now) && is_some (first_value (found_of options.now) other.now)) }
{
    options.get_str(one).is_some() && options.get_str(other).is_some()
}

/// Returns what the options of the command ask for, without the torrent, whose file isn't read here.
///
/// # Errors
/// The option that has no meaning, or two that exclude each other.
pub fn capture_in(options: &ArgMatches<'_>) -> Result<CaptureJob, &'static str>
    ensures { IfOk result (IsCaptureAsked (found_of options.now)) }
{
    let Some(pieces) = pieces_in(options.get_str("pieces")) else {
        return Err("'--pieces' takes a number from 0 to 4294967295");
    };
    if are_given(options, "pieces", "torrent") {
        return Err("'--pieces' and '--torrent' can't both be given");
    }
    let Some(limit) = number_or(options.get_str("limit"), 1, 1_048_576, DEFAULT_LIMIT) else {
        return Err("'--limit' takes a number from 1 to 1048576");
    };
    let Some(stream) = stream_in(options.get_str("stream")) else {
        return Err("'--stream' takes a connection's number, a hyphen, and 'A' or 'B'");
    };
    let (show, json) = (is_given(options, "show"), is_given(options, "json"));
    if stream.is_some() && (show || json) {
        return Err("'--stream' can't be given with '--show' or '--json'");
    }
    let choice = choice_in(options)?;
    if is_choosing(choice) && (show || stream.is_some()) {
        return Err("'--only' and '--peer' can't be given with '--show' or '--stream'");
    }
    Ok(CaptureJob {
        terms: Terms {
            limit,
            pieces,
            torrent: None,
        },
        show,
        json,
        stream,
        choice,
    })
}

/// Tells whether a file can't be read to its end.
fn is_unread(ending: Ending) -> bool
    ensures { result ≡ is_stopped ending }
{
    match ending {
        Ending::Whole | Ending::Cut => false,
        Ending::Broken(_) | Ending::Failed => true,
    }
}

/// Returns what was found in a capture.
fn outcome_of(end: &CaptureEnd) -> Outcome
    ensures { result ≡ outcome_in end.now }
{
    if end.lost > 0 {
        Outcome::Lost
    } else if is_unread(end.ending) {
        Outcome::Stopped
    } else if end.absent.is_some() {
        Outcome::Absent
    } else if end.torrents == 0 {
        Outcome::Nothing
    } else if end.is_refused {
        Outcome::Refused
    } else {
        Outcome::Accepted
    }
}

/// Returns the exit status. With `is_partial` it isn't 0.
fn status_of(outcome: Outcome, is_partial: bool) -> u8
    ensures { result ≡ outcome_status is_partial outcome }
{
    match outcome {
        Outcome::Lost | Outcome::Absent | Outcome::Stopped | Outcome::Nothing => 3,
        Outcome::Refused => 1,
        Outcome::Accepted if is_partial => 4,
        Outcome::Accepted => 0,
    }
}

/// Returns the line on so many connections, and nothing if there are none. Its end differs for one.
fn so_many(alloc: Global, count: u64, one: &str, more: &str) -> Result<String, AllocError>
    ensures { IfOk result (λ line. string_bytes line ≡ so_many_words count one.now more.now) }
{
    match count {
        0 => Ok(String::new(alloc)),
        1 => format!(in alloc; "capture: {count}{one}"),
        _ => format!(in alloc; "capture: {count}{more}"),
    }
}

/// Returns the lines on connections of which there were too many at once, if there are some.
fn crowd_lines(alloc: Global, unread: u64, early: u64) -> Result<String, AllocError>
    ensures lines { IfOk result (λ lines. string_bytes lines ≡ crowd_words unread early) }
    ensures some { OnErr result (0 < unread + early) }
{
    if unread == 0 && early == 0 {
        return Ok(String::new(alloc));
    }
    let unread = so_many(
        alloc,
        unread,
        " connection was not read further: too many at once\n",
        " connections were not read further: too many at once\n",
    )?;
    let early = so_many(
        alloc,
        early,
        " connection that had ended was given up early: too many at once\n",
        " connections that had ended were given up early: too many at once\n",
    )?;
    format!(in alloc; "{unread}{early}")
}

/// Returns the line on a capture without a connection of this number.
#[tactic(auto, using(std::proofs::lemmas::List::append_assoc))]
fn absent_line(alloc: Global, number: u64) -> Result<String, AllocError>
    ensures { IfOk result (λ line. string_bytes line ≡ absent_words (Some number)) }
{
    format!(in alloc; "no connection {number}\n")
}

/// Returns the line on a capture without a BitTorrent connection.
fn nothing_line(alloc: Global, end: &CaptureEnd) -> Result<String, AllocError>
    ensures { IfOk result (λ line. string_bytes line ≡ nothing_words end.now.packets end.now.skipped end.now.unread_packets) }
{
    let packets = end.packets;
    let others = end
        .skipped
        .saturating_sub(count_unread(&end.unread_packets));
    let lines = unread_lines(alloc, &end.unread_packets)?;
    format!(in alloc;
        "no BitTorrent connection in {packets} packets; {others} of them aren't TCP\n{lines}"
    )
}

/// Returns the last line on a capture.
///
/// # Errors
/// `AllocError` if memory ran out, with a connection or for the line.
fn last_line(alloc: Global, end: &CaptureEnd) -> Result<String, AllocError>
    ensures line { IfOk result (λ line. IsLastLine (outcome_in end.now) end.now (string_bytes line)) }
    ensures memory { OnErr result (IsLastLine (outcome_in end.now) end.now (fault_line fault.Memory)) }
{
    match outcome_of(end) {
        Outcome::Lost => Err(AllocError),
        Outcome::Absent => match end.absent {
            Some(number) => absent_line(alloc, number),
            None => Ok(String::new(alloc)),
        },
        Outcome::Nothing => nothing_line(alloc, end),
        Outcome::Stopped | Outcome::Refused | Outcome::Accepted => Ok(String::new(alloc)),
    }
}

/// Returns a text, or the line of the fault if there is no memory for it.
fn text_or_fault(text: &Result<String, AllocError>) -> &[u8]
    ensures { result.now ≡ words_or_fault text.now }
{
    match text {
        Ok(text) => text.as_bytes(),
        Err(_) => fault_line(ToolFault::Memory),
    }
}

/// Returns the line that says why a file is no capture.
fn file_line(fault: FileFault) -> &'static [u8]
    ensures { result.now ≡ file_words fault }
{
    match fault {
        FileFault::NoCapture => b"fault: capture: neither a pcap nor a pcapng file\n",
        FileFault::ByteOrder =>
            b"fault: capture: a section of a pcapng file has an unknown byte order\n",
        FileFault::Length => b"fault: capture: a block of a pcapng file has an impossible length\n",
        FileFault::TooShort => b"fault: capture: a block of a pcapng file is too short\n",
        FileFault::RecordLength =>
            b"fault: capture: a record of a pcap file has an impossible length\n",
        FileFault::Unlike =>
            b"fault: capture: the two lengths of a block of a pcapng file differ\n",
        FileFault::Undescribed =>
            b"fault: capture: a packet of a pcapng file names an interface that isn't described, or is beyond the first 1,024\n",
    }
}

/// Returns the line on how reading ended, if it didn't end after a whole item.
fn ending_line(ending: Ending) -> &'static [u8]
    ensures { result.now ≡ ending_line_words ending }
{
    match ending {
        Ending::Whole => b"",
        Ending::Cut => b"capture: ends inside a packet, which is left out\n",
        Ending::Broken(fault) => file_line(fault),
        Ending::Failed => fault_line(ToolFault::Read),
    }
}

/// Writes three texts on standard error, as far as it takes them.
fn say_three<E: Target>(first: &[u8], second: &[u8], third: &[u8], errors: &mut E)
    ensures { IsSaid (first.now ++ (second.now ++ third.now)) (E.seen errors.old) (E.seen errors.new) }
{
    match write_out(errors, first, ()) {
        Ok(()) => say_both(second, third, errors),
        Err(_) => {}
    }
}

/// Writes four texts on standard error, as far as it takes them.
fn say_four<E: Target>(prefix: &[u8], first: &[u8], second: &[u8], third: &[u8], errors: &mut E)
    ensures { IsSaid (prefix.now ++ (first.now ++ (second.now ++ third.now))) (E.seen errors.old) (E.seen errors.new) }
{
    match write_out(errors, prefix, ()) {
        Ok(()) => say_three(first, second, third, errors),
        Err(_) => {}
    }
}

/// Returns what comes before the line on how reading ended: the prefix, if the file can't be read to its end.
fn prefix_for<'a>(ending: Ending, prefix: &'a [u8]) -> &'a [u8]
    ensures { result.now ≡ (if is_stopped ending then prefix.now else []) }
{
    if is_unread(ending) { prefix } else { b"" }
}

/// Says what a capture had.
fn say_end<E: Target>(alloc: Global, end: &CaptureEnd, prefix: &[u8], errors: &mut E)
    ensures { IsEndSaid prefix.now end.now (E.seen errors.old) (E.seen errors.new) }
{
    let crowd = crowd_lines(alloc, end.unread, end.early);
    let line = last_line(alloc, end);
    say_four(
        prefix_for(end.ending, prefix),
        ending_line(end.ending),
        text_or_fault(&crowd),
        text_or_fault(&line),
        errors,
    );
}

/// Says the end of a capture on standard error, and returns the exit status.
///
/// `prefix` comes before the line of an input that can't be read; `is_gone` says that the output pipe is closed. With `is_strict` the
/// status is 4 in place of 0 if a connection was read in part only.
pub fn end_capture<E: Target>(
    alloc: Global,
    end: Result<CaptureEnd, ToolFault>,
    prefix: &[u8],
    is_gone: bool,
    is_strict: bool,
    errors: &mut E,
) -> u8
    ensures said { IsCaptureSaid is_gone prefix.now end (E.seen errors.old) (E.seen errors.new) }
    ensures status { result ≡ capture_status is_strict is_gone end }
{
    match end {
        Ok(end) => {
            say_end(alloc, &end, prefix, errors);
            status_of(outcome_of(&end), is_strict && end.is_partial)
        }
        Err(fault) => end_by_fault(fault, prefix, is_gone, errors),
    }
}
