//! The question to a tracker over HTTP (BEP 3, "trackers"; BEP 7; BEP 23).
ghost use Rattle.std.specs.Prelude.{◌≡◌, ◌++◌, ◌∷◌, ◌<◌, ◌==◌, [], IfOk, OnOk, decimal, true};
ghost use Rattle.std.specs.List.{list_any};
ghost use Rattle.std.specs.Fmt.{digit_glyph};
ghost use Rattle.bt_tracker.specs.Questions.{asked_of, escaped, event_text, head_of, host_field, host_text, ids_of, left_of, nothing_text, numbers_of};
ghost use Rattle.bt_tracker.specs.Questions.{own_port_of, path_of, port_text, query_of, question_of, separator_of, version_text, wanted_of};

use crate::announce::{Announce, Event};
use itoa::Buffer;
use std::alloc::{AllocError, Global};

/// Returns the digit of a number below 16.
fn digit(n: u8) -> u8
    requires { n < 16 }
    ensures { result ≡ digit_glyph true n }
{
    if n < 10 { b'0' + n } else { b'A' - 10 + n }
}

/// Adds bytes, each escaped.
fn push_escaped(question: &mut Vec<u8>, bytes: &[u8]) -> Result<(), AllocError>
    ensures { OnOk result (question.new.items ≡ question.old.items ++ escaped bytes.now) }
{
    for byte in bytes {
        question.push(b'%')?;
        question.push(digit(*byte / 16))?;
        question.push(digit(*byte % 16))?;
    }
    Ok(())
}

/// Adds a number's decimal digits.
fn push_number(question: &mut Vec<u8>, n: u64) -> Result<(), AllocError>
    ensures { OnOk result (question.new.items ≡ question.old.items ++ decimal n) }
{
    question.extend_from_slice(Buffer::new().format(n).as_bytes())
}

/// Returns what stands before a target so that a path begins with `/`.
fn slash(target: &[u8]) -> &'static [u8]
    ensures { result.now ++ target.now ≡ path_of target.now }
{
    if target.len() > 0 && target[0] == b'/' {
        return b"";
    }
    b"/"
}

/// Returns whether one of the bytes is this one.
fn has(bytes: &[u8], wanted: u8) -> bool
    ensures { result ≡ list_any (λ b. b == wanted) bytes.now }
{
    bytes.iter().any(|byte| *byte == wanted)
}

/// Returns what separates the query from the target.
fn separator(target: &[u8]) -> u8
    ensures { result ≡ separator_of target.now }
{
    if has(target, b'?') { b'&' } else { b'?' }
}

/// Adds the path of a target, and what separates the query from it.
fn push_path(question: &mut Vec<u8>, target: &[u8]) -> Result<(), AllocError>
    ensures { OnOk result (question.new.items ≡ question.old.items ++ (path_of target.now ++ separator_of target.now ∷ [])) }
{
    question.extend_from_slice(slash(target))?;
    question.extend_from_slice(target)?;
    question.push(separator(target))?;
    Ok(())
}

/// Adds the info hash and the peer id.
fn push_ids(question: &mut Vec<u8>, announce: &Announce) -> Result<(), AllocError>
    ensures { OnOk result (question.new.items ≡ question.old.items ++ ids_of announce.now) }
{
    question.extend_from_slice(b"info_hash=")?;
    push_escaped(question, &announce.info_hash)?;
    question.extend_from_slice(b"&peer_id=")?;
    push_escaped(question, &announce.peer_id)
}

/// Adds the port.
fn push_own_port(question: &mut Vec<u8>, announce: &Announce) -> Result<(), AllocError>
    ensures { OnOk result (question.new.items ≡ question.old.items ++ own_port_of announce.now) }
{
    question.extend_from_slice(b"&port=")?;
    push_number(question, announce.port as u64)?;
    Ok(())
}

/// Adds that nothing was sent or received.
fn push_nothing(question: &mut Vec<u8>) -> Result<(), AllocError>
    ensures { OnOk result (question.new.items ≡ question.old.items ++ nothing_text) }
{
    question.extend_from_slice(b"&uploaded=0")?;
    question.extend_from_slice(b"&downloaded=0")?;
    Ok(())
}

/// Adds how many bytes are left.
fn push_left(question: &mut Vec<u8>, announce: &Announce) -> Result<(), AllocError>
    ensures { OnOk result (question.new.items ≡ question.old.items ++ left_of announce.now) }
{
    question.extend_from_slice(b"&left=")?;
    push_number(question, announce.left)?;
    Ok(())
}

/// Adds how many peers are wanted, in compact form.
fn push_wanted(question: &mut Vec<u8>, announce: &Announce) -> Result<(), AllocError>
    ensures { OnOk result (question.new.items ≡ question.old.items ++ wanted_of announce.now) }
{
    question.extend_from_slice(b"&compact=1&numwant=")?;
    push_number(question, announce.wanted as u64)?;
    Ok(())
}

/// Returns the event of a query.
fn event(event: Event) -> &'static [u8]
    ensures { result.now ≡ event_text event }
{
    match event {
        Event::None => b"",
        Event::Completed => b"&event=completed",
        Event::Started => b"&event=started",
        Event::Stopped => b"&event=stopped",
    }
}

/// Adds a host, an IPv6 address in brackets.
fn push_name(question: &mut Vec<u8>, host: &[u8]) -> Result<(), AllocError>
    ensures { OnOk result (question.new.items ≡ question.old.items ++ host_text host.now) }
{
    if !has(host, b':') {
        question.extend_from_slice(host)?;
        return Ok(());
    }
    question.push(b'[')?;
    question.extend_from_slice(host)?;
    question.push(b']')?;
    Ok(())
}

/// Adds a port after `:`, unless it is 80.
fn push_port(question: &mut Vec<u8>, port: u16) -> Result<(), AllocError>
    ensures { OnOk result (question.new.items ≡ question.old.items ++ port_text port) }
{
    if port == 80 {
        return Ok(());
    }
    question.push(b':')?;
    push_number(question, port as u64)?;
    Ok(())
}

/// Adds the numbers of an announce.
fn push_numbers(question: &mut Vec<u8>, announce: &Announce) -> Result<(), AllocError>
    ensures { OnOk result (question.new.items ≡ question.old.items ++ numbers_of announce.now) }
{
    push_own_port(question, announce)?;
    push_nothing(question)?;
    push_left(question, announce)?;
    push_wanted(question, announce)?;
    Ok(())
}

/// Adds the query of an announce.
fn push_query(question: &mut Vec<u8>, announce: &Announce) -> Result<(), AllocError>
    ensures { OnOk result (question.new.items ≡ question.old.items ++ query_of announce.now) }
{
    push_ids(question, announce)?;
    push_numbers(question, announce)?;
    question.extend_from_slice(event(announce.event))?;
    Ok(())
}

/// Adds what is asked for: the target and the query.
fn push_asked(question: &mut Vec<u8>, target: &[u8], announce: &Announce) -> Result<(), AllocError>
    ensures { OnOk result (question.new.items ≡ question.old.items ++ asked_of target.now announce.now) }
{
    question.extend_from_slice(b"GET ")?;
    push_path(question, target)?;
    push_query(question, announce)?;
    Ok(())
}

/// Adds the host and the port.
fn push_host(question: &mut Vec<u8>, host: &str, port: u16) -> Result<(), AllocError>
    ensures { OnOk result (question.new.items ≡ question.old.items ++ host_field host.now port) }
{
    push_name(question, host.as_bytes())?;
    push_port(question, port)?;
    Ok(())
}

/// Adds the version, and the name of the head's field.
fn push_version(question: &mut Vec<u8>) -> Result<(), AllocError>
    ensures { OnOk result (question.new.items ≡ question.old.items ++ version_text) }
{
    question.extend_from_slice(b" HTTP/1.0\r\n")?;
    question.extend_from_slice(b"Host: ")?;
    Ok(())
}

/// Adds the rest of the head.
fn push_head(question: &mut Vec<u8>, host: &str, port: u16) -> Result<(), AllocError>
    ensures { OnOk result (question.new.items ≡ question.old.items ++ head_of host.now port) }
{
    push_version(question)?;
    push_host(question, host, port)?;
    question.extend_from_slice(b"\r\n\r\n")?;
    Ok(())
}

/// Returns the question for the peers of an info hash, in HTTP/1.0.
///
/// `host`, `port` and `target` are those of [`crate::Tracker::Http`]. A query of the target is kept, in front. Each byte of the info
/// hash and of the peer id is escaped. Peers are asked for in compact form.
///
/// # Errors
/// `AllocError` when out of memory.
pub fn http_question(
    alloc: Global,
    host: &str,
    port: u16,
    target: &[u8],
    announce: &Announce,
) -> Result<Vec<u8>, AllocError>
    ensures { IfOk result (λ question. question.items ≡ question_of host.now port target.now announce.now) }
{
    let mut question = Vec::new(alloc);
    push_asked(&mut question, target, announce)?;
    push_head(&mut question, host, port)?;
    Ok(question)
}
