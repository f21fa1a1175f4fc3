//! The answer of a tracker over HTTP (BEP 3, "trackers"; BEP 7; BEP 23).
ghost use Rattle.std.specs.Prelude.{◌≡◌, ◌≤◌, [], ℕ, List, None, IfSome, IsSomeAnd, MatchResult, length, unwrap_or};
ghost use Rattle.httparse.specs.Grammar.{ReadsResponse, ResponseHead, status_code};
ghost use Rattle.bt_tracker.specs.HttpAnswers.{HasNoBody, IsBody, IsHttpAnswer, IsNoHttpAnswer, IsTold, text_at};

use bt_bencode::{DictRef, check};
use httparse::Status;
use httparse::spans::{EMPTY_HEADER_SPAN, parse_response};
use thiserror::Error;

/// The greatest length of an answer over HTTP, head and body together, in bytes.
pub const MAX_HTTP_ANSWER: usize = 65536;

/// How many fields the head of an answer may have.
const MAX_FIELDS: usize = 64;

/// What a tracker answers over HTTP.
#[derive(Clone, Copy, PartialEq, Eq, Debug)]
pub enum HttpAnswer<'a> {
    /// A refusal, in the tracker's words.
    Failure(&'a [u8]),
    /// The peers that were asked for, in compact form: those of IPv4 (BEP 23) and those of IPv6 (BEP 7).
    Peers { v4: &'a [u8], v6: &'a [u8] },
}

/// Why bytes are no answer of a tracker over HTTP.
#[derive(Clone, Copy, PartialEq, Eq, Debug, Error)]
pub enum HttpError {
    /// There are more than [`MAX_HTTP_ANSWER`].
    #[error("more than 65,536 bytes")]
    Long,
    /// They don't begin with the head of a response of status 200 and of at most 64 fields.
    #[error("no response of status 200")]
    Head,
    /// The body doesn't begin with a bencoded dictionary.
    #[error("no bencoded dictionary after the head")]
    Body,
}

/// Returns the status of a response, and what follows its head.
fn split_head(answer: &[u8]) -> Option<(u16, &[u8])>
    ensures some { IfSome result (λ x. (h : ResponseHead) × ReadsResponse answer.now h x.1.now × (length h.fields ≤ 64) × (status_code h ≡ x.0)) }
    ensures found { (h : ResponseHead) (rest : List ℕ) → ReadsResponse answer.now h rest → length h.fields ≤ 64
        → IsSomeAnd result (λ x. x.0 ≡ status_code h) }
{
    let mut headers = [EMPTY_HEADER_SPAN; MAX_FIELDS];
    match parse_response(answer, &mut headers) {
        Ok(Status::Complete(head)) => Some((head.code, &answer[head.len..])),
        _ => None,
    }
}

/// Returns the body of a response of status 200.
fn body(answer: &[u8]) -> Option<&[u8]>
    ensures some { IfSome result (λ body. IsBody answer.now body.now) }
    ensures none { result ≡ None → HasNoBody answer.now }
{
    match split_head(answer) {
        Some((200, body)) => Some(body),
        _ => None,
    }
}

/// Returns the byte string at a key; none of its bytes if there is none.
fn text<'a>(dict: &DictRef<'a>, key: &[u8]) -> &'a [u8]
    ensures { result.now ≡ unwrap_or (text_at key.now dict.now.tree.0) [] }
{
    match dict.lookup_bytes(key) {
        Some(bytes) => bytes,
        None => &[],
    }
}

/// Returns what a dictionary says.
fn told<'a>(dict: &DictRef<'a>) -> HttpAnswer<'a>
    ensures { IsTold dict.now.tree.0 result }
{
    match dict.lookup_bytes(b"failure reason") {
        Some(words) => HttpAnswer::Failure(words),
        None => HttpAnswer::Peers {
            v4: text(dict, b"peers"),
            v6: text(dict, b"peers6"),
        },
    }
}

/// Returns what a tracker's answer says, head and body.
///
/// The body's dictionary has `failure reason`, or `peers` and `peers6` as strings in compact form, each of which may be missing. Bytes
/// after the dictionary are passed over.
///
/// # Errors
/// `Long` if there are more than [`MAX_HTTP_ANSWER`] bytes, `Head` if they don't begin with the head of a response of status 200, `Body`
/// if no bencoded dictionary follows.
pub fn read_http_answer(answer: &[u8]) -> Result<HttpAnswer<'_>, HttpError>
    ensures { MatchResult result (IsHttpAnswer answer.now) (IsNoHttpAnswer answer.now) }
{
    if answer.len() > MAX_HTTP_ANSWER {
        return Err(HttpError::Long);
    }
    let Some(body) = body(answer) else {
        return Err(HttpError::Head);
    };
    match check(body) {
        Ok((dict, _)) => Ok(told(&dict)),
        Err(_) => Err(HttpError::Body),
    }
}
