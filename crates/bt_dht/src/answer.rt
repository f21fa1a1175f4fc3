//! What a message of the DHT says (BEP 5, "KRPC Protocol").
ghost use Rattle.std.specs.Prelude.{◌≡◌, ◌<◌, IfSome, option_map};
ghost use Rattle.bt_bencode.specs.LookUps.{string_of};
ghost use Rattle.bt_bencode.specs.Views.{tree_of, trees_of};
ghost use Rattle.bt_dht.specs.Messages.{IsBody, answer_in as answer_in_by, failure_in as failure_in_by, has_kind as has_kind_by, id_in as id_in_by};
ghost use Rattle.bt_dht.specs.Messages.{failed_by, list_at as list_at_by, nodes_at as nodes_at_by, string_at as string_at_by, told, told_failure, told_in};
ghost use Rattle.bt_dht.specs.Messages.{transaction_of, values_in as values_in_by};

use bt_bencode::{Value, lookup};

/// What a node answers to the question for peers (BEP 5, "get_peers").
#[derive(Clone, Copy)]
pub struct Answer<'a> {
    /// The id of the node that answers.
    pub id: [u8; 20],
    /// Nodes that are nearer: 26 bytes each, an id and an IPv4 address. [`crate::split_node`] takes them.
    pub nodes: &'a [u8],
    /// Likewise with an IPv6 address: 38 bytes each (BEP 32).
    pub nodes6: &'a [u8],
    /// The values, of which [`crate::next_peer`] takes the peers.
    pub values: &'a [Value],
}

/// The error that a node answers (BEP 5, "Errors").
#[derive(Clone, Copy)]
pub struct Failure<'a> {
    pub code: i64,
    pub text: &'a [u8],
}

/// What kind of message it is, and what it says.
#[derive(Clone, Copy)]
pub enum Body<'a> {
    /// `y` is `r`, and the dictionary under `r` has an id of 20 bytes.
    Answer(Answer<'a>),
    /// `y` is `e`, and the list under `e` begins with a number and a string.
    Error(Failure<'a>),
    /// Anything else: a question, or no valid message.
    Other,
}

/// A message of the DHT.
#[derive(Clone, Copy)]
pub struct Message<'a> {
    /// The transaction id, of any length. An answer has that of its question.
    pub transaction: &'a [u8],
    pub body: Body<'a>,
}

/// Returns the byte string that a value is.
fn text_of(value: &Value) -> Option<&[u8]>
    ensures { option_map (λ s. s.now) result ≡ string_of (tree_of value.now) }
{
    match value {
        Value::Bytes(text) => Some(text.as_slice()),
        _ => None,
    }
}

/// Returns the byte string at a key.
fn string_at<'a>(value: &'a Value, key: &[u8]) -> Option<&'a [u8]>
    ensures { option_map (λ s. s.now) result ≡ string_at_by key.now (tree_of value.now) }
{
    text_of(lookup(value, key)?)
}

/// Returns the elements of the list at a key.
fn list_at<'a>(value: &'a Value, key: &[u8]) -> Option<&'a [Value]>
    ensures { option_map (λ vs. trees_of vs.now) result ≡ list_at_by key.now (tree_of value.now) }
{
    match lookup(value, key) {
        Some(Value::List(values)) => Some(values.as_slice()),
        _ => None,
    }
}

/// Returns whether a message is of this kind.
fn has_kind(message: &Value, kind: &[u8]) -> bool
    ensures { result ≡ has_kind_by kind.now (tree_of message.now) }
{
    match string_at(message, b"y") {
        Some(text) => text == kind,
        None => false,
    }
}

/// Returns the id of the node that answers.
fn id_in(answer: &Value) -> Option<[u8; 20]>
    ensures { result ≡ id_in_by (tree_of answer.now) }
{
    let text = string_at(answer, b"id")?;
    <[u8; 20]>::try_from(text).ok()
}

/// Returns the infos of nodes at a key, `size` bytes each; none if their length is no multiple of that.
fn nodes_at<'a>(answer: &'a Value, key: &[u8], size: usize) -> &'a [u8]
    requires { 0 < size }
    ensures { result.now ≡ nodes_at_by key.now size (tree_of answer.now) }
{
    match string_at(answer, key) {
        Some(infos) if infos.len() % size == 0 => infos,
        _ => &[],
    }
}

/// Returns the elements of the list of values.
fn values_in(answer: &Value) -> &[Value]
    ensures { trees_of result.now ≡ values_in_by (tree_of answer.now) }
{
    match list_at(answer, b"values") {
        Some(values) => values,
        None => &[],
    }
}

/// Returns what an answer's dictionary tells.
fn answer_of(answer: &Value) -> Option<Answer<'_>>
    ensures { option_map told result ≡ told_in (tree_of answer.now) }
{
    let id = id_in(answer)?;
    Some(Answer {
        id,
        nodes: nodes_at(answer, b"nodes", 26),
        nodes6: nodes_at(answer, b"nodes6", 38),
        values: values_in(answer),
    })
}

/// Returns what a message tells if it is an answer.
fn answer_in(message: &Value) -> Option<Answer<'_>>
    ensures { option_map told result ≡ answer_in_by (tree_of message.now) }
{
    if !has_kind(message, b"r") {
        return None;
    }
    answer_of(lookup(message, b"r")?)
}

/// Returns the error that a list tells: its first element is the code, and its second one the text.
fn failure_of(elements: &[Value]) -> Option<Failure<'_>>
    ensures { option_map told_failure result ≡ failed_by (trees_of elements.now) }
{
    let (first, others) = elements.split_first()?;
    let code = first.as_int()?;
    let (second, _) = others.split_first()?;
    let text = text_of(second)?;
    Some(Failure { code, text })
}

/// Returns what a message tells if it is an error.
fn failure_in(message: &Value) -> Option<Failure<'_>>
    ensures { option_map told_failure result ≡ failure_in_by (tree_of message.now) }
{
    if !has_kind(message, b"e") {
        return None;
    }
    failure_of(list_at(message, b"e")?)
}

/// Returns what kind of message it is, and what it says.
fn body_in(message: &Value) -> Body<'_>
    ensures { IsBody (tree_of message.now) result }
{
    if let Some(answer) = answer_in(message) {
        return Body::Answer(answer);
    }
    match failure_in(message) {
        Some(failure) => Body::Error(failure),
        None => Body::Other,
    }
}

/// Returns what a dictionary says as a message of the DHT; `None` if it has no transaction id.
///
/// Keys may stand in any order, and of several pairs with one key the first counts. An answer has no nodes of a family if their string
/// has another length than a multiple of a node's.
pub fn message_in(dict: &Value) -> Option<Message<'_>>
    ensures transaction { option_map (λ m. m.transaction.now) result ≡ transaction_of (tree_of dict.now) }
    ensures body { IfSome result (λ m. IsBody (tree_of dict.now) m.body) }
{
    let transaction = string_at(dict, b"t")?;
    Some(Message {
        transaction,
        body: body_in(dict),
    })
}
