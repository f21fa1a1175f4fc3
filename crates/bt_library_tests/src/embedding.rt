//! What an embedding calls: the peer's context, one error.
use crate::feed::{HAND, new_feed, own};
use bt_bencode::ByteString;
use bt_ext::{Ext, Kind, Registered, Table, dict_of};
use bt_feed::{
    Failed, Feed, FeedError, Finish, ItemError, Memory, PeerError, PumpError, SinkFault, TakeError,
    WriteFault, peer_context,
};
use bt_wire::{
    Context, EncodeError, Fault, Item, Message, Order, Reason, Refusal, Reserved, encode,
};
use std::alloc::{AllocError, Global};
use std::test::Fail;

fn apply(table: &mut Table, item: &Item) -> Result<(), AllocError> {
    match item {
        Item::Message(Message::Extended(Ext::Handshake { dict, .. })) => table.apply(dict),
        _ => Ok(()),
    }
}

fn apply_found(table: &mut Table, found: Result<(u64, Item), ItemError>) -> Result<(), PeerError> {
    match found {
        Ok((_, item)) => Ok(apply(table, &item)?),
        Err(error) => Err(error.into()),
    }
}

/// Applies the extended handshakes among the items of the stream to the table.
fn tell(alloc: Global, feed: &mut Feed, table: &mut Table, stream: &[u8]) -> Result<(), PeerError> {
    for found in feed.items(alloc, stream) {
        apply_found(table, found)?;
    }
    Ok(())
}

/// The table of a peer that sends its handshake and then these messages.
fn table_of(alloc: Global, feed: &mut Feed, messages: &[u8]) -> Result<Table, PeerError> {
    let mut table = Table::new(alloc);
    tell(alloc, feed, &mut table, HAND)?;
    tell(alloc, feed, &mut table, messages)?;
    Ok(table)
}

/// What is agreed with such a peer.
fn context_of(alloc: Global, feed: &mut Feed, messages: &[u8]) -> Result<Context, PeerError> {
    let own = own(262_144);
    let table = table_of(alloc, feed, messages)?;
    Ok(peer_context(&own, own.reserved, &table))
}

fn request(alloc: Global) -> Result<Message, AllocError> {
    let dict = dict_of(alloc, Kind::Request(0))?;
    let rest = ByteString::from_vec(Vec::new(alloc));
    Ok(Message::Extended(Ext::Metadata { dict, rest }))
}

/// The extended id under which a message goes to the peer.
fn id_under(alloc: Global, context: &Context, message: &Message) -> Result<Option<u8>, PeerError> {
    let bytes = encode(alloc, context, Order::Fresh, message)?;
    Ok(bytes.get(5).copied())
}

fn request_id(alloc: Global, context: &Context) -> Result<Option<u8>, PeerError> {
    let message = request(alloc)?;
    id_under(alloc, context, &message)
}

/// The extended id under which a request for metadata goes to a peer that sends its handshake and these messages.
fn sent_id(alloc: Global, messages: &[u8]) -> Result<Option<u8>, PeerError> {
    let mut feed = new_feed(alloc)?;
    let context = context_of(alloc, &mut feed, messages)?;
    request_id(alloc, &context)
}

/// What a peer sends after its handshake, and the extended id of a request for metadata to it.
const IDS: &[(&[u8], Result<Option<u8>, PeerError>)] = &[
    (b"\0\0\0\x1a\x14\0d1:md11:ut_metadatai7eee", Ok(Some(7))),
    (b"", Err(PeerError::Illegal(Fault::Shape))),
];

/// A metadata message goes out under the peer's id, and not under one's own, which is 3.
#[test]
fn ids_of_the_peer(rt: HostRuntime) {
    for (messages, wanted) in IDS {
        assert!(rt; sent_id(rt.alloc(), messages) == *wanted, "{messages:?}");
    }
}

fn plain_context(alloc: Global) -> Context {
    peer_context(&own(262_144), Reserved(0), &Table::new(alloc))
}

/// Without extension bits of the peer the context has neither extension.
#[test]
fn plain_peer(rt: HostRuntime) {
    let context = plain_context(rt.alloc());
    assert!(rt; !context.fast && !context.ext && context.reg == Registered::metadata_only(None));
}

/// An error of a call.
#[derive(Clone, Copy)]
enum Cause {
    Memory,
    Write,
    Device,
    Feed(FeedError),
    Item(ItemError),
    Take(TakeError),
    Finish(Finish),
    Pump(PumpError),
    Encode(EncodeError),
}

fn error_of(cause: Cause) -> PeerError {
    match cause {
        Cause::Memory => PeerError::from(Memory),
        Cause::Write => WriteFault.into(),
        Cause::Device => Failed.into(),
        Cause::Feed(error) => error.into(),
        Cause::Item(error) => error.into(),
        Cause::Take(error) => error.into(),
        Cause::Finish(error) => error.into(),
        Cause::Pump(error) => error.into(),
        Cause::Encode(error) => error.into(),
    }
}

const REFUSAL: Refusal = Refusal {
    message: 2,
    at: 72,
    reason: Reason::TooLong,
};

const ERRORS: &[(Cause, PeerError)] = &[
    (Cause::Memory, PeerError::Memory),
    (Cause::Write, PeerError::Write),
    (Cause::Device, PeerError::Device),
    (Cause::Feed(FeedError::BadLimit), PeerError::BadLimit),
    (Cause::Feed(FeedError::BadBase), PeerError::BadBase),
    (
        Cause::Item(ItemError::Refused(REFUSAL)),
        PeerError::Refused(REFUSAL),
    ),
    (
        Cause::Take(TakeError::Refused(REFUSAL)),
        PeerError::Refused(REFUSAL),
    ),
    (Cause::Finish(Finish::Untaken), PeerError::Untaken),
    (
        Cause::Pump(PumpError::Sink(SinkFault::Write)),
        PeerError::Write,
    ),
    (Cause::Pump(PumpError::Turns), PeerError::Turns),
    (
        Cause::Encode(EncodeError::Illegal(Fault::Shape)),
        PeerError::Illegal(Fault::Shape),
    ),
];

/// Each error of a call becomes the one error.
#[test]
fn one_error(rt: HostRuntime) {
    for (cause, wanted) in ERRORS {
        assert!(rt; error_of(*cause) == *wanted, "{wanted}");
    }
}

/// The text of a refusal names the message, the place and the reason.
#[test]
fn error_text(rt: HostRuntime) -> Result<(), Fail> {
    let text = format!(in rt.alloc(); "{}", PeerError::Refused(REFUSAL))?;
    assert!(rt; text.as_str() == "message 2 is refused at 72: TooLong");
    Ok(())
}

/// Whether something is given, and how many bytes the feed takes afterwards.
///
/// `tests/late_view` adds a use of `view` after the push, which the compiler has to refuse: a view lies in the feed.
fn take_and_push(feed: &mut Feed) -> (bool, usize) {
    let view = feed.take();
    let is_given = view.is_ok();
    let pushed = feed.push(&[0, 0]);
    (is_given, pushed)
}

#[test]
fn a_view_ends_at_the_push(rt: HostRuntime) -> Result<(), Fail> {
    let mut feed = new_feed(rt.alloc())?;
    assert_eq!(rt; feed.push(HAND), 68);
    assert_eq!(rt; take_and_push(&mut feed), (true, 2));
    Ok(())
}
