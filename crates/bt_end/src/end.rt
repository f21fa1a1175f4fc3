//! An end of a connection: its calls and their errors. What an item makes of it is in `reactor`.
use crate::config::{Announce, Config, EndError, Role, Window};
use crate::event::Event;
use crate::part::{Part, Progress};
use crate::reactor::Reactor;
use bt_feed::{Feed, Finish, Judged, Memory, Outbox, Target, View, WriteFault, refusal_in};
use bt_metadata::{BadSize, MAX_METADATA, Server};
use bt_wire::{Context, Fault, Handshake, Message, Order, Own, Refusal, spell_handshake};
use std::alloc::{Allocator, Global};
use std::marker::Model;
use thiserror::Error;

/// What a call of [`End::turn`] did.
#[derive(Clone, Copy, PartialEq, Eq, Debug)]
pub enum Turn {
    /// An item was handled.
    Handled,
    /// No whole item is buffered.
    Idle,
}

/// An item that was handled.
#[derive(Drop)]
pub struct Heard<'a> {
    /// The offset at which it starts on the stream.
    pub at: u64,
    /// The item.
    pub view: View<'a>,
    /// What it did to the end.
    pub event: Event,
}

/// Why no item was handled.
#[derive(Clone, Copy, PartialEq, Eq, Debug, Error)]
pub enum TurnError {
    /// The item is refused, now or before.
    #[error("message {} at {}: {}", .0.message, .0.at, .0.reason)]
    Refused(Refusal),
    /// Too much waits to be sent: at least [`HIGH_WATER`] bytes.
    #[error("too much waits to be sent")]
    Busy,
    #[error("out of memory")]
    Memory,
}

/// Why an end doesn't send a message.
#[derive(Clone, Copy, PartialEq, Eq, Debug, Error)]
pub enum SayError {
    /// The peer's handshake isn't handled yet, or the peer was refused.
    #[error("the connection isn't open")]
    NotOpen,
    /// Too much waits to be sent: at least [`HIGH_WATER`] bytes.
    #[error("too much waits to be sent")]
    Busy,
    /// An end makes extended messages itself, except `lt_donthave`.
    #[error("an end makes extended messages itself")]
    Extended,
    /// The message has a piece index or is a bitfield; the piece count isn't known.
    #[error("the piece count isn't known")]
    PiecesUnknown,
    /// The message isn't legal for the peer, as far as its handshakes tell.
    #[error("the peer would refuse the message")]
    Illegal(Fault),
    #[error("out of memory")]
    Memory,
}

/// Why an end doesn't begin a fetch.
#[derive(Clone, Copy, PartialEq, Eq, Debug, Error)]
pub enum BeginError {
    /// Too much waits to be sent: at least [`HIGH_WATER`] bytes.
    #[error("too much waits to be sent")]
    Busy,
    #[error("out of memory")]
    Memory,
}

/// From this many bytes on that wait to be sent, an end is busy.
pub const HIGH_WATER: usize = 1_048_576;

/// The least limit of an end in bytes.
///
/// Each message that it makes, and each block, is within it.
const MIN_LIMIT: u32 = 32_768;

const MAX_LIMIT: u32 = 1_048_576;

impl From<Memory> for TurnError {
    ghost use Rattle.bt_end.specs.declared.end.TurnError.TheVariants.{Memory};

    ghost from_gives = { λ _ e. e ≡ Memory };

    fn from(_: Memory) -> TurnError {
        TurnError::Memory
    }
}

impl From<Memory> for BeginError {
    ghost use Rattle.bt_end.specs.declared.end.BeginError.TheVariants.{Memory};

    ghost from_gives = { λ _ e. e ≡ Memory };

    fn from(_: Memory) -> BeginError {
        BeginError::Memory
    }
}

impl From<Memory> for EndError {
    ghost use Rattle.bt_end.specs.declared.config.EndError.TheVariants.{Memory};

    ghost from_gives = { λ _ e. e ≡ Memory };

    fn from(_: Memory) -> EndError {
        EndError::Memory
    }
}

/// A peer without its socket: it answers, and fetches or serves metadata (BEP 9).
///
/// A contract sees the end as values, its feed and the bytes that are to be sent. What waits goes to the peer by
/// [`End::outgoing`] and [`End::sent`]. A driver repeats this with the `rest` of the bytes that came:
///
/// ```rust
/// let count = end.receive(rest);
/// rest = &rest[count..];
/// let event = match end.next()? {
///     Some(heard) => heard.event,
///     None => break,
/// };
/// ```
#[derive(Drop)]
pub struct End<A: Allocator = Global> {
    feed: Feed<A>,
    reactor: Reactor<A>,
}

impl<A: Allocator> Model for End<A> {
    ghost use Rattle.bt_end.specs.Halves.{HalfState};

    ghost Value = { HalfState };

    ghost use Rattle.bt_end.specs.Wholes.{half_of, IsSound};

    ghost view = { half_of };

    ghost invariant = { IsSound };
}

ghost use Rattle.std.specs.Prelude.{◌≡◌, ◌+◌, ◌<◌, ◌≤◌, ◌&&◌, nat_le, ℕ, true, false, List, Ok, Err, None, length, min, option_copied, IfOk, IfSome, OnOk, OnErr};
ghost use Rattle.sha1.specs.Sha1.{sha1};
ghost use Rattle.bt_feed.specs.Feeds.{taken, waiting};
ghost use Rattle.bt_feed.specs.Progress.{IsFeed};
ghost use Rattle.bt_io.specs.Seen.{WriteFailed};
ghost use Rattle.bt_metadata.specs.Blocks.{max_metadata};
ghost use Rattle.bt_wire.specs.Handshakes.{hand};
ghost use Rattle.bt_end.specs.Ends.{belief, metadata_of, unopened, renewed, progress_of, is_hopeless, fetched_block};
ghost use Rattle.std.specs.Io.BufRead.{Rests};
ghost use types.Logic.{sem};
ghost use Rattle.bt_end.specs.contracts.end.End.{the_row};
ghost use Rattle.bt_feed.specs.Answers.{followed};
ghost use Rattle.bt_feed.specs.Judged.{WasJudged};
ghost use Rattle.bt_feed.specs.Stages.{IsItem};
ghost use Rattle.bt_feed.specs.declared.stage.Stage.TheVariants as stage;
ghost use Rattle.bt_feed.specs.Views.{item_of};
ghost use Rattle.bt_end.specs.Nexts.{IsMet, IsHeard, turn_of};
ghost use Rattle.bt_end.specs.Halves.{IsTurned, with_feed, IsBegun, IsSaid, high_water, is_ready, connected, received, without_sent, with_window, IsHandled, IsStop};
ghost use Rattle.bt_end.specs.Parts.{part_of, shown_slice};
ghost use Rattle.bt_end.specs.Configs.{part_for, is_bad_role, IsMade};
ghost use Rattle.bt_end.specs.Sturdy.{IsPartOf, IsFetched, IsEnd, Sends};

/// Returns whether a whole item is buffered in a feed that isn't refused.
fn is_ready<A: Allocator>(feed: &Feed<A>) -> bool
    ensures { result ≡ is_ready feed.now }
{
    match feed.finish() {
        Err(Finish::Untaken) => true,
        _ => false,
    }
}

/// Returns whether an item is ready and the outbox is full.
fn is_busy<A: Allocator>(feed: &Feed<A>, outbox: &Outbox<A>) -> bool
    ensures { result ≡ (is_ready feed.now && nat_le high_water (length outbox.now.bytes)) }
{
    outbox.bytes().len() >= HIGH_WATER && is_ready(feed)
}

/// Makes a feed that awaits a handshake, and an outbox with the end's own.
fn connect<A: Allocator + Copy>(
    alloc: A,
    own: &Own,
    handshake: &Handshake,
) -> Result<(Feed<A>, Outbox<A>), Memory>
    requires { (0 < own.now.limit) × (own.now.limit ≤ 1048576) }
    ensures feed { IfOk result (λ x. x.0 ≡ waiting (stage.Handshake own.now)) }
    ensures outbox { IfOk result (λ x. x.1.bytes ≡ hand handshake.now) }
    ensures length { IfOk result (λ x. length x.1.bytes ≡ 68) }
{
    let Ok(feed) = Feed::new(alloc, *own) else {
        return Err(Memory);
    };
    let mut outbox = Outbox::new(alloc);
    outbox.queue(&spell_handshake(handshake))?;
    Ok((feed, outbox))
}

/// Returns the state in which a role begins.
fn part_for<A: Allocator>(role: Role<A>) -> Result<Part<A>, BadSize>
    ensures ok { IfOk result (λ part. (is_bad_role role ≡ false) × (part_of part ≡ part_for role)) }
    ensures start { (hash : List ℕ) → IfOk result (λ part. IsPartOf hash (part_of part)) }
    ensures err { OnErr result (is_bad_role role ≡ true) }
{
    match role {
        Role::Watch => Ok(Part::Watching),
        Role::Serve(metadata) => Ok(Part::Serving(Server::new(metadata)?)),
        Role::Share(metadata) => Ok(Part::Serving(Server::shared(metadata)?)),
        Role::Fetch => Ok(Part::Awaiting(MAX_METADATA as u64)),
        Role::FetchUpTo(most) => Ok(Part::Awaiting(most)),
    }
}

impl<A: Allocator + Copy> End<A> {
    /// Makes an end on a new connection, with its handshake to be sent.
    ///
    /// # Errors
    /// The first that applies: `BadLimit` if the limit isn't 32,768 to 1,048,576, `BadConfig` if there is no info hash,
    /// `BadSize` if the metadata to serve doesn't have 1 to `MAX_METADATA` bytes, `Memory` when out of memory.
    pub fn new(alloc: A, config: Config<A>) -> Result<End<A>, EndError>
        ensures { IsMade config result }
    {
        let Config {
            own,
            peer_id,
            announce,
            window,
            role,
        } = config;
        if own.limit < MIN_LIMIT || own.limit > MAX_LIMIT {
            return Err(EndError::BadLimit);
        }
        let wanted = own.info_hash;
        let Some(info_hash) = wanted else {
            return Err(EndError::BadConfig);
        };
        let Ok(part) = part_for(role) else {
            return Err(EndError::BadSize);
        };
        let handshake = Handshake {
            reserved: own.reserved,
            info_hash,
            peer_id,
        };
        Ok(End::unopened(alloc, own, handshake, announce, window, part)?)
    }

    /// Makes an end on a new connection.
    fn unopened(
        alloc: A,
        own: Own,
        handshake: Handshake,
        announce: Announce,
        window: Window,
        part: Part<A>,
    ) -> Result<End<A>, Memory>
        requires limit { (32768 ≤ own.limit) × (own.limit ≤ 1048576) }
        requires part { IsPartOf handshake.info_hash (part_of part) }
        ensures { IfOk result (λ end. end ≡ connected (unopened own handshake announce window (part_of part))) }
    {
        let (feed, outbox) = connect(alloc, &own, &handshake)?;
        let reactor = Reactor::new(alloc, own, handshake, announce, window, part, outbox);
        Ok(End { feed, reactor })
    }

    /// Takes bytes from the peer, and returns how many.
    ///
    /// It takes them up to the end of the current item, or up to the byte with which that is refused. It handles nothing.
    pub fn receive(&mut self, bytes: &[u8]) -> usize
        ensures taken { result ≡ taken self.old.feed bytes.now }
        ensures end { self.new ≡ received self.old bytes.now }
        ensures in_range { result ≤ length bytes.now }
    {
        self.feed.push(bytes)
    }

    /// Returns the bytes that are to be sent.
    ///
    /// They are fewer than [`HIGH_WATER`], the end's limit and 4 together.
    pub fn outgoing(&self) -> &[u8]
        ensures value { result.now ≡ self.now.outbox }
        ensures bound { length result.now < high_water + self.now.end.own.limit + 4 }
        ensures end { IsEnd self.now }
        ensures feed { IsFeed self.now.feed }
    {
        let _ = self.feed.start();
        self.reactor.outbox.bytes()
    }

    /// Drops the first `n` of the bytes that are to be sent.
    ///
    /// They were sent: `n` is at most the length of [`End::outgoing`].
    pub fn sent(&mut self, n: usize)
        requires { n ≤ length self.old.outbox }
        ensures { self.new ≡ without_sent n self.old }
    {
        self.reactor.outbox.drop_front(n);
    }

    /// Writes at most `max` of the bytes that are to be sent; returns how many.
    ///
    /// It drops what was written. Without an error that is `max` bytes, or all if there are fewer.
    ///
    /// # Errors
    /// `WriteFault` if a write failed or took no byte before that; the bytes that were written are dropped.
    pub fn drain<W: Target>(&mut self, writer: &mut W, max: usize) -> Result<usize, WriteFault>
        ensures count { IfOk result (λ n. n ≡ min max (length self.old.outbox)) }
        ensures sends { IfOk result (λ n. Sends self.old self.new (W.seen writer.old) (W.seen writer.new) n) }
        ensures stops { OnErr result ((n : ℕ) × (n < min max (length self.old.outbox))
            × Sends self.old self.new (W.seen writer.old) (W.seen writer.new) n) }
        ensures failed { OnErr result (WriteFailed (W.seen writer.old) (W.seen writer.new)) }
        ensures whole { OnOk result ((W.seen writer.new).failed ≡ (W.seen writer.old).failed) }
    {
        self.reactor.outbox.drain(writer, max)
    }

    /// Returns the metadata that was fetched.
    ///
    /// It has 1 to `MAX_METADATA` bytes, and its SHA-1 is the info hash (BEP 9).
    pub fn metadata(&self) -> Option<&[u8]>
        ensures value { shown_slice result ≡ metadata_of self.now.end.part }
        ensures right { IfSome result (λ m. sha1 m.now ≡ self.now.end.handshake.info_hash) }
        ensures size { IfSome result (λ m. (0 < length m.now) × (length m.now ≤ max_metadata)) }
    {
        self.reactor.part.metadata()
    }

    /// Returns the block `piece`, if it has come and the metadata isn't complete.
    pub fn block(&self, piece: u32) -> Option<&[u8]>
        ensures value { option_copied result ≡ fetched_block self.now.end.part piece }
        ensures assembly { IsFetched self.now.end.part }
    {
        self.reactor.part.block(piece)
    }

    /// Handles the next item, if one is whole.
    ///
    /// It answers the peer: what is to be sent is in [`End::outgoing`] then.
    ///
    /// # Errors
    /// `Refused` if the item is refused, now or before: close the connection. `Busy` if an item is whole and at least
    /// [`HIGH_WATER`] bytes wait to be sent. `Memory` when out of memory. After `Busy` and `Memory` nothing has changed.
    pub fn turn(&mut self) -> Result<Turn, TurnError>
        ensures { IsTurned self.old result self.new }
    {
        match self.meet()? {
            Some((judged, _)) => {
                self.feed.commit(judged.next);
                Ok(Turn::Handled)
            }
            None => Ok(Turn::Idle),
        }
    }

    /// Handles the item that is buffered, if it is whole, but doesn't take it.
    ///
    /// It returns what is kept of it, and what it did to the end.
    #[inline(always)]
    fn meet(&mut self) -> Result<Option<(Judged, Event)>, TurnError>
        ensures { IsMet self.old result self.new }
    {
        if is_busy(&self.feed, &self.reactor.outbox) {
            return Err(TurnError::Busy);
        }
        match self.feed.look() {
            Ok(Some(view)) => {
                let judged = self.feed.judged(&view);
                let plan = self.reactor.plan(&view)?;
                let event = self.reactor.handle(&view, plan);
                Ok(Some((judged, event)))
            }
            Ok(None) => Ok(None),
            Err(error) => {
                let refusal = refusal_in(error);
                self.feed.refuse(refusal);
                Err(TurnError::Refused(refusal))
            }
        }
    }

    /// Takes the item that was handled, without a second check.
    fn hand(&mut self, judged: Judged) -> View<'_>
        requires { WasJudged self.old.feed judged }
        ensures value { IsItem self.old.feed.stage self.old.feed.held (item_of result) }
        ensures* after { sem 𝓛 (Rests (the_row A.row A.Allocator) self.entry (λ new. new ≡ with_feed self.old (followed self.old.feed judged.next))) }
    {
        self.feed.hand(judged)
    }

    /// Handles the next item, and returns the item and what it did to the end.
    ///
    /// `None` if no item is whole. Give bytes by [`End::receive`], and call this until it returns `None`; then give the rest.
    ///
    /// # Errors
    /// `Refused` if the item is refused, now or before: close the connection. `Busy` if an item is whole and at least
    /// [`HIGH_WATER`] bytes wait to be sent. `Memory` when out of memory. After `Busy` and `Memory` nothing has changed.
    pub fn next(&mut self) -> Result<Option<Heard<'_>>, TurnError>
        ensures heard { IsHeard self.old result }
        ensures* after { sem 𝓛 (Rests (the_row A.row A.Allocator) self.entry (λ new. IsTurned self.old (turn_of result) new)) }
    {
        let Some((judged, event)) = self.meet()? else {
            return Ok(None);
        };
        let at = self.feed.start();
        let view = self.hand(judged);
        Ok(Some(Heard { at, view, event }))
    }

    /// Queues a message if it is legal for the peer, as far as its handshakes tell.
    ///
    /// # Errors
    /// The first that applies; the end is then unchanged. `NotOpen` before the peer's handshake and after a refusal, `Busy` if at
    /// least [`HIGH_WATER`] bytes wait to be sent, `Extended` for an extended message other than `lt_donthave`, `PiecesUnknown` for
    /// a piece index or a bitfield without a known piece count, `Illegal` if the peer would refuse it, `Memory` when out of memory.
    pub fn say(&mut self, message: &Message) -> Result<(), SayError>
        ensures { IsSaid self.old message.now result self.new }
    {
        let refused = self.feed.refusal().is_some();
        self.reactor.say(refused, message)
    }

    /// Returns the context by which the end encodes: that in which the peer receives.
    ///
    /// It is known as far as the peer's handshakes tell, with the end's own piece count, rules and limit.
    pub fn belief(&self) -> Context
        ensures { result ≡ belief self.now.end }
    {
        self.reactor.belief()
    }

    /// Returns the order of the messages that the end has queued on this connection.
    pub fn sending(&self) -> Order
        ensures { result ≡ self.now.end.sends }
    {
        self.reactor.sends
    }

    /// Returns the handshake that the end sends.
    pub fn handshake(&self) -> Handshake
        ensures { result ≡ self.now.end.handshake }
    {
        self.reactor.handshake
    }

    /// Begins a new connection, with the end's handshake to be sent.
    ///
    /// The metadata and the blocks that have come stay; bytes that wait to be sent are dropped.
    ///
    /// # Errors
    /// `Memory` when out of memory; the end is then unchanged.
    pub fn reset(&mut self) -> Result<(), Memory>
        ensures ok { OnOk result (self.new ≡ connected (renewed self.old.end)) }
        ensures memory { OnErr result (self.new ≡ self.old) }
    {
        let own = self.reactor.own;
        let handshake = self.reactor.handshake;
        let (feed, outbox) = connect(self.reactor.alloc, &own, &handshake)?;
        self.feed = feed;
        self.reactor.renew(outbox);
        Ok(())
    }

    /// Fetches metadata of `size` bytes from now on, and returns whether it does.
    ///
    /// The blocks that it has are dropped, and requests are queued. It doesn't if the end fetches nothing, if it has the
    /// metadata, or if `size` isn't 1 to `MAX_METADATA`. With it a caller goes on over the same connection if the size that a
    /// peer announced was false.
    ///
    /// # Errors
    /// `Busy` if at least [`HIGH_WATER`] bytes wait to be sent, `Memory` when out of memory. The end is then unchanged.
    pub fn begin(&mut self, size: u64) -> Result<bool, BeginError>
        ensures { IsBegun self.old size result self.new }
    {
        if self.reactor.outbox.bytes().len() >= HIGH_WATER {
            return Err(BeginError::Busy);
        }
        match self.reactor.anew(size)? {
            Some(assembly) => {
                self.reactor.restart(assembly);
                Ok(true)
            }
            None => Ok(false),
        }
    }

    /// Has at most `window` requests outstanding from now on.
    ///
    /// Requests that are outstanding stay so.
    pub fn set_window(&mut self, window: Window)
        ensures { self.new ≡ with_window window self.old }
    {
        self.reactor.window = window;
    }

    /// Returns how often all blocks came and weren't those of the metadata.
    ///
    /// Their SHA-1 wasn't the info hash, and the fetch started over. The count is that of this connection, at most 2^64 - 1.
    pub fn mismatches(&self) -> u64
        ensures { result ≡ self.now.end.mismatches }
    {
        self.reactor.mismatches
    }

    /// Returns how far the fetch has come.
    ///
    /// `None` if no size is known, or nothing is fetched. An end that has the metadata has all blocks.
    pub fn progress(&self) -> Option<Progress>
        ensures value { result ≡ progress_of self.now.end.part }
        ensures bounds { IfSome result (λ p. (0 < p.size) × (p.size ≤ max_metadata) × (p.held ≤ p.blocks)) }
    {
        self.reactor.part.progress()
    }

    /// Returns whether it fetches, and no block can come any more on this connection.
    ///
    /// None can come, whatever the peer sends, if the end has no id of its own for metadata messages, if not both peers
    /// support the Extension Protocol (BEP 10), or if each block that hasn't come was rejected. A peer that announced no id
    /// for metadata messages can announce one later, so this isn't hopeless yet.
    pub fn is_hopeless(&self) -> bool
        ensures { result ≡ is_hopeless self.now.end }
    {
        self.reactor.is_hopeless()
    }

    /// Takes what the feed takes of the bytes, and handles the item if it is whole.
    fn round(&mut self, bytes: &[u8]) -> (usize, Result<Turn, TurnError>)
        ensures taken { result.0 ≡ taken self.old.feed bytes.now }
        ensures turned { IsTurned (received self.old bytes.now) result.1 self.new }
        ensures in_range { result.0 ≤ length bytes.now }
    {
        let taken = self.receive(bytes);
        (taken, self.turn())
    }

    /// Takes these bytes and handles the items in them; returns how many it used.
    ///
    /// It goes on until no whole item is left, and all bytes are used. After `Busy` and `Memory` call it again with the rest of the
    /// bytes, which may be none: after `Busy` once less waits to be sent.
    ///
    /// # Errors
    /// `Refused` if an item is refused, now or before. `Busy` if an item is whole and at least [`HIGH_WATER`] bytes wait to
    /// be sent. `Memory` when out of memory.
    pub fn handle(&mut self, bytes: &[u8]) -> (usize, Result<(), TurnError>)
        ensures handled { IsHandled self.old bytes.now result.0 result.1 self.new }
        ensures stop { IsStop result.1 self.new }
        ensures used { OnOk result.1 (result.0 ≡ length bytes.now) }
        ensures in_range { result.0 ≤ length bytes.now }
    {
        let mut used = 0;
        'rounds: loop {
            let (taken, turn) = self.round(&bytes[used..]);
            used += taken;
            match turn {
                Ok(Turn::Handled) => {}
                Ok(Turn::Idle) => return (used, Ok(())),
                Err(error) => return (used, Err(error)),
            }
        }
    }
}
