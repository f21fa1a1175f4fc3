//! What each item does to an end, and what the end sends for it. The bytes that come are the feed's.
ghost use Rattle.std.specs.Prelude.{◌≡◌, ◌+◌, ◌<◌, ◌≤◌, Some, true, false, [], length, length as list_length, IfOk, IfSome, OnErr};
ghost use Rattle.bt_bencode.specs.Trees.{dictionary};
ghost use Rattle.bt_ext.specs.Payloads.{seen};
ghost use Rattle.bt_ext.specs.Tables.{Entries};
ghost use Rattle.bt_ext.specs.Updates.{IsUpdate};
ghost use Rattle.bt_feed.specs.Views.{item_of};
ghost use Rattle.bt_wire.specs.Legal.{IsLegal};
ghost use Rattle.bt_wire.specs.Messages.{IsExtended, body};
ghost use Rattle.bt_wire.specs.declared.message.Message.TheVariants as messages;
ghost use Rattle.bt_ext.specs.declared.ext.Ext.TheVariants as ext;
ghost use Rattle.bt_end.specs.Ends.{agreed, belief, unopened, renewed, announced, queueing, greeted, peer_id, all_wanted, requesting, then_asked, replied, one_more, block_taken, by_kind, at_extended, react, is_hopeless, anew, restarted};
ghost use Rattle.bt_end.specs.Events.{answer_event, block_event, kind_event, extended_event, event_of};
ghost use Rattle.bt_end.specs.Halves.{kind_takes_memory, extended_takes_memory, takes_memory, is_own_made, tells_pieces, unsaid};
ghost use Rattle.bt_metadata.specs.Blocks.{window};
ghost use Rattle.bt_end.specs.Parts.{part_of};
ghost use Rattle.bt_end.specs.Reactors.{end_of, learned, IsPlan, IsPlanOf, IsLesson, IsReacted, IsQueued, IsSpoken};

use crate::config::{Announce, Window};
use crate::end::{HIGH_WATER, SayError};
use crate::event::{Event, plain_event};
use crate::part::Part;
use crate::queueing::{ROOM, put, put_donthave, put_handshake, put_message, put_plain};
use bt_bencode::DictRef;
use bt_ext::{Ext, ExtView, Kind, Table, Update, kind_ref, metadata_size_ref};
use bt_feed::{Memory, Outbox, View};
use bt_metadata::{Assembly, Reply, WINDOW};
use bt_wire::{
    Context, Handshake, Message, MessageView, Order, Own, Reserved, legal_length, negotiate, next,
    next_of_view,
};
use std::alloc::Allocator;
use std::mem;

/// An end without its feed.
#[derive(Drop)]
pub struct Reactor<A: Allocator> {
    pub alloc: A,
    pub own: Own,
    /// The handshake that it sends.
    pub handshake: Handshake,
    pub announce: Announce,
    pub window: Window,
    /// The context in which it receives, once the peer's handshake is handled.
    pub context: Option<Context>,
    pub receives: Order,
    pub sends: Order,
    pub table: Table<A>,
    pub part: Part<A>,
    /// How often all blocks came and the SHA-1 wasn't the info hash.
    ///
    /// It counts on this connection.
    pub mismatches: u64,
    pub outbox: Outbox<A>,
}

/// What was found in an item, and allocated for it, before it is handled.
#[derive(Drop)]
pub enum Plan<A: Allocator> {
    /// Only room in the outbox, or nothing.
    Nothing,
    /// The change of the table, the size of the metadata that is announced, and an assembly for a fetch that begins.
    Learn {
        update: Update<A>,
        size: Option<u64>,
        assembly: Option<Assembly<A>>,
    },
    /// The kind of a metadata message.
    Metadata(Kind),
}

/// Returns whether a metadata message needs an allocation.
///
/// It does if it may be answered, or if a request may follow it.
fn kind_takes_memory(kind: Kind) -> bool
    ensures { result ≡ kind_takes_memory kind }
{
    !matches!(kind, Kind::Other | Kind::Malformed)
}

/// A count with one more, if there is one more. It stays at 2^64 - 1.
fn one_more(more: bool, count: u64) -> u64
    ensures { result ≡ one_more more count }
{
    if more { count.saturating_add(1) } else { count }
}

impl<A: Allocator + Copy> Reactor<A> {
    /// Makes an end before its first connection.
    pub fn new(
        alloc: A,
        own: Own,
        handshake: Handshake,
        announce: Announce,
        window: Window,
        part: Part<A>,
        outbox: Outbox<A>,
    ) -> Reactor<A>
        ensures end { end_of result ≡ unopened own handshake announce window (part_of part) }
        ensures outbox { result.outbox ≡ outbox }
    {
        Reactor {
            alloc,
            own,
            handshake,
            announce,
            window,
            context: None,
            receives: Order::Fresh,
            sends: Order::Fresh,
            table: Table::new(alloc),
            part,
            mismatches: 0,
            outbox,
        }
    }

    /// Returns the id under which the peer wants metadata messages.
    fn peer_id(&self) -> Option<u8>
        ensures value { result ≡ peer_id (end_of self.now) }
        ensures above { IfSome result (λ id. 0 < id) }
    {
        self.table.id_of(b"ut_metadata")
    }

    /// Queues what the end says about its pieces.
    fn announce(&mut self)
        requires room { 5 ≤ self.old.outbox.room }
        ensures { IsReacted self.old self.new (queueing (end_of self.old) (announced self.old.announce)) }
    {
        match self.announce {
            Announce::Silent => {}
            Announce::All => {
                put(&mut self.outbox, &[0, 0, 0, 1, 14]);
                self.sends = Order::Past;
            }
            Announce::Nothing => {
                put(&mut self.outbox, &[0, 0, 0, 1, 15]);
                self.sends = Order::Past;
            }
        }
    }

    /// Opens the end, and queues its first messages.
    fn greet(&mut self, context: Context)
        requires room { 16610 ≤ self.old.outbox.room }
        ensures { IsReacted self.old self.new (greeted (end_of self.old) context) }
    {
        let Context { ext, fast, .. } = context;
        self.context = Some(context);
        self.receives = Order::Fresh;
        if ext {
            let reg = self.own.reg;
            let size = self.part.served_size();
            put_handshake(&mut self.outbox, reg, size);
        }
        if fast {
            self.announce();
        }
    }

    /// Queues requests for the blocks to ask for, under the peer's id.
    fn request(&mut self, id: u8)
        requires id { (0 < id) × (peer_id (end_of self.old) ≡ Some id) }
        requires room { 16610 ≤ self.old.outbox.room }
        ensures { IsReacted self.old self.new (requesting (end_of self.old) (all_wanted window self.old.window (part_of self.old.part))) }
    {
        'requests: for _request in 0..WINDOW {
            let Some(piece) = self.part.ask(self.window) else {
                return;
            };
            put_message(&mut self.outbox, id, Kind::Request(piece), &[]);
        }
    }

    /// Queues requests, as long as there is a block to ask for.
    fn ask(&mut self)
        requires room { 16610 ≤ self.old.outbox.room }
        ensures { IsReacted self.old self.new (then_asked (end_of self.old)) }
    {
        if self.own.reg.metadata().is_none() {
            return;
        }
        let Some(id) = self.peer_id() else {
            return;
        };
        self.request(id);
    }

    /// Queues the answer to a request.
    #[tactic(auto, unfolding(bt_ext::specs::Tables::told_ids))]
    fn reply(&mut self, piece: u32) -> Event
        requires room { 16610 ≤ self.old.outbox.room }
        ensures reacted { IsReacted self.old self.new (replied (end_of self.old) piece) }
        ensures event { result ≡ kind_event (end_of self.old) (Kind.Request piece) [] }
    {
        let Some(id) = self.peer_id() else {
            return Event::Other;
        };
        match self.part.answer(piece) {
            Reply::Data { total, block } => {
                put_message(&mut self.outbox, id, Kind::Data { piece, total }, block);
                Event::Served(piece)
            }
            Reply::Reject => {
                put_message(&mut self.outbox, id, Kind::Reject(piece), &[]);
                Event::Declined(piece)
            }
        }
    }

    /// Applies the peer's names and ids, and begins the assembly.
    fn learn(&mut self, update: Update<A>, assembly: Option<Assembly<A>>)
        requires { (next : Entries) × IsUpdate self.old.table next update }
        ensures end { (next : Entries) → IsUpdate self.old.table next update → end_of self.new ≡ learned (end_of self.old) next assembly }
        ensures outbox { self.new.outbox ≡ self.old.outbox }
    {
        self.table.update(update);
        if let Some(assembly) = assembly {
            self.part = Part::Fetching(assembly);
        }
    }

    /// Makes the assembly for metadata of `size` bytes, and room for the requests.
    ///
    /// It changes the end's room only. `None` if the end fetches nothing, or `size` isn't one of metadata.
    ///
    /// # Errors
    /// `Memory` when out of memory.
    pub fn anew(&mut self, size: u64) -> Result<Option<Assembly<A>>, Memory>
        ensures ok { IfOk result (λ a. a ≡ anew self.old.handshake.info_hash (part_of self.old.part) size) }
        ensures room { IfOk result (λ a. 16610 ≤ self.new.outbox.room) }
        ensures end { end_of self.new ≡ end_of self.old }
        ensures bytes { self.new.outbox.bytes ≡ self.old.outbox.bytes }
    {
        self.outbox.reserve(ROOM)?;
        let hash = self.handshake.info_hash;
        match self.part.anew(self.alloc, hash, size) {
            Ok(assembly) => Ok(assembly),
            Err(_) => Err(Memory),
        }
    }

    /// Fetches by this assembly from now on, and queues requests.
    pub fn restart(&mut self, assembly: Assembly<A>)
        requires room { 16610 ≤ self.old.outbox.room }
        ensures { IsReacted self.old self.new (restarted (end_of self.old) assembly) }
    {
        self.part = Part::Fetching(assembly);
        self.ask();
    }

    /// Takes a block of the metadata that is fetched.
    fn take_block(&mut self, piece: u32, total: u64, block: &[u8]) -> Event
        ensures end { end_of self.new ≡ block_taken (end_of self.old) piece total block.now }
        ensures outbox { self.new.outbox ≡ self.old.outbox }
        ensures event { result ≡ block_event piece total block.now (part_of self.old.part) }
    {
        let part = mem::replace(&mut self.part, Part::Watching);
        let (part, event) = part.with_block(piece, total, block);
        self.part = part;
        self.mismatches = one_more(event.is_mismatched(), self.mismatches);
        event
    }

    fn handle_metadata(&mut self, kind: Kind, block: &[u8]) -> Event
        requires room { kind_takes_memory kind ≡ true → 16610 ≤ self.old.outbox.room }
        ensures reacted { IsReacted self.old self.new (by_kind (end_of self.old) kind block.now) }
        ensures event { result ≡ kind_event (end_of self.old) kind block.now }
    {
        match kind {
            Kind::Request(piece) => self.reply(piece),
            Kind::Data { piece, total } => {
                let event = self.take_block(piece, total, block);
                self.ask();
                event
            }
            Kind::Reject(piece) => {
                let event = self.part.reject(piece);
                self.ask();
                event
            }
            Kind::Other | Kind::Malformed => Event::Other,
        }
    }

    fn handle_extended(&mut self, ext: &ExtView, plan: Plan<A>) -> Event
        requires plan { IsPlanOf (end_of self.old) (seen ext.now) plan }
        requires room { extended_takes_memory (seen ext.now) ≡ true → 16610 ≤ self.old.outbox.room }
        ensures reacted { IsReacted self.old self.new (at_extended (end_of self.old) (seen ext.now)) }
        ensures event { result ≡ extended_event (end_of self.old) (seen ext.now) }
    {
        match ext {
            ExtView::Handshake { .. } => {
                let Plan::Learn {
                    update,
                    size,
                    assembly,
                } = plan
                else {
                    unreachable!();
                };
                let begins = assembly.is_some();
                self.learn(update, assembly);
                let id = self.peer_id();
                self.ask();
                Event::Announced { id, size, begins }
            }
            ExtView::Metadata { rest, .. } => {
                let Plan::Metadata(kind) = plan else {
                    unreachable!();
                };
                self.handle_metadata(kind, rest)
            }
            ExtView::DontHave(_) => Event::Other,
            ExtView::Raw { .. } => Event::Other,
        }
    }

    /// Makes the change of the table and the assembly that an extended handshake leads to.
    fn lesson(&self, dict: &DictRef) -> Result<Plan<A>, Memory>
        ensures { IfOk result (λ plan. IsLesson (end_of self.now) (dictionary dict.now.tree.0) plan) }
    {
        let Ok(update) = self.table.prepare(dict) else {
            return Err(Memory);
        };
        let hash = self.handshake.info_hash;
        let size = metadata_size_ref(dict);
        match self.part.assembly(self.alloc, hash, size) {
            Ok(assembly) => Ok(Plan::Learn {
                update,
                size,
                assembly,
            }),
            Err(_) => Err(Memory),
        }
    }

    /// Reads and allocates what handling an extended message will need.
    fn extended_plan(&mut self, ext: &ExtView) -> Result<Plan<A>, Memory>
        ensures ok { IfOk result (λ plan. IsPlanOf (end_of self.old) (seen ext.now) plan) }
        ensures room { IfOk result (λ plan. extended_takes_memory (seen ext.now) ≡ true → 16610 ≤ self.new.outbox.room) }
        ensures end { end_of self.new ≡ end_of self.old }
        ensures bytes { self.new.outbox.bytes ≡ self.old.outbox.bytes }
        ensures memory { OnErr result (extended_takes_memory (seen ext.now) ≡ true) }
    {
        match ext {
            ExtView::Handshake { dict, .. } => {
                self.outbox.reserve(ROOM)?;
                self.lesson(dict)
            }
            ExtView::Metadata { dict, .. } => {
                let kind = kind_ref(dict);
                if kind_takes_memory(kind) {
                    self.outbox.reserve(ROOM)?;
                }
                Ok(Plan::Metadata(kind))
            }
            ExtView::DontHave(_) | ExtView::Raw { .. } => Ok(Plan::Nothing),
        }
    }

    /// Reads and allocates what handling an item will need. Only the room of the end changes.
    ///
    /// # Errors
    /// `Memory` when out of memory; it comes only for an item for which something is allocated.
    pub fn plan(&mut self, view: &View) -> Result<Plan<A>, Memory>
        ensures ok { IfOk result (λ plan. IsPlan (end_of self.old) (item_of view.now) plan) }
        ensures room { IfOk result (λ plan. takes_memory (item_of view.now) ≡ true → 16610 ≤ self.new.outbox.room) }
        ensures end { end_of self.new ≡ end_of self.old }
        ensures bytes { self.new.outbox.bytes ≡ self.old.outbox.bytes }
        ensures memory { OnErr result (takes_memory (item_of view.now) ≡ true) }
    {
        match view {
            View::Handshake(_) => {
                self.outbox.reserve(ROOM)?;
                Ok(Plan::Nothing)
            }
            View::Message(MessageView::Extended(ext)) => self.extended_plan(ext),
            View::Message(_) => Ok(Plan::Nothing),
        }
    }

    /// Handles an item, with what was allocated for it, and returns what it did.
    ///
    /// It doesn't allocate.
    pub fn handle(&mut self, view: &View, plan: Plan<A>) -> Event
        requires plan { IsPlan (end_of self.old) (item_of view.now) plan }
        requires room { takes_memory (item_of view.now) ≡ true → 16610 ≤ self.old.outbox.room }
        ensures reacted { IsReacted self.old self.new (react (end_of self.old) (item_of view.now)) }
        ensures event { result ≡ event_of (end_of self.old) (item_of view.now) }
    {
        match view {
            View::Handshake(handshake) => {
                let own = self.own;
                self.greet(negotiate(&own, handshake.reserved));
                Event::Opened(*handshake)
            }
            View::Message(message) => {
                self.receives = next_of_view(self.receives, message);
                match message {
                    MessageView::Extended(ext) => self.handle_extended(ext, plan),
                    other => plain_event(other),
                }
            }
        }
    }

    /// Returns what both peers have agreed on.
    ///
    /// That is no extension before the peer's handshake.
    fn agreed(&self) -> Context
        ensures { result ≡ agreed (end_of self.now) }
    {
        match self.context {
            Some(context) => context,
            None => negotiate(&self.own, Reserved(0)),
        }
    }

    /// Returns the context by which the end encodes: that in which the peer receives.
    pub fn belief(&self) -> Context
        ensures { result ≡ belief (end_of self.now) }
    {
        let Context { fast, ext, .. } = self.agreed();
        Context {
            fast,
            ext,
            pieces: self.own.pieces,
            reg: self.table.registered(),
            rules: self.own.rules,
            limit: self.own.limit,
        }
    }

    /// Returns whether a message has a piece index, or is a bitfield.
    fn tells_pieces(&self, message: &Message) -> bool
        ensures { result ≡ tells_pieces (end_of self.now) message.now }
    {
        match message {
            Message::Have(_)
            | Message::Bitfield(_)
            | Message::Request { .. }
            | Message::Piece { .. }
            | Message::Cancel { .. }
            | Message::Suggest(_)
            | Message::Reject { .. }
            | Message::AllowedFast(_)
            | Message::Extended(Ext::DontHave(_)) => true,
            _ => false,
        }
    }

    /// Returns why the end doesn't send a message, before it is checked for the peer.
    fn unsaid(&self, refused: bool, message: &Message) -> Option<SayError>
        ensures { result ≡ unsaid (end_of self.now) refused (length self.now.outbox.bytes) message.now }
    {
        if refused || self.context.is_none() {
            Some(SayError::NotOpen)
        } else if self.outbox.bytes().len() >= HIGH_WATER {
            Some(SayError::Busy)
        } else if is_own_made(message) {
            Some(SayError::Extended)
        } else if self.tells_pieces(message) && self.own.pieces.is_none() {
            Some(SayError::PiecesUnknown)
        } else {
            None
        }
    }

    /// Queues an `lt_donthave` that is legal.
    fn take_back(&mut self, index: u32) -> Result<(), SayError>
        requires { IsLegal (belief (end_of self.old)) self.old.sends (messages.Extended (ext.DontHave index)) }
        ensures { IsQueued self.old (messages.Extended (ext.DontHave index)) result self.new }
    {
        let belief = self.belief();
        let Some(id) = belief.reg.donthave() else {
            unreachable!();
        };
        match put_donthave(&mut self.outbox, id.get(), index) {
            Ok(()) => Ok(()),
            Err(_) => Err(SayError::Memory),
        }
    }

    /// Puts an extended message that an end doesn't make itself, and that may be sent, into the outbox.
    fn put_extended(&mut self, message: &Message) -> Result<(), SayError>
        requires extended { IsExtended message.now }
        requires other { is_own_made message.now ≡ false }
        requires legal { IsLegal (belief (end_of self.old)) self.old.sends message.now }
        ensures { IsQueued self.old message.now result self.new }
    {
        match message {
            Message::Extended(Ext::DontHave(index)) => self.take_back(*index),
            _ => unreachable!(),
        }
    }

    /// Puts a message of this length, which may be sent and which an end doesn't make itself, into the outbox.
    fn put(&mut self, message: &Message, length: u32) -> Result<(), SayError>
        requires other { is_own_made message.now ≡ false }
        requires legal { IsLegal (belief (end_of self.old)) self.old.sends message.now }
        requires size { length ≡ list_length (body (belief (end_of self.old)) message.now) }
        ensures { IsQueued self.old message.now result self.new }
    {
        let Some(fields) = message.fields() else {
            return self.put_extended(message);
        };
        if put_plain(&mut self.outbox, length, message.id(), &fields).is_err() {
            return Err(SayError::Memory);
        }
        self.sends = next(self.sends, message);
        Ok(())
    }

    /// Queues a message that the peer, as the end takes it to be, wouldn't refuse, and that an end doesn't make itself.
    fn queue(&mut self, message: &Message) -> Result<(), SayError>
        requires { is_own_made message.now ≡ false }
        ensures { IsQueued self.old message.now result self.new }
    {
        match legal_length(&self.belief(), self.sends, message) {
            Ok(length) => self.put(message, length),
            Err(fault) => Err(SayError::Illegal(fault)),
        }
    }

    /// Queues a message if it is legal for the peer, as far as its handshakes tell.
    ///
    /// `refused` says whether the peer was refused.
    ///
    /// # Errors
    /// The first that applies; the end is then unchanged. `NotOpen` before the peer's handshake and after a refusal, `Busy` if at
    /// least `HIGH_WATER` bytes wait to be sent, `Extended` for an extended message other than `lt_donthave`, `PiecesUnknown` for
    /// a piece index or a bitfield without a known piece count, `Illegal` if the peer would refuse it, `Memory` when out of memory.
    pub fn say(&mut self, refused: bool, message: &Message) -> Result<(), SayError>
        ensures { IsSpoken self.old refused message.now result self.new }
    {
        match self.unsaid(refused, message) {
            Some(error) => Err(error),
            None => self.queue(message),
        }
    }

    /// Returns whether it fetches, and no block can come any more on this connection.
    pub fn is_hopeless(&self) -> bool
        ensures { result ≡ is_hopeless (end_of self.now) }
    {
        let is_closed = match self.context {
            Some(context) => !context.ext,
            None => false,
        };
        self.part.is_fetching()
            && (self.own.reg.metadata().is_none() || is_closed || self.part.is_settled())
    }

    /// Begins a new connection, with these bytes to be sent first.
    pub fn renew(&mut self, outbox: Outbox<A>)
        ensures end { end_of self.new ≡ renewed (end_of self.old) }
        ensures outbox { self.new.outbox ≡ outbox }
    {
        self.context = None;
        self.receives = Order::Fresh;
        self.sends = Order::Fresh;
        self.table = Table::new(self.alloc);
        self.part.disconnect();
        self.mismatches = 0;
        self.outbox = outbox;
    }
}

/// Returns whether the message is extended, and isn't `lt_donthave`.
///
/// An end makes such messages itself.
fn is_own_made(message: &Message) -> bool
    ensures { result ≡ is_own_made message.now }
{
    match message {
        Message::Extended(Ext::DontHave(_)) => false,
        Message::Extended(_) => true,
        _ => false,
    }
}
