//! One connection that is served.
ghost use Rattle.std.specs.Prelude.{◌≡◌, ◌+◌, ◌<◌, ◌≤◌, ℕ, [], length, true, false, Ok, IfOk, IfErr};
ghost use Rattle.bt_end.specs.Ends.{belief};
ghost use Rattle.bt_end.specs.Halves.{high_water};
ghost use Rattle.bt_exchange.specs.Boths.{capped};
ghost use Rattle.bt_exchange.specs.Courses.{Moment};
ghost use Rattle.bt_serve.specs.Doors.{is_served};
ghost use Rattle.bt_serve.specs.Guests.{IsHospitality, IsParting, IsServed, IsSettled, IsStepped, IsTended, ended_by, moves, serving_end, with_all_sent, with_item};
ghost use Rattle.bt_serve.specs.Services.{IsAnswered, is_rejecting, queued_by};

use crate::door::Parting;
use bt_end::{Announce, Config, End, Event, Role, SayError, Window};
use bt_exchange::{Connection, Hearing, Step, Stop, Watch, advance, is_piece};
use bt_ext::{ExtId, Registered, Rules};
use bt_io::Memory;
use bt_wire::{Context, Message, Own, Refusal, Reserved};
use std::alloc::Global;
use std::rc::Rc;

/// The reserved bits of an end that serves: the Extension Protocol and the Fast Extension.
const RESERVED: u64 = 0x10_0004;

/// The id under which an end that serves wants `ut_metadata`.
const METADATA_ID: u8 = 3;

/// How many steps a connection makes before another has its turn.
const STEPS: u32 = 64;

/// How peers are served.
#[derive(Clone, Copy, Debug)]
pub struct Hospitality {
    pub info_hash: [u8; 20],
    pub peer_id: [u8; 20],
    /// The rules by which peers are judged.
    pub rules: Rules,
    /// The greatest length of a message in bytes, 32,768 to 1,048,576.
    pub limit: u32,
    /// The seconds after which a connection ends over which nothing was moved.
    pub patience: u64,
}

/// Why a served connection ended.
#[derive(Clone, Copy, PartialEq, Eq, Debug)]
pub enum Ending {
    /// The peer closed it, a call of it failed, there was no memory for what came, or a reject couldn't be queued.
    Closed,
    /// Nothing was moved for longer than the patience.
    Silent,
    /// The peer sent a block of a piece, which was never asked for.
    Unasked,
    /// There was no memory for its buffers.
    Unserved,
    /// What the peer sent is refused.
    Refused(Refusal),
}

/// How many items were counted, each up to 2^64 - 1.
#[derive(Clone, Copy)]
struct Tally {
    /// How many wait in the outbox.
    queued: u64,
    sent: u64,
    handled: u64,
}

/// A connection that is served.
#[derive(Drop)]
pub struct Guest<L: Connection + Drop> {
    link: L,
    end: End,
    hearing: Hearing,
    /// When something was moved last.
    watch: Watch,
    /// The seconds after which it ends over which nothing was moved.
    patience: u64,
    tally: Tally,
    ghost short: { tally.handled ≡ 0 → length end.outbox < high_water },
}

/// Whether a connection can go on at once.
#[derive(Clone, Copy, PartialEq, Eq, Debug)]
pub enum Pace {
    /// It waits for its peer.
    Waits,
    /// It was given its turn, and can go on.
    GoesOn,
}

/// Returns a new end that serves the metadata, which all ends share.
///
/// # Errors
/// `Memory` if its buffers are refused, or the metadata isn't 1 to 67,108,864 bytes.
fn serving_end(
    alloc: Global,
    hospitality: &Hospitality,
    pieces: Option<u32>,
    metadata: &Rc<Vec<u8>>,
) -> Result<End, Memory>
    requires { IsHospitality hospitality.now }
    ensures { IfOk result (λ end. end ≡ serving_end hospitality.now pieces metadata.now.value.items) }
{
    let Ok(shared) = metadata.clone() else {
        return Err(Memory);
    };
    let config = Config {
        own: Own {
            reserved: Reserved(RESERVED),
            info_hash: Some(hospitality.info_hash),
            pieces,
            reg: Registered::metadata_only(ExtId::new(METADATA_ID)),
            rules: hospitality.rules,
            limit: hospitality.limit,
        },
        peer_id: hospitality.peer_id,
        announce: Announce::Nothing,
        window: Window::default(),
        role: Role::Share(shared),
    };
    match End::new(alloc, config) {
        Ok(end) => Ok(end),
        Err(_) => Err(Memory),
    }
}

/// Whether requests for blocks of pieces are answered: both ends know the Fast Extension, and the piece count is known (BEP 6).
fn is_rejecting(context: &Context) -> bool
    ensures { result ≡ is_rejecting context.now }
{
    context.fast && context.pieces.is_some()
}

/// Rejects the block that is asked for, if one is and requests are answered.
///
/// # Errors
/// That of [`End::say`]. Nothing changes then.
fn answer(end: &mut End, event: Event) -> Result<(), SayError>
    ensures { IsAnswered end.old event result end.new }
{
    let Event::Requested {
        index,
        begin,
        length,
    } = event
    else {
        return Ok(());
    };
    if is_rejecting(&end.belief()) {
        end.say(&Message::Reject {
            index,
            begin,
            length,
        })
    } else {
        Ok(())
    }
}

/// Returns how many messages are queued at an event: the end's own and the reject.
fn queued_by(context: &Context, event: Event) -> u64
    ensures { result ≡ queued_by context.now event }
{
    match event {
        Event::Opened(_) => u64::from(context.ext) + u64::from(context.fast),
        Event::Served(_) | Event::Declined(_) => 1,
        Event::Requested { .. } => u64::from(is_rejecting(context)),
        _ => 0,
    }
}

impl Tally {
    /// Returns the counts with this many messages queued, and an item handled.
    fn with_item(self, queued: u64) -> Tally
        ensures { result ≡ with_item queued self }
    {
        Tally {
            queued: self.queued.saturating_add(queued),
            sent: self.sent,
            handled: self.handled.saturating_add(1),
        }
    }

    /// Returns the counts when all that was queued is sent.
    fn with_all_sent(self) -> Tally
        ensures { result ≡ with_all_sent self }
    {
        Tally {
            queued: 0,
            sent: self.sent.saturating_add(self.queued),
            handled: self.handled,
        }
    }
}

/// Returns how a connection ended over which a step failed so.
fn ending_of(stop: Stop) -> Ending
    ensures value { result ≡ ended_by stop }
    ensures served { is_served result ≡ true }
{
    match stop {
        Stop::Refused(refusal) => Ending::Refused(refusal),
        _ => Ending::Closed,
    }
}

impl<L: Connection + Drop> Guest<L> {
    /// Returns a new connection that is served.
    ///
    /// # Errors
    /// `Memory` if its buffers are refused.
    pub fn new(
        alloc: Global,
        hospitality: &Hospitality,
        pieces: Option<u32>,
        metadata: &Rc<Vec<u8>>,
        link: L,
    ) -> Result<Guest<L>, Memory>
        requires { IsHospitality hospitality.now }
        ensures served { IfOk result (λ guest. IsServed
            (record { seen = L.seen link; pending = []; half = serving_end hospitality.now pieces metadata.now.value.items })
            (record { seen = L.seen guest.link; pending = guest.hearing; half = guest.end }) guest.watch.since guest.tally) }
        ensures settled { IfOk result (λ guest. IsSettled guest.end guest.tally) }
        ensures patience { IfOk result (λ guest. guest.patience ≡ hospitality.now.patience) }
    {
        let end = serving_end(alloc, hospitality, pieces, metadata)?;
        let hearing = Hearing::new(alloc)?;
        let mut link = link;
        let since = link.now();
        Ok(Guest {
            link,
            end,
            hearing,
            watch: Watch { since },
            patience: hospitality.patience,
            tally: Tally {
                queued: 1,
                sent: 0,
                handled: 0,
            },
        })
    }

    /// Makes a step, and answers what came. Nothing is sent before the peer's handshake came and fits (BEP 3).
    ///
    /// # Errors
    /// Why the connection ends.
    fn act(&mut self) -> Result<Step, Ending>
        ensures since { moves result ≡ false → self.new.watch ≡ self.old.watch }
        ensures patience { self.new.patience ≡ self.old.patience }
        ensures served { IfErr result (λ e. is_served e ≡ true) }
        ensures stepped { (start : Moment)
            → IsServed start (record { seen = L.seen self.old.link; pending = self.old.hearing; half = self.old.end }) self.old.watch.since self.old.tally
            → IsStepped start (record { seen = L.seen self.new.link; pending = self.new.hearing; half = self.new.end }) self.new.watch.since self.new.tally result }
    {
        let may_send = self.tally.handled > 0;
        match advance(&mut self.link, &mut self.end, &mut self.hearing, may_send) {
            Ok(Step::Handled(event)) => {
                let tally = self.tally;
                self.tally = tally.with_item(0);
                match answer(&mut self.end, event) {
                    Ok(()) => {}
                    Err(_) => return Err(Ending::Closed),
                }
                self.tally = tally.with_item(queued_by(&self.end.belief(), event));
                if is_piece(event) {
                    return Err(Ending::Unasked);
                }
                Ok(Step::Handled(event))
            }
            Ok(Step::Moved) => {
                self.watch = Watch {
                    since: self.link.now(),
                };
                Ok(Step::Moved)
            }
            Ok(Step::Waited) => Ok(Step::Waited),
            Ok(Step::Held) => Ok(Step::Held),
            Err(stop) => Err(ending_of(stop)),
        }
    }

    /// Makes a step, and counts what it did.
    ///
    /// # Errors
    /// Why the connection ends.
    fn step(&mut self) -> Result<Step, Ending>
        ensures since { moves result ≡ false → self.new.watch ≡ self.old.watch }
        ensures patience { self.new.patience ≡ self.old.patience }
        ensures served { IfErr result (λ e. is_served e ≡ true) }
        ensures stepped { (start : Moment)
            → IsServed start (record { seen = L.seen self.old.link; pending = self.old.hearing; half = self.old.end }) self.old.watch.since self.old.tally
            → IsStepped start (record { seen = L.seen self.new.link; pending = self.new.hearing; half = self.new.end }) self.new.watch.since self.new.tally result }
        ensures settled { IsSettled self.new.end self.new.tally }
    {
        let done = self.act();
        if self.end.outgoing().is_empty() {
            self.tally = self.tally.with_all_sent();
        }
        done
    }

    /// Returns how many items of the peer were handled, with the handshake.
    pub fn handled(&self) -> u64
        ensures { result ≡ self.now.tally.handled }
    {
        self.tally.handled
    }

    /// Returns the connection itself.
    pub fn link(&self) -> &L {
        &self.link
    }

    /// Returns whether a read or a write of it may move something.
    pub fn may_go_on(&self) -> bool {
        self.link.may_go_on()
    }

    /// Returns how the connection ended, for this reason.
    pub fn parting(&self, ending: Ending) -> Parting
        ensures { result ≡ record { ending = ending; sent = self.now.tally.sent; handled = self.now.tally.handled } }
    {
        Parting {
            ending,
            sent: self.tally.sent,
            handled: self.tally.handled,
        }
    }

    /// Makes steps until the peer has to be waited for.
    ///
    /// It stops too if others are to have their turn.
    ///
    /// # Errors
    /// How the connection ended.
    pub fn tend(&mut self) -> Result<Pace, Parting>
        ensures patience { self.new.patience ≡ self.old.patience }
        ensures patient { result ≡ Ok Pace.Waits → (L.seen self.new.link).counts.clock ≤ self.new.watch.since + self.old.patience }
        ensures served { IfErr result (λ p. is_served p.ending ≡ true) }
        ensures tended { (start : Moment)
            → IsServed start (record { seen = L.seen self.old.link; pending = self.old.hearing; half = self.old.end }) self.old.watch.since self.old.tally
            → IsTended self.old.patience start (record { seen = L.seen self.new.link; pending = self.new.hearing; half = self.new.end }) self.new.watch.since self.new.tally result }
    {
        for _step in 0..STEPS {
            match self.step() {
                Ok(Step::Waited) => {
                    let now = self.link.now();
                    if self.watch.is_over(now, self.patience) {
                        return Err(self.parting(Ending::Silent));
                    }
                    return Ok(Pace::Waits);
                }
                Ok(_) => {}
                Err(ending) => return Err(self.parting(ending)),
            }
        }
        Ok(Pace::GoesOn)
    }
}
