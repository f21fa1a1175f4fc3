//! Serving over connections in memory, of which calls fail, and where memory is refused.
ghost use Rattle.std.specs.Prelude.{◌≡◌};

use bt_end::{Announce, Config, End, Role, Window};
use bt_exchange::{Connection, rest_after};
use bt_ext::{ExtId, Registered, Rules};
use bt_io::{Failed, Memory};
use bt_serve::{Door, Ending, Hospitality, Parting, piece_count, serve};
use bt_wire::{Own, Reserved};
use std::alloc::Global;
use std::cell::Cell;
use std::rc::Rc;

/// The SHA-1 of `abc` (FIPS 180-4).
const ABC: [u8; 20] = [
    0xa9, 0x99, 0x3e, 0x36, 0x47, 0x06, 0x81, 0x6a, 0xba, 0x3e, 0x25, 0x71, 0x78, 0x50, 0xc2, 0x6c,
    0x9c, 0xd0, 0xd8, 0x9d,
];

/// An end that fetches, as the other side of a connection that moves at most 7 bytes a call, fails at the call `fails_at`, and
/// is closed once the end has the metadata.
#[derive(Drop)]
struct Leech<'a> {
    end: End,
    fetched: &'a Cell<u64>,
    fails_at: Option<u64>,
    calls: u64,
    ends: u64,
    failed: u64,
    time: u64,
}

impl<'a> Connection for Leech<'a> {
    ghost use Rattle.std.specs.Prelude.{None, false};

    ghost seen = { λ s. record {
      coming = None;
      gone = None;
      counts = record { calls = s.calls; ends = s.ends; failed = s.failed; clock = s.time };
    } };

    ghost prompt = { false };

    fn read(&mut self, into: &mut [u8]) -> Result<Option<usize>, Failed> {
        self.calls = self.calls.saturating_add(1);
        if self.fails_at == Some(self.calls) {
            self.failed = self.failed.saturating_add(1);
            return Err(Failed);
        }
        let out = self.end.outgoing();
        let count = out.len().min(into.len()).min(7);
        into[..count].copy_from_slice(&out[..count]);
        self.end.sent(count);
        if count > 0 {
            return Ok(Some(count));
        }
        if self.end.metadata().is_none() {
            return Ok(None);
        }
        if !into.is_empty() {
            self.ends = self.ends.saturating_add(1);
            self.fetched.set(self.fetched.get().saturating_add(1));
        }
        Ok(Some(0))
    }

    fn write(&mut self, from: &[u8]) -> Result<Option<usize>, Failed> {
        self.calls = self.calls.saturating_add(1);
        if self.fails_at == Some(self.calls) {
            self.failed = self.failed.saturating_add(1);
            return Err(Failed);
        }
        let count = from.len().min(7);
        let (used, _) = self.end.handle(&from[..count]);
        if used == 0 {
            return Ok(None);
        }
        Ok(Some(used))
    }

    fn now(&mut self) -> u64 {
        self.time = self.calls / 16;
        self.time
    }
}

/// Returns an end that fetches.
fn fetching(alloc: Global) -> Option<End> {
    let config = Config {
        own: Own {
            reserved: Reserved(0x10_0004),
            info_hash: Some(ABC),
            pieces: None,
            reg: Registered::metadata_only(ExtId::new(9)),
            rules: Rules::Bep,
            limit: 32_768,
        },
        peer_id: [45; 20],
        announce: Announce::Nothing,
        window: Window::default(),
        role: Role::Fetch,
    };
    End::new(alloc, config).ok()
}

/// Lets in two connections. The first one fails at a call.
#[derive(Drop)]
struct Two<'a> {
    alloc: Global,
    fetched: &'a Cell<u64>,
    fails_at: Option<u64>,
    entered: u64,
    inside: usize,
    rounds: u64,
    /// How many turns it heard of in which a connection handled an item.
    heard: u64,
    first: Option<Parting>,
    second: Option<Parting>,
}

impl<'a> Door for Two<'a> {
    type Link = Leech<'a>;

    type Name = u64;

    ghost inside = { λ d. d.inside };

    ghost places = { λ d. 2 };

    ghost rounds = { λ d. d.rounds };

    fn has_place(&self) -> bool {
        self.inside < 2
    }

    fn enter(&mut self) -> Option<(Leech<'a>, u64)> {
        let number = self.entered;
        let end = fetching(self.alloc)?;
        self.entered = number.saturating_add(1);
        let leech = Leech {
            end,
            fetched: self.fetched,
            fails_at: if number == 0 { self.fails_at } else { None },
            calls: 0,
            ends: 0,
            failed: 0,
            time: 0,
        };
        self.inside += 1;
        Some((leech, number))
    }

    fn handled(&mut self) {
        self.heard = self.heard.saturating_add(1);
    }

    fn rest(&mut self, _is_idle: bool) {
        self.rounds = self.rounds.saturating_add(1);
    }

    fn ended(&mut self, name: u64, parting: Parting) {
        self.inside -= 1;
        if name == 0 {
            self.first = Some(parting);
        } else {
            self.second = Some(parting);
        }
    }
}

/// A service of two connections: its answer, how many ends fetched, of how many turns with an item the door heard, and how the
/// connections ended.
#[derive(Clone, Copy)]
struct Came {
    answer: Result<(), Memory>,
    fetched: u64,
    heard: u64,
    first: Option<Parting>,
    second: Option<Parting>,
}

pub(crate) fn hospitality() -> Hospitality
    ensures { result.limit ≡ 32768 }
{
    Hospitality {
        info_hash: ABC,
        peer_id: [48; 20],
        rules: Rules::Bep,
        limit: 32_768,
        patience: 60,
    }
}

/// Serves the metadata to two ends.
fn served(alloc: Global, metadata: &Rc<Vec<u8>>, fails_at: Option<u64>) -> Came {
    let fetched = Cell::new(0);
    let mut door = Two {
        alloc,
        fetched: &fetched,
        fails_at,
        entered: 0,
        inside: 0,
        rounds: 0,
        heard: 0,
        first: None,
        second: None,
    };
    let answer = serve(alloc, &hospitality(), metadata, Some(2), &mut door);
    Came {
        answer,
        fetched: fetched.get(),
        heard: door.heard,
        first: door.first,
        second: door.second,
    }
}

/// Returns the metadata, `abc`; none where memory is refused.
pub(crate) fn metadata(alloc: Global) -> Option<Rc<Vec<u8>>> {
    match b"abc".to_vec(alloc) {
        Ok(bytes) => Rc::new(alloc, bytes).ok(),
        Err(_) => None,
    }
}

/// How a connection ends that was served: the handshake, the extended handshake, have none and a block were sent, and the
/// handshake, the extended handshake, have none and a request were handled.
const WHOLE: Option<Parting> = Some(Parting {
    ending: Ending::Closed,
    sent: 4,
    handled: 4,
});

/// How a service goes whose first connection fails at a call.
#[derive(Clone, Copy)]
enum Went {
    Wrong,
    /// The first connection is closed, and the second one is served.
    ClosedFirst,
    /// So many calls aren't made.
    Unharmed,
}

fn is_closed(parting: Option<Parting>) -> bool {
    matches!(
        parting,
        Some(Parting {
            ending: Ending::Closed,
            ..
        })
    )
}

/// A connection handles four items, so the door hears of eight turns at most.
fn how(came: &Came) -> Went {
    if came.answer != Ok(()) || came.second != WHOLE || !matches!(came.heard, 1..=8) {
        Went::Wrong
    } else if came.fetched == 2 && came.first == WHOLE {
        Went::Unharmed
    } else if came.fetched == 1 && is_closed(came.first) {
        Went::ClosedFirst
    } else {
        Went::Wrong
    }
}

/// The first call that isn't made; or the call whose failure goes wrong.
fn first_unmade(alloc: Global, metadata: &Rc<Vec<u8>>) -> Result<u64, u64> {
    for call in 1..10_000 {
        match how(&served(alloc, metadata, Some(call))) {
            Went::ClosedFirst => {}
            Went::Unharmed => return Ok(call),
            Went::Wrong => return Err(call),
        }
    }
    Err(10_000)
}

fn goes_on(alloc: Global) -> Result<u64, u64> {
    match metadata(alloc) {
        Some(metadata) => first_unmade(alloc, &metadata),
        None => Err(0),
    }
}

/// Where a call of the first connection fails, that one ends, and the second one is served.
#[test]
fn each_call_fails(rt: HostRuntime) {
    let first = goes_on(rt.alloc());
    assert!(rt; matches!(first, Ok(call) if call > 20), "{first:?}");
}

fn is_served_or_refused(came: &Came) -> bool {
    let whole = u64::from(came.first == WHOLE).saturating_add(u64::from(came.second == WHOLE));
    whole == came.fetched
        && match came.answer {
            Ok(()) => came.fetched > 0,
            Err(_) => came.fetched < 2,
        }
}

fn is_right(alloc: Global) -> bool {
    match metadata(alloc) {
        Some(metadata) => is_served_or_refused(&served(alloc, &metadata, None)),
        None => true,
    }
}

/// Where memory is refused the service ends so, or each end that wasn't refused it is served. `tests/growth.py` refuses it.
#[test]
fn memory_is_refused_or_all_are_served(rt: HostRuntime) {
    assert!(rt; is_right(rt.alloc()));
}

/// A peer's handshake (BEP 3), with the bits of both extensions.
pub(crate) const HAND: &[u8; 68] = b"\x13BitTorrent protocol\0\0\0\0\0\x10\0\x04\
\xa9\x99\x3e\x36\x47\x06\x81\x6a\xba\x3e\x25\x71\x78\x50\xc2\x6c\x9c\xd0\xd8\x9d-XX0001-000000000000";

/// A peer that takes what is sent, says its handshake late, and nothing after it.
#[derive(Drop)]
struct Late {
    said: usize,
    calls: u64,
    time: u64,
}

impl Connection for Late {
    ghost use Rattle.std.specs.Prelude.{None, false};

    ghost seen = { λ s. record {
      coming = None;
      gone = None;
      counts = record { calls = s.calls; ends = 0; failed = 0; clock = s.time };
    } };

    ghost prompt = { false };

    fn read(&mut self, into: &mut [u8]) -> Result<Option<usize>, Failed> {
        self.calls = self.calls.saturating_add(1);
        let Some(rest) = HAND.get(self.said..) else {
            return Ok(None);
        };
        let count = rest.len().min(into.len());
        if self.calls < 64 || count == 0 {
            return Ok(None);
        }
        into[..count].copy_from_slice(&rest[..count]);
        self.said = self.said.saturating_add(count);
        Ok(Some(count))
    }

    fn write(&mut self, from: &[u8]) -> Result<Option<usize>, Failed> {
        self.calls = self.calls.saturating_add(1);
        if from.is_empty() {
            return Ok(None);
        }
        Ok(Some(from.len()))
    }

    fn now(&mut self) -> u64 {
        self.time = self.calls / 16;
        self.time
    }
}

/// Lets in one connection, and counts the rounds in which none can go on, the others, and the turns with an item.
#[derive(Drop)]
struct Counting {
    inside: usize,
    has_entered: bool,
    rounds: u64,
    idle: u64,
    busy: u64,
    heard: u64,
}

impl Door for Counting {
    type Link = Late;

    type Name = ();

    ghost inside = { λ d. d.inside };

    ghost places = { λ d. 1 };

    ghost rounds = { λ d. d.rounds };

    fn has_place(&self) -> bool {
        self.inside < 1
    }

    fn enter(&mut self) -> Option<(Late, ())> {
        if self.has_entered {
            return None;
        }
        self.has_entered = true;
        self.inside += 1;
        let late = Late {
            said: 0,
            calls: 0,
            time: 0,
        };
        Some((late, ()))
    }

    fn handled(&mut self) {
        self.heard = self.heard.saturating_add(1);
    }

    fn rest(&mut self, is_idle: bool) {
        self.rounds = self.rounds.saturating_add(1);
        if is_idle {
            self.idle = self.idle.saturating_add(1);
        } else {
            self.busy = self.busy.saturating_add(1);
        }
    }

    fn ended(&mut self, _name: (), _parting: Parting) {
        self.inside -= 1;
    }
}

/// How many rounds were idle and how many weren't, and how many turns had an item, until a late peer was left.
fn waited(alloc: Global) -> Option<(u64, u64, u64)> {
    let metadata = metadata(alloc)?;
    let mut door = Counting {
        inside: 0,
        has_entered: false,
        rounds: 0,
        idle: 0,
        busy: 0,
        heard: 0,
    };
    serve(alloc, &hospitality(), &metadata, Some(1), &mut door).ok()?;
    Some((door.idle, door.busy, door.heard))
}

/// Only the round in which a connection enters and the one in which it ends aren't idle, also if an item was handled in another.
#[test]
fn a_round_with_an_item_is_idle(rt: HostRuntime) {
    let waited = waited(rt.alloc());
    assert!(rt;
        matches!(waited, Some((idle, 2, 1)) if idle > 64),
        "{waited:?}"
    );
}

/// Info dictionaries, and how many pieces they have: 20 bytes of `pieces` for each (BEP 3).
const PIECES: [(&[u8], Option<u32>); 7] = [
    (b"d6:pieces0:e", Some(0)),
    (b"d6:pieces20:aaaaaaaaaaaaaaaaaaaae", Some(1)),
    (
        b"d6:lengthi1e6:pieces40:aaaaaaaaaaaaaaaaaaaabbbbbbbbbbbbbbbbbbbbe",
        Some(2),
    ),
    (b"d6:pieces19:aaaaaaaaaaaaaaaaaaae", None),
    (b"d6:piecesi20ee", None),
    (b"d6:pieces20:aaaaaaaaaaaaaaaaaaaaee", None),
    (b"abc", None),
];

#[test]
fn pieces_are_counted(rt: HostRuntime) {
    for (info, pieces) in PIECES {
        assert!(rt; piece_count(info) == pieces);
    }
}

/// The wait before in microseconds, how many connections are open, and the wait after it: 20 for each connection, twice the one
/// before, and 5,000 at most.
const WAITS: [(u64, usize, u64); 8] = [
    (0, 0, 5_000),
    (20, 0, 5_000),
    (0, 1, 20),
    (20, 1, 40),
    (0, 16, 320),
    (2_500, 1, 5_000),
    (2_501, 1, 5_000),
    (0, 1_000, 5_000),
];

#[test]
fn waits_double(rt: HostRuntime) {
    for (last, connections, wait) in WAITS {
        assert!(rt; rest_after(last, connections) == wait);
    }
}
