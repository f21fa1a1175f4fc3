//! Fetching from many peers over connections in memory, of which calls fail, and where memory is refused.
ghost use Rattle.std.specs.Prelude.{◌≡◌, ◌<◌, ◌≤◌, IfSome};
ghost use Rattle.bt_io.specs.Counts.{one_more, counted as raised};

use bt_end::{Announce, Config, End, Progress, Role, Window};
use bt_exchange::{Connection, Hearing, Watch, exchange};
use bt_ext::{ExtId, Registered, Rules};
use bt_fetch::{DIALS, Device, Ending, FetchError, Outcome, Wish, fetch};
use bt_io::{Failed, MemTarget};
use bt_wire::{Own, Reserved};
use std::alloc::Global;

/// The SHA-1 of `abc` (FIPS 180-4).
const ABC: [u8; 20] = [
    0xa9, 0x99, 0x3e, 0x36, 0x47, 0x06, 0x81, 0x6a, 0xba, 0x3e, 0x25, 0x71, 0x78, 0x50, 0xc2, 0x6c,
    0x9c, 0xd0, 0xd8, 0x9d,
];

/// What is at an address.
#[derive(Clone, Copy)]
enum Peer {
    /// No connection is opened.
    Refuses,
    /// Nobody answers: the connection never opens.
    Dead,
    /// The connection fails after it was begun.
    Fails,
    /// The connection is closed at once.
    Closes,
    /// It takes what is sent, and says nothing.
    Silent,
    /// An end that serves these bytes for the info hash of `abc`, and moves at most 7 bytes a call.
    Serves(&'static [u8]),
}

/// A connection to a peer.
#[derive(Drop)]
struct Link {
    end: Option<End>,
    is_open: Option<bool>,
    closes: bool,
    fails_at: Option<u64>,
    /// How many bytes a call moves at most.
    most: usize,
    /// How many bytes the first writes moved.
    writes: [usize; 5],
    written: usize,
    calls: u64,
    ends: u64,
    failed: u64,
    time: u64,
}

impl Link {
    /// Counts a call, and returns whether it fails.
    fn fails(&mut self) -> bool
        ensures calls { self.new.calls ≡ one_more self.old.calls }
        ensures failed { self.new.failed ≡ raised result self.old.failed }
        ensures ends { self.new.ends ≡ self.old.ends }
        ensures time { self.new.time ≡ self.old.time }
    {
        self.calls = self.calls.saturating_add(1);
        if self.fails_at == Some(self.calls) {
            self.failed = self.failed.saturating_add(1);
            return true;
        }
        false
    }

    /// Takes note of a write.
    fn note(&mut self, count: usize)
        ensures calls { self.new.calls ≡ self.old.calls }
        ensures failed { self.new.failed ≡ self.old.failed }
        ensures ends { self.new.ends ≡ self.old.ends }
        ensures time { self.new.time ≡ self.old.time }
    {
        if let Some(length) = self.writes.get_mut(self.written) {
            *length = count;
        }
        self.written = self.written.saturating_add(1);
    }
}

impl Connection for Link {
    ghost use Rattle.std.specs.Prelude.{None, false};

    ghost seen = { λ s. record {
      coming = None;
      gone = None;
      counts = record { calls = s.calls; ends = s.ends; failed = s.failed; clock = s.time };
    } };

    ghost prompt = { false };

    fn read(&mut self, into: &mut [u8]) -> Result<Option<usize>, Failed> {
        if self.fails() {
            return Err(Failed);
        }
        if self.closes {
            if !into.is_empty() {
                self.ends = self.ends.saturating_add(1);
            }
            return Ok(Some(0));
        }
        let Some(end) = &mut self.end else {
            return Ok(None);
        };
        let out = end.outgoing();
        let count = out.len().min(into.len()).min(self.most);
        if count == 0 {
            return Ok(None);
        }
        into[..count].copy_from_slice(&out[..count]);
        end.sent(count);
        Ok(Some(count))
    }

    fn write(&mut self, from: &[u8]) -> Result<Option<usize>, Failed> {
        if self.fails() {
            return Err(Failed);
        }
        let count = from.len().min(self.most);
        if count == 0 {
            return Ok(None);
        }
        self.note(count);
        let Some(end) = &mut self.end else {
            return Ok(Some(count));
        };
        let (used, _) = end.handle(&from[..count]);
        if used == 0 {
            return Ok(None);
        }
        Ok(Some(used))
    }

    fn now(&mut self) -> u64 {
        self.time = self.calls / 16;
        self.time
    }
}

/// Returns an end that serves the bytes.
fn serving(alloc: Global, bytes: &[u8]) -> Option<End> {
    end_for(alloc, Role::Serve(bytes.to_vec(alloc).ok()?))
}

fn end_for(alloc: Global, role: Role) -> Option<End> {
    let config = Config {
        own: Own {
            reserved: Reserved(0x10_0004),
            info_hash: Some(ABC),
            pieces: None,
            reg: Registered::metadata_only(ExtId::new(9)),
            rules: Rules::Bep,
            limit: 32_768,
        },
        peer_id: [45; 20],
        announce: Announce::Nothing,
        window: Window::default(),
        role,
    };
    End::new(alloc, config).ok()
}

/// The peers of a list of addresses, of which so many are known, and what was told of them.
#[derive(Drop)]
struct Peers {
    alloc: Global,
    peers: &'static [Peer],
    known: usize,
    /// How many times it still says that more may come: each fourth time one comes.
    left: usize,
    /// Whether it said that no more come.
    is_all: bool,
    /// The call, counted from 1, at which the first connection to each address fails.
    fails_at: Option<u64>,
    dialled: [u8; 8],
    ended: [Option<Ending>; 8],
    inside: usize,
    most: usize,
    places: usize,
    time: u64,
}

impl Peers {
    /// Returns peers of which all are known; or, if they come late, none.
    fn new(
        alloc: Global,
        peers: &'static [Peer],
        is_late: bool,
        fails_at: Option<u64>,
        places: usize,
    ) -> Peers
        ensures inside { ⟦<Peers as Device>⟧.inside result ≡ 0 }
        ensures places { ⟦<Peers as Device>⟧.places result ≡ places }
    {
        Peers {
            alloc,
            peers,
            known: if is_late { 0 } else { peers.len() },
            left: if is_late {
                peers.len().saturating_mul(4)
            } else {
                0
            },
            is_all: false,
            fails_at,
            dialled: [0; 8],
            ended: [None; 8],
            inside: 0,
            most: 0,
            places,
            time: 0,
        }
    }

    /// Counts a dial, and returns how many there were before.
    fn count(&mut self, address: usize) -> u8
        ensures inside { self.new.inside ≡ self.old.inside }
        ensures places { self.new.places ≡ self.old.places }
        ensures list { ⟦<Peers as Device>⟧.list self.new ≡ ⟦<Peers as Device>⟧.list self.old }
    {
        if address >= 8 {
            return 0;
        }
        let before = self.dialled[address];
        self.dialled[address] = before.saturating_add(1);
        before
    }

    /// Returns the connection to the peer, if it takes one.
    fn link(&self, peer: Peer, is_first: bool) -> Option<Link>
        ensures { IfSome result (λ l. l.calls ≡ 0) }
    {
        let (end, is_open) = match peer {
            Peer::Refuses => return None,
            Peer::Dead => (None, None),
            Peer::Fails => (None, Some(false)),
            Peer::Closes | Peer::Silent => (None, Some(true)),
            Peer::Serves(bytes) => (Some(serving(self.alloc, bytes)?), Some(true)),
        };
        Some(Link {
            end,
            is_open,
            closes: matches!(peer, Peer::Closes),
            fails_at: if is_first { self.fails_at } else { None },
            most: 7,
            writes: [0; 5],
            written: 0,
            calls: 0,
            ends: 0,
            failed: 0,
            time: 0,
        })
    }
}

impl Device for Peers {
    type Link = Link;

    ghost use Rattle.std.specs.Prelude.{None, length, min};

    ghost log = { λ d. None };

    ghost inside = { λ d. d.inside };

    ghost places = { λ d. d.places };

    ghost list = { λ d. record {
      known = min d.known (length d.peers.now);
      most = length d.peers.now;
      is_all = d.is_all;
      looks = d.left;
    } };

    fn known(&self) -> usize {
        self.known.min(self.peers.len())
    }

    fn most(&self) -> usize {
        self.peers.len()
    }

    fn more(&mut self) -> bool {
        if self.is_all || self.left == 0 {
            self.is_all = true;
            return false;
        }
        self.left -= 1;
        if self.left % 4 == 0 {
            self.known = self.known.saturating_add(1);
        }
        true
    }

    fn dial(&mut self, address: usize) -> Option<Link> {
        let before = self.count(address);
        let peer = *self.peers.get(address)?;
        let link = self.link(peer, before == 0)?;
        self.inside += 1;
        self.most = self.most.max(self.inside);
        Some(link)
    }

    fn ended(&mut self, address: usize, _link: Link, ending: Ending) {
        self.inside -= 1;
        if address < 8 {
            self.ended[address] = Some(ending);
        }
    }

    fn is_open(&self, link: &Link) -> Option<bool> {
        link.is_open
    }

    fn came(&mut self, _address: usize, _progress: Progress) {}

    fn time(&mut self) -> u64 {
        self.time = self.time.saturating_add(100);
        self.time
    }

    fn rest(&mut self) {}
}

/// A fetch over peers in memory: its answer, what was written, and the peers.
#[derive(Drop)]
struct Came {
    answer: Result<usize, FetchError>,
    is_abc: bool,
    is_empty: bool,
    peers: Peers,
}

/// Fetches from peers of whom all are known at the start.
fn fetched(alloc: Global, peers: &'static [Peer], fails_at: Option<u64>, at_once: usize) -> Came
    requires least { 0 < at_once }
    requires most { at_once ≤ 256 }
{
    fetched_as(alloc, peers, false, fails_at, at_once)
}

/// Fetches from peers, who are known at the start or come late.
fn fetched_as(
    alloc: Global,
    peers: &'static [Peer],
    is_late: bool,
    fails_at: Option<u64>,
    at_once: usize,
) -> Came
    requires least { 0 < at_once }
    requires most { at_once ≤ 256 }
{
    let wish = Wish {
        info_hash: ABC,
        peer_id: [48; 20],
        rules: Rules::Bep,
        limit: 32_768,
        patience: 60,
        window: None,
        most: 1000,
    };
    let mut peers_of = Peers::new(alloc, peers, is_late, fails_at, at_once + DIALS);
    let mut target = MemTarget::new(Vec::new(alloc), 2, None);
    let answer = fetch(alloc, &wish, None, at_once, &mut peers_of, &mut target);
    Came {
        answer,
        is_abc: target.bytes() == b"abc".as_slice(),
        is_empty: target.bytes().is_empty(),
        peers: peers_of,
    }
}

/// Strangers, of whom the last one alone has the metadata.
const STRANGERS: [Peer; 7] = [
    Peer::Silent,
    Peer::Refuses,
    Peer::Closes,
    Peer::Serves(b"abcd"),
    Peer::Serves(b"abd"),
    Peer::Silent,
    Peer::Serves(b"abc"),
];

fn is_fetched(came: &Came, at: usize) -> bool {
    came.answer == Ok(3)
        && came.is_abc
        && came.peers.inside == 0
        && came.peers.ended.get(at) == Some(&Some(Ending::By(Outcome::Fetched)))
}

/// The one that has the metadata is found, however many are asked at the same time.
#[test]
fn the_honest_one_is_found(rt: HostRuntime) {
    for at_once in [1usize, 2, 3, 6, 7, 256] {
        if at_once > 0 && at_once <= 256 {
            let came = fetched(rt.alloc(), &STRANGERS, None, at_once);
            assert!(rt;
                is_fetched(&came, 6),
                "{at_once}: {:?} {:?}",
                came.answer,
                came.peers.ended
            );
            assert!(rt; came.peers.most <= at_once.min(7));
            assert!(rt; came.peers.dialled[6] == 1 && came.peers.dialled[7] == 0);
        }
    }
}

/// How connections end over which nothing can be fetched.
const ENDINGS: [Option<Ending>; 8] = [
    Some(Ending::By(Outcome::Silent)),
    None,
    Some(Ending::By(Outcome::Closed)),
    Some(Ending::By(Outcome::Mismatch)),
    Some(Ending::By(Outcome::Mismatch)),
    Some(Ending::By(Outcome::Silent)),
    None,
    None,
];

/// Where no peer has the metadata each is asked twice.
#[test]
fn each_comes_again(rt: HostRuntime) {
    for at_once in [1usize, 3, 6] {
        if at_once > 0 && at_once <= 256 {
            let came = fetched(rt.alloc(), &STRANGERS[..6], None, at_once);
            assert!(rt; came.answer == Err(FetchError::NotFetched));
            assert!(rt; came.is_empty && came.peers.inside == 0);
            assert!(rt; came.peers.dialled == [2, 2, 2, 2, 2, 2, 0, 0]);
            assert!(rt;
                came.peers.ended == ENDINGS,
                "{at_once}: {:?}",
                came.peers.ended
            );
        }
    }
}

/// Who comes late is asked as well, and the fetch waits for them.
#[test]
fn the_honest_one_comes_late(rt: HostRuntime) {
    for at_once in [1usize, 3, 256] {
        if at_once > 0 && at_once <= 256 {
            let came = fetched_as(rt.alloc(), &STRANGERS, true, None, at_once);
            assert!(rt;
                is_fetched(&came, 6),
                "{at_once}: {:?} {:?}",
                came.answer,
                came.peers.ended
            );
            assert!(rt; came.peers.dialled[6] == 1 && came.peers.dialled[7] == 0);
        }
    }
}

/// If no peer has the metadata, the fetch ends after no more come, and each of them was asked twice.
#[test]
fn late_ones_come_again(rt: HostRuntime) {
    let came = fetched_as(rt.alloc(), &STRANGERS[..6], true, None, 3);
    assert!(rt; came.answer == Err(FetchError::NotFetched));
    assert!(rt; came.is_empty && came.peers.inside == 0 && came.peers.is_all);
    assert!(rt; came.peers.dialled == [2, 2, 2, 2, 2, 2, 0, 0]);
    assert!(rt; came.peers.ended == ENDINGS, "{:?}", came.peers.ended);
}

/// Addresses at which nobody answers, and one that has the metadata.
const DEAD: [Peer; 6] = [
    Peer::Dead,
    Peer::Fails,
    Peer::Dead,
    Peer::Dead,
    Peer::Serves(b"abc"),
    Peer::Dead,
];

/// How the links to the first of them end if the metadata is there before five seconds have passed: one that failed comes again.
const DEAD_ENDINGS: [Option<Ending>; 5] = [
    Some(Ending::Left),
    Some(Ending::By(Outcome::Unreachable)),
    Some(Ending::Left),
    Some(Ending::Left),
    Some(Ending::By(Outcome::Fetched)),
];

/// Whether the connections to the first addresses ended so.
fn ends_so(came: &Came, endings: &[Option<Ending>]) -> bool {
    endings
        .iter()
        .zip(came.peers.ended.iter())
        .all(|(expected, ended)| expected == ended)
}

/// An address at which nobody answers takes no place.
#[test]
fn dead_addresses_take_no_place(rt: HostRuntime) {
    for at_once in [1usize, 2, 6] {
        if at_once > 0 && at_once <= 256 {
            let came = fetched(rt.alloc(), &DEAD, None, at_once);
            assert!(rt; is_fetched(&came, 4), "{at_once}: {:?}", came.answer);
            assert!(rt;
                ends_so(&came, &DEAD_ENDINGS),
                "{at_once}: {:?}",
                came.peers.ended
            );
            assert!(rt; came.peers.dialled[4] == 1);
        }
    }
}

/// If nobody answers at any address, each is dialled twice, and ends as unreachable.
#[test]
fn all_are_dead(rt: HostRuntime) {
    let came = fetched(rt.alloc(), &DEAD[..4], None, 1);
    assert!(rt; came.answer == Err(FetchError::NotFetched));
    assert!(rt; came.is_empty && came.peers.inside == 0);
    assert!(rt; came.peers.dialled == [2, 2, 2, 2, 0, 0, 0, 0]);
    let unreachable = Some(Ending::By(Outcome::Unreachable));
    assert!(rt; ends_so(&came, &[unreachable; 4]), "{:?}", came.peers.ended);
}

/// A peer that has the metadata, beside one that says nothing.
const TWO: [Peer; 2] = [Peer::Serves(b"abc"), Peer::Silent];

/// The first call that isn't made; or the call whose failure goes wrong.
fn first_unmade(alloc: Global) -> Result<u64, u64> {
    for call in 1..10_000 {
        let came = fetched(alloc, &TWO, Some(call), 2);
        if !is_fetched(&came, 0) {
            return Err(call);
        }
        if came.peers.dialled[0] == 1 {
            return Ok(call);
        }
    }
    Err(10_000)
}

/// Where a call of a connection fails the peer is asked again, and the metadata comes.
#[test]
fn each_call_fails(rt: HostRuntime) {
    let first = first_unmade(rt.alloc());
    assert!(rt; matches!(first, Ok(call) if call > 20), "{first:?}");
}

fn is_right(came: &Came) -> bool {
    came.peers.inside == 0
        && match came.answer {
            Ok(count) => count == 3 && came.is_abc,
            Err(FetchError::Write) => !came.is_abc,
            Err(_) => came.is_empty,
        }
}

/// Where memory is refused nothing is written, or all of the metadata. `tests/growth.py` refuses it.
#[test]
fn memory_is_refused_or_all_is_fetched(rt: HostRuntime) {
    assert!(rt; is_right(&fetched(rt.alloc(), &STRANGERS, None, 3)));
}

/// Returns how many bytes the first writes of a fetch of 12 blocks had, from a peer that moves all that it can at once.
fn first_writes(alloc: Global) -> Option<[usize; 5]> {
    let mut blocks = Vec::new(alloc);
    blocks.resize(12 * 16_384, 0).ok()?;
    let mut link = Link {
        end: end_for(alloc, Role::Serve(blocks)),
        is_open: Some(true),
        closes: false,
        fails_at: None,
        most: usize::MAX,
        writes: [0; 5],
        written: 0,
        calls: 0,
        ends: 0,
        failed: 0,
        time: 0,
    };
    let mut end = end_for(alloc, Role::Fetch)?;
    let mut hearing = Hearing::new(alloc).ok()?;
    for _news in 0..10 {
        let watch = Watch { since: 0 };
        exchange(&mut link, &mut end, &mut hearing, watch, 60, &mut 64).ok()?;
    }
    Some(link.writes)
}

/// The handshake; the extended handshake and have-none; the requests for 8 blocks. Then 65,536 bytes come, which have 3 blocks and a part
/// of the next one: the requests for 3 more. 65,536 bytes more have 4: the request for the last one.
#[test]
fn requests_go_out_together(rt: HostRuntime) {
    let writes = first_writes(rt.alloc());
    assert!(rt;
        writes == Some([68, 30 + 5, 8 * 31, 31 + 31 + 32, 32]),
        "{writes:?}"
    );
}
