//! The waits of serving and fetching: the naps of a loop that can't sleep, over a runtime that notes them, and the sleep of one that can.
//! Which connections `serve` visits.
use crate::guests::{HAND, hospitality, metadata};
use bt_end::Progress;
use bt_exchange::{Connection, Flag, Sleeper};
use bt_fetch::{Device, Dialler, Ending, TcpSwarm, Watcher};
use bt_io::Failed;
use bt_serve::{Door, Farewell, Parting, TcpDoor, listen, serve};
use std::alloc::Global;
use std::cell::Cell;
use std::io;
use std::io::{ErrorKind, Read, Write};
use std::net::{Ipv4Addr, Net, OpenListener, OpenStream, SocketAddr, TcpListener, TcpStream};
use std::os::fd::{AsRawFd, RawFd};
use std::test::Fail;
use std::time::{Clock, Duration};

/// How many naps are noted.
const NOTED: usize = 16;

/// The naps that were taken, in nanoseconds and in order; the others are 0.
#[derive(Drop)]
struct Notes {
    count: Cell<usize>,
    naps: Cell<[u128; NOTED]>,
}

/// A runtime whose clock stands, whose listener answers by a script, and that notes each nap.
#[derive(Drop)]
struct Fake {
    notes: Notes,
}

impl Fake {
    fn new() -> Fake {
        Fake {
            notes: Notes {
                count: Cell::new(0),
                naps: Cell::new([0; NOTED]),
            },
        }
    }

    /// Returns how many naps were taken, and the first of them in microseconds, in order.
    fn naps<const N: usize>(&self) -> (usize, [u128; N]) {
        let naps = self.notes.naps.get();
        let mut first = [0; N];
        for (into, nap) in first.iter_mut().zip(naps.iter()) {
            *into = *nap / 1000;
        }
        (self.notes.count.get(), first)
    }
}

impl Clock for Fake {
    fn monotonic(&self) -> io::Result<Duration> {
        Ok(Duration::from_secs(7))
    }

    fn since_1970(&self) -> io::Result<Duration> {
        Ok(Duration::from_secs(7))
    }

    fn sleep(&self, duration: Duration) {
        let count = self.notes.count.get();
        let mut naps = self.notes.naps.get();
        if let Some(nap) = naps.get_mut(count) {
            *nap = duration.as_nanos();
        }
        self.notes.naps.set(naps);
        self.notes.count.set(count.saturating_add(1));
    }
}

/// A stream over which nothing comes.
#[derive(Drop)]
struct Mute {
    /// Whether it can be made ready.
    is_sound: bool,
}

impl Read for Mute {
    fn read(&mut self, _into: &mut [u8]) -> io::Result<usize> {
        Err(io::Error::from(ErrorKind::WouldBlock))
    }
}

impl Write for Mute {
    fn write(&mut self, _from: &[u8]) -> io::Result<usize> {
        Err(io::Error::from(ErrorKind::WouldBlock))
    }

    fn flush(&mut self) -> io::Result<()> {
        Ok(())
    }
}

impl OpenStream for Mute {
    fn set_nodelay(&self, _nodelay: bool) -> io::Result<()> {
        Ok(())
    }

    fn set_nonblocking(&self, _nonblocking: bool) -> io::Result<()> {
        if self.is_sound {
            return Ok(());
        }
        Err(io::Error::from(ErrorKind::InvalidInput))
    }
}

impl AsRawFd for Mute {
    fn as_raw_fd(&self) -> RawFd {
        -1
    }
}

/// What a call of a listener answers.
#[derive(Clone, Copy)]
enum Answer {
    /// A connection comes.
    Comes,
    /// One comes that can't be made ready.
    Breaks,
    /// The system's error of this number.
    Fails(i32),
}

/// A listener that answers by a script, and after it that nobody waits.
#[derive(Drop)]
struct Scripted {
    script: &'static [Answer],
    at: Cell<usize>,
}

impl OpenListener for Scripted {
    type Stream = Mute;

    fn accept(&self) -> io::Result<(Mute, SocketAddr)> {
        let at = self.at.get();
        self.at.set(at.saturating_add(1));
        let is_sound = match self.script.get(at) {
            Some(Answer::Comes) => true,
            Some(Answer::Breaks) => false,
            Some(Answer::Fails(number)) => return Err(io::Error::from_raw_os_error(*number)),
            None => return Err(io::Error::from(ErrorKind::WouldBlock)),
        };
        Ok((
            Mute { is_sound },
            SocketAddr::from((Ipv4Addr::LOCALHOST, 1)),
        ))
    }
}

impl AsRawFd for Scripted {
    fn as_raw_fd(&self) -> RawFd {
        -1
    }
}

impl Net for Fake {
    type Stream = Mute;

    type Listener = Scripted;

    fn bind(&self, _address: SocketAddr) -> io::Result<Scripted> {
        Err(io::Error::from(ErrorKind::Unsupported))
    }

    fn connect(&self, _address: SocketAddr) -> io::Result<Mute> {
        Err(io::Error::from(ErrorKind::Unsupported))
    }
}

/// Hears nothing.
#[derive(Drop)]
struct Deaf;

impl Farewell for Deaf {
    fn ended(&mut self, _peer: SocketAddr, _parting: Parting) {}
}

impl Watcher for Deaf {
    ghost use Rattle.std.specs.Prelude.{None};

    ghost heard = { λ _. None };

    fn dialled(&mut self, _address: usize, _is_begun: bool) {}

    fn came(&mut self, _address: usize, _progress: Progress, _time: u64) {}

    fn ended(&mut self, _address: usize, _ending: Ending) {}
}

/// Returns a door at a listener with this script.
fn door<'a>(fake: &'a Fake, script: &'static [Answer]) -> TcpDoor<'a, Fake, Deaf> {
    let listener = Scripted {
        script,
        at: Cell::new(0),
    };
    TcpDoor::new(fake, listener, Deaf, 8)
}

/// Returns whether a connection is let in.
fn enters<'a>(door: &mut TcpDoor<'a, Fake, Deaf>) -> bool {
    door.has_place() && door.enter().is_some()
}

const TWO: &[Answer] = &[Answer::Comes, Answer::Comes];

/// `serve` naps 5 ms without a connection; else 20 µs for each, and then twice as long each time, until an item is handled or a round
/// is busy. After a busy round there is no nap.
#[test]
fn serve_naps(rt: HostRuntime) {
    let fake = Fake::new();
    let mut door = door(&fake, TWO);
    door.rest(true);
    assert!(rt; fake.naps() == (1, [5_000]));
    assert!(rt; enters(&mut door));
    door.rest(false);
    assert!(rt; fake.naps() == (1, [5_000]));
    door.rest(true);
    door.rest(true);
    door.rest(true);
    assert!(rt; fake.naps() == (4, [5_000, 20, 40, 80]));
    door.handled();
    door.rest(true);
    door.rest(true);
    assert!(rt; fake.naps() == (6, [5_000, 20, 40, 80, 20, 40]));
    door.rest(false);
    door.rest(true);
    assert!(rt; fake.naps() == (7, [5_000, 20, 40, 80, 20, 40, 20]));
    assert!(rt; enters(&mut door));
    door.handled();
    door.rest(true);
    assert!(rt; fake.naps() == (8, [5_000, 20, 40, 80, 20, 40, 20, 40]));
}

const PROGRESS: Progress = Progress {
    size: 3,
    blocks: 1,
    held: 0,
};

/// Goes through rounds of a fetch, and returns whether a connection was begun.
fn goes_through<R: Net + Clock>(runtime: &R, alloc: Global, addresses: &[SocketAddr]) -> bool {
    let mut swarm = TcpSwarm::new(runtime, alloc, addresses, Deaf, 8);
    swarm.rest();
    let link = swarm.dial(0);
    swarm.look();
    swarm.rest();
    swarm.rest();
    swarm.rest();
    swarm.came(0, PROGRESS);
    swarm.rest();
    swarm.rest();
    link.is_some()
}

/// `fetch` naps as `serve`: short again after a dial and after news. A look, which ends a busy round, is no nap.
#[test]
fn fetch_naps(rt: HostRuntime) {
    let fake = Fake::new();
    let addresses = [SocketAddr::from((Ipv4Addr::LOCALHOST, 9))];
    assert!(rt; goes_through(&fake, rt.alloc(), &addresses));
    assert!(rt; fake.naps() == (6, [5_000, 20, 40, 80, 20, 40]));
}

/// Returns whether a connection was begun to number 0 of a list of none, and to an address that is given.
fn begun<R: Net + Clock>(runtime: &R, alloc: Global, address: SocketAddr) -> [bool; 2] {
    let mut swarm = TcpSwarm::new(runtime, alloc, &[], Deaf, 8);
    let before = swarm.dial(0).is_some();
    [before, swarm.dial_at(0, address).is_some()]
}

/// An address that isn't in the list is dialled by the number that it is given.
#[test]
fn an_address_is_given(rt: HostRuntime) {
    let fake = Fake::new();
    let address = SocketAddr::from((Ipv4Addr::LOCALHOST, 9));
    assert!(rt; begun(&fake, rt.alloc(), address) == [false, true]);
}

/// The system's errors of a listener: too many open files, a connection that was aborted, and out of memory.
const EMFILE: i32 = 24;

const ECONNABORTED: i32 = 103;

const ENOMEM: i32 = 12;

const ARRIVALS: &[Answer] = &[
    Answer::Fails(ECONNABORTED),
    Answer::Breaks,
    Answer::Fails(ECONNABORTED),
    Answer::Comes,
    Answer::Fails(EMFILE),
    Answer::Comes,
    Answer::Fails(ENOMEM),
    Answer::Comes,
];

/// A lost connection doesn't keep back the one that comes next. At the limit of descriptors the look at the listener ends.
#[test]
fn others_enter_after_a_lost_one(rt: HostRuntime) {
    let fake = Fake::new();
    let mut door = door(&fake, ARRIVALS);
    let entered = [
        enters(&mut door),
        enters(&mut door),
        enters(&mut door),
        enters(&mut door),
        enters(&mut door),
        enters(&mut door),
    ];
    assert!(rt; entered == [true, false, true, false, true, false]);
}

/// Lowers a flag, as a call that would have to wait.
fn lower(flag: &Flag) {
    flag.failed(&io::Error::from(ErrorKind::WouldBlock));
}

/// Returns a connection over loopback, both ends of it.
fn pair(rt: &HostRuntime) -> io::Result<(TcpStream, TcpStream)> {
    let listener = TcpListener::bind(rt, SocketAddr::from((Ipv4Addr::LOCALHOST, 0)))?;
    let near = TcpStream::connect(rt, listener.local_addr()?)?;
    Ok((near, listener.accept()?.0))
}

/// Only a call that would have to wait lowers a flag.
#[test]
fn flags_fall(rt: HostRuntime) -> Result<(), Fail> {
    let (near, _far) = pair(&rt)?;
    let Some(sleeper) = Sleeper::new(&rt, rt.alloc(), 1, 50) else {
        panic!(rt; "no sleeper")
    };
    let mut sleeper = sleeper;
    let flag = sleeper.watch(near.as_raw_fd());
    assert!(rt; flag.is_up());
    for kind in [
        ErrorKind::Interrupted,
        ErrorKind::TimedOut,
        ErrorKind::ConnectionReset,
    ] {
        flag.failed(&io::Error::from(kind));
        assert!(rt; flag.is_up());
    }
    lower(&flag);
    assert!(rt; !flag.is_up());
    flag.failed(&io::Error::from(ErrorKind::Interrupted));
    assert!(rt; !flag.is_up());
    Ok(())
}

/// Each socket has a slot of its own, which falls free with its flag. Without one the flag is always up.
#[test]
fn slots_are_given_once(rt: HostRuntime) -> Result<(), Fail> {
    let (near, far) = pair(&rt)?;
    let (third, fourth) = pair(&rt)?;
    let Some(sleeper) = Sleeper::new(&rt, rt.alloc(), 2, 50) else {
        panic!(rt; "no sleeper")
    };
    let mut sleeper = sleeper;
    let one = sleeper.watch(near.as_raw_fd());
    let two = sleeper.watch(far.as_raw_fd());
    lower(&one);
    assert!(rt; (one.is_up(), two.is_up()) == (false, true));
    let none = sleeper.watch(third.as_raw_fd());
    lower(&none);
    assert!(rt; (none.is_up(), two.is_up()) == (true, true));
    drop(one);
    let again = sleeper.watch(fourth.as_raw_fd());
    lower(&again);
    assert!(rt; (again.is_up(), two.is_up()) == (false, true));
    Ok(())
}

/// An event raises the flag of its socket and no other; after the longest sleep all are raised, and after as long without one too.
#[test]
fn events_raise_flags(rt: HostRuntime) -> Result<(), Fail> {
    let (near, mut far) = pair(&rt)?;
    let (third, _fourth) = pair(&rt)?;
    let Some(sleeper) = Sleeper::new(&rt, rt.alloc(), 2, 100) else {
        panic!(rt; "no sleeper")
    };
    let mut sleeper = sleeper;
    let one = sleeper.watch(near.as_raw_fd());
    let two = sleeper.watch(third.as_raw_fd());
    // Both may be written to, which the first sleep reports.
    assert!(rt; sleeper.sleep(true, 0));
    lower(&one);
    lower(&two);
    far.write_all(b"abc")?;
    assert!(rt; sleeper.sleep(true, 0));
    assert!(rt; (one.is_up(), two.is_up()) == (true, false));
    lower(&one);
    assert!(rt; sleeper.sleep(false, 99));
    assert!(rt; (one.is_up(), two.is_up()) == (false, false));
    assert!(rt; sleeper.sleep(false, 100));
    assert!(rt; (one.is_up(), two.is_up()) == (true, true));
    lower(&one);
    lower(&two);
    assert!(rt; sleeper.sleep(true, 100));
    assert!(rt; (one.is_up(), two.is_up()) == (true, true));
    Ok(())
}

/// Returns what is due until the next sleep, three at most; 9 if all are to be visited.
fn due(sleeper: &mut Sleeper) -> [Option<usize>; 3] {
    [sleeper.due(9), sleeper.due(9), sleeper.due(9)]
}

/// While its flag is up, a connection is due once between two sleeps, at the index that was told last.
#[test]
fn raised_ones_are_due(rt: HostRuntime) -> Result<(), Fail> {
    let (near, mut far) = pair(&rt)?;
    let (third, _fourth) = pair(&rt)?;
    let Some(sleeper) = Sleeper::new(&rt, rt.alloc(), 3, 10_000) else {
        panic!(rt; "no sleeper")
    };
    let mut sleeper = sleeper;
    let one = sleeper.watch(near.as_raw_fd());
    let two = sleeper.watch(third.as_raw_fd());
    assert!(rt; due(&mut sleeper) == [None, None, None]);
    sleeper.place(&one, 4);
    sleeper.place(&two, 5);
    assert!(rt; due(&mut sleeper) == [Some(4), Some(5), None]);
    // Both may be written to, which the first sleep reports.
    assert!(rt; sleeper.sleep(true, 0));
    lower(&one);
    assert!(rt; due(&mut sleeper) == [Some(5), None, None]);
    assert!(rt; sleeper.sleep(false, 0));
    assert!(rt; due(&mut sleeper) == [Some(5), None, None]);
    lower(&two);
    assert!(rt; sleeper.sleep(false, 0));
    assert!(rt; due(&mut sleeper) == [None, None, None]);
    far.write_all(b"abc")?;
    assert!(rt; sleeper.sleep(true, 0));
    sleeper.place(&one, 0);
    assert!(rt; due(&mut sleeper) == [Some(0), None, None]);
    lower(&one);
    assert!(rt; sleeper.sleep(false, 10_000));
    assert!(rt; due(&mut sleeper) == [Some(0), Some(5), None]);
    Ok(())
}

/// A slot that was given back isn't due, and its next socket is due once, when it was placed.
#[test]
fn slots_are_due_again(rt: HostRuntime) -> Result<(), Fail> {
    let (near, far) = pair(&rt)?;
    let Some(sleeper) = Sleeper::new(&rt, rt.alloc(), 1, 10_000) else {
        panic!(rt; "no sleeper")
    };
    let mut sleeper = sleeper;
    let one = sleeper.watch(near.as_raw_fd());
    sleeper.place(&one, 0);
    drop(one);
    assert!(rt; sleeper.sleep(false, 20_000));
    let again = sleeper.watch(far.as_raw_fd());
    assert!(rt; due(&mut sleeper) == [None, None, None]);
    sleeper.place(&again, 1);
    assert!(rt; due(&mut sleeper) == [Some(1), None, None]);
    drop(again);
    assert!(rt; sleeper.sleep(false, 20_000));
    assert!(rt; due(&mut sleeper) == [None, None, None]);
    Ok(())
}

/// If a socket isn't watched, all are to be visited.
#[test]
fn all_are_due_if_one_has_no_slot(rt: HostRuntime) -> Result<(), Fail> {
    let (near, far) = pair(&rt)?;
    let Some(sleeper) = Sleeper::new(&rt, rt.alloc(), 1, 10_000) else {
        panic!(rt; "no sleeper")
    };
    let mut sleeper = sleeper;
    let one = sleeper.watch(near.as_raw_fd());
    sleeper.place(&one, 0);
    let two = sleeper.watch(far.as_raw_fd());
    sleeper.place(&two, 1);
    assert!(rt; due(&mut sleeper) == [Some(9), Some(9), Some(9)]);
    Ok(())
}

/// What is due at a door over sockets, when its one connection came, when it found nothing more, and when it can go on again. 9 would be
/// an index of which the door knows nothing.
fn dues(rt: &HostRuntime) -> io::Result<[Option<usize>; 3]> {
    let (listener, address) = listen(rt, SocketAddr::from((Ipv4Addr::LOCALHOST, 0)))?;
    let mut door = TcpDoor::sleeping(rt, rt.alloc(), listener, Deaf, 2);
    let mut far = TcpStream::connect(rt, address)?;
    let mut due = [Some(9); 3];
    if !door.has_place() {
        return Ok(due);
    }
    let Some((link, _)) = door.enter() else {
        return Ok(due);
    };
    let mut link = link;
    door.placed(&link, 1);
    due[0] = door.due(9);
    let _ = link.read(&mut [0; 4]);
    door.rest(false);
    let _ = link.read(&mut [0; 4]);
    door.rest(false);
    due[1] = door.due(9);
    far.write_all(b"abc")?;
    door.rest(true);
    due[2] = door.due(9);
    Ok(due)
}

/// The door over sockets knows which of its connections can go on.
#[test]
fn the_door_knows_who_is_due(rt: HostRuntime) -> Result<(), Fail> {
    let dues = dues(&rt)?;
    assert!(rt; dues == [Some(1), None, Some(1)], "{dues:?}");
    Ok(())
}

/// How many visits and rounds are noted.
const SEEN: usize = 9;

/// How many connections a strict door lets in.
const SEATS: usize = 3;

/// What the connections of a strict door share: which may go on, which were closed by their peers, and which were visited, in order.
#[derive(Drop)]
struct Board {
    is_up: [Cell<bool>; SEATS],
    is_closed: [Cell<bool>; SEATS],
    visits: Cell<[usize; SEEN]>,
    count: Cell<usize>,
}

impl Board {
    fn new() -> Board {
        Board {
            is_up: [Cell::new(false), Cell::new(false), Cell::new(false)],
            is_closed: [Cell::new(false), Cell::new(false), Cell::new(false)],
            visits: Cell::new([SEATS; SEEN]),
            count: Cell::new(0),
        }
    }

    /// Notes a visit.
    fn visited(&self, number: usize) {
        let count = self.count.get();
        let mut visits = self.visits.get();
        if let Some(visit) = visits.get_mut(count) {
            *visit = number;
        }
        self.visits.set(visits);
        self.count.set(count.saturating_add(1));
    }
}

/// Sets the cell of this number.
fn put(cells: &[Cell<bool>; SEATS], number: usize, is: bool) {
    if let Some(cell) = cells.get(number) {
        cell.set(is);
    }
}

/// Returns the cell of this number.
fn is(cells: &[Cell<bool>; SEATS], number: usize) -> bool {
    match cells.get(number) {
        Some(cell) => cell.get(),
        None => false,
    }
}

/// A connection whose peer says so many bytes of a handshake, each by a read of its own, once it was waited for. It notes each visit.
#[derive(Drop)]
struct Seat<'a> {
    number: usize,
    board: &'a Board,
    says: usize,
    said: usize,
    has_waited: bool,
    calls: u64,
    ends: u64,
}

impl<'a> Connection for Seat<'a> {
    ghost use Rattle.std.specs.Prelude.{None, false};

    ghost seen = { λ s. record {
      coming = None;
      gone = None;
      counts = record { calls = s.calls; ends = s.ends; failed = 0; clock = 0 };
    } };

    ghost prompt = { false };

    fn read(&mut self, into: &mut [u8]) -> Result<Option<usize>, Failed> {
        self.calls = self.calls.saturating_add(1);
        if is(&self.board.is_closed, self.number) {
            if !into.is_empty() {
                self.ends = self.ends.saturating_add(1);
            }
            return Ok(Some(0));
        }
        if self.has_waited && self.said < self.says {
            if let (Some(room), Some(byte)) = (into.first_mut(), HAND.get(self.said)) {
                *room = *byte;
                self.said += 1;
                return Ok(Some(1));
            }
        }
        self.has_waited = true;
        put(&self.board.is_up, self.number, false);
        Ok(None)
    }

    fn write(&mut self, _from: &[u8]) -> Result<Option<usize>, Failed> {
        self.calls = self.calls.saturating_add(1);
        Ok(None)
    }

    fn now(&mut self) -> u64 {
        0
    }

    fn may_go_on(&self) -> bool {
        self.board.visited(self.number);
        true
    }
}

/// Lets in three connections, and says of each whether it is due. Which may go on follows from how many rounds were made.
#[derive(Drop)]
struct Strict<'a> {
    board: &'a Board,
    /// The index of each.
    at: [usize; SEATS],
    is_given: [Cell<bool>; SEATS],
    entered: usize,
    inside: usize,
    rounds: u64,
    /// Whether each round was idle.
    idle: [bool; SEEN],
}

impl<'a> Strict<'a> {
    /// Raises a connection, and closes it or not.
    fn raise(&self, number: usize, is_closed: bool) {
        put(&self.board.is_up, number, true);
        put(&self.board.is_closed, number, is_closed);
    }
}

impl<'a> Door for Strict<'a> {
    type Link = Seat<'a>;

    type Name = usize;

    ghost inside = { λ d. d.inside };

    ghost places = { λ d. 3 };

    ghost rounds = { λ d. d.rounds };

    fn has_place(&self) -> bool {
        self.inside < 3
    }

    fn enter(&mut self) -> Option<(Seat<'a>, usize)> {
        let number = self.entered;
        if number >= SEATS {
            return None;
        }
        self.entered += 1;
        self.inside += 1;
        self.raise(number, false);
        let seat = Seat {
            number,
            board: self.board,
            says: if number == 1 { 40 } else { 0 },
            said: 0,
            has_waited: false,
            calls: 0,
            ends: 0,
        };
        Some((seat, number))
    }

    fn placed(&mut self, link: &Seat<'a>, at: usize) {
        if let Some(index) = self.at.get_mut(link.number) {
            *index = at;
        }
    }

    fn due(&mut self, next: usize) -> Option<usize> {
        if self.rounds > 12 {
            return Some(next);
        }
        for number in 0..SEATS {
            if is(&self.board.is_up, number) && !is(&self.is_given, number) {
                put(&self.is_given, number, true);
                return Some(self.at[number]);
            }
        }
        None
    }

    fn rest(&mut self, is_idle: bool) {
        if let Some(noted) = self.idle.get_mut(self.rounds as usize) {
            *noted = is_idle;
        }
        self.rounds = self.rounds.saturating_add(1);
        for given in &self.is_given {
            given.set(false);
        }
        match self.rounds {
            3 => self.raise(1, false),
            5 => self.raise(0, true),
            6 => self.raise(2, false),
            7 => {
                self.raise(1, true);
                self.raise(2, true);
            }
            _ => {}
        }
    }

    fn ended(&mut self, number: usize, _parting: Parting) {
        self.inside -= 1;
        put(&self.board.is_up, number, false);
    }
}

/// What was seen of a service by a strict door: how many visits were made, of whom, and which rounds were idle.
type Seen = (usize, [usize; SEEN], [bool; SEEN]);

/// Serves three connections.
fn seen(alloc: Global) -> Option<Seen> {
    let metadata = metadata(alloc)?;
    let board = Board::new();
    let mut door = Strict {
        board: &board,
        at: [SEATS; SEATS],
        is_given: [Cell::new(false), Cell::new(false), Cell::new(false)],
        entered: 0,
        inside: 0,
        rounds: 0,
        idle: [false; SEEN],
    };
    serve(alloc, &hospitality(), &metadata, Some(3), &mut door).ok()?;
    Some((board.count.get(), board.visits.get(), door.idle))
}

/// Each connection is visited in the round in which it came; the second one twice, since it goes on; the first one, which ends; the third
/// one, which has its index then; and both that are left. Only a round in which nothing came, went on or ended is idle.
const VISITS: Option<Seen> = Some((
    9,
    [0, 1, 2, 1, 1, 0, 2, 1, 2],
    [false, false, false, false, true, false, true, false, false],
));

/// `serve` visits those that are due and no others.
#[test]
fn serve_visits_those_that_are_due(rt: HostRuntime) {
    let seen = seen(rt.alloc());
    assert!(rt; seen == VISITS, "{seen:?}");
}
