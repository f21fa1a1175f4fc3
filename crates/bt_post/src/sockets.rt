//! The sockets by which a search sends and receives.
ghost use Rattle.std.specs.Prelude.{◌≡◌, ◌≤◌, IfSome, length};
ghost use Rattle.bt_seek.specs.Mails.{length_of};

use crate::datagrams::Datagrams;
use crate::exchange::{Exchange, Look};
use bt_exchange::{Connection, Flag, Naps, Polled, Sleeper};
use bt_seek::{Came, Post, Question};
use mio::net::TcpStream;
use std::alloc::{AllocError, Global};
use std::net::{Ipv4Addr, Ipv6Addr, Net, SocketAddr};
use std::os::fd::{AsRawFd, RawFd};
use std::random::RandomSource;
use std::time::Clock;

/// How many sockets are waited for at the same time at most. Others are looked at each time.
const SOCKETS: usize = 64;

/// How many calls of a page's connection are made at a time, at most.
const LOOKS: u64 = 1_048_576;

/// How long the end of a search may take, in milliseconds.
const PARTING: u64 = 500;

/// How often the sockets are looked at then, at most.
const PARTING_LOOKS: u64 = 1024;

/// How long the loop sleeps at most if no socket is ready, in milliseconds.
const LONGEST: u64 = 50;

/// A tracker over HTTP.
#[derive(Drop)]
struct Page<'a, R: Clock> {
    address: SocketAddr,
    exchange: Option<Exchange<Polled<TcpStream, &'a R>>>,
    /// No connection to it could be begun.
    has_failed: bool,
    /// It got the question by which it hears of this peer.
    is_told: bool,
    /// It is being told that this peer has stopped. Its answer isn't awaited.
    is_parting: bool,
}

/// The sockets of a search, whose calls don't wait: one of each family for datagrams, and one for each page that is asked.
#[derive(Drop)]
pub struct Sockets<'a, R: Net + Clock + RandomSource> {
    runtime: &'a R,
    alloc: Global,
    four: Option<Datagrams>,
    six: Option<Datagrams>,
    pages: Vec<Page<'a, R>>,
    /// Whether the next look begins with IPv6, so that a flood over one family doesn't hide the other.
    is_six_first: bool,
    time: u64,
    /// What sleeps until a socket is ready; without it the loop naps.
    sleeper: Option<Sleeper>,
    naps: Naps,
}

/// Returns what a socket has received, if something is there.
fn heard(socket: &Option<Datagrams>, buffer: &mut [u8]) -> Option<Came>
    ensures { IfSome result (λ it. length_of it ≤ length buffer.old) }
{
    let (from, length) = socket.as_ref()?.receive(buffer)?;
    Some(Came::Datagram { from, length })
}

/// Sends a datagram by a socket, if there is one.
fn send_by(socket: &Option<Datagrams>, to: SocketAddr, datagram: &[u8]) {
    if let Some(socket) = socket {
        socket.send(to, datagram);
    }
}

/// Returns the descriptor of a socket, if there is one.
fn descriptor(socket: &Option<Datagrams>) -> Option<RawFd> {
    Some(socket.as_ref()?.descriptor())
}

/// Has a socket watched.
fn watch(socket: &mut Option<Datagrams>, sleeper: &mut Sleeper) {
    if let Some(socket) = socket {
        socket.set_flag(sleeper.watch(socket.descriptor()));
    }
}

/// Gives a socket another flag.
fn set_flag(socket: &mut Option<Datagrams>, flag: Option<Flag>) {
    if let (Some(socket), Some(flag)) = (socket, flag) {
        socket.set_flag(flag);
    }
}

/// Returns a whole answer of a page, which stands at the buffer's front, or that it is too long.
fn put(page: usize, answer: &[u8], buffer: &mut [u8]) -> Came
    ensures { length_of result ≤ length buffer.old }
{
    let length = answer.len();
    match buffer.get_mut(..length) {
        Some(front) => {
            front.copy_from_slice(answer);
            Came::Page { page, length }
        }
        None => Came::Failed { page },
    }
}

/// Moves what can be moved without waiting.
fn look<L: Connection + Drop>(exchange: &mut Exchange<L>) -> Look {
    // (each look that moves something moves a byte at least)
    for _look in 0..LOOKS {
        let look = exchange.look();
        if look != Look::Moved {
            return look;
        }
    }
    Look::Waits
}

/// Sends what can be sent of a question without waiting, and returns whether some of it is left.
fn is_left<L: Connection + Drop>(exchange: &mut Exchange<L>) -> bool {
    for _look in 0..LOOKS {
        if exchange.is_sent() {
            return false;
        }
        match exchange.look() {
            Look::Moved => {}
            Look::Waits => return true,
            Look::Whole | Look::Failed => return false,
        }
    }
    true
}

impl<'a, R: Clock> Page<'a, R> {
    /// Returns what has come of the page's answer, if it is whole or has failed. Nothing is awaited then any more.
    fn heard(&mut self, page: usize, buffer: &mut [u8]) -> Option<Came>
        ensures { IfSome result (λ it. length_of it ≤ length buffer.old) }
    {
        if self.has_failed {
            self.has_failed = false;
            return Some(Came::Failed { page });
        }
        if self.is_parting {
            return None;
        }
        let exchange = self.exchange.as_mut()?;
        let look = look(exchange);
        self.is_told = exchange.is_sent();
        let came = match look {
            Look::Moved | Look::Waits => return None,
            Look::Failed => Came::Failed { page },
            Look::Whole => put(page, exchange.answer(), buffer),
        };
        self.exchange = None;
        Some(came)
    }

    /// Sends what can be sent of the question that says that this peer has stopped, and returns whether some of it is left.
    fn part(&mut self) -> bool {
        let Some(exchange) = self.exchange.as_mut() else {
            return false;
        };
        if self.is_parting && is_left(exchange) {
            return true;
        }
        self.exchange = None;
        false
    }
}

/// Begins a connection whose calls don't wait, also while it isn't there yet.
fn begin<'a, R: Net + Clock>(
    runtime: &'a R,
    alloc: Global,
    sleeper: &mut Option<Sleeper>,
    address: SocketAddr,
    question: &[u8],
) -> Option<Exchange<Polled<TcpStream, &'a R>>> {
    let stream = TcpStream::connect(runtime, address).ok()?;
    let flag = match sleeper {
        Some(sleeper) => sleeper.watch(stream.as_raw_fd()),
        None => Flag::always(),
    };
    Exchange::new(alloc, Polled::new(stream, runtime, flag), question).ok()
}

impl<'a, R: Net + Clock + RandomSource> Sockets<'a, R> {
    /// Returns the sockets. If the system gives none for a family, what is sent to it is lost.
    pub fn new(runtime: &'a R, alloc: Global) -> Sockets<'a, R> {
        let four = SocketAddr::from((Ipv4Addr::UNSPECIFIED, 0));
        let six = SocketAddr::from((Ipv6Addr::UNSPECIFIED, 0));
        Sockets {
            runtime,
            alloc,
            four: Datagrams::open(runtime, four),
            six: Datagrams::open(runtime, six),
            pages: Vec::new(alloc),
            is_six_first: false,
            time: 0,
            sleeper: None,
            naps: Naps::new(),
        }
    }

    /// Returns the sockets. [`Sockets::rest`] sleeps until one of them may be ready.
    ///
    /// If the system has no descriptor for that, or when out of memory, it naps as that of [`Sockets::new`].
    pub fn sleeping(runtime: &'a R, alloc: Global) -> Sockets<'a, R> {
        let mut sockets = Sockets::new(runtime, alloc);
        if let Some(mut sleeper) = Sleeper::new(runtime, alloc, SOCKETS, LONGEST) {
            watch(&mut sockets.four, &mut sleeper);
            watch(&mut sockets.six, &mut sleeper);
            sockets.sleeper = Some(sleeper);
        }
        sockets
    }

    /// Adds the address of the next page. The first one has number 0.
    ///
    /// # Errors
    /// `AllocError` when out of memory.
    pub fn add_page(&mut self, address: SocketAddr) -> Result<(), AllocError> {
        self.pages.push(Page {
            address,
            exchange: None,
            has_failed: false,
            is_told: false,
            is_parting: false,
        })?;
        Ok(())
    }

    /// Returns the descriptors of the sockets for datagrams, for who waits for these beside other sockets.
    pub fn descriptors(&self) -> [Option<RawFd>; 2] {
        [descriptor(&self.four), descriptor(&self.six)]
    }

    /// Hears by which flags others tell that the sockets of [`Sockets::descriptors`] may be ready.
    pub fn watched(&mut self, flags: [Option<Flag>; 2]) {
        let [four, six] = flags;
        set_flag(&mut self.four, four);
        set_flag(&mut self.six, six);
    }

    /// Waits until something may have come, for 50 milliseconds at most.
    pub fn rest(&mut self) {
        if let Some(sleeper) = &mut self.sleeper {
            if sleeper.sleep(true, self.time) {
                return;
            }
        }
        self.naps.take(self.runtime, 0);
    }

    /// Moves the last questions of all pages, and returns whether one isn't sent yet.
    fn are_left(&mut self) -> bool {
        let mut are_left = false;
        for page in &mut self.pages {
            if page.part() {
                are_left = true;
            }
        }
        are_left
    }

    /// Sends what is left of the questions that say that this peer has stopped. It takes half a second at most.
    pub fn part(&mut self) {
        let begun = self.time();
        for _look in 0..PARTING_LOOKS {
            if !self.are_left() || self.time().saturating_sub(begun) >= PARTING {
                return;
            }
            self.rest();
        }
    }

    /// Returns what a socket for datagrams has received, if something is there.
    fn heard(&mut self, buffer: &mut [u8]) -> Option<Came>
        ensures { IfSome result (λ it. length_of it ≤ length buffer.old) }
    {
        self.is_six_first = !self.is_six_first;
        if self.is_six_first {
            return heard(&self.six, buffer).or_else(|| heard(&self.four, buffer));
        }
        heard(&self.four, buffer).or_else(|| heard(&self.six, buffer))
    }

    /// Returns what has come of a page, if its answer is whole or has failed.
    fn heard_of_page(&mut self, buffer: &mut [u8]) -> Option<Came>
        ensures { IfSome result (λ it. length_of it ≤ length buffer.old) }
    {
        for (number, page) in self.pages.iter_mut().enumerate() {
            if let Some(came) = page.heard(number, buffer) {
                return Some(came);
            }
        }
        None
    }
}

impl<'a, R: Net + Clock + RandomSource> Post for Sockets<'a, R> {
    ghost use Rattle.std.specs.Prelude.{None};

    // Of sockets nothing is known: the system has what they send and receive.
    ghost log = { λ _. None };

    fn send(&mut self, to: SocketAddr, _question: Question, datagram: &[u8]) {
        match to {
            SocketAddr::V4(_) => send_by(&self.four, to, datagram),
            SocketAddr::V6(_) => send_by(&self.six, to, datagram),
        }
    }

    fn ask(&mut self, page: usize, question: &[u8]) {
        if let Some(page) = self.pages.get_mut(page) {
            let (runtime, alloc, address) = (self.runtime, self.alloc, page.address);
            page.exchange = begin(runtime, alloc, &mut self.sleeper, address, question);
            page.has_failed = page.exchange.is_none();
        }
    }

    fn stop(&mut self, page: usize, question: &[u8]) {
        if let Some(page) = self.pages.get_mut(page) {
            page.exchange = None;
            page.is_parting = true;
            if page.is_told {
                let (runtime, alloc, address) = (self.runtime, self.alloc, page.address);
                page.exchange = begin(runtime, alloc, &mut self.sleeper, address, question);
            }
        }
    }

    fn receive(&mut self, buffer: &mut [u8]) -> Option<Came> {
        if let Some(came) = self.heard(buffer) {
            return Some(came);
        }
        self.heard_of_page(buffer)
    }

    fn draw(&mut self) -> [u8; 4] {
        let mut drawn = [0; 4];
        if self.runtime.fill_bytes(&mut drawn).is_err() {
            drawn = [0; 4];
        }
        drawn
    }

    fn time(&mut self) -> u64 {
        if let Ok(time) = self.runtime.monotonic() {
            self.time = u64::try_from(time.as_millis()).unwrap_or(u64::MAX);
        }
        self.time
    }
}
