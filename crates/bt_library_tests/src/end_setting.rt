//! Ends of the tests, each over a heap of its own, and steps of theirs.
use bt_end::{Announce, Config, End, EndError, Role, SayError, Turn, TurnError, Window};
use bt_ext::{Ext, ExtId, Registered, Rules};
use bt_feed::MemTarget;
use bt_wire::{Message, Own, Reserved};
use linked_list_allocator::LocalHeap;
use std::alloc::{AllocError, Global};

/// The SHA-1 of `abc` (FIPS 180-4).
const ABC: [u8; 20] = [
    0xa9, 0x99, 0x3e, 0x36, 0x47, 0x06, 0x81, 0x6a, 0xba, 0x3e, 0x25, 0x71, 0x78, 0x50, 0xc2, 0x6c,
    0x9c, 0xd0, 0xd8, 0x9d,
];

/// What a peer says first: the handshake of BEP 3, with the bits of both extensions.
pub(crate) const HAND: &[u8] = b"\x13BitTorrent protocol\0\0\0\0\0\x10\0\x05\
\xa9\x99\x3e\x36\x47\x06\x81\x6a\xba\x3e\x25\x71\x78\x50\xc2\x6c\x9c\xd0\xd8\x9d-XX0001-000000000000";

/// What an end is for. It wants metadata messages under the id 3, or 9 where it fetches.
#[derive(Clone, Copy)]
pub(crate) enum Who {
    Watching,
    /// It watches, registers `lt_donthave` under the id 4 too, and knows the piece count, 10.
    OfTen,
    /// It serves `abc`.
    ServingAbc,
    /// It serves 16,384 bytes, all 7.
    ServingSevens,
    /// It serves no bytes.
    ServingNone,
    /// It serves no bytes, and has no info hash.
    Unhashed,
    /// It asks for this many blocks at once.
    Fetching(u8),
}

fn own_of(who: Who, rules: Rules, limit: u32) -> Own {
    let (id, pieces) = match who {
        Who::Fetching(_) => (9, None),
        Who::OfTen => (3, Some(10)),
        _ => (3, None),
    };
    let reg = match who {
        Who::OfTen => Registered::new(ExtId::new(id), ExtId::new(4)),
        _ => Registered::new(ExtId::new(id), None),
    };
    Own {
        reserved: Reserved(0x10_0005),
        info_hash: match who {
            Who::Unhashed => None,
            _ => Some(ABC),
        },
        pieces,
        reg: reg.unwrap_or(Registered::metadata_only(None)),
        rules,
        limit,
    }
}

fn role_of<'a>(heap: &'a LocalHeap, who: Who) -> Result<Role<&'a LocalHeap>, AllocError> {
    match who {
        Who::Watching | Who::OfTen => Ok(Role::Watch),
        Who::ServingAbc => Ok(Role::Serve(b"abc".to_vec(heap)?)),
        Who::ServingSevens => Ok(Role::Serve(vec![in heap; 7; 16_384]?)),
        Who::ServingNone | Who::Unhashed => Ok(Role::Serve(Vec::new(heap))),
        Who::Fetching(_) => Ok(Role::Fetch),
    }
}

pub(crate) fn made<'a>(
    heap: &'a LocalHeap,
    who: Who,
    rules: Rules,
    limit: u32,
) -> Result<End<&'a LocalHeap>, EndError> {
    let Ok(role) = role_of(heap, who) else {
        return Err(EndError::Memory);
    };
    let (peer_id, window) = match who {
        Who::Fetching(blocks) => (*b"-BT0001-RRRRRRRRRRRR", Window::new(blocks)),
        _ => (*b"-BT0001-LLLLLLLLLLLL", None),
    };
    let config = Config {
        own: own_of(who, rules, limit),
        peer_id,
        announce: Announce::Silent,
        window: window.unwrap_or_default(),
        role,
    };
    End::new(heap, config)
}

/// A message that is said.
#[derive(Clone, Copy)]
pub(crate) enum Saying {
    KeepAlive,
    Unchoke,
    Have(u32),
    HaveNone,
    DontHave(u32),
}

/// A call of an end, and what it answers.
pub(crate) enum Step {
    /// It takes these bytes, an item, and handles it.
    Handles(&'static [u8]),
    /// It does so, this many times.
    Repeats(usize, &'static [u8]),
    /// It takes this many of the bytes.
    Takes(&'static [u8], usize),
    /// It takes 16,384 bytes, all 7, which end an item, and handles it.
    HandlesSevens,
    Turns(Result<Turn, TurnError>),
    Says(Saying, Result<(), SayError>),
    /// It says keep-alives until memory is refused.
    RunsOut,
    /// Memory is refused for a message, and all is as before.
    Refuses,
    /// This many bytes are to be sent.
    Waits(usize),
    /// Just these bytes stand at this place and after it, of those that are to be sent.
    Sends(usize, &'static [u8]),
    /// The bytes that are to be sent end with these.
    EndsWith(&'static [u8]),
    /// This many bytes are written.
    Drains(usize),
    /// This many bytes were sent.
    Sent(usize),
    /// This metadata was fetched.
    Has(Option<&'static [u8]>),
    Resets,
    /// What is left of its heap is taken.
    Fills,
    /// Nothing is left of it.
    IsFull,
    /// What was taken is given back.
    Frees,
}

/// What is shown, the bytes of the heap, an end, its rules and its limit, and its steps.
pub(crate) type Row = (&'static str, usize, Who, Rules, u32, &'static [Step]);

/// The heap of an end, and what is taken of it.
#[derive(Drop)]
pub(crate) struct Heap<'a> {
    /// The allocator of the test.
    alloc: Global,
    own: &'a LocalHeap,
    taken: Vec<Vec<u8, &'a LocalHeap>>,
    /// How many calls met a refused request for memory: `new`, `turn`, `reset`.
    pub(crate) refused: [u32; 3],
}

impl<'a> Heap<'a> {
    /// A heap of which `ballast` bytes are taken.
    pub(crate) fn new(
        alloc: Global,
        own: &'a LocalHeap,
        ballast: usize,
    ) -> Result<Heap<'a>, AllocError> {
        let mut heap = Heap {
            alloc,
            own,
            taken: Vec::new(alloc),
            refused: [0; 3],
        };
        heap.taken.push(Vec::with_capacity(own, ballast)?)?;
        Ok(heap)
    }

    /// Takes what is left.
    fn fill(&mut self) -> Result<(), AllocError> {
        for size in [4_096usize, 256, 16] {
            for _ in 0..64 {
                let Ok(part) = Vec::with_capacity(self.own, size) else {
                    break;
                };
                self.taken.push(part)?;
            }
        }
        Ok(())
    }

    /// Whether even a request for one byte is refused.
    fn is_full(&self) -> bool {
        Vec::<u8, &LocalHeap>::with_capacity(self.own, 1).is_err()
    }

    /// Counts a refused call, and gives back what was taken.
    fn give_back(&mut self, call: usize) {
        if let Some(count) = self.refused.get_mut(call) {
            *count = count.saturating_add(1);
        }
        self.taken.clear();
    }
}

/// The SHA-1 of what is to be sent, and whether metadata was fetched.
fn seen(end: &End<&LocalHeap>) -> ([u8; 20], bool) {
    (sha1::Sha1::digest(end.outgoing()), end.metadata().is_some())
}

/// Whether a turn answers so. Where memory is refused, all has to be as before, and the same call to succeed once what was taken
/// is given back.
fn turns(heap: &mut Heap, end: &mut End<&LocalHeap>, answer: Result<Turn, TurnError>) -> bool {
    let before = seen(end);
    let first = end.turn();
    if first != Err(TurnError::Memory) {
        return first == answer;
    }
    let is_same = seen(end) == before;
    heap.give_back(1);
    is_same && end.turn() == answer
}

/// As `turns`, for a new connection.
fn resets(heap: &mut Heap, end: &mut End<&LocalHeap>) -> bool {
    let before = seen(end);
    if end.reset().is_ok() {
        return true;
    }
    let is_same = seen(end) == before;
    heap.give_back(2);
    is_same && end.reset().is_ok()
}

/// Takes these bytes, an item, and handles it.
fn handles(heap: &mut Heap, end: &mut End<&LocalHeap>, bytes: &[u8]) -> bool {
    end.receive(bytes) == bytes.len() && turns(heap, end, Ok(Turn::Handled))
}

fn repeats(heap: &mut Heap, end: &mut End<&LocalHeap>, times: usize, bytes: &[u8]) -> bool {
    for _ in 0..times {
        if !handles(heap, end, bytes) {
            return false;
        }
    }
    true
}

/// Takes 16,384 bytes, all 7.
fn takes_sevens(end: &mut End<&LocalHeap>) -> bool {
    for _ in 0..1_024 {
        if end.receive(&[7; 16]) != 16 {
            return false;
        }
    }
    true
}

fn said(end: &mut End<&LocalHeap>, saying: Saying) -> Result<(), SayError> {
    let message = match saying {
        Saying::KeepAlive => Message::KeepAlive,
        Saying::Unchoke => Message::Unchoke,
        Saying::Have(index) => Message::Have(index),
        Saying::HaveNone => Message::HaveNone,
        Saying::DontHave(index) => Message::Extended(Ext::DontHave(index)),
    };
    end.say(&message)
}

/// Says keep-alives until one is refused, or 100,000 times, and says whether memory was refused.
fn runs_out(end: &mut End<&LocalHeap>) -> bool {
    for _ in 0..100_000 {
        match said(end, Saying::KeepAlive) {
            Ok(()) => {}
            Err(error) => return error == SayError::Memory,
        }
    }
    false
}

/// Whether memory is refused for a message, and all is as before.
fn refuses(end: &mut End<&LocalHeap>) -> bool {
    let before = seen(end);
    said(end, Saying::Unchoke) == Err(SayError::Memory) && seen(end) == before
}

/// Whether a writer takes just `count` bytes of those that are to be sent.
fn drains(alloc: Global, end: &mut End<&LocalHeap>, count: usize) -> bool {
    let mut writer = MemTarget::new(Vec::new(alloc), 4_096, None);
    end.drain(&mut writer, count) == Ok(count)
}

/// Notes that `count` bytes were sent.
fn sends(end: &mut End<&LocalHeap>, count: usize) -> bool {
    let is_there = count <= end.outgoing().len();
    if is_there {
        end.sent(count);
    }
    is_there
}

/// A step that says, sends or looks.
fn shows(alloc: Global, end: &mut End<&LocalHeap>, step: &Step) -> bool {
    match step {
        Step::Takes(bytes, count) => end.receive(bytes) == *count,
        Step::Says(saying, answer) => said(end, *saying) == *answer,
        Step::RunsOut => runs_out(end),
        Step::Refuses => refuses(end),
        Step::Waits(count) => end.outgoing().len() == *count,
        Step::Sends(at, bytes) => end.outgoing().get(*at..) == Some(*bytes),
        Step::EndsWith(bytes) => end.outgoing().ends_with(bytes),
        Step::Drains(count) => drains(alloc, end, *count),
        Step::Sent(count) => sends(end, *count),
        Step::Has(metadata) => end.metadata() == *metadata,
        _ => false,
    }
}

fn goes(heap: &mut Heap, end: &mut End<&LocalHeap>, step: &Step) -> bool {
    match step {
        Step::Handles(bytes) => handles(heap, end, bytes),
        Step::Repeats(times, bytes) => repeats(heap, end, *times, bytes),
        Step::HandlesSevens => takes_sevens(end) && turns(heap, end, Ok(Turn::Handled)),
        Step::Turns(answer) => turns(heap, end, *answer),
        Step::Resets => resets(heap, end),
        Step::Fills => heap.fill().is_ok() && heap.is_full(),
        Step::IsFull => heap.is_full(),
        Step::Frees => {
            heap.taken.clear();
            true
        }
        _ => shows(heap.alloc, end, step),
    }
}

fn first_wrong(heap: &mut Heap, end: &mut End<&LocalHeap>, steps: &[Step]) -> Option<usize> {
    for (number, step) in steps.iter().enumerate() {
        if !goes(heap, end, step) {
            return Some(number);
        }
    }
    None
}

/// Makes an end, and once more with what was taken given back where memory was refused.
fn made_at_last<'a>(
    heap: &mut Heap<'a>,
    (_, _, who, rules, limit, _): &Row,
) -> Result<End<&'a LocalHeap>, EndError> {
    match made(heap.own, *who, *rules, *limit) {
        Err(EndError::Memory) => {
            heap.give_back(0);
            made(heap.own, *who, *rules, *limit)
        }
        answer => answer,
    }
}

/// The number of the first step of the row, counted from 0, that doesn't go so. None is taken where no end is made.
pub(crate) fn wrong_step(heap: &mut Heap, row: &Row) -> Option<usize> {
    match made_at_last(heap, row) {
        Ok(mut end) => first_wrong(heap, &mut end, row.5),
        Err(_) => Some(0),
    }
}
