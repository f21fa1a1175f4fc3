//! A walk over the items of a capture file, in the bytes that were read.
ghost use Rattle.std.specs.Prelude.{◌≡◌, ℕ, ◌+◌, ◌^◌, ◌<◌, ◌≤◌, ◌⊎◌, [], length, Err};
ghost use Rattle.bt_capture.specs.Walks.{walk_state, moved_on, Steps, IsPassed, IfPassed};
ghost use Rattle.bt_capture.specs.Readings.{shown, Hands, Repeats, nothing_read};

use bt_pcap::{CaptureFile, FileFault, Packet, Step};

/// What is known of a file, and how far its bytes were looked at.
#[derive(Drop)]
pub struct Walk {
    pub file: CaptureFile,
    /// How many bytes at the front were looked at.
    pub at: usize,
    /// How many bytes of the last item are still to be passed over.
    pub skip: u64,
    /// How many packets were handed out.
    pub packets: u64,
}

/// What stands next in the bytes.
enum Found<'b> {
    Packet(Packet<'b>),
    /// An item without a packet.
    Passed,
    /// The front of an item, or nothing.
    More,
}

impl Walk {
    /// Starts before a file's first byte.
    pub fn new() -> Walk
        ensures state { walk_state result [] 0 ≡ nothing_read }
        ensures at { result.at ≡ 0 }
    {
        Walk {
            file: CaptureFile::new(),
            at: 0,
            skip: 0,
            packets: 0,
        }
    }

    /// Passes over bytes of the last item, as far as they have come.
    fn pass(&mut self, len: usize)
        requires { self.old.at ≤ len }
        ensures { IsPassed len self.old self.new }
    {
        let n = self.skip.min((len - self.at) as u64);
        self.at += n as usize;
        self.skip -= n;
    }

    /// Moves on after an item.
    fn go_on(&mut self, used: usize, skip: u64, is_packet: bool)
        requires { self.old.at + used < 2 ^ 64 }
        ensures { self.new ≡ moved_on self.old used skip is_packet }
    {
        self.at += used;
        self.skip = skip;
        if is_packet {
            self.packets = self.packets.saturating_add(1);
        }
    }

    /// Looks at the next item.
    fn step<'b>(&mut self, bytes: &'b [u8]) -> Result<Found<'b>, FileFault>
        requires { self.old.at ≤ length bytes.now }
        ensures within { self.new.at ≤ length bytes.now }
        ensures steps { (total : ℕ) → Steps (walk_state self.old bytes.now total) result (walk_state self.new bytes.now total) }
        ensures moves { IfPassed result (self.old.at < self.new.at) }
        ensures again { (total : ℕ) → Repeats (walk_state self.old bytes.now total) result (walk_state self.new bytes.now total) }
    {
        self.pass(bytes.len());
        if self.skip > 0 {
            return Ok(Found::More);
        }
        match self.file.step(&bytes[self.at..]) {
            Ok(Step::Packet { packet, used, skip }) => {
                self.go_on(used, skip, true);
                Ok(Found::Packet(packet))
            }
            Ok(Step::Passed { used, skip }) => {
                self.go_on(used, skip, false);
                Ok(Found::Passed)
            }
            Ok(Step::More) => Ok(Found::More),
            Err(fault) => Err(fault),
        }
    }

    /// Hands out the next packet, if all of it that is kept is among the bytes.
    ///
    /// # Errors
    /// `FileFault` if the bytes can't begin an item. It is told again from then on.
    pub fn give<'b>(&mut self, bytes: &'b [u8]) -> Result<Option<Packet<'b>>, FileFault>
        requires { self.old.at ≤ length bytes.now }
        ensures within { self.new.at ≤ length bytes.now }
        ensures hands { (total : ℕ) → Hands (walk_state self.old bytes.now total) (shown result) (walk_state self.new bytes.now total) }
        ensures again { (total : ℕ) → Repeats (walk_state self.old bytes.now total) result (walk_state self.new bytes.now total) }
    {
        'items: loop {
            match self.step(bytes) {
                Ok(Found::Packet(packet)) => return Ok(Some(packet)),
                Ok(Found::Passed) => {}
                Ok(Found::More) => return Ok(None),
                Err(fault) => return Err(fault),
            }
        }
    }
}
