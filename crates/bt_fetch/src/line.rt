//! A connection that remembers whether its last call waited.
use bt_exchange::Connection;
use bt_io::Failed;

/// A connection, and what is to be known of its calls.
#[derive(Drop)]
pub struct Line<L: Connection + Drop> {
    pub link: L,
    /// The last read or write could move nothing yet.
    pub waits: bool,
    /// A read or a write has moved bytes.
    pub has_moved: bool,
}

/// Whether a call moved bytes.
fn has_moved(moved: Result<Option<usize>, Failed>) -> bool {
    matches!(moved, Ok(Some(count)) if count > 0)
}

impl<L: Connection + Drop> Connection for Line<L> {
    ghost seen = { λ s. L.seen s.link };

    ghost prompt = { L.prompt };

    fn read(&mut self, into: &mut [u8]) -> Result<Option<usize>, Failed> {
        let got = self.link.read(into);
        self.waits = got == Ok(None);
        self.has_moved = self.has_moved || has_moved(got);
        got
    }

    fn write(&mut self, from: &[u8]) -> Result<Option<usize>, Failed> {
        let taken = self.link.write(from);
        self.waits = taken == Ok(None);
        self.has_moved = self.has_moved || has_moved(taken);
        taken
    }

    fn now(&mut self) -> u64 {
        self.link.now()
    }

    fn may_go_on(&self) -> bool {
        self.link.may_go_on()
    }
}
