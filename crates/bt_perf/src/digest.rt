//! A digest of results, and how many messages they are of. It is cheap, and no hash for a secret.

/// What a workload did: its messages, and a digest of all that came out.
#[derive(Clone, Copy)]
pub struct Digest {
    pub messages: u64,
    /// Whether all bytes of blocks and of dictionaries are added. Once is enough, and each time would cost more than to read them.
    pub is_whole: bool,
    state: u64,
}

impl Digest {
    /// Makes the digest of nothing.
    pub fn new() -> Digest {
        Digest {
            messages: 0,
            is_whole: true,
            state: 0,
        }
    }

    /// Adds a number.
    #[inline(always)]
    pub fn add(&mut self, n: u64) {
        let mixed = (self.state ^ n).wrapping_mul(0x9E37_79B9_7F4A_7C15);
        self.state = mixed.rotate_left(29);
    }

    /// Adds bytes.
    pub fn add_bytes(&mut self, bytes: &[u8]) {
        for chunk in bytes.chunks(8) {
            match chunk {
                [a, b, c, d, e, f, g, h] => {
                    self.add(u64::from_le_bytes([*a, *b, *c, *d, *e, *f, *g, *h]));
                }
                _ => self.add_each(chunk),
            }
        }
        self.add(bytes.len() as u64);
    }

    /// Adds bytes one by one.
    fn add_each(&mut self, bytes: &[u8]) {
        for byte in bytes {
            self.add(u64::from(*byte));
        }
    }

    /// Counts messages.
    pub fn count(&mut self, messages: u64) {
        self.messages = self.messages.saturating_add(messages);
    }

    /// Returns the digest as bytes.
    pub fn bytes(&self) -> [u8; 8] {
        self.state.to_be_bytes()
    }
}
