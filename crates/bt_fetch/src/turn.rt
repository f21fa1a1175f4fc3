//! What became of a place, or of all places, at its turn.

/// What became of a place, or of a slot, at its turn.
#[derive(Clone, Copy)]
pub enum Turn {
    /// It has no connection, and no address waits.
    Free,
    /// Its connection waits for its peer.
    Waits,
    /// It can go on at once, or was dialled for.
    GoesOn,
    /// Its connection ended.
    Ended,
    /// Its end has the metadata.
    Won,
}

/// What became of all places.
#[derive(Clone, Copy)]
pub enum Round {
    /// No connection is open, and no address waits.
    Over,
    /// All wait for their peers.
    Waits,
    /// Some can go on at once.
    GoesOn,
    /// The end at the place of this number has the metadata.
    Won(usize),
}
