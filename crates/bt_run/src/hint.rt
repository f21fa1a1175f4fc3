//! What the first bytes of a refused stream say: another kind of file, a handshake further on, a gap that was filled with zeros.
mod finding;
mod kept;
mod kind;
mod line;
mod places;

pub use finding::{Hint, hint_of};
pub use kept::{Kept, WINDOW};
pub use kind::{Kind, kind_of};
pub use line::hint_line;
pub use places::{find_handshake, find_keep_alives};
