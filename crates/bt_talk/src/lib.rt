//! One captured connection: the streams of both sides, and the verdicts of each by the receiver that the other side announces.
//!
//! Capture files, the table of connections and their text don't belong here.
#![tactic(auto)]

mod closing;
mod course;
mod direction;
mod ends;
mod inside;
mod notes;
mod refused;
mod replay;
mod room;
mod rows;
mod sides;
mod stage;
mod summary;
mod talk;
mod terms;
mod unanswered;
mod watch;

pub use bt_remarks::Side;
pub use closing::{Closed, When};
pub use ends::Ends;
pub use refused::Judgement;
pub use room::Room;
pub use rows::Showing;
pub use talk::Talk;
pub use terms::{Terms, Torrent};
