//! A search for the peers of a torrent: who is asked first, and a line for each peer as soon as it is found.
//!
//! The search itself is in `bt_seek`, its sockets are in `bt_post`.
#![tactic(auto)]

mod asker;
mod finder;
mod finding;
mod line;
mod place;
mod summary;
mod wanted;

pub use asker::Asker;
pub use finder::Finder;
pub use finding::{FindError, Finding, find};
pub use place::{Place, Places, What};
pub use summary::{Counts, summary_line};
pub use wanted::{Passed, Wanted, places_of, wrong_place};
