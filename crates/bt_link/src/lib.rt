//! The command `link`: two linked ends, run by a script. Running without a script is in `bt_session`.
#![tactic(auto)]

mod entry;
mod items;
mod message;
mod report;
mod run;
mod script;
pub mod text;

pub use entry::{Entry, Setting};
pub use run::{MAX_SCRIPT, RigEnd, run_rig, status};
pub use script::Script;
