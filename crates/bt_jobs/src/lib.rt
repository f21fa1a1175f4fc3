//! The commands `show`, `check`, `unpack` and `pack`, over any source and target. Files and options don't belong here.
//!
//! [`printer::Printer`] makes the lines of items, and [`output::write_out`] writes all of some bytes.
#![tactic(auto)]

mod check;
mod judge;
mod other;
pub mod output;
mod pack;
mod pack_hints;
pub mod pack_laws;
pub mod printer;
mod show;

pub use check::{run_check, run_check_after};
pub use other::{Announced, OtherError, read_other};
pub use pack::run_pack;
pub use pack_hints::pack_hint;
pub use show::{run_json, run_show, run_unpack};
