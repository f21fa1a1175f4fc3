//! A command on a stream: the receiver that its options describe, the command itself on any source and target, and its end.
//!
//! Parsing of arguments and opening of files don't belong here.
#![tactic(auto)]

pub mod commands;
pub mod ending;
pub mod hint;
pub mod hints;
pub mod notice;
pub mod other;
pub mod run;
pub mod values;
