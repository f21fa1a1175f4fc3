//! Tests of `bt_text`, `bt_json`, `bt_jobs`, `bt_judge`, `bt_session`, `bt_fetch`, `bt_gather`, `bt_serve` and `bt_loop` that no run of the program can make,
//! in a crate of their own, so that no code is proved twice for them.
//!
//! All else that the commands do is shown by runs of the program: `tests/statuses.py`, `tests/peers.py`, `tests/faults.py`.
#![tactic(auto)]

#[cfg(test)]
mod gathers;
#[cfg(test)]
mod guests;
#[cfg(test)]
mod intros;
#[cfg(test)]
mod judged;
#[cfg(test)]
mod laws;
#[cfg(test)]
mod lines;
#[cfg(test)]
mod loops;
#[cfg(test)]
mod objects;
#[cfg(test)]
mod runs;
#[cfg(test)]
mod swarms;
#[cfg(test)]
mod waits;
