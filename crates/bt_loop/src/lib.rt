//! The command `loop`: two ends over a connection of the process to itself. Connections to others aren't made here.
#![tactic(auto)]

mod both;
mod ends;
pub mod laws;
mod looped;
mod mem_wire;
mod tcp;
mod wire;

pub use both::{Halt, Handled, run_both};
pub use looped::{LoopEnd, ROUNDS, run_loop, status};
pub use mem_wire::MemWire;
pub use tcp::{TcpWire, open_tcp};
pub use wire::{Wire, WireFault};
