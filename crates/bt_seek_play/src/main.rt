//! Plays logs to the search for peers: it reads what comes, a line each, and prints what the search sends and finds.
//!
//! | Line | What it does |
//! |---|---|
//! | `begin`, `begin local` | begins a search; the second takes private addresses too |
//! | `tracker IP:PORT`, `node IP:PORT`, `page` | adds a tracker over UDP, a node of the DHT, a tracker over HTTP |
//! | `datagram IP:PORT HEX`, `answer PAGE HEX`, `failed PAGE` | mail that the next turn takes |
//! | `turn MILLISECONDS` | a turn at this time. It prints each question that is sent, and then `going` or `over` |
//! | `end` | ends the search. It prints what is sent at the end, and then each peer |
//!
//! The ids that are drawn for questions are 1, 2, 3 .. It is for tests, which compare the search with a model.
#![tactic(auto)]

mod lines;
mod play;

use crate::play::Play;
use std::io;

fn main(rt: HostRuntime) -> io::Result<()> {
    let alloc = rt.alloc();
    let mut play = Play::new(alloc)?;
    for line in rt.lines(alloc) {
        play.take(line?.as_str())?;
        println!(rt; "{}", play.said())?;
        play.clear();
    }
    Ok(())
}
