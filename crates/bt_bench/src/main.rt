//! Drives ends of connections over memory, to measure them: `bench/run_ends` runs it beside a plain program.
#![tactic(auto)]

mod draft;
mod jobs;
mod many;
mod moving;
mod names;
mod peer;
mod setting;

use crate::jobs::{Fetches, digests, exchange, fetch, hash, serve};
use crate::many::{STATES, State, ends};
use crate::moving::Stopped;
use crate::names::names;
use crate::setting::LIMIT;
use std::alloc::{AllocError, Global};
use std::process::ExitCode;
use std::rt::Env;
use std::{env, io};

/// How the program is called.
const USAGE: &str = "\
usage: bt_bench serve|fetch|pair|hash BLOCKS ROUNDS
       bt_bench digest BLOCKS
       bt_bench ends COUNT [new|open|serving|busy|drained|fetching [LIMIT]]
       bt_bench names BEFORE COUNT ROUNDS
";

/// The words after the program's name.
fn words<R: Env + AllocGlobal>(rt: &R) -> io::Result<Vec<String>> {
    let mut words = Vec::new(rt.alloc());
    for word in env::args(rt)?.skip(1) {
        words.push(word)?;
    }
    Ok(words)
}

/// The number that a word says.
fn number(words: &[String], k: usize) -> Result<u32, Stopped> {
    let Some(word) = words.get(k) else {
        return Err(Stopped::Usage);
    };
    match word.as_str().parse::<u32>() {
        Ok(n) => Ok(n),
        Err(_) => Err(Stopped::Usage),
    }
}

/// The number of blocks that metadata has (at most 64 MiB), 1 to 4,096.
fn blocks(words: &[String]) -> Result<u32, Stopped> {
    let blocks = number(words, 1)?;
    if blocks == 0 || blocks > 4_096 {
        return Err(Stopped::Usage);
    }
    Ok(blocks)
}

/// The state that a word says.
fn state(words: &[String]) -> Result<State, Stopped> {
    let Some(word) = words.get(2) else {
        return Ok(State::Open);
    };
    for (name, state) in STATES {
        if name == word.as_str() {
            return Ok(state);
        }
    }
    Err(Stopped::Usage)
}

/// Returns a line of numbers with their names.
fn line_of(alloc: Global, numbers: &[(&str, u64)]) -> Result<String, AllocError> {
    let mut line = String::new(alloc);
    let mut space = "";
    for (name, n) in numbers {
        let part = format!(in alloc; "{space}{name}={n}")?;
        line.push_str(part.as_str())?;
        space = " ";
    }
    Ok(line)
}

/// The line of a serving end.
fn serve_line(alloc: Global, words: &[String]) -> Result<String, Stopped> {
    let tally = serve(alloc, blocks(words)?, number(words, 2)?)?;
    Ok(line_of(alloc, &[("items", tally.handled), ("bytes", tally.sent)])?)
}

/// The line of fetches.
fn fetches_line(alloc: Global, fetches: Fetches) -> Result<String, Stopped> {
    let Fetches {
        blocks,
        bytes,
        length,
    } = fetches;
    let numbers = [
        ("blocks", blocks),
        ("bytes", bytes),
        ("length", length as u64),
    ];
    Ok(line_of(alloc, &numbers)?)
}

/// The line of what two ends send.
fn digest_line(alloc: Global, words: &[String]) -> Result<String, Stopped> {
    let (left, right) = digests(alloc, blocks(words)?)?;
    let left = hex::encode(alloc, left)?;
    let right = hex::encode(alloc, right)?;
    Ok(format!(in alloc; "left={left} right={right}")?)
}

/// The line of many ends.
fn ends_line(alloc: Global, words: &[String]) -> Result<String, Stopped> {
    let limit = match words.get(3) {
        Some(_) => number(words, 3)?,
        None => LIMIT,
    };
    let ends = ends(alloc, number(words, 1)?, state(words)?, limit)?;
    Ok(line_of(alloc, &[("ends", ends.len() as u64)])?)
}

/// The line of a table of names.
fn names_line(alloc: Global, words: &[String]) -> Result<String, Stopped> {
    let applied = names(
        alloc,
        number(words, 1)?,
        number(words, 2)?,
        number(words, 3)?,
    )?;
    let numbers = [
        ("bytes", applied.bytes as u64),
        ("known", u64::from(applied.known)),
    ];
    Ok(line_of(alloc, &numbers)?)
}

/// The line that the program prints, called with these words.
fn line(alloc: Global, words: &[String]) -> Result<String, Stopped> {
    let Some(name) = words.first() else {
        return Err(Stopped::Usage);
    };
    match name.as_str() {
        "serve" => serve_line(alloc, words),
        "fetch" => { fetches_line(alloc, fetch(alloc, blocks(words)?, number(words, 2)?)?) }
        "pair" => { fetches_line(alloc, exchange(alloc, blocks(words)?, number(words, 2)?)?) }
        "hash" => Ok(hex::encode(alloc, hash(alloc, blocks(words)?, number(words, 2)?)?)?),
        "digest" => digest_line(alloc, words),
        "ends" => ends_line(alloc, words),
        "names" => names_line(alloc, words),
        _ => Err(Stopped::Usage),
    }
}

/// Does what the words ask for, and prints its line.
fn run(rt: &HostRuntime, words: &[String]) -> ExitCode {
    match line(rt.alloc(), words) {
        Ok(line) if println!(rt; "{line}").is_ok() => ExitCode::SUCCESS,
        Ok(_) => ExitCode::from(3),
        Err(Stopped::Usage) => {
            let _ = eprint!(rt; "{USAGE}");
            ExitCode::from(2)
        }
        Err(stopped) => {
            let _ = eprintln!(rt; "fault: {stopped}");
            ExitCode::from(3)
        }
    }
}

fn main(rt: HostRuntime) -> ExitCode {
    match words(&rt) {
        Ok(words) => run(&rt, &words),
        Err(_) => run(&rt, &[]),
    }
}
