//! Does the work that users wait for, on inputs that it makes of a seed: `bench/run` times it in two checkouts.
#![tactic(auto)]

mod client;
mod commands;
mod dicts;
mod digest;
mod draft;
mod draw;
mod ends;
mod messages;
mod odd;
mod peers;
mod receivers;
mod results;
mod stopped;
mod streams;
mod workloads;

use crate::stopped::Stopped;
use crate::workloads::{WORKLOADS, Workload, work};
use std::alloc::Global;
use std::process::ExitCode;
use std::rt::Env;
use std::{env, io};

/// How the program is called.
const USAGE: &str = "\
usage: bt_perf show|json|script|client|dicts|ends|odd SEED ROUNDS
       bt_perf count SEED

The first does so many rounds of a workload on inputs of the seed, and prints how many messages that were and a digest of all
results. The second does one round of each, and prints how many messages that were.
";

/// The words after the program's name.
fn words<R: Env + AllocGlobal>(rt: &R) -> io::Result<Vec<String>> {
    let mut words = Vec::new(rt.alloc());
    for word in env::args(rt)?.skip(1) {
        words.push(word)?;
    }
    Ok(words)
}

/// The number that a word says.
fn number(words: &[String], k: usize) -> Result<u32, Stopped> {
    let Some(word) = words.get(k) else {
        return Err(Stopped::Usage);
    };
    match word.as_str().parse::<u32>() {
        Ok(n) => Ok(n),
        Err(_) => Err(Stopped::Usage),
    }
}

/// The workload of this name.
fn workload(name: &str) -> Result<Workload, Stopped> {
    for (known, workload) in WORKLOADS {
        if known == name {
            return Ok(workload);
        }
    }
    Err(Stopped::Usage)
}

/// The line of a workload.
fn work_line(alloc: Global, workload: Workload, seed: u32, rounds: u32) -> Result<String, Stopped> {
    let digest = work(alloc, workload, seed, rounds)?;
    let messages = digest.messages;
    let digits = hex::encode(alloc, digest.bytes())?;
    Ok(format!(in alloc; "messages={messages} digest={digits}")?)
}

/// The line of how many messages a round of each workload has.
fn count_line(alloc: Global, seed: u32) -> Result<String, Stopped> {
    let mut line = String::new(alloc);
    let mut space = "";
    for (name, workload) in WORKLOADS {
        let digest = work(alloc, workload, seed, 1)?;
        let messages = digest.messages;
        let part = format!(in alloc; "{space}{name}={messages}")?;
        line.push_str(part.as_str())?;
        space = " ";
    }
    Ok(line)
}

/// The line that the program prints, called with these words.
fn line(alloc: Global, words: &[String]) -> Result<String, Stopped> {
    let Some(name) = words.first() else {
        return Err(Stopped::Usage);
    };
    let seed = number(words, 1)?;
    if name.as_str() == "count" {
        return count_line(alloc, seed);
    }
    let workload = workload(name.as_str())?;
    work_line(alloc, workload, seed, number(words, 2)?)
}

/// Does what the words ask for, and prints its line.
fn run(rt: &HostRuntime, words: &[String]) -> ExitCode {
    match line(rt.alloc(), words) {
        Ok(line) if println!(rt; "{line}").is_ok() => ExitCode::SUCCESS,
        Ok(_) => ExitCode::from(3),
        Err(Stopped::Usage) => {
            let _ = eprint!(rt; "{USAGE}");
            ExitCode::from(2)
        }
        Err(stopped) => {
            let _ = eprintln!(rt; "fault: {stopped}");
            ExitCode::from(3)
        }
    }
}

fn main(rt: HostRuntime) -> ExitCode {
    match words(&rt) {
        Ok(words) => run(&rt, &words),
        Err(_) => run(&rt, &[]),
    }
}
