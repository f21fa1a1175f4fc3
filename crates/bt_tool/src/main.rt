//! Reads the stream that a BitTorrent peer sends, or a script of one: the program, which gives `bt_cli` its words and devices.
#![tactic(auto)]

mod piped;
mod program;
mod sources;
mod standard;

use bt_cli::options::{NO_TEXT, asked};
use bt_text::ended::ToolFault;
use program::Program;
use sources::SOURCES;
use standard::stand_in;
use std::cell::Cell;
use std::io::IsTerminal;
use std::process::ExitCode;
use std::rt::Env;
use std::{env, io};

/// Returns the words after the program's name.
fn words<R: Env + AllocGlobal>(rt: &R) -> io::Result<Vec<String>> {
    let mut words = Vec::new(rt.alloc());
    for word in env::args(rt)?.skip(1) {
        words.push(word)?;
    }
    Ok(words)
}

fn main(rt: HostRuntime) -> ExitCode {
    // No file or socket that is opened later gets the number of a standard stream.
    let _standing = stand_in(&rt);
    let stderr = rt.stderr();
    let is_gone = Cell::new(false);
    let is_terminal = rt.stdin().is_terminal();
    let is_watched = stderr.is_terminal();
    let mut program = Program::new(
        &rt,
        io::writer(&rt),
        io::writer(&stderr),
        &is_gone,
        is_terminal,
        is_watched,
    );
    let status = match words(&rt) {
        Ok(words) => match asked(rt.alloc(), &words, SOURCES) {
            Ok(asked) => program.answer(&asked),
            Err(_) => program.fail(ToolFault::Memory),
        },
        Err(error) if error.kind() == io::ErrorKind::OutOfMemory => program.fail(ToolFault::Memory),
        Err(_) => program.refuse(NO_TEXT),
    };
    ExitCode::from(status)
}
