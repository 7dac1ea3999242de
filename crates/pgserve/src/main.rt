//! A server for tests of drivers: it logs one client in by SCRAM-SHA-256, and answers the statements that a script names. Standard
//! input and output are the connection. docs/PGSERVE.md says how a script is written.
#![tactic(auto)]

mod answer;
mod array_text;
mod asked;
mod binary;
mod bound;
mod called;
mod carried;
mod channels;
mod column;
mod command;
mod connection;
mod copy;
mod cursor;
mod extended;
mod fault;
mod host;
mod idle;
mod input;
mod moment_text;
mod opening;
mod outbox;
mod part;
mod pattern;
mod pause;
mod portals;
mod reader;
mod reading;
mod record;
mod rejection;
mod report;
mod row_text;
mod script;
mod session;
mod setting_name;
mod setting_value;
mod settings;
mod simple;
mod stream;
mod text;
mod transaction;
mod turns;
mod types;
mod user;
mod wording;
mod words;
mod wrong;

use clap::error::ErrorKind;
use fault::Fault;
use host::Host;
use reading::{script_of, unmarked};
use script::Script;
use std::process::ExitCode;
use std::{fs, io};
use words::Words;
use wrong::Place;

/// The text of this path.
fn read_text(rt: &HostRuntime, path: &str) -> Result<String, Fault> {
    match fs::read_to_string(rt, path) {
        Ok(text) => Ok(text),
        Err(why) => match why.kind() {
            io::ErrorKind::InvalidData => Err(Fault::NotText),
            io::ErrorKind::OutOfMemory => Err(Fault::Memory),
            _ => Err(Fault::NoScript),
        },
    }
}

/// Serves the client that is connected, by a script of this text.
fn serve(rt: &HostRuntime, words: &Words<'_>, text: &str) -> Result<(), Fault> {
    match script_of(rt.alloc(), text) {
        Ok(script) => serve_script(rt, words, &script),
        Err(fault) => Err(fault),
    }
}

/// The same with this script.
fn serve_script(rt: &HostRuntime, words: &Words<'_>, script: &Script) -> Result<(), Fault> {
    let host = Host::new(words, script)?;
    // A verifier or a nonce that isn't one is reported before a client comes.
    host.test(rt.alloc())?;
    stream::run(rt, &host, &mut rt.reader(), &mut io::writer(rt))
}

/// Says what is wrong with a script of this text: what should stand there, and what stands there.
fn complain_of(rt: &HostRuntime, path: &str, text: &str, place: Place) -> io::Result<()> {
    let (line, column, why) = (place.line, place.column, place.wanted);
    match place.seen(unmarked(text)) {
        "" => eprintln!(rt; "pgserve: {path}:{line}:{column}: {why}; the line ends here"),
        seen => eprintln!(rt; "pgserve: {path}:{line}:{column}: {why}; here stands `{seen}`"),
    }
}

/// Says why there is no more.
fn complain(rt: &HostRuntime, path: &str, text: &str, fault: Fault) -> io::Result<()> {
    match fault {
        Fault::Script(place) => complain_of(rt, path, text, place),
        Fault::NoScript | Fault::NotText => {
            eprintln!(rt; "pgserve: {path}: {}", fault.complaint())
        }
        other => eprintln!(rt; "pgserve: {}", other.complaint()),
    }
}

/// Serves as the words say, and returns the status.
fn obey(rt: &HostRuntime, words: &Words<'_>) -> io::Result<u8> {
    let (text, served) = match read_text(rt, words.script) {
        Ok(text) => {
            let served = serve(rt, words, &text);
            (text, served)
        }
        Err(fault) => (String::new(rt.alloc()), Err(fault)),
    };
    let Err(fault) = served else {
        return Ok(0);
    };
    complain(rt, words.script, &text, fault)?;
    Ok(1)
}

/// Says what is wrong with the words, or the help that they ask for, and returns the status.
fn explain(rt: &HostRuntime, refusal: &clap::Error) -> io::Result<u8> {
    if refusal.kind() == ErrorKind::OutOfMemory {
        complain(rt, "", "", Fault::Memory)?;
        return Ok(1);
    }
    refusal.print(rt)?;
    Ok(if refusal.use_stderr() { 2 } else { 0 })
}

/// Does what these words say.
fn run(rt: &HostRuntime, args: &[String]) -> io::Result<u8> {
    let Ok(command) = words::command(rt.alloc()) else {
        complain(rt, "", "", Fault::Memory)?;
        return Ok(1);
    };
    match command.try_get_matches_from(args) {
        Ok(matches) => obey(rt, &words::words_of(&matches)),
        Err(refusal) => explain(rt, &refusal),
    }
}

/// The same with the words that the program was started with.
fn start(rt: &HostRuntime) -> io::Result<u8> {
    let args: Vec<String> = std::env::args(rt)?.collect(rt.alloc())?;
    run(rt, &args)
}

fn main(rt: HostRuntime) -> ExitCode {
    let status = start(&rt).unwrap_or_else(|why| {
        let fault = match why.kind() {
            io::ErrorKind::OutOfMemory => Fault::Memory,
            _ => Fault::Write,
        };
        // Where this can't be written either, the status is all that tells.
        let _ = complain(&rt, "", "", fault);
        1
    });
    ExitCode::from(status)
}
