//! Runs the tables of `data/`: each row is a call, and what it comes to. README.md says how a row is written.
#![tactic(auto)]

mod arrays;
mod bodies;
mod calendar;
mod client;
mod client_parts;
mod client_read;
mod client_steps;
mod codec;
mod connection;
mod connection_calls;
mod connection_steps;
mod dialogue;
mod fault;
mod formats;
mod lexemes;
mod moments;
mod numerics;
mod passwords;
mod queries;
mod ranges;
mod replies;
mod row;
mod saslprep;
mod scram;
mod scram_server;
mod server;
mod shapes;
mod shown;
mod texts;
mod types;
mod value_text;
mod values;
mod walks;
mod word;

use calendar::check_calendar;
use client::Client;
use client_read::check_client_read;
use codec::{check_answer, check_value, check_writer};
use connection::check_connection;
use dialogue::check_dialogue;
use fault::Fault;
use formats::Formats;
use numerics::check_numeric;
use passwords::Passwords;
use replies::check_reply;
use row::Row;
use saslprep::Prepared;
use scram::Scram;
use scram_server::ScramServers;
use server::check_server;
use shown::Shown;
use std::rt::Files;
use std::{fs, io};
use value_text::ValueTexts;
use values::Values;

const FILES: [&str; 28] = [
    "client.rows",
    "client_read.rows",
    "client_replaced.rows",
    "dialogue.rows",
    "connection.rows",
    "integers.rows",
    "times.rows",
    "bits.rows",
    "texts.rows",
    "addresses.rows",
    "shapes.rows",
    "lists.rows",
    "arrays.rows",
    "ranges.rows",
    "replies.rows",
    "server.rows",
    "server_lengths.rows",
    "escapes.rows",
    "passwords.rows",
    "scram.rows",
    "scram_server.rows",
    "saslprep.rows",
    "numerics.rows",
    "values.rows",
    "lengths.rows",
    "formats.rows",
    "calendar.rows",
    "value_text.rows",
];

/// Makes the call of a row of this file.
fn check(file: &str, row: &Row<'_>, out: &mut Shown) -> Result<(), Fault> {
    match file {
        "client.rows" => check_writer::<Client>(row, out),
        "client_read.rows" | "client_replaced.rows" => check_client_read(row, out),
        "dialogue.rows" => check_dialogue(row, out),
        "connection.rows" => check_connection(row, out),
        "replies.rows" => check_reply(row, out),
        "server.rows" | "server_lengths.rows" => check_server(row, out),
        "escapes.rows" | "passwords.rows" => check_answer::<Passwords>(row, out),
        "scram.rows" => check_answer::<Scram>(row, out),
        "scram_server.rows" => check_answer::<ScramServers>(row, out),
        "saslprep.rows" => check_answer::<Prepared>(row, out),
        "numerics.rows" => check_numeric(row, out),
        "formats.rows" => check_answer::<Formats>(row, out),
        "calendar.rows" => check_calendar(row, out),
        "value_text.rows" => check_answer::<ValueTexts>(row, out),
        _ => check_value::<Values>(row, out),
    }
}

fn check_line(file: &str, line: &str, out: &mut Shown) -> Result<(), Fault> {
    check(file, &Row::parse(line)?, out)
}

/// Says of a line that isn't right, and what came.
fn tell(rt: &impl Print, line: &str, fault: Fault, received: &str) -> io::Result<()> {
    println!(rt; "{line}")?;
    match fault {
        Fault::Row => println!(rt; "    is no row"),
        Fault::Memory => println!(rt; "    found no memory"),
        Fault::Differs => println!(rt; "    came to: {received}"),
    }
}

/// Runs a row, and reports it where it isn't right.
fn run_line<R: AllocGlobal + Print>(rt: &R, file: &str, line: &str) -> io::Result<()> {
    let mut out = Shown::new(rt.alloc());
    match check_line(file, line, &mut out) {
        Ok(()) => Ok(()),
        Err(fault) => tell(rt, line, fault, out.as_str()),
    }
}

/// Runs the rows of a file, and says how many there were.
fn run_file<R: Files + AllocGlobal + Print>(rt: &R, file: &str) -> io::Result<()> {
    let text = fs::read_to_string(rt, file)?;
    let mut rows = 0u64;
    for line in text.lines() {
        if line.is_empty() || line.starts_with('#') {
            continue;
        }
        rows = rows.saturating_add(1);
        run_line(rt, file, line)?;
    }
    println!(rt; "{file}: {rows} rows")
}

fn main(rt: HostRuntime) -> io::Result<()> {
    for file in FILES {
        run_file(&rt, file)?;
    }
    Ok(())
}
