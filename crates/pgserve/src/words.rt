//! The program's words.

use clap::{Arg, ArgAction, ArgMatches, Command};
use std::alloc::{AllocError, Global};

/// What the program was started with.
#[derive(Clone, Copy)]
pub(crate) struct Words<'a> {
    /// The one user that there is.
    pub(crate) user: &'a str,
    /// What a server stores of the user's password.
    pub(crate) verifier: &'a str,
    /// The server's part of the nonce.
    pub(crate) nonce: &'a str,
    /// What a client has to show.
    pub(crate) auth: &'a str,
    /// The hash of the certificate, in hexadecimal digits.
    pub(crate) certificate: &'a str,
    /// Whether the connection is recorded on standard error.
    pub(crate) is_recorded: bool,
    /// The script's path.
    pub(crate) script: &'a str,
}

/// The words `--NAME TEXT`, with what they say.
static TEXTS: [(&str, &str); 5] = [
    ("user", "The one user that there is"),
    (
        "auth",
        "What a client has to show: trust, password, md5, scram, which is the default, or scram-plus",
    ),
    (
        "verifier",
        "What a server stores of the password: SCRAM-SHA-256$.., for md5 md5..",
    ),
    ("nonce", "The server's part of the nonce of scram"),
    (
        "certificate",
        "The hash of the server's certificate for scram-plus, in hexadecimal digits",
    ),
];

fn text_of(alloc: Global, name: &'static str, help: &'static str) -> Arg<'static> {
    let text = Arg::new(alloc, name).long(name).help(help);
    text.action(ArgAction::Set).required(name == "user")
}

fn with_texts<'a>(alloc: Global, bare: Command<'a>) -> Result<Command<'a>, AllocError> {
    let mut command = bare;
    for (name, help) in &TEXTS {
        command = command.arg(text_of(alloc, name, help))?;
    }
    Ok(command)
}

/// The words that there are.
pub(crate) fn command<'a>(alloc: Global) -> Result<Command<'a>, AllocError> {
    let bare = Command::new(alloc, "pgserve").version("0.1.0").about(
        "Logs one client in, and answers the statements of a script. Standard input and output are the connection.",
    );
    let record = Arg::new(alloc, "record").long("record").help(
        "Records the connection on standard error, for pgtrace session",
    );
    let script = Arg::new(alloc, "script").help("The script's path");
    with_texts(alloc, bare)?
        .arg(record.action(ArgAction::SetTrue))?
        .arg(script.required(true).action(ArgAction::Set))
}

/// A word, empty where it isn't there.
fn word_of<'a>(matches: &ArgMatches<'a>, name: &str) -> &'a str {
    matches.get_str(name).unwrap_or("")
}

/// What the words say.
pub(crate) fn words_of<'a>(matches: &ArgMatches<'a>) -> Words<'a> {
    Words {
        user: word_of(matches, "user"),
        verifier: word_of(matches, "verifier"),
        nonce: word_of(matches, "nonce"),
        auth: matches.get_str("auth").unwrap_or("scram"),
        certificate: word_of(matches, "certificate"),
        is_recorded: matches.get_flag("record"),
        script: word_of(matches, "script"),
    }
}
