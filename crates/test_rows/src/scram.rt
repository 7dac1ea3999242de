//! Exchanges of SCRAM-SHA-256, as the client sees them.

use crate::codec::Answers;
use crate::fault::Fault;
use crate::shown::Shown;
use crate::word::Words;
use pgp_auth::authentication::sasl::{
    ChannelBinding, NoPrep, SaslPrep, ScramError, ScramSha256, is_nonce,
};
use std::alloc::Global;

/// The nonce of the exchange that the Rust crate's tests have; its password is `foobar`.
const NONCE: &str = "9IZ2O01zb9IgiIZ1WJ/zgpJB";

/// A first text of the server for that client, with one round.
const ONE_ROUND: &[u8] =
    b"r=9IZ2O01zb9IgiIZ1WJ/zgpJBjx/oIRLs02gGSHcw1KEty3eY,s=fs3IXBy7U7+IvVjZ,i=1";

/// A client with this nonce, and with this mapping of its password.
fn client_of<P: SaslPrep>(
    alloc: Global,
    password: &[u8],
    binding: ChannelBinding<Global>,
    nonce: &str,
    prep: &P,
) -> Result<ScramSha256<Global>, Fault> {
    let nonce = String::from_str(alloc, nonce)?;
    if !is_nonce(&nonce) {
        return Err(Fault::Row);
    }
    match ScramSha256::with_nonce(alloc, password, binding, nonce, prep) {
        Ok(client) => Ok(client),
        Err(_) => Err(Fault::Memory),
    }
}

/// A channel binding: `unsupported`, `unrequested`, or the hash of the server's certificate.
fn binding_of(words: &mut Words<'_>) -> Result<ChannelBinding<Global>, Fault> {
    if words.takes("unsupported") {
        return Ok(ChannelBinding::unsupported());
    }
    if words.takes("unrequested") {
        return Ok(ChannelBinding::unrequested());
    }
    let hash = Vec::from_slice(words.alloc(), words.bytes())?;
    Ok(ChannelBinding::tls_server_end_point(hash))
}

/// Shows the name of an error, and what it says beside it.
fn show_refusal(refusal: &ScramError, out: &mut Shown) {
    match format!(in out.alloc(); "{refusal}") {
        Ok(name) => out.word(name.as_str()),
        Err(_) => out.fail(Fault::Memory),
    }
    match refusal {
        ScramError::UnexpectedCharacter(at) | ScramError::Trailing(at) => out.number(*at),
        ScramError::Server(text) => out.text(text.as_str()),
        _ => {}
    }
}

/// Shows how a step ended, and how many codes were made until then.
fn show_outcome(outcome: Result<(), ScramError>, client: &ScramSha256<Global>, out: &mut Shown) {
    match &outcome {
        Ok(()) => out.word("ok"),
        Err(refusal) => show_refusal(refusal, out),
    }
    drop(outcome);
    out.number(client.hmacs());
}

/// Shows the text that the client sends next, or `over`, and how many codes were made until then.
fn show_message(client: &ScramSha256<Global>, out: &mut Shown) {
    match client.message() {
        Some(text) => out.text_of(text),
        None => out.word("over"),
    }
    out.number(client.hmacs());
}

/// Whether the client has a text to send is as it has to be. Otherwise `wrong text` is shown.
fn show_text_left(client: &ScramSha256<Global>, has_text: bool, out: &mut Shown) {
    if client.message().is_some() != has_text {
        out.word("wrong text");
    }
}

/// Each further step is out of turn, makes no code and leaves no text. Otherwise `not over` is shown.
fn show_end(client: &mut ScramSha256<Global>, out: &mut Shown) {
    let made = client.hmacs();
    let is_over = matches!(client.update(ONE_ROUND), Err(ScramError::WrongState))
        && client.message().is_none()
        && matches!(client.finish(b"v=AAAA"), Err(ScramError::WrongState))
        && client.hmacs() == made;
    if !is_over {
        out.word("not over");
    }
}

/// Shows how a step on the server's last text ends, after which there is nothing to send and each step is out of turn.
fn show_last(client: &mut ScramSha256<Global>, text: &[u8], out: &mut Shown) {
    show_outcome(client.finish(text), client, out);
    show_text_left(client, false, out);
    show_end(client, out);
}

/// `FIRST FINAL`: the client's texts, and how it ends.
fn show_steps(client: &mut ScramSha256<Global>, words: &mut Words<'_>, out: &mut Shown) {
    show_message(client, out);
    show_outcome(client.update(words.bytes()), client, out);
    show_message(client, out);
    show_last(client, words.bytes(), out);
}

/// The client of `PASSWORD BINDING NONCE`.
fn reported_client<P: SaslPrep>(
    words: &mut Words<'_>,
    prep: &P,
) -> Result<ScramSha256<Global>, Fault> {
    let password = words.bytes();
    let binding = binding_of(words)?;
    client_of(words.alloc(), password, binding, words.text(), prep)
}

/// `exchange PASSWORD BINDING NONCE FIRST FINAL`: the client's texts, and how it ends.
pub fn show_exchange<P: SaslPrep>(words: &mut Words<'_>, prep: &P, out: &mut Shown) {
    match reported_client(words, prep) {
        Ok(mut client) => show_steps(&mut client, words, out),
        Err(fault) => out.fail(fault),
    }
}

/// The client of the Rust crate's tests.
fn known_client(alloc: Global) -> Result<ScramSha256<Global>, Fault> {
    client_of(
        alloc,
        b"foobar",
        ChannelBinding::unsupported(),
        NONCE,
        &NoPrep,
    )
}

/// `update FIRST`: how a step on the server's first text ends, after which each further step is out of turn.
fn show_update(client: &mut ScramSha256<Global>, text: &[u8], out: &mut Shown) {
    let outcome = client.update(text);
    let is_answered = outcome.is_ok();
    show_outcome(outcome, client, out);
    show_text_left(client, is_answered, out);
    show_end(client, out);
}

/// `answer FIRST`: what the client answers to a first text.
fn show_answer(client: &mut ScramSha256<Global>, text: &[u8], out: &mut Shown) {
    show_outcome(client.update(text), client, out);
    show_message(client, out);
}

/// `finish FINAL`: the client gets a last text after a first one with one round.
fn show_finish(client: &mut ScramSha256<Global>, text: &[u8], out: &mut Shown) {
    if client.update(ONE_ROUND).is_err() {
        out.word("no first step");
    }
    show_last(client, text, out);
}

/// A call of the Rust crate's client with a text of the server.
fn show_known(
    client: &mut ScramSha256<Global>,
    call: &str,
    words: &mut Words<'_>,
    out: &mut Shown,
) {
    match call {
        "answer" => show_answer(client, words.bytes(), out),
        "finish" => show_finish(client, words.bytes(), out),
        "update" => show_update(client, words.bytes(), out),
        _ => words.fail_row(),
    }
}

/// The calls of a client's exchange.
#[derive(Drop)]
pub struct Scram;

impl Answers for Scram {
    fn show(call: &str, words: &mut Words<'_>, out: &mut Shown) {
        match call {
            "exchange" => show_exchange(words, &NoPrep, out),
            "nonce" => out.number(is_nonce(words.text())),
            _ => match known_client(out.alloc()) {
                Ok(mut client) => show_known(&mut client, call, words, out),
                Err(fault) => out.fail(fault),
            },
        }
    }
}
