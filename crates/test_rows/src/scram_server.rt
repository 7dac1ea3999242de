//! Exchanges of SCRAM-SHA-256, as the server sees them.

use crate::codec::Answers;
use crate::fault::Fault;
use crate::shown::Shown;
use crate::word::Words;
use pgp_auth::authentication::sasl::{
    ChannelOffer, ScramServer, ServerError, StoredVerifier, is_nonce,
};
use std::alloc::Global;

/// What a server serves with.
#[derive(Clone, Copy)]
struct Served<'w> {
    secret: Option<&'w [u8]>,
    verifier: &'w [u8],
    offer: Option<&'w [u8]>,
    is_declined: bool,
    own: &'w str,
}

/// A stored verifier's text, or `mock SECRET USER`; `none`, `declined` or the hash of the server's certificate; the server's part of the nonce.
fn read_served<'w>(words: &mut Words<'w>) -> Served<'w> {
    let secret = if words.takes("mock") {
        Some(words.bytes())
    } else {
        None
    };
    let verifier = words.bytes();
    let is_declined = words.takes("declined");
    let offer = if is_declined || words.takes("none") {
        None
    } else {
        Some(words.bytes())
    };
    Served {
        secret,
        verifier,
        offer,
        is_declined,
        own: words.text(),
    }
}

fn verifier_of(alloc: Global, served: &Served<'_>) -> Result<StoredVerifier<Global>, Fault> {
    if let Some(secret) = served.secret {
        return match StoredVerifier::mock(alloc, secret, served.verifier) {
            Ok(verifier) => Ok(verifier),
            Err(_) => Err(Fault::Memory),
        };
    }
    match StoredVerifier::parse(alloc, served.verifier) {
        Ok(verifier) => Ok(verifier),
        Err(_) => Err(Fault::Row),
    }
}

fn offer_of(alloc: Global, served: &Served<'_>) -> Result<ChannelOffer<Global>, Fault> {
    match served.offer {
        Some(hash) => Ok(ChannelOffer::Chosen(Vec::from_slice(alloc, hash)?)),
        None if served.is_declined => Ok(ChannelOffer::Declined),
        None => Ok(ChannelOffer::NotOffered),
    }
}

fn server_of(alloc: Global, served: &Served<'_>) -> Result<ScramServer<Global>, Fault> {
    let own = String::from_str(alloc, served.own)?;
    if !is_nonce(&own) {
        return Err(Fault::Row);
    }
    let verifier = verifier_of(alloc, served)?;
    Ok(ScramServer::with_nonce(verifier, offer_of(alloc, served)?, own))
}

/// Each further step is out of turn. Otherwise `not over` is shown.
fn show_end(server: &mut ScramServer<Global>, out: &mut Shown) {
    let is_over = matches!(server.first(b"n,,n=,r=a"), Err(ServerError::WrongState))
        && matches!(server.finish(b""), Err(ServerError::WrongState));
    if !is_over {
        out.word("not over");
    }
}

/// Shows the server's answer to a first text, and says whether the exchange goes on.
fn show_first(server: &mut ScramServer<Global>, text: &[u8], out: &mut Shown) -> bool {
    match server.first(text) {
        Ok(answer) => {
            out.text_of(&answer);
            true
        }
        Err(e) => {
            out.number(e);
            false
        }
    }
}

/// Shows the server's answer to a final text.
fn show_final(server: &mut ScramServer<Global>, text: &[u8], out: &mut Shown) {
    match server.finish(text) {
        Ok(answer) => out.text_of(&answer),
        Err(e) => out.number(e),
    }
}

/// `FIRST FINAL`: the server's texts, or its error.
fn show_steps(server: &mut ScramServer<Global>, words: &mut Words<'_>, out: &mut Shown) {
    let first = words.bytes();
    let last = words.bytes();
    if show_first(server, first, out) {
        show_final(server, last, out);
    }
    show_end(server, out);
}

/// `serve SERVED FIRST FINAL`: the server's texts, or its error.
fn show_serve(words: &mut Words<'_>, out: &mut Shown) {
    match server_of(out.alloc(), &read_served(words)) {
        Ok(mut server) => show_steps(&mut server, words, out),
        Err(fault) => out.fail(fault),
    }
}

/// How often each outcome came, in the order in which they are shown.
type Counts = [(&'static str, u64); 7];

const NONE: Counts = [
    ("ok", 0),
    ("UnsupportedBinding", 0),
    ("InvalidFirst", 0),
    ("OtherExchange", 0),
    ("InvalidEncoding", 0),
    ("InvalidProof", 0),
    ("others", 0),
];

fn count(outcome: &Result<(), ServerError>, counts: &mut Counts) {
    let came = match outcome {
        Ok(()) => "ok",
        Err(ServerError::UnsupportedBinding) => "UnsupportedBinding",
        Err(ServerError::InvalidFirst) => "InvalidFirst",
        Err(ServerError::OtherExchange) => "OtherExchange",
        Err(ServerError::InvalidEncoding) => "InvalidEncoding",
        Err(ServerError::InvalidProof) => "InvalidProof",
        Err(_) => "others",
    };
    for (name, count) in counts {
        if *name == came {
            *count = count.saturating_add(1);
        }
    }
}

/// How a first text ends; where one is reported, it is taken, and the text is the final one after it.
fn outcome(
    server: &mut ScramServer<Global>,
    first: Option<&[u8]>,
    text: &[u8],
) -> Result<Result<(), ServerError>, Fault> {
    let Some(first) = first else {
        return Ok(match server.first(text) {
            Ok(_) => Ok(()),
            Err(e) => Err(e),
        });
    };
    if server.first(first).is_err() {
        return Err(Fault::Row);
    }
    Ok(match server.finish(text) {
        Ok(_) => Ok(()),
        Err(e) => Err(e),
    })
}

/// Each byte of the text replaced by each other value.
fn count_replaced(
    alloc: Global,
    served: &Served<'_>,
    first: Option<&[u8]>,
    text: &mut [u8],
    counts: &mut Counts,
) -> Result<(), Fault> {
    for at in 0..text.len() {
        for more in 1..=255u8 {
            let kept = text[at];
            text[at] = kept.wrapping_add(more);
            count(
                &outcome(&mut server_of(alloc, served)?, first, text)?,
                counts,
            );
            text[at] = kept;
        }
    }
    Ok(())
}

/// Each byte of the text, which is copied, replaced by each other value, and how often each outcome came.
fn show_replaced(served: &Served<'_>, first: Option<&[u8]>, text: &[u8], out: &mut Shown) {
    let alloc = out.alloc();
    let mut counts = NONE;
    match Vec::from_slice(alloc, text) {
        Ok(mut text) => out.keep(count_replaced(alloc, served, first, &mut text, &mut counts)),
        Err(_) => out.fail(Fault::Memory),
    }
    for (name, count) in counts {
        if count != 0 {
            out.word(name);
            out.number(count);
        }
    }
}

/// `first_replaced SERVED FIRST`: each byte of a first text replaced by each other value, and how often each outcome came.
fn show_first_replaced(words: &mut Words<'_>, out: &mut Shown) {
    let served = read_served(words);
    show_replaced(&served, None, words.bytes(), out);
}

/// `final_replaced SERVED FIRST FINAL`: the same of a final text.
fn show_final_replaced(words: &mut Words<'_>, out: &mut Shown) {
    let served = read_served(words);
    let first = words.bytes();
    show_replaced(&served, Some(first), words.bytes(), out);
}

/// `stored TEXT`: the count, the salt and the two keys of a stored verifier, or `NotAVerifier`.
fn show_stored(words: &mut Words<'_>, out: &mut Shown) {
    match StoredVerifier::parse(out.alloc(), words.bytes()) {
        Ok(verifier) => {
            out.number(verifier.count);
            out.bytes(verifier.salt.as_slice());
            out.bytes(&verifier.stored_key);
            out.bytes(&verifier.server_key);
        }
        Err(e) => out.number(e),
    }
}

/// The calls of a server's exchange.
#[derive(Drop)]
pub struct ScramServers;

impl Answers for ScramServers {
    fn show(call: &str, words: &mut Words<'_>, out: &mut Shown) {
        match call {
            "final_replaced" => show_final_replaced(words, out),
            "first_replaced" => show_first_replaced(words, out),
            "serve" => show_serve(words, out),
            "stored" => show_stored(words, out),
            _ => words.fail_row(),
        }
    }
}
