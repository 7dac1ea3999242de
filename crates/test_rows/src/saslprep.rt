//! Prepared passwords, and what is made of them.

use crate::codec::Answers;
use crate::scram::show_exchange;
use crate::shown::Shown;
use crate::word::Words;
use pgp_auth::password::scram_sha_256_salt;
use pgp_base::Error;
use pgp_saslprep::{SaslPrepRfc4013, UnicodeNfkc, saslprep};
use std::alloc::Global;

/// What the texts of one character come to.
#[derive(Clone, Copy)]
struct Counts {
    itself: u32,
    another: u32,
    nothing: u32,
    refused: u32,
}

/// `prepare TEXT`: the prepared text, or `refused`.
fn show_prepared(words: &mut Words<'_>, out: &mut Shown) {
    match saslprep(words.alloc(), words.text(), &UnicodeNfkc::new(out.alloc())) {
        Ok(Some(text)) => out.text(text.as_str()),
        Ok(None) => out.word("refused"),
        Err(e) => out.refusal(e),
    }
}

/// `verifier PASSWORD SALT`: the verifier of the prepared password.
fn show_verifier(words: &mut Words<'_>, out: &mut Shown) {
    let password = words.bytes();
    let prep = SaslPrepRfc4013::new(words.alloc());
    out.made(scram_sha_256_salt(words.alloc(), password, words.block(), &prep));
}

/// Counts what the text of one character comes to.
fn count(text: &str, prepared: Option<&str>, counts: &mut Counts) {
    match prepared {
        None => counts.refused = counts.refused.saturating_add(1),
        Some("") => counts.nothing = counts.nothing.saturating_add(1),
        Some(same) if same == text => counts.itself = counts.itself.saturating_add(1),
        Some(_) => counts.another = counts.another.saturating_add(1),
    }
}

/// Counts what the text of each character comes to.
fn count_each(
    alloc: Global,
    form: &UnicodeNfkc,
    text: &mut String,
    counts: &mut Counts,
) -> Result<(), Error> {
    for code in 0..0x11_0000u32 {
        if let Some(c) = char::from_u32(code) {
            text.clear();
            text.push(c)?;
            let prepared = saslprep(alloc, text.as_str(), form)?;
            count(text.as_str(), prepared.as_deref(), counts);
        }
    }
    Ok(())
}

/// `each_character`: how many texts of one character come to themselves, to another text, to nothing, and are rejected.
fn show_counts(out: &mut Shown) {
    let alloc = out.alloc();
    let mut counts = Counts {
        itself: 0,
        another: 0,
        nothing: 0,
        refused: 0,
    };
    let mut text = String::new(alloc);
    if let Err(e) = count_each(alloc, &UnicodeNfkc::new(alloc), &mut text, &mut counts) {
        out.refusal(e);
    }
    out.number(counts.itself);
    out.number(counts.another);
    out.number(counts.nothing);
    out.number(counts.refused);
}

/// The calls of prepared passwords.
#[derive(Drop)]
pub struct Prepared;

impl Answers for Prepared {
    fn show(call: &str, words: &mut Words<'_>, out: &mut Shown) {
        match call {
            "each_character" => show_counts(out),
            "exchange" => show_exchange(words, &SaslPrepRfc4013::new(out.alloc()), out),
            "prepare" => show_prepared(words, out),
            "verifier" => show_verifier(words, out),
            _ => words.fail_row(),
        }
    }
}
