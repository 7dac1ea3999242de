//! Escaped texts, keys and verifiers.

use crate::codec::Answers;
use crate::shown::Shown;
use crate::word::Words;
use pgp_auth::authentication::md5_hash;
use pgp_auth::authentication::sasl::{NoPrep, StoredVerifier, hi};
use pgp_auth::escape::{escape_identifier, escape_literal};
use pgp_auth::password::{check, md5, scram_sha_256_salt};

fn show_verifier(words: &mut Words<'_>, out: &mut Shown) {
    let password = words.bytes();
    out.made(scram_sha_256_salt(words.alloc(), password, words.block(), &NoPrep));
}

fn show_md5(words: &mut Words<'_>, out: &mut Shown) {
    let password = words.bytes();
    out.made(md5(words.alloc(), password, words.text()));
}

fn show_md5_hash(words: &mut Words<'_>, out: &mut Shown) {
    let user = words.bytes();
    let password = words.bytes();
    out.made(md5_hash(words.alloc(), user, password, words.block()));
}

fn show_hi(words: &mut Words<'_>, out: &mut Shown) {
    let password = words.bytes();
    let salt = words.bytes();
    out.bytes(&hi(password, salt, words.number()));
}

fn show_check_md5(words: &mut Words<'_>, out: &mut Shown) {
    let password = words.bytes();
    let user = words.text();
    out.number(check::md5(password, user, words.bytes()));
}

fn show_check_md5_answer(words: &mut Words<'_>, out: &mut Shown) {
    let answer = words.bytes();
    let salt = words.block();
    out.number(check::md5_answer(answer, salt, words.bytes()));
}

fn show_check_scram(words: &mut Words<'_>, out: &mut Shown) {
    let password = words.bytes();
    match StoredVerifier::parse(words.alloc(), words.bytes()) {
        Ok(stored) => match check::scram_sha_256(out.alloc(), password, &stored, &NoPrep) {
            Ok(is_right) => out.number(is_right),
            Err(e) => out.refusal(e),
        },
        Err(_) => words.fail_row(),
    }
}

/// The calls of passwords and of escapes.
#[derive(Drop)]
pub struct Passwords;

impl Answers for Passwords {
    fn show(call: &str, words: &mut Words<'_>, out: &mut Shown) {
        match call {
            "hi" => show_hi(words, out),
            "md5" => show_md5(words, out),
            "md5_hash" => show_md5_hash(words, out),
            "verifier" => show_verifier(words, out),
            "check_md5" => show_check_md5(words, out),
            "check_md5_answer" => show_check_md5_answer(words, out),
            "check_scram" => show_check_scram(words, out),
            "literal" => out.made(escape_literal(words.alloc(), words.text())),
            "identifier" => out.made(escape_identifier(words.alloc(), words.text())),
            _ => words.fail_row(),
        }
    }
}
