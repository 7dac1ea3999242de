//! A server's texts, read from the left.

ghost use Rattle.std.specs.Prelude.{◌≡◌, ⊤, ℕ, ◌+◌, ◌-◌, ◌<◌, ◌≤◌, ◌^◌, List, length, drop, codes, MatchResult, Ok, Err};
ghost use Rattle.std.specs.List.{AllPass};
ghost use Rattle.std.specs.Str.{is_utf8};
ghost use Rattle.pgp_auth.specs.ScramText.{is_base64_char, is_value_char, is_attribute_char, is_digit};
ghost use Rattle.pgp_auth.specs.ScramReading.{expected, front_of, rest_of, count_of, ended, read_first, read_run, begins_with_e};
ghost use Rattle.pgp_auth.specs.ScramPartView.{admits, parts_of};

use crate::scram::nonce::is_nonce_byte;
use std::str;

/// Why a text is rejected.
#[derive(Debug, Clone, Copy)]
pub(crate) enum Fault {
    UnexpectedEnd,
    UnexpectedCharacter(usize),
    Trailing(usize),
    InvalidNumber,
}

fn is_base64_byte(byte: u8) -> bool
    ensures { result ≡ is_base64_char byte }
{
    matches!(byte, b'a'..=b'z' | b'A'..=b'Z' | b'0'..=b'9' | b'/' | b'+' | b'=')
}

fn is_digit_byte(byte: u8) -> bool
    ensures { result ≡ is_digit byte }
{
    matches!(byte, b'0'..=b'9')
}

pub(crate) fn is_value_byte(byte: u8) -> bool
    ensures { result ≡ is_value_char byte }
{
    !(byte == 0 || byte == b',' || byte == b'=')
}

fn is_attribute_byte(byte: u8) -> bool
    ensures { result ≡ is_attribute_char byte }
{
    !(byte == b',')
}

// What follows `want` in `text`, the end of a text of `total` bytes.
#[tactic(auto, unfolding(crate::specs::ScramReading::expected))]
pub(crate) fn expect<'a>(total: usize, want: &[u8], text: &'a [u8]) -> Result<&'a [u8], Fault>
    requires { length text.now ≤ total }
    ensures value { MatchResult result (λ r. expected total want.now text.now ≡ Ok r.now) (λ e. expected total want.now text.now ≡ Err e) }
    ensures shorter { MatchResult result (λ r. length r.now ≤ length text.now) (λ _. ⊤) }
{
    let Some((first, others)) = want.split_first() else {
        return Ok(text);
    };
    match text.split_first() {
        None => Err(Fault::UnexpectedEnd),
        Some((byte, rest)) => {
            if *byte == *first {
                expect(total, others, rest)
            } else {
                Err(Fault::UnexpectedCharacter(total - text.len()))
            }
        }
    }
}

// The characters that a run is made of.
#[derive(Clone, Copy)]
pub(crate) enum Alphabet {
    Nonce,
    Base64,
    Digits,
    Value,
    Attribute,
}

impl Alphabet {
    fn admits(self, byte: u8) -> bool
        ensures { result ≡ admits self byte }
    {
        match self {
            Alphabet::Nonce => is_nonce_byte(byte),
            Alphabet::Base64 => is_base64_byte(byte),
            Alphabet::Digits => is_digit_byte(byte),
            Alphabet::Value => is_value_byte(byte),
            Alphabet::Attribute => is_attribute_byte(byte),
        }
    }

    // The longest front of `text` in the alphabet, and the rest.
    pub(crate) fn split_front(self, text: &[u8]) -> (&[u8], &[u8])
        ensures front { result.0.now ≡ front_of (admits self) text.now }
        ensures rest { result.1.now ≡ rest_of (admits self) text.now }
        ensures shorter { length result.1.now ≤ length text.now }
    {
        let mut len = 0;
        for b in text {
            if !self.admits(*b) {
                break;
            }
            len += 1;
        }
        text.split_at(len)
    }
}

// The number that digits name.
#[tactic(auto, unfolding(crate::specs::ScramReading::count_of, crate::specs::ScramText::number_from))]
pub(crate) fn count(digits: &[u8]) -> Result<u32, Fault>
    requires { AllPass is_digit digits.now }
    ensures { result ≡ count_of digits.now }
{
    if digits.is_empty() {
        return Err(Fault::InvalidNumber);
    }
    let mut n = 0u32;
    for d in digits {
        let Some(tens) = n.checked_mul(10) else {
            return Err(Fault::InvalidNumber);
        };
        let Some(sum) = tens.checked_add(u32::from(*d - b'0')) else {
            return Err(Fault::InvalidNumber);
        };
        n = sum;
    }
    Ok(n)
}

// Nothing is left of a text of `total` bytes.
#[tactic(auto, unfolding(crate::specs::ScramReading::ended))]
fn end(total: usize, text: &[u8]) -> Result<(), Fault>
    requires { length text.now ≤ total }
    ensures { result ≡ ended total text.now }
{
    match text.split_first() {
        None => Ok(()),
        Some(_) => Err(Fault::Trailing(total - text.len())),
    }
}

// The parts of a server's first text.
#[derive(Drop)]
pub(crate) struct ServerFirst<'a> {
    pub nonce: &'a [u8],
    pub salt: &'a [u8],
    pub count: u32,
}

#[tactic(auto, using(crate::proofs::Runs::front_passes), unfolding(crate::specs::ScramReading::read_first))]
pub(crate) fn server_first<'a>(text: &'a [u8]) -> Result<ServerFirst<'a>, Fault>
    ensures { MatchResult result (λ p. read_first text.now ≡ Ok (parts_of p)) (λ e. read_first text.now ≡ Err e) }
{
    let total = text.len();
    let after = expect(total, b"r=", text)?;
    let (nonce, rest) = Alphabet::Nonce.split_front(after);
    let after = expect(total, b",s=", rest)?;
    let (salt, rest) = Alphabet::Base64.split_front(after);
    let after = expect(total, b",i=", rest)?;
    let (digits, rest) = Alphabet::Digits.split_front(after);
    let count = count(digits)?;
    end(total, rest)?;
    Ok(ServerFirst { nonce, salt, count })
}

// One run after two characters, up to the end.
#[tactic(auto, unfolding(crate::specs::ScramReading::read_run))]
pub(crate) fn run_behind<'a>(
    want: &[u8],
    alphabet: Alphabet,
    text: &'a [u8],
) -> Result<&'a [u8], Fault>
    ensures { MatchResult result (λ r. read_run want.now (admits alphabet) text.now ≡ Ok r.now) (λ e. read_run want.now (admits alphabet) text.now ≡ Err e) }
{
    let total = text.len();
    let after = expect(total, want, text)?;
    let (run, rest) = alphabet.split_front(after);
    end(total, rest)?;
    Ok(run)
}

// The message is UTF-8.
pub(crate) fn is_text(message: &[u8]) -> bool
    ensures { result ≡ is_utf8 message.now }
{
    match str::from_utf8(message) {
        Ok(_) => true,
        Err(_) => false,
    }
}

// The message begins with `e`.
pub(crate) fn is_error(message: &[u8]) -> bool
    ensures { result ≡ begins_with_e message.now }
{
    match message.split_first() {
        None => false,
        Some((first, _)) => *first == b'e',
    }
}
