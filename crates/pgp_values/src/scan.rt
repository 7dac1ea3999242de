//! The parts of a number's text, each the longest that stands at the front.

ghost use Rattle.std.specs.Prelude.{◌≡◌, ℕ, List, true, false, ◌++◌, ◌<◌, ◌≤◌, map, IfOk, IfErr};
ghost use Rattle.std.specs.List.{AllByRecursion};
ghost use Rattle.pgp_types.specs.Part.{shown};
ghost use Rattle.pgp_values.specs.declared.error.NumericError.TheVariants.{OutOfRange};
ghost use Rattle.pgp_values.specs.Amount.{spelled};
ghost use Rattle.pgp_values.specs.DecimalWriting.{digit_value};
ghost use Rattle.pgp_values.specs.NumberScan.{NotEnd, Behind, Front, Trimmed, SignFront, PointFront, MarkedRefused, RaisedRefused, ExponentRefused};
ghost use Rattle.pgp_values.specs.NumberText.{IsBlank, IsDigit, MarkedText, RaisedText, ExponentText, lower};

use crate::error::NumericError;

// One past the longest text that is looked at, and past the greatest exponent: a server takes none of them either.
pub const LIMIT: usize = 0x3fff_ffff;

// A blank, as the server's `isspace` has it.
fn is_blank(byte: u8) -> bool
    ensures yes { result ≡ true → IsBlank byte }
    ensures no { result ≡ false → IsBlank byte → ⊥ }
{
    if byte == b' ' {
        return true;
    }
    byte >= 9 && byte <= 13
}

// Without the blanks in front.
fn trimmed_front(bytes: &[u8]) -> &[u8]
    ensures { (before : List ℕ) × Front IsBlank bytes.now before result.now }
{
    for i in 0..bytes.len() {
        if !is_blank(bytes[i]) {
            return bytes.split_at(i).1;
        }
    }
    &[]
}

// Without the blanks at the end.
fn trimmed_back(bytes: &[u8]) -> &[u8]
    ensures all { (after : List ℕ) × AllByRecursion IsBlank after × (bytes.now ≡ result.now ++ after) }
    ensures stops { NotEnd IsBlank result.now }
{
    for i in 0..bytes.len() {
        let end = bytes.len() - i;
        if !is_blank(bytes[end - 1]) {
            return bytes.split_at(end).0;
        }
    }
    &[]
}

// Without the blanks around.
pub fn trimmed(bytes: &[u8]) -> &[u8]
    ensures { Trimmed bytes.now result.now }
{
    trimmed_back(trimmed_front(bytes))
}

// A letter in lower case, and any other byte as it is.
fn lower(byte: u8) -> u8
    ensures { result ≡ lower byte }
{
    match byte {
        b'A'..=b'Z' => byte + 32,
        _ => byte,
    }
}

// Whether it is the word, in either case of each letter; the word is given in lower case.
pub fn is_word(bytes: &[u8], word: &[u8]) -> bool
    ensures yes { result ≡ true → map lower bytes.now ≡ word.now }
    ensures no { result ≡ false → map lower bytes.now ≡ word.now → ⊥ }
{
    if bytes.len() != word.len() {
        return false;
    }
    for i in 0..word.len() {
        if lower(bytes[i]) != word[i] {
            return false;
        }
    }
    true
}

// What stands after this byte, if it stands at the front.
fn behind(bytes: &[u8], mark: u8) -> Option<&[u8]>
    ensures { Behind mark bytes.now (shown result) }
{
    match bytes {
        [first, rest @ ..] if *first == mark => Some(rest),
        _ => None,
    }
}

// The sign at the front, if there is one, and what stands after it.
pub fn sign_at(bytes: &[u8]) -> (bool, &[u8])
    ensures { SignFront bytes.now result.0 result.1.now }
{
    if let Some(rest) = behind(bytes, b'+') {
        return (false, rest);
    }
    if let Some(rest) = behind(bytes, b'-') {
        return (true, rest);
    }
    (false, bytes)
}

// The decimal digits at the front, and what stands after them.
pub fn digits_at(bytes: &[u8]) -> (&[u8], &[u8])
    ensures { Front IsDigit bytes.now result.0.now result.1.now }
{
    for i in 0..bytes.len() {
        if !bytes[i].is_ascii_digit() {
            return bytes.split_at(i);
        }
    }
    (bytes, &[])
}

// The digits after a point, if one stands at the front.
pub fn fraction_at(bytes: &[u8]) -> (&[u8], &[u8])
    ensures { PointFront bytes.now result.0.now result.1.now }
{
    match behind(bytes, b'.') {
        Some(rest) => digits_at(rest),
        None => (&[], bytes),
    }
}

// What a decimal digit counts.
pub fn digit_of(byte: u8) -> u16
    ensures value { result ≡ digit_value byte }
    ensures small { result < 10 }
{
    match byte {
        b'0'..=b'9' => (byte - b'0') as u16,
        _ => 0,
    }
}

// The number that decimal digits spell.
fn exponent_of(digits: &[u8]) -> Result<usize, NumericError>
    ensures value { IfOk result (λ n. n ≡ spelled 10 (map digit_value digits.now)) }
    ensures small { IfOk result (λ n. n < 1073741823) }
    ensures past { IfErr result (λ e. (e ≡ OutOfRange) × (1073741823 ≤ spelled 10 (map digit_value digits.now))) }
{
    let mut value = 0usize;
    for i in 0..digits.len() {
        value = 10 * value + digit_of(digits[i]) as usize;
        if value >= LIMIT {
            return Err(NumericError::OutOfRange);
        }
    }
    Ok(value)
}

// The exponent that all of the bytes spell, and whether it is negative.
fn marked_at(bytes: &[u8]) -> Result<(bool, usize), NumericError>
    ensures text { IfOk result (λ x. MarkedText x.0 x.1 bytes.now) }
    ensures small { IfOk result (λ x. x.1 < 1073741823) }
    ensures refused { IfErr result (MarkedRefused bytes.now) }
{
    let (negative, rest) = sign_at(bytes);
    let (digits, rest) = digits_at(rest);
    if digits.is_empty() {
        return Err(NumericError::InvalidText);
    }
    if !rest.is_empty() {
        return Err(NumericError::InvalidText);
    }
    let value = exponent_of(digits)?;
    Ok((negative, value))
}

// The same after an e, and blanks or none: a server skips them there.
fn raised_at(bytes: &[u8]) -> Result<(bool, usize), NumericError>
    ensures text { IfOk result (λ x. RaisedText x.0 x.1 bytes.now) }
    ensures small { IfOk result (λ x. x.1 < 1073741823) }
    ensures refused { IfErr result (RaisedRefused bytes.now) }
{
    if let Some(rest) = behind(bytes, b'e') {
        return marked_at(trimmed_front(rest));
    }
    if let Some(rest) = behind(bytes, b'E') {
        return marked_at(trimmed_front(rest));
    }
    Err(NumericError::InvalidText)
}

// The exponent that all of the bytes spell, and whether it is negative: 0 where there are none.
pub fn exponent_at(bytes: &[u8]) -> Result<(bool, usize), NumericError>
    ensures text { IfOk result (λ x. ExponentText x.0 x.1 bytes.now) }
    ensures small { IfOk result (λ x. x.1 < 1073741823) }
    ensures refused { IfErr result (ExponentRefused bytes.now) }
{
    if bytes.is_empty() {
        return Ok((false, 0));
    }
    raised_at(bytes)
}
