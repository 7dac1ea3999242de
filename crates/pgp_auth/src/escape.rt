//! Quotes literals and identifiers, to be put into the text of an SQL command.
//!
//! Where a command can take parameters, they are the better way: a parameter isn't quoted.

ghost use Rattle.std.specs.Prelude.{◌≡◌, ◌<◌, ◌≤◌, ◌++◌, length, ◌↔◌, ◌∷◌, [], true, false, string_bytes, IfOk, IfErr, OnOk, Contains};
ghost use Rattle.std.specs.List.{count_by};
ghost use Rattle.pgp_base.specs.Cause.{WantsMemory};
ghost use Rattle.memchr.specs.Find.{IsFirstByte};
ghost use Rattle.pgp_auth.specs.Lexer.{Literal, Identifier, IsPlain, backslash};
ghost use Rattle.pgp_auth.specs.Doubling.{is_doubled, doubled};

use memchr::{memchr, memchr2};
use pgp_base::{Error, Memory};

// The bytes that are counted at a time.
const BLOCK_LEN: usize = 192;

// Where more than one byte in so many is written twice, the text is taken byte by byte.
const DENSE: usize = 12;

// How a text is quoted.
#[derive(Clone, Copy)]
struct Form {
    // What stands before the first quote.
    front: &'static str,
    // The quote, which is written twice inside.
    quote: u8,
    // A backslash is written twice too.
    slashes: bool,
}

const STANDARD: Form = Form {
    front: "",
    quote: b'\'',
    slashes: false,
};

const ESCAPED: Form = Form {
    front: " E",
    quote: b'\'',
    slashes: true,
};

const IDENTIFIER: Form = Form {
    front: "",
    quote: b'"',
    slashes: false,
};

// The place of the first byte that is written twice.
fn first_doubled(form: Form, bytes: &[u8]) -> Option<usize>
    ensures { IsFirstByte (is_doubled form.quote form.slashes) bytes.now result }
{
    if form.slashes {
        memchr2(form.quote, b'\\', bytes)
    } else {
        memchr(form.quote, bytes)
    }
}

// The byte is written twice.
#[inline(always)]
fn is_twice(form: Form, byte: u8) -> bool
    ensures { result ≡ is_doubled form.quote form.slashes byte }
{
    if form.slashes {
        byte == form.quote || byte == b'\\'
    } else {
        byte == form.quote
    }
}

// How many bytes of a block are written twice. The count is a byte, so that many bytes are compared at a
// time.
fn count_in_block(form: Form, block: &[u8]) -> u8
    requires { length block.now ≤ 255 }
    ensures { result ≡ count_by (is_doubled form.quote form.slashes) block.now }
{
    let mut count = 0u8;
    'bytes: for (i, byte) in block.iter().enumerate() {
        count += u8::from(is_twice(form, *byte));
    }
    count
}

// How many bytes are written twice, counted in blocks.
fn count_twice(form: Form, bytes: &[u8]) -> usize
    ensures { result ≡ count_by (is_doubled form.quote form.slashes) bytes.now }
{
    let mut count = 0;
    let mut rest = bytes;
    'pieces: while BLOCK_LEN < rest.len() {
        let (block, after) = rest.split_at(BLOCK_LEN);
        count += count_in_block(form, block) as usize;
        rest = after;
    }
    count + count_in_block(form, rest) as usize
}

// Appends a block with each byte that is written twice standing twice. Every byte is put down twice, and the
// second goes over the first where it is written once: so no branch depends on the text.
fn push_block<A: Memory>(out: &mut Vec<u8, A>, block: &[u8], form: Form) -> Result<(), Error>
    requires { length block.now ≤ BLOCK_LEN }
    ensures ok { OnOk result (out.new.items ≡ out.old.items ++ doubled form.quote form.slashes block.now) }
    ensures memory { IfErr result (WantsMemory A.Lacks) }
{
    let mut room = [0u8; 2 * BLOCK_LEN];
    let mut len = 0;
    'bytes: for (i, byte) in block.iter().enumerate() {
        room[len] = *byte;
        len += usize::from(is_twice(form, *byte));
        room[len] = *byte;
        len += 1;
    }
    A::extend(out, &room[..len])?;
    Ok(())
}

// Appends the input like `push_doubled`, byte by byte in blocks: the faster way where many bytes are
// written twice.
fn push_blocks<A: Memory>(out: &mut Vec<u8, A>, input: &[u8], form: Form) -> Result<(), Error>
    ensures ok { OnOk result (out.new.items ≡ out.old.items ++ doubled form.quote form.slashes input.now) }
    ensures memory { IfErr result (WantsMemory A.Lacks) }
{
    let mut rest = input;
    'pieces: while BLOCK_LEN < rest.len() {
        let (block, after) = rest.split_at(BLOCK_LEN);
        push_block(out, block, form)?;
        rest = after;
    }
    push_block(out, rest, form)
}

// The text with the input after it as `push_doubled` appends it, by blocks.
fn with_blocks<A: Memory>(out: String<A>, input: &str, form: Form) -> Result<String<A>, Error>
    requires { form.quote < 128 }
    ensures ok { IfOk result (λ t. string_bytes t ≡ string_bytes out ++ doubled form.quote form.slashes input.now) }
    ensures memory { IfErr result (WantsMemory A.Lacks) }
{
    let mut bytes = out.into_bytes();
    push_blocks(&mut bytes, input.as_bytes(), form)?;
    match String::from_utf8(bytes) {
        Ok(text) => Ok(text),
        Err(_) => unreachable!(),
    }
}

// Appends the input with each quote written twice, and each backslash too where the form says so.
fn push_doubled<A: Memory>(out: &mut String<A>, input: &str, form: Form) -> Result<(), Error>
    requires { form.quote < 128 }
    ensures ok { OnOk result (string_bytes out.new ≡ string_bytes out.old ++ doubled form.quote form.slashes input.now) }
    ensures memory { IfErr result (WantsMemory A.Lacks) }
{
    let mut rest = input;
    'runs: while let Some(at) = first_doubled(form, rest.as_bytes()) {
        A::push_str(out, &rest[..at + 1])?;
        A::push_str(out, &rest[at..at + 1])?;
        rest = &rest[at + 1..];
    }
    A::push_str(out, rest)?;
    Ok(())
}

// The input in this form; the room is asked for once.
fn quoted<A: Memory>(alloc: A, input: &str, form: Form) -> Result<String<A>, Error>
    requires { form.quote < 128 }
    ensures ok { IfOk result (λ t. string_bytes t ≡ form.front.now ++ form.quote ∷ (doubled form.quote form.slashes input.now ++ form.quote ∷ [])) }
    ensures memory { IfErr result (WantsMemory A.Lacks) }
{
    let twice = match first_doubled(form, input.as_bytes()) {
        Some(_) => count_twice(form, input.as_bytes()),
        None => 0,
    };
    let room = input
        .len()
        .saturating_add(twice)
        .saturating_add(form.front.len())
        .saturating_add(2);
    let mut out = A::text_with_capacity(alloc, room)?;
    A::push_str(&mut out, form.front)?;
    A::push_char(&mut out, form.quote as char)?;
    if twice > input.len() / DENSE {
        out = with_blocks(out, input, form)?;
    } else {
        push_doubled(&mut out, input, form)?;
    }
    A::push_char(&mut out, form.quote as char)?;
    Ok(out)
}

/// The input as a string constant, between `'`. Where it has a backslash, the constant is of the form
/// ` E'..'`, with a space in front, so that it may stand right after a word. Either form is read as the
/// input whatever `standard_conforming_strings` says (manual, 4.1.2.1 and 4.1.2.2).
///
/// # Errors
///
/// Returns `OutOfMemory` if memory for the text can't be allocated.
#[tactic(auto, using(crate::proofs::Quoting::escape_reads, crate::proofs::Quoting::plain_reads))]
pub fn escape_literal<A: Memory>(alloc: A, input: &str) -> Result<String<A>, Error>
    ensures standard { IfOk result (λ t. Literal true (string_bytes t) input.now) }
    ensures not_standard { IfOk result (λ t. Literal false (string_bytes t) input.now) }
    ensures form { IfOk result (λ t. IsPlain (string_bytes t) ↔ (¬ Contains input.now backslash)) }
    ensures memory { IfErr result (WantsMemory A.Lacks) }
{
    match memchr(b'\\', input.as_bytes()) {
        Some(_) => quoted(alloc, input, ESCAPED),
        None => quoted(alloc, input, STANDARD),
    }
}

/// The input as a quoted identifier, between `"`. A server rejects an empty identifier, and cuts one that
/// is longer than its limit, which is 63 bytes by default (manual, 4.1.1).
///
/// # Errors
///
/// Returns `OutOfMemory` if memory for the text can't be allocated.
#[tactic(auto, using(crate::proofs::Quoting::identifier_reads))]
pub fn escape_identifier<A: Memory>(alloc: A, input: &str) -> Result<String<A>, Error>
    ensures ok { IfOk result (λ t. Identifier (string_bytes t) input.now) }
    ensures memory { IfErr result (WantsMemory A.Lacks) }
{
    quoted(alloc, input, IDENTIFIER)
}
