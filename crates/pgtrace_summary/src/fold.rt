//! Statements without their literals.

ghost use Rattle.std.specs.Prelude.{◌≡◌, ◌++◌, drop, get_or, option_map, IfOk, OnErr, OnOk};
ghost use Rattle.pgtrace_summary.specs.Fold.{begun, behind_next, behind_tag, commented, dollared, folded, goes_on, is_among, is_blank, is_closing, is_e, is_literal, is_mark, numbered, opened, quoted, read, shown, step, texted};

use crate::entry::plus;
use pgp_base::Memory;
use std::alloc::AllocError;

/// In what a byte of a statement stands.
#[derive(Clone, Copy)]
pub(crate) enum Inside {
    /// Blanks and closing brackets, behind which anything may begin.
    Between,
    /// An operator, a comma or an opening bracket, and blanks behind it: a sign is a number's here.
    Opened,
    /// A name, a key word or a parameter.
    Word,
    Number,
    /// A text in single quotes, in which a backslash is an escape or not.
    Text(bool),
    /// The end of a text, or one in dollar quotes.
    Closed,
    /// A name in double quotes.
    Name,
    LineComment,
    /// A comment in so many others.
    BlockComment(u64),
}

/// A statement with a question mark in the place of each literal.
pub(crate) fn fold<A: Memory>(alloc: A, text: &[u8]) -> Result<Vec<u8, A>, AllocError>
    ensures folded { IfOk result (λ list. list.items ≡ folded text.now) }
    ensures lacks { OnErr result A.Lacks }
{
    let mut list = Vec::new(alloc);
    let mut inside = Inside::Between;
    let mut same = 0;
    let mut rest = text;
    'bytes: while let Some((byte, behind)) = rest.split_first() {
        let (to, more) = step(inside, same, rest);
        put(inside, to, *byte, &mut list)?;
        inside = to;
        same = more;
        rest = behind;
    }
    Ok(list)
}

/// Adds what is left of a byte that stands in the second, behind one that stands in the first.
fn put<A: Memory>(
    from: Inside,
    to: Inside,
    byte: u8,
    list: &mut Vec<u8, A>,
) -> Result<(), AllocError>
    ensures added { OnOk result (list.new.items ≡ list.old.items ++ shown from to byte) }
    ensures lacks { OnErr result A.Lacks }
{
    if !is_literal(to) {
        A::push(list, byte)?;
    } else if !is_literal(from) {
        A::push(list, b'?')?;
    }
    Ok(())
}

fn is_literal(inside: Inside) -> bool
    ensures { result ≡ is_literal inside }
{
    match inside {
        Inside::Number | Inside::Text(_) | Inside::Closed => true,
        _ => false,
    }
}

/// In what the first byte stands, behind one that stands in this, as so many more do; and how many after it do as well.
fn step(inside: Inside, same: usize, bytes: &[u8]) -> (Inside, usize)
    ensures { result ≡ step inside same bytes.now }
{
    if same == 0 {
        read(inside, byte_at(bytes, 0), byte_at(bytes, 1), bytes)
    } else {
        (inside, same - 1)
    }
}

/// The byte at this place, or 0.
fn byte_at(bytes: &[u8], place: usize) -> u8
    ensures { result ≡ get_or bytes.now place 0 }
{
    match bytes.get(place) {
        Some(byte) => *byte,
        None => 0,
    }
}

fn read(inside: Inside, byte: u8, next: u8, bytes: &[u8]) -> (Inside, usize)
    ensures { result ≡ read inside byte next bytes.now }
{
    match inside {
        Inside::Word if goes_on(byte) => (Inside::Word, 0),
        Inside::Between | Inside::Closed | Inside::Word => begun(byte, next, bytes),
        Inside::Opened => opened(byte, next, bytes),
        Inside::Number => numbered(byte, next, bytes),
        Inside::Text(escapes) => texted(escapes, byte, next),
        Inside::Name if byte != b'"' => (Inside::Name, 0),
        Inside::LineComment if byte != b'\n' => (Inside::LineComment, 0),
        Inside::Name | Inside::LineComment => (Inside::Between, 0),
        Inside::BlockComment(depth) => commented(depth, byte, next),
    }
}

/// Where anything may begin.
fn begun(byte: u8, next: u8, bytes: &[u8]) -> (Inside, usize)
    ensures { result ≡ begun byte next bytes.now }
{
    if byte == b'\'' {
        (Inside::Text(false), 0)
    } else if is_mark(byte) && next == b'\'' {
        (Inside::Text(is_e(byte)), 1)
    } else if is_digit(byte) || (byte == b'.' && is_digit(next)) {
        (Inside::Number, 0)
    } else if byte == b'$' {
        dollared(quoted(bytes))
    } else if goes_on(byte) {
        (Inside::Word, 0)
    } else if byte == b'"' {
        (Inside::Name, 0)
    } else if byte == b'-' && next == b'-' {
        (Inside::LineComment, 0)
    } else if byte == b'/' && next == b'*' {
        (Inside::BlockComment(0), 1)
    } else if is_blank(byte) || is_closing(byte) {
        (Inside::Between, 0)
    } else {
        (Inside::Opened, 0)
    }
}

/// Behind an operator, a comma or an opening bracket.
fn opened(byte: u8, next: u8, bytes: &[u8]) -> (Inside, usize)
    ensures { result ≡ opened byte next bytes.now }
{
    if (byte == b'+' || byte == b'-') && is_digit(next) {
        (Inside::Number, 0)
    } else if is_blank(byte) {
        (Inside::Opened, 0)
    } else {
        begun(byte, next, bytes)
    }
}

fn is_blank(byte: u8) -> bool
    ensures { result ≡ is_blank byte }
{
    byte == b' ' || is_among(b'\t', 13, byte)
}

fn is_closing(byte: u8) -> bool
    ensures { result ≡ is_closing byte }
{
    byte == b')' || byte == b']'
}

/// At a dollar, with which a text of so many bytes begins, or a word.
fn dollared(len: usize) -> (Inside, usize)
    ensures { result ≡ dollared len }
{
    if len >= 1 {
        (Inside::Closed, len - 1)
    } else {
        (Inside::Word, 0)
    }
}

fn is_e(byte: u8) -> bool
    ensures { result ≡ is_e byte }
{
    byte == b'E' || byte == b'e'
}

/// Whether it stands before the quote of a text.
fn is_mark(byte: u8) -> bool
    ensures { result ≡ is_mark byte }
{
    b"BbEeNnXx".contains(&byte)
}

/// In a number, or behind it.
fn numbered(byte: u8, next: u8, bytes: &[u8]) -> (Inside, usize)
    ensures { result ≡ numbered byte next bytes.now }
{
    if is_e(byte) && (next == b'+' || next == b'-') {
        (Inside::Number, 1)
    } else if goes_on(byte) || byte == b'.' {
        (Inside::Number, 0)
    } else {
        begun(byte, next, bytes)
    }
}

/// In a text.
fn texted(escapes: bool, byte: u8, next: u8) -> (Inside, usize)
    ensures { result ≡ texted escapes byte next }
{
    if (byte == b'\'' && next == b'\'') || (escapes && byte == b'\\') {
        (Inside::Text(escapes), 1)
    } else if byte == b'\'' {
        (Inside::Closed, 0)
    } else {
        (Inside::Text(escapes), 0)
    }
}

/// In a comment in so many others.
fn commented(depth: u64, byte: u8, next: u8) -> (Inside, usize)
    ensures { result ≡ commented depth byte next }
{
    if byte == b'*' && next == b'/' {
        if depth == 0 {
            (Inside::Between, 1)
        } else {
            (Inside::BlockComment(depth - 1), 1)
        }
    } else if byte == b'/' && next == b'*' {
        (Inside::BlockComment(plus(depth, 1)), 1)
    } else {
        (Inside::BlockComment(depth), 0)
    }
}

fn is_among(low: u8, high: u8, byte: u8) -> bool
    ensures { result ≡ is_among low high byte }
{
    low <= byte && byte <= high
}

fn is_digit(byte: u8) -> bool
    ensures { result ≡ is_among 48 57 byte }
{
    is_among(b'0', b'9', byte)
}

/// Whether a word goes on with this byte.
fn goes_on(byte: u8) -> bool
    ensures { result ≡ goes_on byte }
{
    is_among(b'a', b'z', byte)
        || is_among(b'A', b'Z', byte)
        || is_digit(byte)
        || byte == b'_'
        || byte == b'$'
        || byte >= 128
}

/// How many bytes the text in dollar quotes has that begins with the first, a dollar; or 0.
fn quoted(bytes: &[u8]) -> usize
    ensures { result ≡ quoted bytes.now }
{
    if is_digit(byte_at(bytes, 1)) {
        return 0;
    }
    let Some(body) = behind_tag(bytes.get(1..).unwrap_or(&[])) else {
        return 0;
    };
    let tag = &bytes[..bytes.len().saturating_sub(body.len())];
    bytes.len().saturating_sub(behind_next(tag, body).len())
}

/// What stands behind a tag, of which the first dollar is read.
fn behind_tag(bytes: &[u8]) -> Option<&[u8]>
    ensures { option_map (λ rest. rest.now) result ≡ behind_tag bytes.now }
{
    let mut rest = bytes;
    'bytes: while let Some((byte, behind)) = rest.split_first() {
        if *byte == b'$' {
            return Some(behind);
        }
        if !goes_on(*byte) {
            return None;
        }
        rest = behind;
    }
    None
}

/// What stands behind the next place of a tag; nothing where it has none.
fn behind_next<'a>(tag: &[u8], bytes: &'a [u8]) -> &'a [u8]
    ensures { result.now ≡ behind_next tag.now bytes.now }
{
    let mut rest = bytes;
    'bytes: while let Some((_, behind)) = rest.split_first() {
        if rest.starts_with(tag) {
            return &rest[tag.len()..];
        }
        rest = behind;
    }
    rest
}
