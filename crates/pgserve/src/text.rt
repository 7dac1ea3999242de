//! Texts of a script, and of statements.

use crate::outbox::Outbox;
use std::alloc::AllocError;

/// What a letter after a backslash stands for.
fn escape_of(letter: u8) -> Option<u8> {
    match letter {
        b'\\' => Some(b'\\'),
        b'n' => Some(b'\n'),
        b'r' => Some(b'\r'),
        b't' => Some(b'\t'),
        _ => None,
    }
}

/// The value of a hexadecimal digit.
fn digit_of(letter: u8) -> Option<u8> {
    u8::try_from(char::from(letter).to_digit(16)?).ok()
}

/// How much of an escape was read.
#[derive(Clone, Copy, PartialEq, Eq)]
enum Escape {
    Outside,
    Backslash,
    /// The x of a byte in two hexadecimal digits.
    Hex,
    /// Its first digit.
    Digit(u8),
}

impl Escape {
    /// How much is read with this byte, and the byte that is meant, if it ends here; `None` where it has no place.
    fn after(self, byte: u8) -> Option<(Escape, Option<u8>)> {
        match self {
            Escape::Outside if byte == b'\\' => Some((Escape::Backslash, None)),
            Escape::Outside => Some((Escape::Outside, Some(byte))),
            Escape::Backslash if byte == b'x' => Some((Escape::Hex, None)),
            Escape::Backslash => Some((Escape::Outside, Some(escape_of(byte)?))),
            Escape::Hex => Some((Escape::Digit(digit_of(byte)?), None)),
            Escape::Digit(high) => {
                let low = digit_of(byte)?;
                Some((
                    Escape::Outside,
                    Some(high.wrapping_mul(16).wrapping_add(low)),
                ))
            }
        }
    }
}

/// Adds a text without its escapes, which are `\\`, `\n`, `\r` and `\t`, and `\x` with two digits, as in the text format of PostgreSQL's
/// `COPY`. Returns whether no other stands in it.
pub(crate) fn add_unescaped(text: &str, bytes: &mut Vec<u8>) -> Result<bool, AllocError> {
    let mut escape = Escape::Outside;
    for byte in text.bytes() {
        let Some((next, meant)) = escape.after(byte) else {
            return Ok(false);
        };
        escape = next;
        if let Some(byte) = meant {
            bytes.push(byte)?;
        }
    }
    Ok(escape == Escape::Outside)
}

/// A statement without the spaces around it and the semicolon after it.
pub(crate) fn trimmed(statement: &[u8]) -> &[u8] {
    let text = statement.trim_ascii();
    match text.strip_suffix(b";".as_slice()) {
        Some(front) => front.trim_ascii_end(),
        None => text,
    }
}

/// In what a byte of a query stands.
#[derive(Clone, Copy, PartialEq, Eq)]
enum Inside {
    Statement,
    /// A text or a name, up to this mark.
    Quotes(u8),
    LineComment,
    /// A comment in so many others.
    BlockComment(usize),
}

impl Inside {
    fn is_comment(self) -> bool {
        matches!(self, Inside::LineComment | Inside::BlockComment(_))
    }

    /// In what the next byte stands, after this byte and the one before it.
    fn after(self, before: u8, byte: u8) -> Inside {
        match self {
            Inside::Quotes(mark) if byte == mark => Inside::Statement,
            Inside::LineComment if byte == b'\n' => Inside::Statement,
            Inside::BlockComment(depth) => commented(depth, before, byte),
            Inside::Statement => opened(before, byte),
            same => same,
        }
    }
}

/// In what the next byte stands, after these two of a statement.
fn opened(before: u8, byte: u8) -> Inside {
    match byte {
        b'\'' | b'"' => Inside::Quotes(byte),
        b'-' if before == b'-' => Inside::LineComment,
        b'*' if before == b'/' => Inside::BlockComment(0),
        _ => Inside::Statement,
    }
}

/// In what the next byte stands, after these two of a comment in so many others.
fn commented(depth: usize, before: u8, byte: u8) -> Inside {
    match (before, byte) {
        (b'*', b'/') if depth == 0 => Inside::Statement,
        (b'*', b'/') => Inside::BlockComment(depth.saturating_sub(1)),
        (b'/', b'*') => Inside::BlockComment(depth.saturating_add(1)),
        _ => Inside::BlockComment(depth),
    }
}

/// The place of the first semicolon that stands in no quotes and no comment, or the query's length.
fn end_of_first(query: &[u8]) -> usize {
    let (mut inside, mut before) = (Inside::Statement, 0u8);
    for (place, byte) in query.iter().enumerate() {
        if inside == Inside::Statement && *byte == b';' {
            return place;
        }
        let next = inside.after(before, *byte);
        before = if inside == next { *byte } else { 0 };
        inside = next;
    }
    query.len()
}

/// The first statement of a query, and what follows its semicolon.
pub(crate) fn first_of(query: &[u8]) -> (&[u8], &[u8]) {
    let (first, rest) = query.split_at(end_of_first(query).min(query.len()));
    match rest {
        [_, behind @ ..] => (first.trim_ascii(), behind),
        _ => (first.trim_ascii(), rest),
    }
}

/// The statement of a query that has one at most; `None` where it has more.
pub(crate) fn only_of<'q>(query: &'q [u8], out: &mut Outbox) -> Option<&'q [u8]> {
    let (first, mut rest) = first_of(query);
    for _ in 0..query.len() {
        let (next, behind) = first_of(rest);
        if !next.is_empty() && !is_blank(next, out) {
            return None;
        }
        rest = behind;
    }
    Some(first)
}

/// A text in which a blank stands for each comment. The first byte of a comment's mark was copied before the second showed what it is.
pub(crate) fn uncommented(text: &[u8], out: &mut Outbox) -> Vec<u8> {
    let mut bare = Vec::new(out.alloc);
    let (mut inside, mut before) = (Inside::Statement, 0u8);
    for byte in text {
        let next = inside.after(before, *byte);
        match (inside.is_comment(), next.is_comment()) {
            (false, true) => {
                let _ = bare.pop();
                out.add(&mut bare, b' ');
            }
            (false, false) => out.add(&mut bare, *byte),
            (true, _) => {}
        }
        before = if inside == next { *byte } else { 0 };
        inside = next;
    }
    bare
}

/// Whether nothing stands in the text but blanks and comments.
pub(crate) fn is_blank(text: &[u8], out: &mut Outbox) -> bool {
    uncommented(text, out).trim_ascii().is_empty()
}
