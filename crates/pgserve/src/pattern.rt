//! Patterns of statements: regular expressions, by the crate `regex`.

use crate::outbox::Outbox;
use regex::{Error, Regex};

/// The regular expression of this text; `None` where it is none.
pub(crate) fn regex_of(pattern: &str, out: &mut Outbox) -> Option<Regex> {
    match Regex::new(out.alloc, pattern) {
        Ok(regex) => Some(regex),
        Err(Error::OutOfMemory) => {
            out.lack();
            None
        }
        Err(why) => {
            drop(why);
            None
        }
    }
}

/// Whether it matches somewhere in the text.
pub(crate) fn is_found(regex: &Regex, text: &str, out: &mut Outbox) -> bool {
    match regex.matcher(out.alloc) {
        Ok(mut matcher) => matcher.is_match(text),
        Err(_) => {
            out.lack();
            false
        }
    }
}
