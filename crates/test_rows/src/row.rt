//! A row: a call with its words, and what it comes to.

use crate::fault::Fault;
use crate::word::bytes_of;
use std::alloc::Global;

/// A row, `CALL WORDS = RESULT`.
#[derive(Clone, Copy)]
pub struct Row<'a> {
    pub call: &'a str,
    pub left: &'a str,
    pub right: &'a str,
}

/// A word, and what stands after it.
fn first_word(text: &str) -> (&str, &str) {
    text.split_once(' ').unwrap_or((text, ""))
}

impl<'a> Row<'a> {
    /// The row of a line.
    pub fn parse(line: &'a str) -> Result<Row<'a>, Fault> {
        let (call, right) = line.split_once(" = ").ok_or(Fault::Row)?;
        let (call, left) = first_word(call);
        Ok(Row { call, left, right })
    }

    /// The first word after the call, and what stands after that.
    pub fn front(&self) -> (&'a str, &'a str) {
        first_word(self.left)
    }

    /// Whether the result is an error: its name begins with a capital.
    pub fn is_refusal(&self) -> bool {
        match self.right.chars().next() {
            Some(first) => first.is_ascii_uppercase(),
            None => false,
        }
    }

    /// The bytes of the result.
    pub fn wanted_bytes(&self, alloc: Global) -> Result<Vec<u8>, Fault> {
        bytes_of(alloc, self.right)
    }
}
