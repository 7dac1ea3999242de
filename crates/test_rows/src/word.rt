//! The words of a row.

use crate::fault::Fault;
use crate::shown::Shown;
use pgp_base::Error;
use std::alloc::{AllocError, Global};
use std::num::ParseIntError;
use std::str::FromStr;

/// A word: as it is written, and the bytes that it stands for, if it is a quoted text or hex digits.
#[derive(Drop)]
pub struct Word {
    raw: String,
    quoted: bool,
    bytes: Option<Vec<u8>>,
}

impl Word {
    /// Whether it is this word, and no quoted text.
    fn is(&self, word: &str) -> bool {
        !self.quoted && self.raw.as_str() == word
    }

    /// Shows it as a part of a message is shown: a text as its bytes.
    pub fn show(&self, out: &mut Shown) {
        match &self.bytes {
            Some(bytes) if self.quoted => out.bytes(bytes),
            _ => out.word(self.raw.as_str()),
        }
    }
}

/// Appends what stands after a `\x`: the byte of two digits, and the rest.
fn unescape(piece: &str, out: &mut Vec<u8>) -> Result<(), Fault> {
    let (digits, rest) = piece.split_at_checked(2).ok_or(Fault::Row)?;
    let Ok(byte) = u8::from_str_radix(digits, 16) else {
        return Err(Fault::Row);
    };
    out.extend_from_slice(&[byte])?;
    out.extend_from_slice(rest.as_bytes())?;
    Ok(())
}

/// Appends what a quoted text stands for: `\x` and two digits is a byte.
fn put_quoted(text: &str, out: &mut Vec<u8>) -> Result<(), Fault> {
    let mut pieces = text.split("\\x");
    if let Some(front) = pieces.next() {
        out.extend_from_slice(front.as_bytes())?;
    }
    for piece in pieces {
        unescape(piece, out)?;
    }
    Ok(())
}

fn quoted(alloc: Global, text: &str) -> Result<Word, Fault> {
    let mut bytes = Vec::new(alloc);
    put_quoted(text, &mut bytes)?;
    Ok(Word {
        raw: String::new(alloc),
        quoted: true,
        bytes: Some(bytes),
    })
}

fn bare(alloc: Global, word: &str) -> Result<Word, AllocError> {
    Ok(Word {
        raw: String::from_str(alloc, word)?,
        quoted: false,
        bytes: hex::decode(alloc, word).ok(),
    })
}

/// Appends the words between two quoted texts.
fn put_bare(alloc: Global, piece: &str, words: &mut Vec<Word>) -> Result<(), AllocError> {
    for word in piece.split_ascii_whitespace() {
        words.push(bare(alloc, word)?)?;
    }
    Ok(())
}

/// Appends the words of a text.
fn put_words(alloc: Global, text: &str, words: &mut Vec<Word>) -> Result<(), Fault> {
    let mut is_quoted = false;
    for piece in text.split('"') {
        if is_quoted {
            let word = quoted(alloc, piece)?;
            if words.push(word).is_err() {
                return Err(Fault::Memory);
            }
        } else {
            put_bare(alloc, piece, words)?;
        }
        is_quoted = !is_quoted;
    }
    Ok(())
}

/// The words of a text.
pub fn words_of(alloc: Global, text: &str) -> Result<Vec<Word>, Fault> {
    let mut words = Vec::new(alloc);
    put_words(alloc, text, &mut words)?;
    Ok(words)
}

/// The bytes of all words of a text.
pub fn bytes_of(alloc: Global, text: &str) -> Result<Vec<u8>, Fault> {
    let all = words_of(alloc, text)?;
    let mut words = Words::new(alloc, &all);
    let bytes = words.joined();
    match words.end() {
        Ok(()) => Ok(bytes),
        Err(fault) => Err(fault),
    }
}

/// Words that are read from the left. A word that isn't there, or is of another kind, is remembered as a fault, which the end says.
#[derive(Drop)]
pub struct Words<'w> {
    alloc: Global,
    rest: &'w [Word],
    fault: Option<Fault>,
}

/// What a list of words can hold.
pub trait Item<'w> {
    fn read(words: &mut Words<'w>) -> Self;
}

impl<'w> Words<'w> {
    pub fn new(alloc: Global, words: &'w [Word]) -> Words<'w> {
        Words {
            alloc,
            rest: words,
            fault: None,
        }
    }

    pub fn alloc(&self) -> Global {
        self.alloc
    }

    /// Remembers a fault.
    fn fail(&mut self, fault: Fault) {
        self.fault = Some(fault);
    }

    /// The row is not written as it has to be.
    pub fn fail_row(&mut self) {
        self.fail(Fault::Row);
    }

    /// There is no such call.
    pub fn no_call(&mut self) -> Result<(), Error> {
        self.fail_row();
        Ok(())
    }

    /// Takes the next word, if it is this one.
    pub fn takes(&mut self, name: &str) -> bool {
        match self.rest.split_first() {
            Some((word, rest)) if word.is(name) => {
                self.rest = rest;
                true
            }
            _ => false,
        }
    }

    /// The next word has to be this one.
    pub fn expect(&mut self, name: &str) {
        if !self.takes(name) {
            self.fail_row();
        }
    }

    /// The next word has to be one of these two: whether it is the first.
    pub fn either(&mut self, first: &str, second: &str) -> bool {
        let is_first = self.takes(first);
        if !is_first {
            self.expect(second);
        }
        is_first
    }

    fn word(&mut self) -> Option<&'w Word> {
        let (word, rest) = self.rest.split_first()?;
        self.rest = rest;
        Some(word)
    }

    /// The next word as it is written.
    pub fn name(&mut self) -> &'w str {
        match self.word() {
            Some(word) => word.raw.as_str(),
            None => "",
        }
    }

    /// Whether no word is left.
    pub fn is_empty(&self) -> bool {
        self.rest.is_empty()
    }

    /// The bytes of a quoted text or of hex digits.
    pub fn bytes(&mut self) -> &'w [u8] {
        if let Some(word) = self.word() {
            if let Some(bytes) = &word.bytes {
                return bytes.as_slice();
            }
        }
        self.fail_row();
        &[]
    }

    /// Bytes, or `null`.
    pub fn nullable(&mut self) -> Option<&'w [u8]> {
        if self.takes("null") {
            return None;
        }
        Some(self.bytes())
    }

    pub fn text(&mut self) -> &'w str {
        match str::from_utf8(self.bytes()) {
            Ok(text) => text,
            Err(_) => {
                self.fail_row();
                ""
            }
        }
    }

    /// Exactly so many bytes.
    pub fn block<const N: usize>(&mut self) -> [u8; N] {
        match self.bytes().split_first_chunk::<N>() {
            Some((block, [])) => *block,
            _ => {
                self.fail_row();
                [0; N]
            }
        }
    }

    /// The byte of a one-letter text.
    pub fn letter(&mut self) -> u8 {
        let [letter] = self.block::<1>();
        letter
    }

    /// A number.
    pub fn number<N: FromStr<Err = ParseIntError> + Default>(&mut self) -> N {
        if let Some(word) = self.word() {
            if let Ok(number) = word.raw.parse::<N>() {
                return number;
            }
        }
        self.fail_row();
        N::default()
    }

    /// The eight bytes of a coordinate.
    pub fn coordinate(&mut self) -> u64 {
        u64::from_be_bytes(self.block())
    }

    /// A list, `[ .. ]`.
    pub fn list<T: Item<'w> + Drop>(&mut self) -> Vec<T> {
        let mut items = Vec::new(self.alloc);
        self.expect("[");
        for _ in 0..self.rest.len() {
            if self.takes("]") {
                return items;
            }
            let item = T::read(self);
            if items.push(item).is_err() {
                self.fail(Fault::Memory);
            }
        }
        self.expect("]");
        items
    }

    /// The bytes of all words that are left.
    pub fn joined(&mut self) -> Vec<u8> {
        let mut bytes = Vec::new(self.alloc);
        for _ in 0..self.rest.len() {
            if bytes.extend_from_slice(self.bytes()).is_err() {
                self.fail(Fault::Memory);
            }
        }
        bytes
    }

    /// No fault was remembered, and nothing is left.
    pub fn end(&self) -> Result<(), Fault> {
        match self.fault {
            Some(fault) => Err(fault),
            None if self.rest.is_empty() => Ok(()),
            None => Err(Fault::Row),
        }
    }
}

/// A type.
impl<'w> Item<'w> for u32 {
    fn read(words: &mut Words<'w>) -> u32 {
        words.number()
    }
}

/// A format.
impl<'w> Item<'w> for u16 {
    fn read(words: &mut Words<'w>) -> u16 {
        words.number()
    }
}

/// A format.
impl<'w> Item<'w> for i16 {
    fn read(words: &mut Words<'w>) -> i16 {
        words.number()
    }
}

/// A transaction.
impl<'w> Item<'w> for u64 {
    fn read(words: &mut Words<'w>) -> u64 {
        words.number()
    }
}

/// The bytes of a text.
impl<'w> Item<'w> for &'w [u8] {
    fn read(words: &mut Words<'w>) -> &'w [u8] {
        words.bytes()
    }
}

/// Bytes, or `null`.
impl<'w> Item<'w> for Option<&'w [u8]> {
    fn read(words: &mut Words<'w>) -> Option<&'w [u8]> {
        words.nullable()
    }
}
