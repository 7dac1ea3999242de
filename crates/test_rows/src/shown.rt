//! What came, as a row says it: words with one space between them.

use crate::fault::Fault;
use pgp_base::Error;
use std::alloc::Global;
use std::fmt::Display;

/// An item of a list, which is shown as words.
pub trait Show {
    fn show(self, out: &mut Shown);
}

/// Words that are written one after the other. A fault, as no memory for one of them, is remembered, and reported where they are compared.
#[derive(Drop)]
pub struct Shown {
    alloc: Global,
    text: String,
    fault: Option<Fault>,
}

impl Shown {
    pub fn new(alloc: Global) -> Shown {
        Shown {
            alloc,
            text: String::new(alloc),
            fault: None,
        }
    }

    pub fn as_str(&self) -> &str {
        self.text.as_str()
    }

    pub fn alloc(&self) -> Global {
        self.alloc
    }

    /// Remembers a fault.
    pub fn fail(&mut self, fault: Fault) {
        self.fault = Some(fault);
    }

    /// Remembers why something is a fault, if it is one.
    pub fn keep(&mut self, answer: Result<(), Fault>) {
        if let Err(fault) = answer {
            self.fail(fault);
        }
    }

    /// Has to be what came until now. It makes place for what comes next.
    pub fn received_to(&mut self, wanted: &str) -> Result<(), Fault> {
        if let Some(fault) = self.fault {
            return Err(fault);
        }
        if self.text.as_str() != wanted {
            return Err(Fault::Differs);
        }
        self.text.clear();
        Ok(())
    }

    /// The same of what was cut short: it has to be a front.
    pub fn received_front(&mut self, wanted: &str) -> Result<(), Fault> {
        match wanted.get(..self.text.len()) {
            Some(front) => self.received_to(front),
            None => Err(Fault::Differs),
        }
    }

    /// Appends to the last word.
    fn put(&mut self, part: &str) {
        if self.text.push_str(part).is_err() {
            self.fail(Fault::Memory);
        }
    }

    pub fn word(&mut self, word: &str) {
        if !self.text.is_empty() {
            self.put(" ");
        }
        self.put(word);
    }

    /// A number, or whatever has a text.
    pub fn number<N: Display + Drop>(&mut self, n: N) {
        match format!(in self.alloc; "{n}") {
            Ok(text) => self.word(text.as_str()),
            Err(_) => self.fail(Fault::Memory),
        }
    }

    /// Appends bytes to the last word.
    pub fn more_bytes(&mut self, bytes: &[u8]) {
        match hex::encode(self.alloc, bytes) {
            Ok(digits) => self.put(digits.as_str()),
            Err(_) => self.fail(Fault::Memory),
        }
    }

    /// Bytes as hex digits, or none as `""`.
    pub fn bytes(&mut self, bytes: &[u8]) {
        if bytes.is_empty() {
            return self.word("\"\"");
        }
        self.word("");
        self.more_bytes(bytes);
    }

    /// Bytes, or `null`.
    pub fn nullable(&mut self, bytes: Option<&[u8]>) {
        match bytes {
            Some(bytes) => self.bytes(bytes),
            None => self.word("null"),
        }
    }

    /// A byte of a text: what isn't plain ASCII, a quote or a backslash is `\x` and two digits.
    fn put_byte(&mut self, byte: u8) {
        let is_plain = (0x20..0x7f).contains(&byte) && byte != b'"' && byte != b'\\';
        if !is_plain {
            self.put("\\x");
            self.more_bytes(&[byte]);
        } else if self.text.push(char::from(byte)).is_err() {
            self.fail(Fault::Memory);
        }
    }

    /// A text in quotes.
    pub fn text(&mut self, text: &str) {
        self.word("\"");
        for byte in text.bytes() {
            self.put_byte(byte);
        }
        self.put("\"");
    }

    /// Bytes that have to be a text.
    pub fn text_of(&mut self, bytes: &[u8]) {
        match str::from_utf8(bytes) {
            Ok(text) => self.text(text),
            Err(_) => self.word("no text"),
        }
    }

    /// The name of an error, with the tag or the code that it carries.
    pub fn refusal(&mut self, refusal: Error) {
        self.number(refusal);
        match refusal {
            Error::UnknownTag(tag) => self.number(tag),
            Error::UnknownAuthentication(code) => self.number(code),
            _ => {}
        }
    }

    /// A text that was made, or why it wasn't.
    pub fn made(&mut self, text: Result<String, Error>) {
        match text {
            Ok(text) => self.text(text.as_str()),
            Err(e) => self.refusal(e),
        }
    }

    /// A text that may have been rejected.
    pub fn text_or_refusal(&mut self, text: Result<&str, Error>) {
        match text {
            Ok(text) => self.text(text),
            Err(e) => self.refusal(e),
        }
    }
}

/// Bytes, or `null`.
impl Show for Option<&[u8]> {
    fn show(self, out: &mut Shown) {
        out.nullable(self);
    }
}

/// A text.
impl Show for &str {
    fn show(self, out: &mut Shown) {
        out.text(self);
    }
}

/// A type.
impl Show for u32 {
    fn show(self, out: &mut Shown) {
        out.number(self);
    }
}

/// A format.
impl Show for u16 {
    fn show(self, out: &mut Shown) {
        out.number(self);
    }
}

/// A format.
impl Show for i16 {
    fn show(self, out: &mut Shown) {
        out.number(self);
    }
}

/// A transaction.
impl Show for u64 {
    fn show(self, out: &mut Shown) {
        out.number(self);
    }
}

/// Bytes.
impl Show for &[u8] {
    fn show(self, out: &mut Shown) {
        out.bytes(self);
    }
}
