//! Statements by their words.

use crate::command::{Command, SEPARATOR, command_of};
use crate::outbox::Outbox;
use crate::text::{trimmed, uncommented};

/// A statement: its text, the same without comments, and its words.
#[derive(Drop)]
pub(crate) struct Wording {
    pub(crate) text: Vec<u8>,
    pub(crate) bare: Vec<u8>,
    pub(crate) words: String,
    /// The place of the script's answer, once it is bound.
    pub(crate) place: Option<usize>,
}

impl Wording {
    pub(crate) fn new(text: &[u8], out: &mut Outbox) -> Wording {
        let whole = uncommented(text, out);
        let bare = out.copy(trimmed(&whole));
        Wording {
            text: out.copy(text),
            words: words_of(&bare, out),
            bare,
            place: None,
        }
    }

    /// Whether it has nothing but blanks and comments.
    pub(crate) fn is_blank(&self) -> bool {
        self.bare.is_empty()
    }

    /// The command that it is, if it is one.
    pub(crate) fn command(&self) -> Option<Command<'_>> {
        command_of(&self.words)
    }
}

/// The words of a text: in small letters, but what stands in quotes, which is a word of its own and begins with the mark, as `"Name`. Each is
/// behind a separator, which stands in no text. None where the text isn't UTF-8.
pub(crate) fn words_of(text: &[u8], out: &mut Outbox) -> String {
    let mut words = String::new(out.alloc);
    let mut place = Place::Between;
    for letter in str::from_utf8(text).unwrap_or("").chars() {
        place = place.after(letter, &mut words, out);
    }
    words
}

/// Where a letter of a text stands.
#[derive(Clone, Copy, PartialEq, Eq)]
enum Place {
    Between,
    Word,
    Quotes(char),
    /// Behind quotes, which go on where the mark stands twice.
    Behind(char),
}

impl Place {
    /// Adds a letter that stands here, and returns where the next one stands.
    fn after(self, letter: char, words: &mut String, out: &mut Outbox) -> Place {
        match self {
            Place::Quotes(mark) if letter == mark => Place::Behind(mark),
            Place::Behind(mark) if letter == mark => {
                out.keep(words.push(letter));
                Place::Quotes(mark)
            }
            Place::Quotes(_) => {
                out.keep(words.push(letter));
                self
            }
            _ if letter.is_ascii_whitespace() => Place::Between,
            _ if letter == '"' || letter == '\'' => {
                begin(letter, words, out);
                Place::Quotes(letter)
            }
            Place::Between | Place::Behind(_) => {
                begin(letter.to_ascii_lowercase(), words, out);
                Place::Word
            }
            Place::Word => {
                out.keep(words.push(letter.to_ascii_lowercase()));
                self
            }
        }
    }
}

/// Adds the first letter of a word.
fn begin(letter: char, words: &mut String, out: &mut Outbox) {
    if !words.is_empty() {
        out.keep(words.push(SEPARATOR));
    }
    out.keep(words.push(letter));
}
