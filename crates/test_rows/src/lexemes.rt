//! Texts to be searched: lexemes, each with its places.

use crate::shown::{Show, Shown};
use crate::word::Words;
use pgp_base::{Buffer, Error};
use pgp_values::{TsPositions, tsvector_to_sql};
use std::alloc::AllocError;

// A lexeme and its places.
#[derive(Drop)]
struct PlacedLexeme {
    text: String,
    places: Vec<u16>,
}

fn lexemes(words: &mut Words<'_>) -> Result<Vec<PlacedLexeme>, AllocError> {
    let mut lexemes = Vec::new(words.alloc());
    words.expect("[");
    for _ in 0..100 {
        if words.takes("]") {
            return Ok(lexemes);
        }
        let text = String::from_str(words.alloc(), words.text())?;
        let places = words.list::<u16>();
        if lexemes.push(PlacedLexeme { text, places }).is_err() {
            return Err(AllocError);
        }
    }
    words.fail_row();
    Ok(lexemes)
}

pub fn write_tsvector<B: Buffer>(words: &mut Words<'_>, buf: &mut B) -> Result<(), Error> {
    let lexemes = lexemes(words)?;
    let mut items = Vec::new(words.alloc());
    for lexeme in lexemes.iter() {
        if items
            .push((lexeme.text.as_str(), lexeme.places.as_slice()))
            .is_err()
        {
            return Err(Error::OutOfMemory);
        }
    }
    tsvector_to_sql(items.iter().copied(), buf)
}

// A lexeme and its places.
impl Show for (&str, TsPositions<'_>) {
    fn show(self, out: &mut Shown) {
        let (text, places) = self;
        out.text(text);
        show_places(places, out);
    }
}

fn show_places(places: TsPositions<'_>, out: &mut Shown) {
    out.word("[");
    for i in 0..places.len() {
        match places.get(i) {
            Some(place) => out.number(place),
            None => out.word("none"),
        }
    }
    out.word("]");
    if places.get(places.len()).is_some() || places.is_empty() != (places.len() == 0) {
        out.word("and more");
    }
}
