//! Arrays of one dimension, by the text in which a server shows them.
//!
//! PostgreSQL manual, "Arrays", "Array Input and Output Syntax".

use crate::binary::Unwritten;
use crate::outbox::push;
use std::alloc::Global;

/// Where a byte of an element stands.
#[derive(Clone, Copy, PartialEq, Eq)]
enum Place {
    Before,
    Bare,
    Quotes,
    /// After a backslash, in quotes or outside.
    Escaped(bool),
    /// Behind its quotes.
    Behind,
}

impl Place {
    /// Where the next byte stands, and whether this one belongs to the value; `None` where it has no place.
    fn after(self, byte: u8) -> Option<(Place, bool)> {
        match (self, byte) {
            (Place::Escaped(true), _) => Some((Place::Quotes, true)),
            (Place::Escaped(false), _) => Some((Place::Bare, true)),
            (Place::Quotes, b'"') => Some((Place::Behind, false)),
            (Place::Before, b'"') => Some((Place::Quotes, false)),
            (Place::Behind, _) => None,
            (place, b'\\') => Some((Place::Escaped(place == Place::Quotes), false)),
            (Place::Quotes, _) => Some((Place::Quotes, true)),
            (_, b'"' | b'{' | b'}') => None,
            _ => Some((Place::Bare, true)),
        }
    }

    /// Adds the element that ends here.
    fn end(self, bytes: Vec<u8>, elements: &mut Vec<Option<Vec<u8>>>) -> Result<(), Unwritten> {
        let element = match self {
            Place::Bare if bytes.as_slice().eq_ignore_ascii_case(b"null") => None,
            Place::Bare | Place::Behind => Some(bytes),
            _ => return Err(Unwritten::NotOfType),
        };
        Ok(push(elements, element)?)
    }
}

/// Adds the elements of the text between the braces.
fn add_elements(
    alloc: Global,
    inside: &[u8],
    elements: &mut Vec<Option<Vec<u8>>>,
) -> Result<(), Unwritten> {
    let (mut place, mut bytes) = (Place::Before, Vec::new(alloc));
    for byte in inside {
        if *byte == b',' && matches!(place, Place::Before | Place::Bare | Place::Behind) {
            place.end(std::mem::replace(&mut bytes, Vec::new(alloc)), elements)?;
            place = Place::Before;
            continue;
        }
        let Some((next, is_part)) = place.after(*byte) else {
            return Err(Unwritten::NotOfType);
        };
        place = next;
        if is_part {
            push(&mut bytes, *byte)?;
        }
    }
    place.end(bytes, elements)
}

/// The elements of `{1,NULL,"a b"}`, a null as `None`.
///
/// # Errors
///
/// Returns `NotOfType` of another text, and `Memory`.
pub(crate) fn elements_of(alloc: Global, text: &str) -> Result<Vec<Option<Vec<u8>>>, Unwritten> {
    let mut elements = Vec::new(alloc);
    match text.strip_prefix('{').unwrap_or("").strip_suffix('}') {
        Some("") => {}
        Some(inside) => add_elements(alloc, inside.as_bytes(), &mut elements)?,
        None => return Err(Unwritten::NotOfType),
    }
    Ok(elements)
}
