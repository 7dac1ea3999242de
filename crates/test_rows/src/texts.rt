//! Texts after fronts of ASCII.

use crate::shown::Shown;
use pgp_types::text_from_sql;

/// The longest front of ASCII that is tried.
const FRONT: usize = 70;

/// The most bytes that are tried after it.
const MOST: usize = 16;

/// Whether the bytes are as much of a text after each front of ASCII.
fn is_steady(bytes: &[u8]) -> bool {
    let mut room = [b'a'; FRONT + MOST];
    let end = FRONT.saturating_add(bytes.len());
    let Some(place) = room.get_mut(FRONT..end) else {
        return false;
    };
    place.copy_from_slice(bytes);
    let is_text = text_from_sql(bytes).is_ok();
    for at in 0..FRONT {
        match room.get(at..end) {
            Some(part) if text_from_sql(part).is_ok() == is_text => {}
            _ => return false,
        }
    }
    true
}

/// Shows what the bytes come to as a text; after each front of ASCII they have to come to as much (else `unsteady`).
pub fn text_behind_ascii(bytes: &[u8], out: &mut Shown) {
    if is_steady(bytes) {
        out.text_or_refusal(text_from_sql(bytes));
    } else {
        out.word("unsteady");
    }
}
