//! What a portal was bound to, and the rows that are sent for it.

use crate::answer::format_of;
use crate::input::is_value;
use crate::outbox::Outbox;
use crate::script::{Condition, Row};
use pgp_base::Oid;

/// The value of a parameter: its bytes, none of a null, its format and its type.
#[derive(Drop)]
pub(crate) struct Given {
    bytes: Option<Vec<u8>>,
    format: i16,
    oid: Oid,
}

/// The values of the parameters, and the formats of the results.
#[derive(Clone, Copy)]
pub(crate) struct Bound<'b> {
    pub(crate) values: &'b [Given],
    pub(crate) formats: &'b [i16],
}

fn copied(value: Option<&[u8]>, out: &mut Outbox) -> Option<Vec<u8>> {
    match value {
        Some(bytes) => Some(out.copy(bytes)),
        None => None,
    }
}

/// The values of parameters of these types, which came in these formats.
pub(crate) fn given_of(
    types: &[Oid],
    formats: &[i16],
    values: &[Option<&[u8]>],
    out: &mut Outbox,
) -> Vec<Given> {
    let mut given = Vec::new(out.alloc);
    for (oid, value) in types.iter().zip(values) {
        let one = Given {
            bytes: copied(*value, out),
            format: format_of(formats, given.len()),
            oid: *oid,
        };
        out.add(&mut given, one);
    }
    given
}

fn is_met(condition: &Condition, values: &[Given], out: &mut Outbox) -> bool {
    let Some(given) = values.get(condition.place) else {
        return false;
    };
    match &given.bytes {
        Some(bytes) => is_value(given.oid, given.format, bytes, &condition.value, out),
        None => false,
    }
}

/// Whether the row is sent for these values.
pub(crate) fn is_sent(row: &Row, values: &[Given], out: &mut Outbox) -> bool {
    match &row.condition {
        Some(condition) => is_met(condition, values, out),
        None => true,
    }
}
