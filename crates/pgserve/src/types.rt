//! The server's types that a script may name.

use pgp_base::Oid;

/// A type.
#[derive(Clone, Copy)]
pub(crate) struct Type {
    pub(crate) oid: Oid,
    /// Bytes of a value, -1 where they aren't always as many.
    pub(crate) size: i16,
}

/// The type of a text.
pub(crate) const PLAIN_TEXT: Type = Type {
    oid: TEXT,
    size: -1,
};

pub(crate) const BOOL: Oid = 16;

pub(crate) const BYTEA: Oid = 17;

pub(crate) const NAME: Oid = 19;

pub(crate) const INT8: Oid = 20;

pub(crate) const INT2: Oid = 21;

pub(crate) const INT4: Oid = 23;

pub(crate) const TEXT: Oid = 25;

pub(crate) const OID: Oid = 26;

pub(crate) const JSON: Oid = 114;

pub(crate) const FLOAT4: Oid = 700;

pub(crate) const FLOAT8: Oid = 701;

pub(crate) const BPCHAR: Oid = 1042;

pub(crate) const VARCHAR: Oid = 1043;

pub(crate) const DATE: Oid = 1082;

pub(crate) const TIME: Oid = 1083;

pub(crate) const TIMESTAMP: Oid = 1114;

pub(crate) const TIMESTAMPTZ: Oid = 1184;

pub(crate) const INTERVAL: Oid = 1186;

pub(crate) const NUMERIC: Oid = 1700;

pub(crate) const UUID: Oid = 2950;

pub(crate) const JSONB: Oid = 3802;

/// Names, object identifiers, sizes, and the identifiers of the arrays, of PostgreSQL's catalog `pg_type`.
static TYPES: [(&str, Oid, i16, Oid); 21] = [
    ("bool", BOOL, 1, 1000),
    ("bytea", BYTEA, -1, 1001),
    ("name", NAME, 64, 1003),
    ("int8", INT8, 8, 1016),
    ("int2", INT2, 2, 1005),
    ("int4", INT4, 4, 1007),
    ("text", TEXT, -1, 1009),
    ("oid", OID, 4, 1028),
    ("json", JSON, -1, 199),
    ("float4", FLOAT4, 4, 1021),
    ("float8", FLOAT8, 8, 1022),
    ("bpchar", BPCHAR, -1, 1014),
    ("varchar", VARCHAR, -1, 1015),
    ("date", DATE, 4, 1182),
    ("time", TIME, 8, 1183),
    ("timestamp", TIMESTAMP, 8, 1115),
    ("timestamptz", TIMESTAMPTZ, 8, 1185),
    ("interval", INTERVAL, 16, 1187),
    ("numeric", NUMERIC, -1, 1231),
    ("uuid", UUID, 16, 2951),
    ("jsonb", JSONB, -1, 3807),
];

/// How many bytes a value of this type has in binary format, where all have as many.
pub(crate) fn size_of(oid: Oid) -> Option<usize> {
    for (_, of, size, _) in &TYPES {
        if *of == oid && oid != NAME {
            return usize::try_from(*size).ok();
        }
    }
    None
}

/// The type of the elements of an array of this type.
pub(crate) fn element_of(array: Oid) -> Option<Oid> {
    for (_, oid, _, of) in &TYPES {
        if *of == array {
            return Some(*oid);
        }
    }
    None
}

/// The type of this name; `[]` stands after that of the elements of an array.
fn named(word: &str) -> Option<Type> {
    let element = word.strip_suffix("[]");
    let name = element.unwrap_or(word);
    for (of, oid, size, array) in &TYPES {
        if *of == name {
            return Some(match element {
                Some(_) => Type {
                    oid: *array,
                    size: -1,
                },
                None => Type {
                    oid: *oid,
                    size: *size,
                },
            });
        }
    }
    None
}

/// The type of this name, or of this number, of which no size is known.
pub(crate) fn type_of(word: &str) -> Option<Type> {
    if let Some(found) = named(word) {
        return Some(found);
    }
    match word.parse::<u32>() {
        Ok(oid) => Some(Type { oid, size: -1 }),
        Err(_) => None,
    }
}
