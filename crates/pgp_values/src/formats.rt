//! Which codec reads and writes the values of a type.
#![tactic(auto)]

ghost use Rattle.std.specs.Prelude.{◌≡◌};
ghost use Rattle.pgp_values.specs.Formats.{formats};
ghost use Rattle.pgp_values.specs.FormatTable.{format_in, IsRising};

use pgp_base::Oid;

/// How the values of a type are spelled in binary format. Each is named for its codec: `Int4` for `int4_from_sql` and
/// `int4_to_sql`.
#[derive(Debug, Clone, Copy, PartialEq, Eq)]
pub enum BinaryFormat {
    /// Also of an `int2vector` and an `oidvector`. The array says the type of its elements.
    Array,
    Bool,
    Box,
    Bytea,
    Char,
    Cidr,
    Circle,
    Date,
    Float4,
    Float8,
    Inet,
    Int2,
    Int4,
    Int8,
    Interval,
    Jsonb,
    Jsonpath,
    Line,
    Lseg,
    Lsn,
    Macaddr,
    Macaddr8,
    Money,
    /// Of ranges of this type.
    Multirange(Oid),
    Numeric,
    /// Also of a transaction's number and of the types that name an object, as `regclass`.
    Oid,
    Path,
    Point,
    Polygon,
    /// With bounds of this type.
    Range(Oid),
    Record,
    Snapshot,
    /// Also of a `name`, a `json` and an `xml`.
    Text,
    Tid,
    Time,
    /// Of a `timestamp` and a `timestamptz`.
    Timestamp,
    Timetz,
    Tsquery,
    Tsvector,
    Uuid,
    /// Of a `bit` and a `varbit`.
    Varbit,
    Xid8,
}

#[rattlefmt::skip]
static FORMATS: [(Oid, BinaryFormat); 181] = [
    (16, BinaryFormat::Bool), (17, BinaryFormat::Bytea), (18, BinaryFormat::Char),
    (19, BinaryFormat::Text), (20, BinaryFormat::Int8), (21, BinaryFormat::Int2),
    (22, BinaryFormat::Array), (23, BinaryFormat::Int4), (24, BinaryFormat::Oid),
    (25, BinaryFormat::Text), (26, BinaryFormat::Oid), (27, BinaryFormat::Tid),
    (28, BinaryFormat::Oid), (29, BinaryFormat::Oid), (30, BinaryFormat::Array),
    (71, BinaryFormat::Record), (75, BinaryFormat::Record), (81, BinaryFormat::Record),
    (83, BinaryFormat::Record), (114, BinaryFormat::Text), (142, BinaryFormat::Text),
    (143, BinaryFormat::Array), (194, BinaryFormat::Text), (199, BinaryFormat::Array),
    (210, BinaryFormat::Array), (270, BinaryFormat::Array), (271, BinaryFormat::Array),
    (272, BinaryFormat::Array), (273, BinaryFormat::Array), (600, BinaryFormat::Point),
    (601, BinaryFormat::Lseg), (602, BinaryFormat::Path), (603, BinaryFormat::Box),
    (604, BinaryFormat::Polygon), (628, BinaryFormat::Line), (629, BinaryFormat::Array),
    (650, BinaryFormat::Cidr), (651, BinaryFormat::Array), (700, BinaryFormat::Float4),
    (701, BinaryFormat::Float8), (705, BinaryFormat::Text), (718, BinaryFormat::Circle),
    (719, BinaryFormat::Array), (774, BinaryFormat::Macaddr8), (775, BinaryFormat::Array),
    (790, BinaryFormat::Money), (791, BinaryFormat::Array), (829, BinaryFormat::Macaddr),
    (869, BinaryFormat::Inet), (1000, BinaryFormat::Array), (1001, BinaryFormat::Array),
    (1002, BinaryFormat::Array), (1003, BinaryFormat::Array), (1005, BinaryFormat::Array),
    (1006, BinaryFormat::Array), (1007, BinaryFormat::Array), (1008, BinaryFormat::Array),
    (1009, BinaryFormat::Array), (1010, BinaryFormat::Array), (1011, BinaryFormat::Array),
    (1012, BinaryFormat::Array), (1013, BinaryFormat::Array), (1014, BinaryFormat::Array),
    (1015, BinaryFormat::Array), (1016, BinaryFormat::Array), (1017, BinaryFormat::Array),
    (1018, BinaryFormat::Array), (1019, BinaryFormat::Array), (1020, BinaryFormat::Array),
    (1021, BinaryFormat::Array), (1022, BinaryFormat::Array), (1027, BinaryFormat::Array),
    (1028, BinaryFormat::Array), (1034, BinaryFormat::Array), (1040, BinaryFormat::Array),
    (1041, BinaryFormat::Array), (1042, BinaryFormat::Text), (1043, BinaryFormat::Text),
    (1082, BinaryFormat::Date), (1083, BinaryFormat::Time), (1114, BinaryFormat::Timestamp),
    (1115, BinaryFormat::Array), (1182, BinaryFormat::Array), (1183, BinaryFormat::Array),
    (1184, BinaryFormat::Timestamp), (1185, BinaryFormat::Array), (1186, BinaryFormat::Interval),
    (1187, BinaryFormat::Array), (1231, BinaryFormat::Array), (1248, BinaryFormat::Record),
    (1263, BinaryFormat::Array), (1266, BinaryFormat::Timetz), (1270, BinaryFormat::Array),
    (1560, BinaryFormat::Varbit), (1561, BinaryFormat::Array), (1562, BinaryFormat::Varbit),
    (1563, BinaryFormat::Array), (1700, BinaryFormat::Numeric), (1790, BinaryFormat::Text),
    (2173, BinaryFormat::Record), (2201, BinaryFormat::Array), (2202, BinaryFormat::Oid),
    (2203, BinaryFormat::Oid), (2204, BinaryFormat::Oid), (2205, BinaryFormat::Oid),
    (2206, BinaryFormat::Oid), (2207, BinaryFormat::Array), (2208, BinaryFormat::Array),
    (2209, BinaryFormat::Array), (2210, BinaryFormat::Array), (2211, BinaryFormat::Array),
    (2249, BinaryFormat::Record), (2275, BinaryFormat::Text), (2277, BinaryFormat::Array),
    (2287, BinaryFormat::Array), (2842, BinaryFormat::Record), (2843, BinaryFormat::Record),
    (2949, BinaryFormat::Array), (2950, BinaryFormat::Uuid), (2951, BinaryFormat::Array),
    (2970, BinaryFormat::Snapshot), (3220, BinaryFormat::Lsn), (3221, BinaryFormat::Array),
    (3361, BinaryFormat::Bytea), (3402, BinaryFormat::Bytea), (3614, BinaryFormat::Tsvector),
    (3615, BinaryFormat::Tsquery), (3643, BinaryFormat::Array), (3644, BinaryFormat::Array),
    (3645, BinaryFormat::Array), (3734, BinaryFormat::Oid), (3735, BinaryFormat::Array),
    (3769, BinaryFormat::Oid), (3770, BinaryFormat::Array), (3802, BinaryFormat::Jsonb),
    (3807, BinaryFormat::Array), (3904, BinaryFormat::Range(23)), (3905, BinaryFormat::Array),
    (3906, BinaryFormat::Range(1700)), (3907, BinaryFormat::Array),
    (3908, BinaryFormat::Range(1114)), (3909, BinaryFormat::Array),
    (3910, BinaryFormat::Range(1184)), (3911, BinaryFormat::Array),
    (3912, BinaryFormat::Range(1082)), (3913, BinaryFormat::Array),
    (3926, BinaryFormat::Range(20)), (3927, BinaryFormat::Array), (4066, BinaryFormat::Record),
    (4072, BinaryFormat::Jsonpath), (4073, BinaryFormat::Array), (4089, BinaryFormat::Oid),
    (4090, BinaryFormat::Array), (4096, BinaryFormat::Oid), (4097, BinaryFormat::Array),
    (4191, BinaryFormat::Oid), (4192, BinaryFormat::Array), (4451, BinaryFormat::Multirange(3904)),
    (4532, BinaryFormat::Multirange(3906)), (4533, BinaryFormat::Multirange(3908)),
    (4534, BinaryFormat::Multirange(3910)), (4535, BinaryFormat::Multirange(3912)),
    (4536, BinaryFormat::Multirange(3926)), (4600, BinaryFormat::Bytea),
    (4601, BinaryFormat::Bytea), (5017, BinaryFormat::Bytea), (5038, BinaryFormat::Snapshot),
    (5039, BinaryFormat::Array), (5069, BinaryFormat::Xid8), (5078, BinaryFormat::Array),
    (6101, BinaryFormat::Record), (6150, BinaryFormat::Array), (6151, BinaryFormat::Array),
    (6152, BinaryFormat::Array), (6153, BinaryFormat::Array), (6155, BinaryFormat::Array),
    (6157, BinaryFormat::Array), (6437, BinaryFormat::Xid8), (6442, BinaryFormat::Array),
    (6490, BinaryFormat::Oid), (6491, BinaryFormat::Array),
];

// The table, by rising numbers.
#[tactic(auto, unfolding(crate::specs::Formats::formats, crate::specs::FormatTable::rises))]
fn formats() -> &'static [(Oid, BinaryFormat)]
    ensures table { result.now ≡ formats }
    ensures rising { IsRising result.now }
{
    &FORMATS
}

// What stands at a number in such a table. It is halved until what is left holds no number or this one.
fn format_in(table: &[(Oid, BinaryFormat)], oid: Oid) -> Option<BinaryFormat>
    requires { IsRising table.now }
    ensures { result ≡ format_in table.now oid }
{
    let mut low = 0;
    let mut high = table.len();
    while low < high {
        let mid = low + (high - low) / 2;
        let (number, format) = table[mid];
        if number < oid {
            low = mid + 1;
        } else if oid < number {
            high = mid;
        } else {
            return Some(format);
        }
    }
    None
}

/// The codec of a type that each server has by this number (OID), as `pg_type` of PostgreSQL 15 says it; `None` if the
/// server has no such type, or it has no binary format.
pub fn binary_format_of(oid: Oid) -> Option<BinaryFormat>
    ensures { result ≡ format_in formats oid }
{
    format_in(formats(), oid)
}
