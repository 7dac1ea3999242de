//! The binary format of more of PostgreSQL's values, beside `pgp_types`: `X_to_sql` appends a value of the type X, and
//! `X_from_sql` reads one from all of the bytes that it is given.
//!
//! On error a writer leaves the buffer unchanged. A reader takes no memory: it borrows texts and bytes.
//! A `bit` is written and read as a `varbit` of `pgp_types`, an `int2vector` and an `oidvector` as arrays.
#![tactic(auto)]

mod codec;
mod decimal;
mod digits;
mod error;
mod formats;
mod geometry;
mod groups;
mod integer;
pub mod laws;
mod list;
mod made;
mod moment;
mod multirange;
mod network;
mod numeric;
mod parse;
mod polygon;
mod record;
mod scan;
mod show;
mod snapshot;
mod system;
mod text;
mod time;
mod tsquery;
mod tsvector;
mod written;

pub use decimal::Decimal;
pub use digits::numeric_digits_to_sql;
pub use error::NumericError;
pub use formats::{BinaryFormat, binary_format_of};
pub use geometry::{
    Circle, Line, Segment, circle_from_sql, circle_to_sql, line_from_sql, line_to_sql,
    lseg_from_sql, lseg_to_sql,
};
pub use integer::{
    IntegerError, numeric_i64_to_sql, numeric_i128_to_sql, numeric_to_i64, numeric_to_i128,
};
pub use made::record_values_to_sql;
pub use moment::{
    Moment, date_value_from_sql, date_value_to_sql, interval_value_from_sql, interval_value_to_sql,
    timestamp_value_from_sql, timestamp_value_to_sql,
};
pub use multirange::{MultirangeRanges, multirange_from_sql, multirange_to_sql};
pub use network::{cidr_from_sql, cidr_to_sql, macaddr8_from_sql, macaddr8_to_sql};
pub use numeric::{Numeric, numeric_from_sql, numeric_to_sql};
pub use parse::numeric_text_to_sql;
pub use polygon::{PolygonPoints, polygon_from_sql, polygon_to_sql};
pub use record::{RecordFields, record_from_sql, record_to_sql};
pub use show::numeric_to_text;
pub use snapshot::{Snapshot, SnapshotIds, snapshot_from_sql, snapshot_to_sql};
pub use system::{
    Tid, money_from_sql, money_to_sql, tid_from_sql, tid_to_sql, xid8_from_sql, xid8_to_sql,
};
pub use text::{jsonb_from_sql, jsonb_to_sql, jsonpath_from_sql, jsonpath_to_sql};
pub use time::{
    Interval, TimeTz, interval_from_sql, interval_to_sql, timetz_from_sql, timetz_to_sql,
};
pub use tsquery::{TsItem, TsItems, TsOperand, tsquery_from_sql, tsquery_to_sql};
pub use tsvector::{Lexemes, TsPositions, tsvector_from_sql, tsvector_to_sql};
