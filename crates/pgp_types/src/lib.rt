//! The binary format of PostgreSQL's values: `X_to_sql` appends a value of the type X, and `X_from_sql`
//! reads one from all of the bytes that it is given.
//!
//! On error a writer leaves the buffer unchanged. A reader allocates nothing: it borrows texts and bytes.
//! `codec` and `part` are what codecs are made of, for crates with codecs of their own.
#![tactic(auto)]

mod array;
mod array_writing;
pub mod codec;
mod geometry;
mod hstore;
pub mod laws;
mod network;
pub mod part;
mod path;
mod range;
mod scalar;
mod text;
mod time;
mod varbit;

pub use array::{Array, ArrayDimension, ArrayDimensions, ArrayValues, array_from_sql};
pub use array_writing::array_to_sql;
pub use geometry::{Box, Point, box_from_sql, box_to_sql, point_from_sql, point_to_sql};
pub use hstore::{HstoreEntries, hstore_from_sql, hstore_to_sql};
pub use network::{
    Inet, inet_from_sql, inet_to_sql, macaddr_from_sql, macaddr_to_sql, uuid_from_sql, uuid_to_sql,
};
pub use path::{Path, PathPoints, path_from_sql, path_to_sql};
pub use range::{Range, RangeBound, empty_range_to_sql, range_from_sql, range_to_sql};
pub use scalar::{
    bool_from_sql, bool_to_sql, bytea_from_sql, bytea_to_sql, char_from_sql, char_to_sql,
    float4_from_sql, float4_to_sql, float8_from_sql, float8_to_sql, int2_from_sql, int2_to_sql,
    int4_from_sql, int4_to_sql, int8_from_sql, int8_to_sql, lsn_from_sql, lsn_to_sql, oid_from_sql,
    oid_to_sql,
};
pub use text::{
    label_from_sql, label_to_sql, lquery_from_sql, lquery_to_sql, ltree_from_sql, ltree_to_sql,
    ltxtquery_from_sql, ltxtquery_to_sql, text_from_sql, text_to_sql,
};
pub use time::{
    date_from_sql, date_to_sql, time_from_sql, time_to_sql, timestamp_from_sql, timestamp_to_sql,
};
pub use varbit::{Varbit, varbit_from_sql, varbit_to_sql};
