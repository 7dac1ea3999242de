//! The lists inside bodies, read as they are walked.

mod column_formats;
mod data_row_ranges;
mod error_fields;
mod fields;
mod mechanisms;
mod name;
mod options;
mod parameters;

pub use column_formats::ColumnFormats;
pub use data_row_ranges::{DataRowRanges, range_at};
pub use error_fields::{ErrorField, ErrorFields};
pub use fields::{Field, Fields, RawField, RawFields};
pub use mechanisms::{RawMechanisms, SaslMechanisms};
pub use name::{Name, ReadName};
pub use options::{ProtocolOptions, RawOptions};
pub use parameters::Parameters;
