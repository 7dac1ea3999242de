//! Documents of JSON in the server's own form, and paths in them, as texts.
//!
//! PostgreSQL manual, "JSON Types".

ghost use Rattle.pgp_types.specs.Format.{ReadsBy, Writes};
ghost use Rattle.pgp_values.specs.Text.{jsonb, jsonpath};

use pgp_base::{Buffer, Error};
use pgp_types::{label_from_sql, label_to_sql};

// The versions of the formats.
const JSONB_VERSION: u8 = 1;

const JSONPATH_VERSION: u8 = 1;

/// Appends a `jsonb`, given as its JSON.
///
/// # Errors
///
/// Returns `OutOfMemory` if the buffer can't grow; on error the buffer is unchanged.
pub fn jsonb_to_sql<B: Buffer>(v: &str, buf: &mut B) -> Result<(), Error>
    ensures { Writes jsonb v.now B.Lacks (B.held buf.old) result (B.held buf.new) }
{
    label_to_sql(JSONB_VERSION, v, buf)
}

/// Reads the JSON of a `jsonb`. It isn't parsed.
///
/// # Errors
///
/// Returns `InvalidVersion` if the first byte isn't 1, `NotUtf8` if the rest isn't UTF-8.
pub fn jsonb_from_sql(buf: &[u8]) -> Result<&str, Error>
    ensures { ReadsBy (λ t. t.now) jsonb buf.now result }
{
    label_from_sql(JSONB_VERSION, buf)
}

/// Appends a `jsonpath`, given as its text.
pub fn jsonpath_to_sql<B: Buffer>(v: &str, buf: &mut B) -> Result<(), Error>
    ensures { Writes jsonpath v.now B.Lacks (B.held buf.old) result (B.held buf.new) }
{
    label_to_sql(JSONPATH_VERSION, v, buf)
}

/// Reads the text of a `jsonpath`.
///
/// # Errors
///
/// Returns `InvalidVersion` if the first byte isn't 1, `NotUtf8` if the rest isn't UTF-8.
pub fn jsonpath_from_sql(buf: &[u8]) -> Result<&str, Error>
    ensures { ReadsBy (λ t. t.now) jsonpath buf.now result }
{
    label_from_sql(JSONPATH_VERSION, buf)
}
