//! Texts, and the label types of the module ltree.
//!
//! PostgreSQL manual, "Character Types", and "ltree" among the additional supplied modules.
#![tactic(auto, using(pgp_base::proofs::Parts::held_steps))]

ghost use Rattle.pgp_types.specs.Format.{Reads, ReadsBy, Writes};
ghost use Rattle.pgp_types.specs.Text.{text, label, ltree, lquery, ltxtquery};

use crate::codec::{append, append_both};
use pgp_base::{Buffer, Error};

// The versions of the label types' formats.
const LTREE_VERSION: u8 = 1;

const LQUERY_VERSION: u8 = 1;

const LTXTQUERY_VERSION: u8 = 1;

/// Appends a `text`, `varchar`, `bpchar`, `name` or the like.
pub fn text_to_sql<B: Buffer>(v: &str, buf: &mut B) -> Result<(), Error>
    ensures { Writes text v.now B.Lacks (B.held buf.old) result (B.held buf.new) }
{
    append(v.as_bytes(), buf)
}

/// Reads a `text`, `varchar`, `bpchar`, `name` or the like.
pub fn text_from_sql(buf: &[u8]) -> Result<&str, Error>
    ensures { ReadsBy (λ t. t.now) text buf.now result }
{
    pgp_base::text(buf)
}

/// Appends a text after the version of its format.
///
/// # Errors
///
/// Returns `OutOfMemory` if the buffer can't grow; on error the buffer is unchanged.
pub fn label_to_sql<B: Buffer>(version: u8, v: &str, buf: &mut B) -> Result<(), Error>
    ensures { Writes (label version) v.now B.Lacks (B.held buf.old) result (B.held buf.new) }
{
    append_both(&[version], v.as_bytes(), buf)
}

/// Reads a text after the version of its format.
///
/// # Errors
///
/// Returns `InvalidVersion` if the first byte isn't the version, `NotUtf8` if the rest isn't UTF-8.
pub fn label_from_sql(version: u8, buf: &[u8]) -> Result<&str, Error>
    ensures { ReadsBy (λ t. t.now) (label version) buf.now result }
{
    match buf {
        [first, text @ ..] if *first == version => text_from_sql(text),
        _ => Err(Error::InvalidVersion),
    }
}

/// Appends an `ltree`.
pub fn ltree_to_sql<B: Buffer>(v: &str, buf: &mut B) -> Result<(), Error>
    ensures { Writes ltree v.now B.Lacks (B.held buf.old) result (B.held buf.new) }
{
    label_to_sql(LTREE_VERSION, v, buf)
}

/// Reads an `ltree`.
pub fn ltree_from_sql(buf: &[u8]) -> Result<&str, Error>
    ensures { ReadsBy (λ t. t.now) ltree buf.now result }
{
    label_from_sql(LTREE_VERSION, buf)
}

/// Appends an `lquery`.
pub fn lquery_to_sql<B: Buffer>(v: &str, buf: &mut B) -> Result<(), Error>
    ensures { Writes lquery v.now B.Lacks (B.held buf.old) result (B.held buf.new) }
{
    label_to_sql(LQUERY_VERSION, v, buf)
}

/// Reads an `lquery`.
pub fn lquery_from_sql(buf: &[u8]) -> Result<&str, Error>
    ensures { ReadsBy (λ t. t.now) lquery buf.now result }
{
    label_from_sql(LQUERY_VERSION, buf)
}

/// Appends an `ltxtquery`.
pub fn ltxtquery_to_sql<B: Buffer>(v: &str, buf: &mut B) -> Result<(), Error>
    ensures { Writes ltxtquery v.now B.Lacks (B.held buf.old) result (B.held buf.new) }
{
    label_to_sql(LTXTQUERY_VERSION, v, buf)
}

/// Reads an `ltxtquery`.
pub fn ltxtquery_from_sql(buf: &[u8]) -> Result<&str, Error>
    ensures { ReadsBy (λ t. t.now) ltxtquery buf.now result }
{
    label_from_sql(LTXTQUERY_VERSION, buf)
}
