//! Reads to their ends.

ghost use Rattle.pgp_frontend_read.specs.Whole.{EndsAs};

use pgp_base::{Error, FallibleIterator};

/// Reads to the end.
///
/// # Errors
///
/// The iterator's own error.
pub fn ends<W: FallibleIterator + Drop>(mut walk: W) -> Result<(), Error>
where
    W::Item: Drop,
    ensures { EndsAs (W.walk walk).end result }
{
    'items: while let Some(item) = walk.next()? {
        drop(item);
    }
    Ok(())
}
