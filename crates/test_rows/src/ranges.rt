//! Ranges. A bound that is written has four bytes; one that is read has any.

ghost use Rattle.pgp_types.specs.RangeWriting.{KeepsBound};

use crate::fault::plain;
use crate::shown::Shown;
use crate::word::Words;
use pgp_base::{Buffer, Error, IsNull};
use pgp_types::{Range, RangeBound, int4_to_sql, range_from_sql, range_to_sql};

/// A bound's number, or nothing for a null.
fn number(words: &mut Words<'_>) -> Option<i32> {
    if words.takes("null") {
        return None;
    }
    Some(i32::from_be_bytes(words.block()))
}

/// A side: `in` and a bound, `ex` and a bound, or `none`.
fn side(words: &mut Words<'_>) -> RangeBound<Option<i32>> {
    if words.takes("in") {
        return RangeBound::Inclusive(number(words));
    }
    if words.takes("ex") {
        return RangeBound::Exclusive(number(words));
    }
    words.expect("none");
    RangeBound::Unbounded
}

#[tactic(auto, using(pgp_base::proofs::Parts::held_steps))]
fn put_side<B: Buffer>(
    side: RangeBound<Option<i32>>,
    buf: &mut B,
) -> Result<RangeBound<IsNull>, Error>
    ensures { KeepsBound result (B.held buf.old) (B.held buf.new) }
{
    match side {
        RangeBound::Unbounded => Ok(RangeBound::Unbounded),
        RangeBound::Inclusive(None) => Ok(RangeBound::Inclusive(IsNull::Yes)),
        RangeBound::Exclusive(None) => Ok(RangeBound::Exclusive(IsNull::Yes)),
        RangeBound::Inclusive(Some(n)) => match int4_to_sql(n, buf) {
            Ok(()) => Ok(RangeBound::Inclusive(IsNull::No)),
            Err(e) => Err(e),
        },
        RangeBound::Exclusive(Some(n)) => match int4_to_sql(n, buf) {
            Ok(()) => Ok(RangeBound::Exclusive(IsNull::No)),
            Err(e) => Err(e),
        },
    }
}

pub fn write_range<B: Buffer>(words: &mut Words<'_>, buf: &mut B) -> Result<(), Error> {
    let lower = side(words);
    let upper = side(words);
    plain(range_to_sql(
        |buf: &mut B| put_side(lower, buf),
        |buf: &mut B| put_side(upper, buf),
        buf,
    ))
}

fn show_side(side: RangeBound<Option<&[u8]>>, out: &mut Shown) {
    match side {
        RangeBound::Unbounded => out.word("none"),
        RangeBound::Inclusive(bound) => {
            out.word("in");
            out.nullable(bound);
        }
        RangeBound::Exclusive(bound) => {
            out.word("ex");
            out.nullable(bound);
        }
    }
}

pub fn show_range(bytes: &[u8], out: &mut Shown) -> Result<(), Error> {
    if let Range::Nonempty(lower, upper) = range_from_sql(bytes)? {
        show_side(lower, out);
        show_side(upper, out);
    }
    Ok(())
}
