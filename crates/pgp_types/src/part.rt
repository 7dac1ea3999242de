//! The parts that values are made of, read from the left: each is a value and the bytes after it. The codecs of other crates use them too.
#![tactic(auto, using(pgp_base::proofs::Parts::held_steps))]

ghost use Rattle.pgp_base.specs.PartReading.{Answers};
ghost use Rattle.pgp_types.specs.PartReading.{natural_at, sized_at, nullable_at};
ghost use Rattle.pgp_types.specs.Part.{shown};

use pgp_base::Error;
use pgp_base::reading::int32_at;

/// Reads a count or a length: an Int32.
///
/// # Errors
///
/// Returns `UnexpectedEof` if it is cut short, `negative` if it is negative.
#[tactic(auto, unfolding(crate::specs::PartReading::natural_at))]
pub fn natural_at(bytes: &[u8], negative: Error) -> Result<(usize, &[u8]), Error>
    ensures { Answers (λ x. (x.0, x.1.now)) result (natural_at negative bytes.now) }
{
    let (number, rest) = int32_at(bytes)?;
    if number < 0 {
        return Err(negative);
    }
    Ok((number as usize, rest))
}

/// Reads a length, and so many bytes.
///
/// # Errors
///
/// Returns `UnexpectedEof` if the length is cut short, `wrong` if it is negative or exceeds the bytes left.
#[tactic(auto, unfolding(crate::specs::PartReading::sized_at))]
pub fn sized_at(bytes: &[u8], wrong: Error) -> Result<(&[u8], &[u8]), Error>
    ensures { Answers (λ x. (x.0.now, x.1.now)) result (sized_at wrong bytes.now) }
{
    let (len, rest) = natural_at(bytes, wrong)?;
    if rest.len() < len {
        return Err(wrong);
    }
    Ok(rest.split_at(len))
}

/// Reads a value after its length, or a null: any negative length.
///
/// # Errors
///
/// Returns `UnexpectedEof` if the length is cut short, `past_end` if it exceeds the bytes left.
#[tactic(auto, unfolding(crate::specs::PartReading::nullable_at))]
pub fn nullable_at(bytes: &[u8], past_end: Error) -> Result<(Option<&[u8]>, &[u8]), Error>
    ensures { Answers (λ x. (shown x.0, x.1.now)) result (nullable_at past_end bytes.now) }
{
    let (len, rest) = int32_at(bytes)?;
    if len < 0 {
        return Ok((None, rest));
    }
    let len = len as usize;
    if rest.len() < len {
        return Err(past_end);
    }
    let (value, rest) = rest.split_at(len);
    Ok((Some(value), rest))
}
