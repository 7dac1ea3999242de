//! The words that the process was started with.

ghost use Rattle.std.specs.Prelude.{◌≡◌, map, IfNone, IfOk, IfSome, OnErr, string_bytes};
ghost use Rattle.pgtool_line.specs.Words.{AreWords, HasOther, LacksWord, LacksWords};

use crate::ports::Words;
use pgp_base::Memory;
use std::alloc::AllocError;
use std::env::FillError;

/// The size of the first buffer for a word; it is doubled until the word fits.
const FIRST_SIZE: usize = 256;

/// The words after the program's name as texts, or nothing where one of them isn't UTF-8.
///
/// # Errors
///
/// There is no memory for them; where a word stands at each place, or is longer than any buffer, there can't be.
pub fn texts<A: Memory, V: Words>(
    alloc: A,
    env: &V,
) -> Result<Option<Vec<String<A>, A>>, AllocError>
    ensures all { IfOk result (λ found. IfSome found (λ texts.
        AreWords (V.Stands env.now) (V.Ends env.now) (map string_bytes texts.items))) }
    ensures other { IfOk result (λ found. IfNone found (HasOther (V.Stands env.now))) }
    ensures lacks { OnErr result (LacksWords A.Lacks (V.Stands env.now) (V.Longer env.now)) }
{
    let mut texts = Vec::new(alloc);
    // Bounded, since each function has to end, and an environment may have a word at each place.
    'places: for place in 1..usize::MAX {
        let Some(bytes) = word(alloc, env, place)? else {
            return Ok(Some(texts));
        };
        match String::from_utf8(bytes) {
            Ok(text) => A::push(&mut texts, text)?,
            Err(_) => return Ok(None),
        }
    }
    Err(AllocError)
}

/// The texts, lent out.
///
/// # Errors
///
/// There is no memory for the list of them.
pub fn lent<A: Memory>(alloc: A, texts: &[String<A>]) -> Result<Vec<&str, A>, AllocError>
    ensures words { IfOk result (λ words. map (λ word. word.now) words.items ≡ map string_bytes texts.now) }
    ensures lacks { OnErr result A.Lacks }
{
    let mut words = Vec::new(alloc);
    for text in texts {
        A::push(&mut words, text.as_str())?;
    }
    Ok(words)
}

/// The bytes of the word at the place, or nothing after the last word.
fn word<A: Memory, V: Words>(
    alloc: A,
    env: &V,
    place: usize,
) -> Result<Option<Vec<u8, A>>, AllocError>
    ensures word { IfOk result (λ found. IfSome found (λ bytes. V.Stands env.now place bytes.items)) }
    ensures none { IfOk result (λ found. IfNone found (V.Ends env.now place)) }
    ensures lacks { OnErr result (LacksWord A.Lacks (V.Longer env.now) place) }
{
    let mut bytes = Vec::new(alloc);
    let mut size = FIRST_SIZE;
    'sizes: loop {
        A::resize(&mut bytes, size, 0)?;
        match env.word_at(place, bytes.as_mut_slice()) {
            Ok(len) => {
                bytes.truncate(len);
                return Ok(Some(bytes));
            }
            Err(FillError::NotPresent) => return Ok(None),
            Err(FillError::TooLong) => {}
        }
        if size == usize::MAX {
            return Err(AllocError);
        }
        size = size.saturating_add(size);
    }
}
