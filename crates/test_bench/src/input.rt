//! What the works take, made on the heap before the clock starts.

use crate::work::Work;
use bytes::BytesMut;
use std::alloc::{AllocError, Global};

/// How many pieces of two bytes a long text has.
const PIECES: u32 = 512;

const TINY: &[u8] = b"1\0\0\0\x042\0\0\0\x04C\0\0\0\x0dSELECT 1\0";

const ROW: &[u8] =
    b"D\0\0\0\x66\0\x08\0\0\0\x0801234567\0\0\0\x0801234567\0\0\0\x0801234567\0\0\0\x0801234567\0\0\0\x0801234567\0\0\0\x0801234567\0\0\0\x0801234567\0\0\0\x0801234567";

#[derive(Drop)]
pub(crate) struct Input {
    /// As many frames, or triples of frames, as there are units.
    pub(crate) stream: BytesMut,
    /// What is written to.
    pub(crate) buf: BytesMut,
    pub(crate) name: String,
    pub(crate) short: String,
    pub(crate) plain: String,
    pub(crate) quotes: String,
}

// The messages of a unit.
fn unit(work: Work) -> &'static [u8] {
    match work {
        Work::Bare => b"1\0\0\0\x04",
        Work::Tiny => TINY,
        Work::Kept => b"C\0\0\0\x0dSELECT 1\0",
        Work::Row | Work::RowCopied | Work::FeedRow => ROW,
        _ => b"",
    }
}

// So many units, one after another.
fn stream(alloc: Global, unit: &[u8], count: u32) -> Result<BytesMut, AllocError> {
    let mut all = BytesMut::new(alloc);
    for _round in 0..count {
        all.extend_from_slice(unit)?;
    }
    Ok(all)
}

// A long text of one piece, again and again.
fn long(alloc: Global, piece: &str) -> Result<String, AllocError> {
    let mut all = String::new(alloc);
    for _round in 0..PIECES {
        all.push_str(piece)?;
    }
    Ok(all)
}

impl Input {
    /// What so many units of the work take.
    ///
    /// # Errors
    ///
    /// Returns `AllocError` if the allocation fails.
    pub(crate) fn new(alloc: Global, work: Work, count: u32) -> Result<Input, AllocError> {
        let stream = stream(alloc, unit(work), count)?;
        let plain = long(alloc, "ab")?;
        let quotes = long(alloc, "a'")?;
        Ok(Input {
            stream,
            buf: BytesMut::new(alloc),
            name: String::from_str(alloc, "s1")?,
            short: String::from_str(alloc, "0123456789abcdef")?,
            plain,
            quotes,
        })
    }
}
