//! A recording of the connection on standard error, in the form that `pgtrace session` lists. docs/PGTRACE.md, "Recordings".

use crate::fault::Fault;
use crate::stream::put;
use std::time::{Duration, Instant};

/// What a recording begins with.
const MAGIC: &[u8] = b"pgtrace recording 1\n";

fn micros_of(time: Duration) -> u64 {
    u64::try_from(time.as_micros()).unwrap_or(u64::MAX)
}

/// A recording, whose times are counted from its beginning on; none where it didn't begin.
#[derive(Drop)]
pub(crate) struct Recording {
    start: Option<Instant>,
}

impl Recording {
    /// Begins a recording, if one is asked for.
    ///
    /// # Errors
    ///
    /// Returns `Clock` and `Write`.
    pub(crate) fn begin(rt: &HostRuntime, is_asked: bool) -> Result<Recording, Fault> {
        if !is_asked {
            return Ok(Recording { start: None });
        }
        put(MAGIC, &mut rt.stderr())?;
        match Instant::now(rt) {
            Ok(start) => Ok(Recording { start: Some(start) }),
            Err(_) => Err(Fault::Clock),
        }
    }

    /// Adds a chunk of bytes that came or went at once: `>` where the client sent them, `<` where the server did.
    ///
    /// # Errors
    ///
    /// Returns `Clock`, also where a chunk can't have so many, and `Write`.
    pub(crate) fn add(&self, rt: &HostRuntime, sender: u8, bytes: &[u8]) -> Result<(), Fault> {
        let Some(start) = &self.start else {
            return Ok(());
        };
        let (Ok(since), Ok(len)) = (start.elapsed(rt), u32::try_from(bytes.len())) else {
            return Err(Fault::Clock);
        };
        if len == 0 {
            return Ok(());
        }
        let mut output = rt.stderr();
        put(&[sender], &mut output)?;
        put(&micros_of(since).to_be_bytes(), &mut output)?;
        put(&len.to_be_bytes(), &mut output)?;
        put(bytes, &mut output)
    }
}
