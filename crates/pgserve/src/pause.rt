//! The pauses of an answer, which lines `wait` of a script say.

use crate::fault::Fault;
use std::time::{Duration, Instant};

/// A pause between the bytes of an answer.
#[derive(Clone, Copy)]
pub(crate) struct Pause {
    /// It comes after so many bytes.
    pub(crate) at: usize,
    pub(crate) time: Duration,
}

impl Pause {
    /// The same pause, where so many bytes stand before the answer.
    pub(crate) fn shifted(self, before: usize) -> Pause {
        Pause {
            at: self.at.saturating_add(before),
            time: self.time,
        }
    }

    /// Waits. The clock is looked at all the while, since a program that sleeps needs a handle, and this one has none.
    ///
    /// # Errors
    ///
    /// Returns `Clock` if the clock can't be read.
    pub(crate) fn wait(self, rt: &HostRuntime) -> Result<(), Fault> {
        let Ok(start) = Instant::now(rt) else {
            return Err(Fault::Clock);
        };
        for _ in 0..u64::MAX {
            match start.elapsed(rt) {
                Ok(passed) if passed < self.time => {}
                Ok(_) => return Ok(()),
                Err(_) => return Err(Fault::Clock),
            }
        }
        Ok(())
    }
}
