//! The numbers of a log-in that a connection tells apart.

pub(crate) const AWAITS_REQUEST: u8 = 0;

pub(crate) const DONE: u8 = 4;

/// The answer where the message isn't due.
pub(crate) const UNDUE: u32 = 89;
