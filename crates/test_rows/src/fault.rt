//! Why a row is not right.

use pgp_base::{BindError, Error};
use std::alloc::AllocError;

/// Why a row is not right.
#[derive(Clone, Copy)]
pub enum Fault {
    /// The row is not written as README.md says.
    Row,
    /// No memory was left for what the program itself keeps.
    Memory,
    /// Something else came than what the row says.
    Differs,
}

impl From<AllocError> for Fault {
    fn from(_: AllocError) -> Fault {
        Fault::Memory
    }
}

/// The error of a call, whoever rejected.
pub fn plain(answer: Result<(), BindError<Error>>) -> Result<(), Error> {
    match answer {
        Ok(()) => Ok(()),
        Err(BindError::Conversion(e) | BindError::Serialization(e)) => Err(e),
    }
}
