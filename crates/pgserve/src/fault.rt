//! Why the program stops short.

use crate::wrong::Place;
use pgp_base::Error;
use pgp_session::monitor::Stop;
use std::alloc::AllocError;

/// Why the program stops short, as `complaint` says it.
#[derive(Clone, Copy)]
pub(crate) enum Fault {
    Memory,
    Read,
    Write,
    Clock,
    TooLong,
    Misplaced,
    NoScript,
    NotText,
    Script(Place),
    Auth,
    Verifier,
    NoVerifier,
    Nonce,
    NoNonce,
    Certificate,
}

impl Fault {
    /// What is said of it on standard error.
    pub(crate) fn complaint(self) -> &'static str {
        match self {
            Fault::Memory => "out of memory",
            Fault::Read => "read failed",
            Fault::Write => "write failed",
            Fault::Clock => "the clock can't be read",
            Fault::TooLong => "an answer of the script is too long",
            Fault::Misplaced => "an answer has no place after the requests that came",
            Fault::NoScript => "the script can't be read",
            Fault::NotText => "the script isn't UTF-8",
            Fault::Script(place) => place.wanted,
            Fault::Auth => "--auth is trust, password, md5, scram or scram-plus",
            Fault::Verifier =>
                "the verifier is no text of the method's: SCRAM-SHA-256$.., or md5..",
            Fault::NoVerifier => "trust has no verifier",
            Fault::Nonce => "the nonce has to be printable ASCII without a comma",
            Fault::NoNonce => "scram and scram-plus need a nonce: --nonce TEXT",
            Fault::Certificate => "the hash of the certificate has to be hexadecimal digits",
        }
    }
}

impl From<AllocError> for Fault {
    fn from(_: AllocError) -> Fault {
        Fault::Memory
    }
}

impl From<Error> for Fault {
    fn from(refusal: Error) -> Fault {
        match refusal {
            Error::OutOfMemory => Fault::Memory,
            _ => Fault::TooLong,
        }
    }
}

impl From<Stop> for Fault {
    fn from(why: Stop) -> Fault {
        match why {
            Stop::OutOfMemory => Fault::Memory,
            _ => Fault::Misplaced,
        }
    }
}
