//! The errors of all calls.

ghost use Rattle.std.specs.Prelude.{◌≡◌};
ghost use Rattle.pgp_base.specs.Error.{number_of};

use std::alloc::AllocError;
use thiserror::Error as DeriveError;

/// Why a call was rejected.
#[derive(Debug, Clone, Copy, PartialEq, Eq, DeriveError)]
pub enum Error {
    /// An allocation failed.
    #[error("OutOfMemory")]
    OutOfMemory,
    /// A text that is written with a 0 byte after it has a 0 byte itself.
    #[error("EmbeddedNull")]
    EmbeddedNull,
    /// A count or a length passes its field.
    #[error("TooLarge")]
    TooLarge,
    /// A frame announces a length below its own four bytes.
    #[error("InvalidLength")]
    InvalidLength,
    /// No backend message has this tag.
    #[error("UnknownTag")]
    UnknownTag(u8),
    /// No authentication request has this code.
    #[error("UnknownAuthentication")]
    UnknownAuthentication(i32),
    /// A part is cut short, or a string has no 0 byte.
    #[error("UnexpectedEof")]
    UnexpectedEof,
    /// Bytes stand after a complete body, list or value.
    #[error("NotDrained")]
    NotDrained,
    /// A text is not UTF-8.
    #[error("NotUtf8")]
    NotUtf8,
    /// A value as a whole has the wrong number of bytes.
    #[error("InvalidSize")]
    InvalidSize,
    /// A count is negative.
    #[error("InvalidCount")]
    InvalidCount,
    /// The length of an hstore key is negative or passes the end.
    #[error("InvalidKeyLength")]
    InvalidKeyLength,
    /// The length of an hstore value, an array element or a range's bound passes the end.
    #[error("InvalidValueLength")]
    InvalidValueLength,
    /// The length of a dimension is negative.
    #[error("InvalidDimension")]
    InvalidDimension,
    /// The product of the dimensions exceeds `i32::MAX`.
    #[error("TooManyElements")]
    TooManyElements,
    /// The length of a bit string is negative.
    #[error("InvalidBitLength")]
    InvalidBitLength,
    /// A netmask is above 32 or 128, by its family.
    #[error("InvalidNetmask")]
    InvalidNetmask,
    /// An address doesn't have the 4 or 16 bytes of its family.
    #[error("InvalidAddressLength")]
    InvalidAddressLength,
    /// An address family is neither 2 nor 3.
    #[error("InvalidFamily")]
    InvalidFamily,
    /// A label type doesn't begin with the version 1.
    #[error("InvalidVersion")]
    InvalidVersion,
}

impl Error {
    /// The number of the error, from 1 to 20, in the order of the variants. It doesn't tell the tag
    /// or the code that two of them carry.
    pub fn number(&self) -> u8
        ensures { result ≡ number_of self.now }
    {
        match self {
            Error::OutOfMemory => 1,
            Error::EmbeddedNull => 2,
            Error::TooLarge => 3,
            Error::InvalidLength => 4,
            Error::UnknownTag(_) => 5,
            Error::UnknownAuthentication(_) => 6,
            Error::UnexpectedEof => 7,
            Error::NotDrained => 8,
            Error::NotUtf8 => 9,
            Error::InvalidSize => 10,
            Error::InvalidCount => 11,
            Error::InvalidKeyLength => 12,
            Error::InvalidValueLength => 13,
            Error::InvalidDimension => 14,
            Error::TooManyElements => 15,
            Error::InvalidBitLength => 16,
            Error::InvalidNetmask => 17,
            Error::InvalidAddressLength => 18,
            Error::InvalidFamily => 19,
            Error::InvalidVersion => 20,
        }
    }
}

impl From<AllocError> for Error {
    ghost use Rattle.pgp_base.specs.declared.error.Error.TheVariants.{OutOfMemory};

    ghost from_gives = { λ _ e. e ≡ OutOfMemory };

    fn from(_: AllocError) -> Error {
        Error::OutOfMemory
    }
}

/// Why a call that asks a serializer was rejected: by the serializer, or by the call itself.
#[derive(Debug, Clone, Copy, PartialEq, Eq, Drop)]
pub enum BindError<E> {
    /// The serializer's own error.
    Conversion(E),
    /// The call's error.
    Serialization(Error),
}

impl<E> From<Error> for BindError<E> {
    ghost use Rattle.pgp_base.specs.declared.error.BindError.TheVariants.{Serialization};

    ghost from_gives = { λ e r. r ≡ Serialization e };

    fn from(e: Error) -> BindError<E> {
        BindError::Serialization(e)
    }
}
