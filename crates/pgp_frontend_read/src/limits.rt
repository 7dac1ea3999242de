//! How long a client's messages may be.

ghost use Rattle.std.specs.Prelude.{◌≡◌};
ghost use Rattle.pgp_frontend_read.specs.Pieces.{limit_of};

/// The greatest lengths that messages may announce. A length counts its own four bytes, and not the tag before it. `u32::MAX`
/// rejects none.
#[derive(Debug, Clone, Copy, PartialEq, Eq)]
pub struct Limits {
    /// Of opening packets. PostgreSQL's own servers take 10,000 bytes after the length and no more, which is 10,004 here.
    pub opening: u32,
    /// Of tagged messages.
    pub tagged: u32,
}

impl Limits {
    /// The limit of this phase.
    pub fn of(self, opened: bool) -> u32
        ensures { result ≡ limit_of self opened }
    {
        if opened { self.tagged } else { self.opening }
    }
}
