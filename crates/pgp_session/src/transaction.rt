//! The state of a session's transaction.
//!
//! PostgreSQL manual, "Message Flow": "Extended Query", "Pipelining"; "Message Formats": ReadyForQuery.

ghost use Rattle.std.specs.Prelude.{◌≡◌};
ghost use Rattle.pgp_session.specs.Transaction.{after_error, commits, ends_portals, letter, rejects};

/// What a ReadyForQuery says of the transaction.
#[derive(Debug, Clone, Copy, PartialEq, Eq)]
pub enum Status {
    /// None was begun.
    Idle,
    /// It was begun, and no statement of it failed.
    Open,
    /// A statement of it failed.
    Failed,
}

impl Status {
    /// The letter that stands for it in a ReadyForQuery.
    pub fn letter(self) -> u8
        ensures { result ≡ letter self }
    {
        match self {
            Status::Idle => b'I',
            Status::Open => b'T',
            Status::Failed => b'E',
        }
    }

    /// The state after an error.
    pub fn after_error(self) -> Status
        ensures { result ≡ after_error self }
    {
        match self {
            Status::Idle => Status::Idle,
            Status::Open | Status::Failed => Status::Failed,
        }
    }

    /// Whether a server rejects a statement that ends the transaction, or goes back to a savepoint of it; or one that doesn't.
    pub fn rejects(self, ends: bool) -> bool
        ensures { result ≡ rejects self ends }
    {
        match self {
            Status::Idle | Status::Open => false,
            Status::Failed => !ends,
        }
    }

    /// Whether portals end with a Sync, or with a simple query.
    pub fn ends_portals(self) -> bool
        ensures { result ≡ ends_portals self }
    {
        match self {
            Status::Idle => true,
            Status::Open | Status::Failed => false,
        }
    }

    /// Whether a COMMIT is answered as one, and not as a ROLLBACK.
    pub fn commits(self) -> bool
        ensures { result ≡ commits self }
    {
        match self {
            Status::Idle | Status::Open => true,
            Status::Failed => false,
        }
    }
}
