//! Whose stream is listed.

ghost use Rattle.std.specs.Prelude.{◌≡◌};
ghost use Rattle.pgtrace_lines.specs.Sides.{first_phase, phase_in, replicates, replicates_behind};

use pgp_frontend_read::PasswordKind;

/// How far a server's stream has come.
#[derive(Debug, Clone, Copy, PartialEq, Eq)]
pub enum Phase {
    /// Its first message is still to come. Before it one-byte answers to requests for encryption stand.
    Beginning,
    /// Messages follow one another.
    Messages,
    /// So they do, and a CopyData has a message of replication inside: a CopyBothResponse came, and nothing that ends it.
    Replicating,
    /// An answer agreed to encrypt the connection: what follows are no messages.
    Encrypted,
}

/// Whose stream is listed, and what is known of it so far.
#[derive(Debug, Clone, Copy)]
pub enum Side<'a> {
    Server(Phase),
    Client {
        /// Whether a startup packet came. Before it opening packets come, after it tagged messages.
        opened: bool,
        /// Which the next messages of tag `p` are. After the last of them it isn't known.
        kinds: &'a [PasswordKind],
        /// Whether its CopyData have a standby's messages inside.
        replicating: bool,
    },
}

/// How far a stream has come that is taken in mid-session, or from its first byte on.
pub fn first_phase(resume: bool) -> Phase
    ensures { result ≡ first_phase resume }
{
    if resume {
        Phase::Messages
    } else {
        Phase::Beginning
    }
}

/// How far a stream has come in which messages follow one another, with messages of replication inside or not.
pub fn phase_in(replicating: bool) -> Phase
    ensures { result ≡ phase_in replicating }
{
    if replicating {
        Phase::Replicating
    } else {
        Phase::Messages
    }
}

/// Whether a server's CopyData have messages of replication inside after this frame.
pub fn replicates_behind(now: bool, frame: &[u8]) -> bool
    ensures { result ≡ replicates_behind now frame.now }
{
    match frame {
        [] => now,
        [tag, ..] => replicates(now, *tag),
    }
}

fn replicates(now: bool, tag: u8) -> bool
    ensures { result ≡ replicates now tag }
{
    match tag {
        b'W' => true,
        b'c' | b'E' | b'C' => false,
        _ => now,
    }
}
