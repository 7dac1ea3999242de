//! What a mark says of requests.

ghost use Rattle.std.specs.Prelude.{◌≡◌};
ghost use Rattle.pgtrace_session.specs.Conversation.{told_by, waited};

/// What a mark says of requests.
#[derive(Debug, Clone, Copy, PartialEq, Eq)]
pub enum Told {
    /// Its message is the request of this number.
    Number(u64),
    /// Its message belongs to the request of this number; when that was sent, and when this came, in microseconds.
    Answer { number: u64, sent: u64, now: u64 },
    /// Its message has no place among the answers, or one before it had none.
    Lost,
    /// Its message belongs to no request.
    Nothing,
    /// Requests aren't numbered.
    Uncounted,
}

/// What a mark says, where it tells the numbers of requests or not.
pub fn told_by(marked: bool, told: Told) -> Told
    ensures { result ≡ told_by marked told }
{
    if marked { told } else { Told::Uncounted }
}

/// How many microseconds after its request a message came.
pub fn waited(told: Told) -> u64
    ensures { result ≡ waited told }
{
    match told {
        Told::Answer { sent, now, .. } => now.saturating_sub(sent),
        _ => 0,
    }
}
