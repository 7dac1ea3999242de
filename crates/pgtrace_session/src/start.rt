//! What the times of a listing are counted from.

ghost use Rattle.std.specs.Prelude.{◌≡◌};
ghost use Rattle.pgtrace_session.specs.Conversation.{first_start};
ghost use Rattle.pgtrace_session.specs.Marks.{origin, started, time_width};

/// What times are counted from.
#[derive(Debug, Clone, Copy, PartialEq, Eq)]
pub enum Start {
    /// 1970, and as text they are dates, in UTC.
    Dated,
    /// The first chunk, which hasn't come.
    Pending,
    /// The first chunk, which came at this time.
    At(u64),
}

/// What times are counted from, before the first chunk.
pub fn first_start(absolute: bool) -> Start
    ensures { result ≡ first_start absolute }
{
    if absolute {
        Start::Dated
    } else {
        Start::Pending
    }
}

/// The same once a chunk comes at this time.
pub fn started(start: Start, micros: u64) -> Start
    ensures { result ≡ started start micros }
{
    match start {
        Start::Dated => Start::Dated,
        Start::Pending => Start::At(micros),
        Start::At(first) => Start::At(first),
    }
}

/// The time from which seconds are counted, at a chunk that comes at this time.
pub fn origin(start: Start, micros: u64) -> u64
    ensures { result ≡ origin start micros }
{
    match start {
        Start::Dated => 0,
        Start::Pending => micros,
        Start::At(first) => first,
    }
}

/// How many characters a time takes.
pub fn time_width(start: Start) -> usize
    ensures { result ≡ time_width start }
{
    match start {
        Start::Dated => 26,
        Start::Pending | Start::At(_) => 12,
    }
}
