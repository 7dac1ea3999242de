//! How a recording ends.

ghost use Rattle.std.specs.Prelude.{◌≡◌};
ghost use Rattle.pgtrace_session.specs.Recording.{complaint_of, status_of};
ghost use Rattle.pgtrace_session.specs.Steps.{end_of};

/// How a recording ends.
#[derive(Debug, Clone, Copy, PartialEq, Eq)]
pub enum End {
    /// After a chunk, or before the first one.
    Whole,
    /// Inside a chunk, as one does that is still written.
    Cut,
    /// With what is no chunk.
    NoChunk,
    /// It doesn't begin as one.
    NoRecording,
}

/// How a recording ends of which these bytes are left.
pub fn end_of(begun: bool, stopped: bool, bytes: &[u8]) -> End
    ensures { result ≡ end_of begun stopped bytes.now }
{
    if !begun {
        End::NoRecording
    } else if stopped {
        End::NoChunk
    } else if bytes.is_empty() {
        End::Whole
    } else {
        End::Cut
    }
}

/// What is said of it on standard error.
pub fn complaint_of(end: End) -> &'static str
    ensures { result.now ≡ complaint_of end }
{
    match end {
        End::Whole => "",
        End::Cut => "pgtrace: the recording ends inside a chunk\n",
        End::NoChunk => "pgtrace: what follows in the recording is no chunk\n",
        End::NoRecording => "pgtrace: this is no recording: it begins otherwise\n",
    }
}

/// The status of a program that listed it.
pub fn status_of(end: End) -> u8
    ensures { result ≡ status_of end }
{
    match end {
        End::Whole | End::Cut => 0,
        End::NoChunk | End::NoRecording => 1,
    }
}
