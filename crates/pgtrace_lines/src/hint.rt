//! What is said on standard error where a side isn't listed to its end.

ghost use Rattle.std.specs.Prelude.{◌≡◌, if◌then◌else◌};
ghost use Rattle.pgtrace_lines.specs.Hints.{hint, hint_of};
ghost use Rattle.pgtrace_lines.specs.Steps.{side_of};

use crate::side::{Phase, Side};

/// Says why so many bytes of a side may be left, of a stream by itself with the option that helps, or of one in a recording; or nothing.
pub fn hint_of(recorded: bool, side: Side<'_>, left: u64) -> &'static str
    ensures { result.now ≡ hint_of recorded (side_of side.entry) left }
{
    if left == 0 { "" } else { hint(recorded, side) }
}

fn hint(recorded: bool, side: Side<'_>) -> &'static str
    ensures { result.now ≡ hint recorded (side_of side.entry) }
{
    match side {
        Side::Server(Phase::Beginning) => either(
            recorded,
            "pgtrace: no message of a server stands where the server's bytes begin\n",
            "pgtrace: no message of a server stands where the stream begins\n",
        ),
        Side::Server(Phase::Encrypted) => either(
            recorded,
            "pgtrace: what the server sends from there on is encrypted\n",
            "pgtrace: what follows is encrypted; a stream that begins in mid-session is listed with --resume\n",
        ),
        Side::Client { opened: false, .. } => either(
            recorded,
            "pgtrace: no packet that opens a connection stands where the client's bytes are left: they are encrypted, or the recording begins in mid-session\n",
            "pgtrace: no packet that opens a connection stands there: what follows is encrypted, or the stream begins in mid-session and is listed with --resume\n",
        ),
        Side::Server(Phase::Messages | Phase::Replicating) | Side::Client { opened: true, .. } =>
            "",
    }
}

/// The first text of a recording, the other of a stream by itself.
fn either(recorded: bool, first: &'static str, other: &'static str) -> &'static str
    ensures { result.now ≡ (if recorded then first.now else other.now) }
{
    if recorded { first } else { other }
}
