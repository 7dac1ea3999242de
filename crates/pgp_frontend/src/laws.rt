//! Laws on what a server reads from the messages of a client, knowing only the grammar; and on what fits in a window.

ghost use Rattle.std.specs.Prelude.{◌≡◌, ◌≢◌, ◌⊎◌, ℕ, ◌+◌, ◌≤◌, List, ◌++◌, length, Some, None, Result, IfErr};
ghost use Rattle.std.specs.Result.{IsOk};
ghost use Rattle.std.specs.Borrow.{GName};
ghost use Rattle.pgp_base.specs.Wire.{frame};
ghost use Rattle.pgp_base.specs.Cause.{length_cause, Wants};
ghost use Rattle.pgp_base.specs.Held.{Held, ◌⊕◌};
ghost use Rattle.pgp_base.specs.Window.{window_held, window_lacks};
ghost use Rattle.pgp_frontend.specs.ClientMessage.{ClientMessage, Query};
ghost use Rattle.pgp_frontend.specs.Opening.{Opening};
ghost use Rattle.pgp_frontend.specs.Payload.{Part, spelling, payload, tag_of, kind_of, bytes_of, cause, WritesMessage};
ghost use Rattle.pgp_frontend.specs.Reading.{AllBytes, AKey, shape, HasSpelling, IsSpelled};

use crate::simple::query;
use pgp_base::{Error, Window};

/// No spelling of a part, one of all bytes that are left excepted, begins another spelling of that part.
pub fn parts_begin_no_other()
    ensures { (p q : Part) (more rest : List ℕ) → shape p ≡ shape q → shape p ≢ AllBytes → shape p ≢ AKey → HasSpelling p → HasSpelling q
        → spelling p ++ more ≡ spelling q ++ rest → (p ≡ q) × (more ≡ rest) }
{}

/// Under a tag, and a kind where the tag is `p`, the payload determines the message.
pub fn payload_determines_message()
    ensures { (m n : ClientMessage) → tag_of m ≢ None → tag_of m ≡ tag_of n → kind_of m ≡ kind_of n → IsSpelled m → IsSpelled n
        → payload m ≡ payload n → m ≡ n }
{}

/// No frame begins another, whatever the messages are: its length says where it ends. So, under its kind, no
/// tagged message begins another.
pub fn frames_begin_no_other()
    ensures frames { (t u : ℕ) (p q more rest : List ℕ) → length_cause (length p + 4) ≡ None → length_cause (length q + 4) ≡ None
        → frame t p ++ more ≡ frame u q ++ rest → (t ≡ u) × (p ≡ q) × (more ≡ rest) }
    ensures messages { (m n : ClientMessage) (more rest : List ℕ) → tag_of m ≢ None → tag_of n ≢ None → kind_of m ≡ kind_of n → IsSpelled m → IsSpelled n
        → bytes_of m ++ more ≡ bytes_of n ++ rest → (m ≡ n) × (more ≡ rest) }
{}

/// No opening packet begins another.
pub fn opening_packets_begin_no_other()
    ensures { (m n : ClientMessage) (b c more rest : List ℕ) → Opening m b → Opening n c → b ++ more ≡ c ++ rest → (m ≡ n) × (more ≡ rest) }
{}

/// A writer of a message into a window lacks memory only where the message is longer than the room that is left.
pub fn only_what_is_too_long_wants_memory()
    ensures wants { (old : Held (GName × ℕ)) (n : ℕ) → Wants window_lacks old n → window_lacks old n }
    ensures longer { (m : ClientMessage) (old new : Held (GName × ℕ)) (result : Result (Unit {0}) Error) → WritesMessage m window_lacks old new result
        → IfErr result (λ e. ((e ≡ Error.OutOfMemory) × window_lacks old (length (bytes_of m))) ⊎ (cause m ≡ Some e)) }
{}

/// A message without a cause that fits in the room that a window has left is written.
pub fn what_fits_is_written()
    ensures { (m : ClientMessage) (old new : Held (GName × ℕ)) (result : Result (Unit {0}) Error) → WritesMessage m window_lacks old new result
        → cause m ≡ None → length old.bytes + length (bytes_of m) ≤ old.kept.1 → IsOk result × (new ≡ old ⊕ bytes_of m) }
{}

/// A query that fits in the room that a window has left, and has no cause, is written.
///
/// # Errors
///
/// None.
pub fn query_that_fits(text: &str, window: &mut Window) -> Result<(), Error>
    requires none { cause (Query text.now) ≡ None }
    requires fits { length (window_held window.old).bytes + length (bytes_of (Query text.now)) ≤ (window_held window.old).kept.1 }
    ensures { IsOk result × (window_held window.new ≡ window_held window.old ⊕ bytes_of (Query text.now)) }
{
    query(text, window)
}
