//! What holds of all sessions of a connection.

ghost use Rattle.std.specs.Prelude.{◌≡◌, ◌≢◌, ℕ, List, Some, true, if◌then◌else◌};
ghost use Rattle.std.specs.Str.{bytes_eq};
ghost use Rattle.pgp_client.specs.InTurns.{BelongInTurns};
ghost use Rattle.pgp_client.specs.Telling.{Turn, reported_in};
ghost use Rattle.pgp_client.specs.declared.event.Event.{Event as Reported};
ghost use Rattle.pgp_message.specs.BackendMessage.{Message as Received, ParameterStatus};
ghost use Rattle.pgp_frontend.specs.ClientMessage.{ClientMessage as Written};
ghost use Rattle.pgp_login.specs.Face.{offered_in, ways_of};
ghost use Rattle.pgp_login.specs.Versions.{is_admitted, spoken};
ghost use Rattle.pgp_login.specs.Session.{Admitted};
ghost use Rattle.pgp_message.specs.Parts.{Setting};
ghost use Rattle.for_c_auth.specs.Connection.{Link};
ghost use Rattle.for_c_auth.specs.Answering.{done};
ghost use Rattle.for_c_auth.specs.Runs.{Runs};
ghost use Rattle.for_c_auth.specs.Settings.{settled, value_of};
ghost use Rattle.pgp_login.specs.declared.face.PgpWays.{PgpWays as Ways};

/// Whatever a server sends, a connection that is logged in came there by one way that is admitted, and gave away nothing but by that; and where an exchange of SCRAM-SHA-256 was begun, only
/// where the server showed the signature of the password's verifier.
pub fn who_is_let_in_has_signed()
    ensures { (w : Ways) (gave : List Written) (heard : List Received) (turns : List Turn) (now : Link) → Runs w gave heard turns now → now.login.phase ≡ done → Admitted (ways_of w) heard gave }
{
    pgp_login::laws::sessions_follow();
}

/// The version that is spoken was asked for, whatever a server sends: so who asks for 3.2 alone is never logged in at 3.0.
pub fn what_is_spoken_was_asked_for()
    ensures { (w : Ways) (gave : List Written) (heard : List Received) (turns : List Turn) (now : Link) → Runs w gave heard turns now
        → is_admitted (offered_in w).versions (spoken (offered_in w).versions now.version) ≡ true }
{}

/// Each message that was taken belongs to the request that was reported, and to no other.
pub fn answers_belong_to_their_requests()
    ensures belong { (w : Ways) (gave : List Written) (heard : List Received) (turns : List Turn) (now : Link) → Runs w gave heard turns now → BelongInTurns turns (reported_in turns) }
    ensures alone { (w : Ways) (gave : List Written) (heard : List Received) (turns : List Turn) (now : Link) (truth : List Reported) → Runs w gave heard turns now → BelongInTurns turns truth
        → truth ≡ reported_in turns }
{
    pgp_login::laws::sessions_follow();
}

/// Where memory is given for settings, one has the value that was reported last under its name, and each other the value that it had.
pub fn settings_have_their_last_values()
    ensures { (given : ℕ) (s : Setting) (kept : List Setting) (name : List ℕ) → given ≢ 0
        → value_of name (settled given (ParameterStatus s) kept) ≡ (if bytes_eq s.name name then Some s.value else value_of name kept) }
{}
