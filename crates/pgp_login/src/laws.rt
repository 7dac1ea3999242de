//! What holds of every log-in, whatever keeps its exchange.

ghost use Rattle.std.specs.Prelude.{◌≡◌, ℕ, Bool, true, List, [], None, Option};
ghost use Rattle.std.specs.List.{AllByRecursion};
ghost use Rattle.pgp_client.specs.InTurns.{BelongInTurns};
ghost use Rattle.pgp_client.specs.Talk.{Talk};
ghost use Rattle.pgp_client.specs.Telling.{Turn, reported_in};
ghost use Rattle.pgp_client.specs.declared.event.Event.{Event as Reported};
ghost use Rattle.pgp_frontend.specs.ClientMessage.{ClientMessage as Written};
ghost use Rattle.pgp_message.specs.BackendMessage.{Message as Observed};
ghost use Rattle.pgp_login.specs.Face.{state_of, ways_of};
ghost use Rattle.pgp_login.specs.Login.{Kept, Simulates, Stands};
ghost use Rattle.pgp_login.specs.Machine.{AwaitsOffer, Done, LoggedOn, State, Ways as Admitting, asking};
ghost use Rattle.pgp_login.specs.Session.{Admitted, Heard, IsAllowed, Known, Played, Plays};
ghost use Rattle.pgp_login.specs.Talks.{Talks};
ghost use Rattle.pgp_login.specs.Timely.{IsTimely, Offered};
ghost use Rattle.pgp_login.specs.Versions.{answered, is_admitted, newer, spoken};
ghost use Rattle.pgp_login.specs.declared.versions.Versions.{Versions as AskedFor};
ghost use Rattle.pgp_frontend.specs.declared.startup.ProtocolVersion.{ProtocolVersion as Spoken};
ghost use Rattle.pgp_login.specs.declared.face.PgpLogin.{PgpLogin as KeptByC};
ghost use Rattle.pgp_login.specs.declared.face.PgpWays.{PgpWays as WaysOfC};
ghost use Rattle.pgp_login.specs.declared.login.LoginPhase.TheVariants.{Done as IsDone};

/// Whatever a server sends, a client that is logged in came there by one way that is admitted, and gave away nothing but by that; and where an exchange of SCRAM-SHA-256 was begun, only
/// where the server's signature was shown.
pub fn who_is_let_in_has_signed()
    ensures { (w : Admitting) (gave : List Written) (observed : List Observed) → Plays w gave observed Done → Admitted w observed gave }
{}

/// However far the log-in is, what was given away is allowed.
pub fn what_is_given_is_admitted()
    ensures { (w : Admitting) (gave : List Written) (observed : List Observed) (s : State) → Plays w gave observed s → AllByRecursion (IsAllowed w) gave }
{}

/// For Rust and Rattle: of a new log-in nothing is known but its ways, and what is known of one is known after each message; so that whoever is let in has signed.
pub fn calls_are_known()
    ensures begun { (w : Admitting) (encrypted : Bool) (l : Kept) → Stands w encrypted AwaitsOffer l → Known w encrypted [] [] l }
    ensures heard { (w : Admitting) (encrypted : Bool) (gave : List Written) (observed : List Observed) (m : Observed) (old new : Kept) (out grown : List ℕ)
        → Simulates (asking m) old new out grown → Known w encrypted gave observed old → Heard w encrypted gave observed m new out grown }
    ensures done { (w : Admitting) (encrypted : Bool) (gave : List Written) (observed : List Observed) (l : Kept) → Known w encrypted gave observed l → l.phase ≡ IsDone → Admitted w observed gave }
{}

/// For C: what it keeps of a log-in stands for a state, at first the first; each call that takes a message plays on; and whoever is let in has signed, as for Rust.
pub fn calls_of_c_are_known()
    ensures begun { (w : WaysOfC) (l : KeptByC) → l.phase ≡ 0 → Plays (ways_of w) [] [] (state_of l) }
    ensures heard { (w : WaysOfC) (gave : List Written) (observed : List Observed) (m : Observed) (old new : KeptByC) (out grown : List ℕ)
        → LoggedOn (ways_of w) w.is_encrypted (asking m) (state_of old) (state_of new) out grown → Plays (ways_of w) gave observed (state_of old) → Played (ways_of w) gave observed m (state_of new) out grown }
    ensures done { (w : WaysOfC) (gave : List Written) (observed : List Observed) (l : KeptByC) → Plays (ways_of w) gave observed (state_of l) → l.phase ≡ 4 → Admitted (ways_of w) observed gave }
{}

/// Of a whole session, for each language: each message that was taken belongs to the request that was reported and to no other, nothing is given away but by an admitted way, and whoever is
/// let in has signed.
pub fn sessions_follow()
    ensures belong { (w : Admitting) (gave : List Written) (observed : List Observed) (turns : List Turn) (t : Talk) (s : State) → Talks w gave observed turns t s → BelongInTurns turns (reported_in turns) }
    ensures alone { (w : Admitting) (gave : List Written) (observed : List Observed) (turns : List Turn) (t : Talk) (s : State) (truth : List Reported) → Talks w gave observed turns t s
        → BelongInTurns turns truth → truth ≡ reported_in turns }
    ensures allowed { (w : Admitting) (gave : List Written) (observed : List Observed) (turns : List Turn) (t : Talk) (s : State) → Talks w gave observed turns t s → AllByRecursion (IsAllowed w) gave }
    ensures admitted { (w : Admitting) (gave : List Written) (observed : List Observed) (turns : List Turn) (t : Talk) → Talks w gave observed turns t Done → Admitted w observed gave }
{
    pgp_client::laws::messages_belong_in_turns();
}

/// The version that is spoken is one that was asked for: of a startup packet that wasn't answered, and after each message that comes in time. So who asks for 3.2 alone never speaks 3.0.
pub fn what_is_spoken_was_asked_for()
    ensures packet { (asked : AskedFor) → is_admitted asked (spoken asked None) ≡ true }
    ensures answered { (done : Bool) (before : Option Spoken) (o : Offered) (m : Observed) → IsTimely done before o m → is_admitted o.versions (spoken o.versions before) ≡ true
        → is_admitted o.versions (spoken o.versions (newer before (answered m))) ≡ true }
{}
