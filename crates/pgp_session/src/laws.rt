//! What holds of a connection after any calls, and of all that a monitor let through.

ghost use Rattle.std.specs.Prelude.{◌≡◌, ◌⊎◌, ◌<◌, ◌≤◌, ◌^◌, ◌++◌, ℕ, Bool, List, Ok, Option, false, length};
ghost use Rattle.pgp_client.specs.Ending.{open_after};
ghost use Rattle.pgp_client.specs.InTurns.{IsAmong};
ghost use Rattle.pgp_client.specs.Limits.{is_longer};
ghost use Rattle.pgp_client.specs.Telling.{asked_in, names};
ghost use Rattle.pgp_client.specs.declared.request.Asked.{Asked as Named};
ghost use Rattle.pgp_client.specs.declared.event.Event.{Event as Reported};
ghost use Rattle.pgp_client.specs.declared.kind.Kind.{Kind as SentKind};
ghost use Rattle.pgp_client.specs.declared.request.Request.{Request as Asked};
ghost use Rattle.pgp_frontend.specs.ClientMessage.{ClientMessage as Written, SslRequest, Terminate};
ghost use Rattle.pgp_frontend.specs.Reading.{IsNamed};
ghost use Rattle.pgp_message.specs.BackendMessage.{Message as Observed};
ghost use Rattle.pgp_message.specs.Stream.{IsPartial, TakesFrame};
ghost use Rattle.pgp_session.specs.Connection.{HasStarted, Sent, Shown, Took, Wrote, begun, dropped, fed, in_phase, open_from, packet_of, told, version_of, with_incoming};
ghost use Rattle.pgp_session.specs.Answered.{Answered};
ghost use Rattle.pgp_session.specs.Incoming.{Reads};
ghost use Rattle.pgp_login.specs.Login.{Kept as LogIn};
ghost use Rattle.pgp_login.specs.Machine.{Ways as Admitting};
ghost use Rattle.pgp_login.specs.declared.login.LoginPhase.TheVariants.{AwaitsOffer};
ghost use Rattle.pgp_login.specs.declared.versions.Versions.{Versions as AskedFor};
ghost use Rattle.pgp_login.specs.declared.versions.Versions.TheVariants.{Only3_2};
ghost use Rattle.pgp_frontend.specs.declared.startup.ProtocolVersion.TheVariants.{V3_2};
ghost use Rattle.pgp_session.specs.Login.{ways_in};
ghost use Rattle.pgp_session.specs.Monitor.{Shown as Monitored, Went};
ghost use Rattle.pgp_session.specs.Session.{Follows, History, Known, and_fed, and_observed, and_sent, and_wrote, nothing};
ghost use Rattle.pgp_session.specs.declared.connection.ConnectionPhase.TheVariants.{Opening, Encrypting, Started, Over};

/// Of a new connection nothing is known but its ways; and what is known of a connection is known after each call, with what the call did.
pub fn calls_are_known()
    ensures begun { (login : LogIn) (limit : ℕ) → login.phase ≡ AwaitsOffer → Known (ways_in login) nothing (begun login limit) }
    ensures asks_encryption { (ways : Admitting) (h : History) (old new : Shown) → Wrote Opening Encrypting SslRequest old new → Known ways h old
        → Known ways (and_wrote SslRequest 0 h) new }
    ensures answered { (ways : Admitting) (h : History) (old : Shown) (encrypts : Bool) → old.phase ≡ Encrypting → Known ways h old → Known ways h (told encrypts old) }
    ensures starts { (ways : Admitting) (h : History) (old new : Shown) (asked : AskedFor) (parameters : List (List ℕ × List ℕ)) (name : ℕ) → IsNamed (packet_of asked parameters)
        → HasStarted asked (packet_of asked parameters) old new name → Known ways h old → Known ways (and_wrote (packet_of asked parameters) name h) new }
    ensures sends { (ways : Admitting) (h : History) (old new : Shown) (m : Written) (name : ℕ) → Sent m old new name → Known ways h old → Known ways (and_wrote m name h) new }
    ensures sent { (ways : Admitting) (h : History) (old : Shown) (count : ℕ) → Known ways h old → Known ways (and_sent count old h) (dropped count old) }
    ensures fed { (ways : Admitting) (h : History) (old : Shown) (piece : List ℕ) → Known ways h old → Known ways (and_fed piece h) (fed piece old) }
    ensures observed { (ways : Admitting) (h : History) (old new : Shown) (rest : List ℕ) (m : Observed) (e : Reported) → old.phase ≡ Started → TakesFrame old.incoming (Ok m) rest
        → Took m (with_incoming rest old) new e → Known ways h old → (reply : Option Written) × Known ways (and_observed m e reply h) new }
    ensures ends { (ways : Admitting) (h : History) (old new : Shown) → Wrote Started Over Terminate old new → Known ways h old → Known ways (and_wrote Terminate 0 h) new }
    ensures stopped { (ways : Admitting) (h : History) (old : Shown) → Known ways h old → Known ways h (in_phase Over old) }
{
    pgp_message::laws::no_frame();
    pgp_message::laws::frames_go_on();
    pgp_message::laws::next_frame();
}

/// What is known of a connection says of the whole session: the requests that were asked are those of the messages in the bytes; each message of
/// the server belongs to the request that was reported, and to no other; no password is
/// given away but by a way that is admitted; and the client is logged in by one such way alone, and only where the server's signature was shown if an
/// exchange of SCRAM-SHA-256 was begun; and the status, the key and each setting are the last that the server's messages have.
pub fn sessions_follow()
    ensures { (ways : Admitting) (h : History) (now : Shown) → Known ways h now → Follows ways h now }
{
    pgp_client::laws::only_answers_are_taken();
    pgp_login::laws::sessions_follow();
}

/// Who asks for 3.2 and for no version before it is never logged in at 3.0: whatever a server sends, the version that is spoken is 3.2.
pub fn who_asks_for_3_2_alone_speaks_it()
    ensures { (ways : Admitting) (h : History) (now : Shown) → now.offered.versions ≡ Only3_2 → Known ways h now → version_of now ≡ V3_2 }
{}

/// Of what was sent over a connection every request ends once: those whose names are below `Connection::open_from` have ended, in the order in which they were
/// sent, and the others are to end.
pub fn names_below_have_ended()
    ensures { (ways : Admitting) (h : History) (now : Shown) → now.phase ≡ Started → length h.written < 2 ^ 64 → Known ways h now
        → (ended : List Named) × (asked_in h.turns ≡ ended ++ open_after h.turns)
        × ((n : ℕ) → IsAmong n (names ended) → n < open_from now) × ((n : ℕ) → IsAmong n (names (open_after h.turns)) → open_from now ≤ n) }
{
    pgp_client::laws::every_request_ends_once();
    pgp_client::laws::first_open_requests_are_told();
}

/// A message that is read in place is the one that `advance` took: of one frame there is one message.
pub fn one_message_in_place()
    ensures { (frame : List ℕ) (first second : Option Observed) → Reads frame first → Reads frame second → first ≡ second }
{}

/// Where `next` and `advance` return `None`, what a connection keeps of the bytes that came is no longer than a message may be, nor than a part of a header.
pub fn what_is_kept_is_bounded()
    ensures { (limit : ℕ) (bytes : List ℕ) → is_longer limit bytes ≡ false → IsPartial bytes → (length bytes ≤ 4) ⊎ (length bytes ≤ limit) }
{
    pgp_message::laws::one_header();
}

/// Whatever requests were noted and whatever bytes were handed to a monitor: those that it let through, which were handed on (`gone`) or are to
/// be sent, are whole messages that belong to those requests; where it was ended, a front of such bytes.
pub fn what_is_sent_belongs()
    ensures { (requests : List Asked) (kinds : List SentKind) (events : List Reported) (gone : List ℕ) (now : Monitored) → Went requests kinds events gone now
        → Answered requests kinds events now.is_over (gone ++ now.out) }
{}
