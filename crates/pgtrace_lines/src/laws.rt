//! Laws of lines.

ghost use Rattle.std.specs.Prelude.{◌≡◌, ◌⊎◌, ◌∷◌, ◌++◌, [], ℕ, List, true, false, Bool, ℤ, Ok, Result, None, Some, length};
ghost use Rattle.std.specs.Str.{str_eq_ignore_ascii_case};
ghost use Rattle.pgtrace_lines.specs.Common.{Error, Message, CancelRequest, PasswordMessage, SaslInitialResponse, SaslResponse, BackendRun, Json, Style, Beginning, Encrypted, Messages};
ghost use Rattle.pgp_frontend_read.specs.declared.message.PasswordKind.{PasswordKind};
ghost use Rattle.pgtrace_lines.specs.Client.{client_line};
ghost use Rattle.pgtrace_lines.specs.ClientSecrets.{AlikeClientStreams};
ghost use Rattle.pgtrace_lines.specs.View.{View, color_of, painted, plain, shown, uncolored};
ghost use Rattle.pgtrace_lines.specs.LineNames.{name_meant};
ghost use Rattle.pgtrace_lines.specs.Listing.{IsListing, IsRunBehindAnswers, LineOf, Lines, answer_name, name_in};
ghost use Rattle.pgtool_line.specs.Quoting.{IsPrinted};
ghost use Rattle.pgtrace_lines.specs.Plain.{HasNoCopyBoth, PlainLines};
ghost use Rattle.pgtrace_lines.specs.Replication.{Inner, IsInner};
ghost use Rattle.pgtrace_lines.specs.Secrets.{Alike, AlikeBeginnings, AlikeStreams, quiet, quietly};
ghost use Rattle.pgtrace_lines.specs.Shown.{Shows};
ghost use Rattle.pgtrace_lines.specs.Sides.{Client, Server, Side, answered};

/// A stream has one listing.
pub fn one_listing()
    ensures { (view : View) (from : Side) (bytes output other : List ℕ) → IsListing view from bytes output → IsListing view from bytes other → output ≡ other }
{}

/// A line has characters alone that a terminal prints, and then its newline.
#[tactic(auto, using(crate::proofs::Printable::line_printable))]
pub fn lines_are_printable()
    ensures { (style : Style) (place : ℕ) (from to : Side) (frame line : List ℕ) → LineOf style place from frame line to →
        (text : List ℕ) × (line ≡ text ++ 10 ∷ []) × IsPrinted text }
{}

/// Where no name is asked for, what stands in a listing of a frame is its line.
pub fn all_lines_are_listed()
    ensures { (style : Style) (name line : List ℕ) → shown (plain style) name line ≡ line }
{}

/// Each name that a line has can be asked for: a word that is it but for the case of its letters means it. So does a word that is the name which a recording's
/// line has for an answer of one byte.
#[tactic(auto, using(crate::proofs::LineNames::line_meant, crate::proofs::LineNames::answer_meant))]
pub fn names_can_be_asked_for()
    ensures lines { (style : Style) (place : ℕ) (from to : Side) (frame line word : List ℕ) (is : LineOf style place from frame line to) →
        str_eq_ignore_ascii_case (name_in style place from frame line to is) word ≡ true → name_meant word ≡ Some (name_in style place from frame line to is) }
    ensures answers { (byte : ℕ) (word : List ℕ) → str_eq_ignore_ascii_case (answer_name byte) word ≡ true → name_meant word ≡ Some (answer_name byte) }
{}

/// A line in a colour is the line between two escape sequences, the second before its newline. Objects have no colour.
#[tactic(auto, using(crate::proofs::Painted::painted_line, crate::proofs::Painted::no_object))]
pub fn colors_stand_around_lines()
    ensures around { (color text : List ℕ) → painted (Some color) (text ++ 10 ∷ []) ≡ color ++ text ++ uncolored ++ 10 ∷ [] }
    ensures objects { (view : View) (name : List ℕ) → view.style.form ≡ Json → color_of view name ≡ None }
{}

/// A server's messages that differ in their secrets alone have the same lines, unless secrets are asked for.
#[tactic(auto, using(crate::proofs::Hiding::hidden))]
pub fn secrets_are_hidden()
    ensures { (style : Style) (m n : Message) (old new : List ℕ) → Alike m n → Shows (quiet style) m old new → Shows (quiet style) n old new }
{}

/// A server's streams that differ in their secrets alone have the same lines, unless secrets are asked for: from the first byte of a connection on, and
/// from any message on.
pub fn streams_hide_their_secrets()
    ensures beginning { (view : View) (start : ℕ) (a b lines : List ℕ) (to : Side) → AlikeBeginnings a b →
        Lines (quietly view) start (Server Beginning) a lines to → Lines (quietly view) start (Server Beginning) b lines to }
    ensures messages { (view : View) (start : ℕ) (a b lines : List ℕ) (to : Side) → AlikeStreams a b →
        Lines (quietly view) start (Server Messages) a lines to → Lines (quietly view) start (Server Messages) b lines to }
{}

/// A listing of what a server sent is that of the stream as it is read elsewhere: with these results of its frames, this rest, and this end. From the
/// first byte of a connection on, answers of one byte come before; and where the last of them agreed to encrypt, no frame comes after.
pub fn listings_are_runs()
    ensures beginning { (view : View) (bytes output : List ℕ) (l : IsListing view (Server Beginning) bytes output) →
        (l.to ≡ Server Encrypted) ⊎ IsRunBehindAnswers bytes l.stopped l.rest }
    ensures messages { (view : View) (bytes output : List ℕ) (l : IsListing view (Server Messages) bytes output) →
        (results : List (Result Message Error)) × BackendRun bytes results l.stopped l.rest }
{}

/// A server's stream at whose front no answer of one byte stands is listed as messages alone.
#[tactic(auto, using(crate::proofs::Beginnings::whole, crate::proofs::Beginnings::other))]
pub fn no_answers()
    ensures whole { (view : View) (bytes output : List ℕ) → answered bytes ≡ None →
        IsListing view (Server Beginning) bytes output → IsListing view (Server Messages) bytes output }
    ensures other { (view : View) (bytes output : List ℕ) → answered bytes ≡ None →
        IsListing view (Server Messages) bytes output → IsListing view (Server Beginning) bytes output }
{}

/// A server's stream of messages in which no CopyBothResponse stands is listed as messages alone: each has the line of what it says itself.
#[tactic(auto, using(crate::proofs::Plain::plain, crate::proofs::Plain::other))]
pub fn no_replication()
    ensures plain { (view : View) (start : ℕ) (bytes lines : List ℕ) (to : Side) → HasNoCopyBoth bytes →
        Lines view start (Server Messages) bytes lines to → PlainLines view start bytes lines × (to ≡ Server Messages) }
    ensures other { (view : View) (start : ℕ) (bytes lines : List ℕ) → HasNoCopyBoth bytes →
        PlainLines view start bytes lines → Lines view start (Server Messages) bytes lines (Server Messages) }
{}

/// A CopyData has one message of replication inside, or none.
pub fn one_inner_message()
    ensures { (standby : Bool) (bytes : List ℕ) (m n : Inner) → IsInner standby bytes m → IsInner standby bytes n → m ≡ n }
{}

/// A client's messages that differ in their secrets alone have the same lines, unless secrets are asked for. Where it isn't reported which message of tag
/// `p` one is, it has the same line whatever is asked for.
#[tactic(auto, using(crate::proofs::ClientHiding::password, crate::proofs::ClientHiding::initial, crate::proofs::ClientHiding::response, crate::proofs::ClientHiding::key, crate::proofs::ClientHiding::unreported))]
pub fn client_secrets_are_hidden()
    ensures password { (style : Style) (reported : Bool) (a b old : List ℕ) → length a ≡ length b →
        client_line (quiet style) reported (Ok (PasswordMessage a)) old ≡ client_line (quiet style) reported (Ok (PasswordMessage b)) old }
    ensures initial { (style : Style) (reported : Bool) (mechanism a b old : List ℕ) → length a ≡ length b →
        client_line (quiet style) reported (Ok (SaslInitialResponse mechanism (Some a))) old ≡ client_line (quiet style) reported (Ok (SaslInitialResponse mechanism (Some b))) old }
    ensures response { (style : Style) (a b old : List ℕ) → length a ≡ length b →
        client_line (quiet style) true (Ok (SaslResponse a)) old ≡ client_line (quiet style) true (Ok (SaslResponse b)) old }
    ensures key { (style : Style) (reported : Bool) (process : ℤ) (a b old : List ℕ) → length a ≡ length b →
        client_line (quiet style) reported (Ok (CancelRequest process a)) old ≡ client_line (quiet style) reported (Ok (CancelRequest process b)) old }
    ensures unreported { (style : Style) (a b old : List ℕ) → length a ≡ length b →
        client_line style false (Ok (SaslResponse a)) old ≡ client_line style false (Ok (SaslResponse b)) old }
{}

/// A client's streams that differ in their secrets alone have the same lines, unless secrets are asked for.
#[tactic(auto, using(crate::proofs::ClientStreams::client_streams_hidden))]
pub fn client_streams_hide_their_secrets()
    ensures { (view : View) (start : ℕ) (opened : Bool) (kinds : List PasswordKind) (replicating : Bool) (a b lines : List ℕ) (to behind : Side) → AlikeClientStreams (Client opened kinds replicating) a b behind →
        Lines (quietly view) start (Client opened kinds replicating) a lines to → Lines (quietly view) start (Client opened kinds replicating) b lines to }
{}
