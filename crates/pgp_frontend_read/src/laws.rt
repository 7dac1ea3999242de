//! Laws of what a server reads.

ghost use Rattle.std.specs.Prelude.{◌≡◌, ◌||◌, ℕ, Bool, false, List, [], ◌++◌, Option, Some, None, Result, Ok, Err, IsErr};
ghost use Rattle.pgp_base.specs.declared.error.Error.{Error};
ghost use Rattle.pgp_base.specs.Held.{Held, ◌⊕◌};
ghost use Rattle.pgp_frontend.specs.Payload.{WritesMessage};
ghost use Rattle.pgp_frontend.specs.Reading.{Shape};
ghost use Rattle.pgp_frontend_read.specs.Forwards.{Forwards, WritesAll};
ghost use Rattle.pgp_frontend_read.specs.Faults.{Faulty};
ghost use Rattle.pgp_frontend_read.specs.declared.error.ClientError.{ClientError as Refusal};
ghost use Rattle.pgp_frontend.specs.ClientMessage.{ClientMessage as Message, PasswordKind as Kind};
ghost use Rattle.pgp_frontend.specs.ClientRun.{ClientRun, is_startup};
ghost use Rattle.pgp_frontend_read.specs.Step.{IsPartial, Stands, Step, Unread};
ghost use Rattle.pgp_frontend_read.specs.Reads.{HasRead, Reads, ReadsSession, IsAllRead};
ghost use Rattle.std.specs.List.{flat_map};
ghost use Rattle.pgp_frontend_read.specs.PieceReads.{Received, Gives, ReadsPiece, ReadsPieces, messages_of, piece_of};
ghost use Rattle.pgp_frontend_read.specs.Pieces.{Waiting, unread};

use pgp_base::{Buffer, Memory};

/// A message that stands at the front is read, and no other answer is given.
pub fn what_stands_is_read()
    ensures { (kind : Kind) (opened : Bool) (bytes rest : List ℕ) (m : Message) (result : Result (Option Message) Refusal) (new : Unread) →
        Stands kind opened bytes m rest → Step kind (record { bytes = bytes; opened = opened }) result new →
        (result ≡ Ok (Some m)) × (new ≡ record { bytes = rest; opened = opened || is_startup m }) }
{}

/// What was read stands when bytes come.
pub fn what_was_read_stands()
    ensures { (kind : Kind) (old new later : Unread) (more : List ℕ) (m : Message) (result : Result (Option Message) Refusal) →
        Step kind old (Ok (Some m)) new → Step kind (record { bytes = old.bytes ++ more; opened = old.opened }) result later →
        (result ≡ Ok (Some m)) × (later ≡ record { bytes = new.bytes ++ more; opened = new.opened }) }
{}

/// What a client's session is, as the grammar says, is what a server that is given the kinds reads step by step:
/// these messages, and then it waits for more.
pub fn sessions_are_read()
    ensures { (kinds : List Kind) (messages others : List Message) (bytes : List ℕ) (end : Result (Option Message) Refusal) (new : Unread) →
        ClientRun kinds messages bytes → Reads kinds (record { bytes = bytes; opened = false }) others end new → IsAllRead messages others end new }
{}

/// So `read_session` gives all messages of such a session, and no error.
pub fn sessions_are_read_at_once()
    ensures { (kinds : List Kind) (messages others : List Message) (bytes : List ℕ) (end : Option Refusal) →
        ClientRun kinds messages bytes → ReadsSession kinds bytes others end → (others ≡ messages) × (end ≡ None) }
{}

/// An error stays when bytes come: no message is read there then, and no more bytes are waited for.
pub fn refusals_stay()
    ensures { (kind : Kind) (old new later : Unread) (e : Refusal) (more : List ℕ) (result : Result (Option Message) Refusal) →
        Step kind old (Err e) new → Step kind (record { bytes = old.bytes ++ more; opened = old.opened }) result later → IsErr result }
{}

/// Where bytes of a message are missing the reader waits, and gives no other answer.
pub fn what_is_partial_waits()
    ensures { (kind : Kind) (opened : Bool) (bytes : List ℕ) (result : Result (Option Message) Refusal) (new : Unread) →
        IsPartial opened bytes → Step kind (record { bytes = bytes; opened = opened }) result new → result ≡ Ok None }
{}

/// Bytes that aren't the parts of given shapes have one first fault.
pub fn one_first_fault()
    ensures { (shapes : List Shape) (bytes : List ℕ) (d e : Error) → Faulty shapes bytes d → Faulty shapes bytes e → d ≡ e }
{}

/// A step has one answer: what is read or why nothing is, and what is left.
pub fn one_answer()
    ensures { (kind : Kind) (old new other : Unread) (result another : Result (Option Message) Refusal) →
        Step kind old result new → Step kind old another other → (result ≡ another) × (new ≡ other) }
{}

/// However a client's bytes are cut: who has read these messages of a front, and goes on with what is left of it and the
/// bytes that come, has read what the bytes as a whole give.
pub fn pieces_are_read_as_one()
    ensures { (kinds rest : List Kind) (old here new : Unread) (more : List ℕ) (messages others : List Message) (end : Result (Option Message) Refusal) →
        HasRead kinds old messages rest here → Reads rest (record { bytes = here.bytes ++ more; opened = here.opened }) others end new →
        Reads kinds (record { bytes = old.bytes ++ more; opened = old.opened }) (messages ++ others) end new }
{}

/// What a proxy writes for a message that it read are the bytes that stood there, and want of the memory that these need is
/// the one error.
pub fn what_was_read_is_forwarded<B: Buffer>()
    ensures { (kind : Kind) (before after : Unread) (m : Message) (old new : Held B.Kept) (result : Result (Unit {0}) Error) →
        Step kind before (Ok (Some m)) after → WritesMessage m B.Lacks old new result → Forwards B.Lacks before.bytes after.bytes old new result }
{}

/// What a call of a `ClientParser` gives, with the message of what it hands out, is the step of a server over the
/// bytes that are held and the piece after them.
pub fn calls_are_steps<A: Memory>()
    ensures { (kind : Kind) (old new : Waiting) (piece left : List ℕ) (result : Result (Option Message) Refusal) →
        Gives A.Lacks kind old piece result new left → Step kind (unread old piece) result (unread new left) }
{}

/// So, however a client's connection is cut into pieces: the messages that came while each was fed, and those that came of the
/// last, with what ended them, are what the bytes as a whole give, and all that they give.
pub fn pieces_give_the_whole<A: Memory>()
    ensures { (kinds others rest : List Kind) (old here new : Waiting) (received : List Received) (last left : List ℕ) (messages all : List Message)
        (end result : Result (Option Message) Refusal) (behind : Unread) →
        ReadsPieces A.Lacks kinds old received others here → ReadsPiece A.Lacks others here last messages end rest new left →
        Reads kinds (unread old (flat_map piece_of received ++ last)) all result behind →
        (all ≡ flat_map messages_of received ++ messages) × (result ≡ end) × (behind ≡ unread new left) }
{}

/// And where the pieces are those of a session, as the grammar says: exactly its messages came, and the parser
/// waits for more.
pub fn pieces_of_sessions_are_read<A: Memory>()
    ensures { (kinds others rest : List Kind) (old here new : Waiting) (received : List Received) (last left : List ℕ) (messages all : List Message)
        (end : Result (Option Message) Refusal) →
        old.bytes ≡ [] → old.opened ≡ false → ReadsPieces A.Lacks kinds old received others here → ReadsPiece A.Lacks others here last all end rest new left →
        ClientRun kinds messages (flat_map piece_of received ++ last) → IsAllRead messages (flat_map messages_of received ++ all) end (unread new left) }
{}

/// What a proxy writes for all messages that it read are the bytes that stood there.
pub fn all_that_was_read_is_forwarded<B: Buffer>()
    ensures { (kinds rest : List Kind) (from here : Unread) (messages : List Message) (old new : Held B.Kept) →
        HasRead kinds from messages rest here → WritesAll B.Lacks messages old new → Forwards B.Lacks from.bytes here.bytes old new (Ok tt) }
{}

/// So what it writes for the messages of a whole session are the session's bytes.
pub fn sessions_are_forwarded<B: Buffer>()
    ensures { (kinds : List Kind) (messages : List Message) (bytes : List ℕ) (old new : Held B.Kept) →
        ClientRun kinds messages bytes → WritesAll B.Lacks messages old new → new ≡ old ⊕ bytes }
{}
