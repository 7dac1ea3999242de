//! A pooler's core: it is handed the messages of both sides, and says where a session is idle, so that the server's
//! connection can be lent to another client.

ghost use Rattle.std.specs.Prelude.{◌≡◌, ◌⊎◌, ◌++◌, ◌∷◌, [], Err, List, Ok, ℕ};
ghost use Rattle.std.specs.Bool.{Decides};
ghost use Rattle.pgp_client.specs.InTurns.{BelongInTurns};
ghost use Rattle.pgp_client.specs.Pool.{EachHearsOwn, EachStandsAlone, run_by_client, run_of};
ghost use Rattle.pgp_client.specs.Telling.{Hears, reported_in};
ghost use Rattle.pgp_client.specs.declared.event.Event.{Event as Reported};
ghost use Rattle.pgp_client.specs.declared.event.Event.TheVariants.{Aside, Ended};
ghost use Rattle.pgp_client.specs.declared.event.Refusal.{Refusal as Refused};
ghost use Rattle.pgp_client.specs.declared.kind.Kind.{Kind as Heard};
ghost use Rattle.pgp_frontend.specs.ClientMessage.{ClientMessage as Sent};
ghost use Rattle.pgp_message.specs.BackendMessage.{Message as Received};
ghost use Rattle.pgp_message.specs.Views.{view as received_view};
ghost use Rattle.pgp_frontend_read.specs.Views.{view as sent_view};
ghost use Rattle.pgp_session.specs.Loans.{Call as Called, Calls, Loan as Lent, Loans, calls_in, lending_of, lendings_of, received_in, sent_in};
ghost use Rattle.pgp_session.specs.Pooler.{CanBeLent, IsQuiet, Receives, ReceivesResult, Saw, Sends, Shown, awaits, begun, extends, leaves, shown, waits};
ghost use Rattle.pgp_session.specs.ServerState.{status};

use pgp_base::{Error, Memory};
use pgp_client::{Asked, Dialogue, Event, Kind, Refusal, Request, pool};
use pgp_frontend_read::ClientMessage;
use pgp_message::{Message, Storage};
use std::alloc::Global;
use std::collections::VecDeque;

/// What is known of a session of a server, by the messages of both sides in the order in which they came.
#[derive(Drop)]
pub struct Session<A: Memory = Global> {
    dialogue: Dialogue<VecDeque<Asked, A>>,
    /// The status of the last ReadyForQuery: `I` where no transaction is open.
    status: Option<u8>,
    /// Whether a part of an extended query came from the client, and nothing after it that ends one.
    unfinished: bool,
    /// Whether the client ended the session.
    left: bool,
}

impl<A: Memory> Session<A> {
    /// A session in which nothing was sent.
    pub fn new(alloc: A) -> Session<A>
        ensures { shown result ≡ begun }
    {
        Session {
            dialogue: Dialogue::new(alloc),
            status: None,
            unfinished: false,
            left: false,
        }
    }

    /// Takes note of a message that the client sent.
    ///
    /// # Errors
    ///
    /// Returns `OutOfMemory` if there is no memory for the request. On error nothing changes.
    pub fn sent(&mut self, message: &ClientMessage<'_>) -> Result<(), Error>
        ensures { Sends A.Lacks (sent_view message.now) (shown self.old) (shown self.new) result }
    {
        if let Some(request) = Request::of(message) {
            if self.dialogue.ask(request, 0).is_err() {
                return Err(Error::OutOfMemory);
            }
        }
        self.unfinished = waits(self.unfinished, message);
        self.left |= leaves(message);
        Ok(())
    }

    /// Takes note of a message that the server sent.
    ///
    /// # Errors
    ///
    /// `Unexpected` if it has no place among the answers that are awaited; `Uncertain` if a copy to the server fails, and a Sync was sent before
    /// the end of its data. The session is never idle again: its connection is to be closed.
    pub fn received<S: Storage>(&mut self, message: &Message<S>) -> Result<Event, Refusal>
        ensures { Receives (received_view message.now) (shown self.old) (shown self.new) result }
    {
        let event = self.dialogue.take_message(message)?;
        if let Some(status) = status(message) {
            self.status = Some(status);
        }
        Ok(event)
    }

    /// Takes note of a FunctionCallResponse, which no `Message` is: a reader reports its tag, `V`, as unknown, and passes it.
    ///
    /// # Errors
    ///
    /// Those of `received`.
    pub fn received_function_result(&mut self) -> Result<Event, Refusal>
        ensures { ReceivesResult (shown self.old) (shown self.new) result }
    {
        self.dialogue.take(Kind::FunctionCallResponse)
    }

    /// Whether the session is idle after the bytes that came: nothing of a partial message waits on the client's side nor on the
    /// server's, no answer is awaited, the last ReadyForQuery reported `I`, no part of an extended query waits for its end, and the client sent
    /// no Terminate.
    pub fn is_idle(&self, client: &[u8], server: &[u8]) -> bool
        ensures { Decides result (IsQuiet (shown self.now) client.now server.now) }
    {
        client.is_empty()
            && server.is_empty()
            && self.dialogue.is_idle()
            && self.status == Some(b'I')
            && !self.unfinished
            && !self.left
    }
}

/// A session that is idle after these messages can be lent: the client didn't end it, no part of an extended query waits for its end, the last
/// ReadyForQuery reported that no transaction is open, and what the server sends next answers nothing that was asked.
pub fn idle_sessions_can_be_lent()
    ensures { (sent : List Sent) (received : List Received) (session : Shown) (client server : List ℕ) → Saw sent received session → IsQuiet session client server
        → CanBeLent sent received session }
{
    pgp_client::laws::idle_dialogues_await_nothing();
}

/// What holds of a session that a pooler logged in, and then lent to its clients, one after the other, only where `Session::is_idle` was true: there it can be lent (`lent`).
/// Each server's message belongs, by every reading of the whole run, to a request of the client to whom the connection was lent when it came, or to no request, whatever the
/// calls of the last loan returned (`own`). What a client hears is what it would hear of a connection of its own (`alone`). Where the session is idle, the next message belongs
/// to no request (`answered`). After an error of `received`, and after the session's end, the session is never idle again (`closed`, `ended`).
pub fn no_client_of_a_pooler_hears_anothers_answer()
    ensures lent { (login : List Called) (loans : List Lent) (first now : Shown) → Calls begun login first → Loans first loans now → IsQuiet now [] []
        → CanBeLent (sent_in (login ++ calls_in loans)) (received_in (login ++ calls_in loans)) now }
    ensures own { (pool : ℕ) (login : List Called) (loans : List Lent) (first now : Shown) (client : ℕ) (last : List Called) (truth : List Reported) → Calls begun login first
        → Loans first loans now → IsQuiet now [] [] → BelongInTurns (run_by_client (lending_of pool login ∷ lendings_of loans ++ lending_of client last ∷ [])) truth
        → EachHearsOwn (lending_of pool login ∷ lendings_of loans ++ lending_of client last ∷ []) truth }
    ensures alone { (pool : ℕ) (login : List Called) (loans : List Lent) (first now : Shown) → Calls begun login first → Loans first loans now
        → EachStandsAlone (lending_of pool login ∷ lendings_of loans) }
    ensures answered { (pool : ℕ) (login : List Called) (loans : List Lent) (first now : Shown) (kind : Heard) (told : Reported) (truth : List Reported) → Calls begun login first → Loans first loans now
        → IsQuiet now [] [] → BelongInTurns (run_of (lending_of pool login ∷ lendings_of loans) ++ Hears kind told ∷ []) truth
        → (event : Reported) × (truth ≡ reported_in (run_of (lending_of pool login ∷ lendings_of loans)) ++ event ∷ []) × ((event ≡ Aside) ⊎ (event ≡ Ended)) }
    ensures closed { (old new now : Shown) (message : Received) (refusal : Refused) (calls : List Called) → Receives message old new (Err refusal) → Calls new calls now → IsQuiet now [] [] → ⊥ }
    ensures ended { (old new now : Shown) (message : Received) (calls : List Called) → Receives message old new (Ok Ended) → Calls new calls now → IsQuiet now [] [] → ⊥ }
{
    idle_sessions_can_be_lent();
    pool::no_client_hears_anothers_answer();
    pool::lendings_stand_alone();
    pool::nothing_is_owed();
    pool::closed_connections_are_not_lent();
}

/// Whether the server says in the end that it is ready.
fn awaits(message: &ClientMessage<'_>) -> bool
    ensures { result ≡ awaits (sent_view message.now) }
{
    match message {
        ClientMessage::Startup { .. } | ClientMessage::Query(_) => true,
        ClientMessage::FunctionCall { .. } | ClientMessage::Sync => true,
        _ => false,
    }
}

/// Whether it ends the session.
fn leaves(message: &ClientMessage<'_>) -> bool
    ensures { result ≡ leaves (sent_view message.now) }
{
    match message {
        ClientMessage::Terminate => true,
        _ => false,
    }
}

/// Whether a part of an extended query waits for its end, after a message.
fn waits(before: bool, message: &ClientMessage<'_>) -> bool
    ensures { result ≡ waits before (sent_view message.now) }
{
    if awaits(message) {
        return false;
    }
    if extends(message) {
        return true;
    }
    before
}

/// Whether it is a part of an extended query.
fn extends(message: &ClientMessage<'_>) -> bool
    ensures { result ≡ extends (sent_view message.now) }
{
    match message {
        ClientMessage::Parse { .. } | ClientMessage::Bind { .. } => true,
        ClientMessage::Describe { .. } | ClientMessage::Execute { .. } => true,
        ClientMessage::Close { .. } => true,
        _ => false,
    }
}

/// The status that a ReadyForQuery says.
fn status<S: Storage>(message: &Message<S>) -> Option<u8>
    ensures { result ≡ status (received_view message.now) }
{
    match message {
        Message::ReadyForQuery(body) => Some(body.status()),
        _ => None,
    }
}
