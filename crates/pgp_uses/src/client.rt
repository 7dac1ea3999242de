//! A client's connection: the log-in, and the rows of a request.

ghost use Rattle.std.specs.Prelude.{◌≡◌, IfOk};
ghost use Rattle.pgp_message.specs.Views.{view};
ghost use Rattle.pgp_session.specs.Connection.{shown};
ghost use Rattle.pgp_session.specs.Session.{Known};
ghost use Rattle.pgp_uses.specs.Client.{IsSo, received_as, opened, scram_alone};

use bytes::Bytes;
use pgp_base::Memory;
use postgres_protocol::authentication::sasl::ScramSha256;
use postgres_protocol::dialogue::Event;
use postgres_protocol::message::backend::{DataRowBody, ErrorResponseBody, Message};
use postgres_protocol::session::{Connection, ConnectionError, Ways};
use std::alloc::{Allocator, Global};

/// What the next message is to a client that awaits the rows of a request.
#[derive(Drop)]
pub enum Received<A: Allocator = Global> {
    /// No message is complete.
    Nothing,
    /// A row of the request.
    Row(DataRowBody<Bytes<A>>),
    /// An error of the server, with its event.
    Failed(Event, ErrorResponseBody<Bytes<A>>),
    /// Another message, with its event.
    Other(Event),
}

/// A connection that logs in by SCRAM-SHA-256 alone, and has its startup packet to send.
///
/// # Errors
///
/// Those of `Connection::start`.
pub fn connect<'a, A: Memory>(
    alloc: A,
    user: &str,
    exchange: ScramSha256<A>,
) -> Result<Connection<'a, A>, ConnectionError<A>>
    ensures { IfOk result (λ c. Known (scram_alone exchange) (opened user.now) (shown c)) }
{
    pgp_session::laws::calls_are_known();
    let ways = Ways {
        scram: Some(exchange),
        md5: None,
        cleartext: None,
        none: false,
        least_rounds: 0,
        encrypted: false,
    };
    let mut connection = Connection::new(alloc, ways, 16_777_216);
    match connection.start(&[("user", user)]) {
        Ok(_) => Ok(connection),
        Err(e) => Err(e),
    }
}

/// Takes the next message, and returns it where it is a row of the request of this name.
///
/// # Errors
///
/// Those of `Connection::next`.
pub fn next_row<A: Memory>(
    connection: &mut Connection<'_, A>,
    name: u64,
) -> Result<Received<A>, ConnectionError<A>>
    ensures { IfOk result (λ received. IsSo name received (shown connection.old) (shown connection.new)) }
{
    match connection.next() {
        Ok(None) => Ok(Received::Nothing),
        Ok(Some((event, message))) => Ok(received_as(event, message, name)),
        Err(e) => Err(e),
    }
}

/// What a message of this event is to a client that awaits the rows of a request.
fn received_as<A: Memory>(event: Event, message: Message<Bytes<A>>, name: u64) -> Received<A>
    ensures { result ≡ received_as name event (view message) }
{
    match message {
        Message::DataRow(row) if event == Event::Part(name) => Received::Row(row),
        Message::ErrorResponse(body) => Received::Failed(event, body),
        other => {
            drop(other);
            Received::Other(event)
        }
    }
}
