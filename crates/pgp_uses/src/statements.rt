//! Prepared statements of clients that share a server's connection, as behind a pooler: there each client's have names of their own.

ghost use Rattle.std.specs.Prelude.{◌≡◌, ◌⊎◌, ◌<◌, ◌^◌, ℕ, List, [], IfOk, OnErr};
ghost use Rattle.pgp_frontend_read.specs.Views.{view};
ghost use Rattle.pgp_uses.specs.Statements.{Shares, renamed, shared, shared_name, statement_in};

use pgp_base::{Buffer, Memory};
use postgres_protocol::Error;
use postgres_protocol::message::client::{ClientMessage, forward};
use std::alloc::AllocError;

/// Passes a client's message on to a server's connection that other clients use too: the prepared statement that it names has the client's number before its
/// name there, as `12_` (`names_differ`). The unnamed statement stays unnamed: a client that uses it sends its Parse in the same series.
///
/// # Errors
///
/// Those of `forward`; `OutOfMemory` if there is no memory for the name. On error `out` is unchanged.
pub fn pass_on<A: Memory, B: Buffer>(
    alloc: A,
    client: u64,
    message: ClientMessage<'_>,
    out: &mut B,
) -> Result<(), Error>
    ensures { Shares A.Lacks (shared client (view message.entry)) B.Lacks (B.held out.old) (B.held out.new) result }
{
    let Ok(name) = shared_name(alloc, client, statement_of(&message)) else {
        return Err(Error::OutOfMemory);
    };
    forward(&with_statement(message, name.as_slice()), out)
}

/// The name of a client's prepared statement on a connection that clients share.
fn shared_name<A: Memory>(alloc: A, client: u64, name: &[u8]) -> Result<Vec<u8, A>, AllocError>
    ensures is { IfOk result (λ shared. shared.items ≡ shared_name client name.now) }
    ensures lacks { OnErr result A.Lacks }
{
    let mut shared = Vec::new(alloc);
    if name.is_empty() {
        return Ok(shared);
    }
    let mut front = String::new(alloc);
    A::push_shown(&mut front, format_args!("{client}_"))?;
    A::extend(&mut shared, front.as_bytes())?;
    A::extend(&mut shared, name)?;
    Ok(shared)
}

/// The name of the prepared statement that a message names; empty where it names none.
fn statement_of<'a>(message: &ClientMessage<'a>) -> &'a [u8]
    ensures { result.now ≡ statement_in (view message.now) }
{
    match message {
        ClientMessage::Parse { name, .. } => name,
        ClientMessage::Bind { statement, .. } => statement,
        ClientMessage::Describe {
            variant: b'S',
            name,
        } => name,
        ClientMessage::Close {
            variant: b'S',
            name,
        } => name,
        _ => b"",
    }
}

/// The message with another name in the place of its prepared statement's.
fn with_statement<'a>(message: ClientMessage<'a>, statement: &'a [u8]) -> ClientMessage<'a>
    ensures { view result ≡ renamed statement.now (view message.entry) }
{
    match message {
        ClientMessage::Parse {
            query,
            param_types,
            ..
        } => ClientMessage::Parse {
            name: statement,
            query,
            param_types,
        },
        ClientMessage::Bind {
            portal,
            formats,
            values,
            result_formats,
            ..
        } => ClientMessage::Bind {
            portal,
            statement,
            formats,
            values,
            result_formats,
        },
        ClientMessage::Describe { variant: b'S', .. } => ClientMessage::Describe {
            variant: b'S',
            name: statement,
        },
        ClientMessage::Close { variant: b'S', .. } => ClientMessage::Close {
            variant: b'S',
            name: statement,
        },
        message => message,
    }
}

/// Different clients' prepared statements have different names on the connection, and so have those of one client.
pub fn names_differ()
    ensures { (client other : ℕ) (name word : List ℕ) → client < 2 ^ 64 → other < 2 ^ 64 → shared_name client name ≡ shared_name other word
        → ((name ≡ []) × (word ≡ [])) ⊎ ((client ≡ other) × (name ≡ word)) }
{}
