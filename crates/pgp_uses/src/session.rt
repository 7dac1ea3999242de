//! What a client sends, as one stream.

ghost use Rattle.std.specs.Prelude.{◌≡◌, ◌⊎◌, true, [], ◌∷◌, codes, Some, IfOk, IfErr};
ghost use Rattle.pgp_base.specs.Calls.{OwesValues};
ghost use Rattle.pgp_base.specs.Cause.{WantsMemory};
ghost use Rattle.pgp_frontend.specs.ClientMessage.{Query, Startup, Terminate};
ghost use Rattle.pgp_frontend.specs.Payload.{cause};
ghost use Rattle.pgp_frontend.specs.ClientRun.{ClientRun};
ghost use Rattle.pgp_uses.specs.Asking.{AddsAll, BindsNamed, question};

use crate::values::put_int4;
use bytes::BytesMut;
use pgp_base::{Buffer, IsNull, Memory};
use postgres_protocol::session::ClientStream;
use postgres_protocol::{BindError, Error, Oid};
use std::alloc::Global;

/// A session that asks one query and ends. A server reads its bytes as exactly these three messages.
///
/// # Errors
///
/// Returns `EmbeddedNull` if the name or the query has a 0 byte, `TooLarge` if it is too long for its message,
/// and `OutOfMemory`.
pub fn one_query<A: Memory>(
    alloc: A,
    user: &str,
    query: &str,
) -> Result<ClientStream<BytesMut<A>>, Error>
    ensures run { IfOk result (λ stream. ClientRun [] (Startup 0 ((codes "user", user.now) ∷ []) ∷ Query query.now ∷ Terminate ∷ []) stream.buf.items) }
    ensures refused { IfErr result (λ e. WantsMemory A.Lacks e
        ⊎ ((cause (Startup 0 ((codes "user", user.now) ∷ [])) ≡ Some e) ⊎ (cause (Query query.now) ≡ Some e))) }
{
    let mut stream = ClientStream::<BytesMut<A>>::new(alloc);
    stream.startup_message(&[("user", user)])?;
    stream.query(query)?;
    stream.terminate()?;
    Ok(stream)
}

/// Why a question wasn't asked whole.
#[derive(Debug, Clone, Copy, PartialEq, Eq)]
pub enum AskError {
    /// A message other than the binding was rejected.
    Message(Error),
    /// The binding was rejected, or its value.
    Binding(BindError<Error>),
}

impl From<Error> for AskError {
    ghost use Rattle.pgp_uses.specs.declared.session.AskError.TheVariants.{Message};

    ghost from_gives = { λ e r. r ≡ Message e };

    fn from(e: Error) -> AskError {
        AskError::Message(e)
    }
}

impl From<BindError<Error>> for AskError {
    ghost use Rattle.pgp_uses.specs.declared.session.AskError.TheVariants.{Binding};

    ghost from_gives = { λ e r. r ≡ Binding e };

    fn from(e: BindError<Error>) -> AskError {
        AskError::Binding(e)
    }
}

/// Asks a statement by its name, with an `int4` in binary for its one parameter: it is parsed, bound, described and run.
/// A server reads exactly these five messages after what it read before.
///
/// # Errors
///
/// Returns `EmbeddedNull` if the name or the text has a 0 byte, `TooLarge` if it is too long for its message, and
/// `OutOfMemory`: of the binding as `Binding` of `Serialization`, or of `Conversion` if the buffer can't grow for the
/// value's bytes, and of another message as `Message`. The messages before that one stay, and nothing of it.
pub fn ask_named<B: Buffer>(
    name: &str,
    sql: &str,
    value: i32,
    stream: &mut ClientStream<B>,
) -> Result<(), AskError>
    requires { stream.old.opened ≡ true }
    ensures { AddsAll B.held (question name.now sql.now value) B.Lacks stream.old stream.new result }
{
    stream.parse(name, sql, None::<Oid>)?;
    bind_named(
        stream,
        name,
        |_: u8, buf: &mut B| put_int4(Some(value), buf),
    )?;
    stream.describe(b'P', "")?;
    stream.execute("", 0)?;
    stream.sync()?;
    Ok(())
}

/// Binds one value, in binary, to the named statement.
#[tactic(auto, using(pgp_base::proofs::Parts::held_steps))]
fn bind_named<B: Buffer, F: FnMut(u8, &mut B) -> Result<IsNull, Error> + Drop>(
    stream: &mut ClientStream<B>,
    name: &str,
    serializer: F,
) -> Result<(), BindError<Error>>
    requires opened { stream.old.opened ≡ true }
    requires callable { F.IsAlwaysCallable serializer }
    requires owes { OwesValues B.held F.pre F.step }
    ensures { BindsNamed B.held F.step serializer name.now B.Lacks stream.old stream.new result }
{
    stream.bind("", name, Some(1i16), Some(0u8), serializer, Some(1i16))
}
