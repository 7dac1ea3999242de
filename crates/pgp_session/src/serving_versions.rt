//! Which version of the protocol a server speaks, and what it answers where that isn't all that a startup packet asks for.

ghost use Rattle.std.specs.Prelude.{◌≡◌, ◌∷◌, ◌++◌, [], map, IfErr, IfOk, OnOk};
ghost use Rattle.std.specs.List.{filter};
ghost use Rattle.pgp_base.specs.Cause.{WantsMemory, Writes};
ghost use Rattle.pgp_frontend.specs.ClientMessage.{Startup};
ghost use Rattle.pgp_session.specs.Connection.{is_option, options_of};
ghost use Rattle.pgp_session.specs.ServingVersions.{AnswersVersions, answered, cause_of, has_all, number_at, spoken_at};

use pgp_base::{Buffer, Error, FallibleIterator, Memory};
use pgp_frontend::ProtocolVersion;
use pgp_frontend_read::StartupParameters;
use pgp_message_write as reply;

/// The latest minor version.
const LATEST: u16 = 2;

/// The names of the packet's protocol options, which begin with `_pq_.`.
///
/// # Errors
///
/// Returns `OutOfMemory`.
pub fn startup_options<'m, A: Memory>(
    alloc: A,
    mut parameters: StartupParameters<'m>,
) -> Result<Vec<&'m [u8], A>, Error>
    ensures ok { IfOk result (λ names. map (λ text. text.now) names.items ≡ options_of (Startup 0 parameters.entry)) }
    ensures err { IfErr result (WantsMemory A.Lacks) }
{
    let mut names = Vec::new(alloc);
    'pairs: loop {
        match parameters.next() {
            Ok(Some((name, _))) => match keep(name, &mut names) {
                Ok(()) => {}
                Err(e) => return Err(e),
            },
            Ok(None) | Err(_) => return Ok(names),
        }
    }
}

/// Keeps the name if it is a protocol option's.
fn keep<'m, A: Memory>(name: &'m [u8], names: &mut Vec<&'m [u8], A>) -> Result<(), Error>
    ensures ok { OnOk result (map (λ text. text.now) names.new.items ≡ map (λ text. text.now) names.old.items ++ filter is_option (name.now ∷ [])) }
    ensures err { IfErr result (WantsMemory A.Lacks) }
{
    if !name.starts_with(b"_pq_.") {
        return Ok(());
    }
    match A::push(names, name) {
        Ok(()) => Ok(()),
        Err(_) => Err(Error::OutOfMemory),
    }
}

/// Says which version of the protocol is spoken with a client whose startup packet asks for this minor version of 3, and for these protocol options, and
/// appends the answer about versions where one is due: a later version than 3.2 is asked for, or there are options, of which none is known. In 3.1 all is
/// as in 3.0. It goes out before the client is asked for a proof.
///
/// # Errors
///
/// Returns `OutOfMemory`, `TooLarge` if the options are too long for a message, and `EmbeddedNull` if one has a 0 byte. On error nothing is appended.
pub fn answer_versions<B: Buffer>(
    minor: u16,
    options: &[&[u8]],
    out: &mut B,
) -> Result<ProtocolVersion, Error>
    ensures { AnswersVersions B.Lacks minor (map (λ text. text.now) options.now) (B.held out.old) (B.held out.new) result }
{
    match put_answer(minor, options, out) {
        Ok(()) => Ok(spoken_at(minor)),
        Err(e) => Err(e),
    }
}

/// The version that is spoken.
fn spoken_at(minor: u16) -> ProtocolVersion
    ensures { result ≡ spoken_at minor }
{
    if minor < 2 {
        ProtocolVersion::V3_0
    } else {
        ProtocolVersion::V3_2
    }
}

/// Its number, as the answer names it.
fn number_at(minor: u16) -> i32
    ensures { result ≡ number_at minor }
{
    let spoken = if minor > LATEST { LATEST } else { minor };
    196_608 + i32::from(spoken)
}

/// Whether that is all that is asked for.
fn has_all(minor: u16, options: &[&[u8]]) -> bool
    ensures { result ≡ has_all minor (map (λ text. text.now) options.now) }
{
    options.is_empty() && minor <= LATEST
}

/// Appends the answer, where one is due.
fn put_answer<B: Buffer>(minor: u16, options: &[&[u8]], out: &mut B) -> Result<(), Error>
    ensures { let texts = map (λ text. text.now) options.now in
        Writes (answered minor texts) (cause_of minor texts) B.Lacks (B.held out.old) (B.held out.new) result }
{
    if has_all(minor, options) {
        return Ok(());
    }
    reply::negotiate_protocol_version(number_at(minor), options, out)
}
