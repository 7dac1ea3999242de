//! What the requests ran, by the frames of both sides.

ghost use Rattle.std.specs.Prelude.{◌≡◌, IfOk, OnErr, OnOk};
ghost use Rattle.std.specs.Option.{option_map};
ghost use Rattle.pgp_frontend_read.specs.Views.{view};
ghost use Rattle.pgtrace_session.specs.Steps.{numbers_in, numbers_of};
ghost use Rattle.pgtrace_session.specs.Summing.{answers, places, runs, summed, summed_so, takes_note};
ghost use Rattle.pgtrace_session.specs.declared.placement.Told.TheVariants.{Answer, Number};

use crate::numbers::{Numbers, tell};
use crate::placement::Told;
use crate::role::Role;
use pgp_base::Memory;
use pgp_client::Kind;
use pgp_frontend_read::ClientMessage;
use pgtrace_summary::{MapMemory, Reply, Summary, Work};
use std::alloc::AllocError;

/// Finds the place of a frame among the requests, by what it is to them, and takes note of it in what they ran, where that is asked for: of a request by its
/// message. Returns what its mark says of requests.
pub fn place<A: MapMemory>(
    role: Role,
    message: Option<&ClientMessage<'_>>,
    numbers: &mut Option<Numbers<A>>,
) -> Result<Told, AllocError>
    ensures placed { IfOk result (λ told. places role (option_map (λ m. view m.now) message.entry) (numbers_in numbers.old) ≡ (told, numbers_in numbers.new)) }
    ensures lacks { OnErr result A.Lacks }
{
    match numbers {
        Some(numbers) => place_counted(role, message, numbers),
        None => Ok(Told::Uncounted),
    }
}

/// The same where requests are counted.
fn place_counted<A: MapMemory>(
    role: Role,
    message: Option<&ClientMessage<'_>>,
    numbers: &mut Numbers<A>,
) -> Result<Told, AllocError>
    ensures placed { IfOk result (λ told. places role (option_map (λ m. view m.now) message.entry) (Some (numbers_of numbers.old)) ≡ (told, Some (numbers_of numbers.new))) }
    ensures lacks { OnErr result A.Lacks }
{
    let told = tell(role, numbers)?;
    note_summed(told, role, message, &mut numbers.summary)?;
    Ok(told)
}

/// Takes note of a frame whose mark says this, where a summary is asked for.
fn note_summed<A: MapMemory>(
    told: Told,
    role: Role,
    message: Option<&ClientMessage<'_>>,
    summary: &mut Option<Summary<A>>,
) -> Result<(), AllocError>
    ensures summed { OnOk result (summary.new ≡ summed_so told role (option_map (λ m. view m.now) message.entry) summary.old) }
    ensures lacks { OnErr result A.Lacks }
{
    match summary {
        Some(summary) => note(told, role, message, summary),
        None => Ok(()),
    }
}

/// Takes note of a frame whose mark says this.
fn note<A: MapMemory>(
    told: Told,
    role: Role,
    message: Option<&ClientMessage<'_>>,
    summary: &mut Summary<A>,
) -> Result<(), AllocError>
    ensures noted { OnOk result (summary.new ≡ takes_note told role (option_map (λ m. view m.now) message.entry) summary.old) }
    ensures lacks { OnErr result A.Lacks }
{
    match (told, role, message) {
        (Told::Number(number), _, Some(message)) => run(message, number, summary),
        (Told::Answer { number, sent, now }, Role::Message(kind), _) => {
            answer(kind, number, sent, now, summary)
        }
        _ => Ok(()),
    }
}

/// Takes note of a message that is the request of this number, if it runs a statement, or says which one another request runs.
fn run<A: MapMemory>(
    message: &ClientMessage<'_>,
    number: u64,
    summary: &mut Summary<A>,
) -> Result<(), AllocError>
    ensures asked { OnOk result (summary.new ≡ runs number (view message.now) summary.old) }
    ensures lacks { OnErr result A.Lacks }
{
    match message {
        ClientMessage::Query(query) => summary.ask(number, Work::Query, query, &[]),
        ClientMessage::Parse { name, query, .. } => summary.ask(number, Work::Parse, name, query),
        ClientMessage::Bind {
            portal,
            statement,
            ..
        } => summary.ask(number, Work::Bind, portal, statement),
        ClientMessage::Execute { portal, .. } => summary.ask(number, Work::Execute, portal, &[]),
        _ => Ok(()),
    }
}

/// Takes note of a message of this kind that belongs to the request of this number, which was sent then.
fn answer<A: MapMemory>(
    kind: Kind,
    number: u64,
    sent: u64,
    now: u64,
    summary: &mut Summary<A>,
) -> Result<(), AllocError>
    ensures noted { OnOk result (summary.new ≡ answers kind number sent now summary.old) }
    ensures lacks { OnErr result A.Lacks }
{
    match kind {
        Kind::DataRow => {
            summary.row(number);
            Ok(())
        }
        Kind::ErrorResponse => {
            summary.fail(number)?;
            summary.end(number, Reply::ExecuteEnd, sent, now)
        }
        Kind::ParseComplete => summary.end(number, Reply::ParseComplete, sent, now),
        Kind::BindComplete => summary.end(number, Reply::BindComplete, sent, now),
        Kind::CommandComplete | Kind::EmptyQueryResponse | Kind::PortalSuspended => {
            summary.end(number, Reply::ExecuteEnd, sent, now)
        }
        Kind::ReadyForQuery => summary.end(number, Reply::ReadyForQuery, sent, now),
        _ => Ok(()),
    }
}
