//! The names of the columns that a server describes.

ghost use Rattle.std.specs.Prelude.{◌≡◌, ◌⊎◌, Some, None, map, IfOk, IfErr, OnErr};
ghost use Rattle.pgp_base.specs.Cause.{WantsMemory};
ghost use Rattle.pgp_message.specs.Views.{view};
ghost use Rattle.pgp_uses.specs.Columns.{Columns, Describes, HasNames, NamesRefused};

use pgp_base::{FallibleIterator, Memory};
use postgres_protocol::Error;
use postgres_protocol::message::backend::{Field, Fields, Message, Messages};
use std::alloc::AllocError;

/// Why a stream gives no column names.
#[derive(Debug, Clone, Copy, PartialEq, Eq)]
pub enum NamesError {
    /// No frame of the stream is a RowDescription.
    NoDescription,
    /// The first RowDescription has a column that can't be read, or memory for the names can't be
    /// allocated.
    Refused(Error),
}

/// The column names of the first RowDescription of a server's bytes.
///
/// # Errors
///
/// Returns `NoDescription` if no frame is one; `Refused` of the reason for which its columns can't be read,
/// or of `OutOfMemory`.
#[tactic(auto, using(crate::proofs::Descriptions::has_names, crate::proofs::Descriptions::has_broken))]
pub fn column_names<'a, A: Memory>(alloc: A, bytes: &'a [u8]) -> Result<Vec<&'a str, A>, NamesError>
    ensures ok { IfOk result (λ found. HasNames bytes.now (map (λ name. name.now) found.items)) }
    ensures err { IfErr result (NamesRefused A.Lacks bytes.now) }
{
    match description(bytes) {
        None => Err(NamesError::NoDescription),
        Some(columns) => match listed(alloc, columns) {
            Ok(found) => Ok(found),
            Err(e) => Err(NamesError::Refused(e)),
        },
    }
}

/// The columns of the first RowDescription of a server's bytes.
fn description<'a>(bytes: &'a [u8]) -> Option<Fields<'a>>
    ensures { Describes bytes.now result }
{
    let mut messages = Messages::new(bytes);
    'frames: loop {
        match messages.next() {
            Ok(Some(message)) => {
                let columns = columns_of(&message);
                drop(message);
                match columns {
                    Some(columns) => return Some(columns),
                    None => {}
                }
            }
            Ok(None) | Err(Error::InvalidLength) => return None,
            Err(_) => {}
        }
    }
}

/// The columns of a message, if it is a RowDescription.
fn columns_of<'a>(message: &Message<&'a [u8]>) -> Option<Fields<'a>>
    ensures { Columns (view message.now) result }
{
    match message {
        Message::RowDescription(body) => Some(body.fields()),
        _ => None,
    }
}

/// The names of the columns.
fn listed<'a, A: Memory>(alloc: A, columns: Fields<'a>) -> Result<Vec<&'a str, A>, Error>
    ensures ok { IfOk result (λ found. map (λ name. name.now) found.items ≡ map (λ column. column.name) columns.entry.items) }
    ensures end { IfOk result (λ found. columns.entry.end ≡ None) }
    ensures err { IfErr result (λ e. WantsMemory A.Lacks e ⊎ (columns.entry.end ≡ Some e)) }
{
    let columns = columns.collect(alloc)?;
    match names_of(alloc, &columns) {
        Ok(found) => Ok(found),
        Err(_) => Err(Error::OutOfMemory),
    }
}

/// The names of these columns.
fn names_of<'a, A: Memory>(alloc: A, columns: &[Field<'a>]) -> Result<Vec<&'a str, A>, AllocError>
    ensures lacks { OnErr result A.Lacks }
    ensures names { IfOk result (λ found. map (λ name. name.now) found.items ≡ map (λ column. column.name) columns.now) }
{
    let mut found = Vec::new(alloc);
    for column in columns {
        A::push(&mut found, column.name())?;
    }
    Ok(found)
}
