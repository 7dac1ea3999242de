//! The transaction in which a session is.

ghost use Rattle.std.specs.Prelude.{◌≡◌};
ghost use Rattle.pgp_session.specs.Transaction.{after_error};

use crate::asked::{Refusal, no_transaction};
use crate::command::Command;
use crate::outbox::Outbox;
use pgp_session::transaction::Status;
use std::alloc::Global;

/// The warning of a command that changes nothing outside of a transaction.
fn outside<'c>() -> Refusal<'c> {
    Refusal::new("25P01", "there is no transaction in progress")
}

/// What a command on a transaction comes to.
#[derive(Clone, Copy)]
pub(crate) enum Taken<'c> {
    /// It was carried out, and this is its tag.
    Done(&'static str),
    Warned(&'static str, Refusal<'c>),
    Refused(Refusal<'c>),
    /// It is another command.
    Other,
}

/// The transaction in which a session is.
#[derive(Drop)]
pub(crate) struct Transaction {
    pub(crate) status: Status,
    savepoints: Vec<Vec<u8>>,
}

impl Transaction {
    pub(crate) fn new(alloc: Global) -> Transaction {
        Transaction {
            status: Status::Idle,
            savepoints: Vec::new(alloc),
        }
    }

    /// How many savepoints there are.
    pub(crate) fn depth(&self) -> usize {
        self.savepoints.len()
    }

    /// An error: a transaction that is open has failed.
    pub(crate) fn fail(&mut self)
        ensures { self.new.status ≡ after_error self.old.status }
    {
        self.status = self.status.after_error();
    }

    /// What a script says of the transaction.
    pub(crate) fn set(&mut self, status: Status) {
        self.status = status;
        if status == Status::Idle {
            self.savepoints.clear();
        }
    }

    fn begin<'c>(&mut self, tag: &'static str) -> Taken<'c> {
        if self.status != Status::Idle {
            let message = "there is already a transaction in progress";
            return Taken::Warned(tag, Refusal::new("25001", message));
        }
        self.status = Status::Open;
        Taken::Done(tag)
    }

    /// The end of a transaction by the command of this tag; where it chains, the next begins.
    fn end<'c>(&mut self, tag: &'static str, chains: bool) -> Taken<'c> {
        match self.status {
            Status::Idle if chains => Taken::Refused(no_transaction(tag, " AND CHAIN")),
            Status::Idle => Taken::Warned(tag, outside()),
            status => {
                self.savepoints.clear();
                self.status = if chains { Status::Open } else { Status::Idle };
                Taken::Done(if status.commits() { tag } else { "ROLLBACK" })
            }
        }
    }

    fn savepoint<'c>(&mut self, name: &str, out: &mut Outbox) -> Taken<'c> {
        if self.status == Status::Idle {
            return Taken::Refused(no_transaction("SAVEPOINT", ""));
        }
        let name = out.copy(name.as_bytes());
        out.add(&mut self.savepoints, name);
        Taken::Done("SAVEPOINT")
    }

    /// The place of the newest savepoint of this name, which a command needs.
    fn place<'c>(&self, command: &'static str, name: &'c str) -> Result<usize, Refusal<'c>> {
        if self.status == Status::Idle {
            return Err(no_transaction(command, " SAVEPOINT"));
        }
        let name = name.as_bytes();
        let mut found = None;
        for (place, savepoint) in self.savepoints.iter().enumerate() {
            if savepoint.as_slice() == name {
                found = Some(place);
            }
        }
        found.ok_or(Refusal::of("3B001", "savepoint \"", name, "\" does not exist"))
    }

    fn release<'c>(&mut self, name: &'c str) -> Taken<'c> {
        match self.place("RELEASE", name) {
            Ok(place) => {
                self.savepoints.truncate(place);
                Taken::Done("RELEASE")
            }
            Err(refusal) => Taken::Refused(refusal),
        }
    }

    fn rollback_to<'c>(&mut self, name: &'c str) -> Taken<'c> {
        match self.place("ROLLBACK TO", name) {
            Ok(place) => {
                self.savepoints.truncate(place.saturating_add(1));
                self.status = Status::Open;
                Taken::Done("ROLLBACK")
            }
            Err(refusal) => Taken::Refused(refusal),
        }
    }

    fn set_here<'c>(&self, is_here: bool) -> Taken<'c> {
        if is_here && self.status == Status::Idle {
            return Taken::Warned("SET", outside());
        }
        Taken::Done("SET")
    }

    /// Carries out a command on the transaction.
    pub(crate) fn take<'c>(&mut self, command: Command<'c>, out: &mut Outbox) -> Taken<'c> {
        match command {
            Command::Begin(tag, _) => self.begin(tag),
            Command::Commit { chains } => self.end("COMMIT", chains),
            Command::Rollback { chains } => self.end("ROLLBACK", chains),
            Command::Savepoint(name) => self.savepoint(name, out),
            Command::Release(name) => self.release(name),
            Command::RollbackTo(name) => self.rollback_to(name),
            Command::SetTransaction(_) => self.set_here(true),
            Command::Set { is_local, .. } => self.set_here(is_local),
            Command::SetDefaults(_) => self.set_here(false),
            _ => Taken::Other,
        }
    }
}
