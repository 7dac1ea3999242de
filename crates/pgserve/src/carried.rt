//! Commands that need no script, carried out.

use crate::answer::{Went, complete, describe, describe_none, describe_one};
use crate::asked::{Refusal, no_cursor, no_statement, refuse, warn};
use crate::channels::Act;
use crate::command::{Command, SEPARATOR};
use crate::cursor::Fetch;
use crate::outbox::Outbox;
use crate::session::Session;
use crate::setting_name::is_known;
use crate::setting_value::{is_no_boolean, rejection};
use crate::settings::{Scope, Setting};
use crate::transaction::Taken;
use crate::wording::Wording;
use pgp_message_write as reply;
use pgp_session::transaction::Status;

/// The tag of a command that is none of transactions.
fn tag_of(command: Command<'_>) -> &'static [u8] {
    match command {
        Command::Reset(_) => b"RESET",
        Command::DeallocateAll => b"DEALLOCATE ALL",
        Command::Deallocate(_) => b"DEALLOCATE",
        Command::DiscardAll => b"DISCARD ALL",
        Command::CloseCursor(_) => b"CLOSE CURSOR",
        Command::CloseAll => b"CLOSE CURSOR ALL",
        Command::Listen(_) => b"LISTEN",
        Command::Unlisten(_) => b"UNLISTEN",
        Command::Notify { .. } => b"NOTIFY",
        _ => b"",
    }
}

/// A notification has a shorter text.
const LONGEST_TEXT: usize = 8000;

/// The value of these words: lower-cased where it stands in no quotes, with a blank between two.
fn joined(words: &str, out: &mut Outbox) -> Vec<u8> {
    let mut value = Vec::new(out.alloc);
    for word in words.split(SEPARATOR) {
        if !value.is_empty() && !word.starts_with(',') {
            out.add(&mut value, b' ');
        }
        let bare = word.strip_prefix('\'').or(word.strip_prefix('"'));
        out.keep(value.extend_from_slice(bare.unwrap_or(word).as_bytes()));
    }
    value
}

impl<'h> Session<'h> {
    /// Up to when a setting is set that is said now.
    fn scope(&self, is_local: bool) -> Scope {
        if is_local {
            return Scope::Local(self.transaction.depth());
        }
        Scope::Kept(self.transaction.depth())
    }

    /// Sets a setting to the value of these words.
    fn set(&mut self, name: &str, value: &str, is_local: bool, out: &mut Outbox) {
        let scope = self.scope(is_local);
        if is_local && self.transaction.status == Status::Idle {
            return;
        }
        if value == "default" || (name == "timezone" && value == "local") {
            return self.settings.reset(name.as_bytes(), scope, out);
        }
        let value = joined(value, out);
        self.settings.set(name.as_bytes(), &value, scope, out);
    }

    /// Carries out a command on the transaction, and what it does to settings and portals.
    pub(crate) fn carry<'c>(&mut self, command: Command<'c>, out: &mut Outbox) -> Taken<'c> {
        let before = self.transaction.status;
        let taken = self.transaction.take(command, out);
        if !matches!(taken, Taken::Refused(_)) {
            self.settle(command, before, out);
        }
        taken
    }

    /// What a command does to settings and portals, which was carried out in this status.
    fn settle(&mut self, command: Command<'_>, before: Status, out: &mut Outbox) {
        let (scope, depth) = (self.scope(false), self.transaction.depth());
        match command {
            Command::Begin(_, modes) if before == Status::Idle => {
                self.settings.begin_transaction(modes, out);
            }
            Command::SetTransaction(modes) if before != Status::Idle => {
                self.settings.set_modes(modes, Scope::Local(depth), out);
            }
            Command::SetDefaults(modes) => self.settings.set_defaults(modes, scope, out),
            Command::Set {
                name,
                value,
                is_local,
            } => self.set(name, value, is_local, out),
            Command::Commit { .. } if before.commits() => {
                self.settings.commit(out);
                self.portals.commit();
                self.channels.commit(out);
            }
            Command::Commit { .. } | Command::Rollback { .. } => {
                self.settings.roll_back(0, out);
                self.portals.roll_back();
                self.channels.roll_back(0);
            }
            Command::RollbackTo(_) => {
                self.settings.roll_back(depth, out);
                self.portals.end_from(depth);
                self.channels.roll_back(depth);
            }
            Command::Release(_) => {
                self.settings.release(depth);
                self.portals.keep_at(depth);
                self.channels.release(depth);
            }
            other => self.arrange(other, out),
        }
    }

    /// Carries out a command that is none of transactions.
    fn arrange(&mut self, command: Command<'_>, out: &mut Outbox) {
        let (scope, depth) = (self.scope(false), self.transaction.depth());
        match command {
            Command::Reset(name) => self.settings.reset(name.as_bytes(), scope, out),
            Command::Deallocate(name) => self.prepared.remove(name.as_bytes()),
            Command::DeallocateAll => self.prepared.keep_unnamed(),
            Command::DiscardAll => {
                self.prepared.keep_unnamed();
                self.portals.clear();
                self.settings.reset(b"all", scope, out);
                self.channels.ask(Act::Unlisten, "", "", depth, out);
            }
            Command::CloseCursor(name) => self.portals.remove(name.as_bytes()),
            Command::CloseAll => self.portals.clear(),
            Command::Listen(name) => self.channels.ask(Act::Listen, name, "", depth, out),
            Command::Unlisten(name) => self.channels.ask(Act::Unlisten, name, "", depth, out),
            Command::Notify { name, text } => {
                self.channels.ask(Act::Notify, name, text, depth, out);
            }
            _ => {}
        }
    }

    /// The setting that the command shows.
    pub(crate) fn shown(&self, command: Command<'_>) -> Option<&Setting> {
        match command {
            Command::Show(name) => self.settings.find(name.as_bytes()),
            _ => None,
        }
    }

    /// Appends the row of a `SHOW`.
    fn show(&self, name: &str, out: &mut Outbox) -> Went {
        let Some(setting) = self.settings.find(name.as_bytes()) else {
            let (front, name) = ("unrecognized configuration parameter \"", name.as_bytes());
            refuse(Refusal::of("42704", front, name, "\""), out);
            return Went::Wrong;
        };
        let put = reply::data_row(&[Some(setting.value.as_slice())], &mut out.bytes);
        out.put(put);
        complete(b"SHOW", out);
        Went::Well
    }

    /// Appends what a command comes to.
    fn put_taken(&self, taken: Taken<'_>, command: Command<'_>, out: &mut Outbox) -> Went {
        match taken {
            Taken::Done(tag) => complete(tag.as_bytes(), out),
            Taken::Warned(tag, warning) => {
                warn(warning, out);
                complete(tag.as_bytes(), out);
            }
            Taken::Other => complete(tag_of(command), out),
            Taken::Refused(refusal) => {
                refuse(refusal, out);
                return Went::Wrong;
            }
        }
        Went::Well
    }

    /// Why a command that is none of transactions can't be carried out, if it can't.
    fn rejects_command<'c>(&self, command: Command<'c>) -> Option<Refusal<'c>> {
        match command {
            Command::Deallocate(name) if self.prepared.find(name.as_bytes()).is_none() => {
                Some(no_statement(name.as_bytes()))
            }
            Command::DiscardAll if self.transaction.status != Status::Idle => {
                let message = "DISCARD ALL cannot run inside a transaction block";
                Some(Refusal::new("25001", message))
            }
            Command::Notify { text, .. } if text.len() >= LONGEST_TEXT => {
                Some(Refusal::new("22023", "payload string too long"))
            }
            Command::CloseCursor(name) if self.portals.find(name.as_bytes()).is_none() => {
                Some(no_cursor(name.as_bytes()))
            }
            _ => None,
        }
    }

    /// Appends the error of a setting that there isn't, or that can't be set to this value, and returns whether there is one.
    fn refuses_setting(&self, name: &str, value: &str, out: &mut Outbox) -> bool {
        if self.settings.find(name.as_bytes()).is_none() && !is_known(name) {
            let (front, name) = ("unrecognized configuration parameter \"", name.as_bytes());
            refuse(Refusal::of("42704", front, name, "\""), out);
            return true;
        }
        let given = joined(value, out);
        if value == "default" {
            return false;
        }
        if is_no_boolean(name, &given) {
            let (name, behind) = (name.as_bytes(), "\" requires a Boolean value");
            refuse(Refusal::of("22023", "parameter \"", name, behind), out);
            return true;
        }
        match rejection(name, &given) {
            Some(refusal) => {
                refuse(refusal, out);
                true
            }
            None => false,
        }
    }

    /// Carries out this command, and appends its answer.
    fn carry_out(
        &mut self,
        command: Command<'_>,
        statement: &[u8],
        formats: &[i16],
        out: &mut Outbox,
    ) -> Went {
        match command {
            Command::Show(name) => return self.show(name, out),
            Command::Declare { name, is_held } => {
                return self.declare(name, is_held, statement, out);
            }
            Command::Fetch { name, most, moves } => {
                let name = name.as_bytes();
                let fetch = Fetch {
                    name,
                    most,
                    moves,
                    formats,
                };
                return self.fetch(fetch, out);
            }
            Command::Set { name, value, .. } if self.refuses_setting(name, value, out) => {
                return Went::Wrong;
            }
            _ => {}
        }
        if let Some(refusal) = self.rejects_command(command) {
            refuse(refusal, out);
            return Went::Wrong;
        }
        let taken = self.carry(command, out);
        self.put_taken(taken, command, out)
    }

    /// Carries out the command that this statement is, appends its answer, and returns how it went.
    pub(crate) fn command(
        &mut self,
        command: Command<'_>,
        statement: &Wording,
        formats: &[i16],
        out: &mut Outbox,
    ) -> Went {
        let went = self.carry_out(command, &statement.bare, formats, out);
        if went == Went::Wrong {
            self.fail_transaction(out);
        }
        went
    }

    /// Answers a command of a simple query, and returns how it went.
    pub(crate) fn simple_command(
        &mut self,
        command: Command<'_>,
        statement: &Wording,
        out: &mut Outbox,
    ) -> Went {
        if self.shown(command).is_some() || self.fetched(command).is_some() {
            self.describe_command(command, &[], out);
        }
        self.command(command, statement, &[], out)
    }

    /// Appends the description of a command's rows.
    pub(crate) fn describe_command(&self, command: Command<'_>, formats: &[i16], out: &mut Outbox) {
        if let Some(fetched) = self.fetched(command) {
            return describe(&fetched.columns, formats, out);
        }
        match self.shown(command) {
            Some(setting) => describe_one(&setting.name, formats, out),
            None => describe_none(out),
        }
    }
}
