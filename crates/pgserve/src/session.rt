//! A session after the log-in: requests, and what is answered to them. Nothing here reads or writes: what is answered is a function of the
//! script and of the requests so far.
//!
//! PostgreSQL manual, "Message Flow": "Simple Query", "Extended Query", "Function Call".

ghost use Rattle.std.specs.Prelude.{◌≡◌, ◌≢◌, false};
ghost use Rattle.pgp_session.specs.Transaction.{ends_portals};
ghost use Rattle.pgp_session.specs.declared.transaction.Status.TheVariants.{Idle};
ghost use Rattle.pgserve.specs.Ready.{HasEnd, IsEnded};
ghost use Rattle.pgserve.specs.Sent.{Informs};

use crate::answer::Went;
use crate::asked::{Refusal, aborted, malformed, put_error, refuse};
use crate::channels::{Channels, put_notification};
use crate::command::{Command, command_of};
use crate::copy::CopyIn;
use crate::extended::Binding;
use crate::idle::{Later, put_later, put_ready};
use crate::outbox::Outbox;
use crate::pause::Pause;
use crate::portals::{Names, Plan, Portal};
use crate::script::{Pair, Script, Statement};
use crate::settings::Settings;
use crate::transaction::Transaction;
use crate::wording::Wording;
use pgp_frontend_read::ClientMessage;
use pgp_message_write as reply;
use pgp_session::transaction::Status;
use std::mem;

/// What a statement asks for.
#[derive(Clone, Copy)]
pub(crate) enum Asks<'h, 'w> {
    /// There is no statement in it.
    Nothing,
    Scripted(&'h Statement),
    /// A command that needs no script.
    Command(Command<'w>),
    Unknown,
}

/// The key of a session, as long as PostgreSQL 18 has it where 3.0 is spoken, and where 3.2 is.
static SHORT_KEY: &[u8] = b"\0\0\0\x01";

static LONG_KEY: &[u8] = b"\0\0\0\0\0\0\0\0\0\0\0\0\0\0\0\0\0\0\0\0\0\0\0\0\0\0\0\0\0\0\0\x01";

/// A session.
#[derive(Drop)]
pub(crate) struct Session<'h> {
    pub(crate) script: &'h Script,
    pub(crate) prepared: Names<Plan>,
    pub(crate) portals: Names<Portal>,
    pub(crate) transaction: Transaction,
    pub(crate) settings: Settings,
    pub(crate) channels: Channels,
    /// After an error all requests are passed over up to a Sync.
    pub(crate) is_skipping: bool,
    /// Whether the client speaks 3.2, whose keys are longer.
    pub(crate) has_long_key: bool,
    /// What is sent before the server is ready.
    notifications: Vec<&'h Pair>,
    /// What is sent in idle time.
    later: Vec<&'h Later>,
    pub(crate) copying: Option<CopyIn<'h>>,
    /// By the place of the first answer to a statement, that of the answer of the next time.
    pub(crate) turns: Vec<(usize, usize)>,
    /// The connection ends where so many bytes were answered.
    pub(crate) end_at: Option<usize>,
    /// Where what was answered waits.
    pub(crate) pauses: Vec<Pause>,
}

impl<'h> Session<'h> {
    pub(crate) fn new(script: &'h Script, out: &mut Outbox) -> Session<'h> {
        let alloc = out.alloc;
        let mut settings = Settings::new(out);
        for setting in &script.settings {
            settings.begin(&setting.name, &setting.value, out);
        }
        Session {
            script,
            prepared: Names::new(alloc),
            portals: Names::new(alloc),
            transaction: Transaction::new(alloc),
            settings,
            channels: Channels::new(alloc),
            is_skipping: false,
            has_long_key: false,
            notifications: Vec::new(alloc),
            later: Vec::new(alloc),
            copying: None,
            turns: Vec::new(alloc),
            end_at: None,
            pauses: Vec::new(alloc),
        }
    }

    /// Appends the error of the log-in, if the script has one, and returns whether it has. A server that takes no clients says so before it asks
    /// who it is.
    pub(crate) fn rejects_login(&mut self, is_early: bool, out: &mut Outbox) -> bool {
        match &self.script.login {
            Some(report) if is_early == matches!(&*report.code, b"57P03" | b"53300") => {
                put_error(report, out);
                self.end_at = Some(out.len());
                true
            }
            _ => false,
        }
    }

    /// Appends what a server says after the log-in.
    pub(crate) fn welcome(&mut self, out: &mut Outbox) {
        if self.rejects_login(false, out) {
            return;
        }
        self.settings.report(out);
        let key = if self.has_long_key {
            LONG_KEY
        } else {
            SHORT_KEY
        };
        let put = reply::backend_key_data(1, key, &mut out.bytes);
        out.put(put);
        self.ready(out);
    }

    /// Appends the notifications, which settings changed, and that the server is ready. Outside of a transaction what was asked for takes effect.
    fn ready(&mut self, out: &mut Outbox)
        ensures portals { self.new.portals ≡ self.old.portals }
        ensures waits { self.old.transaction.status ≢ Idle → self.new.later ≡ self.old.later }
        ensures ends { HasEnd self.new.transaction.status self.new.later.items out.old.bytes.items out.new.bytes.items out.new.fault }
    {
        self.inform(out);
        if put_ready(self.transaction.status, out) {
            put_later(&self.later, &mut self.settings, &mut self.pauses, out);
            self.later.clear();
        }
    }

    /// Appends the notifications, and which settings changed.
    fn inform(&mut self, out: &mut Outbox)
        ensures portals { self.new.portals ≡ self.old.portals }
        ensures waits { self.new.later ≡ self.old.later }
        ensures status { self.new.transaction ≡ self.old.transaction }
        ensures informs { Informs out.old.bytes.items out.new.bytes.items }
    {
        self.channels.settle(self.transaction.status, out);
        put_notifications(&self.notifications, out);
        self.notifications.clear();
        self.settings.end_request(self.transaction.status, out);
        self.settings.report(out);
    }

    /// What the statement asks for.
    pub(crate) fn asks<'w>(&self, statement: &'w Wording, out: &mut Outbox) -> Asks<'h, 'w> {
        if statement.is_blank() {
            return Asks::Nothing;
        }
        match (self.scripted(statement, out), statement.command()) {
            (Some(scripted), _) => Asks::Scripted(scripted),
            (None, Some(command)) => Asks::Command(command),
            (None, None) => Asks::Unknown,
        }
    }

    /// Whether the transaction failed, and this statement doesn't end that.
    pub(crate) fn is_aborted(&self, statement: &Wording) -> bool {
        let ends_failure = match statement.command() {
            Some(command) => command.ends_failure(),
            None => false,
        };
        self.transaction.status.rejects(ends_failure)
    }

    /// An error: a transaction that was begun has failed. What was asked for outside of one is undone.
    pub(crate) fn fail_transaction(&mut self, out: &mut Outbox) {
        if self.transaction.status == Status::Idle {
            self.channels.roll_back(0);
            self.settings.roll_back(0, out);
        }
        self.transaction.fail();
    }

    /// Appends the error of a request that stands alone.
    pub(crate) fn stop(&mut self, refusal: Refusal<'_>, out: &mut Outbox) {
        self.fail_transaction(out);
        refuse(refusal, out);
    }

    /// Appends the error of a request of an extended query: what follows is passed over.
    pub(crate) fn fail(&mut self, refusal: Refusal<'_>, out: &mut Outbox) {
        self.is_skipping = true;
        self.stop(refusal, out);
    }

    /// Portals end with their transaction, which is also one where none was begun.
    pub(crate) fn end_portals(&mut self)
        ensures { ends_portals self.old.transaction.status ≡ false → self.new.portals ≡ self.old.portals }
    {
        if self.transaction.status.ends_portals() {
            self.portals.commit();
        }
    }

    /// What a statement of the script leaves: the status that it says, or that of its command, or of its error; its notifications; its
    /// pauses; and the end of the connection. Its answer begins at this place, and is all that follows.
    pub(crate) fn leave(
        &mut self,
        statement: &'h Statement,
        went: Went,
        start: usize,
        out: &mut Outbox,
    ) {
        for pause in &statement.pauses {
            out.add(&mut self.pauses, pause.shifted(start));
        }
        self.turn(statement, out);
        if went == Went::Suspended {
            return;
        }
        match statement.status {
            Some(status) => self.transaction.set(status),
            None => self.follow(statement, went, out),
        }
        self.add_notifications(&statement.notifications, out);
        self.add_later(&statement.later, out);
        if statement.is_fatal() {
            self.end_at = Some(out.len());
        }
        if let Some(bytes) = statement.cut {
            self.end_at = Some(start.saturating_add(bytes));
        }
    }

    fn add_notifications(&mut self, notifications: &'h [Pair], out: &mut Outbox) {
        for pair in notifications {
            out.add(&mut self.notifications, pair);
        }
    }

    fn add_later(&mut self, list: &'h [Later], out: &mut Outbox) {
        for later in list {
            out.add(&mut self.later, later);
        }
    }

    /// What the statement does to the session by itself, and the cursor that it declares. Of a `NOTIFY` its lines `notify` say what is sent.
    fn follow(&mut self, statement: &Statement, went: Went, out: &mut Outbox) {
        if went == Went::Wrong {
            return self.fail_transaction(out);
        }
        if let Some(command) = command_of(&statement.words) {
            if !matches!(command, Command::Notify { .. }) {
                self.carry(command, out);
            }
            if let Command::Declare { name, is_held } = command {
                self.open_cursor(name, is_held, &statement.text, out);
            }
        }
    }

    /// Ends a simple query, or a call of a function.
    pub(crate) fn end_query(&mut self, out: &mut Outbox)
        ensures { HasEnd self.new.transaction.status self.new.later.items out.old.bytes.items out.new.bytes.items out.new.fault }
    {
        self.end_portals();
        self.ready(out);
    }

    /// Ends an extended query. Where a transaction was begun, portals live on.
    fn sync(&mut self, out: &mut Outbox)
        ensures portals { ends_portals self.old.transaction.status ≡ false → self.new.portals ≡ self.old.portals }
        ensures ends { HasEnd self.new.transaction.status self.new.later.items out.old.bytes.items out.new.bytes.items out.new.fault }
    {
        self.is_skipping = false;
        self.end_portals();
        self.ready(out);
    }

    /// Answers a request that stands alone with an error.
    pub(crate) fn stop_alone(&mut self, refusal: Refusal<'_>, out: &mut Outbox)
        ensures { IsEnded self.new.transaction.status self.new.later.items out.new.bytes.items out.new.fault }
    {
        self.stop(refusal, out);
        self.end_query(out);
    }

    /// Answers a message whose bytes aren't those of its type.
    pub(crate) fn answer_malformed(&mut self, tag: u8, out: &mut Outbox) {
        if let Some(copy) = self.copying {
            return self.malformed_in_copy(copy, tag, out);
        }
        match tag {
            b'S' => {
                self.is_skipping = false;
                self.stop_alone(malformed(), out);
            }
            _ if self.is_skipping => {}
            b'F' if self.transaction.status.rejects(false) => self.stop_alone(aborted(), out),
            b'Q' | b'F' => self.stop_alone(malformed(), out),
            // What belongs to a copy is passed over.
            b'd' | b'c' | b'f' => {}
            _ => self.fail(malformed(), out),
        }
    }

    /// Appends what is answered to a request without a list, or to one that is passed over.
    fn answer_in_place(&mut self, message: &ClientMessage<'_>, out: &mut Outbox) {
        match message {
            ClientMessage::Sync => self.sync(out),
            _ if self.is_skipping => {}
            ClientMessage::Query(text) => self.query(text, out),
            message => self.extended(message, out),
        }
    }

    /// Appends what is answered to a request.
    pub(crate) fn answer(&mut self, message: &mut ClientMessage<'_>, out: &mut Outbox) {
        match self.copying {
            Some(copy) => self.answer_copy(copy, message, out),
            None => self.answer_next(message, out),
        }
    }

    fn answer_next(&mut self, message: &mut ClientMessage<'_>, out: &mut Outbox) {
        if self.is_skipping {
            return self.answer_in_place(message, out);
        }
        match mem::replace(message, ClientMessage::Sync) {
            ClientMessage::Bind {
                portal,
                statement,
                mut formats,
                mut values,
                mut result_formats,
            } => {
                let formats = out.listed(&mut formats);
                let values = out.listed(&mut values);
                let results = out.listed(&mut result_formats);
                let binding = Binding {
                    portal,
                    statement,
                    formats: &formats,
                    values: &values,
                    results: &results,
                };
                self.bind(&binding, out);
            }
            other => self.answer_unbound(other, out),
        }
    }

    /// The same of a request that is no Bind.
    fn answer_unbound(&mut self, message: ClientMessage<'_>, out: &mut Outbox) {
        match message {
            ClientMessage::FunctionCall {
                function,
                mut formats,
                mut arguments,
                result_format,
            } => {
                let formats = out.listed(&mut formats);
                let values = out.listed(&mut arguments);
                let call = Binding {
                    portal: b"",
                    statement: b"",
                    formats: &formats,
                    values: &values,
                    results: &[result_format],
                };
                self.call(function, &call, out);
            }
            ClientMessage::Parse {
                name,
                query,
                mut param_types,
            } => {
                let types = out.listed(&mut param_types);
                self.parse(name, query, &types, out);
            }
            other => self.answer_in_place(&other, out),
        }
    }
}

fn put_notifications(notifications: &[&Pair], out: &mut Outbox)
    ensures { Informs out.old.bytes.items out.new.bytes.items }
{
    for pair in notifications {
        put_notification(1, pair, out);
    }
}
