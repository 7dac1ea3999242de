//! The requests of an extended query.
//!
//! PostgreSQL manual, "Message Flow", "Extended Query".

use crate::answer::{Went, describe, describe_none, execute};
use crate::asked::{
    Refusal, aborted, no_portal, no_statement, not_scripted, not_utf8, portal_there, put_error,
    violation, was_run,
};
use crate::bound::{Bound, given_of};
use crate::input::{is_text, rejects_counts, rejects_values};
use crate::outbox::Outbox;
use crate::portals::{Life, Plan, Portal};
use crate::script::Statement;
use crate::session::{Asks, Session};
use crate::text::{only_of, trimmed};
use crate::wording::Wording;
use pgp_base::Oid;
use pgp_frontend_read::ClientMessage;
use pgp_message_write as reply;
use pgp_session::transaction::Status;

/// What a Bind says.
#[derive(Clone, Copy)]
pub(crate) struct Binding<'m> {
    pub(crate) portal: &'m [u8],
    pub(crate) statement: &'m [u8],
    pub(crate) formats: &'m [i16],
    pub(crate) values: &'m [Option<&'m [u8]>],
    pub(crate) results: &'m [i16],
}

/// The type of a parameter: that which the client names, or else the script's.
fn type_at(named: &[Oid], scripted: &[Oid], place: usize) -> Option<Oid> {
    match named.get(place) {
        Some(0) | None => scripted.get(place).copied(),
        Some(oid) => Some(*oid),
    }
}

/// The types of all parameters; `None` where one has none.
fn types_of(named: &[Oid], scripted: &[Oid], out: &mut Outbox) -> Option<Vec<Oid>> {
    let mut types = Vec::new(out.alloc);
    for place in 0..named.len().max(scripted.len()) {
        out.add(&mut types, type_at(named, scripted, place)?);
    }
    Some(types)
}

/// The portal that a binding of a statement opens, where so many savepoints are.
fn portal_of(plan: &Plan, binding: &Binding<'_>, depth: usize, out: &mut Outbox) -> Portal {
    Portal {
        statement: Wording::new(&plan.statement.text, out),
        formats: out.copy(binding.results),
        values: given_of(&plan.types, binding.formats, binding.values, out),
        sent: None,
        depth,
        life: Life::Transaction,
    }
}

/// The types of a scripted statement's parameters.
fn scripted_types<'h>(asks: Asks<'h, '_>) -> &'h [Oid] {
    match asks {
        Asks::Scripted(statement) => &statement.parameters,
        _ => &[],
    }
}

impl<'h> Session<'h> {
    /// The one statement of a Parse; `None` where it has more.
    fn only<'q>(&self, query: &'q [u8], out: &mut Outbox) -> Option<&'q [u8]> {
        let whole = Wording::new(query, out);
        match self.script.find(&whole, out) {
            Some(_) => Some(trimmed(query)),
            None => only_of(query, out),
        }
    }

    /// Why the statement can't be prepared, if it can't.
    fn rejects<'q>(&self, asks: Asks<'h, '_>, statement: &'q Wording) -> Option<Refusal<'q>> {
        if !statement.text.is_empty() && self.is_aborted(statement) {
            return Some(aborted());
        }
        match asks {
            Asks::Unknown => Some(not_scripted(&statement.text)),
            _ => None,
        }
    }

    /// Prepares a statement.
    pub(crate) fn parse(&mut self, name: &[u8], query: &[u8], named: &[Oid], out: &mut Outbox) {
        if name.is_empty() {
            self.prepared.remove(name);
        }
        if !is_text(query) {
            return self.fail(not_utf8(), out);
        }
        match self.only(query, out) {
            Some(statement) => self.parse_only(name, statement, named, out),
            None => {
                let message = "cannot insert multiple commands into a prepared statement";
                self.fail(Refusal::new("42601", message), out);
            }
        }
    }

    fn parse_only(&mut self, name: &[u8], statement: &[u8], named: &[Oid], out: &mut Outbox) {
        let statement = Wording::new(statement, out);
        if let Some(types) = self.parameters(&statement, named, out) {
            self.prepare(name, Plan { statement, types }, out);
        }
    }

    /// The types of the parameters of a statement that can be prepared. The error of another one is appended.
    fn parameters(
        &mut self,
        statement: &Wording,
        named: &[Oid],
        out: &mut Outbox,
    ) -> Option<Vec<Oid>> {
        let asks = self.asks(statement, out);
        if let Some(refusal) = self.rejects(asks, statement) {
            self.fail(refusal, out);
            return None;
        }
        if self.errs_early(asks, out) {
            return None;
        }
        let types = types_of(named, scripted_types(asks), out);
        if types.is_none() {
            let message = "could not determine data type of a parameter";
            self.fail(Refusal::new("42P18", message), out);
        }
        types
    }

    /// Appends the error that a server finds when it prepares the statement, if there is one, and returns whether there is.
    fn errs_early(&mut self, asks: Asks<'h, '_>, out: &mut Outbox) -> bool {
        let Asks::Scripted(statement) = asks else {
            return false;
        };
        let Some(report) = statement.early_error() else {
            return false;
        };
        self.is_skipping = true;
        let start = out.len();
        put_error(report, out);
        self.leave(statement, Went::Wrong, start, out);
        true
    }

    /// Keeps a statement under its name.
    fn prepare(&mut self, name: &[u8], plan: Plan, out: &mut Outbox) {
        if self.prepared.find(name).is_some() {
            let refusal = Refusal::of("42P05", "prepared statement \"", name, "\" already exists");
            return self.fail(refusal, out);
        }
        self.prepared.put(name, plan, out);
        let put = reply::parse_complete(&mut out.bytes);
        out.put(put);
    }

    /// How many columns the rows of a statement have; 0 where it has no rows.
    fn width(&self, statement: &Wording, out: &mut Outbox) -> usize {
        match self.asks(statement, out) {
            Asks::Scripted(statement) => statement.columns.len(),
            Asks::Command(command) => match self.fetched(command) {
                Some(fetched) => fetched.columns.len(),
                None => usize::from(self.shown(command).is_some()),
            },
            _ => 0,
        }
    }

    /// Why a statement can't be bound to this portal, if it can't.
    fn rejects_portal<'q>(
        &self,
        portal: &'q [u8],
        statement: &Wording,
        results: usize,
        out: &mut Outbox,
    ) -> Option<Refusal<'q>> {
        if self.is_aborted(statement) {
            return Some(aborted());
        }
        if !portal.is_empty() && self.portals.find(portal).is_some() {
            return Some(portal_there(portal));
        }
        let width = self.width(statement, out);
        if results > 1 && width != 0 && results != width {
            return Some(violation(
                "bind message has another number of result formats than the query has columns",
            ));
        }
        None
    }

    /// Binds a statement to so many values, which have these formats.
    pub(crate) fn bind(&mut self, binding: &Binding<'_>, out: &mut Outbox) {
        match self.rejects_binding(binding, out) {
            Some(refusal) => self.fail(refusal, out),
            None => self.open_portal(binding, out),
        }
    }

    fn open_portal(&mut self, binding: &Binding<'_>, out: &mut Outbox) {
        if let Some(plan) = self.prepared.find(binding.statement) {
            let mut portal = portal_of(plan, binding, self.transaction.depth(), out);
            portal.statement.place = self.place_of(&portal.statement, out);
            self.portals.put(binding.portal, portal, out);
        }
        let put = reply::bind_complete(&mut out.bytes);
        out.put(put);
    }

    /// Why this can't be bound, if it can't.
    fn rejects_binding<'m>(&self, binding: &Binding<'m>, out: &mut Outbox) -> Option<Refusal<'m>> {
        let Some(plan) = self.prepared.find(binding.statement) else {
            return Some(no_statement(binding.statement));
        };
        let refusal = rejects_counts(&plan.types, binding);
        if refusal.is_some() {
            return refusal;
        }
        let results = binding.results.len();
        match self.rejects_portal(binding.portal, &plan.statement, results, out) {
            None => rejects_values(&plan.types, binding, out),
            refusal => refusal,
        }
    }

    /// Whether the transaction failed, and the statement has rows, which then aren't described.
    fn hides(&self, statement: &Wording, out: &mut Outbox) -> bool {
        self.transaction.status == Status::Failed && self.width(statement, out) != 0
    }

    /// Appends the description of a statement's rows.
    fn describe_rows(&self, statement: &Wording, formats: &[i16], out: &mut Outbox) {
        match self.asks(statement, out) {
            Asks::Scripted(statement) => describe(&statement.columns, formats, out),
            Asks::Command(command) => self.describe_command(command, formats, out),
            _ => describe_none(out),
        }
    }

    /// Describes a prepared statement: its parameters, and its rows.
    fn describe_statement(&mut self, name: &[u8], out: &mut Outbox) {
        let Some(plan) = self.prepared.find(name) else {
            return self.fail(no_statement(name), out);
        };
        if self.hides(&plan.statement, out) {
            return self.fail(aborted(), out);
        }
        let put = reply::parameter_description(&plan.types, &mut out.bytes);
        out.put(put);
        self.describe_rows(&plan.statement, &[], out);
    }

    /// Describes a portal's rows.
    fn describe_portal(&mut self, name: &[u8], out: &mut Outbox) {
        let Some(portal) = self.portals.find(name) else {
            return self.fail(no_portal(name), out);
        };
        if self.hides(&portal.statement, out) {
            return self.fail(aborted(), out);
        }
        self.describe_rows(&portal.statement, &portal.formats, out);
    }

    /// Runs a portal, for so many rows at most; 0 and less are no limit.
    fn execute(&mut self, name: &[u8], max_rows: i32, out: &mut Outbox) {
        let Some(portal) = self.portals.find(name) else {
            return self.fail(no_portal(name), out);
        };
        let mut statement = Wording::new(&portal.statement.text, out);
        statement.place = portal.statement.place;
        self.execute_statement(name, &statement, max_rows, out);
    }

    fn execute_statement(
        &mut self,
        name: &[u8],
        statement: &Wording,
        max_rows: i32,
        out: &mut Outbox,
    ) {
        match self.asks(statement, out) {
            Asks::Nothing => {
                let put = reply::empty_query_response(&mut out.bytes);
                out.put(put);
            }
            _ if self.is_aborted(statement) => self.fail(aborted(), out),
            Asks::Scripted(scripted) => {
                let most = usize::try_from(max_rows).unwrap_or(0);
                self.execute_scripted(name, scripted, most, out);
            }
            Asks::Command(_) | Asks::Unknown => self.execute_command(name, statement, out),
        }
    }

    /// Runs a portal of a statement that the script has.
    fn execute_scripted(
        &mut self,
        name: &[u8],
        statement: &'h Statement,
        most: usize,
        out: &mut Outbox,
    ) {
        let start = out.len();
        let Some(portal) = self.portals.find_mut(name) else {
            return;
        };
        if portal.sent.is_some() && statement.columns.is_empty() {
            return self.fail(was_run(name), out);
        }
        if let Some(copy) = statement.copy_in() {
            portal.sent = Some(0);
            return self.begin_copy(statement, copy, false, out);
        }
        let bound = Bound {
            values: &portal.values,
            formats: &portal.formats,
        };
        let progress = execute(statement, bound, portal.sent, most, out);
        portal.sent = Some(progress.sent);
        self.is_skipping = progress.went == Went::Wrong;
        self.leave_portal(statement, progress.went, start, out);
    }

    /// What a statement of the script leaves, and the end of the portals where it ends a transaction.
    fn leave_portal(
        &mut self,
        statement: &'h Statement,
        went: Went,
        start: usize,
        out: &mut Outbox,
    ) {
        let before = self.transaction.status;
        self.leave(statement, went, start, out);
        if before != Status::Idle {
            self.end_portals();
        }
    }

    /// Runs a portal of a command, which is run once.
    fn execute_command(&mut self, name: &[u8], statement: &Wording, out: &mut Outbox) {
        let formats = match self.portals.find_mut(name) {
            Some(portal) if portal.sent.is_none() => {
                portal.sent = Some(0);
                out.copy(&portal.formats)
            }
            _ => return self.fail(was_run(name), out),
        };
        self.is_skipping = match statement.command() {
            Some(command) => self.command(command, statement, &formats, out) == Went::Wrong,
            None => false,
        };
    }

    /// Closes a statement or a portal; it needn't be there.
    fn close(&mut self, variant: u8, name: &[u8], out: &mut Outbox) {
        match variant {
            b'S' => self.prepared.remove(name),
            b'P' => self.portals.remove(name),
            _ => return self.fail(violation("invalid CLOSE message subtype"), out),
        }
        let put = reply::close_complete(&mut out.bytes);
        out.put(put);
    }

    /// Answers a request of an extended query that is no Parse and no Bind.
    pub(crate) fn extended(&mut self, message: &ClientMessage<'_>, out: &mut Outbox) {
        match message {
            ClientMessage::Describe {
                variant: b'S',
                name,
            } => self.describe_statement(name, out),
            ClientMessage::Describe {
                variant: b'P',
                name,
            } => self.describe_portal(name, out),
            ClientMessage::Describe { .. } => self.fail(
                violation("invalid DESCRIBE message subtype"),
                out,
            ),
            ClientMessage::Execute { portal, max_rows } => self.execute(portal, *max_rows, out),
            ClientMessage::Close { variant, name } => self.close(*variant, name, out),
            // What belongs to a copy is passed over, as PostgreSQL does outside of one.
            _ => {}
        }
    }
}
