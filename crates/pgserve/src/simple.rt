//! Simple queries.
//!
//! PostgreSQL manual, "Message Flow", "Simple Query", and there "Multiple Statements in a Simple Query".

use crate::answer::{Went, describe, execute};
use crate::asked::{Refusal, aborted, not_scripted, not_utf8};
use crate::bound::Bound;
use crate::input::is_text;
use crate::outbox::Outbox;
use crate::script::Statement;
use crate::session::{Asks, Session};
use crate::text::{first_of, is_blank};
use crate::wording::Wording;
use pgp_message_write as reply;

impl<'h> Session<'h> {
    /// Answers a statement of a simple query, and returns how it went.
    fn simple(&mut self, text: &[u8], out: &mut Outbox) -> Went {
        let statement = Wording::new(text, out);
        self.simple_statement(&statement, out)
    }

    fn simple_statement(&mut self, statement: &Wording, out: &mut Outbox) -> Went {
        if self.is_aborted(statement) {
            self.stop(aborted(), out);
            return Went::Wrong;
        }
        self.portals.remove(b"");
        match self.asks(statement, out) {
            Asks::Scripted(scripted) => self.simple_scripted(scripted, out),
            Asks::Command(command) => self.simple_command(command, statement, out),
            Asks::Nothing => Went::Well,
            Asks::Unknown => {
                self.stop(not_scripted(statement.text.trim_ascii()), out);
                Went::Wrong
            }
        }
    }

    /// Answers with all results of a statement, up to one that goes wrong.
    fn simple_scripted(&mut self, statement: &'h Statement, out: &mut Outbox) -> Went {
        let (script, mut went) = (self.script, self.simple_result(statement, out));
        let mut place = statement.place;
        for _ in 0..script.statements.len() {
            match script.further(place) {
                Some(further) if went == Went::Well => {
                    place = further.place;
                    went = self.simple_result(further, out);
                }
                _ => return went,
            }
        }
        went
    }

    fn simple_result(&mut self, statement: &'h Statement, out: &mut Outbox) -> Went {
        if !statement.parameters.is_empty() {
            self.stop(Refusal::new("42P02", "there is no parameter $1"), out);
            return Went::Wrong;
        }
        if let Some(copy) = statement.copy_in() {
            self.begin_copy(statement, copy, true, out);
            return Went::Suspended;
        }
        let start = out.len();
        if !statement.columns.is_empty() {
            describe(&statement.columns, &[], out);
        }
        let unbound = Bound {
            values: &[],
            formats: &[],
        };
        let progress = execute(statement, unbound, None, 0, out);
        self.leave(statement, progress.went, start, out);
        progress.went
    }

    /// Answers the statements of a query up to the first that goes wrong; returns whether there was one.
    fn statements(&mut self, query: &[u8], out: &mut Outbox) -> bool {
        let (mut rest, mut is_some) = (query, false);
        for _ in 0..=query.len() {
            let (first, behind) = first_of(rest);
            rest = behind;
            if first.is_empty() || is_blank(first, out) {
                continue;
            }
            is_some = true;
            if self.simple(first, out) != Went::Well {
                return true;
            }
        }
        is_some
    }

    /// Answers a query that the script has as a whole, or its statements; returns whether there was one.
    fn whole_or_parts(&mut self, query: &[u8], out: &mut Outbox) -> bool {
        let whole = Wording::new(query, out);
        match self.script.find(&whole, out) {
            Some(_) => {
                self.simple_statement(&whole, out);
                true
            }
            None => self.statements(query, out),
        }
    }

    /// Answers a simple query.
    pub(crate) fn query(&mut self, query: &[u8], out: &mut Outbox) {
        if !is_text(query) {
            return self.stop_alone(not_utf8(), out);
        }
        self.prepared.remove(b"");
        if !self.whole_or_parts(query, out) {
            let put = reply::empty_query_response(&mut out.bytes);
            out.put(put);
        }
        if self.copying.is_none() {
            self.end_query(out);
        }
    }
}
