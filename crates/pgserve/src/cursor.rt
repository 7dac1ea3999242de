//! Cursors of SQL: portals whose query the script has.
//!
//! PostgreSQL manual, "DECLARE", "FETCH", "MOVE", "CLOSE".

use crate::answer::{Went, complete, put_rows};
use crate::asked::{
    Refusal, no_cursor, no_transaction, not_scripted, portal_there, put_error, refuse,
};
use crate::bound::Bound;
use crate::command::Command;
use crate::outbox::Outbox;
use crate::portals::{Life, Portal};
use crate::script::{End, Statement};
use crate::session::Session;
use crate::wording::Wording;
use pgp_session::transaction::Status;

/// How far the first word goes.
fn word_end(text: &[u8]) -> usize {
    for (place, byte) in text.iter().enumerate() {
        if byte.is_ascii_whitespace() {
            return place;
        }
    }
    text.len()
}

/// The query of a `DECLARE`: what stands behind `CURSOR .. FOR`.
fn query_of(statement: &[u8]) -> &[u8] {
    let (mut rest, mut is_behind) = (statement, false);
    for _ in 0..statement.len() {
        let (word, behind) = rest.split_at(word_end(rest).min(rest.len()));
        rest = behind.trim_ascii();
        if is_behind && word.eq_ignore_ascii_case(b"for") {
            return rest;
        }
        is_behind |= word.eq_ignore_ascii_case(b"cursor");
    }
    &[]
}

/// Rows that a `FETCH` or a `MOVE` asks for.
#[derive(Clone, Copy)]
pub(crate) struct Fetch<'f> {
    pub(crate) name: &'f [u8],
    /// 0 for all.
    pub(crate) most: usize,
    /// Whether they are passed over.
    pub(crate) moves: bool,
    pub(crate) formats: &'f [i16],
}

impl<'h> Session<'h> {
    /// Why a cursor of this name can't be declared, if it can't.
    fn rejects_cursor<'c>(&self, name: &'c str, is_held: bool) -> Option<Refusal<'c>> {
        if !is_held && self.transaction.status == Status::Idle {
            return Some(no_transaction("DECLARE", " CURSOR"));
        }
        match self.portals.find(name.as_bytes()) {
            Some(_) => Some(portal_there(name.as_bytes())),
            None => None,
        }
    }

    /// Opens the cursor that this statement declares, and returns whether the script has its query.
    pub(crate) fn open_cursor(
        &mut self,
        name: &str,
        is_held: bool,
        statement: &[u8],
        out: &mut Outbox,
    ) -> bool {
        let mut query = Wording::new(query_of(statement), out);
        query.place = self.place_of(&query, out);
        let answer = self.answer_of(&query);
        if let Some(answer) = answer {
            let cursor = Portal {
                statement: query,
                formats: Vec::new(out.alloc),
                values: Vec::new(out.alloc),
                sent: None,
                depth: self.transaction.depth(),
                life: if is_held {
                    Life::Held
                } else {
                    Life::Transaction
                },
            };
            self.portals.put(name.as_bytes(), cursor, out);
            self.turn(answer, out);
        }
        answer.is_some()
    }

    /// The script's answer to which a statement is bound.
    fn answer_of(&self, statement: &Wording) -> Option<&'h Statement> {
        self.script.statements.get(statement.place?)
    }

    /// Declares a cursor.
    pub(crate) fn declare(
        &mut self,
        name: &str,
        is_held: bool,
        statement: &[u8],
        out: &mut Outbox,
    ) -> Went {
        let refusal = match self.rejects_cursor(name, is_held) {
            Some(refusal) => refusal,
            None if self.open_cursor(name, is_held, statement, out) => {
                complete(b"DECLARE CURSOR", out);
                return Went::Well;
            }
            None => not_scripted(statement),
        };
        refuse(refusal, out);
        Went::Wrong
    }

    /// The answer whose rows the command fetches.
    pub(crate) fn fetched(&self, command: Command<'_>) -> Option<&'h Statement> {
        match command {
            Command::Fetch {
                name,
                moves: false,
                ..
            } => self.answer_of(&self.portals.find(name.as_bytes())?.statement),
            _ => None,
        }
    }

    /// Appends further rows of a cursor, or passes over them.
    pub(crate) fn fetch(&mut self, fetch: Fetch<'_>, out: &mut Outbox) -> Went {
        let found = match self.portals.find(fetch.name) {
            Some(cursor) => self.answer_of(&cursor.statement),
            None => None,
        };
        match found {
            Some(answer) => self.fetch_rows(answer, fetch, out),
            None => {
                refuse(no_cursor(fetch.name), out);
                Went::Wrong
            }
        }
    }

    fn fetch_rows(&mut self, answer: &Statement, fetch: Fetch<'_>, out: &mut Outbox) -> Went {
        let Some(cursor) = self.portals.find_mut(fetch.name) else {
            return Went::Wrong;
        };
        let from = cursor.sent.unwrap_or(0);
        let most = if fetch.most == 0 {
            usize::MAX
        } else {
            fetch.most
        };
        let bound = Bound {
            values: &cursor.values,
            formats: fetch.formats,
        };
        let put = if fetch.moves {
            Ok(answer.rows.len().saturating_sub(from).min(most))
        } else {
            put_rows(answer, bound, from, most, out)
        };
        match put {
            Ok(rows) => {
                cursor.sent = Some(from.saturating_add(rows));
                end_fetch(answer, fetch.moves, rows, rows < most, out)
            }
            Err(refusal) => {
                refuse(refusal, out);
                Went::Wrong
            }
        }
    }
}

/// Appends the end of a `FETCH` or a `MOVE` of so many rows, behind which the error of the answer may stand.
fn end_fetch(answer: &Statement, moves: bool, rows: usize, is_all: bool, out: &mut Outbox) -> Went {
    if let End::Error(report) = &answer.end {
        if is_all {
            put_error(report, out);
            return Went::Wrong;
        }
    }
    let verb = if moves { "MOVE" } else { "FETCH" };
    match format!(in out.alloc; "{verb} {rows}") {
        Ok(tag) => complete(tag.as_bytes(), out),
        Err(_) => out.lack(),
    }
    Went::Well
}
