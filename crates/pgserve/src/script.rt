//! A script: statements, and what the server answers to each. docs/PGSERVE.md says how it is written.

use crate::idle::Later;
use crate::outbox::Outbox;
use crate::pattern::is_found;
use crate::pause::Pause;
use crate::reader::Reader;
use crate::text::trimmed;
use crate::types::Type;
use crate::user::User;
use crate::wording::Wording;
use pgp_base::Oid;
use pgp_session::transaction::Status;
use regex::Regex;
use std::alloc::Global;

/// A column of the rows.
#[derive(Drop)]
pub(crate) struct Column {
    pub(crate) name: Vec<u8>,
    pub(crate) kind: Type,
    /// The table, and the column's number there; 0 of none.
    pub(crate) table: Oid,
    pub(crate) number: i16,
    pub(crate) modifier: i32,
    /// The one format in which the values stand and are sent, where it is one: 0 text, 1 binary.
    pub(crate) only: Option<i16>,
}

/// A further field of an error or a notice, as its detail.
#[derive(Drop)]
pub(crate) struct Detail {
    pub(crate) code: u8,
    pub(crate) value: Vec<u8>,
}

/// An error or a notice: its severity, its SQLSTATE, its message and its further fields.
#[derive(Drop)]
pub(crate) struct Report {
    pub(crate) severity: &'static str,
    pub(crate) code: Vec<u8>,
    pub(crate) message: Vec<u8>,
    pub(crate) details: Vec<Detail>,
}

/// A copy from the server, or to it.
#[derive(Drop)]
pub(crate) struct Copy {
    pub(crate) is_in: bool,
    pub(crate) is_binary: bool,
    pub(crate) columns: u16,
    /// What the server sends.
    pub(crate) chunks: Vec<Vec<u8>>,
}

/// How an answer ends.
#[derive(Drop)]
pub(crate) enum End {
    /// A line of the script has to say it yet.
    Open,
    Tag(Vec<u8>),
    /// That of a function: its type, and its text.
    Result(Oid, Option<Vec<u8>>),
    Error(Report),
}

/// A row, and for which values of a parameter it is sent.
#[derive(Drop)]
pub(crate) struct Row {
    pub(crate) condition: Option<Condition>,
    /// As texts.
    pub(crate) values: Vec<Option<Vec<u8>>>,
}

/// The parameter of this place, from 0 on, has the value of this text.
#[derive(Drop)]
pub(crate) struct Condition {
    pub(crate) place: usize,
    pub(crate) value: Vec<u8>,
}

/// A notification, or a setting.
#[derive(Drop)]
pub(crate) struct Pair {
    pub(crate) name: Vec<u8>,
    pub(crate) value: Vec<u8>,
}

/// How the text of a statement says which are meant.
#[derive(Clone, Copy, PartialEq, Eq)]
pub(crate) enum By {
    /// The same text.
    Text,
    /// The same words, whatever blanks and capital letters they have.
    Words,
    /// Those in which a regular expression matches.
    Pattern,
    /// No statement, but calls of the function of this number.
    Function(Oid),
}

/// Which answer to a statement it is.
#[derive(Clone, Copy, PartialEq, Eq)]
pub(crate) enum Role {
    First,
    /// That of the next time.
    Then,
    /// A further result of the same time.
    And,
}

/// A statement, and what is answered.
#[derive(Drop)]
pub(crate) struct Statement {
    /// The line where it begins.
    pub(crate) line: usize,
    /// Its place in the script, and that of the first answer to the same statement.
    pub(crate) place: usize,
    pub(crate) first: usize,
    pub(crate) role: Role,
    pub(crate) by: By,
    pub(crate) text: Vec<u8>,
    /// That of the text, where it is a pattern.
    pub(crate) regex: Option<Regex>,
    /// The text by its words.
    pub(crate) words: String,
    /// Whether its columns are those of the answer above.
    pub(crate) has_old_columns: bool,
    /// The types of its parameters.
    pub(crate) parameters: Vec<Oid>,
    pub(crate) columns: Vec<Column>,
    pub(crate) rows: Vec<Row>,
    pub(crate) notices: Vec<Report>,
    pub(crate) end: End,
    /// The status that the server says from then on.
    pub(crate) status: Option<Status>,
    pub(crate) notifications: Vec<Pair>,
    /// What is sent in idle time.
    pub(crate) later: Vec<Later>,
    pub(crate) copy: Option<Copy>,
    /// The connection ends after so many bytes of the answer.
    pub(crate) cut: Option<usize>,
    pub(crate) pauses: Vec<Pause>,
}

/// All statements, and the settings that differ from a server's own.
#[derive(Drop)]
pub(crate) struct Script {
    pub(crate) statements: Vec<Statement>,
    pub(crate) settings: Vec<Pair>,
    pub(crate) users: Vec<User>,
    /// The error of each log-in, if it has one.
    pub(crate) login: Option<Report>,
    /// Whether statements are meant by their words from here on.
    pub(crate) by_words: bool,
}

impl Statement {
    /// A statement that begins at this line.
    pub(crate) fn new(by: By, text: Vec<u8>, words: String, reader: &Reader) -> Statement {
        let alloc = reader.out.alloc;
        Statement {
            line: reader.line,
            place: 0,
            first: 0,
            role: Role::First,
            by,
            text,
            regex: None,
            words,
            has_old_columns: false,
            parameters: Vec::new(alloc),
            columns: Vec::new(alloc),
            rows: Vec::new(alloc),
            notices: Vec::new(alloc),
            end: End::Open,
            status: None,
            notifications: Vec::new(alloc),
            later: Vec::new(alloc),
            copy: None,
            cut: None,
            pauses: Vec::new(alloc),
        }
    }

    /// The error that a server finds when it prepares the statement: one of class 42, but for a lack of privileges.
    pub(crate) fn early_error(&self) -> Option<&Report> {
        match &self.end {
            End::Error(report) if self.rows.is_empty() && is_early(&report.code) => Some(report),
            _ => None,
        }
    }

    /// Whether it is a function.
    pub(crate) fn is_function(&self) -> bool {
        matches!(self.by, By::Function(_))
    }

    /// Whether the pattern matches the text.
    fn matches(&self, text: &str, out: &mut Outbox) -> bool {
        match &self.regex {
            Some(regex) => is_found(regex, text, out),
            None => false,
        }
    }

    /// Whether a row is sent for some values of a parameter alone.
    pub(crate) fn has_conditions(&self) -> bool {
        for row in &self.rows {
            if row.condition.is_some() {
                return true;
            }
        }
        false
    }

    /// The copy to the server that it is, if it is one.
    pub(crate) fn copy_in(&self) -> Option<&Copy> {
        match &self.copy {
            Some(copy) if copy.is_in => Some(copy),
            _ => None,
        }
    }

    /// Whether its error ends the session.
    pub(crate) fn is_fatal(&self) -> bool {
        match &self.end {
            End::Error(report) => report.severity == "FATAL" || report.severity == "PANIC",
            _ => false,
        }
    }

    /// The notice or the error of the last line that said one.
    pub(crate) fn last_report(&mut self) -> Option<&mut Report> {
        match &mut self.end {
            End::Error(report) => Some(report),
            _ => self.notices.last_mut(),
        }
    }
}

fn is_early(code: &[u8]) -> bool {
    code.starts_with(b"42") && code != b"42501".as_slice()
}

impl Script {
    pub(crate) fn new(alloc: Global) -> Script {
        Script {
            statements: Vec::new(alloc),
            settings: Vec::new(alloc),
            users: Vec::new(alloc),
            login: None,
            by_words: false,
        }
    }

    /// The first answer to the statement that is written so.
    pub(crate) fn written(&self, by: By, text: &[u8]) -> Option<&Statement> {
        for statement in &self.statements {
            if statement.role == Role::First
                && statement.by == by
                && statement.text.as_slice() == text
            {
                return Some(statement);
            }
        }
        None
    }

    /// The first answer to a statement: that of its text, of the text without comments, of its words, or of the first pattern that matches.
    pub(crate) fn find(&self, asked: &Wording, out: &mut Outbox) -> Option<&Statement> {
        let found = self
            .written(By::Text, trimmed(&asked.text))
            .or(self.written(By::Text, &asked.bare))
            .or(self.written(By::Words, asked.words.as_bytes()));
        if found.is_some() {
            return found;
        }
        match self.matching(trimmed(&asked.text), out) {
            None => self.matching(&asked.bare, out),
            found => found,
        }
    }

    /// The first pattern that matches the text.
    fn matching(&self, text: &[u8], out: &mut Outbox) -> Option<&Statement> {
        let text = str::from_utf8(text).unwrap_or("");
        for statement in &self.statements {
            if statement.role == Role::First
                && statement.by == By::Pattern
                && statement.matches(text, out)
            {
                return Some(statement);
            }
        }
        None
    }

    /// The further result of the same time, behind this place.
    pub(crate) fn further(&self, place: usize) -> Option<&Statement> {
        let next = self.statements.get(place.saturating_add(1))?;
        if next.role == Role::And {
            Some(next)
        } else {
            None
        }
    }

    /// The place of the answer of the next time, behind this place.
    pub(crate) fn turn_after(&self, place: usize) -> Option<usize> {
        let rest = self.statements.get(place.saturating_add(1)..)?;
        for next in rest {
            match next.role {
                Role::And => {}
                Role::Then => return Some(next.place),
                Role::First => return None,
            }
        }
        None
    }

    /// The line of the first answer whose end isn't said.
    pub(crate) fn open_line(&self) -> Option<usize> {
        for statement in &self.statements {
            if matches!(statement.end, End::Open) {
                return Some(statement.line);
            }
        }
        None
    }

    /// Whether a user of this name stands there.
    pub(crate) fn has_user(&self, name: &[u8]) -> bool {
        for user in &self.users {
            if user.name.as_slice() == name {
                return true;
            }
        }
        false
    }
}
