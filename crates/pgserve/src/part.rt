//! What the lines below a `statement` of a script say.

use crate::called::result_of;
use crate::column::known_type;
use crate::idle::later_of;
use crate::pause::Pause;
use crate::reader::Reader;
use crate::reading::pair_of;
use crate::report::report_of;
use crate::row_text::row_of;
use crate::script::{Copy, End, Statement};
use pgp_base::Oid;
use pgp_session::transaction::Status;
use std::time::Duration;

/// The status of this name.
fn status_of(word: &str) -> Option<Status> {
    match word {
        "idle" => Some(Status::Idle),
        "transaction" => Some(Status::Open),
        "failed" => Some(Status::Failed),
        _ => None,
    }
}

/// The types of these names.
fn types_of(words: &str, reader: &mut Reader) -> Vec<Oid> {
    let mut types = Vec::new(reader.out.alloc);
    for word in words.split_ascii_whitespace() {
        let kind = known_type(word, reader);
        reader.out.add(&mut types, kind.oid);
    }
    types
}

/// The pause of this line: so many milliseconds, before the answer or after so many bytes of it.
pub(crate) fn pause_of(line: &str, reader: &mut Reader) -> Pause {
    let (time, bytes) = line.split_once(' ').unwrap_or((line, "0"));
    let milliseconds = reader.count(time, 0);
    let at = reader.count(bytes, time.len().saturating_add(1));
    Pause {
        at: at as usize,
        time: Duration::from_millis(milliseconds as u64),
    }
}

/// The number of a format.
pub(crate) fn format_of(word: &str) -> Option<i16> {
    match word {
        "text" => Some(0),
        "binary" => Some(1),
        _ => None,
    }
}

/// Whether a copy goes to the server.
fn is_in(way: &str) -> Option<bool> {
    match way {
        "in" => Some(true),
        "out" => Some(false),
        _ => None,
    }
}

/// The copy of this line: `in` or `out`, the format, and the number of columns.
fn copy_of(line: &str, reader: &mut Reader) -> Copy {
    let (way, rest) = line.split_once(' ').unwrap_or((line, ""));
    let (format, columns) = rest.split_once(' ').unwrap_or((rest, "1"));
    let wanted = "in or out, text or binary, and the number of columns stand here";
    Copy {
        is_in: reader.found(is_in(way), wanted, false),
        is_binary: reader.found(format_of(format), wanted, 0) == 1,
        columns: reader.found(columns.parse().ok(), wanted, 0),
        chunks: Vec::new(reader.out.alloc),
    }
}

/// What is said of a copy beside columns, rows or another copy.
pub(crate) const COPY_ALONE: &str = "an answer is one copy, or has columns and rows";

impl Statement {
    /// The data that the server sends.
    fn chunks(&mut self) -> Option<&mut Vec<Vec<u8>>> {
        match &mut self.copy {
            Some(copy) if !copy.is_in => Some(&mut copy.chunks),
            _ => None,
        }
    }

    /// Says how the answer ends, once.
    fn set_end(&mut self, end: End, reader: &mut Reader) {
        if !matches!(self.end, End::Open) {
            reader.wrong("the answer has its end above");
        }
        self.end = end;
    }

    /// Says that the answer is a copy: columns of the answer above aren't this one's.
    fn add_copy(&mut self, line: &str, reader: &mut Reader) {
        if self.has_old_columns {
            self.columns.clear();
            self.has_old_columns = false;
        }
        if self.copy.is_some() || !self.columns.is_empty() || !self.rows.is_empty() {
            reader.wrong_first(COPY_ALONE);
        }
        self.copy = Some(copy_of(line, reader));
    }

    /// Adds what a line of this first word says.
    pub(crate) fn add(&mut self, word: &str, rest: &str, reader: &mut Reader) {
        match word {
            "parameters" => self.parameters = types_of(rest, reader),
            "column" => self.add_column(rest, reader),
            "table" | "modifier" | "format" => self.add_to_column(word, rest, reader),
            "row" if self.copy.is_some() => reader.wrong_first(COPY_ALONE),
            "row" => {
                let row = row_of(&self.columns, &self.parameters, rest, reader);
                reader.out.add(&mut self.rows, row);
            }
            "notice" => {
                let report = report_of("NOTICE", rest, reader);
                reader.out.add(&mut self.notices, report);
            }
            "result" if self.is_function() => self.set_end(result_of(rest, reader), reader),
            "tag" => self.set_end(End::Tag(reader.text(rest)), reader),
            "error" => self.set_end(End::Error(report_of("ERROR", rest, reader)), reader),
            "copy" => self.add_copy(rest, reader),
            "data" => {
                let chunk = reader.raw(rest);
                reader.add_to(self.chunks(), chunk, "this line stands below `copy out`");
            }
            _ => self.add_further(word, rest, reader),
        }
    }

    fn add_further(&mut self, word: &str, rest: &str, reader: &mut Reader) {
        match word {
            "status" => {
                let wanted = "a status is idle, transaction or failed";
                self.status = Some(reader.found(status_of(rest), wanted, Status::Idle));
            }
            "notify" => {
                let notification = pair_of(rest, reader);
                reader.out.add(&mut self.notifications, notification);
            }
            "later" => {
                let later = later_of(rest, reader);
                reader.out.add(&mut self.later, later);
            }
            "wait" => {
                let pause = pause_of(rest, reader);
                reader.out.add(&mut self.pauses, pause);
            }
            "close" => self.cut = Some(usize::MAX),
            "cut" => self.cut = Some(reader.count(rest, 0) as usize),
            "detail" | "hint" | "position" => self.add_detail(word, rest, reader),
            "field" => {
                let (name, text) = rest.split_once(' ').unwrap_or((rest, ""));
                self.add_detail(name, text, reader);
            }
            "severity" => self.set_severity(rest, reader),
            _ => reader.wrong_first("no line begins with this word"),
        }
    }
}
