//! What the lines below an `error` or a `notice` say of it.

use crate::reader::Reader;
use crate::script::{Detail, Report, Statement};

/// The further fields of a report (PostgreSQL manual, "Error and Notice Message Fields"), by the names that pgtrace has.
static FIELDS: [(&str, u8); 14] = [
    ("detail", b'D'),
    ("hint", b'H'),
    ("position", b'P'),
    ("internal_position", b'p'),
    ("internal_query", b'q'),
    ("where", b'W'),
    ("schema", b's'),
    ("table", b't'),
    ("column", b'c'),
    ("data_type", b'd'),
    ("constraint", b'n'),
    ("file", b'F'),
    ("line", b'L'),
    ("routine", b'R'),
];

/// The letter of the field of this name.
fn field_of(word: &str) -> Option<u8> {
    for (name, letter) in &FIELDS {
        if *name == word {
            return Some(*letter);
        }
    }
    None
}

/// The severities (PostgreSQL manual, "Message Severity Levels").
static SEVERITIES: [&str; 8] = [
    "DEBUG", "LOG", "INFO", "NOTICE", "WARNING", "ERROR", "FATAL", "PANIC",
];

/// The severity of this name.
fn severity_of(word: &str) -> Option<&'static str> {
    for severity in &SEVERITIES {
        if *severity == word {
            return Some(severity);
        }
    }
    None
}

/// Whether it is five capital letters or digits.
fn is_code(code: &str) -> bool {
    for byte in code.bytes() {
        if !byte.is_ascii_digit() && !byte.is_ascii_uppercase() {
            return false;
        }
    }
    code.len() == 5
}

/// The report of this line: five capital letters or digits, a space, and the message.
pub(crate) fn report_of(severity: &'static str, line: &str, reader: &mut Reader) -> Report {
    let (code, message) = line.split_once(' ').unwrap_or(("", ""));
    if !is_code(code) {
        reader.wrong(
            "an SQLSTATE of five capital letters or digits, a space and a message stand here",
        );
    }
    Report {
        severity,
        code: reader.out.copy(code.as_bytes()),
        message: reader.text(message),
        details: Vec::new(reader.out.alloc),
    }
}

/// What is said of a line that belongs to a report.
const NO_REPORT: &str = "this line stands below an `error` or a `notice`";

impl Statement {
    /// The further fields of the last error or notice.
    fn details(&mut self) -> Option<&mut Vec<Detail>> {
        match self.last_report() {
            Some(report) => Some(&mut report.details),
            None => None,
        }
    }

    /// Adds a field to the last error or notice.
    pub(crate) fn add_detail(&mut self, name: &str, text: &str, reader: &mut Reader) {
        let wanted =
            "a field is one that an error has, as constraint, table, column, schema, data_type, where or routine";
        if name == "position" {
            reader.count(text, 0);
        }
        let code = reader.found(field_of(name), wanted, 0);
        let value = reader.text(text);
        reader.add_to(self.details(), Detail { code, value }, NO_REPORT);
    }

    /// Sets the severity of the last error or notice.
    pub(crate) fn set_severity(&mut self, word: &str, reader: &mut Reader) {
        let wanted = "a severity is ERROR, FATAL, PANIC, WARNING, NOTICE, DEBUG, INFO or LOG";
        let severity = reader.found(severity_of(word), wanted, "");
        match self.last_report() {
            Some(report) => report.severity = severity,
            None => reader.wrong(NO_REPORT),
        }
    }
}
