//! Errors and warnings that no script says, in PostgreSQL's words.

use crate::outbox::Outbox;
use crate::script::Report;
use pgp_message_write::{self as reply, ErrorField};

/// Why a request gets an error or a warning: its SQLSTATE (PostgreSQL manual, appendix "PostgreSQL Error Codes"), and its message, in which a
/// name may stand.
#[derive(Clone, Copy)]
pub(crate) struct Refusal<'a> {
    code: &'static str,
    before: &'static str,
    name: &'a [u8],
    behind: &'static str,
}

/// Each statement of a transaction that failed.
pub(crate) fn aborted<'a>() -> Refusal<'a> {
    let message = "current transaction is aborted, commands ignored until end of transaction block";
    Refusal::new("25P02", message)
}

/// A message whose bytes aren't those of its type.
pub(crate) fn malformed<'a>() -> Refusal<'a> {
    Refusal::new("08P01", "invalid message format")
}

/// A message that has no place in the protocol.
pub(crate) fn violation<'a>(message: &'static str) -> Refusal<'a> {
    Refusal::new("08P01", message)
}

/// A text that isn't UTF-8, or has a byte 0.
pub(crate) fn not_utf8<'a>() -> Refusal<'a> {
    Refusal::new("22021", "invalid byte sequence for encoding \"UTF8\"")
}

/// A format that is neither text nor binary.
pub(crate) fn bad_format<'a>() -> Refusal<'a> {
    Refusal::new("22023", "a format is 0 (text) or 1 (binary)")
}

/// A value in a format that this server doesn't write.
pub(crate) fn not_supported<'a>() -> Refusal<'a> {
    Refusal::new("0A000", "this server doesn't do that")
}

/// The script has no statement of this text.
pub(crate) fn not_scripted(text: &[u8]) -> Refusal<'_> {
    Refusal::of("42601", "the script has no such statement: ", text, "")
}

/// No statement was prepared under this name.
pub(crate) fn no_statement(name: &[u8]) -> Refusal<'_> {
    if name.is_empty() {
        return Refusal::new("26000", "unnamed prepared statement does not exist");
    }
    Refusal::of("26000", "prepared statement \"", name, "\" does not exist")
}

/// There is no portal of this name.
pub(crate) fn no_portal(name: &[u8]) -> Refusal<'_> {
    Refusal::of("34000", "portal \"", name, "\" does not exist")
}

/// The same of one that SQL names.
pub(crate) fn no_cursor(name: &[u8]) -> Refusal<'_> {
    Refusal::of("34000", "cursor \"", name, "\" does not exist")
}

/// There is a portal of this name.
pub(crate) fn portal_there(name: &[u8]) -> Refusal<'_> {
    Refusal::of("42P03", "cursor \"", name, "\" already exists")
}

/// The portal of this name was run, and returns no rows.
pub(crate) fn was_run(name: &[u8]) -> Refusal<'_> {
    Refusal::of("55000", "portal \"", name, "\" cannot be run")
}

/// This command of one or two words stands in no transaction.
pub(crate) fn no_transaction(command: &'static str, further: &'static str) -> Refusal<'static> {
    let further = further.as_bytes();
    Refusal::of(
        "25P01",
        command,
        further,
        " can only be used in transaction blocks",
    )
}

impl<'a> Refusal<'a> {
    /// An error whose message has no name.
    pub(crate) fn new(code: &'static str, message: &'static str) -> Refusal<'a> {
        Refusal::of(code, message, &[], "")
    }

    /// An error in whose message this name stands.
    pub(crate) fn of(
        code: &'static str,
        before: &'static str,
        name: &'a [u8],
        behind: &'static str,
    ) -> Refusal<'a> {
        Refusal {
            code,
            before,
            name,
            behind,
        }
    }

    fn message(self, out: &mut Outbox) -> Vec<u8> {
        let mut message = out.copy(self.before.as_bytes());
        out.keep(message.extend_from_slice(self.name));
        out.keep(message.extend_from_slice(self.behind.as_bytes()));
        message
    }
}

fn field(code: u8, value: &[u8]) -> ErrorField<'_> {
    ErrorField { code, value }
}

/// The fields that every error and notice has.
fn fields<'a>(severity: &'a str, code: &'a [u8], message: &'a [u8]) -> [ErrorField<'a>; 4] {
    [
        field(b'S', severity.as_bytes()),
        field(b'V', severity.as_bytes()),
        field(b'C', code),
        field(b'M', message),
    ]
}

/// Appends an error of this severity.
pub(crate) fn refuse_as(severity: &str, refusal: Refusal<'_>, out: &mut Outbox) {
    let message = refusal.message(out);
    let fields = fields(severity, refusal.code.as_bytes(), &message);
    let put = reply::error_response(&fields, &mut out.bytes);
    out.put(put);
}

/// Appends the error.
pub(crate) fn refuse(refusal: Refusal<'_>, out: &mut Outbox) {
    refuse_as("ERROR", refusal, out);
}

/// Appends a warning.
pub(crate) fn warn(warning: Refusal<'_>, out: &mut Outbox) {
    let message = warning.message(out);
    let fields = fields("WARNING", warning.code.as_bytes(), &message);
    let put = reply::notice_response(&fields, &mut out.bytes);
    out.put(put);
}

/// All fields of a report of the script.
fn fields_of<'r>(report: &'r Report, out: &mut Outbox) -> Vec<ErrorField<'r>> {
    let mut all = out.copy(&fields(report.severity, &report.code, &report.message));
    for detail in &report.details {
        out.add(&mut all, field(detail.code, &detail.value));
    }
    all
}

/// Appends a notice of the script.
pub(crate) fn put_notice(report: &Report, out: &mut Outbox) {
    let fields = fields_of(report, out);
    let put = reply::notice_response(&fields, &mut out.bytes);
    out.put(put);
}

/// Appends an error of the script.
pub(crate) fn put_error(report: &Report, out: &mut Outbox) {
    let fields = fields_of(report, out);
    let put = reply::error_response(&fields, &mut out.bytes);
    out.put(put);
}
