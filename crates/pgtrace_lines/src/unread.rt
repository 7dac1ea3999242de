//! What the line of a frame says that `pgp_message` doesn't read.

ghost use Rattle.std.specs.Prelude.{◌≡◌, ◌∷◌, [], pos, false, length, None, OnErr, OnOk, codes, string_bytes};
ghost use Rattle.pgtrace_lines.specs.Common.{option_map, Count, Key, Name, Number, followed, key};
ghost use Rattle.pgtrace_lines.specs.Listing.{unread_name};
ghost use Rattle.pgtrace_lines.specs.PlainBody.{numbers_of};
ghost use Rattle.pgtrace_lines.specs.Shown.{list_of, number_part};
ghost use Rattle.pgtrace_lines.specs.Unread.{ShowsCopyBoth, ShowsResult, ShowsUnread, copy_parts, result_parts};

use crate::body::put_bare;
use crate::lists::put_refused;
use crate::plain_body::{call_result, copy_both};
use pgp_base::reading::uint16_at;
use pgp_base::{Error, Memory};
use pgtool_line::line::{put_called, put_null, put_number, put_some};
use pgtool_line::nesting::{end_list, put_count, put_key};
use pgtool_line::style::Style;
use std::alloc::AllocError;

/// Adds what a frame of this tag says: its parts where they are known, or why it is rejected.
pub fn put_unread<A: Memory>(
    style: Style,
    tag: u8,
    body: &[u8],
    refusal: &Error,
    line: &mut String<A>,
) -> Result<(), AllocError>
    ensures says { OnOk result (ShowsUnread style tag body.now refusal.now (string_bytes line.old) (string_bytes line.new)) }
    ensures lacks { OnErr result A.Lacks }
{
    match tag {
        b'V' => put_call_result(style, body, line),
        b'W' => put_copy_both(style, body, line),
        _ => put_refused(style, refusal, line),
    }
}

/// The name in the line of a frame of this tag.
pub fn unread_name(tag: u8) -> &'static str
    ensures { result.now ≡ unread_name tag }
{
    match tag {
        b'V' => "FunctionCallResponse",
        b'W' => "CopyBothResponse",
        _ => "fault",
    }
}

/// Adds the name of a FunctionCallResponse and its result.
fn put_call_result<A: Memory>(
    style: Style,
    body: &[u8],
    line: &mut String<A>,
) -> Result<(), AllocError>
    ensures says { OnOk result (ShowsResult style body.now (followed style (string_bytes line.old) (Name false (codes "FunctionCallResponse") ∷ [])) (string_bytes line.new)) }
    ensures lacks { OnErr result A.Lacks }
{
    put_called(style, false, "FunctionCallResponse", line)?;
    match call_result(body) {
        Some(value) => put_result(style, value, line),
        None => put_bare(style, body, line),
    }
}

/// Adds the result of a function, or that it is a null.
fn put_result<A: Memory>(
    style: Style,
    value: Option<&[u8]>,
    line: &mut String<A>,
) -> Result<(), AllocError>
    ensures parts { OnOk result (string_bytes line.new ≡ followed style (string_bytes line.old) (result_parts (option_map (λ b. b.now) value.entry))) }
    ensures lacks { OnErr result A.Lacks }
{
    put_key(style, "result", "result", line)?;
    match value {
        Some(bytes) => put_some(style, bytes, line),
        None => put_null(style, line),
    }
}

/// Adds the name of a CopyBothResponse and its formats.
fn put_copy_both<A: Memory>(
    style: Style,
    body: &[u8],
    line: &mut String<A>,
) -> Result<(), AllocError>
    ensures says { OnOk result (ShowsCopyBoth style body.now (followed style (string_bytes line.old) (Name false (codes "CopyBothResponse") ∷ [])) (string_bytes line.new)) }
    ensures lacks { OnErr result A.Lacks }
{
    put_called(style, false, "CopyBothResponse", line)?;
    match copy_both(body) {
        Some((format, formats)) => put_formats(style, format, formats, line),
        None => put_bare(style, body, line),
    }
}

/// Adds a format, and those of the columns, which these bytes spell.
fn put_formats<A: Memory>(
    style: Style,
    format: u8,
    formats: &[u8],
    line: &mut String<A>,
) -> Result<(), AllocError>
    ensures parts { OnOk result (string_bytes line.new ≡ followed style (string_bytes line.old) (copy_parts format (numbers_of formats.now))) }
    ensures lacks { OnErr result A.Lacks }
{
    put_format(style, format, line)?;
    put_columns(style, formats, line)
}

fn put_format<A: Memory>(style: Style, format: u8, line: &mut String<A>) -> Result<(), AllocError>
    ensures parts { OnOk result (string_bytes line.new ≡ followed style (string_bytes line.old) (key (codes "format") ∷ Number (pos format) ∷ [])) }
    ensures lacks { OnErr result A.Lacks }
{
    put_key(style, "format", "format", line)?;
    put_number(style, format as u64, line)
}

#[tactic(auto, using(crate::proofs::PlainBodies::numbers_counted))]
fn put_columns<A: Memory>(
    style: Style,
    formats: &[u8],
    line: &mut String<A>,
) -> Result<(), AllocError>
    ensures parts { OnOk result (string_bytes line.new ≡ followed style (string_bytes line.old) (Key (codes "columns") (codes "column_formats") ∷ Count (length (numbers_of formats.now)) ∷ list_of number_part (numbers_of formats.now) None)) }
    ensures lacks { OnErr result A.Lacks }
{
    put_key(style, "columns", "column_formats", line)?;
    put_count(style, count(formats), line)?;
    put_numbers(style, formats, line)
}

/// How many numbers the bytes spell.
#[tactic(auto, using(crate::proofs::PlainBodies::numbers_counted))]
fn count(bytes: &[u8]) -> u64
    ensures { result ≡ length (numbers_of bytes.now) }
{
    (bytes.len() / 2) as u64
}

/// Adds the numbers that the bytes spell.
#[tactic(auto, using(crate::proofs::Numbers::number_more, crate::proofs::Numbers::numbers_end, crate::proofs::Numbers::shorter))]
fn put_numbers<A: Memory>(
    style: Style,
    bytes: &[u8],
    line: &mut String<A>,
) -> Result<(), AllocError>
    ensures list { OnOk result (string_bytes line.new ≡ followed style (string_bytes line.old) (list_of number_part (numbers_of bytes.now) None)) }
    ensures lacks { OnErr result A.Lacks }
{
    let mut rest = bytes;
    'numbers: loop {
        match uint16_at(rest) {
            Ok((n, more)) => {
                put_number(style, n as u64, line)?;
                rest = more;
            }
            Err(_) => return end_list(style, line),
        }
    }
}
