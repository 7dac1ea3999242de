//! The mark before a line: when its message was whole, and who sent it.

ghost use Rattle.std.specs.Prelude.{◌≡◌, ◌++◌, OnErr, OnOk, string_bytes};
ghost use Rattle.pgtrace_session.specs.Marks.{IsMark, between, last_mark, mark, marked, member, number, since};
ghost use Rattle.pgtrace_session.specs.Steps.{AddsTime, is_date};

use crate::chunk::Sender;
use crate::instant::{put_fraction, put_instant};
use crate::start::{Start, origin, time_width};
use bytes::BytesMut;
use pgp_base::Memory;
use pgtool_line::line::{add_line, put_blanks};
use pgtool_line::style::Form;
use pgtrace_summary::MapMemory;
use std::alloc::AllocError;

/// The least number of characters of seconds.
const WIDTH: usize = 12;

/// Writes the mark of a message that came at a time, by way of a buffer for the text of its date, and one for its time.
pub fn put_mark<A: MapMemory>(
    form: Form,
    sender: Sender,
    start: Start,
    micros: u64,
    buffer: &mut BytesMut<A>,
    time: &mut String<A>,
    text: &mut String<A>,
) -> Result<(), AllocError>
    ensures is { OnOk result (IsMark form sender start micros (string_bytes text.new)) }
    ensures lacks { OnErr result A.Lacks }
{
    time.clear();
    put_time(form, start, micros, buffer, time)?;
    text.clear();
    put_beside(form, sender, time.as_str(), text)
}

/// Adds a time.
fn put_time<A: MapMemory>(
    form: Form,
    start: Start,
    micros: u64,
    buffer: &mut BytesMut<A>,
    text: &mut String<A>,
) -> Result<(), AllocError>
    ensures adds { OnOk result (AddsTime form start micros (string_bytes text.old) (string_bytes text.new)) }
    ensures lacks { OnErr result A.Lacks }
{
    if is_date(form, start) {
        put_instant(micros, buffer, text)
    } else {
        put_since(origin(start, micros), micros, text)
    }
}

/// Whether a time is shown as a date.
fn is_date(form: Form, start: Start) -> bool
    ensures { result ≡ is_date form start }
{
    match form {
        Form::Columns => matches!(start, Start::Dated),
        Form::Json => false,
    }
}

/// Adds the seconds from one time to another.
pub fn put_since<A: MapMemory>(
    start: u64,
    micros: u64,
    text: &mut String<A>,
) -> Result<(), AllocError>
    ensures text { OnOk result (string_bytes text.new ≡ string_bytes text.old ++ since start micros) }
    ensures lacks { OnErr result A.Lacks }
{
    if micros < start {
        A::push_char(text, '-')?;
        put_number(start - micros, text)
    } else {
        put_number(micros - start, text)
    }
}

/// Adds so many microseconds as seconds.
#[tactic(auto, unfolding(crate::specs::Marks::number))]
pub fn put_number<A: MapMemory>(n: u64, text: &mut String<A>) -> Result<(), AllocError>
    ensures text { OnOk result (string_bytes text.new ≡ string_bytes text.old ++ number n) }
    ensures lacks { OnErr result A.Lacks }
{
    let seconds = n / 1_000_000;
    A::push_shown(text, format_args!("{seconds}"))?;
    put_fraction(n, text)
}

/// Adds a mark with this time.
fn put_beside<A: MapMemory>(
    form: Form,
    sender: Sender,
    time: &str,
    text: &mut String<A>,
) -> Result<(), AllocError>
    ensures text { OnOk result (string_bytes text.new ≡ string_bytes text.old ++ mark form sender time.now) }
    ensures lacks { OnErr result A.Lacks }
{
    match form {
        Form::Columns => {
            put_blanks(WIDTH.saturating_sub(time.len()), text)?;
            A::push_str(text, time)?;
            A::push_str(text, arrow_of(sender))
        }
        Form::Json => {
            A::push_str(text, "\"time\":")?;
            A::push_str(text, time)?;
            A::push_str(text, member_of(sender))
        }
    }
}

/// The mark of a line that says what is left.
pub fn put_last_mark<A: MapMemory>(
    form: Form,
    start: Start,
    sender: Sender,
    text: &mut String<A>,
) -> Result<(), AllocError>
    ensures text { OnOk result (string_bytes text.new ≡ last_mark form start sender) }
    ensures lacks { OnErr result A.Lacks }
{
    text.clear();
    match form {
        Form::Columns => {
            put_blanks(time_width(start), text)?;
            A::push_str(text, arrow_of(sender))
        }
        Form::Json => put_beside(form, sender, "null", text),
    }
}

/// The arrow of a side, between spaces.
fn arrow_of(sender: Sender) -> &'static str
    ensures { result.now ≡ between sender }
{
    match sender {
        Sender::Client => " > ",
        Sender::Server => " < ",
    }
}

/// The member of an object that says who sent its message, with commas around it.
fn member_of(sender: Sender) -> &'static str
    ensures { result.now ≡ member sender }
{
    match sender {
        Sender::Client => ",\"from\":\"client\",",
        Sender::Server => ",\"from\":\"server\",",
    }
}

/// Writes a line with a mark: before it, or as the first members of its object.
pub fn put_marked<A: MapMemory>(
    form: Form,
    mark: &str,
    line: &str,
    text: &mut String<A>,
) -> Result<(), AllocError>
    ensures text { OnOk result (string_bytes text.new ≡ marked form mark.now line.now) }
    ensures lacks { OnErr result A.Lacks }
{
    text.clear();
    match form {
        Form::Columns => put_both(mark, line, text),
        Form::Json => put_inside(mark, line, text),
    }
}

/// Adds one text after the other.
fn put_both<A: MapMemory>(mark: &str, line: &str, text: &mut String<A>) -> Result<(), AllocError>
    ensures text { OnOk result (string_bytes text.new ≡ string_bytes text.old ++ mark.now ++ line.now) }
    ensures lacks { OnErr result A.Lacks }
{
    add_line(mark, text)?;
    add_line(line, text)
}

/// Adds an object with the members of a mark first.
fn put_inside<A: MapMemory>(mark: &str, line: &str, text: &mut String<A>) -> Result<(), AllocError>
    ensures text { OnOk result (string_bytes text.new ≡ string_bytes text.old ++ marked Form.Json mark.now line.now) }
    ensures lacks { OnErr result A.Lacks }
{
    let Some(members) = line.strip_prefix('{') else {
        return put_both(mark, line, text);
    };
    A::push_char(text, '{')?;
    put_both(mark, members, text)
}
