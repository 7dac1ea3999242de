//! What a mark says of requests, in words.

ghost use Rattle.std.specs.Prelude.{◌≡◌, ◌++◌, OnErr, OnOk, string_bytes};
ghost use Rattle.pgtrace_session.specs.Marks.{later, members, millis, padded, says, width_of, word};

use crate::line_mark::put_since;
use crate::placement::Told;
use pgp_base::Memory;
use pgtool_line::line::put_blanks;
use pgtool_line::style::Form;
use pgtrace_summary::MapMemory;
use std::alloc::AllocError;

/// How many characters a word takes.
fn width_of(told: Told) -> usize
    ensures { result ≡ width_of told }
{
    match told {
        Told::Uncounted => 0,
        _ => 16,
    }
}

/// Writes a mark with what it says of requests behind it.
pub fn put_stamp<A: MapMemory>(
    form: Form,
    mark: &str,
    told: Told,
    part: &mut String<A>,
    text: &mut String<A>,
) -> Result<(), AllocError>
    ensures text { OnOk result (string_bytes text.new ≡ mark.now ++ word form told) }
    ensures lacks { OnErr result A.Lacks }
{
    text.clear();
    A::push_str(text, mark)?;
    put_word(form, told, part, text)
}

/// Adds what a mark says of requests.
pub fn put_word<A: MapMemory>(
    form: Form,
    told: Told,
    part: &mut String<A>,
    text: &mut String<A>,
) -> Result<(), AllocError>
    ensures text { OnOk result (string_bytes text.new ≡ string_bytes text.old ++ word form told) }
    ensures lacks { OnErr result A.Lacks }
{
    match form {
        Form::Columns => {
            part.clear();
            put_says(told, part)?;
            put_padded(width_of(told), part.as_str(), text)
        }
        Form::Json => put_members(told, text),
    }
}

/// Adds a text, and blanks up to the width.
fn put_padded<A: MapMemory>(
    width: usize,
    said: &str,
    text: &mut String<A>,
) -> Result<(), AllocError>
    ensures text { OnOk result (string_bytes text.new ≡ string_bytes text.old ++ padded width said.now) }
    ensures lacks { OnErr result A.Lacks }
{
    A::push_str(text, said)?;
    put_blanks(width.saturating_sub(said.len()), text)
}

/// Adds it as text.
fn put_says<A: MapMemory>(told: Told, text: &mut String<A>) -> Result<(), AllocError>
    ensures text { OnOk result (string_bytes text.new ≡ string_bytes text.old ++ says told) }
    ensures lacks { OnErr result A.Lacks }
{
    match told {
        Told::Number(number) => A::push_shown(text, format_args!("#{number}")),
        Told::Answer { number, sent, now } => {
            A::push_shown(text, format_args!("#{number} "))?;
            put_later(sent, now, text)
        }
        Told::Lost => A::push_str(text, "#?"),
        Told::Nothing | Told::Uncounted => Ok(()),
    }
}

/// Adds it as members of an object.
fn put_members<A: MapMemory>(told: Told, text: &mut String<A>) -> Result<(), AllocError>
    ensures text { OnOk result (string_bytes text.new ≡ string_bytes text.old ++ members told) }
    ensures lacks { OnErr result A.Lacks }
{
    match told {
        Told::Number(number) => A::push_shown(text, format_args!("\"request\":{number},")),
        Told::Answer { number, sent, now } => {
            A::push_shown(text, format_args!("\"request\":{number},\"after\":"))?;
            put_since(sent, now, text)?;
            A::push_str(text, ",")
        }
        Told::Lost => A::push_str(text, "\"request\":\"?\","),
        Told::Nothing | Told::Uncounted => Ok(()),
    }
}

/// Adds the milliseconds from one time to another, with their sign.
fn put_later<A: MapMemory>(sent: u64, now: u64, text: &mut String<A>) -> Result<(), AllocError>
    ensures text { OnOk result (string_bytes text.new ≡ string_bytes text.old ++ later sent now) }
    ensures lacks { OnErr result A.Lacks }
{
    if now < sent {
        A::push_char(text, '-')?;
        put_millis(sent - now, text)
    } else {
        A::push_char(text, '+')?;
        put_millis(now - sent, text)
    }
}

/// Adds so many microseconds as milliseconds.
#[tactic(auto, unfolding(crate::specs::Marks::millis))]
pub fn put_millis<A: MapMemory>(n: u64, text: &mut String<A>) -> Result<(), AllocError>
    ensures text { OnOk result (string_bytes text.new ≡ string_bytes text.old ++ millis n) }
    ensures lacks { OnErr result A.Lacks }
{
    let whole = n / 1_000;
    let a = n / 100 % 10;
    let b = n / 10 % 10;
    let c = n % 10;
    A::push_shown(text, format_args!("{whole}.{a}{b}{c}"))
}
