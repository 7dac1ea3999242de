//! How a listing looks, and which of its lines stand there.

ghost use Rattle.std.specs.Prelude.{◌≡◌, ◌++◌, Some, map, OnErr, OnOk, string_bytes};
ghost use Rattle.std.specs.Option.{option_map};
ghost use Rattle.pgtrace_lines.specs.Steps.{view_of};
ghost use Rattle.pgtrace_lines.specs.View.{color_named, color_of, has_word, is_listed, painted, shown};

use pgp_base::Memory;
use pgtool_line::line::add_line;
use pgtool_line::style::{Form, Style};
use std::alloc::AllocError;

/// How a listing looks.
#[derive(Clone, Copy)]
pub struct View<'a> {
    /// How a line is written.
    pub style: Style,
    /// The names of the messages that are listed. Where none is named, all are.
    pub only: &'a [&'a str],
    /// The names of those that aren't.
    pub except: &'a [&'a str],
    /// Whether lines of text that report an error are red, and those that report a notice yellow. Objects have no colour.
    pub colored: bool,
    /// How many microseconds after its request an answer of a recording comes at least that is listed.
    pub slower: u64,
}

const RED: &str = "\x1b[31m";

const YELLOW: &str = "\x1b[33m";

const UNCOLORED: &str = "\x1b[0m\n";

/// Adds a line with this name to the lines, if it is asked for, in its colour.
///
/// # Errors
///
/// Returns `AllocError` if there is no memory for it.
pub fn add_shown<A: Memory>(
    view: View<'_>,
    name: &str,
    line: &str,
    lines: &mut String<A>,
) -> Result<(), AllocError>
    ensures added { OnOk result (string_bytes lines.new ≡ string_bytes lines.old ++ shown (view_of view.entry) name.now line.now) }
    ensures lacks { OnErr result A.Lacks }
{
    if !is_listed(view, name) {
        return Ok(());
    }
    match color_of(view, name) {
        Some(color) => add_painted(color, line, lines),
        None => add_line(line, lines),
    }
}

/// The sequence of a terminal that begins the colour of a line with this name.
fn color_of(view: View<'_>, name: &str) -> Option<&'static str>
    ensures { option_map (λ color. color.now) result ≡ color_of (view_of view.entry) name.now }
{
    if !view.colored {
        return None;
    }
    match view.style.form {
        Form::Columns => color_named(name),
        Form::Json => None,
    }
}

/// The same of a line of text that has a colour where it is one of its names.
fn color_named(name: &str) -> Option<&'static str>
    ensures { option_map (λ color. color.now) result ≡ color_named name.now }
{
    if name == "ErrorResponse" || name == "fault" {
        Some(RED)
    } else if name == "NoticeResponse" {
        Some(YELLOW)
    } else {
        None
    }
}

/// Adds a line in a colour, which ends before its newline.
fn add_painted<A: Memory>(color: &str, line: &str, lines: &mut String<A>) -> Result<(), AllocError>
    ensures added { OnOk result (string_bytes lines.new ≡ string_bytes lines.old ++ painted (Some color.now) line.now) }
    ensures lacks { OnErr result A.Lacks }
{
    let Some(text) = line.strip_suffix('\n') else {
        return add_line(line, lines);
    };
    add_line(color, lines)?;
    add_line(text, lines)?;
    add_line(UNCOLORED, lines)
}

/// Whether messages of this name are listed.
pub fn is_listed(view: View<'_>, name: &str) -> bool
    ensures { result ≡ is_listed (view_of view.entry) name.now }
{
    (view.only.is_empty() || has_word(view.only, name)) && !has_word(view.except, name)
}

/// Whether the word is one of these.
pub(crate) fn has_word(has: &[&str], word: &str) -> bool
    ensures { result ≡ has_word (map (λ other. other.now) has.now) word.now }
{
    has.contains(&word)
}
