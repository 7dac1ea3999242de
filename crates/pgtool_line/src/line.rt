//! The parts of a line, each after a space, or in JSON after a comma where one belongs there.
#![tactic(auto, unfolding(crate::specs::Line::extended))]

ghost use Rattle.std.specs.Prelude.{◌≡◌, ◌∷◌, ◌++◌, [], pos, None, Some, OnErr, OnOk, codes, decimal, string_bytes};
ghost use Rattle.pgtool_line.specs.Line.{Length, Tag, Name, Refusal, Word, Number, Oid, Text, Value, Binary, Hidden, blanks, closing, followed, json_name, named, opening, right, type_name};
ghost use Rattle.std.specs.Option.{option_map};

use crate::nesting::{put_comma, put_string};
use crate::quote::{
    put_byte, put_bytes, put_cut_digits, put_cut_text, put_json, put_json_hex, put_value,
};
use crate::style::{Form, Style};
use crate::types::type_of;
use pgp_base::Memory;
use std::alloc::AllocError;

/// Adds a word of ours.
pub fn put_word<A: Memory>(style: Style, word: &str, line: &mut String<A>) -> Result<(), AllocError>
    ensures part { OnOk result (string_bytes line.new ≡ followed style (string_bytes line.old) (Word word.now ∷ [])) }
    ensures lacks { OnErr result A.Lacks }
{
    put_name(style, word.as_bytes(), line)
}

/// Adds a word that is given by its bytes.
pub fn put_name<A: Memory>(
    style: Style,
    word: &[u8],
    line: &mut String<A>,
) -> Result<(), AllocError>
    ensures part { OnOk result (string_bytes line.new ≡ followed style (string_bytes line.old) (Word word.now ∷ [])) }
    ensures lacks { OnErr result A.Lacks }
{
    match style.form {
        Form::Columns => {
            A::push_char(line, ' ')?;
            put_bytes(Form::Columns, word, line)
        }
        Form::Json => {
            put_comma(line)?;
            put_string(word, line)
        }
    }
}

/// Adds a number that has no sign.
pub fn put_number<A: Memory>(style: Style, n: u64, line: &mut String<A>) -> Result<(), AllocError>
    ensures part { OnOk result (string_bytes line.new ≡ followed style (string_bytes line.old) (Number (pos n) ∷ [])) }
    ensures lacks { OnErr result A.Lacks }
{
    match style.form {
        Form::Columns => A::push_shown(line, format_args!(" {n}")),
        Form::Json => {
            put_comma(line)?;
            A::push_shown(line, format_args!("{n}"))
        }
    }
}

/// Adds a number that may have a sign.
pub fn put_signed<A: Memory>(style: Style, n: i32, line: &mut String<A>) -> Result<(), AllocError>
    ensures part { OnOk result (string_bytes line.new ≡ followed style (string_bytes line.old) (Number n ∷ [])) }
    ensures lacks { OnErr result A.Lacks }
{
    match style.form {
        Form::Columns => A::push_shown(line, format_args!(" {n}")),
        Form::Json => {
            put_comma(line)?;
            A::push_shown(line, format_args!("{n}"))
        }
    }
}

/// Adds a type.
pub fn put_type<A: Memory>(style: Style, oid: u32, line: &mut String<A>) -> Result<(), AllocError>
    ensures part { OnOk result (string_bytes line.new ≡ followed style (string_bytes line.old) (Oid oid ∷ [])) }
    ensures lacks { OnErr result A.Lacks }
{
    match style.form {
        Form::Columns => {
            A::push_shown(line, format_args!(" {oid}"))?;
            put_type_name(type_of(oid), line)
        }
        Form::Json => {
            put_comma(line)?;
            A::push_str(line, "{\"oid\":")?;
            A::push_shown(line, format_args!("{oid}"))?;
            put_json_name(type_of(oid), line)
        }
    }
}

/// Adds the name of a type after its number.
fn put_type_name<A: Memory>(name: Option<&str>, line: &mut String<A>) -> Result<(), AllocError>
    ensures text { OnOk result (string_bytes line.new ≡ string_bytes line.old ++ type_name (option_map (λ name. name.now) name.entry)) }
    ensures lacks { OnErr result A.Lacks }
{
    match name {
        Some(name) => {
            A::push_char(line, ' ')?;
            put_bytes(Form::Columns, name.as_bytes(), line)
        }
        None => Ok(()),
    }
}

/// Adds it in JSON, with the end of the type's object.
fn put_json_name<A: Memory>(name: Option<&str>, line: &mut String<A>) -> Result<(), AllocError>
    ensures text { OnOk result (string_bytes line.new ≡ string_bytes line.old ++ json_name (option_map (λ name. name.now) name.entry)) }
    ensures lacks { OnErr result A.Lacks }
{
    match name {
        Some(name) => {
            A::push_str(line, ",\"name\":")?;
            put_string(name.as_bytes(), line)?;
            A::push_char(line, '}')
        }
        None => A::push_char(line, '}'),
    }
}

/// Adds how long a frame is, in its column.
pub fn put_frame_length<A: Memory>(
    style: Style,
    len: usize,
    line: &mut String<A>,
) -> Result<(), AllocError>
    ensures part { OnOk result (string_bytes line.new ≡ followed style (string_bytes line.old) (Length len ∷ [])) }
    ensures lacks { OnErr result A.Lacks }
{
    match style.form {
        Form::Columns => put_length(len, line),
        Form::Json => {
            put_comma(line)?;
            A::push_str(line, "\"length\":")?;
            A::push_shown(line, format_args!("{len}"))
        }
    }
}

/// Adds a number at the right of 8 characters, and a space before it.
fn put_length<A: Memory>(len: usize, line: &mut String<A>) -> Result<(), AllocError>
    ensures text { OnOk result (string_bytes line.new ≡ string_bytes line.old ++ 32 ∷ right 8 len) }
    ensures lacks { OnErr result A.Lacks }
{
    A::push_shown(line, format_args!(" {len:>8}"))
}

/// Adds the place of a frame, in its column.
pub fn put_frame_place<A: Memory>(
    style: Style,
    place: u64,
    line: &mut String<A>,
) -> Result<(), AllocError>
    ensures text { OnOk result (string_bytes line.new ≡ string_bytes line.old ++ opening style place) }
    ensures lacks { OnErr result A.Lacks }
{
    match style.form {
        Form::Columns => put_place(place, line),
        Form::Json => {
            A::push_str(line, "{\"offset\":")?;
            A::push_shown(line, format_args!("{place}"))
        }
    }
}

/// Adds a number at the right of 10 characters.
fn put_place<A: Memory>(place: u64, line: &mut String<A>) -> Result<(), AllocError>
    ensures text { OnOk result (string_bytes line.new ≡ string_bytes line.old ++ right 10 place) }
    ensures lacks { OnErr result A.Lacks }
{
    A::push_shown(line, format_args!("{place:>10}"))
}

/// Ends a line.
pub fn put_end<A: Memory>(style: Style, line: &mut String<A>) -> Result<(), AllocError>
    ensures text { OnOk result (string_bytes line.new ≡ string_bytes line.old ++ closing style ++ 10 ∷ []) }
    ensures lacks { OnErr result A.Lacks }
{
    match style.form {
        Form::Columns => A::push_char(line, '\n'),
        Form::Json => A::push_str(line, "}\n"),
    }
}

/// Adds the name of a message: by itself, or in a column where more stands after it.
pub fn put_called<A: Memory>(
    style: Style,
    alone: bool,
    name: &str,
    line: &mut String<A>,
) -> Result<(), AllocError>
    ensures part { OnOk result (string_bytes line.new ≡ followed style (string_bytes line.old) (Name alone name.now ∷ [])) }
    ensures lacks { OnErr result A.Lacks }
{
    match style.form {
        Form::Columns => {
            A::push_char(line, ' ')?;
            put_named(alone, name, line)
        }
        Form::Json => {
            put_comma(line)?;
            A::push_str(line, "\"name\":")?;
            put_string(name.as_bytes(), line)
        }
    }
}

/// Adds a name, and blanks where more stands after it.
fn put_named<A: Memory>(alone: bool, name: &str, line: &mut String<A>) -> Result<(), AllocError>
    ensures text { OnOk result (string_bytes line.new ≡ string_bytes line.old ++ named alone name.now) }
    ensures lacks { OnErr result A.Lacks }
{
    put_bytes(Form::Columns, name.as_bytes(), line)?;
    if alone {
        Ok(())
    } else {
        put_blanks(20usize.saturating_sub(name.len()), line)
    }
}

/// Adds so many blanks.
pub fn put_blanks<A: Memory>(len: usize, line: &mut String<A>) -> Result<(), AllocError>
    ensures text { OnOk result (string_bytes line.new ≡ string_bytes line.old ++ blanks len) }
    ensures lacks { OnErr result A.Lacks }
{
    for _ in 0..len {
        A::push_char(line, ' ')?;
    }
    Ok(())
}

/// Adds the number of an error, after which its name stands.
pub fn put_refusal<A: Memory>(
    style: Style,
    number: u64,
    line: &mut String<A>,
) -> Result<(), AllocError>
    ensures part { OnOk result (string_bytes line.new ≡ followed style (string_bytes line.old) (Refusal number ∷ [])) }
    ensures lacks { OnErr result A.Lacks }
{
    match style.form {
        Form::Columns => A::push_shown(line, format_args!(" fault {number}")),
        Form::Json => {
            put_comma(line)?;
            put_fault(number, line)
        }
    }
}

/// Adds the beginning of an error's object: its number, and that its name comes.
fn put_fault<A: Memory>(number: u64, line: &mut String<A>) -> Result<(), AllocError>
    ensures text { OnOk result (string_bytes line.new ≡ string_bytes line.old ++ codes "\"fault\":{\"number\":" ++ decimal number ++ codes ",\"name\":") }
    ensures lacks { OnErr result A.Lacks }
{
    A::push_str(line, "\"fault\":{\"number\":")?;
    put_numbered(number, line)
}

/// Adds a number, and that a name comes.
fn put_numbered<A: Memory>(number: u64, line: &mut String<A>) -> Result<(), AllocError>
    ensures text { OnOk result (string_bytes line.new ≡ string_bytes line.old ++ decimal number ++ codes ",\"name\":") }
    ensures lacks { OnErr result A.Lacks }
{
    A::push_shown(line, format_args!("{number}"))?;
    A::push_str(line, ",\"name\":")
}

/// Adds the tag of a frame.
pub fn put_tag<A: Memory>(style: Style, tag: u8, line: &mut String<A>) -> Result<(), AllocError>
    ensures part { OnOk result (string_bytes line.new ≡ followed style (string_bytes line.old) (Tag tag ∷ [])) }
    ensures lacks { OnErr result A.Lacks }
{
    match style.form {
        Form::Columns => {
            A::push_char(line, ' ')?;
            put_byte(Form::Columns, tag, line)
        }
        Form::Json => {
            put_comma(line)?;
            A::push_str(line, "\"tag\":")?;
            put_string(&[tag], line)
        }
    }
}

/// Adds a text, up to the limit.
pub fn put_text<A: Memory>(
    style: Style,
    text: &[u8],
    line: &mut String<A>,
) -> Result<(), AllocError>
    ensures part { OnOk result (string_bytes line.new ≡ followed style (string_bytes line.old) (Text text.now ∷ [])) }
    ensures lacks { OnErr result A.Lacks }
{
    match style.form {
        Form::Columns => {
            A::push_char(line, ' ')?;
            put_cut_text(style.limit, text, line)
        }
        Form::Json => {
            put_comma(line)?;
            put_json(style.limit, text, line)
        }
    }
}

/// Adds a value of a row, up to the limit.
pub fn put_some<A: Memory>(
    style: Style,
    bytes: &[u8],
    line: &mut String<A>,
) -> Result<(), AllocError>
    ensures part { OnOk result (string_bytes line.new ≡ followed style (string_bytes line.old) (Value (Some bytes.now) ∷ [])) }
    ensures lacks { OnErr result A.Lacks }
{
    match style.form {
        Form::Columns => {
            A::push_char(line, ' ')?;
            put_value(style.limit, bytes, line)
        }
        Form::Json => {
            put_comma(line)?;
            put_json(style.limit, bytes, line)
        }
    }
}

/// Adds the hex digits of a value in binary format, up to the limit.
pub fn put_unread<A: Memory>(
    style: Style,
    bytes: &[u8],
    line: &mut String<A>,
) -> Result<(), AllocError>
    ensures part { OnOk result (string_bytes line.new ≡ followed style (string_bytes line.old) (Binary bytes.now ∷ [])) }
    ensures lacks { OnErr result A.Lacks }
{
    match style.form {
        Form::Columns => {
            A::push_char(line, ' ')?;
            put_cut_digits(style.limit, bytes, line)
        }
        Form::Json => {
            put_comma(line)?;
            put_json_hex(style.limit, bytes, line)
        }
    }
}

/// Adds a null.
pub fn put_null<A: Memory>(style: Style, line: &mut String<A>) -> Result<(), AllocError>
    ensures part { OnOk result (string_bytes line.new ≡ followed style (string_bytes line.old) (Value None ∷ [])) }
    ensures lacks { OnErr result A.Lacks }
{
    match style.form {
        Form::Columns => A::push_str(line, " NULL"),
        Form::Json => {
            put_comma(line)?;
            A::push_str(line, "null")
        }
    }
}

/// Adds how long a secret is.
pub fn put_hidden<A: Memory>(
    style: Style,
    len: usize,
    line: &mut String<A>,
) -> Result<(), AllocError>
    ensures part { OnOk result (string_bytes line.new ≡ followed style (string_bytes line.old) (Hidden len ∷ [])) }
    ensures lacks { OnErr result A.Lacks }
{
    match style.form {
        Form::Columns => A::push_shown(line, format_args!(" ({len} bytes)")),
        Form::Json => {
            put_comma(line)?;
            A::push_shown(line, format_args!("{{\"bytes\":{len}}}"))
        }
    }
}

/// Adds a line to others.
pub fn add_line<A: Memory>(line: &str, lines: &mut String<A>) -> Result<(), AllocError>
    ensures added { OnOk result (string_bytes lines.new ≡ string_bytes lines.old ++ line.now) }
    ensures lacks { OnErr result A.Lacks }
{
    A::push_str(lines, line)
}
