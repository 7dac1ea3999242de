//! What gives a JSON object its names, lists and objects. In a line of text a name is a word, and the rest isn't shown.
#![tactic(auto, unfolding(crate::specs::Line::extended))]

ghost use Rattle.std.specs.Prelude.{◌≡◌, ◌∷◌, ◌++◌, ◌-◌, [], length, slice_get, OnErr, OnOk, string_bytes};
ghost use Rattle.pgtool_line.specs.Line.{Count, Key, ListBegins, ListEnds, Member, ObjectBegins, ObjectEnds, comma, followed, is_opening, key, string};

use crate::quote::put_bytes;
use crate::style::{Form, Style};
use pgp_base::Memory;
use std::alloc::AllocError;

/// Adds a comma, unless a list, an object or the value of a name begins there.
#[tactic(auto, unfolding(crate::specs::Line::comma))]
pub fn put_comma<A: Memory>(line: &mut String<A>) -> Result<(), AllocError>
    ensures comma { OnOk result (string_bytes line.new ≡ string_bytes line.old ++ comma (string_bytes line.old)) }
    ensures lacks { OnErr result A.Lacks }
{
    if is_opened(line.as_str()) {
        return Ok(());
    }
    A::push_char(line, ',')
}

/// Whether a list, an object or the value of a name begins after the text.
fn is_opened(text: &str) -> bool
    ensures { result ≡ is_opening (slice_get text.now (length text.now - 1)) }
{
    match text.as_bytes().last() {
        Some(byte) => *byte == b'[' || *byte == b'{' || *byte == b':',
        None => false,
    }
}

/// Adds a word of ours in the quotes of JSON.
pub fn put_string<A: Memory>(word: &[u8], line: &mut String<A>) -> Result<(), AllocError>
    ensures text { OnOk result (string_bytes line.new ≡ string_bytes line.old ++ string word.now) }
    ensures lacks { OnErr result A.Lacks }
{
    A::push_char(line, '"')?;
    put_bytes(Form::Json, word, line)?;
    A::push_char(line, '"')
}

/// Adds what stands after it: by a word, or by a name in JSON.
pub fn put_key<A: Memory>(
    style: Style,
    word: &str,
    name: &str,
    line: &mut String<A>,
) -> Result<(), AllocError>
    ensures part { OnOk result (string_bytes line.new ≡ followed style (string_bytes line.old) (Key word.now name.now ∷ [])) }
    ensures lacks { OnErr result A.Lacks }
{
    put_key_of(style, word.as_bytes(), name.as_bytes(), line)
}

/// Adds what stands after it by a byte.
pub fn put_byte_key<A: Memory>(
    style: Style,
    byte: &[u8],
    line: &mut String<A>,
) -> Result<(), AllocError>
    ensures part { OnOk result (string_bytes line.new ≡ followed style (string_bytes line.old) (key byte.now ∷ [])) }
    ensures lacks { OnErr result A.Lacks }
{
    put_key_of(style, byte, byte, line)
}

fn put_key_of<A: Memory>(
    style: Style,
    word: &[u8],
    name: &[u8],
    line: &mut String<A>,
) -> Result<(), AllocError>
    ensures part { OnOk result (string_bytes line.new ≡ followed style (string_bytes line.old) (Key word.now name.now ∷ [])) }
    ensures lacks { OnErr result A.Lacks }
{
    match style.form {
        Form::Columns => {
            A::push_char(line, ' ')?;
            put_bytes(Form::Columns, word, line)
        }
        Form::Json => {
            put_comma(line)?;
            put_name_of(name, line)
        }
    }
}

/// Adds a name in JSON, and its colon.
fn put_name_of<A: Memory>(name: &[u8], line: &mut String<A>) -> Result<(), AllocError>
    ensures text { OnOk result (string_bytes line.new ≡ string_bytes line.old ++ string name.now ++ 58 ∷ []) }
    ensures lacks { OnErr result A.Lacks }
{
    put_string(name, line)?;
    A::push_char(line, ':')
}

/// Adds the name of what stands after it, in JSON alone.
pub fn put_member<A: Memory>(
    style: Style,
    name: &str,
    line: &mut String<A>,
) -> Result<(), AllocError>
    ensures part { OnOk result (string_bytes line.new ≡ followed style (string_bytes line.old) (Member name.now ∷ [])) }
    ensures lacks { OnErr result A.Lacks }
{
    match style.form {
        Form::Columns => Ok(()),
        Form::Json => {
            put_comma(line)?;
            put_name_of(name.as_bytes(), line)
        }
    }
}

/// Begins a list of so many items, a number that JSON leaves out.
pub fn put_count<A: Memory>(style: Style, n: u64, line: &mut String<A>) -> Result<(), AllocError>
    ensures part { OnOk result (string_bytes line.new ≡ followed style (string_bytes line.old) (Count n ∷ [])) }
    ensures lacks { OnErr result A.Lacks }
{
    match style.form {
        Form::Columns => A::push_shown(line, format_args!(" {n}")),
        Form::Json => {
            put_comma(line)?;
            A::push_char(line, '[')
        }
    }
}

/// Begins a list.
pub fn begin_list<A: Memory>(style: Style, line: &mut String<A>) -> Result<(), AllocError>
    ensures part { OnOk result (string_bytes line.new ≡ followed style (string_bytes line.old) (ListBegins ∷ [])) }
    ensures lacks { OnErr result A.Lacks }
{
    match style.form {
        Form::Columns => Ok(()),
        Form::Json => {
            put_comma(line)?;
            A::push_char(line, '[')
        }
    }
}

/// Ends a list.
pub fn end_list<A: Memory>(style: Style, line: &mut String<A>) -> Result<(), AllocError>
    ensures part { OnOk result (string_bytes line.new ≡ followed style (string_bytes line.old) (ListEnds ∷ [])) }
    ensures lacks { OnErr result A.Lacks }
{
    match style.form {
        Form::Columns => Ok(()),
        Form::Json => A::push_char(line, ']'),
    }
}

/// Begins an object.
pub fn begin_object<A: Memory>(style: Style, line: &mut String<A>) -> Result<(), AllocError>
    ensures part { OnOk result (string_bytes line.new ≡ followed style (string_bytes line.old) (ObjectBegins ∷ [])) }
    ensures lacks { OnErr result A.Lacks }
{
    match style.form {
        Form::Columns => Ok(()),
        Form::Json => {
            put_comma(line)?;
            A::push_char(line, '{')
        }
    }
}

/// Ends an object.
pub fn end_object<A: Memory>(style: Style, line: &mut String<A>) -> Result<(), AllocError>
    ensures part { OnOk result (string_bytes line.new ≡ followed style (string_bytes line.old) (ObjectEnds ∷ [])) }
    ensures lacks { OnErr result A.Lacks }
{
    match style.form {
        Form::Columns => Ok(()),
        Form::Json => A::push_char(line, '}'),
    }
}
