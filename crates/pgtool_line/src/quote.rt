//! Bytes in a line, by characters that a terminal prints.
#![tactic(auto, using(crate::proofs::Escapes::whole_text, crate::proofs::Escapes::plain_more, crate::proofs::Escapes::run_added, crate::proofs::Escapes::char_added, crate::proofs::Escapes::all_added, crate::proofs::Escapes::is_one, crate::proofs::Escapes::is_none))]

ghost use Rattle.std.specs.Prelude.{◌≡◌, ◌⊎◌, ◌≤◌, ◌<◌, ◌∷◌, ◌++◌, [], drop, length, take, true, IfOk, OnErr, OnOk, string_bytes, codes, decimal};
ghost use Rattle.std.specs.List.{flat_map, list_all, prefix_len};
ghost use Rattle.std.specs.Str.{IsUtf8};
ghost use Rattle.pgtool_line.specs.Quoting.{broken, digits, escaped, escaped_at, escaped_byte, escaped_char, hex_byte, hex_escape, is_text, json_digits, json_hex, json_text, json_value, long, quoted, unit, units, unprinted, up_to, value};
ghost use Rattle.pgtool_line.specs.declared.style.Form.TheVariants.{Columns, Json};
ghost use Rattle.pgtool_line.specs.Plain.{escaped_text, is_plain};

use crate::characters::{is_printable, is_visible};
use crate::hex::{put_ascii, put_digits, put_escape, put_hex, put_hexes};
use crate::style::Form;
use pgp_base::Memory;
use std::alloc::AllocError;

/// Adds a value up to the limit: a text in quotes, and what is none as hex digits.
#[tactic(auto, unfolding(crate::specs::Quoting::value))]
pub fn put_value<A: Memory>(
    limit: usize,
    bytes: &[u8],
    line: &mut String<A>,
) -> Result<(), AllocError>
    ensures text { OnOk result (string_bytes line.new ≡ string_bytes line.old ++ value limit bytes.now) }
    ensures lacks { OnErr result A.Lacks }
{
    if is_text(bytes) {
        put_cut_text(limit, bytes, line)
    } else {
        put_cut_digits(limit, bytes, line)
    }
}

/// Adds a text in quotes, up to the limit.
#[tactic(auto, unfolding(crate::specs::Quoting::up_to))]
pub fn put_cut_text<A: Memory>(
    limit: usize,
    bytes: &[u8],
    line: &mut String<A>,
) -> Result<(), AllocError>
    ensures text { OnOk result (string_bytes line.new ≡ string_bytes line.old ++ up_to limit (quoted Columns) bytes.now) }
    ensures lacks { OnErr result A.Lacks }
{
    if bytes.len() <= limit {
        return put_quoted(Form::Columns, bytes, line);
    }
    put_quoted(Form::Columns, &bytes[..limit], line)?;
    put_len(bytes.len(), line)
}

/// Adds hex digits, up to the limit.
#[tactic(auto, unfolding(crate::specs::Quoting::up_to))]
pub(crate) fn put_cut_digits<A: Memory>(
    limit: usize,
    bytes: &[u8],
    line: &mut String<A>,
) -> Result<(), AllocError>
    ensures text { OnOk result (string_bytes line.new ≡ string_bytes line.old ++ up_to limit digits bytes.now) }
    ensures lacks { OnErr result A.Lacks }
{
    if bytes.len() <= limit {
        return put_digits(bytes, line);
    }
    put_digits(&bytes[..limit], line)?;
    put_len(bytes.len(), line)
}

/// Adds a value in JSON, up to the limit: a text as a string, and what is none as hex digits.
#[tactic(auto, unfolding(crate::specs::Quoting::json_value))]
pub fn put_json<A: Memory>(
    limit: usize,
    bytes: &[u8],
    line: &mut String<A>,
) -> Result<(), AllocError>
    ensures text { OnOk result (string_bytes line.new ≡ string_bytes line.old ++ json_value limit bytes.now) }
    ensures lacks { OnErr result A.Lacks }
{
    if is_text(bytes) {
        put_json_text(limit, bytes, line)
    } else {
        put_json_hex(limit, bytes, line)
    }
}

/// Adds a text as a string, or its front and how long it is.
#[tactic(auto, unfolding(crate::specs::Quoting::json_text))]
fn put_json_text<A: Memory>(
    limit: usize,
    bytes: &[u8],
    line: &mut String<A>,
) -> Result<(), AllocError>
    ensures text { OnOk result (string_bytes line.new ≡ string_bytes line.old ++ json_text limit bytes.now) }
    ensures lacks { OnErr result A.Lacks }
{
    if bytes.len() <= limit {
        return put_quoted(Form::Json, bytes, line);
    }
    A::push_str(line, "{\"text\":")?;
    put_quoted(Form::Json, &bytes[..limit], line)?;
    put_long(bytes.len(), line)
}

/// Adds hex digits in an object, or those of a front and how long it is.
#[tactic(auto, unfolding(crate::specs::Quoting::json_hex))]
pub(crate) fn put_json_hex<A: Memory>(
    limit: usize,
    bytes: &[u8],
    line: &mut String<A>,
) -> Result<(), AllocError>
    ensures text { OnOk result (string_bytes line.new ≡ string_bytes line.old ++ json_hex limit bytes.now) }
    ensures lacks { OnErr result A.Lacks }
{
    if bytes.len() <= limit {
        put_json_digits(bytes, line)?;
        return A::push_char(line, '}');
    }
    put_json_digits(&bytes[..limit], line)?;
    put_long(bytes.len(), line)
}

/// Begins an object with hex digits.
fn put_json_digits<A: Memory>(bytes: &[u8], line: &mut String<A>) -> Result<(), AllocError>
    ensures text { OnOk result (string_bytes line.new ≡ string_bytes line.old ++ json_digits bytes.now) }
    ensures lacks { OnErr result A.Lacks }
{
    A::push_str(line, "{\"hex\":\"")?;
    put_hexes(bytes, line)?;
    A::push_char(line, '"')
}

/// Ends an object with how long what was cut is.
fn put_long<A: Memory>(len: usize, line: &mut String<A>) -> Result<(), AllocError>
    ensures text { OnOk result (string_bytes line.new ≡ string_bytes line.old ++ long len) }
    ensures lacks { OnErr result A.Lacks }
{
    A::push_shown(line, format_args!(",\"bytes\":{len}}}"))
}

/// Adds how long what was cut is.
fn put_len<A: Memory>(len: usize, line: &mut String<A>) -> Result<(), AllocError>
    ensures text { OnOk result (string_bytes line.new ≡ string_bytes line.old ++ codes " of " ++ decimal len ++ codes " bytes") }
    ensures lacks { OnErr result A.Lacks }
{
    A::push_shown(line, format_args!(" of {len} bytes"))
}

/// Whether the bytes are a text, and have no byte 0.
fn is_text(bytes: &[u8]) -> bool
    ensures { result ≡ is_text bytes.now }
{
    if bytes.contains(&0) {
        return false;
    }
    match str::from_utf8(bytes) {
        Ok(_) => true,
        Err(_) => false,
    }
}

/// Adds a text in quotes.
fn put_quoted<A: Memory>(form: Form, bytes: &[u8], line: &mut String<A>) -> Result<(), AllocError>
    ensures text { OnOk result (string_bytes line.new ≡ string_bytes line.old ++ quoted form bytes.now) }
    ensures lacks { OnErr result A.Lacks }
{
    A::push_char(line, '"')?;
    put_escaped(form, bytes, line)?;
    A::push_char(line, '"')
}

/// Adds characters as far as the bytes are UTF-8, and bytes from there on.
#[tactic(auto, unfolding(crate::specs::Quoting::escaped), using(crate::proofs::Escapes::whole_text))]
fn put_escaped<A: Memory>(form: Form, bytes: &[u8], line: &mut String<A>) -> Result<(), AllocError>
    ensures text { OnOk result (string_bytes line.new ≡ string_bytes line.old ++ escaped form bytes.now) }
    ensures lacks { OnErr result A.Lacks }
{
    match str::from_utf8(bytes) {
        Ok(text) => put_text(form, text, line),
        Err(e) => put_front(form, bytes, e.valid_up_to(), line),
    }
}

/// Adds the characters of so many bytes, and then bytes.
fn put_front<A: Memory>(
    form: Form,
    bytes: &[u8],
    len: usize,
    line: &mut String<A>,
) -> Result<(), AllocError>
    requires within { len ≤ length bytes.now }
    requires utf8 { IsUtf8 (take len bytes.now) }
    ensures text { OnOk result (string_bytes line.new ≡ string_bytes line.old ++ escaped_at form len bytes.now) }
    ensures lacks { OnErr result A.Lacks }
{
    let (front, rest) = bytes.split_at(len);
    match str::from_utf8(front) {
        Ok(text) => {
            put_text(form, text, line)?;
            put_broken(form, rest, line)
        }
        Err(_) => unreachable!(),
    }
}

/// Adds what is no character, where the form has it.
fn put_broken<A: Memory>(form: Form, bytes: &[u8], line: &mut String<A>) -> Result<(), AllocError>
    ensures text { OnOk result (string_bytes line.new ≡ string_bytes line.old ++ broken form bytes.now) }
    ensures lacks { OnErr result A.Lacks }
{
    match form {
        Form::Columns => put_bytes(Form::Columns, bytes, line),
        Form::Json => Ok(()),
    }
}

/// Adds each character.
fn put_text<A: Memory>(form: Form, text: &str, line: &mut String<A>) -> Result<(), AllocError>
    ensures text { OnOk result (string_bytes line.new ≡ string_bytes line.old ++ escaped_text form text.now) }
    ensures lacks { OnErr result A.Lacks }
{
    let mut rest = text;
    'runs: while !rest.is_empty() {
        let behind = put_plain(form, rest, line)?;
        rest = put_next(form, behind, line)?;
    }
    Ok(())
}

/// Adds the characters at the front that stand as they are, at once, and gives what is after them.
fn put_plain<'t, A: Memory>(
    form: Form,
    text: &'t str,
    line: &mut String<A>,
) -> Result<&'t str, AllocError>
    ensures all { IfOk result (λ rest. rest.now ≡ drop (prefix_len is_plain text.now) text.now) }
    ensures text { IfOk result (λ rest. string_bytes line.new ++ escaped_text form rest.now ≡ string_bytes line.old ++ escaped_text form text.now) }
    ensures len { IfOk result (λ rest. length rest.now ≤ length text.now) }
    ensures lacks { OnErr result A.Lacks }
{
    let (front, rest) = text.split_at(plain_len(text.as_bytes()));
    A::push_str(line, front)?;
    Ok(rest)
}

/// Adds the next character, if there is one, and gives what is after it.
fn put_next<'t, A: Memory>(
    form: Form,
    text: &'t str,
    line: &mut String<A>,
) -> Result<&'t str, AllocError>
    ensures text { IfOk result (λ rest. string_bytes line.new ++ escaped_text form rest.now ≡ string_bytes line.old ++ escaped_text form text.now) }
    ensures len { IfOk result (λ rest. (length rest.now ≡ 0) ⊎ (length rest.now < length text.now)) }
    ensures lacks { OnErr result A.Lacks }
{
    let mut chars = text.chars();
    match chars.next() {
        Some(c) => {
            put_char(form, c, line)?;
            Ok(chars.as_str())
        }
        None => Ok(text),
    }
}

/// How many bytes at the front are characters of ASCII that stand as they are.
fn plain_len(bytes: &[u8]) -> usize
    ensures within { result ≤ length bytes.now }
    ensures plain { list_all is_plain (take result bytes.now) ≡ true }
    ensures all { result ≡ prefix_len is_plain bytes.now }
{
    let mut len = 0;
    'bytes: while len < bytes.len() {
        if !is_plain(bytes[len]) {
            return len;
        }
        len += 1;
    }
    len
}

fn is_plain(byte: u8) -> bool
    ensures { result ≡ is_plain byte }
{
    if byte == b'"' || byte == b'\\' {
        return false;
    }
    is_visible(byte)
}

/// Adds a character as it is, or escaped.
fn put_char<A: Memory>(form: Form, c: char, line: &mut String<A>) -> Result<(), AllocError>
    ensures text { OnOk result (string_bytes line.new ≡ string_bytes line.old ++ escaped_char form c) }
    ensures lacks { OnErr result A.Lacks }
{
    if c == '"' || c == '\\' {
        A::push_char(line, '\\')?;
        put_ascii(c as u8, line)
    } else if is_printable(c) {
        A::push_char(line, c)
    } else {
        put_unprinted(form, c, line)
    }
}

/// Adds a character that isn't printed.
fn put_unprinted<A: Memory>(form: Form, c: char, line: &mut String<A>) -> Result<(), AllocError>
    ensures text { OnOk result (string_bytes line.new ≡ string_bytes line.old ++ unprinted form c) }
    ensures lacks { OnErr result A.Lacks }
{
    match form {
        Form::Columns => {
            let mut room = [0; 4];
            put_escapes(c.encode_utf8(&mut room).as_bytes(), line)
        }
        Form::Json => put_units(c, line),
    }
}

/// Adds each byte as `\x` and two digits.
fn put_escapes<A: Memory>(bytes: &[u8], line: &mut String<A>) -> Result<(), AllocError>
    ensures text { OnOk result (string_bytes line.new ≡ string_bytes line.old ++ flat_map (hex_escape Columns) bytes.now) }
    ensures lacks { OnErr result A.Lacks }
{
    for byte in bytes {
        put_escape(Form::Columns, *byte, line)?;
    }
    Ok(())
}

/// Adds each byte as a character of ASCII, or escaped.
pub fn put_bytes<A: Memory>(
    form: Form,
    bytes: &[u8],
    line: &mut String<A>,
) -> Result<(), AllocError>
    ensures text { OnOk result (string_bytes line.new ≡ string_bytes line.old ++ flat_map (escaped_byte form) bytes.now) }
    ensures lacks { OnErr result A.Lacks }
{
    for byte in bytes {
        put_byte(form, *byte, line)?;
    }
    Ok(())
}

/// Adds a byte as a character of ASCII, or escaped.
pub fn put_byte<A: Memory>(form: Form, byte: u8, line: &mut String<A>) -> Result<(), AllocError>
    ensures text { OnOk result (string_bytes line.new ≡ string_bytes line.old ++ escaped_byte form byte) }
    ensures lacks { OnErr result A.Lacks }
{
    if byte == b'"' || byte == b'\\' {
        A::push_char(line, '\\')?;
        put_ascii(byte, line)
    } else if is_visible(byte) {
        put_ascii(byte, line)
    } else {
        put_escape(form, byte, line)
    }
}

/// Adds a character by its units of UTF-16.
fn put_units<A: Memory>(c: char, line: &mut String<A>) -> Result<(), AllocError>
    ensures text { OnOk result (string_bytes line.new ≡ string_bytes line.old ++ units c) }
    ensures lacks { OnErr result A.Lacks }
{
    let code = c as u32;
    if code < 0x10000 {
        return put_unit(code, line);
    }
    put_unit(0xD800 + (code - 0x10000) / 1024, line)?;
    put_unit(0xDC00 + (code - 0x10000) % 1024, line)
}

/// Adds `\u` and the four hex digits of a number.
fn put_unit<A: Memory>(n: u32, line: &mut String<A>) -> Result<(), AllocError>
    requires { n < 65536 }
    ensures text { OnOk result (string_bytes line.new ≡ string_bytes line.old ++ unit n) }
    ensures lacks { OnErr result A.Lacks }
{
    A::push_str(line, "\\u")?;
    put_hex((n / 256) as u8, line)?;
    put_hex((n % 256) as u8, line)
}
