//! The lists of a client's message: a name, how many items there are, and the items.
#![tactic(auto, using(crate::proofs::Items::item_more, crate::proofs::Items::items_end, crate::proofs::Items::items_fault))]

ghost use Rattle.std.specs.Prelude.{◌≡◌, None, OnErr, OnOk, string_bytes};
ghost use Rattle.pgtrace_lines.specs.Common.{shown, followed};
ghost use Rattle.pgtrace_lines.specs.Client.{client_value, counted, pair_parts, signed_part};
ghost use Rattle.pgtrace_lines.specs.Shown.{list_of, type_part};

use crate::lists::put_fault;
use pgp_base::{FallibleIterator, Memory};
use pgp_frontend_read::{Formats, ParamTypes, StartupParameters, Values};
use pgtool_line::line::{put_null, put_signed, put_some, put_text, put_type};
use pgtool_line::nesting::{begin_object, end_list, end_object, put_count, put_key, put_member};
use pgtool_line::style::Style;
use std::alloc::AllocError;

/// Adds formats.
pub fn put_formats<A: Memory>(
    style: Style,
    word: &str,
    name: &str,
    formats: Formats<'_>,
    line: &mut String<A>,
) -> Result<(), AllocError>
    ensures parts { OnOk result (string_bytes line.new ≡ followed style (string_bytes line.old) (counted word.now name.now signed_part formats.entry)) }
    ensures lacks { OnErr result A.Lacks }
{
    put_key(style, word, name, line)?;
    put_count(style, formats.size_hint().0 as u64, line)?;
    each_format(style, formats, line)
}

/// Adds the types of parameters.
pub fn put_types<A: Memory>(
    style: Style,
    word: &str,
    name: &str,
    types: ParamTypes<'_>,
    line: &mut String<A>,
) -> Result<(), AllocError>
    ensures parts { OnOk result (string_bytes line.new ≡ followed style (string_bytes line.old) (counted word.now name.now type_part types.entry)) }
    ensures lacks { OnErr result A.Lacks }
{
    put_key(style, word, name, line)?;
    put_count(style, types.size_hint().0 as u64, line)?;
    each_type(style, types, line)
}

/// Adds values.
pub fn put_values<A: Memory>(
    style: Style,
    word: &str,
    name: &str,
    values: Values<'_>,
    line: &mut String<A>,
) -> Result<(), AllocError>
    ensures parts { OnOk result (string_bytes line.new ≡ followed style (string_bytes line.old) (counted word.now name.now client_value values.entry)) }
    ensures lacks { OnErr result A.Lacks }
{
    put_key(style, word, name, line)?;
    put_count(style, values.size_hint().0 as u64, line)?;
    each_value(style, values, line)
}

/// Adds the names and values of a startup packet.
pub fn put_pairs<A: Memory>(
    style: Style,
    mut pairs: StartupParameters<'_>,
    line: &mut String<A>,
) -> Result<(), AllocError>
    ensures list { OnOk result (string_bytes line.new ≡ followed style (string_bytes line.old) (list_of pair_parts pairs.entry None)) }
    ensures lacks { OnErr result A.Lacks }
{
    'items: loop {
        match pairs.next() {
            Ok(Some((name, value))) => put_pair(style, name, value, line)?,
            Ok(None) => return end_list(style, line),
            Err(e) => return put_fault(style, &e, line),
        }
    }
}

/// Adds a name and its value.
fn put_pair<A: Memory>(
    style: Style,
    name: &[u8],
    value: &[u8],
    line: &mut String<A>,
) -> Result<(), AllocError>
    ensures parts { OnOk result (string_bytes line.new ≡ followed style (string_bytes line.old) (pair_parts (name.now, value.now))) }
    ensures lacks { OnErr result A.Lacks }
{
    begin_object(style, line)?;
    put_member(style, "name", line)?;
    put_text(style, name, line)?;
    put_member(style, "value", line)?;
    put_text(style, value, line)?;
    end_object(style, line)
}

fn each_format<A: Memory>(
    style: Style,
    mut formats: Formats<'_>,
    line: &mut String<A>,
) -> Result<(), AllocError>
    ensures list { OnOk result (string_bytes line.new ≡ followed style (string_bytes line.old) (list_of signed_part formats.entry None)) }
    ensures lacks { OnErr result A.Lacks }
{
    'items: loop {
        match formats.next() {
            Ok(Some(format)) => put_signed(style, format as i32, line)?,
            Ok(None) => return end_list(style, line),
            Err(e) => return put_fault(style, &e, line),
        }
    }
}

fn each_type<A: Memory>(
    style: Style,
    mut types: ParamTypes<'_>,
    line: &mut String<A>,
) -> Result<(), AllocError>
    ensures list { OnOk result (string_bytes line.new ≡ followed style (string_bytes line.old) (list_of type_part types.entry None)) }
    ensures lacks { OnErr result A.Lacks }
{
    'items: loop {
        match types.next() {
            Ok(Some(oid)) => put_type(style, oid, line)?,
            Ok(None) => return end_list(style, line),
            Err(e) => return put_fault(style, &e, line),
        }
    }
}

fn each_value<A: Memory>(
    style: Style,
    mut values: Values<'_>,
    line: &mut String<A>,
) -> Result<(), AllocError>
    ensures list { OnOk result (string_bytes line.new ≡ followed style (string_bytes line.old) (list_of client_value values.entry None)) }
    ensures lacks { OnErr result A.Lacks }
{
    'items: loop {
        match values.next() {
            Ok(Some(value)) => put_value(style, value, line)?,
            Ok(None) => return end_list(style, line),
            Err(e) => return put_fault(style, &e, line),
        }
    }
}

/// Adds a value, or that it is a null.
fn put_value<A: Memory>(
    style: Style,
    value: Option<&[u8]>,
    line: &mut String<A>,
) -> Result<(), AllocError>
    ensures parts { OnOk result (string_bytes line.new ≡ followed style (string_bytes line.old) (client_value (shown value.entry))) }
    ensures lacks { OnErr result A.Lacks }
{
    match value {
        Some(bytes) => put_some(style, bytes, line),
        None => put_null(style, line),
    }
}
