//! Arrays.

ghost use Rattle.pgp_types.specs.Array.{array};
ghost use Rattle.pgp_value_text.specs.TextOf.{is_apart};
ghost use Rattle.std.specs.Prelude.{◌≡◌, ◌<◌, ◌++◌, false, Some, OnOk, OnErr};
ghost use Rattle.pgp_base.specs.Walk.{hint_of};
ghost use Rattle.pgp_types.specs.Part.{shown};
ghost use Rattle.pgp_value_text.specs.ArrayText.{placed, separator, within, ShowsArray, ShowsElement};
ghost use Rattle.pgp_value_text.specs.Parts.{Pushes, PushesAll};
ghost use Rattle.pgp_value_text.specs.ValueText.{Shows, Tells};

use crate::element::put_element;
use crate::put::{put, put_raw};
use crate::quoting::push_quoted;
use crate::rows::{push_all_bounds, push_braces};
use bytes::BytesMut;
use pgp_base::{FallibleIterator, Memory, Oid};
use pgp_types::laws::arrays;
use pgp_types::{Array, array_from_sql};
use std::alloc::AllocError;

// The type `box`.
const BOX: Oid = 603;

// Adds a null, or an element by way of a buffer for its text.
fn push_value<A: Memory>(
    type_oid: Oid,
    value: Option<&[u8]>,
    element: &mut BytesMut<A>,
    out: &mut BytesMut<A>,
) -> Result<bool, AllocError>
    ensures { Pushes (ShowsElement type_oid (shown value.entry)) (λ t. t) A.Lacks out.old.items out.new.items result }
{
    match value {
        Some(bytes) => push_bytes(type_oid, bytes, element, out),
        None => put("NULL", out),
    }
}

// Adds an element.
fn push_bytes<A: Memory>(
    type_oid: Oid,
    bytes: &[u8],
    element: &mut BytesMut<A>,
    out: &mut BytesMut<A>,
) -> Result<bool, AllocError>
    ensures { Pushes (ShowsElement type_oid (Some bytes.now)) (λ t. t) A.Lacks out.old.items out.new.items result }
{
    element.clear();
    if !put_element(type_oid, bytes, element)? {
        return Ok(false);
    }
    push_within(type_oid, element.as_slice(), out)?;
    Ok(true)
}

// Adds the text of an element, in quotes where it needs them.
fn push_within<A: Memory>(
    type_oid: Oid,
    shown: &[u8],
    out: &mut BytesMut<A>,
) -> Result<(), AllocError>
    ensures added { OnOk result (out.new.items ≡ out.old.items ++ within type_oid shown.now) }
    ensures lacks { OnErr result A.Lacks }
{
    if type_oid == BOX {
        A::append(out, shown)
    } else {
        push_quoted(false, shown, out)
    }
}

// What stands between two elements.
fn separator(type_oid: Oid) -> u8
    ensures { result ≡ separator type_oid }
{
    if type_oid == BOX { b';' } else { b',' }
}

// Adds an element in its rows.
fn push_placed<A: Memory>(
    array: &Array<'_>,
    size: usize,
    place: usize,
    value: Option<&[u8]>,
    element: &mut BytesMut<A>,
    out: &mut BytesMut<A>,
) -> Result<bool, AllocError>
    requires { place < size }
    ensures { Pushes (ShowsElement array.now.element_type (shown value.entry)) (placed array.now.element_type size array.now.dimensions.items place) A.Lacks out.old.items out.new.items result }
{
    if place != 0 {
        A::append(out, &[separator(array.element_type())])?;
    }
    push_braces(b'{', size, array.dimensions(), place, out)?;
    if !push_value(array.element_type(), value, element, out)? {
        return Ok(false);
    }
    push_braces(b'}', size, array.dimensions(), place + 1, out)?;
    Ok(true)
}

// Adds so many elements, if there are no more and no fewer.
fn push_elements<A: Memory>(
    array: &Array<'_>,
    size: usize,
    element: &mut BytesMut<A>,
    out: &mut BytesMut<A>,
) -> Result<bool, AllocError>
    ensures { PushesAll (ShowsElement array.now.element_type) (placed array.now.element_type size array.now.dimensions.items) size array.now.values A.Lacks out.old.items out.new.items result }
{
    let mut values = array.values();
    'elements: for place in 0..size {
        match values.next() {
            Ok(Some(value)) => {
                if !push_placed(array, size, place, value, element, out)? {
                    return Ok(false);
                }
            }
            _ => return Ok(false),
        }
    }
    match values.next() {
        Ok(None) => Ok(true),
        _ => Ok(false),
    }
}

// Adds the text of an array without elements, if nothing stands behind its dimensions.
fn put_empty<A: Memory>(array: &Array<'_>, text: &mut BytesMut<A>) -> Result<bool, AllocError>
    requires { (hint_of array.now.values.announced).0 ≡ 0 }
    ensures { Tells (ShowsArray array.now) A.Lacks text.old.items text.new.items result }
{
    match array.values().next() {
        Ok(None) => put("{}", text),
        _ => Ok(false),
    }
}

// Adds the text of an array.
fn put_elements<A: Memory>(array: &Array<'_>, text: &mut BytesMut<A>) -> Result<bool, AllocError>
    ensures { Tells (ShowsArray array.now) A.Lacks text.old.items text.new.items result }
{
    let size = array.values().size_hint().0;
    if size == 0 {
        return put_empty(array, text);
    }
    let mut shown = BytesMut::new(*text.allocator());
    let mut element = BytesMut::new(*text.allocator());
    push_all_bounds(array, &mut shown)?;
    if push_elements(array, size, &mut element, &mut shown)? {
        put_raw(shown.as_slice(), text)
    } else {
        Ok(false)
    }
}

// Whether the type is shown in another way.
fn is_apart(type_oid: Oid) -> bool
    ensures { result ≡ is_apart type_oid }
{
    type_oid == 22 || type_oid == 30
}

// Adds the text of bytes that are an array's.
fn put_read<A: Memory>(bytes: &[u8], text: &mut BytesMut<A>) -> Result<bool, AllocError>
    ensures { Tells (Shows array ShowsArray bytes.now) A.Lacks text.old.items text.new.items result }
{
    arrays();
    match array_from_sql(bytes) {
        Ok(array) => put_elements(&array, text),
        Err(_) => Ok(false),
    }
}

/// Adds the text of an array.
pub(crate) fn put_array<A: Memory>(
    type_oid: Oid,
    bytes: &[u8],
    text: &mut BytesMut<A>,
) -> Result<bool, AllocError>
    ensures { Tells (λ t. (is_apart type_oid ≡ false) × Shows array ShowsArray bytes.now t) A.Lacks text.old.items text.new.items result }
{
    if is_apart(type_oid) {
        Ok(false)
    } else {
        put_read(bytes, text)
    }
}
