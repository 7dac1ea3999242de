//! Bit strings, and places of rows.

ghost use Rattle.std.specs.Prelude.{◌≡◌, ◌++◌, OnErr, OnOk};
ghost use Rattle.std.specs.List.{flat_map};
ghost use Rattle.pgp_types.specs.Varbit.{varbit};
ghost use Rattle.pgp_values.specs.System.{tid};
ghost use Rattle.pgp_value_text.specs.Bits.{bits_text, byte_bits, tid_text};
ghost use Rattle.pgp_value_text.specs.ValueText.{As, Shows, Tells};

use crate::put::{put, put_raw};
use bytes::BytesMut;
use pgp_base::Memory;
use pgp_types::{Varbit, varbit_from_sql};
use pgp_values::{Tid, tid_from_sql};
use std::alloc::AllocError;

// Adds the bits of a byte.
fn push_byte<A: Memory>(n: u8, shown: &mut Vec<u8, A>) -> Result<(), AllocError>
    ensures ok { OnOk result (shown.new.items ≡ shown.old.items ++ byte_bits n) }
    ensures lacks { OnErr result A.Lacks }
{
    A::extend(
        shown,
        &[
            48 + n / 128,
            48 + n / 64 % 2,
            48 + n / 32 % 2,
            48 + n / 16 % 2,
            48 + n / 8 % 2,
            48 + n / 4 % 2,
            48 + n / 2 % 2,
            48 + n % 2,
        ],
    )
}

// Adds the bits of each byte.
fn push_bytes<A: Memory>(bytes: &[u8], shown: &mut Vec<u8, A>) -> Result<(), AllocError>
    ensures ok { OnOk result (shown.new.items ≡ shown.old.items ++ flat_map byte_bits bytes.now) }
    ensures lacks { OnErr result A.Lacks }
{
    for byte in bytes {
        push_byte(*byte, shown)?;
    }
    Ok(())
}

// Adds bits.
fn put_bits<A: Memory>(v: &Varbit<'_>, text: &mut BytesMut<A>) -> Result<bool, AllocError>
    ensures { Tells (λ t. t ≡ bits_text v.now) A.Lacks text.old.items text.new.items result }
{
    let mut shown = Vec::new(*text.allocator());
    push_bytes(v.bytes(), &mut shown)?;
    shown.truncate(v.len());
    put_raw(&shown, text)
}

/// Adds the text of a `bit` or a `bit varying`.
pub(crate) fn put_varbit<A: Memory>(
    bytes: &[u8],
    text: &mut BytesMut<A>,
) -> Result<bool, AllocError>
    ensures { Tells (Shows varbit (As bits_text) bytes.now) A.Lacks text.old.items text.new.items result }
{
    match varbit_from_sql(bytes) {
        Ok(v) => put_bits(&v, text),
        Err(_) => Ok(false),
    }
}

// Adds the numbers of a block and of a row in it.
fn put_row<A: Memory>(v: Tid, text: &mut BytesMut<A>) -> Result<bool, AllocError>
    ensures { Tells (λ t. t ≡ tid_text v) A.Lacks text.old.items text.new.items result }
{
    let (block, offset) = (v.block, v.offset);
    let mut shown = String::new(*text.allocator());
    A::push_shown(&mut shown, format_args!("({block},{offset})"))?;
    put(&shown, text)
}

/// Adds the text of a `tid`.
pub(crate) fn put_tid<A: Memory>(bytes: &[u8], text: &mut BytesMut<A>) -> Result<bool, AllocError>
    ensures { Tells (Shows tid (As tid_text) bytes.now) A.Lacks text.old.items text.new.items result }
{
    match tid_from_sql(bytes) {
        Ok(v) => put_row(v, text),
        Err(_) => Ok(false),
    }
}
