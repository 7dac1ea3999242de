//! Identifiers, and places in the write-ahead log.

ghost use Rattle.std.specs.Prelude.{◌≡◌};
ghost use Rattle.uuid.specs.Text.{hyphenated_text, lower};
ghost use Rattle.pgp_types.specs.Network.{uuid};
ghost use Rattle.pgp_types.specs.Scalar.{lsn};
ghost use Rattle.pgp_value_text.specs.ValueText.{lsn_text, As, Shows, Tells};

use crate::put::put;
use bytes::BytesMut;
use pgp_base::{Lsn, Memory};
use pgp_types::{lsn_from_sql, uuid_from_sql};
use std::alloc::AllocError;
use uuid::Uuid;

// Adds the digits of an identifier in groups.
fn put_id<A: Memory>(id: [u8; 16], text: &mut BytesMut<A>) -> Result<bool, AllocError>
    ensures { Tells (λ t. t ≡ hyphenated_text lower id) A.Lacks text.old.items text.new.items result }
{
    let mut shown = Uuid::encode_buffer();
    put(
        Uuid::from_bytes(id).hyphenated().encode_lower(&mut shown),
        text,
    )
}

/// Adds the text of a `uuid`.
pub(crate) fn put_uuid<A: Memory>(bytes: &[u8], text: &mut BytesMut<A>) -> Result<bool, AllocError>
    ensures { Tells (Shows uuid (As (hyphenated_text lower)) bytes.now) A.Lacks text.old.items text.new.items result }
{
    match uuid_from_sql(bytes) {
        Ok(id) => put_id(id, text),
        Err(_) => Ok(false),
    }
}

// Adds the upper and the lower 32 bits of a number, in hex.
#[tactic(auto, unfolding(crate::specs::ValueText::lsn_text))]
fn put_place<A: Memory>(n: Lsn, text: &mut BytesMut<A>) -> Result<bool, AllocError>
    ensures { Tells (λ t. t ≡ lsn_text n) A.Lacks text.old.items text.new.items result }
{
    let upper = n / 0x1_0000_0000;
    let lower = n % 0x1_0000_0000;
    let mut shown = String::new(*text.allocator());
    A::push_shown(&mut shown, format_args!("{upper:X}/{lower:X}"))?;
    put(&shown, text)
}

/// Adds the text of a `pg_lsn`.
pub(crate) fn put_lsn<A: Memory>(bytes: &[u8], text: &mut BytesMut<A>) -> Result<bool, AllocError>
    ensures { Tells (Shows lsn (As lsn_text) bytes.now) A.Lacks text.old.items text.new.items result }
{
    match lsn_from_sql(bytes) {
        Ok(n) => put_place(n, text),
        Err(_) => Ok(false),
    }
}
