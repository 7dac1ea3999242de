//! Quoting for the text of an SQL command.

ghost use Rattle.std.specs.Prelude.{◌≡◌, ◌≢◌, ◌⊎◌};
ghost use Rattle.std.specs.Str.{IsUtf8};
ghost use Rattle.pgp_auth.specs.Lexer.{Identifier};
ghost use Rattle.for_c_auth.specs.Delivering.{Delivers, LacksRoom, NotDelivered};
ghost use Rattle.for_c_auth.specs.Escaping.{IsLiteral};

use crate::deliver::{deliver, refused};
use pgp_base::{Error, Memory};
use std::alloc::Global;

/// The text as a string constant, which a server reads as the text under either setting of `standard_conforming_strings`.
#[unsafe(no_mangle)]
pub extern "C" fn pgp_escape_literal(
    alloc: Global,
    text: &[u8],
    out: &mut [u8],
    written: &mut usize,
) -> u32
    ensures sent { result ≡ 0 → Delivers (IsLiteral text.now) out.old out.new written.new }
    ensures refused { result ≢ 0 → NotDelivered out.old out.new written.new }
    ensures why { result ≢ 0 → (result ≡ 1) ⊎ ((result ≡ 9) × ¬ IsUtf8 text.now) }
{
    literal(alloc, text, out, written)
}

/// `pgp_escape_literal` with any allocator.
pub fn literal<A: Memory>(alloc: A, text: &[u8], out: &mut [u8], written: &mut usize) -> u32
    ensures sent { result ≡ 0 → Delivers (IsLiteral text.now) out.old out.new written.new }
    ensures refused { result ≢ 0 → NotDelivered out.old out.new written.new }
    ensures why { result ≢ 0 → ((result ≡ 1) × LacksRoom A.Lacks (IsLiteral text.now) out.old) ⊎ ((result ≡ 9) × ¬ IsUtf8 text.now) }
{
    let Ok(text) = pgp_base::text(text) else {
        return refused(Error::NotUtf8, written);
    };
    match pgp_auth::escape::escape_literal(alloc, text) {
        Ok(made) => deliver(made.as_bytes(), out, written),
        Err(e) => refused(e, written),
    }
}

/// The text as a quoted identifier.
#[unsafe(no_mangle)]
pub extern "C" fn pgp_escape_identifier(
    alloc: Global,
    text: &[u8],
    out: &mut [u8],
    written: &mut usize,
) -> u32
    ensures sent { result ≡ 0 → Delivers (λ made. Identifier made text.now) out.old out.new written.new }
    ensures refused { result ≢ 0 → NotDelivered out.old out.new written.new }
    ensures why { result ≢ 0 → (result ≡ 1) ⊎ ((result ≡ 9) × ¬ IsUtf8 text.now) }
{
    identifier(alloc, text, out, written)
}

/// `pgp_escape_identifier` with any allocator.
pub fn identifier<A: Memory>(alloc: A, text: &[u8], out: &mut [u8], written: &mut usize) -> u32
    ensures sent { result ≡ 0 → Delivers (λ made. Identifier made text.now) out.old out.new written.new }
    ensures refused { result ≢ 0 → NotDelivered out.old out.new written.new }
    ensures why { result ≢ 0 → ((result ≡ 1) × LacksRoom A.Lacks (λ made. Identifier made text.now) out.old) ⊎ ((result ≡ 9) × ¬ IsUtf8 text.now) }
{
    let Ok(text) = pgp_base::text(text) else {
        return refused(Error::NotUtf8, written);
    };
    match pgp_auth::escape::escape_identifier(alloc, text) {
        Ok(made) => deliver(made.as_bytes(), out, written),
        Err(e) => refused(e, written),
    }
}
