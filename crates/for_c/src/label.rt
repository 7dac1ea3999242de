//! Texts after the version of their format: documents of JSON, and the label types of the module ltree.

ghost use Rattle.std.specs.Prelude.{◌≡◌, ◌≢◌, ◌⊎◌, Ok, length};
ghost use Rattle.std.specs.Str.{IsUtf8};
ghost use Rattle.pgp_types.specs.Format.{Reads};
ghost use Rattle.pgp_types.specs.Text.{ltree, lquery, ltxtquery};
ghost use Rattle.pgp_values.specs.Text.{jsonb};
ghost use Rattle.for_c.specs.Parts.{IsInside, stands};
ghost use Rattle.for_c.specs.Values.{Lacks, Refuses, Wrote};

use crate::front::PgpPart;
use crate::status::{failed, refused, sent};
use pgp_base::{Error, Window};
use std::str;

/// Writes a `jsonb`, of its JSON.
#[unsafe(no_mangle)]
pub extern "C" fn pgp_put_jsonb(text: &[u8], out: &mut [u8], written: &mut usize) -> u32
    ensures wrote { result ≡ 0 → Wrote (jsonb.written text.now) out.old out.new written.new }
    ensures refused { result ≢ 0 → (written.new ≡ 0) × (((result ≡ 9) × (IsUtf8 text.now → ⊥)) ⊎ Lacks (jsonb.written text.now) out.old written.new result) }
{
    pgp_put_ltree(text, out, written)
}

/// Finds the JSON of a `jsonb`, which isn't parsed.
#[unsafe(no_mangle)]
pub extern "C" fn pgp_get_jsonb(bytes: &[u8], text: &mut PgpPart) -> u32
    ensures read { result ≡ 0 → Reads jsonb bytes.now (Ok (stands bytes.now text.new)) }
    ensures inside { result ≡ 0 → IsInside (length bytes.now) text.new }
    ensures refused { result ≢ 0 → Refuses jsonb bytes.now result }
    ensures left { result ≢ 0 → text.new ≡ text.old }
{
    pgp_get_ltree(bytes, text)
}

/// Writes an `ltree`, of its text.
#[unsafe(no_mangle)]
pub extern "C" fn pgp_put_ltree(text: &[u8], out: &mut [u8], written: &mut usize) -> u32
    ensures wrote { result ≡ 0 → Wrote (ltree.written text.now) out.old out.new written.new }
    ensures refused { result ≢ 0 → (written.new ≡ 0) × (((result ≡ 9) × (IsUtf8 text.now → ⊥)) ⊎ Lacks (ltree.written text.now) out.old written.new result) }
{
    let Ok(text) = str::from_utf8(text) else {
        return refused(Error::NotUtf8, written);
    };
    let mut window = Window::new(out);
    match pgp_types::ltree_to_sql(text, &mut window) {
        Ok(()) => sent(&window, written),
        Err(e) => refused(e, written),
    }
}

/// Finds the text of an `ltree`.
#[unsafe(no_mangle)]
pub extern "C" fn pgp_get_ltree(bytes: &[u8], text: &mut PgpPart) -> u32
    ensures read { result ≡ 0 → Reads ltree bytes.now (Ok (stands bytes.now text.new)) }
    ensures inside { result ≡ 0 → IsInside (length bytes.now) text.new }
    ensures refused { result ≢ 0 → Refuses ltree bytes.now result }
    ensures left { result ≢ 0 → text.new ≡ text.old }
{
    match pgp_types::ltree_from_sql(bytes) {
        Ok(_) => {
            *text = PgpPart {
                at: 1,
                len: bytes.len().saturating_sub(1),
            };
            0
        }
        Err(e) => failed(e),
    }
}

/// Writes an `lquery`, of its text.
#[unsafe(no_mangle)]
pub extern "C" fn pgp_put_lquery(text: &[u8], out: &mut [u8], written: &mut usize) -> u32
    ensures wrote { result ≡ 0 → Wrote (lquery.written text.now) out.old out.new written.new }
    ensures refused { result ≢ 0 → (written.new ≡ 0) × (((result ≡ 9) × (IsUtf8 text.now → ⊥)) ⊎ Lacks (lquery.written text.now) out.old written.new result) }
{
    pgp_put_ltree(text, out, written)
}

/// Finds the text of an `lquery`.
#[unsafe(no_mangle)]
pub extern "C" fn pgp_get_lquery(bytes: &[u8], text: &mut PgpPart) -> u32
    ensures read { result ≡ 0 → Reads lquery bytes.now (Ok (stands bytes.now text.new)) }
    ensures inside { result ≡ 0 → IsInside (length bytes.now) text.new }
    ensures refused { result ≢ 0 → Refuses lquery bytes.now result }
    ensures left { result ≢ 0 → text.new ≡ text.old }
{
    pgp_get_ltree(bytes, text)
}

/// Writes an `ltxtquery`, of its text.
#[unsafe(no_mangle)]
pub extern "C" fn pgp_put_ltxtquery(text: &[u8], out: &mut [u8], written: &mut usize) -> u32
    ensures wrote { result ≡ 0 → Wrote (ltxtquery.written text.now) out.old out.new written.new }
    ensures refused { result ≢ 0 → (written.new ≡ 0) × (((result ≡ 9) × (IsUtf8 text.now → ⊥)) ⊎ Lacks (ltxtquery.written text.now) out.old written.new result) }
{
    pgp_put_ltree(text, out, written)
}

/// Finds the text of an `ltxtquery`.
#[unsafe(no_mangle)]
pub extern "C" fn pgp_get_ltxtquery(bytes: &[u8], text: &mut PgpPart) -> u32
    ensures read { result ≡ 0 → Reads ltxtquery bytes.now (Ok (stands bytes.now text.new)) }
    ensures inside { result ≡ 0 → IsInside (length bytes.now) text.new }
    ensures refused { result ≢ 0 → Refuses ltxtquery bytes.now result }
    ensures left { result ≢ 0 → text.new ≡ text.old }
{
    pgp_get_ltree(bytes, text)
}
