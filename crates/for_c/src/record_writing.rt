//! Rows and composite values, and multiranges: written.
#![tactic(auto, using(pgp_base::proofs::Parts::held_steps))]

ghost use Rattle.std.specs.Prelude.{◌≡◌, ◌≢◌, map};
ghost use Rattle.pgp_values.specs.Multirange.{multirange};
ghost use Rattle.pgp_values.specs.Record.{composite};
ghost use Rattle.for_c.specs.ListWriting.{IsNotWritten, WroteValue};
ghost use Rattle.for_c.specs.RecordWriting.{item_of, typed_of};

use crate::list_writing::{Written, write_list};
use crate::listing::PgpValue;
use crate::part::{put_counted, put_value};
use pgp_base::{Buffer, Error, put_u32};

/// A field of a record that is written: its value or a null, and its type.
#[repr(C)]
#[derive(Clone, Copy)]
pub struct PgpTyped<'a> {
    pub value: PgpValue<'a>,
    pub of_type: u32,
}

/// Some bytes of the caller's.
#[repr(C)]
#[derive(Clone, Copy)]
pub struct PgpItem<'a> {
    pub bytes: &'a [u8],
}

/// Writes a record of these fields.
#[unsafe(no_mangle)]
pub extern "C" fn pgp_put_record(
    fields: &[PgpTyped<'_>],
    out: &mut [u8],
    written: &mut usize,
) -> u32
    ensures wrote { result ≡ 0 → WroteValue composite (map typed_of fields.now) out.old out.new written.new }
    ensures refused { result ≢ 0 → IsNotWritten composite (map typed_of fields.now) out.old written.new result }
{
    write_list(fields, out, written)
}

/// Writes a multirange of these ranges, each the bytes of one.
#[unsafe(no_mangle)]
pub extern "C" fn pgp_put_multirange(
    ranges: &[PgpItem<'_>],
    out: &mut [u8],
    written: &mut usize,
) -> u32
    ensures wrote { result ≡ 0 → WroteValue multirange (map item_of ranges.now) out.old out.new written.new }
    ensures refused { result ≢ 0 → IsNotWritten multirange (map item_of ranges.now) out.old written.new result }
{
    write_list(ranges, out, written)
}

impl Written for PgpTyped<'_> {
    ghost use Rattle.pgp_values.specs.Record.{Field, field};
    ghost use Rattle.for_c.specs.RecordWriting.{typed_of};

    ghost Meaning = { Field };

    ghost meaning = { λ f. typed_of f };

    ghost item = { field };

    fn put<B: Buffer>(&self, buf: &mut B) -> Result<(), Error> {
        match put_u32(buf, self.of_type) {
            Ok(()) => put_value(&self.value, buf),
            Err(e) => Err(e),
        }
    }
}

impl Written for PgpItem<'_> {
    ghost use Rattle.std.specs.Prelude.{ℕ, List};
    ghost use Rattle.pgp_values.specs.Multirange.{member};
    ghost use Rattle.for_c.specs.RecordWriting.{item_of};

    ghost Meaning = { List ℕ };

    ghost meaning = { λ r. item_of r };

    ghost item = { member };

    fn put<B: Buffer>(&self, buf: &mut B) -> Result<(), Error> {
        put_counted(self.bytes.len(), self.bytes, buf)
    }
}
