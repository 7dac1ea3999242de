//! Places of rows.

ghost use Rattle.std.specs.Prelude.{◌≡◌, ◌≢◌, Ok};
ghost use Rattle.pgp_types.specs.Format.{Reads};
ghost use Rattle.pgp_values.specs.System.{tid};
ghost use Rattle.for_c.specs.Geometry.{tid_of};
ghost use Rattle.for_c.specs.Values.{Lacks, Refuses, Wrote};

use crate::scalar::{Scalar, put};
use crate::status::{failed, found};
use pgp_values::Tid;

/// A `tid`: the number of a block, and of a row in it.
#[repr(C)]
#[derive(Clone, Copy)]
pub struct PgpTid {
    pub block: u32,
    pub offset: u16,
}

/// Writes a `tid`.
#[unsafe(no_mangle)]
pub extern "C" fn pgp_put_tid(value: &PgpTid, out: &mut [u8], written: &mut usize) -> u32
    ensures wrote { result ≡ 0 → Wrote (tid.written (tid_of value.now)) out.old out.new written.new }
    ensures lacks { result ≢ 0 → Lacks (tid.written (tid_of value.now)) out.old written.new result }
{
    let PgpTid { block, offset } = *value;
    put(Scalar::Tid(Tid { block, offset }), out, written)
}

/// Reads a `tid`, from all of the bytes.
#[unsafe(no_mangle)]
pub extern "C" fn pgp_get_tid(bytes: &[u8], value: &mut PgpTid) -> u32
    ensures read { result ≡ 0 → Reads tid bytes.now (Ok (tid_of value.new)) }
    ensures refused { result ≢ 0 → Refuses tid bytes.now result }
    ensures left { result ≢ 0 → value.new ≡ value.old }
{
    match pgp_values::tid_from_sql(bytes) {
        Ok(Tid { block, offset }) => found(PgpTid { block, offset }, value),
        Err(e) => failed(e),
    }
}
