//! Laws on what is written and what is read: every list of bytes has one reading, a value or an error, and
//! what is written for a value is read as that value. And on the room that a range takes.

ghost use Rattle.std.specs.Prelude.{◌≡◌, ℕ, ◌*◌, ◌<◌, ◌≤◌, List, length, Ok, Err};
ghost use Rattle.pgp_types.specs.Format.{IsSound, Reads};
ghost use Rattle.pgp_types.specs.Scalar.{bool, bytea, char, int2, int4, int8, oid, lsn, float4, float8};
ghost use Rattle.pgp_types.specs.Text.{text, ltree, lquery, ltxtquery};
ghost use Rattle.pgp_types.specs.Time.{timestamp, time, date};
ghost use Rattle.pgp_types.specs.Network.{Inet, family_of, address_size, joined, parts_of, macaddr, uuid, inet};
ghost use Rattle.pgp_types.specs.Geometry.{point, box};
ghost use Rattle.pgp_types.specs.Array.{ArrayRead, array};
ghost use Rattle.pgp_types.specs.Varbit.{varbit};
ghost use Rattle.pgp_types.specs.Path.{path};
ghost use Rattle.pgp_types.specs.Hstore.{hstore};
ghost use Rattle.pgp_types.specs.Range.{range};
ghost use Rattle.pgp_types.specs.RangeRoom.{LacksRange};
ghost use Rattle.pgp_types.specs.RangeWriting.{OwesBound, RangeWritten};
ghost use Rattle.pgp_base.specs.Window.{window_held, window_lacks};

use crate::{RangeBound, range_to_sql};
use pgp_base::{BindError, Error, IsNull, Window};

/// Truth values, bytes and numbers.
pub fn scalars()
    ensures of_bool { IsSound bool }
    ensures of_bytea { IsSound bytea }
    ensures of_char { IsSound char }
    ensures of_int2 { IsSound int2 }
    ensures of_int4 { IsSound int4 }
    ensures of_int8 { IsSound int8 }
    ensures of_oid { IsSound oid }
    ensures of_lsn { IsSound lsn }
    ensures of_float4 { IsSound float4 }
    ensures of_float8 { IsSound float8 }
{}

/// Texts, and the label types.
pub fn texts()
    ensures of_text { IsSound text }
    ensures of_ltree { IsSound ltree }
    ensures of_lquery { IsSound lquery }
    ensures of_ltxtquery { IsSound ltxtquery }
{}

/// Times and dates.
pub fn times()
    ensures of_timestamp { IsSound timestamp }
    ensures of_time { IsSound time }
    ensures of_date { IsSound date }
{}

/// Addresses and identifiers. An inet is read back where its netmask has no more bits than its address, and
/// rejected where it has more.
pub fn addresses()
    ensures of_macaddr { IsSound macaddr }
    ensures of_uuid { IsSound uuid }
    ensures of_inet { IsSound inet }
    ensures wide { (v : Inet) → 8 * address_size (family_of v.addr) < v.netmask
        → Reads inet (joined (parts_of 0 v)) (Err Error.InvalidNetmask) }
{}

/// Points and boxes.
pub fn shapes()
    ensures of_point { IsSound point }
    ensures of_box { IsSound box }
{}

/// Arrays. One is read back where its dimensions have a product and that is the number of its elements.
/// No more dimensions are read than there are bytes, and no more elements.
pub fn arrays()
    ensures of_array { IsSound array }
    ensures few_dimensions { (bytes : List ℕ) (v : ArrayRead) → Reads array bytes (Ok v) → length v.dimensions.items ≤ length bytes }
    ensures few { (bytes : List ℕ) (v : ArrayRead) → Reads array bytes (Ok v) → length v.values.items ≤ length bytes }
{}

/// Bit strings: one is read back where there are as many bytes as its bits take.
pub fn bit_strings()
    ensures { IsSound varbit }
{}

/// Paths: one is read back as an iterator that hands out its points and ends.
pub fn paths()
    ensures { IsSound path }
{}

/// Lists of keys and values: one is read back as an iterator that hands out its entries and ends.
pub fn key_value_lists()
    ensures { IsSound hstore }
{}

/// Ranges, whatever their bounds are.
pub fn ranges()
    ensures { IsSound range }
{}

/// In a window the writer of a range lacks memory only where the range, as far as its closures made it, is longer than the room
/// that is left: a window of exactly the range's size takes it.
///
/// # Errors
///
/// As `range_to_sql`.
pub fn range_in_a_window<
    'a,
    E: Drop,
    F: FnOnce(&mut Window<'a>) -> Result<RangeBound<IsNull>, E>,
    G: FnOnce(&mut Window<'a>) -> Result<RangeBound<IsNull>, E> + Drop,
>(lower: F, upper: G, window: &mut Window<'a>) -> Result<(), BindError<E>>
    requires lower_callable { F.IsAlwaysCallable lower }
    requires upper_callable { G.IsAlwaysCallable upper }
    requires lower_owes { OwesBound window_held F.pre F.post lower }
    requires upper_owes { OwesBound window_held G.pre G.post upper }
    ensures written { RangeWritten window_held F.post G.post lower upper (window_held window.old) window_lacks (window_held window.new) result }
    ensures room { result ≡ Err (BindError.Serialization Error.OutOfMemory) → LacksRange window_held F.post G.post lower upper (window_held window.old) window_lacks }
{
    range_to_sql(lower, upper, window)
}
