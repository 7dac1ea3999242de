//! Rows and composite values, and multiranges: read where they stand, one item after another.

ghost use Rattle.std.specs.Prelude.{◌≡◌, ◌≢◌, length};
ghost use Rattle.pgp_base.specs.PartReading.{Answers};
ghost use Rattle.pgp_types.specs.Part.{shown};
ghost use Rattle.pgp_values.specs.ListReading.{field_at};
ghost use Rattle.pgp_values.specs.Multirange.{member, multirange};
ghost use Rattle.pgp_values.specs.Record.{composite, field};
ghost use Rattle.for_c.specs.Listings.{IsColumnInside};
ghost use Rattle.for_c.specs.Parts.{IsInside, stands};
ghost use Rattle.for_c.specs.Records.{BeginsList, member_in};
ghost use Rattle.for_c.specs.Values.{Refuses};
ghost use Rattle.for_c.specs.Walks.{IsEnded, RefusesItem, Takes};

use crate::cursor::{Listed, PgpCursor, begin, next_counted};
use crate::front::PgpPart;
use crate::part::{column_before, nullable_at, sized_at};
use crate::row::PgpColumn;
use crate::status::failed;
use pgp_base::reading::oid_at;
use pgp_base::{Error, FallibleIterator};

/// A field of a record: its value or a null, and its type.
#[repr(C)]
#[derive(Clone, Copy)]
pub struct PgpMember {
    pub value: PgpColumn,
    pub of_type: u32,
}

/// Reads how many fields a record has, and where the first begins.
#[unsafe(no_mangle)]
pub extern "C" fn pgp_get_record(bytes: &[u8], fields: &mut PgpCursor) -> u32
    ensures read { result ≡ 0 → BeginsList bytes.now fields.new }
    ensures refused { result ≢ 0 → Refuses composite bytes.now result }
    ensures left { result ≢ 0 → fields.new ≡ fields.old }
{
    match pgp_values::record_from_sql(bytes) {
        Ok(walk) => begin(bytes, walk.size_hint().0, fields),
        Err(e) => failed(e),
    }
}

/// The next field of a record.
#[unsafe(no_mangle)]
pub extern "C" fn pgp_member_next(bytes: &[u8], cursor: &mut PgpCursor, item: &mut PgpMember) -> u32
    ensures item { result ≡ 0 → Takes (λ place. field.part.Spelled) bytes.now cursor.old cursor.new (member_in bytes.now item.new) }
    ensures inside { result ≡ 0 → IsColumnInside (length bytes.now) item.new.value }
    ensures done { result ≡ 101 → IsEnded bytes.now cursor.old }
    ensures refused { result ≢ 0 → result ≢ 101 → RefusesItem field.part.Refused bytes.now cursor.old result }
    ensures left { result ≢ 0 → (cursor.new ≡ cursor.old) × (item.new ≡ item.old) }
{
    next_counted::<Fields>(bytes, cursor, item)
}

/// Reads how many ranges a multirange has, and where the first begins.
#[unsafe(no_mangle)]
pub extern "C" fn pgp_get_multirange(bytes: &[u8], ranges: &mut PgpCursor) -> u32
    ensures read { result ≡ 0 → BeginsList bytes.now ranges.new }
    ensures refused { result ≢ 0 → Refuses multirange bytes.now result }
    ensures left { result ≢ 0 → ranges.new ≡ ranges.old }
{
    match pgp_values::multirange_from_sql(bytes) {
        Ok(walk) => begin(bytes, walk.size_hint().0, ranges),
        Err(e) => failed(e),
    }
}

/// The place of the next range of a multirange.
#[unsafe(no_mangle)]
pub extern "C" fn pgp_multirange_next(
    bytes: &[u8],
    cursor: &mut PgpCursor,
    range: &mut PgpPart,
) -> u32
    ensures item { result ≡ 0 → Takes (λ place. member.part.Spelled) bytes.now cursor.old cursor.new (stands bytes.now range.new) }
    ensures inside { result ≡ 0 → IsInside (length bytes.now) range.new }
    ensures done { result ≡ 101 → IsEnded bytes.now cursor.old }
    ensures refused { result ≢ 0 → result ≢ 101 → RefusesItem member.part.Refused bytes.now cursor.old result }
    ensures left { result ≢ 0 → (cursor.new ≡ cursor.old) × (range.new ≡ range.old) }
{
    next_counted::<Ranges>(bytes, cursor, range)
}

/// The fields of a record.
struct Fields;

impl Listed for Fields {
    ghost use Rattle.pgp_values.specs.Record.{Field, field};
    ghost use Rattle.for_c.specs.Listings.{IsColumnInside};
    ghost use Rattle.for_c.specs.Records.{member_in};

    type Item = PgpMember;

    ghost Meaning = { Field };

    ghost meaning = { λ bytes m. member_in bytes m };

    ghost Spelled = { λ place. field.part.Spelled };

    ghost Refused = { field.part.Refused };

    ghost Inside = { λ size m. IsColumnInside size m.value };

    fn read(at: usize, rest: &[u8]) -> Result<(&[u8], PgpMember), Error> {
        let ((of_type, value), more) = field_at(rest)?;
        let value = column_before(value, at + (rest.len() - more.len()));
        Ok((more, PgpMember { value, of_type }))
    }
}

/// The field at the front.
#[tactic(auto, unfolding(pgp_values::specs::ListReading::field_at))]
fn field_at(bytes: &[u8]) -> Result<((u32, Option<&[u8]>), &[u8]), Error>
    ensures { Answers (λ x. ((x.0.0, shown x.0.1), x.1.now)) result (field_at bytes.now) }
{
    match oid_at(bytes) {
        Ok((of_type, rest)) => match nullable_at(rest, Error::InvalidValueLength) {
            Ok((value, rest)) => Ok(((of_type, value), rest)),
            Err(e) => Err(e),
        },
        Err(e) => Err(e),
    }
}

/// The ranges of a multirange.
struct Ranges;

impl Listed for Ranges {
    ghost use Rattle.std.specs.Prelude.{ℕ, List};
    ghost use Rattle.pgp_values.specs.Multirange.{member};
    ghost use Rattle.for_c.specs.Parts.{IsInside, stands};

    type Item = PgpPart;

    ghost Meaning = { List ℕ };

    ghost meaning = { λ bytes range. stands bytes range };

    ghost Spelled = { λ place. member.part.Spelled };

    ghost Refused = { member.part.Refused };

    ghost Inside = { λ size range. IsInside size range };

    fn read(at: usize, rest: &[u8]) -> Result<(&[u8], PgpPart), Error> {
        let (range, more) = sized_at(rest, Error::InvalidValueLength)?;
        let range = PgpPart {
            at: at + 4,
            len: range.len(),
        };
        Ok((more, range))
    }
}
