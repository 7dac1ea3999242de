//! The values of a fixed size: what writes each of them stands once.

ghost use Rattle.std.specs.Prelude.{◌≡◌, ◌≢◌, None};
ghost use Rattle.pgp_base.specs.Cause.{Writes};
ghost use Rattle.for_c.specs.Scalars.{spelled};
ghost use Rattle.for_c.specs.Values.{Lacks, Wrote};

use crate::status::{refused, sent};
use pgp_base::{Buffer, Error, Window};
use pgp_values::{Circle, Interval, Line, Segment, Tid, TimeTz};
use std::net::IpAddr;

/// A value of a fixed size; a floating-point number by its bits. A box is the coordinates of its upper right corner, and of its lower left.
#[derive(Clone, Copy)]
pub enum Scalar {
    Bool(bool),
    Box(u64, u64, u64, u64),
    Char(i8),
    Cidr(IpAddr, u8),
    Circle(Circle),
    Date(i32),
    EmptyRange,
    Float4(u32),
    Float8(u64),
    Inet(IpAddr, u8),
    Int2(i16),
    Int4(i32),
    Int8(i64),
    Interval(Interval),
    Line(Line),
    Lseg(Segment),
    Lsn(u64),
    Macaddr([u8; 6]),
    Macaddr8([u8; 8]),
    Oid(u32),
    Point(u64, u64),
    Tid(Tid),
    Time(i64),
    TimeTz(TimeTz),
    Timestamp(i64),
    Uuid([u8; 16]),
}

/// Writes the value to the front of the memory.
// The hints carry the speed: an export names its type, so that of the choice nothing is left in it.
#[inline(always)]
pub fn put(value: Scalar, out: &mut [u8], written: &mut usize) -> u32
    ensures wrote { result ≡ 0 → Wrote (spelled value) out.old out.new written.new }
    ensures lacks { result ≢ 0 → Lacks (spelled value) out.old written.new result }
{
    let mut window = Window::new(out);
    match append(value, &mut window) {
        Ok(()) => sent(&window, written),
        Err(e) => refused(e, written),
    }
}

/// Appends the value.
#[inline(always)]
fn append<B: Buffer>(value: Scalar, buf: &mut B) -> Result<(), Error>
    ensures { Writes (spelled value) None B.Lacks (B.held buf.old) (B.held buf.new) result }
{
    match value {
        Scalar::Bool(value) => pgp_types::bool_to_sql(value, buf),
        Scalar::Box(x1, y1, x2, y2) => pgp_types::box_to_sql(x1, y1, x2, y2, buf),
        Scalar::Char(value) => pgp_types::char_to_sql(value, buf),
        Scalar::Cidr(addr, netmask) => pgp_values::cidr_to_sql(addr, netmask, buf),
        Scalar::Circle(circle) => pgp_values::circle_to_sql(circle, buf),
        Scalar::Date(days) => pgp_types::date_to_sql(days, buf),
        Scalar::EmptyRange => pgp_types::empty_range_to_sql(buf),
        Scalar::Float4(bits) => pgp_types::float4_to_sql(bits, buf),
        Scalar::Float8(bits) => pgp_types::float8_to_sql(bits, buf),
        Scalar::Inet(addr, netmask) => pgp_types::inet_to_sql(addr, netmask, buf),
        Scalar::Int2(value) => pgp_types::int2_to_sql(value, buf),
        Scalar::Int4(value) => pgp_types::int4_to_sql(value, buf),
        Scalar::Int8(value) => pgp_types::int8_to_sql(value, buf),
        Scalar::Interval(span) => pgp_values::interval_to_sql(span, buf),
        Scalar::Line(line) => pgp_values::line_to_sql(line, buf),
        Scalar::Lseg(segment) => pgp_values::lseg_to_sql(segment, buf),
        Scalar::Lsn(value) => pgp_types::lsn_to_sql(value, buf),
        Scalar::Macaddr(octets) => pgp_types::macaddr_to_sql(octets, buf),
        Scalar::Macaddr8(octets) => pgp_values::macaddr8_to_sql(octets, buf),
        Scalar::Oid(value) => pgp_types::oid_to_sql(value, buf),
        Scalar::Point(x, y) => pgp_types::point_to_sql(x, y, buf),
        Scalar::Tid(tid) => pgp_values::tid_to_sql(tid, buf),
        Scalar::Time(time) => pgp_types::time_to_sql(time, buf),
        Scalar::TimeTz(time) => pgp_values::timetz_to_sql(time, buf),
        Scalar::Timestamp(time) => pgp_types::timestamp_to_sql(time, buf),
        Scalar::Uuid(octets) => pgp_types::uuid_to_sql(octets, buf),
    }
}
