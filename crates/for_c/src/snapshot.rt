//! What a transaction sees: read where it stands, its transactions one after another; and written.

ghost use Rattle.std.specs.Prelude.{◌≡◌, ◌≢◌, IfOk, IfErr};
ghost use Rattle.pgp_types.specs.Part.{Begins};
ghost use Rattle.pgp_values.specs.Snapshot.{snapshot, snapshot_head, snapshot_of, xid_part};
ghost use Rattle.for_c.specs.ListWriting.{IsNotWritten, WroteValue};
ghost use Rattle.for_c.specs.Values.{Refuses};
ghost use Rattle.for_c.specs.Walks.{IsEnded, RefusesItem, Takes, rest};

use crate::cursor::{Listed, PgpCursor, next_counted};
use crate::status::{ended, failed};
use pgp_base::{Error, FallibleIterator, Window};

/// A `pg_snapshot`: every transaction below `xmin` is over, none from `xmax` on had begun, and of those between the listed ones were running.
#[repr(C)]
#[derive(Clone, Copy)]
pub struct PgpSnapshot {
    pub running: PgpCursor,
    pub xmin: u64,
    pub xmax: u64,
}

/// Reads the bounds of a `pg_snapshot`, and where its transactions begin.
#[unsafe(no_mangle)]
pub extern "C" fn pgp_get_snapshot(bytes: &[u8], value: &mut PgpSnapshot) -> u32
    ensures read { result ≡ 0 → Begins snapshot_head bytes.now (value.new.running.left, (value.new.xmin, value.new.xmax)) (rest bytes.now value.new.running) }
    ensures refused { result ≢ 0 → Refuses snapshot bytes.now result }
    ensures left { result ≢ 0 → value.new ≡ value.old }
{
    match pgp_values::snapshot_from_sql(bytes) {
        Ok(snapshot) => {
            *value = PgpSnapshot {
                running: PgpCursor {
                    at: 20,
                    end: bytes.len(),
                    left: snapshot.running().size_hint().0,
                },
                xmin: snapshot.xmin(),
                xmax: snapshot.xmax(),
            };
            0
        }
        Err(e) => failed(e),
    }
}

/// The next transaction of a `pg_snapshot`.
#[unsafe(no_mangle)]
pub extern "C" fn pgp_xid_next(bytes: &[u8], cursor: &mut PgpCursor, xid: &mut u64) -> u32
    ensures item { result ≡ 0 → Takes (λ place. xid_part.Spelled) bytes.now cursor.old cursor.new xid.new }
    ensures done { result ≡ 101 → IsEnded bytes.now cursor.old }
    ensures refused { result ≢ 0 → result ≢ 101 → RefusesItem xid_part.Refused bytes.now cursor.old result }
    ensures left { result ≢ 0 → (cursor.new ≡ cursor.old) × (xid.new ≡ xid.old) }
{
    next_counted::<Xids>(bytes, cursor, xid)
}

/// Writes a `pg_snapshot` of these bounds, and of the transactions between them that were running.
#[unsafe(no_mangle)]
pub extern "C" fn pgp_put_snapshot(
    xmin: u64,
    xmax: u64,
    running: &[u64],
    out: &mut [u8],
    written: &mut usize,
) -> u32
    ensures wrote { result ≡ 0 → WroteValue snapshot (snapshot_of xmin xmax running.now) out.old out.new written.new }
    ensures refused { result ≢ 0 → IsNotWritten snapshot (snapshot_of xmin xmax running.now) out.old written.new result }
{
    let mut window = Window::new(out);
    let answer = pgp_values::snapshot_to_sql(xmin, xmax, running.iter().copied(), &mut window);
    ended(answer, &window, written)
}

/// The transactions of a snapshot.
struct Xids;

impl Listed for Xids {
    ghost use Rattle.std.specs.Prelude.{ℕ, ⊤};
    ghost use Rattle.pgp_values.specs.Snapshot.{xid_part};

    type Item = u64;

    ghost Meaning = { ℕ };

    ghost meaning = { λ bytes xid. xid };

    ghost Spelled = { λ place. xid_part.Spelled };

    ghost Refused = { xid_part.Refused };

    ghost Inside = { λ size xid. ⊤ };

    fn read(_at: usize, rest: &[u8]) -> Result<(&[u8], u64), Error> {
        match xid_at(rest) {
            Ok((xid, more)) => Ok((more, xid)),
            Err(e) => Err(e),
        }
    }
}

/// The transaction at the front.
fn xid_at(bytes: &[u8]) -> Result<(u64, &[u8]), Error>
    ensures xid { IfOk result (λ x. Begins xid_part bytes.now x.0 x.1.now) }
    ensures refused { IfErr result (λ e. xid_part.Refused bytes.now e) }
{
    if bytes.len() < 8 {
        return Err(Error::UnexpectedEof);
    }
    let (front, rest) = bytes.split_at(8);
    match pgp_values::xid8_from_sql(front) {
        Ok(xid) => Ok((xid, rest)),
        Err(e) => Err(e),
    }
}
