//! A bind whose values are put where they stand.
#![tactic(auto, using(pgp_base::proofs::Parts::held_steps))]

ghost use Rattle.std.specs.Prelude.{◌≡◌, ◌≢◌, ◌⊎◌, ◌+◌, ◌-◌, ◌<◌, ◌≤◌, ◌++◌, ℕ, ℤ, true, false, List, [], length, take, drop, Option, Some, None, OnOk, IfErr};
ghost use Rattle.std.specs.List.{list_all};
ghost use Rattle.pgp_base.specs.Cause.{count_cause, length_cause, Wants, WantsMemory};
ghost use Rattle.pgp_base.specs.Held.{◌⊕◌};
ghost use Rattle.pgp_base.specs.Wire.{counted, int16, uint16, uint32};
ghost use Rattle.pgp_frontend.specs.ClientMessage.{Bind};
ghost use Rattle.for_c.specs.BindItems.{BindSoFar, Ends, WhyNotEnded, WhyNoFormats};
ghost use Rattle.for_c.specs.InPlace.{IsUnfinished};
ghost use Rattle.for_c.specs.Requests.{are_bound, is_format};
ghost use Rattle.for_c.specs.Sending.{NotSent, Sent, Why};
ghost use Rattle.for_c.specs.Streams.{Extends, Keeps, free};
ghost use Rattle.for_c.specs.Values.{Wrote};

use crate::in_place::{PgpItems, is_unfinished, set_word};
use crate::list_writing::{Written, put_items};
use crate::listing::bind;
use crate::request::{are_bound, are_formats};
use crate::status::{ended, failed, no_formats, refused};
use crate::stream::{NO_ROOM, PgpStream, WRONG_PHASE};
use pgp_base::big_endian::u16_bytes;
use pgp_base::{Buffer, Error, Window, length_field, put_u16};

/// The answer where the formats of a bind are none, or don't suit its values.
const NO_FORMATS: u32 = 39;

/// The most values, or formats, that a bind counts.
const MOST: usize = 65_535;

/// The tag and the length of a message.
const HEAD: usize = 5;

/// Begins a bind of so many values, which follow one by one.
#[unsafe(no_mangle)]
pub extern "C" fn pgp_bind_begin(
    portal: &[u8],
    statement: &[u8],
    formats: &[i16],
    count: usize,
    out: &mut [u8],
    items: &mut PgpItems,
) -> u32
    ensures begun { result ≡ 0 → BindSoFar portal.now statement.now formats.now count [] out.new items.new }
    ensures behind { result ≡ 0 → drop (items.new.at + 2) out.new ≡ drop (items.new.at + 2) out.old }
    ensures size { result ≡ 0 → length out.new ≡ length out.old }
    ensures formats { are_bound formats.now count [] ≡ false → result ≡ 39 }
    ensures many { are_bound formats.now count [] ≡ true → 65535 < count → result ≡ 3 }
    ensures refused { result ≢ 0 → are_bound formats.now count [] ≡ true → count ≤ 65535 → Why (Bind portal.now statement.now formats.now [] []) out.old result }
    ensures left { result ≢ 0 → items.new ≡ items.old }
{
    if !are_bound(formats, count, &[]) {
        return NO_FORMATS;
    }
    if count > MOST {
        return failed(Error::TooLarge);
    }
    let mut written = 0;
    let code = bind(portal, statement, formats, &[], &[], out, &mut written);
    if code != 0 {
        return code;
    }
    announce(count, written, out, items);
    0
}

/// Writes how many values follow into a bind without values that ends at this place: the numbers of values and of result formats stand last.
fn announce(count: usize, end: usize, out: &mut [u8], items: &mut PgpItems)
    requires some { 4 ≤ end }
    requires within { end ≤ length out.old }
    requires few { count ≤ 65535 }
    ensures stands { out.new ≡ take (end - 4) out.old ++ (uint16 count ++ drop (end - 2) out.old) }
    ensures at { items.new.at ≡ end - 2 }
    ensures left { items.new.left ≡ count }
    ensures nulls { items.new.has_null ≡ false }
{
    set_half(out, end - 4, count as u16);
    items.at = end - 2;
    items.left = count;
    items.has_null = false;
}

/// Ends a bind whose values all stand: the formats of its results, and its length.
#[unsafe(no_mangle)]
pub extern "C" fn pgp_bind_end(
    result_formats: &[i16],
    items: &PgpItems,
    out: &mut [u8],
    written: &mut usize,
) -> u32
    ensures sent { result ≡ 0 → (portal statement : List ℕ) (formats : List ℤ) (values : List (Option (List ℕ))) (count : ℕ) → BindSoFar portal statement formats count values out.old items.now
        → Sent (Bind portal statement formats values result_formats.now) out.old out.new written.new }
    ensures all { result ≡ 0 → (items.now.left ≡ 0) × (list_all is_format result_formats.now ≡ true) }
    ensures formats { list_all is_format result_formats.now ≡ false → (result ≡ 39) × (written.new ≡ 0) }
    ensures fewer { list_all is_format result_formats.now ≡ true → IsUnfinished 5 items.now → (result ≡ 10) × (written.new ≡ 0) }
    ensures refused { result ≢ 0 → list_all is_format result_formats.now ≡ true → items.now.left ≡ 0 → (portal statement : List ℕ) (formats : List ℤ) (values : List (Option (List ℕ))) (count : ℕ)
        → BindSoFar portal statement formats count values out.old items.now → NotSent (Bind portal statement formats values result_formats.now) out.old written.new result }
    ensures left { result ≢ 0 → (written.new ≡ 0) × (take items.now.at out.new ≡ take items.now.at out.old) }
{
    if !are_formats(result_formats) {
        return no_formats(written);
    }
    if is_unfinished(items, HEAD) {
        return refused(Error::InvalidSize, written);
    }
    end(result_formats, items.at, out, written)
}

/// Ends a bind that was begun in the free memory of a stream, to which it is added.
#[unsafe(no_mangle)]
pub extern "C" fn pgp_stream_bind_end(
    stream: &mut PgpStream<'_>,
    result_formats: &[i16],
    items: &PgpItems,
) -> u32
    ensures added { result ≡ 0 → (portal statement : List ℕ) (formats : List ℤ) (values : List (Option (List ℕ))) (count : ℕ) → BindSoFar portal statement formats count values (free stream.old) items.now
        → Extends (Bind portal statement formats values result_formats.now) stream.old stream.new }
    ensures phase { stream.old.is_open ≢ true → result ≡ 32 }
    ensures broken { stream.old.is_open ≡ true → length stream.old.room.now < stream.old.len → result ≡ 1 }
    ensures formats { stream.old.is_open ≡ true → stream.old.len ≤ length stream.old.room.now → list_all is_format result_formats.now ≡ false → result ≡ 39 }
    ensures fewer { stream.old.is_open ≡ true → stream.old.len ≤ length stream.old.room.now → list_all is_format result_formats.now ≡ true → IsUnfinished 5 items.now → result ≡ 10 }
    ensures why { result ≢ 0 → stream.old.is_open ≡ true → stream.old.len ≤ length stream.old.room.now → list_all is_format result_formats.now ≡ true → items.now.left ≡ 0
        → (portal statement : List ℕ) (formats : List ℤ) (values : List (Option (List ℕ))) (count : ℕ) → BindSoFar portal statement formats count values (free stream.old) items.now
        → Why (Bind portal statement formats values result_formats.now) (free stream.old) result }
    ensures kept { result ≢ 0 → Keeps stream.old stream.new }
{
    let len = stream.len;
    if stream.is_open != true {
        return WRONG_PHASE;
    }
    if len > stream.room.len() {
        return NO_ROOM;
    }
    let mut added = 0;
    let code = pgp_bind_end(result_formats, items, &mut stream.room[len..], &mut added);
    stream.len = len.saturating_add(added);
    code
}

/// Writes the formats at this place, and the length of the message that ends after them.
fn end(formats: &[i16], at: usize, out: &mut [u8], written: &mut usize) -> u32
    requires { 5 ≤ at }
    ensures ended { result ≡ 0 → Ends at (counted int16 formats.now) out.old out.new written.new }
    ensures counted { result ≡ 0 → count_cause (length formats.now) ≡ None }
    ensures refused { result ≢ 0 → WhyNotEnded at formats.now out.old result }
    ensures left { result ≢ 0 → (written.new ≡ 0) × (take at out.new ≡ take at out.old) }
{
    if at > out.len() {
        return refused(Error::OutOfMemory, written);
    }
    let mut added = 0;
    let code = write_formats(formats, &mut out[at..], &mut added);
    if code != 0 {
        *written = 0;
        return code;
    }
    finish(at.saturating_add(added), out, written)
}

/// Writes the length of the message that ends at this place.
fn finish(len: usize, out: &mut [u8], written: &mut usize) -> u32
    requires head { 5 ≤ len }
    requires within { len ≤ length out.old }
    ensures ended { result ≡ 0 → (written.new ≡ len) × (length_cause (len - 1) ≡ None) × (out.new ≡ take 1 out.old ++ (uint32 (len - 1) ++ drop 5 out.old)) }
    ensures refused { result ≢ 0 → (written.new ≡ 0) × (result ≡ 3) × (length_cause (len - 1) ≡ Some Error.TooLarge) × (out.new ≡ out.old) }
{
    match length_field(len - 1) {
        Ok(size) => {
            set_word(out, 1, size);
            *written = len;
            0
        }
        Err(e) => refused(e, written),
    }
}

/// Writes a number over the two bytes at this place.
#[tactic(auto, unfolding(pgp_base::specs::Wire::uint16))]
fn set_half(out: &mut [u8], at: usize, half: u16)
    requires { at + 2 ≤ length out.old }
    ensures { out.new ≡ take at out.old ++ (uint16 half ++ drop (at + 2) out.old) }
{
    out[at..at + 2].copy_from_slice(&u16_bytes(half));
}

/// Writes how many formats there are, and all of them, to the front of the memory.
fn write_formats(formats: &[i16], out: &mut [u8], written: &mut usize) -> u32
    ensures counted { result ≡ 0 → count_cause (length formats.now) ≡ None }
    ensures wrote { result ≡ 0 → Wrote (counted int16 formats.now) out.old out.new written.new }
    ensures refused { result ≢ 0 → WhyNoFormats formats.now out.old result }
{
    let mut window = Window::new(out);
    let answer = put_formats(formats, &mut window);
    ended(answer, &window, written)
}

/// How many formats there are, and all of them.
fn put_formats<B: Buffer>(formats: &[i16], buf: &mut B) -> Result<(), Error>
    ensures ok { OnOk result ((count_cause (length formats.now) ≡ None) × (B.held buf.new ≡ B.held buf.old ⊕ counted int16 formats.now)) }
    ensures cause { IfErr result (λ e. WantsMemory (Wants B.Lacks (B.held buf.old) (length (counted int16 formats.now))) e ⊎ (count_cause (length formats.now) ≡ Some e)) }
{
    if formats.len() > MOST {
        return Err(Error::TooLarge);
    }
    match put_u16(buf, formats.len() as u16) {
        Ok(()) => put_items(formats, buf),
        Err(e) => Err(e),
    }
}

impl Written for i16 {
    ghost use Rattle.std.specs.Prelude.{ℤ};
    ghost use Rattle.for_c.specs.BindItems.{format_item};

    ghost Meaning = { ℤ };

    ghost meaning = { λ z. z };

    ghost item = { format_item };

    fn put<B: Buffer>(&self, buf: &mut B) -> Result<(), Error> {
        put_u16(buf, self.cast_unsigned())
    }
}
