//! Rows of writers and readers: the bytes that a call appends, and what is read from bytes.

use crate::client_read::is_read_back;
use crate::fault::Fault;
use crate::row::Row;
use crate::shown::Shown;
use crate::word::{Word, Words, bytes_of, words_of};
use bytes::BytesMut;
use pgp_base::{Buffer, Error, Window};
use std::alloc::{AllocError, Allocator, Global};
use test_alloc::Refusing;

/// The calls of a family.
pub trait Codec {
    /// Makes the call of this name with these words, which appends to the buffer.
    fn write<B: Buffer>(name: &str, words: &mut Words<'_>, buf: &mut B) -> Result<(), Error>;

    /// Shows what the type of this name reads from all of the bytes; a family of messages has none.
    fn read(_name: &str, _bytes: &[u8], out: &mut Shown) -> Result<(), Error> {
        out.word("no such type");
        Ok(())
    }
}

/// A message that stands in the buffer already.
const SYNC: &[u8] = b"S\0\0\0\x04";

/// What an error for lack of memory leaves of that.
const LACKS_MEMORY: &str = "OutOfMemory 5300000004";

/// What a call has to come to: its bytes, as they are shown, and what is shown of a buffer that held a message. It appends none where it is refused.
#[derive(Drop)]
struct Wanted {
    bytes: Vec<u8>,
    alone: Shown,
    behind: Shown,
}

fn wanted_of(alloc: Global, row: &Row<'_>) -> Result<Wanted, Fault> {
    let mut behind = Shown::new(alloc);
    let bytes = if row.is_refusal() {
        behind.word(row.right);
        Vec::new(alloc)
    } else {
        row.wanted_bytes(alloc)?
    };
    behind.bytes(SYNC);
    behind.more_bytes(&bytes);
    let mut alone = Shown::new(alloc);
    alone.bytes(&bytes);
    Ok(Wanted {
        bytes,
        alone,
        behind,
    })
}

/// A call, its words, and what it has to come to.
#[derive(Drop)]
struct Case<'c> {
    alloc: Global,
    name: &'c str,
    words: &'c [Word],
    bytes: &'c [u8],
    alone: &'c str,
    behind: &'c str,
}

/// Makes a call, which has to take all words, and shows its error.
fn call<C: Codec, B: Buffer>(case: &Case<'_>, buf: &mut B, out: &mut Shown) {
    let mut words = Words::new(case.alloc, case.words);
    if let Err(e) = C::write(case.name, &mut words, buf) {
        out.refusal(e);
    }
    out.keep(words.end());
}

/// A buffer that holds a message, and has so much room after it.
fn with_room<A: Allocator + Copy>(alloc: A, room: usize) -> Result<BytesMut<A>, AllocError> {
    let mut buf = BytesMut::with_capacity(alloc, SYNC.len().saturating_add(room))?;
    buf.extend_from_slice(SYNC)?;
    Ok(buf)
}

/// The call appends what the row says, or is rejected so and leaves what stood there.
fn is_written<C: Codec>(case: &Case<'_>, out: &mut Shown) -> Result<(), Fault> {
    let mut buf = BytesMut::new(case.alloc);
    if buf.extend_from_slice(SYNC).is_err() {
        out.fail(Fault::Memory);
    }
    call::<C, BytesMut>(case, &mut buf, out);
    out.bytes(buf.as_slice());
    out.received_to(case.behind)
}

/// Shows the call's answer in memory that has room for so many bytes, what it wrote, and whether the memory after is as it was.
fn show_in_room<C: Codec>(case: &Case<'_>, size: usize, room: &mut [u8], out: &mut Shown) {
    let Some((front, back)) = room.split_at_mut_checked(size) else {
        return out.fail(Fault::Row);
    };
    let mut window = Window::new(front);
    call::<C, Window<'_>>(case, &mut window, out);
    out.bytes(window.as_slice());
    if back.iter().any(|byte| *byte != 0xff) {
        out.word("and more");
    }
}

/// In memory that has room for so many bytes the call comes to this, and after that the memory is as it was.
fn fits<C: Codec>(
    case: &Case<'_>,
    size: usize,
    wanted: &str,
    out: &mut Shown,
) -> Result<(), Fault> {
    let mut room = vec![in case.alloc; 0xffu8; case.bytes.len().saturating_add(8)]?;
    show_in_room::<C>(case, size, &mut room, out);
    out.received_to(wanted)
}

/// Makes the call where its request of memory of this number is refused, and says whether that came.
fn refused_at<C: Codec>(
    case: &Case<'_>,
    room: usize,
    number: u64,
    out: &mut Shown,
) -> Result<bool, Fault> {
    let heap = Refusing::new(case.alloc, 0);
    let mut buf: BytesMut<&Refusing<Global>> = with_room(&heap, room)?;
    heap.until_refusal.set(number);
    call::<C, BytesMut<&Refusing<Global>>>(case, &mut buf, out);
    out.bytes(buf.as_slice());
    Ok(heap.until_refusal.get() == 0)
}

/// More requests than a row's call makes.
const REQUESTS: u64 = 1000;

/// In a buffer with so much room after what it holds each request of memory is refused in turn, until all are granted: an error
/// is reported, and leaves what stood there. Returns how many there were.
fn refusals_of<C: Codec>(case: &Case<'_>, room: usize, out: &mut Shown) -> Result<u64, Fault> {
    for number in 1..REQUESTS {
        if !refused_at::<C>(case, room, number, out)? {
            out.received_to(case.behind)?;
            return Ok(number - 1);
        }
        out.received_to(LACKS_MEMORY)?;
    }
    Err(Fault::Row)
}

/// The same for each room that is too small. A buffer may have room for up to seven bytes more than was asked for; where more are
/// missing, the call asks for memory.
fn grows<C: Codec>(case: &Case<'_>, out: &mut Shown) -> Result<(), Fault> {
    let len = case.bytes.len();
    for room in 0..len {
        let refusals = refusals_of::<C>(case, room, out)?;
        if refusals == 0 && 7 < len - room {
            out.word("asked for no memory");
            return Err(Fault::Differs);
        }
    }
    Ok(())
}

/// The call appends the bytes, wherever it appends them; in memory that is a byte short it is refused.
fn is_written_anywhere<C: Codec>(case: &Case<'_>, out: &mut Shown) -> Result<(), Fault> {
    let len = case.bytes.len();
    is_written::<C>(case, out)?;
    fits::<C>(case, len, case.alone, out)?;
    if let Some(short) = len.checked_sub(1) {
        fits::<C>(case, short, "OutOfMemory \"\"", out)?;
    }
    grows::<C>(case, out)
}

/// The call comes to what the row says.
fn writes<C: Codec>(row: &Row<'_>, name: &str, left: &str, out: &mut Shown) -> Result<(), Fault> {
    let alloc = out.alloc();
    let wanted = wanted_of(alloc, row)?;
    let words = words_of(alloc, left)?;
    let case = Case {
        alloc,
        name,
        words: &words,
        bytes: &wanted.bytes,
        alone: wanted.alone.as_str(),
        behind: wanted.behind.as_str(),
    };
    if row.is_refusal() {
        is_written::<C>(&case, out)
    } else {
        is_written_anywhere::<C>(&case, out)
    }
}

/// What is read from the bytes of a text is this.
fn is_read<C: Codec>(name: &str, bytes: &str, wanted: &str, out: &mut Shown) -> Result<(), Fault> {
    if let Err(e) = C::read(name, &bytes_of(out.alloc(), bytes)?, out) {
        out.refusal(e);
    }
    out.received_to(wanted)
}

/// A row of a call that only writes.
pub fn check_written<C: Codec>(row: &Row<'_>, out: &mut Shown) -> Result<(), Fault> {
    writes::<C>(row, row.call, row.left, out)
}

/// A row of a client's call: it appends the bytes, which a server reads back as the call, or it is rejected.
pub fn check_writer<C: Codec>(row: &Row<'_>, out: &mut Shown) -> Result<(), Fault> {
    check_written::<C>(row, out)?;
    if row.is_refusal() {
        return Ok(());
    }
    is_read_back(row, out)
}

/// A row of a type: `read` reads the bytes alone, `write` writes a value alone, and a type's name does both.
pub fn check_value<C: Codec>(row: &Row<'_>, out: &mut Shown) -> Result<(), Fault> {
    let (name, behind) = row.front();
    match row.call {
        "read" => is_read::<C>(name, behind, row.right, out),
        "write" => writes::<C>(row, name, behind, out),
        name => {
            check_written::<C>(row, out)?;
            is_read::<C>(name, row.right, row.left, out)
        }
    }
}

/// The calls of a family whose answer is shown.
pub trait Answers {
    /// Shows what the call of this name with these words comes to.
    fn show(call: &str, words: &mut Words<'_>, out: &mut Shown);
}

/// A row of a call whose answer is shown.
pub fn check_answer<C: Answers>(row: &Row<'_>, out: &mut Shown) -> Result<(), Fault> {
    let list = words_of(out.alloc(), row.left)?;
    let mut words = Words::new(out.alloc(), &list);
    C::show(row.call, &mut words, out);
    out.keep(words.end());
    out.received_to(row.right)
}
