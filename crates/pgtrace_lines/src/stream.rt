//! The listing of a stream, as it comes.

ghost use Rattle.std.specs.Prelude.{◌≡◌, ◌⊎◌, ◌≤◌, ◌<◌, ◌++◌, ◌∷◌, [], ℕ, List, drop, length, take, IfErr, IfOk, IfSome, OnErr, OnOk, string_bytes};
ghost use Rattle.pgtrace_lines.specs.Common.{Appends, IsAtEnd, Keeps, Caused, AppendsFront, Columns, Json};
ghost use Rattle.pgtool_line.specs.Interruptions.{GivesUp, NoRead, StopsReading};
ghost use Rattle.pgtrace_lines.specs.Listing.{IsCutShort, ReadsWhenReady, WasListed, WritesListing, last_by, last_line, streams};
ghost use Rattle.pgtrace_lines.specs.Steps.{Holds, ListsAll, ListsPiece, ListsSome, side_of, view_of};

use crate::frame::Next;
use crate::hint::hint_of;
use crate::next::next_line;
use crate::ports::Input;
use crate::side::Side;
use crate::view::{View, add_shown};
use bytes::{Buf, BytesMut};
use pgp_base::Memory;
use pgtool_line::fault::Fault;
use pgtool_line::ports::Output;
use pgtool_line::print::{flush, put};
use pgtool_line::style::{Form, Style};
use std::alloc::AllocError;
use std::io::ErrorKind;

/// How many bytes are read at a time.
const PIECE: usize = 65536;

/// What is kept of a stream.
#[derive(Drop)]
struct Held<'a, A: Memory> {
    side: Side<'a>,
    /// The bytes that aren't listed yet.
    bytes: BytesMut<A>,
    /// Where they stand.
    place: u64,
    /// Whether nothing says where a frame begins in them. What comes after them is counted alone.
    stopped: bool,
    /// How many bytes aren't listed.
    left: u64,
    /// Memory for a line.
    line: String<A>,
    /// Memory for the lines of a piece.
    lines: String<A>,
}

/// Lists the bytes that this side sent, as they come: the lines of all frames that are whole are written and passed on before
/// more is read. Of long texts and values a front is shown. Returns what is to be said of bytes that are left.
///
/// # Errors
///
/// Returns `Memory` if an allocation fails, `Read` if reading fails, and `Write` if writing or a flush fails.
pub fn list<A: Memory, R: Input, W: Output>(
    alloc: A,
    view: View<'_>,
    side: Side<'_>,
    input: &mut R,
    output: &mut W,
) -> Result<&'static str, Fault>
    requires live { ReadsWhenReady R.remaining W.contents W.Passed R.MayRead (view_of view) (side_of side) input.old output.old }
    ensures read { OnOk result (IsAtEnd (R.remaining input.new)) }
    ensures listed { IfOk result (λ said. IfSome (R.remaining input.old) (λ bytes. WritesListing (view_of view.entry) (side_of side.entry) bytes (W.contents output.old) (W.contents output.new) said.now)) }
    ensures live { IfErr result (λ fault. fault ≡ Fault.Read → WasListed (view_of view.entry) (side_of side.entry) (streams (R.remaining input.old) (W.contents output.old)) (streams (R.remaining input.new) (W.contents output.new))) }
    ensures passed { IfErr result (λ fault. fault ≡ Fault.Read → Keeps (W.contents output.old) (W.contents output.new) ⊎ W.Passed output.new) }
    ensures done { OnOk result (W.Passed output.new) }
    ensures cut { OnErr result (IsCutShort (view_of view.entry) (side_of side.entry) (streams (R.remaining input.old) (W.contents output.old)) (streams (R.remaining input.new) (W.contents output.new))) }
    ensures cause { IfErr result (Caused A.Lacks (StopsReading R.Fails R.Called) (GivesUp W.Fails W.Interrupted)) }
{
    let mut piece = A::list_filled(alloc, 0, PIECE)?;
    list_stream(alloc, view, side, input, piece.as_mut_slice(), output)
}

/// Lists the bytes, a piece at a time. Returns what is to be said of those that are left.
fn list_stream<A: Memory, R: Input, W: Output>(
    alloc: A,
    view: View<'_>,
    side: Side<'_>,
    input: &mut R,
    piece: &mut [u8],
    output: &mut W,
) -> Result<&'static str, Fault>
    requires some { 0 < length piece.old }
    requires live { ReadsWhenReady R.remaining W.contents W.Passed R.MayRead (view_of view) (side_of side) input.old output.old }
    ensures read { OnOk result (IsAtEnd (R.remaining input.new)) }
    ensures listed { IfOk result (λ said. IfSome (R.remaining input.old) (λ bytes. WritesListing (view_of view.entry) (side_of side.entry) bytes (W.contents output.old) (W.contents output.new) said.now)) }
    ensures live { IfErr result (λ fault. fault ≡ Fault.Read → WasListed (view_of view.entry) (side_of side.entry) (streams (R.remaining input.old) (W.contents output.old)) (streams (R.remaining input.new) (W.contents output.new))) }
    ensures passed { IfErr result (λ fault. fault ≡ Fault.Read → Keeps (W.contents output.old) (W.contents output.new) ⊎ W.Passed output.new) }
    ensures done { OnOk result (W.Passed output.new) }
    ensures cut { OnErr result (IsCutShort (view_of view.entry) (side_of side.entry) (streams (R.remaining input.old) (W.contents output.old)) (streams (R.remaining input.new) (W.contents output.new))) }
    ensures cause { IfErr result (Caused A.Lacks (StopsReading R.Fails R.Called) (GivesUp W.Fails W.Interrupted)) }
{
    let mut held = Held {
        side,
        bytes: BytesMut::new(alloc),
        place: 0,
        stopped: false,
        left: 0,
        line: String::new(alloc),
        lines: String::new(alloc),
    };
    // Bounded, since each function has to end, and a reader may give pieces or be interrupted forever.
    'pieces: for _ in 0..u64::MAX {
        match input.read_some(piece) {
            Ok(0) => {
                let said = hint_of(false, held.side, held.left);
                return list_rest(view, held.stopped, held.left, said, &mut held.line, output);
            }
            Ok(n) => list_piece(view, &piece[..n], &mut held, output)?,
            Err(e) => match e.kind() {
                ErrorKind::Interrupted => {}
                ErrorKind::OutOfMemory => return Err(Fault::Memory),
                _ => return Err(Fault::Read),
            },
        }
    }
    Err(Fault::Read)
}

/// Lists the frames that are whole with this piece, and has their lines passed on.
fn list_piece<A: Memory, W: Output>(
    view: View<'_>,
    piece: &[u8],
    held: &mut Held<'_, A>,
    output: &mut W,
) -> Result<(), Fault>
    ensures all { OnOk result ((rest : List ℕ) → Holds (record { side = side_of held.old.side; bytes = held.old.bytes.items; place = held.old.place; stopped = held.old.stopped; left = held.old.left }) rest →
        ListsPiece (view_of view.entry) held.old.place (side_of held.old.side) (rest ++ piece.now)
        (record { side = side_of held.new.side; bytes = held.new.bytes.items; place = held.new.place; stopped = held.new.stopped; left = held.new.left })
        (W.contents output.old) (W.contents output.new)) }
    ensures passed { OnOk result (W.Passed output.new) }
    ensures some { OnErr result ((rest : List ℕ) → Holds (record { side = side_of held.old.side; bytes = held.old.bytes.items; place = held.old.place; stopped = held.old.stopped; left = held.old.left }) rest →
        ListsSome (view_of view.entry) held.old.place (side_of held.old.side) (rest ++ piece.now) (W.contents output.old) (W.contents output.new)) }
    ensures cause { IfErr result (Caused A.Lacks NoRead (GivesUp W.Fails W.Interrupted)) }
{
    if held.stopped {
        held.left = held.left.saturating_add(piece.len() as u64);
        return pass_on(output);
    }
    A::append(&mut held.bytes, piece)?;
    held.lines.clear();
    let (listed, stopped, side) = list_frames(
        view,
        held.place,
        held.side,
        held.bytes.as_slice(),
        &mut held.line,
        &mut held.lines,
    )?;
    held.side = side;
    held.bytes.advance(listed);
    held.place = held.place.saturating_add(listed as u64);
    held.left = held.bytes.len() as u64;
    held.stopped = stopped;
    put_lines(held.lines.as_str(), output)
}

/// Adds the lines of the complete frames at the front of the bytes, which stand at this place. Returns how many bytes they take, whether
/// nothing says where the next one begins, and what is then known of the side.
fn list_frames<'a, A: Memory>(
    view: View<'_>,
    place: u64,
    side: Side<'a>,
    bytes: &[u8],
    line: &mut String<A>,
    lines: &mut String<A>,
) -> Result<(usize, bool, Side<'a>), AllocError>
    ensures within { IfOk result (λ answer. answer.0 ≤ length bytes.now) }
    ensures all { IfOk result (λ answer. ListsAll (view_of view.entry) place (side_of side.entry) bytes.now (take answer.0 bytes.now) (drop answer.0 bytes.now) answer.1 (side_of answer.2)
        (string_bytes lines.old) (string_bytes lines.new)) }
    ensures lacks { OnErr result A.Lacks }
{
    let mut here = side;
    let mut rest = bytes;
    'frames: loop {
        let passed = bytes.len() - rest.len();
        let (next, to, behind) = next_line(
            view.style,
            place.saturating_add(passed as u64),
            here,
            rest,
            line,
        )?;
        match next {
            Next::Line(name) => add_shown(view, name, line.as_str(), lines)?,
            Next::Waits => return Ok((passed, false, here)),
            Next::Stops => return Ok((passed, true, here)),
        }
        here = to;
        rest = behind;
    }
}

/// Has the lines so far passed on.
fn pass_on<W: Output>(output: &mut W) -> Result<(), Fault>
    ensures kept { Keeps (W.contents output.old) (W.contents output.new) }
    ensures passed { OnOk result (W.Passed output.new) }
    ensures fault { IfErr result (λ fault. fault ≡ Fault.Write) }
    ensures failed { OnErr result (GivesUp W.Fails W.Interrupted) }
{
    flush(output)
}

/// Writes the lines of a piece, and has them passed on.
fn put_lines<W: Output>(lines: &str, output: &mut W) -> Result<(), Fault>
    ensures written { OnOk result (Appends (W.contents output.old) (W.contents output.new) lines.now) }
    ensures front { OnErr result (AppendsFront (W.contents output.old) (W.contents output.new) lines.now) }
    ensures passed { OnOk result (W.Passed output.new) }
    ensures fault { IfErr result (λ fault. fault ≡ Fault.Write) }
    ensures failed { OnErr result (GivesUp W.Fails W.Interrupted) }
{
    put(lines.as_bytes(), output)
}

/// Writes the last line, of the bytes that are left. Returns what is to be said of them.
fn list_rest<A: Memory, W: Output>(
    view: View<'_>,
    stopped: bool,
    left: u64,
    said: &'static str,
    line: &mut String<A>,
    output: &mut W,
) -> Result<&'static str, Fault>
    ensures said { IfOk result (λ text. text.now ≡ said.now) }
    ensures all { OnOk result (Appends (W.contents output.old) (W.contents output.new) (last_line (view_of view.entry) stopped left)) }
    ensures some { OnErr result (AppendsFront (W.contents output.old) (W.contents output.new) (last_line (view_of view.entry) stopped left)) }
    ensures passed { OnOk result (W.Passed output.new) }
    ensures cause { IfErr result (Caused A.Lacks NoRead (GivesUp W.Fails W.Interrupted)) }
{
    line.clear();
    put_rest(view.style, stopped, left, line)?;
    put_last(line.as_bytes(), output)?;
    Ok(said)
}

/// Writes the last line, and has it passed on.
fn put_last<W: Output>(line: &[u8], output: &mut W) -> Result<(), Fault>
    ensures written { OnOk result (Appends (W.contents output.old) (W.contents output.new) line.now) }
    ensures front { OnErr result (AppendsFront (W.contents output.old) (W.contents output.new) line.now) }
    ensures passed { OnOk result (W.Passed output.new) }
    ensures fault { IfErr result (λ fault. fault ≡ Fault.Write) }
    ensures failed { OnErr result (GivesUp W.Fails W.Interrupted) }
{
    put(line, output)
}

/// Adds the last line, of so many bytes that are left.
pub fn put_rest<A: Memory>(
    style: Style,
    stopped: bool,
    n: u64,
    line: &mut String<A>,
) -> Result<(), AllocError>
    ensures line { OnOk result (string_bytes line.new ≡ string_bytes line.old ++ last_by style.form stopped n ++ 10 ∷ []) }
    ensures lacks { OnErr result A.Lacks }
{
    match style.form {
        Form::Columns => put_rest_line(stopped, n, line),
        Form::Json => put_rest_object(stopped, n, line),
    }
}

fn put_rest_line<A: Memory>(stopped: bool, n: u64, line: &mut String<A>) -> Result<(), AllocError>
    ensures line { OnOk result (string_bytes line.new ≡ string_bytes line.old ++ last_by Columns stopped n ++ 10 ∷ []) }
    ensures lacks { OnErr result A.Lacks }
{
    if stopped {
        A::push_shown(line, format_args!("stopped rest {n}\n"))
    } else {
        A::push_shown(line, format_args!("rest {n}\n"))
    }
}

fn put_rest_object<A: Memory>(stopped: bool, n: u64, line: &mut String<A>) -> Result<(), AllocError>
    ensures line { OnOk result (string_bytes line.new ≡ string_bytes line.old ++ last_by Json stopped n ++ 10 ∷ []) }
    ensures lacks { OnErr result A.Lacks }
{
    if stopped {
        A::push_shown(line, format_args!("{{\"rest\":{n},\"stopped\":true}}\n"))
    } else {
        A::push_shown(line, format_args!("{{\"rest\":{n},\"stopped\":false}}\n"))
    }
}
