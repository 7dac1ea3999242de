//! The listing of a recording, as it comes.

ghost use Rattle.std.specs.Prelude.{◌≡◌, ◌≤◌, ◌<◌, ◌++◌, ◌⊎◌, ℕ, Bool, List, [], false, true, drop, length, IfErr, IfOk, OnErr, OnOk, string_bytes};
ghost use Rattle.pgtrace_session.specs.Common.{Appends, Keeps, GivesUp, NoRead, StopsReading, Caused, AppendsFront, streams};
ghost use Rattle.pgtrace_lines.specs.Steps.{view_of};
ghost use Rattle.pgtrace_lines.specs.declared.marking.Marking.{Marking as Marks};
ghost use Rattle.pgtrace_session.specs.Pieces.{Follows, IsFirst, ListsAllChunks, ListsPiece, ListsSome, SumsRecording, Tracks, held_first, held_last, held_nothing, held_said};
ghost use Rattle.pgtrace_session.specs.Recording.{status_of};
ghost use Rattle.pgtrace_session.specs.Session.{BreaksOff, CutsLines, IsCutShort, IsReadTo, ReadsWhenReady, WasListed, summarized};
ghost use Rattle.pgtrace_session.specs.Several.{ListsRecording, tallies_in};
ghost use Rattle.pgtrace_session.specs.Steps.{end_of, half_of, kept_of};
ghost use Rattle.pgtrace_summary.specs.Runs.{tally_after};
ghost use Rattle.std.specs.Option.{option_map};

use crate::chunk::{Part, first_part};
use crate::connection::{Half, Talk, list_chunk};
use crate::ending::{End, complaint_of, end_of, status_of};
use crate::frames::{Texts, no_texts};
use crate::last::add_end;
use crate::numbers::summary_of;
use crate::outcome::Ended;
use crate::start::{Start, first_start};
use crate::state::{at_first, is_replicating};
use bytes::{Buf, BytesMut};
use pgp_base::Memory;
use pgtool_line::fault::Fault;
use pgtool_line::ports::Output;
use pgtool_line::print::put;
use pgtrace_lines::hint::hint_of;
use pgtrace_lines::marking::Marking;
use pgtrace_lines::ports::Input;
use pgtrace_lines::side::Side;
use pgtrace_lines::view::View;
use pgtrace_summary::{MapMemory, Summary};
use std::alloc::AllocError;
use std::io::ErrorKind;

/// How many bytes are read at a time.
const PIECE: usize = 65536;

/// What is kept of a recording.
#[derive(Drop)]
struct Held<A: MapMemory> {
    /// Whether its beginning was read.
    begun: bool,
    talk: Talk<A>,
    /// The bytes of which no chunk is whole.
    bytes: BytesMut<A>,
    texts: Texts<A>,
}

/// Lists a recording, as it comes: the lines of all frames that are whole with a chunk are written and passed on before more is read. Of what is no
/// recording, and of what comes after the last chunk where no other follows, no more is read.
///
/// # Errors
///
/// Returns `Memory` if an allocation fails, `Read` if reading fails, and `Write` if writing or a flush fails.
pub fn list_session<A: MapMemory, R: Input, W: Output>(
    alloc: A,
    view: View<'_>,
    marking: Marking,
    input: &mut R,
    output: &mut W,
) -> Result<Ended<'static>, Fault>
    requires live { ReadsWhenReady R.remaining W.contents W.Passed R.MayRead (view_of view) marking input.old output.old }
    ensures passed { OnOk result (W.Passed output.new) }
    ensures done { IfOk result (λ ended. ListsRecording (view_of view.entry) marking (streams (R.remaining input.old) (W.contents output.old)) (streams (R.remaining input.new) (W.contents output.new)) ended.status (ended.first.now ++ ended.second.now ++ ended.third.now)) }
    ensures stops { IfErr result (λ fault. BreaksOff (W.Passed output.new) (view_of view.entry) marking fault (streams (R.remaining input.old) (W.contents output.old)) (streams (R.remaining input.new) (W.contents output.new))) }
    ensures cut { OnErr result (IsCutShort (view_of view.entry) marking (streams (R.remaining input.old) (W.contents output.old)) (streams (R.remaining input.new) (W.contents output.new))) }
    ensures cause { IfErr result (Caused A.Lacks (StopsReading R.Fails R.Called) (GivesUp W.Fails W.Interrupted)) }
{
    let mut piece = A::list_filled(alloc, 0, PIECE)?;
    let mut held = held_at_first(alloc, marking);
    list_held(
        view,
        marking,
        input,
        piece.as_mut_slice(),
        &mut held,
        output,
    )
}

/// The same, where nothing was listed.
fn list_held<A: MapMemory, R: Input, W: Output>(
    view: View<'_>,
    marking: Marking,
    input: &mut R,
    piece: &mut [u8],
    held: &mut Held<A>,
    output: &mut W,
) -> Result<Ended<'static>, Fault>
    requires some { 0 < length piece.old }
    requires first { IsFirst marking held.old.begun (kept_of held.old.talk) held.old.bytes.items }
    requires live { ReadsWhenReady R.remaining W.contents W.Passed R.MayRead (view_of view) marking input.old output.old }
    ensures passed { OnOk result (W.Passed output.new) }
    ensures done { IfOk result (λ ended. ListsRecording (view_of view.entry) marking (streams (R.remaining input.old) (W.contents output.old)) (streams (R.remaining input.new) (W.contents output.new)) ended.status (ended.first.now ++ ended.second.now ++ ended.third.now)) }
    ensures stops { IfErr result (λ fault. BreaksOff (W.Passed output.new) (view_of view.entry) marking fault (streams (R.remaining input.old) (W.contents output.old)) (streams (R.remaining input.new) (W.contents output.new))) }
    ensures cut { OnErr result (IsCutShort (view_of view.entry) marking (streams (R.remaining input.old) (W.contents output.old)) (streams (R.remaining input.new) (W.contents output.new))) }
    ensures cause { IfErr result (Caused A.Lacks (StopsReading R.Fails R.Called) (GivesUp W.Fails W.Interrupted)) }
{
    let stopped = list_pieces(view, marking, input, piece, held, output)?;
    list_last(view, stopped, held, output)
}

/// Adds to a table what the requests of a recording ran, as it comes; nothing is written. Returns how it ends.
///
/// # Errors
///
/// Returns `Memory` if an allocation fails, `Read` if reading fails, and `Write` if a flush fails.
pub fn sum_session<A: MapMemory, R: Input, W: Output>(
    alloc: A,
    view: View<'_>,
    marking: Marking,
    input: &mut R,
    table: &mut Summary<A>,
    output: &mut W,
) -> Result<End, Fault>
    requires live { ReadsWhenReady R.remaining W.contents W.Passed R.MayRead (summarized true (view_of view)) marking input.old output.old }
    ensures added { IfOk result (λ end. SumsRecording (view_of view.entry) marking (R.remaining input.old) (R.remaining input.new) end table.old.tallies table.new.tallies) }
    ensures kept { Keeps (W.contents output.old) (W.contents output.new) }
    ensures cause { IfErr result (Caused A.Lacks (StopsReading R.Fails R.Called) (GivesUp W.Fails W.Interrupted)) }
{
    let mut piece = A::list_filled(alloc, 0, PIECE)?;
    let mut held = held_at_first(alloc, marking);
    sum_held(
        view,
        marking,
        input,
        piece.as_mut_slice(),
        &mut held,
        table,
        output,
    )
}

/// The same, where nothing was listed.
fn sum_held<A: MapMemory, R: Input, W: Output>(
    view: View<'_>,
    marking: Marking,
    input: &mut R,
    piece: &mut [u8],
    held: &mut Held<A>,
    table: &mut Summary<A>,
    output: &mut W,
) -> Result<End, Fault>
    requires some { 0 < length piece.old }
    requires first { IsFirst marking held.old.begun (kept_of held.old.talk) held.old.bytes.items }
    requires live { ReadsWhenReady R.remaining W.contents W.Passed R.MayRead (summarized true (view_of view)) marking input.old output.old }
    ensures added { IfOk result (λ end. SumsRecording (view_of view.entry) marking (R.remaining input.old) (R.remaining input.new) end table.old.tallies table.new.tallies) }
    ensures kept { Keeps (W.contents output.old) (W.contents output.new) }
    ensures cause { IfErr result (Caused A.Lacks (StopsReading R.Fails R.Called) (GivesUp W.Fails W.Interrupted)) }
{
    let quiet = summarized(view);
    let stopped = list_pieces(quiet, marking, input, piece, held, output)?;
    add_table(summary_of(&held.talk.known.numbers), table)?;
    Ok(end_of(held.begun, stopped, held.bytes.as_slice()))
}

/// No message has this name.
const NO_NAME: &[&str] = &[""];

/// How the listing looks of which a table alone is written: no line of a message is.
pub fn summarized(view: View<'_>) -> View<'_>
    ensures { view_of result ≡ summarized true (view_of view.entry) }
{
    View {
        style: view.style,
        only: NO_NAME,
        except: view.except,
        colored: view.colored,
        slower: view.slower,
    }
}

/// Adds what requests ran, where that is known.
fn add_table<A: MapMemory>(
    summary: Option<&Summary<A>>,
    table: &mut Summary<A>,
) -> Result<(), AllocError>
    ensures added { OnOk result (table.new.tallies ≡ tally_after table.old.tallies (tallies_in (option_map (λ summary. summary.now) summary.entry))) }
    ensures lacks { OnErr result A.Lacks }
{
    match summary {
        Some(summary) => table.add(summary),
        None => Ok(()),
    }
}

/// Before the first byte of a recording.
fn held_at_first<A: MapMemory>(alloc: A, marking: Marking) -> Held<A>
    ensures { IsFirst marking result.begun (kept_of result.talk) result.bytes.items }
{
    Held {
        begun: false,
        talk: talk_at_first(alloc, marking),
        bytes: BytesMut::new(alloc),
        texts: no_texts(alloc),
    }
}

/// Before the first chunk.
fn talk_at_first<A: MapMemory>(alloc: A, marking: Marking) -> Talk<A>
    ensures { kept_of result ≡ held_first (record marking { absolute = false }) }
{
    Talk {
        known: at_first(alloc, marking),
        client: half_at_first(alloc),
        server: half_at_first(alloc),
        start: Start::Pending,
    }
}

fn half_at_first<A: MapMemory>(alloc: A) -> Half<A>
    ensures { half_of result ≡ held_nothing }
{
    Half {
        bytes: BytesMut::new(alloc),
        place: 0,
        stopped: false,
        left: 0,
    }
}

/// Lists the chunks of a recording, a piece at a time. Returns whether no chunk comes after them.
fn list_pieces<A: MapMemory, R: Input, W: Output>(
    view: View<'_>,
    marking: Marking,
    input: &mut R,
    piece: &mut [u8],
    held: &mut Held<A>,
    output: &mut W,
) -> Result<bool, Fault>
    requires some { 0 < length piece.old }
    requires first { IsFirst marking held.old.begun (kept_of held.old.talk) held.old.bytes.items }
    requires live { ReadsWhenReady R.remaining W.contents W.Passed R.MayRead (view_of view) marking input.old output.old }
    ensures listed { IfOk result (λ stopped. Follows (view_of view.entry) marking (streams (R.remaining input.old) (W.contents output.old)) (streams (R.remaining input.new) (W.contents output.new)) held.new.begun stopped (kept_of held.new.talk) held.new.bytes.items) }
    ensures all { IfOk result (λ stopped. IsReadTo (end_of held.new.begun stopped held.new.bytes.items) held.new.bytes.items (R.remaining input.new)) }
    ensures live { IfErr result (λ fault. fault ≡ Fault.Read → WasListed (view_of view.entry) marking (streams (R.remaining input.old) (W.contents output.old)) (streams (R.remaining input.new) (W.contents output.new))) }
    ensures passed { IfErr result (λ fault. fault ≡ Fault.Read → Keeps (W.contents output.old) (W.contents output.new) ⊎ W.Passed output.new) }
    ensures cut { OnErr result (CutsLines (view_of view.entry) marking (streams (R.remaining input.old) (W.contents output.old)) (streams (R.remaining input.new) (W.contents output.new))) }
    ensures cause { IfErr result (Caused A.Lacks (StopsReading R.Fails R.Called) (GivesUp W.Fails W.Interrupted)) }
{
    held.talk.start = first_start(marking.absolute);
    // Bounded, since each function has to end, and a reader may give pieces or be interrupted forever.
    'pieces: for _ in 0..u64::MAX {
        match input.read_some(piece) {
            Ok(0) => return Ok(false),
            Ok(n) => {
                if list_piece(view, &piece[..n], held, output)? {
                    return Ok(true);
                }
            }
            Err(e) => match e.kind() {
                ErrorKind::Interrupted => {}
                ErrorKind::OutOfMemory => return Err(Fault::Memory),
                _ => return Err(Fault::Read),
            },
        }
    }
    Err(Fault::Read)
}

/// Lists the chunks that are whole with this piece, and has their lines passed on. Returns whether no chunk comes after them.
fn list_piece<A: MapMemory, W: Output>(
    view: View<'_>,
    piece: &[u8],
    held: &mut Held<A>,
    output: &mut W,
) -> Result<bool, Fault>
    ensures all { IfOk result (λ stopped. (marking : Marks) (bytes lines : List ℕ) → Tracks (view_of view.entry) marking bytes lines held.old.begun (kept_of held.old.talk) held.old.bytes.items →
        ListsPiece (view_of view.entry) marking (bytes ++ piece.now) lines held.new.begun stopped (kept_of held.new.talk) held.new.bytes.items (W.contents output.old) (W.contents output.new)) }
    ensures passed { OnOk result (W.Passed output.new) }
    ensures some { OnErr result ((marking : Marks) (bytes lines : List ℕ) → Tracks (view_of view.entry) marking bytes lines held.old.begun (kept_of held.old.talk) held.old.bytes.items →
        ListsSome (view_of view.entry) marking (bytes ++ piece.now) lines (W.contents output.old) (W.contents output.new)) }
    ensures cause { IfErr result (Caused A.Lacks NoRead (GivesUp W.Fails W.Interrupted)) }
{
    A::append(&mut held.bytes, piece)?;
    held.texts.lines.clear();
    let (begun, listed, stopped) = list_chunks(
        view,
        held.begun,
        held.bytes.as_slice(),
        &mut held.talk,
        &mut held.texts,
    )?;
    held.begun = begun;
    held.bytes.advance(listed);
    put_lines(held.texts.lines.as_str(), output)?;
    Ok(stopped)
}

/// Adds the lines of the whole chunks at the front of the bytes. Returns whether the beginning of the recording was read, how many bytes they
/// take, and whether no chunk comes after them.
fn list_chunks<A: MapMemory>(
    view: View<'_>,
    begun: bool,
    bytes: &[u8],
    talk: &mut Talk<A>,
    texts: &mut Texts<A>,
) -> Result<(bool, usize, bool), AllocError>
    ensures within { IfOk result (λ x. x.1 ≤ length bytes.now) }
    ensures all { IfOk result (λ x. (marking : Marks) (received lines : List ℕ) → Tracks (view_of view.entry) marking received lines begun (kept_of talk.old) bytes.now →
        ListsAllChunks (view_of view.entry) marking received lines x.0 x.2 (kept_of talk.new) (drop x.1 bytes.now) (string_bytes texts.old.lines) (string_bytes texts.new.lines)) }
    ensures lacks { OnErr result A.Lacks }
{
    let mut opened = begun;
    let mut rest = bytes;
    'chunks: loop {
        let (part, behind) = first_part(opened, rest);
        match part {
            Part::Magic => {
                opened = true;
                rest = behind;
            }
            Part::Chunk(chunk) => {
                list_chunk(view, chunk, talk, texts)?;
                rest = behind;
            }
            Part::Waits => return Ok((opened, bytes.len() - rest.len(), false)),
            Part::Stops => return Ok((opened, bytes.len() - rest.len(), true)),
        }
    }
}

/// Writes lines, and has them passed on.
pub fn put_lines<W: Output>(lines: &str, output: &mut W) -> Result<(), Fault>
    ensures written { OnOk result (Appends (W.contents output.old) (W.contents output.new) lines.now) }
    ensures front { OnErr result (AppendsFront (W.contents output.old) (W.contents output.new) lines.now) }
    ensures passed { OnOk result (W.Passed output.new) }
    ensures fault { IfErr result (λ fault. fault ≡ Fault.Write) }
    ensures failed { OnErr result (GivesUp W.Fails W.Interrupted) }
{
    put(lines.as_bytes(), output)
}

/// Writes the last lines, where no chunk comes any more. Returns what is to be said then.
fn list_last<A: MapMemory, W: Output>(
    view: View<'_>,
    stopped: bool,
    held: &mut Held<A>,
    output: &mut W,
) -> Result<Ended<'static>, Fault>
    ensures status { IfOk result (λ ended. ended.status ≡ status_of (end_of held.old.begun stopped held.old.bytes.items)) }
    ensures said { IfOk result (λ ended. ended.first.now ++ ended.second.now ++ ended.third.now ≡ held_said (kept_of held.old.talk) (end_of held.old.begun stopped held.old.bytes.items)) }
    ensures all { OnOk result (Appends (W.contents output.old) (W.contents output.new) (held_last (view_of view.entry) (kept_of held.old.talk))) }
    ensures some { OnErr result (AppendsFront (W.contents output.old) (W.contents output.new) (held_last (view_of view.entry) (kept_of held.old.talk))) }
    ensures passed { OnOk result (W.Passed output.new) }
    ensures cause { IfErr result (Caused A.Lacks NoRead (GivesUp W.Fails W.Interrupted)) }
{
    held.texts.lines.clear();
    add_end(view, &held.talk, &mut held.texts)?;
    put_lines(held.texts.lines.as_str(), output)?;
    let known = &held.talk.known;
    let client = Side::Client {
        opened: known.opened,
        kinds: known.kinds.as_slice(),
        replicating: is_replicating(known.phase),
    };
    let end = end_of(held.begun, stopped, held.bytes.as_slice());
    Ok(Ended {
        status: status_of(end),
        first: hint_of(true, client, held.talk.client.left),
        second: hint_of(true, Side::Server(known.phase), held.talk.server.left),
        third: complaint_of(end),
    })
}
