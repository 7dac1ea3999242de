//! The lines of what one side sent, with their marks.

ghost use Rattle.std.specs.Prelude.{◌≡◌, ◌++◌, ◌≤◌, [], drop, length, take, IfOk, OnErr, OnOk, string_bytes};
ghost use Rattle.pgtrace_lines.specs.Steps.{view_of};
ghost use Rattle.pgtrace_session.specs.Conversation.{answer_to, called, relined, text_of};
ghost use Rattle.pgtrace_session.specs.Steps.{ListsAllFrames, ListsNextFrame, known_of};

use crate::chunk::Sender;
use crate::expectation::Encryption;
use crate::line_mark::put_marked;
use crate::placement::{Told, told_by, waited};
use crate::request_mark::put_stamp;
use crate::state::{Known, next_line, note};
use crate::typed::read_frame;
use bytes::BytesMut;
use pgp_base::Memory;
use pgtool_line::line::{put_called, put_end};
use pgtool_line::style::Style;
use pgtrace_lines::client::expected;
use pgtrace_lines::frame::{Next, begin_line, front_of};
use pgtrace_lines::view::{View, add_shown, is_listed};
use pgtrace_summary::MapMemory;
use std::alloc::AllocError;

/// Memory for the texts of a listing.
#[derive(Drop)]
pub struct Texts<A: MapMemory> {
    /// The time of a chunk.
    pub time: String<A>,
    /// The mark of its messages.
    pub mark: String<A>,
    /// What a mark says of requests, and the mark with it.
    pub word: String<A>,
    pub stamp: String<A>,
    /// The text of a value, or of a day.
    pub value: BytesMut<A>,
    /// The line of a message, and the same with the mark.
    pub line: String<A>,
    pub marked: String<A>,
    /// The lines that aren't written yet.
    pub lines: String<A>,
}

/// Memory for texts, of which none is written.
pub fn no_texts<A: MapMemory>(alloc: A) -> Texts<A>
    ensures time { string_bytes result.time ≡ [] }
    ensures mark { string_bytes result.mark ≡ [] }
    ensures word { string_bytes result.word ≡ [] }
    ensures stamp { string_bytes result.stamp ≡ [] }
    ensures line { string_bytes result.line ≡ [] }
    ensures marked { string_bytes result.marked ≡ [] }
    ensures lines { string_bytes result.lines ≡ [] }
{
    Texts {
        time: String::new(alloc),
        mark: String::new(alloc),
        word: String::new(alloc),
        stamp: String::new(alloc),
        value: BytesMut::new(alloc),
        line: String::new(alloc),
        marked: String::new(alloc),
        lines: String::new(alloc),
    }
}

/// Adds the lines of the complete frames at the front of the bytes, which this side sent and which stand at this place. Returns how many bytes they
/// take, and whether nothing says where the next one begins.
pub fn list_frames<A: MapMemory>(
    view: View<'_>,
    sender: Sender,
    place: u64,
    bytes: &[u8],
    known: &mut Known<A>,
    texts: &mut Texts<A>,
) -> Result<(usize, bool), AllocError>
    ensures within { IfOk result (λ answer. answer.0 ≤ length bytes.now) }
    ensures all { IfOk result (λ answer. ListsAllFrames (view_of view.entry) (string_bytes texts.old.mark) sender place (known_of known.old) bytes.now (take answer.0 bytes.now) (drop answer.0 bytes.now) answer.1 (known_of known.new)
        (string_bytes texts.old.lines) (string_bytes texts.new.lines)) }
    ensures lacks { OnErr result A.Lacks }
{
    let mut rest = bytes;
    'frames: loop {
        let passed = bytes.len() - rest.len();
        let at = place.saturating_add(passed as u64);
        let (next, behind) = list_next(view, sender, at, rest, known, texts)?;
        match next {
            Next::Line(_) => rest = behind,
            Next::Waits => return Ok((passed, false)),
            Next::Stops => return Ok((passed, true)),
        }
    }
}

/// Adds the line of the frame that stands first. Returns what stands after it.
fn list_next<'b, A: MapMemory>(
    view: View<'_>,
    sender: Sender,
    place: u64,
    bytes: &'b [u8],
    known: &mut Known<A>,
    texts: &mut Texts<A>,
) -> Result<(Next, &'b [u8]), AllocError>
    ensures each { IfOk result (λ x. ListsNextFrame (view_of view.entry) (string_bytes texts.old.mark) sender place (known_of known.old) bytes.now x.1.now (string_bytes texts.old.lines) (string_bytes texts.new.lines) (known_of known.new) x.0) }
    ensures mark { OnOk result (string_bytes texts.new.mark ≡ string_bytes texts.old.mark) }
    ensures lacks { OnErr result A.Lacks }
{
    let opened = known.opened;
    let kind = expected(known.kinds.as_slice());
    let (next, behind) = next_line(view.style, sender, place, bytes, known, &mut texts.line)?;
    match next {
        Next::Line(name) => {
            let frame = front_of(bytes, behind);
            let (told, noted) = read_frame(
                view.style,
                place,
                sender,
                opened,
                kind,
                frame,
                &mut known.numbers,
                &mut known.types,
                &mut texts.value,
                &mut texts.line,
            )?;
            let told = told_by(known.marked, told);
            list_line(view, place, name, told, known.requests.as_slice(), texts)?;
            note(noted, known)?;
            Ok((next, behind))
        }
        Next::Waits => Ok((next, behind)),
        Next::Stops => Ok((next, behind)),
    }
}

/// Adds a line with this name, whose mark says this of requests; an answer under the name of the request for encryption that it belongs to.
fn list_line<A: MapMemory>(
    view: View<'_>,
    place: u64,
    name: &str,
    told: Told,
    requests: &[Encryption],
    texts: &mut Texts<A>,
) -> Result<(), AllocError>
    ensures text { OnOk result (string_bytes texts.new.lines ≡ string_bytes texts.old.lines ++ text_of (view_of view.entry) (string_bytes texts.old.mark) told place requests.now name.now (string_bytes texts.old.line)) }
    ensures mark { OnOk result (string_bytes texts.new.mark ≡ string_bytes texts.old.mark) }
    ensures lacks { OnErr result A.Lacks }
{
    if waited(told) < view.slower {
        return Ok(());
    }
    let shown = called(requests, name);
    if !is_listed(view, shown) {
        return Ok(());
    }
    reline(view.style, place, requests, name, &mut texts.line)?;
    put_stamp(
        view.style.form,
        texts.mark.as_str(),
        told,
        &mut texts.word,
        &mut texts.stamp,
    )?;
    put_marked(
        view.style.form,
        texts.stamp.as_str(),
        texts.line.as_str(),
        &mut texts.marked,
    )?;
    add_shown(view, shown, texts.marked.as_str(), &mut texts.lines)
}

/// The name of a message, where these requests for encryption aren't answered.
fn called<'a>(requests: &[Encryption], name: &'a str) -> &'a str
    ensures { result.now ≡ called requests.now name.now }
{
    let [first, ..] = requests else {
        return name;
    };
    if name == EITHER {
        answer_to(*first)
    } else {
        name
    }
}

/// The name of an answer that doesn't say to which request it belongs.
const EITHER: &str = "SSLResponse or GSSENCResponse";

/// The name of the answer to a request.
fn answer_to(request: Encryption) -> &'static str
    ensures { result.now ≡ answer_to request }
{
    match request {
        Encryption::Tls => "SSLResponse",
        Encryption::Gss => "GSSENCResponse",
    }
}

/// Writes the line of an answer anew, where it is known to which request it belongs.
fn reline<A: MapMemory>(
    style: Style,
    place: u64,
    requests: &[Encryption],
    name: &str,
    line: &mut String<A>,
) -> Result<(), AllocError>
    ensures line { OnOk result (string_bytes line.new ≡ relined style place requests.now name.now (string_bytes line.old)) }
    ensures lacks { OnErr result A.Lacks }
{
    let [first, ..] = requests else {
        return Ok(());
    };
    if name != EITHER {
        return Ok(());
    }
    begin_line(style, place, 1, b'N', line)?;
    put_called(style, true, answer_to(*first), line)?;
    put_end(style, line)
}
