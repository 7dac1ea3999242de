//! The line of a server's frame.

ghost use Rattle.std.specs.Prelude.{◌≡◌, ◌≤◌, ◌<◌, ◌-◌, ◌∷◌, ◌++◌, [], length, take, slice_index, IfOk, OnErr, OnOk, Ok, string_bytes};
ghost use Rattle.pgtrace_lines.specs.Common.{option_map, payload_of, view, Length, Tag, followed, opening};
ghost use Rattle.pgtrace_lines.specs.Listing.{unread_name};
ghost use Rattle.pgtrace_lines.specs.Shown.{Says, copied, inner_data};
ghost use Rattle.pgtrace_lines.specs.Sides.{server_at};
ghost use Rattle.pgtrace_lines.specs.Steps.{IsFrameOf, IsNamedLine, ListsNext, ReportsFault};

use crate::body::put_message;
use crate::names::{name_of, says_nothing};
use crate::replication::put_data;
use crate::side::replicates_behind;
use crate::unread::{put_unread, unread_name};
use pgp_base::{Error, Memory};
use pgp_message::{Message, Messages};
use pgtool_line::line::{put_called, put_end, put_frame_length, put_frame_place, put_tag};
use pgtool_line::style::Style;
use std::alloc::AllocError;

/// What stood at the front of a stream.
#[derive(Debug, Clone, Copy)]
pub enum Next {
    /// A frame, which was passed, and whose line was made, with this name.
    Line(&'static str),
    /// A partial frame, or nothing.
    Waits,
    /// What no frame begins with, and nothing says where the next one does.
    Stops,
}

/// Makes the line of a server's frame at the front of the bytes, which stands at this place, in a replication stream or not. Returns whether the stream
/// then is one, and what stands after the frame.
///
/// # Errors
///
/// Returns `AllocError` if there is no memory for the line.
pub fn server_line<'b, A: Memory>(
    style: Style,
    place: u64,
    replicating: bool,
    bytes: &'b [u8],
    line: &mut String<A>,
) -> Result<(Next, bool, &'b [u8]), AllocError>
    ensures listed { IfOk result (λ x. ListsNext style place (server_at replicating) bytes.now x.2.now (string_bytes line.new) (server_at x.1) x.0) }
    ensures lacks { OnErr result A.Lacks }
{
    let mut messages = Messages::new(bytes);
    match messages.next() {
        Ok(Some(message)) => {
            let behind = messages.rest();
            let frame = front_of(bytes, behind);
            let reported = message_line(style, place, replicating, frame, &message, line);
            drop(message);
            let name = reported?;
            let now = replicates_behind(replicating, frame);
            Ok((Next::Line(name), now, behind))
        }
        Ok(None) => Ok((Next::Waits, replicating, bytes)),
        Err(Error::InvalidLength) => Ok((Next::Stops, replicating, bytes)),
        Err(refusal) => {
            let behind = messages.rest();
            let frame = front_of(bytes, behind);
            let name = fault_line(style, place, frame, &refusal, line)?;
            let now = replicates_behind(replicating, frame);
            Ok((Next::Line(name), now, behind))
        }
    }
}

/// What stands before the rest.
pub fn front_of<'a>(bytes: &'a [u8], rest: &[u8]) -> &'a [u8]
    requires { length rest.now ≤ length bytes.now }
    ensures { result.now ≡ take (length bytes.now - length rest.now) bytes.now }
{
    &bytes[..bytes.len() - rest.len()]
}

/// Makes the line of a message, whose frame these bytes are. Returns its name.
fn message_line<A: Memory>(
    style: Style,
    place: u64,
    replicating: bool,
    frame: &[u8],
    message: &Message<&[u8]>,
    line: &mut String<A>,
) -> Result<&'static str, AllocError>
    requires { IsFrameOf frame.now (Ok (view message.now)) }
    ensures line { IfOk result (λ name. IsNamedLine style place replicating frame.now (string_bytes line.new) name.now) }
    ensures lacks { OnErr result A.Lacks }
{
    begin(style, place, frame, line)?;
    let name = name_of(message);
    put_called(style, says_nothing(message), name, line)?;
    let (_, body) = frame.split_at(5);
    put_said(style, replicating, message, body, line)?;
    put_end(style, line)?;
    Ok(name)
}

/// Adds what the message says, whose body these bytes are.
fn put_said<A: Memory>(
    style: Style,
    replicating: bool,
    message: &Message<&[u8]>,
    body: &[u8],
    line: &mut String<A>,
) -> Result<(), AllocError>
    requires { body.now ≡ payload_of (view message.now) }
    ensures says { OnOk result (Says (inner_data replicating (view message.now)) style (view message.now) (string_bytes line.old) (string_bytes line.new)) }
    ensures lacks { OnErr result A.Lacks }
{
    match inner_data(replicating, message) {
        Some(data) => put_data(style, false, data, line),
        None => put_message(style, message, body, line),
    }
}

/// The data of a CopyData, where a message of replication may stand inside them.
fn inner_data<'a>(replicating: bool, message: &'a Message<&'a [u8]>) -> Option<&'a [u8]>
    ensures { option_map (λ b. b.now) result ≡ inner_data replicating (view message.now) }
{
    if replicating { copied(message) } else { None }
}

/// The data of a CopyData.
fn copied<'a>(message: &'a Message<&'a [u8]>) -> Option<&'a [u8]>
    ensures { option_map (λ b. b.now) result ≡ copied (view message.now) }
{
    match message {
        Message::CopyData(copy) => Some(copy.data()),
        _ => None,
    }
}

/// Makes the line of a frame that isn't read. Returns the name in it.
fn fault_line<A: Memory>(
    style: Style,
    place: u64,
    frame: &[u8],
    refusal: &Error,
    line: &mut String<A>,
) -> Result<&'static str, AllocError>
    requires { 5 ≤ length frame.now }
    ensures named { IfOk result (λ name. name.now ≡ unread_name (slice_index frame.now 0)) }
    ensures line { OnOk result (ReportsFault style place frame.now refusal.now (string_bytes line.new)) }
    ensures lacks { OnErr result A.Lacks }
{
    begin(style, place, frame, line)?;
    let (_, body) = frame.split_at(5);
    put_unread(style, frame[0], body, refusal, line)?;
    put_end(style, line)?;
    Ok(unread_name(frame[0]))
}

/// Begins a line: with the place of the frame, its length, and its tag.
fn begin<A: Memory>(
    style: Style,
    place: u64,
    frame: &[u8],
    line: &mut String<A>,
) -> Result<(), AllocError>
    requires { 0 < length frame.now }
    ensures parts { OnOk result (string_bytes line.new ≡ followed style (opening style place) (Length (length frame.now) ∷ Tag (slice_index frame.now 0) ∷ [])) }
    ensures lacks { OnErr result A.Lacks }
{
    begin_line(style, place, frame.len(), frame[0], line)
}

/// Begins a line: with the place of a frame, its length, and its tag.
pub fn begin_line<A: Memory>(
    style: Style,
    place: u64,
    len: usize,
    tag: u8,
    line: &mut String<A>,
) -> Result<(), AllocError>
    ensures parts { OnOk result (string_bytes line.new ≡ followed style (opening style place) (Length len ∷ Tag tag ∷ [])) }
    ensures lacks { OnErr result A.Lacks }
{
    line.clear();
    put_frame_place(style, place, line)?;
    put_frame_length(style, len, line)?;
    put_tag(style, tag, line)
}
