//! The line of a client's frame.

ghost use Rattle.std.specs.Prelude.{◌≡◌, ◌≤◌, ◌<◌, ◌∷◌, ◌++◌, [], length, true, IfOk, OnErr, OnOk, Ok, Err, string_bytes};
ghost use Rattle.pgtrace_lines.specs.Common.{option_map, kind_view, closing, followed};
ghost use Rattle.pgp_frontend_read.specs.Views.{view};
ghost use Rattle.pgtrace_lines.specs.Client.{ClientSays, client_copied, client_data, refusal_parts};
ghost use Rattle.pgtrace_lines.specs.Listing.{EndsSo, client_front, client_tag};
ghost use Rattle.pgtrace_lines.specs.Sides.{Client, expected, is_reported, is_password, kinds_behind};
ghost use Rattle.pgtrace_lines.specs.Steps.{ListsNext};

use crate::client_body::put_client_message;
use crate::client_names::{client_name, says_nothing};
use crate::frame::{Next, begin_line, front_of};
use crate::lists::put_refused;
use crate::replication::put_data;
use pgp_base::Memory;
use pgp_frontend_read::{ClientError, ClientMessage, ClientMessages, PasswordKind};
use pgtool_line::line::{put_called, put_end, put_signed};
use pgtool_line::nesting::put_member;
use pgtool_line::style::Style;
use std::alloc::AllocError;

/// Makes the line of a client's frame at the front of the bytes, which stands at this place. Returns whether a startup packet came then, the kinds
/// that are left, and what stands after the frame.
///
/// # Errors
///
/// Returns `AllocError` if there is no memory for the line.
pub fn client_line<'a, 'b, A: Memory>(
    style: Style,
    place: u64,
    opened: bool,
    kinds: &'a [PasswordKind],
    replicating: bool,
    bytes: &'b [u8],
    line: &mut String<A>,
) -> Result<(Next, bool, &'a [PasswordKind], &'b [u8]), AllocError>
    ensures listed { IfOk result (λ x. ListsNext style place (Client opened kinds.now replicating) bytes.now x.3.now (string_bytes line.new) (Client x.1 x.2.now replicating) x.0) }
    ensures lacks { OnErr result A.Lacks }
{
    let mut messages = ClientMessages::resume(bytes, opened);
    match messages.next(expected(kinds)) {
        Ok(Some(message)) => {
            let behind = messages.rest();
            let frame = front_of(bytes, behind);
            let reported = is_reported(kinds);
            let name = client_name(reported, &message);
            begin_line(style, place, frame.len(), tag_of(opened, frame), line)?;
            message_line(style, reported, replicating, message, line)?;
            let left = kinds_behind(opened, frame, kinds);
            Ok((Next::Line(name), messages.is_open(), left, behind))
        }
        Ok(None) => Ok((Next::Waits, opened, kinds, bytes)),
        Err(refusal) => {
            let behind = messages.rest();
            if behind.len() == bytes.len() {
                return Ok((Next::Stops, opened, kinds, bytes));
            }
            let frame = front_of(bytes, behind);
            refusal_line(style, place, opened, frame, &refusal, line)?;
            let left = kinds_behind(opened, frame, kinds);
            Ok((Next::Line("fault"), messages.is_open(), left, behind))
        }
    }
}

/// The kind that the next message of tag `p` is read as.
pub fn expected(kinds: &[PasswordKind]) -> PasswordKind
    ensures { kind_view result ≡ expected kinds.now }
{
    match kinds {
        [] => PasswordKind::Response,
        [first, ..] => *first,
    }
}

/// Whether its kind is known.
fn is_reported(kinds: &[PasswordKind]) -> bool
    ensures { result ≡ is_reported kinds.now }
{
    match kinds {
        [] => false,
        [_, ..] => true,
    }
}

/// The kinds that are known after a frame.
fn kinds_behind<'a>(opened: bool, frame: &[u8], kinds: &'a [PasswordKind]) -> &'a [PasswordKind]
    ensures { result.now ≡ kinds_behind opened frame.now kinds.now }
{
    if !is_password(opened, frame) {
        return kinds;
    }
    match kinds {
        [] => kinds,
        [_, rest @ ..] => rest,
    }
}

/// Whether the frame is one of tag `p`.
fn is_password(opened: bool, frame: &[u8]) -> bool
    ensures { result ≡ is_password opened frame.now }
{
    match frame {
        [] => false,
        [tag, ..] => opened && *tag == b'p',
    }
}

/// Ends the line of a message, of which the front stands there.
fn message_line<A: Memory>(
    style: Style,
    reported: bool,
    replicating: bool,
    message: ClientMessage<'_>,
    line: &mut String<A>,
) -> Result<(), AllocError>
    ensures line { OnOk result (EndsSo style reported replicating (Ok (view message.entry)) (string_bytes line.old) (string_bytes line.new)) }
    ensures lacks { OnErr result A.Lacks }
{
    put_said(style, reported, replicating, message, line)?;
    put_end(style, line)
}

/// Adds the name of a message and what it says.
fn put_said<A: Memory>(
    style: Style,
    reported: bool,
    replicating: bool,
    message: ClientMessage<'_>,
    line: &mut String<A>,
) -> Result<(), AllocError>
    ensures says { OnOk result (ClientSays (client_data replicating (Ok (view message.entry))) style reported (Ok (view message.entry)) (string_bytes line.old) (string_bytes line.new)) }
    ensures lacks { OnErr result A.Lacks }
{
    match inner_data(replicating, &message) {
        Some(data) => {
            put_called(style, false, "CopyData", line)?;
            put_data(style, true, data, line)
        }
        None => {
            let name = client_name(reported, &message);
            put_called(style, says_nothing(&message), name, line)?;
            put_client_message(style, reported, message, line)
        }
    }
}

/// The data of a CopyData, where a standby's message may stand inside them.
fn inner_data<'a>(replicating: bool, message: &ClientMessage<'a>) -> Option<&'a [u8]>
    ensures { option_map (λ b. b.now) result ≡ client_data replicating (Ok (view message.now)) }
{
    if replicating { copied(message) } else { None }
}

/// The data of a CopyData.
fn copied<'a>(message: &ClientMessage<'a>) -> Option<&'a [u8]>
    ensures { option_map (λ b. b.now) result ≡ client_copied (view message.now) }
{
    match message {
        ClientMessage::CopyData(data) => Some(*data),
        _ => None,
    }
}

/// Makes the line of a rejected frame.
fn refusal_line<A: Memory>(
    style: Style,
    place: u64,
    opened: bool,
    frame: &[u8],
    refusal: &ClientError,
    line: &mut String<A>,
) -> Result<(), AllocError>
    ensures line { OnOk result (string_bytes line.new ≡ followed style (client_front style place opened frame.now) (refusal_parts refusal.now) ++ closing style ++ 10 ∷ []) }
    ensures lacks { OnErr result A.Lacks }
{
    begin_line(style, place, frame.len(), tag_of(opened, frame), line)?;
    put_refusal(style, refusal, line)?;
    put_end(style, line)
}

/// The tag of a frame, or what stands for it of an opening packet.
fn tag_of(opened: bool, frame: &[u8]) -> u8
    ensures { result ≡ client_tag opened frame.now }
{
    if !opened {
        return b'-';
    }
    match frame {
        [] => 0,
        [tag, ..] => *tag,
    }
}

/// Adds why a frame is rejected.
fn put_refusal<A: Memory>(
    style: Style,
    refusal: &ClientError,
    line: &mut String<A>,
) -> Result<(), AllocError>
    ensures parts { OnOk result (string_bytes line.new ≡ followed style (string_bytes line.old) (refusal_parts refusal.now)) }
    ensures lacks { OnErr result A.Lacks }
{
    match refusal {
        ClientError::Reading(e) => put_refused(style, e, line),
        ClientError::UnknownPacket(code) => {
            put_called(style, true, "packet", line)?;
            put_member(style, "code", line)?;
            put_signed(style, *code, line)
        }
    }
}
