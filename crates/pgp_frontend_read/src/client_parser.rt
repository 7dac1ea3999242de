//! A client's connection, read as it comes.

ghost use Rattle.std.specs.Prelude.{◌≡◌, ◌≢◌, ◌++◌, ◌<◌, ◌≤◌, [], true, false, length, slice_index, if◌then◌else◌, IfOk, IfSome, OnErr, OnOk, ⊤};
ghost use mathlib.Core.Option.{none};
ghost use types.Logic.{sem};
ghost use denote.Follow.{follows_so};
ghost use Rattle.pgp_frontend_read.specs.Step.{announced, least, place};
ghost use Rattle.pgp_frontend_read.specs.Pieces.{IsWhole, Parses};
ghost use Rattle.pgp_frontend_read.specs.Holding.{Completes, Fills, Fits, HasSize, Holds, IsWanted, Opens, Sizes, StandsInPiece, TakesOff, header, is_whole, wanted};
ghost use Rattle.pgp_frontend_read.specs.contracts.client_parser.ClientParser.{the_row};

use crate::client_frame::ClientFrame;
use crate::error::ClientError;
use crate::frame::MAX_LEN;
use crate::limits::Limits;
use crate::message::PasswordKind;
use crate::messages::ClientMessages;
use crate::parser_error::ParserError;
use pgp_base::{Error, Memory};
use std::alloc::{AllocError, Allocator, Global};
use std::marker::Model;

/// Reads a client's connection piece by piece. Messages that are whole in a piece are read there, and only one that the piece's
/// end cuts is copied: up to its header, and from then on up to its end, for which room is asked for once.
#[derive(Drop)]
pub struct ClientParser<A: Allocator = Global> {
    held: Vec<u8, A>,
    /// Whether what is held was read. The message that was handed out stands in it, so the next call drops it.
    read: bool,
    opened: bool,
    limits: Limits,
}

impl<A: Allocator> Model for ClientParser<A> {
    ghost use Rattle.std.specs.Prelude.{[], if◌then◌else◌};
    ghost use Rattle.pgp_frontend_read.specs.Pieces.{Waiting};
    ghost use Rattle.pgp_frontend_read.specs.Holding.{IsSound};

    ghost Value = { Waiting };

    ghost view = { λ p. record { bytes = if p.read then [] else p.held.items; opened = p.opened; limits = p.limits } };

    ghost invariant = { λ p. IsSound p.read p.opened p.held.items };
}

impl<A: Memory> ClientParser<A> {
    /// A parser of a connection on which nothing came.
    pub fn new(alloc: A, limits: Limits) -> ClientParser<A>
        ensures { result ≡ record { bytes = []; opened = false; limits = limits } }
    {
        ClientParser::resume(alloc, limits, false)
    }

    /// A parser of a connection in this phase, as where earlier bytes were read by another reader.
    pub fn resume(alloc: A, limits: Limits, opened: bool) -> ClientParser<A>
        ensures { result ≡ record { bytes = []; opened = opened; limits = limits } }
    {
        ClientParser {
            held: Vec::new(alloc),
            read: false,
            opened,
            limits,
        }
    }

    /// The bytes that came and weren't read: the front of a partial message, as far as pieces brought it that were used up.
    pub fn rest(&self) -> &[u8]
        ensures { result.now ≡ self.now.bytes }
    {
        if self.read {
            return &[];
        }
        self.held.as_slice()
    }

    /// Whether a startup packet was read.
    pub fn is_open(&self) -> bool
        ensures { result ≡ self.now.opened }
    {
        self.opened
    }

    /// How long messages may be.
    pub fn limits(&self) -> Limits
        ensures { result ≡ self.now.limits }
    {
        self.limits
    }

    /// Takes the bytes of the message at the front of what is held and of the piece after it, and takes them off the piece; `None`
    /// where bytes of it are missing. Then the piece is used up, and the next call brings the next piece.
    ///
    /// # Errors
    ///
    /// Nothing changes: what was held stays held, and the piece stays as it is.
    ///
    /// - `TooLong`: the header announces a length past the limit. No memory was asked for.
    /// - `Refused`: `InvalidLength`, if no message has the length that stands there; or an opening packet stands there that is no
    ///   message, with what `ClientMessages::next` reports it.
    /// - `OutOfMemory`, of a message that is cut.
    pub fn next<'s, 'p: 's>(
        &'s mut self,
        piece: &mut &'p [u8],
    ) -> Result<Option<ClientFrame<'s>>, ParserError>
        ensures whole { IfOk result (λ found. IfSome found (λ frame. IsWhole frame.opened frame.bytes.now)) }
        ensures* parses { sem 𝓛 (follows_so (the_row A.row A.Allocator) (the_row A.row A.Allocator) self.entry.ghost_name none (λ _ _. ⊤)
            (λ new. Parses A.Lacks self.old piece.old.now result new piece.new.now)) }
    {
        drop_read(&mut self.held, self.read);
        self.read = false;
        let size = size(self.limits, self.opened, self.held.as_slice(), piece)?;
        if is_in_piece(self.opened, self.held.as_slice(), piece, size) {
            let size = wanted(self.opened, size);
            let frame = take_off(&mut self.opened, size, piece)?;
            return Ok(Some(frame));
        }
        match complete(&mut self.held, self.opened, size, piece) {
            Ok(Some(now)) => {
                let bytes = self.held.as_slice();
                let opened = self.opened;
                self.read = true;
                self.opened = now;
                Ok(Some(ClientFrame { bytes, opened }))
            }
            Ok(None) => Ok(None),
            Err(e) => Err(e),
        }
    }
}

/// Drops what is held where it was handed out.
fn drop_read<A: Memory>(held: &mut Vec<u8, A>, read: bool)
    ensures { held.new.items ≡ (if read then [] else held.old.items) }
{
    if read {
        held.clear();
    }
}

/// How many bytes the message at the front has; `None` where bytes of its header are missing.
///
/// # Errors
///
/// Returns `TooLong` if it announces more than the limit, `InvalidLength` if no message has the
/// length.
fn size(
    limits: Limits,
    opened: bool,
    held: &[u8],
    piece: &[u8],
) -> Result<Option<usize>, ParserError>
    ensures { Sizes limits opened (held.now ++ piece.now) result }
{
    if held.len().saturating_add(piece.len()) < header(opened) {
        return Ok(None);
    }
    let len = length_there(opened, held, piece);
    if len > limits.of(opened) {
        return Err(ParserError::TooLong(len));
    }
    if len < least(opened) {
        return Err(ParserError::Refused(ClientError::Reading(Error::InvalidLength)));
    }
    if len > MAX_LEN {
        return Err(ParserError::Refused(ClientError::Reading(Error::InvalidLength)));
    }
    Ok(Some(len as usize + place(opened)))
}

/// How many bytes stand before the length.
fn place(opened: bool) -> usize
    ensures { result ≡ place opened }
{
    if opened { 1 } else { 0 }
}

/// The least length.
fn least(opened: bool) -> u32
    ensures { result ≡ least opened }
{
    if opened { 4 } else { 8 }
}

/// How many bytes a header has: the tag, where there is one, and the length.
fn header(opened: bool) -> usize
    ensures { result ≡ header opened }
{
    if opened { 5 } else { 4 }
}

/// The length that stands there.
fn length_there(opened: bool, held: &[u8], piece: &[u8]) -> u32
    requires { header opened ≤ length (held.now ++ piece.now) }
    ensures { result ≡ announced opened (held.now ++ piece.now) }
{
    if opened {
        return u32::from_be_bytes([
            byte_there(held, piece, 1),
            byte_there(held, piece, 2),
            byte_there(held, piece, 3),
            byte_there(held, piece, 4),
        ]);
    }
    u32::from_be_bytes([
        byte_there(held, piece, 0),
        byte_there(held, piece, 1),
        byte_there(held, piece, 2),
        byte_there(held, piece, 3),
    ])
}

/// The byte at this place of what is held and the piece after it.
fn byte_there(held: &[u8], piece: &[u8], at: usize) -> u8
    requires { at < length (held.now ++ piece.now) }
    ensures { result ≡ slice_index (held.now ++ piece.now) at }
{
    if at < held.len() {
        return held[at];
    }
    piece[at - held.len()]
}

/// How many bytes are to be held of a message that is cut: its header until that is whole, and then all.
fn wanted(opened: bool, size: Option<usize>) -> usize
    ensures { result ≡ wanted opened size }
{
    match size {
        None => header(opened),
        Some(size) => size,
    }
}

/// Whether so many bytes are a message of this size.
fn is_whole(len: usize, size: Option<usize>) -> bool
    ensures { result ≡ is_whole len size }
{
    match size {
        None => false,
        Some(size) => len >= size,
    }
}

/// Whether nothing is held, and the piece has all of the message.
fn is_in_piece(opened: bool, held: &[u8], piece: &[u8], size: Option<usize>) -> bool
    requires { IsWanted opened (held.now ++ piece.now) size }
    ensures { StandsInPiece opened held.now piece.now size result }
{
    if !held.is_empty() {
        return false;
    }
    is_whole(piece.len(), size)
}

/// Takes the message off the piece, which has all of it.
///
/// # Errors
///
/// Returns `Refused` of an opening packet that is no message. It stays.
fn take_off<'p>(
    opened: &mut bool,
    size: usize,
    piece: &mut &'p [u8],
) -> Result<ClientFrame<'p>, ParserError>
    requires size { HasSize opened.old piece.old.now size }
    requires all { size ≤ length piece.old.now }
    ensures { TakesOff opened.old piece.old.now result opened.new piece.new.now }
{
    let (bytes, rest) = piece.split_at(size);
    match phase_behind(*opened, bytes) {
        Ok(now) => {
            let frame = ClientFrame {
                bytes,
                opened: *opened,
            };
            *opened = now;
            *piece = rest;
            Ok(frame)
        }
        Err(e) => Err(e),
    }
}

/// Holds what the piece has of the message; where that is all of it, the phase after the message.
///
/// # Errors
///
/// On error nothing changes.
///
/// - `OutOfMemory` if there is no memory for all of it, or for its header while that isn't whole.
/// - `Refused` of an opening packet that is no message.
fn complete<A: Memory>(
    held: &mut Vec<u8, A>,
    opened: bool,
    size: Option<usize>,
    piece: &mut &[u8],
) -> Result<Option<bool>, ParserError>
    requires wanted { IsWanted opened (held.old.items ++ piece.old.now) size }
    requires fits { Fits opened held.old.items }
    ensures { Completes A.Lacks opened held.old.items piece.old.now result held.new.items piece.new.now }
{
    let (len, before) = (held.len(), *piece);
    if !hold(held, opened, size, piece)? {
        return Ok(None);
    }
    match phase_behind(opened, held.as_slice()) {
        Ok(now) => Ok(Some(now)),
        Err(e) => {
            held.truncate(len);
            *piece = before;
            Err(e)
        }
    }
}

/// Moves what the piece has of the message after the bytes that are held, and returns whether all of it is there.
///
/// # Errors
///
/// Returns `OutOfMemory` if there is no memory for all of it, or for its header while that isn't whole.
fn hold<A: Memory>(
    held: &mut Vec<u8, A>,
    opened: bool,
    size: Option<usize>,
    piece: &mut &[u8],
) -> Result<bool, ParserError>
    requires wanted { IsWanted opened (held.old.items ++ piece.old.now) size }
    requires fits { Fits opened held.old.items }
    ensures { Holds A.Lacks size held.old.items piece.old.now result held.new.items piece.new.now }
{
    fill(held, wanted(opened, size), piece)?;
    Ok(is_whole(held.len(), size))
}

/// Whether a startup packet was read, after the message. An opening packet is read for that.
///
/// # Errors
///
/// Returns `Refused` of an opening packet that is no message.
fn phase_behind(opened: bool, bytes: &[u8]) -> Result<bool, ParserError>
    requires { HasSize opened bytes.now (length bytes.now) }
    ensures { Opens opened bytes.now result }
{
    if opened {
        return Ok(true);
    }
    let mut messages = ClientMessages::new(bytes);
    match messages.next(PasswordKind::Password) {
        Ok(_) => Ok(messages.is_open()),
        Err(e) => Err(ParserError::Refused(e)),
    }
}

/// Moves bytes of the piece after those that are held, up to so many. Room is asked for where the piece has any.
///
/// # Errors
///
/// Returns `AllocError` if there is no memory for that many. Nothing moves then.
fn fill<A: Memory>(held: &mut Vec<u8, A>, size: usize, piece: &mut &[u8]) -> Result<(), AllocError>
    ensures ok { OnOk result (Fills size held.old.items piece.old.now held.new.items piece.new.now) }
    ensures held { OnErr result (held.new.items ≡ held.old.items) }
    ensures piece { OnErr result (piece.new.now ≡ piece.old.now) }
    ensures lacks { OnErr result A.Lacks }
    ensures some { OnErr result (piece.old.now ≢ []) }
{
    if piece.is_empty() {
        return Ok(());
    }
    let missing = size.saturating_sub(held.len());
    A::reserve(held, missing)?;
    let (front, rest) = piece.split_at(missing.min(piece.len()));
    A::extend(held, front)?;
    *piece = rest;
    Ok(())
}
