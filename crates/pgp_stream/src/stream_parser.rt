//! A server's stream, read as it comes.

ghost use Rattle.std.specs.Prelude.{◌≡◌, ◌≤◌, ◌++◌, [], length, take, drop, map, true, false, IfOk, IfErr, OnOk, OnErr};
ghost use Rattle.pgp_base.specs.Cause.{WantsMemory};
ghost use Rattle.pgp_message.specs.Found.{TakesSome};
ghost use Rattle.pgp_message.specs.Remembered.{Fits};
ghost use Rattle.pgp_message.specs.Views.{seen};
ghost use Rattle.pgp_stream.specs.ServerStream.{HasRead, Feeds, HandsOut};
ghost use Rattle.pgp_stream.specs.ServerSteps.{TakesAll, Moves, TakesPart, kept_or_piece};

use crate::parsed::Parsed;
use bytes::Bytes;
use pgp_base::{Error, Memory};
use pgp_message::{FrameParser, Message, laws, read_frames};
use std::alloc::{AllocError, Allocator, Global};
use std::marker::Model;
use std::mem;

/// Reads a server's stream piece by piece. It keeps the results until they are taken, and of the bytes
/// only those of a partial frame.
#[derive(Drop)]
pub struct StreamParser<A: Memory = Global> {
    frames: FrameParser,
    rest: Vec<u8, A>,
    results: Vec<Result<Message<Bytes<A>>, Error>, A>,
    stopped: bool,
    failed: bool,
}

impl<A: Memory> Model for StreamParser<A> {
    ghost use Rattle.std.specs.Prelude.{map};
    ghost use Rattle.pgp_message.specs.Views.{seen};
    ghost use Rattle.pgp_stream.specs.ServerStream.{Reading};
    ghost use Rattle.pgp_stream.specs.ServerSteps.{IsSound};

    ghost Value = { Reading };

    ghost view = { λ p. record {
      results = map seen p.results.items;
      stopped = p.stopped;
      rest = p.rest.items;
      headers = p.frames.headers;
      failed = p.failed;
    } };

    ghost invariant = { λ p. IsSound A.Lacks p.frames p.failed p.stopped p.rest.items };
}

impl<A: Memory> StreamParser<A> {
    /// A parser of a stream of which nothing came.
    pub fn new(alloc: A) -> StreamParser<A>
        ensures empty { result ≡ record { results = []; stopped = false; rest = []; headers = 0; failed = false } }
        ensures read { HasRead [] [] result }
    {
        laws::no_bytes();
        StreamParser {
            frames: FrameParser::new(),
            rest: Vec::new(alloc),
            results: Vec::new(alloc),
            stopped: false,
            failed: false,
        }
    }

    /// Reads all frames that are whole now. After a length fault what comes is kept unread.
    ///
    /// # Errors
    ///
    /// Returns `OutOfMemory` if the piece, a message or the list of results can't be allocated. Then the parser
    /// has failed: its results stand, but nothing more can be read, and unless a length fault had stopped it before, it drops
    /// what it kept and counts no headers. Room for what is missing of a frame is asked for ahead, and an error of that isn't
    /// reported. A malformed frame is no error of the call: its error stands among the results.
    pub fn feed(&mut self, piece: &[u8]) -> Result<(), Error>
        requires { self.old.failed ≡ false }
        ensures { Feeds piece.now A.Lacks self.old self.new result }
    {
        laws::waits_go_on();
        laws::stops_stay();
        laws::frames_go_on();
        laws::frames_stand();
        laws::runs_grow();
        if self.stopped {
            if A::extend(&mut self.rest, piece).is_err() {
                self.failed = true;
                return Err(Error::OutOfMemory);
            }
            return Ok(());
        }
        match take_frames(&mut self.frames, &mut self.rest, &mut self.results, piece) {
            Ok(stopped) => {
                self.stopped = stopped;
                Ok(())
            }
            Err(e) => {
                self.failed = true;
                self.frames = FrameParser::new();
                self.rest.clear();
                Err(e)
            }
        }
    }

    /// Whether an allocation failed.
    pub fn failed(&self) -> bool
        ensures is { result ≡ self.now.failed }
        ensures lacks { result ≡ true → A.Lacks }
    {
        self.failed
    }

    /// How many frames' headers have come, each counted once, or the greatest `u64` where there were more. None of a parser
    /// that failed before a length fault.
    pub fn headers(&self) -> u64
        ensures { result ≡ self.now.headers }
    {
        self.frames.headers()
    }

    /// The messages and errors that weren't taken yet, one for each frame.
    pub fn results(&self) -> &[Result<Message<Bytes<A>>, Error>]
        ensures { map seen result.now ≡ self.now.results }
    {
        self.results.as_slice()
    }

    /// Whether a length fault ended the stream.
    pub fn stopped(&self) -> bool
        ensures { result ≡ self.now.stopped }
    {
        self.stopped
    }

    /// The bytes that are left to read. None of a parser that failed before a length fault.
    pub fn rest(&self) -> &[u8]
        ensures { result.now ≡ self.now.rest }
    {
        self.rest.as_slice()
    }

    /// Hands out the results so far, and keeps none of them.
    pub fn take(&mut self) -> Vec<Result<Message<Bytes<A>>, Error>, A>
        ensures { HandsOut (map seen result.items) self.old self.new }
    {
        let alloc = *self.rest.allocator();
        mem::replace(&mut self.results, Vec::new(alloc))
    }

    /// What is reported of the stream, which has ended.
    pub fn into_parsed(self) -> Parsed<A>
        requires { self.failed ≡ false }
        ensures { result ≡ record { results = self.results; stopped = self.stopped; rest = self.rest } }
    {
        let StreamParser {
            rest,
            results,
            stopped,
            ..
        } = self;
        Parsed::new(results, stopped, rest)
    }
}

/// Takes all frames of what is kept and of the piece after it, and returns whether a length fault ended them. A frame
/// that was cut is completed by itself, so that the parser copies each byte once: to where its message keeps it.
fn take_frames<A: Memory>(
    frames: &mut FrameParser,
    rest: &mut Vec<u8, A>,
    results: &mut Vec<Result<Message<Bytes<A>>, Error>, A>,
    piece: &[u8],
) -> Result<bool, Error>
    requires { Fits frames.old rest.old.items }
    ensures ok { IfOk result (λ stopped. TakesAll (rest.old.items ++ piece.now) rest.new.items
        (map seen results.old.items) (map seen results.new.items) frames.old frames.new stopped) }
    ensures some { OnErr result (TakesSome (rest.old.items ++ piece.now) (map seen results.old.items) (map seen results.new.items)) }
    ensures err { IfErr result (WantsMemory A.Lacks) }
{
    laws::no_frame();
    let mut left = piece;
    'parts: loop {
        let moved = complete_frame(frames, rest, left)?;
        let (_, behind) = left.split_at(moved);
        let Progress { used, stopped } = take_whole(frames, rest, results, behind)?;
        let (_, after) = behind.split_at(used);
        if stopped {
            A::extend(rest, after)?;
            return Ok(true);
        }
        if after.is_empty() {
            return Ok(false);
        }
        left = after;
    }
}

/// Moves what the frame that is kept lacks off the piece, and returns how many bytes those are: none where nothing is kept.
fn complete_frame<A: Memory>(
    frames: &FrameParser,
    rest: &mut Vec<u8, A>,
    piece: &[u8],
) -> Result<usize, AllocError>
    ensures ok { IfOk result (Moves rest.old.items rest.new.items piece.now) }
    ensures err { OnErr result (rest.new.items ≡ rest.old.items) }
    ensures lacks { OnErr result A.Lacks }
{
    if rest.is_empty() {
        return Ok(0);
    }
    let missing = frames.missing(rest.len());
    let moved = missing.min(piece.len());
    keep_partial(rest, &piece[..moved], missing - moved)?;
    Ok(moved)
}

/// How far a piece was read.
struct Progress {
    /// How many bytes of it were used: none or all.
    used: usize,
    /// Whether a length fault ended the frames.
    stopped: bool,
}

/// Takes all frames that are whole in what is kept. Where nothing is kept it takes those of the piece, and keeps the bytes
/// after them.
// One function for both, so that what reads the frames is called from here alone, and LLVM inlines it.
fn take_whole<A: Memory>(
    frames: &mut FrameParser,
    rest: &mut Vec<u8, A>,
    results: &mut Vec<Result<Message<Bytes<A>>, Error>, A>,
    piece: &[u8],
) -> Result<Progress, Error>
    requires { Fits frames.old rest.old.items }
    ensures ok { IfOk result (λ to. TakesPart rest.old.items rest.new.items piece.now
        (map seen results.old.items) (map seen results.new.items) frames.old frames.new to.used to.stopped) }
    ensures some { OnErr result (TakesSome (rest.old.items ++ piece.now) (map seen results.old.items) (map seen results.new.items)) }
    ensures err { IfErr result (WantsMemory A.Lacks) }
{
    let found = frames.find_all(kept_or_piece(rest, piece));
    let kept = !rest.is_empty();
    let whole = share_front(rest, piece, found.len)?;
    read_frames(&whole, found.count, results)?;
    if kept {
        return Ok(Progress {
            used: 0,
            stopped: found.stopped,
        });
    }
    let (_, cut) = piece.split_at(found.len);
    keep_partial(rest, cut, frames.missing(cut.len()))?;
    Ok(Progress {
        used: piece.len(),
        stopped: found.stopped,
    })
}

/// What is read next: what is kept, or the piece where nothing is kept.
fn kept_or_piece<'a, A: Allocator>(rest: &'a Vec<u8, A>, piece: &'a [u8]) -> &'a [u8]
    ensures { result.now ≡ kept_or_piece rest.now.items piece.now }
{
    if rest.is_empty() {
        return piece;
    }
    rest.as_slice()
}

/// Shares the first bytes of what is read next: those that are kept are taken off, those of a piece are copied.
fn share_front<A: Memory>(
    rest: &mut Vec<u8, A>,
    piece: &[u8],
    len: usize,
) -> Result<Bytes<A>, AllocError>
    requires { len ≤ length (kept_or_piece rest.old.items piece.now) }
    ensures front { IfOk result (λ whole. whole ≡ take len (kept_or_piece rest.old.items piece.now)) }
    ensures rest { OnOk result (rest.new.items ≡ drop len rest.old.items) }
    ensures err { OnErr result (rest.new.items ≡ rest.old.items) }
    ensures lacks { OnErr result A.Lacks }
{
    let alloc = *rest.allocator();
    if rest.is_empty() {
        return A::shared_of(alloc, &piece[..len]);
    }
    if len == 0 {
        return Ok(Bytes::new());
    }
    let behind = A::list_of(alloc, &rest[len..])?;
    let mut whole = A::share(rest)?;
    *rest = behind;
    whole.truncate(len);
    Ok(whole)
}

/// Keeps bytes of a frame after which so many more are missing, with room for those where there is memory for it. Where
/// there is none yet, as while results wait to be taken, room is asked for again with the next bytes.
fn keep_partial<A: Memory>(
    rest: &mut Vec<u8, A>,
    cut: &[u8],
    missing: usize,
) -> Result<(), AllocError>
    ensures ok { OnOk result (rest.new.items ≡ rest.old.items ++ cut.now) }
    ensures err { OnErr result (rest.new.items ≡ rest.old.items) }
    ensures lacks { OnErr result A.Lacks }
{
    if cut.is_empty() {
        return Ok(());
    }
    let _ = A::reserve(rest, cut.len().saturating_add(missing));
    A::extend(rest, cut)
}
