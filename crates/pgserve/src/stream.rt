//! The connection's bytes: read as they come, and answered before the next are read.

use crate::connection::{Connection, parser, take_piece};
use crate::fault::Fault;
use crate::host::Host;
use crate::outbox::Outbox;
use crate::pause::Pause;
use crate::record::Recording;
use pgp_frontend_read::ClientParser;
use std::alloc::Global;
use std::io::{ErrorKind, Read, Write};

/// How many bytes are read at once.
const PIECE: usize = 16_384;

/// Reads some bytes, none at the end. A read that was interrupted is tried again.
fn read<R: Read>(input: &mut R, piece: &mut [u8]) -> Result<usize, Fault> {
    for _ in 0..u64::MAX {
        match input.read(piece) {
            Ok(n) => return Ok(n),
            Err(e) => match e.kind() {
                ErrorKind::Interrupted => {}
                _ => return Err(Fault::Read),
            },
        }
    }
    Err(Fault::Read)
}

/// So many bytes of the piece, at most all.
fn front(piece: &[u8], n: usize) -> &[u8] {
    &piece[..n.min(piece.len())]
}

/// Writes the bytes, and has them passed on.
pub(crate) fn put<W: Write>(bytes: &[u8], output: &mut W) -> Result<(), Fault> {
    if bytes.is_empty() {
        return Ok(());
    }
    if output.write_all(bytes).is_err() || output.flush().is_err() {
        return Err(Fault::Write);
    }
    Ok(())
}

/// The same, with the pauses between the bytes; none of those after the last byte.
fn put_with_pauses<W: Write>(
    rt: &HostRuntime,
    bytes: &[u8],
    pauses: &[Pause],
    output: &mut W,
) -> Result<(), Fault> {
    let (mut rest, mut sent) = (bytes, 0usize);
    for pause in pauses {
        if pause.at > bytes.len() {
            continue;
        }
        let (before, behind) = rest.split_at(pause.at.saturating_sub(sent).min(rest.len()));
        put(before, output)?;
        pause.wait(rt)?;
        sent = sent.saturating_add(before.len());
        rest = behind;
    }
    put(rest, output)
}

/// Serves a client to the end of its bytes, or of its session.
///
/// # Errors
///
/// Returns `Read`, `Write`, `Clock`, `Memory`, and `TooLong` if an answer of the script doesn't fit a message. What was answered before was
/// written.
pub(crate) fn run<R: Read, W: Write>(
    rt: &HostRuntime,
    host: &Host<'_>,
    input: &mut R,
    output: &mut W,
) -> Result<(), Fault> {
    let alloc = rt.alloc();
    let mut parser = parser(alloc);
    let mut out = Outbox::new(alloc);
    let mut connection = Connection::new(host, &mut out);
    pass(rt, &mut parser, &mut connection, &mut out, input, output)
}

/// The same with what the connection keeps: its parser, and memory for answers.
fn pass<R: Read, W: Write>(
    rt: &HostRuntime,
    parser: &mut ClientParser<Global>,
    connection: &mut Connection<'_>,
    out: &mut Outbox,
    input: &mut R,
    output: &mut W,
) -> Result<(), Fault> {
    out.end()?;
    let recording = Recording::begin(rt, connection.host.is_recorded)?;
    let mut piece = [0u8; PIECE];
    for _ in 0..u64::MAX {
        let n = read(input, &mut piece)?;
        recording.add(rt, b'>', front(&piece, n))?;
        let taken = take_piece(parser, connection, front(&piece, n), out);
        put_with_pauses(rt, connection.monitor.to_send(), &connection.pauses, output)?;
        recording.add(rt, b'<', connection.monitor.to_send())?;
        connection.monitor.sent();
        connection.pauses.clear();
        taken?;
        if n == 0 || connection.is_over() {
            return Ok(());
        }
    }
    Ok(())
}
