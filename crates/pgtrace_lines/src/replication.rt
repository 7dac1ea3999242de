//! What the line of a CopyData says that may have a message of replication inside.

ghost use Rattle.std.specs.Prelude.{◌≡◌, ◌∷◌, ◌++◌, [], pos, OnErr, OnOk, codes, string_bytes};
ghost use Rattle.pgtrace_lines.specs.Common.{w64, cast_signed, Lsn, Number, followed, key};
ghost use Rattle.pgtrace_lines.specs.Replication.{Feedback, Keepalive, ShowsInner, StatusUpdate, XLogData, clock_parts, inner_parts, inner_view, named};

use crate::body::put_copied;
use crate::client_body::put_unsigned;
use crate::inner::{Inner, inner_of};
use pgp_base::Memory;
use pgtool_line::line::{put_number, put_word};
use pgtool_line::nesting::{put_key, put_member};
use pgtool_line::style::Style;
use pgtool_line::wide::{put_lsn, put_wide};
use std::alloc::AllocError;

/// Adds the message that these data are, of a standby or of a server; or the data where they are none.
pub fn put_data<A: Memory>(
    style: Style,
    standby: bool,
    bytes: &[u8],
    line: &mut String<A>,
) -> Result<(), AllocError>
    ensures says { OnOk result (ShowsInner standby style bytes.now (string_bytes line.old) (string_bytes line.new)) }
    ensures lacks { OnErr result A.Lacks }
{
    match inner_of(standby, bytes) {
        Some(message) => put_inner(style, message, line),
        None => put_copied(style, bytes, line),
    }
}

/// Adds the name of a message and its parts.
fn put_inner<A: Memory>(
    style: Style,
    message: Inner<'_>,
    line: &mut String<A>,
) -> Result<(), AllocError>
    ensures parts { OnOk result (string_bytes line.new ≡ followed style (string_bytes line.old) (inner_parts (inner_view message.entry))) }
    ensures lacks { OnErr result A.Lacks }
{
    match message {
        Inner::XLogData {
            start,
            end,
            clock,
            bytes,
        } => put_log(style, start, end, clock, bytes, line),
        Inner::Keepalive { end, clock, reply } => put_keepalive(style, end, clock, reply, line),
        Inner::StatusUpdate {
            written,
            flushed,
            applied,
            clock,
            reply,
        } => put_status_update(style, written, flushed, applied, clock, reply, line),
        Inner::Feedback {
            clock,
            xmin,
            epoch,
            catalog_xmin,
            catalog_epoch,
        } => put_feedback(style, clock, xmin, epoch, catalog_xmin, catalog_epoch, line),
    }
}

fn put_log<A: Memory>(
    style: Style,
    start: u64,
    end: u64,
    clock: u64,
    bytes: &[u8],
    line: &mut String<A>,
) -> Result<(), AllocError>
    ensures parts { OnOk result (string_bytes line.new ≡ followed style (string_bytes line.old) (inner_parts (XLogData start end clock bytes.now))) }
    ensures lacks { OnErr result A.Lacks }
{
    put_named(style, "XLogData", line)?;
    put_place(style, "start", start, line)?;
    put_place(style, "end", end, line)?;
    put_clock(style, clock, line)?;
    put_copied(style, bytes, line)
}

fn put_keepalive<A: Memory>(
    style: Style,
    end: u64,
    clock: u64,
    reply: u8,
    line: &mut String<A>,
) -> Result<(), AllocError>
    ensures parts { OnOk result (string_bytes line.new ≡ followed style (string_bytes line.old) (inner_parts (Keepalive end clock reply))) }
    ensures lacks { OnErr result A.Lacks }
{
    put_named(style, "PrimaryKeepalive", line)?;
    put_place(style, "end", end, line)?;
    put_clock(style, clock, line)?;
    put_reply(style, reply, line)
}

fn put_status_update<A: Memory>(
    style: Style,
    written: u64,
    flushed: u64,
    applied: u64,
    clock: u64,
    reply: u8,
    line: &mut String<A>,
) -> Result<(), AllocError>
    ensures parts { OnOk result (string_bytes line.new ≡ followed style (string_bytes line.old) (inner_parts (StatusUpdate written flushed applied clock reply))) }
    ensures lacks { OnErr result A.Lacks }
{
    put_named(style, "StandbyStatusUpdate", line)?;
    put_place(style, "written", written, line)?;
    put_place(style, "flushed", flushed, line)?;
    put_place(style, "applied", applied, line)?;
    put_clock(style, clock, line)?;
    put_reply(style, reply, line)
}

fn put_feedback<A: Memory>(
    style: Style,
    clock: u64,
    xmin: u32,
    epoch: u32,
    catalog_xmin: u32,
    catalog_epoch: u32,
    line: &mut String<A>,
) -> Result<(), AllocError>
    ensures parts { OnOk result (string_bytes line.new ≡ followed style (string_bytes line.old) (inner_parts (Feedback clock xmin epoch catalog_xmin catalog_epoch))) }
    ensures lacks { OnErr result A.Lacks }
{
    put_named(style, "HotStandbyFeedback", line)?;
    put_clock(style, clock, line)?;
    put_transaction(style, "xmin", xmin, "epoch", epoch, line)?;
    put_transaction(
        style,
        "catalog_xmin",
        catalog_xmin,
        "catalog_epoch",
        catalog_epoch,
        line,
    )
}

/// Adds a transaction and its epoch, with their names.
fn put_transaction<A: Memory>(
    style: Style,
    name: &str,
    xmin: u32,
    second: &str,
    epoch: u32,
    line: &mut String<A>,
) -> Result<(), AllocError>
    ensures parts { OnOk result (string_bytes line.new ≡ followed style (string_bytes line.old) (key name.now ∷ Number (pos xmin) ∷ key second.now ∷ Number (pos epoch) ∷ [])) }
    ensures lacks { OnErr result A.Lacks }
{
    put_unsigned(style, name, xmin, line)?;
    put_unsigned(style, second, epoch, line)
}

/// Adds the name of a message.
fn put_named<A: Memory>(style: Style, name: &str, line: &mut String<A>) -> Result<(), AllocError>
    ensures parts { OnOk result (string_bytes line.new ≡ followed style (string_bytes line.old) (named name.now)) }
    ensures lacks { OnErr result A.Lacks }
{
    put_member(style, "inner", line)?;
    put_word(style, name, line)
}

/// Adds a place in the write-ahead log with its name.
fn put_place<A: Memory>(
    style: Style,
    name: &str,
    place: u64,
    line: &mut String<A>,
) -> Result<(), AllocError>
    ensures parts { OnOk result (string_bytes line.new ≡ followed style (string_bytes line.old) (key name.now ∷ Lsn place ∷ [])) }
    ensures lacks { OnErr result A.Lacks }
{
    put_key(style, name, name, line)?;
    put_lsn(style, place, line)
}

/// Adds a clock.
fn put_clock<A: Memory>(style: Style, clock: u64, line: &mut String<A>) -> Result<(), AllocError>
    ensures parts { OnOk result (string_bytes line.new ≡ followed style (string_bytes line.old) (clock_parts clock)) }
    ensures lacks { OnErr result A.Lacks }
{
    put_key(style, "clock", "clock", line)?;
    put_wide(style, clock.cast_signed(), line)
}

/// Adds whether a reply is asked for.
fn put_reply<A: Memory>(style: Style, reply: u8, line: &mut String<A>) -> Result<(), AllocError>
    ensures parts { OnOk result (string_bytes line.new ≡ followed style (string_bytes line.old) (key (codes "reply") ∷ Number (pos reply) ∷ [])) }
    ensures lacks { OnErr result A.Lacks }
{
    put_key(style, "reply", "reply", line)?;
    put_number(style, reply as u64, line)
}
