//! The works, by name.

use crate::escapes::literals;
use crate::input::Input;
use crate::keys::keys;
use crate::pieces::feed;
use crate::streams::{read, read_copied};
use crate::values::{inet4s, texts};
use crate::writers::write;
use pgp_base::Error;
use std::alloc::Global;

/// What is timed.
#[derive(Clone, Copy)]
pub(crate) enum Work {
    /// `ParseComplete`, parsed.
    Bare,
    /// `ParseComplete`, `BindComplete` and `CommandComplete`, parsed.
    Tiny,
    /// `CommandComplete`, parsed, and its tag asked for.
    Kept,
    /// A row of eight columns of eight bytes, parsed, and its ranges walked.
    Row,
    /// The row, copied into a buffer, parsed, and its ranges walked.
    RowCopied,
    /// The row, fed to a parser in pieces.
    FeedRow,
    /// `bind` of five int4 values.
    Bind,
    /// `query` of 41 bytes.
    Query,
    /// `parse` with three types.
    Parse,
    /// `startup_message` with two parameters.
    Startup,
    /// `execute`.
    Execute,
    /// `describe`.
    Describe,
    /// `close`.
    Close,
    /// `cancel_request`.
    Cancel,
    /// `sync`.
    Sync,
    /// An IPv4 address, written.
    Inet4,
    /// A text of 16 bytes, written.
    Text,
    /// A string constant of 1,024 bytes without a quote.
    LiteralPlain,
    /// A string constant of 1,024 bytes, every second one a quote.
    LiteralQuotes,
    /// The iterated key of 4,096 rounds.
    Key,
}

impl Work {
    /// All works, and the names by which they are asked for.
    pub(crate) const ALL: [(Work, &'static str); 20] = [
        (Work::Bare, "read_bare"),
        (Work::Tiny, "read_tiny"),
        (Work::Kept, "read_kept"),
        (Work::Row, "read_row"),
        (Work::RowCopied, "copied_row"),
        (Work::FeedRow, "feed_row"),
        (Work::Bind, "write_bind"),
        (Work::Query, "write_query"),
        (Work::Parse, "write_parse"),
        (Work::Startup, "write_startup"),
        (Work::Execute, "write_execute"),
        (Work::Describe, "write_describe"),
        (Work::Close, "write_close"),
        (Work::Cancel, "write_cancel"),
        (Work::Sync, "write_sync"),
        (Work::Inet4, "value_inet4"),
        (Work::Text, "value_text"),
        (Work::LiteralPlain, "escape_literal_plain"),
        (Work::LiteralQuotes, "escape_literal_quotes"),
        (Work::Key, "key"),
    ];

    /// How many units are timed together: some hundredths of a second.
    pub(crate) fn units(self) -> u32 {
        match self {
            Work::Key => 8,
            Work::LiteralPlain | Work::LiteralQuotes => 50_000,
            _ => 500_000,
        }
    }
}

/// Does the work as often as the count says, and returns a sum made of the answers, so that no work
/// can be left out.
///
/// # Errors
///
/// Those of the work.
pub(crate) fn sum_of(
    alloc: Global,
    work: Work,
    input: &mut Input,
    count: u32,
) -> Result<u64, Error> {
    match work {
        Work::Bare | Work::Tiny | Work::Kept | Work::Row => read(&mut input.stream),
        Work::RowCopied => read_copied(alloc, input.stream.as_slice()),
        Work::FeedRow => feed(alloc, input.stream.as_slice()),
        Work::Inet4 => inet4s(&mut input.buf, count),
        Work::Text => texts(input, count),
        Work::LiteralPlain => literals(alloc, input.plain.as_str(), count),
        Work::LiteralQuotes => literals(alloc, input.quotes.as_str(), count),
        Work::Key => Ok(keys(count)),
        _ => write(work, input, count),
    }
}
