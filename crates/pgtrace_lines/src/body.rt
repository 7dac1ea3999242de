//! What the line of a message says after its name.

ghost use Rattle.std.specs.Prelude.{◌≡◌, ◌∷◌, [], pos, Some, OnErr, OnOk, codes, string_bytes};
ghost use Rattle.pgp_base.specs.Walk.{hint_of};
ghost use Rattle.pgtrace_lines.specs.Common.{payload_of, Authentication, AuthenticationSasl, NotificationResponse, CommandComplete, DataRow, BackendKeyData, NegotiateProtocolVersion, ParameterStatus, RowDescription, ParameterDescription, view, secret, Count, Key, Member, ObjectBegins, ObjectEnds, Number, Text, Value, Word, followed, key};
ghost use Rattle.pgtrace_lines.specs.Names.{state_of};
ghost use Rattle.pgtrace_lines.specs.Shown.{Shows, bare, closed, field_parts, list_of, name_or, number_part};

use crate::lists::{
    put_columns, put_fields, put_formats, put_mechanisms, put_named, put_options, put_types,
    put_values,
};
use crate::names::state_of;
use pgp_base::{FallibleIterator, Memory};
use pgp_message::{
    AuthenticationSaslBody, BackendKeyDataBody, ColumnFormats, CommandCompleteBody, DataRowBody,
    ErrorFields, Message, NegotiateProtocolVersionBody, NotificationResponseBody,
    ParameterDescriptionBody, ParameterStatusBody, RowDescriptionBody,
};
use pgtool_line::line::{put_number, put_signed, put_some, put_text};
use pgtool_line::nesting::{begin_list, begin_object, put_count, put_key, put_member};
use pgtool_line::secret::put_secret;
use pgtool_line::style::Style;
use std::alloc::AllocError;

/// Adds what the message says, whose body these bytes are.
pub fn put_message<A: Memory>(
    style: Style,
    message: &Message<&[u8]>,
    body: &[u8],
    line: &mut String<A>,
) -> Result<(), AllocError>
    requires { body.now ≡ payload_of (view message.now) }
    ensures says { OnOk result (Shows style (view message.now) (string_bytes line.old) (string_bytes line.new)) }
    ensures lacks { OnErr result A.Lacks }
{
    match message {
        Message::AuthenticationMd5Password(salt) => put_secret(
            style,
            "salt",
            "salt",
            &salt.salt(),
            line,
        ),
        Message::AuthenticationGssContinue(token) => {
            put_secret(style, "data", "data", token.data(), line)
        }
        Message::AuthenticationSasl(offer) => put_offer(style, offer, line),
        Message::AuthenticationSaslContinue(text) => {
            put_secret(style, "data", "data", text.data(), line)
        }
        Message::AuthenticationSaslFinal(text) => {
            put_secret(style, "data", "data", text.data(), line)
        }
        Message::BackendKeyData(key) => put_key_data(style, key, line),
        Message::CommandComplete(command) => put_command(style, command, body, line),
        Message::CopyData(copy) => put_copied(style, copy.data(), line),
        Message::CopyInResponse(copy) => {
            put_copy(style, copy.format(), copy.column_formats(), line)
        }
        Message::CopyOutResponse(copy) => {
            put_copy(style, copy.format(), copy.column_formats(), line)
        }
        Message::DataRow(row) => put_row(style, row, line),
        Message::ErrorResponse(error) => put_all_fields(style, error.fields(), line),
        Message::NegotiateProtocolVersion(answer) => put_versions(style, answer, line),
        Message::NoticeResponse(notice) => put_all_fields(style, notice.fields(), line),
        Message::NotificationResponse(news) => put_news(style, news, body, line),
        Message::ParameterDescription(types) => put_parameters(style, types, line),
        Message::ParameterStatus(setting) => put_setting(style, setting, body, line),
        Message::ReadyForQuery(ready) => { put_status(style, ready.status(), line) }
        Message::RowDescription(row) => put_description(style, row, line),
        Message::AuthenticationCleartextPassword
        | Message::AuthenticationGss
        | Message::AuthenticationKerberosV5
        | Message::AuthenticationOk
        | Message::AuthenticationScmCredential
        | Message::AuthenticationSspi
        | Message::BindComplete
        | Message::CloseComplete
        | Message::CopyDone
        | Message::EmptyQueryResponse
        | Message::NoData
        | Message::ParseComplete
        | Message::PortalSuspended => Ok(()),
    }
}

/// Adds the fields of an error or a notice, in JSON as an object.
fn put_all_fields<A: Memory>(
    style: Style,
    fields: ErrorFields<'_>,
    line: &mut String<A>,
) -> Result<(), AllocError>
    ensures parts { OnOk result (string_bytes line.new ≡ followed style (followed style (string_bytes line.old) (Member (codes "fields") ∷ ObjectBegins ∷ [])) (closed ObjectEnds field_parts fields.entry.items fields.entry.end)) }
    ensures lacks { OnErr result A.Lacks }
{
    put_member(style, "fields", line)?;
    begin_object(style, line)?;
    put_fields(style, fields, line)
}

/// Adds the state of a transaction.
fn put_status<A: Memory>(style: Style, status: u8, line: &mut String<A>) -> Result<(), AllocError>
    ensures parts { OnOk result (string_bytes line.new ≡ followed style (string_bytes line.old) (Member (codes "status") ∷ Word (name_or (state_of status) status) ∷ [])) }
    ensures lacks { OnErr result A.Lacks }
{
    put_member(style, "status", line)?;
    put_named(style, state_of(status), status, line)
}

/// Adds the mechanisms that a server offers.
fn put_offer<A: Memory>(
    style: Style,
    offer: &AuthenticationSaslBody<&[u8]>,
    line: &mut String<A>,
) -> Result<(), AllocError>
    ensures says { OnOk result (Shows style (Authentication (AuthenticationSasl offer.now)) (string_bytes line.old) (string_bytes line.new)) }
    ensures lacks { OnErr result A.Lacks }
{
    put_key(style, "mechanisms", "mechanisms", line)?;
    begin_list(style, line)?;
    put_mechanisms(style, offer.mechanisms(), line)
}

/// Adds the process that a cancel request names, and its key.
fn put_key_data<A: Memory>(
    style: Style,
    key: &BackendKeyDataBody<&[u8]>,
    line: &mut String<A>,
) -> Result<(), AllocError>
    ensures says { OnOk result (Shows style (BackendKeyData key.now) (string_bytes line.old) (string_bytes line.new)) }
    ensures lacks { OnErr result A.Lacks }
{
    put_process_key(style, key.process_id(), key.secret_key_bytes(), line)
}

/// Adds a process and its key.
pub fn put_process_key<A: Memory>(
    style: Style,
    process_id: i32,
    key: &[u8],
    line: &mut String<A>,
) -> Result<(), AllocError>
    ensures parts { OnOk result (string_bytes line.new ≡ followed style (string_bytes line.old) (Key (codes "process") (codes "process_id") ∷ Number process_id ∷ Key (codes "key") (codes "secret_key") ∷ secret style key.now ∷ [])) }
    ensures lacks { OnErr result A.Lacks }
{
    put_process(style, process_id, line)?;
    put_secret(style, "key", "secret_key", key, line)
}

/// Adds a number that may have a sign, with its name.
pub fn put_integer<A: Memory>(
    style: Style,
    word: &str,
    name: &str,
    n: i32,
    line: &mut String<A>,
) -> Result<(), AllocError>
    ensures parts { OnOk result (string_bytes line.new ≡ followed style (string_bytes line.old) (Key word.now name.now ∷ Number n ∷ [])) }
    ensures lacks { OnErr result A.Lacks }
{
    put_key(style, word, name, line)?;
    put_signed(style, n, line)
}

/// Adds a process.
fn put_process<A: Memory>(
    style: Style,
    process_id: i32,
    line: &mut String<A>,
) -> Result<(), AllocError>
    ensures parts { OnOk result (string_bytes line.new ≡ followed style (string_bytes line.old) (Key (codes "process") (codes "process_id") ∷ Number process_id ∷ [])) }
    ensures lacks { OnErr result A.Lacks }
{
    put_integer(style, "process", "process_id", process_id, line)
}

/// Adds the bytes of a body as they are.
pub fn put_bare<A: Memory>(
    style: Style,
    body: &[u8],
    line: &mut String<A>,
) -> Result<(), AllocError>
    ensures parts { OnOk result (string_bytes line.new ≡ followed style (string_bytes line.old) (bare body.now)) }
    ensures lacks { OnErr result A.Lacks }
{
    put_key(style, "bytes", "bytes", line)?;
    put_text(style, body, line)
}

/// Adds a text with its name.
fn put_named_text<A: Memory>(
    style: Style,
    word: &str,
    name: &str,
    text: &str,
    line: &mut String<A>,
) -> Result<(), AllocError>
    ensures parts { OnOk result (string_bytes line.new ≡ followed style (string_bytes line.old) (Key word.now name.now ∷ Text text.now ∷ [])) }
    ensures lacks { OnErr result A.Lacks }
{
    put_key(style, word, name, line)?;
    put_text(style, text.as_bytes(), line)
}

/// Adds the tag of a command that is complete.
fn put_command<A: Memory>(
    style: Style,
    command: &CommandCompleteBody<&[u8]>,
    body: &[u8],
    line: &mut String<A>,
) -> Result<(), AllocError>
    requires { body.now ≡ payload_of (CommandComplete command.now) }
    ensures says { OnOk result (Shows style (CommandComplete command.now) (string_bytes line.old) (string_bytes line.new)) }
    ensures lacks { OnErr result A.Lacks }
{
    match command.tag() {
        Ok(tag) => put_named_text(style, "tag", "command_tag", tag, line),
        Err(_) => put_bare(style, body, line),
    }
}

/// Adds a parameter of the session.
fn put_setting<A: Memory>(
    style: Style,
    setting: &ParameterStatusBody<&[u8]>,
    body: &[u8],
    line: &mut String<A>,
) -> Result<(), AllocError>
    requires { body.now ≡ payload_of (ParameterStatus setting.now) }
    ensures says { OnOk result (Shows style (ParameterStatus setting.now) (string_bytes line.old) (string_bytes line.new)) }
    ensures lacks { OnErr result A.Lacks }
{
    let Ok(name) = setting.name() else {
        return put_bare(style, body, line);
    };
    let Ok(value) = setting.value() else {
        return put_bare(style, body, line);
    };
    put_named_text(style, "name", "parameter", name, line)?;
    put_named_text(style, "value", "value", value, line)
}

/// Adds a notification.
fn put_news<A: Memory>(
    style: Style,
    news: &NotificationResponseBody<&[u8]>,
    body: &[u8],
    line: &mut String<A>,
) -> Result<(), AllocError>
    requires { body.now ≡ payload_of (NotificationResponse news.now) }
    ensures says { OnOk result (Shows style (NotificationResponse news.now) (string_bytes line.old) (string_bytes line.new)) }
    ensures lacks { OnErr result A.Lacks }
{
    let Ok(channel) = news.channel() else {
        return put_bare(style, body, line);
    };
    let Ok(message) = news.message() else {
        return put_bare(style, body, line);
    };
    put_notification(style, news.process_id(), channel, message, line)
}

/// Adds the process that notifies, the channel, and what it says there.
fn put_notification<A: Memory>(
    style: Style,
    process_id: i32,
    channel: &str,
    message: &str,
    line: &mut String<A>,
) -> Result<(), AllocError>
    ensures parts { OnOk result (string_bytes line.new ≡ followed style (string_bytes line.old)
        (Key (codes "process") (codes "process_id") ∷ Number process_id ∷ key (codes "channel") ∷ Text channel.now ∷ key (codes "payload") ∷ Text message.now ∷ [])) }
    ensures lacks { OnErr result A.Lacks }
{
    put_process(style, process_id, line)?;
    put_payload(style, channel, message, line)
}

/// Adds a channel, and what is said there.
fn put_payload<A: Memory>(
    style: Style,
    channel: &str,
    message: &str,
    line: &mut String<A>,
) -> Result<(), AllocError>
    ensures parts { OnOk result (string_bytes line.new ≡ followed style (string_bytes line.old) (key (codes "channel") ∷ Text channel.now ∷ key (codes "payload") ∷ Text message.now ∷ [])) }
    ensures lacks { OnErr result A.Lacks }
{
    put_named_text(style, "channel", "channel", channel, line)?;
    put_named_text(style, "payload", "payload", message, line)
}

/// Adds data of a copy.
pub fn put_copied<A: Memory>(
    style: Style,
    bytes: &[u8],
    line: &mut String<A>,
) -> Result<(), AllocError>
    ensures parts { OnOk result (string_bytes line.new ≡ followed style (string_bytes line.old) (key (codes "data") ∷ Value (Some bytes.now) ∷ [])) }
    ensures lacks { OnErr result A.Lacks }
{
    put_key(style, "data", "data", line)?;
    put_some(style, bytes, line)
}

/// Adds the format of a copy, and those of its columns.
fn put_copy<A: Memory>(
    style: Style,
    format: u8,
    formats: ColumnFormats<'_>,
    line: &mut String<A>,
) -> Result<(), AllocError>
    ensures parts { OnOk result (string_bytes line.new ≡ followed style (string_bytes line.old)
        (key (codes "format") ∷ Number (pos format) ∷ Key (codes "columns") (codes "column_formats") ∷ Count (hint_of formats.entry.announced).0
        ∷ list_of number_part formats.entry.items formats.entry.end)) }
    ensures lacks { OnErr result A.Lacks }
{
    put_key(style, "format", "format", line)?;
    put_number(style, format as u64, line)?;
    put_key(style, "columns", "column_formats", line)?;
    put_count(style, formats.size_hint().0 as u64, line)?;
    put_formats(style, formats, line)
}

/// Adds a row.
fn put_row<A: Memory>(
    style: Style,
    row: &DataRowBody<&[u8]>,
    line: &mut String<A>,
) -> Result<(), AllocError>
    ensures says { OnOk result (Shows style (DataRow row.now) (string_bytes line.old) (string_bytes line.new)) }
    ensures lacks { OnErr result A.Lacks }
{
    let places = row.ranges();
    put_key(style, "values", "values", line)?;
    put_count(style, places.size_hint().0 as u64, line)?;
    put_values(style, row.buffer(), places, line)
}

/// Adds an answer about versions.
fn put_versions<A: Memory>(
    style: Style,
    answer: &NegotiateProtocolVersionBody<&[u8]>,
    line: &mut String<A>,
) -> Result<(), AllocError>
    ensures says { OnOk result (Shows style (NegotiateProtocolVersion answer.now) (string_bytes line.old) (string_bytes line.new)) }
    ensures lacks { OnErr result A.Lacks }
{
    let options = answer.options();
    put_key(style, "version", "version", line)?;
    put_signed(style, answer.version(), line)?;
    put_key(style, "options", "options", line)?;
    put_count(style, options.size_hint().0 as u64, line)?;
    put_options(style, options, line)
}

/// Adds the types of parameters.
fn put_parameters<A: Memory>(
    style: Style,
    description: &ParameterDescriptionBody<&[u8]>,
    line: &mut String<A>,
) -> Result<(), AllocError>
    ensures says { OnOk result (Shows style (ParameterDescription description.now) (string_bytes line.old) (string_bytes line.new)) }
    ensures lacks { OnErr result A.Lacks }
{
    let types = description.parameters();
    put_key(style, "types", "types", line)?;
    put_count(style, types.size_hint().0 as u64, line)?;
    put_types(style, types, line)
}

/// Adds the description of a row.
fn put_description<A: Memory>(
    style: Style,
    description: &RowDescriptionBody<&[u8]>,
    line: &mut String<A>,
) -> Result<(), AllocError>
    ensures says { OnOk result (Shows style (RowDescription description.now) (string_bytes line.old) (string_bytes line.new)) }
    ensures lacks { OnErr result A.Lacks }
{
    let columns = description.fields();
    put_key(style, "columns", "columns", line)?;
    put_count(style, columns.size_hint().0 as u64, line)?;
    put_columns(style, columns, line)
}
