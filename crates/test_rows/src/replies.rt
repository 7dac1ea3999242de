//! The messages of a server, written.

use crate::codec::{Codec, check_written};
use crate::fault::Fault;
use crate::row::Row;
use crate::shown::Shown;
use crate::word::{Item, Words};
use pgp_base::{Buffer, Error};
use pgp_frontend_read::{ClientMessage, ClientMessages, PasswordKind};
use pgp_message::Messages;
use pgp_message_write::{
    Column, ErrorField, authentication_cleartext_password, authentication_gss,
    authentication_gss_continue, authentication_kerberos_v5, authentication_md5_password,
    authentication_ok, authentication_sasl, authentication_sasl_continue,
    authentication_sasl_final, authentication_scm_credential, authentication_sspi,
    backend_key_data, bind_complete, close_complete, command_complete, copy_data, copy_done,
    copy_in_response, copy_out_response, data_row, empty_query_response, error_response,
    negotiate_protocol_version, no_data, notice_response, notification_response,
    parameter_description, parameter_status, parse_complete, portal_suspended, ready_for_query,
    row_description,
};
use pgp_session::serving::{answer_versions, startup_options};

/// A field: a letter and a text.
impl<'w> Item<'w> for ErrorField<'w> {
    fn read(words: &mut Words<'w>) -> ErrorField<'w> {
        ErrorField {
            code: words.letter(),
            value: words.bytes(),
        }
    }
}

/// A column: its name, a table and its number there, a type, its size and modifier, and a format.
impl<'w> Item<'w> for Column<'w> {
    fn read(words: &mut Words<'w>) -> Column<'w> {
        Column {
            name: words.bytes(),
            table_oid: words.number(),
            column_id: words.number(),
            type_oid: words.number(),
            type_size: words.number(),
            type_modifier: words.number(),
            format: words.number(),
        }
    }
}

fn write_copy<B: Buffer>(name: &str, words: &mut Words<'_>, buf: &mut B) -> Result<(), Error> {
    let format = words.number();
    let formats = words.list::<u16>();
    if name == "copy_in_response" {
        return copy_in_response(format, &formats, buf);
    }
    copy_out_response(format, &formats, buf)
}

fn write_notification<B: Buffer>(words: &mut Words<'_>, buf: &mut B) -> Result<(), Error> {
    let process_id = words.number();
    let channel = words.bytes();
    notification_response(process_id, channel, words.bytes(), buf)
}

fn write_negotiation<B: Buffer>(words: &mut Words<'_>, buf: &mut B) -> Result<(), Error> {
    let version = words.number();
    negotiate_protocol_version(version, &words.list(), buf)
}

/// The answer about versions to a startup packet, these bytes.
fn write_versions<B: Buffer>(words: &mut Words<'_>, buf: &mut B) -> Result<(), Error> {
    let mut packets = ClientMessages::new(words.bytes());
    match packets.next(PasswordKind::Password) {
        Ok(Some(ClientMessage::Startup { minor, parameters })) => {
            let options = match startup_options(words.alloc(), parameters) {
                Ok(options) => options,
                Err(e) => return Err(e),
            };
            match answer_versions(minor, &options, buf) {
                Ok(_) => Ok(()),
                Err(e) => Err(e),
            }
        }
        _ => words.no_call(),
    }
}

fn write_key<B: Buffer>(words: &mut Words<'_>, buf: &mut B) -> Result<(), Error> {
    let process_id = words.number();
    backend_key_data(process_id, words.bytes(), buf)
}

fn write_status<B: Buffer>(words: &mut Words<'_>, buf: &mut B) -> Result<(), Error> {
    let setting = words.bytes();
    parameter_status(setting, words.bytes(), buf)
}

/// A message with a list.
fn write_list<B: Buffer>(name: &str, words: &mut Words<'_>, buf: &mut B) -> Result<(), Error> {
    match name {
        "authentication_sasl" => authentication_sasl(&words.list(), buf),
        "copy_in_response" | "copy_out_response" => write_copy(name, words, buf),
        "data_row" => data_row(&words.list(), buf),
        "error_response" => error_response(&words.list(), buf),
        "answer_versions" => write_versions(words, buf),
        "negotiate_protocol_version" => write_negotiation(words, buf),
        "notice_response" => notice_response(&words.list(), buf),
        "parameter_description" => parameter_description(&words.list(), buf),
        "row_description" => row_description(&words.list(), buf),
        _ => words.no_call(),
    }
}

/// A request for authentication.
fn write_request<B: Buffer>(name: &str, words: &mut Words<'_>, buf: &mut B) -> Result<(), Error> {
    match name {
        "authentication_cleartext_password" => authentication_cleartext_password(buf),
        "authentication_gss" => authentication_gss(buf),
        "authentication_gss_continue" => authentication_gss_continue(words.bytes(), buf),
        "authentication_kerberos_v5" => authentication_kerberos_v5(buf),
        "authentication_md5_password" => authentication_md5_password(words.block(), buf),
        "authentication_ok" => authentication_ok(buf),
        "authentication_sasl_continue" => authentication_sasl_continue(words.bytes(), buf),
        "authentication_sasl_final" => authentication_sasl_final(words.bytes(), buf),
        "authentication_scm_credential" => authentication_scm_credential(buf),
        "authentication_sspi" => authentication_sspi(buf),
        _ => write_list(name, words, buf),
    }
}

#[derive(Drop)]
pub struct Replies;

impl Codec for Replies {
    fn write<B: Buffer>(name: &str, words: &mut Words<'_>, buf: &mut B) -> Result<(), Error> {
        match name {
            "backend_key_data" => write_key(words, buf),
            "bind_complete" => bind_complete(buf),
            "close_complete" => close_complete(buf),
            "command_complete" => command_complete(words.bytes(), buf),
            "copy_data" => copy_data(words.bytes(), buf),
            "copy_done" => copy_done(buf),
            "empty_query_response" => empty_query_response(buf),
            "no_data" => no_data(buf),
            "notification_response" => write_notification(words, buf),
            "parameter_status" => write_status(words, buf),
            "parse_complete" => parse_complete(buf),
            "portal_suspended" => portal_suspended(buf),
            "ready_for_query" => ready_for_query(words.letter(), buf),
            _ => write_request(name, words, buf),
        }
    }
}

/// Whether the bytes are a message of a server, with nothing after it.
fn is_one_message(bytes: &[u8]) -> bool {
    let mut messages = Messages::new(bytes);
    let read = messages.next();
    let is_message = matches!(&read, Ok(Some(_)));
    drop(read);
    is_message && messages.rest().is_empty()
}

/// A row of a server's call: it appends the bytes, which are one message, or it is rejected.
pub fn check_reply(row: &Row<'_>, out: &mut Shown) -> Result<(), Fault> {
    check_written::<Replies>(row, out)?;
    if row.is_refusal() || is_one_message(&row.wanted_bytes(out.alloc())?) {
        Ok(())
    } else {
        Err(Fault::Row)
    }
}
