//! The messages of a client.

use crate::codec::Codec;
use crate::fault::plain;
use crate::word::{Item, Words};
use pgp_base::{Buffer, Error, IsNull};
use pgp_frontend::{
    CopyData, ProtocolVersion, bind, cancel_request, cancel_request_key, close, copy_done,
    copy_fail, describe, execute, flush, parse, password_message, query, sasl_initial_response,
    sasl_response, ssl_request, startup_message, startup_message_version, sync, terminate,
};

/// A name and its value.
impl<'w> Item<'w> for (&'w str, &'w str) {
    fn read(words: &mut Words<'w>) -> (&'w str, &'w str) {
        let name = words.text();
        (name, words.text())
    }
}

fn write_startup<B: Buffer>(words: &mut Words<'_>, buf: &mut B) -> Result<(), Error> {
    let parameters = words.list::<(&str, &str)>();
    startup_message(parameters.iter().copied(), buf)
}

/// The version of a word, as `3.2`.
fn version(words: &mut Words<'_>) -> ProtocolVersion {
    if words.either("3.2", "3.0") {
        ProtocolVersion::V3_2
    } else {
        ProtocolVersion::V3_0
    }
}

fn write_startup_version<B: Buffer>(words: &mut Words<'_>, buf: &mut B) -> Result<(), Error> {
    let version = version(words);
    let parameters = words.list::<(&str, &str)>();
    startup_message_version(version, parameters.iter().copied(), buf)
}

fn write_parse<B: Buffer>(words: &mut Words<'_>, buf: &mut B) -> Result<(), Error> {
    let name = words.text();
    let text = words.text();
    let types = words.list::<u32>();
    parse(name, text, types.iter().copied(), buf)
}

fn write_bind<B: Buffer>(words: &mut Words<'_>, buf: &mut B) -> Result<(), Error> {
    let portal = words.text();
    let statement = words.text();
    let formats = words.list::<i16>();
    let values = words.list::<Option<&[u8]>>();
    let result_formats = words.list::<i16>();
    plain(bind(
        portal,
        statement,
        formats.iter().copied(),
        values.as_slice(),
        |value: &Option<&[u8]>, buf: &mut B| -> Result<IsNull, Error> {
            match *value {
                None => Ok(IsNull::Yes),
                Some(bytes) => {
                    buf.append(bytes)?;
                    Ok(IsNull::No)
                }
            }
        },
        result_formats.iter().copied(),
        buf,
    ))
}

fn write_copy_data<B: Buffer>(words: &mut Words<'_>, buf: &mut B) -> Result<(), Error> {
    let piece = CopyData::new(words.bytes())?;
    match piece.write(buf) {
        Ok(()) => Ok(()),
        Err(_) => Err(Error::OutOfMemory),
    }
}

fn write_close<B: Buffer>(words: &mut Words<'_>, buf: &mut B) -> Result<(), Error> {
    let variant = words.letter();
    close(variant, words.text(), buf)
}

fn write_describe<B: Buffer>(words: &mut Words<'_>, buf: &mut B) -> Result<(), Error> {
    let variant = words.letter();
    describe(variant, words.text(), buf)
}

fn write_execute<B: Buffer>(words: &mut Words<'_>, buf: &mut B) -> Result<(), Error> {
    let portal = words.text();
    execute(portal, words.number(), buf)
}

fn write_cancel<B: Buffer>(words: &mut Words<'_>, buf: &mut B) -> Result<(), Error> {
    let process_id = words.number();
    cancel_request(process_id, words.number(), buf)
}

fn write_cancel_key<B: Buffer>(words: &mut Words<'_>, buf: &mut B) -> Result<(), Error> {
    let process_id = words.number();
    cancel_request_key(process_id, words.bytes(), buf)
}

fn write_sasl<B: Buffer>(words: &mut Words<'_>, buf: &mut B) -> Result<(), Error> {
    let mechanism = words.text();
    sasl_initial_response(mechanism, words.bytes(), buf)
}

#[derive(Drop)]
pub struct Client;

impl Codec for Client {
    fn write<B: Buffer>(name: &str, words: &mut Words<'_>, buf: &mut B) -> Result<(), Error> {
        match name {
            "bind" => write_bind(words, buf),
            "cancel_request" => write_cancel(words, buf),
            "cancel_request_key" => write_cancel_key(words, buf),
            "close" => write_close(words, buf),
            "copy_data" => write_copy_data(words, buf),
            "copy_done" => copy_done(buf),
            "copy_fail" => copy_fail(words.text(), buf),
            "describe" => write_describe(words, buf),
            "execute" => write_execute(words, buf),
            "flush" => flush(buf),
            "parse" => write_parse(words, buf),
            "password_message" => password_message(words.bytes(), buf),
            "query" => query(words.text(), buf),
            "sasl_initial_response" => write_sasl(words, buf),
            "sasl_response" => sasl_response(words.bytes(), buf),
            "ssl_request" => ssl_request(buf),
            "startup_message" => write_startup(words, buf),
            "startup_message_version" => write_startup_version(words, buf),
            "sync" => sync(buf),
            "terminate" => terminate(buf),
            _ => words.no_call(),
        }
    }
}
