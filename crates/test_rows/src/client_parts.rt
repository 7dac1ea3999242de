//! What a server reads of a client: each message as the words of the call that writes it, or by a name of its own where none does.

use crate::shown::{Show, Shown};
use crate::walks::show_walk;
use pgp_frontend_read::{ClientMessage, StartupParameters};

/// The name and the value of a startup packet's parameter, two words.
impl Show for (&[u8], &[u8]) {
    fn show(self, out: &mut Shown) {
        let (name, value) = self;
        out.bytes(name);
        out.bytes(value)
    }
}

/// Shows the version, and the names and values, two words each.
fn show_startup(minor: u16, parameters: StartupParameters<'_>, out: &mut Shown) {
    match minor {
        0 => out.word("startup_message_version 3.0"),
        2 => out.word("startup_message_version 3.2"),
        minor => {
            out.word("startup_message_minor");
            out.number(minor)
        }
    }
    show_walk(parameters, out);
}

/// Shows a call with these bytes as its words.
fn show_bytes(call: &str, words: &[&[u8]], out: &mut Shown) {
    out.word(call);
    for word in words {
        out.bytes(word);
    }
}

/// Shows a message with numbers or lists.
fn show_details(message: ClientMessage<'_>, out: &mut Shown) {
    match message {
        ClientMessage::Bind {
            portal,
            statement,
            formats,
            values,
            result_formats,
        } => {
            show_bytes("bind", &[portal, statement], out);
            show_walk(formats, out);
            show_walk(values, out);
            show_walk(result_formats, out);
        }
        ClientMessage::Parse {
            name,
            query,
            param_types,
        } => {
            show_bytes("parse", &[name, query], out);
            show_walk(param_types, out);
        }
        ClientMessage::Execute { portal, max_rows } => {
            show_bytes("execute", &[portal], out);
            out.number(max_rows)
        }
        ClientMessage::FunctionCall {
            function,
            formats,
            arguments,
            result_format,
        } => {
            out.word("function_call");
            out.number(function);
            show_walk(formats, out);
            show_walk(arguments, out);
            out.number(result_format)
        }
        ClientMessage::Startup { minor, parameters } => show_startup(minor, parameters, out),
        ClientMessage::CancelRequest {
            process_id,
            secret_key,
        } => {
            out.word("cancel_request_key");
            out.number(process_id);
            out.bytes(secret_key)
        }
        _ => out.word("no such message"),
    }
}

/// Shows the first message of a SASL exchange.
fn show_sasl_initial(mechanism: &[u8], response: Option<&[u8]>, out: &mut Shown) {
    match response {
        Some(response) => show_bytes("sasl_initial_response", &[mechanism, response], out),
        None => show_bytes("sasl_initial_without_response", &[mechanism], out),
    }
}

/// Shows a message.
pub fn show_call(message: ClientMessage<'_>, out: &mut Shown) {
    match message {
        ClientMessage::Close { variant, name } => show_bytes("close", &[&[variant], name], out),
        ClientMessage::CopyData(bytes) => show_bytes("copy_data", &[bytes], out),
        ClientMessage::CopyDone => out.word("copy_done"),
        ClientMessage::CopyFail(reason) => show_bytes("copy_fail", &[reason], out),
        ClientMessage::Describe { variant, name } => show_bytes(
            "describe",
            &[&[variant], name],
            out,
        ),
        ClientMessage::Flush => out.word("flush"),
        ClientMessage::PasswordMessage(password) => show_bytes(
            "password_message",
            &[password],
            out,
        ),
        ClientMessage::Query(query) => show_bytes("query", &[query], out),
        ClientMessage::SaslInitialResponse {
            mechanism,
            response,
        } => show_sasl_initial(mechanism, response, out),
        ClientMessage::SaslResponse(response) => show_bytes("sasl_response", &[response], out),
        ClientMessage::Sync => out.word("sync"),
        ClientMessage::Terminate => out.word("terminate"),
        ClientMessage::SslRequest => out.word("ssl_request"),
        ClientMessage::GssEncRequest => out.word("gssenc_request"),
        other => show_details(other, out),
    }
}
