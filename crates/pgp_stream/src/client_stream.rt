//! What a client sends, as one stream.

ghost use Rattle.std.specs.Prelude.{◌≡◌, List, true, false, [], length, map, Some};
ghost use Rattle.pgp_base.specs.Cause.{Wants};
ghost use Rattle.pgp_base.specs.Wire.{int32};
ghost use Rattle.pgp_frontend.specs.ClientMessage.{ClientMessage, PasswordKind, CancelRequest, Close, CopyData as DataMessage, CopyDone, CopyFail, Describe, Execute, Flush, PasswordMessage, Query, SaslInitialResponse, SaslResponse, SslRequest, Startup, Sync, Terminate};
ghost use Rattle.pgp_frontend.specs.Given.{shown};
ghost use Rattle.pgp_frontend.specs.Payload.{bytes_of, minor_of};
ghost use Rattle.pgp_frontend.specs.Reading.{IsNamed};
ghost use Rattle.pgp_frontend.specs.ClientRun.{ClientRun, is_opened};
ghost use Rattle.pgp_stream.specs.ClientStream.{Adds, AddsMessage, Reads};

use bytes::{Buf, BytesMut};
use pgp_base::{Buffer, Error};
use pgp_frontend as frontend;
use pgp_frontend::{CopyData, ProtocolVersion};
use std::alloc::{Allocator, Global};
use std::marker::Model;

/// The bytes that a client has to send. Each method adds one message, or returns an error and changes nothing.
/// Requests come first, then one startup packet, and then all other messages.
#[derive(Drop)]
pub struct ClientStream<B: Buffer = BytesMut> {
    pub(crate) buf: B,
    pub(crate) opened: bool,
}

impl<B: Buffer> Model for ClientStream<B> {
    ghost use Rattle.pgp_stream.specs.ClientStream.{Sent, Reads};

    ghost Value = { Sent B };

    ghost view = { λ s. record { buf = s.buf; opened = s.opened } };

    ghost invariant = { λ s. Reads (B.held s.buf).bytes s.opened };
}

impl<A: Allocator + Copy> ClientStream<BytesMut<A>> {
    /// An empty stream.
    pub fn new(alloc: A) -> ClientStream<BytesMut<A>>
        ensures empty { result.buf.items ≡ [] }
        ensures closed { result.opened ≡ false }
        ensures run { ClientRun [] [] result.buf.items }
    {
        ClientStream::over(BytesMut::new(alloc))
    }
}

impl<B: Buffer> ClientStream<B> {
    /// An empty stream that writes to this buffer, which has to be empty.
    pub fn over(buf: B) -> ClientStream<B>
        requires { (B.held buf).bytes ≡ [] }
        ensures empty { result ≡ record { buf = buf; opened = false } }
        ensures run { ClientRun [] [] (B.held result.buf).bytes }
    {
        ClientStream { buf, opened: false }
    }

    /// Whether the startup packet has been written.
    pub fn is_open(&self) -> bool
        ensures opened { result ≡ self.now.opened }
        ensures reads { (kinds : List PasswordKind) (messages : List ClientMessage) → ClientRun kinds messages (B.held self.now.buf).bytes → result ≡ is_opened messages }
    {
        self.opened
    }

    /// The bytes to send.
    pub fn bytes(&self) -> &[u8]
        ensures bytes { result.now ≡ (B.held self.now.buf).bytes }
        ensures reads { Reads result.now self.now.opened }
    {
        self.buf.as_slice()
    }

    /// SSLRequest: asks for an encrypted session. The server answers with one byte, `S` or `N`, which is not a message.
    ///
    /// # Errors
    ///
    /// Returns `OutOfMemory` if the buffer can't grow. On error the stream is unchanged.
    pub fn ssl_request(&mut self) -> Result<(), Error>
        requires { self.old.opened ≡ false }
        ensures { AddsMessage B.held SslRequest B.Lacks self.old self.new result }
    {
        frontend::ssl_request(&mut self.buf)
    }

    /// CancelRequest: cancels another session's query, by the numbers of its BackendKeyData.
    ///
    /// # Errors
    ///
    /// Returns `OutOfMemory` if the buffer can't grow. On error the stream is unchanged.
    pub fn cancel_request(&mut self, process_id: i32, secret_key: i32) -> Result<(), Error>
        requires { self.old.opened ≡ false }
        ensures { AddsMessage B.held (CancelRequest process_id (int32 secret_key)) B.Lacks self.old self.new result }
    {
        frontend::cancel_request(process_id, secret_key, &mut self.buf)
    }

    /// The same by a key of any length of this project's profile of protocol 3.2; nothing is claimed of a server's 3.2.
    ///
    /// # Errors
    ///
    /// Returns `InvalidSize` unless the key has 4 to 256 bytes, and `OutOfMemory` if the buffer can't grow. On error the stream
    /// is unchanged.
    pub fn cancel_request_key(&mut self, process_id: i32, secret_key: &[u8]) -> Result<(), Error>
        requires { self.old.opened ≡ false }
        ensures { AddsMessage B.held (CancelRequest process_id secret_key.now) B.Lacks self.old self.new result }
    {
        frontend::cancel_request_key(process_id, secret_key, &mut self.buf)
    }

    /// Opens a session of version 3.0 with these names and values, among them `user`. No name is empty.
    ///
    /// # Errors
    ///
    /// Returns `EmbeddedNull` if a name or a value has a 0 byte, `TooLarge` if the message exceeds `i32::MAX`, and
    /// `OutOfMemory` if the buffer can't grow. On error the stream is unchanged.
    pub fn startup_message(&mut self, parameters: &[(&str, &str)]) -> Result<(), Error>
        requires opening { self.old.opened ≡ false }
        requires named { IsNamed (Startup 0 (map shown parameters.now)) }
        ensures { AddsMessage B.held (Startup 0 (map shown parameters.now)) B.Lacks self.old self.new result }
    {
        self.startup_message_version(ProtocolVersion::V3_0, parameters)
    }

    /// Opens a session of this version with these names and values, among them `user`. No name is empty.
    ///
    /// # Errors
    ///
    /// Returns `EmbeddedNull` if a name or a value has a 0 byte, `TooLarge` if the message exceeds `i32::MAX`, and
    /// `OutOfMemory` if the buffer can't grow. On error the stream is unchanged.
    pub fn startup_message_version(
        &mut self,
        version: ProtocolVersion,
        parameters: &[(&str, &str)],
    ) -> Result<(), Error>
        requires opening { self.old.opened ≡ false }
        requires named { IsNamed (Startup (minor_of version) (map shown parameters.now)) }
        ensures { AddsMessage B.held (Startup (minor_of version) (map shown parameters.now)) B.Lacks self.old self.new result }
    {
        match frontend::startup_message_version(
            version,
            parameters.iter().copied(),
            &mut self.buf,
        ) {
            Ok(()) => {
                self.opened = true;
                Ok(())
            }
            Err(e) => Err(e),
        }
    }

    /// Query: runs one or more statements, separated by semicolons.
    ///
    /// # Errors
    ///
    /// Returns `EmbeddedNull` if the query has a 0 byte, `TooLarge` if the message exceeds `i32::MAX`, and
    /// `OutOfMemory` if the buffer can't grow. On error the stream is unchanged.
    pub fn query(&mut self, query: &str) -> Result<(), Error>
        requires { self.old.opened ≡ true }
        ensures { AddsMessage B.held (Query query.now) B.Lacks self.old self.new result }
    {
        frontend::query(query, &mut self.buf)
    }

    /// Sync: ends a series of extended queries. The server answers with ReadyForQuery.
    ///
    /// # Errors
    ///
    /// Returns `OutOfMemory` if the buffer can't grow. On error the stream is unchanged.
    pub fn sync(&mut self) -> Result<(), Error>
        requires { self.old.opened ≡ true }
        ensures { AddsMessage B.held Sync B.Lacks self.old self.new result }
    {
        frontend::sync(&mut self.buf)
    }

    /// PasswordMessage: a clear-text password, or the answer to an MD5 request.
    ///
    /// # Errors
    ///
    /// Returns `EmbeddedNull` if the password has a 0 byte, `TooLarge` if the message exceeds `i32::MAX`, and
    /// `OutOfMemory` if the buffer can't grow. On error the stream is unchanged.
    pub fn password_message(&mut self, password: &[u8]) -> Result<(), Error>
        requires { self.old.opened ≡ true }
        ensures { AddsMessage B.held (PasswordMessage password.now) B.Lacks self.old self.new result }
    {
        frontend::password_message(password, &mut self.buf)
    }

    /// Terminate: ends the session.
    ///
    /// # Errors
    ///
    /// Returns `OutOfMemory` if the buffer can't grow. On error the stream is unchanged.
    pub fn terminate(&mut self) -> Result<(), Error>
        requires { self.old.opened ≡ true }
        ensures { AddsMessage B.held Terminate B.Lacks self.old self.new result }
    {
        frontend::terminate(&mut self.buf)
    }

    /// Flush: asks the server to send what it has buffered.
    ///
    /// # Errors
    ///
    /// Returns `OutOfMemory` if the buffer can't grow. On error the stream is unchanged.
    pub fn flush(&mut self) -> Result<(), Error>
        requires { self.old.opened ≡ true }
        ensures { AddsMessage B.held Flush B.Lacks self.old self.new result }
    {
        frontend::flush(&mut self.buf)
    }

    /// Close: closes a prepared statement (`S`) or a portal (`P`). The variant may be any byte.
    ///
    /// # Errors
    ///
    /// Returns `EmbeddedNull` if the name has a 0 byte, `TooLarge` if the message exceeds `i32::MAX`, and
    /// `OutOfMemory` if the buffer can't grow. On error the stream is unchanged.
    pub fn close(&mut self, variant: u8, name: &str) -> Result<(), Error>
        requires { self.old.opened ≡ true }
        ensures { AddsMessage B.held (Close variant name.now) B.Lacks self.old self.new result }
    {
        frontend::close(variant, name, &mut self.buf)
    }

    /// Describe: asks for the parameters and columns of a statement (`S`), or the columns of a portal (`P`). The variant may be any byte.
    ///
    /// # Errors
    ///
    /// Returns `EmbeddedNull` if the name has a 0 byte, `TooLarge` if the message exceeds `i32::MAX`, and `OutOfMemory` if the buffer
    /// can't grow. On error the stream is unchanged.
    pub fn describe(&mut self, variant: u8, name: &str) -> Result<(), Error>
        requires { self.old.opened ≡ true }
        ensures { AddsMessage B.held (Describe variant name.now) B.Lacks self.old self.new result }
    {
        frontend::describe(variant, name, &mut self.buf)
    }

    /// Execute: executes a portal, returning at most `max_rows` rows; 0 is no limit.
    ///
    /// # Errors
    ///
    /// Returns `EmbeddedNull` if the portal's name has a 0 byte, `TooLarge` if the message exceeds `i32::MAX`, and
    /// `OutOfMemory` if the buffer can't grow. On error the stream is unchanged.
    pub fn execute(&mut self, portal: &str, max_rows: i32) -> Result<(), Error>
        requires { self.old.opened ≡ true }
        ensures { AddsMessage B.held (Execute portal.now max_rows) B.Lacks self.old self.new result }
    {
        frontend::execute(portal, max_rows, &mut self.buf)
    }

    /// CopyData: a chunk of the data of a copy.
    ///
    /// # Errors
    ///
    /// The piece itself, nothing read from it, if the buffer can't grow. On error the stream is
    /// unchanged.
    pub fn copy_data<T: Buf + Drop>(&mut self, piece: CopyData<T>) -> Result<(), CopyData<T>>
        requires { self.old.opened ≡ true }
        ensures { Adds B.held (λ m. m ≡ DataMessage (T.unread piece)) (λ back. (back ≡ piece) × Wants B.Lacks (B.held self.old.buf) (length (bytes_of (DataMessage (T.unread piece))))) self.old self.new result }
    {
        match piece.write(&mut self.buf) {
            Ok(()) => Ok(()),
            Err(back) => Err(back),
        }
    }

    /// CopyDone: ends the data of a copy.
    ///
    /// # Errors
    ///
    /// Returns `OutOfMemory` if the buffer can't grow. On error the stream is unchanged.
    pub fn copy_done(&mut self) -> Result<(), Error>
        requires { self.old.opened ≡ true }
        ensures { AddsMessage B.held CopyDone B.Lacks self.old self.new result }
    {
        frontend::copy_done(&mut self.buf)
    }

    /// CopyFail: aborts a copy, with a message for the server's error.
    ///
    /// # Errors
    ///
    /// Returns `EmbeddedNull` if the text has a 0 byte, `TooLarge` if the message exceeds `i32::MAX`, and
    /// `OutOfMemory` if the buffer can't grow. On error the stream is unchanged.
    pub fn copy_fail(&mut self, reason: &str) -> Result<(), Error>
        requires { self.old.opened ≡ true }
        ensures { AddsMessage B.held (CopyFail reason.now) B.Lacks self.old self.new result }
    {
        frontend::copy_fail(reason, &mut self.buf)
    }

    /// SASLInitialResponse: chooses a mechanism, and carries the client's first data.
    ///
    /// # Errors
    ///
    /// Returns `EmbeddedNull` if the mechanism has a 0 byte, `TooLarge` if the message exceeds `i32::MAX`, and
    /// `OutOfMemory` if the buffer can't grow. On error the stream is unchanged.
    pub fn sasl_initial_response(&mut self, mechanism: &str, data: &[u8]) -> Result<(), Error>
        requires { self.old.opened ≡ true }
        ensures { AddsMessage B.held (SaslInitialResponse mechanism.now (Some «data».now)) B.Lacks self.old self.new result }
    {
        frontend::sasl_initial_response(mechanism, data, &mut self.buf)
    }

    /// SASLResponse: the next data of a SASL exchange.
    ///
    /// # Errors
    ///
    /// Returns `TooLarge` if the message exceeds `i32::MAX`, and `OutOfMemory` if the buffer can't grow. On
    /// error the stream is unchanged.
    pub fn sasl_response(&mut self, data: &[u8]) -> Result<(), Error>
        requires { self.old.opened ≡ true }
        ensures { AddsMessage B.held (SaslResponse «data».now) B.Lacks self.old self.new result }
    {
        frontend::sasl_response(data, &mut self.buf)
    }
}
