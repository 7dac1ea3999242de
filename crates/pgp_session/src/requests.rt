//! The requests of a connection, a call a message.

ghost use Rattle.std.specs.Prelude.{◌≡◌};
ghost use Rattle.pgp_frontend.specs.ClientMessage.{Close, CopyData as DataMessage, CopyDone, CopyFail, Describe, Execute, Flush, Query, Sync};
ghost use Rattle.pgp_session.specs.Connection.{Cancels, Sends, current, shown};

use crate::connection::Connection;
use crate::connection_error::ConnectionError;
use bytes::BytesMut;
use pgp_base::Memory;
use pgp_frontend_read::ClientMessage;
use pgp_login::put;

impl<'a, A: Memory> Connection<'a, A> {
    /// Query: runs one or more statements, separated by semicolons.
    ///
    /// # Errors
    ///
    /// Those of `send`.
    pub fn query(&mut self, query: &str) -> Result<u64, ConnectionError<A>>
        ensures sends { Sends A.Lacks (Query query.now) (shown self.old) (shown self.new) result }
        ensures current { current self.new ≡ current self.old }
    {
        self.send(&ClientMessage::Query(query.as_bytes()))
    }

    /// Describe: asks for the parameters and columns of a statement (`S`), or the columns of a portal (`P`).
    ///
    /// # Errors
    ///
    /// Those of `send`.
    pub fn describe(&mut self, variant: u8, name: &str) -> Result<u64, ConnectionError<A>>
        ensures sends { Sends A.Lacks (Describe variant name.now) (shown self.old) (shown self.new) result }
        ensures current { current self.new ≡ current self.old }
    {
        self.send(&ClientMessage::Describe {
            variant,
            name: name.as_bytes(),
        })
    }

    /// Execute: executes a portal, returning at most `max_rows` rows; 0 is no limit.
    ///
    /// # Errors
    ///
    /// Those of `send`.
    pub fn execute(&mut self, portal: &str, max_rows: i32) -> Result<u64, ConnectionError<A>>
        ensures sends { Sends A.Lacks (Execute portal.now max_rows) (shown self.old) (shown self.new) result }
        ensures current { current self.new ≡ current self.old }
    {
        self.send(&ClientMessage::Execute {
            portal: portal.as_bytes(),
            max_rows,
        })
    }

    /// Close: closes a prepared statement (`S`) or a portal (`P`).
    ///
    /// # Errors
    ///
    /// Those of `send`.
    pub fn close(&mut self, variant: u8, name: &str) -> Result<u64, ConnectionError<A>>
        ensures sends { Sends A.Lacks (Close variant name.now) (shown self.old) (shown self.new) result }
        ensures current { current self.new ≡ current self.old }
    {
        self.send(&ClientMessage::Close {
            variant,
            name: name.as_bytes(),
        })
    }

    /// Sync: ends a series of extended queries. The server answers with ReadyForQuery.
    ///
    /// # Errors
    ///
    /// Those of `send`.
    pub fn sync(&mut self) -> Result<u64, ConnectionError<A>>
        ensures sends { Sends A.Lacks Sync (shown self.old) (shown self.new) result }
        ensures current { current self.new ≡ current self.old }
    {
        self.send(&ClientMessage::Sync)
    }

    /// Flush: asks the server to send what it has buffered. It has no answer of its own.
    ///
    /// # Errors
    ///
    /// Those of `send`.
    pub fn flush(&mut self) -> Result<u64, ConnectionError<A>>
        ensures sends { Sends A.Lacks Flush (shown self.old) (shown self.new) result }
        ensures current { current self.new ≡ current self.old }
    {
        self.send(&ClientMessage::Flush)
    }

    /// CopyData: a chunk of the data of a copy to the server, which is under way.
    ///
    /// # Errors
    ///
    /// Those of `send`.
    pub fn copy_data(&mut self, bytes: &[u8]) -> Result<u64, ConnectionError<A>>
        ensures sends { Sends A.Lacks (DataMessage bytes.now) (shown self.old) (shown self.new) result }
        ensures current { current self.new ≡ current self.old }
    {
        self.send(&ClientMessage::CopyData(bytes))
    }

    /// CopyDone: ends the data of a copy to the server, which is under way. What asked for the copy is answered.
    ///
    /// # Errors
    ///
    /// Those of `send`.
    pub fn copy_done(&mut self) -> Result<u64, ConnectionError<A>>
        ensures sends { Sends A.Lacks CopyDone (shown self.old) (shown self.new) result }
        ensures current { current self.new ≡ current self.old }
    {
        self.send(&ClientMessage::CopyDone)
    }

    /// CopyFail: aborts a copy to the server, which is under way, with a message for the server's error.
    ///
    /// # Errors
    ///
    /// Those of `send`.
    pub fn copy_fail(&mut self, reason: &str) -> Result<u64, ConnectionError<A>>
        ensures sends { Sends A.Lacks (CopyFail reason.now) (shown self.old) (shown self.new) result }
        ensures current { current self.new ≡ current self.old }
    {
        self.send(&ClientMessage::CopyFail(reason.as_bytes()))
    }

    /// Appends the request to cancel this session's query, which is sent as the only message of another connection.
    ///
    /// # Errors
    ///
    /// On error `out` is unchanged. `OutOfPhase` where the server sent no key; `Unwritten` of `OutOfMemory`.
    pub fn cancel_request(&self, out: &mut BytesMut<A>) -> Result<(), ConnectionError<A>>
        ensures { Cancels A.Lacks (shown self.now) out.old.items out.new.items result }
    {
        let Some(key) = self.backend_key() else {
            return Err(ConnectionError::OutOfPhase);
        };
        let request = ClientMessage::CancelRequest {
            process_id: key.process_id,
            secret_key: key.secret_key,
        };
        match put(&request, out) {
            Ok(()) => Ok(()),
            Err(e) => Err(ConnectionError::Unwritten(e)),
        }
    }
}
