//! The requests of a connection that are made of iterators: Parse and Bind.

ghost use Rattle.std.specs.Prelude.{◌≡◌, ◌<◌};
ghost use Rattle.std.specs.Iterator.{IsFiniteIterable};
ghost use Rattle.pgp_base.specs.Calls.{OwesValues, Yielded};
ghost use Rattle.pgp_base.specs.Held.{items_held};
ghost use Rattle.pgp_frontend.specs.Given.{BindRefused, BindWhole, ParseSoFar, ParseWhole, Refused, Serves};
ghost use Rattle.pgp_session.specs.Connection.{Noted, Notes, SendsGiven, current, shown};
ghost use Rattle.pgp_session.specs.ConnectionBind.{FromBytes, SendsBind};

use crate::connection::Connection;
use crate::connection_error::{BindSendError, ConnectionError};
use crate::connection_parts::next_name;
use crate::out_buffer::{OutBuffer, put_bind};
use pgp_base::{IsNull, Memory, Oid};
use pgp_client::Request;
use pgp_frontend as frontend;

impl<'a, A: Memory> Connection<'a, A> {
    /// Parse: prepares a statement of this name. The identifiers are the types of the first parameters; 0 leaves one to the server.
    ///
    /// # Errors
    ///
    /// On error nothing changes. `OutOfPhase` before the log-in is done, while the server awaits data of a copy, and after the end; `Unwritten` of the error of `frontend::parse`;
    /// `OutOfMemory` if there is no memory to take note of the request.
    pub fn parse<I: IntoIterator<Item = Oid> + Drop>(
        &mut self,
        name: &str,
        query: &str,
        param_types: I,
    ) -> Result<u64, ConnectionError<A>>
    where
        I::IntoIter: Drop,
        requires types_end { IsFiniteIterable I.into_iter_gives I.IntoIter.can_next I.IntoIter.remaining param_types }
        ensures sends { SendsGiven A.Lacks
            (ParseWhole name.now query.now (Yielded I.into_iter_gives I.IntoIter.next_gives param_types))
            (Refused (ParseWhole name.now query.now (Yielded I.into_iter_gives I.IntoIter.next_gives param_types))
            (ParseSoFar name.now query.now (Yielded I.into_iter_gives I.IntoIter.next_gives param_types))
            (λ h n. A.Lacks × (0 < n)) (items_held (shown self.old).out))
            (shown self.old) (shown self.new) result }
        ensures current { current self.new ≡ current self.old }
    {
        if !self.may_ask() {
            return Err(ConnectionError::OutOfPhase);
        }
        let start = self.state.out.len();
        match frontend::parse(name, query, param_types, &mut self.state.out) {
            Ok(()) => self.asked(start, Request::Parse),
            Err(e) => Err(ConnectionError::Unwritten(e)),
        }
    }

    /// Bind: binds values to a statement's parameters, and makes a portal of it. The formats are 0 for text and 1 for binary: none for all
    /// text, one for all, or one for each. The serializer appends the bytes of each value, or returns that it is null and appends nothing. It
    /// is called once an item, in order, and not at all where the names or the formats are rejected.
    ///
    /// # Errors
    ///
    /// On error nothing changes. `OutOfPhase` before the log-in is done, while the server awaits data of a copy, and after the end; `Unwritten` of the error of `frontend::bind`, which
    /// has that of the serializer; `OutOfMemory` if there is no memory to take note of the request.
    pub fn bind<
        B: OutBuffer<A>,
        T: Drop,
        E: Drop,
        I: IntoIterator<Item = i16> + Drop,
        J: IntoIterator<Item = T> + Drop,
        F: FnMut(T, &mut B) -> Result<IsNull, E> + Drop,
        K: IntoIterator<Item = i16> + Drop,
    >(
        &mut self,
        portal: &str,
        statement: &str,
        formats: I,
        values: J,
        serializer: F,
        result_formats: K,
    ) -> Result<u64, BindSendError<E>>
    where
        I::IntoIter: Drop,
        J::IntoIter: Drop,
        K::IntoIter: Drop,
        requires formats_end { IsFiniteIterable I.into_iter_gives I.IntoIter.can_next I.IntoIter.remaining formats }
        requires values_end { IsFiniteIterable J.into_iter_gives J.IntoIter.can_next J.IntoIter.remaining values }
        requires result_formats_end { IsFiniteIterable K.into_iter_gives K.IntoIter.can_next K.IntoIter.remaining result_formats }
        requires callable { F.IsAlwaysCallable serializer }
        requires owes { OwesValues B.Buffer.held F.pre F.step }
        ensures sends { (last : F) × SendsBind
            (FromBytes (shown self.old).out (BindWhole portal.now statement.now
            (Yielded I.into_iter_gives I.IntoIter.next_gives formats)
            (Yielded J.into_iter_gives J.IntoIter.next_gives values)
            (Serves B.Buffer.held F.step serializer last)
            (Yielded K.into_iter_gives K.IntoIter.next_gives result_formats)))
            (FromBytes (shown self.old).out (λ here. BindRefused portal.now statement.now
            (Yielded I.into_iter_gives I.IntoIter.next_gives formats)
            (Yielded J.into_iter_gives J.IntoIter.next_gives values)
            (Serves B.Buffer.held F.step serializer last)
            (Yielded K.into_iter_gives K.IntoIter.next_gives result_formats)
            here B.Buffer.Lacks))
            A.Lacks (shown self.old) (shown self.new) result }
        ensures current { current self.new ≡ current self.old }
    {
        if !self.may_ask() {
            return Err(BindSendError::OutOfPhase);
        }
        let start = self.state.out.len();
        match put_bind(
            self.state.alloc,
            portal,
            statement,
            formats,
            values,
            serializer,
            result_formats,
            &mut self.state.out,
        ) {
            Ok(()) => match self.noted(start, Request::Bind) {
                Some(name) => Ok(name),
                None => Err(BindSendError::OutOfMemory),
            },
            Err(e) => Err(BindSendError::Unwritten(e)),
        }
    }

    /// The answer of `noted`, as Parse has it.
    fn asked(&mut self, start: usize, request: Request) -> Result<u64, ConnectionError<A>>
        ensures notes { Notes A.Lacks start request (shown self.old) (shown self.new) result }
        ensures current { current self.new ≡ current self.old }
    {
        match self.noted(start, request) {
            Some(name) => Ok(name),
            None => Err(ConnectionError::OutOfMemory),
        }
    }

    /// Takes note of the request whose message was written from `start` on; where there is no memory for it, the message is taken back.
    fn noted(&mut self, start: usize, request: Request) -> Option<u64>
        ensures noted { Noted A.Lacks start request (shown self.old) (shown self.new) result }
        ensures current { current self.new ≡ current self.old }
    {
        let name = self.names;
        if self.state.dialogue.ask(request, name).is_err() {
            self.state.out.truncate(start);
            return None;
        }
        self.names = next_name(name);
        Some(name)
    }
}
