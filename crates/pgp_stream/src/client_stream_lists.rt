//! The messages of a client's stream that are made of iterators: Parse and Bind.

ghost use Rattle.std.specs.Prelude.{◌≡◌, true};
ghost use Rattle.std.specs.Iterator.{IsFiniteIterable};
ghost use Rattle.pgp_base.specs.Calls.{OwesValues, Yielded};
ghost use Rattle.pgp_frontend.specs.Given.{BindRefused, BindWhole, ParseSoFar, ParseWhole, Serves};
ghost use Rattle.pgp_stream.specs.ClientStream.{Adds, AddsGiven};

use crate::client_stream::ClientStream;
use pgp_base::{BindError, Buffer, Error, IsNull, Oid};
use pgp_frontend as frontend;

impl<B: Buffer> ClientStream<B> {
    /// Prepares a statement of this name. The identifiers are the types of the first parameters; 0 leaves
    /// one to the server.
    ///
    /// # Errors
    ///
    /// The first from the left of: `EmbeddedNull` if a text has a 0 byte, `TooLarge` at the identifier past 65,535,
    /// which is not written, `TooLarge` if the message exceeds `i32::MAX`. Otherwise `OutOfMemory`, which may come
    /// before any of them, if the buffer can't grow. On error the stream is unchanged.
    pub fn parse<I: IntoIterator<Item = Oid> + Drop>(
        &mut self,
        name: &str,
        query: &str,
        param_types: I,
    ) -> Result<(), Error>
    where
        I::IntoIter: Drop,
        requires opened { self.old.opened ≡ true }
        requires types_end { IsFiniteIterable I.into_iter_gives I.IntoIter.can_next I.IntoIter.remaining param_types }
        ensures { AddsGiven B.held
            (ParseWhole name.now query.now (Yielded I.into_iter_gives I.IntoIter.next_gives param_types))
            (ParseSoFar name.now query.now (Yielded I.into_iter_gives I.IntoIter.next_gives param_types))
            B.Lacks self.old self.new result }
    {
        match frontend::parse(name, query, param_types, &mut self.buf) {
            Ok(()) => Ok(()),
            Err(e) => Err(e),
        }
    }

    /// Binds values to a statement's parameters, and makes a portal of it.
    ///
    /// # Errors
    ///
    /// The first from the left of: `Serialization` of `EmbeddedNull` if a name has a 0 byte, and of `TooLarge` at
    /// the item past 65,535 of a list, which is not written, where the bytes of a value exceed `i32::MAX`, or where
    /// the message does; `Conversion` if the serializer failed a value. Otherwise `Serialization` of `OutOfMemory`,
    /// which may come before any of them, if the buffer can't grow. On error the stream is unchanged.
    pub fn bind<
        T: Drop,
        E: Drop,
        I: IntoIterator<Item = i16> + Drop,
        J: IntoIterator<Item = T> + Drop,
        F: FnMut(T, &mut B) -> Result<IsNull, E> + Drop,
        K: IntoIterator<Item = i16> + Drop,
    >(
        &mut self,
        portal: &str,
        statement: &str,
        formats: I,
        values: J,
        serializer: F,
        result_formats: K,
    ) -> Result<(), BindError<E>>
    where
        I::IntoIter: Drop,
        J::IntoIter: Drop,
        K::IntoIter: Drop,
        requires opened { self.old.opened ≡ true }
        requires formats_end { IsFiniteIterable I.into_iter_gives I.IntoIter.can_next I.IntoIter.remaining formats }
        requires values_end { IsFiniteIterable J.into_iter_gives J.IntoIter.can_next J.IntoIter.remaining values }
        requires result_formats_end { IsFiniteIterable K.into_iter_gives K.IntoIter.can_next K.IntoIter.remaining result_formats }
        requires callable { F.IsAlwaysCallable serializer }
        requires owes { OwesValues B.held F.pre F.step }
        ensures { (last : F) × Adds B.held
            (BindWhole portal.now statement.now
            (Yielded I.into_iter_gives I.IntoIter.next_gives formats)
            (Yielded J.into_iter_gives J.IntoIter.next_gives values)
            (Serves B.held F.step serializer last)
            (Yielded K.into_iter_gives K.IntoIter.next_gives result_formats)
            (B.held self.old.buf))
            (BindRefused portal.now statement.now
            (Yielded I.into_iter_gives I.IntoIter.next_gives formats)
            (Yielded J.into_iter_gives J.IntoIter.next_gives values)
            (Serves B.held F.step serializer last)
            (Yielded K.into_iter_gives K.IntoIter.next_gives result_formats)
            (B.held self.old.buf) B.Lacks)
            self.old self.new result }
    {
        match frontend::bind(
            portal,
            statement,
            formats,
            values,
            serializer,
            result_formats,
            &mut self.buf,
        ) {
            Ok(()) => Ok(()),
            Err(e) => Err(e),
        }
    }
}
