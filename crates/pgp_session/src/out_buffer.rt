//! The buffer to which a serializer appends the values that a connection sends.

ghost use Rattle.std.specs.Prelude.{◌≡◌};
ghost use Rattle.std.specs.Iterator.{IsFiniteIterable};
ghost use Rattle.pgp_base.specs.Calls.{OwesValues, Yielded};
ghost use Rattle.pgp_frontend.specs.Given.{BindRefused, BindWhole, Serves};
ghost use Rattle.pgp_session.specs.ConnectionBind.{FromBytes, Has, PutsGiven};

use bytes::BytesMut;
use pgp_base::{BindError, Buffer, IsNull, Memory};
use pgp_frontend as frontend;
use std::mem;

/// A buffer that can have the bytes that a connection has to send, so that a serializer appends to them: a `BytesMut` over the connection's
/// allocator.
pub trait OutBuffer<A: Memory>: Buffer + Drop {
    /// An empty buffer.
    fn empty(alloc: A) -> Self;

    /// Each has the other's bytes.
    fn swap(&mut self, out: &mut BytesMut<A>)
        ensures mine { Has out.old.items (Self.Buffer.held self.new) }
        ensures yours { out.new.items ≡ (Self.Buffer.held self.old).bytes };
}

impl<A: Memory> OutBuffer<A> for BytesMut<A> {
    fn empty(alloc: A) -> BytesMut<A> {
        BytesMut::new(alloc)
    }

    fn swap(&mut self, out: &mut BytesMut<A>) {
        mem::swap(self, out);
    }
}

/// Appends a Bind; on error the bytes are the same.
pub(crate) fn put_bind<
    A: Memory,
    B: OutBuffer<A>,
    T: Drop,
    E: Drop,
    I: IntoIterator<Item = i16> + Drop,
    J: IntoIterator<Item = T> + Drop,
    F: FnMut(T, &mut B) -> Result<IsNull, E> + Drop,
    K: IntoIterator<Item = i16> + Drop,
>(
    alloc: A,
    portal: &str,
    statement: &str,
    formats: I,
    values: J,
    serializer: F,
    result_formats: K,
    out: &mut BytesMut<A>,
) -> Result<(), BindError<E>>
where
    I::IntoIter: Drop,
    J::IntoIter: Drop,
    K::IntoIter: Drop,
    requires formats_end { IsFiniteIterable I.into_iter_gives I.IntoIter.can_next I.IntoIter.remaining formats }
    requires values_end { IsFiniteIterable J.into_iter_gives J.IntoIter.can_next J.IntoIter.remaining values }
    requires result_formats_end { IsFiniteIterable K.into_iter_gives K.IntoIter.can_next K.IntoIter.remaining result_formats }
    requires callable { F.IsAlwaysCallable serializer }
    requires owes { OwesValues B.Buffer.held F.pre F.step }
    ensures { (last : F) × PutsGiven
        (FromBytes out.old.items (BindWhole portal.now statement.now
        (Yielded I.into_iter_gives I.IntoIter.next_gives formats)
        (Yielded J.into_iter_gives J.IntoIter.next_gives values)
        (Serves B.Buffer.held F.step serializer last)
        (Yielded K.into_iter_gives K.IntoIter.next_gives result_formats)))
        (FromBytes out.old.items (λ here. BindRefused portal.now statement.now
        (Yielded I.into_iter_gives I.IntoIter.next_gives formats)
        (Yielded J.into_iter_gives J.IntoIter.next_gives values)
        (Serves B.Buffer.held F.step serializer last)
        (Yielded K.into_iter_gives K.IntoIter.next_gives result_formats)
        here B.Buffer.Lacks))
        out.old.items out.new.items result }
{
    let mut buf = B::empty(alloc);
    buf.swap(out);
    let result = frontend::bind(
        portal,
        statement,
        formats,
        values,
        serializer,
        result_formats,
        &mut buf,
    );
    buf.swap(out);
    match result {
        Ok(()) => Ok(()),
        Err(e) => Err(e),
    }
}
