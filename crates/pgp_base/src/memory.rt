//! What owned lists, texts and shared bytes take their memory from.

ghost use Rattle.std.specs.Prelude.{◌≡◌, ◌+◌, ◌-◌, ◌<◌, ◌≤◌, ◌∷◌, ◌++◌, [], length, take, drop, replicate, is_ok, if◌then◌else◌, string_bytes, vec_len, vec_capacity, Ok, IsOk, IfOk, IfErr, OnErr, OnOk};
ghost use Rattle.std.specs.Char.{encode_utf8};
ghost use Rattle.std.specs.Fmt.{AppendsText};
ghost use Rattle.std.specs.List.{slice_range};
ghost use Rattle.std.specs.VecDeque.{deque_len, deque_capacity};
ghost use Rattle.base64.specs.Engines.{standard};
ghost use Rattle.base64.specs.GeneralPurpose.{encode_of, decode_of, IsDecodeFailure};
ghost use Rattle.hex.specs.Hex.{encode_lower};

use base64::DecodeAllocError;
use base64::engine::general_purpose::STANDARD;
use bytes::{Buf, BufMut, Bytes, BytesMut};
use std::alloc::{AllocError, AllocFailed, Allocator};
use std::collections::VecDeque;
use std::fmt::Display;
use std::mem;

/// An allocator, any of std's, that reports its errors: a call here does what the call of std does, and where it
/// fails, an allocation failed.
pub trait Memory: Allocator + Copy {
    /// An allocation failed in a collection over such an allocator.
    ghost Lacks: { Type 0 };

    /// An empty list with room for so many items, as `Vec::with_capacity` makes it.
    ///
    /// # Errors
    ///
    /// Returns `AllocError` if the allocation fails.
    fn list_with_capacity<T>(self, capacity: usize) -> Result<Vec<T, Self>, AllocError>
        ensures items { IfOk result (λ v. v.items ≡ []) }
        ensures capacity { IfOk result (λ v. vec_capacity v ≡ capacity) }
        ensures succeeds { capacity ≡ 0 → IsOk result }
        ensures lacks { OnErr result Lacks };

    /// A list of these items, as `Vec::from_slice` makes it.
    ///
    /// # Errors
    ///
    /// Returns `AllocError` if the allocation fails.
    fn list_of<T: Copy>(self, items: &[T]) -> Result<Vec<T, Self>, AllocError>
        ensures items { IfOk result (λ v. v.items ≡ items.now) }
        ensures lacks { OnErr result Lacks };

    /// Appends an item, as `Vec::push` does.
    ///
    /// # Errors
    ///
    /// Returns `AllocFailed` if the allocation fails.
    fn push<T>(list: &mut Vec<T, Self>, value: T) -> Result<(), AllocFailed<T>>
        ensures items { list.new.items ≡ (if is_ok result then list.old.items ++ value ∷ [] else list.old.items) }
        ensures value_returned { IfErr result (λ y. y.value ≡ value) }
        ensures capacity { vec_capacity list.old ≤ vec_capacity list.new }
        ensures succeeds { vec_len list.old < vec_capacity list.old → IsOk result }
        ensures lacks { OnErr result Lacks };

    /// Appends an item to a queue, as `VecDeque::push_back` does.
    ///
    /// # Errors
    ///
    /// Returns `AllocFailed` if there is no memory for it; on error the queue is unchanged and the item
    /// comes back.
    fn push_back<T>(queue: &mut VecDeque<T, Self>, value: T) -> Result<(), AllocFailed<T>>
        ensures items { queue.new.items ≡ (if is_ok result then queue.old.items ++ value ∷ [] else queue.old.items) }
        ensures value_returned { IfErr result (λ y. y.value ≡ value) }
        ensures capacity { deque_capacity queue.old ≤ deque_capacity queue.new }
        ensures succeeds { deque_len queue.old < deque_capacity queue.old → IsOk result }
        ensures lacks { OnErr result Lacks };

    /// Makes room for so many items more, as `Vec::reserve` does.
    ///
    /// # Errors
    ///
    /// Returns `AllocError` if the allocation fails.
    fn reserve<T>(list: &mut Vec<T, Self>, additional: usize) -> Result<(), AllocError>
        ensures items { list.new.items ≡ list.old.items }
        ensures len { vec_len list.new ≡ vec_len list.old }
        ensures ok { OnOk result (vec_len list.new + additional ≤ vec_capacity list.new) }
        ensures capacity { vec_capacity list.old ≤ vec_capacity list.new }
        ensures succeeds { vec_len list.old + additional ≤ vec_capacity list.old → IsOk result }
        ensures lacks { OnErr result Lacks };

    /// Appends these items, as `Vec::extend_from_slice` does.
    ///
    /// # Errors
    ///
    /// Returns `AllocError` if the allocation fails.
    fn extend<T: Copy>(list: &mut Vec<T, Self>, more: &[T]) -> Result<(), AllocError>
        ensures items { list.new.items ≡ (if is_ok result then list.old.items ++ more.now else list.old.items) }
        ensures capacity { vec_capacity list.old ≤ vec_capacity list.new }
        ensures succeeds { vec_len list.old + length more.now ≤ vec_capacity list.old → IsOk result }
        ensures lacks { OnErr result Lacks };

    /// A list of so many bytes of this value, as `vec!` makes it.
    ///
    /// # Errors
    ///
    /// Returns `AllocError` if the allocation fails.
    fn list_filled(self, byte: u8, len: usize) -> Result<Vec<u8, Self>, AllocError>
        ensures items { IfOk result (λ v. v.items ≡ replicate len byte) }
        ensures len { IfOk result (λ v. vec_len v ≡ len) }
        ensures lacks { OnErr result Lacks };

    /// Makes a list so many bytes long: it is cut, or this value follows, as `Vec::resize` does.
    ///
    /// # Errors
    ///
    /// Returns `AllocError` if the allocation fails.
    fn resize(list: &mut Vec<u8, Self>, len: usize, byte: u8) -> Result<(), AllocError>
        ensures items { list.new.items ≡ (if is_ok result then take len list.old.items ++ replicate (len - vec_len list.old) byte else list.old.items) }
        ensures len { OnOk result (vec_len list.new ≡ len) }
        ensures lacks { OnErr result Lacks };

    /// An empty text with room for so many bytes, as `String::with_capacity` makes it.
    ///
    /// # Errors
    ///
    /// Returns `AllocError` if the allocation fails.
    fn text_with_capacity(self, capacity: usize) -> Result<String<Self>, AllocError>
        ensures bytes { IfOk result (λ t. string_bytes t ≡ []) }
        ensures lacks { OnErr result Lacks };

    /// A copy of a text, as `String::from_str` makes it.
    ///
    /// # Errors
    ///
    /// Returns `AllocError` if the allocation fails.
    fn text_of(self, text: &str) -> Result<String<Self>, AllocError>
        ensures bytes { IfOk result (λ t. string_bytes t ≡ text.now) }
        ensures lacks { OnErr result Lacks };

    /// Appends a text, as `String::push_str` does.
    ///
    /// # Errors
    ///
    /// Returns `AllocError` if the allocation fails.
    fn push_str(text: &mut String<Self>, more: &str) -> Result<(), AllocError>
        ensures bytes { string_bytes text.new ≡ (if is_ok result then string_bytes text.old ++ more.now else string_bytes text.old) }
        ensures lacks { OnErr result Lacks };

    /// Appends a character, as `String::push` does.
    ///
    /// # Errors
    ///
    /// Returns `AllocError` if the allocation fails.
    fn push_char(text: &mut String<Self>, more: char) -> Result<(), AllocError>
        ensures bytes { string_bytes text.new ≡ (if is_ok result then string_bytes text.old ++ encode_utf8 more else string_bytes text.old) }
        ensures lacks { OnErr result Lacks };

    /// Appends what the value shows, as `write!` does.
    ///
    /// # Errors
    ///
    /// Returns `AllocError` if the allocation fails.
    fn push_shown<D: Display + Drop>(text: &mut String<Self>, value: D) -> Result<(), AllocError>
        ensures bytes { OnOk result (AppendsText (string_bytes text.old) (string_bytes text.new) (D.output value)) }
        ensures lacks { OnErr result Lacks };

    /// The hex digits of these bytes, as `encode` of hex makes them.
    ///
    /// # Errors
    ///
    /// Returns `AllocError` if the allocation fails.
    fn hex_of(self, bytes: &[u8]) -> Result<String<Self>, AllocError>
        ensures ok { IfOk result (λ text. string_bytes text ≡ encode_lower bytes.now) }
        ensures lacks { OnErr result Lacks };

    /// Appends the base64 text of these bytes, as `encode_string` of base64's `STANDARD` does.
    ///
    /// # Errors
    ///
    /// Returns `AllocError` if the allocation fails.
    fn push_base64(text: &mut String<Self>, bytes: &[u8]) -> Result<(), AllocError>
        ensures ok { OnOk result (string_bytes text.new ≡ string_bytes text.old ++ encode_of standard bytes.now) }
        ensures err { OnErr result (string_bytes text.new ≡ string_bytes text.old) }
        ensures lacks { OnErr result Lacks };

    /// The bytes that a base64 text shows, as `decode` of base64's `STANDARD` returns them.
    ///
    /// # Errors
    ///
    /// Those of `decode`; `OutOfMemory` if there is no memory for the bytes.
    fn base64_shown(self, text: &[u8]) -> Result<Vec<u8, Self>, DecodeAllocError>
        ensures ok { IfOk result (λ v. decode_of standard text.now ≡ Ok v.items) }
        ensures err { IfErr result (λ e. IsDecodeFailure standard text.now e) }
        ensures lacks { IfErr result (λ e. e ≡ DecodeAllocError.OutOfMemory → Lacks) };

    /// A copy of these bytes, to be shared, as `Bytes::copy_from_slice` makes it.
    ///
    /// # Errors
    ///
    /// Returns `AllocError` if the allocation fails.
    fn shared_of(self, bytes: &[u8]) -> Result<Bytes<Self>, AllocError>
        ensures ok { IfOk result (λ b. b ≡ bytes.now) }
        ensures lacks { OnErr result Lacks };

    /// Takes the bytes off a list, to be shared, as `Bytes::from_vec` makes them.
    ///
    /// # Errors
    ///
    /// Returns `AllocError` if there is no memory for the count of owners. The list keeps its bytes
    /// then.
    fn share(list: &mut Vec<u8, Self>) -> Result<Bytes<Self>, AllocError>
        ensures ok { IfOk result (λ b. b ≡ list.old.items) }
        ensures taken { OnOk result (list.new.items ≡ []) }
        ensures err { OnErr result (list.new.items ≡ list.old.items) }
        ensures lacks { OnErr result Lacks };

    /// One more owner of shared bytes, as `Bytes::clone` makes it.
    ///
    /// # Errors
    ///
    /// Returns `AllocError` if the allocation fails.
    fn clone_shared(bytes: &Bytes<Self>) -> Result<Bytes<Self>, AllocError>
        ensures ok { IfOk result (λ b. b ≡ bytes.now) }
        ensures lacks { OnErr result Lacks };

    /// One more owner of the bytes from `start` to `end`, as `Bytes::slice` makes it.
    ///
    /// # Errors
    ///
    /// Returns `AllocError` if the allocation fails.
    fn slice_shared(
        bytes: &Bytes<Self>,
        start: usize,
        end: usize,
    ) -> Result<Bytes<Self>, AllocError>
        requires order { start ≤ end }
        requires within { end ≤ length bytes.now }
        ensures ok { IfOk result (λ b. b ≡ slice_range bytes.now start end) }
        ensures lacks { OnErr result Lacks };

    /// Takes the first bytes off a buffer, to be shared, as `BytesMut::freeze_to` does.
    ///
    /// # Errors
    ///
    /// Returns `AllocError` if there is no memory for their owners. The buffer stays as it is.
    fn freeze_to(buf: &mut BytesMut<Self>, at: usize) -> Result<Bytes<Self>, AllocError>
        requires { at ≤ length buf.old.items }
        ensures front { IfOk result (λ b. b ≡ take at buf.old.items) }
        ensures rest { OnOk result (buf.new.items ≡ drop at buf.old.items) }
        ensures err { OnErr result (buf.new ≡ buf.old) }
        ensures lacks { OnErr result Lacks };

    /// Makes room in a buffer for so many bytes more, as `BytesMut::reserve` does.
    ///
    /// # Errors
    ///
    /// Returns `AllocError` if the allocation fails.
    fn reserve_bytes(buf: &mut BytesMut<Self>, additional: usize) -> Result<(), AllocError>
        ensures items { buf.new.items ≡ buf.old.items }
        ensures lacks { OnErr result Lacks }
        ensures some { OnErr result (0 < additional) };

    /// Appends these bytes to a buffer, as `BytesMut::extend_from_slice` does.
    ///
    /// # Errors
    ///
    /// Returns `AllocError` if the allocation fails.
    fn append(buf: &mut BytesMut<Self>, more: &[u8]) -> Result<(), AllocError>
        ensures ok { OnOk result (buf.new.items ≡ buf.old.items ++ more.now) }
        ensures err { OnErr result (buf.new.items ≡ buf.old.items) }
        ensures lacks { OnErr result Lacks }
        ensures some { OnErr result (0 < length more.now) };

    /// Appends all that is left of `more` to a buffer, as `BytesMut::put_from` does.
    ///
    /// # Errors
    ///
    /// Returns `AllocError` if the allocation fails.
    fn append_from<T: Buf>(buf: &mut BytesMut<Self>, more: &mut T) -> Result<(), AllocError>
        ensures ok { OnOk result (buf.new.items ≡ buf.old.items ++ T.unread more.old) }
        ensures drained { OnOk result (T.unread more.new ≡ []) }
        ensures err { OnErr result (buf.new.items ≡ buf.old.items) }
        ensures kept { OnErr result (more.new ≡ more.old) }
        ensures lacks { OnErr result Lacks }
        ensures some { OnErr result (0 < length (T.unread more.old)) };
}

/// Of its errors nothing is said: any growth may fail.
impl<A: Allocator + Copy> Memory for A {
    ghost Lacks = { Unit {0} };

    fn list_with_capacity<T>(self, capacity: usize) -> Result<Vec<T, A>, AllocError> {
        Vec::with_capacity(self, capacity)
    }

    fn list_of<T: Copy>(self, items: &[T]) -> Result<Vec<T, A>, AllocError> {
        Vec::from_slice(self, items)
    }

    fn push<T>(list: &mut Vec<T, A>, value: T) -> Result<(), AllocFailed<T>> {
        list.push(value)
    }

    fn push_back<T>(queue: &mut VecDeque<T, A>, value: T) -> Result<(), AllocFailed<T>> {
        queue.push_back(value)
    }

    fn reserve<T>(list: &mut Vec<T, A>, additional: usize) -> Result<(), AllocError> {
        list.reserve(additional)
    }

    fn extend<T: Copy>(list: &mut Vec<T, A>, more: &[T]) -> Result<(), AllocError> {
        list.extend_from_slice(more)
    }

    fn list_filled(self, byte: u8, len: usize) -> Result<Vec<u8, A>, AllocError> {
        Vec::from_elem(self, byte, len)
    }

    fn resize(list: &mut Vec<u8, A>, len: usize, byte: u8) -> Result<(), AllocError> {
        list.resize(len, byte)
    }

    fn text_with_capacity(self, capacity: usize) -> Result<String<A>, AllocError> {
        String::with_capacity(self, capacity)
    }

    fn text_of(self, text: &str) -> Result<String<A>, AllocError> {
        String::from_str(self, text)
    }

    fn push_str(text: &mut String<A>, more: &str) -> Result<(), AllocError> {
        text.push_str(more)
    }

    fn push_char(text: &mut String<A>, more: char) -> Result<(), AllocError> {
        text.push(more)
    }

    fn push_shown<D: Display + Drop>(text: &mut String<A>, value: D) -> Result<(), AllocError> {
        text.write_fmt(value)
    }

    fn hex_of(self, bytes: &[u8]) -> Result<String<A>, AllocError> {
        hex::encode(self, bytes)
    }

    fn push_base64(text: &mut String<A>, bytes: &[u8]) -> Result<(), AllocError> {
        STANDARD.encode_string(bytes, text)
    }

    fn base64_shown(self, text: &[u8]) -> Result<Vec<u8, A>, DecodeAllocError> {
        STANDARD.decode(self, text)
    }

    fn shared_of(self, bytes: &[u8]) -> Result<Bytes<A>, AllocError> {
        Bytes::copy_from_slice(self, bytes)
    }

    fn share(list: &mut Vec<u8, A>) -> Result<Bytes<A>, AllocError> {
        let empty = Vec::new(*list.allocator());
        match Bytes::from_vec(mem::replace(list, empty)) {
            Ok(bytes) => Ok(bytes),
            Err(refused) => {
                *list = refused.value;
                Err(AllocError)
            }
        }
    }

    fn clone_shared(bytes: &Bytes<A>) -> Result<Bytes<A>, AllocError> {
        bytes.clone()
    }

    fn slice_shared(bytes: &Bytes<A>, start: usize, end: usize) -> Result<Bytes<A>, AllocError> {
        bytes.slice(start..end)
    }

    fn freeze_to(buf: &mut BytesMut<A>, at: usize) -> Result<Bytes<A>, AllocError> {
        buf.freeze_to(at)
    }

    fn reserve_bytes(buf: &mut BytesMut<A>, additional: usize) -> Result<(), AllocError> {
        buf.reserve(additional)
    }

    fn append(buf: &mut BytesMut<A>, more: &[u8]) -> Result<(), AllocError> {
        buf.extend_from_slice(more)
    }

    fn append_from<T: Buf>(buf: &mut BytesMut<A>, more: &mut T) -> Result<(), AllocError> {
        buf.put_from(more)
    }
}
