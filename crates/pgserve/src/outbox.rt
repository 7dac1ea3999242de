//! What is answered to a message.

ghost use Rattle.std.specs.Prelude.{◌≡◌, ◌≢◌, None, OnErr};

use crate::fault::Fault;
use bytes::BytesMut;
use pgp_base::{Error, FallibleIterator};
use std::alloc::{AllocError, Global};

/// What is answered to a message, and the first reason why it can't be, such as a lack of memory. Once there is one nothing of it is sent
/// and the program stops, so that what answers goes on without a look at it.
#[derive(Drop)]
pub(crate) struct Outbox {
    pub(crate) alloc: Global,
    pub(crate) bytes: BytesMut,
    fault: Option<Fault>,
}

impl Outbox {
    pub(crate) fn new(alloc: Global) -> Outbox {
        Outbox {
            alloc,
            bytes: BytesMut::new(alloc),
            fault: None,
        }
    }

    /// How many bytes were appended.
    pub(crate) fn len(&self) -> usize {
        self.bytes.len()
    }

    /// Forgets what was appended.
    pub(crate) fn clear(&mut self) {
        self.bytes.clear();
    }

    /// Takes note of a fault, of which the first counts.
    pub(crate) fn fail(&mut self, fault: Fault)
        ensures bytes { self.new.bytes ≡ self.old.bytes }
        ensures fault { self.new.fault ≢ None }
    {
        if self.fault.is_none() {
            self.fault = Some(fault);
        }
    }

    /// Takes note that memory was lacking.
    pub(crate) fn lack(&mut self) {
        self.fail(Fault::Memory);
    }

    /// Takes note of what became of a message that was to be appended.
    pub(crate) fn put(&mut self, message: Result<(), Error>)
        ensures { OnErr message (self.new.fault ≢ None) }
    {
        if let Err(why) = message {
            self.fail(Fault::from(why));
        }
    }

    /// Takes note of what became of a thing for which memory was asked.
    pub(crate) fn keep(&mut self, kept: Result<(), AllocError>)
        ensures { self.new.bytes ≡ self.old.bytes }
    {
        if kept.is_err() {
            self.fail(Fault::Memory);
        }
    }

    /// Appends an item to a list.
    pub(crate) fn add<T: Drop>(&mut self, list: &mut Vec<T>, item: T)
        ensures { self.new.bytes ≡ self.old.bytes }
    {
        self.keep(push(list, item));
    }

    /// The same items in memory of their own.
    pub(crate) fn copy<T: Copy>(&mut self, items: &[T]) -> Vec<T>
        ensures { self.new.bytes ≡ self.old.bytes }
    {
        let mut list = Vec::new(self.alloc);
        self.keep(list.extend_from_slice(items));
        list
    }

    /// All items of an iterator, or those up to a fault.
    pub(crate) fn listed<I: FallibleIterator>(&mut self, items: &mut I) -> Vec<I::Item>
    where
        I::Item: Drop,
    {
        let mut list = Vec::new(self.alloc);
        for _ in 0..u64::MAX {
            match items.next() {
                Ok(Some(item)) => self.add(&mut list, item),
                Ok(None) => return list,
                Err(why) => {
                    self.fail(Fault::from(why));
                    return list;
                }
            }
        }
        list
    }

    /// The whole answer.
    ///
    /// # Errors
    ///
    /// The first fault, if there was one.
    pub(crate) fn end(&self) -> Result<&[u8], Fault> {
        match self.fault {
            Some(fault) => Err(fault),
            None => Ok(&self.bytes),
        }
    }
}

/// Appends an item to a list.
pub(crate) fn push<T: Drop>(list: &mut Vec<T>, item: T) -> Result<(), AllocError> {
    match list.push(item) {
        Ok(()) => Ok(()),
        Err(failed) => {
            drop(failed);
            Err(AllocError)
        }
    }
}
