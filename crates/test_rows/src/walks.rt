//! Iterators over lists whose lengths may be false: each ends, stays at its end, and asks for no memory by what is announced.

use crate::shown::{Show, Shown};
use linked_list_allocator::LocalHeap;
use pgp_base::{Error, FallibleIterator};
use std::alloc::{Allocator, Global};
use test_alloc::Refusing;

/// A list longer than any row's.
const MOST: usize = 1000;

/// More requests of memory than any list here makes.
const MANY: usize = 1_000_000;

/// How many bytes a list may take, and how many more for each item that comes.
const HEAP: usize = 4096;

const ROOM: usize = 256;

/// Shows the items and the error that ends them. How many items came, and that error.
fn show_items<W: FallibleIterator>(walk: &mut W, out: &mut Shown) -> (usize, Option<Error>)
where
    W::Item: Show,
{
    for received in 0..MOST {
        match walk.next() {
            Ok(Some(item)) => item.show(out),
            Ok(None) => return (received, None),
            Err(e) => {
                out.refusal(e);
                return (received, Some(e));
            }
        }
    }
    out.word("endless");
    (MOST, None)
}

/// Whether the iterator returns this end, and announces no more.
fn is_at_end<W: FallibleIterator>(walk: &mut W, end: Option<Error>) -> bool
where
    W::Item: Drop,
{
    let is_same = match walk.next() {
        Ok(Some(_)) => false,
        Ok(None) => end.is_none(),
        Err(e) => end == Some(e),
    };
    is_same && walk.size_hint().0 == 0
}

/// Shows how many items were announced, where that isn't how many came.
fn show_announced(announced: (usize, Option<usize>), received: usize, out: &mut Shown) {
    match announced {
        (least, Some(most)) if least == received && most == received => {}
        (0, None) => out.word("of any"),
        (least, _) => {
            out.word("of");
            out.number(least);
        }
    }
}

/// Whether `collect` in this memory comes to the same.
fn is_collected<A: Allocator + Copy, W: FallibleIterator + Drop>(
    alloc: A,
    walk: W,
    received: usize,
    end: Option<Error>,
) -> bool
where
    W::Item: Drop,
{
    match walk.collect(alloc) {
        Ok(list) => end.is_none() && list.len() == received,
        Err(e) => end == Some(e),
    }
}

/// Whether `collect` comes to the same in little memory, and asks for it no more often than items come.
fn is_modest<W: FallibleIterator + Drop>(
    alloc: Global,
    walk: W,
    received: usize,
    end: Option<Error>,
) -> bool
where
    W::Item: Drop,
{
    match LocalHeap::new(alloc, HEAP.saturating_add(received.saturating_mul(ROOM))) {
        Ok(heap) => {
            let counted = Refusing::new(&heap, MANY as u64);
            is_collected(&counted, walk, received, end)
                && MANY.saturating_sub(received) as u64 <= counted.until_refusal.get()
        }
        Err(_) => false,
    }
}

/// Shows an iterator as a list, `[ .. ]`; after it `of` and how many were announced, where that isn't how many came;
/// and `unsteady` where it doesn't stay at its end. How many items came, and how it ended.
pub fn show_walk<W: FallibleIterator + Drop>(mut walk: W, out: &mut Shown) -> (usize, Option<Error>)
where
    W::Item: Show + Drop,
{
    let announced = walk.size_hint();
    out.word("[");
    let (received, end) = show_items(&mut walk, out);
    out.word("]");
    show_announced(announced, received, out);
    for _ in 0..3 {
        if !is_at_end(&mut walk, end) {
            out.word("unsteady");
        }
    }
    (received, end)
}

/// Shows an iterator so, and after it `greedy` where `collect` asks for more memory than the items need. The second iterator is the same.
pub fn show_list<W: FallibleIterator + Drop>(walk: W, again: W, out: &mut Shown)
where
    W::Item: Show + Drop,
{
    let (received, end) = show_walk(walk, out);
    if !is_modest(out.alloc(), again, received, end) {
        out.word("greedy");
    }
}
