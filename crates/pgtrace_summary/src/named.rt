//! The texts of statements and portals, by their names.

ghost use Rattle.std.specs.Prelude.{◌≡◌, OnErr, OnOk};
ghost use Rattle.pgtrace_summary.specs.Summary.{named, text_under};

use crate::memory::MapMemory;
use crate::names::Names;
use std::alloc::{AllocError, Allocator};
use std::marker::Model;

/// A text.
#[derive(Drop)]
pub(crate) struct Text<A: Allocator> {
    bytes: Vec<u8, A>,
}

impl<A: Allocator> Model for Text<A> {
    ghost use Rattle.std.specs.Prelude.{ℕ, List};

    ghost Value = { List ℕ };

    ghost view = { λ x. x.bytes.items };
}

impl<A: Allocator> Text<A> {
    fn as_slice(&self) -> &[u8]
        ensures { result.now ≡ self.now }
    {
        self.bytes.as_slice()
    }
}

/// Gives a name this text, in the place of what it had.
pub(crate) fn put<A: MapMemory>(
    name: Vec<u8, A>,
    bytes: Vec<u8, A>,
    list: &mut Names<Text<A>, A>,
) -> Result<(), AllocError>
    ensures put { OnOk result (list.new ≡ named name.items bytes.items list.old) }
    ensures lacks { OnErr result A.Lacks }
{
    list.put(name.as_slice(), Text { bytes })
}

/// The text under a name, or `?`.
pub(crate) fn text_under<'a, A: MapMemory>(name: &[u8], list: &'a Names<Text<A>, A>) -> &'a [u8]
    ensures { result.now ≡ text_under name.now list.now }
{
    match list.get(name) {
        Some(text) => text.as_slice(),
        None => b"?",
    }
}
