//! The requests about statements and portals whose answers are to come.

ghost use Rattle.std.specs.Prelude.{◌≡◌, ◌++◌, ◌∷◌, [], OnErr, OnOk};
ghost use Rattle.std.specs.Option.{option_map};
ghost use Rattle.pgtrace_session.specs.Types.{first, since};
ghost use Rattle.pgtrace_session.specs.TypesKept.{awaited_of, queue_of};

use crate::column::Column;
use pgp_base::Memory;
use pgtrace_summary::MapMemory;
use std::alloc::AllocError;
use std::collections::VecDeque;

/// What a request is about.
#[derive(Debug, Clone, Copy)]
pub enum Object {
    Statement,
    Portal,
    /// The portal without a name, as a Query makes it.
    Simple,
}

/// A request about a statement or a portal.
#[derive(Drop)]
pub struct Awaited<A: MapMemory> {
    pub number: u64,
    pub object: Object,
    pub name: Vec<u8, A>,
    /// Of a Bind: the statement, and which formats of the columns are binary.
    pub statement: Vec<u8, A>,
    pub formats: Vec<bool, A>,
    /// Of a Parse the parameters that it gives.
    pub parameters: Vec<Column, A>,
}

/// Lets the requests before this number go: their answers are over.
pub fn reach<A: MapMemory>(number: u64, awaited: &mut VecDeque<Awaited<A>, A>)
    ensures { queue_of awaited.new.items ≡ since number (queue_of awaited.old.items) }
{
    'older: while let Some(asked) = awaited.front() {
        if asked.number >= number {
            return;
        }
        let _ = awaited.pop_front();
    }
}

/// The first request, if it has this number.
pub fn first<A: MapMemory>(number: u64, awaited: &VecDeque<Awaited<A>, A>) -> Option<&Awaited<A>>
    ensures { option_map (λ asked. awaited_of asked.now) result ≡ first number (queue_of awaited.now.items) }
{
    match awaited.front() {
        Some(asked) => {
            if asked.number == number {
                Some(asked)
            } else {
                None
            }
        }
        None => None,
    }
}

/// Adds a request that names one object.
pub fn wait<A: MapMemory>(
    number: u64,
    object: Object,
    name: &[u8],
    awaited: &mut VecDeque<Awaited<A>, A>,
) -> Result<(), AllocError>
    ensures asked { OnOk result (queue_of awaited.new.items ≡ queue_of awaited.old.items ++ record { number = number; object = object; name = name.now; statement = []; formats = []; parameters = [] } ∷ []) }
    ensures lacks { OnErr result A.Lacks }
{
    let alloc = *awaited.allocator();
    wait_bound(
        number,
        object,
        name,
        &[],
        Vec::new(alloc),
        Vec::new(alloc),
        awaited,
    )
}

/// Adds a request with all its parts.
pub fn wait_bound<A: MapMemory>(
    number: u64,
    object: Object,
    name: &[u8],
    statement: &[u8],
    formats: Vec<bool, A>,
    parameters: Vec<Column, A>,
    awaited: &mut VecDeque<Awaited<A>, A>,
) -> Result<(), AllocError>
    ensures asked { OnOk result (queue_of awaited.new.items ≡ queue_of awaited.old.items ++ record { number = number; object = object; name = name.now; statement = statement.now; formats = formats.items; parameters = parameters.items } ∷ []) }
    ensures lacks { OnErr result A.Lacks }
{
    let alloc = *awaited.allocator();
    let name = alloc.list_of(name)?;
    let statement = alloc.list_of(statement)?;
    A::push_back(
        awaited,
        Awaited {
            number,
            object,
            name,
            statement,
            formats,
            parameters,
        },
    )?;
    Ok(())
}
