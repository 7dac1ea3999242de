//! The columns that a description tells, and the formats that a Bind asks for.

ghost use Rattle.std.specs.Prelude.{◌≡◌, map, IfOk, OnErr};
ghost use Rattle.std.specs.Option.{option_map};
ghost use Rattle.pgtrace_session.specs.Shelves.{is_binary};
ghost use Rattle.pgtrace_session.specs.Typed.{columns_of, parameter, parameters_in};

use crate::column::{Column, is_binary};
use crate::columns::{Columns, bare};
use pgp_base::{FallibleIterator, Memory};
use pgp_frontend_read::{Formats, ParamTypes};
use pgp_message::{Fields, Parameters};
use pgtrace_summary::MapMemory;
use std::alloc::AllocError;

/// The columns of a description, if it doesn't break off, with their names where those are asked for.
#[tactic(auto, using(crate::proofs::RowLemmas::columns_more, crate::proofs::RowLemmas::columns_end, crate::proofs::RowLemmas::columns_cut))]
pub fn columns_of<A: MapMemory>(
    alloc: A,
    named: bool,
    mut fields: Fields<'_>,
) -> Result<Option<Columns<A>>, AllocError>
    ensures columns { IfOk result (λ columns. columns ≡ columns_of named fields.entry.items fields.entry.end) }
    ensures lacks { OnErr result A.Lacks }
{
    let mut columns = bare(Vec::new(alloc));
    'fields: loop {
        match fields.next() {
            Ok(Some(field)) => columns.push(named, &field)?,
            Ok(None) => return Ok(Some(columns)),
            Err(_) => return Ok(None),
        }
    }
}

/// Which of the formats are binary.
pub fn binaries_of<A: MapMemory>(
    alloc: A,
    mut formats: Formats<'_>,
) -> Result<Vec<bool, A>, AllocError>
    ensures formats { IfOk result (λ list. list.items ≡ map is_binary formats.entry) }
    ensures lacks { OnErr result A.Lacks }
{
    let mut list = Vec::new(alloc);
    'formats: loop {
        match formats.next() {
            Ok(Some(format)) => A::push(&mut list, is_binary(format))?,
            Ok(None) => return Ok(list),
            Err(_) => return Ok(list),
        }
    }
}

/// A parameter of this type.
fn parameter(oid: u32) -> Column
    ensures { result ≡ parameter oid }
{
    Column {
        oid,
        binary: false,
        len: 0,
    }
}

/// The parameters that a Parse gives.
pub fn given_types<A: MapMemory>(
    alloc: A,
    mut types: ParamTypes<'_>,
) -> Result<Vec<Column, A>, AllocError>
    ensures types { IfOk result (λ list. list.items ≡ map parameter types.entry) }
    ensures lacks { OnErr result A.Lacks }
{
    let mut list = Vec::new(alloc);
    'types: loop {
        match types.next() {
            Ok(Some(oid)) => A::push(&mut list, parameter(oid))?,
            Ok(None) => return Ok(list),
            Err(_) => return Ok(list),
        }
    }
}

/// The parameters that a server describes, if that doesn't break off.
#[tactic(auto, using(crate::proofs::RowLemmas::parameters_more, crate::proofs::RowLemmas::parameters_end, crate::proofs::RowLemmas::parameters_cut))]
pub fn described_types<A: MapMemory>(
    alloc: A,
    mut types: Parameters<'_>,
) -> Result<Option<Vec<Column, A>>, AllocError>
    ensures types { IfOk result (λ list. option_map (λ all. all.items) list ≡ parameters_in types.entry.items types.entry.end) }
    ensures lacks { OnErr result A.Lacks }
{
    let mut list = Vec::new(alloc);
    'types: loop {
        match types.next() {
            Ok(Some(oid)) => A::push(&mut list, parameter(oid))?,
            Ok(None) => return Ok(Some(list)),
            Err(_) => return Ok(None),
        }
    }
}
