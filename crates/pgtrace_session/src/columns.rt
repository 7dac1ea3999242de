//! What is known under names.

ghost use Rattle.std.specs.Prelude.{◌≡◌, IfOk, OnErr, OnOk};
ghost use Rattle.pgtrace_summary.specs.Names.{without};
ghost use Rattle.pgtrace_session.specs.Shelves.{bare, formatted, in_formats, kept};
ghost use Rattle.pgtrace_session.specs.Typed.{column_of, with_field};

use crate::column::{Column, binary_at, is_binary};
use pgp_base::Memory;
use pgp_message::Field;
use pgtrace_summary::{MapMemory, Names};
use std::alloc::{AllocError, Allocator};
use std::marker::Model;

/// Columns, and their names one after another, of each as many bytes as the column says; or parameters, which have none.
#[derive(Drop)]
pub struct Columns<A: Allocator> {
    list: Vec<Column, A>,
    names: Vec<u8, A>,
}

impl<A: Allocator> Model for Columns<A> {
    ghost use Rattle.pgtrace_session.specs.Shelves.{Columns as Described};

    ghost Value = { Described };

    ghost view = { λ x. record { list = x.list.items; names = x.names.items } };
}

impl<A: MapMemory> Columns<A> {
    pub fn list(&self) -> &[Column]
        ensures { result.now ≡ self.now.list }
    {
        self.list.as_slice()
    }

    pub fn names(&self) -> &[u8]
        ensures { result.now ≡ self.now.names }
    {
        self.names.as_slice()
    }

    /// Adds the column that a field describes, with its name where names are asked for.
    pub fn push(&mut self, named: bool, field: &Field<'_>) -> Result<(), AllocError>
        ensures pushed { OnOk result (self.new ≡ with_field named self.old field.now) }
        ensures lacks { OnErr result A.Lacks }
    {
        A::push(&mut self.list, column_of(field))?;
        if named {
            A::extend(&mut self.names, field.name().as_bytes())?;
        }
        Ok(())
    }

    /// The same columns once more.
    pub fn again(&self) -> Result<Columns<A>, AllocError>
        ensures same { IfOk result (λ copy. copy ≡ self.now) }
        ensures lacks { OnErr result A.Lacks }
    {
        let alloc = *self.list.allocator();
        let list = alloc.list_of(self.list.as_slice())?;
        let names = alloc.list_of(self.names.as_slice())?;
        Ok(Columns { list, names })
    }

    /// The same in these formats.
    pub fn in_formats(&self, formats: &[bool]) -> Result<Columns<A>, AllocError>
        ensures formatted { IfOk result (λ columns. columns ≡ in_formats formats.now self.now) }
        ensures lacks { OnErr result A.Lacks }
    {
        let alloc = *self.list.allocator();
        let list = formatted(alloc, formats, self.list.as_slice())?;
        let names = alloc.list_of(self.names.as_slice())?;
        Ok(Columns { list, names })
    }
}

fn column_of(field: &Field<'_>) -> Column
    ensures { result ≡ column_of field.now }
{
    Column {
        oid: field.type_oid(),
        binary: is_binary(field.format()),
        len: field.name().len(),
    }
}

/// These columns or parameters, without names.
pub fn bare<A: MapMemory>(list: Vec<Column, A>) -> Columns<A>
    ensures { result ≡ bare list.items }
{
    let names = Vec::new(*list.allocator());
    Columns { list, names }
}

/// Keeps columns under a name, in the place of others; or lets those go, where none are known.
pub fn keep<A: MapMemory>(
    name: &[u8],
    columns: Option<Columns<A>>,
    shelf: &mut Names<Columns<A>, A>,
) -> Result<(), AllocError>
    ensures kept { OnOk result (shelf.new ≡ kept name.now columns shelf.old) }
    ensures lacks { OnErr result A.Lacks }
{
    match columns {
        Some(columns) => shelf.put(name, columns),
        None => {
            shelf.forget(name);
            Ok(())
        }
    }
}

/// The columns in these formats.
pub fn formatted<A: MapMemory>(
    alloc: A,
    formats: &[bool],
    columns: &[Column],
) -> Result<Vec<Column, A>, AllocError>
    ensures formatted { IfOk result (λ list. list.items ≡ formatted formats.now columns.now) }
    ensures lacks { OnErr result A.Lacks }
{
    let mut list = Vec::new(alloc);
    let mut rest = columns;
    'columns: while let Some((column, behind)) = rest.split_first() {
        let binary = binary_at(formats, list.len());
        A::push(
            &mut list,
            Column {
                oid: column.oid,
                binary,
                len: column.len,
            },
        )?;
        rest = behind;
    }
    Ok(list)
}
