//! What is known of the types of statements and portals.

ghost use Rattle.std.specs.Prelude.{◌≡◌, [], Some, IfOk, OnErr, OnOk};
ghost use Rattle.pgtrace_session.specs.Common.{option_map, found, without};
ghost use Rattle.std.specs.Option.{option_copied};
ghost use Rattle.pgtrace_session.specs.Shelves.{in_formats, kept};
ghost use Rattle.pgtrace_session.specs.Types.{asks_text, bound, closed, described, ended, first, first_texts, no_types, parameters_of, parsed, parses, passed_on, reached, rows_of, statement_of, syncs, tells, texts_after, told_by, waits};
ghost use Rattle.pgtrace_session.specs.TypesKept.{awaited_of, last_of, types_of};

use crate::awaited::{Awaited, Object, first, reach, wait_bound};
use crate::column::Column;
use crate::columns::{Columns, bare, keep};
use pgp_base::Memory;
use pgtrace_summary::{MapMemory, Names, Reply, Summary, Work};
use std::alloc::AllocError;
use std::collections::VecDeque;

/// A portal, and the statement that it was bound to.
#[derive(Drop)]
pub struct BoundPortal<A: MapMemory> {
    pub name: Vec<u8, A>,
    pub statement: Vec<u8, A>,
}

/// What is known of statements and portals.
#[derive(Drop)]
pub struct Types<A: MapMemory> {
    /// The requests about them whose answers are to come.
    pub awaited: VecDeque<Awaited<A>, A>,
    /// The columns of the statements, in text format.
    pub statements: Names<Columns<A>, A>,
    /// The columns of the portals.
    pub portals: Names<Columns<A>, A>,
    /// The portal that was bound last, where no statement was prepared and nothing was closed after that.
    pub last: Option<BoundPortal<A>>,
    /// The parameters of the Parses that were sent after the last Sync.
    pub sent: Names<Columns<A>, A>,
    /// The parameters of statements that were told.
    pub told: Names<Columns<A>, A>,
    /// Those of the Bind that was sent last, in its formats.
    pub binds: Vec<Column, A>,
    /// The number of the last Parse.
    pub parse: u64,
    /// The texts of statements and portals, where names are asked for.
    pub texts: Option<Summary<A>>,
}

/// Before the first request.
pub fn no_types<A: MapMemory>(alloc: A, named: bool) -> Types<A>
    ensures { types_of result ≡ no_types named }
{
    Types {
        awaited: VecDeque::new(alloc),
        statements: Names::new(alloc),
        portals: Names::new(alloc),
        last: None,
        sent: Names::new(alloc),
        told: Names::new(alloc),
        binds: Vec::new(alloc),
        parse: 0,
        texts: first_texts(alloc, named),
    }
}

/// Before the first request, where names are asked for.
fn first_texts<A: MapMemory>(alloc: A, named: bool) -> Option<Summary<A>>
    ensures { result ≡ first_texts named }
{
    if named {
        Some(Summary::new(alloc, false))
    } else {
        None
    }
}

/// The columns of the rows that answer a request.
pub fn rows_of<A: MapMemory>(number: u64, types: &Types<A>) -> Option<&Columns<A>>
    ensures { option_copied result ≡ rows_of (first number (types_of types.now).awaited) (types_of types.now) }
{
    let asked = first(number, &types.awaited)?;
    match asked.object {
        Object::Statement => None,
        Object::Portal | Object::Simple => types.portals.get(asked.name.as_slice()),
    }
}

/// An answer to this request comes: those to the requests before it are over.
pub fn reach_answer<A: MapMemory>(number: u64, types: &mut Types<A>)
    ensures { types_of types.new ≡ reached number (types_of types.old) }
{
    reach(number, &mut types.awaited);
    match &mut types.texts {
        Some(texts) => texts.reach(number),
        None => {}
    }
}

/// The object of a request has these columns, or none are known.
pub fn describe<A: MapMemory>(
    number: u64,
    columns: Option<Columns<A>>,
    types: &mut Types<A>,
) -> Result<(), AllocError>
    ensures described { OnOk result (types_of types.new ≡ described (first number (types_of types.old).awaited) columns (types_of types.old)) }
    ensures lacks { OnErr result A.Lacks }
{
    match first(number, &types.awaited) {
        Some(asked) => match asked.object {
            Object::Statement => keep(asked.name.as_slice(), columns, &mut types.statements),
            Object::Portal => {
                let name = asked.name.as_slice();
                pass_on(name, &columns, &types.last, &mut types.statements)?;
                keep(name, columns, &mut types.portals)
            }
            Object::Simple => keep(asked.name.as_slice(), columns, &mut types.portals),
        },
        None => Ok(()),
    }
}

/// The statement of the portal of this name, if it was bound last, has these columns.
fn pass_on<A: MapMemory>(
    name: &[u8],
    columns: &Option<Columns<A>>,
    last: &Option<BoundPortal<A>>,
    statements: &mut Names<Columns<A>, A>,
) -> Result<(), AllocError>
    ensures kept { OnOk result (statements.new ≡ passed_on (statement_of name.now (last_of last.now)) columns.now statements.old) }
    ensures lacks { OnErr result A.Lacks }
{
    match last {
        Some(portal) => {
            if portal.name.as_slice() == name {
                let name = portal.statement.as_slice();
                match columns {
                    Some(columns) => keep(name, Some(columns.again()?), statements),
                    None => keep(name, None, statements),
                }
            } else {
                Ok(())
            }
        }
        None => Ok(()),
    }
}

/// A Bind is done: its portal has its statement's columns, in its formats.
pub fn bind<A: MapMemory>(number: u64, types: &mut Types<A>) -> Result<(), AllocError>
    ensures bound { OnOk result (types_of types.new ≡ bound (first number (types_of types.old).awaited) (types_of types.old)) }
    ensures lacks { OnErr result A.Lacks }
{
    match first(number, &types.awaited) {
        Some(asked) => {
            bind_to(asked, &types.statements, &mut types.portals)?;
            types.last = Some(bound_portal(asked)?);
            end_text(asked.number, Reply::BindComplete, &mut types.texts)
        }
        None => Ok(()),
    }
}

/// The portal that a Bind made.
fn bound_portal<A: MapMemory>(asked: &Awaited<A>) -> Result<BoundPortal<A>, AllocError>
    ensures name { IfOk result (λ portal. portal.name.items ≡ asked.now.name.items) }
    ensures statement { IfOk result (λ portal. portal.statement.items ≡ asked.now.statement.items) }
    ensures lacks { OnErr result A.Lacks }
{
    let alloc = *asked.name.allocator();
    let name = alloc.list_of(asked.name.as_slice())?;
    let statement = alloc.list_of(asked.statement.as_slice())?;
    Ok(BoundPortal { name, statement })
}

/// Keeps the columns of a portal.
fn bind_to<A: MapMemory>(
    asked: &Awaited<A>,
    statements: &Names<Columns<A>, A>,
    portals: &mut Names<Columns<A>, A>,
) -> Result<(), AllocError>
    ensures bound { OnOk result (portals.new ≡ kept asked.now.name.items (option_map (in_formats asked.now.formats.items) (found asked.now.statement.items statements.now)) (portals.old)) }
    ensures lacks { OnErr result A.Lacks }
{
    let name = asked.name.as_slice();
    match statements.get(asked.statement.as_slice()) {
        Some(columns) => {
            let columns = columns.in_formats(asked.formats.as_slice())?;
            keep(name, Some(columns), portals)
        }
        None => keep(name, None, portals),
    }
}

/// The server is ready, in this state: no portal outlives its transaction.
pub fn end<A: MapMemory>(status: u8, types: &mut Types<A>)
    ensures { types_of types.new ≡ ended status (types_of types.old) }
{
    if status == b'I' {
        types.portals.clear();
        types.last = None;
    }
}

/// A Parse is sent, under this number.
pub fn parse<A: MapMemory>(
    number: u64,
    name: &[u8],
    query: &[u8],
    parameters: Vec<Column, A>,
    types: &mut Types<A>,
) -> Result<(), AllocError>
    ensures parsed { OnOk result (types_of types.new ≡ waits (Some (record { number = number; object = Object.Statement; name = name.now; statement = []; formats = []; parameters = parameters.items })) (parses number name.now query.now parameters.items (types_of types.old))) }
    ensures lacks { OnErr result A.Lacks }
{
    let alloc = *types.awaited.allocator();
    let sent = alloc.list_of(parameters.as_slice())?;
    keep(name, Some(bare(sent)), &mut types.sent)?;
    types.told.forget(name);
    types.parse = number;
    ask_text(number, Work::Parse, name, query, &mut types.texts)?;
    wait_bound(
        number,
        Object::Statement,
        name,
        &[],
        Vec::new(alloc),
        parameters,
        &mut types.awaited,
    )
}

/// A Sync is sent.
pub fn sync<A: MapMemory>(types: &mut Types<A>)
    ensures { types_of types.new ≡ syncs (types_of types.old) }
{
    types.sent.clear();
}

/// The parameters of a statement, as far as they are known to who sends a Bind now.
pub fn parameters_of<'a, A: MapMemory>(name: &[u8], types: &'a Types<A>) -> &'a [Column]
    ensures { result.now ≡ parameters_of name.now (types_of types.now) }
{
    match types.told.get(name) {
        Some(parameters) => parameters.list(),
        None => match types.sent.get(name) {
            Some(parameters) => parameters.list(),
            None => &[],
        },
    }
}

/// The statement of a request has these parameters, or none are known.
pub fn tell<A: MapMemory>(
    number: u64,
    parameters: Option<Vec<Column, A>>,
    types: &mut Types<A>,
) -> Result<(), AllocError>
    ensures told { OnOk result (types_of types.new ≡ tells (first number (types_of types.old).awaited) (option_map (λ list. list.items) parameters) (types_of types.old)) }
    ensures lacks { OnErr result A.Lacks }
{
    match first(number, &types.awaited) {
        Some(asked) => {
            if asked.number < types.parse {
                Ok(())
            } else {
                put_told(
                    asked.object,
                    asked.name.as_slice(),
                    parameters,
                    &mut types.told,
                )
            }
        }
        None => Ok(()),
    }
}

/// Keeps the parameters of a statement.
fn put_told<A: MapMemory>(
    object: Object,
    name: &[u8],
    parameters: Option<Vec<Column, A>>,
    told: &mut Names<Columns<A>, A>,
) -> Result<(), AllocError>
    ensures told { OnOk result (told.new ≡ told_by object name.now (option_map (λ list. list.items) parameters) (told.old)) }
    ensures lacks { OnErr result A.Lacks }
{
    match object {
        Object::Statement => match parameters {
            Some(list) => keep(name, Some(bare(list)), told),
            None => keep(name, None, told),
        },
        Object::Portal | Object::Simple => Ok(()),
    }
}

/// A Parse is done.
pub fn finish<A: MapMemory>(number: u64, types: &mut Types<A>) -> Result<(), AllocError>
    ensures parsed { OnOk result (types_of types.new ≡ parsed (first number (types_of types.old).awaited) (types_of types.old)) }
    ensures lacks { OnErr result A.Lacks }
{
    types.last = None;
    describe(number, None, types)?;
    match first(number, &types.awaited) {
        Some(asked) => {
            end_text(asked.number, Reply::ParseComplete, &mut types.texts)?;
            if asked.number < types.parse {
                Ok(())
            } else {
                let alloc = *asked.name.allocator();
                let given = alloc.list_of(asked.parameters.as_slice())?;
                put_told(
                    asked.object,
                    asked.name.as_slice(),
                    Some(given),
                    &mut types.told,
                )
            }
        }
        None => Ok(()),
    }
}

/// A statement or a portal is closed.
pub fn close<A: MapMemory>(number: u64, types: &mut Types<A>) -> Result<(), AllocError>
    ensures closed { OnOk result (types_of types.new ≡ closed (first number (types_of types.old).awaited) (types_of types.old)) }
    ensures lacks { OnErr result A.Lacks }
{
    types.last = None;
    describe(number, None, types)?;
    match first(number, &types.awaited) {
        Some(asked) => put_told(asked.object, asked.name.as_slice(), None, &mut types.told),
        None => Ok(()),
    }
}

/// A Parse or a Bind is sent.
pub fn ask_text<A: MapMemory>(
    number: u64,
    work: Work,
    first: &[u8],
    second: &[u8],
    texts: &mut Option<Summary<A>>,
) -> Result<(), AllocError>
    ensures asked { OnOk result (texts.new ≡ asks_text number work first.now second.now texts.old) }
    ensures lacks { OnErr result A.Lacks }
{
    match texts {
        Some(texts) => texts.ask(number, work, first, second),
        None => Ok(()),
    }
}

/// A Parse or a Bind took effect.
fn end_text<A: MapMemory>(
    number: u64,
    reply: Reply,
    texts: &mut Option<Summary<A>>,
) -> Result<(), AllocError>
    ensures ended { OnOk result (texts.new ≡ texts_after number reply texts.old) }
    ensures lacks { OnErr result A.Lacks }
{
    match texts {
        Some(texts) => texts.end(number, reply, 0, 0),
        None => Ok(()),
    }
}
