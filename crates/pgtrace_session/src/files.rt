//! Recordings in files.

ghost use Rattle.std.specs.Prelude.{◌≡◌, ◌∷◌, ◌++◌, [], ℕ, List, Some, map, IfErr, IfOk, OnErr, OnOk};
ghost use Rattle.pgtrace_session.specs.Common.{Appends, AppendsFront, Caused, Consumes, Fault as Faults, GivesUp, Keeps, NoRead, StopsReading};
ghost use Rattle.pgtrace_session.specs.Tables.{table};
ghost use Rattle.pgtrace_session.specs.Recording.{complaint_of, status_of};
ghost use Rattle.pgtrace_session.specs.Several.{AddsFiles, CutsFile, CutsTable, ListsFile, ListsTable, worst};
ghost use Rattle.pgtrace_lines.specs.Steps.{view_of};
ghost use Rattle.std.specs.IoError.{error_kind};

use crate::ending::{End, complaint_of, status_of};
use crate::outcome::{Ended, with_status};
use crate::session::{list_session, put_lines, sum_session};
use crate::table::put_table;
use pgtool_line::fault::Fault;
use pgtool_line::ports::Output;
use pgtrace_lines::marking::Marking;
use pgtrace_lines::ports::Input;
use pgtrace_lines::view::View;
use pgtrace_summary::{MapMemory, Summary};
use std::io::{self, ErrorKind};

/// Where recordings are read from: a reader, and files by their names.
pub trait Recordings: Input {
    /// A file, which is read as it comes.
    type File: Input + Drop;

    /// The file of this name gave these bytes.
    ghost Gives: { List ℕ → List ℕ → Type 0 };

    /// Opens a file.
    ///
    /// # Errors
    ///
    /// The file can't be opened.
    fn open(&self, name: &str) -> io::Result<Self::File>
        ensures gives { IfOk result (λ file. (bytes : List ℕ) → Consumes (Self.File.remaining file) (Some []) bytes → Gives name.now bytes) }
        ensures live { OnOk result ((now : Self.File) → Self.File.MayRead now) }
        ensures stops { OnOk result ((fault : Faults) → StopsReading Self.File.Fails Self.File.Called fault → StopsReading Self.Fails Self.Called fault) }
        ensures fails { IfErr result (λ e. Self.Fails (error_kind e)) };
}

/// Opens a file.
fn open<R: Recordings>(name: &str, input: &R) -> Result<R::File, Fault>
    ensures gives { IfOk result (λ file. (bytes : List ℕ) → Consumes (R.File.remaining file) (Some []) bytes → R.Gives name.now bytes) }
    ensures live { OnOk result ((now : R.File) → R.File.MayRead now) }
    ensures stops { OnOk result ((fault : Faults) → StopsReading R.File.Fails R.File.Called fault → StopsReading R.Fails R.Called fault) }
    ensures cause { IfErr result (Caused ⊥ (StopsReading R.Fails R.Called) ⊥) }
{
    match input.open(name) {
        Ok(file) => Ok(file),
        Err(e) => match e.kind() {
            ErrorKind::OutOfMemory => Err(Fault::Memory),
            _ => Err(Fault::Read),
        },
    }
}

/// Lists the recording in this file.
pub fn list_file<A: MapMemory, R: Recordings, W: Output>(
    alloc: A,
    view: View<'_>,
    marking: Marking,
    name: &str,
    input: &R,
    output: &mut W,
) -> Result<Ended<'static>, Fault>
    ensures passed { OnOk result (W.Passed output.new) }
    ensures done { IfOk result (λ ended. ListsFile R.Gives (view_of view.entry) marking name.now (W.contents output.old) (W.contents output.new) ended.status (ended.first.now ++ ended.second.now ++ ended.third.now)) }
    ensures stops { OnErr result (CutsFile R.Gives (view_of view.entry) marking name.now (W.contents output.old) (W.contents output.new)) }
    ensures cause { IfErr result (Caused A.Lacks (StopsReading R.Fails R.Called) (GivesUp W.Fails W.Interrupted)) }
{
    let mut file = open(name, input)?;
    list_session(alloc, view, marking, &mut file, output)
}

/// Writes the table of the recordings in these files.
pub fn list_table<A: MapMemory, R: Recordings, W: Output>(
    alloc: A,
    view: View<'_>,
    marking: Marking,
    names: &[&str],
    input: &R,
    output: &mut W,
) -> Result<Ended<'static>, Fault>
    ensures passed { OnOk result (W.Passed output.new) }
    ensures done { IfOk result (λ ended. ListsTable R.Gives (view_of view.entry) marking (map (λ name. name.now) names.now) (W.contents output.old) (W.contents output.new) ended.status (ended.first.now ++ ended.second.now ++ ended.third.now)) }
    ensures stops { OnErr result (CutsTable R.Gives (view_of view.entry) marking (map (λ name. name.now) names.now) (W.contents output.old) (W.contents output.new)) }
    ensures cause { IfErr result (Caused A.Lacks (StopsReading R.Fails R.Called) (GivesUp W.Fails W.Interrupted)) }
{
    let mut table = Summary::new(alloc, marking.folded);
    list_added(alloc, view, marking, names, input, &mut table, output)
}

/// The same, by a table that has no statement yet.
fn list_added<A: MapMemory, R: Recordings, W: Output>(
    alloc: A,
    view: View<'_>,
    marking: Marking,
    names: &[&str],
    input: &R,
    table: &mut Summary<A>,
    output: &mut W,
) -> Result<Ended<'static>, Fault>
    requires none { table.old.tallies ≡ [] }
    ensures passed { OnOk result (W.Passed output.new) }
    ensures done { IfOk result (λ ended. ListsTable R.Gives (view_of view.entry) marking (map (λ name. name.now) names.now) (W.contents output.old) (W.contents output.new) ended.status (ended.first.now ++ ended.second.now ++ ended.third.now)) }
    ensures stops { OnErr result (CutsTable R.Gives (view_of view.entry) marking (map (λ name. name.now) names.now) (W.contents output.old) (W.contents output.new)) }
    ensures cause { IfErr result (Caused A.Lacks (StopsReading R.Fails R.Called) (GivesUp W.Fails W.Interrupted)) }
{
    let end = add_files(alloc, view, marking, names, input, table, output)?;
    write_table(alloc, view, table, output)?;
    Ok(with_status(status_of(end), complaint_of(end)))
}

/// Writes a table.
fn write_table<A: MapMemory, W: Output>(
    alloc: A,
    view: View<'_>,
    summary: &Summary<A>,
    output: &mut W,
) -> Result<(), Fault>
    ensures passed { OnOk result (W.Passed output.new) }
    ensures written { OnOk result (Appends (W.contents output.old) (W.contents output.new) (table (view_of view.entry) summary.now.tallies)) }
    ensures front { OnErr result (AppendsFront (W.contents output.old) (W.contents output.new) (table (view_of view.entry) summary.now.tallies)) }
    ensures cause { IfErr result (Caused A.Lacks NoRead (GivesUp W.Fails W.Interrupted)) }
{
    let mut part = String::new(alloc);
    let mut text = String::new(alloc);
    put_table(view, summary, &mut part, &mut text)?;
    put_lines(text.as_str(), output)
}

/// Adds to a table what the requests of these recordings ran; nothing is written. Returns how they end.
fn add_files<A: MapMemory, R: Recordings, W: Output>(
    alloc: A,
    view: View<'_>,
    marking: Marking,
    names: &[&str],
    input: &R,
    table: &mut Summary<A>,
    output: &mut W,
) -> Result<End, Fault>
    requires none { table.old.tallies ≡ [] }
    ensures added { IfOk result (λ end. AddsFiles R.Gives (view_of view.entry) marking (map (λ name. name.now) names.now) table.new.tallies end) }
    ensures kept { Keeps (W.contents output.old) (W.contents output.new) }
    ensures cause { IfErr result (Caused A.Lacks (StopsReading R.Fails R.Called) (GivesUp W.Fails W.Interrupted)) }
{
    let mut end = End::Whole;
    for name in names {
        let its = add_file(alloc, view, marking, name, input, table, output)?;
        end = worst(end, its);
    }
    Ok(end)
}

/// Adds what the requests of one recording more ran. Returns how it ends.
fn add_file<A: MapMemory, R: Recordings, W: Output>(
    alloc: A,
    view: View<'_>,
    marking: Marking,
    name: &str,
    input: &R,
    table: &mut Summary<A>,
    output: &mut W,
) -> Result<End, Fault>
    ensures added { IfOk result (λ its. (names : List (List ℕ)) (end : End) → AddsFiles R.Gives (view_of view.entry) marking names table.old.tallies end → AddsFiles R.Gives (view_of view.entry) marking (names ++ name.now ∷ []) table.new.tallies (worst end its)) }
    ensures kept { Keeps (W.contents output.old) (W.contents output.new) }
    ensures cause { IfErr result (Caused A.Lacks (StopsReading R.Fails R.Called) (GivesUp W.Fails W.Interrupted)) }
{
    let mut file = open(name, input)?;
    sum_session(alloc, view, marking, &mut file, table, output)
}

/// How two recordings end.
fn worst(one: End, other: End) -> End
    ensures { result ≡ worst one other }
{
    match (one, other) {
        (End::NoChunk | End::NoRecording, _) | (_, End::Whole) => one,
        _ => other,
    }
}
