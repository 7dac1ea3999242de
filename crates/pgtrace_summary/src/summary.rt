//! What the requests of a connection ran.

ghost use Rattle.std.specs.Prelude.{◌≡◌, ◌&&◌, IfErr, IfOk, OnErr, OnOk};
ghost use Rattle.pgtrace_summary.specs.Runs.{ranked};
ghost use Rattle.pgtrace_summary.specs.Summary.{asked, did, ended, failed, lasted, nothing, ran, reached, row, rows_of, text_due, text_in, text_of, text_under, with_portal, with_runs};

use crate::entry::{Entry, More, Ran, plus, tally, tally_all};
use crate::fold::fold;
use crate::memory::MapMemory;
use crate::named::{Text, put, text_under};
use crate::names::Names;
use crate::ranking::{entries_by, sorted_keys};
use crate::waiting::{Asked, first_of, last_given, push, skip, take};
use crate::work::{Reply, Work, ends};
use pgp_base::Memory;
use std::alloc::{AllocError, Global};
use std::collections::VecDeque;
use std::marker::Model;

/// What the requests of a connection ran. It keeps the texts that prepared statements and portals have, those of the requests whose answers aren't complete,
/// and of each statement that ran its text and 8 bytes a run.
#[derive(Drop)]
pub struct Summary<A: MapMemory = Global> {
    alloc: A,
    folds: bool,
    statements: Names<Text<A>, A>,
    portals: Names<Text<A>, A>,
    waiting: VecDeque<Asked<A>, A>,
    counted: u64,
    rows: u64,
    last_end: u64,
    entries: Names<Ran<A>, A>,
}

impl<A: MapMemory> Model for Summary<A> {
    ghost use Rattle.pgtrace_summary.specs.Places.{tallies_of};
    ghost use Rattle.pgtrace_summary.specs.Summary.{State};

    ghost Value = { State };

    ghost view = { λ x. record { folds = x.folds; statements = x.statements; portals = x.portals; waiting = x.waiting.items; counted = x.counted; rows = x.rows; last_end = x.last_end; tallies = tallies_of x.entries } };
}

impl<A: MapMemory> Summary<A> {
    /// Before the first request. Statements are noted with a question mark in the place of each literal, where `folds` says so.
    pub fn new(alloc: A, folds: bool) -> Summary<A>
        ensures { result ≡ nothing folds }
    {
        Summary {
            alloc,
            folds,
            statements: Names::new(alloc),
            portals: Names::new(alloc),
            waiting: VecDeque::new(alloc),
            counted: 0,
            rows: 0,
            last_end: 0,
            entries: Names::new(alloc),
        }
    }

    /// Takes note of the request of this number: a Query by its text, a Parse by its statement's name and its text, a Bind by its portal and its statement, an
    /// Execute by its portal. It takes effect once its answer is complete.
    ///
    /// # Errors
    ///
    /// Returns `AllocError` if there is no memory for it; on error nothing changes.
    pub fn ask(
        &mut self,
        number: u64,
        work: Work,
        first: &[u8],
        second: &[u8],
    ) -> Result<(), AllocError>
        ensures asked { OnOk result (self.new ≡ asked (record { number = number; work = work; first = first.now; second = second.now }) self.old) }
        ensures same { OnErr result (self.new ≡ self.old) }
        ensures lacks { OnErr result A.Lacks }
    {
        let first = self.text(ends(work, Reply::ReadyForQuery), first)?;
        let second = self.text(ends(work, Reply::ParseComplete), second)?;
        let asked = Asked {
            number,
            work,
            first,
            second,
        };
        push(asked, &mut self.waiting)
    }

    /// A text as it is noted, which is a statement or a name.
    fn text(&self, is_statement: bool, bytes: &[u8]) -> Result<Vec<u8, A>, AllocError>
        ensures noted { IfOk result (λ list. list.items ≡ text_in (self.now.folds && is_statement) bytes.now) }
        ensures lacks { OnErr result A.Lacks }
    {
        if self.folds && is_statement {
            fold(self.alloc, bytes)
        } else {
            self.alloc.list_of(bytes)
        }
    }

    /// Takes note of a DataRow that belongs to the request of this number.
    pub fn row(&mut self, number: u64)
        ensures { self.new ≡ row number self.old }
    {
        self.rows = plus(self.rows_of(number), 1);
        self.counted = number;
    }

    /// The rows of the request of this number, so far.
    fn rows_of(&self, number: u64) -> u64
        ensures { result ≡ rows_of number self.now }
    {
        if self.counted == number { self.rows } else { 0 }
    }

    /// Takes note of a message that ends the answer to the request of this number: when that was sent, and now, in microseconds. A run took the time since its
    /// request was sent, or since the run before it ended, where that was later: in a pipeline it waits for that one. Another request than the one that this ends
    /// isn't changed.
    ///
    /// # Errors
    ///
    /// Returns `AllocError` if there is no memory for what the request did; then the summary is no longer that of the requests.
    pub fn end(&mut self, number: u64, reply: Reply, sent: u64, now: u64) -> Result<(), AllocError>
        ensures ended { OnOk result (self.new ≡ ended number reply sent now self.old) }
        ensures lacks { OnErr result A.Lacks }
    {
        skip(number, &mut self.waiting);
        match take(number, reply, &mut self.waiting) {
            Some(asked) => self.finish(asked, sent, now),
            None => Ok(()),
        }
    }

    /// Does what a request did that was sent and whose answer ended then.
    fn finish(&mut self, asked: Asked<A>, sent: u64, now: u64) -> Result<(), AllocError>
        ensures done { OnOk result (self.new ≡ did asked.work asked sent now self.old) }
        ensures lacks { OnErr result A.Lacks }
    {
        match asked.work {
            Work::Query => self.run(asked.first.as_slice(), asked.number, sent, now),
            Work::Parse => put(asked.first, asked.second, &mut self.statements),
            Work::Bind => self.bind(asked.first, asked.second.as_slice()),
            Work::Execute => self.execute(asked.first.as_slice(), asked.number, sent, now),
        }
    }

    /// Gives a portal the text of a statement.
    fn bind(&mut self, portal: Vec<u8, A>, statement: &[u8]) -> Result<(), AllocError>
        ensures bound { OnOk result (self.new ≡ with_portal portal.items (text_under statement.now self.old.statements) self.old) }
        ensures lacks { OnErr result A.Lacks }
    {
        let text = self.alloc.list_of(text_under(statement, &self.statements))?;
        put(portal, text, &mut self.portals)
    }

    /// A run of what a portal has.
    fn execute(&mut self, portal: &[u8], number: u64, sent: u64, now: u64) -> Result<(), AllocError>
        ensures ran { OnOk result (self.new ≡ ran (text_under portal.now self.old.portals) number sent now self.old) }
        ensures lacks { OnErr result A.Lacks }
    {
        let took = self.lasted(sent, now);
        let times = [took];
        let more = self.run_of(number, took, &times);
        self.last_end = now;
        let text = text_under(portal, &self.portals);
        tally(self.alloc, text, more, &mut self.entries)
    }

    /// A run of this text.
    fn run(&mut self, text: &[u8], number: u64, sent: u64, now: u64) -> Result<(), AllocError>
        ensures ran { OnOk result (self.new ≡ ran text.now number sent now self.old) }
        ensures lacks { OnErr result A.Lacks }
    {
        let took = self.lasted(sent, now);
        let times = [took];
        let more = self.run_of(number, took, &times);
        self.last_end = now;
        tally(self.alloc, text, more, &mut self.entries)
    }

    /// How long a run took whose request was sent and whose answer ended then.
    fn lasted(&self, sent: u64, now: u64) -> u64
        ensures { result ≡ lasted sent now self.now }
    {
        now.saturating_sub(sent.max(self.last_end))
    }

    /// A run by the request of this number, which took so long.
    fn run_of<'b>(&self, number: u64, total: u64, times: &'b [u64]) -> More<'b>
        ensures { result ≡ record { rows = rows_of number self.now; times = times.now; total = total; errors = 0 } }
    {
        More {
            rows: self.rows_of(number),
            times,
            total,
            errors: 0,
        }
    }

    /// Takes note of an error that the server sent for the request of this number. It doesn't end the request, as `end` does.
    ///
    /// # Errors
    ///
    /// Returns `AllocError` if there is no memory for it; then the summary is no longer that of the requests.
    pub fn fail(&mut self, number: u64) -> Result<(), AllocError>
        ensures failed { OnOk result (self.new ≡ failed number self.old) }
        ensures lacks { OnErr result A.Lacks }
    {
        skip(number, &mut self.waiting);
        match first_of(number, &self.waiting) {
            Some(asked) => {
                let text = text_of(asked, &self.statements, &self.portals);
                let error = More {
                    rows: 0,
                    times: &[],
                    total: 0,
                    errors: 1,
                };
                tally(self.alloc, text, error, &mut self.entries)
            }
            None => Ok(()),
        }
    }

    /// Takes note of an answer to the request of this number: those before it get none any more.
    pub fn reach(&mut self, number: u64)
        ensures { self.new ≡ reached number self.old }
    {
        skip(number, &mut self.waiting);
    }

    /// The text that an Execute of this portal runs that is sent now, if all requests before it succeed; `?` where none is known.
    pub fn text_due(&self, portal: &[u8]) -> &[u8]
        ensures { result.now ≡ text_due portal.now self.now }
    {
        let waiting = &self.waiting;
        let bound = last_given(Reply::BindComplete, portal, waiting.len(), waiting);
        let Some((place, statement)) = bound else {
            return text_under(portal, &self.portals);
        };
        match last_given(Reply::ParseComplete, statement, place, waiting) {
            Some((_, text)) => text,
            None => text_under(statement, &self.statements),
        }
    }

    /// Adds the table of another connection: what its statements came to, under the same text or as statements of their own.
    ///
    /// # Errors
    ///
    /// Returns `AllocError` if there is no memory for it; then the summary is no longer that of the requests.
    pub fn add(&mut self, other: &Summary<A>) -> Result<(), AllocError>
        ensures added { OnOk result (self.new ≡ with_runs other.now.tallies self.old) }
        ensures lacks { OnErr result A.Lacks }
    {
        tally_all(self.alloc, &other.entries, &mut self.entries)
    }

    /// The statements that ran: the greatest total first, and equal ones in the order in which the first run or error of each came.
    ///
    /// # Errors
    ///
    /// Returns `AllocError` if there is no memory to sort them.
    pub fn ranked(&self) -> Result<Vec<Entry<'_, A>, A>, AllocError>
        ensures ranked { IfOk result (λ list. list.items ≡ ranked self.now.tallies) }
        ensures lacks { OnErr result A.Lacks }
    {
        let keys = sorted_keys(self.alloc, &self.entries)?;
        let list = entries_by(self.alloc, keys.as_slice(), &self.entries)?;
        Ok(list)
    }
}

/// The text of what a request runs, or is to run.
fn text_of<'a, A: MapMemory>(
    asked: &'a Asked<A>,
    statements: &'a Names<Text<A>, A>,
    portals: &'a Names<Text<A>, A>,
) -> &'a [u8]
    ensures { result.now ≡ text_of asked.now.work asked.now statements.now portals.now }
{
    match asked.work {
        Work::Query => asked.first.as_slice(),
        Work::Parse => asked.second.as_slice(),
        Work::Bind => text_under(asked.second.as_slice(), statements),
        Work::Execute => text_under(asked.first.as_slice(), portals),
    }
}
