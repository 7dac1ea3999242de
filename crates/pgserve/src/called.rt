//! Calls of functions.
//!
//! PostgreSQL manual, "Message Flow", "Function Call".

ghost use Rattle.std.specs.Prelude.{◌≡◌, ◌≢◌, IfNone, IfSome, Some, pos};
ghost use Rattle.std.specs.List.{All};
ghost use Rattle.pgp_frontend.specs.Payload.{Nullable};
ghost use Rattle.pgp_frontend.specs.View.{part_of};
ghost use Rattle.pgserve.specs.Called.{IsCalled, IsCalledNow};
ghost use Rattle.pgserve.specs.First.{IsFirst};
ghost use Rattle.pgserve.specs.Ready.{IsEnded};
ghost use Rattle.pgserve.specs.Sent.{Puts, Returns, returned};
ghost use Rattle.pgserve.specs.declared.script.By.TheVariants.{Function};

use crate::answer::{Went, format_of, put_notices};
use crate::asked::{Refusal, aborted, bad_format, not_supported, put_error, refuse};
use crate::binary::{Unwritten, value_in};
use crate::column::known_type;
use crate::extended::Binding;
use crate::fault::Fault;
use crate::input::{rejects_counts, rejects_values};
use crate::outbox::Outbox;
use crate::reader::Reader;
use crate::row_text::typed;
use crate::script::{By, End, Statement};
use crate::session::Session;
use pgp_base::Oid;
use pgp_frontend::field::{Field, message};

/// The result of this line: its type, and after a space its value; `\N` is a null.
pub(crate) fn result_of(line: &str, reader: &mut Reader) -> End {
    let (name, text) = line.split_once(' ').unwrap_or((line, ""));
    let kind = known_type(name, reader);
    reader.base = name.len().saturating_add(1);
    let value = match text {
        "\\N" => None,
        _ => Some(typed(kind.oid, text, "the value is none of its type", reader)),
    };
    reader.base = 0;
    End::Result(kind.oid, value)
}

/// Appends a FunctionCallResponse of this part.
#[tactic(auto, unfolding(pgp_base::specs::Held::lengthened))]
fn put_result(part: Field<'_>, out: &mut Outbox) -> Went
    ensures { Puts (returned (part_of part.entry)) out.old.bytes.items out.new.bytes.items out.new.fault }
{
    if let Err(why) = message(b'V', &[part], &mut out.bytes) {
        out.fail(Fault::from(why));
    }
    Went::Well
}

/// Appends a result of this type in this format, or the error that it can't be sent so.
fn put_value(oid: Oid, value: &[u8], format: i16, out: &mut Outbox) -> Went
    ensures { format ≡ pos 0 → Puts (returned (Nullable (Some value.now))) out.old.bytes.items out.new.bytes.items out.new.fault }
{
    if format == 0 {
        return put_result(Field::Sized(value), out);
    }
    let refusal = match value_in(out.alloc, format, oid, value) {
        _ if format != 1 => bad_format(),
        Ok(bytes) => return put_result(Field::Sized(&bytes), out),
        Err(Unwritten::Memory) => {
            out.lack();
            return Went::Wrong;
        }
        Err(_) => not_supported(),
    };
    refuse(refusal, out);
    Went::Wrong
}

/// Appends how a call ends, whose result is asked for in this format. That of a null, -1 in the place of a length, isn't looked at.
fn put_end(statement: &Statement, format: i16, out: &mut Outbox) -> Went
    ensures { Returns statement.now.end format out.old.bytes.items out.new.bytes.items out.new.fault }
{
    match &statement.end {
        End::Result(oid, Some(value)) => put_value(*oid, value, format, out),
        End::Error(report) => {
            put_error(report, out);
            Went::Wrong
        }
        _ => put_result(Field::Int32(-1), out),
    }
}

impl<'h> Session<'h> {
    /// The script's first answer to a call of this function.
    fn first_called(&self, function: Oid) -> Option<&'h Statement>
        ensures some { IfSome result (λ first. IsFirst (λ other. other.by ≡ Function function) self.now.script.now.statements.items first.now) }
        ensures none { IfNone result (All (λ other. other.by ≢ Function function) self.now.script.now.statements.items) }
    {
        let wanted = By::Function(function);
        self.script.statements.iter().find(|s| s.by == wanted)
    }

    /// The answer of this time, by the first one. One to something else is none.
    fn called_now(&self, first: &'h Statement) -> &'h Statement
        ensures by { result.now.by ≡ first.now.by }
        ensures now { IsCalledNow self.now.turns.items self.now.script.now.statements.items first.now result.now }
    {
        let found = self.now(first);
        if found.by == first.by { found } else { first }
    }

    /// The script's answer of this time to a call of this function.
    fn called(&self, function: Oid) -> Option<&'h Statement>
        ensures some { IfSome result (λ statement. IsCalled function self.now.turns.items self.now.script.now.statements.items statement.now) }
        ensures none { IfNone result (All (λ other. other.by ≢ Function function) self.now.script.now.statements.items) }
    {
        match self.first_called(function) {
            Some(first) => Some(self.called_now(first)),
            None => None,
        }
    }

    /// Appends the error of a call of a function that the script doesn't have.
    fn miss(&mut self, function: Oid, out: &mut Outbox) {
        match format!(in out.alloc; "{function}") {
            Ok(number) => {
                let (front, number) = ("function with OID ", number.as_bytes());
                self.stop(Refusal::of("42883", front, number, " does not exist"), out);
            }
            Err(_) => out.lack(),
        }
    }

    /// Appends what a function comes to that the script has.
    fn run(&mut self, statement: &'h Statement, call: &Binding<'_>, out: &mut Outbox) {
        let types = &statement.parameters;
        let refusal = rejects_counts(types, call).or(rejects_values(types, call, out));
        if let Some(refusal) = refusal {
            return self.stop(refusal, out);
        }
        let start = out.len();
        put_notices(statement, out);
        let went = put_end(statement, format_of(call.results, 0), out);
        self.leave(statement, went, start, out);
    }

    /// Answers a call of this function, whose arguments stand as the values of a binding.
    pub(crate) fn call(&mut self, function: Oid, call: &Binding<'_>, out: &mut Outbox)
        ensures { IsEnded self.new.transaction.status self.new.later.items out.new.bytes.items out.new.fault }
    {
        match self.called(function) {
            _ if self.transaction.status.rejects(false) => self.stop(aborted(), out),
            Some(statement) => self.run(statement, call, out),
            None => self.miss(function, out),
        }
        self.end_query(out);
    }
}
