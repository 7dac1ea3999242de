//! Which of the script's answers to a statement is that of this time.

ghost use Rattle.std.specs.Prelude.{◌≡◌, ◌≢◌, IfNone, IfSome};
ghost use Rattle.std.specs.List.{All};
ghost use Rattle.pgserve.specs.Called.{IsOfNow};
ghost use Rattle.pgserve.specs.First.{IsFirst};

use crate::outbox::Outbox;
use crate::script::Statement;
use crate::session::{Asks, Session};
use crate::wording::Wording;

impl<'h> Session<'h> {
    /// The script's answer to this statement: that to which it was bound, or the first to such a statement.
    pub(crate) fn scripted(&self, statement: &Wording, out: &mut Outbox) -> Option<&'h Statement> {
        match statement.place {
            Some(place) => self.script.statements.get(place),
            None => Some(self.now(self.script.find(statement, out)?)),
        }
    }

    /// The turn of the statement whose first answer stands at this place.
    fn turn_of(&self, first: usize) -> Option<&(usize, usize)>
        ensures some { IfSome result (λ turn. IsFirst (λ other. other.0 ≡ first) self.now.turns.items turn.now) }
        ensures none { IfNone result (All (λ other. other.0 ≢ first) self.now.turns.items) }
    {
        self.turns.iter().find(|turn| turn.0 == first)
    }

    /// The answer of this time, by the first one.
    pub(crate) fn now(&self, first: &'h Statement) -> &'h Statement
        ensures { IsOfNow self.now.turns.items self.now.script.now.statements.items first.now result.now }
    {
        match self.turn_of(first.place) {
            Some(turn) => self.script.statements.get(turn.1).unwrap_or(first),
            None => first,
        }
    }

    /// Has the next answer to a statement as that of the next time, once this one was given. The last is that of all times from then on.
    pub(crate) fn turn(&mut self, given: &Statement, out: &mut Outbox) {
        let Some(next) = self.script.turn_after(given.place) else {
            return;
        };
        for (of, place) in self.turns.iter_mut() {
            if *of == given.first {
                *place = next.max(*place);
                return;
            }
        }
        out.add(&mut self.turns, (given.first, next));
    }

    /// The place of the script's answer to this statement, if it has one.
    pub(crate) fn place_of(&self, statement: &Wording, out: &mut Outbox) -> Option<usize> {
        match self.asks(statement, out) {
            Asks::Scripted(scripted) => Some(scripted.place),
            _ => None,
        }
    }
}
