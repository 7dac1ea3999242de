//! What texts are searched for: operands and operators.

use crate::shown::{Show, Shown};
use crate::word::{Item, Words};
use pgp_values::{TsItem, TsOperand};

// A text, its weights, and whether a lexeme need only begin with it; or an operator.
impl<'w> Item<'w> for TsItem<'w> {
    fn read(words: &mut Words<'w>) -> TsItem<'w> {
        if words.takes("not") {
            return TsItem::Not;
        }
        if words.takes("and") {
            return TsItem::And;
        }
        if words.takes("or") {
            return TsItem::Or;
        }
        if words.takes("phrase") {
            return TsItem::Phrase(words.number());
        }
        TsItem::Operand(TsOperand {
            text: words.text(),
            weights: words.number(),
            is_prefix: words.either("prefix", "whole"),
        })
    }
}

impl Show for TsItem<'_> {
    fn show(self, out: &mut Shown) {
        match self {
            TsItem::Operand(o) => {
                out.text(o.text);
                out.number(o.weights);
                out.word(if o.is_prefix { "prefix" } else { "whole" });
            }
            TsItem::Not => out.word("not"),
            TsItem::And => out.word("and"),
            TsItem::Or => out.word("or"),
            TsItem::Phrase(distance) => {
                out.word("phrase");
                out.number(distance);
            }
        }
    }
}
