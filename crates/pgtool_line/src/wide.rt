//! Numbers of 64 bits that a replication stream has: a clock, and a place in the write-ahead log.
#![tactic(auto, unfolding(crate::specs::Line::extended))]

ghost use Rattle.std.specs.Prelude.{◌≡◌, ◌∷◌, ◌++◌, [], OnErr, OnOk, string_bytes};
ghost use Rattle.pgtool_line.specs.Line.{Lsn, Number, followed, lsn};

use crate::nesting::put_comma;
use crate::style::{Form, Style};
use pgp_base::Memory;
use std::alloc::AllocError;

/// Adds a number that may have a sign.
pub fn put_wide<A: Memory>(style: Style, n: i64, line: &mut String<A>) -> Result<(), AllocError>
    ensures part { OnOk result (string_bytes line.new ≡ followed style (string_bytes line.old) (Number n ∷ [])) }
    ensures lacks { OnErr result A.Lacks }
{
    match style.form {
        Form::Columns => A::push_shown(line, format_args!(" {n}")),
        Form::Json => {
            put_comma(line)?;
            A::push_shown(line, format_args!("{n}"))
        }
    }
}

/// Adds a place in the write-ahead log.
pub fn put_lsn<A: Memory>(style: Style, n: u64, line: &mut String<A>) -> Result<(), AllocError>
    ensures part { OnOk result (string_bytes line.new ≡ followed style (string_bytes line.old) (Lsn n ∷ [])) }
    ensures lacks { OnErr result A.Lacks }
{
    match style.form {
        Form::Columns => {
            A::push_char(line, ' ')?;
            put_halves(n, line)
        }
        Form::Json => {
            put_comma(line)?;
            A::push_char(line, '"')?;
            put_halves(n, line)?;
            A::push_char(line, '"')
        }
    }
}

/// Adds the upper and the lower 32 bits of a number, in hex.
#[tactic(auto, unfolding(crate::specs::Line::lsn))]
fn put_halves<A: Memory>(n: u64, line: &mut String<A>) -> Result<(), AllocError>
    ensures text { OnOk result (string_bytes line.new ≡ string_bytes line.old ++ lsn n) }
    ensures lacks { OnErr result A.Lacks }
{
    let upper = n / 0x1_0000_0000;
    let lower = n % 0x1_0000_0000;
    A::push_shown(line, format_args!("{upper:X}/{lower:X}"))
}
