//! Amounts of money.

ghost use Rattle.std.specs.Prelude.{◌≡◌, ◌++◌, ◌∷◌, ◌/◌, ◌%◌, ◌<◌, OnErr, OnOk};
ghost use Rattle.jiff_fmt.specs.Text.{pad2};
ghost use Rattle.pgp_values.specs.System.{money};
ghost use Rattle.pgp_value_text.specs.Money.{comma_before, grouped, money_text};
ghost use Rattle.pgp_value_text.specs.ValueText.{As, Shows, Tells};

use crate::put::put_raw;
use bytes::BytesMut;
use itoa::Buffer;
use pgp_base::Memory;
use pgp_values::money_from_sql;
use std::alloc::AllocError;

// Adds a digit behind which so many stand.
fn push_digit<A: Memory>(digit: u8, left: usize, out: &mut Vec<u8, A>) -> Result<(), AllocError>
    ensures ok { OnOk result (out.new.items ≡ out.old.items ++ digit ∷ comma_before left) }
    ensures lacks { OnErr result A.Lacks }
{
    if left > 0 && left % 3 == 0 {
        A::extend(out, &[digit, b','])
    } else {
        A::extend(out, &[digit])
    }
}

// Adds digits in groups of three.
fn push_grouped<A: Memory>(digits: &[u8], out: &mut Vec<u8, A>) -> Result<(), AllocError>
    ensures ok { OnOk result (out.new.items ≡ out.old.items ++ grouped digits.now) }
    ensures lacks { OnErr result A.Lacks }
{
    let mut rest = digits;
    'digits: while let [digit, more @ ..] = rest {
        push_digit(*digit, more.len(), out)?;
        rest = more;
    }
    Ok(())
}

// Adds a point and the digits of hundredths.
fn push_cents<A: Memory>(cents: u8, out: &mut Vec<u8, A>) -> Result<(), AllocError>
    requires { cents < 100 }
    ensures ok { OnOk result (out.new.items ≡ out.old.items ++ 46 ∷ pad2 cents) }
    ensures lacks { OnErr result A.Lacks }
{
    A::extend(out, &[b'.', 48 + cents / 10, 48 + cents % 10])
}

// Adds an amount of hundredths.
fn put_amount<A: Memory>(amount: i64, text: &mut BytesMut<A>) -> Result<bool, AllocError>
    ensures { Tells (λ t. t ≡ money_text amount) A.Lacks text.old.items text.new.items result }
{
    let n = amount.unsigned_abs();
    let mut shown = Vec::new(*text.allocator());
    if amount < 0 {
        A::extend(&mut shown, b"-")?;
    }
    A::extend(&mut shown, b"$")?;
    push_grouped(Buffer::new().format(n / 100).as_bytes(), &mut shown)?;
    push_cents((n % 100) as u8, &mut shown)?;
    put_raw(&shown, text)
}

/// Adds the text of a `money`.
pub(crate) fn put_money<A: Memory>(bytes: &[u8], text: &mut BytesMut<A>) -> Result<bool, AllocError>
    ensures { Tells (Shows money (As money_text) bytes.now) A.Lacks text.old.items text.new.items result }
{
    match money_from_sql(bytes) {
        Ok(amount) => put_amount(amount, text),
        Err(_) => Ok(false),
    }
}
