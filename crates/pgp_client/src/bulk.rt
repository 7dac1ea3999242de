//! Rows and data of a copy, which come in any number.

ghost use Rattle.std.specs.Prelude.{◌≡◌};
ghost use Rattle.pgp_client.specs.Taking.{goes_on, takes_data, takes_rows};

use crate::kind::Kind;
use crate::stage::Stage;

/// Whether the message is one more of those that come in any number, after which the stage is the same: a row, or data of a copy
/// from the server.
#[inline(always)]
pub(crate) fn goes_on(stage: Stage, kind: Kind) -> bool
    ensures { result ≡ goes_on stage kind }
{
    match kind {
        Kind::DataRow => takes_rows(stage),
        Kind::CopyData => takes_data(stage),
        _ => false,
    }
}

/// Whether one more row may come.
#[inline(always)]
fn takes_rows(stage: Stage) -> bool
    ensures { result ≡ takes_rows stage }
{
    match stage {
        Stage::Rows | Stage::Returning => true,
        _ => false,
    }
}

/// Whether more data of a copy from the server may come.
#[inline(always)]
fn takes_data(stage: Stage) -> bool
    ensures { result ≡ takes_data stage }
{
    match stage {
        Stage::CopyingOut | Stage::CopyingBoth | Stage::CopiedBoth | Stage::GivingCopy => true,
        _ => false,
    }
}
