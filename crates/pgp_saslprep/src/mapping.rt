//! Tables looked up, and the first step of RFC 4013: what is mapped to a space or to nothing.

ghost use Rattle.std.specs.Prelude.{◌≡◌, [], ◌∷◌, ◌++◌, chars, string_bytes, encode_utf8_all, IfOk, OnOk, OnErr};
ghost use Rattle.pgp_saslprep.specs.SaslPrep.{mapped_text};
ghost use Rattle.pgp_saslprep.specs.Table.{in_table, IsRising};

use crate::tables::{b_1_ranges, c_1_2_ranges};
use pgp_base::Memory;
use std::alloc::AllocError;

// Whether the table lists the character. It is halved until what is left holds no range or the character's.
pub(crate) fn lists(table: &[(u32, u32)], c: char) -> bool
    requires { IsRising table.now }
    ensures { result ≡ in_table table.now c }
{
    let code = c as u32;
    let mut low = 0;
    let mut high = table.len();
    while low < high {
        let mid = low + (high - low) / 2;
        let (first, last) = table[mid];
        if last < code {
            low = mid + 1;
        } else if code < first {
            high = mid;
        } else {
            return true;
        }
    }
    false
}

#[tactic(auto, using(crate::proofs::Mapped::as_space, crate::proofs::Mapped::as_nothing, crate::proofs::Mapped::as_itself))]
// Appends what the character is mapped to. U+200B, which both tables list, is a space.
fn push_mapped<A: Memory>(out: &mut String<A>, c: char) -> Result<(), AllocError>
    ensures ok { OnOk result (string_bytes out.new ≡ string_bytes out.old ++ encode_utf8_all (mapped_text (c ∷ []))) }
    ensures lacks { OnErr result A.Lacks }
{
    if lists(c_1_2_ranges(), c) {
        return A::push_char(out, ' ');
    }
    if lists(b_1_ranges(), c) {
        return Ok(());
    }
    A::push_char(out, c)
}

// The text, each character mapped.
pub(crate) fn map_text<A: Memory>(alloc: A, text: &str) -> Result<String<A>, AllocError>
    ensures ok { IfOk result (λ t. string_bytes t ≡ encode_utf8_all (mapped_text (chars text.now))) }
    ensures lacks { OnErr result A.Lacks }
{
    let mut out = A::text_with_capacity(alloc, text.len())?;
    for c in text.chars() {
        push_mapped(&mut out, c)?;
    }
    Ok(out)
}
