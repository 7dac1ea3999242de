//! The last steps of RFC 4013: which texts are rejected.

ghost use Rattle.std.specs.Prelude.{◌≡◌, chars};
ghost use Rattle.pgp_saslprep.specs.SaslPrep.{has, begins, ends, is_prohibited, is_one_way, is_refused};
ghost use Rattle.pgp_saslprep.specs.Table.{in_table, IsRising};
ghost use Rattle.pgp_saslprep.specs.Tables.{a_1};

use crate::mapping::lists;
use crate::tables;

// Whether the table lists a character of the text.
fn has_any(table: &[(u32, u32)], text: &str) -> bool
    requires { IsRising table.now }
    ensures { result ≡ has table.now (chars text.now) }
{
    for c in text.chars() {
        if lists(table, c) {
            return true;
        }
    }
    false
}

// Whether the table lists the text's first character.
fn begins_with(table: &[(u32, u32)], text: &str) -> bool
    requires { IsRising table.now }
    ensures { result ≡ begins table.now (chars text.now) }
{
    match text.chars().next() {
        Some(c) => lists(table, c),
        None => false,
    }
}

// Whether the table lists the text's last character.
fn ends_with(table: &[(u32, u32)], text: &str) -> bool
    requires { IsRising table.now }
    ensures { result ≡ ends table.now (chars text.now) }
{
    let mut listed = false;
    for c in text.chars() {
        listed = lists(table, c);
    }
    listed
}

// Whether the text has a character of section 2.3 of RFC 4013.
#[tactic(auto, unfolding(crate::specs::SaslPrep::is_prohibited))]
fn has_prohibited(text: &str) -> bool
    ensures { result ≡ is_prohibited (chars text.now) }
{
    has_any(tables::c_1_2_ranges(), text)
        || has_any(tables::c_2_1_ranges(), text)
        || has_any(tables::c_2_2_ranges(), text)
        || has_any(tables::c_3_ranges(), text)
        || has_any(tables::c_4_ranges(), text)
        || has_any(tables::c_5_ranges(), text)
        || has_any(tables::c_6_ranges(), text)
        || has_any(tables::c_7_ranges(), text)
        || has_any(tables::c_8_ranges(), text)
        || has_any(tables::c_9_ranges(), text)
}

// Whether the text goes one way, by section 6 of RFC 3454.
#[tactic(auto, unfolding(crate::specs::SaslPrep::is_one_way))]
fn goes_one_way(text: &str) -> bool
    ensures { result ≡ is_one_way (chars text.now) }
{
    !has_any(tables::d_1_ranges(), text)
        || (!has_any(tables::d_2_ranges(), text)
            && begins_with(tables::d_1_ranges(), text)
            && ends_with(tables::d_1_ranges(), text))
}

// Whether the text has a code point that Unicode 3.2 doesn't assign.
pub(crate) fn has_unassigned(text: &str) -> bool
    ensures { result ≡ has a_1 (chars text.now) }
{
    has_any(tables::a_1_ranges(), text)
}

// Whether a mapped and normalized text is rejected.
#[tactic(auto, unfolding(crate::specs::SaslPrep::is_refused))]
pub(crate) fn refuses(text: &str) -> bool
    ensures { result ≡ is_refused (chars text.now) }
{
    has_prohibited(text) || !goes_one_way(text) || has_unassigned(text)
}
