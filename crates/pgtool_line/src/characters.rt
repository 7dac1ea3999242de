//! The characters that a terminal prints.

ghost use Rattle.std.specs.Prelude.{◌≡◌, ◌||◌};
ghost use Rattle.pgtool_line.specs.Quoting.{is_ignorable, is_printable, is_spacing, is_special, is_unassigned, is_visible, is_within};

use ucd_category::GeneralCategory;

/// Whether a terminal prints the character, in its place.
pub fn is_printable(c: char) -> bool
    ensures { result ≡ is_printable c }
{
    let code = c as u32;
    if code < 128 {
        return 32 <= code && code <= 126;
    }
    !is_hidden(code) && !is_unassigned(c)
}

/// Whether a byte is a character of ASCII that is printed.
pub fn is_visible(byte: u8) -> bool
    ensures { result ≡ is_visible byte }
{
    32 <= byte && byte <= 126
}

fn is_hidden(code: u32) -> bool
    ensures { result ≡ (is_spacing code || is_ignorable code || is_special code) }
{
    is_spacing(code) || is_ignorable(code) || is_special(code)
}

/// Whether Unicode 18 assigns no character to the code.
fn is_unassigned(c: char) -> bool
    ensures { result ≡ is_unassigned c }
{
    GeneralCategory::for_char(c) == GeneralCategory::Unassigned
}

/// Controls, blanks, and marks of width and direction.
fn is_spacing(code: u32) -> bool
    ensures { result ≡ is_spacing code }
{
    is_within(0x7F, 0xA0, code)
        || is_within(0xAD, 0xAD, code)
        || is_within(0x1680, 0x1680, code)
        || is_within(0x2000, 0x200F, code)
        || is_within(0x2028, 0x202F, code)
        || is_within(0x205F, 0x206F, code)
        || is_within(0x2800, 0x2800, code)
        || is_within(0x3000, 0x3000, code)
}

/// What prints nothing.
fn is_ignorable(code: u32) -> bool
    ensures { result ≡ is_ignorable code }
{
    is_within(0x034F, 0x034F, code)
        || is_within(0x061C, 0x061C, code)
        || is_within(0x115F, 0x1160, code)
        || is_within(0x17B4, 0x17B5, code)
        || is_within(0x180B, 0x180F, code)
        || is_within(0x3164, 0x3164, code)
        || is_within(0xFE00, 0xFE0F, code)
        || is_within(0xFEFF, 0xFEFF, code)
        || is_within(0xFFA0, 0xFFA0, code)
}

/// What is private, or says how others stand.
fn is_special(code: u32) -> bool
    ensures { result ≡ is_special code }
{
    is_within(0xE000, 0xF8FF, code)
        || is_within(0xFFF0, 0xFFFF, code)
        || is_within(0x13430, 0x1345F, code)
        || is_within(0x1BCA0, 0x1BCA3, code)
        || is_within(0x1D173, 0x1D17A, code)
        || is_within(0xE0000, 0x10FFFF, code)
}

fn is_within(first: u32, last: u32, code: u32) -> bool
    ensures { result ≡ is_within first last code }
{
    first <= code && code <= last
}
