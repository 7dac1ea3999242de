//! Bytes as hex digits.

ghost use Rattle.std.specs.Prelude.{◌≡◌, ◌<◌, ◌∷◌, ◌++◌, [], OnErr, OnOk, string_bytes};
ghost use Rattle.std.specs.List.{flat_map};
ghost use Rattle.pgtool_line.specs.Quoting.{digits, hex_byte, hex_digit, hex_escape};

use crate::style::Form;
use pgp_base::Memory;
use std::alloc::AllocError;

/// Adds `\x` and the hex digits of each byte.
pub fn put_digits<A: Memory>(bytes: &[u8], line: &mut String<A>) -> Result<(), AllocError>
    ensures text { OnOk result (string_bytes line.new ≡ string_bytes line.old ++ digits bytes.now) }
    ensures lacks { OnErr result A.Lacks }
{
    A::push_str(line, "\\x")?;
    put_hexes(bytes, line)
}

/// Adds the hex digits of each byte.
pub fn put_hexes<A: Memory>(bytes: &[u8], line: &mut String<A>) -> Result<(), AllocError>
    ensures text { OnOk result (string_bytes line.new ≡ string_bytes line.old ++ flat_map hex_byte bytes.now) }
    ensures lacks { OnErr result A.Lacks }
{
    for byte in bytes {
        put_hex(*byte, line)?;
    }
    Ok(())
}

/// Adds the hex digits of a byte after a backslash and an `x`, or after what JSON has for it.
pub fn put_escape<A: Memory>(form: Form, byte: u8, line: &mut String<A>) -> Result<(), AllocError>
    ensures text { OnOk result (string_bytes line.new ≡ string_bytes line.old ++ hex_escape form byte) }
    ensures lacks { OnErr result A.Lacks }
{
    match form {
        Form::Columns => A::push_str(line, "\\x")?,
        Form::Json => A::push_str(line, "\\u00")?,
    }
    put_hex(byte, line)
}

/// Adds the two hex digits of a byte.
pub fn put_hex<A: Memory>(byte: u8, line: &mut String<A>) -> Result<(), AllocError>
    ensures text { OnOk result (string_bytes line.new ≡ string_bytes line.old ++ hex_byte byte) }
    ensures lacks { OnErr result A.Lacks }
{
    put_ascii(hex_digit(byte / 16), line)?;
    put_ascii(hex_digit(byte % 16), line)
}

fn hex_digit(n: u8) -> u8
    requires { n < 16 }
    ensures digit { result ≡ hex_digit n }
    ensures ascii { result < 128 }
{
    if n <= 9 { b'0' + n } else { b'W' + n }
}

/// Adds a character of ASCII.
pub fn put_ascii<A: Memory>(byte: u8, line: &mut String<A>) -> Result<(), AllocError>
    requires { byte < 128 }
    ensures text { OnOk result (string_bytes line.new ≡ string_bytes line.old ++ byte ∷ []) }
    ensures lacks { OnErr result A.Lacks }
{
    A::push_char(line, byte as char)
}
