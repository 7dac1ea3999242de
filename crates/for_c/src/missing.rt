//! How many bytes are missing to a complete message.

ghost use Rattle.std.specs.Prelude.{◌≡◌, drop};
ghost use Rattle.for_c.specs.MissingReading.{missing_from};

use pgp_base::reading::oid_at;

/// How many bytes are missing where a length stands after so many of them; 0 where it isn't complete.
pub fn missing(bytes: &[u8], at: usize) -> usize
    ensures { result ≡ missing_from (drop at bytes.now) }
{
    let rest = bytes.get(at..).unwrap_or(&[]);
    match oid_at(rest) {
        Ok((len, _)) => (len as usize).saturating_sub(rest.len()),
        Err(_) => 0,
    }
}
