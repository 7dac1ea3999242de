//! The codes of a request that a server takes.

ghost use Rattle.std.specs.Prelude.{◌≡◌, length};
ghost use Rattle.std.specs.List.{list_all};
ghost use Rattle.for_c.specs.Requests.{are_bound, is_format, is_target, suits};

/// What is described or closed: a statement or a portal.
pub fn is_target(variant: u8) -> bool
    ensures { result ≡ is_target variant }
{
    variant == b'S' || variant == b'P'
}

/// The formats of so many values and those of the results are formats, and suit the values.
pub fn are_bound(formats: &[i16], values: usize, results: &[i16]) -> bool
    ensures { result ≡ are_bound formats.now values results.now }
{
    suits(formats.len(), values) && (are_formats(formats) && are_formats(results))
}

/// So many formats are none, one for all values, or one for each.
fn suits(formats: usize, values: usize) -> bool
    ensures { result ≡ suits formats values }
{
    formats < 2 || formats == values
}

/// Each code is a format's.
pub fn are_formats(codes: &[i16]) -> bool
    ensures { result ≡ list_all is_format codes.now }
{
    for code in codes {
        if !is_format(*code) {
            return false;
        }
    }
    true
}

/// The code is that of text or of binary.
fn is_format(code: i16) -> bool
    ensures { result ≡ is_format code }
{
    match code {
        0 | 1 => true,
        _ => false,
    }
}
