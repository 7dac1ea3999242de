//! A column of a row, or a parameter of a statement.

ghost use Rattle.std.specs.Prelude.{◌≡◌};
ghost use Rattle.pgtrace_session.specs.Shelves.{binary_at, is_binary};

/// A column of a row, or a parameter of a statement.
#[derive(Debug, Clone, Copy)]
pub struct Column {
    /// The type of its values.
    pub oid: u32,
    /// Whether they come in binary format.
    pub binary: bool,
    /// How many bytes its name has.
    pub len: usize,
}

/// Whether a format is the binary one.
pub fn is_binary(format: i16) -> bool
    ensures { result ≡ is_binary format }
{
    format == 1
}

/// The format at a place: none are all texts, and one is that of all.
pub fn binary_at(formats: &[bool], at: usize) -> bool
    ensures { result ≡ binary_at formats.now at }
{
    match formats {
        [only] => *only,
        _ => match formats.get(at) {
            Some(format) => *format,
            None => false,
        },
    }
}
