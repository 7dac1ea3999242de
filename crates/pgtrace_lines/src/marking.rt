//! What marks say.

/// What the marks of a listing say.
#[derive(Debug, Clone, Copy)]
pub struct Marking {
    /// Whether times are counted from 1970 on.
    pub absolute: bool,
    /// Whether requests are numbered.
    pub numbered: bool,
    /// Whether a table of what they ran stands in the place of the lines.
    pub summed: bool,
    /// Whether statements that differ in their literals alone are one there.
    pub folded: bool,
    /// Whether values in binary format are shown as their bytes.
    pub raw: bool,
    /// Whether an Execute has its statement's text, and a row the names of its columns.
    pub named: bool,
}
