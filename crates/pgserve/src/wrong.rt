//! Faults of a script.

/// What should stand at a place of a script, where something else does.
#[derive(Clone, Copy)]
pub(crate) struct Place {
    pub(crate) line: usize,
    /// The byte in the line, from 1 on.
    pub(crate) column: usize,
    pub(crate) wanted: &'static str,
}

impl Place {
    /// What stands there: what goes on to the next blank, of the text of the script.
    pub(crate) fn seen(self, text: &str) -> &str {
        let line = text.lines().nth(self.line.saturating_sub(1)).unwrap_or("");
        let rest = line.get(self.column.saturating_sub(1)..).unwrap_or("");
        let (word, _) = rest.split_once('\t').unwrap_or((rest, ""));
        let (word, _) = word.split_once(' ').unwrap_or((word, ""));
        word
    }
}
