//! What is read of the lines of a script.

use crate::outbox::Outbox;
use crate::text::add_unescaped;
use crate::wrong::Place;
use std::alloc::Global;

/// Reads the parts of a line. The first fault is kept, and the caller looks for it behind the line, so that what reads a part gives something
/// in any case.
#[derive(Drop)]
pub(crate) struct Reader {
    /// Memory for what is read, and whether it was lacking.
    pub(crate) out: Outbox,
    /// The line, from 1 on, and the column behind its first word and its blank.
    pub(crate) line: usize,
    column: usize,
    /// Where what is read begins, after that.
    pub(crate) base: usize,
    pub(crate) fault: Option<Place>,
}

impl Reader {
    pub(crate) fn new(alloc: Global) -> Reader {
        Reader {
            out: Outbox::new(alloc),
            line: 0,
            column: 1,
            base: 0,
            fault: None,
        }
    }

    /// Begins the next line.
    pub(crate) fn begin_line(&mut self) {
        self.line = self.line.saturating_add(1);
        self.column = 1;
    }

    /// Passes the first word of the line and its blank.
    pub(crate) fn pass(&mut self, word: &str) {
        self.column = word.len().saturating_add(2);
    }

    /// Takes note of a fault that stands in this line, in this column, of which the first counts.
    pub(crate) fn fail(&mut self, wanted: &'static str, line: usize, column: usize) {
        if self.fault.is_none() {
            self.fault = Some(Place {
                line,
                column,
                wanted,
            });
        }
    }

    /// The same of the first word of the line.
    pub(crate) fn wrong_first(&mut self, wanted: &'static str) {
        self.fail(wanted, self.line, 1);
    }

    /// The same of what stands so many bytes after the beginning.
    pub(crate) fn wrong_at(&mut self, wanted: &'static str, at: usize) {
        let column = self.column.saturating_add(self.base).saturating_add(at);
        self.fail(wanted, self.line, column);
    }

    pub(crate) fn wrong(&mut self, wanted: &'static str) {
        self.wrong_at(wanted, 0);
    }

    /// What was found; or this, and a fault.
    pub(crate) fn found<T: Drop>(&mut self, found: Option<T>, wanted: &'static str, other: T) -> T {
        match found {
            Some(found) => found,
            None => {
                self.wrong(wanted);
                other
            }
        }
    }

    /// Appends an item to a list, where it is wrong that there is none.
    pub(crate) fn add_to<T: Drop>(
        &mut self,
        list: Option<&mut Vec<T>>,
        item: T,
        wanted: &'static str,
    ) {
        match list {
            Some(list) => self.out.add(list, item),
            None => {
                drop(item);
                self.wrong(wanted);
            }
        }
    }

    /// A text without its escapes, in which no byte 0 stands, as in no text of a message.
    pub(crate) fn text(&mut self, text: &str) -> Vec<u8> {
        let bytes = self.raw(text);
        if bytes.contains(&0) {
            self.wrong("no byte 0 stands in a text");
        }
        bytes
    }

    /// Bytes without their escapes.
    pub(crate) fn raw(&mut self, text: &str) -> Vec<u8> {
        let mut bytes = Vec::new(self.out.alloc);
        match add_unescaped(text, &mut bytes) {
            Ok(true) => {}
            Ok(false) => self.wrong("a backslash stands before \\, n, r, t, or x and two digits"),
            Err(_) => self.out.lack(),
        }
        bytes
    }

    /// A text as it stands there.
    pub(crate) fn string(&mut self, text: &str) -> String {
        let mut string = String::new(self.out.alloc);
        self.out.keep(string.push_str(text));
        string
    }

    /// A number, which stands so many bytes after the beginning.
    pub(crate) fn count(&mut self, word: &str, at: usize) -> u32 {
        match word.parse() {
            Ok(count) => count,
            Err(_) => {
                self.wrong_at("a number stands here", at);
                0
            }
        }
    }
}
