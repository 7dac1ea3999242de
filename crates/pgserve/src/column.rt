//! What the lines of columns say, and which columns a further answer has.

use crate::part::{COPY_ALONE, format_of};
use crate::reader::Reader;
use crate::script::{Column, Role, Statement};
use crate::types::{PLAIN_TEXT, Type, type_of};

/// The type of this name.
pub(crate) fn known_type(name: &str, reader: &mut Reader) -> Type {
    reader.found(type_of(name), "no type has this name", PLAIN_TEXT)
}

/// The column of this line: its name, and after the last space its type.
fn column_of(line: &str, reader: &mut Reader) -> Column {
    let parts = line.rsplit_once(' ');
    if parts.is_none() {
        reader.wrong("a column has a name and, after a space, a type");
    }
    let (name, kind) = parts.unwrap_or(("", ""));
    reader.base = name.len().saturating_add(1);
    let kind = known_type(kind, reader);
    reader.base = 0;
    Column {
        kind,
        name: reader.text(name),
        table: 0,
        number: 0,
        modifier: -1,
        only: None,
    }
}

impl Column {
    /// Takes what a line of this first word says of the column.
    fn take(&mut self, word: &str, rest: &str, reader: &mut Reader) {
        match word {
            "table" => {
                let (table, number) = rest.split_once(' ').unwrap_or((rest, ""));
                self.table = reader.count(table, 0);
                let number = reader.count(number, table.len().saturating_add(1));
                self.number = i16::try_from(number).unwrap_or(i16::MAX);
            }
            "modifier" => {
                self.modifier = reader.found(rest.parse().ok(), "a number stands here", -1);
            }
            _ => {
                let wanted = "a format is text or binary";
                self.only = Some(reader.found(format_of(rest), wanted, 0));
            }
        }
    }

    /// The same column.
    fn copied(&self, reader: &mut Reader) -> Column {
        Column {
            name: reader.out.copy(&self.name),
            kind: self.kind,
            table: self.table,
            number: self.number,
            modifier: self.modifier,
            only: self.only,
        }
    }
}

/// The same columns.
fn columns_of(columns: &[Column], reader: &mut Reader) -> Vec<Column> {
    let mut list = Vec::new(reader.out.alloc);
    for column in columns {
        let column = column.copied(reader);
        reader.out.add(&mut list, column);
    }
    list
}

impl Statement {
    /// Adds a column; rows stand after all of them.
    pub(crate) fn add_column(&mut self, line: &str, reader: &mut Reader) {
        if self.copy.is_some() {
            return reader.wrong_first(COPY_ALONE);
        }
        if !self.rows.is_empty() {
            return reader.wrong("columns stand above the rows");
        }
        if self.has_old_columns {
            self.columns.clear();
            self.has_old_columns = false;
        }
        let column = column_of(line, reader);
        reader.out.add(&mut self.columns, column);
    }

    /// Adds what a line says of the last column; the rows stand after it.
    pub(crate) fn add_to_column(&mut self, word: &str, rest: &str, reader: &mut Reader) {
        let is_late = !self.rows.is_empty();
        match self.columns.last_mut() {
            Some(column) if !is_late => column.take(word, rest, reader),
            _ => reader.wrong("this line stands below a `column`, above the rows"),
        }
    }

    /// A further answer to the same statement, which begins at this line. The next time has the columns of this one, where it says none.
    pub(crate) fn further(&self, role: Role, reader: &mut Reader) -> Statement {
        let text = reader.out.copy(&self.text);
        let words = reader.string(&self.words);
        let mut further = Statement::new(self.by, text, words, reader);
        further.place = self.place.saturating_add(1);
        further.first = self.first;
        further.role = role;
        further.has_old_columns = role == Role::Then;
        further.parameters = reader.out.copy(&self.parameters);
        if role == Role::Then {
            further.columns = columns_of(&self.columns, reader);
        }
        further
    }
}
