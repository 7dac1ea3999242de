//! The columns of a row description.

ghost use Rattle.std.specs.Prelude.{◌≡◌, ◌≤◌, length, MatchResult, Some};
ghost use Rattle.std.specs.Str.{IsUtf8};
ghost use Rattle.pgp_base.specs.Items.{CountedItems};
ghost use Rattle.pgp_base.specs.PartReading.{Answers};
ghost use Rattle.pgp_message.specs.Items.{ColumnRefused, ColumnSpelled, FieldPart};
ghost use Rattle.pgp_message.specs.ItemReading.{column_at};

use crate::walk::{Name, ReadName};
use pgp_base::reading::{int16_at, int32_at, oid_at};
use pgp_base::{Counted, Error, FallibleIterator, Oid, text};
use std::marker::{Model, PhantomData};

/// A column of a row.
#[derive(Drop)]
pub struct Field<'a, T: Name = &'a str> {
    name: T,
    table_oid: Oid,
    column_id: i16,
    type_oid: Oid,
    type_size: i16,
    type_modifier: i32,
    format: i16,
    bytes: PhantomData<&'a [u8]>,
}

/// A column of a row, whose name need not be text.
pub type RawField<'a> = Field<'a, &'a [u8]>;

impl<'a, T: Name> Model for Field<'a, T> {
    ghost use Rattle.pgp_message.specs.Items.{FieldPart};

    ghost Value = { FieldPart };

    ghost view = { λ field. record {
      name = T.bytes_of field.name;
      table_oid = field.table_oid;
      column_id = field.column_id;
      type_oid = field.type_oid;
      type_size = field.type_size;
      type_modifier = field.type_modifier;
      format = field.format;
    } };
}

impl<'a> Field<'a, &'a str> {
    /// The column's name.
    pub fn name(&self) -> &'a str
        ensures { result.now ≡ self.now.name }
    {
        self.name
    }
}

impl<'a> Field<'a, &'a [u8]> {
    /// The column's name, whether it is text or not.
    pub fn name_bytes(&self) -> &'a [u8]
        ensures { result.now ≡ self.now.name }
    {
        self.name
    }

    /// The column's name as text.
    ///
    /// # Errors
    ///
    /// Returns `NotUtf8` if it isn't text.
    pub fn name(&self) -> Result<&'a str, Error>
        ensures { MatchResult result (λ text. text.now ≡ self.now.name) (λ e. (e ≡ Error.NotUtf8) × ¬ IsUtf8 self.now.name) }
    {
        text(self.name)
    }
}

impl<'a, T: Name> Field<'a, T> {
    /// The table that the column stands in, or 0.
    pub fn table_oid(&self) -> Oid
        ensures { result ≡ self.now.table_oid }
    {
        self.table_oid
    }

    /// The column's number in its table, or 0.
    pub fn column_id(&self) -> i16
        ensures { result ≡ self.now.column_id }
    {
        self.column_id
    }

    /// The type of the column's values.
    pub fn type_oid(&self) -> Oid
        ensures { result ≡ self.now.type_oid }
    {
        self.type_oid
    }

    /// The size of a value in bytes; negative where it varies.
    pub fn type_size(&self) -> i16
        ensures { result ≡ self.now.type_size }
    {
        self.type_size
    }

    /// The type's modifier, or -1.
    pub fn type_modifier(&self) -> i32
        ensures { result ≡ self.now.type_modifier }
    {
        self.type_modifier
    }

    /// The format of the column's values: 0 text, 1 binary.
    pub fn format(&self) -> i16
        ensures { result ≡ self.now.format }
    {
        self.format
    }
}

/// The columns of a row.
#[derive(Drop)]
pub struct Fields<'a, T: Name = &'a str>(Counted<'a>, PhantomData<T>);

/// The columns of a row, whose names need not be text.
pub type RawFields<'a> = Fields<'a, &'a [u8]>;

impl<'a, T: Name> Model for Fields<'a, T> {
    ghost use Rattle.pgp_base.specs.Walk.{Walk};
    ghost use Rattle.pgp_base.specs.CountedRest.{walk_of};
    ghost use Rattle.pgp_message.specs.Items.{FieldPart};
    ghost use Rattle.pgp_message.specs.ItemReading.{column_at};

    ghost Value = { Walk FieldPart };

    ghost view = { λ walk. walk_of (column_at T.name_at) walk.0 };
}

impl<'a, T: Name> Fields<'a, T> {
    pub(crate) fn over(buf: &'a [u8], count: u16) -> Fields<'a, T>
        ensures items { CountedItems (ColumnSpelled T.IsName) (ColumnRefused T.IsName) count buf.now result.items result.end }
        ensures announced { result.announced ≡ Some count }
        ensures few { length result.items ≤ length buf.now }
    {
        T::is_read();
        Fields(Counted::new(buf, count as usize), PhantomData)
    }
}

impl<'a, T: ReadName<'a> + Drop> FallibleIterator for Fields<'a, T> {
    type Item = Field<'a, T>;

    ghost Meaning = { FieldPart };

    ghost meaning = { λ x. x };

    ghost walk = { λ s. s };

    fn next(&mut self) -> Result<Option<Field<'a, T>>, Error> {
        match self.0.due()? {
            Some(buf) => self.0.take(column_at(buf)),
            None => Ok(None),
        }
    }

    fn size_hint(&self) -> (usize, Option<usize>) {
        self.0.size_hint()
    }
}

/// The column that is described at the front.
#[tactic(auto, unfolding(crate::specs::ItemReading::numbers_at, crate::specs::ItemReading::column_at))]
fn column_at<'a, T: ReadName<'a> + Drop>(bytes: &'a [u8]) -> Result<(Field<'a, T>, &'a [u8]), Error>
    ensures { Answers (λ x. (x.0, x.1.now)) result (column_at T.name_at bytes.now) }
{
    let (name, rest) = T::read(bytes)?;
    let (table_oid, rest) = oid_at(rest)?;
    let (column_id, rest) = int16_at(rest)?;
    let (type_oid, rest) = oid_at(rest)?;
    let (type_size, rest) = int16_at(rest)?;
    let (type_modifier, rest) = int32_at(rest)?;
    let (format, rest) = int16_at(rest)?;
    Ok((
        Field {
            name,
            table_oid,
            column_id,
            type_oid,
            type_size,
            type_modifier,
            format,
            bytes: PhantomData,
        },
        rest,
    ))
}
