//! What a query answers.

ghost use Rattle.std.specs.Prelude.{◌≡◌, ◌≤◌, length, Some, IfOk, IfErr, MatchResult};
ghost use Rattle.std.specs.Option.{option_map};
ghost use Rattle.std.specs.Result.{result_map_both};
ghost use Rattle.std.specs.Str.{IsUtf8};
ghost use Rattle.pgp_base.specs.Cause.{WantsMemory};
ghost use Rattle.pgp_base.specs.Items.{CountedItems};
ghost use Rattle.pgp_message.specs.Items.{RangeSpelled, RangeRefused, FieldSpelled, FieldRefused, RawFieldSpelled, RawFieldRefused, TypeSpelled, TypeRefused};
ghost use Rattle.pgp_message.specs.Reading.{string_of, counted_of};
ghost use Rattle.pgp_message.specs.Table.{Tabulates, HasColumn};

use crate::body::counted::CountedBytes;
use crate::row_index::{RowColumns, RowIndex, RowPlaces, nth_value};
use crate::storage::Storage;
use crate::walk::{DataRowRanges, Fields, Parameters, RawFields};
use bytes::Bytes;
use pgp_base::reading::string_at;
use pgp_base::{Error, Memory, text};
use std::alloc::Allocator;
use std::marker::Model;

/// A command is complete.
#[derive(Drop)]
pub struct CommandCompleteBody<S: Storage = Bytes> {
    tag: S,
}

impl<S: Storage> Model for CommandCompleteBody<S> {
    ghost use Rattle.std.specs.Prelude.{ℕ, List};

    ghost Value = { List ℕ };

    ghost view = { λ body. S.bytes body.tag };
}

impl<S: Storage> CommandCompleteBody<S> {
    // The hint carries the speed of short tags: else what is read goes through memory.
    #[inline(always)]
    #[tactic(auto, unfolding(crate::specs::Reading::string_of))]
    pub(crate) fn read(mut payload: S) -> Result<CommandCompleteBody<S>, Error>
        ensures { result ≡ string_of (S.bytes payload) }
    {
        let (tag, rest) = string_at(payload.as_slice())?;
        if !rest.is_empty() {
            return Err(Error::NotDrained);
        }
        let len = tag.len();
        payload.cut(len);
        Ok(CommandCompleteBody { tag: payload })
    }
}

impl<A: Allocator> CommandCompleteBody<Bytes<A>> {
    /// The command's tag, whether it is text or not.
    pub fn tag_bytes(&self) -> &[u8]
        ensures { result.now ≡ self.now }
    {
        self.tag.as_slice()
    }

    /// The command's tag, as `SELECT 1`.
    ///
    /// # Errors
    ///
    /// Returns `NotUtf8` if it isn't text.
    pub fn tag(&self) -> Result<&str, Error>
        ensures { MatchResult result (λ text. text.now ≡ self.now) (λ e. (e ≡ Error.NotUtf8) × ¬ IsUtf8 self.now) }
    {
        text(self.tag.as_slice())
    }
}

impl<'a> CommandCompleteBody<&'a [u8]> {
    /// The command's tag, whether it is text or not.
    pub fn tag_bytes(&self) -> &'a [u8]
        ensures { result.now ≡ self.now }
    {
        self.tag
    }

    /// The command's tag, as `SELECT 1`.
    ///
    /// # Errors
    ///
    /// Returns `NotUtf8` if it isn't text.
    pub fn tag(&self) -> Result<&'a str, Error>
        ensures { MatchResult result (λ text. text.now ≡ self.now) (λ e. (e ≡ Error.NotUtf8) × ¬ IsUtf8 self.now) }
    {
        text(self.tag)
    }
}

/// A row.
#[derive(Drop)]
pub struct DataRowBody<S: Storage = Bytes> {
    row: CountedBytes<S>,
}

impl<S: Storage> Model for DataRowBody<S> {
    ghost use Rattle.pgp_message.specs.Parts.{CountedBytes};

    ghost Value = { CountedBytes };

    ghost view = { λ body. body.row };
}

impl<S: Storage> DataRowBody<S> {
    pub(crate) fn read(payload: S) -> Result<DataRowBody<S>, Error>
        ensures { result ≡ counted_of (S.bytes payload) }
    {
        let row = CountedBytes::read(payload)?;
        Ok(DataRowBody { row })
    }
}

impl<A: Allocator> DataRowBody<Bytes<A>> {
    /// Where the values stand in `buffer`; `None` for a null.
    pub fn ranges(&self) -> DataRowRanges<'_>
        ensures items { CountedItems RangeSpelled RangeRefused self.now.count self.now.storage result.items result.end }
        ensures announced { result.announced ≡ Some self.now.count }
        ensures few { length result.items ≤ length self.now.storage }
    {
        DataRowRanges::over(self.row.storage.as_slice(), self.row.len)
    }

    /// The bytes after the count, into which the ranges of the values point.
    pub fn buffer(&self) -> &[u8]
        ensures { result.now ≡ self.now.storage }
    {
        self.row.storage.as_slice()
    }

    /// A table of the values' places, by which any column is at hand. It is made by one pass over the row.
    ///
    /// # Errors
    ///
    /// The error of that iterator: `UnexpectedEof` if a value is cut short, `NotDrained` if bytes stand after the
    /// last value. `OutOfMemory` if the table can't be allocated.
    pub fn index<T: Memory>(&self, alloc: T) -> Result<RowIndex<'_, T>, Error>
        ensures { Tabulates self.now T.Lacks result }
    {
        RowIndex::over(alloc, self.row.storage.as_slice(), self.row.len)
    }

    /// The same table in memory that is used again for each row: once a row of as many columns has come, no more is asked for.
    ///
    /// # Errors
    ///
    /// As `index`. What the memory held is lost.
    pub fn index_into<'t, T: Memory>(
        &'t self,
        places: &'t mut RowPlaces<T>,
    ) -> Result<RowColumns<'t, 't>, Error>
        ensures { Tabulates self.now T.Lacks result }
    {
        places.over(self.row.storage.as_slice(), self.row.len)
    }

    /// The bytes of column `i`, counted from 0, with no table: `Some(None)` for a null, `None` where the row has no such column. The
    /// columns before it are passed over, and what stands after it isn't looked at: `index` is the better way to more than one.
    ///
    /// # Errors
    ///
    /// The error of the iterator, where it comes no further than to a column before.
    pub fn column(&self, i: usize) -> Result<Option<Option<&[u8]>>, Error>
        ensures { HasColumn self.now i (result_map_both (option_map (option_map (λ value. value.now))) (λ e. e) result) }
    {
        nth_value(self.row.storage.as_slice(), self.row.len, i)
    }

    /// The same bytes, as they are shared.
    pub fn buffer_bytes(&self) -> &Bytes<A>
        ensures { result.now ≡ self.now.storage }
    {
        &self.row.storage
    }
}

impl<A: Memory> DataRowBody<Bytes<A>> {
    /// The same row over the same bytes.
    ///
    /// # Errors
    ///
    /// Returns `OutOfMemory` if the buffer can't grow.
    pub fn clone(&self) -> Result<DataRowBody<Bytes<A>>, Error>
        ensures ok { IfOk result (λ row. row ≡ self.now) }
        ensures err { IfErr result (WantsMemory A.Lacks) }
    {
        let storage = A::clone_shared(&self.row.storage)?;
        let len = self.row.len;
        Ok(DataRowBody {
            row: CountedBytes { len, storage },
        })
    }
}

impl<'a> DataRowBody<&'a [u8]> {
    /// Where the values stand in `buffer`; `None` for a null.
    pub fn ranges(&self) -> DataRowRanges<'a>
        ensures items { CountedItems RangeSpelled RangeRefused self.now.count self.now.storage result.items result.end }
        ensures announced { result.announced ≡ Some self.now.count }
        ensures few { length result.items ≤ length self.now.storage }
    {
        DataRowRanges::over(self.row.storage, self.row.len)
    }

    /// The bytes after the count, into which the ranges of the values point.
    pub fn buffer(&self) -> &'a [u8]
        ensures { result.now ≡ self.now.storage }
    {
        self.row.storage
    }

    /// A table of the values' places, by which any column is at hand. It is made by one pass over the row.
    ///
    /// # Errors
    ///
    /// The error of that iterator: `UnexpectedEof` if a value is cut short, `NotDrained` if bytes stand after the
    /// last value. `OutOfMemory` if the table can't be allocated.
    pub fn index<A: Memory>(&self, alloc: A) -> Result<RowIndex<'a, A>, Error>
        ensures { Tabulates self.now A.Lacks result }
    {
        RowIndex::over(alloc, self.row.storage, self.row.len)
    }

    /// The same table in memory that is used again for each row: once a row of as many columns has come, no more is asked for.
    ///
    /// # Errors
    ///
    /// As `index`. What the memory held is lost.
    pub fn index_into<'t, A: Memory>(
        &self,
        places: &'t mut RowPlaces<A>,
    ) -> Result<RowColumns<'a, 't>, Error>
        ensures { Tabulates self.now A.Lacks result }
    {
        places.over(self.row.storage, self.row.len)
    }

    /// The bytes of column `i`, counted from 0, with no table: `Some(None)` for a null, `None` where the row has no such column. The
    /// columns before it are passed over, and what stands after it isn't looked at: `index` is the better way to more than one.
    ///
    /// # Errors
    ///
    /// The error of the iterator, where it comes no further than to a column before.
    pub fn column(&self, i: usize) -> Result<Option<Option<&'a [u8]>>, Error>
        ensures { HasColumn self.now i (result_map_both (option_map (option_map (λ value. value.now))) (λ e. e) result) }
    {
        nth_value(self.row.storage, self.row.len, i)
    }
}

/// The columns of the rows to come.
#[derive(Drop)]
pub struct RowDescriptionBody<S: Storage = Bytes> {
    columns: CountedBytes<S>,
}

impl<S: Storage> Model for RowDescriptionBody<S> {
    ghost use Rattle.pgp_message.specs.Parts.{CountedBytes};

    ghost Value = { CountedBytes };

    ghost view = { λ body. body.columns };
}

impl<S: Storage> RowDescriptionBody<S> {
    pub(crate) fn read(payload: S) -> Result<RowDescriptionBody<S>, Error>
        ensures { result ≡ counted_of (S.bytes payload) }
    {
        let columns = CountedBytes::read(payload)?;
        Ok(RowDescriptionBody { columns })
    }
}

impl<A: Allocator> RowDescriptionBody<Bytes<A>> {
    /// The columns.
    pub fn fields(&self) -> Fields<'_>
        ensures items { CountedItems FieldSpelled FieldRefused self.now.count self.now.storage result.items result.end }
        ensures announced { result.announced ≡ Some self.now.count }
        ensures few { length result.items ≤ length self.now.storage }
    {
        Fields::over(self.columns.storage.as_slice(), self.columns.len)
    }

    /// The columns, whose names need not be text.
    pub fn raw_fields(&self) -> RawFields<'_>
        ensures items { CountedItems RawFieldSpelled RawFieldRefused self.now.count self.now.storage result.items result.end }
        ensures announced { result.announced ≡ Some self.now.count }
        ensures few { length result.items ≤ length self.now.storage }
    {
        RawFields::over(self.columns.storage.as_slice(), self.columns.len)
    }
}

impl<'a> RowDescriptionBody<&'a [u8]> {
    /// The columns.
    pub fn fields(&self) -> Fields<'a>
        ensures items { CountedItems FieldSpelled FieldRefused self.now.count self.now.storage result.items result.end }
        ensures announced { result.announced ≡ Some self.now.count }
        ensures few { length result.items ≤ length self.now.storage }
    {
        Fields::over(self.columns.storage, self.columns.len)
    }

    /// The columns, whose names need not be text.
    pub fn raw_fields(&self) -> RawFields<'a>
        ensures items { CountedItems RawFieldSpelled RawFieldRefused self.now.count self.now.storage result.items result.end }
        ensures announced { result.announced ≡ Some self.now.count }
        ensures few { length result.items ≤ length self.now.storage }
    {
        RawFields::over(self.columns.storage, self.columns.len)
    }
}

/// The types of the parameters of a statement.
#[derive(Drop)]
pub struct ParameterDescriptionBody<S: Storage = Bytes> {
    types: CountedBytes<S>,
}

impl<S: Storage> Model for ParameterDescriptionBody<S> {
    ghost use Rattle.pgp_message.specs.Parts.{CountedBytes};

    ghost Value = { CountedBytes };

    ghost view = { λ body. body.types };
}

impl<S: Storage> ParameterDescriptionBody<S> {
    pub(crate) fn read(payload: S) -> Result<ParameterDescriptionBody<S>, Error>
        ensures { result ≡ counted_of (S.bytes payload) }
    {
        let types = CountedBytes::read(payload)?;
        Ok(ParameterDescriptionBody { types })
    }
}

impl<A: Allocator> ParameterDescriptionBody<Bytes<A>> {
    /// The types of the parameters.
    pub fn parameters(&self) -> Parameters<'_>
        ensures items { CountedItems TypeSpelled TypeRefused self.now.count self.now.storage result.items result.end }
        ensures announced { result.announced ≡ Some self.now.count }
        ensures few { length result.items ≤ length self.now.storage }
    {
        Parameters::over(self.types.storage.as_slice(), self.types.len)
    }
}

impl<'a> ParameterDescriptionBody<&'a [u8]> {
    /// The types of the parameters.
    pub fn parameters(&self) -> Parameters<'a>
        ensures items { CountedItems TypeSpelled TypeRefused self.now.count self.now.storage result.items result.end }
        ensures announced { result.announced ≡ Some self.now.count }
        ensures few { length result.items ≤ length self.now.storage }
    {
        Parameters::over(self.types.storage, self.types.len)
    }
}
