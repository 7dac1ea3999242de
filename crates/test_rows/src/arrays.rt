//! Arrays, whose elements are bytes.

use crate::fault::plain;
use crate::shown::{Show, Shown};
use crate::walks::show_list;
use crate::word::{Item, Words};
use pgp_base::{Buffer, Error, IsNull};
use pgp_types::{ArrayDimension, array_from_sql, array_to_sql};

/// The length of a dimension, and its lower bound.
impl<'w> Item<'w> for ArrayDimension {
    fn read(words: &mut Words<'w>) -> ArrayDimension {
        ArrayDimension {
            len: words.number(),
            lower_bound: words.number(),
        }
    }
}

pub fn write_array<B: Buffer>(words: &mut Words<'_>, buf: &mut B) -> Result<(), Error> {
    let element_type = words.number();
    words.either("nulls", "full");
    let dimensions = words.list::<ArrayDimension>();
    let elements = words.list::<Option<&[u8]>>();
    plain(array_to_sql(
        dimensions.iter().copied(),
        element_type,
        elements.as_slice(),
        |element: &Option<&[u8]>, buf: &mut B| -> Result<IsNull, Error> {
            match *element {
                None => Ok(IsNull::Yes),
                Some(bytes) => {
                    buf.append(bytes)?;
                    Ok(IsNull::No)
                }
            }
        },
        buf,
    ))
}

impl Show for ArrayDimension {
    fn show(self, out: &mut Shown) {
        out.number(self.len);
        out.number(self.lower_bound);
    }
}

pub fn show_array(bytes: &[u8], out: &mut Shown) -> Result<(), Error> {
    let array = array_from_sql(bytes)?;
    out.number(array.element_type());
    out.word(if array.has_nulls() { "nulls" } else { "full" });
    show_list(array.dimensions(), array.dimensions(), out);
    show_list(array.values(), array.values(), out);
    Ok(())
}
