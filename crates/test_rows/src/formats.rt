//! Which codec reads a type.

use crate::codec::Answers;
use crate::fault::Fault;
use crate::shown::Shown;
use crate::word::Words;
use pgp_values::binary_format_of;

#[derive(Drop)]
pub struct Formats;

impl Answers for Formats {
    fn show(call: &str, words: &mut Words<'_>, out: &mut Shown) {
        if call != "format_of" {
            words.fail_row();
        }
        let Some(format) = binary_format_of(words.number()) else {
            return out.word("none");
        };
        match format!(in out.alloc(); "{format:?}") {
            Ok(text) => out.word(text.as_str()),
            Err(_) => out.fail(Fault::Memory),
        }
    }
}
