//! The texts of values in binary format, by the numbers of their types.

use crate::codec::Answers;
use crate::fault::Fault;
use crate::shown::Shown;
use crate::word::Words;
use bytes::BytesMut;
use pgp_value_text::put_value;
use std::alloc::Global;
use test_alloc::Refusing;

#[derive(Drop)]
pub struct ValueTexts;

/// Shows the text that is added, or `none`, where nothing is.
fn show_text(alloc: Global, type_oid: u32, bytes: &[u8], out: &mut Shown) {
    let mut text = BytesMut::new(alloc);
    match put_value(type_oid, bytes, &mut text) {
        Ok(true) => out.text_of(text.as_slice()),
        Ok(false) => {
            out.word("none");
            show_more(text.as_slice(), out);
        }
        Err(_) => out.fail(Fault::Memory),
    }
}

/// Nothing may stand where no text was added.
fn show_more(text: &[u8], out: &mut Shown) {
    if !text.is_empty() {
        out.word("and more");
    }
}

/// Whether the call's request of memory of this number came, and was refused. Then nothing is added.
fn is_refused(alloc: Global, type_oid: u32, bytes: &[u8], number: u64, out: &mut Shown) -> bool {
    let heap = Refusing::new(alloc, 0);
    let mut text: BytesMut<&Refusing<Global>> = BytesMut::new(&heap);
    heap.until_refusal.set(number);
    let refused = put_value(type_oid, bytes, &mut text).is_err();
    if refused {
        show_more(text.as_slice(), out);
    }
    refused
}

impl Answers for ValueTexts {
    fn show(call: &str, words: &mut Words<'_>, out: &mut Shown) {
        if call != "text_of" {
            words.fail_row();
        }
        let alloc = out.alloc();
        let type_oid = words.number();
        let bytes = words.bytes();
        show_text(alloc, type_oid, bytes, out);
        for number in 1..100 {
            if !is_refused(alloc, type_oid, bytes, number, out) {
                return;
            }
        }
        out.word("never ends")
    }
}
