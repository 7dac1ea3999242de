//! Texts in bytes: whether they are UTF-8, and where the 0 byte stands that ends one, looked at many bytes at a time.

mod ascii;
mod characters;
mod utf8;
mod zero;

pub use utf8::is_text;
pub use zero::{first_zero, stray_zero};
