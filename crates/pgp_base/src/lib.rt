//! What every crate of the port stands on: errors, numbers, the buffer that writers append to, the
//! parts that readers take, and fallible iterators.
#![tactic(auto)]

pub mod big_endian;
mod buffer;
mod counted;
mod counting;
mod error;
pub mod laws;
mod memory;
mod number;
pub mod reading;
mod scanning;
mod texts;
mod walk;
mod window;
mod writing;

pub use buffer::Buffer;
pub use counted::Counted;
pub use counting::write_counted;
pub use error::{BindError, Error};
pub use memory::Memory;
pub use number::{
    IsNull, Lsn, MAX_KEY_LEN, MIN_KEY_LEN, Oid, i16_from_usize, i32_from_usize, u16_from_usize,
};
pub use texts::text;
pub use walk::FallibleIterator;
pub use window::Window;
pub use writing::{
    finish_body, length_field, patch_u16, patch_u32, put_u8, put_u16, put_u32, put_value,
    write_body, write_cstr, write_nullable,
};
