//! Values that are put where they stand: each gets its length once it is there.

ghost use Rattle.std.specs.Prelude.{◌≡◌, ◌≢◌, ◌+◌, ◌<◌, ◌≤◌, ◌++◌, true, false, Some, None, length, take, drop};
ghost use Rattle.pgp_base.specs.Wire.{uint32};
ghost use Rattle.for_c.specs.InPlace.{Adds, IsUnfinished, NoItem, NoRoom, Places, Same, value_at};

use crate::status::failed;
use pgp_base::Error;

/// The length of a null.
const NULL: u32 = 0xffff_ffff;

/// The greatest length of a value.
const MOST: usize = 0x7fff_ffff;

/// A list that is written item by item: where the next stands, how many are to come, and whether one was a null.
#[repr(C)]
#[derive(Clone, Copy)]
pub struct PgpItems {
    pub at: usize,
    pub left: usize,
    pub has_null: bool,
}

/// The next item is the bytes that stand four bytes after the place of the list: writes their length before them.
#[unsafe(no_mangle)]
pub extern "C" fn pgp_item(len: usize, out: &mut [u8], items: &mut PgpItems) -> u32
    ensures placed { result ≡ 0 → Places (Some (value_at len out.old items.old)) out.old out.new items.old items.new }
    ensures refused { result ≢ 0 → NoItem len out.old items.old result }
    ensures left { result ≢ 0 → Same out.old out.new items.old items.new }
{
    if items.left == 0 {
        return failed(Error::InvalidSize);
    }
    if len > MOST {
        return failed(Error::TooLarge);
    }
    add(len as u32, len, out, items)
}

/// The next item is a null.
#[unsafe(no_mangle)]
pub extern "C" fn pgp_item_null(out: &mut [u8], items: &mut PgpItems) -> u32
    ensures placed { result ≡ 0 → Places None out.old out.new items.old items.new }
    ensures refused { result ≢ 0 → NoItem 0 out.old items.old result }
    ensures left { result ≢ 0 → Same out.old out.new items.old items.new }
{
    if items.left == 0 {
        return failed(Error::InvalidSize);
    }
    let code = add(NULL, 0, out, items);
    if code == 0 {
        items.has_null = true;
    }
    code
}

/// Whether items are missing, or no list was begun, whose head takes at least so many bytes.
pub(crate) fn is_unfinished(items: &PgpItems, least: usize) -> bool
    ensures yes { result ≡ true → IsUnfinished least items.now }
    ensures no { result ≡ false → (items.now.left ≡ 0) × (least ≤ items.now.at) }
{
    if items.left != 0 {
        return true;
    }
    items.at < least
}

/// Writes this word before so many bytes.
fn add(word: u32, len: usize, out: &mut [u8], items: &mut PgpItems) -> u32
    requires { items.old.left ≢ 0 }
    ensures added { result ≡ 0 → Adds (uint32 word) len out.old out.new items.old items.new }
    ensures refused { result ≢ 0 → (result ≡ 1) × NoRoom len out.old items.old }
    ensures left { result ≢ 0 → Same out.old out.new items.old items.new }
{
    if !has_room(out.len(), items.at, len) {
        return 1;
    }
    set_word(out, items.at, word);
    items.at += 4 + len;
    items.left -= 1;
    0
}

/// Whether a word and so many bytes after this place lie in the memory.
fn has_room(size: usize, at: usize, len: usize) -> bool
    ensures yes { result ≡ true → at + (4 + len) ≤ size }
    ensures no { result ≡ false → size < at + (4 + len) }
{
    if size < at {
        return false;
    }
    let free = size - at;
    if free < 4 {
        return false;
    }
    len <= free - 4
}

/// Writes a number over the four bytes at this place.
#[tactic(auto, unfolding(pgp_base::specs::Wire::uint32))]
pub(crate) fn set_word(out: &mut [u8], at: usize, word: u32)
    requires { at + 4 ≤ length out.old }
    ensures { out.new ≡ take at out.old ++ (uint32 word ++ drop (at + 4) out.old) }
{
    out[at..at + 4].copy_from_slice(&word.to_be_bytes());
}
