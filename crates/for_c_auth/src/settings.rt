//! The settings that a server reported, in memory of the caller's: a name and a value at a time, each with a 0 behind it.

ghost use Rattle.std.specs.Prelude.{◌≡◌, ◌≢◌, ◌==◌, ◌+◌, ◌-◌, ◌≤◌, ◌++◌, ◌∷◌, [], List, ℕ, None, Some, IfNone, IfSome, drop, length, take};
ghost use Rattle.std.specs.Bool.{Decides};
ghost use Rattle.pgp_base.specs.Wire.{HasNoZero, text};
ghost use Rattle.pgp_message.specs.BackendMessage.{ParameterStatus};
ghost use Rattle.pgp_message.specs.Parts.{Setting};
ghost use Rattle.pgp_message.specs.Views.{view};
ghost use Rattle.for_c_auth.specs.Settings.{IsFull, StandsAt, kept_bytes, kept_in, settings_of, settled, size_of, spelled, value_of, without};

use pgp_base::reading::string_at;
use pgp_message::Message;

/// The result where a name has no setting.
const NONE: u32 = 97;

/// The settings, in so many bytes at the front of the room. Where it has none, none is kept.
#[repr(C)]
pub struct PgpSettings<'a> {
    pub room: &'a mut [u8],
    pub len: usize,
}

/// Some of the bytes of a room: so many, from a place on.
#[repr(C)]
#[derive(Clone, Copy)]
pub struct PgpSpan {
    pub at: usize,
    pub len: usize,
}

/// Where a setting stands among bytes.
#[derive(Clone, Copy)]
struct Place {
    start: usize,
    end: usize,
}

/// The value under a name, by its place in the room.
pub(crate) fn value_at(settings: &PgpSettings<'_>, name: &[u8], value: &mut PgpSpan) -> u32
    ensures value { result ≡ 0 → value_of name.now (kept_in settings.now) ≡ Some (take value.new.len (drop value.new.at settings.now.room.now)) }
    ensures inside { result ≡ 0 → value.new.at + value.new.len ≤ length settings.now.room.now }
    ensures none { result ≢ 0 → (result ≡ 97) × (value_of name.now (kept_in settings.now) ≡ None) × (value.new ≡ value.old) }
{
    let place = find(kept(settings), name);
    if place.start == place.end {
        return NONE;
    }
    let at = place.start + name.len() + 1;
    *value = PgpSpan {
        at,
        len: place.end - 1 - at,
    };
    0
}

/// Whether no memory is given for settings.
fn is_absent(settings: &PgpSettings<'_>) -> bool
    ensures { result ≡ (length settings.now.room.now == 0) }
{
    settings.room.is_empty()
}

/// The bytes of the settings.
fn kept<'a>(settings: &'a PgpSettings<'_>) -> &'a [u8]
    ensures { result.now ≡ kept_bytes settings.now }
{
    let len = settings.len.min(settings.room.len());
    &settings.room[..len]
}

/// Where the setting of this name stands.
fn find(bytes: &[u8], name: &[u8]) -> Place
    ensures { StandsAt name.now bytes.now result.start result.end }
{
    let mut rest = bytes;
    'settings: loop {
        let start = bytes.len() - rest.len();
        let Some((first, _, behind)) = front(rest) else {
            return Place { start, end: start };
        };
        if first == name {
            let end = bytes.len() - behind.len();
            return Place { start, end };
        }
        rest = behind;
    }
}

/// The setting at the front: its name, its value, and what stands behind it.
fn front(bytes: &[u8]) -> Option<(&[u8], &[u8], &[u8])>
    ensures some { IfSome result (λ x. (bytes.now ≡ spelled (record { name = x.0.now; value = x.1.now }) ++ x.2.now)
        × ((more : List ℕ) → settings_of (spelled (record { name = x.0.now; value = x.1.now }) ++ more) ≡ record { name = x.0.now; value = x.1.now } ∷ settings_of more)) }
    ensures none { IfNone result (settings_of bytes.now ≡ []) }
{
    let Ok((name, behind)) = string_at(bytes) else {
        return None;
    };
    let Ok((value, rest)) = string_at(behind) else {
        return None;
    };
    Some((name, value, rest))
}

/// Whether the setting that a message reports has no room.
pub(crate) fn is_full(settings: &PgpSettings<'_>, message: &Message<&[u8]>) -> bool
    ensures { Decides result (IsFull settings.now (view message.now)) }
{
    match message {
        Message::ParameterStatus(body) => {
            lacks_room(settings, body.name_bytes(), body.value_bytes())
        }
        _ => false,
    }
}

/// Whether a setting has no room.
fn lacks_room(settings: &PgpSettings<'_>, name: &[u8], value: &[u8]) -> bool
    ensures { Decides result (IsFull settings.now (ParameterStatus (record { name = name.now; value = value.now }))) }
{
    if is_absent(settings) {
        return false;
    }
    let bytes = kept(settings);
    let place = find(bytes, name);
    let others = bytes.len() - (place.end - place.start);
    let left = settings.room.len() - others;
    left.saturating_sub(name.len()).saturating_sub(value.len()) < 2
}

/// Keeps a setting, in the place of the former one of its name.
pub(crate) fn keep(settings: &mut PgpSettings<'_>, name: &[u8], value: &[u8])
    requires name { HasNoZero name.now }
    requires value { HasNoZero value.now }
    requires room { ¬ IsFull settings.old (ParameterStatus (record { name = name.now; value = value.now })) }
    ensures kept { kept_in settings.new ≡ settled (length settings.old.room.now) (ParameterStatus (record { name = name.now; value = value.now })) (kept_in settings.old) }
    ensures room { length settings.new.room.now ≡ length settings.old.room.now }
{
    if is_absent(settings) {
        return;
    }
    remove(settings, name);
    put_first(settings, name, value);
}

/// Removes the setting of this name.
fn remove(settings: &mut PgpSettings<'_>, name: &[u8])
    ensures kept { kept_in settings.new ≡ without name.now (kept_in settings.old) }
    ensures len { settings.new.len + size_of name.now (value_of name.now (kept_in settings.old)) ≡ length (kept_bytes settings.old) }
    ensures room { length settings.new.room.now ≡ length settings.old.room.now }
{
    let bytes = kept(settings);
    let len = bytes.len();
    let place = find(bytes, name);
    cut(&mut *settings.room, place.start, place.end, len);
    settings.len = len - (place.end - place.start);
}

/// Moves those of the first `len` bytes that stand behind `end` to `start`.
fn cut(room: &mut [u8], start: usize, end: usize, len: usize)
    requires ordered { start ≤ end }
    requires within { end ≤ len }
    requires fits { len ≤ length room.old }
    ensures rest { take (len - (end - start)) room.new ≡ take start room.old ++ drop end (take len room.old) }
    ensures len { length room.new ≡ length room.old }
{
    room[start..len].rotate_left(end - start);
}

/// Puts a setting in front of all.
fn put_first(settings: &mut PgpSettings<'_>, name: &[u8], value: &[u8])
    requires name { HasNoZero name.now }
    requires value { HasNoZero value.now }
    requires room { settings.old.len + length (spelled (record { name = name.now; value = value.now })) ≤ length settings.old.room.now }
    ensures kept { kept_in settings.new ≡ record { name = name.now; value = value.now } ∷ kept_in settings.old }
    ensures room { length settings.new.room.now ≡ length settings.old.room.now }
{
    let len = settings.len;
    let middle = len + name.len() + 1;
    let end = middle + value.len() + 1;
    put_text(&mut *settings.room, len, name);
    put_text(&mut *settings.room, middle, value);
    turn(&mut *settings.room, len, end);
    settings.len = end;
}

/// Writes a text and a 0 behind so many bytes.
fn put_text(room: &mut [u8], at: usize, written: &[u8])
    requires { at + length written.now + 1 ≤ length room.old }
    ensures text { take (at + length written.now + 1) room.new ≡ take at room.old ++ text written.now }
    ensures len { length room.new ≡ length room.old }
{
    let end = at + written.len();
    room[at..end].copy_from_slice(written);
    room[end] = 0;
}

/// Moves the first of so many bytes, up to `start`, behind the others.
fn turn(room: &mut [u8], start: usize, end: usize)
    requires ordered { start ≤ end }
    requires fits { end ≤ length room.old }
    ensures turned { take end room.new ≡ drop start (take end room.old) ++ take start room.old }
    ensures len { length room.new ≡ length room.old }
{
    room[..end].rotate_left(start);
}
