//! The values of settings: as a server shows them, and those that it rejects.
//!
//! PostgreSQL manual, "Setting Parameters", "Client Connection Defaults", "Supported Character Sets"; PostgreSQL 15 and 18.

ghost use Rattle.std.specs.Prelude.{◌≡◌};

use crate::asked::Refusal;
use crate::outbox::Outbox;

/// The settings whose values are truth values.
static BOOLEANS: [&str; 5] = [
    "default_transaction_deferrable",
    "default_transaction_read_only",
    "standard_conforming_strings",
    "transaction_deferrable",
    "transaction_read_only",
];

/// The names of encodings, in which only letters and digits count.
static ENCODINGS: [&str; 42] = [
    "BIG5",
    "EUC_CN",
    "EUC_JIS_2004",
    "EUC_JP",
    "EUC_KR",
    "EUC_TW",
    "GB18030",
    "GBK",
    "ISO_8859_5",
    "ISO_8859_6",
    "ISO_8859_7",
    "ISO_8859_8",
    "JOHAB",
    "KOI8R",
    "KOI8U",
    "LATIN1",
    "LATIN2",
    "LATIN3",
    "LATIN4",
    "LATIN5",
    "LATIN6",
    "LATIN7",
    "LATIN8",
    "LATIN9",
    "LATIN10",
    "MULE_INTERNAL",
    "SHIFT_JIS_2004",
    "SJIS",
    "SQL_ASCII",
    "UHC",
    "UTF8",
    "WIN866",
    "WIN874",
    "WIN1250",
    "WIN1251",
    "WIN1252",
    "WIN1253",
    "WIN1254",
    "WIN1255",
    "WIN1256",
    "WIN1257",
    "WIN1258",
];

/// The styles of dates, and the orders of their parts with what else they are called.
static STYLES: [(&str, &str); 4] = [
    ("iso", "ISO"),
    ("sql", "SQL"),
    ("postgres", "Postgres"),
    ("german", "German"),
];

static ORDERS: [(&str, &str); 9] = [
    ("mdy", "MDY"),
    ("us", "MDY"),
    ("noneuro", "MDY"),
    ("noneuropean", "MDY"),
    ("dmy", "DMY"),
    ("euro", "DMY"),
    ("european", "DMY"),
    ("ymd", "YMD"),
    ("german", "DMY"),
];

/// The second of the pair whose first is this word, in any case.
fn named(pairs: &[(&'static str, &'static str)], word: &str) -> Option<&'static str> {
    for (name, shown) in pairs {
        if name.eq_ignore_ascii_case(word) {
            return Some(shown);
        }
    }
    None
}

/// The words of a list.
fn words_in(list: &[u8]) -> &str {
    str::from_utf8(list).unwrap_or("")
}

/// The last word of the list that a table has.
fn last_named(pairs: &[(&'static str, &'static str)], list: &str) -> Option<&'static str> {
    let mut last = None;
    for word in list.split([',', ' ']) {
        last = named(pairs, word).or(last);
    }
    last
}

/// Whether each word of the list is a style or an order, with one style at most.
fn is_date_style(list: &str) -> bool {
    let mut styles = 0u32;
    for word in list.split([',', ' ']) {
        let is_style = named(&STYLES, word).is_some();
        if !word.is_empty() && !is_style && named(&ORDERS, word).is_none() {
            return false;
        }
        styles = styles.saturating_add(u32::from(is_style));
    }
    styles <= 1
}

/// The style and the order of this list; what it lacks is as before.
fn date_style(before: &[u8], list: &[u8], out: &mut Outbox) -> Vec<u8>
    ensures { out.new.bytes ≡ out.old.bytes }
{
    let (before, list) = (words_in(before), words_in(list));
    let style = last_named(&STYLES, list)
        .or(last_named(&STYLES, before))
        .unwrap_or("ISO");
    let order = last_named(&ORDERS, list)
        .or(last_named(&ORDERS, before))
        .unwrap_or("MDY");
    let mut shown = out.copy(style.as_bytes());
    out.keep(shown.extend_from_slice(b", "));
    out.keep(shown.extend_from_slice(order.as_bytes()));
    shown
}

/// Whether the word is the front of this one, of at least so many letters, in any case.
fn begins(word: &[u8], whole: &[u8], least: usize) -> bool {
    match whole.get(..word.len()) {
        Some(front) => word.len() >= least && front.eq_ignore_ascii_case(word),
        None => false,
    }
}

/// The truth value of this word, which may be cut off where it is one still.
fn boolean_of(word: &[u8]) -> Option<&'static [u8]> {
    if begins(word, b"true", 1)
        || begins(word, b"yes", 1)
        || begins(word, b"on", 2)
        || word == b"1".as_slice()
    {
        return Some(b"on");
    }
    if begins(word, b"false", 1)
        || begins(word, b"no", 1)
        || begins(word, b"off", 2)
        || word == b"0".as_slice()
    {
        return Some(b"off");
    }
    None
}

/// Whether these are the same letters and digits.
fn is_same_name(one: &str, other: &str) -> bool {
    let mut rest = other.bytes().filter(|byte| byte.is_ascii_alphanumeric());
    for byte in one.bytes().filter(|byte| byte.is_ascii_alphanumeric()) {
        match rest.next() {
            Some(found) if found.eq_ignore_ascii_case(&byte) => {}
            _ => return false,
        }
    }
    rest.next().is_none()
}

/// The encoding of this name.
fn encoding_of(name: &[u8]) -> Option<&'static [u8]> {
    let name = words_in(name);
    if name.eq_ignore_ascii_case("unicode") {
        return Some(b"UTF8");
    }
    for encoding in &ENCODINGS {
        if is_same_name(encoding, name) {
            return Some(encoding.as_bytes());
        }
    }
    None
}

/// What a setting's values are.
#[derive(Clone, Copy, PartialEq, Eq)]
enum Form {
    Boolean,
    DateStyle,
    Encoding,
    Zone,
    Other,
}

fn form_of(name: &str) -> Form {
    if name.eq_ignore_ascii_case("client_encoding") {
        return Form::Encoding;
    }
    if name.eq_ignore_ascii_case("DateStyle") {
        return Form::DateStyle;
    }
    if name.eq_ignore_ascii_case("TimeZone") {
        return Form::Zone;
    }
    for boolean in &BOOLEANS {
        if boolean.eq_ignore_ascii_case(name) {
            return Form::Boolean;
        }
    }
    Form::Other
}

/// The name of a zone that is written in capital letters.
fn zone_of(name: &[u8]) -> Option<&'static [u8]> {
    if name.eq_ignore_ascii_case(b"utc") {
        return Some(b"UTC");
    }
    if name.eq_ignore_ascii_case(b"gmt") {
        return Some(b"GMT");
    }
    None
}

/// A value as a server shows it, of a setting that had another before.
pub(crate) fn shown(name: &[u8], before: &[u8], value: &[u8], out: &mut Outbox) -> Vec<u8>
    ensures { out.new.bytes ≡ out.old.bytes }
{
    let found = match form_of(words_in(name)) {
        Form::DateStyle if is_date_style(words_in(value)) => return date_style(before, value, out),
        Form::Boolean => boolean_of(value),
        Form::Encoding => encoding_of(value),
        Form::Zone => zone_of(value),
        _ => None,
    };
    out.copy(found.unwrap_or(value))
}

/// Why a setting can't have this value, if it can't.
pub(crate) fn rejection<'v>(name: &str, value: &'v [u8]) -> Option<Refusal<'v>> {
    match form_of(name) {
        Form::DateStyle if !is_date_style(words_in(value)) => {
            let before = "invalid value for parameter \"DateStyle\": \"";
            Some(Refusal::of("22023", before, value, "\""))
        }
        Form::Encoding if encoding_of(value).is_none() => {
            let before = "invalid value for parameter \"client_encoding\": \"";
            Some(Refusal::of("22023", before, value, "\""))
        }
        _ => None,
    }
}

/// Whether it is a truth value that the setting needs and that this isn't.
pub(crate) fn is_no_boolean(name: &str, value: &[u8]) -> bool {
    form_of(name) == Form::Boolean && boolean_of(value).is_none()
}
