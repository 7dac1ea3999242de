//! The names that lines have, and the words that mean them.

ghost use Rattle.std.specs.Prelude.{◌≡◌, ◌++◌, ◌∷◌, [], None, drop, map, IfNone, IfSome, OnErr, OnOk};
ghost use Rattle.std.specs.List.{cons_option, filter_map, find};
ghost use Rattle.std.specs.Option.{option_or};
ghost use Rattle.std.specs.Str.{str_eq_ignore_ascii_case};
ghost use Rattle.pgtrace_lines.specs.Common.{option_map, slice_split};
ghost use Rattle.pgtrace_lines.specs.LineNames.{BeginsWithNoNames, is_comma, is_unknown, name_meant, names_in, takes_names, unknown_behind, unknown_in, unknown_of};

use pgp_base::Memory;
use std::alloc::AllocError;

const NAMES: &[&str] = &[
    "AuthenticationOk",
    "AuthenticationKerberosV5",
    "AuthenticationCleartextPassword",
    "AuthenticationMD5Password",
    "AuthenticationSCMCredential",
    "AuthenticationGSS",
    "AuthenticationGSSContinue",
    "AuthenticationSSPI",
    "AuthenticationSASL",
    "AuthenticationSASLContinue",
    "AuthenticationSASLFinal",
    "BackendKeyData",
    "BindComplete",
    "CloseComplete",
    "CommandComplete",
    "CopyBothResponse",
    "CopyData",
    "CopyDone",
    "CopyInResponse",
    "CopyOutResponse",
    "DataRow",
    "EmptyQueryResponse",
    "ErrorResponse",
    "FunctionCallResponse",
    "NegotiateProtocolVersion",
    "NoData",
    "NoticeResponse",
    "NotificationResponse",
    "ParameterDescription",
    "ParameterStatus",
    "ParseComplete",
    "PortalSuspended",
    "ReadyForQuery",
    "RowDescription",
    "SSLResponse",
    "GSSENCResponse",
    "SSLResponse or GSSENCResponse",
    "fault",
    "Bind",
    "CancelRequest",
    "Close",
    "CopyFail",
    "Describe",
    "Execute",
    "Flush",
    "FunctionCall",
    "GSSENCRequest",
    "Parse",
    "PasswordMessage",
    "Query",
    "SASLInitialResponse",
    "SASLResponse",
    "Password, SASLInitialResponse or SASLResponse",
    "SSLRequest",
    "StartupMessage",
    "Sync",
    "Terminate",
];

/// The name of lines that a word is, but for the case of its letters.
#[tactic(auto, unfolding(crate::specs::LineNames::line_names, crate::specs::LineNames::name_meant))]
fn line_name(word: &str) -> Option<&'static str>
    ensures { option_map (λ name. name.now) result ≡ name_meant word.now }
{
    first_alike(NAMES, word)
}

/// The first of these names that a word is, but for the case of its letters.
fn first_alike(names: &[&'static str], word: &str) -> Option<&'static str>
    ensures { option_map (λ name. name.now) result ≡ find (λ name. str_eq_ignore_ascii_case name word.now) (map (λ name. name.now) names.now) }
{
    for name in names {
        if is_alike(name, word) {
            return Some(*name);
        }
    }
    None
}

/// Whether a word is this name, but for the case of its letters.
#[tactic(auto, using(crate::proofs::LineNames::alike_tested))]
fn is_alike(name: &str, word: &str) -> bool
    ensures { result ≡ str_eq_ignore_ascii_case name.now word.now }
{
    name.eq_ignore_ascii_case(word)
}

/// Adds the names that a word means: the one that it is, or else those between its commas.
pub fn add_names<'a, A: Memory>(word: &str, names: &mut Vec<&'a str, A>) -> Result<(), AllocError>
    ensures names { OnOk result (map (λ name. name.now) names.new.items ≡ map (λ name. name.now) names.old.items ++ names_in word.now) }
    ensures lacks { OnErr result A.Lacks }
{
    let name = line_name(word);
    if name.is_none() {
        return add_between(word, names);
    }
    add_name(name, names)
}

/// Adds the names between the commas of a word.
fn add_between<'a, A: Memory>(word: &str, names: &mut Vec<&'a str, A>) -> Result<(), AllocError>
    ensures names { OnOk result (map (λ name. name.now) names.new.items ≡ map (λ name. name.now) names.old.items ++ filter_map name_meant (slice_split is_comma word.now)) }
    ensures lacks { OnErr result A.Lacks }
{
    for text in word.split(',') {
        add_name(line_name(text), names)?;
    }
    Ok(())
}

/// Adds a name, if there is one.
fn add_name<'a, A: Memory>(
    name: Option<&'static str>,
    names: &mut Vec<&'a str, A>,
) -> Result<(), AllocError>
    ensures names { OnOk result (map (λ name. name.now) names.new.items ≡ map (λ name. name.now) names.old.items ++ cons_option (option_map (λ name. name.now) name.entry) []) }
    ensures lacks { OnErr result A.Lacks }
{
    if let Some(name) = name {
        A::push(names, name)?;
    }
    Ok(())
}

/// The first text between the commas of a word that is no name, where the word isn't one.
#[tactic(auto, unfolding(crate::specs::LineNames::unknown_of))]
fn unknown_of(word: &str) -> Option<&str>
    ensures { option_map (λ name. name.now) result ≡ unknown_of word.now }
{
    if line_name(word).is_some() {
        return None;
    }
    unknown_between(word)
}

/// The first text between the commas of a word that is no name.
fn unknown_between(word: &str) -> Option<&str>
    ensures { option_map (λ name. name.now) result ≡ find is_unknown (slice_split is_comma word.now) }
{
    let mut unknown = None;
    for text in word.split(',') {
        unknown = first_unknown(unknown, text);
    }
    unknown
}

/// What was unknown before, or else a text that is no name.
fn first_unknown<'a>(unknown: Option<&'a str>, text: &'a str) -> Option<&'a str>
    ensures { option_map (λ name. name.now) result ≡ option_or (option_map (λ name. name.now) unknown.entry) (find is_unknown (text.now ∷ [])) }
{
    if unknown.is_some() || line_name(text).is_some() {
        unknown
    } else {
        Some(text)
    }
}

/// The word that stands first, where all in it are names.
pub fn first_names<'a>(words: &[&'a str]) -> Option<&'a str>
    ensures some { IfSome result (λ names. (unknown_of names.now ≡ None) × (map (λ word. word.now) words.now ≡ names.now ∷ map (λ word. word.now) (drop 1 words.now))) }
    ensures none { IfNone result (BeginsWithNoNames (map (λ word. word.now) words.now)) }
{
    let Some((word, _)) = words.split_first() else {
        return None;
    };
    match unknown_of(word) {
        Some(_) => None,
        None => Some(*word),
    }
}

/// The first text that is no name where there have to be names: in a word that stands behind an option which takes them.
pub fn unknown_in<'a>(words: &[&'a str]) -> Option<&'a str>
    ensures { option_map (λ name. name.now) result ≡ unknown_in (map (λ word. word.now) words.now) }
{
    'words: for at in 0..words.len() {
        if let Some(name) = unknown_behind(words[at], &words[at + 1..]) {
            return Some(name);
        }
    }
    None
}

/// The same in the word behind this one.
fn unknown_behind<'a>(word: &str, behind: &[&'a str]) -> Option<&'a str>
    ensures { option_map (λ name. name.now) result ≡ unknown_behind word.now (map (λ word. word.now) behind.now) }
{
    if !takes_names(word) {
        return None;
    }
    let (names, _) = behind.split_first()?;
    unknown_of(*names)
}

/// Whether names stand behind a word.
fn takes_names(word: &str) -> bool
    ensures { result ≡ takes_names word.now }
{
    word == "--only" || word == "--except"
}
