//! The options of a listing.

ghost use Rattle.std.specs.Prelude.{◌≡◌, ◌++◌, ◌∷◌, [], true, codes, drop, length, map, IfNone, IfOk, IfSome, OnErr, OnOk};
ghost use Rattle.pgtrace_lines.specs.Options.{AreNoOptions, AreOptions, BeginsWithNone, BeginsWithNoneOf, IsOneOf, IsSound, chooses, chosen_of, is_colored, is_file, key_of, marks, nothing_chosen, options_in, spelled};

use crate::line_names::{add_names, first_names};
use crate::marking::Marking;
use crate::view::has_word;
use pgp_base::Memory;
use pgp_frontend_read::PasswordKind;
use std::alloc::AllocError;

/// What is listed.
#[derive(Debug, Clone, Copy)]
pub enum Listing {
    /// What a server sent.
    Server,
    /// What a client sent.
    Client,
    /// A recording of both.
    Session,
}

/// When a listing has colours.
#[derive(Debug, Clone, Copy)]
pub enum When {
    /// Where a terminal shows it.
    Auto,
    Always,
    Never,
}

/// What the times of a recording are counted from.
#[derive(Debug, Clone, Copy)]
pub enum Clock {
    /// From 1970-01-01 UTC.
    Absolute,
    /// From the first chunk.
    Relative,
}

/// An option of a listing.
#[derive(Debug, Clone, Copy)]
pub enum Choice<'a> {
    File(&'a str),
    AsJson,
    Full,
    Secrets,
    /// The stream is taken in mid-session.
    Resume,
    /// A client's CopyData have a standby's messages inside.
    Replication,
    /// Names that lines have, between commas.
    Only(&'a str),
    Except(&'a str),
    Color(When),
    /// Which the next message of tag `p` is that none names yet.
    Kind(PasswordKind),
    Time(Clock),
    /// Requests are numbered.
    Requests,
    /// Answers are listed that come at least so many milliseconds after their request, and statements that ran so long; the word that says so.
    Slower(&'a str, u32),
    /// A table of what requests ran stands in the place of the lines.
    Summary,
    /// Statements that differ in their literals alone are one there.
    Fold,
    /// Values in binary format are shown as their bytes.
    Raw,
    /// An Execute has its statement's text, and a row the names of its columns.
    Names,
}

/// What the options of a listing come to.
#[derive(Drop)]
pub struct Options<'a, A: Memory> {
    pub json: bool,
    pub full: bool,
    pub secrets: bool,
    pub resume: bool,
    pub replicating: bool,
    /// The names of the messages that are listed.
    pub only: Vec<&'a str, A>,
    /// The names of those that aren't.
    pub except: Vec<&'a str, A>,
    /// Whether lines have colours.
    pub colored: bool,
    /// Which the messages of tag `p` are, from the first on.
    pub kinds: Vec<PasswordKind, A>,
    /// How many microseconds after its request an answer comes at least that is listed.
    pub slower: u64,
    /// What the marks of a recording say.
    pub marking: Marking,
    /// The names of files that are read in the place of standard input.
    pub files: Vec<&'a str, A>,
}

const CLIENT: &[&str] = &[
    "--json",
    "--full",
    "--secrets",
    "--resume",
    "--only",
    "--except",
    "--color",
    "--password-kind",
    "--replication",
];

const SESSION: &[&str] = &[
    "--json",
    "--full",
    "--secrets",
    "--requests",
    "--slower",
    "--raw",
    "--names",
    "--summary",
    "--fold",
    "--time",
    "--only",
    "--except",
    "--color",
    "FILE",
];

/// The options that a listing has.
pub fn options_in(listing: Listing) -> &'static [&'static str]
    ensures { map (λ word. word.now) result.now ≡ options_in listing }
{
    match listing {
        Listing::Server => &CLIENT[..7],
        Listing::Client => CLIENT,
        Listing::Session => SESSION,
    }
}

/// Reads options, of those that the listing has, which a terminal shows or not, or returns nothing where the words are no such.
///
/// # Errors
///
/// There is no memory for the names and the kinds.
pub fn options_of<'a, A: Memory>(
    alloc: A,
    terminal: bool,
    has: &[&str],
    words: &[&'a str],
) -> Result<Option<Options<'a, A>>, AllocError>
    ensures known { IfOk result (λ r. IfSome r (λ options. AreOptions terminal (map (λ word. word.now) has.now) (map (λ word. word.now) words.now) (chosen_of options))) }
    ensures other { IfOk result (λ r. IfNone r (AreNoOptions (map (λ word. word.now) has.now) (map (λ word. word.now) words.now))) }
    ensures lacks { OnErr result A.Lacks }
{
    let mut options = no_options(alloc, terminal);
    let mut at = 0;
    'each: while at < words.len() {
        let Some(choice) = first_of(has, &words[at..]) else {
            return Ok(None);
        };
        choose(terminal, choice, &mut options)?;
        at += len(choice);
    }
    Ok(Some(options))
}

/// What no option comes to.
fn no_options<'a, A: Memory>(alloc: A, terminal: bool) -> Options<'a, A>
    ensures { chosen_of result ≡ nothing_chosen terminal }
{
    Options {
        json: false,
        full: false,
        secrets: false,
        resume: false,
        replicating: false,
        only: Vec::new(alloc),
        except: Vec::new(alloc),
        colored: terminal,
        kinds: Vec::new(alloc),
        slower: 0,
        marking: Marking {
            absolute: false,
            numbered: false,
            summed: false,
            folded: false,
            raw: false,
            named: false,
        },
        files: Vec::new(alloc),
    }
}

/// Adds an option.
fn choose<'a, A: Memory>(
    terminal: bool,
    choice: Choice<'a>,
    options: &mut Options<'a, A>,
) -> Result<(), AllocError>
    ensures chosen { OnOk result (chosen_of options.new ≡ chooses terminal (chosen_of options.old) choice.entry) }
    ensures lacks { OnErr result A.Lacks }
{
    match choice {
        Choice::File(name) => add_file(name, &mut options.files)?,
        Choice::AsJson => options.json = true,
        Choice::Full => options.full = true,
        Choice::Secrets => options.secrets = true,
        Choice::Resume => options.resume = true,
        Choice::Replication => options.replicating = true,
        Choice::Only(names) => add_names(names, &mut options.only)?,
        Choice::Except(names) => add_names(names, &mut options.except)?,
        Choice::Color(when) => options.colored = is_colored(terminal, when),
        Choice::Kind(kind) => A::push(&mut options.kinds, kind)?,
        Choice::Slower(_, millis) => {
            options.slower = u64::from(millis) * 1000;
            mark(choice, &mut options.marking)
        }
        Choice::Time(_)
        | Choice::Requests
        | Choice::Summary
        | Choice::Fold
        | Choice::Raw
        | Choice::Names => mark(choice, &mut options.marking),
    }
    Ok(())
}

/// Adds the name of a file.
fn add_file<'a, A: Memory>(name: &'a str, files: &mut Vec<&'a str, A>) -> Result<(), AllocError>
    ensures file { OnOk result (map (λ file. file.now) files.new.items ≡ map (λ file. file.now) files.old.items ++ name.now ∷ []) }
    ensures lacks { OnErr result A.Lacks }
{
    A::push(files, name)?;
    Ok(())
}

/// Adds an option that says something of marks.
fn mark(choice: Choice<'_>, marking: &mut Marking)
    ensures { marking.new ≡ marks choice.entry marking.old }
{
    match choice {
        Choice::Time(clock) => marking.absolute = matches!(clock, Clock::Absolute),
        Choice::Requests | Choice::Slower(..) => marking.numbered = true,
        Choice::Summary => {
            marking.numbered = true;
            marking.summed = true;
        }
        Choice::Fold => marking.folded = true,
        Choice::Raw => marking.raw = true,
        Choice::Names => marking.named = true,
        _ => {}
    }
}

/// Whether a listing has colours that a terminal shows or not.
fn is_colored(terminal: bool, when: When) -> bool
    ensures { result ≡ is_colored terminal when }
{
    match when {
        When::Auto => terminal,
        When::Always => true,
        When::Never => false,
    }
}

/// How many words an option has.
fn len(choice: Choice<'_>) -> usize
    ensures { result ≡ length (spelled choice.entry) }
{
    match choice {
        Choice::Only(_)
        | Choice::Except(_)
        | Choice::Color(_)
        | Choice::Kind(_)
        | Choice::Time(_)
        | Choice::Slower(..) => 2,
        _ => 1,
    }
}

/// The option that stands first, where it is one that the listing has.
fn first_of<'a>(has: &[&str], words: &[&'a str]) -> Option<Choice<'a>>
    ensures some { IfSome result (λ choice. IsOneOf (map (λ word. word.now) has.now) choice × (map (λ word. word.now) words.now ≡ spelled choice ++ map (λ word. word.now) (drop (length (spelled choice)) words.now))) }
    ensures none { IfNone result (BeginsWithNoneOf (map (λ word. word.now) has.now) (map (λ word. word.now) words.now)) }
{
    let (word, _) = words.split_first()?;
    if !has_word(has, key_of(word)) {
        return None;
    }
    first_choice(words)
}

/// Under which word an option stands among those of a listing.
fn key_of(word: &str) -> &str
    ensures { result.now ≡ key_of word.now }
{
    if is_file(word) { "FILE" } else { word }
}

/// Whether a word is the name of a file.
fn is_file(word: &str) -> bool
    ensures { result ≡ is_file word.now }
{
    match word.as_bytes().first() {
        Some(first) => *first != b'-',
        None => false,
    }
}

/// The option that stands first.
fn first_choice<'a>(words: &[&'a str]) -> Option<Choice<'a>>
    ensures some { IfSome result (λ choice. IsSound choice × (map (λ word. word.now) words.now ≡ spelled choice ++ map (λ word. word.now) (drop (length (spelled choice)) words.now))) }
    ensures none { IfNone result (BeginsWithNone (map (λ word. word.now) words.now)) }
{
    let (word, rest) = words.split_first()?;
    if is_file(word) {
        return Some(Choice::File(*word));
    }
    match *word {
        "--json" => Some(Choice::AsJson),
        "--full" => Some(Choice::Full),
        "--secrets" => Some(Choice::Secrets),
        "--resume" => Some(Choice::Resume),
        "--replication" => Some(Choice::Replication),
        "--only" => Some(Choice::Only(first_names(rest)?)),
        "--except" => Some(Choice::Except(first_names(rest)?)),
        "--color" => first_when(rest),
        "--password-kind" => first_kind(rest),
        "--time" => first_clock(rest),
        "--requests" => Some(Choice::Requests),
        "--slower" => first_millis(rest),
        "--summary" => Some(Choice::Summary),
        "--fold" => Some(Choice::Fold),
        "--raw" => Some(Choice::Raw),
        "--names" => Some(Choice::Names),
        _ => None,
    }
}

/// When a listing has colours, by the word that stands first.
fn first_when<'a>(words: &[&str]) -> Option<Choice<'a>>
    ensures some { IfSome result (λ choice. IsSound choice × (length (spelled choice) ≡ 2) × (codes "--color" ∷ map (λ word. word.now) words.now ≡ spelled choice ++ map (λ word. word.now) (drop 1 words.now))) }
    ensures none { IfNone result (BeginsWithNone (codes "--color" ∷ map (λ word. word.now) words.now)) }
{
    let (word, _) = words.split_first()?;
    match *word {
        "auto" => Some(Choice::Color(When::Auto)),
        "always" => Some(Choice::Color(When::Always)),
        "never" => Some(Choice::Color(When::Never)),
        _ => None,
    }
}

/// The kind that the word names that stands first.
fn first_kind<'a>(words: &[&str]) -> Option<Choice<'a>>
    ensures some { IfSome result (λ choice. IsSound choice × (length (spelled choice) ≡ 2) × (codes "--password-kind" ∷ map (λ word. word.now) words.now ≡ spelled choice ++ map (λ word. word.now) (drop 1 words.now))) }
    ensures none { IfNone result (BeginsWithNone (codes "--password-kind" ∷ map (λ word. word.now) words.now)) }
{
    let (word, _) = words.split_first()?;
    match *word {
        "password" => Some(Choice::Kind(PasswordKind::Password)),
        "initial" => Some(Choice::Kind(PasswordKind::Initial)),
        "response" => Some(Choice::Kind(PasswordKind::Response)),
        _ => None,
    }
}

/// What times are counted from, by the word that stands first.
fn first_clock<'a>(words: &[&str]) -> Option<Choice<'a>>
    ensures some { IfSome result (λ choice. IsSound choice × (length (spelled choice) ≡ 2) × (codes "--time" ∷ map (λ word. word.now) words.now ≡ spelled choice ++ map (λ word. word.now) (drop 1 words.now))) }
    ensures none { IfNone result (BeginsWithNone (codes "--time" ∷ map (λ word. word.now) words.now)) }
{
    let (word, _) = words.split_first()?;
    match *word {
        "absolute" => Some(Choice::Time(Clock::Absolute)),
        "relative" => Some(Choice::Time(Clock::Relative)),
        _ => None,
    }
}

/// A number of milliseconds, by the word that stands first.
fn first_millis<'a>(words: &[&'a str]) -> Option<Choice<'a>>
    ensures some { IfSome result (λ choice. IsSound choice × (length (spelled choice) ≡ 2) × (codes "--slower" ∷ map (λ word. word.now) words.now ≡ spelled choice ++ map (λ word. word.now) (drop 1 words.now))) }
    ensures none { IfNone result (BeginsWithNone (codes "--slower" ∷ map (λ word. word.now) words.now)) }
{
    let (word, _) = words.split_first()?;
    match word.parse::<u32>() {
        Ok(millis) => Some(Choice::Slower(*word, millis)),
        Err(_) => None,
    }
}
